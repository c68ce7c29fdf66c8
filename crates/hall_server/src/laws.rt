//! What holds of every connection with a hall: theorems on the definitions, with no code.
ghost use Rattle.std.specs.Prelude.{◌≡◌, ◌+◌, ℕ, List, Some};
ghost use Rattle.std.specs.List.{AllByRecursion, slice_get};
ghost use Rattle.library_state.specs.declared.call.Call.{Call};
ghost use Rattle.sync_calls.specs.Hall.{AreWithin, StaySpent};
ghost use Rattle.sync_calls.specs.Operations.{Line};
ghost use Rattle.sync_calls.specs.Shown.{Shown};
ghost use Rattle.worker_server.specs.Calls.{Ran, Told, operations_of};
ghost use Rattle.worker_server.specs.ServedConnection.{Answers, Exchange, Run, operations_in};
ghost use Rattle.worker_server.specs.declared.host.Answer.{Answer};
ghost use Rattle.hall_server.specs.Causes.{AreCausedAt};
ghost use Rattle.hall_server.specs.Serving.{Goes, HallShown, IsNewIn, TellsSpentOf, TellsTakenOf, hall_rules, turns_at};
ghost use Rattle.hall_server.specs.Tags.{IsLeftAt, TagsSo};

use library_state::Clock;
use object_store::Shelf;

/// What the requests that were answered on a connection with a hall leave in its pass are their operations, in their order.
pub fn the_operations_of_a_connection_are_those_of_its_requests<S: Shelf, C: Clock>()
    ensures { (clock : C) (old new : HallShown S) (exchanges : List (Exchange Line)) → Run (hall_rules S.contents S.may_give S.texts S.faults (C.shows clock)) old exchanges new
        → Goes S.contents S.may_give S.texts S.faults old.libraries (operations_in exchanges) new.libraries }
{}

/// So does one that was asked, also where the connection stopped before its reply was given whole.
pub fn a_request_leaves_its_operations<S: Shelf, C: Clock>()
    ensures { (clock : C) (old new : HallShown S) (exchange : Exchange Line) → Answers (hall_rules S.contents S.may_give S.texts S.faults (C.shows clock)) old exchange new
        → Goes S.contents S.may_give S.texts S.faults old.libraries exchange.operations new.libraries }
{}

/// The turns that a pass took at a library through a connection are those of its operations there: one each, but none for a look, and one for
/// each turn that only told that a collection is over.
pub fn the_turns_of_a_connection_are_those_of_its_operations<S: Shelf>()
    ensures { (us vs : List (Shown S)) (lines : List Line) → (goes : Goes S.contents S.may_give S.texts S.faults us lines vs)
        → (library : ℕ) (u v : Shown S) → slice_get us library ≡ Some u → slice_get vs library ≡ Some v → v.turns ≡ u.turns + turns_at library goes.all }
{}

/// The place of each operation of a connection isn't before what the pass had seen and looked at of its library as the connection
/// began: no reply tells of an older state.
pub fn the_operations_of_a_connection_are_new<S: Shelf, C: Clock>()
    ensures { (clock : C) (old new : HallShown S) (calls : List (Told Line)) → Ran (hall_rules S.contents S.may_give S.texts S.faults (C.shows clock)) old calls new
        → AllByRecursion (IsNewIn old.libraries) (operations_of calls) }
{}

/// The tag of an answer that took a turn names the state that its call left: the library that stands at that place of the history,
/// by all that the pass has seen at the end. So two answers of one library with one tag tell of one state. A look tells that a
/// library is still in the state of a tag only where its history had just that length.
pub fn a_tag_of_a_hall_tells_one_state<S: Shelf, C: Clock>()
    ensures told { (clock : C) (old new : HallShown S) (calls : List (Told Line)) → Ran (hall_rules S.contents S.may_give S.texts S.faults (C.shows clock)) old calls new
        → AllByRecursion (TagsSo S.contents S.may_give S.texts S.faults new.libraries) calls }
    ensures same { (vs : List (Shown S)) (library : ℕ) (c d : Call) (m n : ℕ) (p q : Answer) → (a : IsLeftAt S.contents S.may_give S.texts S.faults vs library c m p)
        → (b : IsLeftAt S.contents S.may_give S.texts S.faults vs library d n q) → p.place ≡ q.place → a.there ≡ b.there }
{}

/// A call is told that the lock of its library is spent, without a turn, only where that lock shows so at the end of the connection too; so is a
/// collection, unless its last turn was refused so, since one would begin behind the greatest number.
/// Where the pass read of no more turns than were taken, as at the end of a hall, it is told only where all turns of that lock were taken.
pub fn spent_is_told_only_of_a_lock_that_is_spent<S: Shelf, C: Clock>()
    ensures stays { (clock : C) (old new : HallShown S) (calls : List (Told Line)) → Ran (hall_rules S.contents S.may_give S.texts S.faults (C.shows clock)) old calls new
        → StaySpent old.drawn new.drawn }
    ensures told { (clock : C) (old new : HallShown S) (calls : List (Told Line)) → Ran (hall_rules S.contents S.may_give S.texts S.faults (C.shows clock)) old calls new
        → AllByRecursion (TellsSpentOf new) calls }
    ensures taken { (clock : C) (old new : HallShown S) (calls : List (Told Line)) → Ran (hall_rules S.contents S.may_give S.texts S.faults (C.shows clock)) old calls new
        → AreWithin new.drawn new.libraries → AllByRecursion (TellsTakenOf new.libraries) calls }
{}

/// Damage that is told on a connection has its cause in what the library that was asked might give as its history began, or in that
/// nothing lies under a key which a turn of a collection removed, among the changes that the pass has seen at the end: what calls lay
/// since lies under names that its bytes don't contradict, whichever pass asked them.
pub fn damage_on_a_connection_has_its_cause<S: Shelf, C: Clock>()
    ensures { (clock : C) (old new : HallShown S) (calls : List (Told Line)) → Ran (hall_rules S.contents S.may_give S.texts S.faults (C.shows clock)) old calls new
        → AreCausedAt S.may_give new.libraries calls }
{}
