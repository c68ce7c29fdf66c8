//! What holds of a library that is served alone, and of several on one connection: theorems on the definitions, with no code.
ghost use Rattle.std.specs.Prelude.{◌≡◌, ◌+◌, ◌*◌, ◌≤◌, ◌<◌, ◌^◌, ◌||◌, ℕ, List, [], length, slice_index_or, sum_by, Option, None, Some, true, ⊤};
ghost use Rattle.std.specs.List.{AllByRecursion, slice_get};
ghost use Rattle.ids.specs.declared.key.Key.{Key};
ghost use Rattle.depot.specs.DepotView.{DepotView, state_of};
ghost use Rattle.depot.specs.Story.{IsSame, removed_through};
ghost use Rattle.library_rules.specs.LibraryState.{State, is_fresh, is_needed, is_stored};
ghost use Rattle.worker_server.specs.declared.host.Collected.{Collected};
ghost use Rattle.worker_server.specs.declared.host.Collected.TheVariants.{Done};
ghost use Rattle.http_front.specs.declared.outcome.Outcome.{Outcome};
ghost use Rattle.http_front.specs.declared.order.What.TheVariants.{GetFs};
ghost use Rattle.worker_server.specs.Calls.{Ran, ServedBy, Told, most_packed, rules_at};
ghost use Rattle.library_server.specs.Answering.{AnswersOn, AsksTooMuch, IsWant, LooksOn, SparesOn};
ghost use Rattle.library_server.specs.Collecting.{CollectsOn, IsLastOf, TakesTurns, begun_over};
ghost use Rattle.link_ears.specs.Ear.{LinkView, link_seen};
ghost use Rattle.hall_workers.specs.declared.worker.Worker.{Worker};
ghost use Rattle.server_words.specs.declared.line.Line.{Line as CommandLine};
ghost use Rattle.library_server.specs.Counting.{OpenedView, is_current, last_count, tag_at};
ghost use Rattle.hall_server.specs.Serving.{TellsTakenOf, hall_rules, hall_shown};
ghost use Rattle.library_server.specs.HallConnections.{HasNoCollection, ServesHall};
ghost use Rattle.library_server.specs.Port.{ServesWorkers, TellsTakenThrough};
ghost use Rattle.sync_calls.specs.Hall.{PassOf, shown_by};
ghost use Rattle.sync_calls.specs.Operations.{Line};
ghost use Rattle.sync_calls.specs.Shown.{Shown};

use library_state::Clock;
use link_ears::Net;
use object_store::Shelf;

/// After a collection that is told as done each stored object is needed by a kept commit, or was fresh in the collection that
/// ran as this one was asked for. So where none ran, nothing is left but what is needed.
pub fn what_is_left_of_a_collection_that_began_here_is_needed<S: Shelf, C: Clock>()
    ensures left { (clock : C) (old new : OpenedView S) (lib : List ℕ) (secret : Option (List ℕ)) (number removed : ℕ) (lines : List ⊤) (s t : State)
        → state_of S.contents S.faults old.depot ≡ Some s → state_of S.contents S.faults new.depot ≡ Some t
        → CollectsOn S.contents S.may_give S.texts S.faults (C.shows clock) old lib secret (Done number removed) lines new
        → (key : Key) → is_stored t.objects key ≡ true → (is_needed t.objects t.state.kept key || is_fresh s.running key) ≡ true }
    ensures idle { (clock : C) (old new : OpenedView S) (lib : List ℕ) (secret : Option (List ℕ)) (number removed : ℕ) (lines : List ⊤) (s t : State)
        → state_of S.contents S.faults old.depot ≡ Some s → state_of S.contents S.faults new.depot ≡ Some t → s.running ≡ None
        → CollectsOn S.contents S.may_give S.texts S.faults (C.shows clock) old lib secret (Done number removed) lines new
        → (key : Key) → is_stored t.objects key ≡ true → is_needed t.objects t.state.kept key ≡ true }
{}

/// A collection that is asked for takes at most two turns for each object that was known as it began, and two more. So where
/// fewer than 2^62 were, its last turn ended it or was refused.
pub fn a_collection_that_is_asked_for_takes_few_turns<S: Shelf, C: Clock>()
    ensures few { (clock : C) (old new : OpenedView S) (ends : Collected) (s : State) → state_of S.contents S.faults old.depot ≡ Some s
        → (takes : TakesTurns S.contents S.may_give S.texts S.faults (C.shows clock) old ends new) → length takes.0 ≤ 2 * begun_over old.depot + 2 }
    ensures last { (clock : C) (old new : OpenedView S) (ends : Collected) (s : State) → state_of S.contents S.faults old.depot ≡ Some s → begun_over old.depot < 2 ^ 62
        → (takes : TakesTurns S.contents S.may_give S.texts S.faults (C.shows clock) old ends new) → IsLastOf takes.0 ends }
{}

/// Through calls, collections and looks the count of changes never falls. Where it is as it was, below the largest count, the
/// library is the same in all that has its place in a history: so no two states show one tag, and a look tells that a library is
/// still in the state of a tag only where it is.
pub fn a_tag_tells_one_state_of_an_opened_library<S: Shelf, C: Clock>()
    ensures bound { (clock : C) (old new : OpenedView S) (calls : List (Told ⊤)) → old.changes ≤ last_count
        → Ran (rules_at (C.shows clock) (AnswersOn S.contents S.may_give S.texts S.faults) SparesOn (CollectsOn S.contents S.may_give S.texts S.faults) LooksOn) old calls new
        → old.changes ≤ new.changes }
    ensures same { (clock : C) (old new : OpenedView S) (calls : List (Told ⊤)) → old.changes < last_count
        → Ran (rules_at (C.shows clock) (AnswersOn S.contents S.may_give S.texts S.faults) SparesOn (CollectsOn S.contents S.may_give S.texts S.faults) LooksOn) old calls new
        → tag_at new ≡ tag_at old → IsSame S.contents S.faults old.depot new.depot }
    ensures told { (clock : C) (old new : OpenedView S) (calls : List (Told ⊤)) (lib : List ℕ) (secret : Option (List ℕ)) → old.changes ≤ last_count
        → Ran (rules_at (C.shows clock) (AnswersOn S.contents S.may_give S.texts S.faults) SparesOn (CollectsOn S.contents S.may_give S.texts S.faults) LooksOn) old calls new
        → is_current new lib secret (tag_at old) ≡ true → IsSame S.contents S.faults old.depot new.depot }
{}

/// Files and directories that a library's index knows to have together more bytes than one reply packs aren't read for one who may
/// ask for them: the outcome is want of memory, and the library is as it was.
pub fn what_is_too_much_for_one_reply_is_not_read<S: Shelf, C: Clock>()
    ensures { (clock : C) (old new : OpenedView S) (lib : List ℕ) (secret : Option (List ℕ)) (ids : List (List ℕ)) (outcome : Outcome) (operations : List ⊤)
        → ServedBy (rules_at (C.shows clock) (AnswersOn S.contents S.may_give S.texts S.faults) SparesOn (CollectsOn S.contents S.may_give S.texts S.faults) LooksOn) lib secret (GetFs ids) old outcome operations new
        → AsksTooMuch old lib secret ids most_packed → IsWant outcome × (new ≡ old) }
{}

/// A call is told that the lock of its library is spent, without a turn, only where all its turns were taken: on a connection with several
/// libraries through the one pass that serves it, at a port through those of all workers, whose turns are added up.
pub fn spent_is_told_only_where_all_turns_were_taken<S: Shelf, C: Clock, N: Net>()
    ensures hall { (clock : C) (depots afters : List (DepotView S)) (before now : LinkView) (status : ℕ)
        → (serves : ServesHall S.contents S.may_give S.texts S.faults (C.shows clock) depots afters before now status)
        → (calls : List (Told Line)) → Ran (hall_rules S.contents S.may_give S.texts S.faults (C.shows clock)) (hall_shown serves.pass) calls serves.last
        → AllByRecursion (TellsTakenOf serves.last.libraries) calls }
    ensures port { (clock : C) (depots afters : List (DepotView S)) (ears ends : List N.E) (told : CommandLine)
        → (serves : ServesWorkers S.contents S.may_give S.texts S.faults
        (record { hears = N.hears; tells = N.E.tells; back = N.E.back; faults = N.E.faults; seen = link_seen N.E.L.left N.E.L.taken N.E.L.given N.E.L.asked N.E.L.faults }) (C.shows clock) depots afters ears ends told)
        → (i : ℕ) (p : PassOf S) (e : N.E) (w : Worker (PassOf S) N.E) (below : i < length ears)
        → TellsTakenThrough S.contents S.may_give S.texts S.faults
        (record { hears = N.hears; tells = N.E.tells; back = N.E.back; faults = N.E.faults; seen = link_seen N.E.L.left N.E.L.taken N.E.L.given N.E.L.asked N.E.L.faults }) (C.shows clock) serves.last (slice_index_or serves.passes i p)
        (serves.works i p e w below).had (slice_index_or serves.workers i w).pass (serves.works i p e w below).through }
    ensures turns { (clock : C) (depots afters : List (DepotView S)) (ears ends : List N.E) (told : CommandLine)
        → (serves : ServesWorkers S.contents S.may_give S.texts S.faults
        (record { hears = N.hears; tells = N.E.tells; back = N.E.back; faults = N.E.faults; seen = link_seen N.E.L.left N.E.L.taken N.E.L.given N.E.L.asked N.E.L.faults }) (C.shows clock) depots afters ears ends told)
        → (library : ℕ) (u : Shown S) → slice_get serves.last library ≡ Some u
        → u.turns ≡ sum_by (λ (w : Worker (PassOf S) N.E). (slice_index_or (shown_by w.pass) library u).turns) serves.workers }
{}

/// Through a connection with several libraries on which no collection is asked for no key of any of them leaves. So damage that is told then
/// has its cause in what the library might give as it was started, or in what was laid since.
pub fn a_connection_without_a_collection_lets_no_key_go<S: Shelf, C: Clock>()
    ensures { (clock : C) (depots afters : List (DepotView S)) (before now : LinkView) (status : ℕ)
        → (serves : ServesHall S.contents S.may_give S.texts S.faults (C.shows clock) depots afters before now status)
        → (calls : List (Told Line)) → Ran (hall_rules S.contents S.may_give S.texts S.faults (C.shows clock)) (hall_shown serves.pass) calls serves.last → HasNoCollection calls
        → (library : ℕ) (shown : Shown S) → slice_get serves.last.libraries library ≡ Some shown → removed_through shown.seen ≡ [] }
{}
