//! What the shelf of a library stands for, through calls, refusals and stops: theorems on the definitions, with no code.
ghost use Rattle.library_state.specs.declared.state.TheConstants.{MAX_STATE_NAME};
ghost use Rattle.std.specs.Prelude.{◌≡◌, ◌≤◌, ◌<◌, ◌-◌, ◌^◌, ◌++◌, ◌∷◌, ℕ, List, length, Option, Some, Result, true, false};
ghost use Rattle.ids.specs.Key.{Objects};
ghost use Rattle.library_rules.specs.LibraryState.{IsSound, State, is_kept};
ghost use Rattle.library_rules.specs.Recovery.{StandsFor};
ghost use Rattle.library_state.specs.declared.call.Act.TheVariants as act;
ghost use Rattle.library_state.specs.declared.call.Call.{Call};
ghost use Rattle.library_state.specs.declared.reply.Reply.TheVariants.{Updated};
ghost use Rattle.library_state.specs.declared.state.LibState.{LibState};
ghost use Rattle.object_store.specs.Shelf.{Contents};
ghost use Rattle.object_store.specs.StoreView.{HasNoStray, StoreView, objects_of};
ghost use Rattle.depot.specs.DepotView.{DepotView, IsGood, state_of};
ghost use Rattle.depot.specs.Story.{ComesBy, Done, IsAnswered, IsDoneSo, Runs};
ghost use Rattle.depot.specs.declared.story.Change.{Change};
ghost use Rattle.depot.specs.declared.error.MakeFault.{MakeFault};
ghost use Rattle.depot.specs.declared.error.StartFault.{StartFault};
ghost use Rattle.stop_laws.specs.Reopening.{IsOpening, IsRefusedMaking, LeavesUnmade, OpensAgain};
ghost use Rattle.stop_laws.specs.Stops.{AllKeep, IsOpen, Leaves, Retains, Stood, WasRefused, WouldMake};

use object_store::Shelf;

/// As a call, a turn of a collection or the adding of a token returns, a refusal too, the shelf stands for the library as it is; or,
/// while its text is open, for what it was open to, or for what was refused. Each is sound.
pub fn as_each_call_returns_the_shelf_stands_for_the_library<S: Shelf>()
    ensures { (old : DepotView S) → (done : Done) → (new : DepotView S) → (before : Contents) → (held : Contents) → (t : State) → IsGood S.contents S.faults old
        → IsDoneSo S.contents S.may_give S.texts S.faults old done new → S.contents old.store.shelf ≡ Some before → S.contents new.store.shelf ≡ Some held
        → state_of S.contents S.faults new ≡ Some t
        → Leaves (WouldMake S.contents S.may_give S.texts S.faults old done) before.status held old.unsettled new.unsettled t }
{}

/// However many calls and turns there are, and wherever the shelf fails or stops, it stands for the library, or for what one refused
/// call would have made, since which no text was written.
pub fn after_any_calls_the_shelf_stands_for_the_library_or_for_what_was_refused<S: Shelf>()
    ensures { (start : DepotView S) → (dones : List Done) → (now : DepotView S) → (runs : Runs S.contents S.may_give S.texts S.faults start dones now)
        → (first : Contents) → (held : Contents) → (t : State) → IsGood S.contents S.faults start → start.unsettled ≡ false → S.contents start.store.shelf ≡ Some first
        → S.contents now.store.shelf ≡ Some held → state_of S.contents S.faults now ≡ Some t → Stood S.contents S.may_give S.texts S.faults start dones now runs held t }
{}

/// A kept commit stays kept in the library, and in each state to which its text is open, unless a begin of a collection cuts it away, done
/// or refused by the shelf.
pub fn a_kept_commit_is_kept_in_whatever_the_shelf_stands_for<S: Shelf>()
    ensures { (start : DepotView S) → (dones : List Done) → (now : DepotView S) → (runs : Runs S.contents S.may_give S.texts S.faults start dones now)
        → (commit : List ℕ) → is_kept start.state.kept commit ≡ true → Retains S.contents S.may_give S.texts S.faults start dones now runs commit
        → (is_kept now.state.kept commit ≡ true) × ((next : LibState) → IsOpen S.contents S.may_give S.texts S.faults start dones now runs next → is_kept next.kept commit ≡ true) }
{}

/// An update that was answered leaves its commit kept, and where it installed it, the slot settled.
pub fn an_answered_update_keeps_its_commit_in_a_settled_text<S: Shelf>()
    ensures { (old : DepotView S) → (call : Call) → (moment : ℕ) → (head : List ℕ) → (pushed : List ℕ) → (new : DepotView S)
        → IsAnswered S.contents S.may_give S.texts S.faults old call moment (Updated head) new → call.act ≡ act.Update pushed
        → (is_kept new.state.kept pushed ≡ true) × (is_kept old.state.kept pushed ≡ false → new.unsettled ≡ false) }
{}

/// Through a history, as a hall keeps one of each of its libraries, so too: the shelf stands for the library to which it led, or for what
/// one refused call would have made, since which no text was written.
pub fn after_a_history_the_shelf_stands_for_the_library_or_for_what_was_refused<S: Shelf>()
    ensures { (start : DepotView S) → (changes : List (Change (DepotView S))) → (now : DepotView S) → (comes : ComesBy S.contents S.may_give S.texts S.faults start changes now)
        → (first : Contents) → (held : Contents) → (t : State) → IsGood S.contents S.faults start → start.unsettled ≡ false → S.contents start.store.shelf ≡ Some first
        → S.contents now.store.shelf ≡ Some held → state_of S.contents S.faults now ≡ Some t
        → Stood S.contents S.may_give S.texts S.faults start comes.ran.dones now comes.ran.runs held t }
{}

/// What the text is open to after a history is what one of its changes, a refused one, would have made: below 2^64 - 1 faults each refusal
/// by the shelf is a change.
pub fn a_text_is_open_to_what_a_change_was_refused<S: Shelf>()
    ensures { (start : DepotView S) → (changes : List (Change (DepotView S))) → (now : DepotView S) → (comes : ComesBy S.contents S.may_give S.texts S.faults start changes now)
        → (next : LibState) → S.faults now.store.shelf < 2 ^ 64 - 1 → IsOpen S.contents S.may_give S.texts S.faults start comes.ran.dones now comes.ran.runs next
        → WasRefused S.contents S.may_give S.texts S.faults changes next }
{}

/// A commit that was kept as a history began stays kept in what it led to, and in each state to which the text is open then, unless one of its
/// changes is a begin of a collection that cuts it away, done or refused by the shelf.
pub fn a_kept_commit_is_kept_through_a_history<S: Shelf>()
    ensures { (start : DepotView S) → (changes : List (Change (DepotView S))) → (now : DepotView S) → (comes : ComesBy S.contents S.may_give S.texts S.faults start changes now)
        → (commit : List ℕ) → S.faults now.store.shelf < 2 ^ 64 - 1 → is_kept start.state.kept commit ≡ true → AllKeep S.contents S.may_give S.texts S.faults changes commit
        → (is_kept now.state.kept commit ≡ true)
        × ((next : LibState) → IsOpen S.contents S.may_give S.texts S.faults start comes.ran.dones now comes.ran.runs next → is_kept next.kept commit ≡ true) }
{}

/// So does one that a change of the history left kept in a settled text, as an update that was answered leaves the commit that it installed.
pub fn a_commit_that_a_change_kept_stays_kept<S: Shelf>()
    ensures { (start : DepotView S) → (changes : List (Change (DepotView S))) → (now : DepotView S) → (comes : ComesBy S.contents S.may_give S.texts S.faults start changes now)
        → (before : List (Change (DepotView S))) → (change : Change (DepotView S)) → (later : List (Change (DepotView S))) → (commit : List ℕ)
        → S.faults now.store.shelf < 2 ^ 64 - 1 → changes ≡ before ++ change ∷ later → change.after.value.unsettled ≡ false
        → is_kept change.after.value.state.kept commit ≡ true → AllKeep S.contents S.may_give S.texts S.faults later commit
        → (is_kept now.state.kept commit ≡ true) × (now.unsettled ≡ true
        → (next : LibState) → IsOpen S.contents S.may_give S.texts S.faults start comes.ran.dones now comes.ran.runs next → is_kept next.kept commit ≡ true) }
{}

/// While no fault of the shelf is counted through a history, no object comes to lie there that the library's store doesn't hold: where each
/// that lay there as it began was the library's, so is each as it ends.
pub fn while_nothing_fails_what_lies_there_is_the_librarys<S: Shelf>()
    ensures { (start : DepotView S) → (changes : List (Change (DepotView S))) → (now : DepotView S) → ComesBy S.contents S.may_give S.texts S.faults start changes now
        → HasNoStray S.contents start.store → S.faults now.store.shelf < 2 ^ 64 - 1 → S.faults now.store.shelf ≡ S.faults start.store.shelf → HasNoStray S.contents now.store }
{}

/// A shelf that stands for a sound library is opened as it, with one opening more; or the opening is refused, by the last opening number,
/// by damage of an object that lies there, by the shelf, or for want of memory, and the shelf then stands for it as before, or where the
/// shelf failed with one opening more.
pub fn a_shelf_that_stands_for_a_library_is_opened_as_it<S: Shelf>()
    ensures { (store : StoreView S) → (held : Contents) → (s : State) → (result : Result (DepotView S) (StoreView S × StartFault)) → HasNoStray S.contents store
        → S.contents store.shelf ≡ Some held → IsSound s → StandsFor held.status held.objects s → IsOpening S.contents S.faults store result
        → OpensAgain S.contents S.faults held (S.faults store.shelf) s result }
{}

/// A making that was refused leaves no other library than the one that was to be made.
pub fn a_refused_making_leaves_no_other_library<S: Shelf>()
    ensures { (store : StoreView S) → (objects : Objects) → (lib : List ℕ) → (name : List ℕ) → (user : List ℕ) → (secret : List ℕ) → (moment : ℕ)
        → (left : StoreView S) → (fault : MakeFault) → (before : Contents) → (held : Contents) → length name ≤ MAX_STATE_NAME → 1 ≤ length user → length user ≤ MAX_STATE_NAME
        → IsRefusedMaking S.contents store lib name user secret moment left fault → objects_of S.contents store ≡ Some objects → S.contents store.shelf ≡ Some before
        → S.contents left.shelf ≡ Some held → LeavesUnmade lib name user secret moment (S.faults store.shelf) objects before.status held fault }
{}
