//! What holds of each collection that is asked of a hall: theorems on the definitions, with no code.
ghost use Rattle.std.specs.Prelude.{◌≡◌, ◌+◌, ◌*◌, ◌≤◌, ℕ, List, length, slice_set, Option, Some};
ghost use Rattle.std.specs.List.{slice_get};
ghost use Rattle.depot.specs.DepotView.{DepotView, state_of};
ghost use Rattle.library_rules.specs.LibraryState.{State};
ghost use Rattle.sync_calls.specs.Collecting.{EndsSo, GoesOnOver, OneTurn, TurnsOn, lines_of};
ghost use Rattle.sync_calls.specs.Operations.{Lines};
ghost use Rattle.sync_calls.specs.Shown.{Knows, Shown};
ghost use Rattle.sync_calls.specs.declared.collecting.Collected.{Collected};

use library_state::Clock;
use object_store::Shelf;

/// Where the library is told, a collection that is asked for takes at most two turns for each object that was stored as it was
/// begun, and two more, of which one begins it and one ends it or is refused; beside them there may be one that was over.
pub fn a_collection_through_a_hall_takes_few_turns<S: Shelf, C: Clock>()
    ensures { (clock : C) → (u : Shown S) → (v : Shown S) → (start : DepotView S) → (s : State) → (ends : Collected) → (turns : List OneTurn)
        → (drawn : ℕ) → (stored : ℕ) → v.start ≡ Some start → state_of S.contents S.faults start ≡ Some s → Knows S.contents S.may_give S.texts S.faults v
        → EndsSo S.contents S.may_give S.texts S.faults (C.shows clock) u ends turns v drawn → GoesOnOver turns stored v → length turns ≤ 2 * stored + 2 }
{}

/// Its turns are operations on one library, one after another: what is shown of the others stays.
pub fn turns_of_a_collection_are_operations_on_its_library<S: Shelf, C: Clock>()
    ensures { (clock : C) → (us : List (Shown S)) → (library : ℕ) → (u : Shown S) → (goal : Option ℕ) → (turns : List OneTurn) → (v : Shown S)
        → (last : Option ℕ) → slice_get us library ≡ Some u → TurnsOn S.contents S.may_give S.texts S.faults (C.shows clock) u goal turns v last
        → Lines S.contents S.may_give S.texts S.faults us (lines_of library turns) (slice_set us library v) }
{}
