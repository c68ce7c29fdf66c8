//! How a library is opened again.
ghost use Rattle.std.specs.Prelude.{None, ◌≡◌, ◌≢◌, ℕ, List, Option, Some, IfOk, IfErr, OnOk, Err, [], false, ⊤};
ghost use Rattle.ids.specs.FaultCount.{FailsBy};
ghost use Rattle.ids.specs.Key.{Objects};
ghost use Rattle.library_rules.specs.LibraryState.{last_number};
ghost use Rattle.library_state.specs.ProperState.{IsProper};
ghost use Rattle.library_state.specs.StateSpelling.{text_of};
ghost use Rattle.object_store.specs.Shelf.{GivesAlso};
ghost use Rattle.object_store.specs.StoreView.{AddsNoStray, Keeps, ReadsShelf, objects_of, status_of};
ghost use Rattle.object_store.specs.declared.shelf.Slot.TheVariants as slots;
ghost use Rattle.depot.specs.DepotView.{FitsIn, IsGood, IsSoundIn};
ghost use Rattle.depot.specs.Start.{IsDueOr, IsFound, IsGiven, IsNextOf, IsOpened, IsStartFault, IsStateFault, IsTextFault, LeftUnopenedBy, OpensTold, StartsAs, is_start_counted, start_refusal, state_refusal, without_store};

use crate::complete::{CheckFault, check_kept};
use crate::depot::{Depot, Parts};
use crate::error::StartFault;
use crate::state_write::write_text;
use json_words::ReadFault;
use library_state::{LAST, LibState};
use object_store::{Shelf, Store, StoreFault};
use std::alloc::Global;
use tree_walk::Known;

impl<S: Shelf> Depot<S> {
    /// Opens the library whose state text the shelf holds, with all objects that lie there, and counts the opening.
    ///
    /// Each kept commit is checked to be complete, and what was found whole is kept known. After a refusal the store is given back as it was, but that after a
    /// failure of the shelf the text may be the one with the next opening number.
    pub fn start(alloc: Global, store: Store<S>) -> Result<Depot<S>, (Store<S>, StartFault)>
        ensures value { IfOk result (λ depot. IsOpened S.contents S.faults store depot.store depot.state) }
        ensures shown { (objects : Objects) → objects_of S.contents store ≡ Some objects → IfOk result (OpensTold S.contents S.faults store objects) }
        ensures stands { IfOk result (IsGood S.contents S.faults) }
        ensures lying { IfOk result (λ depot. AddsNoStray S.contents store depot.store) }
        ensures err_lying { IfErr result (λ refused. AddsNoStray S.contents store refused.0) }
        ensures settled { IfOk result (λ depot. depot.unsettled ≡ false) }
        ensures any { IfOk result (λ depot. IsNextOf (S.may_give store.shelf) depot.state) }
        ensures gives { IfOk result (λ depot. GivesAlso (S.may_give store.shelf) (S.may_give depot.store.shelf) slots.Status (Some (text_of depot.state))) }
        ensures idle { IfOk result (λ depot. depot.running ≡ None) }
        ensures marked { IfOk result (λ depot. depot.marked ≡ 0) }
        ensures err { IfErr result (λ refused. LeftUnopenedBy S.contents store refused.0 refused.1) }
        ensures stays { IfErr result (λ refused. objects_of S.contents refused.0 ≡ objects_of S.contents store) }

        // The refusals, in the order in which they are looked for. Over any shelf each has its cause in what the one that was
        // handed in may give.
        ensures refused { (objects : Objects) → (status : Option (List ℕ)) → objects_of S.contents store ≡ Some objects → status_of S.contents store ≡ Some status
            → StartsAs objects (start_refusal objects status) (without_store result) }
        ensures cause { IfErr result (λ refused. IsStartFault (S.may_give store.shelf) refused.1) }
        ensures faults { IfErr result (λ refused. FailsBy {T = ⊤} is_start_counted (S.faults store.shelf) (S.faults refused.0.shelf) (Err refused.1)) }
    {
        let mut store = store;
        let mut known = Known::new(alloc);
        match start_in(alloc, &mut store, &mut known) {
            Ok(state) => Ok(Depot {
                parts: Parts {
                    alloc,
                    store,
                    state,
                    unsettled: false,
                },
                known,
                running: None,
            }),
            Err(fault) => Err((store, fault)),
        }
    }
}

/// Reads the state, checks what it keeps, and counts the opening.
fn start_in<S: Shelf>(
    alloc: Global,
    store: &mut Store<S>,
    known: &mut Known,
) -> Result<LibState, StartFault>
    requires known { FitsIn S.contents store.old known.old }
    ensures known { FitsIn S.contents store.old known.new }
    ensures value { IfOk result (IsOpened S.contents S.faults store.old store.new) }
    ensures some_kept { IfOk result (λ state. state.kept ≢ []) }
    ensures sound { IfOk result (IsSoundIn S.contents store.new) }
    ensures any { IfOk result (IsNextOf (S.may_give store.old.shelf)) }
    ensures gives { IfOk result (λ state. GivesAlso (S.may_give store.old.shelf) (S.may_give store.new.shelf) slots.Status (Some (text_of state))) }
    ensures err { IfErr result (LeftUnopenedBy S.contents store.old store.new) }
    ensures lying { AddsNoStray S.contents store.old store.new }
    ensures stays { objects_of S.contents store.new ≡ objects_of S.contents store.old }
    ensures refused { (objects : Objects) → (status : Option (List ℕ)) → objects_of S.contents store.old ≡ Some objects → status_of S.contents store.old ≡ Some status
        → StartsAs objects (start_refusal objects status) result }
    ensures cause { IfErr result (IsStartFault (S.may_give store.old.shelf)) }
    ensures faults { FailsBy is_start_counted (S.faults store.old.shelf) (S.faults store.new.shelf) result }
{
    let state = match read_state(alloc, store) {
        Ok(state) => state,
        Err(fault) => return Err(fault),
    };
    match check_state(alloc, store, known, &state) {
        Ok(()) => {}
        Err(fault) => return Err(fault),
    }
    let mut state = state;
    state.opening += 1;
    match write_text(alloc, store, &state) {
        Ok(()) => Ok(state),
        Err(fault) => Err(StartFault::Store(fault)),
    }
}

/// The state whose text the slot holds. It writes nothing. `Depot::start` reads it so before it looks at what the library
/// keeps.
pub fn read_state<S: Shelf>(alloc: Global, store: &mut Store<S>) -> Result<LibState, StartFault>
    ensures value { IfOk result (IsFound S.contents store.old) }
    ensures proper { IfOk result IsProper }
    ensures any { IfOk result (IsGiven (S.may_give store.old.shelf)) }
    ensures reads { ReadsShelf S.may_give S.texts store.old.shelf store.new.shelf }
    ensures stays { Keeps S.contents store.old store.new }
    ensures refused { (objects : Objects) → (status : Option (List ℕ)) → status_of S.contents store.old ≡ Some status
        → IfErr result (IsDueOr objects (start_refusal objects status)) }
    ensures cause { IfErr result (IsStartFault (S.may_give store.old.shelf)) }
    ensures bad { IfErr result IsTextFault }
    ensures faults { FailsBy is_start_counted (S.faults store.old.shelf) (S.faults store.new.shelf) result }
{
    let text = match store.noted() {
        Ok(Some(text)) => text,
        Ok(None) => return Err(StartFault::NoState),
        Err(fault) => return Err(StartFault::Store(fault)),
    };
    match LibState::read(alloc, text.slice()) {
        Ok(state) => Ok(state),
        Err(ReadFault::Bad(key)) => Err(StartFault::BadState(key)),
        Err(ReadFault::NoMemory) => Err(StartFault::Store(StoreFault::NoMemory)),
    }
}

/// Refuses a state that can't be opened.
fn check_state<S: Shelf>(
    alloc: Global,
    store: &mut Store<S>,
    known: &mut Known,
    state: &LibState,
) -> Result<(), StartFault>
    requires known { FitsIn S.contents store.old known.old }
    ensures known { FitsIn S.contents store.old known.new }
    ensures ok { OnOk result (state.now.opening ≢ last_number) }
    ensures refused { (objects : Objects) → objects_of S.contents store.old ≡ Some objects → StartsAs objects (state_refusal objects state.now) result }
    ensures stays { Keeps S.contents store.old store.new }
    ensures untouched { result ≡ Err StartFault.Worn → store.new ≡ store.old }
    ensures reads { ReadsShelf S.may_give S.texts store.old.shelf store.new.shelf }
    ensures cause { IfErr result (IsStateFault state.now (S.may_give store.old.shelf)) }
    ensures faults { FailsBy is_start_counted (S.faults store.old.shelf) (S.faults store.new.shelf) result }
{
    if state.opening == LAST {
        return Err(StartFault::Worn);
    }
    match check_kept(alloc, store, known, state.kept.slice()) {
        Ok(()) => Ok(()),
        Err(CheckFault::Tree(fault)) => Err(StartFault::Walk(fault)),
        Err(CheckFault::Store(fault)) => Err(StartFault::Store(fault)),
    }
}
