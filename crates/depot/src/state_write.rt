//! The state text: when it is written, and what stands where a write fails.
ghost use Rattle.std.specs.Prelude.{◌≡◌, IfErr, IsTrue, OnOk, OnErr, Some, false};
ghost use Rattle.library_state.specs.StateSpelling.{text_of};
ghost use Rattle.library_state.specs.declared.state.LibState.{LibState};
ghost use Rattle.object_store.specs.Shelf.{GivesAlso};
ghost use Rattle.object_store.specs.Store.{CountsShelf, is_free};
ghost use Rattle.object_store.specs.StoreView.{AddsNoStray, objects_of, status_of};
ghost use Rattle.object_store.specs.declared.shelf.Slot.TheVariants as slots;
ghost use Rattle.depot.specs.Giving.{GivesBy, IsOwnText};
ghost use Rattle.depot.specs.Writing.{ReadsBack, SettlesSo, Writes, leaves_open};

use crate::depot::Parts;
use library_state::LibState;
use object_store::{Shelf, Store, StoreFault};
use std::alloc::Global;

/// Writes the state's text into the status slot, in one put.
pub(crate) fn write_text<S: Shelf>(
    alloc: Global,
    store: &mut Store<S>,
    state: &LibState,
) -> Result<(), StoreFault>
    ensures value { Writes state.now (status_of S.contents store.old) (status_of S.contents store.new) result }
    ensures stays { objects_of S.contents store.new ≡ objects_of S.contents store.old }
    ensures held { store.new.index ≡ store.old.index }
    ensures lying { AddsNoStray S.contents store.old store.new }
    ensures gives { GivesAlso (S.may_give store.old.shelf) (S.may_give store.new.shelf) slots.Status (Some (text_of state.now)) }
    ensures faults { CountsShelf (S.faults store.old.shelf) (S.faults store.new.shelf) result }
{
    let text = match state.write(alloc) {
        Ok(text) => text,
        Err(_) => return Err(StoreFault::NoMemory),
    };
    store.note(text.slice())
}

impl<S: Shelf> Parts<S> {
    /// Writes the text of the present state again, where a write failed since.
    pub(crate) fn settle(&mut self) -> Result<(), StoreFault>
        ensures ok { OnOk result (self.new.unsettled ≡ false) }
        ensures value { SettlesSo self.old.unsettled self.old.state (status_of S.contents self.old.store) (status_of S.contents self.new.store) result }
        ensures err { OnErr result (self.new.unsettled ≡ self.old.unsettled) }
        ensures state { self.new.state ≡ self.old.state }
        ensures written { self.old.unsettled ≡ false → S.texts self.new.store.shelf ≡ S.texts self.old.store.shelf }
        ensures stays { objects_of S.contents self.new.store ≡ objects_of S.contents self.old.store }
        ensures held { self.new.store.index ≡ self.old.store.index }
        ensures lying { AddsNoStray S.contents self.old.store self.new.store }
        ensures gives { GivesBy (IsOwnText self.old.state.lib) (S.may_give self.old.store.shelf) (S.may_give self.new.store.shelf) }
        ensures faults { CountsShelf (S.faults self.old.store.shelf) (S.faults self.new.store.shelf) result }
    {
        if !self.unsettled {
            return Ok(());
        }
        match write_text(self.alloc, &mut self.store, &self.state) {
            Ok(()) => {}
            Err(fault) => return Err(fault),
        }
        self.unsettled = false;
        Ok(())
    }

    /// Writes the text of the state, in the place of the one before it, which the slot holds. Where the shelf fails it is
    /// open which of the two stands.
    pub(crate) fn write_next(&mut self) -> Result<(), StoreFault>
        requires ready { self.old.unsettled ≡ false }
        ensures value { Writes self.old.state (status_of S.contents self.old.store) (status_of S.contents self.new.store) result }
        ensures ok { self.new.unsettled ≡ leaves_open result }
        ensures state { self.new.state ≡ self.old.state }
        ensures stays { objects_of S.contents self.new.store ≡ objects_of S.contents self.old.store }
        ensures held { self.new.store.index ≡ self.old.store.index }
        ensures lying { AddsNoStray S.contents self.old.store self.new.store }
        ensures gives { GivesBy (IsOwnText self.old.state.lib) (S.may_give self.old.store.shelf) (S.may_give self.new.store.shelf) }
        ensures faults { CountsShelf (S.faults self.old.store.shelf) (S.faults self.new.store.shelf) result }
    {
        let text = match self.state.write(self.alloc) {
            Ok(text) => text,
            Err(_) => return Err(StoreFault::NoMemory),
        };
        self.note_text(text.slice())
    }

    /// Writes a text in the place of one that stands. Where the shelf fails it is open which of the two stands.
    pub(crate) fn note_text(&mut self, text: &[u8]) -> Result<(), StoreFault>
        requires ready { self.old.unsettled ≡ false }
        ensures value { (next : LibState) → text.now ≡ text_of next → ReadsBack next
            → Writes next (status_of S.contents self.old.store) (status_of S.contents self.new.store) result }
        ensures ok { self.new.unsettled ≡ leaves_open result }
        ensures state { self.new.state ≡ self.old.state }
        ensures stays { objects_of S.contents self.new.store ≡ objects_of S.contents self.old.store }
        ensures held { self.new.store.index ≡ self.old.store.index }
        ensures lying { AddsNoStray S.contents self.old.store self.new.store }
        ensures gives { GivesAlso (S.may_give self.old.store.shelf) (S.may_give self.new.store.shelf) slots.Status (Some text.now) }
        ensures free { IfErr result (λ fault. IsTrue (is_free fault)) }
        ensures faults { CountsShelf (S.faults self.old.store.shelf) (S.faults self.new.store.shelf) result }
    {
        match self.store.note(text) {
            Ok(()) => Ok(()),
            Err(StoreFault::Shelf) => {
                self.unsettled = true;
                Err(StoreFault::Shelf)
            }
            Err(fault) => Err(fault),
        }
    }
}
