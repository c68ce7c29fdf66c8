//! A count of calls. It stands in proofs alone.
ghost use Rattle.std.specs.Prelude.{◌≡◌, ℕ, ◌+◌};
ghost use Rattle.std.specs.Borrow.{ftrue};
ghost use Rattle.object_store.specs.Shelf.{texts_after};

use crate::shelf::Slot;
use std::marker::Model;

/// How many calls of some kind there were: puts of the status text that a shelf was asked for, or turns of a collection. It
/// takes no bytes, and its calls do nothing at run time; so no call tells it, and it may pass 64 bits.
///
/// Nothing but these clauses ties the number: it says something of a caller that is given a shelf, and not of a shelf.
#[derive(Drop)]
pub struct CallCount {
    pub ghost count: { ℕ },
}

impl Model for CallCount {
    ghost also_owns = { λ _. ftrue };
}

// It owns nothing.
unsafe impl Send for CallCount {}

impl CallCount {
    /// The count where there was no call.
    pub fn new() -> CallCount
        ensures value { result.count ≡ 0 }
    {
        CallCount {}
    }

    /// Counts a put into this slot, if it is that of the status text.
    pub fn count_put(&mut self, slot: &Slot)
        ensures value { self.new.count ≡ texts_after slot.now self.old.count }
    {
        match slot {
            Slot::Object(_) => {}
            Slot::Status => *self = self.one_more(),
        }
    }

    /// The count with one more.
    pub fn one_more(&self) -> CallCount
        ensures value { result.count ≡ self.now.count + 1 }
    {
        CallCount {}
    }
}
