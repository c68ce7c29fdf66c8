//! A shelf: slots of bytes, which storage or a stand-in for it keeps.
ghost use Rattle.std.specs.Prelude.{◌≡◌, ℕ, List, IfOk, None, Some};
ghost use Rattle.object_store.specs.Shelf.{Changes, Contents, CountsFaults, FindsNext, GivesAlso, GivesNoMore, LaysBy, is_counted, lies_in, put_known, removed_known, texts_after};

use ids::{Bytes, Key, Kind, ObjId};

/// A place on a shelf: that of an object, or that of the status text.
#[derive(Clone, Copy, Debug, PartialEq, Eq)]
pub enum Slot {
    Object(Key),
    Status,
}

/// Why a call on a shelf failed.
#[derive(Clone, Copy, Debug, PartialEq, Eq)]
pub enum ShelfFailed {
    /// The shelf failed, and counted it.
    Shelf,
    NoMemory,
}

/// An object's name, and the number of its bytes.
#[derive(Clone, Copy, Debug, PartialEq, Eq)]
pub struct Found {
    pub id: ObjId,
    pub size: u64,
}

/// Slots of bytes.
///
/// A shelf in memory tells what it holds; an adapter over real storage tells nothing. The count of faults rises in each
/// call that answers `Shelf` and in no other, up to 2^64 - 1.
///
/// No call makes it give more than it might before, but what a put lays into its slot, or nothing where a removal empties
/// it; a removal for which there was no memory doesn't. Each put of the status text is counted, whatever it answers. That count stands in proofs alone: a caller that may
/// not write a text can't have put one where it stays.
pub trait Shelf {
    ghost use Rattle.std.specs.Prelude.{Option};
    ghost use Rattle.object_store.specs.declared.shelf.Slot.{Slot};

    // What lies in its slots.
    ghost contents: { Self → Option Contents };

    // A fetch of a slot may give this.
    ghost may_give: { Self → Slot → Option (List ℕ) → Type 0 };

    ghost faults: { Self → ℕ };

    // How many puts of the status text it was asked for.
    ghost texts: { Self → ℕ };

    /// The bytes that lie in a slot, if any do.
    fn fetch(&mut self, slot: Slot) -> Result<Option<Bytes>, ShelfFailed>
        ensures found { IfOk result (may_give self.new slot) }
        ensures stays { contents self.new ≡ contents self.old }
        ensures faults { CountsFaults (faults self.old) (faults self.new) result }
        ensures gives { GivesNoMore (may_give self.old) (may_give self.new) }
        ensures texts { texts self.new ≡ texts self.old };

    /// Lays these bytes into a slot, in place of what lies there. After `Shelf` the slot holds the old or the new, and
    /// every other slot what it held; after `NoMemory` nothing is changed.
    fn put(&mut self, slot: Slot, bytes: &[u8]) -> Result<(), ShelfFailed>
        ensures ok { Changes (contents self.old) (put_known (contents self.old) slot bytes.now) (contents self.new) result }
        ensures faults { CountsFaults (faults self.old) (faults self.new) result }
        ensures gives { GivesAlso (may_give self.old) (may_give self.new) slot (Some bytes.now) }
        ensures texts { texts self.new ≡ texts_after slot (texts self.old) };

    /// The same of bytes that are handed over: a shelf that keeps them in memory need not copy them. Where it says nothing
    /// else, it puts a copy.
    fn put_own(&mut self, slot: Slot, bytes: Bytes) -> Result<(), ShelfFailed>
        ensures ok { Changes (contents self.old) (put_known (contents self.old) slot bytes) (contents self.new) result }
        ensures faults { CountsFaults (faults self.old) (faults self.new) result }
        ensures gives { GivesAlso (may_give self.old) (may_give self.new) slot (Some bytes) }
        ensures texts { texts self.new ≡ texts_after slot (texts self.old) }
    {
        self.put(slot, bytes.slice())
    }

    /// Empties a slot. After `Shelf` the slot is as it was or empty, and every other slot holds what it held; after
    /// `NoMemory` nothing is changed.
    fn remove(&mut self, slot: Slot) -> Result<(), ShelfFailed>
        ensures ok { Changes (contents self.old) (removed_known (contents self.old) slot) (contents self.new) result }
        ensures faults { CountsFaults (faults self.old) (faults self.new) result }
        ensures gives { GivesAlso (may_give self.old) (may_give self.new) slot None }
        ensures untouched { LaysBy is_counted (may_give self.old) (may_give self.new) result }
        ensures texts { texts self.new ≡ texts self.old };

    /// The object of the kind with the least id above `after`, or the least of all, if there is one.
    fn next(&mut self, kind: Kind, after: Option<ObjId>) -> Result<Option<Found>, ShelfFailed>
        ensures found { (held : Contents) → contents self.old ≡ Some held → IfOk result (FindsNext held.objects kind after) }
        ensures stays { contents self.new ≡ contents self.old }
        ensures faults { CountsFaults (faults self.old) (faults self.new) result }
        ensures gives { GivesNoMore (may_give self.old) (may_give self.new) }
        ensures texts { texts self.new ≡ texts self.old };

    /// The count of faults. It takes no memory, never fails, and is itself no call that is counted.
    fn faults(&self) -> u64
        ensures value { result ≡ faults self.now };

    // A shelf that tells what it holds gives that.
    ghost told: { (shelf : Self) (held : Contents) (slot : Slot) (given : Option (List ℕ))
        → contents shelf ≡ Some held → may_give shelf slot given → given ≡ lies_in held slot };
}
