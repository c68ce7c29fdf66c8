//! A shelf with a count of faults of its own.
ghost use Rattle.std.specs.Prelude.{◌≡◌};
ghost use Rattle.object_store.specs.Shelf.{CountsFaults};

use ids::{Bytes, Kind, ObjId};
use object_store::{Found, Shelf, ShelfFailed, Slot};

/// A shelf over another, with a count of faults of its own, which begins at 0. It holds and gives what the other does.
#[derive(Drop)]
pub struct CountedShelf<S> {
    shelf: S,
    faults: u64,
}

impl<S> CountedShelf<S> {
    /// A shelf over this one, with no faults, whatever that one counted.
    pub fn new(shelf: S) -> CountedShelf<S>
        ensures shelf { result.shelf ≡ shelf }
        ensures faults { result.faults ≡ 0 }
    {
        CountedShelf { shelf, faults: 0 }
    }

    /// The shelf below, as the calls left it.
    pub fn end(self) -> S
        ensures value { result ≡ self.shelf }
    {
        self.shelf
    }
}

impl<S: Shelf> Shelf for CountedShelf<S> {
    ghost contents = { λ counted. S.contents counted.shelf };

    ghost may_give = { λ counted slot given. S.may_give counted.shelf slot given };

    ghost faults = { λ counted. counted.faults };

    ghost texts = { λ counted. S.texts counted.shelf };

    fn fetch(&mut self, slot: Slot) -> Result<Option<Bytes>, ShelfFailed> {
        let given = self.shelf.fetch(slot);
        passed_on(&mut self.faults, given)
    }

    fn put(&mut self, slot: Slot, bytes: &[u8]) -> Result<(), ShelfFailed> {
        let put = self.shelf.put(slot, bytes);
        passed_on(&mut self.faults, put)
    }

    fn put_own(&mut self, slot: Slot, bytes: Bytes) -> Result<(), ShelfFailed> {
        let put = self.shelf.put_own(slot, bytes);
        passed_on(&mut self.faults, put)
    }

    fn remove(&mut self, slot: Slot) -> Result<(), ShelfFailed> {
        let removed = self.shelf.remove(slot);
        passed_on(&mut self.faults, removed)
    }

    fn next(&mut self, kind: Kind, after: Option<ObjId>) -> Result<Option<Found>, ShelfFailed> {
        let found = self.shelf.next(kind, after);
        passed_on(&mut self.faults, found)
    }

    fn faults(&self) -> u64 {
        self.faults
    }

    ghost told = { λ counted held slot given known may. S.told counted.shelf held slot given known may };
}

/// The answer of the shelf below, which is counted where it is a fault.
fn passed_on<T>(faults: &mut u64, answered: Result<T, ShelfFailed>) -> Result<T, ShelfFailed>
    ensures value { result ≡ answered }
    ensures faults { CountsFaults faults.old faults.new result }
{
    match answered {
        Ok(value) => Ok(value),
        Err(ShelfFailed::Shelf) => {
            *faults = faults.saturating_add(1);
            Err(ShelfFailed::Shelf)
        }
        Err(ShelfFailed::NoMemory) => Err(ShelfFailed::NoMemory),
    }
}
