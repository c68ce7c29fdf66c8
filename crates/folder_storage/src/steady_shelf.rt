//! A shelf in memory of which no call fails.
ghost use Rattle.std.specs.Prelude.{◌≡◌, IfOk, None, Some};
ghost use Rattle.std.specs.FinMap as map;
ghost use Rattle.object_store.specs.Shelf.{Changes, Contents, CountsFaults, FindsNext, GivesAlso, GivesNoMore, LaysBy, Tells, is_counted, lies_in, put_known, removed_known, texts_after};

use ids::{Bytes, Items, Kind, ObjId};
use object_store::{Found, MemoryShelf, Shelf, ShelfFailed, Slot};
use std::alloc::Global;
use std::marker::Model;

/// A shelf in memory of which no call fails: its count of faults stays 0. Contracts see what it holds.
#[derive(Drop)]
pub struct SteadyShelf {
    inner: MemoryShelf,
}

impl Model for SteadyShelf {
    ghost use Rattle.folder_storage.specs.SteadyShelf.{IsSteady, SteadyShelfState, steady_shelf_code};

    ghost Value = { SteadyShelfState };

    ghost coded = { steady_shelf_code };

    ghost view = { λ a. record { contents = a.inner.contents; texts = a.inner.texts } };

    ghost invariant = { λ a. IsSteady a.inner };
}

impl SteadyShelf {
    /// An empty shelf. It takes no memory.
    pub fn new(alloc: Global) -> SteadyShelf
        ensures value { result ≡ record { contents = record { objects = map.empty; status = None }; texts = 0 } }
    {
        SteadyShelf {
            inner: MemoryShelf::new(alloc, Items::new(alloc)),
        }
    }
}

impl Shelf for SteadyShelf {
    ghost use Rattle.folder_storage.specs.SteadyShelf.{steady_told};

    ghost contents = { λ shelf. Some shelf.contents };

    ghost may_give = { λ shelf slot given. given ≡ lies_in shelf.contents slot };

    ghost faults = { λ shelf. 0 };

    ghost texts = { λ shelf. shelf.texts };

    fn fetch(&mut self, slot: Slot) -> Result<Option<Bytes>, ShelfFailed>
        ensures found { IfOk result (λ given. given ≡ lies_in self.new.contents slot) }
        ensures stays { Some self.new.contents ≡ Some self.old.contents }
        ensures faults { CountsFaults 0 0 result }
        ensures gives { GivesNoMore (Tells self.old.contents) (Tells self.new.contents) }
        ensures texts { self.new.texts ≡ self.old.texts }
    {
        self.inner.fetch(slot)
    }

    fn put(&mut self, slot: Slot, bytes: &[u8]) -> Result<(), ShelfFailed>
        ensures ok { Changes (Some self.old.contents) (put_known (Some self.old.contents) slot bytes.now) (Some self.new.contents) result }
        ensures faults { CountsFaults 0 0 result }
        ensures gives { GivesAlso (Tells self.old.contents) (Tells self.new.contents) slot (Some bytes.now) }
        ensures texts { self.new.texts ≡ texts_after slot self.old.texts }
    {
        self.inner.put(slot, bytes)
    }

    fn put_own(&mut self, slot: Slot, bytes: Bytes) -> Result<(), ShelfFailed>
        ensures ok { Changes (Some self.old.contents) (put_known (Some self.old.contents) slot bytes) (Some self.new.contents) result }
        ensures faults { CountsFaults 0 0 result }
        ensures gives { GivesAlso (Tells self.old.contents) (Tells self.new.contents) slot (Some bytes) }
        ensures texts { self.new.texts ≡ texts_after slot self.old.texts }
    {
        self.inner.put_own(slot, bytes)
    }

    fn remove(&mut self, slot: Slot) -> Result<(), ShelfFailed>
        ensures ok { Changes (Some self.old.contents) (removed_known (Some self.old.contents) slot) (Some self.new.contents) result }
        ensures faults { CountsFaults 0 0 result }
        ensures gives { GivesAlso (Tells self.old.contents) (Tells self.new.contents) slot None }
        ensures untouched { LaysBy is_counted (Tells self.old.contents) (Tells self.new.contents) result }
        ensures texts { self.new.texts ≡ self.old.texts }
    {
        self.inner.remove(slot)
    }

    fn next(&mut self, kind: Kind, after: Option<ObjId>) -> Result<Option<Found>, ShelfFailed>
        ensures found { (held : Contents) → Some self.old.contents ≡ Some held → IfOk result (FindsNext held.objects kind after) }
        ensures stays { Some self.new.contents ≡ Some self.old.contents }
        ensures faults { CountsFaults 0 0 result }
        ensures gives { GivesNoMore (Tells self.old.contents) (Tells self.new.contents) }
        ensures texts { self.new.texts ≡ self.old.texts }
    {
        self.inner.next(kind, after)
    }

    fn faults(&self) -> u64
        ensures value { result ≡ 0 }
    {
        self.inner.faults()
    }

    ghost told = { steady_told };
}
