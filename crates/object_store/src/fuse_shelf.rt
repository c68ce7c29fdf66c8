//! A shelf that stops after so many calls, as a machine that loses power.
ghost use Rattle.std.specs.Prelude.{◌≡◌, ◌<◌, ◌^◌, ◌-◌, ℕ, List, IfOk, None, Some, nat_lt};
ghost use Rattle.object_store.specs.FuseShelf.{PassesChange, PassesRead, burnt, failed_by};
ghost use Rattle.object_store.specs.Shelf.{Changes, Contents, CountsFaults, FindsNext, GivesAlso, GivesNoMore, LaysBy, Tells, is_counted, lies_in, put_known, removed_known, texts_after, with_put, without};

use crate::call_count::CallCount;
use crate::memory_shelf::MemoryShelf;
use crate::shelf::{Found, Shelf, ShelfFailed, Slot};
use ids::{Bytes, Kind, ObjId};
use std::marker::Model;

/// A shelf in memory that passes so many calls on, and then fails every call and changes nothing any more. A late one
/// does the first call that fails all the same, where it is a put or a removal.
#[derive(Drop)]
pub struct FuseShelf {
    inner: MemoryShelf,
    left: u64,
    late: bool,
    faults: u64,
    texts: CallCount,
}

impl Model for FuseShelf {
    ghost use Rattle.object_store.specs.FuseShelf.{FuseShelfState, fuse_shelf_code};

    ghost Value = { FuseShelfState };

    ghost coded = { fuse_shelf_code };

    ghost view = { λ a. record { inner = a.inner; left = a.left; late = a.late; faults = a.faults; texts = a.texts.count } };
}

impl FuseShelf {
    /// A shelf that passes so many calls on. Where it is late, the first call that fails is done if it changes a slot.
    pub fn new(inner: MemoryShelf, passes: u64, late: bool) -> FuseShelf
        ensures value { result ≡ record { inner = inner; left = passes; late = late; faults = 0; texts = 0 } }
    {
        FuseShelf {
            inner,
            left: passes,
            late,
            faults: 0,
            texts: CallCount::new(),
        }
    }

    /// The shelf in memory, as the last call that was done left it.
    pub fn into_inner(self) -> MemoryShelf
        ensures value { result ≡ self.inner }
    {
        self.inner
    }

    /// Whether the next call is passed on. Where it is not, that is a fault, and no later call is late.
    fn burn(&mut self) -> bool
        ensures value { result ≡ nat_lt 0 self.old.left }
        ensures ok { self.new ≡ burnt self.old }
        ensures bound { self.old.faults < 2 ^ 64 }
    {
        if self.left == 0 {
            self.faults = self.faults.saturating_add(1);
            self.late = false;
            return false;
        }
        let _faults = self.faults;
        self.left -= 1;
        true
    }

    /// Counts a fault of the shelf in memory.
    fn fail(&mut self, failed: ShelfFailed) -> ShelfFailed
        ensures value { result ≡ failed }
        ensures ok { self.new ≡ failed_by self.old failed }
        ensures bound { self.old.faults < 2 ^ 64 }
    {
        let faults = self.faults;
        match failed {
            ShelfFailed::Shelf => self.faults = faults.saturating_add(1),
            ShelfFailed::NoMemory => {}
        }
        failed
    }

    /// A put, but for the count of texts.
    fn put_through(&mut self, slot: Slot, bytes: &[u8]) -> Result<(), ShelfFailed>
        ensures ok { Changes (Some self.old.inner.contents) (put_known (Some self.old.inner.contents) slot bytes.now) (Some self.new.inner.contents) result }
        ensures faults { CountsFaults self.old.faults self.new.faults result }
        ensures value { PassesChange self.old self.new (with_put self.old.inner.contents slot bytes.now) result }
        ensures texts { self.new.texts ≡ self.old.texts }
    {
        let late = self.late;
        if !self.burn() {
            if late {
                let _ = self.inner.put(slot, bytes);
                return Err(ShelfFailed::Shelf);
            }
            return Err(ShelfFailed::Shelf);
        }
        match self.inner.put(slot, bytes) {
            Ok(()) => Ok(()),
            Err(failed) => Err(self.fail(failed)),
        }
    }
}

impl Shelf for FuseShelf {
    ghost use Rattle.object_store.specs.FuseShelf.{fuse_told};

    ghost contents = { λ shelf. Some shelf.inner.contents };

    ghost may_give = { λ shelf slot given. given ≡ lies_in shelf.inner.contents slot };

    ghost faults = { λ shelf. shelf.faults };

    ghost texts = { λ shelf. shelf.texts };

    fn fetch(&mut self, slot: Slot) -> Result<Option<Bytes>, ShelfFailed>
        ensures found { IfOk result (λ given. given ≡ lies_in self.new.inner.contents slot) }
        ensures stays { Some self.new.inner.contents ≡ Some self.old.inner.contents }
        ensures faults { CountsFaults self.old.faults self.new.faults result }
        ensures gives { GivesNoMore (Tells self.old.inner.contents) (Tells self.new.inner.contents) }
        ensures texts { self.new.texts ≡ self.old.texts }
        ensures value { PassesRead self.old self.new result }
    {
        if !self.burn() {
            return Err(ShelfFailed::Shelf);
        }
        match self.inner.fetch(slot) {
            Ok(given) => Ok(given),
            Err(failed) => Err(self.fail(failed)),
        }
    }

    fn put(&mut self, slot: Slot, bytes: &[u8]) -> Result<(), ShelfFailed>
        ensures ok { Changes (Some self.old.inner.contents) (put_known (Some self.old.inner.contents) slot bytes.now) (Some self.new.inner.contents) result }
        ensures faults { CountsFaults self.old.faults self.new.faults result }
        ensures gives { GivesAlso (Tells self.old.inner.contents) (Tells self.new.inner.contents) slot (Some bytes.now) }
        ensures texts { self.new.texts ≡ texts_after slot self.old.texts }
        ensures value { PassesChange self.old self.new (with_put self.old.inner.contents slot bytes.now) result }
    {
        self.texts.count_put(&slot);
        self.put_through(slot, bytes)
    }

    fn remove(&mut self, slot: Slot) -> Result<(), ShelfFailed>
        ensures ok { Changes (Some self.old.inner.contents) (removed_known (Some self.old.inner.contents) slot) (Some self.new.inner.contents) result }
        ensures faults { CountsFaults self.old.faults self.new.faults result }
        ensures gives { GivesAlso (Tells self.old.inner.contents) (Tells self.new.inner.contents) slot None }
        ensures untouched { LaysBy is_counted (Tells self.old.inner.contents) (Tells self.new.inner.contents) result }
        ensures texts { self.new.texts ≡ self.old.texts }
        ensures value { PassesChange self.old self.new (without self.old.inner.contents slot) result }
    {
        let late = self.late;
        if !self.burn() {
            if late {
                let _ = self.inner.remove(slot);
                return Err(ShelfFailed::Shelf);
            }
            return Err(ShelfFailed::Shelf);
        }
        match self.inner.remove(slot) {
            Ok(()) => Ok(()),
            Err(failed) => Err(self.fail(failed)),
        }
    }

    fn next(&mut self, kind: Kind, after: Option<ObjId>) -> Result<Option<Found>, ShelfFailed>
        ensures found { (held : Contents) → Some self.old.inner.contents ≡ Some held → IfOk result (FindsNext held.objects kind after) }
        ensures stays { Some self.new.inner.contents ≡ Some self.old.inner.contents }
        ensures faults { CountsFaults self.old.faults self.new.faults result }
        ensures gives { GivesNoMore (Tells self.old.inner.contents) (Tells self.new.inner.contents) }
        ensures texts { self.new.texts ≡ self.old.texts }
        ensures value { PassesRead self.old self.new result }
    {
        if !self.burn() {
            return Err(ShelfFailed::Shelf);
        }
        match self.inner.next(kind, after) {
            Ok(found) => Ok(found),
            Err(failed) => Err(self.fail(failed)),
        }
    }

    fn faults(&self) -> u64
        ensures value { result ≡ self.now.faults }
    {
        self.faults
    }

    ghost told = { fuse_told };
}
