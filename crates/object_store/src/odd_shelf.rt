//! A shelf that gives odd bytes for one slot, as a disk that went bad.
ghost use Rattle.std.specs.Prelude.{◌≡◌, ◌↔◌, ℕ, List, IfOk, IfErr, IsTrue, Some, None, Option};
ghost use Rattle.object_store.specs.MemoryShelf.{ShelfAnswers};
ghost use Rattle.object_store.specs.OddShelf.{GivesOdd, KeepsOdd, OddAfter, odd_or};
ghost use Rattle.object_store.specs.Shelf.{Changes, Contents, CountsFaults, FindsNext, GivesAlso, GivesNoMore, LaysBy, is_counted, put_known, removed_known, texts_after, with_put, without};

use crate::memory_shelf::MemoryShelf;
use crate::shelf::{Found, Shelf, ShelfFailed, Slot};
use ids::{Bytes, Kind, ObjId};
use std::alloc::Global;
use std::marker::Model;

/// A shelf in memory but for one slot, for which it gives other bytes. It doesn't tell what it holds.
#[derive(Drop)]
pub struct OddShelf {
    alloc: Global,
    inner: MemoryShelf,
    slot: Slot,
    odd: Option<Bytes>,
}

impl Model for OddShelf {
    ghost use Rattle.object_store.specs.OddShelf.{OddShelfState, odd_shelf_code};

    ghost Value = { OddShelfState };

    ghost coded = { odd_shelf_code };

    ghost view = { λ a. record { inner = a.inner; slot = a.slot; odd = a.odd } };
}

impl OddShelf {
    /// A shelf that gives these bytes for this slot, until the slot is put or removed. Every other slot is the inner's,
    /// and so are the calls that are to fail.
    pub fn new(alloc: Global, inner: MemoryShelf, slot: Slot, bytes: Bytes) -> OddShelf
        ensures value { result ≡ record { inner = inner; slot = slot; odd = Some bytes } }
    {
        OddShelf {
            alloc,
            inner,
            slot,
            odd: Some(bytes),
        }
    }
}

impl Shelf for OddShelf {
    ghost use Rattle.object_store.specs.OddShelf.{nothing_told};

    ghost contents = { λ shelf. None };

    ghost may_give = { GivesOdd };

    ghost faults = { λ shelf. shelf.inner.faults };

    ghost texts = { λ shelf. shelf.inner.texts };

    fn fetch(&mut self, slot: Slot) -> Result<Option<Bytes>, ShelfFailed>
        ensures found { IfOk result (GivesOdd self.new slot) }
        ensures stays { ◌≡◌ {A = Option Contents} None None }
        ensures faults { CountsFaults self.old.inner.faults self.new.inner.faults result }
        ensures gives { GivesNoMore (GivesOdd self.old) (GivesOdd self.new) }
        ensures texts { self.new.inner.texts ≡ self.old.inner.texts }
        ensures value { ShelfAnswers self.old.inner self.new.inner self.old.inner.contents result }
        ensures odd { KeepsOdd self.old self.new }
    {
        let here = is_same(&self.slot, &slot);
        let stored = match self.inner.fetch(slot) {
            Ok(stored) => stored,
            Err(failed) => return Err(failed),
        };
        if !here {
            return Ok(stored);
        }
        odd_or(self.alloc, &self.odd, stored)
    }

    fn put(&mut self, slot: Slot, bytes: &[u8]) -> Result<(), ShelfFailed>
        ensures ok { Changes None (put_known None slot bytes.now) None result }
        ensures faults { CountsFaults self.old.inner.faults self.new.inner.faults result }
        ensures gives { GivesAlso (GivesOdd self.old) (GivesOdd self.new) slot (Some bytes.now) }
        ensures texts { self.new.inner.texts ≡ texts_after slot self.old.inner.texts }
        ensures value { ShelfAnswers self.old.inner self.new.inner (with_put self.old.inner.contents slot bytes.now) result }
        ensures odd { OddAfter self.old self.new slot result }
    {
        let here = is_same(&self.slot, &slot);
        match self.inner.put(slot, bytes) {
            Ok(()) => {}
            Err(failed) => return Err(failed),
        }
        if here {
            self.odd = None;
        }
        Ok(())
    }

    fn remove(&mut self, slot: Slot) -> Result<(), ShelfFailed>
        ensures ok { Changes None (removed_known None slot) None result }
        ensures faults { CountsFaults self.old.inner.faults self.new.inner.faults result }
        ensures gives { GivesAlso (GivesOdd self.old) (GivesOdd self.new) slot None }
        ensures untouched { LaysBy is_counted (GivesOdd self.old) (GivesOdd self.new) result }
        ensures texts { self.new.inner.texts ≡ self.old.inner.texts }
        ensures value { ShelfAnswers self.old.inner self.new.inner (without self.old.inner.contents slot) result }
        ensures odd { OddAfter self.old self.new slot result }
    {
        let here = is_same(&self.slot, &slot);
        match self.inner.remove(slot) {
            Ok(()) => {}
            Err(failed) => return Err(failed),
        }
        if here {
            self.odd = None;
        }
        Ok(())
    }

    fn next(&mut self, kind: Kind, after: Option<ObjId>) -> Result<Option<Found>, ShelfFailed>
        ensures found { (held : Contents) → None ≡ Some held → IfOk result (FindsNext held.objects kind after) }
        ensures stays { ◌≡◌ {A = Option Contents} None None }
        ensures faults { CountsFaults self.old.inner.faults self.new.inner.faults result }
        ensures gives { GivesNoMore (GivesOdd self.old) (GivesOdd self.new) }
        ensures texts { self.new.inner.texts ≡ self.old.inner.texts }
        ensures value { ShelfAnswers self.old.inner self.new.inner self.old.inner.contents result }
        ensures told { IfOk result (FindsNext self.old.inner.contents.objects kind after) }
        ensures odd { KeepsOdd self.old self.new }
    {
        self.inner.next(kind, after)
    }

    fn faults(&self) -> u64
        ensures value { result ≡ self.now.inner.faults }
    {
        self.inner.faults()
    }

    ghost told = { nothing_told };
}

/// Whether two slots are one.
fn is_same(left: &Slot, right: &Slot) -> bool
    ensures value { IsTrue result ↔ (left.now ≡ right.now) }
{
    left == right
}

/// A copy of the odd bytes, or what is stored where there are none.
fn odd_or(
    alloc: Global,
    odd: &Option<Bytes>,
    stored: Option<Bytes>,
) -> Result<Option<Bytes>, ShelfFailed>
    ensures value { IfOk result (λ given. given ≡ odd_or odd.now stored) }
    ensures no_memory { IfErr result (λ failed. failed ≡ ShelfFailed.NoMemory) }
{
    match odd {
        Some(bytes) => match Bytes::copy(alloc, bytes.slice()) {
            Ok(copy) => Ok(Some(copy)),
            Err(_) => Err(ShelfFailed::NoMemory),
        },
        None => Ok(stored),
    }
}
