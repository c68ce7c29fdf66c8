//! A shelf in memory, and the calls that are to fail.
ghost use Rattle.std.specs.Prelude.{◌≡◌, ◌<◌, ◌^◌, ℕ, List, length, IfOk, IfErr, OnErr, Some, None, not, is_some, option_copied};
ghost use Rattle.std.specs.FinMap as map;
ghost use Rattle.ids.specs.FaultCount.{is_due};
ghost use Rattle.object_store.specs.MemoryShelf.{ShelfAnswers, FindsAt, FindsKey, HasIds, IsLeastFrom, begun, fails_next};
ghost use Rattle.object_store.specs.Shelf.{Changes, Contents, CountsFaults, FindsNext, GivesAlso, GivesNoMore, LaysBy, Tells, is_counted, lies_in, put_known, removed_known, texts_after, with_put, without};

use crate::call_count::CallCount;
use crate::shelf::{Found, Shelf, ShelfFailed, Slot};
use ids::{Bytes, Items, Key, KeyTable, Kind, ObjId};
use std::alloc::Global;
use std::marker::Model;

/// A shelf in memory.
#[derive(Drop)]
pub struct MemoryShelf {
    alloc: Global,
    objects: KeyTable<Bytes>,
    status: Option<Bytes>,
    fails: Items<u64>,
    calls: u64,
    faults: u64,
    texts: CallCount,
}

impl Model for MemoryShelf {
    ghost use Rattle.object_store.specs.MemoryShelf.{HasIds, MemoryShelfState, memory_shelf_code};

    ghost Value = { MemoryShelfState };

    ghost coded = { memory_shelf_code };

    ghost view = { λ a. record {
      contents = record { objects = a.objects; status = a.status };
      fails = a.fails;
      calls = a.calls;
      faults = a.faults;
      texts = a.texts.count;
    } };

    ghost invariant = { λ a. HasIds a.objects };
}

impl MemoryShelf {
    /// An empty shelf. The first call of `fetch`, `put`, `remove` or `next` has number 0, the next 1, and so on; a call
    /// whose number stands in `fails` answers `Shelf` and changes nothing. It takes no memory.
    pub fn new(alloc: Global, fails: Items<u64>) -> MemoryShelf
        ensures value { result ≡ record {
          contents = record { objects = map.empty; status = None };
          fails = fails;
          calls = 0;
          faults = 0;
          texts = 0;
        } }
    {
        MemoryShelf {
            alloc,
            objects: KeyTable::new(alloc),
            status: None,
            fails,
            calls: 0,
            faults: 0,
            texts: CallCount::new(),
        }
    }

    /// Counts a call, and says whether it may go on.
    fn begin(&mut self) -> bool
        ensures value { result ≡ not (fails_next self.old) }
        ensures ok { self.new ≡ begun self.old }
        ensures bound { self.old.faults < 2 ^ 64 }
    {
        let due = is_due_at(self.fails.slice(), self.calls);
        self.calls = self.calls.saturating_add(1);
        if due {
            self.faults = self.faults.saturating_add(1);
            return false;
        }
        true
    }

    /// A removal.
    fn empty_slot(&mut self, slot: Slot) -> Result<(), ShelfFailed>
        ensures faults { CountsFaults self.old.faults self.new.faults result }
        ensures value { ShelfAnswers self.old self.new (without self.old.contents slot) result }
        ensures texts { self.new.texts ≡ self.old.texts }
    {
        if !self.begin() {
            return Err(ShelfFailed::Shelf);
        }
        match slot {
            Slot::Object(key) => remove_object(&mut self.objects, &key),
            Slot::Status => self.status = None,
        }
        Ok(())
    }

    /// A put, but for the count of texts.
    fn put_bytes(&mut self, slot: Slot, bytes: &[u8]) -> Result<(), ShelfFailed>
        ensures faults { CountsFaults self.old.faults self.new.faults result }
        ensures value { ShelfAnswers self.old self.new (with_put self.old.contents slot bytes.now) result }
        ensures texts { self.new.texts ≡ self.old.texts }
    {
        if !self.begin() {
            return Err(ShelfFailed::Shelf);
        }
        let bytes = match Bytes::copy(self.alloc, bytes) {
            Ok(bytes) => bytes,
            Err(_) => return Err(ShelfFailed::NoMemory),
        };
        match slot {
            Slot::Object(key) => put_object(&mut self.objects, key, bytes),
            Slot::Status => {
                self.status = Some(bytes);
                Ok(())
            }
        }
    }

    /// A put of bytes that are handed over, but for the count of texts.
    fn keep_bytes(&mut self, slot: Slot, bytes: Bytes) -> Result<(), ShelfFailed>
        ensures faults { CountsFaults self.old.faults self.new.faults result }
        ensures value { ShelfAnswers self.old self.new (with_put self.old.contents slot bytes) result }
        ensures texts { self.new.texts ≡ self.old.texts }
    {
        if !self.begin() {
            return Err(ShelfFailed::Shelf);
        }
        match slot {
            Slot::Object(key) => put_object(&mut self.objects, key, bytes),
            Slot::Status => {
                self.status = Some(bytes);
                Ok(())
            }
        }
    }
}

impl Shelf for MemoryShelf {
    ghost contents = { λ shelf. Some shelf.contents };

    ghost may_give = { λ shelf slot given. given ≡ lies_in shelf.contents slot };

    ghost faults = { λ shelf. shelf.faults };

    ghost texts = { λ shelf. shelf.texts };

    fn fetch(&mut self, slot: Slot) -> Result<Option<Bytes>, ShelfFailed>
        ensures found { IfOk result (λ given. given ≡ lies_in self.new.contents slot) }
        ensures stays { Some self.new.contents ≡ Some self.old.contents }
        ensures faults { CountsFaults self.old.faults self.new.faults result }
        ensures gives { GivesNoMore (Tells self.old.contents) (Tells self.new.contents) }
        ensures texts { self.new.texts ≡ self.old.texts }
        ensures value { ShelfAnswers self.old self.new self.old.contents result }
    {
        if !self.begin() {
            return Err(ShelfFailed::Shelf);
        }
        match slot {
            Slot::Object(key) => copied(self.alloc, self.objects.get(&key)),
            Slot::Status => copied(self.alloc, self.status.as_ref()),
        }
    }

    fn put(&mut self, slot: Slot, bytes: &[u8]) -> Result<(), ShelfFailed>
        ensures ok { Changes (Some self.old.contents) (put_known (Some self.old.contents) slot bytes.now) (Some self.new.contents) result }
        ensures faults { CountsFaults self.old.faults self.new.faults result }
        ensures gives { GivesAlso (Tells self.old.contents) (Tells self.new.contents) slot (Some bytes.now) }
        ensures texts { self.new.texts ≡ texts_after slot self.old.texts }
        ensures value { ShelfAnswers self.old self.new (with_put self.old.contents slot bytes.now) result }
    {
        self.texts.count_put(&slot);
        self.put_bytes(slot, bytes)
    }

    fn put_own(&mut self, slot: Slot, bytes: Bytes) -> Result<(), ShelfFailed>
        ensures ok { Changes (Some self.old.contents) (put_known (Some self.old.contents) slot bytes) (Some self.new.contents) result }
        ensures faults { CountsFaults self.old.faults self.new.faults result }
        ensures gives { GivesAlso (Tells self.old.contents) (Tells self.new.contents) slot (Some bytes) }
        ensures texts { self.new.texts ≡ texts_after slot self.old.texts }
        ensures value { ShelfAnswers self.old self.new (with_put self.old.contents slot bytes) result }
    {
        self.texts.count_put(&slot);
        self.keep_bytes(slot, bytes)
    }

    fn remove(&mut self, slot: Slot) -> Result<(), ShelfFailed>
        ensures ok { Changes (Some self.old.contents) (removed_known (Some self.old.contents) slot) (Some self.new.contents) result }
        ensures faults { CountsFaults self.old.faults self.new.faults result }
        ensures gives { GivesAlso (Tells self.old.contents) (Tells self.new.contents) slot None }
        ensures untouched { LaysBy is_counted (Tells self.old.contents) (Tells self.new.contents) result }
        ensures texts { self.new.texts ≡ self.old.texts }
        ensures value { ShelfAnswers self.old self.new (without self.old.contents slot) result }
    {
        self.empty_slot(slot)
    }

    fn next(&mut self, kind: Kind, after: Option<ObjId>) -> Result<Option<Found>, ShelfFailed>
        ensures found { (held : Contents) → Some self.old.contents ≡ Some held → IfOk result (FindsNext held.objects kind after) }
        ensures stays { Some self.new.contents ≡ Some self.old.contents }
        ensures faults { CountsFaults self.old.faults self.new.faults result }
        ensures gives { GivesNoMore (Tells self.old.contents) (Tells self.new.contents) }
        ensures texts { self.new.texts ≡ self.old.texts }
        ensures value { ShelfAnswers self.old self.new self.old.contents result }
    {
        if !self.begin() {
            return Err(ShelfFailed::Shelf);
        }
        Ok(found_above(&self.objects, kind, after))
    }

    fn faults(&self) -> u64
        ensures value { result ≡ self.now.faults }
    {
        self.faults
    }

    ghost use Rattle.object_store.specs.MemoryShelf.{what_is_told};

    ghost told = { what_is_told };
}

/// Whether the call of this number is to fail.
fn is_due_at(fails: &[u64], number: u64) -> bool
    ensures value { result ≡ is_due fails.now number }
{
    fails.iter().any(|n| *n == number)
}

/// A copy of the bytes, if there are any.
fn copied(alloc: Global, stored: Option<&Bytes>) -> Result<Option<Bytes>, ShelfFailed>
    ensures value { IfOk result (λ given. given ≡ option_copied stored.entry) }
    ensures no_memory { IfErr result (λ failed. failed ≡ ShelfFailed.NoMemory) }
{
    match stored {
        Some(bytes) => match Bytes::copy(alloc, bytes.slice()) {
            Ok(copy) => Ok(Some(copy)),
            Err(_) => Err(ShelfFailed::NoMemory),
        },
        None => Ok(None),
    }
}

/// Puts an object under its key.
fn put_object(objects: &mut KeyTable<Bytes>, key: Key, bytes: Bytes) -> Result<(), ShelfFailed>
    requires ids { HasIds objects.old }
    ensures ids { HasIds objects.new }
    ensures ok { IfOk result (λ _. objects.new ≡ map.insert objects.old key bytes) }
    ensures err { OnErr result (objects.new ≡ objects.old) }
    ensures no_memory { IfErr result (λ failed. failed ≡ ShelfFailed.NoMemory) }
{
    // An id tells that it has 20 bytes.
    let _ = key.id.as_bytes();
    match objects.insert(key, bytes) {
        Ok(_) => Ok(()),
        Err(_) => Err(ShelfFailed::NoMemory),
    }
}

/// Takes away the object under a key.
fn remove_object(objects: &mut KeyTable<Bytes>, key: &Key)
    requires ids { HasIds objects.old }
    ensures ids { HasIds objects.new }
    ensures value { objects.new ≡ map.remove objects.old key.now }
{
    objects.remove(key);
}

/// The object of the kind with the least id above `after`.
fn found_above(objects: &KeyTable<Bytes>, kind: Kind, after: Option<ObjId>) -> Option<Found>
    requires ids { HasIds objects.now }
    ensures value { FindsNext objects.now kind after result }
{
    match next_key(objects, kind, after) {
        Some(key) => found_at(objects, kind, key),
        None => None,
    }
}

/// The least stored key of the kind or a later one, above the id if one is given.
fn next_key(objects: &KeyTable<Bytes>, kind: Kind, after: Option<ObjId>) -> Option<Key>
    ensures value { FindsKey objects.now kind after result }
{
    match after {
        Some(id) => objects.next(Some(Key { kind, id })),
        None => least_from(
            objects,
            &Key {
                kind,
                id: ObjId::NIL,
            },
        ),
    }
}

/// The least stored key from this one on.
fn least_from(objects: &KeyTable<Bytes>, first: &Key) -> Option<Key>
    ensures value { IsLeastFrom objects.now first.now result }
{
    if objects.has(first) {
        Some(*first)
    } else {
        objects.next(Some(*first))
    }
}

/// What is stored under the key, if it is of the kind.
fn found_at(objects: &KeyTable<Bytes>, kind: Kind, key: Key) -> Option<Found>
    ensures value { FindsAt objects.now kind key result }
{
    if key.kind != kind {
        return None;
    }
    match objects.get(&key) {
        Some(bytes) => Some(Found {
            id: key.id,
            size: bytes.len() as u64,
        }),
        None => None,
    }
}
