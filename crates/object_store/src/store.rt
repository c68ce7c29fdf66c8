//! The objects of a library: a finite map from keys to bytes, kept on a shelf.
ghost use Rattle.std.specs.Prelude.{◌≡◌, ℕ, List, length, IfOk, IfErr, OnOk, OnErr, IsTrue, IsFalse, IsSome, is_some, option_map, None, Some, Option, if◌then◌else◌};
ghost use Rattle.std.specs.FinMap as map;
ghost use Rattle.sha1.specs.Sha1.{sha1};
ghost use Rattle.ids.specs.Key.{Objects};
ghost use Rattle.ids.specs.declared.key.Key.{Key};
ghost use Rattle.ids.specs.MapView.{IsNext};
ghost use Rattle.ids.specs.ObjectId.{nil};
ghost use Rattle.ids.specs.Outcome.{ExactlyWith, RefusesAs};
ghost use Rattle.object_store.specs.Shelf.{LaysBy};
ghost use Rattle.object_store.specs.Store.{CountsShelf, IsFoundSame, IsGetFault, IsOfStored, IsPutFault, IsWhole, damage_at, has_other_name, is_free, is_of_shelf, is_want, judged_found, put_refusal, same_bytes};
ghost use Rattle.object_store.specs.StoreView.{AddsNoStray, ChangesShelf, HasNoStray, IsStarted, Keeps, NoteChanges, PutChanges, ReadsShelf, RemovalChanges, StartReads, StartsSo, StraysBy, left_after, objects_of, status_of, with_object};

use crate::changing::{put_new, put_own_new, remove_object};
use crate::error::StoreFault;
use crate::fetching::{fault_of, fetch_whole, name_refusal, put_own_stored, put_stored};
use crate::key_index::read_index;
use crate::put::Put;
use crate::shelf::{Shelf, Slot};
use crate::told_name::own_refusal;
use crate::unjudged::fetch_unjudged;
use ids::{Bytes, Key, KeyTable, ObjId};
use std::alloc::{AllocError, Global};
use std::marker::Model;

/// The objects of a library on a shelf: those that lie there and whose keys stand in the store's index, with the size of
/// each. Over a shelf that tells what it holds, contracts see a finite map from keys to bytes (`objects_of`).
///
/// Each call changes at most one slot of the shelf, and leaves the old or the new in it.
#[derive(Drop)]
pub struct Store<S: Shelf> {
    shelf: S,
    index: KeyTable<u64>,
}

impl<S: Shelf> Model for Store<S> {
    ghost use Rattle.object_store.specs.StoreView.{IsIndexed, StoreView, store_code};

    ghost Value = { StoreView S };

    ghost coded = { store_code S.code };

    ghost view = { λ a. record { shelf = a.shelf; index = a.index } };

    ghost invariant = { λ a. IsIndexed S.contents a.shelf a.index };
}

impl<S: Shelf> Store<S> {
    /// The store of all that lies on the shelf. With a fault the shelf is given back, and holds what it held.
    pub fn start(alloc: Global, shelf: S) -> Result<Store<S>, (S, StoreFault)>
        ensures ok { IfOk result (IsStarted S.contents shelf) }
        ensures lying { IfOk result (HasNoStray S.contents) }
        ensures err { IfErr result (λ refused. S.contents refused.0 ≡ S.contents shelf) }
        ensures refused { IfErr result (λ refused. IsTrue (is_free refused.1)) }
        ensures shelf { StartReads S.may_give S.texts shelf result }
        ensures faults { StartsSo S.faults shelf result }
    {
        let mut shelf = shelf;
        match read_index(alloc, &mut shelf) {
            Ok(index) => Ok(Store { shelf, index }),
            Err(fault) => Err((shelf, fault)),
        }
    }

    /// Stores a copy of an object. What is stored under a key never changes.
    ///
    /// Of a file, a directory or a block the id is the SHA-1 of the bytes. A commit's id is its caller's to check.
    pub fn put(&mut self, key: Key, bytes: &[u8]) -> Result<Put, StoreFault>
        ensures ok { OnOk result (objects_of S.contents self.new ≡ with_object (objects_of S.contents self.old) key bytes.now) }
        ensures err { OnErr result (objects_of S.contents self.new ≡ objects_of S.contents self.old) }
        ensures told { IfOk result (λ put. put ≡ (if is_some (map.get self.old.index key) then Put.Same else Put.New)) }
        ensures found { IfOk result (IsFoundSame (S.may_give self.new.shelf) key bytes.now) }
        ensures stays { status_of S.contents self.new ≡ status_of S.contents self.old }

        // Of every shelf: what changes in the index and on the shelf.
        ensures changes { PutChanges S.contents self.old self.new key bytes.now result }
        ensures lying { StraysBy is_of_shelf S.contents self.old self.new result }

        // The refusals, in the order in which they are looked for. A wrong name and the id that names nothing are found
        // before the shelf is asked. Want of memory and a failure of the shelf may come in the place of the others.
        ensures wrong { ExactlyWith is_want result StoreFault.Wrong (sha1 bytes.now) (IsTrue (has_other_name key bytes.now)) }
        ensures untouched { IsTrue (has_other_name key bytes.now) → self.new ≡ self.old }
        ensures taken { IsFalse (has_other_name key bytes.now) → IsTrue (same_bytes key.id nil) → result ≡ Err (StoreFault.Taken key.id) }
        ensures cause { IfErr result (IsPutFault (S.may_give self.new.shelf) key bytes.now) }
        ensures stored { IfErr result (IsOfStored (map.get self.old.index key) key) }
        ensures refused { (objects : Objects) → objects_of S.contents self.old ≡ Some objects
            → RefusesAs is_free result (put_refusal objects key bytes.now) }
        ensures shelf { ChangesShelf S.may_give S.texts self.old.shelf self.new.shelf (Slot.Object key) (Some bytes.now) }
        ensures faults { CountsShelf (S.faults self.old.shelf) (S.faults self.new.shelf) result }
    {
        if let Some(fault) = name_refusal(&key, bytes) {
            return Err(fault);
        }
        if self.index.has(&key) {
            return put_stored(&mut self.shelf, &key, bytes);
        }
        match put_new(&mut self.shelf, &mut self.index, &key, bytes) {
            Ok(()) => Ok(Put::New),
            Err(fault) => Err(fault),
        }
    }

    /// Stores an object as `put` does, of bytes that are handed over with their SHA-1: a shelf that keeps them in memory need
    /// not copy them.
    pub fn put_own(&mut self, key: Key, bytes: Bytes, name: &ObjId) -> Result<Put, StoreFault>
        requires named { name.now ≡ sha1 bytes }
        ensures ok { OnOk result (objects_of S.contents self.new ≡ with_object (objects_of S.contents self.old) key bytes) }
        ensures err { OnErr result (objects_of S.contents self.new ≡ objects_of S.contents self.old) }
        ensures told { IfOk result (λ put. put ≡ (if is_some (map.get self.old.index key) then Put.Same else Put.New)) }
        ensures found { IfOk result (IsFoundSame (S.may_give self.new.shelf) key bytes) }
        ensures stays { status_of S.contents self.new ≡ status_of S.contents self.old }
        ensures changes { PutChanges S.contents self.old self.new key bytes result }
        ensures lying { StraysBy is_of_shelf S.contents self.old self.new result }
        ensures wrong { ExactlyWith is_want result StoreFault.Wrong (sha1 bytes) (IsTrue (has_other_name key bytes)) }
        ensures untouched { IsTrue (has_other_name key bytes) → self.new ≡ self.old }
        ensures taken { IsFalse (has_other_name key bytes) → IsTrue (same_bytes key.id nil) → result ≡ Err (StoreFault.Taken key.id) }
        ensures cause { IfErr result (IsPutFault (S.may_give self.new.shelf) key bytes) }
        ensures stored { IfErr result (IsOfStored (map.get self.old.index key) key) }
        ensures refused { (objects : Objects) → objects_of S.contents self.old ≡ Some objects
            → RefusesAs is_free result (put_refusal objects key bytes) }
        ensures shelf { ChangesShelf S.may_give S.texts self.old.shelf self.new.shelf (Slot.Object key) (Some bytes) }
        ensures faults { CountsShelf (S.faults self.old.shelf) (S.faults self.new.shelf) result }
    {
        if let Some(fault) = own_refusal(&key, &bytes, name) {
            return Err(fault);
        }
        let known = self.index.has(&key);
        if known {
            return put_own_stored(&mut self.shelf, &key, &bytes);
        }
        match put_own_new(&mut self.shelf, &mut self.index, &key, bytes) {
            Ok(()) => Ok(Put::New),
            Err(fault) => Err(fault),
        }
    }

    /// The bytes that are stored under the key, if there are any. Bytes of a file, a directory or a block that the shelf
    /// gives under a wrong name are never given on.
    pub fn get(&mut self, key: Key) -> Result<Option<Bytes>, StoreFault>
        ensures found { (objects : Objects) → objects_of S.contents self.old ≡ Some objects
            → IfOk result (λ found. found ≡ map.get objects key) }
        ensures stays { Keeps S.contents self.old self.new }

        // Of every shelf: something is found exactly where the key stands in the index, and under its own name.
        ensures told { IfOk result (λ found. is_some found ≡ is_some (map.get self.old.index key)) }
        ensures value { IfOk result (IsWhole (S.may_give self.new.shelf) key) }

        ensures damaged { IfErr result (IsGetFault (S.may_give self.new.shelf) key) }
        ensures stored { IfErr result (IsOfStored (map.get self.old.index key) key) }
        ensures refused { (objects : Objects) → objects_of S.contents self.old ≡ Some objects
            → RefusesAs is_free result (damage_at objects key) }
        ensures shelf { ReadsShelf S.may_give S.texts self.old.shelf self.new.shelf }
        ensures faults { CountsShelf (S.faults self.old.shelf) (S.faults self.new.shelf) result }
    {
        if !self.index.has(&key) {
            return Ok(None);
        }
        match fetch_whole(&mut self.shelf, &key) {
            Ok(bytes) => Ok(Some(bytes)),
            Err(cause) => Err(cause),
        }
    }

    /// What a get would find, but that the name of the bytes is still to be looked at: what it would answer is told by the word
    /// `judged_found`.
    pub fn fetch(&mut self, key: Key) -> Result<Option<Bytes>, StoreFault>
        ensures found { (objects : Objects) → objects_of S.contents self.old ≡ Some objects
            → IfOk (judged_found key result) (λ found. found ≡ map.get objects key) }
        ensures stays { Keeps S.contents self.old self.new }
        ensures told { IfOk (judged_found key result) (λ found. is_some found ≡ is_some (map.get self.old.index key)) }
        ensures value { IfOk (judged_found key result) (IsWhole (S.may_give self.new.shelf) key) }
        ensures damaged { IfErr (judged_found key result) (IsGetFault (S.may_give self.new.shelf) key) }
        ensures stored { IfErr (judged_found key result) (IsOfStored (map.get self.old.index key) key) }
        ensures refused { (objects : Objects) → objects_of S.contents self.old ≡ Some objects
            → RefusesAs is_free (judged_found key result) (damage_at objects key) }
        ensures shelf { ReadsShelf S.may_give S.texts self.old.shelf self.new.shelf }
        ensures faults { CountsShelf (S.faults self.old.shelf) (S.faults self.new.shelf) (judged_found key result) }
    {
        if !self.index.has(&key) {
            return Ok(None);
        }
        match fetch_unjudged(&mut self.shelf, &key) {
            Ok(bytes) => Ok(Some(bytes)),
            Err(why) => Err(why),
        }
    }

    /// The number of bytes that are stored under the key, if there are any. It takes no memory.
    pub fn has(&self, key: Key) -> Option<u64>
        ensures value { result ≡ map.get self.now.index key }
        ensures found { (objects : Objects) → objects_of S.contents self.now ≡ Some objects
            → result ≡ option_map length (map.get objects key) }
    {
        match self.index.get(&key) {
            Some(size) => Some(*size),
            None => None,
        }
    }

    /// The least stored key above this one, or the least of all. It takes no memory.
    pub fn after(&self, key: Option<Key>) -> Option<Key>
        ensures value { IsNext self.now.index key result }
        ensures found { (objects : Objects) → objects_of S.contents self.now ≡ Some objects → IsNext objects key result }
    {
        self.index.next(key)
    }

    /// The stored keys alone, in a table of their own.
    pub fn keys(&self, alloc: Global) -> Result<KeyTable<()>, AllocError>
        ensures value { IfOk result (λ keys. (key : Key) → is_some (map.get keys key) ≡ is_some (map.get self.now.index key)) }
        ensures found { (objects : Objects) → objects_of S.contents self.now ≡ Some objects
            → IfOk result (λ keys. (key : Key) → is_some (map.get keys key) ≡ is_some (map.get objects key)) }
    {
        self.index.keys(alloc)
    }

    /// The number of stored keys. It takes no memory.
    pub fn count(&self) -> u64
        ensures value { result ≡ map.len self.now.index }
        ensures found { (objects : Objects) → objects_of S.contents self.now ≡ Some objects → result ≡ map.len objects }
    {
        self.index.len() as u64
    }

    /// Removes a stored object: its key from the index, and its bytes from the shelf. A shelf that fails may keep the
    /// bytes, and the key goes all the same. Want of memory changes nothing.
    pub fn give_up(&mut self, key: Key) -> Result<(), StoreFault>
        requires stored { IsSome (map.get self.old.index key) }
        ensures ok { objects_of S.contents self.new ≡ left_after (objects_of S.contents self.old) key result }
        ensures stays { status_of S.contents self.new ≡ status_of S.contents self.old }
        ensures changes { RemovalChanges S.contents self.old self.new key result }
        ensures lying { StraysBy is_of_shelf S.contents self.old self.new result }
        ensures shelf { ChangesShelf S.may_give S.texts self.old.shelf self.new.shelf (Slot.Object key) None }
        ensures untouched { LaysBy is_of_shelf (S.may_give self.old.shelf) (S.may_give self.new.shelf) result }
        ensures faults { CountsShelf (S.faults self.old.shelf) (S.faults self.new.shelf) result }
    {
        remove_object(&mut self.shelf, &mut self.index, &key)
    }

    /// Writes the status text. After `Shelf` the old or the new text stands, after `NoMemory` the old.
    pub fn note(&mut self, text: &[u8]) -> Result<(), StoreFault>
        ensures ok { OnOk result (status_of S.contents self.new ≡ option_map (λ _. Some text.now) (status_of S.contents self.old)) }
        ensures changes { NoteChanges S.contents self.old self.new text.now result }
        ensures lying { AddsNoStray S.contents self.old self.new }
        ensures stays { objects_of S.contents self.new ≡ objects_of S.contents self.old }
        ensures shelf { ChangesShelf S.may_give S.texts self.old.shelf self.new.shelf Slot.Status (Some text.now) }
        ensures faults { CountsShelf (S.faults self.old.shelf) (S.faults self.new.shelf) result }
    {
        match self.shelf.put(Slot::Status, text) {
            Ok(()) => Ok(()),
            Err(failed) => Err(fault_of(failed)),
        }
    }

    /// The status text, if one was written.
    pub fn noted(&mut self) -> Result<Option<Bytes>, StoreFault>
        ensures found { (status : Option (List ℕ)) → status_of S.contents self.old ≡ Some status
            → IfOk result (λ found. found ≡ status) }
        ensures value { IfOk result (S.may_give self.new.shelf Slot.Status) }
        ensures stays { Keeps S.contents self.old self.new }
        ensures refused { IfErr result (λ fault. IsTrue (is_free fault)) }
        ensures shelf { ReadsShelf S.may_give S.texts self.old.shelf self.new.shelf }
        ensures faults { CountsShelf (S.faults self.old.shelf) (S.faults self.new.shelf) result }
    {
        match self.shelf.fetch(Slot::Status) {
            Ok(text) => Ok(text),
            Err(failed) => Err(fault_of(failed)),
        }
    }

    /// The shelf's count of faults. It takes no memory.
    pub fn faults(&self) -> u64
        ensures value { result ≡ S.faults self.now.shelf }
    {
        self.shelf.faults()
    }

    /// The shelf.
    pub fn end(self) -> S
        ensures value { result ≡ self.shelf }
    {
        self.shelf
    }
}
