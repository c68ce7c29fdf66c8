//! The changes of one slot, in the index and on the shelf together.
ghost use Rattle.std.specs.Prelude.{◌≡◌, None, Some, length, OnErr, OnOk};
ghost use Rattle.std.specs.FinMap as map;
ghost use Rattle.object_store.specs.Shelf.{LaysBy, put_known, removed_known};
ghost use Rattle.object_store.specs.Steps.{ChangesBoth};
ghost use Rattle.object_store.specs.Store.{CountsShelf, is_of_shelf};
ghost use Rattle.object_store.specs.StoreView.{ChangesShelf, IsIndexed};

use crate::error::StoreFault;
use crate::fetching::fault_of;
use crate::shelf::{Shelf, ShelfFailed, Slot};
use ids::{Bytes, Key, KeyTable};
use std::alloc::AllocError;

/// Puts an object whose key isn't in the index. Room in the index is made before the shelf is asked.
pub(crate) fn put_new<S: Shelf>(
    shelf: &mut S,
    index: &mut KeyTable<u64>,
    key: &Key,
    bytes: &[u8],
) -> Result<(), StoreFault>
    requires absent { map.get index.old key.now ≡ None }
    requires ready { IsIndexed S.contents shelf.old index.old }
    ensures ready { IsIndexed S.contents shelf.new index.new }
    ensures value { ChangesBoth index.old (map.insert index.old key.now (length bytes.now)) index.old index.new
        (S.contents shelf.old) (put_known (S.contents shelf.old) (Slot.Object key.now) bytes.now) (S.contents shelf.new) result }
    ensures shelf { ChangesShelf S.may_give S.texts shelf.old shelf.new (Slot.Object key.now) (Some bytes.now) }
    ensures faults { CountsShelf (S.faults shelf.old) (S.faults shelf.new) result }
{
    let size = bytes.len() as u64;
    match index.insert(*key, size) {
        Ok(_) => {}
        Err(_) => return Err(StoreFault::NoMemory),
    }
    match shelf.put(Slot::Object(*key), bytes) {
        Ok(()) => Ok(()),
        Err(failed) => {
            let _ = index.remove(key);
            Err(fault_of(failed))
        }
    }
}

/// The same of bytes that are handed over.
pub(crate) fn put_own_new<S: Shelf>(
    shelf: &mut S,
    index: &mut KeyTable<u64>,
    key: &Key,
    bytes: Bytes,
) -> Result<(), StoreFault>
    requires absent { map.get index.old key.now ≡ None }
    requires ready { IsIndexed S.contents shelf.old index.old }
    ensures ready { IsIndexed S.contents shelf.new index.new }
    ensures value { ChangesBoth index.old (map.insert index.old key.now (length bytes)) index.old index.new
        (S.contents shelf.old) (put_known (S.contents shelf.old) (Slot.Object key.now) bytes) (S.contents shelf.new) result }
    ensures shelf { ChangesShelf S.may_give S.texts shelf.old shelf.new (Slot.Object key.now) (Some bytes) }
    ensures faults { CountsShelf (S.faults shelf.old) (S.faults shelf.new) result }
{
    match insert_size(index, key, &bytes) {
        Ok(()) => {}
        Err(_) => return Err(StoreFault::NoMemory),
    }
    match shelf.put_own(Slot::Object(*key), bytes) {
        Ok(()) => Ok(()),
        Err(failed) => {
            index.remove(key);
            Err(fault_of(failed))
        }
    }
}

/// Puts how many bytes an object has into the index.
fn insert_size(index: &mut KeyTable<u64>, key: &Key, bytes: &Bytes) -> Result<(), AllocError>
    ensures ok { OnOk result (index.new ≡ map.insert index.old key.now (length bytes.now)) }
    ensures err { OnErr result (index.new ≡ index.old) }
{
    index.put(*key, bytes.len() as u64)
}

/// Removes an object. The shelf is asked first, and only want of memory leaves the key in the index.
pub(crate) fn remove_object<S: Shelf>(
    shelf: &mut S,
    index: &mut KeyTable<u64>,
    key: &Key,
) -> Result<(), StoreFault>
    requires ready { IsIndexed S.contents shelf.old index.old }
    ensures ready { IsIndexed S.contents shelf.new index.new }
    ensures value { ChangesBoth index.old (map.remove index.old key.now) (map.remove index.old key.now) index.new
        (S.contents shelf.old) (removed_known (S.contents shelf.old) (Slot.Object key.now)) (S.contents shelf.new) result }
    ensures shelf { ChangesShelf S.may_give S.texts shelf.old shelf.new (Slot.Object key.now) None }
    ensures untouched { LaysBy is_of_shelf (S.may_give shelf.old) (S.may_give shelf.new) result }
    ensures faults { CountsShelf (S.faults shelf.old) (S.faults shelf.new) result }
{
    match shelf.remove(Slot::Object(*key)) {
        Ok(()) => {
            index.remove(key);
            Ok(())
        }
        Err(ShelfFailed::Shelf) => {
            index.remove(key);
            Err(StoreFault::Shelf)
        }
        Err(ShelfFailed::NoMemory) => Err(StoreFault::NoMemory),
    }
}
