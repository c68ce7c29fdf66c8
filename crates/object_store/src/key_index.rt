//! The index of a shelf: each key that lies on it, with its size.
ghost use Rattle.std.specs.Prelude.{◌≡◌, IfOk, IfErr, OnOk, IsTrue, Some, None};
ghost use Rattle.object_store.specs.Shelf.{Contents};
ghost use Rattle.object_store.specs.Steps.{Indexes, is_done, is_read};
ghost use Rattle.object_store.specs.Store.{CountsShelf, is_free};
ghost use Rattle.object_store.specs.StoreView.{IsIndexOf, ReadsShelf};

use crate::error::StoreFault;
use crate::fetching::fault_of;
use crate::shelf::Shelf;
use ids::{Key, KeyTable, Kind};
use std::alloc::Global;

/// The index of all that lies on the shelf.
pub(crate) fn read_index<S: Shelf>(
    alloc: Global,
    shelf: &mut S,
) -> Result<KeyTable<u64>, StoreFault>
    ensures value { IfOk result (λ index. (held : Contents) → S.contents shelf.old ≡ Some held → IsIndexOf held.objects index) }
    ensures stays { S.contents shelf.new ≡ S.contents shelf.old }
    ensures refused { IfErr result (λ fault. IsTrue (is_free fault)) }
    ensures shelf { ReadsShelf S.may_give S.texts shelf.old shelf.new }
    ensures faults { CountsShelf (S.faults shelf.old) (S.faults shelf.new) result }
{
    let mut index = KeyTable::new(alloc);
    match read_kind(shelf, &mut index, Kind::Commit) {
        Ok(()) => {}
        Err(fault) => return Err(fault),
    }
    match read_kind(shelf, &mut index, Kind::Fs) {
        Ok(()) => {}
        Err(fault) => return Err(fault),
    }
    match read_kind(shelf, &mut index, Kind::Block) {
        Ok(()) => Ok(index),
        Err(fault) => Err(fault),
    }
}

/// Reads the names of one kind, of which the index has none.
fn read_kind<S: Shelf>(
    shelf: &mut S,
    index: &mut KeyTable<u64>,
    kind: Kind,
) -> Result<(), StoreFault>
    requires ready { (held : Contents) → S.contents shelf.old ≡ Some held → Indexes (is_read kind None) held.objects index.old }
    ensures ok { OnOk result ((held : Contents) → S.contents shelf.new ≡ Some held → Indexes (is_done kind) held.objects index.new) }
    ensures stays { S.contents shelf.new ≡ S.contents shelf.old }
    ensures refused { IfErr result (λ fault. IsTrue (is_free fault)) }
    ensures shelf { ReadsShelf S.may_give S.texts shelf.old shelf.new }
    ensures faults { CountsShelf (S.faults shelf.old) (S.faults shelf.new) result }
{
    let mut last = None;
    for _ in 0..u64::MAX {
        let found = match shelf.next(kind, last) {
            Ok(Some(found)) => found,
            Ok(None) => return Ok(()),
            Err(failed) => return Err(fault_of(failed)),
        };
        let id = found.id;
        match index.insert(Key { kind, id }, found.size) {
            Ok(_) => {}
            Err(_) => return Err(StoreFault::NoMemory),
        }
        last = Some(id);
    }
    // No memory holds so many names.
    Err(StoreFault::NoMemory)
}
