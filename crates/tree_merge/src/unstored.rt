//! Objects that were made, without those that are stored already.
ghost use Rattle.std.specs.Prelude.{◌≡◌, Some, IfErr, IfOk};
ghost use Rattle.ids.specs.Key.{Objects};
ghost use Rattle.object_store.specs.StoreView.{objects_of};
ghost use Rattle.tree_walk.specs.Reading.{Reads};
ghost use Rattle.tree_merge.specs.Merging.{FindsSo, IsCaused, LeavesSo, as_read};
ghost use Rattle.tree_merge.specs.TreeBuilding.{AreNamed, IsOwnName};

use crate::merging::MergeFault;
use crate::tree_builder::{are_equal, keep};
use ids::{Bytes, Key, KeyTable};
use object_store::{Shelf, Store, StoreFault};
use std::alloc::Global;
use tree_walk::WalkFault;

/// The objects that aren't stored. Each object that is stored has there the same bytes, or is refused.
pub(crate) fn drop_stored<S: Shelf>(
    alloc: Global,
    store: &mut Store<S>,
    mut made: KeyTable<Bytes>,
) -> Result<KeyTable<Bytes>, MergeFault>
    requires named { AreNamed made }
    ensures value { (objects : Objects) → objects_of S.contents store.old ≡ Some objects → LeavesSo objects made result }
    ensures named { IfOk result AreNamed }
    ensures cause { IfErr result IsCaused }
    ensures stays { Reads S.contents S.may_give S.texts S.faults store.old store.new (as_read result) }
{
    let mut left = KeyTable::new(alloc);
    while let Some(key) = made.next(None) {
        let Some(bytes) = made.remove(&key) else {
            unreachable!()
        };
        match is_stored(store, &key, &bytes) {
            Ok(true) => {}
            Ok(false) => match keep(&mut left, key, bytes) {
                Ok(()) => {}
                Err(_) => return Err(MergeFault::Walk(WalkFault::Store(StoreFault::NoMemory))),
            },
            Err(fault) => return Err(fault),
        }
    }
    Ok(left)
}

/// Whether an object is stored.
fn is_stored<S: Shelf>(store: &mut Store<S>, key: &Key, bytes: &Bytes) -> Result<bool, MergeFault>
    requires named { IsOwnName key.now bytes.now }
    ensures value { (objects : Objects) → objects_of S.contents store.old ≡ Some objects → FindsSo objects key.now bytes.now result }
    ensures cause { IfErr result IsCaused }
    ensures stays { Reads S.contents S.may_give S.texts S.faults store.old store.new (as_read result) }
{
    match store.get(*key) {
        Ok(Some(stored)) => {
            if are_equal(stored.slice(), bytes.slice()) {
                Ok(true)
            } else {
                Err(MergeFault::Taken(key.id))
            }
        }
        Ok(None) => Ok(false),
        Err(fault) => Err(MergeFault::Walk(WalkFault::Store(fault))),
    }
}
