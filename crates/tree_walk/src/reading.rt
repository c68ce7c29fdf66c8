//! Single objects, read from a store.
ghost use Rattle.std.specs.Prelude.{◌≡◌, IfErr, IfOk, Some, is_some, true};
ghost use Rattle.std.specs.FinMap as map;
ghost use Rattle.ids.specs.Key.{Objects};
ghost use Rattle.object_graph.specs.Objects.{fs_at, commit_at, block_key, fs_key, commit_key};
ghost use Rattle.object_store.specs.Store.{IsWhole};
ghost use Rattle.object_store.specs.StoreView.{objects_of};
ghost use Rattle.tree_walk.specs.Reading.{AnswersRead, IsDamageAt, IsFaultAt, Reads, stored_at};

use crate::fault::WalkFault;
use commit_objects::Commit;
use fs_objects::FsObject;
use ids::{Bytes, Key, Kind, ObjId};
use json_words::ReadFault;
use object_store::{Shelf, Store, StoreFault};
use std::alloc::Global;

/// The commit that is stored under the id.
///
/// A commit that isn't stored is incomplete. Bytes that aren't a commit's, or are those of a commit that bears another
/// name, are unreadable.
pub fn commit_at<S: Shelf>(
    alloc: Global,
    store: &mut Store<S>,
    id: ObjId,
) -> Result<Commit, WalkFault>
    ensures value { (objects : Objects) → objects_of S.contents store.old ≡ Some objects → AnswersRead objects (commit_at objects id) result }
    ensures named { IfOk result (λ commit. commit.id ≡ id) }
    ensures of_key { IfErr result (IsFaultAt (commit_key id)) }
    ensures stays { Reads S.contents S.may_give S.texts S.faults store.old store.new result }
{
    let id = &id;
    let key = &commit_key(id);
    let bytes = bytes_at(store, key)?;
    match Commit::read(alloc, bytes.slice()) {
        Ok(commit) => if commit.id == *id {
            Ok(commit)
        } else {
            Err(WalkFault::Unreadable(*key))
        },
        Err(ReadFault::Bad(_)) => Err(WalkFault::Unreadable(*key)),
        Err(ReadFault::NoMemory) => Err(WalkFault::Store(StoreFault::NoMemory)),
    }
}

/// The file or directory object that is stored under the id.
///
/// One that isn't stored is incomplete, and other bytes are unreadable.
pub fn fs_at<S: Shelf>(
    alloc: Global,
    store: &mut Store<S>,
    id: &ObjId,
) -> Result<FsObject, WalkFault>
    ensures value { (objects : Objects) → objects_of S.contents store.old ≡ Some objects → AnswersRead objects (fs_at objects id.now) result }
    ensures stays { Reads S.contents S.may_give S.texts S.faults store.old store.new result }
{
    let key = &fs_key(id);
    let bytes = bytes_at(store, key)?;
    match FsObject::read(alloc, bytes.slice()) {
        Ok(object) => Ok(object),
        Err(ReadFault::Bad(_)) => Err(WalkFault::Unreadable(*key)),
        Err(ReadFault::NoMemory) => Err(WalkFault::Store(StoreFault::NoMemory)),
    }
}

/// The bytes that are stored under the key. Over any shelf it gives none but for a key of the index, and those of a file, a
/// directory or a block under their own name alone.
pub fn bytes_at<S: Shelf>(store: &mut Store<S>, key: &Key) -> Result<Bytes, WalkFault>
    ensures value { (objects : Objects) → objects_of S.contents store.old ≡ Some objects → AnswersRead objects (stored_at objects key.now) result }
    ensures known { IfOk result (λ bytes. is_some (map.get store.old.index key.now) ≡ true) }
    ensures whole { IfOk result (λ bytes. IsWhole (S.may_give store.new.shelf) key.now (Some bytes)) }
    ensures of_key { IfErr result (IsFaultAt key.now) }
    ensures damaged { (objects : Objects) → objects_of S.contents store.old ≡ Some objects → IfErr result (IsDamageAt objects key.now) }
    ensures stays { Reads S.contents S.may_give S.texts S.faults store.old store.new result }
{
    match store.get(*key) {
        Ok(Some(bytes)) => Ok(bytes),
        Ok(None) => Err(WalkFault::Incomplete(*key)),
        Err(fault) => Err(WalkFault::Store(fault)),
    }
}

/// The key of a block.
pub fn block_key(id: &ObjId) -> Key
    ensures value { result ≡ block_key id.now }
{
    Key {
        kind: Kind::Block,
        id: *id,
    }
}

/// The key of a file or directory object.
pub fn fs_key(id: &ObjId) -> Key
    ensures value { result ≡ fs_key id.now }
{
    Key {
        kind: Kind::Fs,
        id: *id,
    }
}

/// The key of a commit.
pub fn commit_key(id: &ObjId) -> Key
    ensures value { result ≡ commit_key id.now }
{
    Key {
        kind: Kind::Commit,
        id: *id,
    }
}
