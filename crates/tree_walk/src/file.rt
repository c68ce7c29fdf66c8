//! File objects, read from a store.
ghost use Rattle.std.specs.Prelude.{◌≡◌, Some, Ok, ⊤, length};
ghost use Rattle.ids.specs.Key.{Objects};
ghost use Rattle.object_store.specs.StoreView.{objects_of};
ghost use Rattle.tree_walk.specs.Reading.{Answers, AnswersRead, Reads};
ghost use Rattle.object_graph.specs.Objects.{joined};
ghost use Rattle.object_graph.specs.Traversal.{start, walk_file_at};
ghost use Rattle.tree_walk.specs.Files.{file_at, file_due, blocks_due, added, fitting};

use crate::fault::WalkFault;
use crate::reading::{block_key, fs_at};
use fs_objects::{FileObject, FsObject};
use ids::{IdList, ObjId};
use object_store::{Shelf, Store};
use std::alloc::Global;

/// The file object that is stored under the id; for forty zeros that of no blocks.
///
/// A directory is of the wrong kind.
pub fn file_at<S: Shelf>(
    alloc: Global,
    store: &mut Store<S>,
    id: &ObjId,
) -> Result<FileObject, WalkFault>
    ensures value { (objects : Objects) → objects_of S.contents store.old ≡ Some objects → AnswersRead objects (file_at objects id.now) result }
    ensures stays { Reads S.contents S.may_give S.texts S.faults store.old store.new result }
{
    if id.is_nil() {
        return Ok(FileObject {
            blocks: IdList::new(alloc),
            size: 0,
        });
    }
    match fs_at(alloc, store, id)? {
        FsObject::File(file) => Ok(file),
        FsObject::Dir(_) => Err(WalkFault::WrongKind(*id)),
    }
}

/// The file object that is stored under the id, if it is whole: its blocks are stored, and have as many bytes as it tells.
///
/// The first fault of the file's traversal is answered.
pub fn whole_file_at<S: Shelf>(
    alloc: Global,
    store: &mut Store<S>,
    id: &ObjId,
) -> Result<FileObject, WalkFault>
    ensures value { (objects : Objects) → objects_of S.contents store.old ≡ Some objects
        → Answers objects (walk_file_at objects id.now start).fault (λ file. file_at objects id.now ≡ Ok file) result }
    ensures stays { Reads S.contents S.may_give S.texts S.faults store.old store.new result }
{
    let file = match file_at(alloc, store, id) {
        Ok(file) => file,
        Err(fault) => return Err(fault),
    };
    match check_blocks(store, id, &file) {
        Ok(()) => Ok(file),
        Err(fault) => Err(fault),
    }
}

/// A file's blocks are stored, and have as many bytes as it tells. It reads no block.
pub fn check_blocks<S: Shelf>(
    store: &Store<S>,
    id: &ObjId,
    file: &FileObject,
) -> Result<(), WalkFault>
    ensures value { (objects : Objects) → objects_of S.contents store.now ≡ Some objects → Answers objects (file_due objects id.now file.now) (λ done. ⊤) result }
    ensures stays { Reads S.contents S.may_give S.texts S.faults store.now store.now result }
{
    let size = file.size;
    match total_size(store, file.blocks.slice())? {
        Some(total) => if total == size {
            Ok(())
        } else {
            Err(WalkFault::WrongSize(*id))
        },
        None => Err(WalkFault::WrongSize(*id)),
    }
}

/// The number of the bytes of blocks, if 64 bits hold it.
fn total_size<S: Shelf>(store: &Store<S>, blocks: &[ObjId]) -> Result<Option<u64>, WalkFault>
    ensures value { (objects : Objects) → objects_of S.contents store.now ≡ Some objects
        → Answers objects (blocks_due objects blocks.now) (λ total. total ≡ fitting (length (joined objects blocks.now))) result }
    ensures stays { Reads S.contents S.may_give S.texts S.faults store.now store.now result }
{
    let mut total = Some(0);
    for block in blocks {
        let key = &block_key(block);
        match store.has(*key) {
            Some(size) => total = add(total, size),
            None => return Err(WalkFault::Incomplete(*key)),
        }
    }
    Ok(total)
}

/// A sum with one number more, if 64 bits hold it.
fn add(total: Option<u64>, size: u64) -> Option<u64>
    ensures value { result ≡ added total size }
{
    match total {
        Some(total) => total.checked_add(size),
        None => None,
    }
}
