//! What was fetched of files and directories, held in memory.
ghost use Rattle.std.specs.Prelude.{◌≡◌, false, IfOk};
ghost use Rattle.std.specs.FinMap as map;
ghost use Rattle.object_graph.specs.Objects.{AreEntriesOf, fs_at, fs_key};
ghost use Rattle.object_graph.specs.Traversal.{start, walk_root};
ghost use Rattle.tree_walk.specs.Files.{file_at};
ghost use Rattle.tree_walk.specs.Limits.{IsWithinLimits};
ghost use Rattle.tree_walk.specs.Reading.{Answers, AnswersRead};
ghost use Rattle.tree_fetch.specs.Held.{objects_in};
ghost use Rattle.tree_fetch.specs.Levels.{FindsObject, KeepsObject, put_fault, unread_of};

use fs_objects::{FileObject, FsObject};
use ids::{Items, Key, Kind, ObjId};
use object_graph::Entry;
use object_store::{MemoryShelf, Store, StoreFault};
use std::alloc::{AllocError, Global};
use std::marker::Model;
use sync_rules::SyncFault;
use tree_model::PathTable;
use tree_walk::{WalkFault, file_at, fs_at, tree};

/// The files and directories of a tree, each under the SHA-1 of its bytes. Contracts see them as objects.
#[derive(Drop)]
pub struct FetchedObjects {
    store: Store<MemoryShelf>,
}

impl Model for FetchedObjects {
    ghost use Rattle.std.specs.Coded.{coded_list, coded_ℕ};
    ghost use Rattle.std.specs.FinMap as map;
    ghost use Rattle.ids.specs.Key.{Objects};
    ghost use Rattle.ids.specs.contracts.key.Key as key_contracts;
    ghost use Rattle.tree_fetch.specs.Held.{objects_in};

    ghost Value = { Objects };

    ghost coded = { map.code key_contracts.the_row.coded (coded_list coded_ℕ) };

    ghost view = { λ a. objects_in a.store };
}

impl FetchedObjects {
    /// No object.
    pub(crate) fn new(alloc: Global) -> Result<FetchedObjects, AllocError>
        ensures value { IfOk result (λ held. held ≡ map.empty) }
    {
        match Store::start(alloc, MemoryShelf::new(alloc, Items::new(alloc))) {
            Ok(store) => Ok(FetchedObjects { store }),
            Err(_) => Err(AllocError),
        }
    }

    /// Keeps a copy of an object under its id. Bytes of another SHA-1 are `Damaged`; nothing is kept then.
    pub(crate) fn keep(&mut self, id: &ObjId, bytes: &[u8]) -> Result<(), SyncFault>
        ensures value { KeepsObject id.now bytes.now self.old self.new result }
    {
        keep_in(&mut self.store, id, bytes)
    }

    /// The file or directory that an id names, if one is held and can be read.
    pub(crate) fn read(&mut self, alloc: Global, id: &ObjId) -> Result<Option<FsObject>, AllocError>
        ensures value { IfOk result (FindsObject (fs_at self.old id.now)) }
        ensures stays { self.new ≡ self.old }
    {
        read_in(alloc, &mut self.store, id)
    }

    /// The file that an id names; for forty zeros that of no blocks. It changes nothing.
    pub fn file_at(&mut self, alloc: Global, id: &ObjId) -> Result<FileObject, WalkFault>
        ensures value { AnswersRead self.old (file_at self.old id.now) result }
        ensures stays { self.new ≡ self.old }
    {
        file_at(alloc, &mut self.store, id)
    }

    /// The entries of a root, each at its path, or the first fault of its traversal that looks at no block.
    pub(crate) fn tree(&mut self, alloc: Global, root: ObjId) -> Result<PathTable<Entry>, WalkFault>
        ensures value { Answers self.old (walk_root false self.old root start).fault (AreEntriesOf self.old root) result }
        ensures bound { IfOk result IsWithinLimits }
        ensures stays { self.new ≡ self.old }
    {
        tree(alloc, &mut self.store, root)
    }
}

/// Keeps a copy of an object in a store.
fn keep_in(store: &mut Store<MemoryShelf>, id: &ObjId, bytes: &[u8]) -> Result<(), SyncFault>
    ensures value { KeepsObject id.now bytes.now (objects_in store.old) (objects_in store.new) result }
{
    match store.put(fs_key(id), bytes) {
        Ok(_) => Ok(()),
        Err(fault) => Err(put_fault(id, fault)),
    }
}

/// The file or directory that an id names in a store, if one is held and can be read.
fn read_in(
    alloc: Global,
    store: &mut Store<MemoryShelf>,
    id: &ObjId,
) -> Result<Option<FsObject>, AllocError>
    ensures value { IfOk result (FindsObject (fs_at (objects_in store.old) id.now)) }
    ensures stays { objects_in store.new ≡ objects_in store.old }
{
    match fs_at(alloc, store, id) {
        Ok(object) => Ok(Some(object)),
        Err(fault) => unread_of(fault),
    }
}

/// The key of a file or directory.
pub(crate) fn fs_key(id: &ObjId) -> Key
    ensures value { result ≡ fs_key id.now }
{
    Key {
        kind: Kind::Fs,
        id: *id,
    }
}

/// Why an object is not kept.
fn put_fault(id: &ObjId, fault: StoreFault) -> SyncFault
    ensures value { result ≡ put_fault id.now fault }
{
    match fault {
        StoreFault::Wrong(got) => SyncFault::Damaged { want: *id, got },
        _ => SyncFault::NoMemory,
    }
}

/// None where an object can't be read, unless the store failed.
fn unread_of(fault: WalkFault) -> Result<Option<FsObject>, AllocError>
    ensures value { result ≡ unread_of fault }
{
    match fault {
        WalkFault::Store(_) => Err(AllocError),
        _ => Ok(None),
    }
}
