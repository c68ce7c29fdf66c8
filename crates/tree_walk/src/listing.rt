//! The entries of a tree by path.
ghost use Rattle.tree_model.specs.declared.limits.TheConstants.{MAX_NAMES, MAX_PATHS};
ghost use Rattle.std.specs.Prelude.{◌≡◌, ◌≤◌, ◌+◌, false, IfOk, OnOk, Some, length};
ghost use Rattle.std.specs.FinMap as map;
ghost use Rattle.ids.specs.Key.{Objects};
ghost use Rattle.object_graph.specs.Listing.{listed};
ghost use Rattle.object_graph.specs.Objects.{AreEntriesOf};
ghost use Rattle.object_graph.specs.Traversal.{start, walk_root};
ghost use Rattle.object_store.specs.StoreView.{objects_of};
ghost use Rattle.tree_walk.specs.Limits.{IsWithinLimits};
ghost use Rattle.tree_walk.specs.Listings.{Lists, listed_one, listed_from};
ghost use Rattle.tree_walk.specs.Reading.{Answers, Reads};
ghost use Rattle.tree_walk.specs.Steps.{directory_step, entries_step, entry_step};

use crate::fault::WalkFault;
use crate::file::file_at;
use crate::found::Found;
use crate::name_order::in_name_order;
use crate::reading::fs_at;
use fs_objects::{Dirent, FsObject, is_directory_mode};
use ids::ObjId;
use object_graph::Entry;
use object_store::{Shelf, Store, StoreFault};
use std::alloc::{AllocError, Global};
use tree_model::{MAX_NAMES, MAX_PATHS, Path, PathTable};

/// The entries of a root, each at its path. Forty zeros are the empty directory.
///
/// It visits no blocks: of a file it looks at the object alone. The first fault in the order of the traversal is answered.
pub fn tree<S: Shelf>(
    alloc: Global,
    store: &mut Store<S>,
    root: ObjId,
) -> Result<PathTable<Entry>, WalkFault>
    ensures value { (objects : Objects) → objects_of S.contents store.old ≡ Some objects
        → Answers objects (walk_root false objects root start).fault (AreEntriesOf objects root) result }
    ensures bound { IfOk result IsWithinLimits }
    ensures stays { Reads S.contents S.may_give S.texts S.faults store.old store.new result }
{
    let mut found = Found::new(alloc);
    let path = Path::root(alloc);
    match list_directory(alloc, store, &path, &root, MAX_NAMES as u32, &mut found) {
        Ok(()) => {}
        Err(fault) => return Err(fault),
    }
    match table_of(alloc, found.into_entries()) {
        Ok(entries) => Ok(entries),
        Err(_) => Err(WalkFault::Store(StoreFault::NoMemory)),
    }
}

/// The entries in a table. Of a path that stands twice the first entry stays.
fn table_of(alloc: Global, found: Vec<(Path, Entry)>) -> Result<PathTable<Entry>, AllocError>
    ensures value { IfOk result (λ entries. entries ≡ map.from_entries found.items) }
{
    let mut found = found;
    let mut entries = PathTable::new(alloc);
    while let Some((path, entry)) = found.pop() {
        put(&mut entries, path, entry)?;
    }
    Ok(entries)
}

/// Puts an entry into the table, in the place of one that stands at its path.
fn put(entries: &mut PathTable<Entry>, path: Path, entry: Entry) -> Result<(), AllocError>
    ensures ok { OnOk result (entries.new ≡ map.insert entries.old path entry) }
{
    match entries.insert(path, entry) {
        Ok(_) => Ok(()),
        Err(failed) => Err(failed),
    }
}

/// Adds what lies below a directory to what was found.
#[cycle(listing)]
fn list_directory<S: Shelf>(
    alloc: Global,
    store: &mut Store<S>,
    path: &Path,
    id: &ObjId,
    room: u32,
    found: &mut Found,
) -> Result<(), WalkFault>
    requires fits { length path.now + room ≤ MAX_NAMES }
    ensures value { (objects : Objects) → objects_of S.contents store.old ≡ Some objects
        → Lists objects (directory_step false objects room path.now id.now) path.now (listed objects room id.now) found.old found.new result }
    ensures stays { Reads S.contents S.may_give S.texts S.faults store.old store.new result }
{
    if id.is_nil() {
        return Ok(());
    }
    let object = match fs_at(alloc, store, id) {
        Ok(object) => object,
        Err(fault) => return Err(fault),
    };
    let directory = match object {
        FsObject::File(_) => return Err(WalkFault::WrongKind(*id)),
        FsObject::Dir(directory) => directory,
    };
    match in_name_order(alloc, directory) {
        Ok(entries) => list_entries(alloc, store, path, entries.as_slice(), room, found),
        Err(_) => Err(WalkFault::Store(StoreFault::NoMemory)),
    }
}

/// Adds each of these entries, and what lies below it, to what was found.
#[cycle(listing)]
fn list_entries<S: Shelf>(
    alloc: Global,
    store: &mut Store<S>,
    path: &Path,
    entries: &[Dirent],
    room: u32,
    found: &mut Found,
) -> Result<(), WalkFault>
    requires fits { length path.now + room ≤ MAX_NAMES }
    ensures value { (objects : Objects) → objects_of S.contents store.old ≡ Some objects
        → Lists objects (entries_step false objects room path.now entries.now) path.now (listed_from objects room entries.now) found.old found.new result }
    ensures stays { Reads S.contents S.may_give S.texts S.faults store.old store.new result }
{
    for entry in entries {
        match list_entry(alloc, store, path, entry, room, found) {
            Ok(()) => {}
            Err(fault) => return Err(fault),
        }
    }
    Ok(())
}

/// Adds an entry, and what lies below it, to what was found.
#[cycle(listing)]
fn list_entry<S: Shelf>(
    alloc: Global,
    store: &mut Store<S>,
    path: &Path,
    entry: &Dirent,
    room: u32,
    found: &mut Found,
) -> Result<(), WalkFault>
    requires fits { length path.now + room ≤ MAX_NAMES }
    ensures value { (objects : Objects) → objects_of S.contents store.old ≡ Some objects
        → Lists objects (entry_step false objects room path.now entry.now) path.now (listed_one objects room entry.now) found.old found.new result }
    ensures stays { Reads S.contents S.may_give S.texts S.faults store.old store.new result }
{
    let count = found.len();
    if count >= MAX_PATHS {
        return Err(WalkFault::TooMany(count as u64 + 1));
    }
    if room == 0 {
        return Err(WalkFault::TooDeep(path.child(alloc, &entry.name)?));
    }
    found.add(alloc, path, entry)?;
    if is_directory_mode(entry.mode) {
        let own = path.child(alloc, &entry.name)?;
        list_directory(alloc, store, &own, &entry.id, room - 1, found)
    } else {
        match file_at(alloc, store, &entry.id) {
            Ok(_) => Ok(()),
            Err(fault) => Err(fault),
        }
    }
}
