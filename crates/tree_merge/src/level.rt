//! The entries of three directories, name by name.
ghost use Rattle.std.specs.Prelude.{◌≡◌, ◌++◌, ◌∷◌, [], List, ℕ, IfOk, IfNone, IfSome, None, OnOk, Some, option_map};
ghost use Rattle.std.specs.FinMap as map;
ghost use Rattle.ids.specs.Key.{Objects};
ghost use Rattle.object_graph.specs.Objects.{dirents_at, directory_in, entry_named, entry_of};
ghost use Rattle.object_store.specs.StoreView.{objects_of};
ghost use Rattle.tree_model.specs.Path.{PathV};
ghost use Rattle.tree_walk.specs.Reading.{Reads};
ghost use Rattle.tree_merge.specs.Level.{IsDirectoryAt, IsEmpty, IsTaken, Tells};
ghost use Rattle.tree_merge.specs.Telling.{AnswersWell};

use crate::tables::put;
use fs_objects::{Dirent, FsObject, is_directory_mode};
use ids::{Items, ObjId};
use object_graph::Entry;
use object_store::{Shelf, Store, StoreFault};
use std::alloc::{AllocError, Global};
use tree_model::{Path, PathTable};
use tree_walk::{WalkFault, fs_at};

/// The entries of three directories at one path, each at its own path.
#[derive(Drop)]
pub(crate) struct Level {
    pub base: PathTable<Dirent>,
    pub head: PathTable<Dirent>,
    pub pushed: PathTable<Dirent>,
}

/// The entries of one name, of which there is at least one.
#[derive(Drop)]
pub(crate) struct Trio {
    pub base: Option<Dirent>,
    pub head: Option<Dirent>,
    pub pushed: Option<Dirent>,
}

/// The entries of a directory, each at its path below this one; of forty zeros none.
pub(crate) fn entries_at<S: Shelf>(
    alloc: Global,
    store: &mut Store<S>,
    path: &Path,
    id: &ObjId,
) -> Result<PathTable<Dirent>, WalkFault>
    ensures value { (objects : Objects) → objects_of S.contents store.old ≡ Some objects → IsDirectoryAt objects id.now
        → AnswersWell objects (Tells path.now (dirents_at objects id.now)) result }
    ensures stays { Reads S.contents S.may_give S.texts S.faults store.old store.new result }
{
    if id.is_nil() {
        return Ok(PathTable::new(alloc));
    }
    let object = match fs_at(alloc, store, id) {
        Ok(object) => object,
        Err(fault) => return Err(fault),
    };
    let entries = match object {
        FsObject::File(_) => return Err(WalkFault::WrongKind(*id)),
        FsObject::Dir(directory) => directory.entries,
    };
    match by_path(alloc, path, entries) {
        Ok(table) => Ok(table),
        Err(_) => Err(WalkFault::Store(StoreFault::NoMemory)),
    }
}

/// The entries under the paths of their names. Of two entries of one name the first one stays.
fn by_path(
    alloc: Global,
    path: &Path,
    entries: Items<Dirent>,
) -> Result<PathTable<Dirent>, AllocError>
    ensures value { IfOk result (Tells path.now entries) }
{
    let mut entries = entries.into_vec();
    let mut table = PathTable::new(alloc);
    while let Some(entry) = entries.pop() {
        let own = path.child(alloc, &entry.name)?;
        put(&mut table, own, entry)?;
    }
    Ok(table)
}

/// Takes the entries of one more name, with their path, if there are any left.
pub(crate) fn next(level: &mut Level) -> Option<(Path, Trio)>
    ensures value { IfSome result (λ found. IsTaken found.0 found.1 level.old level.new) }
    ensures absent { IfNone result (IsEmpty level.old) }
{
    if let Some((path, entry)) = level.base.pop_last() {
        let head = level.head.remove(&path);
        let pushed = level.pushed.remove(&path);
        return Some((
            path,
            Trio {
                base: Some(entry),
                head,
                pushed,
            },
        ));
    }
    if let Some((path, entry)) = level.head.pop_last() {
        let pushed = level.pushed.remove(&path);
        return Some((
            path,
            Trio {
                base: None,
                head: Some(entry),
                pushed,
            },
        ));
    }
    match level.pushed.pop_last() {
        Some((path, entry)) => Some((
            path,
            Trio {
                base: None,
                head: None,
                pushed: Some(entry),
            },
        )),
        None => None,
    }
}

/// The directory of an entry, if it is one.
pub(crate) fn directory_of(entry: &Option<Dirent>) -> Option<ObjId>
    ensures value { result ≡ directory_in entry.now }
{
    match entry {
        Some(entry) => directory_id(entry),
        None => None,
    }
}

fn directory_id(entry: &Dirent) -> Option<ObjId>
    ensures value { result ≡ directory_in (Some entry.now) }
{
    if is_directory_mode(entry.mode) {
        Some(entry.id)
    } else {
        None
    }
}

/// What a directory tells of one of its entries.
pub(crate) fn entry_in(entry: Option<Dirent>) -> Option<Entry>
    ensures value { result ≡ option_map entry_of entry }
{
    match entry {
        Some(entry) => Some(entry_of(entry)),
        None => None,
    }
}

fn entry_of(entry: Dirent) -> Entry
    ensures value { result ≡ entry_of entry }
{
    if is_directory_mode(entry.mode) {
        return Entry::Dir;
    }
    Entry::File {
        id: entry.id,
        mode: entry.mode,
        mtime: entry.mtime,
        modifier: entry.modifier,
        size: entry.size,
    }
}
