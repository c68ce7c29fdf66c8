//! Whether a commit is whole, by the directories that are known to be.
ghost use Rattle.std.specs.Prelude.{◌≡◌, ◌≤◌, true, IfOk, None, Some, ⊤};
ghost use Rattle.ids.specs.Key.{Objects};
ghost use Rattle.object_graph.specs.Listing.{listed};
ghost use Rattle.object_graph.specs.Traversal.{start, walk_commit, walk_file_at, walk_root};
ghost use Rattle.object_store.specs.StoreView.{objects_of};
ghost use Rattle.tree_model.specs.declared.limits.TheConstants.{MAX_NAMES, MAX_PATHS};
ghost use Rattle.tree_walk.specs.Checking.{IsWithin, Measures};
ghost use Rattle.tree_walk.specs.Extent.{extent_of};
ghost use Rattle.tree_walk.specs.KnownTrees.{Fits};
ghost use Rattle.tree_walk.specs.Listings.{listed_from, listed_one};
ghost use Rattle.tree_walk.specs.Reading.{Answers, Reads};
ghost use Rattle.tree_walk.specs.Steps.{directory_step, entries_step, entry_step};
ghost use Rattle.tree_walk.specs.Trail.{names_of};

use crate::extent::{Extent, joined, with_entry};
use crate::fault::WalkFault;
use crate::file::whole_file_at;
use crate::known_trees::Known;
use crate::name_order::in_name_order;
use crate::reading::{commit_at, fs_at};
use crate::trail::{Trail, path_of};
use fs_objects::{Dirent, FsObject, is_directory_mode};
use ids::ObjId;
use object_store::{Shelf, Store, StoreFault};
use std::alloc::Global;
use tree_model::{MAX_NAMES, MAX_PATHS};

/// Whether a commit is whole. The first fault in the order of the traversal is answered.
///
/// A directory that is known, and is within the limits at its place, is counted without being opened; a file that is known
/// isn't read again. What is found whole becomes known, also where the commit isn't whole.
pub fn check<S: Shelf>(
    alloc: Global,
    store: &mut Store<S>,
    known: &mut Known,
    commit: ObjId,
) -> Result<(), WalkFault>
    requires known { (objects : Objects) → objects_of S.contents store.old ≡ Some objects → Fits objects known.old }
    ensures value { (objects : Objects) → objects_of S.contents store.old ≡ Some objects
        → Answers objects (walk_commit objects commit).fault (λ done. ⊤) result }
    ensures known { (objects : Objects) → objects_of S.contents store.old ≡ Some objects → Fits objects known.new }
    ensures stays { Reads S.contents S.may_give S.texts S.faults store.old store.new result }
{
    let root = match commit_at(alloc, store, commit) {
        Ok(commit) => commit.root,
        Err(fault) => return Err(fault),
    };
    match check_directory(
        alloc,
        store,
        known,
        &Trail::Root,
        &root,
        MAX_NAMES as u32,
        0,
    ) {
        Ok(_) => Ok(()),
        Err(fault) => Err(fault),
    }
}

/// How much lies below a directory that is a root. The first fault of its traversal is answered.
///
/// It goes by what is known and adds to it, as `check` does.
pub fn extent_at<S: Shelf>(
    alloc: Global,
    store: &mut Store<S>,
    known: &mut Known,
    root: ObjId,
) -> Result<Extent, WalkFault>
    requires known { (objects : Objects) → objects_of S.contents store.old ≡ Some objects → Fits objects known.old }
    ensures value { (objects : Objects) → objects_of S.contents store.old ≡ Some objects
        → Answers objects (walk_root true objects root start).fault (λ extent. extent ≡ extent_of objects root) result }
    ensures bound { IfOk result (IsWithin MAX_NAMES 0) }
    ensures known { (objects : Objects) → objects_of S.contents store.old ≡ Some objects → Fits objects known.new }
    ensures stays { Reads S.contents S.may_give S.texts S.faults store.old store.new result }
{
    check_directory(
        alloc,
        store,
        known,
        &Trail::Root,
        &root,
        MAX_NAMES as u32,
        0,
    )
}

/// What lies below a directory, if it is whole.
#[cycle(checking)]
fn check_directory<S: Shelf>(
    alloc: Global,
    store: &mut Store<S>,
    known: &mut Known,
    trail: &Trail<'_>,
    id: &ObjId,
    room: u32,
    paths: u64,
) -> Result<Extent, WalkFault>
    requires room { room ≤ MAX_NAMES }
    requires few { paths ≤ MAX_PATHS }
    requires known { (objects : Objects) → objects_of S.contents store.old ≡ Some objects → Fits objects known.old }
    ensures value { (objects : Objects) → objects_of S.contents store.old ≡ Some objects
        → Measures objects (directory_step true objects room (names_of trail.now) id.now) paths (listed objects room id.now) result }
    ensures bound { IfOk result (IsWithin room paths) }
    ensures known { (objects : Objects) → objects_of S.contents store.old ≡ Some objects → Fits objects known.new }
    ensures stays { Reads S.contents S.may_give S.texts S.faults store.old store.new result }
{
    if id.is_nil() {
        return Ok(Extent { paths: 0, deep: 0 });
    }
    match known.fitting(id, room, paths) {
        Some(extent) => return Ok(extent),
        None => {}
    }
    let object = match fs_at(alloc, store, id) {
        Ok(object) => object,
        Err(fault) => return Err(fault),
    };
    let directory = match object {
        FsObject::File(_) => return Err(WalkFault::WrongKind(*id)),
        FsObject::Dir(directory) => directory,
    };
    let entries = match in_name_order(alloc, directory) {
        Ok(entries) => entries,
        Err(_) => return Err(WalkFault::Store(StoreFault::NoMemory)),
    };
    let extent = match check_entries(alloc, store, known, trail, entries.as_slice(), room, paths) {
        Ok(extent) => extent,
        Err(fault) => return Err(fault),
    };
    known.learn(id, extent);
    Ok(extent)
}

/// What these entries are, and what lies below them, if all of it is whole.
#[cycle(checking)]
fn check_entries<S: Shelf>(
    alloc: Global,
    store: &mut Store<S>,
    known: &mut Known,
    trail: &Trail<'_>,
    entries: &[Dirent],
    room: u32,
    paths: u64,
) -> Result<Extent, WalkFault>
    requires room { room ≤ MAX_NAMES }
    requires few { paths ≤ MAX_PATHS }
    requires known { (objects : Objects) → objects_of S.contents store.old ≡ Some objects → Fits objects known.old }
    ensures value { (objects : Objects) → objects_of S.contents store.old ≡ Some objects
        → Measures objects (entries_step true objects room (names_of trail.now) entries.now) paths (listed_from objects room entries.now) result }
    ensures bound { IfOk result (IsWithin room paths) }
    ensures known { (objects : Objects) → objects_of S.contents store.old ≡ Some objects → Fits objects known.new }
    ensures stays { Reads S.contents S.may_give S.texts S.faults store.old store.new result }
{
    let mut extent = Extent { paths: 0, deep: 0 };
    for entry in entries {
        let more = match check_entry(
            alloc,
            store,
            known,
            trail,
            entry,
            room,
            paths + extent.paths,
        ) {
            Ok(more) => more,
            Err(fault) => return Err(fault),
        };
        extent = joined(extent, more);
    }
    Ok(extent)
}

/// An entry and what lies below it, if all of it is whole.
#[cycle(checking)]
fn check_entry<S: Shelf>(
    alloc: Global,
    store: &mut Store<S>,
    known: &mut Known,
    trail: &Trail<'_>,
    entry: &Dirent,
    room: u32,
    paths: u64,
) -> Result<Extent, WalkFault>
    requires room { room ≤ MAX_NAMES }
    requires few { paths ≤ MAX_PATHS }
    requires known { (objects : Objects) → objects_of S.contents store.old ≡ Some objects → Fits objects known.old }
    ensures value { (objects : Objects) → objects_of S.contents store.old ≡ Some objects
        → Measures objects (entry_step true objects room (names_of trail.now) entry.now) paths (listed_one objects room entry.now) result }
    ensures bound { IfOk result (IsWithin room paths) }
    ensures known { (objects : Objects) → objects_of S.contents store.old ≡ Some objects → Fits objects known.new }
    ensures stays { Reads S.contents S.may_give S.texts S.faults store.old store.new result }
{
    if paths >= MAX_PATHS as u64 {
        return Err(WalkFault::TooMany(paths + 1));
    }
    let below = &Trail::Below(trail, &entry.name);
    if room == 0 {
        return Err(WalkFault::TooDeep(path_of(alloc, below)?));
    }
    if is_directory_mode(entry.mode) {
        match check_directory(alloc, store, known, below, &entry.id, room - 1, paths + 1) {
            Ok(extent) => Ok(with_entry(extent)),
            Err(fault) => Err(fault),
        }
    } else {
        match check_file(alloc, store, known, &entry.id) {
            Ok(()) => Ok(Extent { paths: 1, deep: 1 }),
            Err(fault) => Err(fault),
        }
    }
}

/// A file is whole.
fn check_file<S: Shelf>(
    alloc: Global,
    store: &mut Store<S>,
    known: &mut Known,
    id: &ObjId,
) -> Result<(), WalkFault>
    requires known { (objects : Objects) → objects_of S.contents store.old ≡ Some objects → Fits objects known.old }
    ensures value { (objects : Objects) → objects_of S.contents store.old ≡ Some objects
        → Answers objects (walk_file_at objects id.now start).fault (λ done. ⊤) result }
    ensures known { (objects : Objects) → objects_of S.contents store.old ≡ Some objects → Fits objects known.new }
    ensures stays { Reads S.contents S.may_give S.texts S.faults store.old store.new result }
{
    if known.has_file(id) {
        return Ok(());
    }
    match whole_file_at(alloc, store, id) {
        Ok(_) => {
            known.learn_file(id);
            Ok(())
        }
        Err(fault) => Err(fault),
    }
}
