//! Which keys a commit needs, found object by object: each directory and each file is gone over once.
ghost use Rattle.std.specs.Prelude.{◌≡◌, true, false, IfOk, None, Some, ⊤};
ghost use Rattle.ids.specs.Key.{Objects};
ghost use Rattle.object_graph.specs.Reached.{entry_keys, own_keys};
ghost use Rattle.object_graph.specs.Traversal.{IsComplete, needs, walk_commit, walk_file_at};
ghost use Rattle.object_store.specs.StoreView.{objects_of};
ghost use Rattle.tree_walk.specs.Reaching.{MeetsBlocks, Reaches, ReachesAll};
ghost use Rattle.tree_walk.specs.Reading.{Answers, Reads};
ghost use Rattle.tree_walk.specs.Steps.{directory_step, entries_step, entry_step};
ghost use Rattle.tree_walk.specs.Trail.{names_of};
ghost use Rattle.tree_walk.specs.Visits.{with_blocks_met};

use crate::checking::check;
use crate::fault::WalkFault;
use crate::file::file_at;
use crate::known_trees::Known;
use crate::met::Met;
use crate::name_order::in_name_order;
use crate::reading::{block_key, commit_at, commit_key, fs_at, fs_key};
use crate::trail::{Trail, path_of};
use fs_objects::{Dirent, FsObject, is_directory_mode};
use ids::{KeyList, ObjId};
use object_store::{Shelf, Store, StoreFault};
use std::alloc::{AllocError, Global};
use tree_model::MAX_NAMES;

/// The keys that a commit needs, each once, in the order of first visit.
///
/// The first fault in the order of the traversal is answered. Blocks are looked up and not read.
pub fn needs<S: Shelf>(
    alloc: Global,
    store: &mut Store<S>,
    commit: ObjId,
) -> Result<KeyList, WalkFault>
    ensures value { (objects : Objects) → objects_of S.contents store.old ≡ Some objects
        → Answers objects (walk_commit objects commit).fault (λ keys. keys ≡ needs objects commit) result }
    ensures stays { Reads S.contents S.may_give S.texts S.faults store.old store.new result }
{
    match check_anew(alloc, store, commit) {
        Ok(()) => {}
        Err(fault) => return Err(fault),
    }
    match reached(alloc, store, true, commit) {
        Ok(keys) => Ok(keys),
        Err(fault) => Err(fault),
    }
}

/// Whether a commit is whole, where nothing is known.
fn check_anew<S: Shelf>(alloc: Global, store: &mut Store<S>, commit: ObjId) -> Result<(), WalkFault>
    ensures value { (objects : Objects) → objects_of S.contents store.old ≡ Some objects
        → Answers objects (walk_commit objects commit).fault (λ done. ⊤) result }
    ensures stays { Reads S.contents S.may_give S.texts S.faults store.old store.new result }
{
    let mut known = Known::new(alloc);
    check(alloc, store, &mut known, commit)
}

/// The keys that a complete commit needs, all or all but blocks, each once, in the order of first visit.
///
/// Without blocks no file is read.
pub(crate) fn reached<S: Shelf>(
    alloc: Global,
    store: &mut Store<S>,
    blocks: bool,
    commit: ObjId,
) -> Result<KeyList, WalkFault>
    ensures value { (objects : Objects) → objects_of S.contents store.old ≡ Some objects → IsComplete objects commit → ReachesAll blocks objects commit result }
    ensures stays { Reads S.contents S.may_give S.texts S.faults store.old store.new result }
{
    let id = &commit;
    let met = Met::new(alloc).visit(&commit_key(id))?;
    let root = match commit_at(alloc, store, *id) {
        Ok(commit) => commit.root,
        Err(fault) => return Err(fault),
    };
    match reach_directory(
        alloc,
        store,
        blocks,
        &Trail::Root,
        &root,
        MAX_NAMES as u32,
        met,
    ) {
        Ok(met) => Ok(met.into_keys()),
        Err(fault) => Err(fault),
    }
}

/// Goes over a directory and what lies below it, unless it is finished.
#[cycle(reaching)]
fn reach_directory<S: Shelf>(
    alloc: Global,
    store: &mut Store<S>,
    blocks: bool,
    trail: &Trail<'_>,
    id: &ObjId,
    room: u32,
    met: Met,
) -> Result<Met, WalkFault>
    ensures value { (objects : Objects) → objects_of S.contents store.old ≡ Some objects
        → Reaches blocks objects (directory_step true objects room (names_of trail.now) id.now) (own_keys id.now) met result }
    ensures stays { Reads S.contents S.may_give S.texts S.faults store.old store.new result }
{
    if id.is_nil() {
        return Ok(met);
    }
    if met.is_done(&fs_key(id)) {
        return Ok(met);
    }
    let met = met.visit(&fs_key(id))?;
    let object = match fs_at(alloc, store, id) {
        Ok(object) => object,
        Err(fault) => return Err(fault),
    };
    let directory = match object {
        FsObject::File(_) => return Err(WalkFault::WrongKind(*id)),
        FsObject::Dir(directory) => directory,
    };
    let entries = match in_name_order(alloc, directory) {
        Ok(entries) => entries,
        Err(_) => return Err(WalkFault::Store(StoreFault::NoMemory)),
    };
    let met = match reach_entries(alloc, store, blocks, trail, entries.as_slice(), room, met) {
        Ok(met) => met,
        Err(fault) => return Err(fault),
    };
    match met.finish(&fs_key(id)) {
        Ok(met) => Ok(met),
        Err(_) => Err(WalkFault::Store(StoreFault::NoMemory)),
    }
}

/// Goes over each of these entries, and what lies below it.
#[cycle(reaching)]
fn reach_entries<S: Shelf>(
    alloc: Global,
    store: &mut Store<S>,
    blocks: bool,
    trail: &Trail<'_>,
    entries: &[Dirent],
    room: u32,
    met: Met,
) -> Result<Met, WalkFault>
    ensures value { (objects : Objects) → objects_of S.contents store.old ≡ Some objects
        → Reaches blocks objects (entries_step true objects room (names_of trail.now) entries.now) (entry_keys entries.now) met result }
    ensures stays { Reads S.contents S.may_give S.texts S.faults store.old store.new result }
{
    let mut met = met;
    for entry in entries {
        met = match reach_entry(alloc, store, blocks, trail, entry, room, met) {
            Ok(met) => met,
            Err(fault) => return Err(fault),
        };
    }
    Ok(met)
}

/// Goes over an entry, and what lies below it.
#[cycle(reaching)]
fn reach_entry<S: Shelf>(
    alloc: Global,
    store: &mut Store<S>,
    blocks: bool,
    trail: &Trail<'_>,
    entry: &Dirent,
    room: u32,
    met: Met,
) -> Result<Met, WalkFault>
    ensures value { (objects : Objects) → objects_of S.contents store.old ≡ Some objects
        → Reaches blocks objects (entry_step true objects room (names_of trail.now) entry.now) (own_keys entry.now.id) met result }
    ensures stays { Reads S.contents S.may_give S.texts S.faults store.old store.new result }
{
    let below = &Trail::Below(trail, &entry.name);
    if room == 0 {
        return Err(WalkFault::TooDeep(path_of(alloc, below)?));
    }
    if is_directory_mode(entry.mode) {
        reach_directory(alloc, store, blocks, below, &entry.id, room - 1, met)
    } else {
        reach_file(alloc, store, blocks, &entry.id, met)
    }
}

/// Goes over a file and its blocks, unless it is finished.
fn reach_file<S: Shelf>(
    alloc: Global,
    store: &mut Store<S>,
    blocks: bool,
    id: &ObjId,
    met: Met,
) -> Result<Met, WalkFault>
    ensures value { (objects : Objects) → objects_of S.contents store.old ≡ Some objects
        → Reaches blocks objects (walk_file_at objects id.now) (own_keys id.now) met result }
    ensures stays { Reads S.contents S.may_give S.texts S.faults store.old store.new result }
{
    if id.is_nil() {
        return Ok(met);
    }
    if met.is_done(&fs_key(id)) {
        return Ok(met);
    }
    let met = met.visit(&fs_key(id))?;
    let met = match reach_blocks(alloc, store, blocks, id, met) {
        Ok(met) => met,
        Err(fault) => return Err(fault),
    };
    match met.finish(&fs_key(id)) {
        Ok(met) => Ok(met),
        Err(_) => Err(WalkFault::Store(StoreFault::NoMemory)),
    }
}

/// Visits the blocks of a file, where blocks are gone over.
fn reach_blocks<S: Shelf>(
    alloc: Global,
    store: &mut Store<S>,
    blocks: bool,
    id: &ObjId,
    met: Met,
) -> Result<Met, WalkFault>
    ensures value { (objects : Objects) → objects_of S.contents store.old ≡ Some objects → MeetsBlocks blocks objects id.now met result }
    ensures stays { Reads S.contents S.may_give S.texts S.faults store.old store.new result }
{
    if !blocks {
        return Ok(met);
    }
    let file = match file_at(alloc, store, id) {
        Ok(file) => file,
        Err(fault) => return Err(fault),
    };
    match visit_blocks(met, file.blocks.slice()) {
        Ok(met) => Ok(met),
        Err(_) => Err(WalkFault::Store(StoreFault::NoMemory)),
    }
}

/// Visits blocks.
fn visit_blocks(met: Met, blocks: &[ObjId]) -> Result<Met, AllocError>
    ensures value { IfOk result (λ later. later ≡ with_blocks_met blocks.now met) }
{
    let mut met = met;
    for block in blocks {
        met = met.visit(&block_key(block))?;
    }
    Ok(met)
}
