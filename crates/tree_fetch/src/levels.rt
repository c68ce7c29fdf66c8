//! Getting what lies below a root, level by level.
ghost use Rattle.std.specs.Prelude.{◌≡◌, List, [], IfOk, Ok, OnOk};
ghost use Rattle.ids.specs.declared.key.Key.{Key};
ghost use Rattle.object_graph.specs.Objects.{fs_key, in_name_order};
ghost use Rattle.object_graph.specs.Reached.{entry_keys, named, named_in, own_keys};
ghost use Rattle.remote_calls.specs.Sends.{Sent};
ghost use Rattle.tree_fetch.specs.Fetching.{Fetching};
ghost use Rattle.tree_fetch.specs.Levels.{Adds, AreListed, AreNamed, AreReached, AreSeen, FetchesLevel, FetchesLevels, IsSeen, Lists, entries_at, entries_in};

use crate::asker::Asker;
use crate::fetched::{FetchedObjects, fs_key};
use crate::list::fetch_list;
use fs_objects::{DirObject, Dirent, FsObject};
use ids::{IdList, KeyTable, ObjId};
use remote_calls::Remote;
use std::alloc::{AllocError, Global};
use sync_rules::SyncFault;
use tree_model::MAX_NAMES;
use tree_walk::in_name_order;

/// The files and directories that lie below a root, as far as a path has at most 100 names, the root's own object among them.
///
/// As a rule each id is asked for once, at the first level at which it is named. What can't be read names nothing.
pub(crate) fn fetch_levels<R: Remote>(
    alloc: Global,
    remote: &mut R,
    asker: &Asker,
    root: &ObjId,
) -> Result<FetchedObjects, SyncFault>
    ensures value { FetchesLevels asker.now (R.sends remote.old) (R.sends remote.new) root.now result }
    ensures stays { R.peer remote.new ≡ R.peer remote.old }
{
    let mut held = match FetchedObjects::new(alloc) {
        Ok(held) => held,
        Err(_) => return Err(SyncFault::NoMemory),
    };
    let mut seen = KeyTable::new(alloc);
    let mut ids = IdList::new(alloc);
    match note(&mut seen, &mut ids, root) {
        Ok(()) => {}
        Err(_) => return Err(SyncFault::NoMemory),
    }
    'levels: for _level in 0..MAX_NAMES + 1 {
        match fetch_level(alloc, remote, asker, &mut held, &mut seen, ids.slice()) {
            Ok(next) => ids = next,
            Err(fault) => return Err(fault),
        }
    }
    Ok(held)
}

/// Gets one level, and answers the ids that its directories name and that were not met before.
fn fetch_level<R: Remote>(
    alloc: Global,
    remote: &mut R,
    asker: &Asker,
    held: &mut FetchedObjects,
    seen: &mut KeyTable<()>,
    ids: &[ObjId],
) -> Result<IdList, SyncFault>
    ensures value { (from : List Key) (before : List Sent) → Fetching asker.now from before (R.sends remote.old) held.old
        → AreReached from held.old ids.now → FetchesLevel asker.now from before (R.sends remote.new) ids.now held.old held.new seen.old seen.new result }
    ensures stays { R.peer remote.new ≡ R.peer remote.old }
{
    match fetch_list(alloc, remote, asker, held, ids) {
        Ok(()) => {}
        Err(fault) => return Err(fault),
    }
    match next_level(alloc, held, seen, ids) {
        Ok(next) => Ok(next),
        Err(_) => Err(SyncFault::NoMemory),
    }
}

/// The ids that the directories among these name and that were not met before.
fn next_level(
    alloc: Global,
    held: &mut FetchedObjects,
    seen: &mut KeyTable<()>,
    ids: &[ObjId],
) -> Result<IdList, AllocError>
    ensures value { IfOk result (λ next. Lists seen.old seen.new [] next × AreListed held.old seen.new ids.now) }
    ensures named { IfOk result (AreNamed held.old ids.now) }
    ensures stays { held.new ≡ held.old }
{
    let mut next = IdList::new(alloc);
    for id in ids {
        match list_object(alloc, held, seen, &mut next, id) {
            Ok(()) => {}
            Err(failed) => return Err(failed),
        }
    }
    Ok(next)
}

/// Lists what the directory of an id names and was not met before. What is a file, or can't be read, names nothing.
fn list_object(
    alloc: Global,
    held: &mut FetchedObjects,
    seen: &mut KeyTable<()>,
    next: &mut IdList,
    id: &ObjId,
) -> Result<(), AllocError>
    ensures value { OnOk result (Lists seen.old seen.new next.old next.new × AreSeen seen.new (entries_at held.old id.now)) }
    ensures named { OnOk result (Adds (named held.old (fs_key id.now)) next.old next.new) }
    ensures stays { held.new ≡ held.old }
{
    let object = match held.read(alloc, id) {
        Ok(object) => object,
        Err(failed) => return Err(failed),
    };
    match object {
        Some(object) => list_named(alloc, seen, next, object),
        None => Ok(()),
    }
}

/// Lists what an object names and was not met before.
fn list_named(
    alloc: Global,
    seen: &mut KeyTable<()>,
    next: &mut IdList,
    object: FsObject,
) -> Result<(), AllocError>
    ensures value { OnOk result (Lists seen.old seen.new next.old next.new × AreSeen seen.new (entries_in (Ok object))) }
    ensures named { OnOk result (Adds (named_in object) next.old next.new) }
{
    match object {
        FsObject::File(_) => Ok(()),
        FsObject::Dir(directory) => list_directory(alloc, seen, next, directory),
    }
}

/// Lists what a directory names and was not met before.
fn list_directory(
    alloc: Global,
    seen: &mut KeyTable<()>,
    next: &mut IdList,
    directory: DirObject,
) -> Result<(), AllocError>
    ensures value { OnOk result (Lists seen.old seen.new next.old next.new × AreSeen seen.new (in_name_order directory)) }
    ensures named { OnOk result (Adds (entry_keys (in_name_order directory)) next.old next.new) }
{
    let entries = match in_name_order(alloc, directory) {
        Ok(entries) => entries,
        Err(failed) => return Err(failed),
    };
    list_entries(seen, next, entries.as_slice())
}

/// Lists what these entries name and was not met before.
fn list_entries(
    seen: &mut KeyTable<()>,
    next: &mut IdList,
    entries: &[Dirent],
) -> Result<(), AllocError>
    ensures value { OnOk result (Lists seen.old seen.new next.old next.new × AreSeen seen.new entries.now) }
    ensures named { OnOk result (Adds (entry_keys entries.now) next.old next.new) }
{
    for entry in entries {
        match note(seen, next, &entry.id) {
            Ok(()) => {}
            Err(failed) => return Err(failed),
        }
    }
    Ok(())
}

/// Lists an id, unless it was met before or is forty zeros.
fn note(seen: &mut KeyTable<()>, next: &mut IdList, id: &ObjId) -> Result<(), AllocError>
    ensures value { OnOk result (Lists seen.old seen.new next.old next.new × IsSeen seen.new id.now) }
    ensures named { OnOk result (Adds (own_keys id.now) next.old next.new) }
{
    if id.is_nil() {
        return Ok(());
    }
    let key = fs_key(id);
    if seen.has(&key) {
        return Ok(());
    }
    match next.push(*id) {
        Ok(()) => {}
        Err(failed) => return Err(failed),
    }
    seen.put(key, ())
}
