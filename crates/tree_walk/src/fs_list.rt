//! The file and directory objects that one commit needs and another doesn't.
ghost use Rattle.std.specs.Prelude.{◌≡◌, IfOk, OnErr, OnOk, Some, if◌then◌else◌};
ghost use Rattle.std.specs.BTreeMap.{IsOrdered};
ghost use Rattle.std.specs.FinMap as map;
ghost use Rattle.ids.specs.Key.{Objects};
ghost use Rattle.ids.specs.MapView.{map_of};
ghost use Rattle.ids.specs.ObjectId.{id_cmp};
ghost use Rattle.object_graph.specs.FsIds.{fs_ids, fs_ids_of, needs_if};
ghost use Rattle.object_store.specs.StoreView.{objects_of};
ghost use Rattle.tree_walk.specs.Known.{is_wanted, with_ids};
ghost use Rattle.tree_walk.specs.KnownTrees.{Fits};
ghost use Rattle.tree_walk.specs.Reaching.{HasFsOf};
ghost use Rattle.tree_walk.specs.Reading.{Answers, Reads};
ghost use Rattle.tree_walk.specs.Visits.{commit_due, commits_due};

use crate::checking::check;
use crate::fault::WalkFault;
use crate::known::table_of;
use crate::known_trees::Known;
use crate::reaching::reached;
use ids::{IdList, Key, KeyList, KeyTable, Kind, ObjId};
use object_store::{Shelf, Store};
use std::alloc::{AllocError, Global};
use std::collections::BTreeMap;

/// The ids of the files and directories that the server's commit needs and the client's doesn't, in ascending order.
///
/// The first fault of the server's traversal is answered, and then that of the client's. What is known to be whole isn't
/// walked for faults again; then, for each of the two commits, each directory that it needs is read once, and no file.
pub fn fs_ids<S: Shelf>(
    alloc: Global,
    store: &mut Store<S>,
    known: &mut Known,
    server: ObjId,
    client: Option<ObjId>,
) -> Result<IdList, WalkFault>
    requires known { (objects : Objects) → objects_of S.contents store.old ≡ Some objects → Fits objects known.old }
    ensures value { (objects : Objects) → objects_of S.contents store.old ≡ Some objects
        → Answers objects (commits_due objects server client) (λ ids. ids ≡ fs_ids objects server client) result }
    ensures known { (objects : Objects) → objects_of S.contents store.old ≡ Some objects → Fits objects known.new }
    ensures stays { Reads S.contents S.may_give S.texts S.faults store.old store.new result }
{
    match check(alloc, store, known, server) {
        Ok(()) => {}
        Err(fault) => return Err(fault),
    }
    let wanted = match reached(alloc, store, false, server) {
        Ok(wanted) => wanted,
        Err(fault) => return Err(fault),
    };
    let had = match reached_if(alloc, store, known, client) {
        Ok(had) => had,
        Err(fault) => return Err(fault),
    };
    let ids = list(alloc, wanted, &had)?;
    Ok(ids)
}

/// The files and directories that a commit needs, if there is one.
fn reached_if<S: Shelf>(
    alloc: Global,
    store: &mut Store<S>,
    known: &mut Known,
    commit: Option<ObjId>,
) -> Result<KeyList, WalkFault>
    requires known { (objects : Objects) → objects_of S.contents store.old ≡ Some objects → Fits objects known.old }
    ensures value { (objects : Objects) → objects_of S.contents store.old ≡ Some objects
        → Answers objects (commit_due objects commit) (λ keys. HasFsOf keys (needs_if objects commit)) result }
    ensures known { (objects : Objects) → objects_of S.contents store.old ≡ Some objects → Fits objects known.new }
    ensures stays { Reads S.contents S.may_give S.texts S.faults store.old store.new result }
{
    let commit = match commit {
        Some(commit) => commit,
        None => return Ok(KeyList::new(alloc)),
    };
    match check(alloc, store, known, commit) {
        Ok(()) => {}
        Err(fault) => return Err(fault),
    }
    match reached(alloc, store, false, commit) {
        Ok(keys) => Ok(keys),
        Err(fault) => Err(fault),
    }
}

/// The ids of those keys that are of files or directories and aren't known, in ascending order.
fn list(alloc: Global, wanted: KeyList, known: &KeyList) -> Result<IdList, AllocError>
    ensures value { IfOk result (λ ids. ids ≡ fs_ids_of wanted known.now) }
{
    let known = table_of(alloc, known.slice())?;
    let ids = ids_of(alloc, wanted.into_vec(), &known)?;
    let list = keys_of(alloc, ids)?;
    Ok(list)
}

/// The ids of those keys that are of files or directories and aren't known.
fn ids_of(
    alloc: Global,
    wanted: Vec<Key>,
    known: &KeyTable<()>,
) -> Result<BTreeMap<ObjId, ()>, AllocError>
    ensures value { IfOk result (λ ids. map_of id_cmp ids ≡ with_ids known.now wanted.items map.empty) }
    ensures ordered { IfOk result (IsOrdered id_cmp) }
{
    let mut wanted = wanted;
    let mut ids = BTreeMap::new(alloc);
    while let Some(key) = wanted.pop() {
        add(&mut ids, known, &key)?;
    }
    Ok(ids)
}

/// Puts the id of a key into the map, if it is of a file or directory that isn't known. After an error the map is as it was.
fn add(ids: &mut BTreeMap<ObjId, ()>, known: &KeyTable<()>, key: &Key) -> Result<(), AllocError>
    requires ordered { IsOrdered id_cmp ids.old }
    ensures ok { OnOk result (map_of id_cmp ids.new ≡ (if is_wanted known.now key.now then map.insert (map_of id_cmp ids.old) key.now.id tt else map_of id_cmp ids.old)) }
    ensures err { OnErr result (map_of id_cmp ids.new ≡ map_of id_cmp ids.old) }
    ensures ordered { IsOrdered id_cmp ids.new }
{
    if is_wanted(known, key) {
        insert(ids, &key.id)
    } else {
        Ok(())
    }
}

/// Whether a key is of a file or directory that isn't known.
fn is_wanted(known: &KeyTable<()>, key: &Key) -> bool
    ensures value { result ≡ is_wanted known.now key.now }
{
    key.kind == Kind::Fs && !known.has(key)
}

/// Puts an id into the map. After an error the map is as it was.
fn insert(ids: &mut BTreeMap<ObjId, ()>, id: &ObjId) -> Result<(), AllocError>
    ensures ok { OnOk result (map_of id_cmp ids.new ≡ map.insert (map_of id_cmp ids.old) id.now tt) }
    ensures err { OnErr result (map_of id_cmp ids.new ≡ map_of id_cmp ids.old) }
    ensures ordered { IsOrdered id_cmp ids.new }
{
    match ids.insert(*id, ()) {
        Ok(_) => Ok(()),
        Err(failed) => Err(failed.into()),
    }
}

/// The ids of a map, in ascending order.
fn keys_of(alloc: Global, ids: BTreeMap<ObjId, ()>) -> Result<IdList, AllocError>
    requires ordered { IsOrdered id_cmp ids }
    ensures value { IfOk result (λ list. list ≡ map.keys (map_of id_cmp ids)) }
{
    let mut ids = ids;
    let mut list = IdList::new(alloc);
    while let Some((id, ())) = ids.pop_first() {
        list.push(id)?;
    }
    Ok(list)
}
