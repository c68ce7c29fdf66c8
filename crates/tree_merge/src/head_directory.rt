//! The head's directory, where it is right as it stands: then it is used again, and none is made.
ghost use Rattle.std.specs.Prelude.{◌≡◌, ◌↔◌, FitsSigned, IfNone, IfSome, IsTrue, Some};
ghost use Rattle.std.specs.Int.{w64};
ghost use Rattle.std.specs.FinMap as map;
ghost use Rattle.ids.specs.Key.{Objects};
ghost use Rattle.object_graph.specs.Objects.{same_id};
ghost use Rattle.object_store.specs.StoreView.{objects_of};
ghost use Rattle.tree_walk.specs.Reading.{Reads};
ghost use Rattle.tree_merge.specs.HeadDirectory.{FindsOwn, IsSameFile, ListsJust, StandsAs};
ghost use Rattle.tree_merge.specs.Opening.{IsDirectoryIf, id_in};
ghost use Rattle.tree_merge.specs.Telling.{AnswersWell};

use crate::level::entries_at;
use crate::opening::Kept;
use crate::tree_builder::are_equal;
use fs_objects::{Dirent, is_directory_mode};
use ids::{ObjId, Text};
use object_graph::Entry;
use object_store::{Shelf, Store};
use std::alloc::Global;
use tree_model::{Path, PathTable};
use tree_walk::WalkFault;

/// The head's directory, if it lists just these entries, and each directory among them by what is left below it.
///
/// Its entries are read once more.
pub(crate) fn heads_own<S: Shelf>(
    alloc: Global,
    store: &mut Store<S>,
    head: &Option<ObjId>,
    nodes: &PathTable<Entry>,
    kept: &PathTable<Kept>,
) -> Result<Option<ObjId>, WalkFault>
    ensures value { (objects : Objects) → objects_of S.contents store.old ≡ Some objects → IsDirectoryIf objects head.now
        → AnswersWell objects (FindsOwn objects head.now nodes.now kept.now) result }
    ensures stays { Reads S.contents S.may_give S.texts S.faults store.old store.new result }
{
    let id = match head {
        Some(id) => id,
        None => return Ok(None),
    };
    let root = Path::root(alloc);
    match entries_at(alloc, store, &root, id) {
        Ok(listed) => Ok(if_just(*id, listed, nodes, kept)),
        Err(fault) => Err(fault),
    }
}

/// A directory of these entries, if they are just the others.
fn if_just(
    id: ObjId,
    listed: PathTable<Dirent>,
    nodes: &PathTable<Entry>,
    kept: &PathTable<Kept>,
) -> Option<ObjId>
    ensures some { IfSome result (λ own. (own ≡ id) × ListsJust listed nodes.now kept.now) }
    ensures none { IfNone result (ListsJust listed nodes.now kept.now → ⊥) }
{
    if lists_just(listed, nodes, kept) {
        Some(id)
    } else {
        None
    }
}

/// Whether the entries of a directory, each at the path of its name, are just these, and each directory among them is what is left
/// below it.
fn lists_just(
    mut listed: PathTable<Dirent>,
    nodes: &PathTable<Entry>,
    kept: &PathTable<Kept>,
) -> bool
    ensures value { IsTrue result ↔ ListsJust listed nodes.now kept.now }
{
    let entries = listed.len();
    let wanted = nodes.len();
    if entries != wanted {
        return false;
    }
    while let Some((path, dirent)) = listed.pop_last() {
        let own = id_at(kept, &path);
        match nodes.get(&path) {
            Some(entry) => {
                if !stands_as(&dirent, entry, &own) {
                    return false;
                }
            }
            None => return false,
        }
    }
    true
}

/// The directory that is left at a path; forty zeros where none is.
fn id_at(kept: &PathTable<Kept>, path: &Path) -> ObjId
    ensures value { result ≡ id_in (map.get kept.now path.now) }
{
    match kept.get(path) {
        Some(own) => own.id,
        None => ObjId::NIL,
    }
}

/// Whether a directory's entry is this one, and has this id where it is a directory.
fn stands_as(dirent: &Dirent, entry: &Entry, own: &ObjId) -> bool
    ensures value { IsTrue result ↔ StandsAs own.now entry.now dirent.now }
{
    let is_dir = is_directory_mode(dirent.mode);
    match entry {
        Entry::Dir => {
            if !is_dir {
                return false;
            }
            are_same(&dirent.id, own)
        }
        Entry::File {
            id,
            mode,
            mtime,
            modifier,
            size,
        } => {
            if is_dir {
                return false;
            }
            is_same_file(dirent, id, *mode, mtime, modifier, *size)
        }
    }
}

/// Whether a directory's entry tells this of a file.
fn is_same_file(
    dirent: &Dirent,
    id: &ObjId,
    mode: u32,
    mtime: &i64,
    modifier: &Text,
    size: u64,
) -> bool
    ensures value { IsTrue result ↔ IsSameFile dirent.now id.now mode mtime.now modifier.now size }
{
    if dirent.mode != mode {
        return false;
    }
    let own = seconds(&dirent.mtime);
    let wanted = seconds(mtime);
    if own != wanted {
        return false;
    }
    if dirent.size != size {
        return false;
    }
    if !are_equal(dirent.modifier.as_bytes(), modifier.as_bytes()) {
        return false;
    }
    are_same(&dirent.id, id)
}

/// A time as its seconds.
fn seconds(time: &i64) -> i64
    ensures value { result ≡ time.now }
    ensures bound { FitsSigned w64 result }
{
    *time
}

fn are_same(left: &ObjId, right: &ObjId) -> bool
    ensures value { result ≡ same_id left.now right.now }
{
    left == right
}
