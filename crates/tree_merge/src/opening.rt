//! What three directories list, and what of it is settled.
ghost use Rattle.std.specs.Prelude.{◌≡◌, OnOk, Some};
ghost use Rattle.ids.specs.Key.{Objects};
ghost use Rattle.object_store.specs.StoreView.{objects_of};
ghost use Rattle.tree_walk.specs.KnownTrees.{Fits};
ghost use Rattle.tree_walk.specs.Reading.{Reads};
ghost use Rattle.tree_merge.specs.Level.{Tells};
ghost use Rattle.tree_merge.specs.Opening.{HasEntry, IsCompleteIf, IsDirectoryIf, IsLevelOf, base_over, dirents_if, ids_in, is_left_alone, is_pusheds, is_settled, kept_by, kept_if, part_in, same_directory};
ghost use Rattle.tree_merge.specs.Telling.{AnswersWell};

use crate::file_entry::is_directory;
use crate::level::{Level, Trio, directory_of, entries_at, entry_in};
use crate::sides::Three;
use crate::tables::{put, put_if};
use fs_objects::Dirent;
use ids::ObjId;
use object_graph::Entry;
use object_store::{Shelf, Store};
use std::alloc::{AllocError, Global};
use tree_model::{Path, PathTable};
use tree_walk::{Known, WalkFault, extent_at};

/// A directory that survives, with the number of paths below it, of which there is at least one.
#[derive(Drop)]
pub(crate) struct Kept {
    pub id: ObjId,
    pub paths: u64,
}

/// The entries of three directories, each at the path of its name.
#[derive(Drop)]
pub(crate) struct Opened {
    /// What the three sides have, but for directories of base below which something survives.
    pub joined: PathTable<Three>,
    /// The directories below which something survives.
    pub kept: PathTable<Kept>,
}

/// The directories of three sides at one path, where they have one.
#[derive(Drop)]
pub(crate) struct Ids {
    pub base: Option<ObjId>,
    pub head: Option<ObjId>,
    pub pushed: Option<ObjId>,
}

/// What three directories list, each entry at the path of its name.
pub(crate) fn level_at<S: Shelf>(
    alloc: Global,
    store: &mut Store<S>,
    ids: &Ids,
) -> Result<Level, WalkFault>
    ensures value { (objects : Objects) → objects_of S.contents store.old ≡ Some objects → IsDirectoryIf objects ids.now.base → IsDirectoryIf objects ids.now.head → IsDirectoryIf objects ids.now.pushed
        → AnswersWell objects (IsLevelOf objects ids.now) result }
    ensures stays { Reads S.contents S.may_give S.texts S.faults store.old store.new result }
{
    let root = Path::root(alloc);
    let base = match entries_of(alloc, store, &root, &ids.base) {
        Ok(base) => base,
        Err(fault) => return Err(fault),
    };
    let head = match entries_of(alloc, store, &root, &ids.head) {
        Ok(head) => head,
        Err(fault) => return Err(fault),
    };
    let pushed = match entries_of(alloc, store, &root, &ids.pushed) {
        Ok(pushed) => pushed,
        Err(fault) => return Err(fault),
    };
    Ok(Level { base, head, pushed })
}

/// What a directory lists at a path, if there is one.
fn entries_of<S: Shelf>(
    alloc: Global,
    store: &mut Store<S>,
    path: &Path,
    id: &Option<ObjId>,
) -> Result<PathTable<Dirent>, WalkFault>
    ensures value { (objects : Objects) → objects_of S.contents store.old ≡ Some objects → IsDirectoryIf objects id.now
        → AnswersWell objects (Tells path.now (dirents_if objects id.now)) result }
    ensures stays { Reads S.contents S.may_give S.texts S.faults store.old store.new result }
{
    match id {
        Some(id) => entries_at(alloc, store, path, id),
        None => Ok(PathTable::new(alloc)),
    }
}

/// The directories that three entries name.
pub(crate) fn ids_of(trio: &Trio) -> Ids
    ensures value { result ≡ ids_in trio.now }
{
    Ids {
        base: directory_of(&trio.base),
        head: directory_of(&trio.head),
        pushed: directory_of(&trio.pushed),
    }
}

/// Whether what lies below is what one side has: the head, or pushed.
pub(crate) fn is_settled(ids: &Ids) -> bool
    ensures value { result ≡ is_settled ids.now.base ids.now.head ids.now.pushed }
{
    is_left_alone(ids) || is_pusheds(ids)
}

/// Whether pushed has the directory of the head there, or that of base.
fn is_left_alone(ids: &Ids) -> bool
    ensures value { result ≡ is_left_alone ids.now.base ids.now.head ids.now.pushed }
{
    same_directory(&ids.pushed, &ids.head) || same_directory(&ids.pushed, &ids.base)
}

/// Whether pushed alone has a directory there, or pushed alone has lost the one of head and base.
fn is_pusheds(ids: &Ids) -> bool
    ensures value { result ≡ is_pusheds ids.now.base ids.now.head ids.now.pushed }
{
    same_directory(&ids.head, &ids.base) && !(ids.base.is_some() && ids.pushed.is_some())
}

/// The directory of the side that has what lies below, where that is settled.
pub(crate) fn part_of(ids: &Ids) -> Option<ObjId>
    ensures value { result ≡ part_in ids.now }
{
    if is_left_alone(ids) {
        ids.head
    } else {
        ids.pushed
    }
}

fn same_directory(left: &Option<ObjId>, right: &Option<ObjId>) -> bool
    ensures value { result ≡ same_directory left.now right.now }
{
    match (left, right) {
        (Some(left), Some(right)) => left == right,
        (None, None) => true,
        _ => false,
    }
}

/// Writes down what the three sides have at an entry, and what survives below it: there base has no directory.
pub(crate) fn put_entry(
    alloc: Global,
    opened: &mut Opened,
    own: Path,
    trio: Trio,
    part: Option<Kept>,
) -> Result<(), AllocError>
    ensures ok { OnOk result (HasEntry own trio part opened.old opened.new) }
{
    let Trio { base, head, pushed } = trio;
    let three = Three {
        base: base_entry(base, part.is_some()),
        head: entry_in(head),
        pushed: entry_in(pushed),
    };
    put_if(alloc, &mut opened.kept, &own, part)?;
    put(&mut opened.joined, own, three)
}

/// The entry of base, but no directory where something survives.
fn base_entry(entry: Option<Dirent>, survives: bool) -> Option<Entry>
    ensures value { result ≡ base_over survives entry }
{
    let own = entry_in(entry);
    if survives & is_directory(&own) {
        return None;
    }
    own
}

/// A directory as it stands, unless it is empty.
pub(crate) fn own_part<S: Shelf>(
    alloc: Global,
    store: &mut Store<S>,
    known: &mut Known,
    part: &Option<ObjId>,
) -> Result<Option<Kept>, WalkFault>
    requires known { (objects : Objects) → objects_of S.contents store.old ≡ Some objects → Fits objects known.old }
    ensures value { (objects : Objects) → objects_of S.contents store.old ≡ Some objects → IsCompleteIf objects part.now
        → AnswersWell objects (λ kept. kept ≡ kept_if objects part.now) result }
    ensures known { (objects : Objects) → objects_of S.contents store.old ≡ Some objects → Fits objects known.new }
    ensures stays { Reads S.contents S.may_give S.texts S.faults store.old store.new result }
{
    let id = match part {
        Some(id) => id,
        None => return Ok(None),
    };
    match extent_at(alloc, store, known, *id) {
        Ok(extent) => Ok(kept_by(*id, extent.paths)),
        Err(fault) => Err(fault),
    }
}

fn kept_by(id: ObjId, paths: u64) -> Option<Kept>
    ensures value { result ≡ kept_by id paths }
{
    if paths == 0 {
        return None;
    }
    Some(Kept { id, paths })
}
