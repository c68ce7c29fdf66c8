//! The three-way merge of stored trees.
ghost use Rattle.std.specs.Prelude.{◌≡◌, ℕ, List, IfErr, IfOk, None, Some};
ghost use Rattle.std.specs.FinMap as map;
ghost use Rattle.ids.specs.Key.{Objects};
ghost use Rattle.tree_model.specs.DirectorySurvival.{Sides};
ghost use Rattle.object_graph.specs.Objects.{IsTreeOf};
ghost use Rattle.object_store.specs.StoreView.{objects_of};
ghost use Rattle.tree_walk.specs.KnownTrees.{Fits};
ghost use Rattle.tree_walk.specs.Reading.{Reads};
ghost use Rattle.tree_merge.specs.DirectoryMerge.{FinishesSo, none_yet, refusal_of};
ghost use Rattle.tree_merge.specs.HeadDirectory.{UsesHeads};
ghost use Rattle.tree_merge.specs.Opening.{id_in, paths_in};
ghost use Rattle.tree_merge.specs.Merging.{AreComplete, IsCaused, KeepsSettled, MergesTo, as_read};
ghost use Rattle.tree_merge.specs.TreeBuilding.{AreNamed, IsCollision};
ghost use Rattle.tree_merge.specs.WorkSoFar.{IsCausedIn};

use crate::compared::Compared;
use crate::directory_merge::merge_directory;
use crate::opening::{Ids, Kept};
use crate::unstored::drop_stored;
use crate::work::{Stop, Work};
use ids::{Bytes, Items, KeyTable, ObjId};
use object_store::{Shelf, Store, StoreFault};
use std::alloc::{AllocError, Global};
use tree_model::{MAX_NAMES, MAX_PATHS, Path, PathTable};
use tree_walk::{Known, WalkFault};

/// Two trees, merged over their base.
#[derive(Drop)]
pub struct Merged {
    /// The root directory; forty zeros for the tree of no paths.
    pub root: ObjId,
    /// The objects of the tree's directories that aren't stored yet, each under its key.
    pub made: KeyTable<Bytes>,
    /// The paths of the conflict copies, in the byte order of the paths that the files left.
    pub conflicts: Items<Path>,
}

/// Why two trees aren't merged.
#[derive(Drop)]
pub enum MergeFault {
    /// The conflict name of the file at this path has so many bytes, over MAX_NAME. It is the first such file in the byte order of
    /// paths.
    TooLong(Path, u64),
    /// The merged tree has so many paths, over 1,000,000.
    TooMany(u64),
    /// A directory of the merged tree can't be stored under its id, which is this: it is forty zeros, or other bytes have it.
    Taken(ObjId),
    /// The store failed: where it tells what it holds, only the `Store` of a walk's faults.
    Walk(WalkFault),
}

/// Merges two trees over their base, by the table of docs/MERGE.md. The three roots are complete.
///
/// Below the three roots it opens only what differs. What it doesn't open it counts by what is known, and it adds to what
/// is known, also where it is refused. It puts nothing into the store: the objects that the merged tree needs in addition
/// are given back. Want of memory may come in the place of each answer.
pub fn merge<S: Shelf>(
    alloc: Global,
    store: &mut Store<S>,
    known: &mut Known,
    base: ObjId,
    head: ObjId,
    pushed: ObjId,
) -> Result<Merged, MergeFault>
    requires whole { (objects : Objects) → objects_of S.contents store.old ≡ Some objects → AreComplete objects base head pushed }
    requires known { (objects : Objects) → objects_of S.contents store.old ≡ Some objects → Fits objects known.old }
    ensures value { (objects : Objects) → objects_of S.contents store.old ≡ Some objects → (s : Sides)
        → IsTreeOf objects base s.base → IsTreeOf objects head s.head → IsTreeOf objects pushed s.pushed → MergesTo objects s result }
    ensures same { (objects : Objects) → objects_of S.contents store.old ≡ Some objects → IfOk result (KeepsSettled objects base head pushed) }
    ensures heads { (objects : Objects) → objects_of S.contents store.old ≡ Some objects → IfOk result (UsesHeads objects head) }
    ensures named { IfOk result (λ merged. AreNamed merged.made) }
    ensures cause { IfErr result IsCaused }
    ensures known { (objects : Objects) → objects_of S.contents store.old ≡ Some objects → Fits objects known.new }
    ensures stays { Reads S.contents S.may_give S.texts S.faults store.old store.new (as_read result) }
{
    let ids = Ids {
        base: Some(base),
        head: Some(head),
        pushed: Some(pushed),
    };
    let root = Path::root(alloc);
    let mut compared = Compared::new(alloc);
    let mut work = nothing_yet(alloc);
    let room = MAX_NAMES as u32;
    let part = match merge_directory(
        alloc,
        store,
        known,
        &mut compared,
        &root,
        &ids,
        room,
        &mut work,
    ) {
        Ok(part) => part,
        Err(fault) => return Err(MergeFault::Walk(fault)),
    };
    let merged = match finish(alloc, part, work) {
        Ok(merged) => merged,
        Err(fault) => return Err(fault),
    };
    let Merged {
        root,
        made,
        conflicts,
    } = merged;
    match drop_stored(alloc, store, made) {
        Ok(made) => Ok(Merged {
            root,
            made,
            conflicts,
        }),
        Err(fault) => Err(fault),
    }
}

/// What a merge has made before it begins.
fn nothing_yet(alloc: Global) -> Work
    ensures value { result ≡ none_yet }
{
    Work {
        made: KeyTable::new(alloc),
        copies: PathTable::new(alloc),
        long: None,
        stop: None,
    }
}

/// What was merged, or why it is refused: the first name that is too long, then more paths than a tree may have, then a directory
/// that can't be stored under its id.
fn finish(alloc: Global, part: Option<Kept>, work: Work) -> Result<Merged, MergeFault>
    ensures value { FinishesSo part work result }
    ensures named { AreNamed work.made → IfOk result (λ merged. AreNamed merged.made) }
    ensures cause { IsCausedIn none_yet work → IfErr result IsCaused }
{
    let Work {
        made,
        copies,
        long,
        stop,
    } = work;
    match long {
        Some(long) => Err(MergeFault::TooLong(long.path, long.bytes)),
        None => finish_named(alloc, part, made, copies, stop),
    }
}

/// The same, where no name is too long.
fn finish_named(
    alloc: Global,
    part: Option<Kept>,
    made: KeyTable<Bytes>,
    copies: PathTable<Path>,
    stop: Option<Stop>,
) -> Result<Merged, MergeFault>
    ensures value { FinishesSo part (record { made = made; copies = copies; long = None; stop = stop }) result }
    ensures named { AreNamed made → IfOk result (λ merged. AreNamed merged.made) }
    ensures cause { ((id : List ℕ) → stop ≡ Some (Stop.Taken id) → IsCollision id) → IfErr result IsCaused }
{
    let Kept { id, paths } = or_nothing(part);
    if paths > MAX_PATHS as u64 {
        return Err(MergeFault::TooMany(paths));
    }
    match stop {
        Some(found) => return Err(refusal_of(found, paths)),
        None => {}
    }
    match in_order(alloc, copies) {
        Ok(conflicts) => Ok(Merged {
            root: id,
            made,
            conflicts,
        }),
        Err(_) => Err(MergeFault::Walk(WalkFault::Store(StoreFault::NoMemory))),
    }
}

/// The refusal of a merge to so many paths that makes no object any more.
fn refusal_of(stop: Stop, paths: u64) -> MergeFault
    ensures value { result ≡ refusal_of stop paths }
{
    match stop {
        Stop::Many => MergeFault::TooMany(paths),
        Stop::Taken(id) => MergeFault::Taken(id),
    }
}

/// What is left of the root; of nothing forty zeros and no paths.
fn or_nothing(part: Option<Kept>) -> Kept
    ensures value { (result.id ≡ id_in part) × (result.paths ≡ paths_in part) }
{
    match part {
        Some(part) => part,
        None => Kept {
            id: ObjId::NIL,
            paths: 0,
        },
    }
}

/// The paths of the conflict copies, in the byte order of the paths that the files left.
fn in_order(alloc: Global, mut copies: PathTable<Path>) -> Result<Items<Path>, AllocError>
    ensures value { IfOk result (λ conflicts. conflicts ≡ map.values copies) }
{
    let mut conflicts = Items::new(alloc);
    while let Some((_, place)) = copies.pop_first() {
        conflicts.push(place)?;
    }
    Ok(conflicts)
}
