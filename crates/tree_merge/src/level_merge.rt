//! The merge of one directory's entries, once it is known below which of them something survives.
ghost use Rattle.std.specs.Prelude.{◌≡◌, ◌≤◌, [], IfErr, IfOk, None, OnOk, Some, is_some, min, true};
ghost use Rattle.std.specs.FinMap as map;
ghost use Rattle.ids.specs.Key.{Objects};
ghost use Rattle.object_store.specs.StoreView.{objects_of};
ghost use Rattle.tree_model.specs.DirectorySurvival.{Sides};
ghost use Rattle.tree_model.specs.Path.{PathV};
ghost use Rattle.tree_walk.specs.Reading.{Reads};
ghost use Rattle.tree_merge.specs.Compared.{AreCompared, StayCompared};
ghost use Rattle.tree_merge.specs.FileChoice.{IsWholeAt};
ghost use Rattle.tree_merge.specs.LevelMerge.{AddsDirectory, MakesDirectory, MakesFrom, MakesLevel, MakesNamed, MergesLevel, RefusesDirectory, RefusesName, head_if, kept_paths};
ghost use Rattle.tree_merge.specs.Opening.{IsDirectoryIf};
ghost use Rattle.tree_merge.specs.Sides.{AreSeenIn, AreTrees};
ghost use Rattle.tree_merge.specs.Telling.{AnswersWell};
ghost use Rattle.tree_merge.specs.TreeBuilding.{AreNamed};
ghost use Rattle.tree_merge.specs.WorkSoFar.{IsCausedIn, is_refused};

use crate::compared::Compared;
use crate::conflict_copies::{CopyFault, Named, name_leavers};
use crate::decision::decide;
use crate::head_directory::heads_own;
use crate::opening::{Kept, Opened};
use crate::sides::Three;
use crate::tables::drop_root;
use crate::tree_builder::{BuildFault, BuiltTree, build_over};
use crate::work::{Stop, Work, add_made, behind, note_long, take_copies};
use ids::ObjId;
use object_graph::Entry;
use object_store::{Shelf, Store, StoreFault};
use std::alloc::Global;
use tree_model::{MAX_PATHS, Path, PathTable};
use tree_walk::WalkFault;

/// Merges the entries of three directories, which stand at this path, and tells what is left of them, if anything is.
///
/// Only of what a shelf lies about can there be more entries than three trees have.
pub(crate) fn merge_level<S: Shelf>(
    alloc: Global,
    store: &mut Store<S>,
    compared: &mut Compared,
    path: &Path,
    head: &Option<ObjId>,
    opened: Opened,
    work: &mut Work,
) -> Result<Option<Kept>, WalkFault>
    ensures value { (objects : Objects) → objects_of S.contents store.old ≡ Some objects
        → AreCompared objects compared.old → IsDirectoryIf objects head.now
        → ((q : PathV) → IsWholeAt objects (map.get opened.joined q)) → map.len opened.joined ≤ 3000000
        → (level : Sides) → AreTrees level → AreSeenIn objects opened.joined level
        → AnswersWell objects (MergesLevel objects path.now head.now level opened.kept work.old work.new) result }
    ensures named { OnOk result (AreNamed work.old.made → AreNamed work.new.made) }
    ensures cause { OnOk result (IsCausedIn work.old work.new) }
    ensures known { StayCompared (objects_of S.contents store.old) compared.old compared.new }
    ensures stays { Reads S.contents S.may_give S.texts S.faults store.old store.new result }
{
    let Opened { mut joined, kept } = opened;
    drop_root(alloc, &mut joined);
    merge_entries(alloc, store, compared, path, head, joined, &kept, work)
}

/// Merges entries of which none stands at the root.
fn merge_entries<S: Shelf>(
    alloc: Global,
    store: &mut Store<S>,
    compared: &mut Compared,
    path: &Path,
    head: &Option<ObjId>,
    joined: PathTable<Three>,
    kept: &PathTable<Kept>,
    work: &mut Work,
) -> Result<Option<Kept>, WalkFault>
    requires root { map.get joined [] ≡ None }
    ensures value { (objects : Objects) → objects_of S.contents store.old ≡ Some objects
        → AreCompared objects compared.old → IsDirectoryIf objects head.now
        → ((q : PathV) → IsWholeAt objects (map.get joined q)) → map.len joined ≤ 3000000
        → (level : Sides) → AreTrees level → AreSeenIn objects joined level
        → AnswersWell objects (MergesLevel objects path.now head.now level kept.now work.old work.new) result }
    ensures named { OnOk result (AreNamed work.old.made → AreNamed work.new.made) }
    ensures cause { OnOk result (IsCausedIn work.old work.new) }
    ensures known { StayCompared (objects_of S.contents store.old) compared.old compared.new }
    ensures stays { Reads S.contents S.may_give S.texts S.faults store.old store.new result }
{
    let paths = joined.len();
    if paths > 3 * MAX_PATHS {
        return Err(WalkFault::TooMany(paths as u64));
    }
    let decided = match decide(alloc, store, compared, joined) {
        Ok(decided) => decided,
        Err(fault) => return Err(fault),
    };
    match name_leavers(alloc, decided) {
        Ok(named) => merge_named(alloc, store, path, head, named, kept, work),
        Err(CopyFault::TooLong(own, bytes)) => refuse_name(alloc, path, own, bytes, work),
        Err(CopyFault::NoMemory) => Err(WalkFault::Store(StoreFault::NoMemory)),
    }
}

/// Makes a directory of entries that have their names, or uses the head's again.
fn merge_named<S: Shelf>(
    alloc: Global,
    store: &mut Store<S>,
    path: &Path,
    head: &Option<ObjId>,
    named: Named,
    kept: &PathTable<Kept>,
    work: &mut Work,
) -> Result<Option<Kept>, WalkFault>
    ensures value { (objects : Objects) → objects_of S.contents store.old ≡ Some objects → IsDirectoryIf objects head.now
        → AnswersWell objects (MakesNamed objects path.now head.now named kept.now work.old work.new) result }
    ensures named { OnOk result (AreNamed work.old.made → AreNamed work.new.made) }
    ensures cause { OnOk result (IsCausedIn work.old work.new) }
    ensures stays { Reads S.contents S.may_give S.texts S.faults store.old store.new result }
{
    let asked = head_if(head, work);
    match heads_own(alloc, store, &asked, &named.nodes, kept) {
        Ok(own) => make_level(alloc, path, named, kept, own, work),
        Err(fault) => Err(fault),
    }
}

/// The head's directory; none where the merge is known to be refused.
fn head_if(head: &Option<ObjId>, work: &Work) -> Option<ObjId>
    ensures value { result ≡ head_if head.now work.now }
{
    if is_refused(work) {
        return None;
    }
    *head
}

/// Writes down a file of a directory whose conflict name is too long. Something survives there: the file.
fn refuse_name(
    alloc: Global,
    dir: &Path,
    own: Path,
    bytes: u64,
    work: &mut Work,
) -> Result<Option<Kept>, WalkFault>
    ensures ok { OnOk result (RefusesName dir.now own bytes work.old work.new) }
    ensures told { IfOk result (λ part. is_some part ≡ true) }
    ensures memory { IfErr result (λ fault. fault ≡ WalkFault.Store StoreFault.NoMemory) }
{
    match behind(alloc, dir, &own) {
        Ok(whole) => {
            note_long(work, whole, bytes);
            Ok(Some(Kept {
                id: ObjId::NIL,
                paths: 1,
            }))
        }
        Err(_) => Err(WalkFault::Store(StoreFault::NoMemory)),
    }
}

/// Writes down the copies of a directory's files, and makes its object, if it has entries, or uses this one of the head.
fn make_level(
    alloc: Global,
    path: &Path,
    named: Named,
    kept: &PathTable<Kept>,
    own: Option<ObjId>,
    work: &mut Work,
) -> Result<Option<Kept>, WalkFault>
    ensures ok { IfOk result (MakesLevel path.now named kept.now own work.old work.new) }
    ensures named { OnOk result (AreNamed work.old.made → AreNamed work.new.made) }
    ensures cause { OnOk result (IsCausedIn work.old work.new) }
    ensures memory { IfErr result (λ fault. fault ≡ WalkFault.Store StoreFault.NoMemory) }
{
    let Named { nodes, copies } = named;
    match take_copies(alloc, path, copies, &mut work.copies) {
        Ok(()) => {}
        Err(_) => return Err(WalkFault::Store(StoreFault::NoMemory)),
    }
    let size = nodes.len();
    if size == 0 {
        return Ok(None);
    }
    let paths = paths_of(kept).saturating_add(size as u64);
    match take_or_make(alloc, nodes, kept, own, paths, work) {
        Ok(id) => Ok(Some(Kept { id, paths })),
        Err(fault) => Err(fault),
    }
}

/// How many paths lie below the directories that survive, or 2^64 - 1 where that is more.
fn paths_of(kept: &PathTable<Kept>) -> u64
    ensures value { result ≡ min (kept_paths kept.now) 18446744073709551615 }
{
    let mut paths: u64 = 0;
    for (_, own) in kept.iter() {
        paths = paths.saturating_add(own.paths);
    }
    paths
}

/// The head's own directory, or one of these entries, which is made.
fn take_or_make(
    alloc: Global,
    nodes: PathTable<Entry>,
    kept: &PathTable<Kept>,
    own: Option<ObjId>,
    paths: u64,
    work: &mut Work,
) -> Result<ObjId, WalkFault>
    ensures ok { IfOk result (λ id. MakesFrom own nodes kept.now paths work.old work.new id) }
    ensures named { OnOk result (AreNamed work.old.made → AreNamed work.new.made) }
    ensures cause { OnOk result (IsCausedIn work.old work.new) }
    ensures memory { IfErr result (λ fault. fault ≡ WalkFault.Store StoreFault.NoMemory) }
{
    match own {
        Some(id) => Ok(id),
        None => make_directory(alloc, nodes, kept, paths, work),
    }
}

/// Makes the object of a directory of these entries, with so many paths below it. Where the merge is known to be refused, or is so
/// by these paths, none is made, and the id is forty zeros.
fn make_directory(
    alloc: Global,
    nodes: PathTable<Entry>,
    kept: &PathTable<Kept>,
    paths: u64,
    work: &mut Work,
) -> Result<ObjId, WalkFault>
    ensures ok { IfOk result (λ id. MakesDirectory nodes kept.now paths work.old work.new id) }
    ensures named { OnOk result (AreNamed work.old.made → AreNamed work.new.made) }
    ensures cause { OnOk result (IsCausedIn work.old work.new) }
    ensures memory { IfErr result (λ fault. fault ≡ WalkFault.Store StoreFault.NoMemory) }
{
    if is_refused(work) {
        return Ok(ObjId::NIL);
    }
    if paths > MAX_PATHS as u64 {
        work.stop = Some(Stop::Many);
        return Ok(ObjId::NIL);
    }
    match build_over(alloc, nodes, kept) {
        Ok(built) => add_directory(built, work),
        Err(fault) => refuse_directory(fault, work),
    }
}

fn is_refused(work: &Work) -> bool
    ensures value { result ≡ is_refused work.now }
{
    work.long.is_some() | work.stop.is_some()
}

fn add_directory(built: BuiltTree, work: &mut Work) -> Result<ObjId, WalkFault>
    requires named { AreNamed built.made }
    ensures ok { IfOk result (λ id. AddsDirectory built work.old work.new id) }
    ensures named { OnOk result (AreNamed work.old.made → AreNamed work.new.made) }
    ensures cause { OnOk result (IsCausedIn work.old work.new) }
    ensures memory { IfErr result (λ fault. fault ≡ WalkFault.Store StoreFault.NoMemory) }
{
    let BuiltTree { root, made } = built;
    match add_made(&mut work.made, made) {
        Ok(()) => Ok(root),
        Err(fault) => refuse_directory(fault, work),
    }
}

/// Writes down that a directory can't be stored under its id.
fn refuse_directory(fault: BuildFault, work: &mut Work) -> Result<ObjId, WalkFault>
    ensures ok { IfOk result (λ id. RefusesDirectory fault work.old work.new) }
    ensures memory { IfErr result (λ fault. fault ≡ WalkFault.Store StoreFault.NoMemory) }
{
    match fault {
        BuildFault::Taken(id) => {
            work.stop = Some(Stop::Taken(id));
            Ok(ObjId::NIL)
        }
        BuildFault::NoMemory => Err(WalkFault::Store(StoreFault::NoMemory)),
    }
}
