//! The plan of a checkout: what is removed, and what is then written.
ghost use Rattle.std.specs.Prelude.{◌≡◌, ◌++◌, ◌∷◌, [], IfErr, IfOk, OnOk, option_copied, reverse};
ghost use Rattle.std.specs.List.{filter_map, flat_map};
ghost use Rattle.std.specs.FinMap as fin;
ghost use Rattle.block_chunker.specs.declared.cuts.Cuts.{Cuts};
ghost use Rattle.folder_side.specs.Folder.{Contents};
ghost use Rattle.folder_side.specs.ScanReport.{IsScan, IsWithinLimits};
ghost use Rattle.sync_rules.specs.Checkout.{own_has};
ghost use Rattle.tree_checkout.specs.Hindrances.{TellsOf};
ghost use Rattle.tree_checkout.specs.Planning.{IsPlanFault, LooksScanned, PlansSo, dir_due, doomed_path, dooms, dues_at, held_path, is_alone_in, is_lacked_in, keeps_in, stays_in};

use crate::hidden::{first_blocked, is_dir};
use crate::hindrances::{Hindrances, hindrances_of};
use folder_side::{Scan, Seen};
use ids::{Items, ObjId};
use local_index::{Index, Known, own_id};
use object_graph::Entry;
use std::alloc::{AllocError, Global};
use sync_rules::SyncFault;
use tree_model::{Path, PathTable};

/// What is to be written at a path of a tree.
#[derive(Drop)]
pub struct Due {
    pub path: Path,
    pub node: DueNode,
}

/// A directory, or the file with this object; forty zeros for an empty one.
#[derive(Drop)]
pub enum DueNode {
    Dir,
    File(ObjId),
}

/// What brings a folder to a tree: the paths that are removed, none before one below it; and then what is written, in byte order
/// of path. And the directories that the tree lacks and that stay since they can't be removed, in byte order of path.
#[derive(Drop)]
pub struct Plan {
    pub doomed: Items<Path>,
    pub writes: Items<Due>,
    pub held: Items<Path>,
}

/// The plan that brings a folder, as it was scanned, to the tree of these entries; or the first path that is blocked.
///
/// A file that the folder has with the head's id by the index, where it did not change since, or by this call's push (`pushed`),
/// is left alone. Nothing is touched.
pub fn plan_of(
    alloc: Global,
    scan: &Scan,
    index: &Index,
    entries: &PathTable<Entry>,
    pushed: bool,
) -> Result<Plan, SyncFault>
    ensures value { (cuts : Cuts) (c : Contents) → IsScan cuts c scan.now → PlansSo cuts c index.now entries.now pushed result }
    ensures same { (cuts : Cuts) (c : Contents) → IsScan cuts c scan.now → IsWithinLimits c → IfOk result (LooksScanned cuts c scan.now) }
    ensures gone { IfOk result (λ plan. plan.doomed ≡ reverse (filter_map (doomed_path scan.now entries.now) (fin.entries scan.now.paths))) }
    ensures written { IfOk result (λ plan. plan.writes ≡ flat_map (dues_at scan.now index.now pushed) (fin.entries entries.now)) }
    ensures cause { IfErr result IsPlanFault }
{
    let hindrances = match hindrances_of(alloc, scan) {
        Ok(hindrances) => hindrances,
        Err(AllocError) => return Err(SyncFault::NoMemory),
    };
    plan_over(alloc, scan, &hindrances, index, entries, pushed)
}

/// The same, by the tables of what stands in the way.
fn plan_over(
    alloc: Global,
    scan: &Scan,
    hindrances: &Hindrances,
    index: &Index,
    entries: &PathTable<Entry>,
    pushed: bool,
) -> Result<Plan, SyncFault>
    requires told { TellsOf scan.now hindrances.now }
    ensures value { (cuts : Cuts) (c : Contents) → IsScan cuts c scan.now → PlansSo cuts c index.now entries.now pushed result }
    ensures same { (cuts : Cuts) (c : Contents) → IsScan cuts c scan.now → IsWithinLimits c → IfOk result (LooksScanned cuts c scan.now) }
    ensures gone { IfOk result (λ plan. plan.doomed ≡ reverse (filter_map (doomed_path scan.now entries.now) (fin.entries scan.now.paths))) }
    ensures written { IfOk result (λ plan. plan.writes ≡ flat_map (dues_at scan.now index.now pushed) (fin.entries entries.now)) }
    ensures cause { IfErr result IsPlanFault }
{
    let blocked = match first_blocked(alloc, scan, hindrances, entries) {
        Ok(blocked) => blocked,
        Err(AllocError) => return Err(SyncFault::NoMemory),
    };
    match blocked {
        Some(path) => return Err(SyncFault::Blocked(path)),
        None => {}
    }
    match steps_of(alloc, scan, hindrances, index, entries, pushed) {
        Ok(plan) => Ok(plan),
        Err(AllocError) => Err(SyncFault::NoMemory),
    }
}

/// The steps, blocked or not.
fn steps_of(
    alloc: Global,
    scan: &Scan,
    hindrances: &Hindrances,
    index: &Index,
    entries: &PathTable<Entry>,
    pushed: bool,
) -> Result<Plan, AllocError>
    requires told { TellsOf scan.now hindrances.now }
    ensures gone { IfOk result (λ plan. plan.doomed ≡ reverse (filter_map (doomed_path scan.now entries.now) (fin.entries scan.now.paths))) }
    ensures written { IfOk result (λ plan. plan.writes ≡ flat_map (dues_at scan.now index.now pushed) (fin.entries entries.now)) }
    ensures held { IfOk result (λ plan. plan.held ≡ filter_map (held_path scan.now entries.now) (fin.entries scan.now.paths)) }
{
    let doomed = doomed_of(alloc, scan, hindrances, entries)?;
    let writes = writes_of(alloc, scan, index, entries, pushed)?;
    let held = held_of(alloc, scan, hindrances, entries)?;
    Ok(Plan {
        doomed: Items::from_vec(turned(doomed)),
        writes,
        held,
    })
}

/// A list from its end.
fn turned(paths: Vec<Path>) -> Vec<Path>
    ensures value { result.items ≡ reverse paths.items }
{
    let mut paths = paths;
    paths.reverse();
    paths
}

/// The paths that are to go, in byte order.
fn doomed_of(
    alloc: Global,
    scan: &Scan,
    hindrances: &Hindrances,
    entries: &PathTable<Entry>,
) -> Result<Vec<Path>, AllocError>
    requires told { TellsOf scan.now hindrances.now }
    ensures value { IfOk result (λ doomed. doomed.items ≡ filter_map (doomed_path scan.now entries.now) (fin.entries scan.now.paths)) }
{
    let mut doomed = Vec::new(alloc);
    for (path, seen) in scan.paths.iter() {
        if is_doomed(scan, hindrances, entries, path, seen) {
            doomed.push(path.copy(alloc)?)?;
        }
    }
    Ok(doomed)
}

/// Whether what was seen at a path is to go.
fn is_doomed(
    scan: &Scan,
    hindrances: &Hindrances,
    entries: &PathTable<Entry>,
    path: &Path,
    seen: &Seen,
) -> bool
    requires told { TellsOf scan.now hindrances.now }
    ensures value { result ≡ dooms scan.now entries.now path.now seen.now }
{
    !keeps(entries.get(path), seen) && !(is_dir(seen) && hindrances.hides(path))
}

/// Whether the tree has there what is of the kind that was seen.
fn keeps(entry: Option<&Entry>, seen: &Seen) -> bool
    ensures value { result ≡ keeps_in (option_copied entry.entry) seen.now }
{
    match entry {
        None => false,
        Some(Entry::Dir) => is_dir(seen),
        Some(Entry::File { .. }) => !is_dir(seen),
    }
}

/// The directories that stay though the tree lacks them, in byte order of path.
fn held_of(
    alloc: Global,
    scan: &Scan,
    hindrances: &Hindrances,
    entries: &PathTable<Entry>,
) -> Result<Items<Path>, AllocError>
    requires told { TellsOf scan.now hindrances.now }
    ensures value { IfOk result (λ held. held ≡ filter_map (held_path scan.now entries.now) (fin.entries scan.now.paths)) }
{
    let mut held = Items::new(alloc);
    for (path, seen) in scan.paths.iter() {
        if is_held(scan, hindrances, entries, path, seen) {
            held.push(path.copy(alloc)?)?;
        }
    }
    Ok(held)
}

/// Whether what was seen at a path is a directory that can't be removed, and the tree lacks it.
fn is_held(
    scan: &Scan,
    hindrances: &Hindrances,
    entries: &PathTable<Entry>,
    path: &Path,
    seen: &Seen,
) -> bool
    requires told { TellsOf scan.now hindrances.now }
    ensures value { result ≡ stays_in scan.now entries.now path.now seen.now }
{
    is_dir(seen) && hindrances.hides(path) && is_lacked(entries.get(path))
}

/// Whether the tree has nothing there.
fn is_lacked(entry: Option<&Entry>) -> bool
    ensures value { result ≡ is_lacked_in (option_copied entry.entry) }
{
    match entry {
        None => true,
        Some(_) => false,
    }
}

/// What is written, in byte order of path.
fn writes_of(
    alloc: Global,
    scan: &Scan,
    index: &Index,
    entries: &PathTable<Entry>,
    pushed: bool,
) -> Result<Items<Due>, AllocError>
    ensures value { IfOk result (λ writes. writes ≡ flat_map (dues_at scan.now index.now pushed) (fin.entries entries.now)) }
{
    let mut writes = Items::new(alloc);
    for (path, entry) in entries.iter() {
        push_due(alloc, &mut writes, scan, index, path, entry, pushed)?;
    }
    Ok(writes)
}

/// Notes what is to be written at a path, if anything is.
fn push_due(
    alloc: Global,
    writes: &mut Items<Due>,
    scan: &Scan,
    index: &Index,
    path: &Path,
    entry: &Entry,
    pushed: bool,
) -> Result<(), AllocError>
    ensures ok { OnOk result (writes.new ≡ writes.old ++ dues_at scan.now index.now pushed (path.now, entry.now)) }
{
    match entry {
        Entry::Dir => push_dir(alloc, writes, scan.paths.get(path), path),
        Entry::File { id, .. } => {
            if is_alone(
                alloc,
                scan.paths.get(path),
                index.entries.get(path),
                id,
                pushed,
            )? {
                return Ok(());
            }
            push(alloc, writes, path, DueNode::File(*id))
        }
    }
}

/// Notes that a directory is to be made, if none is there.
fn push_dir(
    alloc: Global,
    writes: &mut Items<Due>,
    seen: Option<&Seen>,
    path: &Path,
) -> Result<(), AllocError>
    ensures ok { OnOk result (writes.new ≡ writes.old ++ dir_due (option_copied seen.entry) path.now) }
{
    match seen {
        Some(Seen::Dir) => Ok(()),
        Some(Seen::File { .. }) => push(alloc, writes, path, DueNode::Dir),
        None => push(alloc, writes, path, DueNode::Dir),
    }
}

fn push(
    alloc: Global,
    writes: &mut Items<Due>,
    path: &Path,
    node: DueNode,
) -> Result<(), AllocError>
    ensures ok { OnOk result (writes.new ≡ writes.old ++ record { path = path.now; node = node } ∷ []) }
{
    match path.copy(alloc) {
        Ok(path) => writes.push(Due { path, node }),
        Err(failed) => Err(failed),
    }
}

/// Whether a file is left alone: a file was seen, and it is the head's file of this id.
fn is_alone(
    alloc: Global,
    seen: Option<&Seen>,
    known: Option<&Known>,
    id: &ObjId,
    pushed: bool,
) -> Result<bool, AllocError>
    ensures value { IfOk result (λ told. told ≡ is_alone_in (option_copied seen.entry) (option_copied known.entry) id.now pushed) }
{
    match seen {
        None => Ok(false),
        Some(Seen::Dir) => Ok(false),
        Some(Seen::File { blocks, size }) => {
            let own = own_id(alloc, blocks.slice(), *size)?;
            Ok(has_id(&own, known, id, pushed))
        }
    }
}

/// Whether what has this own id is the head's file of that id.
fn has_id(own: &ObjId, known: Option<&Known>, id: &ObjId, pushed: bool) -> bool
    ensures value { result ≡ own_has own.now (option_copied known.entry) id.now pushed }
{
    match known {
        None => pushed && *own == *id,
        Some(Known::Dir) => pushed && *own == *id,
        Some(
            Known::File {
                id: its,
                own: was,
                ..
            },
        ) => {
            if *was == *own {
                *its == *id
            } else {
                pushed && *own == *id
            }
        }
    }
}
