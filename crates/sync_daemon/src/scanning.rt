//! What a folder holds, and how that differs from what its index tells.
ghost use Rattle.std.specs.Prelude.{◌≡◌, IfOk, min};
ghost use Rattle.std.specs.FinMap as map;
ghost use Rattle.folder_side.specs.Calls.{Glances};
ghost use Rattle.ids.specs.FaultCount.{FailsBy};
ghost use Rattle.sync_rules.specs.Causes.{is_folder_fault};
ghost use Rattle.tree_push.specs.ChangedOwns.{AreChangedOwns};
ghost use Rattle.sync_daemon.specs.FilesKnown.{file_count, files_in};
ghost use Rattle.sync_daemon.specs.Rounds.{ScansSo, TellsChange, scan_fault};

use block_chunker::Cuts;
use folder_side::{Folder, Scan, ScanFault, scan};
use ids::ObjId;
use local_index::{Index, Known, changes};
use std::alloc::{AllocError, Global};
use sync_rules::SyncFault;
use tree_model::PathTable;
use tree_push::changed_owns;

/// Scans a folder. `Scan` where it is past a limit, `Folder` where it failed.
pub(crate) fn scan_folder<F: Folder>(
    alloc: Global,
    folder: &mut F,
    cuts: Cuts,
) -> Result<Scan, SyncFault>
    ensures value { ScansSo cuts (F.told folder.old) result }
    ensures stays { F.told folder.new ≡ F.told folder.old }
    ensures traced { Glances (F.trace folder.old) (F.trace folder.new) }
    ensures faults { FailsBy is_folder_fault (F.faults folder.old) (F.faults folder.new) result }
{
    match scan(alloc, folder, cuts) {
        Ok(report) => Ok(report),
        Err(fault) => Err(scan_fault(fault)),
    }
}

/// Why a scan ends a sync.
fn scan_fault(fault: ScanFault) -> SyncFault
    ensures value { result ≡ scan_fault fault }
{
    match fault {
        ScanFault::Folder => SyncFault::Folder,
        ScanFault::NoMemory => SyncFault::NoMemory,
        other => SyncFault::Scan(other),
    }
}

/// What a scan found changed: whether anything was, and the own ids of the files that are new or changed, each at its path.
#[derive(Drop)]
pub(crate) struct Found {
    pub(crate) is_changed: bool,
    pub(crate) owns: PathTable<ObjId>,
}

/// How a folder differs from its index.
pub(crate) fn find_changes(alloc: Global, report: &Scan, index: &Index) -> Result<Found, AllocError>
    ensures value { IfOk result (λ found. TellsChange report.now index.now found.is_changed) }
    ensures ids { IfOk result (λ found. AreChangedOwns index.now.entries report.now.paths found.owns) }
{
    let changes = changes(alloc, report, index)?;
    let owns = changed_owns(alloc, &report.paths, changes.slice())?;
    Ok(Found {
        is_changed: !changes.is_empty(),
        owns,
    })
}

/// How many files an index knows, for who looks on, or 2^64 - 1 where that is more.
pub(crate) fn files_known(index: &Index) -> u64
    ensures value { result ≡ min (files_in (map.entries index.now.entries)) 18446744073709551615 }
{
    let mut count: u64 = 0;
    for (_, known) in index.entries.iter() {
        count = count.saturating_add(file_count(known));
    }
    count
}

/// How many files an entry is: one or none.
fn file_count(known: &Known) -> u64
    ensures value { result ≡ file_count known.now }
{
    match known {
        Known::Dir => 0,
        Known::File { .. } => 1,
    }
}
