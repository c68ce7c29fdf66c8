//! Whether a folder is as it was synced.
ghost use Rattle.std.specs.Prelude.{◌≡◌, IfOk, Some};
ghost use Rattle.ids.specs.FaultCount.{FailsBy};
ghost use Rattle.folder_side.specs.Folder.{Contents};
ghost use Rattle.folder_side.specs.ScanReport.{is_scan_failure};
ghost use Rattle.sync_daemon.specs.Rounds.{TellsChange};
ghost use Rattle.client_commands.specs.Worktrees.{ComparesSo};

use block_chunker::Cuts;
use folder_side::{Folder, Scan, ScanFault, scan};
use local_index::{Index, changes};
use std::alloc::{AllocError, Global};

/// Whether a folder is as its index tells: every file is read. Nothing is changed.
pub(crate) fn is_clean<F: Folder>(
    alloc: Global,
    folder: &mut F,
    index: &Index,
) -> Result<bool, ScanFault>
    ensures value { (c : Contents) → F.told folder.old ≡ Some c → ComparesSo c index.now result }
    ensures stays { F.told folder.new ≡ F.told folder.old }
    ensures faults { FailsBy is_scan_failure (F.faults folder.old) (F.faults folder.new) result }
{
    let report = match scan(alloc, folder, Cuts::usual()) {
        Ok(report) => report,
        Err(fault) => return Err(fault),
    };
    match is_changed(alloc, &report, index) {
        Ok(changed) => Ok(!changed),
        Err(AllocError) => Err(ScanFault::NoMemory),
    }
}

/// Whether what a scan found differs from what the index tells.
fn is_changed(alloc: Global, report: &Scan, index: &Index) -> Result<bool, AllocError>
    ensures value { IfOk result (TellsChange report.now index.now) }
{
    let changes = changes(alloc, report, index)?;
    Ok(!changes.is_empty())
}
