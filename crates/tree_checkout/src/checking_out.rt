//! A checkout: the steps of a plan.
ghost use Rattle.std.specs.Prelude.{◌≡◌, ◌<◌, ◌≤◌, ◌+◌, IfErr, IfOk, OnOk, Some, false, length, map as list_map};
ghost use Rattle.std.specs.List.{AllByRecursion, IsDistinct};
ghost use Rattle.std.specs.Ordering.{eq_by_cmp};
ghost use Rattle.ids.specs.FaultCount.{FailsBy};
ghost use Rattle.folder_side.specs.Folder.{Contents};
ghost use Rattle.folder_side.specs.declared.folder.Ahead.TheVariants.{Steps};
ghost use Rattle.folder_side.specs.declared.folder_scan.TheConstants.{PIECE};
ghost use Rattle.sync_rules.specs.Checkout.{Step, run};
ghost use Rattle.sync_rules.specs.Causes.{is_folder_fault};
ghost use Rattle.tree_model.specs.Path.{path_cmp};
ghost use Rattle.tree_checkout.specs.CheckingOut.{ChecksOut, StopsOut};
ghost use Rattle.tree_checkout.specs.Steps.{LooksUnwritten, paths_of};
ghost use Rattle.tree_checkout.specs.SecondLook.{LooksFirst};
ghost use Rattle.tree_checkout.specs.Touches.{Touches};
ghost use Rattle.tree_checkout.specs.Writing.{is_change};

use crate::block_gets::Source;
use crate::steps::{Write, remove_all, write_all};
use block_chunker::Cuts;
use folder_side::{Ahead, Folder, Scan};
use ids::{IdList, Items};
use remote_calls::Remote;
use std::alloc::Global;
use sync_rules::SyncFault;
use tree_model::Path;

/// Removes paths, and then makes directories and moves files in, one after another as they are listed. It answers the own id of each
/// file that was moved in, in the order of the writes: the one that these cuts give to its bytes, as they came.
///
/// A file's blocks are got into the spare, one in memory at a time, and compared with their names. Each path is looked at again
/// before it is touched, beside what the scan saw there; a file that stands there is read with the buffer. After an error a front
/// of the steps was done: each path holds what it held, or what its step leaves there.
///
/// The faults: `Folder`, `Remote`, `Refused`, `Damaged`, `BadTree` by `WrongSize`, `Changed`, `NoMemory`.
pub fn checkout<F: Folder, R: Remote>(
    alloc: Global,
    folder: &mut F,
    remote: &mut R,
    source: &Source,
    scan: &Scan,
    doomed: &[Path],
    writes: &[Write],
    cuts: Cuts,
    buffer: &mut [u8],
) -> Result<IdList, SyncFault>
    requires some { 0 < length buffer.old }
    requires fits { length buffer.old ≤ PIECE }
    ensures ok { IfOk result (ChecksOut source.now doomed.now writes.now cuts (R.sends remote.old) (R.sends remote.new) (F.told folder.old) (F.told folder.new)) }
    ensures err { IfErr result (StopsOut source.now doomed.now writes.now scan.now cuts (R.sends remote.old) (R.sends remote.new) (F.told folder.old) (F.told folder.new)) }
    ensures same { (c : Contents) → F.told folder.old ≡ Some c → IsDistinct (eq_by_cmp path_cmp) doomed.now → AllByRecursion (LooksFirst cuts c scan.now) doomed.now
        → IsDistinct (eq_by_cmp path_cmp) (paths_of writes.now) → AllByRecursion (LooksUnwritten cuts (run (list_map Step.Removed doomed.now) c) scan.now) writes.now
        → IfErr result (λ f. is_change f ≡ false) }
    ensures found { (c : Contents) → F.told folder.old ≡ Some c → IsDistinct (eq_by_cmp path_cmp) doomed.now → IsDistinct (eq_by_cmp path_cmp) (paths_of writes.now)
        → OnOk result (AllByRecursion (LooksFirst cuts c scan.now) doomed.now
        × AllByRecursion (LooksUnwritten cuts (run (list_map Step.Removed doomed.now) c) scan.now) writes.now) }
    ensures touches { Touches cuts scan.now (F.trace folder.old) (F.trace folder.new) }
    ensures stays { R.peer remote.new ≡ R.peer remote.old }
    ensures faults { FailsBy is_folder_fault (F.faults folder.old) (F.faults folder.new) result }
{
    folder.ahead(steps_ahead(doomed, writes));
    match remove_all(alloc, folder, scan, doomed, cuts, buffer) {
        Ok(()) => {}
        Err(fault) => return Err(fault),
    }
    let mut owns = Items::new(alloc);
    match write_all(
        alloc, folder, remote, source, scan, writes, cuts, buffer, &mut owns,
    ) {
        Ok(()) => {}
        Err(fault) => return Err(fault),
    }
    Ok(owns)
}

/// How many steps a checkout takes, for who looks on: one for each path that is removed, and for each that is written.
fn steps_ahead(doomed: &[Path], writes: &[Write]) -> Ahead
    ensures value { result ≡ Steps (length doomed.now + length writes.now) }
{
    Ahead::Steps((doomed.len() as u64).saturating_add(writes.len() as u64))
}
