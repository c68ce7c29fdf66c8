//! The steps of a checkout, one after another: removals, and then what is written.
ghost use Rattle.std.specs.Prelude.{◌≡◌, ◌<◌, ◌≤◌, IfErr, OnOk, Some, None, true, false, length, option_copied};
ghost use Rattle.std.specs.FinMap as fin;
ghost use Rattle.std.specs.List.{AllByRecursion, IsDistinct};
ghost use Rattle.std.specs.Ordering.{eq_by_cmp};
ghost use Rattle.ids.specs.FaultCount.{FailsBy};
ghost use Rattle.folder_side.specs.Folder.{Changes, Contents, at, with_dir, without};
ghost use Rattle.folder_side.specs.declared.folder_scan.TheConstants.{PIECE};
ghost use Rattle.folder_side.specs.declared.scan_report.Scan.{Scan};
ghost use Rattle.sync_rules.specs.Causes.{is_folder_fault};
ghost use Rattle.tree_model.specs.Path.{path_cmp};
ghost use Rattle.tree_checkout.specs.SecondLook.{IsLookFault, LooksAs, LooksFirst, file_seen};
ghost use Rattle.tree_checkout.specs.Steps.{LooksUnwritten, RemovesAll, RemovesFront, StopsOne, StopsWrites, WritesAll, WritesOne, is_path_fault, paths_of};
ghost use Rattle.tree_checkout.specs.Touches.{Touches};
ghost use Rattle.tree_checkout.specs.Writing.{is_change};

use crate::block_gets::Source;
use crate::fault::folder_fault;
use crate::hidden::is_dir;
use crate::second_look::look_again;
use crate::writing::{TreeFile, write_file};
use block_chunker::Cuts;
use folder_side::{Folder, Scan, Seen};
use ids::IdList;
use remote_calls::Remote;
use std::alloc::Global;
use sync_rules::SyncFault;
use tree_model::Path;

/// What is written at a path.
#[derive(Drop)]
pub struct Write {
    pub path: Path,
    pub node: WriteNode,
}

/// A directory, or a file with what its object says.
#[derive(Drop)]
pub enum WriteNode {
    Dir,
    File(TreeFile),
}

/// Removes paths one after another. Each is looked at again before.
pub(crate) fn remove_all<F: Folder>(
    alloc: Global,
    folder: &mut F,
    scan: &Scan,
    doomed: &[Path],
    cuts: Cuts,
    buffer: &mut [u8],
) -> Result<(), SyncFault>
    requires some { 0 < length buffer.old }
    requires fits { length buffer.old ≤ PIECE }
    ensures ok { OnOk result (RemovesAll doomed.now (F.told folder.old) (F.told folder.new)) }
    ensures err { IfErr result (RemovesFront doomed.now scan.now cuts (F.told folder.old) (F.told folder.new)) }
    ensures cause { IfErr result (λ f. is_path_fault f ≡ true) }
    ensures same { (c : Contents) → F.told folder.old ≡ Some c → IsDistinct (eq_by_cmp path_cmp) doomed.now
        → AllByRecursion (LooksFirst cuts c scan.now) doomed.now → IfErr result (λ f. is_change f ≡ false) }
    ensures found { (c : Contents) → F.told folder.old ≡ Some c → IsDistinct (eq_by_cmp path_cmp) doomed.now → OnOk result (AllByRecursion (LooksFirst cuts c scan.now) doomed.now) }
    ensures touches { Touches cuts scan.now (F.trace folder.old) (F.trace folder.new) }
    ensures faults { FailsBy is_folder_fault (F.faults folder.old) (F.faults folder.new) result }
{
    for path in doomed {
        match remove_one(alloc, folder, scan, path, cuts, buffer) {
            Ok(()) => {}
            Err(fault) => return Err(fault),
        }
    }
    Ok(())
}

/// Looks at a path again, and removes it.
fn remove_one<F: Folder>(
    alloc: Global,
    folder: &mut F,
    scan: &Scan,
    path: &Path,
    cuts: Cuts,
    buffer: &mut [u8],
) -> Result<(), SyncFault>
    requires some { 0 < length buffer.old }
    requires fits { length buffer.old ≤ PIECE }
    ensures value { Changes (without path.now) (F.told folder.old) (F.told folder.new) result }
    ensures cause { IfErr result (IsLookFault cuts (F.told folder.old) path.now (fin.get scan.now.paths path.now)) }
    ensures untouched { IfErr result (λ f. is_change f ≡ true → F.told folder.new ≡ F.told folder.old) }
    ensures found { (c : Contents) → F.told folder.old ≡ Some c → OnOk result (LooksFirst cuts c scan.now path.now) }
    ensures touches { Touches cuts scan.now (F.trace folder.old) (F.trace folder.new) }
    ensures faults { FailsBy is_folder_fault (F.faults folder.old) (F.faults folder.new) result }
{
    match look_again(alloc, folder, path, scan.paths.get(path), cuts, buffer) {
        Ok(()) => {}
        Err(fault) => return Err(fault),
    }
    match folder.remove(path) {
        Ok(()) => Ok(()),
        Err(fault) => Err(folder_fault(fault)),
    }
}

/// Makes directories and moves files in, one after another, each at its path, and notes the own id of each file.
pub(crate) fn write_all<F: Folder, R: Remote>(
    alloc: Global,
    folder: &mut F,
    remote: &mut R,
    source: &Source,
    scan: &Scan,
    writes: &[Write],
    cuts: Cuts,
    buffer: &mut [u8],
    owns: &mut IdList,
) -> Result<(), SyncFault>
    requires some { 0 < length buffer.old }
    requires fits { length buffer.old ≤ PIECE }
    ensures ok { OnOk result (WritesAll source.now writes.now cuts (R.sends remote.old) (R.sends remote.new) (F.told folder.old) (F.told folder.new) owns.old owns.new) }
    ensures err { IfErr result (StopsWrites source.now writes.now scan.now cuts (R.sends remote.old) (R.sends remote.new) (F.told folder.old) (F.told folder.new)) }
    ensures same { (c : Contents) → F.told folder.old ≡ Some c → IsDistinct (eq_by_cmp path_cmp) (paths_of writes.now)
        → AllByRecursion (LooksUnwritten cuts c scan.now) writes.now → IfErr result (λ f. is_change f ≡ false) }
    ensures found { (c : Contents) → F.told folder.old ≡ Some c → IsDistinct (eq_by_cmp path_cmp) (paths_of writes.now)
        → OnOk result (AllByRecursion (LooksUnwritten cuts c scan.now) writes.now) }
    ensures touches { Touches cuts scan.now (F.trace folder.old) (F.trace folder.new) }
    ensures stays { R.peer remote.new ≡ R.peer remote.old }
    ensures faults { FailsBy is_folder_fault (F.faults folder.old) (F.faults folder.new) result }
{
    for write in writes {
        match write_one(
            alloc, folder, remote, source, scan, write, cuts, buffer, owns,
        ) {
            Ok(()) => {}
            Err(fault) => return Err(fault),
        }
    }
    Ok(())
}

/// Makes a directory, or moves a file in and notes its own id.
fn write_one<F: Folder, R: Remote>(
    alloc: Global,
    folder: &mut F,
    remote: &mut R,
    source: &Source,
    scan: &Scan,
    write: &Write,
    cuts: Cuts,
    buffer: &mut [u8],
    owns: &mut IdList,
) -> Result<(), SyncFault>
    requires some { 0 < length buffer.old }
    requires fits { length buffer.old ≤ PIECE }
    ensures ok { OnOk result (WritesOne source.now write.now.path write.now.node cuts
        (R.sends remote.old) (R.sends remote.new) (F.told folder.old) (F.told folder.new) owns.old owns.new) }
    ensures err { IfErr result (StopsOne source.now write.now.path write.now.node scan.now cuts
        (R.sends remote.old) (R.sends remote.new) (F.told folder.old) (F.told folder.new)) }
    ensures found { (c : Contents) → F.told folder.old ≡ Some c → OnOk result (LooksUnwritten cuts c scan.now write.now) }
    ensures touches { Touches cuts scan.now (F.trace folder.old) (F.trace folder.new) }
    ensures stays { R.peer remote.new ≡ R.peer remote.old }
    ensures faults { FailsBy is_folder_fault (F.faults folder.old) (F.faults folder.new) result }
{
    match &write.node {
        WriteNode::Dir => make_dir(alloc, folder, &write.path, cuts, buffer),
        WriteNode::File(file) => write_file(
            alloc,
            folder,
            remote,
            source,
            file,
            &write.path,
            file_seen(scan, &write.path),
            cuts,
            buffer,
            owns,
        ),
    }
}

/// Looks whether nothing stands at a path, and makes a directory there.
fn make_dir<F: Folder>(
    alloc: Global,
    folder: &mut F,
    path: &Path,
    cuts: Cuts,
    buffer: &mut [u8],
) -> Result<(), SyncFault>
    requires some { 0 < length buffer.old }
    requires fits { length buffer.old ≤ PIECE }
    ensures value { Changes (with_dir path.now) (F.told folder.old) (F.told folder.new) result }
    ensures cause { IfErr result (IsLookFault cuts (F.told folder.old) path.now None) }
    ensures untouched { IfErr result (λ f. is_change f ≡ true → F.told folder.new ≡ F.told folder.old) }
    ensures found { (c : Contents) → F.told folder.old ≡ Some c → OnOk result (LooksAs cuts (at c path.now) None) }
    ensures touches { (scan : Scan) → Touches cuts scan (F.trace folder.old) (F.trace folder.new) }
    ensures faults { FailsBy is_folder_fault (F.faults folder.old) (F.faults folder.new) result }
{
    match look_again(alloc, folder, path, None, cuts, buffer) {
        Ok(()) => {}
        Err(fault) => return Err(fault),
    }
    match folder.make_dir(path) {
        Ok(()) => Ok(()),
        Err(fault) => Err(folder_fault(fault)),
    }
}

/// The file that was seen at a path, if one was. What else was seen there is gone by then.
fn file_seen<'a>(scan: &'a Scan, path: &Path) -> Option<&'a Seen>
    ensures value { option_copied result ≡ file_seen (fin.get scan.now.paths path.now) }
{
    match scan.paths.get(path) {
        None => None,
        Some(seen) => { if is_dir(seen) { None } else { Some(seen) } }
    }
}
