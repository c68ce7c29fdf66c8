//! A second look at a path, before it is touched.
ghost use Rattle.std.specs.Prelude.{◌≡◌, ◌<◌, ◌≤◌, ◌↔◌, ◌∷◌, [], ℕ, List, Option, IsTrue, IfErr, IfOk, OnOk, Some, length, option_copied};
ghost use Rattle.std.specs.Option.{option_map};
ghost use Rattle.ids.specs.FaultCount.{FailsBy};
ghost use Rattle.folder_side.specs.Calls.{Call, Looked, with_calls};
ghost use Rattle.folder_side.specs.FileRead.{ReadsFile};
ghost use Rattle.folder_side.specs.Folder.{Contents, FolderFails, at, kind_of};
ghost use Rattle.folder_side.specs.declared.folder_scan.TheConstants.{PIECE};
ghost use Rattle.folder_side.specs.declared.holding.Holding.TheVariants.{File};
ghost use Rattle.sync_rules.specs.Causes.{is_folder_fault};
ghost use Rattle.tree_checkout.specs.Touches.{ComparesIf, LooksIf, LooksSo, ReadsIf};
ghost use Rattle.tree_checkout.specs.SecondLook.{IsChange, IsLookFault, LooksAs, is_dir_kind, is_file_kind};

use crate::fault::folder_fault;
use block_chunker::Cuts;
use folder_side::{FileRead, Folder, FolderFault, ItemKind, ReadFault, Seen, read_file};
use ids::ObjId;
use std::alloc::{AllocError, Global};
use sync_rules::SyncFault;
use tree_model::Path;

/// Whether there stands at a path what was seen there first; a file is read and cut again.
///
/// `Folder` where the folder failed, and `Changed` where something else stands there. The folder isn't changed.
pub(crate) fn look_again<F: Folder>(
    alloc: Global,
    folder: &mut F,
    path: &Path,
    first: Option<&Seen>,
    cuts: Cuts,
    buffer: &mut [u8],
) -> Result<(), SyncFault>
    requires some { 0 < length buffer.old }
    requires fits { length buffer.old ≤ PIECE }
    ensures same { (c : Contents) → F.told folder.old ≡ Some c → OnOk result (LooksAs cuts (at c path.now) (option_copied first.entry)) }
    ensures cause { IfErr result (IsLookFault cuts (F.told folder.old) path.now (option_copied first.entry)) }
    ensures stays { (F.told folder.new ≡ F.told folder.old) × (F.spare folder.new ≡ F.spare folder.old) }
    ensures traced { LooksSo cuts (option_copied first.entry) path.now (F.trace folder.old) (F.trace folder.new) result }
    ensures faults { FailsBy is_folder_fault (F.faults folder.old) (F.faults folder.new) result }
{
    let same = match looks_as(alloc, folder, path, first, cuts, buffer) {
        Ok(same) => same,
        Err(fault) => return Err(folder_fault(fault)),
    };
    if same {
        return Ok(());
    }
    Err(changed(alloc, path))
}

/// What stands at a path was changed.
fn changed(alloc: Global, path: &Path) -> SyncFault
    ensures value { IsChange path.now result }
{
    match path.copy(alloc) {
        Ok(path) => SyncFault::Changed(path),
        Err(AllocError) => SyncFault::NoMemory,
    }
}

fn looks_as<F: Folder>(
    alloc: Global,
    folder: &mut F,
    path: &Path,
    first: Option<&Seen>,
    cuts: Cuts,
    buffer: &mut [u8],
) -> Result<bool, FolderFault>
    requires some { 0 < length buffer.old }
    requires fits { length buffer.old ≤ PIECE }
    ensures value { (c : Contents) → F.told folder.old ≡ Some c → IfOk result (λ same. IsTrue same ↔ LooksAs cuts (at c path.now) (option_copied first.entry)) }
    ensures stays { (F.told folder.new ≡ F.told folder.old) × (F.spare folder.new ≡ F.spare folder.old) }
    ensures traced { LooksIf cuts (option_copied first.entry) path.now (F.trace folder.old) (F.trace folder.new) result }
    ensures faults { FolderFails (F.faults folder.old) (F.faults folder.new) result }
{
    let kind = match folder.look(path) {
        Ok(kind) => kind,
        Err(fault) => return Err(fault),
    };
    match first {
        None => Ok(kind.is_none()),
        Some(seen) => looks_as_seen(alloc, folder, path, kind, seen, cuts, buffer),
    }
}

/// The same of a path at which something was seen and now this kind stands.
fn looks_as_seen<F: Folder>(
    alloc: Global,
    folder: &mut F,
    path: &Path,
    kind: Option<ItemKind>,
    seen: &Seen,
    cuts: Cuts,
    buffer: &mut [u8],
) -> Result<bool, FolderFault>
    requires some { 0 < length buffer.old }
    requires fits { length buffer.old ≤ PIECE }
    ensures value { (c : Contents) → F.told folder.old ≡ Some c → kind ≡ option_map kind_of (at c path.now)
        → IfOk result (λ same. IsTrue same ↔ LooksAs cuts (at c path.now) (Some seen.now)) }
    ensures stays { (F.told folder.new ≡ F.told folder.old) × (F.spare folder.new ≡ F.spare folder.old) }
    ensures traced { (before : Option (List Call)) → F.trace folder.old ≡ with_calls before (Looked path.now kind ∷ [])
        → LooksIf cuts (Some seen.now) path.now before (F.trace folder.new) result }
    ensures faults { FolderFails (F.faults folder.old) (F.faults folder.new) result }
{
    match seen {
        Seen::Dir => Ok(is_dir(kind)),
        Seen::File { blocks, size } => {
            if !is_file(kind) {
                return Ok(false);
            }
            is_same_file(alloc, folder, path, blocks.slice(), *size, cuts, buffer)
        }
    }
}

/// Whether a directory stands there.
fn is_dir(kind: Option<ItemKind>) -> bool
    ensures value { result ≡ is_dir_kind kind }
{
    match kind {
        Some(ItemKind::Dir) => true,
        Some(ItemKind::File) => false,
        Some(ItemKind::Other) => false,
        None => false,
    }
}

/// Whether a file stands there.
fn is_file(kind: Option<ItemKind>) -> bool
    ensures value { result ≡ is_file_kind kind }
{
    match kind {
        Some(ItemKind::Dir) => false,
        Some(ItemKind::File) => true,
        Some(ItemKind::Other) => false,
        None => false,
    }
}

/// Whether a file still has these chunks and this size, and was as it is all the while that it was read.
fn is_same_file<F: Folder>(
    alloc: Global,
    folder: &mut F,
    path: &Path,
    blocks: &[ObjId],
    size: u64,
    cuts: Cuts,
    buffer: &mut [u8],
) -> Result<bool, FolderFault>
    requires some { 0 < length buffer.old }
    requires fits { length buffer.old ≤ PIECE }
    ensures value { (c : Contents) (bytes : List ℕ) → F.told folder.old ≡ Some c → at c path.now ≡ Some (File bytes)
        → IfOk result (λ same. IsTrue same ↔ ReadsFile cuts bytes (record { blocks = blocks.now; size = size })) }
    ensures stays { (F.told folder.new ≡ F.told folder.old) × (F.spare folder.new ≡ F.spare folder.old) }
    ensures traced { ComparesIf cuts path.now blocks.now size (F.trace folder.old) (F.trace folder.new) result }
    ensures faults { FolderFails (F.faults folder.old) (F.faults folder.new) result }
{
    match reads_as(alloc, folder, path, blocks, size, cuts, buffer) {
        Ok(true) => folder.is_as_opened(path),
        Ok(false) => Ok(false),
        Err(fault) => Err(fault),
    }
}

/// Reads a file, and tells whether it has these chunks and this size.
fn reads_as<F: Folder>(
    alloc: Global,
    folder: &mut F,
    path: &Path,
    blocks: &[ObjId],
    size: u64,
    cuts: Cuts,
    buffer: &mut [u8],
) -> Result<bool, FolderFault>
    requires some { 0 < length buffer.old }
    requires fits { length buffer.old ≤ PIECE }
    ensures value { (c : Contents) (bytes : List ℕ) → F.told folder.old ≡ Some c → at c path.now ≡ Some (File bytes)
        → IfOk result (λ same. IsTrue same ↔ ReadsFile cuts bytes (record { blocks = blocks.now; size = size })) }
    ensures stays { (F.told folder.new ≡ F.told folder.old) × (F.spare folder.new ≡ F.spare folder.old) }
    ensures traced { ReadsIf cuts path.now blocks.now size (F.trace folder.old) (F.trace folder.new) result }
    ensures faults { FolderFails (F.faults folder.old) (F.faults folder.new) result }
{
    match read_file(alloc, folder, path, cuts, buffer) {
        Ok(read) => Ok(is_same_read(&read, blocks, size)),
        Err(ReadFault::TooBig) => Ok(false),
        Err(ReadFault::Gone) => Ok(false),
        Err(ReadFault::Folder) => Err(FolderFault::Folder),
        Err(ReadFault::NoMemory) => Err(FolderFault::NoMemory),
    }
}

/// Whether what was read has these chunks and this size.
fn is_same_read(read: &FileRead, blocks: &[ObjId], size: u64) -> bool
    ensures value { IsTrue result ↔ (read.now ≡ record { blocks = blocks.now; size = size }) }
{
    read.size == size && are_one(read.blocks.slice(), blocks)
}

/// Whether two lists have the same ids in the same order.
fn are_one(left: &[ObjId], right: &[ObjId]) -> bool
    ensures value { IsTrue result ↔ (left.now ≡ right.now) }
{
    left == right
}
