//! A file of a tree, got block by block into the spare and moved to its path.
ghost use Rattle.std.specs.Prelude.{◌≡◌, ◌==◌, ◌&&◌, ◌<◌, ◌≤◌, ◌++◌, ◌∷◌, [], IfErr, IfOk, OnOk, Some, false, length, map as list_map, option_copied};
ghost use Rattle.std.specs.FinMap as fin;
ghost use Rattle.block_chunker.specs.ChunkBoundaries.{last_chunk};
ghost use Rattle.folder_side.specs.Folder.{Contents, at};
ghost use Rattle.ids.specs.FaultCount.{FailsBy};
ghost use Rattle.folder_side.specs.declared.folder_scan.TheConstants.{PIECE};
ghost use Rattle.folder_side.specs.declared.scan_report.Scan.{Scan};
ghost use Rattle.local_index.specs.OwnIds.{own_id};
ghost use Rattle.sha1.specs.Sha1.{sha1};
ghost use Rattle.sync_rules.specs.Causes.{is_folder_fault};
ghost use Rattle.sync_rules.specs.declared.fault.SyncFault.TheVariants as fault;
ghost use Rattle.tree_walk.specs.declared.fault.WalkFault.TheVariants as walk;
ghost use Rattle.tree_checkout.specs.SecondLook.{LooksAs, file_seen};
ghost use Rattle.tree_checkout.specs.Touches.{Touches, TouchesNone};
ghost use Rattle.tree_checkout.specs.Writing.{AddsOne, FailsToAdd, Fills, IsOneChunk, StopsFilling, StopsWriting, Writes};

use crate::block_gets::{Source, get_block};
use crate::fault::folder_fault;
use crate::second_look::look_again;
use block_chunker::{Chunker, Cuts};
use folder_side::{Folder, Seen, end_file, take_piece};
use fs_objects::FileObject;
use ids::{IdList, Items, ObjId};
use local_index::own_id;
use remote_calls::Remote;
use std::alloc::{AllocError, Global};
use sync_rules::SyncFault;
use tree_model::Path;
use tree_walk::WalkFault;

/// A file of a tree: the id of its object, and what that says. An empty file has forty zeros and no block.
#[derive(Drop)]
pub struct TreeFile {
    pub id: ObjId,
    pub object: FileObject,
}

/// Gets a file into the spare, durably, looks at its path again, and moves it there. At most one block of it is in memory.
///
/// `first` is what is to be there, and `buffer` is what a file there is read with. The id that these cuts give to its bytes is
/// noted in `owns`.
pub(crate) fn write_file<F: Folder, R: Remote>(
    alloc: Global,
    folder: &mut F,
    remote: &mut R,
    source: &Source,
    file: &TreeFile,
    path: &Path,
    first: Option<&Seen>,
    cuts: Cuts,
    buffer: &mut [u8],
    owns: &mut IdList,
) -> Result<(), SyncFault>
    requires some { 0 < length buffer.old }
    requires fits { length buffer.old ≤ PIECE }
    ensures ok { OnOk result (Writes source.now file.now path.now cuts (R.sends remote.old) (R.sends remote.new) (F.told folder.old) (F.told folder.new) owns.old owns.new) }
    ensures err { IfErr result (StopsWriting source.now file.now path.now cuts (option_copied first.entry)
        (R.sends remote.old) (R.sends remote.new) (F.told folder.old) (F.told folder.new)) }
    ensures found { (c : Contents) → F.told folder.old ≡ Some c → OnOk result (LooksAs cuts (at c path.now) (option_copied first.entry)) }
    ensures touches { (scan : Scan) → option_copied first.entry ≡ file_seen (fin.get scan.paths path.now) → Touches cuts scan (F.trace folder.old) (F.trace folder.new) }
    ensures stays { R.peer remote.new ≡ R.peer remote.old }
    ensures faults { FailsBy is_folder_fault (F.faults folder.old) (F.faults folder.new) result }
{
    match fill_spare(alloc, folder, remote, source, file, cuts, owns) {
        Ok(()) => {}
        Err(fault) => return Err(fault),
    }
    match folder.spare_sync() {
        Ok(()) => {}
        Err(fault) => return Err(folder_fault(fault)),
    }
    match look_again(alloc, folder, path, first, cuts, buffer) {
        Ok(()) => {}
        Err(fault) => return Err(fault),
    }
    match folder.spare_move(path) {
        Ok(()) => Ok(()),
        Err(fault) => Err(folder_fault(fault)),
    }
}

/// Empties the spare and gets the blocks of a file into it, one after another, and notes the own id of what came.
///
/// `BadTree` by `WrongSize` where they don't add up to the size that the file's object tells: as soon as there are more bytes,
/// or at the end where there are fewer.
fn fill_spare<F: Folder, R: Remote>(
    alloc: Global,
    folder: &mut F,
    remote: &mut R,
    source: &Source,
    file: &TreeFile,
    cuts: Cuts,
    owns: &mut IdList,
) -> Result<(), SyncFault>
    ensures ok { OnOk result (Fills source.now file.now cuts (R.sends remote.old) (R.sends remote.new) (F.told folder.old) (F.spare folder.new) owns.old owns.new) }
    ensures err { IfErr result (StopsFilling source.now file.now (R.sends remote.old) (R.sends remote.new)) }
    ensures untouched { F.told folder.new ≡ F.told folder.old }
    ensures traced { TouchesNone (F.trace folder.old) (F.trace folder.new) }
    ensures stays { R.peer remote.new ≡ R.peer remote.old }
    ensures faults { FailsBy is_folder_fault (F.faults folder.old) (F.faults folder.new) result }
{
    match folder.spare_clear() {
        Ok(()) => {}
        Err(fault) => return Err(folder_fault(fault)),
    }
    let mut chunker = Chunker::new(alloc, cuts);
    let mut names = Items::new(alloc);
    let mut left = file.object.size;
    for block in file.object.blocks.slice() {
        match add_block(
            alloc,
            folder,
            remote,
            source,
            &file.id,
            block,
            left,
            &mut chunker,
            &mut names,
        ) {
            Ok(rest) => left = rest,
            Err(fault) => return Err(fault),
        }
    }
    if left == 0 {
        let blocks = file.object.blocks.slice();
        return match note_own(alloc, chunker, names, blocks, file.object.size, owns) {
            Ok(()) => Ok(()),
            Err(AllocError) => Err(SyncFault::NoMemory),
        };
    }
    Err(wrong_size(&file.id))
}

/// Notes the own id of a file of these blocks, of whose chunks all but the last are named.
fn note_own(
    alloc: Global,
    chunker: Chunker,
    names: IdList,
    blocks: &[ObjId],
    size: u64,
    owns: &mut IdList,
) -> Result<(), AllocError>
    requires ready { chunker.failed ≡ false }
    requires one { IsOneChunk names blocks.now size chunker.begun }
    ensures ok { OnOk result (owns.new ≡ owns.old ++ own_id (names ++ list_map sha1 (last_chunk chunker.begun)) size ∷ []) }
{
    let own = file_own(alloc, chunker, names, blocks, size)?;
    owns.push(own)
}

/// The own id of a file. Where it has one block and no chunk ended in it, that is its one chunk, and isn't named again.
fn file_own(
    alloc: Global,
    chunker: Chunker,
    names: IdList,
    blocks: &[ObjId],
    size: u64,
) -> Result<ObjId, AllocError>
    requires ready { chunker.failed ≡ false }
    requires one { IsOneChunk names blocks.now size chunker.begun }
    ensures value { IfOk result (λ own. own ≡ own_id (names ++ list_map sha1 (last_chunk chunker.begun)) size) }
{
    if is_one(&names, blocks) {
        return own_id(alloc, blocks, size);
    }
    let read = end_file(chunker, names, size)?;
    let own = own_id(alloc, read.blocks.slice(), read.size)?;
    Ok(own)
}

/// Whether no chunk is named, and there is one block.
fn is_one(names: &IdList, blocks: &[ObjId]) -> bool
    ensures value { result ≡ ((length names.now == 0) && (length blocks.now == 1)) }
{
    names.is_empty() && blocks.len() == 1
}

/// Gets a block, appends it to the spare, where at most `left` bytes are due, and hands it to the chunker; and tells how many bytes
/// are due behind it.
fn add_block<F: Folder, R: Remote>(
    alloc: Global,
    folder: &mut F,
    remote: &mut R,
    source: &Source,
    file: &ObjId,
    block: &ObjId,
    left: u64,
    chunker: &mut Chunker,
    names: &mut IdList,
) -> Result<u64, SyncFault>
    ensures ok { IfOk result (AddsOne source.now block.now left (R.sends remote.old) (R.sends remote.new) (F.spare folder.old) (F.spare folder.new)
        chunker.old chunker.new names.old names.new) }
    ensures err { IfErr result (FailsToAdd source.now file.now block.now left (R.sends remote.old) (R.sends remote.new)) }
    ensures untouched { F.told folder.new ≡ F.told folder.old }
    ensures traced { TouchesNone (F.trace folder.old) (F.trace folder.new) }
    ensures stays { R.peer remote.new ≡ R.peer remote.old }
    ensures faults { FailsBy is_folder_fault (F.faults folder.old) (F.faults folder.new) result }
{
    let bytes = match get_block(alloc, remote, source, block) {
        Ok(bytes) => bytes,
        Err(fault) => return Err(fault),
    };
    let size = bytes.len() as u64;
    if left < size {
        return Err(wrong_size(file));
    }
    match folder.spare_add(bytes.slice()) {
        Ok(()) => {}
        Err(fault) => return Err(folder_fault(fault)),
    }
    match take_piece(alloc, chunker, names, bytes.slice()) {
        Ok(()) => Ok(left - size),
        Err(AllocError) => Err(SyncFault::NoMemory),
    }
}

/// The blocks of a file have another size than its object tells.
fn wrong_size(id: &ObjId) -> SyncFault
    ensures value { result ≡ fault.BadTree (walk.WrongSize id.now) }
{
    SyncFault::BadTree(WalkFault::WrongSize(*id))
}
