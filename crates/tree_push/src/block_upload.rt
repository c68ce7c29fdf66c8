//! The blocks of a file that are lacking, read again and put.
ghost use Rattle.std.specs.Prelude.{◌≡◌, ◌<◌, ◌≤◌, [], ◌∷◌, ◌++◌, ℕ, List, Some, IfErr, IfNone, IfOk, IfSome, OnOk, drop, length, map as list_map, false};
ghost use Rattle.std.specs.Option.{option_to_list};
ghost use Rattle.std.specs.Str.{bytes_eq};
ghost use Rattle.ids.specs.FaultCount.{FailsBy};
ghost use Rattle.sha1.specs.Sha1.{sha1};
ghost use Rattle.block_chunker.specs.ChunkBoundaries.{last_chunk};
ghost use Rattle.block_chunker.specs.ChunkerProgress.{after_piece, finished_by};
ghost use Rattle.folder_side.specs.Calls.{Glances};
ghost use Rattle.folder_side.specs.Folder.{Contents, IsPart, PartAt, at};
ghost use Rattle.folder_side.specs.ScanReport.{block_names};
ghost use Rattle.folder_side.specs.declared.holding.Holding.TheVariants.{File};
ghost use Rattle.folder_side.specs.declared.scan_report.Seen.TheVariants as seen;
ghost use Rattle.sync_rules.specs.Causes.{is_folder_fault};
ghost use Rattle.tree_push.specs.Asking.{IsOrderFault, Went, PutsAmong};
ghost use Rattle.tree_push.specs.Lacking.{has_key};
ghost use Rattle.tree_push.specs.SentOnce.{TakesOnce};
ghost use Rattle.tree_push.specs.BlockUpload.{IsChange, IsFileFault, IsPutFault, IsReadFault, NotChanged, PutsOff, StandsThere, folder_fault};

use crate::asking::Library;
use crate::lacking::blocks_ahead;
use crate::puts::put_block;
use block_chunker::{Chunker, Cuts};
use folder_side::{Folder, FolderFault};
use ids::{Bytes, Items, Key, KeyTable, Kind, ObjId};
use remote_calls::Remote;
use std::alloc::{AllocError, Global};
use sync_rules::SyncFault;
use tree_model::Path;

/// Reads a file of this size again, and puts each of its chunks that is lacking, as it comes. None of these names is lacking
/// afterwards.
///
/// `Folder` where the folder failed, `Remote` and `Refused` by the last order, and `Changed` where the file is shorter or longer or has
/// other chunks than those of these names. No more of it is in memory than one chunk and two pieces. After an error some may be put.
pub fn put_blocks<F: Folder, R: Remote>(
    alloc: Global,
    folder: &mut F,
    remote: &mut R,
    library: &Library,
    path: &Path,
    blocks: &[ObjId],
    size: u64,
    cuts: Cuts,
    buffer: &mut [u8],
    lacking: &mut KeyTable<()>,
) -> Result<(), SyncFault>
    requires some { 0 < length buffer.old }
    ensures value { Went library.now (PutsAmong (has_key lacking.old)) (PutsOff blocks.now lacking.old lacking.new) (R.sends remote.old) (R.sends remote.new) result }
    ensures once { TakesOnce lacking.old lacking.new (R.sends remote.old) (R.sends remote.new) }
    ensures same { (c : Contents) → F.told folder.old ≡ Some c → OnOk result (StandsThere cuts c path.now (seen.File blocks.now size)) }
    ensures cause { (c : Contents) (bytes : List ℕ) → F.told folder.old ≡ Some c → at c path.now ≡ Some (File bytes) → blocks.now ≡ block_names cuts bytes
        → size ≡ length bytes → NotChanged result }
    ensures stays { (F.told folder.new ≡ F.told folder.old) × (F.spare folder.new ≡ F.spare folder.old) × (R.peer remote.new ≡ R.peer remote.old) }
    ensures traced { Glances (F.trace folder.old) (F.trace folder.new) }
    ensures faults { FailsBy is_folder_fault (F.faults folder.old) (F.faults folder.new) result }
    ensures bad { IfErr result (IsReadFault path.now) }
{
    let mut left = blocks;
    let mut chunker = Chunker::new(alloc, cuts);
    let mut place: u64 = 0;
    while place < size {
        folder.ahead(blocks_ahead(lacking));
        let count = match read_piece(alloc, folder, path, place, size - place, buffer) {
            Ok(count) => count,
            Err(fault) => return Err(fault),
        };
        match put_piece(
            alloc,
            remote,
            library,
            path,
            &mut chunker,
            &buffer[..count],
            left,
            lacking,
        ) {
            Ok(rest) => left = rest,
            Err(fault) => return Err(fault),
        }
        place += count as u64;
    }
    match meet_end(alloc, folder, path, place, buffer) {
        Ok(()) => {}
        Err(fault) => return Err(fault),
    }
    put_last(alloc, remote, library, path, chunker, left, lacking)
}

/// Reads bytes of a file from a place on: 1 to `most`, of which it has had at least one. Where it has more, or is gone before its
/// start is read, it was changed.
fn read_piece<F: Folder>(
    alloc: Global,
    folder: &mut F,
    path: &Path,
    place: u64,
    most: u64,
    buffer: &mut [u8],
) -> Result<usize, SyncFault>
    requires some { 0 < length buffer.old }
    requires left { 0 < most }
    ensures bound { IfOk result (λ count. (0 < count) × (count ≤ length buffer.new) × (count ≤ most)) }
    ensures ok { (c : Contents) (bytes : List ℕ) → F.told folder.old ≡ Some c → at c path.now ≡ Some (File bytes)
        → IfOk result (λ count. IsPart bytes place count buffer.new) }
    ensures cause { (c : Contents) (bytes : List ℕ) → F.told folder.old ≡ Some c → at c path.now ≡ Some (File bytes) → most ≡ length (drop place bytes) → NotChanged result }
    ensures stays { (F.told folder.new ≡ F.told folder.old) × (F.spare folder.new ≡ F.spare folder.old) }
    ensures traced { Glances (F.trace folder.old) (F.trace folder.new) }
    ensures faults { FailsBy is_folder_fault (F.faults folder.old) (F.faults folder.new) result }
    ensures bad { IfErr result (IsFileFault path.now) }
{
    if place > 0 {
        return read_on(alloc, folder, path, place, most, buffer);
    }
    match open(alloc, folder, path) {
        Ok(()) => read_on(alloc, folder, path, place, most, buffer),
        Err(fault) => Err(fault),
    }
}

/// Opens a file to read it. Where it is gone, it was changed.
fn open<F: Folder>(alloc: Global, folder: &mut F, path: &Path) -> Result<(), SyncFault>
    ensures cause { (c : Contents) (bytes : List ℕ) → F.told folder.old ≡ Some c → at c path.now ≡ Some (File bytes) → NotChanged result }
    ensures stays { (F.told folder.new ≡ F.told folder.old) × (F.spare folder.new ≡ F.spare folder.old) }
    ensures traced { Glances (F.trace folder.old) (F.trace folder.new) }
    ensures faults { FailsBy is_folder_fault (F.faults folder.old) (F.faults folder.new) result }
    ensures bad { IfErr result (IsFileFault path.now) }
{
    match folder.open_file(path) {
        Ok(true) => Ok(()),
        Ok(false) => Err(changed(alloc, path)),
        Err(fault) => Err(folder_fault(fault)),
    }
}

/// Reads bytes of a file that is open.
fn read_on<F: Folder>(
    alloc: Global,
    folder: &mut F,
    path: &Path,
    place: u64,
    most: u64,
    buffer: &mut [u8],
) -> Result<usize, SyncFault>
    requires some { 0 < length buffer.old }
    requires left { 0 < most }
    ensures bound { IfOk result (λ count. (0 < count) × (count ≤ length buffer.new) × (count ≤ most)) }
    ensures ok { (c : Contents) (bytes : List ℕ) → F.told folder.old ≡ Some c → at c path.now ≡ Some (File bytes)
        → IfOk result (λ count. IsPart bytes place count buffer.new) }
    ensures cause { (c : Contents) (bytes : List ℕ) → F.told folder.old ≡ Some c → at c path.now ≡ Some (File bytes) → most ≡ length (drop place bytes) → NotChanged result }
    ensures stays { (F.told folder.new ≡ F.told folder.old) × (F.spare folder.new ≡ F.spare folder.old) }
    ensures traced { Glances (F.trace folder.old) (F.trace folder.new) }
    ensures faults { FailsBy is_folder_fault (F.faults folder.old) (F.faults folder.new) result }
    ensures bad { IfErr result (IsFileFault path.now) }
{
    let count = match folder.read(path, place, buffer) {
        Ok(count) => count,
        Err(fault) => return Err(folder_fault(fault)),
    };
    if count == 0 || count as u64 > most {
        return Err(changed(alloc, path));
    }
    Ok(count)
}

/// That a file ends at this place: it has no byte from there on. Where it has one, it was changed.
fn meet_end<F: Folder>(
    alloc: Global,
    folder: &mut F,
    path: &Path,
    place: u64,
    buffer: &mut [u8],
) -> Result<(), SyncFault>
    requires some { 0 < length buffer.old }
    ensures ok { (c : Contents) → F.told folder.old ≡ Some c → OnOk result (PartAt (at c path.now) place 0 buffer.new) }
    ensures cause { (c : Contents) (bytes : List ℕ) → F.told folder.old ≡ Some c → at c path.now ≡ Some (File bytes) → place ≡ length bytes → NotChanged result }
    ensures stays { (F.told folder.new ≡ F.told folder.old) × (F.spare folder.new ≡ F.spare folder.old) }
    ensures traced { Glances (F.trace folder.old) (F.trace folder.new) }
    ensures faults { FailsBy is_folder_fault (F.faults folder.old) (F.faults folder.new) result }
    ensures bad { IfErr result (IsFileFault path.now) }
{
    match folder.read(path, place, buffer) {
        Ok(0) => Ok(()),
        Ok(_) => Err(changed(alloc, path)),
        Err(fault) => Err(folder_fault(fault)),
    }
}

/// Feeds a piece of a file to its chunker, and puts those chunks that end in it and are lacking. What is left of the names is
/// given.
fn put_piece<'a, R: Remote>(
    alloc: Global,
    remote: &mut R,
    library: &Library,
    path: &Path,
    chunker: &mut Chunker,
    piece: &[u8],
    left: &'a [ObjId],
    lacking: &mut KeyTable<()>,
) -> Result<&'a [ObjId], SyncFault>
    ensures value { Went library.now (PutsAmong (has_key lacking.old)) (PutsOff (list_map sha1 (finished_by chunker.old piece.now)) lacking.old lacking.new) (R.sends remote.old) (R.sends remote.new) result }
    ensures once { TakesOnce lacking.old lacking.new (R.sends remote.old) (R.sends remote.new) }
    ensures ok { OnOk result (chunker.new ≡ after_piece chunker.old piece.now) }
    ensures rest { IfOk result (λ rest. left.now ≡ list_map sha1 (finished_by chunker.old piece.now) ++ rest.now) }
    ensures cause { (rest : List (List ℕ)) → left.now ≡ list_map sha1 (finished_by chunker.old piece.now) ++ rest → NotChanged result }
    ensures faults { IfErr result (IsPutFault path.now) }
    ensures stays { R.peer remote.new ≡ R.peer remote.old }
{
    let mut chunks = Items::new(alloc);
    match chunker.feed(piece, &mut chunks) {
        Ok(()) => {}
        Err(AllocError) => return Err(SyncFault::NoMemory),
    }
    put_chunks(alloc, remote, library, path, chunks, left, lacking)
}

/// Puts those of the chunks that are lacking; their names are those in front of what is left.
fn put_chunks<'a, R: Remote>(
    alloc: Global,
    remote: &mut R,
    library: &Library,
    path: &Path,
    chunks: Items<Bytes>,
    left: &'a [ObjId],
    lacking: &mut KeyTable<()>,
) -> Result<&'a [ObjId], SyncFault>
    ensures value { Went library.now (PutsAmong (has_key lacking.old)) (PutsOff (list_map sha1 chunks) lacking.old lacking.new) (R.sends remote.old) (R.sends remote.new) result }
    ensures once { TakesOnce lacking.old lacking.new (R.sends remote.old) (R.sends remote.new) }
    ensures rest { IfOk result (λ rest. left.now ≡ list_map sha1 chunks ++ rest.now) }
    ensures cause { (rest : List (List ℕ)) → left.now ≡ list_map sha1 chunks ++ rest → NotChanged result }
    ensures faults { IfErr result (IsPutFault path.now) }
    ensures stays { R.peer remote.new ≡ R.peer remote.old }
{
    let mut waiting = chunks.into_vec();
    waiting.reverse();
    let mut rest = left;
    while let Some(chunk) = waiting.pop() {
        match put_chunk(alloc, remote, library, path, chunk, rest, lacking) {
            Ok(behind) => rest = behind,
            Err(fault) => return Err(fault),
        }
    }
    Ok(rest)
}

/// The end of a file: its last chunk, which no cut ended, is that of the last name.
fn put_last<R: Remote>(
    alloc: Global,
    remote: &mut R,
    library: &Library,
    path: &Path,
    chunker: Chunker,
    left: &[ObjId],
    lacking: &mut KeyTable<()>,
) -> Result<(), SyncFault>
    requires ready { chunker.failed ≡ false }
    ensures value { Went library.now (PutsAmong (has_key lacking.old)) (PutsOff left.now lacking.old lacking.new) (R.sends remote.old) (R.sends remote.new) result }
    ensures once { TakesOnce lacking.old lacking.new (R.sends remote.old) (R.sends remote.new) }
    ensures rest { OnOk result (left.now ≡ list_map sha1 (last_chunk chunker.begun)) }
    ensures cause { left.now ≡ list_map sha1 (last_chunk chunker.begun) → NotChanged result }
    ensures faults { IfErr result (IsPutFault path.now) }
    ensures stays { R.peer remote.new ≡ R.peer remote.old }
{
    let last = match chunker.finish() {
        Ok(last) => last,
        Err(AllocError) => return Err(SyncFault::NoMemory),
    };
    let rest = match put_if(alloc, remote, library, path, last, left, lacking) {
        Ok(rest) => rest,
        Err(fault) => return Err(fault),
    };
    if !rest.is_empty() {
        return Err(changed(alloc, path));
    }
    Ok(())
}

/// Puts the chunk, if there is one.
fn put_if<'a, R: Remote>(
    alloc: Global,
    remote: &mut R,
    library: &Library,
    path: &Path,
    chunk: Option<Bytes>,
    left: &'a [ObjId],
    lacking: &mut KeyTable<()>,
) -> Result<&'a [ObjId], SyncFault>
    ensures value { Went library.now (PutsAmong (has_key lacking.old)) (PutsOff (list_map sha1 (option_to_list chunk)) lacking.old lacking.new) (R.sends remote.old) (R.sends remote.new) result }
    ensures once { TakesOnce lacking.old lacking.new (R.sends remote.old) (R.sends remote.new) }
    ensures rest { IfOk result (λ rest. left.now ≡ list_map sha1 (option_to_list chunk) ++ rest.now) }
    ensures cause { (rest : List (List ℕ)) → left.now ≡ list_map sha1 (option_to_list chunk) ++ rest → NotChanged result }
    ensures faults { IfErr result (IsPutFault path.now) }
    ensures stays { R.peer remote.new ≡ R.peer remote.old }
{
    match chunk {
        Some(chunk) => put_chunk(alloc, remote, library, path, chunk, left, lacking),
        None => Ok(left),
    }
}

/// Puts a chunk, if it is lacking; its name is the first that is left.
fn put_chunk<'a, R: Remote>(
    alloc: Global,
    remote: &mut R,
    library: &Library,
    path: &Path,
    chunk: Bytes,
    left: &'a [ObjId],
    lacking: &mut KeyTable<()>,
) -> Result<&'a [ObjId], SyncFault>
    ensures value { Went library.now (PutsAmong (has_key lacking.old)) (PutsOff (sha1 chunk ∷ []) lacking.old lacking.new) (R.sends remote.old) (R.sends remote.new) result }
    ensures once { TakesOnce lacking.old lacking.new (R.sends remote.old) (R.sends remote.new) }
    ensures rest { IfOk result (λ rest. left.now ≡ sha1 chunk ∷ rest.now) }
    ensures cause { (rest : List (List ℕ)) → left.now ≡ sha1 chunk ∷ rest → NotChanged result }
    ensures faults { IfErr result (IsPutFault path.now) }
    ensures stays { R.peer remote.new ≡ R.peer remote.old }
{
    let id = ObjId::of(chunk.slice());
    let Some(rest) = behind(left, &id) else {
        return Err(changed(alloc, path));
    };
    match put_lacking(alloc, remote, library, id, chunk, lacking) {
        Ok(()) => Ok(rest),
        Err(fault) => Err(fault),
    }
}

/// What stands behind an id, where that is the first.
fn behind<'a>(ids: &'a [ObjId], id: &ObjId) -> Option<&'a [ObjId]>
    ensures found { IfSome result (λ rest. ids.now ≡ id.now ∷ rest.now) }
    ensures none { IfNone result ((rest : List (List ℕ)) → ids.now ≡ id.now ∷ rest → ⊥) }
{
    match ids.split_first() {
        Some((first, rest)) => if is_same(first, id) { Some(rest) } else { None },
        None => None,
    }
}

fn is_same(first: &ObjId, id: &ObjId) -> bool
    ensures value { result ≡ bytes_eq first.now id.now }
{
    first == id
}

/// Puts a block, if it is lacking.
fn put_lacking<R: Remote>(
    alloc: Global,
    remote: &mut R,
    library: &Library,
    id: ObjId,
    chunk: Bytes,
    lacking: &mut KeyTable<()>,
) -> Result<(), SyncFault>
    requires named { sha1 chunk ≡ id }
    ensures value { Went library.now (PutsAmong (has_key lacking.old)) (PutsOff (id ∷ []) lacking.old lacking.new) (R.sends remote.old) (R.sends remote.new) result }
    ensures once { TakesOnce lacking.old lacking.new (R.sends remote.old) (R.sends remote.new) }
    ensures faults { IfErr result IsOrderFault }
    ensures stays { R.peer remote.new ≡ R.peer remote.old }
{
    let key = Key {
        kind: Kind::Block,
        id,
    };
    match lacking.remove(&key) {
        Some(()) => put_block(alloc, remote, library, id, chunk),
        None => Ok(()),
    }
}

/// A file was changed.
fn changed(alloc: Global, path: &Path) -> SyncFault
    ensures value { IsChange path.now result }
{
    match path.copy(alloc) {
        Ok(path) => SyncFault::Changed(path),
        Err(AllocError) => SyncFault::NoMemory,
    }
}

/// The fault of a call of the folder.
fn folder_fault(fault: FolderFault) -> SyncFault
    ensures value { result ≡ folder_fault fault }
{
    match fault {
        FolderFault::Folder => SyncFault::Folder,
        FolderFault::NoMemory => SyncFault::NoMemory,
    }
}
