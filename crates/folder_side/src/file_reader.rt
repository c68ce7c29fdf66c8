//! A file of a folder, read to its end and cut into chunks.

ghost use Rattle.std.specs.Prelude.{◌≡◌, ◌<◌, ◌≤◌, ◌++◌, [], ℕ, List, Some, false, length, map, IfOk, IfErr, OnOk};
ghost use Rattle.ids.specs.FaultCount.{FailsBy};
ghost use Rattle.sha1.specs.Sha1.{sha1};
ghost use Rattle.block_chunker.specs.ChunkBoundaries.{last_chunk};
ghost use Rattle.block_chunker.specs.ChunkerProgress.{after_piece, finished_by};
ghost use Rattle.folder_side.specs.declared.holding.Holding.TheVariants.{File};
ghost use Rattle.folder_side.specs.Folder.{Contents, at, is_folder_fault};
ghost use Rattle.folder_side.specs.Calls.{ReadsAs, ReadsOn};
ghost use Rattle.folder_side.specs.FileRead.{IsBehind, ReadsFile, PassesLimit, is_read_failure};
ghost use Rattle.folder_side.specs.declared.folder_scan.TheConstants.{PIECE};
ghost use Rattle.folder_side.specs.declared.file_reader.TheConstants.{MAX_FILE};

use crate::error::FolderFault;
use crate::folder::Folder;
use block_chunker::{Chunker, Cuts};
use ids::{Bytes, IdList, Items, ObjId};
use std::alloc::{AllocError, Global};
use tree_model::Path;

/// The greatest number of bytes of a file: 256 GiB.
const MAX_FILE: u64 = 274_877_906_944;

/// Why a file was not read to its end.
#[derive(Clone, Copy)]
pub enum ReadFault {
    /// The folder failed. Its count of faults rose in this call.
    Folder,
    /// It has more than 274,877,906,944 bytes.
    TooBig,
    /// Nothing stands at its path.
    Gone,
    /// There was no memory.
    NoMemory,
}

/// The names of a file's chunks, in order, and its length.
#[derive(Drop)]
pub struct FileRead {
    pub blocks: IdList,
    pub size: u64,
}

/// Appends the names of chunks.
fn name_chunks(names: &mut IdList, chunks: &[Bytes]) -> Result<(), AllocError>
    ensures ok { OnOk result (names.new ≡ names.old ++ map sha1 chunks.now) }
{
    for chunk in chunks {
        names.push(ObjId::of(chunk.slice()))?;
    }
    Ok(())
}

/// Feeds a piece of a file to its chunker, and appends the names of the chunks that end in it.
///
/// A piece may have any number of bytes. After an error it isn't said what was fed and named: the file is to be begun anew.
pub fn take_piece(
    alloc: Global,
    chunker: &mut Chunker,
    names: &mut IdList,
    piece: &[u8],
) -> Result<(), AllocError>
    ensures ok { OnOk result (chunker.new ≡ after_piece chunker.old piece.now) }
    ensures blocks { OnOk result (names.new ≡ names.old ++ map sha1 (finished_by chunker.old piece.now)) }
{
    let mut chunks = Items::new(alloc);
    chunker.feed(piece, &mut chunks)?;
    name_chunks(names, chunks.slice())
}

/// Names the last chunk of a file that came to its end: `names` are those of the chunks before it, and `size` is the
/// file's length. A file without bytes has no chunk.
pub fn end_file(chunker: Chunker, mut names: IdList, size: u64) -> Result<FileRead, AllocError>
    requires ready { chunker.failed ≡ false }
    ensures blocks { IfOk result (λ file. file.blocks ≡ names ++ map sha1 (last_chunk chunker.begun)) }
    ensures size { IfOk result (λ file. file.size ≡ size) }
{
    if let Some(last) = chunker.finish()? {
        names.push(ObjId::of(last.slice()))?;
    }
    Ok(FileRead {
        blocks: names,
        size,
    })
}

/// A file in the reading: the chunk that goes on, the names of the chunks before it, and the place of the next byte,
/// which is the count of bytes read.
#[derive(Drop)]
struct Reading {
    chunker: Chunker,
    names: IdList,
    place: u64,
}

impl Reading {
    /// No byte was read yet.
    fn new(alloc: Global, cuts: Cuts) -> Self
        ensures value { (bytes : List ℕ) → IsBehind cuts bytes result }
        ensures ready { result.chunker.failed ≡ false }
        ensures stays { result.chunker.cuts ≡ cuts }
        ensures bound { result.place ≡ 0 }
    {
        Reading {
            chunker: Chunker::new(alloc, cuts),
            names: Items::new(alloc),
            place: 0,
        }
    }
}

/// Reads a file from its start to its end and cuts it into chunks. `Gone` where nothing stands at its path.
///
/// The file is read in pieces that fit the buffer. No more of it is in memory than one chunk and two pieces.
pub fn read_file<F: Folder>(
    alloc: Global,
    folder: &mut F,
    file: &Path,
    cuts: Cuts,
    buffer: &mut [u8],
) -> Result<FileRead, ReadFault>
    requires some { 0 < length buffer.old }
    requires fits { length buffer.old ≤ PIECE }
    ensures value { (c : Contents) (bytes : List ℕ) → F.told folder.old ≡ Some c → at c file.now ≡ Some (File bytes) →
        IfOk result (ReadsFile cuts bytes) }
    ensures refused { (c : Contents) (bytes : List ℕ) → F.told folder.old ≡ Some c → at c file.now ≡ Some (File bytes) →
        IfErr result (PassesLimit bytes) }
    ensures traced { ReadsAs cuts file.now (F.trace folder.old) (F.trace folder.new) result }
    ensures stays { (F.told folder.new ≡ F.told folder.old) × (F.spare folder.new ≡ F.spare folder.old) }
    ensures faults { FailsBy is_read_failure (F.faults folder.old) (F.faults folder.new) result }
{
    match folder.open_file(file) {
        Ok(true) => {}
        Ok(false) => return Err(ReadFault::Gone),
        Err(fault) => return Err(read_fault(fault)),
    }
    let reading = Reading::new(alloc, cuts);
    read_rest(alloc, folder, file, reading, buffer)
}

/// Reads what is left of a file, in pieces that fit the buffer.
fn read_rest<F: Folder>(
    alloc: Global,
    folder: &mut F,
    file: &Path,
    reading: Reading,
    buffer: &mut [u8],
) -> Result<FileRead, ReadFault>
    requires some { 0 < length buffer.old }
    requires fits { length buffer.old ≤ PIECE }
    requires ready { reading.chunker.failed ≡ false }
    requires bound { reading.place ≤ MAX_FILE }
    ensures value { (c : Contents) (bytes : List ℕ) → F.told folder.old ≡ Some c → at c file.now ≡ Some (File bytes) →
        IsBehind reading.chunker.cuts bytes reading → IfOk result (ReadsFile reading.chunker.cuts bytes) }
    ensures refused { (c : Contents) (bytes : List ℕ) → F.told folder.old ≡ Some c → at c file.now ≡ Some (File bytes) →
        IsBehind reading.chunker.cuts bytes reading → IfErr result (PassesLimit bytes) }
    ensures traced { (before : List ℕ) → IsBehind reading.chunker.cuts before reading → reading.place ≡ length before →
        ReadsOn reading.chunker.cuts file.now reading.place before (F.trace folder.old) (F.trace folder.new) result }
    ensures stays { (F.told folder.new ≡ F.told folder.old) × (F.spare folder.new ≡ F.spare folder.old) }
    ensures faults { FailsBy is_read_failure (F.faults folder.old) (F.faults folder.new) result }
{
    let Reading {
        mut chunker,
        mut names,
        mut place,
    } = reading;
    while place <= MAX_FILE {
        let count = match folder.read(file, place, buffer) {
            Ok(count) => count,
            Err(fault) => return Err(read_fault(fault)),
        };
        if count == 0 {
            return match end_file(chunker, names, place) {
                Ok(read) => Ok(read),
                Err(AllocError) => Err(ReadFault::NoMemory),
            };
        }
        match take_piece(alloc, &mut chunker, &mut names, &buffer[..count]) {
            Ok(()) => {}
            Err(AllocError) => return Err(ReadFault::NoMemory),
        }
        place += count as u64;
    }
    Err(ReadFault::TooBig)
}

/// The fault of a reading where a call of the folder failed.
fn read_fault(fault: FolderFault) -> ReadFault
    ensures value { (bytes : List ℕ) → PassesLimit bytes result }
    ensures faults { is_read_failure result ≡ is_folder_fault fault }
{
    match fault {
        FolderFault::Folder => ReadFault::Folder,
        FolderFault::NoMemory => ReadFault::NoMemory,
    }
}
