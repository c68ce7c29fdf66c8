//! A chunker: bytes come in pieces, and chunks go out.

ghost use Rattle.std.specs.Prelude.{◌≡◌, ℕ, ◌+◌, ◌-◌, ◌<◌, ◌≤◌, ◌++◌, ◌∷◌, [], true, false, length, take, drop, IsTrue, IsErr, IfOk, OnOk, OnErr};
ghost use Rattle.block_chunker.specs.ChunkBoundaries.{finished_chunks, begun_after, unfinished_of};
ghost use Rattle.block_chunker.specs.RollingHash.{chunk_hash};
ghost use Rattle.block_chunker.specs.ChunkerProgress.{GrowsBy, TakesSome, start_of, after_piece, finished_by, AppendsSome};

use crate::cuts::Cuts;
use crate::rolling_hash::scan;
use ids::{Bytes, Items};
use std::alloc::{AllocError, Global};
use std::marker::Model;
use std::mem;

/// How many bytes are copied into a chunk before they are scanned. A chunk's last block is copied
/// once more, so it is small beside a chunk.
const BLOCK: usize = 65_536;

/// How many bytes of a piece went into a chunk, and whether they finished it.
#[derive(Clone, Copy)]
struct Growth {
    taken: usize,
    is_finished: bool,
}

/// Takes the beginning of a piece into a chunk, up to the chunk's end or to the end of a block.
fn grow(cuts: Cuts, bytes: &mut Vec<u8>, hash: &mut u64, piece: &[u8]) -> Result<Growth, AllocError>
    requires some { 0 < length piece.now }
    requires short { length bytes.old.items < cuts.max }
    requires ready { hash.old ≡ chunk_hash cuts.min bytes.old.items }
    ensures ok { IfOk result (λ growth. GrowsBy cuts bytes.old.items bytes.new.items piece.now
        growth.taken growth.is_finished) }
    ensures hash { OnOk result (hash.new ≡ chunk_hash cuts.min bytes.new.items) }
    ensures bound { OnOk result (length bytes.new.items ≤ cuts.max) }
    ensures err { OnErr result ((bytes.new.items ≡ bytes.old.items) × (hash.new ≡ hash.old)) }
{
    let from = bytes.len();
    let room = cuts.max as usize - from;
    let taken = piece.len().min(room).min(BLOCK);
    bytes.extend_from_slice(&piece[..taken])?;
    let stop = scan(cuts, bytes.as_slice(), from, *hash);
    bytes.truncate(stop.end);
    *hash = stop.hash;
    Ok(Growth {
        taken: stop.end - from,
        is_finished: stop.is_cut,
    })
}

/// Takes the beginning of a piece into a chunk, and hands the chunk out where that finishes it.
fn take_some(
    alloc: Global,
    cuts: Cuts,
    bytes: &mut Vec<u8>,
    hash: &mut u64,
    piece: &[u8],
    chunks: &mut Items<Bytes>,
) -> Result<usize, AllocError>
    requires some { 0 < length piece.now }
    requires short { length bytes.old.items < cuts.max }
    requires ready { hash.old ≡ chunk_hash cuts.min bytes.old.items }
    ensures ok { IfOk result (λ taken. TakesSome cuts bytes.old.items bytes.new.items piece.now
        chunks.old chunks.new taken) }
    ensures err { OnErr result (chunks.new ≡ chunks.old) }
    ensures hash { hash.new ≡ chunk_hash cuts.min bytes.new.items }
    ensures bound { length bytes.new.items < cuts.max }
{
    let growth = grow(cuts, bytes, hash, piece)?;
    if !growth.is_finished {
        return Ok(growth.taken);
    }
    let chunk = mem::replace(bytes, Vec::new(alloc));
    *hash = 0;
    chunks.push(Items::from_vec(chunk))?;
    Ok(growth.taken)
}

/// Takes a piece in, and hands out each chunk that it finishes.
fn take_all(
    alloc: Global,
    cuts: Cuts,
    bytes: &mut Vec<u8>,
    hash: &mut u64,
    piece: &[u8],
    chunks: &mut Items<Bytes>,
) -> Result<(), AllocError>
    requires short { length bytes.old.items < cuts.max }
    requires ready { hash.old ≡ chunk_hash cuts.min bytes.old.items }
    ensures ok { OnOk result (bytes.new.items ≡ begun_after cuts bytes.old.items piece.now) }
    ensures finished { OnOk result
        (chunks.new ≡ chunks.old ++ finished_chunks cuts bytes.old.items piece.now) }
    ensures err { OnErr result
        (AppendsSome chunks.old chunks.new (finished_chunks cuts bytes.old.items piece.now)) }
    ensures hash { hash.new ≡ chunk_hash cuts.min bytes.new.items }
    ensures bound { length bytes.new.items < cuts.max }
{
    let mut left = piece;
    while !left.is_empty() {
        let taken = take_some(alloc, cuts, bytes, hash, left, chunks)?;
        left = &left[taken..];
    }
    Ok(())
}

/// Cuts bytes into chunks, as they come in pieces.
///
/// Contracts see it by its progress: the parameters, the bytes of the chunk that goes on, and whether
/// it has failed. At most that one unfinished chunk is in memory.
/// Boundaries: docs/FORMATS.md, "Chunk boundaries" (our own).
#[derive(Drop)]
pub struct Chunker {
    alloc: Global,
    cuts: Cuts,
    bytes: Vec<u8>,
    hash: u64,
    failed: bool,
}

impl Model for Chunker {
    ghost use Rattle.std.specs.Prelude.{◌≡◌, ◌<◌, length};
    ghost use Rattle.block_chunker.specs.ChunkerProgress.{Progress};
    ghost use Rattle.block_chunker.specs.RollingHash.{chunk_hash};

    ghost Value = { Progress };

    ghost view = { λ a. record { cuts = a.cuts; begun = a.bytes.items; failed = a.failed } };

    ghost invariant = { λ a. (length a.bytes.items < a.cuts.max)
        × (a.hash ≡ chunk_hash a.cuts.min a.bytes.items) };
}

impl Chunker {
    /// A chunker that no byte has come to. It takes no memory.
    pub fn new(alloc: Global, cuts: Cuts) -> Self
        ensures value { result ≡ start_of cuts }
    {
        Chunker {
            alloc,
            cuts,
            bytes: Vec::new(alloc),
            hash: 0,
            failed: false,
        }
    }

    /// Appends to `chunks` each chunk that ends within `piece`.
    ///
    /// Pieces may be cut anywhere, even into single bytes: the chunks are the same. Each chunk has
    /// `cuts.min` to `cuts.max` bytes, and is handed over without a copy.
    /// After want of memory the first few of these chunks were appended, and every later call fails and
    /// appends nothing.
    pub fn feed(&mut self, piece: &[u8], chunks: &mut Items<Bytes>) -> Result<(), AllocError>
        ensures ok { OnOk result (self.new ≡ after_piece self.old piece.now) }
        ensures finished { OnOk result (chunks.new ≡ chunks.old ++ finished_by self.old piece.now) }

        // Want of memory
        ensures err { OnErr result ((self.new.failed ≡ true)
            × AppendsSome chunks.old chunks.new (finished_by self.old piece.now)) }
        ensures failed { IsTrue self.old.failed → IsErr result × (chunks.new ≡ chunks.old) }
    {
        if self.failed {
            return Err(AllocError);
        }
        let taken = take_all(
            self.alloc,
            self.cuts,
            &mut self.bytes,
            &mut self.hash,
            piece,
            chunks,
        );
        if taken.is_err() {
            self.failed = true;
        }
        taken
    }

    /// The last chunk, which no cut ended: 1 to `cuts.max - 1` bytes, and `None` where no byte is left.
    ///
    /// It takes no memory, and fails only where `feed` failed.
    pub fn finish(self) -> Result<Option<Bytes>, AllocError>
        ensures value { self.failed ≡ false → result ≡ Ok (unfinished_of self.begun) }
        ensures failed { IsTrue self.failed → IsErr result }
    {
        let Chunker {
            alloc: _,
            cuts: _,
            bytes,
            hash: _,
            failed,
        } = self;
        if failed {
            return Err(AllocError);
        }
        if bytes.is_empty() {
            return Ok(None);
        }
        Ok(Some(Items::from_vec(bytes)))
    }
}
