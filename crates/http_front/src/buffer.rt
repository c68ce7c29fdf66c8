//! The bytes that were taken from a link and not yet used.
ghost use Rattle.std.specs.Prelude.{◌≡◌, ◌≢◌, ◌+◌, ◌≤◌, ◌↔◌, IsTrue, [], length, drop, take, IfOk, IfErr, OnOk, OnErr};
ghost use Rattle.std.specs.Io.KnownBytes.{IsAtEnd};
ghost use Rattle.http_front.specs.Buffer.{Fills, to_read};
ghost use Rattle.http_front.specs.Link.{AskedInVain, told_by};
ghost use Rattle.http_front.specs.Limits.{piece_limit};
ghost use Rattle.ids.specs.FaultCount.{Rose};

use crate::link::Link;
use ids::Bytes;
use std::alloc::{AllocError, Global};
use std::marker::Model;
use std::mem;

/// The most bytes that one fill takes from its link.
pub const PIECE: usize = 65_536;

/// Why a fill ended without a piece.
#[derive(Clone, Copy, Debug, PartialEq, Eq)]
pub enum FillFault {
    /// The link failed.
    Link,
    /// There was no room for a piece, so none was taken.
    NoMemory,
}

/// A queue of bytes: filled from a link at its back, used from its front.
///
/// Each byte is moved at most twice on average, whatever is skipped at a time: as it is filled, the rest moves to the
/// front only when as many bytes lie used before it. A front that is taken is moved once more, and what follows it is
/// copied; the memory of what follows grows anew, and growing moves what is there.
#[derive(Drop)]
pub struct Buffer {
    bytes: Vec<u8>,
    from: usize,
    piece: Vec<u8>,
}

impl Model for Buffer {
    ghost use Rattle.std.specs.Prelude.{List, ℕ, ◌≡◌, ◌≤◌, length, drop};
    ghost use Rattle.http_front.specs.Limits.{piece_limit};

    ghost Value = { List ℕ };

    ghost view = { λ b. drop b.from b.bytes.items };

    ghost invariant = { λ b. record { from : b.from ≤ length b.bytes.items; piece : length b.piece.items ≡ piece_limit } };
}

impl Buffer {
    /// An empty buffer.
    pub fn new(alloc: Global) -> Result<Buffer, AllocError>
        ensures { IfOk result (λ b. b ≡ []) }
    {
        let mut piece = Vec::new(alloc);
        piece.resize(PIECE, 0)?;
        Ok(Buffer {
            bytes: Vec::new(alloc),
            from: 0,
            piece,
        })
    }

    /// The bytes that are not yet used.
    pub fn front(&self) -> &[u8]
        ensures { result.now ≡ self.now }
    {
        &self.bytes.as_slice()[self.from..]
    }

    /// How many bytes are not yet used.
    pub fn len(&self) -> usize
        ensures { result ≡ length self.now }
    {
        self.bytes.len() - self.from
    }

    /// Whether every byte was used.
    pub fn is_empty(&self) -> bool
        ensures { IsTrue result ↔ (self.now ≡ []) }
    {
        self.len() == 0
    }

    /// Uses the first `used` bytes.
    pub fn skip(&mut self, used: usize)
        requires { used ≤ length self.old }
        ensures { self.new ≡ drop used self.old }
    {
        self.from += used;
    }

    /// Uses the first `count` bytes. They are handed over with the memory in which they lie, to whose front they are
    /// moved, and what follows them is copied. Where there is no memory for what follows, all is as it was.
    pub fn take_front(&mut self, count: usize) -> Result<Bytes, AllocError>
        requires fits { count ≤ length self.old }
        ensures value { IfOk result (λ taken. taken ≡ take count self.old) }
        ensures left { OnOk result (self.new ≡ drop count self.old) }
        ensures err { OnErr result (self.new ≡ self.old) }
    {
        let from = self.from;
        match self.bytes.split_off(from + count) {
            Ok(rest) => {
                self.from = 0;
                Ok(bytes_from(mem::replace(&mut self.bytes, rest), from))
            }
            Err(error) => Err(error),
        }
    }

    /// Takes one piece of at most 65,536 bytes from the link, and says how many bytes came: none
    /// at the end of input. Where it fails, nothing was taken.
    pub fn fill<L: Link>(&mut self, link: &mut L) -> Result<usize, FillFault>
        ensures value { IfOk result (λ n. length self.new ≡ length self.old + n) }
        ensures bound { IfOk result (λ n. n ≤ piece_limit) }
        ensures end { IfOk result (λ n. n ≡ 0 → IsAtEnd (L.left link.new)) }
        ensures err { OnErr result (self.new ≡ self.old) }
        ensures to_read { to_read self.new (L.left link.new) ≡ to_read self.old (L.left link.old) }
        ensures stays { L.given link.new ≡ L.given link.old }
        ensures fills { Fills self.old self.new (told_by L.taken L.given L.asked link.old) (told_by L.taken L.given L.asked link.new) }
        ensures link { result ≡ Err FillFault.Link → Rose (L.faults link.old) (L.faults link.new) }
        ensures last { result ≡ Err FillFault.Link → AskedInVain (told_by L.taken L.given L.asked link.old) (told_by L.taken L.given L.asked link.new) }
        ensures faults { result ≢ Err FillFault.Link → L.faults link.new ≡ L.faults link.old }
    {
        self.tidy();
        if self.bytes.reserve(PIECE).is_err() {
            return Err(FillFault::NoMemory);
        }
        let count = match link.take(self.piece.as_mut_slice()) {
            Ok(count) => count,
            Err(_) => return Err(FillFault::Link),
        };
        match self
            .bytes
            .extend_from_slice(&self.piece.as_slice()[..count])
        {
            Ok(()) => Ok(count),
            Err(_) => unreachable!(),
        }
    }

    /// Moves the rest to the front, where as many bytes lie used before it.
    fn tidy(&mut self)
        ensures { self.new ≡ self.old }
    {
        let rest = self.bytes.len() - self.from;
        if self.from >= rest {
            self.bytes.copy_within(self.from.., 0);
            self.bytes.truncate(rest);
            self.from = 0;
        }
    }
}

/// The bytes from a place on, moved to the front of their memory, of which the rest is given back where it can be.
fn bytes_from(mut bytes: Vec<u8>, from: usize) -> Bytes
    requires within { from ≤ length bytes.items }
    ensures value { result ≡ drop from bytes.items }
{
    let rest = bytes.len() - from;
    bytes.copy_within(from.., 0);
    bytes.truncate(rest);
    bytes.shrink_to_fit();
    Bytes::from_vec(bytes)
}
