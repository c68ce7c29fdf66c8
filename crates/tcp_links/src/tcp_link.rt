//! A link over a TCP connection.
ghost use Rattle.std.specs.Prelude.{◌≡◌, ◌≤◌, IfOk, length};

use crate::counting::noted_answer;
use http_front::{Link, LinkFailed};
use std::io;
use std::io::{ErrorKind, Read, Write};
use std::net::TcpStream;
use std::time::Duration;

/// How many seconds a link waits for its peer, 1 or more of each.
#[derive(Clone, Copy, Debug, PartialEq, Eq)]
pub struct Waits {
    /// For the next bytes, in a take.
    pub take: u64,
    /// For room, each time in a give.
    pub give: u64,
}

/// A TCP connection. It tells none of its bytes, and counts the calls that failed.
///
/// A take fails where the peer gives nothing for as long as the link waits, and a give where it takes nothing for so long.
/// The connection is closed where the link is let go.
#[derive(Drop)]
pub struct TcpLink {
    stream: TcpStream,
    faults: u64,
    // Why the last call failed, for who looks on.
    failure: Option<io::Error>,
}

impl TcpLink {
    /// A link over a connection, which waits for its peer as long as this. What it gives is sent at once.
    ///
    /// It fails where the system refuses the limits, as it does a wait of no seconds; the connection is closed then.
    pub fn new(stream: TcpStream, waits: Waits) -> io::Result<TcpLink>
        ensures faults { IfOk result (λ link. link.faults ≡ 0) }
    {
        stream.set_nodelay(true)?;
        stream.set_read_timeout(Some(Duration::from_secs(waits.take)))?;
        stream.set_write_timeout(Some(Duration::from_secs(waits.give)))?;
        Ok(TcpLink {
            stream,
            faults: 0,
            failure: None,
        })
    }

    /// How many calls failed so far.
    pub fn faults(&self) -> u64
        ensures value { result ≡ self.now.faults }
    {
        self.faults
    }

    /// Why the last call failed, if it did; no clause says so.
    pub fn failure(&self) -> Option<io::Error> {
        self.failure
    }
}

impl Link for TcpLink {
    ghost use Rattle.std.specs.Prelude.{None};

    ghost left = { λ _. None };

    ghost taken = { λ _. None };

    ghost given = { λ _. None };

    ghost asked = { λ _. None };

    ghost faults = { λ s. s.faults };

    fn take(&mut self, into: &mut [u8]) -> Result<usize, LinkFailed> {
        let read = read_some(&mut self.stream, into);
        noted_answer(&mut self.faults, &mut self.failure, read)
    }

    fn give(&mut self, piece: &[u8]) -> Result<(), LinkFailed> {
        let written = write_all(&mut self.stream, piece);
        noted_answer(&mut self.faults, &mut self.failure, written)
    }
}

/// One read, begun again where a signal interrupted it.
fn read_some(stream: &mut TcpStream, into: &mut [u8]) -> io::Result<usize>
    ensures bound { IfOk result (λ count. count ≤ length into.new) }
{
    for _ in 0..u32::MAX {
        match stream.read(into) {
            Ok(count) => return Ok(count),
            Err(failure) if failure.kind() == ErrorKind::Interrupted => {}
            Err(failure) => return Err(in_time(failure)),
        }
    }
    Err(io::Error::from(ErrorKind::Interrupted))
}

/// Gives all of a piece.
fn write_all(stream: &mut TcpStream, piece: &[u8]) -> io::Result<()> {
    match stream.write_all(piece) {
        Ok(()) => Ok(()),
        Err(failure) => Err(in_time(failure)),
    }
}

/// A failure, as the end of a wait where it is that: the system tells it as a call that would wait.
fn in_time(failure: io::Error) -> io::Error {
    if failure.kind() == ErrorKind::WouldBlock {
        return io::Error::new(ErrorKind::TimedOut, "the peer did nothing for too long");
    }
    failure
}
