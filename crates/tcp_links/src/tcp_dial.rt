//! A dial over TCP.
ghost use Rattle.std.specs.Prelude.{◌≡◌, [], IfOk};

use crate::counting::noted_answer;
use crate::tcp_link::{TcpLink, Waits};
use http_front::{Dial, DialLog, LinkFailed};
use http_server::Log;
use std::io;
use std::io::ErrorKind;
use std::net::{Net, SocketAddr, TcpStream, ToSocketAddrs};
use std::time::Duration;

/// How many seconds a connection may take to be made, for each address of a host.
const CONNECT_SECONDS: u64 = 30;

/// How long a client waits for a server, which may be merging a large tree before it answers.
const WAITS: Waits = Waits {
    take: 300,
    give: 60,
};

/// A dial that connects to a port of a host, which is a name or an address, of IPv4 or IPv6. It tells no bytes, and counts
/// the calls that failed and the faults of the links that came back.
///
/// The addresses of a name are tried in the order in which the system tells them, each for at most 30 seconds. A link waits
/// 300 seconds in a take, and 60 in a give.
#[derive(Drop)]
pub struct TcpDial<R> {
    rt: R,
    faults: u64,
    // Why the last call failed, for who looks on.
    failure: Option<io::Error>,
    // The links that came back, and what was asked for, for proofs alone.
    back: Log<TcpLink, u64>,
    dialled: DialLog,
}

impl<R> TcpDial<R> {
    /// A dial over the network of this runtime, with no fault, which was asked for nothing and to which no link came back yet.
    pub fn new(rt: R) -> TcpDial<R>
        ensures none { (result.back.items ≡ []) × (result.dialled.items ≡ []) }
        ensures faults { result.faults ≡ 0 }
    {
        TcpDial {
            rt,
            faults: 0,
            failure: None,
            back: Log::new(),
            dialled: DialLog::new(),
        }
    }

    /// How many faults were counted so far.
    pub fn faults(&self) -> u64
        ensures value { result ≡ self.now.faults }
    {
        self.faults
    }

    /// Why the last link wasn't made, if it wasn't; no clause says so.
    pub fn failure(&self) -> Option<io::Error> {
        self.failure
    }
}

impl<R: Net<Stream = TcpStream>> Dial for TcpDial<R> {
    ghost use Rattle.std.specs.Prelude.{map, ⊤};

    type L = TcpLink;

    ghost reaches = { λ link host port. ⊤ };

    ghost back = { λ dial. map (λ entry. entry.0) dial.back.items };

    ghost dialled = { λ dial. dial.dialled.items };

    ghost faults = { λ dial. dial.faults };

    fn link(&mut self, host: &str, port: u16) -> Result<TcpLink, LinkFailed> {
        self.dialled = self.dialled.and(host, port);
        let linked = connect(&self.rt, host, port);
        noted_answer(&mut self.faults, &mut self.failure, linked)
    }

    fn hang_up(&mut self, link: TcpLink) {
        self.faults = self.faults.saturating_add(link.faults());
        self.back = self.back.and(&link, &0);
    }
}

/// A link to a port of a host: that of the first of its addresses which answers.
fn connect<R: Net<Stream = TcpStream>>(rt: &R, host: &str, port: u16) -> io::Result<TcpLink>
    ensures faults { IfOk result (λ link. link.faults ≡ 0) }
{
    let mut last = io::Error::new(ErrorKind::NotFound, "the host has no address");
    for address in (host, port).to_socket_addrs(rt)? {
        match connect_to(rt, &address) {
            Ok(link) => return Ok(link),
            Err(failure) => last = failure,
        }
    }
    Err(last)
}

/// A link to an address.
fn connect_to<R: Net<Stream = TcpStream>>(rt: &R, address: &SocketAddr) -> io::Result<TcpLink>
    ensures faults { IfOk result (λ link. link.faults ≡ 0) }
{
    let limit = Duration::from_secs(CONNECT_SECONDS);
    TcpLink::new(TcpStream::connect_timeout(rt, address, limit)?, WAITS)
}
