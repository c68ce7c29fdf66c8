//! An ear over TCP.
ghost use Rattle.std.specs.Prelude.{◌≡◌, map};
ghost use Rattle.link_ears.specs.Ear.{IsNewEar};

use crate::ear::Ear;
use crate::notes::{note_end, note_stop};
use http_front::LinkFailed;
use http_server::Log;
use std::io;
use std::io::{ErrorKind, Stderr};
use std::net::TcpListener;
use tcp_links::{TcpLink, Waits, answer};
use worker_server::Served;

/// How long a server waits for a client that gives nothing, and for one that takes nothing.
const WAITS: Waits = Waits { take: 60, give: 60 };

/// An ear at a port of this machine, which gives so many links. A link waits 60 seconds in a take, and 60 in a give; so a
/// client that says nothing holds up a server no longer.
///
/// Connections that no ear has taken yet wait, as many as the system lets. One whose client has gone already is passed over.
/// A link that ended by a fault has a line on standard error, and so has a port that failed, since its worker stops then.
#[derive(Drop)]
pub struct TcpEar {
    listener: TcpListener,
    err: Stderr,
    left: u32,
    over: bool,
    faults: u64,
    // The links that were given and those that came back, for proofs alone.
    gave: Log<TcpLink, u64>,
    back: Log<TcpLink, Served>,
}

impl TcpEar {
    /// An ear that gives so many links of this listener, and tells on standard error which of them ended by a fault.
    pub(crate) fn new(listener: TcpListener, err: Stderr, connections: u32) -> TcpEar
        ensures fresh { IsNewEar (record { gave = map (λ entry. entry.0) result.gave.items; left = result.left; over = result.over }) result.back.items result.faults connections }
    {
        TcpEar {
            listener,
            err,
            left: connections,
            over: false,
            faults: 0,
            gave: Log::new(),
            back: Log::new(),
        }
    }

    /// How many of its calls failed so far.
    pub(crate) fn faults(&self) -> u64
        ensures value { result ≡ self.now.faults }
    {
        self.faults
    }
}

impl Ear for TcpEar {
    ghost use Rattle.std.specs.Prelude.{map};

    type L = TcpLink;

    ghost tells = { λ ear. record { gave = map (λ entry. entry.0) ear.gave.items; left = ear.left; over = ear.over } };

    ghost back = { λ ear. ear.back.items };

    ghost faults = { λ ear. ear.faults };

    fn accept(&mut self) -> Result<Option<TcpLink>, LinkFailed> {
        if self.left == 0 {
            self.over = true;
            return Ok(None);
        }
        match answer(&mut self.faults, accept_link(&self.listener)) {
            Ok(link) => {
                self.left -= 1;
                self.gave = self.gave.and(&link, &0);
                Ok(Some(link))
            }
            Err(failed) => {
                note_stop(&mut self.err);
                Err(failed)
            }
        }
    }

    fn give_back(&mut self, link: TcpLink, how: Served) {
        note_end(&mut self.err, how);
        self.back = self.back.and(&link, &how);
    }
}

/// A link to the next client. A connection that broke before it was taken is passed over.
fn accept_link(listener: &TcpListener) -> io::Result<TcpLink> {
    for _ in 0..u32::MAX {
        match listener.accept() {
            Ok((stream, _)) => {
                if let Ok(link) = TcpLink::new(stream, WAITS) {
                    return Ok(link);
                }
            }
            Err(failure) if is_of_connection(failure.kind()) => {}
            Err(failure) => return Err(failure),
        }
    }
    Err(io::Error::from(ErrorKind::Interrupted))
}

/// Whether a failure is that of one connection, and not of the port.
fn is_of_connection(kind: ErrorKind) -> bool {
    matches!(
        kind,
        ErrorKind::ConnectionAborted
            | ErrorKind::ConnectionReset
            | ErrorKind::HostUnreachable
            | ErrorKind::NetworkUnreachable
            | ErrorKind::NetworkDown
            | ErrorKind::Interrupted
    )
}
