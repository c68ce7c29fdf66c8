//! A dial whose links show what is sent and fetched over them, and tell why they failed.
ghost use Rattle.std.specs.Prelude.{◌≡◌, [], map};

use crate::cause::Cause;
use crate::notes::Notes;
use crate::progress::{Done, Progress};
use http_front::{Dial, Link, LinkFailed};
use http_server::Log;
use std::alloc::Global;
use std::io;
use std::time::Clock;

/// A link, with a line that shows how many bytes went over it, and one for each call that failed. All else is the link's own.
#[derive(Drop)]
pub struct ShownLink<'a, L, R> {
    link: L,
    notes: &'a Notes<R>,
    // Where it leads, as `HOST:PORT`; empty where there was no memory for that.
    peer: String,
}

impl<L: Link + Cause, R: Clock> Link for ShownLink<'_, L, R> {
    ghost left = { λ shown. L.left shown.link };

    ghost taken = { λ shown. L.taken shown.link };

    ghost given = { λ shown. L.given shown.link };

    ghost asked = { λ shown. L.asked shown.link };

    ghost faults = { λ shown. L.faults shown.link };

    fn take(&mut self, into: &mut [u8]) -> Result<usize, LinkFailed> {
        let taken = self.link.take(into);
        match &taken {
            Ok(count) => note_moved(self.notes.progress(), 0, *count),
            Err(_) => note_failure(
                self.notes,
                self.peer.as_str(),
                "receiving",
                self.link.cause(),
            ),
        }
        taken
    }

    fn give(&mut self, piece: &[u8]) -> Result<(), LinkFailed> {
        let given = self.link.give(piece);
        match &given {
            Ok(()) => note_moved(self.notes.progress(), piece.len(), 0),
            Err(_) => note_failure(self.notes, self.peer.as_str(), "sending", self.link.cause()),
        }
        given
    }
}

/// Notes that so many bytes were sent, and so many fetched.
fn note_moved<R: Clock>(progress: &Progress<R>, sent: usize, fetched: usize) {
    let done = progress.done();
    progress.note(Done {
        sent: done.sent.saturating_add(sent as u64),
        fetched: done.fetched.saturating_add(fetched as u64),
        ..done
    });
}

/// Tells why a call failed.
fn note_failure<R: Clock>(notes: &Notes<R>, peer: &str, deed: &str, cause: Option<io::Error>) {
    if let Some(failure) = cause {
        notes.fault(peer, deed, "", &failure);
    }
}

/// A dial, with a line that shows how many bytes go over its links, and one for each call that failed. All else is the dial's own.
#[derive(Drop)]
pub struct ShownDial<'a, D, L, R> {
    dial: D,
    notes: &'a Notes<R>,
    // The links that came back, for proofs alone.
    back: Log<ShownLink<'a, L, R>, u64>,
}

impl<'a, D: Dial<L = L>, L: Link, R: Clock> ShownDial<'a, D, L, R> {
    /// This dial, to which no link came back yet, with lines that are shared.
    pub fn new(dial: D, notes: &'a Notes<R>) -> ShownDial<'a, D, L, R>
        ensures value { (result.dial ≡ dial) × (result.back.items ≡ []) }
    {
        ShownDial {
            dial,
            notes,
            back: Log::new(),
        }
    }

    /// The dial itself.
    pub fn into_dial(self) -> D
        ensures value { result ≡ self.entry.dial }
    {
        let ShownDial {
            dial,
            notes: _,
            back: _,
        } = self;
        dial
    }
}

impl<'a, D: Dial<L = L> + Cause, L: Link + Cause, R: Clock> Dial for ShownDial<'a, D, L, R> {
    ghost use Rattle.std.specs.Prelude.{map};

    type L = ShownLink<'a, L, R>;

    ghost reaches = { λ shown host port. D.reaches shown.link host port };

    ghost back = { λ shown. map (λ entry. entry.0) shown.back.items };

    ghost dialled = { λ shown. D.dialled shown.dial };

    ghost faults = { λ shown. D.faults shown.dial };

    fn link(&mut self, host: &str, port: u16) -> Result<ShownLink<'a, L, R>, LinkFailed> {
        let peer = peer_text(self.notes.alloc(), host, port);
        match self.dial.link(host, port) {
            Ok(link) => Ok(ShownLink {
                link,
                notes: self.notes,
                peer,
            }),
            Err(failed) => {
                note_failure(self.notes, peer.as_str(), "connecting", self.dial.cause());
                Err(failed)
            }
        }
    }

    fn hang_up(&mut self, link: ShownLink<'a, L, R>) {
        self.back = self.back.and(&link, &0);
        let ShownLink {
            link,
            notes: _,
            peer: _,
        } = link;
        self.dial.hang_up(link);
    }
}

/// A port of a host, as text; none where there is no memory for it.
fn peer_text(alloc: Global, host: &str, port: u16) -> String {
    match format!(in alloc; "{host}:{port}") {
        Ok(text) => text,
        Err(_) => String::new(alloc),
    }
}
