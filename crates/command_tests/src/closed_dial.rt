//! A dial that makes no link.
ghost use Rattle.std.specs.Prelude.{◌≡◌, []};

use http_front::{Dial, DialLog, Link, LinkFailed};
use http_server::Log;

/// The host and the port of the server that isn't there.
pub(crate) const HOST: &str = "localhost";

pub(crate) const PORT: u16 = 8082;

/// A link of which each call fails.
#[derive(Drop)]
pub(crate) struct ClosedLink {
    faults: u64,
}

impl Link for ClosedLink {
    ghost use Rattle.std.specs.Prelude.{None};

    ghost left = { λ _. None };

    ghost taken = { λ _. None };

    ghost given = { λ _. None };

    ghost asked = { λ _. None };

    ghost faults = { λ link. link.faults };

    fn take(&mut self, into: &mut [u8]) -> Result<usize, LinkFailed> {
        let _ = into;
        self.faults = self.faults.saturating_add(1);
        Err(LinkFailed)
    }

    fn give(&mut self, piece: &[u8]) -> Result<(), LinkFailed> {
        let _ = piece;
        self.faults = self.faults.saturating_add(1);
        Err(LinkFailed)
    }
}

/// A dial of which each call for a link fails. It counts those that ask for `HOST` and `PORT`.
#[derive(Drop)]
pub(crate) struct ClosedDial {
    faults: u64,
    asked: u64,
    // The links that came back, and what was asked for, for proofs alone.
    back: Log<ClosedLink, u64>,
    dialled: DialLog,
}

impl ClosedDial {
    pub(crate) fn new() -> ClosedDial
        ensures none { (result.back.items ≡ []) × (result.dialled.items ≡ []) }
        ensures faults { result.faults ≡ 0 }
    {
        ClosedDial {
            faults: 0,
            asked: 0,
            back: Log::new(),
            dialled: DialLog::new(),
        }
    }

    /// How many links at `HOST` and `PORT` were asked for.
    pub(crate) fn asked(&self) -> u64 {
        self.asked
    }

    pub(crate) fn faults(&self) -> u64
        ensures value { result ≡ self.now.faults }
    {
        self.faults
    }
}

impl Dial for ClosedDial {
    ghost use Rattle.std.specs.Prelude.{map, ⊤};

    type L = ClosedLink;

    ghost reaches = { λ link host port. ⊤ };

    ghost back = { λ dial. map (λ entry. entry.0) dial.back.items };

    ghost dialled = { λ dial. dial.dialled.items };

    ghost faults = { λ dial. dial.faults };

    fn link(&mut self, host: &str, port: u16) -> Result<ClosedLink, LinkFailed> {
        self.dialled = self.dialled.and(host, port);
        if host == HOST && port == PORT {
            self.asked = self.asked.saturating_add(1);
        }
        self.faults = self.faults.saturating_add(1);
        Err(LinkFailed)
    }

    fn hang_up(&mut self, link: ClosedLink) {
        self.faults = self.faults.saturating_add(link.faults);
        self.back = self.back.and(&link, &0);
    }
}
