//! What makes links: a connector of a client.
ghost use Rattle.std.specs.Prelude.{◌≡◌, ℕ, List, [], ◌∷◌, ◌++◌, IfOk};
ghost use Rattle.std.specs.Borrow.{ftrue};
ghost use Rattle.http_front.specs.Dial.{IsFresh, count_sum};
ghost use Rattle.http_front.specs.Link.{CountsFaults};

use crate::link::{Link, LinkFailed};
use std::marker::Model;

/// What makes links to a port of a host, and takes them back.
///
/// It tells the links that came back, in order, which ports of which hosts it was asked for, and a count of faults, all in proofs alone. The count rises in each `link`
/// that fails, and by those of a link as that comes back. A link that is handed out has moved nothing and counted no fault, so
/// a fault is counted once. To take a link back takes no memory and never fails.
pub trait Dial {
    type L: Link;

    // A link as it is made leads to this port of this host.
    ghost reaches: { Self.L → List ℕ → ℕ → Type 0 };

    // The links that came back so far, in order.
    ghost back: { Self → List Self.L };

    // The ports that it was asked for so far, each with its host, in order.
    ghost dialled: { Self → List (List ℕ × ℕ) };

    ghost faults: { Self → ℕ };

    /// A link to a port of a host, which its caller gives back.
    fn link(&mut self, host: &str, port: u16) -> Result<Self::L, LinkFailed>
        ensures told { IfOk result (λ link. reaches link host.now port) }
        ensures dialled { dialled self.new ≡ dialled self.old ++ (host.now, port) ∷ [] }
        ensures fresh { IfOk result (IsFresh Self.L.taken Self.L.given Self.L.asked Self.L.faults) }
        ensures stays { back self.new ≡ back self.old }
        ensures faults { CountsFaults (faults self.old) (faults self.new) result };

    /// Takes back a link and ends its connection.
    fn hang_up(&mut self, link: Self::L)
        ensures back { back self.new ≡ back self.old ++ link ∷ [] }
        ensures dialled { dialled self.new ≡ dialled self.old }
        ensures faults { faults self.new ≡ count_sum (faults self.old) (Self.L.faults link) };
}

/// What a dial was asked for, in order: a port of a host for each call. It stands in proofs alone, takes no bytes, and its calls do nothing
/// at run time.
#[derive(Drop)]
pub struct DialLog {
    pub ghost items: { List (List ℕ × ℕ) },
}

impl Model for DialLog {
    ghost also_owns = { λ _. ftrue };
}

// It owns nothing.
unsafe impl Send for DialLog {}

// What one call asks for.
#[derive(Clone, Copy, Drop)]
pub(crate) struct PortOf<'a> {
    host: &'a str,
    port: u16,
}

impl DialLog {
    /// That nothing was asked for.
    pub fn new() -> DialLog
        ensures value { result.items ≡ [] }
    {
        DialLog {}
    }

    /// That this port of this host was asked for then.
    pub fn and(&self, host: &str, port: u16) -> DialLog
        ensures value { result.items ≡ self.now.items ++ (host.now, port) ∷ [] }
    {
        self.then(&PortOf { host, port })
    }

    // The same, of both as one value.
    pub(crate) fn then(&self, asked: &PortOf<'_>) -> DialLog
        ensures value { result.items ≡ self.now.items ++ (asked.now.host.now, asked.now.port) ∷ [] }
    {
        DialLog {}
    }
}
