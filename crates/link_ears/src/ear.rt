//! What gives a server its links, and takes them back.
ghost use Rattle.std.specs.Prelude.{◌≡◌, ℕ, List, [], ◌∷◌, ◌++◌};
ghost use Rattle.http_front.specs.Link.{CountsFaults};
ghost use Rattle.link_ears.specs.Ear.{Accepts};

use http_front::{Link, LinkFailed};
use worker_server::Served;

/// What gives a server its links, one after another, and takes each back with how it ended.
///
/// It tells in proofs alone which links it gave, how many are left, whether it said that no more come, which links came back,
/// and a count of faults, which rises in each `accept` that fails and in no other call. To take a link back takes no memory
/// and never fails.
pub trait Ear {
    ghost use Rattle.link_ears.specs.Ear.{EarTells};
    ghost use Rattle.worker_server.specs.declared.served.Served.{Served};

    // It goes to the thread of a worker, and its links are served there.
    type L: Link + Send;

    // Which links it gave, how many are left, and whether it said that no more come.
    ghost tells: { Self → EarTells Self.L };

    // The links that came back so far, in order, each with how it ended.
    ghost back: { Self → List (Self.L × Served) };

    ghost faults: { Self → ℕ };

    /// The next link, which its caller gives back, or none where no more come. It may wait for a peer.
    fn accept(&mut self) -> Result<Option<Self::L>, LinkFailed>
        ensures told { Accepts (tells self.old) (tells self.new) result }
        ensures stays { back self.new ≡ back self.old }
        ensures faults { CountsFaults (faults self.old) (faults self.new) result };

    /// Takes back a link that ended so, and ends its connection.
    fn give_back(&mut self, link: Self::L, how: Served)
        ensures back { back self.new ≡ back self.old ++ (link, how) ∷ [] }
        ensures untouched { tells self.new ≡ tells self.old }
        ensures stays { faults self.new ≡ faults self.old };
}
