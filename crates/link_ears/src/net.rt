//! What opens a port for a server, and is given its ears back.
ghost use Rattle.std.specs.Prelude.{◌≡◌, ℕ, List, [], ◌∷◌, ◌++◌, map, length, All, IfOk};
ghost use Rattle.link_ears.specs.Ear.{IsNewEar, NetFails, counts_sum};

use crate::ear::Ear;
use ids::Items;
use std::alloc::Global;

/// Why a port has no ears.
#[derive(Clone, Copy, Debug, PartialEq, Eq)]
pub enum NetFault {
    /// The port couldn't be opened. The net's count of faults rose in this call.
    Link,
    /// There was no memory.
    NoMemory,
}

/// What opens a port for a server, and is given its ears back.
///
/// It tells which ports it was asked for, the ears that came back, in order, and a count of faults, all in proofs alone. The count rises in
/// each `ears` that fails for another cause than want of memory, and by those of an ear as that comes back. To take ears back takes no
/// memory and never fails.
pub trait Net {
    type E: Ear + Send;

    // An ear as it is made gives the links of this port.
    ghost hears: { Self.E → ℕ → Type 0 };

    // The ports that it was asked for so far, in order, each with how many workers and connections of each.
    ghost asked: { Self → List (ℕ × (ℕ × ℕ)) };

    // The ears that came back so far, in order.
    ghost back: { Self → List Self.E };

    ghost faults: { Self → ℕ };

    /// As many ears at a port as there are workers, each of which gives so many connections, and which its caller gives back.
    fn ears(
        &mut self,
        alloc: Global,
        port: u16,
        workers: u32,
        connections: u32,
    ) -> Result<Items<Self::E>, NetFault>
        ensures asked { asked self.new ≡ asked self.old ++ (port, (workers, connections)) ∷ [] }
        ensures count { IfOk result (λ ears. length ears ≡ workers) }
        ensures told { IfOk result (All (λ ear. hears ear port)) }
        ensures fresh { IfOk result (All (λ ear. IsNewEar (Self.E.tells ear) (Self.E.back ear) (Self.E.faults ear) connections)) }
        ensures stays { back self.new ≡ back self.old }
        ensures faults { NetFails (faults self.old) (faults self.new) result };

    /// Takes back ears, and closes their port.
    fn give_back(&mut self, ears: Items<Self::E>)
        ensures asked { asked self.new ≡ asked self.old }
        ensures back { back self.new ≡ back self.old ++ ears }
        ensures faults { faults self.new ≡ counts_sum (faults self.old) (map Self.E.faults ears) };
}
