//! Who answers orders: a server behind links, or a library in memory.
ghost use Rattle.std.specs.Prelude.{◌≡◌, ℕ, List, IfOk};
ghost use Rattle.ids.specs.Outcome.{ExactlyWith};
ghost use Rattle.http_client.specs.OrderOutcome.{CanHave};
ghost use Rattle.http_client.specs.RequestText.{HasRequest};
ghost use Rattle.remote_calls.specs.Sends.{CountsSend, IsTooLarge, SendsOne, Sent, is_listed, is_no_memory, size_told};

use crate::error::RemoteFault;
use http_front::{Order, Outcome};
use http_server::Log;
use std::alloc::Global;

/// What an order came to.
pub type Ending = Result<Outcome, RemoteFault>;

/// The list of a remote's sends, which stands in proofs alone and takes no bytes.
pub(crate) type SentLog = Log<Order, Ending>;

/// Who answers orders, one after another.
///
/// It tells whom it sends to, which never changes, the list of what it was sent, each order with its outcome or its fault, and
/// a count of faults. The list stands in proofs alone, with the bytes of every object; an order for which memory was wanting isn't on it, though it may have
/// been answered.
pub trait Remote {
    // Whom it sends to.
    ghost Peer: { Type 0 };

    ghost peer: { Self → Peer };

    ghost sends: { Self → List Sent };

    ghost faults: { Self → ℕ };

    /// Sends an order, and gives its outcome: one that the order can have.
    ///
    /// Which orders have a request, `http_client::has_request` tells. `TooLarge` is looked for first, and then nothing is
    /// sent; `Link` comes where no link could be made or it failed; `Cut` and `BadReply` by what the peer gave.
    fn send(&mut self, alloc: Global, order: &Order) -> Result<Outcome, RemoteFault>
        requires proper { HasRequest order.now }
        ensures told { IfOk result (CanHave order.now.what) }
        ensures too_large { ExactlyWith is_no_memory result RemoteFault.TooLarge (size_told order.now) (IsTooLarge order.now) }
        ensures listed { SendsOne (sends self.old) (sends self.new) order.now result }
        ensures faults { CountsSend (faults self.old) (faults self.new) result }
        ensures stays { peer self.new ≡ peer self.old };

    /// Says that no order comes for a while: what was kept for the next one, a link, is left. Nothing is sent, and it takes no
    /// memory.
    fn rest(&mut self)
        ensures stays { (peer self.new ≡ peer self.old) × (sends self.new ≡ sends self.old) × (faults self.new ≡ faults self.old) };
}

/// Puts a send on the list.
pub(crate) fn list_send(sends: &mut SentLog, order: &Order, ending: &Ending)
    ensures listed { SendsOne sends.old.items sends.new.items order.now ending.now }
{
    if !is_listed(ending) {
        return;
    }
    *sends = sends.and(order, ending);
}

/// Whether a send is listed: memory was not wanting for it.
fn is_listed(ending: &Ending) -> bool
    ensures value { result ≡ is_listed ending.now }
{
    match ending {
        Ok(_) => true,
        Err(fault) => !is_no_memory(fault),
    }
}

/// Whether memory was wanting.
fn is_no_memory(fault: &RemoteFault) -> bool
    ensures value { result ≡ is_no_memory fault.now }
{
    match fault {
        RemoteFault::NoMemory => true,
        _ => false,
    }
}
