//! Orders to the library to which a folder is pushed.
ghost use Rattle.std.specs.Prelude.{◌≡◌, IfErr, IfOk, true};
ghost use Rattle.http_client.specs.OrderOutcome.{CanHave};
ghost use Rattle.remote_calls.specs.Sends.{SendsOne};
ghost use Rattle.tree_push.specs.Asking.{AsksSo, IsOrderFault, IsReply, Tells, is_asked, order_for, remote_fault};

use http_front::{Order, Outcome, What};
use ids::LibId;
use library_state::{Reply, Secret};
use remote_calls::{Remote, RemoteFault};
use std::alloc::Global;
use sync_rules::SyncFault;

/// The library to which is pushed, and the secret that is shown to it.
#[derive(Clone, Copy)]
pub struct Library {
    pub lib: LibId,
    pub secret: Secret,
}

/// Sends an order, and gives its reply; a refusal is one, however it is told.
///
/// `Remote` where the order has no outcome.
pub(crate) fn ask<R: Remote>(
    alloc: Global,
    remote: &mut R,
    library: &Library,
    what: What,
) -> Result<Reply, SyncFault>
    requires asked { is_asked what ≡ true }
    ensures value { AsksSo library.now what (R.sends remote.old) (R.sends remote.new) result }
    ensures faults { IfErr result IsOrderFault }
    ensures stays { R.peer remote.new ≡ R.peer remote.old }
{
    match send(alloc, remote, library, what) {
        Ok(outcome) => Ok(reply_in(outcome)),
        Err(fault) => Err(remote_fault(fault)),
    }
}

fn send<R: Remote>(
    alloc: Global,
    remote: &mut R,
    library: &Library,
    what: What,
) -> Result<Outcome, RemoteFault>
    requires asked { is_asked what ≡ true }
    ensures told { IfOk result (CanHave what) }
    ensures listed { SendsOne (R.sends remote.old) (R.sends remote.new) (order_for library.now what) result }
    ensures stays { R.peer remote.new ≡ R.peer remote.old }
{
    let order = Order {
        lib: Some(library.lib),
        secret: Some(library.secret),
        what,
    };
    remote.send(alloc, &order)
}

/// The reply that an outcome of a call tells.
fn reply_in(outcome: Outcome) -> Reply
    requires told { IsReply outcome }
    ensures value { Tells outcome result }
{
    match outcome {
        Outcome::Plain(reply, _) => reply,
        Outcome::Refused(why) => Reply::Refused(why),
        Outcome::Version => unreachable!(),
        Outcome::Same(_) => unreachable!(),
        Outcome::Packed(_) => unreachable!(),
        Outcome::Collected { .. } => unreachable!(),
    }
}

/// The fault of an order that has no outcome.
fn remote_fault(fault: RemoteFault) -> SyncFault
    ensures value { result ≡ remote_fault fault }
    ensures faults { IsOrderFault result }
{
    match fault {
        RemoteFault::NoMemory => SyncFault::NoMemory,
        other => SyncFault::Remote(other),
    }
}
