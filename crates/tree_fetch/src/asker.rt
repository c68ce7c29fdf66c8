//! Whom a fetch asks, and what one order comes to.
ghost use Rattle.std.specs.Prelude.{◌≡◌};
ghost use Rattle.http_client.specs.RequestText.{HasRequest, IsAsked};
ghost use Rattle.tree_fetch.specs.Asking.{AsksSo, GetsObject, ended_as, order_of, sync_fault};

use crate::told::bytes_told;
use http_front::{Order, Outcome, What};
use ids::{Bytes, Key, LibId};
use library_state::Secret;
use remote_calls::{Remote, RemoteFault};
use std::alloc::Global;
use sync_rules::SyncFault;

/// A library, and a secret of it with which it is asked.
#[derive(Clone, Copy)]
pub struct Asker {
    pub lib: LibId,
    pub secret: Secret,
}

/// The bytes of a block or a commit, asked for by its key. What is given isn't looked at, and a refusal is `Refused`.
pub(crate) fn get_object<R: Remote>(
    alloc: Global,
    remote: &mut R,
    asker: &Asker,
    key: Key,
) -> Result<Bytes, SyncFault>
    requires proper { IsAsked (What.Get key) }
    ensures value { GetsObject asker.now (R.sends remote.old) (R.sends remote.new) key result }
    ensures stays { R.peer remote.new ≡ R.peer remote.old }
{
    let outcome = match ask(alloc, remote, asker, What::Get(key)) {
        Ok(outcome) => outcome,
        Err(fault) => return Err(fault),
    };
    match bytes_told(outcome) {
        Ok(bytes) => Ok(bytes),
        Err(why) => Err(SyncFault::Refused(why)),
    }
}

/// Asks for something, and gives the outcome: one that the order can have.
///
/// One order is sent, unless there was no memory. One without an outcome is `Remote`.
pub fn ask<R: Remote>(
    alloc: Global,
    remote: &mut R,
    asker: &Asker,
    what: What,
) -> Result<Outcome, SyncFault>
    requires proper { HasRequest (order_of asker.now what) }
    ensures value { AsksSo (R.sends remote.old) (R.sends remote.new) (order_of asker.now what) result }
    ensures stays { R.peer remote.new ≡ R.peer remote.old }
{
    match send(alloc, remote, asker, what) {
        Ok(outcome) => Ok(outcome),
        Err(fault) => Err(sync_fault(fault)),
    }
}

/// Sends the order for something.
fn send<R: Remote>(
    alloc: Global,
    remote: &mut R,
    asker: &Asker,
    what: What,
) -> Result<Outcome, RemoteFault>
    requires proper { HasRequest (order_of asker.now what) }
    ensures value { AsksSo (R.sends remote.old) (R.sends remote.new) (order_of asker.now what) (ended_as result) }
    ensures stays { R.peer remote.new ≡ R.peer remote.old }
{
    let order = Order {
        lib: Some(asker.lib),
        secret: Some(asker.secret),
        what,
    };
    remote.send(alloc, &order)
}

/// Why a sync ends with an order without an outcome.
fn sync_fault(fault: RemoteFault) -> SyncFault
    ensures value { result ≡ sync_fault fault }
{
    match fault {
        RemoteFault::NoMemory => SyncFault::NoMemory,
        other => SyncFault::Remote(other),
    }
}
