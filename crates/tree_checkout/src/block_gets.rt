//! One block of a file, got from a library.
ghost use Rattle.std.specs.Prelude.{◌≡◌, ◌↔◌, IsTrue, IfOk};
ghost use Rattle.http_client.specs.OrderOutcome.{CanAnswer, CanHave};
ghost use Rattle.http_front.specs.declared.order.What.TheVariants as what;
ghost use Rattle.http_front.specs.declared.outcome.Outcome.TheVariants as outcome;
ghost use Rattle.library_state.specs.declared.tag.Tag.{Tag};
ghost use Rattle.object_graph.specs.Objects.{block_key};
ghost use Rattle.remote_calls.specs.Sends.{SendsOne};
ghost use Rattle.tree_checkout.specs.BlockGets.{ChecksSo, GetsSo, TellsSo, block_order};

use crate::fault::remote_fault;
use http_front::{Order, Outcome, What};
use ids::{Bytes, Key, Kind, LibId, ObjId};
use library_state::{Reply, Secret};
use remote_calls::{Remote, RemoteFault};
use std::alloc::Global;
use sync_rules::SyncFault;

/// The library of which blocks are got, and the secret that is shown to it.
#[derive(Clone, Copy)]
pub struct Source {
    pub lib: LibId,
    pub secret: Secret,
}

/// Gets a block, and compares its SHA-1 with its name.
///
/// `Remote` where the order has no outcome; `Refused` where it is refused; `Damaged` where other bytes came.
pub(crate) fn get_block<R: Remote>(
    alloc: Global,
    remote: &mut R,
    source: &Source,
    id: &ObjId,
) -> Result<Bytes, SyncFault>
    ensures value { GetsSo source.now id.now (R.sends remote.old) (R.sends remote.new) result }
    ensures stays { R.peer remote.new ≡ R.peer remote.old }
{
    match send_get(alloc, remote, source, id) {
        Ok(outcome) => block_in(id, outcome),
        Err(fault) => Err(remote_fault(fault)),
    }
}

/// Asks for a block.
fn send_get<R: Remote>(
    alloc: Global,
    remote: &mut R,
    source: &Source,
    id: &ObjId,
) -> Result<Outcome, RemoteFault>
    ensures told { IfOk result (CanHave (what.Get (block_key id.now))) }
    ensures listed { SendsOne (R.sends remote.old) (R.sends remote.new) (block_order source.now id.now) result }
    ensures stays { R.peer remote.new ≡ R.peer remote.old }
{
    let order = Order {
        lib: Some(source.lib),
        secret: Some(source.secret),
        what: What::Get(Key {
            kind: Kind::Block,
            id: *id,
        }),
    };
    remote.send(alloc, &order)
}

/// The block that an outcome gives.
fn block_in(id: &ObjId, outcome: Outcome) -> Result<Bytes, SyncFault>
    requires told { CanHave (what.Get (block_key id.now)) outcome }
    ensures value { TellsSo id.now outcome result }
{
    match outcome {
        Outcome::Plain(reply, _) => block_of(id, reply),
        Outcome::Refused(why) => Err(SyncFault::Refused(why)),
        Outcome::Version => unreachable!(),
        Outcome::Same(_) => unreachable!(),
        Outcome::Packed(_) => unreachable!(),
        Outcome::Collected { .. } => unreachable!(),
    }
}

/// The block that a library's reply gives.
fn block_of(id: &ObjId, reply: Reply) -> Result<Bytes, SyncFault>
    requires told { CanAnswer (what.Get (block_key id.now)) reply }
    ensures value { (tag : Tag) → TellsSo id.now (outcome.Plain reply tag) result }
{
    match reply {
        Reply::Got(bytes) => checked(id, bytes),
        Reply::Refused(why) => Err(SyncFault::Refused(why)),
        Reply::Checked => unreachable!(),
        Reply::HeadIs(_) => unreachable!(),
        Reply::Stored(_) => unreachable!(),
        Reply::Absent(_) => unreachable!(),
        Reply::Updated(_) => unreachable!(),
        Reply::Limited => unreachable!(),
        Reply::Listed(_) => unreachable!(),
    }
}

/// Bytes, if they have this name.
fn checked(id: &ObjId, bytes: Bytes) -> Result<Bytes, SyncFault>
    ensures value { ChecksSo id.now bytes result }
{
    let got = ObjId::of(bytes.slice());
    if is_same(&got, id) {
        Ok(bytes)
    } else {
        Err(SyncFault::Damaged { want: *id, got })
    }
}

/// Whether two ids are one.
fn is_same(left: &ObjId, right: &ObjId) -> bool
    ensures value { IsTrue result ↔ (left.now ≡ right.now) }
{
    *left == *right
}
