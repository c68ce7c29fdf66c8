//! Reading the reply to an order from a link.
ghost use Rattle.std.specs.Prelude.{◌≡◌, ◌+◌, IfErr, IfOk, OnErr, length};
ghost use Rattle.std.specs.Io.KnownBytes.{IsAtEnd};
ghost use Rattle.http_front.specs.Buffer.{Fills, to_read};
ghost use Rattle.http_front.specs.Link.{told_by};
ghost use Rattle.http_client.specs.Response.{IsCut, IsWhole};
ghost use Rattle.worker_server.specs.RequestSteps.{MayEnd, ReadsOn};
ghost use Rattle.remote_calls.specs.Exchange.{FaultAsked, FillAsked, IsFillFault, IsRead, ReadFails};
ghost use Rattle.remote_calls.specs.Sends.{CountsFailure};

use crate::error::RemoteFault;
use http_client::{Response, next_response};
use http_front::{Buffer, FillFault, Link, Order, Outcome};
use std::alloc::Global;

/// A reply that stands at the front of the bytes that were read.
#[derive(Drop)]
pub(crate) struct ReadReply {
    pub outcome: Outcome,
    /// How many of the bytes it has.
    pub used: u64,
    /// Whether the connection ends after it.
    pub closes: bool,
}

/// Reads until the reply to the order stands at the front of the buffer, and asks for nothing more then.
pub(crate) fn read_reply<L: Link>(
    alloc: Global,
    link: &mut L,
    buffer: &mut Buffer,
    order: &Order,
) -> Result<ReadReply, RemoteFault>
    ensures ok { IfOk result (λ reply. IsWhole order.now.what buffer.new reply.outcome reply.used reply.closes) }
    ensures err { IfErr result (ReadFails order.now.what buffer.new (L.left link.new)) }
    ensures to_read { to_read buffer.new (L.left link.new) ≡ to_read buffer.old (L.left link.old) }
    ensures reads { ReadsOn (MayEnd result) (IsCut order.now.what) buffer.old buffer.new (told_by L.taken L.given L.asked link.old) (told_by L.taken L.given L.asked link.new) }
    ensures last { IfErr result (λ fault. FaultAsked fault (told_by L.taken L.given L.asked link.old) (told_by L.taken L.given L.asked link.new)) }
    ensures faults { CountsFailure (L.faults link.old) (L.faults link.new) result }
{
    loop {
        match reply_in(alloc, order, buffer.front()) {
            Ok(None) => {}
            Ok(Some(reply)) => return Ok(reply),
            Err(fault) => return Err(fault),
        }
        let held = buffer.len();
        match fill(link, buffer) {
            Ok(0) => return Err(RemoteFault::Cut(held as u64)),
            Ok(_) => {}
            Err(fault) => return Err(fault),
        }
    }
}

/// The reply at the front of the bytes that were read, or none where it isn't all there.
fn reply_in(alloc: Global, order: &Order, held: &[u8]) -> Result<Option<ReadReply>, RemoteFault>
    ensures value { IsRead order.now.what held.now result }
{
    match next_response(alloc, order, held) {
        Ok(Response::Need) => Ok(None),
        Ok(
            Response::Whole {
                outcome,
                used,
                closes,
            },
        ) => Ok(Some(ReadReply {
            outcome,
            used,
            closes,
        })),
        Ok(Response::Bad(at)) => Err(RemoteFault::BadReply(at)),
        Err(_) => Err(RemoteFault::NoMemory),
    }
}

/// Takes a piece from the link, and says how many bytes came: none at the end of input.
fn fill<L: Link>(link: &mut L, buffer: &mut Buffer) -> Result<usize, RemoteFault>
    ensures value { IfOk result (λ n. length buffer.new ≡ length buffer.old + n) }
    ensures end { IfOk result (λ n. n ≡ 0 → IsAtEnd (L.left link.new)) }
    ensures err { OnErr result (buffer.new ≡ buffer.old) }
    ensures cause { IfErr result IsFillFault }
    ensures fills { Fills buffer.old buffer.new (told_by L.taken L.given L.asked link.old) (told_by L.taken L.given L.asked link.new) }
    ensures to_read { to_read buffer.new (L.left link.new) ≡ to_read buffer.old (L.left link.old) }
    ensures last { IfErr result (λ fault. FillAsked fault (told_by L.taken L.given L.asked link.old) (told_by L.taken L.given L.asked link.new)) }
    ensures faults { CountsFailure (L.faults link.old) (L.faults link.new) result }
{
    match buffer.fill(link) {
        Ok(count) => Ok(count),
        Err(FillFault::Link) => Err(RemoteFault::Link),
        Err(FillFault::NoMemory) => Err(RemoteFault::NoMemory),
    }
}
