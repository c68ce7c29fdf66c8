//! A link that is kept between sends, and one order on it.
ghost use Rattle.std.specs.Prelude.{◌≡◌, true, IfErr, IfOk};
ghost use Rattle.http_client.specs.OrderOutcome.{CanHave};
ghost use Rattle.remote_calls.specs.Exchange.{Exchanges, IsLinkCause, link_view, open_view};
ghost use Rattle.remote_calls.specs.HttpRemote.{is_unanswered, keeps};
ghost use Rattle.remote_calls.specs.Sends.{CountsFailure};

use crate::error::RemoteFault;
use crate::reply_reading::{ReadReply, read_reply};
use http_front::{Buffer, Link, Order, Outcome};
use std::alloc::Global;

/// The most requests that are given to one link: a server answers 10,000.
const MOST_ON_LINK: u64 = 9_000;

/// A link that is kept between sends.
#[derive(Drop)]
pub(crate) struct OpenLink<L> {
    pub link: L,
    /// The bytes that it gave and that no reply used.
    pub buffer: Buffer,
    /// How many requests were given to it, the last perhaps in part.
    pub count: u64,
    /// Whether no further request may be given to it: after a fault, or a reply that closes.
    pub over: bool,
}

impl<L> OpenLink<L> {
    /// Whether a further request may be given to it.
    pub fn keeps(&self) -> bool
        ensures value { result ≡ keeps self.now.over self.now.count }
    {
        !self.over && self.count < MOST_ON_LINK
    }

    /// Whether it failed with this, or ended, before a byte of a reply.
    pub fn is_unanswered(&self, fault: RemoteFault) -> bool
        ensures value { result ≡ is_unanswered fault self.now.buffer }
    {
        match fault {
            RemoteFault::Link => self.buffer.len() == 0,
            RemoteFault::Cut(_) => self.buffer.len() == 0,
            _ => false,
        }
    }
}

/// Gives a request to a link, and reads the reply to its order. After a fault the link is over, and what it gave is kept
/// unread.
pub(crate) fn send_on<L: Link>(
    alloc: Global,
    chosen: &mut OpenLink<L>,
    order: &Order,
    text: &[u8],
) -> Result<Outcome, RemoteFault>
    requires within { keeps chosen.old.over chosen.old.count ≡ true }
    ensures told { IfOk result (CanHave order.now.what) }
    ensures value { Exchanges order.now.what text.now
        (open_view (link_view L.left L.taken L.given L.asked L.faults) chosen.old)
        (open_view (link_view L.left L.taken L.given L.asked L.faults) chosen.new) result }
    ensures cause { IfErr result IsLinkCause }
    ensures faults { CountsFailure (L.faults chosen.old.link) (L.faults chosen.new.link) result }
{
    chosen.count += 1;
    chosen.over = true;
    match chosen.link.give(text) {
        Ok(()) => {}
        Err(_) => return Err(RemoteFault::Link),
    }
    let reply = match read_reply(alloc, &mut chosen.link, &mut chosen.buffer, order) {
        Ok(reply) => reply,
        Err(fault) => return Err(fault),
    };
    let ReadReply {
        outcome,
        used,
        closes,
    } = reply;
    chosen.buffer.skip(used as usize);
    chosen.over = closes;
    Ok(outcome)
}
