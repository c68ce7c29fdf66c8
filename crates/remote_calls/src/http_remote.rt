//! A server behind links, as a remote.
ghost use Rattle.std.specs.Prelude.{◌≡◌, ◌++◌, [], None, Some, map, IfErr, IfOk, option_map};
ghost use Rattle.ids.specs.Outcome.{ExactlyWith};
ghost use Rattle.http_client.specs.OrderOutcome.{CanHave};
ghost use Rattle.http_client.specs.RequestText.{HasRequest, IsHost};
ghost use Rattle.remote_calls.specs.Exchange.{IsLinkCause, link_view, open_view};
ghost use Rattle.http_front.specs.Dial.{DialsOnly, count_sum};
ghost use Rattle.remote_calls.specs.HttpRemote.{AreMadeThere, GoesOver, LeavesAll, Reaches, SendsOver, Tries, ends_unanswered, keeps_open, left_over, links_in, links_of, sum_with};
ghost use Rattle.remote_calls.specs.Sends.{CountsFailure, CountsSend, CountsSends, IsTooLarge, SendsOne, is_no_memory, size_told};
ghost use Rattle.remote_calls.specs.Spelling.{SpellsAll};

use crate::error::RemoteFault;
use crate::link_choice::ready_link;
use crate::open_link::{OpenLink, send_on};
use crate::remote::{Remote, SentLog, list_send};
use http_client::{body_size, is_within_limit, request_bytes};
use http_front::{Dial, Link, Order, Outcome};
use http_server::Log;
use ids::Text;
use std::alloc::Global;
use std::marker::Model;

/// A server at a port of a host, asked over links of a dial.
///
/// A link is made as an order has none, and kept for the next one: up to 9,000 requests, and until a fault comes over it or
/// a reply closes. The link of the last send stays until the next, with what it gave, unless it is left by `rest`. What it gives
/// behind a reply is read as the reply to the next order. Where a link that was kept fails, or ends, before a byte of the reply,
/// the order is given once more, over a link that is made for it. It is never let go: `end` gives its links back.
pub struct HttpRemote<D: Dial> {
    dial: D,
    host: Text,
    port: u16,
    kept: Option<OpenLink<D::L>>,
    sends: SentLog,
    // The dial as it was handed in, for proofs alone.
    made: Log<D, u64>,
}

impl<D: Dial> Model for HttpRemote<D> {
    ghost use Rattle.http_client.specs.RequestText.{IsHost};
    ghost use Rattle.http_front.specs.Dial.{DialsOnly};
    ghost use Rattle.remote_calls.specs.Exchange.{link_view};
    ghost use Rattle.remote_calls.specs.HttpRemote.{HttpRemoteView, Reaches, TellsLinks, first_dialled, remote_of};
    ghost use Rattle.remote_calls.specs.Spelling.{IsSpelled};

    ghost Value = { HttpRemoteView };

    ghost view = { λ a. remote_of (link_view D.L.left D.L.taken D.L.given D.L.asked D.L.faults) D.back D.dialled D.faults a.host a.port a.dial a.kept a.made.items a.sends.items };

    ghost invariant = { λ a. record {
      name : IsHost a.host;
      spelled : IsSpelled (remote_of (link_view D.L.left D.L.taken D.L.given D.L.asked D.L.faults) D.back D.dialled D.faults a.host a.port a.dial a.kept a.made.items a.sends.items);
      links : TellsLinks (Reaches (link_view D.L.left D.L.taken D.L.given D.L.asked D.L.faults) D.reaches)
          (remote_of (link_view D.L.left D.L.taken D.L.given D.L.asked D.L.faults) D.back D.dialled D.faults a.host a.port a.dial a.kept a.made.items a.sends.items);
      dials : DialsOnly a.host a.port (first_dialled D.dialled a.made.items) (D.dialled a.dial);
    } };
}

impl<D: Dial + Drop> HttpRemote<D> {
    /// A server at this port of this host, to which no link was made yet. Whether a text is the name of a host,
    /// `http_client::is_host` tells. It takes no memory.
    pub fn new(dial: D, host: Text, port: u16) -> HttpRemote<D>
        requires name { IsHost host }
        ensures value { result ≡ record {
          peer = record {
            host = host;
            port = port;
            start = map (link_view D.L.left D.L.taken D.L.given D.L.asked D.L.faults) (D.back dial);
            dialled = D.dialled dial;
            faults = count_sum (D.faults dial) 0;
          };
          links = links_of (link_view D.L.left D.L.taken D.L.given D.L.asked D.L.faults) D.back D.faults dial None;
          sends = [];
        } }
    {
        let made = Log::new().and(&dial, &0);
        HttpRemote {
            dial,
            host,
            port,
            kept: None,
            sends: Log::new(),
            made,
        }
    }

    /// The dial, to which every link went back: the bytes that were moved on those that came back since `new`, where they tell
    /// them, are the requests and replies of the sends, and as many were made to this port of this host; it was asked for no other port
    /// since. Its count rose since where a send came to a failure of the link, and didn't fall where none did. It takes no memory.
    pub fn end(self) -> D
        ensures back { map (link_view D.L.left D.L.taken D.L.given D.L.asked D.L.faults) (D.back result) ≡ self.links.back ++ left_over self.links.kept }
        ensures told { SpellsAll self.peer.host self.peer.start (map (link_view D.L.left D.L.taken D.L.given D.L.asked D.L.faults) (D.back result)) self.sends }
        ensures reached { AreMadeThere (Reaches (link_view D.L.left D.L.taken D.L.given D.L.asked D.L.faults) D.reaches) self.peer
            (map (link_view D.L.left D.L.taken D.L.given D.L.asked D.L.faults) (D.back result)) }
        ensures dialled { DialsOnly self.peer.host self.peer.port self.peer.dialled (D.dialled result) }
        ensures faults { count_sum (D.faults result) 0 ≡ self.links.faults }
        ensures cause { CountsSends self.peer.faults self.sends self.links.faults }
    {
        let HttpRemote {
            dial,
            host: _,
            port: _,
            kept,
            sends: _,
            made: _,
        } = self;
        let mut dial = dial;
        hang_up(&mut dial, kept);
        dial
    }
}

impl<D: Dial> Remote for HttpRemote<D> {
    ghost use Rattle.remote_calls.specs.HttpRemote.{HttpPeer};

    ghost Peer = { HttpPeer };

    ghost peer = { λ remote. remote.peer };

    ghost sends = { λ remote. remote.sends };

    ghost faults = { λ remote. remote.links.faults };

    /// The faults, in the order in which they are looked for: `TooLarge`; then `Link` where no link could be made or the
    /// request could not be given whole; then `BadReply`, `Cut` and `Link` by what the link gave. Where the order is given once
    /// more, they are those of the second time. The list of sends and the links beside, a fault leaves all as it was.
    fn send(&mut self, alloc: Global, order: &Order) -> Result<Outcome, RemoteFault>
        requires proper { HasRequest order.now }
        ensures told { IfOk result (CanHave order.now.what) }
        ensures too_large { ExactlyWith is_no_memory result RemoteFault.TooLarge (size_told order.now) (IsTooLarge order.now) }
        ensures listed { SendsOne self.old.sends self.new.sends order.now result }
        ensures faults { CountsSend self.old.links.faults self.new.links.faults result }
        ensures stays { self.new.peer ≡ self.old.peer }

        // Which links it went over, what was given to them, and what they gave.
        ensures value { SendsOver (Reaches (link_view D.L.left D.L.taken D.L.given D.L.asked D.L.faults) D.reaches) self.old.peer.host self.old.peer.port order.now
            self.old.links self.new.links result }
    {
        let ending = send_over(
            alloc,
            &mut self.dial,
            &mut self.kept,
            &self.host,
            self.port,
            order,
        );
        list_send(&mut self.sends, order, &ending);
        ending
    }

    /// Gives the link that is kept back, if there is one. The next order has another.
    fn rest(&mut self)
        ensures stays { (self.new.peer ≡ self.old.peer) × (self.new.sends ≡ self.old.sends) × (self.new.links.faults ≡ self.old.links.faults) }

        // The link that was kept went back.
        ensures value { LeavesAll self.old.links self.new.links }
    {
        leave_kept(&mut self.dial, &mut self.kept);
    }
}

/// One order, over the link that is kept or another, or over both.
fn send_over<D: Dial>(
    alloc: Global,
    dial: &mut D,
    kept: &mut Option<OpenLink<D::L>>,
    host: &Text,
    port: u16,
    order: &Order,
) -> Result<Outcome, RemoteFault>
    requires proper { HasRequest order.now }
    requires name { IsHost host.now }
    ensures told { IfOk result (CanHave order.now.what) }
    ensures too_large { ExactlyWith is_no_memory result RemoteFault.TooLarge (size_told order.now) (IsTooLarge order.now) }
    ensures dialled { DialsOnly host.now port (D.dialled dial.old) (D.dialled dial.new) }
    ensures faults { CountsSend (links_of (link_view D.L.left D.L.taken D.L.given D.L.asked D.L.faults) D.back D.faults dial.old kept.old).faults
        (links_of (link_view D.L.left D.L.taken D.L.given D.L.asked D.L.faults) D.back D.faults dial.new kept.new).faults result }
    ensures value { SendsOver (Reaches (link_view D.L.left D.L.taken D.L.given D.L.asked D.L.faults) D.reaches) host.now port order.now
        (links_of (link_view D.L.left D.L.taken D.L.given D.L.asked D.L.faults) D.back D.faults dial.old kept.old)
        (links_of (link_view D.L.left D.L.taken D.L.given D.L.asked D.L.faults) D.back D.faults dial.new kept.new) result }
{
    if !is_within_limit(order) {
        return Err(RemoteFault::TooLarge(body_size(order)));
    }
    let text = match request_bytes(alloc, order, host, false) {
        Ok(text) => text,
        Err(_) => return Err(RemoteFault::NoMemory),
    };
    try_over(alloc, dial, kept, host, port, order, text.slice())
}

/// One order with this request. Where it goes over the link that is kept, and that fails or ends before a byte of the reply, it
/// is given once more, over a link that is made for it.
fn try_over<D: Dial>(
    alloc: Global,
    dial: &mut D,
    kept: &mut Option<OpenLink<D::L>>,
    host: &Text,
    port: u16,
    order: &Order,
    text: &[u8],
) -> Result<Outcome, RemoteFault>
    ensures told { IfOk result (CanHave order.now.what) }
    ensures cause { IfErr result IsLinkCause }
    ensures dialled { DialsOnly host.now port (D.dialled dial.old) (D.dialled dial.new) }
    ensures faults { CountsSend (links_of (link_view D.L.left D.L.taken D.L.given D.L.asked D.L.faults) D.back D.faults dial.old kept.old).faults
        (links_of (link_view D.L.left D.L.taken D.L.given D.L.asked D.L.faults) D.back D.faults dial.new kept.new).faults result }
    ensures value { Tries (λ link. Reaches (link_view D.L.left D.L.taken D.L.given D.L.asked D.L.faults) D.reaches link host.now port) order.now.what text.now
        (links_of (link_view D.L.left D.L.taken D.L.given D.L.asked D.L.faults) D.back D.faults dial.old kept.old)
        (links_of (link_view D.L.left D.L.taken D.L.given D.L.asked D.L.faults) D.back D.faults dial.new kept.new) result }
{
    let was_open = is_open(kept);
    let fault = match go_over(alloc, dial, kept, host, port, order, text) {
        Ok(outcome) => return Ok(outcome),
        Err(fault) => fault,
    };
    if !was_open {
        return Err(fault);
    }
    if !is_unanswered(fault, kept) {
        return Err(fault);
    }
    go_over(alloc, dial, kept, host, port, order, text)
}

/// One order with this request, over the link that is kept or another, which is kept then.
fn go_over<D: Dial>(
    alloc: Global,
    dial: &mut D,
    kept: &mut Option<OpenLink<D::L>>,
    host: &Text,
    port: u16,
    order: &Order,
    text: &[u8],
) -> Result<Outcome, RemoteFault>
    ensures told { IfOk result (CanHave order.now.what) }
    ensures cause { IfErr result IsLinkCause }
    ensures dialled { DialsOnly host.now port (D.dialled dial.old) (D.dialled dial.new) }
    ensures faults { CountsFailure (links_of (link_view D.L.left D.L.taken D.L.given D.L.asked D.L.faults) D.back D.faults dial.old kept.old).faults
        (links_of (link_view D.L.left D.L.taken D.L.given D.L.asked D.L.faults) D.back D.faults dial.new kept.new).faults result }
    ensures value { GoesOver (λ link. Reaches (link_view D.L.left D.L.taken D.L.given D.L.asked D.L.faults) D.reaches link host.now port) order.now.what text.now
        (links_of (link_view D.L.left D.L.taken D.L.given D.L.asked D.L.faults) D.back D.faults dial.old kept.old)
        (links_of (link_view D.L.left D.L.taken D.L.given D.L.asked D.L.faults) D.back D.faults dial.new kept.new) result }
{
    let mut chosen = match ready_link(alloc, dial, kept, host, port) {
        Ok(chosen) => chosen,
        Err(fault) => return Err(fault),
    };
    let ending = send_on(alloc, &mut chosen, order, text);
    put_kept(dial, kept, chosen);
    ending
}

/// Whether a link is kept to which a further request may be given.
fn is_open<L: Link>(kept: &Option<OpenLink<L>>) -> bool
    ensures value { result ≡ keeps_open (option_map (open_view (link_view L.left L.taken L.given L.asked L.faults)) kept.now) }
{
    match kept {
        Some(last) => last.keeps(),
        None => false,
    }
}

/// Whether the link that is kept failed, or ended, before a byte of a reply.
fn is_unanswered<L: Link>(fault: RemoteFault, kept: &Option<OpenLink<L>>) -> bool
    ensures value { result ≡ ends_unanswered fault (option_map (open_view (link_view L.left L.taken L.given L.asked L.faults)) kept.now) }
{
    match kept {
        Some(last) => last.is_unanswered(fault),
        None => false,
    }
}

/// Keeps a link where none is kept. A link can't be dropped, so one that was kept would be given back.
fn put_kept<D: Dial>(dial: &mut D, kept: &mut Option<OpenLink<D::L>>, chosen: OpenLink<D::L>)
    requires none { kept.old ≡ None }
    ensures after { kept.new ≡ Some chosen }
    ensures stays { dial.new ≡ dial.old }
{
    match kept.replace(chosen) {
        Some(last) => hang_up(dial, Some(last)),
        None => {}
    }
}

/// Gives the link that is kept back, if there is one, and keeps none.
fn leave_kept<D: Dial>(dial: &mut D, kept: &mut Option<OpenLink<D::L>>)
    ensures value { LeavesAll (links_of (link_view D.L.left D.L.taken D.L.given D.L.asked D.L.faults) D.back D.faults dial.old kept.old)
        (links_of (link_view D.L.left D.L.taken D.L.given D.L.asked D.L.faults) D.back D.faults dial.new kept.new) }
    ensures dialled { D.dialled dial.new ≡ D.dialled dial.old }
{
    let last = kept.take();
    hang_up(dial, last);
}

/// Gives the link that is kept back, if there is one.
fn hang_up<D: Dial>(dial: &mut D, kept: Option<OpenLink<D::L>>)
    ensures back { D.back dial.new ≡ D.back dial.old ++ links_in kept }
    ensures dialled { D.dialled dial.new ≡ D.dialled dial.old }
    ensures faults { D.faults dial.new ≡ sum_with D.L.faults (D.faults dial.old) kept }
{
    match kept {
        Some(last) => {
            let OpenLink {
                link,
                buffer: _,
                count: _,
                over: _,
            } = last;
            dial.hang_up(link);
        }
        None => {}
    }
}
