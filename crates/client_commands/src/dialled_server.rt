//! A server behind links, with what its list of sends tells of its count of faults.
ghost use Rattle.std.specs.Prelude.{◌≡◌, ◌≤◌, [], None, true, map, IfOk};
ghost use Rattle.ids.specs.Outcome.{ExactlyWith};
ghost use Rattle.http_client.specs.OrderOutcome.{CanHave};
ghost use Rattle.http_client.specs.RequestText.{HasRequest, IsHost};
ghost use Rattle.http_front.specs.Dial.{DialsOnly, count_sum};
ghost use Rattle.remote_calls.specs.Exchange.{link_view};
ghost use Rattle.remote_calls.specs.HttpRemote.{links_of};
ghost use Rattle.remote_calls.specs.Sends.{CountsSend, IsTooLarge, SendsOne, is_no_memory, size_told};
ghost use Rattle.remote_calls.specs.Spelling.{SpellsAll};
ghost use Rattle.client_commands.specs.SentFaults.{has_link_fault};

use http_front::{Dial, Order, Outcome};
use ids::Text;
use remote_calls::{HttpRemote, Remote, RemoteFault};
use std::alloc::Global;
use std::marker::Model;

/// A server at a port of a host, of which each link that failed is on the list of sends and in the count of faults.
pub(crate) struct DialledServer<D: Dial> {
    remote: HttpRemote<D>,
}

impl<D: Dial> Model for DialledServer<D> {
    ghost use Rattle.std.specs.Prelude.{◌≡◌, ◌≤◌, true};
    ghost use Rattle.remote_calls.specs.HttpRemote.{HttpRemoteView};
    ghost use Rattle.client_commands.specs.SentFaults.{has_link_fault};

    ghost Value = { HttpRemoteView };

    ghost view = { λ a. a.remote };

    ghost invariant = { λ a. record { counted : has_link_fault a.remote.sends ≡ true → 1 ≤ a.remote.links.faults } };
}

impl<D: Dial + Drop> DialledServer<D> {
    /// A server at this port of this host, to which no link was made yet.
    pub(crate) fn new(dial: D, host: Text, port: u16) -> DialledServer<D>
        requires name { IsHost host }
        ensures value { result ≡ record {
          peer = record {
            host = host;
            port = port;
            start = map (link_view D.L.left D.L.taken D.L.given D.L.asked D.L.faults) (D.back dial);
            dialled = D.dialled dial;
            faults = count_sum (D.faults dial) 0;
          };
          links = links_of (link_view D.L.left D.L.taken D.L.given D.L.asked D.L.faults) D.back D.faults dial None;
          sends = [];
        } }
    {
        DialledServer {
            remote: HttpRemote::new(dial, host, port),
        }
    }

    /// The dial, to which every link went back, and which was asked for no other port. Where a link failed its count is above 0.
    pub(crate) fn end(self) -> D
        ensures told { SpellsAll self.peer.host self.peer.start (map (link_view D.L.left D.L.taken D.L.given D.L.asked D.L.faults) (D.back result)) self.sends }
        ensures dialled { DialsOnly self.peer.host self.peer.port self.peer.dialled (D.dialled result) }
        ensures counted { has_link_fault self.sends ≡ true → 1 ≤ D.faults result }
    {
        let DialledServer { remote } = self;
        remote.end()
    }
}

impl<D: Dial> Remote for DialledServer<D> {
    ghost use Rattle.remote_calls.specs.HttpRemote.{HttpPeer};

    ghost Peer = { HttpPeer };

    ghost peer = { λ remote. remote.peer };

    ghost sends = { λ remote. remote.sends };

    ghost faults = { λ remote. remote.links.faults };

    fn send(&mut self, alloc: Global, order: &Order) -> Result<Outcome, RemoteFault>
        requires proper { HasRequest order.now }
        ensures told { IfOk result (CanHave order.now.what) }
        ensures too_large { ExactlyWith is_no_memory result RemoteFault.TooLarge (size_told order.now) (IsTooLarge order.now) }
        ensures listed { SendsOne self.old.sends self.new.sends order.now result }
        ensures faults { CountsSend self.old.links.faults self.new.links.faults result }
        ensures stays { self.new.peer ≡ self.old.peer }
    {
        self.remote.send(alloc, order)
    }

    fn rest(&mut self)
        ensures stays { (self.new.peer ≡ self.old.peer) × (self.new.sends ≡ self.old.sends) × (self.new.links.faults ≡ self.old.links.faults) }
    {
        self.remote.rest();
    }
}
