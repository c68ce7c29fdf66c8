//! A library in memory, as a remote.
ghost use Rattle.std.specs.Prelude.{◌≡◌, List, [], IfOk, ⊤};
ghost use Rattle.ids.specs.FaultCount.{is_due};
ghost use Rattle.ids.specs.Outcome.{ExactlyWith};
ghost use Rattle.http_client.specs.OrderOutcome.{CanHave};
ghost use Rattle.http_client.specs.RequestText.{HasRequest};
ghost use Rattle.worker_server.specs.Calls.{ServesOrder};
ghost use Rattle.remote_calls.specs.DeskRemote.{DesksOver, desk_rules};
ghost use Rattle.remote_calls.specs.Sends.{CountsFailure, CountsSend, IsTooLarge, SendsOne, Sent, is_no_memory, size_told};

use crate::desk_host::DeskHost;
use crate::error::RemoteFault;
use crate::order_copy::copy_order;
use crate::remote::{Remote, SentLog, list_send};
use depot::Depot;
use http_client::{body_size, is_within_limit};
use http_front::{Order, Outcome};
use http_server::Log;
use ids::Items;
use object_store::MemoryShelf;
use std::alloc::Global;
use std::marker::{Model, PhantomData};
use worker_server::answer_order;

/// A library in memory that answers orders itself, for tests and measures.
///
/// An order is answered at the moment that is the number of orders taken before, with the library's opening and a count of 0
/// as its tag. The first order has number 0, the next 1, and so on; one whose number stands in `fails` isn't asked, and has
/// `Link`. An order that is too large, or that there is no memory to copy, isn't taken and has no number. One for a collection takes
/// turns of at most 1,000 objects, all at its moment, until the collection ended or a turn is refused.
#[derive(Drop)]
pub struct DeskRemote {
    depot: Depot<MemoryShelf>,
    fails: Items<u64>,
    count: u64,
    faults: u64,
    sends: SentLog,
}

impl Model for DeskRemote {
    ghost use Rattle.remote_calls.specs.DeskRemote.{DeskView, desk_code};

    ghost Value = { DeskView };

    ghost coded = { desk_code };

    ghost view = { λ a. record { depot = a.depot; fails = a.fails; count = a.count; faults = a.faults; sends = a.sends.items } };
}

impl DeskRemote {
    /// A remote over this library, that was sent nothing. It takes no memory.
    pub fn new(depot: Depot<MemoryShelf>, fails: Items<u64>) -> DeskRemote
        ensures value { result ≡ record { depot = depot; fails = fails; count = 0; faults = 0; sends = [] } }
    {
        DeskRemote {
            depot,
            fails,
            count: 0,
            faults: 0,
            sends: Log::new(),
        }
    }

    /// The library.
    pub fn depot(&self) -> &Depot<MemoryShelf>
        ensures value { result.now ≡ self.now.depot }
    {
        &self.depot
    }
}

impl Remote for DeskRemote {
    ghost use Rattle.std.specs.Prelude.{List, ℕ};

    ghost Peer = { List ℕ };

    ghost peer = { λ remote. remote.fails };

    ghost sends = { λ remote. remote.sends };

    ghost faults = { λ remote. remote.faults };

    /// `TooLarge` is looked for first, then `Link`. Neither `Cut` nor `BadReply` comes. With any fault the library is as it
    /// was.
    fn send(&mut self, alloc: Global, order: &Order) -> Result<Outcome, RemoteFault>
        requires proper { HasRequest order.now }
        ensures told { IfOk result (CanHave order.now.what) }
        ensures too_large { ExactlyWith is_no_memory result RemoteFault.TooLarge (size_told order.now) (IsTooLarge order.now) }
        ensures listed { SendsOne self.old.sends self.new.sends order.now result }
        ensures faults { CountsSend self.old.faults self.new.faults result }
        ensures stays { self.new.fails ≡ self.old.fails }

        // What the library answered, and at which moment.
        ensures value { DesksOver order.now self.old self.new result }
    {
        let ending = send_at(
            alloc,
            &mut self.depot,
            self.fails.slice(),
            &mut self.count,
            &mut self.faults,
            order,
        );
        list_send(&mut self.sends, order, &ending);
        ending
    }

    /// Nothing is kept for the next order, and the library and its numbers are as they were.
    fn rest(&mut self)
        ensures stays { (self.new.fails ≡ self.old.fails) × (self.new.sends ≡ self.old.sends) × (self.new.faults ≡ self.old.faults) }
        ensures value { self.new ≡ self.old }
    {}
}

/// The same, but for the list.
fn send_at(
    alloc: Global,
    depot: &mut Depot<MemoryShelf>,
    fails: &[u64],
    count: &mut u64,
    faults: &mut u64,
    order: &Order,
) -> Result<Outcome, RemoteFault>
    requires proper { HasRequest order.now }
    ensures told { IfOk result (CanHave order.now.what) }
    ensures too_large { ExactlyWith is_no_memory result RemoteFault.TooLarge (size_told order.now) (IsTooLarge order.now) }
    ensures faults { CountsFailure faults.old faults.new result }
    ensures value { (before after : List Sent) → DesksOver order.now
        (record { depot = depot.old; fails = fails.now; count = count.old; faults = faults.old; sends = before })
        (record { depot = depot.new; fails = fails.now; count = count.new; faults = faults.new; sends = after }) result }
{
    if !is_within_limit(order) {
        return Err(RemoteFault::TooLarge(body_size(order)));
    }
    let moment = *count;
    if is_due_at(fails, moment) {
        *count = moment.saturating_add(1);
        *faults = faults.saturating_add(1);
        return Err(RemoteFault::Link);
    }
    let copied = match copy_order(alloc, order) {
        Ok(copied) => copied,
        Err(_) => return Err(RemoteFault::NoMemory),
    };
    *count = moment.saturating_add(1);
    Ok(answer_at(alloc, depot, moment, copied))
}

/// Whether the order of this number is to fail.
fn is_due_at(fails: &[u64], number: u64) -> bool
    ensures value { result ≡ is_due fails.now number }
{
    fails.iter().any(|n| *n == number)
}

/// Asks the library what an order wants.
fn answer_at(alloc: Global, depot: &mut Depot<MemoryShelf>, moment: u64, order: Order) -> Outcome
    requires proper { HasRequest order }
    ensures told { CanHave order.what result }
    ensures serves { (lines : List ⊤) × ServesOrder (desk_rules moment) depot.old order result lines depot.new }
{
    let host = DeskHost {
        moment,
        shelf: PhantomData,
    };
    answer_order(alloc, &host, depot, order)
}
