//! Answering one request: its calls are asked of the host, and its reply is written.
ghost use Rattle.std.specs.Prelude.{◌≡◌, ◌+◌, ◌++◌, ◌≤◌, List, Some, length, drop, IfSome};
ghost use Rattle.std.specs.List.{slice_range};
ghost use Rattle.http_front.specs.Order.{IsOrder, OrdersAs};
ghost use Rattle.http_front.specs.ReplyText.{text};
ghost use Rattle.worker_server.specs.Calls.{Serves, ServesOrder, collected_outcome, outcome_without_library, refusal_of, rules_at};

use crate::asking::{ask_one, get_each, put_each};
use crate::host::{Collected, Host};
use crate::looking::head_of;
use http_front::{
    Buffer, Head, Order, OrderFault, Outcome, ReplyBytes, What, order_of, order_of_own, reply_own,
};
use ids::LibId;
use library_state::{Act, Refusal, Secret};
use std::alloc::Global;

/// Asks what the request with this head wants, which stands at the front of the buffer and is used, and makes the reply
/// to it, of which a long object lies where the host gave it. It is None where there was no memory for the text of the
/// outcome, nor for that of the refusal for want of memory.
pub fn reply_to<H: Host>(
    alloc: Global,
    host: &H,
    pass: &mut H::Pass,
    head: &Head,
    buffer: &mut Buffer,
    closes: bool,
) -> Option<ReplyBytes>
    requires ready { H.ready host.now pass.old }
    requires fits { head.now.used + head.now.body ≤ length buffer.old }
    ensures ready { H.ready host.now pass.new }
    ensures serves { (outcome : Outcome) × (operations : List H.Operation)
        × Serves (rules_at (H.shows host.now) H.asks H.spares H.collects H.looks) (H.view pass.old) (IsOrder head.now.method head.now.target head.now.token head.now.tag (slice_range buffer.old head.now.used (head.now.used + head.now.body))) outcome operations (H.view pass.new)
        × IfSome result (λ reply. reply.front ++ reply.object ≡ text outcome closes) }
    ensures left { buffer.new ≡ drop (head.now.used + head.now.body) buffer.old }
{
    let outcome = outcome_of(alloc, host, pass, head, buffer);
    match reply_own(alloc, outcome, closes) {
        Ok(reply) => Some(reply),
        Err(_) => refusal_for_memory(alloc, closes),
    }
}

/// The text of the refusal for want of memory, which is short.
fn refusal_for_memory(alloc: Global, closes: bool) -> Option<ReplyBytes>
    ensures value { IfSome result (λ reply. reply.front ++ reply.object ≡ text (Outcome.Refused Refusal.NoMemory) closes) }
{
    match reply_own(alloc, Outcome::Refused(Refusal::NoMemory), closes) {
        Ok(reply) => Some(reply),
        Err(_) => None,
    }
}

/// Reads what the request asks for, and asks it. A request that is refused as it is read has no call.
fn outcome_of<H: Host>(
    alloc: Global,
    host: &H,
    pass: &mut H::Pass,
    head: &Head,
    buffer: &mut Buffer,
) -> Outcome
    requires ready { H.ready host.now pass.old }
    requires fits { head.now.used + head.now.body ≤ length buffer.old }
    ensures ready { H.ready host.now pass.new }
    ensures serves { (operations : List H.Operation)
        × Serves (rules_at (H.shows host.now) H.asks H.spares H.collects H.looks) (H.view pass.old) (IsOrder head.now.method head.now.target head.now.token head.now.tag (slice_range buffer.old head.now.used (head.now.used + head.now.body))) result operations (H.view pass.new) }
    ensures left { buffer.new ≡ drop (head.now.used + head.now.body) buffer.old }
{
    match next_order(alloc, head, buffer) {
        Ok(order) => answer_order(alloc, host, pass, order),
        Err(fault) => Outcome::Refused(refusal_of(fault)),
    }
}

/// The longest body that is lent to the reader of its order, which copies what it keeps.
const MOST_LENT: usize = 65_536;

/// What the request with this head asks for, which stands at the front of the buffer and is used.
fn next_order(alloc: Global, head: &Head, buffer: &mut Buffer) -> Result<Order, OrderFault>
    requires fits { head.now.used + head.now.body ≤ length buffer.old }
    ensures value { OrdersAs result (IsOrder head.now.method head.now.target head.now.token head.now.tag (slice_range buffer.old head.now.used (head.now.used + head.now.body))) }
    ensures left { buffer.new ≡ drop (head.now.used + head.now.body) buffer.old }
{
    let size = head.body as usize;
    if size > MOST_LENT {
        return own_order(alloc, head, buffer);
    }
    let front = buffer.front();
    let start = head.used as usize;
    let end = start + size;
    let order = order_of(alloc, head, &front[start..end]);
    buffer.skip(end);
    order
}

/// The same of a long body: it is taken out of the buffer, and so the object of a PUT is not copied.
fn own_order(alloc: Global, head: &Head, buffer: &mut Buffer) -> Result<Order, OrderFault>
    requires fits { head.now.used + head.now.body ≤ length buffer.old }
    ensures value { OrdersAs result (IsOrder head.now.method head.now.target head.now.token head.now.tag (slice_range buffer.old head.now.used (head.now.used + head.now.body))) }
    ensures left { buffer.new ≡ drop (head.now.used + head.now.body) buffer.old }
{
    let size = head.body as usize;
    buffer.skip(head.used as usize);
    match buffer.take_front(size) {
        Ok(body) => order_of_own(alloc, head, body),
        Err(_) => {
            buffer.skip(size);
            Err(OrderFault::NoMemory)
        }
    }
}

/// The refusal of a request that has no order.
fn refusal_of(fault: OrderFault) -> Refusal
    ensures { result ≡ refusal_of fault }
{
    match fault {
        OrderFault::Refused(refusal) => refusal,
        OrderFault::NoMemory => Refusal::NoMemory,
    }
}

/// Asks the host what an order wants, and makes its outcome of the answers. An order that names no library and doesn't ask for
/// the version is refused without a call. The objects of an order are handed on, and not copied.
pub fn answer_order<H: Host>(alloc: Global, host: &H, pass: &mut H::Pass, order: Order) -> Outcome
    requires ready { H.ready host.now pass.old }
    ensures ready { H.ready host.now pass.new }
    ensures serves { (operations : List H.Operation) × ServesOrder (rules_at (H.shows host.now) H.asks H.spares H.collects H.looks) (H.view pass.old) order result operations (H.view pass.new) }
{
    let Order { lib, secret, what } = order;
    match lib {
        Some(lib) => outcome_by(alloc, host, pass, lib, secret, what),
        None => outcome_without_library(what),
    }
}

/// The outcome of an order that names no library.
fn outcome_without_library(what: What) -> Outcome
    ensures { result ≡ outcome_without_library what }
{
    match what {
        What::Version => Outcome::Version,
        _ => Outcome::Refused(Refusal::NoCall),
    }
}

/// Asks a library what is wanted of it.
fn outcome_by<H: Host>(
    alloc: Global,
    host: &H,
    pass: &mut H::Pass,
    lib: LibId,
    secret: Option<Secret>,
    what: What,
) -> Outcome
    requires ready { H.ready host.now pass.old }
    ensures ready { H.ready host.now pass.new }
    ensures serves { (operations : List H.Operation)
        × ServesOrder (rules_at (H.shows host.now) H.asks H.spares H.collects H.looks) (H.view pass.old) (record { lib = Some lib; secret = secret; what = what }) result operations (H.view pass.new) }
{
    match what {
        What::Version => Outcome::Version,
        What::Check(op) => ask_one(alloc, host, pass, lib, secret, Act::Check(op)),
        What::Head(tag) => head_of(alloc, host, pass, lib, secret, tag),
        What::Update(commit) => ask_one(alloc, host, pass, lib, secret, Act::Update(commit)),
        What::Get(key) => ask_one(alloc, host, pass, lib, secret, Act::Get(key)),
        What::Put(key, bytes) => ask_one(alloc, host, pass, lib, secret, Act::Put(key, bytes)),
        What::Missing(kind, ids) => {
            ask_one(alloc, host, pass, lib, secret, Act::Missing(kind, ids))
        }
        What::PutFs(rows) => put_each(alloc, host, pass, lib, secret, rows),
        What::GetFs(ids) => get_each(alloc, host, pass, lib, secret, ids.slice()),
        What::Ids(server, client) => {
            ask_one(alloc, host, pass, lib, secret, Act::Ids(server, client))
        }
        What::Limit(days) => ask_one(alloc, host, pass, lib, secret, Act::Limit(days)),
        What::Collect => collected_outcome(host.collect(alloc, pass, lib, secret)),
    }
}

/// What is replied to a request for a collection.
fn collected_outcome(told: Collected) -> Outcome
    ensures { result ≡ collected_outcome told }
{
    match told {
        Collected::Done { number, removed } => Outcome::Collected { number, removed },
        Collected::Refused(why) => Outcome::Refused(why),
    }
}
