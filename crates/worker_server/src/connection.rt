//! A connection: one request after another is read, answered and replied to.
ghost use Rattle.std.specs.Prelude.{◌≡◌, ◌==◌, ◌||◌, ℕ, List, Some};
ghost use Rattle.ids.specs.FaultCount.{Rose};
ghost use Rattle.http_front.specs.Buffer.{to_read};
ghost use Rattle.http_front.specs.Link.{told_by};
ghost use Rattle.worker_server.specs.Calls.{Told, Ran, rules_at};
ghost use Rattle.worker_server.specs.RequestSteps.{CountsServed, OneServed, StepAsked};
ghost use Rattle.worker_server.specs.ServedConnection.{CountsEnd, EndsAsked, SessionInTime, last_request};

use crate::answering::reply_to;
use crate::giving::give_reply;
use crate::host::Host;
use crate::requesting::next_request;
use crate::served::Served;
use http_front::{Buffer, Head, Link};
use std::alloc::Global;

/// The most requests that are answered on one connection.
const MOST_REQUESTS: u64 = 10_000;

/// Serves one connection: reads requests from the link, asks them of the host through the pass, and gives the replies
/// in the order of the requests.
///
/// The interim reply of a head that waits for one is given before its reply, also where its body is then cut short. What is
/// no request is refused with its status: 400, 413, 431 or 501. No reply waits for more input. One request,
/// what is read of its body beside it, what was answered to it, the bytes of its reply and a piece of 65,536 bytes are in
/// memory at a time; a reply packs files and directories of at most 268,435,456 bytes. After a write fault a front of the
/// last reply was given, and every other was given whole.
pub fn serve_session<H: Host, L: Link>(
    alloc: Global,
    host: &H,
    pass: &mut H::Pass,
    link: &mut L,
) -> Served
    requires ready { H.ready host.now pass.old }
    ensures ready { H.ready host.now pass.new }

    // Where the link tells what it has left: the bytes given are the texts of the outcomes of the requests that those
    // bytes spell. Where it tells what it was asked besides: no reply waited for more input, and where nothing came no
    // more was asked for.
    ensures session { (input : List ℕ) → L.left link.old ≡ Some input
        → SessionInTime (rules_at (H.shows host.now) H.asks H.spares H.collects H.looks) input (told_by L.taken L.given L.asked link.old)
        (told_by L.taken L.given L.asked link.new) (H.view pass.old) (H.view pass.new) result }

    // Of every link: the calls that were asked.
    ensures ran { (calls : List (Told H.Operation)) × Ran (rules_at (H.shows host.now) H.asks H.spares H.collects H.looks) (H.view pass.old) calls (H.view pass.new) }

    // The link's count of faults rose in the first two cases, and stayed in every other.
    ensures read_fault { result ≡ Served.ReadFault → Rose (L.faults link.old) (L.faults link.new) }
    ensures write_fault { result ≡ Served.WriteFault → Rose (L.faults link.old) (L.faults link.new) }
    ensures faults { CountsEnd (L.faults link.old) (L.faults link.new) result }

    // Where the link tells what it was asked: a take that failed was the last of it, and where a give failed bytes came
    // as it was asked last, or it was at its end.
    ensures last { EndsAsked result (told_by L.taken L.given L.asked link.old) (told_by L.taken L.given L.asked link.new) (L.left link.new) }
{
    let mut buffer = match Buffer::new(alloc) {
        Ok(buffer) => buffer,
        Err(_) => return Served::NoMemory,
    };
    for number in 0..MOST_REQUESTS - 1 {
        match serve_one(alloc, host, pass, link, &mut buffer, number) {
            Ok(false) => {}
            Ok(true) => return Served::Ended,
            Err(how) => return how,
        }
    }
    match serve_one(alloc, host, pass, link, &mut buffer, MOST_REQUESTS - 1) {
        Ok(_) => Served::Limit,
        Err(how) => how,
    }
}

/// Serves the request of this number, counted from 0, and says whether the connection closes after it.
fn serve_one<H: Host, L: Link>(
    alloc: Global,
    host: &H,
    pass: &mut H::Pass,
    link: &mut L,
    buffer: &mut Buffer,
    number: u64,
) -> Result<bool, Served>
    requires ready { H.ready host.now pass.old }
    ensures ready { H.ready host.now pass.new }
    ensures one { (rest : List ℕ) → to_read buffer.old (L.left link.old) ≡ Some rest
        → OneServed (rules_at (H.shows host.now) H.asks H.spares H.collects H.looks) number rest buffer.old buffer.new (L.left link.new)
        (H.view pass.old) (H.view pass.new) (told_by L.taken L.given L.asked link.old) (told_by L.taken L.given L.asked link.new) result }
    ensures ran { (calls : List (Told H.Operation)) × Ran (rules_at (H.shows host.now) H.asks H.spares H.collects H.looks) (H.view pass.old) calls (H.view pass.new) }
    ensures last { StepAsked result (told_by L.taken L.given L.asked link.old) (told_by L.taken L.given L.asked link.new) (L.left link.old) (L.left link.new) }
    ensures faults { CountsServed (L.faults link.old) (L.faults link.new) result }
{
    let head = match next_request(alloc, link, buffer) {
        Ok(head) => head,
        Err(how) => return Err(how),
    };
    let closes = closes_at(&head, number);
    let reply = match reply_to(alloc, host, pass, &head, buffer, closes) {
        Some(reply) => reply,
        None => return Err(Served::NoMemory),
    };
    match give_reply(link, &reply) {
        Ok(()) => {}
        Err(_) => return Err(Served::WriteFault),
    }
    Ok(closes)
}

/// Whether the connection closes after the request of this number.
fn closes_at(head: &Head, number: u64) -> bool
    ensures value { result ≡ (head.now.closes || number == last_request) }
{
    head.closes || number == MOST_REQUESTS - 1
}
