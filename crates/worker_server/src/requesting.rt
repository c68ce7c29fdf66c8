//! The next request: its head and its body are read, and what is due before it is asked is given.
ghost use Rattle.std.specs.Prelude.{◌≡◌, ℕ, List, IsTrue, IfOk, IfErr, OnErr, Some};
ghost use Rattle.std.specs.Io.KnownBytes.{append_known};
ghost use Rattle.http_front.specs.Buffer.{to_read};
ghost use Rattle.http_front.specs.Link.{CountsFaults, Gives, told_by};
ghost use Rattle.http_front.specs.ReplyText.{interim_due, is_bad_status};
ghost use Rattle.http_front.specs.RequestStream.{Request, interim_of};
ghost use Rattle.worker_server.specs.RequestSteps.{AsksUnfinished, CountsGive, CountsServed, HasBadStatus, MayEnd, RefusesSo, StandsAt, StepAsked, StopsSo};
ghost use Rattle.worker_server.specs.ServedConnection.{StopsUnasked};

use crate::reading::{End, read_body, read_head};
use crate::served::Served;
use http_front::{Buffer, Head, Link, LinkFailed, bad_bytes, interim_bytes};
use std::alloc::Global;

/// Reads the next request. Its head is told, and it stands whole at the front of the buffer. Between head and body the
/// interim reply is given, where the client waits for it. Where no further request is there, the connection stops: what
/// is refused is replied to.
pub fn next_request<L: Link>(
    alloc: Global,
    link: &mut L,
    buffer: &mut Buffer,
) -> Result<Head, Served>
    ensures ok { IfOk result (λ head. (r : Request) × (after : List ℕ) × StandsAt buffer.new head r after
        × (L.given link.new ≡ append_known (L.given link.old) (interim_of r.head))) }
    ensures err { IfErr result (λ how. (rest : List ℕ) → to_read buffer.old (L.left link.old) ≡ Some rest
        → StopsUnasked how rest (L.given link.old) (L.given link.new)) }
    ensures reading { AsksUnfinished (MayEnd result) buffer.old buffer.new (told_by L.taken L.given L.asked link.old) (told_by L.taken L.given L.asked link.new) }
    ensures to_read { to_read buffer.new (L.left link.new) ≡ to_read buffer.old (L.left link.old) }
    ensures last { StepAsked result (told_by L.taken L.given L.asked link.old) (told_by L.taken L.given L.asked link.new) (L.left link.old) (L.left link.new) }
    ensures faults { CountsServed (L.faults link.old) (L.faults link.new) result }
{
    let head = match read_head(alloc, link, buffer) {
        Ok(head) => head,
        Err(end) => return Err(stop(alloc, link, end)),
    };
    match give_interim(link, head.expects) {
        Ok(()) => {}
        Err(_) => return Err(Served::WriteFault),
    }
    match read_body(link, buffer, head.used as usize, head.body as usize) {
        Ok(()) => Ok(head),
        Err(end) => Err(stop(alloc, link, end)),
    }
}

/// Gives the interim reply, where the client waits for it.
fn give_interim<L: Link>(link: &mut L, waits: bool) -> Result<(), LinkFailed>
    ensures given { Gives (L.given link.old) (L.given link.new) (interim_due waits) result }
    ensures fails { OnErr result (IsTrue waits) }
    ensures stays_left { L.left link.new ≡ L.left link.old }
    ensures stays_taken { L.taken link.new ≡ L.taken link.old }
    ensures stays_asked { L.asked link.new ≡ L.asked link.old }
    ensures faults { CountsFaults (L.faults link.old) (L.faults link.new) result }
{
    if !waits {
        return Ok(());
    }
    link.give(interim_bytes())
}

/// Ends the connection where no further head was read, or its body was not.
fn stop<L: Link>(alloc: Global, link: &mut L, end: End) -> Served
    requires status { HasBadStatus end }
    ensures value { StopsSo end (L.given link.old) (L.given link.new) result }
    ensures stays_left { L.left link.new ≡ L.left link.old }
    ensures stays_taken { L.taken link.new ≡ L.taken link.old }
    ensures stays_asked { L.asked link.new ≡ L.asked link.old }
    ensures faults { CountsGive (L.faults link.old) (L.faults link.new) result }
{
    match end {
        End::Over => Served::Ended,
        End::Cut(read) => Served::Cut(read),
        End::Refused(status) => refuse(alloc, link, status),
        End::ReadFault => Served::ReadFault,
        End::NoMemory => Served::NoMemory,
    }
}

/// Gives the reply to bytes that are no request.
fn refuse<L: Link>(alloc: Global, link: &mut L, status: u16) -> Served
    requires fits { IsTrue (is_bad_status status) }
    ensures value { RefusesSo status (L.given link.old) (L.given link.new) result }
    ensures stays_left { L.left link.new ≡ L.left link.old }
    ensures stays_taken { L.taken link.new ≡ L.taken link.old }
    ensures stays_asked { L.asked link.new ≡ L.asked link.old }
    ensures faults { CountsGive (L.faults link.old) (L.faults link.new) result }
{
    let text = match bad_bytes(alloc, status) {
        Ok(text) => text,
        Err(_) => return Served::NoMemory,
    };
    match link.give(text.slice()) {
        Ok(()) => Served::Refused(status),
        Err(_) => Served::WriteFault,
    }
}
