//! The reply at the front of some bytes.
ghost use Rattle.std.specs.Prelude.{◌≡◌, ◌<◌, ◌≤◌, drop, length, take, false, IfOk, IsTrue};
ghost use Rattle.http_client.specs.HeadReading.{IsSeen};
ghost use Rattle.http_client.specs.ReplyHead.{HasNoHead};
ghost use Rattle.http_client.specs.Response.{IsResponse, front_of};

use crate::outcome_reading::outcome_of;
use crate::reply_front::{bad_place, may_become_head};
use crate::reply_head::{SeenHead, head_at};
use http_front::{HEAD_LIMIT, Order, Outcome, Status, What};
use std::alloc::{AllocError, Global};

/// What stands at the front of a buffer.
#[derive(Debug, Drop)]
pub enum Response {
    /// The beginning of a reply that isn't all there.
    Need,
    /// A reply that is all there.
    Whole {
        /// What became of the order.
        outcome: Outcome,
        /// How many bytes of the buffer the reply has, head and body. What is behind them belongs to the next.
        used: u64,
        /// Whether the connection ends after it.
        closes: bool,
    },
    /// No reply to the order. In bytes from the front of the buffer, at most 16,384: the first place at which no head goes on,
    /// 16,384 where a head has not ended by then, or the length of a head that isn't right or whose body tells no outcome of
    /// the order.
    Bad(u64),
}

/// Reads the reply to an order at the front of the buffer, which begins with the bytes after the last reply.
///
/// The head is one of HTTP/1.1 (RFC 9112, sections 2 to 5), of at most 16,384 bytes and 64 fields. Where the buffer holds
/// none, `Need` says that one may still come, and `Bad` tells how many bytes of it go on as one. A head that is there has
/// to be right: a status of ours, a `Content-Length` once, of 1 to 19 digits, and a tag once where one is due, which is with 304 and where it tells where a library stands; else `Bad` tells its
/// length. Then the body has to be there (`Need`), and to tell an outcome that the order can have (`Bad`, with the
/// length of the head). A refusal has to come with its own status. An object is copied once. The buffer stays as it is, and
/// nothing is kept from one call to the next, so that after `Need` the same bytes are read again, with more behind them. The
/// only error is want of memory. That what a server writes for an outcome is read as the outcome says the law
/// `what_is_written_for_an_outcome_is_read_as_the_outcome`.
///
/// One freedom is left. Bytes that only heads of more than 64 fields continue may count as such that go on as none.
pub fn next_response(alloc: Global, order: &Order, buffer: &[u8]) -> Result<Response, AllocError>
    ensures value { IfOk result (IsResponse order.now.what buffer.now) }
{
    let front = front_of(buffer);
    match head_at(&order.what, front) {
        Some(head) => reply_behind(alloc, &order.what, buffer, head),
        None => Ok(without_head(front, buffer)),
    }
}

/// The bytes of which a head is read.
fn front_of(buffer: &[u8]) -> &[u8]
    ensures value { result.now ≡ front_of buffer.now }
{
    buffer.split_at(HEAD_LIMIT.min(buffer.len())).0
}

/// What is told of bytes at whose front no head stands.
fn without_head(front: &[u8], buffer: &[u8]) -> Response
    requires part { front.now ≡ front_of buffer.now }
    requires none { HasNoHead front.now }
    ensures value { (order : What) → IsResponse order buffer.now result }
{
    if !may_become_head(front) {
        return Response::Bad(bad_place(front) as u64);
    }
    if buffer.len() >= HEAD_LIMIT {
        return Response::Bad(HEAD_LIMIT as u64);
    }
    Response::Need
}

/// The reply whose head stands at the front.
fn reply_behind(
    alloc: Global,
    order: &What,
    buffer: &[u8],
    head: SeenHead,
) -> Result<Response, AllocError>
    requires part { IsSeen order.now (front_of buffer.now) head }
    ensures value { IfOk result (IsResponse order.now buffer.now) }
{
    match head.told {
        Some((status, size)) => reply_with(alloc, order, buffer, head, status, size),
        None => Ok(Response::Bad(head.size as u64)),
    }
}

/// The reply whose head tells this status, and a body of this length.
fn reply_with(
    alloc: Global,
    order: &What,
    buffer: &[u8],
    head: SeenHead,
    status: Status,
    size: u64,
) -> Result<Response, AllocError>
    requires part { IsSeen order.now (front_of buffer.now) head }
    requires told { head.told ≡ Some (status, size) }
    ensures value { IfOk result (IsResponse order.now buffer.now) }
{
    let behind = behind(buffer, head.size);
    if is_cut(behind, size) {
        return Ok(Response::Need);
    }
    let body = in_front(behind, size as usize);
    match outcome_of(alloc, order, status, head.tag, body)? {
        Some(outcome) => Ok(Response::Whole {
            outcome,
            used: head.size as u64 + size,
            closes: head.closes,
        }),
        None => Ok(Response::Bad(head.size as u64)),
    }
}

/// Whether less stands there than a body of this length.
fn is_cut(behind: &[u8], size: u64) -> bool
    ensures short { IsTrue result → length behind.now < size }
    ensures whole { result ≡ false → size ≤ length behind.now }
{
    size > behind.len() as u64
}

/// What stands behind a place.
fn behind(buffer: &[u8], place: usize) -> &[u8]
    requires within { place ≤ length buffer.now }
    ensures value { result.now ≡ drop place buffer.now }
{
    buffer.split_at(place).1
}

/// What stands in front of a place.
fn in_front(buffer: &[u8], place: usize) -> &[u8]
    requires within { place ≤ length buffer.now }
    ensures value { result.now ≡ take place buffer.now }
{
    buffer.split_at(place).0
}
