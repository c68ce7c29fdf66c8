//! A reply of which a long object is given where it lies.
ghost use Rattle.std.specs.Prelude.{◌≡◌, ◌++◌, IfOk, OnOk};
ghost use Rattle.http_front.specs.ReplyText.{HasText, octet_parts, text, written};
ghost use Rattle.http_front.specs.Rows.{FitRows, rows_text};

use crate::outcome::Outcome;
use crate::reply_text::{octet_bytes, octet_front, reply_bytes};
use crate::row::{Row, write_rows};
use ids::{Bytes, Items};
use library_state::{Reply, Tag};
use std::alloc::{AllocError, Global};

/// The bytes of a reply, in two parts: `object` follows `front`, and may be empty.
#[derive(Debug, Drop)]
pub struct ReplyBytes {
    pub front: Bytes,
    pub object: Bytes,
}

/// The longest body that is copied behind its front.
const MOST_COPIED: usize = 65_536;

/// The bytes of the reply to a request, as `reply_bytes` makes them, of an outcome that is handed over.
///
/// An object of more than 65,536 bytes is the second part, with the memory in which it lies, and so is what is packed in as
/// many. Of every other reply the second part is empty. No clause speaks of the length of a part.
pub fn reply_own(alloc: Global, outcome: Outcome, closes: bool) -> Result<ReplyBytes, AllocError>
    ensures value { IfOk result (λ reply. reply.front ++ reply.object ≡ text outcome closes) }
    ensures fits { OnOk result (HasText outcome) }
{
    match outcome {
        Outcome::Plain(reply, tag) => answer_own(alloc, reply, tag, closes),
        Outcome::Packed(rows) => packed_own(alloc, rows, closes),
        outcome => made_own(alloc, outcome, closes),
    }
}

/// The same of an answer to a call.
fn answer_own(alloc: Global, reply: Reply, tag: Tag, closes: bool) -> Result<ReplyBytes, AllocError>
    ensures value { IfOk result (λ made. made.front ++ made.object ≡ text (Outcome.Plain reply tag) closes) }
{
    match reply {
        Reply::Got(bytes) => object_own(alloc, bytes, closes),
        reply => made_own(alloc, Outcome::Plain(reply, tag), closes),
    }
}

/// The same of files and directories.
fn packed_own(alloc: Global, rows: Items<Row>, closes: bool) -> Result<ReplyBytes, AllocError>
    ensures value { IfOk result (λ made. made.front ++ made.object ≡ written (octet_parts (rows_text rows)) closes) }
    ensures fits { OnOk result (FitRows rows) }
{
    match packed(alloc, rows) {
        Ok(bytes) => object_own(alloc, bytes, closes),
        Err(error) => Err(error),
    }
}

/// The text of some rows, which are let go.
fn packed(alloc: Global, rows: Items<Row>) -> Result<Bytes, AllocError>
    ensures value { IfOk result (λ bytes. bytes ≡ rows_text rows) }
    ensures fits { OnOk result (FitRows rows) }
{
    let text = packed_text(alloc, &rows);
    drop(rows);
    text
}

/// The same of rows that are lent.
fn packed_text(alloc: Global, rows: &Items<Row>) -> Result<Bytes, AllocError>
    ensures value { IfOk result (λ bytes. bytes ≡ rows_text rows.now) }
    ensures fits { OnOk result (FitRows rows.now) }
{
    match write_rows(alloc, rows.slice()) {
        Ok(text) => Ok(Bytes::from_vec(text)),
        Err(error) => Err(error),
    }
}

/// The reply of an object of these bytes.
fn object_own(alloc: Global, bytes: Bytes, closes: bool) -> Result<ReplyBytes, AllocError>
    ensures value { IfOk result (λ made. made.front ++ made.object ≡ written (octet_parts bytes) closes) }
{
    let size = bytes.len();
    if size <= MOST_COPIED {
        return copied(alloc, &bytes, closes);
    }
    match octet_front(alloc, size, closes) {
        Ok(front) => Ok(ReplyBytes {
            front,
            object: bytes,
        }),
        Err(error) => Err(error),
    }
}

/// The reply of an object of these bytes, which are copied behind its front.
fn copied(alloc: Global, bytes: &Bytes, closes: bool) -> Result<ReplyBytes, AllocError>
    ensures value { IfOk result (λ made. made.front ++ made.object ≡ written (octet_parts bytes.now) closes) }
{
    match octet_bytes(alloc, bytes.slice(), closes) {
        Ok(front) => Ok(whole(alloc, front)),
        Err(error) => Err(error),
    }
}

/// The reply of an outcome with no object that is given where it lies.
fn made_own(alloc: Global, outcome: Outcome, closes: bool) -> Result<ReplyBytes, AllocError>
    ensures value { IfOk result (λ made. made.front ++ made.object ≡ text outcome closes) }
    ensures fits { OnOk result (HasText outcome) }
{
    let reply = made(alloc, &outcome, closes);
    drop(outcome);
    reply
}

/// The same of an outcome that is lent.
fn made(alloc: Global, outcome: &Outcome, closes: bool) -> Result<ReplyBytes, AllocError>
    ensures value { IfOk result (λ made. made.front ++ made.object ≡ text outcome.now closes) }
    ensures fits { OnOk result (HasText outcome.now) }
{
    match reply_bytes(alloc, outcome, closes) {
        Ok(front) => Ok(whole(alloc, front)),
        Err(error) => Err(error),
    }
}

/// A reply that is all in its first part.
fn whole(alloc: Global, front: Bytes) -> ReplyBytes
    ensures value { result.front ++ result.object ≡ front }
{
    ReplyBytes {
        front,
        object: Bytes::new(alloc),
    }
}
