//! The bytes of replies.
ghost use Rattle.std.specs.Prelude.{◌≡◌, ◌++◌, [], codes, decimal, true, None, Some, IfOk, OnOk, IsTrue};
ghost use Rattle.http_front.specs.EntityTag.{tag_text};
ghost use Rattle.http_front.specs.IdArray.{array_text};
ghost use Rattle.http_front.specs.ReplyBody.{collected_body, head_body, version_body};
ghost use Rattle.http_front.specs.ReplyText.{HasText, bad_body, bad_text, close_line, interim_text, is_bad_status, json_parts, length_line, line, octet_parts, parts_by, refused_parts, reply_front, reply_parts, tag_line, tagged_parts, text, type_line, written};
ghost use Rattle.http_front.specs.Rows.{FitRows, rows_text};

use crate::entity_tag::write_tag_text;
use crate::id_array::array_bytes;
use crate::outcome::Outcome;
use crate::refusal_text::{reason_body, refused_body, refused_status};
use crate::reply_body::{collected_body, head_body, version_body};
use crate::row::{Row, write_rows};
use crate::status::{Status, status_words};
use ids::{Bytes, ObjId};
use itoa::Buffer;
use library_state::{Refusal, Reply, Tag};
use std::alloc::{AllocError, Global};

/// Room for the longest head of a reply, so that what is made grows no more than once.
const HEAD_ROOM: usize = 256;

/// The bytes of the reply to a request, with `Connection: close` where the connection ends after it.
///
/// The form of a reply is that of HTTP/1.1 (RFC 9112); statuses, fields and bodies are our own
/// (docs/FORMATS.md, "Replies"). An object is copied once, one that is packed twice. Where one that is packed has
/// 2^32 bytes or more, there is no text, and the answer is want of memory.
#[tactic(auto, unfolding(crate::specs::ReplyText::text))]
pub fn reply_bytes(alloc: Global, outcome: &Outcome, closes: bool) -> Result<Bytes, AllocError>
    ensures value { IfOk result (λ bytes. bytes ≡ text outcome.now closes) }
    ensures fits { OnOk result (HasText outcome.now) }
{
    match outcome {
        Outcome::Version => version_bytes(alloc, closes),
        Outcome::Same(tag) => same_bytes(alloc, *tag, closes),
        Outcome::Plain(reply, tag) => answer_bytes(alloc, reply, *tag, closes),
        Outcome::Packed(rows) => packed_bytes(alloc, rows.slice(), closes),
        Outcome::Collected { number, removed } => {
            collected_bytes(alloc, *number, *removed, closes)
        }
        Outcome::Refused(refusal) => refused_bytes(alloc, refusal, closes),
    }
}

/// What goes out before the body is read, where a client waits for it.
pub fn interim_bytes() -> &'static [u8]
    ensures value { result.now ≡ interim_text }
{
    b"HTTP/1.1 100 Continue\r\n\r\n"
}

/// The bytes of the reply that ends a connection on which no further request can be read.
///
/// The statuses are 400 (no request), 413 (its body is too large), 431 (its head is too large) and 501 (a transfer
/// coding that is not served).
#[tactic(auto, unfolding(crate::specs::ReplyText::bad_text))]
pub fn bad_bytes(alloc: Global, status: u16) -> Result<Bytes, AllocError>
    requires fits { IsTrue (is_bad_status status) }
    ensures value { IfOk result (λ bytes. bytes ≡ bad_text status) }
{
    if status == 400 {
        reason_bytes(alloc, Status::BadRequest, "malformed")
    } else if status == 413 {
        reason_bytes(alloc, Status::ContentTooLarge, "body-too-large")
    } else if status == 431 {
        reason_bytes(alloc, Status::HeadTooLarge, "head-too-large")
    } else {
        reason_bytes(alloc, Status::NotImplemented, "coding")
    }
}

/// The reply to a call, by an answer that tells of the state of this tag.
fn answer_bytes(alloc: Global, reply: &Reply, tag: Tag, closes: bool) -> Result<Bytes, AllocError>
    ensures value { IfOk result (λ bytes. bytes ≡ written (reply_parts reply.now tag) closes) }
{
    match reply {
        Reply::Checked | Reply::Stored(_) | Reply::Limited => {
            json_bytes(alloc, Status::Success, &[], closes)
        }
        Reply::HeadIs(id) => head_bytes(alloc, id, tag, closes),
        Reply::Got(bytes) => octet_bytes(alloc, bytes.slice(), closes),
        Reply::Absent(ids) => ids_bytes(alloc, ids.slice(), closes),
        Reply::Updated(id) => head_bytes(alloc, id, tag, closes),
        Reply::Listed(ids) => ids_bytes(alloc, ids.slice(), closes),
        Reply::Refused(refusal) => refused_bytes(alloc, refusal, closes),
    }
}

fn version_bytes(alloc: Global, closes: bool) -> Result<Bytes, AllocError>
    ensures value { IfOk result (λ bytes. bytes ≡ written (json_parts Status.Success version_body) closes) }
{
    let body = version_body(alloc)?;
    json_bytes(alloc, Status::Success, body.as_slice(), closes)
}

/// The reply that a library is still in a state, which has no body.
fn same_bytes(alloc: Global, tag: Tag, closes: bool) -> Result<Bytes, AllocError>
    ensures value { IfOk result (λ bytes. bytes
        ≡ written (parts_by Status.NotModified (codes "application/json") (Some tag) []) closes) }
{
    write_reply(
        alloc,
        Status::NotModified,
        b"application/json",
        Some(tag),
        &[],
        closes,
    )
}

/// The reply that a library stands at a commit, beside the tag of that state.
fn head_bytes(alloc: Global, id: &ObjId, tag: Tag, closes: bool) -> Result<Bytes, AllocError>
    ensures value { IfOk result (λ bytes. bytes ≡ written (tagged_parts (head_body id.now) tag) closes) }
{
    let body = head_body(alloc, id)?;
    tagged_bytes(alloc, tag, body.as_slice(), closes)
}

fn ids_bytes(alloc: Global, ids: &[ObjId], closes: bool) -> Result<Bytes, AllocError>
    ensures value { IfOk result (λ bytes. bytes ≡ written (json_parts Status.Success (array_text ids.now)) closes) }
{
    let body = array_bytes(alloc, ids)?;
    json_bytes(alloc, Status::Success, body.as_slice(), closes)
}

fn packed_bytes(alloc: Global, rows: &[Row], closes: bool) -> Result<Bytes, AllocError>
    ensures value { IfOk result (λ bytes. bytes ≡ written (octet_parts (rows_text rows.now)) closes) }
    ensures fits { OnOk result (FitRows rows.now) }
{
    let body = write_rows(alloc, rows)?;
    octet_bytes(alloc, body.as_slice(), closes)
}

fn collected_bytes(
    alloc: Global,
    number: u64,
    removed: u64,
    closes: bool,
) -> Result<Bytes, AllocError>
    ensures value { IfOk result (λ bytes. bytes
        ≡ written (json_parts Status.Success (collected_body number removed)) closes) }
{
    let body = collected_body(alloc, number, removed)?;
    json_bytes(alloc, Status::Success, body.as_slice(), closes)
}

fn refused_bytes(alloc: Global, refusal: &Refusal, closes: bool) -> Result<Bytes, AllocError>
    ensures value { IfOk result (λ bytes. bytes ≡ written (refused_parts refusal.now) closes) }
{
    let body = refused_body(alloc, refusal)?;
    json_bytes(alloc, refused_status(refusal), body.as_slice(), closes)
}

/// A reply that ends the connection and whose body has a reason alone.
fn reason_bytes(alloc: Global, status: Status, reason: &str) -> Result<Bytes, AllocError>
    ensures value { IfOk result (λ bytes. bytes ≡ written (json_parts status (bad_body reason.now)) true) }
{
    let body = reason_body(alloc, reason)?;
    json_bytes(alloc, status, body.as_slice(), true)
}

fn json_bytes(alloc: Global, status: Status, body: &[u8], closes: bool) -> Result<Bytes, AllocError>
    ensures value { IfOk result (λ bytes. bytes ≡ written (json_parts status body.now) closes) }
{
    write_reply(alloc, status, b"application/json", None, body, closes)
}

fn tagged_bytes(alloc: Global, tag: Tag, body: &[u8], closes: bool) -> Result<Bytes, AllocError>
    ensures value { IfOk result (λ bytes. bytes ≡ written (tagged_parts body.now tag) closes) }
{
    write_reply(
        alloc,
        Status::Success,
        b"application/json",
        Some(tag),
        body,
        closes,
    )
}

/// The reply of an object of these bytes.
pub(crate) fn octet_bytes(alloc: Global, body: &[u8], closes: bool) -> Result<Bytes, AllocError>
    ensures value { IfOk result (λ bytes. bytes ≡ written (octet_parts body.now) closes) }
{
    write_reply(
        alloc,
        Status::Success,
        b"application/octet-stream",
        None,
        body,
        closes,
    )
}

/// The reply of these parts.
#[tactic(auto, unfolding(crate::specs::ReplyText::written))]
fn write_reply(
    alloc: Global,
    status: Status,
    content_type: &[u8],
    tag: Option<Tag>,
    body: &[u8],
    closes: bool,
) -> Result<Bytes, AllocError>
    ensures value { IfOk result (λ bytes. bytes
        ≡ written (parts_by status content_type.now tag body.now) closes) }
{
    let mut out = Vec::with_capacity(alloc, HEAD_ROOM.saturating_add(body.len()))?;
    push_front(&mut out, status, content_type, tag, body.len(), closes)?;
    out.extend_from_slice(body)?;
    Ok(Bytes::from_vec(out))
}

/// What stands in front of an object of so many bytes.
pub(crate) fn octet_front(alloc: Global, size: usize, closes: bool) -> Result<Bytes, AllocError>
    ensures value { IfOk result (λ bytes. bytes ≡ reply_front Status.Success (codes "application/octet-stream") None size closes) }
{
    let mut out = Vec::with_capacity(alloc, HEAD_ROOM)?;
    push_front(
        &mut out,
        Status::Success,
        b"application/octet-stream",
        None,
        size,
        closes,
    )?;
    Ok(Bytes::from_vec(out))
}

/// Appends what stands in front of a body of so many bytes.
#[tactic(auto, unfolding(crate::specs::ReplyText::reply_front))]
fn push_front(
    out: &mut Vec<u8>,
    status: Status,
    content_type: &[u8],
    tag: Option<Tag>,
    size: usize,
    closes: bool,
) -> Result<(), AllocError>
    ensures ok { OnOk result (out.new.items ≡ out.old.items ++ reply_front status content_type.now tag size closes) }
{
    push_line(out, b"HTTP/1.1 ", status_words(status))?;
    push_type(out, content_type, size)?;
    push_length(out, status, size)?;
    push_tag(out, tag)?;
    push_close(out, closes)?;
    out.extend_from_slice(b"\r\n")?;
    Ok(())
}

/// Appends a line. After an error some of it may stand there; so for every `push_` here.
#[tactic(auto, unfolding(crate::specs::ReplyText::line))]
fn push_line(out: &mut Vec<u8>, name: &[u8], value: &[u8]) -> Result<(), AllocError>
    ensures ok { OnOk result (out.new.items ≡ out.old.items ++ line name.now value.now) }
{
    out.extend_from_slice(name)?;
    out.extend_from_slice(value)?;
    out.extend_from_slice(b"\r\n")?;
    Ok(())
}

/// The field `Content-Type`, where there is a body.
fn push_type(out: &mut Vec<u8>, content_type: &[u8], size: usize) -> Result<(), AllocError>
    ensures ok { OnOk result (out.new.items ≡ out.old.items ++ type_line content_type.now size) }
{
    if size == 0 {
        Ok(())
    } else {
        push_line(out, b"Content-Type: ", content_type)
    }
}

/// The field `Content-Length`, unless the status is 304, which has no body by itself.
fn push_length(out: &mut Vec<u8>, status: Status, size: usize) -> Result<(), AllocError>
    ensures ok { OnOk result (out.new.items ≡ out.old.items ++ length_line status size) }
{
    match status {
        Status::NotModified => Ok(()),
        _ => push_size(out, size),
    }
}

fn push_size(out: &mut Vec<u8>, size: usize) -> Result<(), AllocError>
    ensures ok { OnOk result (out.new.items ≡ out.old.items ++ line (codes "Content-Length: ") (decimal size)) }
{
    let mut buffer = Buffer::new();
    push_line(out, b"Content-Length: ", buffer.format(size).as_bytes())
}

/// The field `ETag`, where there is a tag.
fn push_tag(out: &mut Vec<u8>, tag: Option<Tag>) -> Result<(), AllocError>
    ensures ok { OnOk result (out.new.items ≡ out.old.items ++ tag_line tag) }
{
    match tag {
        None => Ok(()),
        Some(tag) => push_quoted(out, tag),
    }
}

#[tactic(auto, unfolding(crate::specs::ReplyText::line))]
fn push_quoted(out: &mut Vec<u8>, tag: Tag) -> Result<(), AllocError>
    ensures ok { OnOk result (out.new.items ≡ out.old.items ++ line (codes "ETag: ") (tag_text tag)) }
{
    out.extend_from_slice(b"ETag: ")?;
    write_tag_text(out, tag)?;
    out.extend_from_slice(b"\r\n")?;
    Ok(())
}

/// The field `Connection: close`, where the connection ends after the reply.
fn push_close(out: &mut Vec<u8>, closes: bool) -> Result<(), AllocError>
    ensures ok { OnOk result (out.new.items ≡ out.old.items ++ close_line closes) }
{
    if closes {
        push_line(out, b"Connection: ", b"close")
    } else {
        Ok(())
    }
}
