//! The outcome that the body of a reply tells.
ghost use Rattle.std.specs.Prelude.{◌≡◌, ◌==◌, ◌↔◌, map, option_map, IfOk, Some, None, Ok, IsTrue};
ghost use Rattle.serde_json.specs.View.{view};
ghost use Rattle.http_front.specs.Rows.{IsRowsOf};
ghost use Rattle.http_client.specs.OrderOutcome.{are_among, row_id};
ghost use Rattle.http_client.specs.OutcomeReading.{IsOutcome, IsPacked, IsSuccess, absent_of, answered, collected_in, has_flag, head_in, ids_in, if_empty, no_tag, same_to, same_told, state_told, told_in, version_in};
ghost use Rattle.library_state.specs.declared.reply.Reply.{Reply};

use crate::asked_ids::are_among;
use crate::refusal_due::refusal_of;
use crate::refusal_reading::{id_at, number_at};
use http_front::{Outcome, Row, Status, What, read_ids, read_rows};
use ids::{Bytes, IdList, Items, ObjId};
use json_words::{ReadFault, parse};
use library_state::{Reply, Tag};
use serde_json::Value;
use std::alloc::{AllocError, Global};

/// The outcome of an order that a body tells with a status, or none. An object is copied once.
pub(crate) fn outcome_of(
    alloc: Global,
    order: &What,
    status: Status,
    tag: Option<Tag>,
    body: &[u8],
) -> Result<Option<Outcome>, AllocError>
    ensures value { IfOk result (IsOutcome order.now status tag body.now) }
{
    match status {
        Status::Success => success_of(alloc, order, tag, body),
        Status::NotModified => Ok(same_told(order, tag)),
        _ => refusal_of(alloc, order, status, body),
    }
}

/// What a body tells that comes with success.
fn success_of(
    alloc: Global,
    order: &What,
    tag: Option<Tag>,
    body: &[u8],
) -> Result<Option<Outcome>, AllocError>
    ensures value { IfOk result (IsSuccess order.now tag body.now) }
{
    match order {
        What::Version => version_of(alloc, body),
        What::Check(_) => Ok(if_empty(body, Reply::Checked)),
        What::Head(_) => head_is(alloc, tag, body),
        What::Update(_) => updated(alloc, tag, body),
        What::Get(_) => got(alloc, body),
        What::Put(_, _) => Ok(if_empty(body, Reply::Stored(true))),
        What::Missing(_, ids) => absent_of(alloc, ids.slice(), body),
        What::PutFs(_) => Ok(if_empty(body, Reply::Stored(true))),
        What::GetFs(ids) => packed_of(alloc, ids.slice(), body),
        What::Ids(_, _) => listed_of(alloc, body),
        What::Limit(_) => Ok(if_empty(body, Reply::Limited)),
        What::Collect => collected_of(alloc, body),
    }
}

/// A reply, with the tag that stands for none.
fn answered(reply: Reply) -> Outcome
    ensures value { result ≡ answered reply }
{
    Outcome::Plain(
        reply,
        Tag {
            opening: 0,
            count: 0,
        },
    )
}

/// The reply, where there is no body.
fn if_empty(body: &[u8], reply: Reply) -> Option<Outcome>
    ensures value { result ≡ if_empty body.now reply }
{
    if body.is_empty() {
        Some(answered(reply))
    } else {
        None
    }
}

/// That the protocol's version is 2.
fn version_of(alloc: Global, body: &[u8]) -> Result<Option<Outcome>, AllocError>
    ensures value { IfOk result (λ told. told ≡ told_in version_in body.now) }
{
    match parse(alloc, body)? {
        Some(value) => Ok(version_in(&value)),
        None => Ok(None),
    }
}

fn version_in(value: &Value) -> Option<Outcome>
    ensures value { result ≡ version_in (view value.now) }
{
    if number_at(value, "version")? == 2 {
        Some(Outcome::Version)
    } else {
        None
    }
}

/// The number of a collection that is over, and how many objects it removed.
fn collected_of(alloc: Global, body: &[u8]) -> Result<Option<Outcome>, AllocError>
    ensures value { IfOk result (λ told. told ≡ told_in collected_in body.now) }
{
    match parse(alloc, body)? {
        Some(value) => Ok(collected_in(&value)),
        None => Ok(None),
    }
}

fn collected_in(value: &Value) -> Option<Outcome>
    ensures value { result ≡ collected_in (view value.now) }
{
    let number = number_at(value, "collection")?;
    let removed = number_at(value, "removed")?;
    Some(Outcome::Collected { number, removed })
}

/// That a library is still as it was, to one who named a tag.
fn same_told(order: &What, tag: Option<Tag>) -> Option<Outcome>
    ensures value { result ≡ same_told order.now tag }
{
    match order {
        What::Head(asked) => same_to(asked, tag),
        _ => None,
    }
}

fn same_to(asked: &Option<Tag>, tag: Option<Tag>) -> Option<Outcome>
    ensures value { result ≡ same_to asked.now tag }
{
    match asked {
        Some(_) => match tag {
            Some(tag) => Some(Outcome::Same(tag)),
            None => None,
        },
        None => None,
    }
}

/// The commit that a library stands at, beside the tag of that state.
fn head_is(alloc: Global, tag: Option<Tag>, body: &[u8]) -> Result<Option<Outcome>, AllocError>
    ensures value { IfOk result (λ told. told ≡ state_told Reply.HeadIs tag (told_in head_in body.now)) }
{
    let tag = match tag {
        Some(tag) => tag,
        None => return Ok(None),
    };
    match head_of(alloc, body)? {
        Some(id) => Ok(Some(Outcome::Plain(Reply::HeadIs(id), tag))),
        None => Ok(None),
    }
}

fn updated(alloc: Global, tag: Option<Tag>, body: &[u8]) -> Result<Option<Outcome>, AllocError>
    ensures value { IfOk result (λ told. told ≡ state_told Reply.Updated tag (told_in head_in body.now)) }
{
    let tag = match tag {
        Some(tag) => tag,
        None => return Ok(None),
    };
    match head_of(alloc, body)? {
        Some(id) => Ok(Some(Outcome::Plain(Reply::Updated(id), tag))),
        None => Ok(None),
    }
}

/// The commit that a library stands at.
fn head_of(alloc: Global, body: &[u8]) -> Result<Option<ObjId>, AllocError>
    ensures value { IfOk result (λ told. told ≡ told_in head_in body.now) }
{
    match parse(alloc, body)? {
        Some(value) => Ok(head_in(&value)),
        None => Ok(None),
    }
}

fn head_in(value: &Value) -> Option<ObjId>
    ensures value { result ≡ head_in (view value.now) }
{
    let flagged = match value.get("is_corrupted") {
        Some(flag) => flag.is_number() || flag.is_boolean(),
        None => false,
    };
    if flagged {
        id_at(value, "head_commit_id")
    } else {
        None
    }
}

/// An object's bytes.
fn got(alloc: Global, body: &[u8]) -> Result<Option<Outcome>, AllocError>
    ensures value { IfOk result (λ told. told ≡ Some (answered (Reply.Got body.now))) }
{
    let bytes = Bytes::copy(alloc, body)?;
    Ok(Some(answered(Reply::Got(bytes))))
}

/// The ids that a body is an array of.
fn ids_in(alloc: Global, body: &[u8]) -> Result<Option<IdList>, AllocError>
    ensures value { IfOk result (λ told. told ≡ ids_in body.now) }
{
    match read_ids(alloc, body) {
        Ok(ids) => Ok(Some(ids)),
        Err(ReadFault::Bad(_)) => Ok(None),
        Err(ReadFault::NoMemory) => Err(AllocError),
    }
}

/// Those of the ids that were asked for that name nothing.
fn absent_of(alloc: Global, asked: &[ObjId], body: &[u8]) -> Result<Option<Outcome>, AllocError>
    ensures value { IfOk result (λ told. told ≡ absent_of asked.now (ids_in body.now)) }
{
    let ids = match ids_in(alloc, body)? {
        Some(ids) => ids,
        None => return Ok(None),
    };
    if are_among(alloc, asked, ids.slice())? {
        Ok(Some(answered(Reply::Absent(ids))))
    } else {
        Ok(None)
    }
}

fn listed_of(alloc: Global, body: &[u8]) -> Result<Option<Outcome>, AllocError>
    ensures value { IfOk result (λ told. told ≡ option_map (λ ids. answered (Reply.Listed ids)) (ids_in body.now)) }
{
    match ids_in(alloc, body)? {
        Some(ids) => Ok(Some(answered(Reply::Listed(ids)))),
        None => Ok(None),
    }
}

/// The rows of the ids that were asked for, in that order.
fn packed_of(alloc: Global, ids: &[ObjId], body: &[u8]) -> Result<Option<Outcome>, AllocError>
    ensures value { IfOk result (IsPacked ids.now body.now) }
{
    let rows = match read_rows(alloc, body) {
        Ok(rows) => rows,
        Err(ReadFault::Bad(_)) => return Ok(None),
        Err(ReadFault::NoMemory) => return Err(AllocError),
    };
    if have_ids(rows.slice(), ids) {
        Ok(Some(Outcome::Packed(rows)))
    } else {
        Ok(None)
    }
}

/// Whether the rows are those of the ids, in this order.
fn have_ids(rows: &[Row], ids: &[ObjId]) -> bool
    ensures value { IsTrue result ↔ (map row_id rows.now ≡ ids.now) }
{
    if rows.len() != ids.len() {
        return false;
    }
    for place in 0..rows.len() {
        if rows[place].id != ids[place] {
            return false;
        }
    }
    true
}
