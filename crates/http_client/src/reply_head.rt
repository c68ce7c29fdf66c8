//! The head of a reply.
ghost use Rattle.std.specs.Prelude.{◌≡◌, ◌≤◌, length, take, map, All, codes, false, IsTrue, MatchOption};
ghost use Rattle.httparse.specs.Spans.{IsHeaderWithin};
ghost use Rattle.http_front.specs.Fields.{fields_at, found, found_at, values_of, IsSeenWithin};
ghost use Rattle.http_front.specs.NextHead.{IsTagIn};
ghost use Rattle.http_front.specs.RequestHead.{wants_close};
ghost use Rattle.http_client.specs.HeadReading.{IsJudgedBy, IsSeen, status_of};
ghost use Rattle.http_client.specs.ReplyHead.{HasNoHead, IsTagged, size_due, status_number, tag_due, tag_field, tells_state};

use http_front::{Seen, Status, What, look_for, number_in, read_tag_text, wants_close};
use httparse::spans::{EMPTY_HEADER_SPAN, HeaderSpan, ResponseSpans, parse_response};
use library_state::Tag;

/// The most fields that a head may have.
pub(crate) const FIELD_ROOM: usize = 64;

/// What the head of a reply tells.
#[derive(Clone, Copy)]
pub(crate) struct SeenHead {
    /// How many bytes the head has.
    pub size: usize,
    /// The status, and how many bytes the body has; none where the head is not right.
    pub told: Option<(Status, u64)>,
    /// The tag that is there once, if one is.
    pub tag: Option<Tag>,
    /// Whether the connection ends after the reply.
    pub closes: bool,
}

/// The head of HTTP/1.1 that stands at the front, if one does.
pub(crate) fn head_at(order: &What, front: &[u8]) -> Option<SeenHead>
    ensures value { MatchOption result (HasNoHead front.now) (IsSeen order.now front.now) }
{
    let mut headers = [EMPTY_HEADER_SPAN; FIELD_ROOM];
    match parse_response(front, &mut headers) {
        Ok(httparse::Status::Complete(spans)) => {
            if spans.version == 1 {
                Some(seen_head(order, front, spans, &headers[..spans.headers]))
            } else {
                None
            }
        }
        Ok(httparse::Status::Partial) => None,
        Err(_) => None,
    }
}

/// What the spans of a head cover.
fn seen_head(order: &What, front: &[u8], spans: ResponseSpans, headers: &[HeaderSpan]) -> SeenHead
    requires fields { All (IsHeaderWithin (length front.now)) headers.now }
    ensures size { result.size ≡ spans.len }
    ensures told { IsJudgedBy order.now spans.code (fields_at front.now headers.now) result.told }
    ensures found { IsTagIn (tag_field (fields_at front.now headers.now)) result.tag }
    ensures value { result.closes ≡ wants_close (fields_at front.now headers.now) }
{
    SeenHead {
        size: spans.len,
        told: told_by(order, spans.code, front, headers),
        tag: tag_in(front, headers),
        closes: wants_close(front, headers),
    }
}

/// The status and the length of the body, where the head is right.
fn told_by(order: &What, code: u16, front: &[u8], headers: &[HeaderSpan]) -> Option<(Status, u64)>
    requires fields { All (IsHeaderWithin (length front.now)) headers.now }
    ensures value { IsJudgedBy order.now code (fields_at front.now headers.now) result }
{
    let Some(status) = status_of(code) else {
        return None;
    };
    let Some(size) = size_in(status, front, headers) else {
        return None;
    };
    if is_tagged(order, status, front, headers) {
        Some((status, size))
    } else {
        None
    }
}

/// The length of the body by its field, where that is right.
fn size_in(status: Status, front: &[u8], headers: &[HeaderSpan]) -> Option<u64>
    requires fields { All (IsHeaderWithin (length front.now)) headers.now }
    ensures value { result ≡ size_due status (found (values_of (codes "content-length") (fields_at front.now headers.now))) }
{
    let size = look_for(b"content-length", front, headers);
    match status {
        Status::NotModified => no_size(front, size),
        _ => told_size(front, size),
    }
}

/// Whether the tag that has to be there is there.
fn is_tagged(order: &What, status: Status, front: &[u8], headers: &[HeaderSpan]) -> bool
    requires fields { All (IsHeaderWithin (length front.now)) headers.now }
    ensures found { IsTrue result → IsTagged (tag_due order.now status) (fields_at front.now headers.now) }
    ensures absent { result ≡ false → IsTagged (tag_due order.now status) (fields_at front.now headers.now) → ⊥ }
{
    if !tag_due(order, status) {
        return true;
    }
    match tag_in(front, headers) {
        Some(_) => true,
        None => false,
    }
}

/// Whether a reply to an order with this status has to have a tag.
fn tag_due(order: &What, status: Status) -> bool
    ensures value { result ≡ tag_due order.now status }
{
    match status {
        Status::NotModified => true,
        Status::Success => tells_state(order),
        _ => false,
    }
}

/// Whether what is replied to the order tells of a state of the library.
fn tells_state(order: &What) -> bool
    ensures value { result ≡ tells_state order.now }
{
    match order {
        What::Head(_) | What::Update(_) => true,
        _ => false,
    }
}

/// The tag that is there once.
fn tag_in(front: &[u8], headers: &[HeaderSpan]) -> Option<Tag>
    requires fields { All (IsHeaderWithin (length front.now)) headers.now }
    ensures value { IsTagIn (tag_field (fields_at front.now headers.now)) result }
{
    match look_for(b"etag", front, headers) {
        Seen::Once(span) => read_tag_text(span.of(front)),
        _ => None,
    }
}

/// The length that a field tells, where it is there once.
fn told_size(front: &[u8], seen: Seen) -> Option<u64>
    requires within { IsSeenWithin (length front.now) seen }
    ensures value { result ≡ size_due Status.Success (found_at front.now seen) }
{
    match seen {
        Seen::Once(span) => number_in(span.of(front)),
        Seen::Never | Seen::Again => None,
    }
}

/// The length of no body, where the field is as it may be.
fn no_size(front: &[u8], seen: Seen) -> Option<u64>
    requires within { IsSeenWithin (length front.now) seen }
    ensures value { result ≡ size_due Status.NotModified (found_at front.now seen) }
{
    match seen {
        Seen::Once(span) => match number_in(span.of(front)) {
            Some(_) => Some(0),
            None => None,
        },
        Seen::Never => Some(0),
        Seen::Again => None,
    }
}

/// The status of a number, where it is one of a reply.
#[tactic(auto, unfolding(crate::specs::HeadReading::status_of))]
fn status_of(code: u16) -> Option<Status>
    ensures value { result ≡ status_of code }
{
    match code {
        200 => Some(Status::Success),
        304 => Some(Status::NotModified),
        400 => Some(Status::BadRequest),
        403 => Some(Status::Forbidden),
        404 => Some(Status::NotFound),
        409 => Some(Status::Conflict),
        413 => Some(Status::ContentTooLarge),
        431 => Some(Status::HeadTooLarge),
        442 => Some(Status::TooLarge),
        445 => Some(Status::Damaged),
        446 => Some(Status::Incomplete),
        449 => Some(Status::Spent),
        500 => Some(Status::ServerError),
        501 => Some(Status::NotImplemented),
        503 => Some(Status::Unavailable),
        _ => None,
    }
}

/// The number of a status.
pub(crate) fn status_number(status: Status) -> u16
    ensures value { result ≡ status_number status }
{
    match status {
        Status::Success => 200,
        Status::NotModified => 304,
        Status::BadRequest => 400,
        Status::Forbidden => 403,
        Status::NotFound => 404,
        Status::Conflict => 409,
        Status::ContentTooLarge => 413,
        Status::HeadTooLarge => 431,
        Status::TooLarge => 442,
        Status::Damaged => 445,
        Status::Incomplete => 446,
        Status::Spent => 449,
        Status::ServerError => 500,
        Status::NotImplemented => 501,
        Status::Unavailable => 503,
    }
}
