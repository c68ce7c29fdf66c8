//! The head of a request, read from the front of a buffer.
ghost use Rattle.std.specs.Prelude.{◌≡◌, ◌≤◌, take, length, map, nat_le, IfOk, All, IsUtf8, codes};
ghost use Rattle.httparse.specs.Grammar.{HasNoRequest, MayBecomeRequest};
ghost use Rattle.httparse.specs.Spans.{IsHeaderWithin, IsWithin, span_bytes};
ghost use Rattle.http_front.specs.Fields.{fields_at};
ghost use Rattle.http_front.specs.Limits.{head_limit};
ghost use Rattle.http_front.specs.NextHead.{IsNext, IsNextIn};
ghost use Rattle.http_front.specs.ParsedHead.{IsParsedBy};
ghost use Rattle.http_front.specs.RequestHead.{judged_by};

use crate::entity_tag::read_tag;
use crate::expectation::{closes, expects};
use crate::judgement::{judge, method_of};
use crate::method::Method;
use crate::target_front::breaks_target;
use crate::token::read_token;
use httparse::Status;
use httparse::spans::{EMPTY_HEADER_SPAN, HeaderSpan, RequestSpans, parse_request};
use ids::Text;
use library_state::{Secret, Tag};
use std::alloc::{AllocError, Global};

/// The most bytes that a head may have.
pub const HEAD_LIMIT: usize = 16_384;

/// The most fields that a head may have.
const FIELD_LIMIT: usize = 64;

/// What the head of a request asks for.
#[derive(Debug, Drop)]
pub struct Head {
    /// How many bytes the head has. The body begins there.
    pub used: u64,
    /// How many bytes the body has: at most what the method and the path permit.
    pub body: u64,
    /// Whether the client waits for the interim reply before it sends the body.
    pub expects: bool,
    /// Whether the connection ends after the reply.
    pub closes: bool,
    pub method: Method,
    /// The target as it stands in the request: a path, or a path, `?` and a query.
    pub target: Text,
    /// The secret that the request shows, if it shows one in its form.
    pub token: Option<Secret>,
    /// The state that the client has seen, if it names one in its form.
    pub tag: Option<Tag>,
}

/// What stands at the front of a buffer.
#[derive(Debug, Drop)]
pub enum Next {
    /// The beginning of a head that isn't all there.
    Need,
    /// A head that is accepted.
    Head(Head),
    /// No head that is served. The connection ends with this status: 400, 431, 501 or 413.
    Bad(u16),
}

/// Reads the head at the front of the buffer, which begins with the bytes after the last request.
///
/// The grammar is that of RFC 9112, sections 2 to 5; that no more than 16,384 bytes and 64 fields
/// are read is our own limit. `Bad` has the status of the first cause that holds: no head begins so,
/// or it has more fields (400); no head ends within the limit (431); the message is coded, however
/// `Transfer-Encoding` names it (501); the `Content-Length` is repeated, or not a number of 1 to 19
/// digits (400); HTTP/1.1 names no `Host`, or several (400); the body is too long for this method
/// and path (413).
///
/// One freedom is left. A front that holds no whole head, and that only heads of more than 64
/// fields continue, may also be told as `Need`, and as 431 where 16,384 bytes are there.
pub fn next_head(alloc: Global, buffer: &[u8]) -> Result<Next, AllocError>
    ensures value { IfOk result (IsNext buffer.now) }
{
    parse(alloc, front_of(buffer), buffer.len() >= HEAD_LIMIT)
}

/// The bytes of which a head is read.
fn front_of(buffer: &[u8]) -> &[u8]
    ensures { result.now ≡ take head_limit buffer.now }
{
    buffer.split_at(HEAD_LIMIT.min(buffer.len())).0
}

/// Reads the head at the front, which is full where it is as long as a head may be.
fn parse(alloc: Global, front: &[u8], full: bool) -> Result<Next, AllocError>
    ensures { IfOk result (IsNextIn front.now full) }
{
    let mut headers = [EMPTY_HEADER_SPAN; FIELD_LIMIT];
    match parse_request(front, &mut headers) {
        Ok(Status::Complete(spans)) => {
            let target = match std::str::from_utf8(spans.path.of(front)) {
                Ok(target) => target,
                Err(_) => unreachable!(),
            };
            head_at(alloc, front, spans, target, &headers[..spans.headers])
        }
        Ok(Status::Partial) => Ok(unfinished(front, full)),
        Err(_) => Ok(Next::Bad(400)),
    }
}

/// What is told of a front that holds no whole head.
fn unfinished(front: &[u8], full: bool) -> Next
    requires none { HasNoRequest front.now }
    requires may { MayBecomeRequest front.now }
    ensures { IsNextIn front.now full result }
{
    if breaks_target(front) {
        return Next::Bad(400);
    }
    if full {
        return Next::Bad(431);
    }
    Next::Need
}

/// Judges the head that the spans cover, and keeps what is asked for.
fn head_at(
    alloc: Global,
    front: &[u8],
    spans: RequestSpans,
    target: &str,
    headers: &[HeaderSpan],
) -> Result<Next, AllocError>
    requires method { IsWithin (length front.now) spans.method }
    requires target { target.now ≡ span_bytes front.now spans.path }
    requires fields { All (IsHeaderWithin (length front.now)) headers.now }
    ensures { IfOk result (IsParsedBy front.now spans (fields_at front.now headers.now)) }
{
    let method = method_of(spans.method.of(front));
    let body = match judge(spans.version, method, target, front, headers) {
        Ok(body) => body,
        Err(status) => return Ok(Next::Bad(status)),
    };
    let head = Head {
        used: spans.len as u64,
        body,
        expects: expects(spans.version, body, front, headers),
        closes: closes(spans.version, front, headers),
        method,
        target: Text::copy(alloc, target)?,
        token: read_token(front, headers),
        tag: read_tag(front, headers),
    };
    Ok(Next::Head(head))
}
