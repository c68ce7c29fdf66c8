//! What a request's head says of the connection: whether it ends, and whether the client waits.
ghost use Rattle.std.specs.Prelude.{◌≡◌, ◌≤◌, length, All, codes, slice_range};
ghost use Rattle.std.specs.List.{list_any};
ghost use Rattle.httparse.specs.Grammar.{is_ows, trim_ows};
ghost use Rattle.httparse.specs.Spans.{IsHeaderWithin};
ghost use Rattle.http_front.specs.Fields.{fields_at, has_element, is_word, values_of};
ghost use Rattle.http_front.specs.RequestHead.{closes_by, expects_by, wants_close};

use crate::fields::{has_word, is_word};
use httparse::spans::HeaderSpan;

/// Whether the client waits for the interim reply before it sends a body of that length.
#[tactic(auto, unfolding(crate::specs::RequestHead::expects_by))]
pub(crate) fn expects(minor: u8, body: u64, bytes: &[u8], headers: &[HeaderSpan]) -> bool
    requires { All (IsHeaderWithin (length bytes.now)) headers.now }
    ensures { result ≡ expects_by minor body (fields_at bytes.now headers.now) }
{
    if minor != 1 || body == 0 {
        return false;
    }
    has_word(b"expect", b"100-continue", bytes, headers)
}

/// Whether the connection ends after the reply.
#[tactic(auto, unfolding(crate::specs::RequestHead::closes_by))]
pub(crate) fn closes(minor: u8, bytes: &[u8], headers: &[HeaderSpan]) -> bool
    requires { All (IsHeaderWithin (length bytes.now)) headers.now }
    ensures { result ≡ closes_by minor (fields_at bytes.now headers.now) }
{
    if minor == 0 {
        return true;
    }
    wants_close(bytes, headers)
}

/// Whether some `Connection` field has the element `close`.
pub fn wants_close(bytes: &[u8], headers: &[HeaderSpan]) -> bool
    requires within { All (IsHeaderWithin (length bytes.now)) headers.now }
    ensures value { result ≡ wants_close (fields_at bytes.now headers.now) }
{
    for header in headers {
        if is_word(b"connection", header.name.of(bytes)) && has_close(header.value.of(bytes)) {
            return true;
        }
    }
    false
}

/// Whether some element of the value is `close`.
fn has_close(value: &[u8]) -> bool
    ensures { result ≡ has_element (codes "close") value.now }
{
    let mut start = 0;
    for (i, byte) in value.iter().enumerate() {
        if *byte == b',' {
            if is_close(value, start, i) {
                return true;
            }
            start = i + 1;
        }
    }
    is_close(value, start, value.len())
}

/// Whether the bytes from `start` to `end`, without the blanks around them, are `close`.
fn is_close(value: &[u8], start: usize, end: usize) -> bool
    requires ordered { start ≤ end }
    requires in_range { end ≤ length value.now }
    ensures { result ≡ is_word (codes "close") (trim_ows (slice_range value.now start end)) }
{
    is_word(b"close", trim(value, start, end))
}

/// The bytes from `start` to `end` without the blanks and tabs at both ends.
fn trim(text: &[u8], mut start: usize, mut end: usize) -> &[u8]
    requires ordered { start ≤ end }
    requires in_range { end ≤ length text.now }
    ensures { result.now ≡ trim_ows (slice_range text.now start end) }
{
    while start < end && is_blank(text[start]) {
        start += 1;
    }
    while start < end && is_blank(text[end - 1]) {
        end -= 1;
    }
    &text[start..end]
}

fn is_blank(byte: u8) -> bool
    ensures { result ≡ is_ows byte }
{
    byte == b' ' || byte == b'\t'
}
