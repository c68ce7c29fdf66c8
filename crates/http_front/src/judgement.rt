//! What speaks against a request's head before its body is read.
ghost use Rattle.std.specs.Prelude.{◌≡◌, ◌≤◌, length, All, true};
ghost use Rattle.std.specs.Char.{is_ascii_digit};
ghost use Rattle.std.specs.List.{list_all};
ghost use Rattle.std.specs.Str.Parse.{digits_value};
ghost use Rattle.httparse.specs.Spans.{IsHeaderWithin};
ghost use Rattle.http_front.specs.Fields.{fields_at};
ghost use Rattle.http_front.specs.RequestHead.{body_length, has_coding, has_host, judged, method_of, number_in};
ghost use Rattle.http_front.specs.Route.{limit_of};

use crate::fields::{Seen, look_for};
use crate::method::Method;
use crate::route::body_limit;
use httparse::spans::HeaderSpan;

/// The method of that name, which is case-sensitive (RFC 9110, section 9.1).
pub(crate) fn method_of(name: &[u8]) -> Method
    ensures { result ≡ method_of name.now }
{
    match name {
        b"GET" => Method::Get,
        b"PUT" => Method::Put,
        b"POST" => Method::Post,
        _ => Method::Other,
    }
}

/// The length of the body, or the status with which the request is refused.
pub(crate) fn judge(
    minor: u8,
    method: Method,
    target: &str,
    bytes: &[u8],
    headers: &[HeaderSpan],
) -> Result<u64, u16>
    requires { All (IsHeaderWithin (length bytes.now)) headers.now }
    ensures { let fields = fields_at bytes.now headers.now in
        result ≡ judged (has_coding fields) (body_length fields) (has_host minor fields) (limit_of method target.now) }
{
    if has_coding(bytes, headers) {
        return Err(501);
    }
    let length = match body_length(bytes, headers) {
        Some(length) => length,
        None => return Err(400),
    };
    if !has_host(minor, bytes, headers) {
        return Err(400);
    }
    if length > body_limit(method, target) {
        return Err(413);
    }
    Ok(length)
}

/// Whether the fields ask for a transfer coding.
fn has_coding(bytes: &[u8], headers: &[HeaderSpan]) -> bool
    requires { All (IsHeaderWithin (length bytes.now)) headers.now }
    ensures { result ≡ has_coding (fields_at bytes.now headers.now) }
{
    match look_for(b"transfer-encoding", bytes, headers) {
        Seen::Never => false,
        _ => true,
    }
}

/// The length of the body, if the fields tell it in its form.
fn body_length(bytes: &[u8], headers: &[HeaderSpan]) -> Option<u64>
    requires { All (IsHeaderWithin (length bytes.now)) headers.now }
    ensures { result ≡ body_length (fields_at bytes.now headers.now) }
{
    match look_for(b"content-length", bytes, headers) {
        Seen::Never => Some(0),
        Seen::Once(span) => number_in(span.of(bytes)),
        Seen::Again => None,
    }
}

/// Whether the host is named as the version asks.
fn has_host(minor: u8, bytes: &[u8], headers: &[HeaderSpan]) -> bool
    requires { All (IsHeaderWithin (length bytes.now)) headers.now }
    ensures { result ≡ has_host minor (fields_at bytes.now headers.now) }
{
    if minor == 0 {
        return true;
    }
    match look_for(b"host", bytes, headers) {
        Seen::Once(_) => true,
        _ => false,
    }
}

/// The number of 1 to 19 decimal digits that the text is.
pub fn number_in(text: &[u8]) -> Option<u64>
    ensures value { result ≡ number_in text.now }
{
    if text.is_empty() || text.len() > 19 || !are_digits(text) {
        return None;
    }
    Some(digits_value(text))
}

/// Whether each byte is a decimal digit.
pub(crate) fn are_digits(text: &[u8]) -> bool
    ensures { result ≡ list_all is_ascii_digit text.now }
{
    text.iter().all(|c| c.is_ascii_digit())
}

/// The number that at most 19 digits write.
fn digits_value(text: &[u8]) -> u64
    requires short { length text.now ≤ 19 }
    requires digits { list_all is_ascii_digit text.now ≡ true }
    ensures { result ≡ digits_value 10 text.now }
{
    let mut value = 0u64;
    for c in text {
        value = value * 10 + u64::from(*c - b'0');
    }
    value
}
