//! The tag that a request names, and the text of a tag.
ghost use Rattle.std.specs.Prelude.{◌≡◌, ◌<◌, ◌≤◌, ◌==◌, ◌++◌, ℕ, List, slice_index, length, All, codes, MatchOption, OnOk};
ghost use Rattle.std.specs.List.{position_or_len};
ghost use Rattle.httparse.specs.Spans.{IsHeaderWithin};
ghost use Rattle.http_front.specs.EntityTag.{quoted, tag_text};
ghost use Rattle.http_front.specs.Fields.{fields_at, found, values_of};
ghost use Rattle.http_front.specs.NextHead.{IsNumberText, IsNumbersText, IsTagIn, IsTagText};

use crate::fields::{Seen, look_for};
use crate::judgement::are_digits;
use httparse::spans::HeaderSpan;
use itoa::Buffer;
use library_state::Tag;
use std::alloc::AllocError;

/// The tag that is there once.
pub(crate) fn read_tag(bytes: &[u8], headers: &[HeaderSpan]) -> Option<Tag>
    requires { All (IsHeaderWithin (length bytes.now)) headers.now }
    ensures { IsTagIn (found (values_of (codes "if-none-match") (fields_at bytes.now headers.now))) result }
{
    match look_for(b"if-none-match", bytes, headers) {
        Seen::Once(span) => read_tag_text(span.of(bytes)),
        _ => None,
    }
}

/// The tag that is written so: a quote, a number, a hyphen, a number and a quote.
pub fn read_tag_text(text: &[u8]) -> Option<Tag>
    ensures value { IsTagText text.now result }
{
    match unquoted(text) {
        Some(inner) => read_numbers(inner),
        None => None,
    }
}

/// Appends the text of a tag. After an error some of it may stand there.
pub fn write_tag_text(out: &mut Vec<u8>, tag: Tag) -> Result<(), AllocError>
    ensures ok { OnOk result (out.new.items ≡ out.old.items ++ tag_text tag) }
{
    let mut opening = Buffer::new();
    let mut count = Buffer::new();
    out.extend_from_slice(b"\"")?;
    out.extend_from_slice(opening.format(tag.opening).as_bytes())?;
    out.extend_from_slice(b"-")?;
    out.extend_from_slice(count.format(tag.count).as_bytes())?;
    out.extend_from_slice(b"\"")?;
    Ok(())
}

/// What stands between a quote at the front and one at the end.
fn unquoted(text: &[u8]) -> Option<&[u8]>
    ensures { MatchOption result ((inner : List ℕ) → text.now ≡ quoted inner → ⊥) (λ inner. text.now ≡ quoted inner.now) }
{
    match text.strip_prefix(b"\"") {
        Some(rest) => rest.strip_suffix(b"\""),
        None => None,
    }
}

/// The two numbers with a hyphen between them.
fn read_numbers(text: &[u8]) -> Option<Tag>
    ensures { IsNumbersText text.now result }
{
    let hyphen = hyphen_place(text);
    if hyphen == text.len() {
        return None;
    }
    match read_number(&text[..hyphen]) {
        Some(opening) => match read_number(&text[hyphen + 1..]) {
            Some(count) => Some(Tag { opening, count }),
            None => None,
        },
        None => None,
    }
}

/// The place of the first hyphen, or the length.
fn hyphen_place(text: &[u8]) -> usize
    ensures value { result ≡ position_or_len (λ c. c == 45) text.now }
    ensures within { result ≤ length text.now }
    ensures hyphen { result < length text.now → slice_index text.now result ≡ 45 }
{
    for (i, c) in text.iter().enumerate() {
        if *c == b'-' {
            return i;
        }
    }
    text.len()
}

/// The number below 2^64 that is written so in decimal, without leading zeros.
fn read_number(text: &[u8]) -> Option<u64>
    ensures { IsNumberText text.now result }
{
    if !are_digits(text) {
        return None;
    }
    if text.len() > 1 && text[0] == b'0' {
        return None;
    }
    match std::str::from_utf8(text) {
        Ok(text) => match text.parse::<u64>() {
            Ok(number) => Some(number),
            Err(_) => None,
        },
        Err(_) => None,
    }
}
