//! The fields of a request's head, looked up by name.
ghost use Rattle.std.specs.Prelude.{◌≡◌, ◌≤◌, length, map, All};
ghost use Rattle.std.specs.List.{list_any};
ghost use Rattle.httparse.specs.Spans.{IsHeaderWithin};
ghost use Rattle.http_front.specs.Fields.{IsSeenWithin, fields_at, found, found_at, is_word, values_of};

use httparse::spans::{HeaderSpan, Span};

/// How often a field is there, and where its value is.
#[derive(Clone, Copy)]
pub enum Seen {
    Never,
    Once(Span),
    Again,
}

/// Whether the bytes are the word, without regard to the case of ASCII letters.
pub(crate) fn is_word(word: &[u8], bytes: &[u8]) -> bool
    ensures { result ≡ is_word word.now bytes.now }
{
    bytes.eq_ignore_ascii_case(word)
}

/// Looks for the fields of that name.
pub fn look_for(name: &[u8], bytes: &[u8], headers: &[HeaderSpan]) -> Seen
    requires within { All (IsHeaderWithin (length bytes.now)) headers.now }
    ensures value { found_at bytes.now result ≡ found (values_of name.now (fields_at bytes.now headers.now)) }
    ensures within { IsSeenWithin (length bytes.now) result }
{
    let mut seen = Seen::Never;
    for header in headers {
        if is_word(name, header.name.of(bytes)) {
            seen = match seen {
                Seen::Never => Seen::Once(header.value),
                _ => Seen::Again,
            };
        }
    }
    seen
}

/// Whether some field of that name has that word for its value.
pub(crate) fn has_word(name: &[u8], word: &[u8], bytes: &[u8], headers: &[HeaderSpan]) -> bool
    requires { All (IsHeaderWithin (length bytes.now)) headers.now }
    ensures { result ≡ list_any (is_word word.now) (values_of name.now (fields_at bytes.now headers.now)) }
{
    for header in headers {
        if is_word(name, header.name.of(bytes)) && is_word(word, header.value.of(bytes)) {
            return true;
        }
    }
    false
}
