//! The secret that a request shows.
ghost use Rattle.std.specs.Prelude.{◌≡◌, length, All, codes};
ghost use Rattle.httparse.specs.Spans.{IsHeaderWithin};
ghost use Rattle.http_front.specs.Fields.{fields_at, found, values_of};
ghost use Rattle.http_front.specs.NextHead.{IsSecretText, IsTokenIn};

use crate::fields::{Seen, look_for};
use httparse::spans::HeaderSpan;
use library_state::Secret;
use std::str::from_utf8;

/// The secret whose 40 digits are there once.
pub(crate) fn read_token(bytes: &[u8], headers: &[HeaderSpan]) -> Option<Secret>
    requires { All (IsHeaderWithin (length bytes.now)) headers.now }
    ensures { IsTokenIn (found (values_of (codes "seafile-repo-token") (fields_at bytes.now headers.now))) result }
{
    match look_for(b"seafile-repo-token", bytes, headers) {
        Seen::Once(span) => read_secret(span.of(bytes)),
        _ => None,
    }
}

/// The secret with those digits.
fn read_secret(text: &[u8]) -> Option<Secret>
    ensures { IsSecretText text.now result }
{
    match from_utf8(text) {
        Ok(text) => secret_in(text),
        Err(_) => None,
    }
}

/// The secret that this text spells, if it is one.
fn secret_in(text: &str) -> Option<Secret>
    ensures { IsSecretText text.now result }
{
    match Secret::read(text) {
        Ok(secret) => Some(secret),
        Err(_) => None,
    }
}
