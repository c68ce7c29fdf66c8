//! The place up to which some bytes begin the head of a reply.
ghost use Rattle.std.specs.Prelude.{◌≡◌, ◌<◌, ◌+◌, ◌≤◌, length, take, false, IsTrue};
ghost use Rattle.httparse.specs.Grammar.{HasNoResponse};
ghost use Rattle.http_client.specs.HeadReading.{after_blank, is_old};
ghost use Rattle.http_client.specs.ReplyHead.{HasNoHead, MayBecomeHead, NeverHasHead};

use crate::reply_head::FIELD_ROOM;
use httparse::Status;
use httparse::spans::{EMPTY_HEADER_SPAN, parse_response};

/// Whether some bytes can follow that make these, which hold no head, a head of HTTP/1.1.
pub(crate) fn may_become_head(front: &[u8]) -> bool
    requires none { HasNoHead front.now }
    ensures may { IsTrue result → MayBecomeHead front.now }
    ensures none { IsTrue result → HasNoResponse front.now }
    ensures broken { result ≡ false → NeverHasHead front.now }
{
    let mut headers = [EMPTY_HEADER_SPAN; FIELD_ROOM];
    match parse_response(front, &mut headers) {
        Ok(Status::Partial) => !is_old(front),
        Ok(Status::Complete(_)) => false,
        Err(_) => false,
    }
}

/// Whether a head that goes on so is of HTTP/1.0.
fn is_old(front: &[u8]) -> bool
    ensures value { result ≡ is_old front.now }
{
    match after_blank(front).get(7) {
        Some(byte) => *byte == b'0',
        None => false,
    }
}

/// What follows the ends of lines at the front.
fn after_blank(bytes: &[u8]) -> &[u8]
    ensures value { result.now ≡ after_blank bytes.now }
{
    for (place, byte) in bytes.iter().enumerate() {
        if *byte != b'\r' && *byte != b'\n' {
            return &bytes[place..];
        }
    }
    &[]
}

/// The length of the longest beginning of these bytes that begins a head, where all of them do not.
pub(crate) fn bad_place(front: &[u8]) -> usize
    requires none { HasNoHead front.now }
    requires broken { NeverHasHead front.now }
    ensures within { result < length front.now }
    ensures may { MayBecomeHead (take result front.now) }
    ensures broken { NeverHasHead (take (result + 1) front.now) }
{
    let mut low = 0;
    let mut high = front.len();
    while low + 1 < high {
        let middle = low + (high - low) / 2;
        if may_become_head(&front[..middle]) {
            low = middle;
        } else {
            high = middle;
        }
    }
    low
}
