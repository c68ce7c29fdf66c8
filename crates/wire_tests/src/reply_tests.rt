//! Replies byte for byte, as docs/FORMATS.md has them, to what no request asks for yet.
use http_front::{Outcome, reply_bytes};
use library_state::{Refusal, Reply, Tag};
use std::alloc::{AllocError, Global};

const TAG: Tag = Tag {
    opening: 1,
    count: 0,
};

const LIMITED: &str = "HTTP/1.1 200 OK\r\nContent-Length: 0\r\n\r\n";

const COLLECTED: &str =
    "HTTP/1.1 200 OK\r\nContent-Type: application/json\r\nContent-Length: 47\r\n\r\n{\"collection\":3,\"removed\":18446744073709551615}";

const SAME: &str = "HTTP/1.1 304 Not Modified\r\nETag: \"1-0\"\r\n\r\n";

const BAD_DAYS: &str =
    "HTTP/1.1 400 Bad Request\r\nContent-Type: application/json\r\nContent-Length: 31\r\n\r\n{\"days\":-2,\"reason\":\"bad-days\"}";

const SPENT: &str =
    "HTTP/1.1 449 Spent\r\nContent-Type: application/json\r\nContent-Length: 18\r\n\r\n{\"reason\":\"spent\"}";

/// Whether an outcome has the reply of this text.
fn is_reply(alloc: Global, outcome: &Outcome, text: &str) -> Result<bool, AllocError> {
    Ok(reply_bytes(alloc, outcome, false)?.slice() == text.as_bytes())
}

fn is_refused(alloc: Global, refusal: Refusal, text: &str) -> Result<bool, AllocError> {
    is_reply(alloc, &Outcome::Plain(Reply::Refused(refusal), TAG), text)
}

fn is_limited(alloc: Global) -> Result<bool, AllocError> {
    is_reply(alloc, &Outcome::Plain(Reply::Limited, TAG), LIMITED)
}

fn is_collected(alloc: Global) -> Result<bool, AllocError> {
    let outcome = Outcome::Collected {
        number: 3,
        removed: 18_446_744_073_709_551_615,
    };
    is_reply(alloc, &outcome, COLLECTED)
}

#[test]
fn a_limit_and_a_collection_have_their_bodies(rt: HostRuntime) -> Result<(), AllocError> {
    assert!(rt; is_limited(rt.alloc())?);
    assert!(rt; is_collected(rt.alloc())?);
    Ok(())
}

#[test]
fn what_can_not_be_done_now_has_its_status_and_body(rt: HostRuntime) -> Result<(), AllocError> {
    assert!(rt; is_refused(rt.alloc(), Refusal::BadDays(-2), BAD_DAYS)?);
    assert!(rt; is_refused(rt.alloc(), Refusal::Spent, SPENT)?);
    Ok(())
}

#[test]
fn a_reply_that_nothing_changed_has_a_tag_and_no_length(rt: HostRuntime) -> Result<(), AllocError> {
    assert!(rt; is_reply(rt.alloc(), &Outcome::Same(TAG), SAME)?);
    Ok(())
}
