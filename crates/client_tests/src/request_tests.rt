//! Requests byte for byte, as a client writes them.
use crate::orders::order;
use http_client::{body_size, has_request, is_host, is_within_limit, request_bytes};
use http_front::{Order, What};
use ids::Text;
use std::alloc::{AllocError, Global};

/// Whether an order has a request to a host, which is this text.
fn is_written(
    alloc: Global,
    order: &Order,
    host: &Text,
    closes: bool,
    text: &str,
) -> Result<bool, AllocError> {
    if !has_request(order) {
        return Ok(false);
    }
    if !is_within_limit(order) {
        return Ok(false);
    }
    if !is_host(host) {
        return Ok(false);
    }
    Ok(request_bytes(alloc, order, host, closes)?.slice() == text.as_bytes())
}

/// Whether the order of a word has this request to the host `x`.
fn is_asked(alloc: Global, word: &str, closes: bool, text: &str) -> Result<bool, AllocError> {
    let order = order(alloc, word)?;
    let host = Text::copy(alloc, "x")?;
    is_written(alloc, &order, &host, closes, text)
}

const BLOCK: &str =
    "GET /repo/11111111-2222-4333-8444-555555555555/block/a9993e364706816aba3e25717850c26c9cd0d89d HTTP/1.1\r\nHost: x\r\nSeafile-Repo-Token: aaaaaaaaaaaaaaaaaaaaaaaaaaaaaaaaaaaaaaaa\r\nConnection: close\r\n\r\n";

#[test]
fn a_block_is_asked_for_in_one_text(rt: HostRuntime) -> Result<(), AllocError> {
    assert!(rt; is_asked(rt.alloc(), "get", true, BLOCK)?);
    Ok(())
}

/// Words without a body, and their requests.
const PATHS: [(&str, &str); 8] = [
    (
        "check",
        "GET /repo/11111111-2222-4333-8444-555555555555/permission-check?op=upload HTTP/1.1\r\nHost: x\r\nSeafile-Repo-Token: aaaaaaaaaaaaaaaaaaaaaaaaaaaaaaaaaaaaaaaa\r\n\r\n",
    ),
    (
        "head",
        "GET /repo/11111111-2222-4333-8444-555555555555/commit/HEAD HTTP/1.1\r\nHost: x\r\nSeafile-Repo-Token: aaaaaaaaaaaaaaaaaaaaaaaaaaaaaaaaaaaaaaaa\r\n\r\n",
    ),
    (
        "look",
        "GET /repo/11111111-2222-4333-8444-555555555555/commit/HEAD HTTP/1.1\r\nHost: x\r\nSeafile-Repo-Token: aaaaaaaaaaaaaaaaaaaaaaaaaaaaaaaaaaaaaaaa\r\nIf-None-Match: \"1-2\"\r\n\r\n",
    ),
    (
        "update",
        "PUT /repo/11111111-2222-4333-8444-555555555555/commit/HEAD?head=a9993e364706816aba3e25717850c26c9cd0d89d HTTP/1.1\r\nHost: x\r\nSeafile-Repo-Token: aaaaaaaaaaaaaaaaaaaaaaaaaaaaaaaaaaaaaaaa\r\nContent-Length: 0\r\n\r\n",
    ),
    (
        "differ",
        "GET /repo/11111111-2222-4333-8444-555555555555/fs-id-list?server-head=a9993e364706816aba3e25717850c26c9cd0d89d&client-head=a9993e364706816aba3e25717850c26c9cd0d89d HTTP/1.1\r\nHost: x\r\nSeafile-Repo-Token: aaaaaaaaaaaaaaaaaaaaaaaaaaaaaaaaaaaaaaaa\r\n\r\n",
    ),
    (
        "list",
        "GET /repo/11111111-2222-4333-8444-555555555555/fs-id-list?server-head=a9993e364706816aba3e25717850c26c9cd0d89d HTTP/1.1\r\nHost: x\r\nSeafile-Repo-Token: aaaaaaaaaaaaaaaaaaaaaaaaaaaaaaaaaaaaaaaa\r\n\r\n",
    ),
    (
        "limit",
        "PUT /repo/11111111-2222-4333-8444-555555555555/history-limit?days=-1 HTTP/1.1\r\nHost: x\r\nSeafile-Repo-Token: aaaaaaaaaaaaaaaaaaaaaaaaaaaaaaaaaaaaaaaa\r\nContent-Length: 0\r\n\r\n",
    ),
    (
        "collect",
        "POST /repo/11111111-2222-4333-8444-555555555555/collect HTTP/1.1\r\nHost: x\r\nSeafile-Repo-Token: aaaaaaaaaaaaaaaaaaaaaaaaaaaaaaaaaaaaaaaa\r\nContent-Length: 0\r\n\r\n",
    ),
];

#[test]
fn what_has_no_body_is_asked_for_by_path_and_query(rt: HostRuntime) -> Result<(), AllocError> {
    for (word, text) in PATHS {
        assert!(rt; is_asked(rt.alloc(), word, false, text)?, "{word}");
    }
    Ok(())
}

/// Words with one.
const BODIES: [(&str, &str); 5] = [
    (
        "missing",
        "POST /repo/11111111-2222-4333-8444-555555555555/check-blocks HTTP/1.1\r\nHost: x\r\nSeafile-Repo-Token: aaaaaaaaaaaaaaaaaaaaaaaaaaaaaaaaaaaaaaaa\r\nContent-Length: 44\r\n\r\n[\"a9993e364706816aba3e25717850c26c9cd0d89d\"]",
    ),
    (
        "missing none",
        "POST /repo/11111111-2222-4333-8444-555555555555/check-fs HTTP/1.1\r\nHost: x\r\nSeafile-Repo-Token: aaaaaaaaaaaaaaaaaaaaaaaaaaaaaaaaaaaaaaaa\r\nContent-Length: 2\r\n\r\n[]",
    ),
    (
        "no objects",
        "POST /repo/11111111-2222-4333-8444-555555555555/pack-fs HTTP/1.1\r\nHost: x\r\nSeafile-Repo-Token: aaaaaaaaaaaaaaaaaaaaaaaaaaaaaaaaaaaaaaaa\r\nContent-Length: 2\r\n\r\n[]",
    ),
    (
        "put commit",
        "PUT /repo/11111111-2222-4333-8444-555555555555/commit/a9993e364706816aba3e25717850c26c9cd0d89d HTTP/1.1\r\nHost: x\r\nSeafile-Repo-Token: aaaaaaaaaaaaaaaaaaaaaaaaaaaaaaaaaaaaaaaa\r\nContent-Length: 3\r\n\r\nabc",
    ),
    (
        "send row",
        "POST /repo/11111111-2222-4333-8444-555555555555/recv-fs HTTP/1.1\r\nHost: x\r\nSeafile-Repo-Token: aaaaaaaaaaaaaaaaaaaaaaaaaaaaaaaaaaaaaaaa\r\nContent-Length: 46\r\n\r\na9993e364706816aba3e25717850c26c9cd0d89d\0\0\0\u{2}{}",
    ),
];

#[test]
fn what_has_a_body_is_sent_with_its_length(rt: HostRuntime) -> Result<(), AllocError> {
    for (word, text) in BODIES {
        assert!(rt; is_asked(rt.alloc(), word, false, text)?, "{word}");
    }
    Ok(())
}

#[test]
fn which_commits_are_absent_is_not_asked(rt: HostRuntime) -> Result<(), AllocError> {
    assert!(rt; !has_request(&order(rt.alloc(), "missing commits")?));
    Ok(())
}

#[test]
fn days_of_nineteen_digits_are_not_asked(rt: HostRuntime) -> Result<(), AllocError> {
    assert!(rt; !has_request(&order(rt.alloc(), "long limit")?));
    Ok(())
}

#[test]
fn the_length_of_a_body_is_known_before_it_is_written(rt: HostRuntime) -> Result<(), AllocError> {
    assert!(rt; body_size(&order(rt.alloc(), "missing")?) == 44);
    Ok(())
}

const VERSION: &str = "GET /protocol-version HTTP/1.1\r\nHost: x\r\n\r\n";

/// The order that no library is asked.
fn version() -> Order {
    Order {
        lib: None,
        secret: None,
        what: What::Version,
    }
}

#[test]
fn the_version_is_written_for_no_library(rt: HostRuntime) -> Result<(), AllocError> {
    let host = Text::copy(rt.alloc(), "x")?;
    assert!(rt; is_written(rt.alloc(), &version(), &host, false, VERSION)?);
    Ok(())
}
