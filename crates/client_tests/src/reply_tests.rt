//! Replies as a client reads them: each outcome once, and beginnings that are no reply, with their places.
use crate::orders::order;
use http_client::next_response;
use http_front::Order;
use std::alloc::{AllocError, Global};

/// Whether one who gave an order is told so of some bytes, as it is printed.
fn is_told(alloc: Global, order: &Order, buffer: &[u8], wanted: &str) -> Result<bool, AllocError> {
    let response = next_response(alloc, order, buffer)?;
    Ok(format!(in alloc; "{response:?}")?.as_bytes() == wanted.as_bytes())
}

/// Whether one who gave the order of a word is told so of a reply.
fn holds(alloc: Global, word: &str, reply: &[u8], wanted: &str) -> Result<bool, AllocError> {
    is_told(alloc, &order(alloc, word)?, reply, wanted)
}

/// Orders, replies to them, and what is told.
const OUTCOMES: [(&str, &str, &str); 13] = [
    (
        "version",
        "HTTP/1.1 200 OK\r\ncontent-length: 13\r\n\r\n{\"version\":2}",
        "Whole { outcome: Version, used: 52, closes: false }",
    ),
    (
        "check",
        "HTTP/1.1 200 OK\r\nContent-Length: 0\r\nConnection: close\r\n\r\n",
        "Whole { outcome: Plain(Checked, Tag { opening: 0, count: 0 }), used: 57, closes: true }",
    ),
    (
        "missing",
        "HTTP/1.1 200 OK\r\nContent-Length: 2\r\n\r\n[]",
        "Whole { outcome: Plain(Absent(Items { inner: [] }), Tag { opening: 0, count: 0 }), used: 40, closes: false }",
    ),
    (
        "missing",
        "HTTP/1.1 200 OK\r\nContent-Length: 44\r\n\r\n[\"2aae6c35c94fcfb415dbe95f408b9ce91ee846ed\"]",
        "Bad(39)",
    ),
    (
        "list",
        "HTTP/1.1 200 OK\r\nContent-Length: 2\r\n\r\n[]",
        "Whole { outcome: Plain(Listed(Items { inner: [] }), Tag { opening: 0, count: 0 }), used: 40, closes: false }",
    ),
    (
        "objects",
        "HTTP/1.1 200 OK\r\nContent-Length: 0\r\n\r\n",
        "Bad(38)",
    ),
    (
        "update",
        "HTTP/1.1 409 Conflict\r\nContent-Length: 35\r\n\r\n{\"last\":1,\"now\":2,\"reason\":\"stale\"}",
        "Whole { outcome: Refused(Stale { last: 1, now: 2 }), used: 80, closes: false }",
    ),
    (
        "head",
        "HTTP/1.1 409 Conflict\r\nContent-Length: 35\r\n\r\n{\"last\":1,\"now\":2,\"reason\":\"stale\"}",
        "Bad(45)",
    ),
    (
        "get",
        "HTTP/1.1 500 Internal Server Error\r\nContent-Length: 19\r\n\r\n{\"reason\": \"store\"}",
        "Whole { outcome: Refused(Store), used: 77, closes: false }",
    ),
    (
        "limit",
        "HTTP/1.1 200 OK\r\nContent-Length: 0\r\n\r\n",
        "Whole { outcome: Plain(Limited, Tag { opening: 0, count: 0 }), used: 38, closes: false }",
    ),
    (
        "collect",
        "HTTP/1.1 200 OK\r\nContent-Length: 28\r\n\r\n{\"collection\":3,\"removed\":7}",
        "Whole { outcome: Collected { number: 3, removed: 7 }, used: 67, closes: false }",
    ),
    (
        "limit",
        "HTTP/1.1 400 Bad Request\r\nContent-Length: 31\r\n\r\n{\"days\":-2,\"reason\":\"bad-days\"}",
        "Whole { outcome: Refused(BadDays(-2)), used: 79, closes: false }",
    ),
    (
        "collect",
        "HTTP/1.1 200 OK\r\nContent-Length: 16\r\n\r\n{\"collection\":3}",
        "Bad(39)",
    ),
];

#[test]
fn each_reply_tells_the_outcome_of_its_order(rt: HostRuntime) -> Result<(), AllocError> {
    for (word, reply, wanted) in OUTCOMES {
        assert!(rt;
            holds(rt.alloc(), word, reply.as_bytes(), wanted)?,
            "{word}: {wanted}"
        );
    }
    Ok(())
}

const BLOCK: &[u8] =
    b"HTTP/1.1 200 OK\r\nContent-Type: application/octet-stream\r\nContent-Length: 3\r\nConnection: close\r\n\r\nabc";

const GOT: &str =
    "Whole { outcome: Plain(Got(Items { inner: [97, 98, 99] }), Tag { opening: 0, count: 0 }), used: 100, closes: true }";

#[test]
fn a_cut_reply_is_never_whole(rt: HostRuntime) -> Result<(), AllocError> {
    let order = order(rt.alloc(), "get")?;
    assert!(rt; is_told(rt.alloc(), &order, BLOCK, GOT)?);
    for length in 0..100 {
        assert!(rt;
            is_told(rt.alloc(), &order, &BLOCK[..length], "Need")?,
            "at {length}"
        );
    }
    Ok(())
}

/// Beginnings of replies to the question for the head, and what is told of them.
const FRONTS: [(&str, &str); 19] = [
    ("HTTP/1.1 20", "Need"),
    ("HTTP/1.0 2", "Bad(7)"),
    ("HTTP/1.0 200 OK\r\nContent-Length: 0\r\n\r\n", "Bad(7)"),
    ("x", "Bad(0)"),
    ("HTTP/1.1 2x", "Bad(10)"),
    ("\r\n\nHTTP/1.0", "Bad(10)"),
    ("\r\r\nHTTP/1.1", "Bad(1)"),
    ("HTTP/1.1 200 OK\r\nA : b", "Bad(18)"),
    ("HTTP/1.1 299 OK\r\nContent-Length: 0\r\n\r\n", "Bad(38)"),
    ("HTTP/1.1 200 OK\r\n\r\n", "Bad(19)"),
    ("HTTP/1.1 200 OK\r\nContent-Length: x\r\n\r\n", "Bad(38)"),
    (
        "HTTP/1.1 200 OK\r\nContent-Length: 1\r\nContent-Length: 1\r\n\r\n1",
        "Bad(57)",
    ),
    ("HTTP/1.1 304 Not Modified\r\n\r\n", "Bad(29)"),
    (
        "HTTP/1.1 304 Not Modified\r\nETag: \"1-2\"\r\nContent-Length: 5\r\n\r\n",
        "Bad(61)",
    ),
    (
        "HTTP/1.1 200 OK\r\nETag: \"1-2\"\r\nContent-Length: 2\r\n\r\n{",
        "Need",
    ),
    (
        "HTTP/1.1 200 OK\r\nETag: \"1-2\"\r\nContent-Length: 2\r\n\r\n{}",
        "Bad(51)",
    ),
    ("HTTP/1.1 200 OK\r\nContent-Length: 2\r\n\r\n{", "Bad(38)"),
    (
        "HTTP/1.1 200 OK\r\nETag: \"1-02\"\r\nContent-Length: 2\r\n\r\n{",
        "Bad(52)",
    ),
    (
        "HTTP/1.1 403 No\r\nContent-Length: 28\r\nX: y\r\n\r\n{\"b\":[7], \"reason\":\"denied\"}HTTP",
        "Whole { outcome: Refused(Denied), used: 73, closes: false }",
    ),
];

#[test]
fn what_is_no_reply_is_told_with_its_place(rt: HostRuntime) -> Result<(), AllocError> {
    for (front, wanted) in FRONTS {
        assert!(rt;
            holds(rt.alloc(), "head", front.as_bytes(), wanted)?,
            "{front}"
        );
    }
    Ok(())
}

/// Orders, replies that tell an id, a row or a path, and what is told.
const THINGS: [(&str, &str, &str); 18] = [
    (
        "head",
        "HTTP/1.1 200 OK\r\nETag: \"1-2\"\r\nContent-Length: 78\r\n\r\n{\"is_corrupted\":0,\"head_commit_id\":\"a9993e364706816aba3e25717850c26c9cd0d89d\"}",
        "Whole { outcome: Plain(HeadIs(ObjId([169, 153, 62, 54, 71, 6, 129, 106, 186, 62, 37, 113, 120, 80, 194, 108, 156, 208, 216, 157])), Tag { opening: 1, count: 2 }), used: 130, closes: false }",
    ),
    (
        "head",
        "HTTP/1.1 200 OK\r\nETag: \"1-2\"\r\nContent-Length: 82\r\n\r\n{\"is_corrupted\":false,\"head_commit_id\":\"a9993e364706816aba3e25717850c26c9cd0d89d\"}",
        "Whole { outcome: Plain(HeadIs(ObjId([169, 153, 62, 54, 71, 6, 129, 106, 186, 62, 37, 113, 120, 80, 194, 108, 156, 208, 216, 157])), Tag { opening: 1, count: 2 }), used: 134, closes: false }",
    ),
    (
        "head",
        "HTTP/1.1 200 OK\r\nETag: \"1-2\"\r\nContent-Length: 61\r\n\r\n{\"head_commit_id\":\"a9993e364706816aba3e25717850c26c9cd0d89d\"}",
        "Bad(52)",
    ),
    (
        "update",
        "HTTP/1.1 200 OK\r\nETag: \"1-2\"\r\nContent-Length: 78\r\n\r\n{\"is_corrupted\":0,\"head_commit_id\":\"a9993e364706816aba3e25717850c26c9cd0d89d\"}",
        "Whole { outcome: Plain(Updated(ObjId([169, 153, 62, 54, 71, 6, 129, 106, 186, 62, 37, 113, 120, 80, 194, 108, 156, 208, 216, 157])), Tag { opening: 1, count: 2 }), used: 130, closes: false }",
    ),
    (
        "put",
        "HTTP/1.1 200 OK\r\nContent-Length: 0\r\n\r\n",
        "Whole { outcome: Plain(Stored(true), Tag { opening: 0, count: 0 }), used: 38, closes: false }",
    ),
    (
        "send",
        "HTTP/1.1 200 OK\r\nContent-Length: 0\r\n\r\n",
        "Whole { outcome: Plain(Stored(true), Tag { opening: 0, count: 0 }), used: 38, closes: false }",
    ),
    (
        "objects",
        "HTTP/1.1 200 OK\r\nContent-Length: 46\r\n\r\na9993e364706816aba3e25717850c26c9cd0d89d\0\0\0\u{2}{}",
        "Whole { outcome: Packed(Items { inner: [Row { id: ObjId([169, 153, 62, 54, 71, 6, 129, 106, 186, 62, 37, 113, 120, 80, 194, 108, 156, 208, 216, 157]), bytes: Items { inner: [123, 125] } }] }), used: 85, closes: false }",
    ),
    (
        "get",
        "HTTP/1.1 404 Not Found\r\nContent-Length: 85\r\n\r\n{\"id\":\"a9993e364706816aba3e25717850c26c9cd0d89d\",\"kind\":\"block\",\"reason\":\"no-object\"}",
        "Whole { outcome: Refused(NoObject(Key { kind: Block, id: ObjId([169, 153, 62, 54, 71, 6, 129, 106, 186, 62, 37, 113, 120, 80, 194, 108, 156, 208, 216, 157]) })), used: 131, closes: false }",
    ),
    (
        "put",
        "HTTP/1.1 409 Conflict\r\nContent-Length: 66\r\n\r\n{\"id\":\"a9993e364706816aba3e25717850c26c9cd0d89d\",\"reason\":\"taken\"}",
        "Whole { outcome: Refused(Taken(ObjId([169, 153, 62, 54, 71, 6, 129, 106, 186, 62, 37, 113, 120, 80, 194, 108, 156, 208, 216, 157]))), used: 111, closes: false }",
    ),
    (
        "update",
        "HTTP/1.1 442 Too Large\r\nContent-Length: 34\r\n\r\n{\"path\":\"a/b\",\"reason\":\"too-deep\"}",
        "Whole { outcome: Refused(TooDeep(Path { names: [Name { text: \"a\" }, Name { text: \"b\" }] })), used: 80, closes: false }",
    ),
    (
        "list",
        "HTTP/1.1 446 Incomplete\r\nContent-Length: 83\r\n\r\n{\"id\":\"a9993e364706816aba3e25717850c26c9cd0d89d\",\"kind\":\"fs\",\"reason\":\"incomplete\"}",
        "Whole { outcome: Refused(Incomplete(Key { kind: Fs, id: ObjId([169, 153, 62, 54, 71, 6, 129, 106, 186, 62, 37, 113, 120, 80, 194, 108, 156, 208, 216, 157]) })), used: 130, closes: false }",
    ),
    (
        "get",
        "HTTP/1.1 446 Incomplete\r\nContent-Length: 83\r\n\r\n{\"id\":\"a9993e364706816aba3e25717850c26c9cd0d89d\",\"kind\":\"fs\",\"reason\":\"incomplete\"}",
        "Bad(47)",
    ),
    (
        "update",
        "HTTP/1.1 442 Too Large\r\nContent-Length: 45\r\n\r\n{\"length\":300,\"path\":\"a\",\"reason\":\"too-long\"}",
        "Whole { outcome: Refused(TooLong(Path { names: [Name { text: \"a\" }] }, 300)), used: 91, closes: false }",
    ),
    (
        "get",
        "HTTP/1.1 400 Bad Request\r\nContent-Length: 22\r\n\r\n{\"reason\":\"malformed\"}",
        "Bad(48)",
    ),
    (
        "get",
        "HTTP/1.1 501 Not Implemented\r\nContent-Length: 19\r\n\r\n{\"reason\":\"coding\"}",
        "Bad(52)",
    ),
    (
        "get",
        "HTTP/1.1 304 Not Modified\r\nETag: \"1-2\"\r\nContent-Length: x\r\n\r\n",
        "Bad(61)",
    ),
    (
        "look",
        "HTTP/1.1 304 Not Modified\r\nETag: \"1-3\"\r\n\r\n",
        "Whole { outcome: Same(Tag { opening: 1, count: 3 }), used: 42, closes: false }",
    ),
    (
        "head",
        "HTTP/1.1 304 Not Modified\r\nETag: \"1-3\"\r\n\r\n",
        "Bad(42)",
    ),
];

#[test]
fn each_id_row_and_path_is_told(rt: HostRuntime) -> Result<(), AllocError> {
    for (word, reply, wanted) in THINGS {
        assert!(rt;
            holds(rt.alloc(), word, reply.as_bytes(), wanted)?,
            "{word}: {wanted}"
        );
    }
    Ok(())
}

#[test]
fn a_head_has_its_limits(rt: HostRuntime) -> Result<(), AllocError> {
    assert!(rt; holds(rt.alloc(), "head", &[b'\n'; 16_383], "Need")?);
    assert!(rt; holds(rt.alloc(), "head", &[b'\n'; 16_400], "Bad(16384)")?);
    Ok(())
}

/// A head of 65 fields.
fn crowded(alloc: Global) -> Result<String, AllocError> {
    let mut text = String::from_str(alloc, "HTTP/1.1 200 OK\r\n")?;
    for _ in 0..65 {
        text.push_str("A:b\r\n")?;
    }
    text.push_str("\r\n")?;
    Ok(text)
}

#[test]
fn a_head_of_more_fields_is_none(rt: HostRuntime) -> Result<(), AllocError> {
    assert!(rt;
        holds(
            rt.alloc(),
            "head",
            crowded(rt.alloc())?.as_bytes(),
            "Bad(341)"
        )?
    );
    Ok(())
}
