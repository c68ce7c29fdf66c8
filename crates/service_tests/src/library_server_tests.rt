//! How connections end, with the numbers and the kinds of end that no program shows, and what a link that fails leaves.
ghost use Rattle.std.specs.Prelude.{◌≤◌};

use crate::library::library_on;
use crate::standing_clock::Stands;
use http_front::MemoryLink;
use ids::{Bytes, Items};
use library_server::{Counted, serve_link};
use std::alloc::{AllocError, Global};
use worker_server::Served;

/// What is left of the input after a block was put, how the connection ends, and what is given after the block's reply.
struct Ending {
    left: &'static [u8],
    how: Served,
    given: &'static [u8],
}

/// The block is asked for.
pub(crate) const GET: &[u8] =
    b"GET /repo/11111111-2222-4333-8444-555555555555/block/a9993e364706816aba3e25717850c26c9cd0d89d HTTP/1.1\r\nHost: x\r\nSeafile-Repo-Token: aaaaaaaaaaaaaaaaaaaaaaaaaaaaaaaaaaaaaaaa\r\n\r\n";

/// It is given.
const BLOCK: &[u8] =
    b"HTTP/1.1 200 OK\r\nContent-Type: application/octet-stream\r\nContent-Length: 3\r\n\r\nabc";

const GOES_ON: &[u8] = b"HTTP/1.1 100 Continue\r\n\r\n";

const MALFORMED: &[u8] =
    b"HTTP/1.1 400 Bad Request\r\nContent-Type: application/json\r\nContent-Length: 22\r\nConnection: close\r\n\r\n{\"reason\":\"malformed\"}";

const TOO_LARGE: &[u8] =
    b"HTTP/1.1 413 Content Too Large\r\nContent-Type: application/json\r\nContent-Length: 27\r\nConnection: close\r\n\r\n{\"reason\":\"body-too-large\"}";

const CODING: &[u8] =
    b"HTTP/1.1 501 Not Implemented\r\nContent-Type: application/json\r\nContent-Length: 19\r\nConnection: close\r\n\r\n{\"reason\":\"coding\"}";

const ENDINGS: &[Ending] = &[
    Ending {
        left: b"",
        how: Served::Ended,
        given: b"",
    },
    Ending {
        left: GET,
        how: Served::Ended,
        given: BLOCK,
    },
    Ending {
        left: b"GET / HT",
        how: Served::Cut(8),
        given: b"",
    },
    Ending {
        left: b"PUT /repo/11111111-2222-4333-8444-555555555555/block/a9993e364706816aba3e25717850c26c9cd0d89d HTTP/1.1\r\nHost: x\r\nSeafile-Repo-Token: aaaaaaaaaaaaaaaaaaaaaaaaaaaaaaaaaaaaaaaa\r\nContent-Length: 3\r\n\r\nab",
        how: Served::Cut(198),
        given: b"",
    },
    Ending {
        left: b"PUT /repo/11111111-2222-4333-8444-555555555555/block/a9993e364706816aba3e25717850c26c9cd0d89d HTTP/1.1\r\nHost: x\r\nSeafile-Repo-Token: aaaaaaaaaaaaaaaaaaaaaaaaaaaaaaaaaaaaaaaa\r\nContent-Length: 3\r\nExpect: 100-continue\r\n\r\nab",
        how: Served::Cut(220),
        given: GOES_ON,
    },
    Ending {
        left: b" ",
        how: Served::Refused(400),
        given: MALFORMED,
    },
    Ending {
        left: b"GET / HTTP/1.1\r\nHost: x\r\nHost: x\r\n\r\n",
        how: Served::Refused(400),
        given: MALFORMED,
    },
    Ending {
        left: b"POST /x HTTP/1.1\r\nHost: x\r\nExpect: 100-continue\r\nContent-Length: 33554433\r\n\r\n",
        how: Served::Refused(413),
        given: TOO_LARGE,
    },
    Ending {
        left: b"GET / HTTP/1.1\r\nTransfer-Encoding: chunked\r\n\r\n",
        how: Served::Refused(501),
        given: CODING,
    },
];

/// A block is put.
pub(crate) const PUT: &[u8] =
    b"PUT /repo/11111111-2222-4333-8444-555555555555/block/a9993e364706816aba3e25717850c26c9cd0d89d HTTP/1.1\r\nHost: x\r\nSeafile-Repo-Token: aaaaaaaaaaaaaaaaaaaaaaaaaaaaaaaaaaaaaaaa\r\nContent-Length: 3\r\n\r\nabc";

/// It is stored.
pub(crate) const STORED: &[u8] = b"HTTP/1.1 200 OK\r\nContent-Length: 0\r\n\r\n";

/// A block is put, and this is left of the input.
pub(crate) fn put_and(alloc: Global, left: &[u8]) -> Result<Vec<u8>, AllocError> {
    let mut asked = Vec::from_slice(alloc, PUT)?;
    asked.extend_from_slice(left)?;
    Ok(asked)
}

/// A link that gives these bytes in pieces of this size, and whose calls of these numbers fail.
pub(crate) fn link_of(
    alloc: Global,
    asked: &[u8],
    piece: usize,
    fails: &[u64],
) -> Result<MemoryLink, AllocError>
    requires { 1 ≤ piece }
{
    let asked = Bytes::copy(alloc, asked)?;
    MemoryLink::new(alloc, asked, piece, 1_000_000, Items::copy(alloc, fails)?)
}

/// How a connection with a new library ends.
fn end_of(alloc: Global, link: &mut MemoryLink) -> Result<Served, AllocError> {
    let depot = library_on(alloc, &[])?;
    let mut library = Counted { depot, changes: 0 };
    Ok(serve_link(alloc, &mut library, link, &Stands))
}

/// Whether this was given after the block's reply.
fn is_given(link: &MemoryLink, given: &[u8]) -> bool {
    match link.given().strip_prefix(STORED) {
        Some(more) => more == given,
        None => false,
    }
}

/// Whether a connection in pieces of this size ends so.
fn ends_so(alloc: Global, ending: &Ending, piece: usize) -> Result<bool, AllocError>
    requires { 1 ≤ piece }
{
    let asked = put_and(alloc, ending.left)?;
    let mut link = link_of(alloc, asked.as_slice(), piece, &[])?;
    let how = end_of(alloc, &mut link)?;
    Ok(how == ending.how && is_given(&link, ending.given))
}

#[test]
fn each_end_has_its_number_and_its_status(rt: HostRuntime) -> Result<(), AllocError> {
    for ending in ENDINGS {
        assert!(rt; ends_so(rt.alloc(), ending, 1)?, "{:?}", ending.how);
        assert!(rt; ends_so(rt.alloc(), ending, 1_000)?, "{:?}", ending.how);
    }
    Ok(())
}

/// How a connection that puts a block and asks for it ends where the link's call of this number fails, and how many bytes of
/// the replies are given.
struct Failing {
    call: u64,
    given: usize,
    how: Served,
}

/// One take reads both requests, two calls give the replies, and a take finds the end.
const FAILING: &[Failing] = &[
    Failing {
        call: 0,
        given: 0,
        how: Served::ReadFault,
    },
    Failing {
        call: 1,
        given: 0,
        how: Served::WriteFault,
    },
    Failing {
        call: 2,
        given: 38,
        how: Served::WriteFault,
    },
    Failing {
        call: 3,
        given: 119,
        how: Served::ReadFault,
    },
    Failing {
        call: 4,
        given: 119,
        how: Served::Ended,
    },
];

/// The replies to both.
pub(crate) const STORED_AND_GIVEN: &[u8] = b"\
HTTP/1.1 200 OK\r\nContent-Length: 0\r\n\r\n\
HTTP/1.1 200 OK\r\nContent-Type: application/octet-stream\r\nContent-Length: 3\r\n\r\nabc";

fn is_front(given: &[u8], count: usize) -> bool {
    given.len() == count && STORED_AND_GIVEN.starts_with(given)
}

/// Whether a connection ends so.
fn fails_so(alloc: Global, row: &Failing) -> Result<bool, AllocError> {
    let asked = put_and(alloc, GET)?;
    let mut link = link_of(alloc, asked.as_slice(), 1_000, &[row.call])?;
    let how = end_of(alloc, &mut link)?;
    Ok(how == row.how && is_front(link.given(), row.given))
}

#[test]
fn a_link_that_fails_leaves_a_front_of_the_replies(rt: HostRuntime) -> Result<(), AllocError> {
    for row in FAILING {
        assert!(rt; fails_so(rt.alloc(), row)?, "at call {}", row.call);
    }
    Ok(())
}

const VERSION: &[u8] = b"GET /protocol-version HTTP/1.1\r\nHost: x\r\n\r\n";

const LAST: &[u8] =
    b"HTTP/1.1 200 OK\r\nContent-Type: application/json\r\nContent-Length: 13\r\nConnection: close\r\n\r\n{\"version\":2}";

/// Ten thousand requests, and one byte more.
fn many(alloc: Global) -> Result<Vec<u8>, AllocError> {
    let mut asked = Vec::new(alloc);
    for _ in 0..10_000 {
        asked.extend_from_slice(VERSION)?;
    }
    asked.push(b'x')?;
    Ok(asked)
}

/// The bytes of 9,999 replies of 84 bytes, which lack a field of 19, and of the last one.
const SIZE: usize = 840_019;

/// Whether each was replied to, and the last as the last one.
fn are_replied(given: &[u8]) -> bool {
    given.len() == SIZE && given.ends_with(LAST)
}

/// Whether a connection of so many requests meets the limit, and each was replied to.
fn meets_limit(alloc: Global) -> Result<bool, AllocError> {
    let asked = many(alloc)?;
    let mut link = link_of(alloc, asked.as_slice(), 65_536, &[])?;
    let how = end_of(alloc, &mut link)?;
    Ok(how == Served::Limit && are_replied(link.given()))
}

#[test]
fn ten_thousand_requests_and_a_byte_more_meet_the_limit(rt: HostRuntime) -> Result<(), AllocError> {
    assert!(rt; meets_limit(rt.alloc())?);
    Ok(())
}
