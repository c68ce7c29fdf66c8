//! Orders over links in memory: each ending once, pieces, links that are kept and made anew.
ghost use Rattle.std.specs.Prelude.{◌≡◌, ◌≤◌, [], All, IfOk};
ghost use Rattle.http_front.specs.MemoryDial.{IsUnused};

use crate::orders::order;
use http_client::{has_request, is_host};
use http_front::{MemoryDial, MemoryLink, Order, Outcome};
use ids::{Bytes, Items, Text};
use library_state::Reply;
use remote_calls::{Ending, HttpRemote, Remote, RemoteFault};
use std::alloc::{AllocError, Global};

const STORED: &[u8] = b"HTTP/1.1 200 OK\r\nContent-Length: 0\r\n\r\n";

const GOT: &[u8] =
    b"HTTP/1.1 200 OK\r\nContent-Type: application/octet-stream\r\nContent-Length: 3\r\n\r\nabc";

const GOT_LAST: &[u8] =
    b"HTTP/1.1 200 OK\r\nContent-Type: application/octet-stream\r\nContent-Length: 3\r\nConnection: close\r\n\r\nabc";

/// Both replies, one behind the other.
const BOTH: &[u8] =
    b"HTTP/1.1 200 OK\r\nContent-Length: 0\r\n\r\nHTTP/1.1 200 OK\r\nContent-Type: application/octet-stream\r\nContent-Length: 3\r\n\r\nabc";

/// A reply, and the first bytes of the next one.
const STORED_AND_FRONT: &[u8] = b"HTTP/1.1 200 OK\r\nContent-Length: 0\r\n\r\nHTTP/1.1 2";

/// A link with this input that was not used, which keeps so many bytes of what it is given.
fn unused(
    alloc: Global,
    input: Bytes,
    piece: usize,
    room: usize,
    fails: Items<u64>,
) -> Result<MemoryLink, AllocError>
    ensures new { IfOk result IsUnused }
{
    let link = MemoryLink::new(alloc, input, piece.max(1), room, fails)?;
    Ok(link)
}

/// The same over a copy. Its calls of the numbers in `fails` fail.
fn link(alloc: Global, input: &[u8], piece: usize, fails: &[u64]) -> Result<MemoryLink, AllocError>
    ensures new { IfOk result IsUnused }
{
    let input = Bytes::copy(alloc, input)?;
    let fails = Items::copy(alloc, fails)?;
    unused(alloc, input, piece, 4096, fails)
}

/// Two links that were not used, in this order.
fn two_links(
    first: MemoryLink,
    second: MemoryLink,
    mut links: Items<MemoryLink>,
) -> Result<Items<MemoryLink>, AllocError>
    requires none { links ≡ [] }
    requires new { IsUnused first × IsUnused second }
    ensures fresh { IfOk result (All IsUnused) }
{
    links.push(first)?;
    links.push(second)?;
    Ok(links)
}

/// A dial over two links that were not used, in this order, whose calls of the numbers in `fails` fail.
fn dial_over(
    alloc: Global,
    first: MemoryLink,
    second: MemoryLink,
    fails: &[u64],
) -> Result<MemoryDial, AllocError>
    requires new { IsUnused first × IsUnused second }
{
    let links = two_links(first, second, Items::new(alloc))?;
    MemoryDial::new(alloc, links, Items::copy(alloc, fails)?)
}

/// What an order comes to. One without a request is told as want of memory.
fn sent(alloc: Global, remote: &mut HttpRemote<MemoryDial>, order: &Order) -> Ending {
    if !has_request(order) {
        return Err(RemoteFault::NoMemory);
    }
    remote.send(alloc, order)
}

/// Writes what the orders of these words come to, one after another.
fn write_endings(
    alloc: Global,
    remote: &mut HttpRemote<MemoryDial>,
    words: &[&str],
    said: &mut String,
) -> Result<(), AllocError> {
    for word in words {
        let order = order(alloc, word)?;
        let ending = sent(alloc, remote, &order);
        said.push_str(format!(in alloc; "{ending:?} ")?.as_str())?;
    }
    Ok(())
}

/// The same over a dial, and how many links came back to it in the end.
fn endings(alloc: Global, dial: MemoryDial, words: &[&str]) -> Result<String, AllocError> {
    let mut said = String::new(alloc);
    let host = Text::copy(alloc, "x")?;
    if !is_host(&host) {
        return Ok(said);
    }
    let mut remote = HttpRemote::new(dial, host, 8082);
    let written = write_endings(alloc, &mut remote, words, &mut said);
    let dial = remote.end();
    written?;
    said.push_str(format!(in alloc; "{}", dial.returned().len())?.as_str())?;
    Ok(said)
}

/// Two links with these inputs, which move so many bytes at a time.
fn links_of(
    alloc: Global,
    first: &[u8],
    second: &[u8],
    piece: usize,
) -> Result<MemoryDial, AllocError> {
    let first = link(alloc, first, piece, &[])?;
    let second = link(alloc, second, piece, &[])?;
    dial_over(alloc, first, second, &[])
}

/// Whether the orders of these words come to this over a dial.
fn comes_to(
    alloc: Global,
    dial: MemoryDial,
    words: &[&str],
    wanted: &str,
) -> Result<bool, AllocError> {
    let said = endings(alloc, dial, words)?;
    Ok(said.as_bytes() == wanted.as_bytes())
}

/// The inputs of two links, how many bytes they move at a time, the words of orders, and what they come to.
const ROWS: [(&[u8], &[u8], usize, &[&str], &str); 12] = [
    (b"x", b"", 1, &["head"], "Err(BadReply(0)) 1"),
    (b"", b"", 1, &["head"], "Err(Cut(0)) 1"),
    (
        b"HTTP/1.1 200 OK\r\n",
        b"",
        100,
        &["head"],
        "Err(Cut(17)) 1",
    ),
    (
        GOT,
        b"",
        1,
        &["get"],
        "Ok(Plain(Got(Items { inner: [97, 98, 99] }), Tag { opening: 0, count: 0 })) 1",
    ),
    (
        GOT,
        b"",
        7,
        &["get"],
        "Ok(Plain(Got(Items { inner: [97, 98, 99] }), Tag { opening: 0, count: 0 })) 1",
    ),
    (
        BOTH,
        b"",
        65_536,
        &["put", "get"],
        "Ok(Plain(Stored(true), Tag { opening: 0, count: 0 })) Ok(Plain(Got(Items { inner: [97, 98, 99] }), Tag { opening: 0, count: 0 })) 1",
    ),
    (
        b"x",
        STORED,
        100,
        &["put", "put"],
        "Err(BadReply(0)) Ok(Plain(Stored(true), Tag { opening: 0, count: 0 })) 2",
    ),
    (
        GOT_LAST,
        STORED,
        100,
        &["get", "put"],
        "Ok(Plain(Got(Items { inner: [97, 98, 99] }), Tag { opening: 0, count: 0 })) Ok(Plain(Stored(true), Tag { opening: 0, count: 0 })) 2",
    ),
    (
        STORED,
        STORED,
        100,
        &["put", "put"],
        "Ok(Plain(Stored(true), Tag { opening: 0, count: 0 })) Ok(Plain(Stored(true), Tag { opening: 0, count: 0 })) 2",
    ),
    (
        STORED,
        b"",
        100,
        &["put", "put"],
        "Ok(Plain(Stored(true), Tag { opening: 0, count: 0 })) Err(Cut(0)) 2",
    ),
    (
        STORED_AND_FRONT,
        STORED,
        1,
        &["put", "put"],
        "Ok(Plain(Stored(true), Tag { opening: 0, count: 0 })) Err(Cut(10)) 1",
    ),
    (
        STORED,
        STORED,
        100,
        &["put", "put", "put"],
        "Ok(Plain(Stored(true), Tag { opening: 0, count: 0 })) Ok(Plain(Stored(true), Tag { opening: 0, count: 0 })) Err(Link) 2",
    ),
];

/// Two replies in one piece are those of two orders over one link; after bytes that are no reply, and after a reply that
/// closes, the next order has another. A link that was kept and ends before a byte of a reply is left for another, just once an
/// order; one that was made for the order, or that gave a byte, is told as cut.
#[test]
fn each_order_comes_to_what_its_link_gives(rt: HostRuntime) -> Result<(), AllocError> {
    for (first, second, piece, words, wanted) in ROWS {
        let dial = links_of(rt.alloc(), first, second, piece)?;
        assert!(rt; comes_to(rt.alloc(), dial, words, wanted)?, "{wanted}");
    }
    Ok(())
}

/// Whether two orders have the link's fault where the dial makes none.
fn is_undialled(alloc: Global) -> Result<bool, AllocError> {
    let first = link(alloc, b"", 1, &[])?;
    let second = link(alloc, b"", 1, &[])?;
    let dial = dial_over(alloc, first, second, &[0, 1])?;
    comes_to(alloc, dial, &["head", "head"], "Err(Link) Err(Link) 0")
}

/// Whether an order has the link's fault, whose call of this number fails, and the next one another link.
fn is_left(alloc: Global, failing: u64) -> Result<bool, AllocError> {
    let first = link(alloc, b"", 100, &[failing])?;
    let second = link(alloc, STORED, 100, &[])?;
    let dial = dial_over(alloc, first, second, &[])?;
    comes_to(
        alloc,
        dial,
        &["head", "put"],
        "Err(Link) Ok(Plain(Stored(true), Tag { opening: 0, count: 0 })) 2",
    )
}

/// A link fails as it is given the request, or as it is asked for the reply.
#[test]
fn a_link_that_fails_is_told_and_left(rt: HostRuntime) -> Result<(), AllocError> {
    assert!(rt; is_undialled(rt.alloc())?);
    assert!(rt; is_left(rt.alloc(), 0)?);
    assert!(rt; is_left(rt.alloc(), 1)?);
    Ok(())
}

/// Whether an order goes over another link where the one that was kept fails in its call of this number.
fn is_given_again(alloc: Global, failing: u64) -> Result<bool, AllocError> {
    let first = link(alloc, STORED, 100, &[failing])?;
    let second = link(alloc, STORED, 100, &[])?;
    let dial = dial_over(alloc, first, second, &[])?;
    comes_to(
        alloc,
        dial,
        &["put", "put"],
        "Ok(Plain(Stored(true), Tag { opening: 0, count: 0 })) Ok(Plain(Stored(true), Tag { opening: 0, count: 0 })) 2",
    )
}

/// A link that was kept fails as it is given the request, or as it is asked for the reply.
#[test]
fn a_link_that_was_kept_and_fails_is_left_for_another(rt: HostRuntime) -> Result<(), AllocError> {
    assert!(rt; is_given_again(rt.alloc(), 2)?);
    assert!(rt; is_given_again(rt.alloc(), 3)?);
    Ok(())
}

/// Whether a reply that ends after so many bytes is told as cut there.
fn is_cut_at(alloc: Global, size: usize) -> Result<bool, AllocError>
    requires within { size ≤ 81 }
{
    let dial = links_of(alloc, &GOT[..size], b"", 1)?;
    let wanted = format!(in alloc; "Err(Cut({size})) 1")?;
    comes_to(alloc, dial, &["get"], wanted.as_str())
}

/// A reply that ends at each of its bytes is cut there.
#[test]
fn a_reply_is_cut_where_it_ends(rt: HostRuntime) -> Result<(), AllocError> {
    for size in 0..81 {
        assert!(rt; is_cut_at(rt.alloc(), size)?, "at {size}");
    }
    Ok(())
}

/// A head of more than 17,000 bytes without an end.
fn endless_head(alloc: Global) -> Result<String, AllocError> {
    let mut head = String::from_str(alloc, "HTTP/1.1 200 ")?;
    for _ in 0..340 {
        head.push_str("aaaaaaaaaaaaaaaaaaaaaaaaaaaaaaaaaaaaaaaaaaaaaaaaaa")?;
    }
    Ok(head)
}

/// Whether such a head is none as soon as 16,384 bytes of it are there.
fn is_no_head(alloc: Global) -> Result<bool, AllocError> {
    let head = endless_head(alloc)?;
    let dial = links_of(alloc, head.as_bytes(), b"", 65_536)?;
    comes_to(alloc, dial, &["head"], "Err(BadReply(16384)) 1")
}

#[test]
fn a_head_without_an_end_is_no_reply(rt: HostRuntime) -> Result<(), AllocError> {
    assert!(rt; is_no_head(rt.alloc())?);
    Ok(())
}

/// So many replies that something was stored.
fn replies(alloc: Global, count: u64) -> Result<Bytes, AllocError> {
    let mut bytes = Vec::new(alloc);
    for _ in 0..count {
        bytes.extend_from_slice(STORED)?;
    }
    Ok(Bytes::from_vec(bytes))
}

/// A link that gives so many replies that something was stored, with room for as many requests.
fn storing_link(alloc: Global, count: u64) -> Result<MemoryLink, AllocError>
    ensures new { IfOk result IsUnused }
{
    let input = replies(alloc, count)?;
    unused(alloc, input, 65_536, 4_194_304, Items::new(alloc))
}

fn plain(outcome: &Outcome) -> Option<&Reply> {
    match outcome {
        Outcome::Plain(reply, _) => Some(reply),
        _ => None,
    }
}

fn stores(outcome: &Outcome) -> bool {
    match plain(outcome) {
        Some(reply) => matches!(reply, Reply::Stored(_)),
        None => false,
    }
}

/// Whether something is stored by an order.
fn is_stored(alloc: Global, remote: &mut HttpRemote<MemoryDial>, order: &Order) -> bool {
    match &sent(alloc, remote, order) {
        Ok(outcome) => stores(outcome),
        Err(_) => false,
    }
}

/// Whether something is stored by each of so many.
fn is_stored_each_time(
    alloc: Global,
    remote: &mut HttpRemote<MemoryDial>,
    order: &Order,
    count: u64,
) -> bool {
    for _ in 0..count {
        if !is_stored(alloc, remote, order) {
            return false;
        }
    }
    true
}

/// Whether two links came back, and the first was given nine thousand times what the second was given.
fn was_left_for_another(dial: &MemoryDial) -> bool {
    match dial.returned() {
        [first, second] => first.given().len() == second.given().len().saturating_mul(9_000),
        _ => false,
    }
}

/// Whether a remote leaves a link that would give one more reply, for another, with its 9,001st order.
fn is_left_in_time(alloc: Global) -> Result<bool, AllocError> {
    let first = storing_link(alloc, 9_001)?;
    let second = storing_link(alloc, 1)?;
    let dial = dial_over(alloc, first, second, &[])?;
    let order = order(alloc, "put")?;
    let host = Text::copy(alloc, "x")?;
    if !is_host(&host) {
        return Ok(false);
    }
    let mut remote = HttpRemote::new(dial, host, 8082);
    let stored = is_stored_each_time(alloc, &mut remote, &order, 9_001);
    let dial = remote.end();
    Ok(stored && was_left_for_another(&dial))
}

#[test]
fn a_link_has_nine_thousand_requests(rt: HostRuntime) -> Result<(), AllocError> {
    assert!(rt; is_left_in_time(rt.alloc())?);
    Ok(())
}

/// Whether two links came back that were given as much.
fn gave_alike(dial: &MemoryDial) -> bool {
    match dial.returned() {
        [first, second] => first.given().len() == second.given().len(),
        _ => false,
    }
}

/// Whether something is stored by an order before a rest and by one after it.
fn is_stored_around_a_rest(
    alloc: Global,
    remote: &mut HttpRemote<MemoryDial>,
    order: &Order,
) -> bool {
    let before = is_stored(alloc, remote, order);
    remote.rest();
    before && is_stored(alloc, remote, order)
}

/// Whether a remote that rests leaves a link that would give one more reply, for another.
fn is_left_at_rest(alloc: Global) -> Result<bool, AllocError> {
    let first = storing_link(alloc, 2)?;
    let second = storing_link(alloc, 1)?;
    let dial = dial_over(alloc, first, second, &[])?;
    let order = order(alloc, "put")?;
    let host = Text::copy(alloc, "x")?;
    if !is_host(&host) {
        return Ok(false);
    }
    let mut remote = HttpRemote::new(dial, host, 8082);
    let stored = is_stored_around_a_rest(alloc, &mut remote, &order);
    let dial = remote.end();
    Ok(stored && gave_alike(&dial))
}

#[test]
fn a_link_is_left_at_rest(rt: HostRuntime) -> Result<(), AllocError> {
    assert!(rt; is_left_at_rest(rt.alloc())?);
    Ok(())
}
