//! Reading a head, and then its body: afterwards they stand at the front of the buffer.
ghost use Rattle.std.specs.Prelude.{◌≡◌, ◌+◌, ◌≤◌, ℕ, List, length, IfOk, IfErr, OnOk, Some};
ghost use Rattle.std.specs.Io.KnownBytes.{IsAtEnd};
ghost use Rattle.httparse.specs.Grammar.{HasNoRequest, RequestHead};
ghost use Rattle.http_front.specs.Buffer.{Fills, to_read};
ghost use Rattle.http_front.specs.Link.{told_by};
ghost use Rattle.http_front.specs.NextHead.{IsHeadOf};
ghost use Rattle.http_front.specs.RequestStream.{front_of};
ghost use Rattle.worker_server.specs.RequestSteps.{BeginsBlank, CountsRead, HasBadStatus, IsBodyEnd, IsEnd, IsEndSize, IsLook, IsNoFault, IsScanned, MayEnd, ReadAsked, ReadsOn, WantsBytes, WantsHead, end_at, is_due, is_open_blank};

use http_front::{Buffer, FillFault, HEAD_LIMIT, Head, Link, Next, next_head};
use std::alloc::{AllocError, Global};

/// Why no further head, or its body, was read.
#[derive(Clone, Copy, Debug, PartialEq, Eq)]
pub enum End {
    /// The input ended between two requests.
    Over,
    /// The input ended within a request, of which so many bytes were read.
    Cut(u64),
    /// The next bytes are no request that is served, for the cause that the status tells. A body never ends so.
    Refused(u16),
    /// A take failed.
    ReadFault,
    NoMemory,
}

/// What was told of some bytes.
enum Look {
    /// They begin no head, and may become one, as the first so many of them tell.
    Open(usize),
    Head(Head),
    /// They are refused, with this status.
    Bad(u16),
}

/// Reads until a head stands at the front of the buffer.
///
/// It is looked at again where a line of it ends, and where less than half of what is there was looked at, each time
/// from its first byte. Of empty lines in front of it each is looked at once, until more follows. No clause speaks of
/// time.
pub fn read_head<L: Link>(alloc: Global, link: &mut L, buffer: &mut Buffer) -> Result<Head, End>
    ensures ok { IfOk result (λ head. (request : RequestHead) × IsHeadOf (front_of buffer.new) head request) }
    ensures err { IfErr result (λ end. (rest : List ℕ) → to_read buffer.old (L.left link.old) ≡ Some rest
        → IsEnd rest end) }
    ensures status { IfErr result HasBadStatus }
    ensures to_read { to_read buffer.new (L.left link.new) ≡ to_read buffer.old (L.left link.old) }
    ensures reading { ReadsOn (MayEnd result) WantsHead buffer.old buffer.new (told_by L.taken L.given L.asked link.old) (told_by L.taken L.given L.asked link.new) }
    ensures last { ReadAsked result (told_by L.taken L.given L.asked link.old) (told_by L.taken L.given L.asked link.new) (L.left link.old) (L.left link.new) }
    ensures faults { CountsRead (L.faults link.old) (L.faults link.new) result }
{
    let mut seen = 0;
    let mut known = 0;
    let mut blank = 0;
    loop {
        let front = buffer.front();
        blank = blank_lines(front, blank);
        match look_for_head(alloc, front, seen, known, blank) {
            Ok(Look::Open(now)) => seen = now,
            Ok(Look::Head(head)) => return Ok(head),
            Ok(Look::Bad(status)) => return Err(End::Refused(status)),
            Err(_) => return Err(End::NoMemory),
        }
        known = buffer.len();
        match fill(link, buffer) {
            Ok(0) => return Err(last_end(alloc, buffer)),
            Ok(_) => {}
            Err(end) => return Err(end),
        }
    }
}

/// Looks for a head, where it is time to. The first `seen` bytes were looked at, and up to `known` no line ended after
/// them. The first `blank` bytes are empty lines.
fn look_for_head(
    alloc: Global,
    front: &[u8],
    seen: usize,
    known: usize,
    blank: usize,
) -> Result<Look, AllocError>
    requires known { IsScanned seen known front.now }
    requires part { BeginsBlank blank front.now }
    ensures value { IfOk result (IsLook front.now) }
{
    if is_open_blank(front, blank) {
        return Ok(Look::Open(front.len()));
    }
    if !is_due(front, seen, known) {
        return Ok(Look::Open(seen));
    }
    match next_head(alloc, front) {
        Ok(Next::Need) => Ok(Look::Open(front.len())),
        Ok(Next::Head(head)) => Ok(Look::Head(head)),
        Ok(Next::Bad(status)) => Ok(Look::Bad(status)),
        Err(error) => Err(error),
    }
}

/// Whether it is time to look for a head again: nothing was looked at, or less than half of what is there, or a line
/// ended, or there are as many bytes as a head may have.
fn is_due(front: &[u8], seen: usize, known: usize) -> bool
    requires bound { seen ≤ length front.now }
    requires within { known ≤ length front.now }
    ensures value { result ≡ is_due seen known front.now }
{
    seen == 0
        || front.len() - seen > seen
        || front.len() >= HEAD_LIMIT
        || front[known..].contains(&b'\n')
}

/// Whether empty lines are all that is there, and a head may be longer.
fn is_open_blank(front: &[u8], blank: usize) -> bool
    ensures value { result ≡ is_open_blank blank front.now }
{
    blank == front.len() && front.len() < HEAD_LIMIT
}

/// How many bytes at the front are empty lines: the first `from` are, and so are those of the whole lines that follow.
fn blank_lines(front: &[u8], from: usize) -> usize
    requires part { BeginsBlank from front.now }
    ensures value { BeginsBlank result front.now }
{
    let mut at = from;
    loop {
        let size = end_size(&front[at..]);
        if size == 0 {
            return at;
        }
        at += size;
    }
}

/// How many bytes the line end at the front has, or 0 where none stands there.
fn end_size(bytes: &[u8]) -> usize
    ensures value { IsEndSize bytes.now result }
{
    match bytes {
        [b'\n', ..] => 1,
        [b'\r', b'\n', ..] => 2,
        _ => 0,
    }
}

/// What is told where the input ends with the buffer so, in which no head stands: a last look, at all of it.
fn last_end(alloc: Global, buffer: &Buffer) -> End
    requires none { HasNoRequest buffer.now }
    ensures value { IsEnd buffer.now result }
    ensures status { HasBadStatus result }
    ensures faults { IsNoFault result }
{
    match next_head(alloc, buffer.front()) {
        Ok(Next::Need) => end_at(buffer),
        Ok(Next::Head(_)) => unreachable!(),
        Ok(Next::Bad(status)) => End::Refused(status),
        Err(_) => End::NoMemory,
    }
}

/// Reads until a body of this length stands in the buffer, after a head of `used` bytes.
pub fn read_body<L: Link>(
    link: &mut L,
    buffer: &mut Buffer,
    used: usize,
    body: usize,
) -> Result<(), End>
    requires fits { used ≤ length buffer.old }
    ensures ok { OnOk result (used + body ≤ length buffer.new) }
    ensures err { IfErr result (λ end. (rest : List ℕ) → to_read buffer.old (L.left link.old) ≡ Some rest
        → IsBodyEnd (used + body) rest end) }
    ensures status { IfErr result HasBadStatus }
    ensures to_read { to_read buffer.new (L.left link.new) ≡ to_read buffer.old (L.left link.old) }
    ensures reading { ReadsOn (MayEnd result) (WantsBytes (used + body)) buffer.old buffer.new (told_by L.taken L.given L.asked link.old) (told_by L.taken L.given L.asked link.new) }
    ensures last { ReadAsked result (told_by L.taken L.given L.asked link.old) (told_by L.taken L.given L.asked link.new) (L.left link.old) (L.left link.new) }
    ensures faults { CountsRead (L.faults link.old) (L.faults link.new) result }
{
    while buffer.len() - used < body {
        match fill(link, buffer) {
            Ok(0) => return Err(End::Cut(buffer.len() as u64)),
            Ok(_) => {}
            Err(end) => return Err(end),
        }
    }
    Ok(())
}

/// Takes a piece from the link, and says how many bytes came: none at the end of input.
fn fill<L: Link>(link: &mut L, buffer: &mut Buffer) -> Result<usize, End>
    ensures value { IfOk result (λ n. length buffer.new ≡ length buffer.old + n) }
    ensures end { IfOk result (λ n. n ≡ 0 → IsAtEnd (L.left link.new)) }
    ensures err { IfErr result (λ end. (rest : List ℕ) (wanted : ℕ) → IsEnd rest end × IsBodyEnd wanted rest end) }
    ensures status { IfErr result HasBadStatus }
    ensures fills { Fills buffer.old buffer.new (told_by L.taken L.given L.asked link.old) (told_by L.taken L.given L.asked link.new) }
    ensures to_read { to_read buffer.new (L.left link.new) ≡ to_read buffer.old (L.left link.old) }
    ensures last { ReadAsked result (told_by L.taken L.given L.asked link.old) (told_by L.taken L.given L.asked link.new) (L.left link.old) (L.left link.new) }
    ensures faults { CountsRead (L.faults link.old) (L.faults link.new) result }
{
    match buffer.fill(link) {
        Ok(count) => Ok(count),
        Err(FillFault::Link) => Err(End::ReadFault),
        Err(FillFault::NoMemory) => Err(End::NoMemory),
    }
}

/// Where the input ends with the buffer so.
fn end_at(buffer: &Buffer) -> End
    ensures value { result ≡ end_at buffer.now }
    ensures status { HasBadStatus result }
    ensures faults { IsNoFault result }
{
    if buffer.is_empty() {
        End::Over
    } else {
        End::Cut(buffer.len() as u64)
    }
}
