//! Asking the host: one call, or one for each file and directory of a body.
ghost use Rattle.std.specs.Prelude.{◌≡◌, ◌+◌, ◌≤◌, ◌⊎◌, ◌∷◌, nat_le, true, false, drop, List, [], IfOk, IfErr, OnErr};
ghost use Rattle.worker_server.specs.Calls.{AskedSo, AtAMoment, GetsEach, NotAsked, PutsEach, call_of, get_of, is_got, is_stored, most_packed, put_of, rules_at, told_of};
ghost use Rattle.http_front.specs.Rows.{row_with};

use crate::host::{Answer, Host};
use http_front::{Outcome, Row};
use ids::{Items, Key, Kind, LibId, ObjId};
use library_state::{Act, Call, Refusal, Reply, Secret, Tag};
use std::alloc::Global;

/// Asks one call. Its answer is the outcome.
pub fn ask_one<H: Host>(
    alloc: Global,
    host: &H,
    pass: &mut H::Pass,
    lib: LibId,
    secret: Option<Secret>,
    act: Act,
) -> Outcome
    requires ready { H.ready host.now pass.old }
    ensures ready { H.ready host.now pass.new }
    ensures asks { (operations : List H.Operation)
        × AskedSo (AtAMoment (H.shows host.now) H.asks) (H.view pass.old) lib (call_of secret act) result operations (H.view pass.new) }
{
    told_of(host.ask(alloc, pass, lib, Call { secret, act }))
}

/// Puts each file and directory in turn, up to the first that is not stored, whose answer is the outcome.
pub fn put_each<H: Host>(
    alloc: Global,
    host: &H,
    pass: &mut H::Pass,
    lib: LibId,
    secret: Option<Secret>,
    rows: Items<Row>,
) -> Outcome
    requires ready { H.ready host.now pass.old }
    ensures ready { H.ready host.now pass.new }
    ensures asks { (operations : List H.Operation)
        × PutsEach (AtAMoment (H.shows host.now) H.asks) lib secret (H.view pass.old) rows result operations (H.view pass.new) }
{
    let mut left = rows.into_vec();
    left.reverse();
    while let Some(row) = left.pop() {
        let answer = put_one(alloc, host, pass, &lib, &secret, row);
        if !is_stored(&answer.reply) {
            return told_of(answer);
        }
    }
    Outcome::Plain(
        Reply::Stored(true),
        Tag {
            opening: 0,
            count: 0,
        },
    )
}

/// Puts one file or directory.
fn put_one<H: Host>(
    alloc: Global,
    host: &H,
    pass: &mut H::Pass,
    lib: &LibId,
    secret: &Option<Secret>,
    row: Row,
) -> Answer
    requires ready { H.ready host.now pass.old }
    ensures ready { H.ready host.now pass.new }
    ensures asks { (operations : List H.Operation)
        × (AtAMoment (H.shows host.now) H.asks) (H.view pass.old) lib.now (call_of secret.now (put_of row)) result operations (H.view pass.new) }
{
    let Row { id, bytes } = row;
    let key = Key { kind: Kind::Fs, id };
    host.ask(
        alloc,
        pass,
        *lib,
        Call {
            secret: *secret,
            act: Act::Put(key, bytes),
        },
    )
}

/// The most bytes of files and directories that one reply packs.
const MOST_PACKED: u64 = 268_435_456;

/// Asks for each file and directory in turn, up to the first that is not given, whose answer is the outcome, or with
/// which they are more than fit in one reply, which is want of memory. The first is asked for with all that follow. Where there is
/// no room for as many rows, nothing is asked.
pub fn get_each<H: Host>(
    alloc: Global,
    host: &H,
    pass: &mut H::Pass,
    lib: LibId,
    secret: Option<Secret>,
    ids: &[ObjId],
) -> Outcome
    requires ready { H.ready host.now pass.old }
    ensures ready { H.ready host.now pass.new }
    ensures asks { (operations : List H.Operation)
        × (GetsEach (rules_at (H.shows host.now) H.asks H.spares H.collects H.looks) lib secret (H.view pass.old) ids.now [] result operations (H.view pass.new)
        ⊎ NotAsked (H.view pass.old) (Outcome.Refused Refusal.NoMemory) result operations (H.view pass.new)) }
{
    let mut rows = match Vec::with_capacity(alloc, ids.len()) {
        Ok(rows) => rows,
        Err(_) => return Outcome::Refused(Refusal::NoMemory),
    };
    let mut packed = 0;
    for id in ids {
        let answer = get_next(alloc, host, pass, &lib, &secret, *id, ids, rows.is_empty());
        let row = match row_of(*id, answer) {
            Ok(row) => row,
            Err(outcome) => return outcome,
        };
        let size = row.bytes.slice().len() as u64;
        if !is_room(packed, size) {
            return Outcome::Refused(Refusal::NoMemory);
        }
        packed += size;
        match rows.push(row) {
            Ok(()) => {}
            Err(_) => unreachable!(),
        }
    }
    Outcome::Packed(Items::from_vec(rows))
}

/// Whether so many bytes more fit in a reply.
fn is_room(packed: u64, size: u64) -> bool
    requires fits { packed ≤ most_packed }
    ensures value { result ≡ nat_le (packed + size) most_packed }
{
    size <= MOST_PACKED - packed
}

/// Asks for one file or directory. The first of them is asked for with those that follow.
fn get_next<H: Host>(
    alloc: Global,
    host: &H,
    pass: &mut H::Pass,
    lib: &LibId,
    secret: &Option<Secret>,
    id: ObjId,
    ids: &[ObjId],
    is_first: bool,
) -> Answer
    requires ready { H.ready host.now pass.old }
    requires first { is_first ≡ true → ids.now ≡ id ∷ drop 1 ids.now }
    ensures ready { H.ready host.now pass.new }
    ensures asks { (operations : List H.Operation)
        × (AtAMoment (H.shows host.now) H.asks) (H.view pass.old) lib.now (call_of secret.now (get_of id)) result operations (H.view pass.new)
        × (is_first ≡ true → H.spares (H.view pass.old) lib.now secret.now ids.now most_packed result operations (H.view pass.new)) }
{
    if is_first {
        return host.ask_first(alloc, pass, *lib, *secret, id, &ids[1..], MOST_PACKED);
    }
    let key = Key { kind: Kind::Fs, id };
    host.ask(
        alloc,
        pass,
        *lib,
        Call {
            secret: *secret,
            act: Act::Get(key),
        },
    )
}

/// The row of what was given, or the outcome where nothing was.
fn row_of(id: ObjId, answer: Answer) -> Result<Row, Outcome>
    ensures got { IfOk result (λ row. answer.reply ≡ Reply.Got row.bytes) }
    ensures named { IfOk result (λ row. row ≡ row_with id row.bytes) }
    ensures refused { IfErr result (λ outcome. outcome ≡ told_of answer) }
    ensures not_got { OnErr result (is_got answer.reply ≡ false) }
{
    let Answer {
        reply,
        opening,
        place,
    } = answer;
    match reply {
        Reply::Got(bytes) => Ok(Row { id, bytes }),
        reply => Err(told_of(Answer {
            reply,
            opening,
            place,
        })),
    }
}

/// The outcome that an answer is, with the tag of its state.
fn told_of(answer: Answer) -> Outcome
    ensures { result ≡ told_of answer }
{
    let tag = Tag {
        opening: answer.opening,
        count: answer.place,
    };
    Outcome::Plain(answer.reply, tag)
}

/// Whether a reply is that something is stored.
fn is_stored(reply: &Reply) -> bool
    ensures { result ≡ is_stored reply.now }
{
    matches!(reply, Reply::Stored(_))
}
