//! A hall over that library in memory, and what it tells whoever asks.
ghost use Rattle.std.specs.Prelude.{IfOk};
ghost use Rattle.sync_calls.specs.Hall.{AreReady};

use crate::standing_clock::Stands;
use depot::Depot;
use ids::{Items, Key, Kind, LibId, ObjId};
use library_state::{Act, Call, Refusal, Reply, Secret};
use object_store::Shelf;
use std::alloc::{AllocError, Global};
use std::sync::Wait;
use sync_calls::{Answer, Collected, Hall, HallPass};

/// The id of the library.
pub(crate) fn docs() -> LibId {
    LibId::from_bytes([
        0x11, 0x11, 0x11, 0x11, 0x22, 0x22, 0x43, 0x33, 0x84, 0x44, 0x55, 0x55, 0x55, 0x55, 0x55,
        0x55,
    ])
}

/// The secret of its owner.
pub(crate) fn owner() -> Option<Secret> {
    Some(Secret::from_bytes([0xaa; 20]))
}

pub(crate) fn asked(act: Act) -> Call {
    Call {
        secret: owner(),
        act,
    }
}

pub(crate) fn block(bytes: &[u8]) -> Key {
    Key {
        kind: Kind::Block,
        id: ObjId::of(bytes),
    }
}

pub(crate) fn put_of(alloc: Global, bytes: &[u8]) -> Result<Call, AllocError> {
    Ok(asked(Act::Put(block(bytes), Items::copy(alloc, bytes)?)))
}

/// What a reply is.
#[derive(Clone, Copy)]
pub(crate) enum Said {
    /// An object that wasn't there is stored.
    Stored,
    /// Bytes that have this name.
    Got(ObjId),
    /// The library stands at this commit.
    Head(ObjId),
    NoLibrary,
    Denied,
    NoMemory,
    /// Any other reply.
    Other,
}

/// What these tests look at of an answer.
#[derive(Clone, Copy)]
pub(crate) struct Told {
    pub(crate) said: Said,
    pub(crate) opening: u64,
    pub(crate) place: u64,
}

fn said_of_refusal(why: &Refusal) -> Said {
    match why {
        Refusal::NoLibrary => Said::NoLibrary,
        Refusal::Denied => Said::Denied,
        Refusal::NoMemory => Said::NoMemory,
        _ => Said::Other,
    }
}

fn said_by(reply: &Reply) -> Said {
    match reply {
        Reply::Stored(true) => Said::Stored,
        Reply::Got(bytes) => Said::Got(ObjId::of(bytes.slice())),
        Reply::HeadIs(head) => Said::Head(*head),
        Reply::Refused(why) => said_of_refusal(why),
        _ => Said::Other,
    }
}

pub(crate) fn told_by(answer: &Answer) -> Told {
    Told {
        said: said_by(&answer.reply),
        opening: answer.opening,
        place: answer.place,
    }
}

/// What is told to a call of a library.
pub(crate) fn ask_at<S: Shelf, R: Wait>(
    rt: &R,
    hall: &Hall<S>,
    pass: &mut HallPass<S>,
    lib: LibId,
    call: &Call,
) -> Told
    requires ready { AreReady S.contents S.may_give S.texts S.faults hall.now pass.old }
    ensures ready { AreReady S.contents S.may_give S.texts S.faults hall.now pass.new }
{
    let answer = hall.ask(rt, pass, lib, call, 9);
    told_by(&answer)
}

/// What is told to a call of that library.
pub(crate) fn ask<S: Shelf, R: Wait>(
    rt: &R,
    hall: &Hall<S>,
    pass: &mut HallPass<S>,
    call: &Call,
) -> Told
    requires ready { AreReady S.contents S.may_give S.texts S.faults hall.now pass.old }
    ensures ready { AreReady S.contents S.may_give S.texts S.faults hall.now pass.new }
{
    ask_at(rt, hall, pass, docs(), call)
}

/// Whether an object was stored by the change that is the last one, of so many.
pub(crate) fn is_stored(told: &Told, place: u64) -> bool {
    match told.said {
        Said::Stored => told.opening == 1 && told.place == place,
        _ => false,
    }
}

/// A collection that ended: its number, how many objects left in it, and how many turns it took.
#[derive(Clone, Copy)]
pub(crate) struct Ended {
    pub(crate) number: u64,
    pub(crate) removed: u64,
    pub(crate) turns: u64,
}

/// A collection of that library, for who shows this secret.
pub(crate) fn collect<S: Shelf, R: Wait>(
    rt: &R,
    hall: &Hall<S>,
    pass: &mut HallPass<S>,
    secret: &Option<Secret>,
) -> Option<Ended>
    requires ready { AreReady S.contents S.may_give S.texts S.faults hall.now pass.old }
    ensures ready { AreReady S.contents S.may_give S.texts S.faults hall.now pass.new }
{
    match hall.collect(rt, pass, docs(), secret, &Stands) {
        Collected::Done {
            number,
            removed,
            turns,
        } => Some(Ended {
            number,
            removed,
            turns,
        }),
        Collected::Refused(_) => None,
    }
}

/// A hall of one library with two passes.
pub(crate) fn two_passes<S: Shelf + Drop>(
    alloc: Global,
    depot: Depot<S>,
) -> Result<(Hall<S>, HallPass<S>, HallPass<S>), AllocError>
    ensures first { IfOk result (λ t. AreReady S.contents S.may_give S.texts S.faults t.0 t.1) }
    ensures second { IfOk result (λ t. AreReady S.contents S.may_give S.texts S.faults t.0 t.2) }
{
    let mut depots = Vec::new(alloc);
    depots.push(depot)?;
    match Hall::new(alloc, depots, 2) {
        Ok((hall, mut passes)) => {
            let Some(first) = passes.pop() else {
                return Err(AllocError);
            };
            let Some(second) = passes.pop() else {
                return Err(AllocError);
            };
            Ok((hall, first, second))
        }
        Err((_, e)) => Err(e),
    }
}

/// Of how many passes it is told that closes with one, and how many libraries come out once both are in.
pub(crate) fn closed_late<S: Shelf + Drop>(
    hall: Hall<S>,
    first: HallPass<S>,
    second: HallPass<S>,
) -> Option<(u64, usize)>
    requires first { AreReady S.contents S.may_give S.texts S.faults hall first }
    requires second { AreReady S.contents S.may_give S.texts S.faults hall second }
{
    match hall.close(first) {
        Ok(_) => None,
        Err((hall, mut first, made)) => {
            hall.join(&mut first, second);
            match hall.close(first) {
                Ok(depots) => Some((made, depots.len())),
                Err(_) => None,
            }
        }
    }
}
