//! A hall over one library in memory, by one thread.
ghost use Rattle.sync_calls.specs.Hall.{AreReady};

use crate::hall::{Ended, Said, Told, ask, ask_at, collect, docs, is_stored, owner, put_of};
use crate::hall_scenes::{Scene, shows};
use ids::LibId;
use library_state::{Act, Call, Secret, Tag};
use object_store::Shelf;
use std::alloc::{AllocError, Global};
use std::sync::Wait;
use sync_calls::{Glance, Hall, HallPass};

/// What a look tells, of this library and one who shows this secret, against a tag of the first opening.
fn glance<S: Shelf>(
    hall: &Hall<S>,
    pass: &mut HallPass<S>,
    lib: LibId,
    secret: &Option<Secret>,
    count: u64,
) -> Glance
    requires ready { AreReady S.contents S.may_give S.texts S.faults hall.now pass.old }
    ensures ready { AreReady S.contents S.may_give S.texts S.faults hall.now pass.new }
{
    hall.unchanged(pass, lib, secret, Tag { opening: 1, count })
}

/// Whether looks tell of a library with one change what they should.
fn is_looked_at<S: Shelf>(hall: &Hall<S>, pass: &mut HallPass<S>) -> bool
    requires ready { AreReady S.contents S.may_give S.texts S.faults hall.now pass.old }
    ensures ready { AreReady S.contents S.may_give S.texts S.faults hall.now pass.new }
{
    let secret = owner();
    let same = glance(hall, pass, docs(), &secret, 1);
    let other = glance(hall, pass, docs(), &secret, 0);
    let denied = glance(hall, pass, docs(), &None, 1);
    let nowhere = glance(hall, pass, LibId::from_bytes([0; 16]), &secret, 1);
    same == Glance::Same
        && other == Glance::Other
        && denied == Glance::Denied
        && nowhere == Glance::NoLibrary
}

/// Whether a put is the first change, and looks tell of it.
pub(crate) fn is_first<S: Shelf, R: Wait>(
    rt: &R,
    alloc: Global,
    hall: &Hall<S>,
    pass: &mut HallPass<S>,
) -> Result<bool, AllocError>
    requires ready { AreReady S.contents S.may_give S.texts S.faults hall.now pass.old }
    ensures ready { AreReady S.contents S.may_give S.texts S.faults hall.now pass.new }
{
    let call = put_of(alloc, b"one")?;
    let put = ask(rt, hall, pass, &call);
    let looked = is_looked_at(hall, pass);
    Ok(is_stored(&put, 1) && looked)
}

#[test]
fn a_hall_is_asked_looked_at_and_closed(rt: HostRuntime) -> Result<(), AllocError> {
    assert!(rt; shows(&rt, rt.alloc(), Scene::First)?);
    Ok(())
}

fn is_nowhere(told: &Told) -> bool {
    match told.said {
        Said::NoLibrary => told.opening == 0 && told.place == 0,
        _ => false,
    }
}

fn is_denied(told: &Told) -> bool {
    match told.said {
        Said::Denied => told.opening == 0 && told.place == 0,
        _ => false,
    }
}

/// Whether one who shows no secret is refused without a turn, first for a library that isn't there.
pub(crate) fn are_turned_away<S: Shelf, R: Wait>(
    rt: &R,
    hall: &Hall<S>,
    pass: &mut HallPass<S>,
) -> bool
    requires ready { AreReady S.contents S.may_give S.texts S.faults hall.now pass.old }
    ensures ready { AreReady S.contents S.may_give S.texts S.faults hall.now pass.new }
{
    let call = Call {
        secret: None,
        act: Act::Head,
    };
    let nowhere = ask_at(rt, hall, pass, LibId::from_bytes([0; 16]), &call);
    let denied = ask(rt, hall, pass, &call);
    is_nowhere(&nowhere) && is_denied(&denied)
}

#[test]
fn who_may_not_ask_a_hall_is_turned_away(rt: HostRuntime) -> Result<(), AllocError> {
    assert!(rt; shows(&rt, rt.alloc(), Scene::TurnedAway)?);
    Ok(())
}

/// Whether a collection had this number, took this many objects, and ended in this many turns.
fn has_ended(told: &Option<Ended>, number: u64, removed: u64, turns: u64) -> bool {
    match told {
        Some(ended) => ended.number == number && ended.removed == removed && ended.turns == turns,
        None => false,
    }
}

/// Whether a block that no commit needs is put through one pass, and leaves in a collection through the other one.
pub(crate) fn leaves<S: Shelf, R: Wait>(
    rt: &R,
    alloc: Global,
    hall: &Hall<S>,
    first: &mut HallPass<S>,
    second: &mut HallPass<S>,
) -> Result<bool, AllocError>
    requires first { AreReady S.contents S.may_give S.texts S.faults hall.now first.old }
    requires second { AreReady S.contents S.may_give S.texts S.faults hall.now second.old }
    ensures first { AreReady S.contents S.may_give S.texts S.faults hall.now first.new }
    ensures second { AreReady S.contents S.may_give S.texts S.faults hall.now second.new }
{
    let call = put_of(alloc, b"one")?;
    let put = ask(rt, hall, first, &call);
    let denied = collect(rt, hall, second, &None);
    let swept = collect(rt, hall, second, &owner());
    let empty = collect(rt, hall, first, &owner());
    Ok(
        is_stored(&put, 1)
            && denied.is_none()
            && has_ended(&swept, 1, 1, 4)
            && has_ended(&empty, 2, 0, 3),
    )
}

#[test]
fn a_hall_is_collected_in_turns(rt: HostRuntime) -> Result<(), AllocError> {
    assert!(rt; shows(&rt, rt.alloc(), Scene::Collections)?);
    Ok(())
}
