//! The turnstile over a tally, by one thread and by two.
ghost use Rattle.std.specs.Prelude.{◌≡◌, ◌+◌, ◌≤◌, length, IfOk, OnOk};
ghost use Rattle.turnstile.specs.Rule.{most_turns};
ghost use Rattle.turnstile.specs.PassView.{IsPassOf};

use std::alloc::{AllocError, Global};
use std::snapshot::Snapshot;
use std::sync::Wait;
use std::test::Fail;
use std::thread::join;
use turnstile::{Pass, Spent, Story, TURNS, Turnstile};

/// How many entries were made.
#[derive(Drop)]
struct Tally {
    count: u64,
}

impl Story for Tally {
    type Entry = u64;

    ghost use Rattle.std.proofs.Common.{sym, add-zero};

    ghost stands = { λ x es y. y.count ≡ x.count + length es };

    ghost begins = { λ x. sym (add-zero x.count) };
}

// Takes a turn, and adds one entry.
fn add_one<R: Wait>(
    rt: &R,
    turnstile: &Turnstile<Tally>,
    pass: &mut Pass<Tally>,
) -> Result<u64, Spent>
    requires ready { IsPassOf turnstile.now pass.old }
    ensures ready { IsPassOf turnstile.now pass.new }
{
    let mut held = pass.turn(rt, turnstile)?;
    let count = held.value().count;
    if count < u64::MAX {
        held.value().count = count + 1;
        held.publish(Snapshot::of(&1));
    }
    held.done();
    Ok(count)
}

fn add_many<R: Wait>(
    rt: &R,
    turnstile: &Turnstile<Tally>,
    mut pass: Pass<Tally>,
    times: u32,
) -> Result<Pass<Tally>, Spent>
    requires ready { IsPassOf turnstile.now pass }
    ensures ready { IfOk result (IsPassOf turnstile.now) }
{
    for _ in 0..times {
        add_one(rt, turnstile, &mut pass)?;
    }
    Ok(pass)
}

// A turnstile with two passes.
fn two_passes(
    alloc: Global,
    drawn: u64,
) -> Result<(Turnstile<Tally>, Pass<Tally>, Pass<Tally>), AllocError>
    requires fits { drawn ≤ most_turns }
    ensures first { IfOk result (λ t. IsPassOf t.0 t.1) }
    ensures second { IfOk result (λ t. IsPassOf t.0 t.2) }
{
    match Turnstile::new(alloc, Tally { count: 0 }, 2, drawn) {
        Ok((turnstile, mut passes)) => {
            let Some(first) = passes.pop() else {
                return Err(AllocError);
            };
            let Some(second) = passes.pop() else {
                return Err(AllocError);
            };
            Ok((turnstile, first, second))
        }
        Err((_, e)) => Err(e),
    }
}

/// Whether no turn is given, and no entry is there.
fn is_spent<R: Wait>(rt: &R, turnstile: &Turnstile<Tally>, pass: &mut Pass<Tally>) -> bool
    requires ready { IsPassOf turnstile.now pass.old }
    ensures ready { IsPassOf turnstile.now pass.new }
{
    add_one(rt, turnstile, pass) == Err(Spent) && turnstile.count(pass) == 0
}

/// What the tally counts once both passes are in. `None` where it doesn't close.
fn closed(turnstile: Turnstile<Tally>, mut first: Pass<Tally>, second: Pass<Tally>) -> Option<u64>
    requires first { IsPassOf turnstile first }
    requires second { IsPassOf turnstile second }
{
    turnstile.join(&mut first, second);
    match turnstile.close(first) {
        Ok(tally) => Some(tally.count),
        Err(_) => None,
    }
}

/// Of how many passes it is told that closes with one, and what the tally counts once both are in.
fn closed_late(
    turnstile: Turnstile<Tally>,
    first: Pass<Tally>,
    second: Pass<Tally>,
) -> Option<(u64, Option<u64>)>
    requires first { IsPassOf turnstile first }
    requires second { IsPassOf turnstile second }
{
    match turnstile.close(first) {
        Ok(_) => None,
        Err((turnstile, first, made)) => Some((made, closed(turnstile, first, second))),
    }
}

#[test]
fn a_spent_turnstile_gives_no_turn_and_still_closes(rt: HostRuntime) -> Result<(), AllocError> {
    let (turnstile, mut first, second) = two_passes(rt.alloc(), TURNS)?;
    assert!(rt; is_spent(&rt, &turnstile, &mut first));
    assert!(rt; closed_late(turnstile, first, second) == Some((2, Some(0))));
    Ok(())
}

/// Whether a turn is given, no more are, and one entry is there.
fn is_last<R: Wait>(
    rt: &R,
    turnstile: &Turnstile<Tally>,
    first: &mut Pass<Tally>,
    second: &mut Pass<Tally>,
) -> bool
    requires first { IsPassOf turnstile.now first.old }
    requires second { IsPassOf turnstile.now second.old }
{
    add_one(rt, turnstile, first) == Ok(0)
        && add_one(rt, turnstile, second) == Err(Spent)
        && add_one(rt, turnstile, first) == Err(Spent)
        && turnstile.count(second) == 1
}

#[test]
fn the_last_turn_is_given_and_then_none(rt: HostRuntime) -> Result<(), AllocError> {
    let (turnstile, mut first, mut second) = two_passes(rt.alloc(), TURNS - 1)?;
    assert!(rt; is_last(&rt, &turnstile, &mut first, &mut second));
    Ok(())
}

/// What one turn more sees: what the tally counts, its own place, and how many entries a count tells.
fn seen<R: Wait>(
    rt: &R,
    turnstile: &Turnstile<Tally>,
    pass: &mut Pass<Tally>,
) -> Result<(u64, u64, u64), Spent>
    requires ready { IsPassOf turnstile.now pass.old }
    ensures ready { OnOk result (IsPassOf turnstile.now pass.new) }
{
    let mut held = pass.turn(rt, turnstile)?;
    let seen = held.value().count;
    let place = held.place();
    held.done();
    Ok((seen, place, turnstile.count(pass)))
}

#[test]
fn two_threads_of_a_thousand_turns_lose_nothing(rt: HostRuntime) -> Result<(), Fail> {
    let (turnstile, first, second) = two_passes(rt.alloc(), 0)?;
    let shared = &turnstile;
    let (one, two) = join(
        &rt,
        || -> Result<Pass<Tally>, Spent>
            requires { IsPassOf shared.now first }
            ensures { IfOk result (IsPassOf shared.entry.now) }
        { add_many(&rt, shared, first, 1000) },
        || -> Result<Pass<Tally>, Spent>
            requires { IsPassOf shared.now second }
            ensures { IfOk result (IsPassOf shared.entry.now) }
        { add_many(&rt, shared, second, 1000) },
    );
    let mut first = one?;
    let second = two?;
    assert!(rt; seen(&rt, &turnstile, &mut first)? == (2000, 2000, 2000));
    assert!(rt; closed(turnstile, first, second) == Some(2000));
    Ok(())
}

/// The places of two entries that one turn publishes, and what the other pass counts before them and after, while the turn
/// goes on. `None` where the tally has begun.
fn published<R: Wait>(
    rt: &R,
    turnstile: &Turnstile<Tally>,
    first: &mut Pass<Tally>,
    second: &mut Pass<Tally>,
) -> Result<Option<[u64; 4]>, Spent>
    requires first { IsPassOf turnstile.now first.old }
    requires second { IsPassOf turnstile.now second.old }
{
    let mut held = first.turn(rt, turnstile)?;
    if held.value().count > 0 {
        held.done();
        return Ok(None);
    }
    held.value().count = 2;
    let before = turnstile.count(second);
    let one = held.publish(Snapshot::of(&1));
    let two = held.publish(Snapshot::of(&2));
    let after = turnstile.count(second);
    held.done();
    Ok(Some([one, two, before, after]))
}

// A count neither waits for the turn to end nor keeps an old number.
#[test]
fn a_turn_publishes_entries_at_their_places_while_others_count(
    rt: HostRuntime,
) -> Result<(), Fail> {
    let (turnstile, mut first, mut second) = two_passes(rt.alloc(), 0)?;
    assert!(rt; published(&rt, &turnstile, &mut first, &mut second)? == Some([0, 1, 0, 2]));
    Ok(())
}

fn crosses<T: Send>(t: T) -> T {
    t
}

// A pass and a reference to the turnstile may go to another thread.
fn both_cross<V: Story + Send>(turnstile: &Turnstile<V>, pass: Pass<V>) -> Pass<V> {
    let _turnstile = crosses(turnstile);
    crosses(pass)
}

#[test]
fn a_pass_and_its_turnstile_cross_threads(rt: HostRuntime) -> Result<(), AllocError> {
    let (turnstile, first, _) = two_passes(rt.alloc(), 0)?;
    let _first = both_cross(&turnstile, first);
    Ok(())
}
