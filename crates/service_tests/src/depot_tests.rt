//! A library on a shelf in memory: what no request of a connection shows, and what a failing shelf leaves.
use crate::library::{Made, library_on, made};
use depot::{Depot, MakeFault, TokenFault};
use ids::Text;
use library_state::{Act, Call, Refusal, Reply, Right, Secret};
use object_store::{MemoryShelf, StoreFault};
use std::alloc::{AllocError, Global};

fn has_state(made: &Made) -> bool {
    match made {
        Ok(_) => false,
        Err(refused) => refused.1 == MakeFault::HasState,
    }
}

/// Whether a library is refused over a store that has one.
fn is_made_once(alloc: Global) -> Result<bool, AllocError> {
    let depot = library_on(alloc, &[])?;
    let made = made(alloc, depot.close())?;
    Ok(has_state(&made))
}

#[test]
fn a_library_is_made_once(rt: HostRuntime) -> Result<(), AllocError> {
    assert!(rt; is_made_once(rt.alloc())?);
    Ok(())
}

/// Adds a token of bob@x.org, with a secret of its own.
fn add_token(alloc: Global, depot: &mut Depot<MemoryShelf>) -> Result<(), TokenFault> {
    match Text::copy(alloc, "bob@x.org") {
        Ok(user) => depot.add_token(&user, Secret::from_bytes([0xbb; 20]), Right::Write),
        Err(_) => Err(TokenFault::Store(StoreFault::NoMemory)),
    }
}

fn is_store_fault(told: &Result<(), TokenFault>) -> bool {
    match told {
        Ok(()) => false,
        Err(fault) => *fault == TokenFault::Store(StoreFault::Shelf),
    }
}

/// Whether a library is at its first opening, with the token alone that it was made with.
fn is_as_made(depot: &Depot<MemoryShelf>) -> bool {
    depot.token_at(0) == Some((Secret::from_bytes([0xaa; 20]), Right::Owner))
        && depot.token_at(1).is_none()
        && depot.opening() == 1
}

/// Whether a token that is added is refused by the shelf, so that the library is as it was made, and added then.
fn is_added_again(alloc: Global, depot: &mut Depot<MemoryShelf>) -> bool {
    is_store_fault(&add_token(alloc, depot)) && is_as_made(depot) && add_token(alloc, depot).is_ok()
}

#[test]
fn a_token_that_was_not_written_is_added_again(rt: HostRuntime) -> Result<(), AllocError> {
    let mut depot = library_on(rt.alloc(), &[6])?;
    assert!(rt; is_added_again(rt.alloc(), &mut depot));
    Ok(())
}

/// What its owner is answered who sets the days of its history.
fn limited(depot: &mut Depot<MemoryShelf>, days: i64) -> Reply {
    let call = Call {
        secret: Some(Secret::from_bytes([0xaa; 20])),
        act: Act::Limit(days),
    };
    depot.answer(&call, 9)
}

fn is_limited(reply: &Reply) -> bool {
    matches!(reply, Reply::Limited)
}

fn is_no_days(reply: &Reply, days: i64) -> bool {
    match reply {
        Reply::Refused(why) => *why == Refusal::BadDays(days),
        _ => false,
    }
}

/// Whether thirty days are set, and one more than there may be are not.
fn is_within_limit(depot: &mut Depot<MemoryShelf>) -> bool {
    is_limited(&limited(depot, 30)) && is_no_days(&limited(depot, 36_501), 36_501)
}

#[test]
fn days_are_set_within_the_limit(rt: HostRuntime) -> Result<(), AllocError> {
    let mut depot = library_on(rt.alloc(), &[])?;
    assert!(rt; is_within_limit(&mut depot));
    Ok(())
}

/// Whether setting the days of its history is told to change a library.
fn limit_changes(depot: &mut Depot<MemoryShelf>, days: i64) -> bool {
    let call = Call {
        secret: Some(Secret::from_bytes([0xaa; 20])),
        act: Act::Limit(days),
    };
    let (reply, changed) = depot.tell(&call, 9);
    drop(reply);
    changed
}

/// The same of a call that is handed over.
fn own_limit_changes(depot: &mut Depot<MemoryShelf>, days: i64) -> bool {
    let call = Call {
        secret: Some(Secret::from_bytes([0xaa; 20])),
        act: Act::Limit(days),
    };
    let (reply, changed) = depot.tell_own(call, None, 9);
    drop(reply);
    changed
}

/// Whether a turn of the collection of this number is told to change a library.
fn turn_changes(depot: &mut Depot<MemoryShelf>, goal: Option<u64>) -> bool {
    let (turn, changed) = depot.tell_turn(goal, 9, 1);
    drop(turn);
    changed
}

/// Whether a limit is told as a change where it sets other days, and a turn where it takes a step.
fn are_told(depot: &mut Depot<MemoryShelf>) -> bool {
    limit_changes(depot, 30)
        && !limit_changes(depot, 30)
        && own_limit_changes(depot, 31)
        && !own_limit_changes(depot, 31)
        && !turn_changes(depot, Some(1))
        && turn_changes(depot, None)
}

#[test]
fn just_what_changes_the_library_is_told_as_a_change(rt: HostRuntime) -> Result<(), AllocError> {
    let mut depot = library_on(rt.alloc(), &[])?;
    assert!(rt; are_told(&mut depot));
    Ok(())
}
