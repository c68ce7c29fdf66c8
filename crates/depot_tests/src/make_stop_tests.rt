//! The making of a library, and a token that is added to one, over a shelf that stops: whatever the call at which it does, there is
//! no library or the one that was to be, with the token or without it.
use crate::calls::{Said, asked_by};
use crate::library::{empty_shelf, library_on, made_in};
use crate::stop_tests::opened;
use depot::{Depot, StartFault};
use ids::{ObjId, Text};
use library_state::{Act, Right, Secret};
use object_store::{FuseShelf, MemoryShelf, Store};
use std::alloc::{AllocError, Global};
use stop_laws::calls::add_token;

/// What is on a shelf.
#[derive(Clone, Copy)]
enum Left {
    /// No library.
    Nothing,
    /// A library that opens with this head.
    Library(ObjId),
    /// Anything else.
    Other,
}

fn left_on(alloc: Global, shelf: MemoryShelf) -> Left {
    match Store::start(alloc, shelf) {
        Ok(store) => left_in(alloc, store),
        Err(refused) => {
            drop(refused);
            Left::Other
        }
    }
}

fn left_in(alloc: Global, store: Store<MemoryShelf>) -> Left {
    match Depot::start(alloc, store) {
        Ok(depot) => {
            let head = depot.head();
            drop(depot);
            Left::Library(head)
        }
        Err((store, fault)) => {
            drop(store);
            left_at(fault)
        }
    }
}

fn left_at(fault: StartFault) -> Left {
    match fault {
        StartFault::NoState => Left::Nothing,
        _ => Left::Other,
    }
}

/// The shelf on which a library was to be made and that passes so many calls, and whether it was made.
fn made_on(alloc: Global, shelf: MemoryShelf, passes: u64, late: bool) -> (MemoryShelf, bool) {
    match Store::start(alloc, FuseShelf::new(shelf, passes, late)) {
        Ok(store) => match made_in(alloc, store) {
            Ok(depot) => (depot.close().end().into_inner(), true),
            Err(store) => (store.end().into_inner(), false),
        },
        Err(refused) => (refused.0.into_inner(), false),
    }
}

/// What a stop leaves.
#[derive(Clone, Copy)]
enum Stop {
    /// Something that may not be left.
    Lost,
    /// What was there before.
    Old,
    /// What was to be, and the call was refused.
    New,
    /// What was to be, and the call was done.
    Done,
}

fn make_stop(alloc: Global, passes: u64, late: bool, head: &ObjId) -> Result<Stop, AllocError> {
    let (shelf, done) = made_on(alloc, empty_shelf(alloc, &[])?, passes, late);
    Ok(match left_on(alloc, shelf) {
        Left::Nothing => if done { Stop::Lost } else { Stop::Old },
        Left::Library(other) => if other != *head {
            Stop::Lost
        } else if done {
            Stop::Done
        } else {
            Stop::New
        },
        Left::Other => Stop::Lost,
    })
}

/// After how many stops the call was refused and what was to be is there, if no stop leaves anything else and one call is done.
fn make_stops(alloc: Global, late: bool, head: &ObjId) -> Result<Option<u64>, AllocError> {
    let mut refused: u64 = 0;
    for passes in 0..50 {
        match make_stop(alloc, passes, late, head)? {
            Stop::Lost => return Ok(None),
            Stop::Old => {}
            Stop::New => refused = refused.saturating_add(1),
            Stop::Done => return Ok(Some(refused)),
        }
    }
    Ok(None)
}

/// The head of a new library.
fn first_head(alloc: Global) -> Result<ObjId, AllocError> {
    let depot = library_on(alloc, &[])?;
    let head = depot.head();
    drop(depot);
    Ok(head)
}

#[test]
fn a_stop_at_any_call_of_a_making_leaves_no_library_or_the_new_one(
    rt: HostRuntime,
) -> Result<(), AllocError> {
    let head = first_head(rt.alloc())?;
    assert!(rt; make_stops(rt.alloc(), false, &head)? == Some(0));
    assert!(rt; make_stops(rt.alloc(), true, &head)? == Some(1));
    Ok(())
}

/// The shelf of a new library.
fn new_shelf(alloc: Global) -> Result<MemoryShelf, AllocError> {
    Ok(library_on(alloc, &[])?.close().end())
}

/// Adds a token for reading, whose secret is forty `b`; whether that was done.
pub(crate) fn is_added(alloc: Global, depot: &mut Depot<FuseShelf>) -> bool {
    let user = match Text::copy(alloc, "you") {
        Ok(user) => user,
        Err(_) => return false,
    };
    add_token(depot, &user, Secret::from_bytes([0xbb; 20]), Right::Read).is_ok()
}

/// The shelf of a library to which a token was to be added over calls that stop, and whether it was.
fn added_on(alloc: Global, shelf: MemoryShelf, passes: u64, late: bool) -> (MemoryShelf, bool) {
    match opened(alloc, shelf, passes, late) {
        Ok(depot) => {
            let mut depot = depot;
            let done = is_added(alloc, &mut depot);
            (depot.close().end().into_inner(), done)
        }
        Err(shelf) => (shelf, false),
    }
}

/// The head that the one is told whose secret is twenty times this byte.
fn told_to(depot: &mut Depot<FuseShelf>, byte: u8) -> Option<ObjId> {
    match asked_by(depot, byte, Act::Head) {
        Said::Head(head) => Some(head),
        _ => None,
    }
}

/// Whether that one is told the head.
fn is_told(depot: &mut Depot<FuseShelf>, byte: u8) -> bool {
    told_to(depot, byte).is_some()
}

/// The head that the one with that token is told, if the library opens.
pub(crate) fn head_told(alloc: Global, shelf: MemoryShelf) -> Option<ObjId> {
    match opened(alloc, shelf, 1_000_000, false) {
        Ok(depot) => {
            let mut depot = depot;
            let head = told_to(&mut depot, 0xbb);
            drop(depot);
            head
        }
        Err(shelf) => {
            drop(shelf);
            None
        }
    }
}

fn token_stop(alloc: Global, passes: u64, late: bool) -> Result<Stop, AllocError> {
    let (shelf, done) = added_on(alloc, new_shelf(alloc)?, passes, late);
    match opened(alloc, shelf, 1_000_000, false) {
        Ok(depot) => {
            let mut depot = depot;
            let owned = is_told(&mut depot, 0xaa);
            let added = is_told(&mut depot, 0xbb);
            drop(depot);
            Ok(stop_of(owned, added, done))
        }
        Err(shelf) => {
            drop(shelf);
            Ok(Stop::Lost)
        }
    }
}

fn stop_of(owned: bool, added: bool, done: bool) -> Stop {
    if !owned {
        Stop::Lost
    } else if added {
        if done { Stop::Done } else { Stop::New }
    } else {
        if done { Stop::Lost } else { Stop::Old }
    }
}

fn token_stops(alloc: Global, late: bool) -> Result<Option<u64>, AllocError> {
    let mut refused: u64 = 0;
    for passes in 0..50 {
        match token_stop(alloc, passes, late)? {
            Stop::Lost => return Ok(None),
            Stop::Old => {}
            Stop::New => refused = refused.saturating_add(1),
            Stop::Done => return Ok(Some(refused)),
        }
    }
    Ok(None)
}

#[test]
fn a_stop_at_any_call_of_adding_a_token_leaves_it_there_or_not(
    rt: HostRuntime,
) -> Result<(), AllocError> {
    assert!(rt; token_stops(rt.alloc(), false)? == Some(0));
    assert!(rt; token_stops(rt.alloc(), true)? == Some(1));
    Ok(())
}
