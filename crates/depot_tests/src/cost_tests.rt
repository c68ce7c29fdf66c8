//! What an update costs beside a collection that marks, in calls of the shelf: what it changes, and not the library.
use crate::calls::{Step, asked, turned};
use crate::library::library_on;
use crate::objects::{Kept, is_updated, put_commit, update_to};
use crate::stop_tests::opened;
use depot::Depot;
use ids::ObjId;
use library_state::{Act, Op};
use object_store::{FuseShelf, MemoryShelf};
use std::alloc::{AllocError, Global};

/// The names of the files of a small library, and of a larger one.
pub(crate) const FEW: &[&str] = &["a", "b", "c"];

pub(crate) const MANY: &[&str] = &[
    "a", "b", "c", "d", "e", "f", "g", "h", "i", "j", "k", "l", "m", "n", "o", "p", "q", "r", "s",
    "t", "u", "v", "w", "x",
];

/// Updates a library to these files, and puts all objects of an update that changes the first one: its commit.
fn push(alloc: Global, depot: &mut Kept, names: &[&str]) -> Result<ObjId, AllocError> {
    let first = depot.head();
    let old = update_to(alloc, depot, 0x11, &first, names, "a")?;
    put_commit(alloc, depot, 0x22, &old, names, "z")
}

/// The shelf of such a library, and the commit.
fn pushed(alloc: Global, names: &[&str]) -> Result<(MemoryShelf, ObjId), AllocError> {
    let mut depot = library_on(alloc, &[])?;
    let commit = push(alloc, &mut depot, names);
    let shelf = depot.close().end();
    match commit {
        Ok(commit) => Ok((shelf, commit)),
        Err(why) => {
            drop(shelf);
            Err(why)
        }
    }
}

/// Takes so many turns of one object, if none is refused.
fn takes_turns(depot: &mut Depot<FuseShelf>, turns: u64) -> bool {
    for _ in 0..turns {
        match turned(depot, None, 1) {
            Step::Failed(_) => return false,
            Step::Refused => return false,
            _ => {}
        }
    }
    true
}

/// Whether the turns are taken, and the update, where it is asked for.
fn takes_all(depot: &mut Depot<FuseShelf>, turns: u64, commit: &ObjId, updates: bool) -> bool {
    if !takes_turns(depot, turns) {
        return false;
    }
    if !updates {
        return true;
    }
    let _ = asked(depot, Act::Check(Op::Upload));
    is_updated(depot, commit)
}

/// Whether so many calls of the shelf are enough to open the library and take the turns, and for the update, where it is asked for.
fn is_enough(
    alloc: Global,
    names: &[&str],
    turns: u64,
    updates: bool,
    calls: u64,
) -> Result<bool, AllocError> {
    let (shelf, commit) = pushed(alloc, names)?;
    match opened(alloc, shelf, calls, false) {
        Ok(depot) => {
            let mut depot = depot;
            let taken = takes_all(&mut depot, turns, &commit, updates);
            drop(depot);
            Ok(taken)
        }
        Err(shelf) => {
            drop(shelf);
            Ok(false)
        }
    }
}

/// The greatest number of calls below 1,024 that isn't enough.
fn calls_short(
    alloc: Global,
    names: &[&str],
    turns: u64,
    updates: bool,
) -> Result<u64, AllocError> {
    let mut short: u64 = 0;
    for step in [512, 256, 128, 64, 32, 16, 8, 4, 2, 1] {
        let calls = short.saturating_add(step);
        if !is_enough(alloc, names, turns, updates, calls)? {
            short = calls;
        }
    }
    Ok(short)
}

/// How many calls the update takes after so many turns.
fn cost(alloc: Global, names: &[&str], turns: u64) -> Result<u64, AllocError> {
    let without = calls_short(alloc, names, turns, false)?;
    let with = calls_short(alloc, names, turns, true)?;
    Ok(with.saturating_sub(without))
}

/// Whether it takes as many in both libraries, and fewer than the larger one has files.
fn is_flat(alloc: Global, turns: u64) -> Result<bool, AllocError> {
    let few = cost(alloc, FEW, turns)?;
    let many = cost(alloc, MANY, turns)?;
    Ok(few == many && many > 0 && many < 24)
}

#[test]
fn an_update_beside_a_collection_that_marks_costs_what_it_changes(
    rt: HostRuntime,
) -> Result<(), AllocError> {
    for turns in 1..4 {
        assert!(rt; is_flat(rt.alloc(), turns)?, "{turns}");
    }
    Ok(())
}
