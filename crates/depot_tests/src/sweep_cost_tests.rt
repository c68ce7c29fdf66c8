//! What an update costs beside a collection that sweeps, in calls of the shelf: what it changes, and not the library.
use crate::calls::{Step, asked, turned};
use crate::cost_tests::{FEW, MANY};
use crate::library::library_on;
use crate::objects::{Kept, is_updated, put_block, put_deep_commit};
use crate::stop_tests::opened;
use depot::Depot;
use library_state::{Act, Op};
use object_store::{FuseShelf, MemoryShelf};
use std::alloc::{AllocError, Global};

/// Updates a library to a directory of each name, and puts two blocks that nothing needs.
fn fill(alloc: Global, depot: &mut Kept, names: &[&str]) -> Result<(), AllocError> {
    let first = depot.head();
    let commit = put_deep_commit(alloc, depot, 0x11, &first, names, "a")?;
    if !is_updated(depot, &commit) {
        return Err(AllocError);
    }
    put_block(alloc, depot, "1")?;
    put_block(alloc, depot, "2")?;
    Ok(())
}

/// The shelf of such a library.
fn shelf_of(alloc: Global, names: &[&str]) -> Result<MemoryShelf, AllocError> {
    let mut depot = library_on(alloc, &[])?;
    let filled = fill(alloc, &mut depot, names);
    let shelf = depot.close().end();
    match filled {
        Ok(()) => Ok(shelf),
        Err(why) => {
            drop(shelf);
            Err(why)
        }
    }
}

/// Takes turns of one object until one was removed, if none is refused, two hundred at most.
fn sweeps_one(depot: &mut Depot<FuseShelf>) -> bool {
    for _ in 0..200 {
        match turned(depot, None, 1) {
            Step::Began(_) => {}
            Step::Marked(_) => {}
            Step::Swept(count) => return count == 1,
            _ => return false,
        }
    }
    false
}

/// Whether one object is removed, what an update needs is put that changes one file, and the update made, where it is to be.
fn takes_all(
    alloc: Global,
    depot: &mut Depot<FuseShelf>,
    names: &[&str],
    updates: bool,
) -> Result<bool, AllocError> {
    if !sweeps_one(depot) {
        return Ok(false);
    }
    let _ = asked(depot, Act::Check(Op::Upload));
    let head = depot.head();
    let commit = put_deep_commit(alloc, depot, 0x22, &head, names, "z")?;
    Ok(!updates || is_updated(depot, &commit))
}

/// Whether so many calls of the shelf are enough for all of that.
fn is_enough(alloc: Global, names: &[&str], updates: bool, calls: u64) -> Result<bool, AllocError> {
    match opened(alloc, shelf_of(alloc, names)?, calls, false) {
        Ok(depot) => {
            let mut depot = depot;
            let taken = takes_all(alloc, &mut depot, names, updates);
            drop(depot);
            match taken {
                Ok(done) => Ok(done),
                Err(_) => Ok(false),
            }
        }
        Err(shelf) => {
            drop(shelf);
            Ok(false)
        }
    }
}

/// The greatest number of calls below 2,048 that isn't enough.
fn calls_short(alloc: Global, names: &[&str], updates: bool) -> Result<u64, AllocError> {
    let mut short: u64 = 0;
    for step in [1024, 512, 256, 128, 64, 32, 16, 8, 4, 2, 1] {
        let calls = short.saturating_add(step);
        if !is_enough(alloc, names, updates, calls)? {
            short = calls;
        }
    }
    Ok(short)
}

/// How many calls the update takes.
fn cost(alloc: Global, names: &[&str]) -> Result<u64, AllocError> {
    let without = calls_short(alloc, names, false)?;
    let with = calls_short(alloc, names, true)?;
    Ok(with.saturating_sub(without))
}

/// Whether it takes as many in both libraries, and fewer than the larger one has directories.
fn is_flat(alloc: Global) -> Result<bool, AllocError> {
    let few = cost(alloc, FEW)?;
    let many = cost(alloc, MANY)?;
    Ok(few == many && many > 0 && many < 24)
}

#[test]
fn an_update_beside_a_collection_that_sweeps_costs_what_it_changes(
    rt: HostRuntime,
) -> Result<(), AllocError> {
    assert!(rt; is_flat(rt.alloc())?);
    Ok(())
}
