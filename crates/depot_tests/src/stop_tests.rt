//! A collection over a shelf that stops: whatever the call at which it does, the library opens again with its last commit, and
//! the next collection ends.
use crate::calls::removed_by;
use crate::objects::updated_thrice;
use depot::Depot;
use ids::ObjId;
use object_store::{FuseShelf, MemoryShelf, Store};
use std::alloc::{AllocError, Global};
use stop_laws::calls::start;

/// A library over a shelf that passes so many calls, from the opening of the store on; the shelf where it doesn't open.
pub(crate) fn opened(
    alloc: Global,
    shelf: MemoryShelf,
    passes: u64,
    late: bool,
) -> Result<Depot<FuseShelf>, MemoryShelf> {
    let store = match Store::start(alloc, FuseShelf::new(shelf, passes, late)) {
        Ok(store) => store,
        Err(refused) => return Err(refused.0.into_inner()),
    };
    match start(alloc, store) {
        Ok(depot) => Ok(depot),
        Err(refused) => Err(refused.0.end().into_inner()),
    }
}

/// The shelf, as the collection that the stop cut off left it; and whether it ended.
fn stopped(alloc: Global, shelf: MemoryShelf, passes: u64, late: bool) -> (MemoryShelf, bool) {
    match opened(alloc, shelf, passes, late) {
        Ok(depot) => {
            let mut depot = depot;
            let ended = removed_by(&mut depot, 3).is_some();
            (depot.close().end().into_inner(), ended)
        }
        Err(shelf) => (shelf, false),
    }
}

/// Whether a library opens from the shelf with this head, and a collection then leaves four objects.
pub(crate) fn is_whole(alloc: Global, shelf: MemoryShelf, head: &ObjId) -> bool {
    match opened(alloc, shelf, 1_000_000, false) {
        Ok(depot) => {
            let mut depot = depot;
            let same = depot.head() == *head;
            let ended = removed_by(&mut depot, 3).is_some();
            let store = depot.close();
            let count = store.count();
            drop(store);
            count == 4 && same && ended
        }
        Err(shelf) => {
            drop(shelf);
            false
        }
    }
}

/// A library that stops after so many calls.
#[derive(Clone, Copy)]
enum Stop {
    /// It isn't whole afterwards.
    Torn,
    /// It is, and its collection was cut off.
    CutOff,
    /// It is, and its collection ended.
    Ended,
}

/// What comes of a stop after so many calls.
fn stop_at(alloc: Global, passes: u64, late: bool) -> Result<Stop, AllocError> {
    let depot = updated_thrice(alloc, &[])?;
    let head = depot.head();
    let (shelf, ended) = stopped(alloc, depot.close().end(), passes, late);
    if !is_whole(alloc, shelf, &head) {
        return Ok(Stop::Torn);
    }
    Ok(if ended { Stop::Ended } else { Stop::CutOff })
}

/// How many calls a collection takes, if the library is whole after each number of them.
fn stops(alloc: Global, late: bool) -> Result<Option<u64>, AllocError> {
    for passes in 0..200 {
        match stop_at(alloc, passes, late)? {
            Stop::Torn => return Ok(None),
            Stop::CutOff => {}
            Stop::Ended => return Ok(Some(passes)),
        }
    }
    Ok(None)
}

// Early and late a collection takes as many calls, the opening among them.
#[test]
fn a_stop_at_any_call_of_a_collection_leaves_a_whole_library(
    rt: HostRuntime,
) -> Result<(), AllocError> {
    let early = stops(rt.alloc(), false)?;
    let late = stops(rt.alloc(), true)?;
    assert!(rt; early.is_some() && early == late, "{early:?} {late:?}");
    Ok(())
}
