//! A collection over a shelf that fails once: whatever the call, the collection goes on after it and ends, and the library is whole.
use crate::calls::run_to_end;
use crate::objects::{Kept, updated_thrice};
use crate::stop_tests::is_whole;
use std::alloc::{AllocError, Global};

/// What a collection comes to over a shelf that fails at one call.
#[derive(Clone, Copy)]
enum Came {
    /// The call is one of those that make the library.
    Unmade,
    /// No turn was refused: the call comes after the collection.
    Untouched,
    /// One turn was refused, as the shelf failed. The collection ended, each of the nine objects that left was told once, and the
    /// library is whole.
    Outlived,
    /// None of these.
    Lost,
}

/// What the collection of this library comes to.
fn came_of(alloc: Global, depot: Kept) -> Came {
    let mut depot = depot;
    let head = depot.head();
    let ended = run_to_end(&mut depot, 3);
    let whole = is_whole(alloc, depot.close().end(), &head);
    match ended {
        Some(collected) => match collected.failures {
            0 => Came::Untouched,
            1 => if whole && collected.removed == 9 {
                Came::Outlived
            } else {
                Came::Lost
            },
            _ => Came::Lost,
        },
        None => Came::Lost,
    }
}

/// The same of a library whose shelf fails at the call of this number.
fn came_at(alloc: Global, call: u64) -> Came {
    match updated_thrice(alloc, &[call]) {
        Ok(depot) => came_of(alloc, depot),
        Err(_) => Came::Unmade,
    }
}

/// How many calls of a collection it outlives, if it is all of them.
fn outlived(alloc: Global) -> Option<u64> {
    let mut count: u64 = 0;
    for call in 0..300 {
        match came_at(alloc, call) {
            Came::Unmade => {}
            Came::Untouched => return Some(count),
            Came::Outlived => count = count.saturating_add(1),
            Came::Lost => return None,
        }
    }
    None
}

// The text of the begin, three objects that are read, and nine that are removed.
#[test]
fn a_collection_outlives_a_fault_at_each_of_its_calls(rt: HostRuntime) {
    let calls = outlived(rt.alloc());
    assert!(rt; calls == Some(13), "{calls:?}");
}
