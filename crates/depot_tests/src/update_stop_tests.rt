//! An update by fast forward and a merged one, over a shelf that stops: whatever the call at which it does, the library opens again
//! with the old head or with the new one, and with the new one where the update was answered; and a token and the same update are
//! then taken as if nothing had been.
use crate::calls::{Said, asked};
use crate::library::library_on;
use crate::make_stop_tests::{head_told, is_added};
use crate::objects::{Kept, ONE, put_commit, update_to};
use crate::stop_tests::opened;
use depot::Depot;
use ids::ObjId;
use library_state::Act;
use object_store::{FuseShelf, MemoryShelf};
use std::alloc::{AllocError, Global};

/// What a library is updated to.
#[derive(Clone, Copy)]
enum Way {
    /// A commit on its head.
    Forward,
    /// A commit on the one before its head.
    Merged,
}

/// The head of a library that is to be updated, and the commit.
#[derive(Clone, Copy)]
struct Due {
    old: ObjId,
    commit: ObjId,
}

/// Updates a library once, and puts all objects of another update of the commit before.
fn diverge(alloc: Global, depot: &mut Kept) -> Result<Due, AllocError> {
    let base = depot.head();
    let old = update_to(alloc, depot, 0x11, &base, ONE, "1")?;
    let commit = put_commit(alloc, depot, 0x22, &base, ONE, "2")?;
    Ok(Due { old, commit })
}

/// Puts all objects of an update of the head.
fn follow(alloc: Global, depot: &mut Kept) -> Result<Due, AllocError> {
    let old = depot.head();
    let commit = put_commit(alloc, depot, 0x22, &old, ONE, "2")?;
    Ok(Due { old, commit })
}

fn prepared(alloc: Global, depot: &mut Kept, way: Way) -> Result<Due, AllocError> {
    match way {
        Way::Forward => follow(alloc, depot),
        Way::Merged => diverge(alloc, depot),
    }
}

/// The shelf of a library that is to be updated so.
fn shelf_of(alloc: Global, way: Way) -> Result<(MemoryShelf, Due), AllocError> {
    let mut depot = library_on(alloc, &[])?;
    let due = prepared(alloc, &mut depot, way);
    let shelf = depot.close().end();
    match due {
        Ok(due) => Ok((shelf, due)),
        Err(why) => {
            drop(shelf);
            Err(why)
        }
    }
}

/// What an update over a shelf that stops comes to.
#[derive(Clone, Copy)]
enum Came {
    /// The library is answered to stand at this commit.
    Updated(ObjId),
    /// The shelf failed, as the library was opened or as it was updated.
    Failed,
    /// None of these.
    Other,
}

fn update(depot: &mut Depot<FuseShelf>, commit: &ObjId) -> Came {
    match asked(depot, Act::Update(*commit)) {
        Said::Updated(head) => Came::Updated(head),
        Said::Failed => Came::Failed,
        _ => Came::Other,
    }
}

/// The head of a library, if a token is added to it then and the update to this commit is answered.
fn head_before_more(alloc: Global, depot: &mut Depot<FuseShelf>, commit: &ObjId) -> Option<ObjId> {
    let head = depot.head();
    let is_added = is_added(alloc, depot);
    match update(depot, commit) {
        Came::Updated(_) if is_added => Some(head),
        _ => None,
    }
}

/// The head with which a library opens after a stop, and the one that the new reader is told in the run after the next calls.
fn heads_on(alloc: Global, shelf: MemoryShelf, commit: &ObjId) -> (Option<ObjId>, Option<ObjId>) {
    match opened(alloc, shelf, 1_000_000, false) {
        Ok(depot) => {
            let mut depot = depot;
            let head = head_before_more(alloc, &mut depot, commit);
            (head, head_told(alloc, depot.close().end().into_inner()))
        }
        Err(_) => (None, None),
    }
}

/// The heads of a library that was updated over a shelf that stops.
#[derive(Clone, Copy)]
struct Heads {
    /// The one before the update.
    old: ObjId,
    /// The one with which the library opened then.
    found: ObjId,
    /// The one after later calls.
    last: ObjId,
}

/// What an update comes to over a shelf that passes so many calls, and the heads, if the library opens then and later calls are
/// done.
fn run_of(
    alloc: Global,
    way: Way,
    passes: u64,
    late: bool,
) -> Result<(Came, Option<Heads>), AllocError> {
    let (shelf, due) = shelf_of(alloc, way)?;
    let (came, shelf) = updated(alloc, shelf, passes, late, &due.commit);
    match heads_on(alloc, shelf, &due.commit) {
        (Some(found), Some(last)) => Ok((
            came,
            Some(Heads {
                old: due.old,
                found,
                last,
            }),
        )),
        _ => Ok((came, None)),
    }
}

/// What the update comes to over a shelf that passes so many calls, and the shelf.
fn updated(
    alloc: Global,
    shelf: MemoryShelf,
    passes: u64,
    late: bool,
    commit: &ObjId,
) -> (Came, MemoryShelf) {
    match opened(alloc, shelf, passes, late) {
        Ok(depot) => {
            let mut depot = depot;
            let came = update(&mut depot, commit);
            (came, depot.close().end().into_inner())
        }
        Err(shelf) => (Came::Failed, shelf),
    }
}

/// The head that was answered, if the library stood at it then and later.
fn agreed(came: Came, heads: &Heads) -> Option<ObjId> {
    match stop_of(came, heads, &heads.found) {
        Stop::Answered => Some(heads.found),
        _ => None,
    }
}

/// The head that is answered where nothing stops, if the library stands at it.
fn new_head(alloc: Global, way: Way) -> Result<Option<ObjId>, AllocError> {
    match run_of(alloc, way, 1_000_000, false)? {
        (came, Some(heads)) => Ok(agreed(came, &heads)),
        (_, None) => Ok(None),
    }
}

/// What a library stands at after a stop.
#[derive(Clone, Copy)]
enum Stop {
    /// Neither at the old head nor at the new one, or the update was answered and it stands at another; or at another than the new
    /// one after later calls.
    Lost,
    /// At the old head.
    Old,
    /// At the new one, and the update was refused.
    New,
    /// At the new one, and the update was answered with it.
    Answered,
}

fn stop_of(came: Came, heads: &Heads, new: &ObjId) -> Stop {
    if heads.last != *new {
        return Stop::Lost;
    }
    let is_new = heads.found == *new;
    match came {
        Came::Updated(told) => if is_new && told == *new {
            Stop::Answered
        } else {
            Stop::Lost
        },
        Came::Failed => if is_new {
            Stop::New
        } else if heads.found == heads.old {
            Stop::Old
        } else {
            Stop::Lost
        },
        Came::Other => Stop::Lost,
    }
}

fn stop_at(
    alloc: Global,
    way: Way,
    passes: u64,
    late: bool,
    new: &ObjId,
) -> Result<Stop, AllocError> {
    match run_of(alloc, way, passes, late)? {
        (came, Some(heads)) => Ok(stop_of(came, &heads, new)),
        (_, None) => Ok(Stop::Lost),
    }
}

/// How many calls the opening and the update take, and after how many stops the update was refused and stands, if no stop loses
/// anything.
fn stops(
    alloc: Global,
    way: Way,
    late: bool,
    new: &ObjId,
) -> Result<Option<(u64, u64)>, AllocError> {
    let mut refused: u64 = 0;
    for passes in 0..200 {
        match stop_at(alloc, way, passes, late, new)? {
            Stop::Lost => return Ok(None),
            Stop::Old => {}
            Stop::New => refused = refused.saturating_add(1),
            Stop::Answered => return Ok(Some((passes, refused))),
        }
    }
    Ok(None)
}

/// Whether no stop loses anything, early or late; both take as many calls, and only a late stop leaves what was refused.
fn is_kept(alloc: Global, way: Way) -> Result<bool, AllocError> {
    let new = match new_head(alloc, way)? {
        Some(new) => new,
        None => return Ok(false),
    };
    match (
        stops(alloc, way, false, &new)?,
        stops(alloc, way, true, &new)?,
    ) {
        (Some(early), Some(late)) => Ok(early.0 == late.0 && early.1 == 0 && late.1 == 1),
        _ => Ok(false),
    }
}

#[test]
fn a_stop_at_any_call_of_an_update_by_fast_forward_leaves_the_old_head_or_the_new_one(
    rt: HostRuntime,
) -> Result<(), AllocError> {
    assert!(rt; is_kept(rt.alloc(), Way::Forward)?);
    Ok(())
}

#[test]
fn a_stop_at_any_call_of_a_merged_update_leaves_the_old_head_or_the_new_one(
    rt: HostRuntime,
) -> Result<(), AllocError> {
    assert!(rt; is_kept(rt.alloc(), Way::Merged)?);
    Ok(())
}
