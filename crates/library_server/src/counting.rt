//! A library that was opened, and how many changes were made of it since: both tell its state.
ghost use Rattle.std.specs.Prelude.{◌≡◌, ◌≤◌, ◌⊎◌};
ghost use Rattle.depot.specs.Story.{IsTurned};
ghost use Rattle.library_server.specs.Counting.{IsCounted, count_after};

use depot::{Depot, Turn};
use library_state::Reply;
use object_store::Shelf;
use worker_server::Answer;

/// A library that was opened, and how many changes were made of it since, over a plain parameter. An `OpenedLibrary` is one.
///
/// At 2^64 - 1 the count stays, and no look tells a state any more.
#[derive(Drop)]
pub struct Counted<D> {
    /// The library.
    pub depot: D,
    /// How many changes were made since it was opened.
    pub changes: u64,
}

/// A library that was opened, and how many changes were made of it since: 0 as it is opened.
pub type OpenedLibrary<S> = Counted<Depot<S>>;

/// The count after what changed the library, or didn't.
pub(crate) fn count_after(changes: u64, changed: bool) -> u64
    ensures value { result ≡ count_after changes changed }
{
    if changed {
        changes.saturating_add(1)
    } else {
        changes
    }
}

/// An answer with the tag of the state that it leaves.
pub(crate) fn told_at<S: Shelf>(library: &OpenedLibrary<S>, reply: Reply) -> Answer
    ensures value { result ≡ record { reply = reply; opening = library.now.depot.state.opening; place = library.now.changes } }
{
    Answer {
        reply,
        opening: library.depot.opening(),
        place: library.changes,
    }
}

/// Takes a turn of a collection, and counts it where it changed the library.
pub(crate) fn take_turn<S: Shelf>(
    library: &mut OpenedLibrary<S>,
    goal: Option<u64>,
    moment: u64,
    at_most: u64,
) -> Turn
    requires some { 1 ≤ at_most }
    ensures turned { IsTurned S.contents S.may_give S.texts S.faults library.old.depot goal moment at_most result library.new.depot }
    ensures count { IsCounted S.contents S.faults library.old library.new }
{
    let (turn, changed) = library.depot.tell_turn(goal, moment, at_most);
    library.changes = count_after(library.changes, changed);
    turn
}
