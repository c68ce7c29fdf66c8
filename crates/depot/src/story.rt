//! The history of a library: the changes that lead from one library to another.
use crate::depot::Depot;
use crate::turn::Turn;
use library_state::{Call, Reply};
use object_store::Shelf;
use std::snapshot::Snapshot;
use turnstile::Story;

/// One change of a library: what made it, when, and the library before and after it. It has no bytes but its numbers, so that a
/// history of changes may hold each of them.
pub struct Change<V> {
    /// The library before it.
    pub before: Snapshot<V>,
    /// What made it.
    pub made: Made,
    /// When, in seconds since 1970-01-01 UTC.
    pub moment: u64,
    /// The library after it.
    pub after: Snapshot<V>,
}

impl<V> Drop for Change<V> {
    fn drop(self) {
        let Change {
            before: _,
            made: _,
            moment: _,
            after: _,
        } = self;
    }
}

/// What made a change.
#[derive(Drop)]
pub enum Made {
    /// A call, with its reply.
    Asked(Snapshot<Call>, Snapshot<Reply>),
    /// A turn of a collection, with its goal and the number of objects that it might handle.
    Turned(Option<u64>, u64, Snapshot<Turn>),
}

/// A library stands for the changes that lead to it. What a change says of a call or of a turn is all that the call or the turn
/// says of it itself. And its shelf may give no more than it might give as the history began, but what calls and turns may lay.
impl<S: Shelf> Story for Depot<S> {
    type Entry = Change<Depot<S>>;

    ghost use Rattle.depot.specs.Story.{ComesBy, comes_itself};

    ghost stands = { ComesBy S.contents S.may_give S.texts S.faults };

    ghost begins = { λ x. comes_itself S.contents S.may_give S.texts S.faults x };
}
