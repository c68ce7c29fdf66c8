//! What the slot holds, what a participant knows, and what the table is told when it is made.
ghost use Rattle.std.specs.Prelude.{◌≡◌, Some, None, IsSome};

use std::collections::LinkedList;
use std::snapshot::Snapshot;

/// What the one slot holds: the value while the turn is free, and the entry that the holder is
/// about to publish while it is not.
pub struct Parcel<V, E> {
    pub(crate) value: Option<V>,
    pub(crate) next: Option<Snapshot<E>>,
}

impl<V, E> Parcel<V, E> {
    pub(crate) fn holding(value: V) -> Parcel<V, E>
        ensures { result ≡ record { value = Some value; next = None } }
    {
        Parcel {
            value: Some(value),
            next: None,
        }
    }

    pub(crate) fn carrying(entry: Snapshot<E>) -> Parcel<V, E>
        ensures { result ≡ record { value = None; next = Some entry } }
    {
        Parcel {
            value: None,
            next: Some(entry),
        }
    }

    pub(crate) fn empty() -> Parcel<V, E>
        ensures { result ≡ record { value = None; next = None } }
    {
        Parcel {
            value: None,
            next: None,
        }
    }

    pub(crate) fn into_value(self) -> V
        requires { IsSome self.value }
        ensures { self.value ≡ Some result }
    {
        let Parcel { value, next: _ } = self;
        match value {
            Some(value) => value,
            None => unreachable!(),
        }
    }

    pub(crate) fn let_go(self)
        requires { self.value ≡ None }
    {
        let Parcel { value, next: _ } = self;
        let None = value else { unreachable!() };
    }
}

impl<V: Drop, E> Drop for Parcel<V, E> {
    fn drop(self) {
        let Parcel { value: _, next: _ } = self;
    }
}

/// What a participant knows. It is for proofs alone: no value of it is ever made.
pub struct View<V, E> {
    /// The value that the history began with.
    pub start: Option<V>,
    /// How many passes were made with the turnstile.
    pub passes: u64,
    /// The ticket that was the first.
    pub first: u64,
    /// For how many of them this one stands.
    pub parts: u64,
    /// The ticket drawn and not yet served.
    pub ticket: Option<u64>,
    /// Whether it has the turn.
    pub turn: bool,
    /// How many entries it published in this turn.
    pub told: u64,
    /// How many tickets it drew.
    pub turns: u64,
    /// The number that it last read of the next ticket.
    pub drawn: u64,
    /// The beginning of the history that it has seen.
    pub seen: LinkedList<E>,
    /// The shorter list of the last join.
    pub other: LinkedList<E>,
    /// The last length of the history that it read outside of a turn.
    pub looked: u64,
    /// How many times it read that length.
    pub looks: u64,
    /// The places of its own entries.
    pub book: LinkedList<u64>,
}

/// What the table is told once: the start, how many passes were made, and the first ticket.
pub struct About<V> {
    pub(crate) start: Snapshot<V>,
    pub(crate) passes: u64,
    pub(crate) first: u64,
}

impl<V> Drop for About<V> {
    fn drop(self) {
        let About {
            start: _,
            passes: _,
            first: _,
        } = self;
    }
}
