//! A hall and its passes as structs.
use crate::door::Door;
use depot::Depot;
use std::snapshot::Snapshot;
use std::sync::Mutex;
use turnstile::{Pass, Story, Turnstile};

/// The rooms of libraries and a way out, over plain parameters. A `Hall` is one.
#[derive(Drop)]
pub struct Rooms<R, B> {
    pub(crate) rooms: Vec<R>,
    pub(crate) exit: B,
}

/// One library: who may ask, how it began, and the lock in which it lies.
///
/// Who asks holds the gate for a turn, so that its end wakes one of those who wait and not all of them. A collection goes
/// through it before each of its turns, and holds it for none, so that others go between them. Nothing rests on it: what is
/// promised of a turn is the lock's.
#[derive(Drop)]
pub struct Room<L, X> {
    pub(crate) door: Door,
    pub(crate) start: Snapshot<X>,
    pub(crate) lock: L,
    pub(crate) gate: Mutex<()>,
}

/// A pass to each room and one to the way out, over plain parameters. A `HallPass` is one.
#[derive(Drop)]
pub struct Passes<P, Q> {
    pub(crate) passes: Vec<P>,
    pub(crate) exit: Q,
}

/// Where all libraries lie that a hall gives back at its end: memory for that many, taken as the hall was made. It lies in a
/// lock of its own, since a hall is shared and a library needn't be.
#[derive(Drop)]
pub struct Exit<D> {
    pub(crate) depots: Vec<D>,
}

impl<D> Story for Exit<D> {
    type Entry = u64;

    ghost use Rattle.std.specs.Prelude.{◌≡◌, refl};

    ghost stands = { λ x es y. y ≡ x };

    ghost begins = { λ x. refl };
}

/// Libraries that many ask at once, each with a `HallPass` of their own.
///
/// Only the pass that stands for all passes takes the libraries out.
pub type Hall<S> = Rooms<Room<Turnstile<Depot<S>>, Depot<S>>, Turnstile<Exit<Depot<S>>>>;

/// The right to ask each library of one hall, and all that its owner knows of their histories.
///
/// A dropped pass only means that `close` is refused ever after.
pub type HallPass<S> = Passes<Pass<Depot<S>>, Pass<Exit<Depot<S>>>>;
