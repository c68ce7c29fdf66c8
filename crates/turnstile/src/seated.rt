//! A pass as a struct: a seat at the table, and for how many passes it stands.
ghost use Rattle.std.specs.Prelude.{◌≡◌};

use crate::story::Story;
use crate::view::{Parcel, View};
use atomic_table::Seat;

/// A seat at the table of a `Lock`, over plain parameters. A `Pass` is one.
pub struct Seated<S, D> {
    pub(crate) seat: Seat<S, D>,
    pub(crate) parts: u64,
}

impl<S, D> Seated<S, D> {
    pub(crate) fn into_seat(self) -> (Seat<S, D>, u64)
        ensures { (result.0 ≡ self.seat) × (result.1 ≡ self.parts) }
    {
        let Seated { seat, parts } = self;
        (seat, parts)
    }
}

impl<S, D> Drop for Seated<S, D> {
    fn drop(self) {
        let Seated { seat: _, parts: _ } = self;
    }
}

/// The right to take turns at one turnstile, and all that its owner knows of the history.
///
/// A pass may go to another thread. A dropped pass only means that `close` is refused ever after.
pub type Pass<V> = Seated<Parcel<V, <V as Story>::Entry>, View<V, <V as Story>::Entry>>;
