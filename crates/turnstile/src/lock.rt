//! The turnstile as a struct: a table of four words and one slot.
ghost use Rattle.std.specs.Prelude.{◌≡◌};

use crate::rule::Turns;
use crate::story::Story;
use crate::view::{About, Parcel, View};
use atomic_table::{Table, TableRule};
use std::alloc::Global;

/// A table of four words and one slot, over plain parameters. A `Turnstile` is one.
///
/// The words are the number of passes, the next ticket, the ticket being served and the length of
/// the history. The slot holds the value while the turn is free.
pub struct Lock<S, D, K, Q: TableRule<S, D, K>> {
    pub(crate) table: Table<S, D, K, Q, Global>,
    ghost shape: { (table.shared.table_id.words ≡ 4) × (table.shared.table_id.slots ≡ 1) },
}

impl<S, D, K, Q: TableRule<S, D, K>> Lock<S, D, K, Q> {
    pub(crate) fn into_table(self) -> Table<S, D, K, Q, Global>
        ensures { result ≡ self.table }
    {
        let Lock { table } = self;
        table
    }
}

impl<S: Drop, D, K, Q: TableRule<S, D, K>> Drop for Lock<S, D, K, Q> {
    fn drop(self) {
        let Lock { table: _ } = self;
    }
}

/// A ticket lock over one value that counts its history.
///
/// Turns go in ticket order, and nothing is promised of when a turn comes. Each participant has a
/// `Pass`. Steps and rule: docs/CONCURRENCY.md.
pub type Turnstile<V> = Lock<
    Parcel<V, <V as Story>::Entry>,
    View<V, <V as Story>::Entry>,
    About<V>,
    Turns<V>,
>;
