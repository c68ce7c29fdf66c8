//! The atomic steps, one private function for each. Their rule: docs/CONCURRENCY.md.
ghost use Rattle.std.specs.Prelude.{◌≡◌, ◌+◌, ◌^◌, ◌<◌, true, false, None, [], ◌∷◌, length};
ghost use Rattle.turnstile.specs.Rule.{most_turns};
ghost use Rattle.turnstile.specs.Steps.{Drew, Looked, Released, Counted, Glanced, Totalled, one_less, one_part, both_of, with_entry};
ghost use Rattle.turnstile.specs.PassView.{StandsFor, HoldsValue, HoldsNone, IsSamePass, WasMadeBy, participant_of, view_of};

use crate::lock::Turnstile;
use crate::rule::{Count, Cut, Draw, Glance, Look, Merge, Publish, Release, Total};
use crate::seated::{Pass, Seated};
use crate::story::Story;
use crate::view::{Parcel, View};
use atomic_table::Seat;
use std::snapshot::Snapshot;

// The words of the table, and its one slot.
const PASSES: usize = 0;

pub(crate) const DRAWN: usize = 1;

pub(crate) const SERVING: usize = 2;

const COUNT: usize = 3;

pub(crate) const VALUE: usize = 0;

impl<V: Story> Turnstile<V> {
    // Split: one pass of several, which has seen nothing.
    pub(crate) fn split(&self, pass: &mut Pass<V>) -> Pass<V>
        requires own { WasMadeBy self.now pass.old }
        requires parts { ((view_of pass.old).parts ≡ pass.old.parts) × (1 < pass.old.parts) }
        ensures own { WasMadeBy self.now pass.new × WasMadeBy self.now result }
        ensures stays { (participant_of pass.new ≡ (one_less (view_of pass.old), (participant_of pass.old).1)) × (pass.new.parts + 1 ≡ pass.old.parts) }
        ensures value { (participant_of result ≡ (one_part (view_of pass.old), [])) × (result.parts ≡ 1) }
    {
        let seat = self.table.shared.split_seat::<Cut>(&mut pass.seat);
        pass.parts -= 1;
        Seated { seat, parts: 1 }
    }

    // Join: `into` has what both had.
    pub(crate) fn merge(
        &self,
        into: &mut Pass<V>,
        from: Seat<Parcel<V, V::Entry>, View<V, V::Entry>>,
    )
        requires own { WasMadeBy self.now into.old × (from.table_id ≡ self.now.table.shared.table_id) }
        requires ready { ((view_of into.old).turn ≡ false) × (from.me.0.turn ≡ false) × (from.me.0.ticket ≡ None) × (from.me.1 ≡ []) }
        requires parts { 0 < (view_of into.old).parts }
        ensures same { IsSamePass into.old into.new }
        ensures stays { participant_of into.new ≡ (both_of (view_of into.old) from.me.0, (participant_of into.old).1) }
    {
        self.table.shared.join_seat::<Merge>(&mut into.seat, from);
    }

    // Draw: the ticket is `guess` if that was the next one. Gives the next ticket as it was.
    pub(crate) fn draw(&self, pass: &mut Pass<V>, guess: u64) -> u64
        requires own { WasMadeBy self.now pass.old }
        requires ready { ((view_of pass.old).ticket ≡ None) × ((view_of pass.old).turn ≡ false) }
        requires parts { 0 < (view_of pass.old).parts }
        requires below { guess < most_turns }
        ensures same { IsSamePass pass.old pass.new }
        ensures drew { Drew guess (participant_of pass.old) result (participant_of pass.new) }
    {
        self.table
            .shared
            .compare_exchange::<Draw>(&mut pass.seat, DRAWN, guess, guess + 1)
    }

    // Look: the turn comes with the slot where the ticket is served. Gives the ticket that is served.
    pub(crate) fn look(&self, pass: &mut Pass<V>) -> u64
        requires own { WasMadeBy self.now pass.old }
        requires ready { (view_of pass.old).turn ≡ false }
        requires parts { 0 < (view_of pass.old).parts }
        ensures same { IsSamePass pass.old pass.new }
        ensures looked { Looked V.stands (participant_of pass.old) result (participant_of pass.new) }
    {
        self.table.shared.load::<Look<V>>(&mut pass.seat, SERVING)
    }

    // Take: the value moves out of the slot.
    pub(crate) fn take(&self, pass: &mut Pass<V>) -> V
        requires own { WasMadeBy self.now pass.old }
        requires held { (y : V) × HoldsValue (participant_of pass.old) y }
        ensures same { IsSamePass pass.old pass.new }
        ensures value { HoldsValue (participant_of pass.old) result }
        ensures stays { (view_of pass.new ≡ view_of pass.old) × HoldsNone (participant_of pass.new) }
    {
        let full = self
            .table
            .shared
            .exchange(&mut pass.seat, VALUE, Parcel::empty());
        full.into_value()
    }

    // Put back: the value moves into the slot.
    pub(crate) fn put_back(&self, pass: &mut Pass<V>, value: V)
        requires own { WasMadeBy self.now pass.old }
        requires held { HoldsNone (participant_of pass.old) }
        ensures same { IsSamePass pass.old pass.new }
        ensures stays { (view_of pass.new ≡ view_of pass.old) × HoldsValue (participant_of pass.new) value }
    {
        let empty = self
            .table
            .shared
            .exchange(&mut pass.seat, VALUE, Parcel::holding(value));
        empty.let_go();
    }

    // Release: the pass is left with neither ticket nor turn, and the table has the slot again.
    pub(crate) fn release(&self, pass: &mut Pass<V>)
        requires own { WasMadeBy self.now pass.old }
        requires turn { ((view_of pass.old).turn ≡ true) × (0 < (view_of pass.old).parts) }
        requires held { (y : V) × HoldsValue (participant_of pass.old) y × StandsFor V.stands (view_of pass.old) y }
        ensures same { IsSamePass pass.old pass.new }
        ensures released { Released (participant_of pass.old) 0 (participant_of pass.new) }
    {
        self.table
            .shared
            .fetch_add::<Release>(&mut pass.seat, SERVING, 1);
    }

    // Publish: the entry lies in the held slot, and one addition fixes its place in the history.
    pub(crate) fn append(&self, pass: &mut Pass<V>, entry: Snapshot<V::Entry>) -> u64
        requires own { WasMadeBy self.now pass.old }
        requires turn { ((view_of pass.old).turn ≡ true) × (0 < (view_of pass.old).parts) }
        requires few { (view_of pass.old).told < 4 }
        requires held { HoldsNone (participant_of pass.old) }
        ensures same { IsSamePass pass.old pass.new }
        ensures value { (result ≡ length (view_of pass.old).seen) × (result + 1 < 2 ^ 64) }
        ensures stays { HoldsNone (participant_of pass.new) × (view_of pass.new ≡ with_entry (view_of pass.old) (entry.value ∷ []) result) }
    {
        let empty = self
            .table
            .shared
            .exchange(&mut pass.seat, VALUE, Parcel::carrying(entry));
        empty.let_go();
        self.table
            .shared
            .fetch_add::<Publish>(&mut pass.seat, COUNT, 1)
    }

    // Count, in a turn: the length of all that was seen.
    pub(crate) fn count_in_turn(&self, pass: &mut Pass<V>) -> u64
        requires own { WasMadeBy self.now pass.old }
        requires turn { (view_of pass.old).turn ≡ true }
        ensures same { IsSamePass pass.old pass.new }
        ensures counted { Counted (participant_of pass.old) result (participant_of pass.new) }
    {
        self.table.shared.load::<Count>(&mut pass.seat, COUNT)
    }

    // Count, outside of a turn: the pass keeps the number.
    pub(crate) fn glance(&self, pass: &mut Pass<V>) -> u64
        requires own { WasMadeBy self.now pass.old }
        ensures same { IsSamePass pass.old pass.new }
        ensures glanced { Glanced (participant_of pass.old) result (participant_of pass.new) }
    {
        self.table.shared.load::<Glance>(&mut pass.seat, COUNT)
    }

    // Close: how many passes were made. It also tells what the last join taught.
    pub(crate) fn total(&self, pass: &mut Pass<V>) -> u64
        requires own { WasMadeBy self.now pass.old }
        requires parts { 0 < (view_of pass.old).parts }
        ensures same { IsSamePass pass.old pass.new }
        ensures total { Totalled (participant_of pass.old) result (participant_of pass.new) }
    {
        self.table.shared.load::<Total>(&mut pass.seat, PASSES)
    }
}
