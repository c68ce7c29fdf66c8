//! The calls of a turnstile: new, count, join and close.
ghost use Rattle.std.specs.Prelude.{◌≡◌, ℕ, ◌+◌, ◌<◌, ◌≤◌, ◌↔◌, All, Some, length, vec_len, vec_capacity, IfOk, IfErr, OnOk, IsOk, [], ◌∷◌};
ghost use mathlib.Core.List.{IsPrefix};
ghost use Rattle.turnstile.specs.Lists.{Has, IsOnce, shorter};
ghost use Rattle.turnstile.specs.Rule.{most_turns, Stands};
ghost use Rattle.turnstile.specs.Steps.{newcomer, both_of};
ghost use Rattle.turnstile.specs.PassView.{StandsFor, IsPassOf, IsNewPass, WasMadeBy, participant_of, view_of, start_of, first_of, parts_of, passes_of, seen_of, looked_of, looks_of, book_of, drawn_of, turns_of};

use crate::lock::{Lock, Turnstile};
use crate::seated::{Pass, Seated};
use crate::steps::VALUE;
use crate::story::Story;
use crate::view::{About, Parcel};
use atomic_table::{Refused, Table};
use std::alloc::{AllocError, Global};
use std::snapshot::Snapshot;

impl<V: Story> Turnstile<V> {
    /// A turnstile over `value`, with as many passes, whose first ticket is `drawn`.
    ///
    /// Its history is empty and begins with the value. Want of memory gives the value back.
    pub fn new(
        alloc: Global,
        value: V,
        passes: u32,
        drawn: u64,
    ) -> Result<(Turnstile<V>, Vec<Pass<V>>), (V, AllocError)>
        requires from_one { 1 ≤ passes }
        requires fits { drawn ≤ most_turns }
        ensures bound { IfOk result (λ t. vec_len t.1 ≡ passes) }
        ensures ok { IfOk result (λ t. All (IsNewPass t.0 (Some value) passes drawn) t.1.items) }
        ensures err { IfErr result (λ e. e.0 ≡ value) }
    {
        let Ok(mut made) = Vec::with_capacity(alloc, passes as usize) else {
            return Err((value, AllocError));
        };
        match Turnstile::make(alloc, value, u64::from(passes), drawn) {
            Ok((turnstile, first)) => {
                turnstile.deal(&mut made, first);
                Ok((turnstile, made))
            }
            Err(value) => Err((value, AllocError)),
        }
    }

    // Make: all words are set, the value is at home, and one pass stands for all.
    fn make(alloc: Global, value: V, passes: u64, drawn: u64) -> Result<(Turnstile<V>, Pass<V>), V>
        requires fits { drawn ≤ most_turns }
        ensures own { IfOk result (λ t. WasMadeBy t.0 t.1) }
        ensures ok { IfOk result (λ t. (t.1.parts ≡ passes) × (participant_of t.1 ≡ (newcomer (Some value) passes drawn passes, []))) }
        ensures err { IfErr result (λ v. v ≡ value) }
    {
        let Ok(mut slots) = Vec::with_capacity(alloc, 1) else {
            return Err(value);
        };
        let about = About {
            start: Snapshot::of(&value),
            passes,
            first: drawn,
        };
        slots.push_reserved(Parcel::holding(value));
        match Table::new(alloc, &[passes, drawn, drawn, 0], slots, &about) {
            Ok((table, seat)) => Ok((
                Lock { table },
                Seated {
                    seat,
                    parts: passes,
                },
            )),
            Err(refused) => Err(value_back(refused)),
        }
    }

    // Cuts a pass into passes that stand for one each.
    fn deal(&self, made: &mut Vec<Pass<V>>, mut first: Pass<V>)
        requires own { WasMadeBy self.now first }
        requires fits { (vec_len made.old ≡ 0) × (first.parts ≤ vec_capacity made.old) × (1 ≤ first.parts) }
        requires ready { participant_of first ≡ (newcomer (start_of first) first.parts (first_of first) first.parts, []) }
        ensures bound { vec_len made.new ≡ first.parts }
        ensures ok { All (IsNewPass self.now (start_of first) first.parts (first_of first)) made.new.items }
    {
        while first.parts > 1 {
            made.push_reserved(self.split(&mut first));
        }
        made.push_reserved(first);
    }

    /// The number of entries so far, by one load. It neither waits nor takes memory.
    ///
    /// It is no less than what the pass has seen or looked at, and the pass keeps it. The call looks just once: the number is
    /// that of this look, and not one that was kept.
    pub fn count(&self, pass: &mut Pass<V>) -> u64
        requires ready { IsPassOf self.now pass.old }
        ensures value { (looked_of pass.old ≤ result) × (length (seen_of pass.old) ≤ result) }
        ensures ready { IsPassOf self.now pass.new }
        ensures view { view_of pass.new ≡ record (view_of pass.old) { looked = result; looks = looks_of pass.old + 1 } }
    {
        self.glance(pass)
    }

    /// Makes one pass of two. It takes no memory.
    ///
    /// One of the two known lists begins the other, and `into` keeps the longer one. Its book gets
    /// the places of both passes, each once. It stands for no more passes than were made, and where it
    /// stands for all, it read of no more tickets than all of them drew.
    pub fn join(&self, into: &mut Pass<V>, from: Pass<V>)
        requires ready { IsPassOf self.now into.old × IsPassOf self.now from }
        ensures ready { IsPassOf self.now into.new }
        ensures view { view_of into.new ≡ both_of (view_of into.old) (view_of from) }
        ensures seen { IsPrefix (shorter (seen_of into.old) (seen_of from)) (seen_of into.new) }
        ensures once { IsOnce (book_of into.new) }
        ensures bound { parts_of into.new ≤ passes_of into.new }
        ensures all { parts_of into.new ≡ passes_of into.new → drawn_of into.new ≤ first_of into.new + turns_of into.new }
    {
        let (seat, parts) = from.into_seat();
        self.merge(into, seat);
        self.total(into);
        into.parts += parts;
    }

    /// Takes the value out for good. It takes no memory.
    ///
    /// Only the pass that stands for all passes closes; it read of no more tickets than it drew. Any other gets the turnstile and itself back
    /// as they were, with the number of passes made.
    pub fn close(self, mut pass: Pass<V>) -> Result<V, (Turnstile<V>, Pass<V>, u64)>
        requires ready { IsPassOf self pass }
        ensures value { IfOk result (StandsFor V.stands (view_of pass)) }
        ensures ok { OnOk result ((p : ℕ) → p < length (seen_of pass) → Has p (book_of pass)) }
        ensures all { OnOk result (drawn_of pass ≤ first_of pass + turns_of pass) }
        ensures told { IsOk result ↔ (parts_of pass ≡ passes_of pass) }
        ensures err { IfErr result (λ e. (e.0 ≡ self) × IsPassOf e.0 e.1 × (view_of e.1 ≡ view_of pass)) }
        ensures refused { IfErr result (λ e. (e.2 ≡ passes_of pass) × (parts_of pass < e.2)) }
    {
        let passes = self.total(&mut pass);
        if pass.parts < passes {
            return Err((self, pass, passes));
        }
        Ok(self.reclaim(pass).into_value())
    }

    // What the slot holds at the end, where one pass stands for all.
    fn reclaim(self, pass: Pass<V>) -> Parcel<V, V::Entry>
        requires ready { IsPassOf self pass }
        requires all { parts_of pass ≡ passes_of pass }
        ensures value { (x : V) × (start_of pass ≡ Some x) × Stands V.stands x (seen_of pass) result }
        ensures ok { (p : ℕ) → p < length (seen_of pass) → Has p (book_of pass) }
    {
        let (seat, _) = pass.into_seat();
        let mut closed = self.into_table().close_with(seat);
        let parcel = closed.take(VALUE);
        closed.free();
        parcel
    }
}

// The value comes back where there was no memory for the table.
fn value_back<V, E>(refused: Refused<Parcel<V, E>, Global>) -> V
    requires { (p : Parcel V E) × (refused.slots.items ≡ p ∷ []) × (y : V) × (p.value ≡ Some y) }
    ensures { (p : Parcel V E) × (refused.slots.items ≡ p ∷ []) × (p.value ≡ Some result) }
{
    let Refused { mut slots } = refused;
    match slots.pop() {
        Some(parcel) => {
            slots.destroy_empty();
            parcel.into_value()
        }
        None => unreachable!(),
    }
}
