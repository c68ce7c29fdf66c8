//! How a pass takes a turn: draw a ticket, look until it is served, take the value, count.
ghost use Rattle.std.specs.Prelude.{◌≡◌, ◌+◌, ◌<◌, ◌≤◌, [], Some, IfOk, OnOk, OnErr, length, false};
ghost use Rattle.std.specs.Borrow.{sem, RestsIfErr};
ghost use Rattle.turnstile.specs.contracts.seated.Seated.{the_row as seated_row};
ghost use Rattle.turnstile.specs.contracts.view.Parcel.{the_row as parcel_row};
ghost use Rattle.turnstile.specs.contracts.view.View.{the_row as view_row};
ghost use Rattle.turnstile.specs.Rule.{most_turns};
ghost use Rattle.turnstile.specs.PassView.{IsInTurn, StandsFor, Catches, IsSamePass, IsSpentAt, WasMadeBy, IsPassOf, participant_of, view_of, parts_of, first_of, turns_of, told_of, seen_of, drawn_of};
ghost use Rattle.turnstile.specs.HeldTurn.{IsHeld, pass_of, name_of, turnstile_of, value_of, place_of};
ghost use Rattle.turnstile.specs.Steps.{Gains};

use crate::TURNS;
use crate::held::Held;
use crate::lock::Turnstile;
use crate::seated::Pass;
use crate::story::Story;
use std::sync::Wait;

/// The turnstile has served its greatest number of turns.
#[derive(Clone, Copy, Debug, PartialEq, Eq)]
pub struct Spent;

impl<V: Story> Turnstile<V> {
    // Draws a ticket.
    fn ticket<R: Wait>(&self, rt: &R, pass: &mut Pass<V>) -> Result<u64, Spent>
        requires own { IsPassOf self.now pass.old }
        ensures same { IsSamePass pass.old pass.new }
        ensures ticket { IfOk result (λ t. (t < most_turns) × (participant_of pass.new ≡ (record (view_of pass.old) { ticket = Some t; turns = turns_of pass.old + 1; drawn = t }, []))) }
        ensures behind { IfOk result (λ t. (drawn_of pass.old ≤ t) × (first_of pass.old + turns_of pass.old ≤ t)) }
        ensures err { OnErr result (participant_of pass.new ≡ (record (view_of pass.old) { drawn = most_turns }, [])) }
    {
        let mut guess = 0;
        for _ in rt.forever() {
            if guess >= TURNS {
                return Err(Spent);
            }
            let found = self.draw(pass, guess);
            if found == guess {
                return Ok(found);
            }
            guess = found;
        }
        unreachable!()
    }

    // Waits until the ticket is served.
    fn await_turn<R: Wait>(&self, rt: &R, pass: &mut Pass<V>, ticket: u64)
        requires own { WasMadeBy self.now pass.old }
        requires ready { (view_of pass.old).turn ≡ false }
        requires parts { 0 < (view_of pass.old).parts }
        requires ticket { (view_of pass.old).ticket ≡ Some ticket }
        ensures same { IsSamePass pass.old pass.new }
        ensures gains { Gains V.stands (participant_of pass.old) (participant_of pass.new) }
    {
        for _ in rt.forever() {
            if self.look(pass) == ticket {
                return;
            }
            self.rest(rt, ticket);
        }
        unreachable!()
    }

    // Draws a ticket, waits for its turn, and takes the value.
    fn begin<R: Wait>(&self, rt: &R, pass: &mut Pass<V>) -> Result<(V, u64), Spent>
        requires own { IsPassOf self.now pass.old }
        ensures same { IsSamePass pass.old pass.new }
        ensures turn { IfOk result (λ r. IsInTurn pass.new.parts r.1 (participant_of pass.new) × StandsFor V.stands (view_of pass.new) r.0) }
        ensures view { OnOk result (Catches (view_of pass.old) (view_of pass.new)) }
        ensures told { OnOk result (told_of pass.new ≡ 0) }
        ensures below { OnOk result (drawn_of pass.new < most_turns) }
        ensures err { OnErr result (IsSpentAt pass.old pass.new) }
    {
        let ticket = self.ticket(rt, pass)?;
        self.await_turn(rt, pass, ticket);
        let value = self.take(pass);
        let place = self.count_in_turn(pass);
        Ok((value, place))
    }
}

impl<V: Story> Pass<V> {
    /// Waits for a turn at the turnstile that made this pass.
    ///
    /// In the turn the pass has seen all of the history. Spent comes exactly where this call read
    /// `TURNS` as the next ticket, which the pass then shows; all else of it is as it was.
    pub fn turn<'a, R: Wait>(
        &'a mut self,
        rt: &R,
        turnstile: &'a Turnstile<V>,
    ) -> Result<Held<'a, V>, Spent>
        requires ready { IsPassOf turnstile.now self.old }
        ensures* err { sem 𝓛 (RestsIfErr (seated_row (parcel_row V.row V.Entry.row) (view_row V.row V.Entry.row)) self.entry name_of result (IsSpentAt self.old)) }
        ensures same_reference { IfOk result (λ h. name_of h ≡ self.entry.ghost_name) }
        ensures turnstile { IfOk result (λ h. turnstile_of h ≡ turnstile.now) }
        ensures ready { IfOk result (λ h. IsHeld h × (told_of (pass_of h) ≡ 0) × (parts_of (pass_of h) ≡ parts_of self.old)) }
        ensures seen { IfOk result (λ h. Catches (view_of self.old) (view_of (pass_of h)) × (place_of h ≡ length (seen_of (pass_of h)))) }
        ensures value { IfOk result (λ h. StandsFor V.stands (view_of (pass_of h)) (value_of h)) }
        ensures unspent { IfOk result (λ h. drawn_of (pass_of h) < most_turns) }
    {
        let (value, place) = turnstile.begin(rt, self)?;
        Ok(Held::new(turnstile, self, place, value))
    }
}
