//! A turn: the value is out of the slot, and one participant may change it and publish entries.
ghost use Rattle.std.specs.Prelude.{◌≡◌, ◌+◌, ◌<◌, [], ◌∷◌, None, false};
ghost use Rattle.std.specs.Borrow.{sem, Lends};
ghost use mir.Syntax.{named};
ghost use Rattle.turnstile.specs.contracts.held.Held.{the_row as held_row};
ghost use Rattle.turnstile.specs.PassView.{StandsFor, IsPassOf, view_of, told_of};
ghost use Rattle.turnstile.specs.Steps.{with_entry};
ghost use Rattle.turnstile.specs.HeldTurn.{IsHeld, IsSameTurn, pass_of, name_of, turnstile_of, value_of, place_of, with_value};

use crate::lock::Turnstile;
use crate::seated::Pass;
use crate::story::Story;
use std::snapshot::Snapshot;

/// A turn. It must be spent: there is no way to drop it, and `done` ends it.
pub struct Held<'a, V: Story> {
    turnstile: &'a Turnstile<V>,
    pass: &'a mut Pass<V>,
    place: u64,
    value: V,
}

impl<'a, V: Story> Held<'a, V> {
    pub(crate) fn new(
        turnstile: &'a Turnstile<V>,
        pass: &'a mut Pass<V>,
        place: u64,
        value: V,
    ) -> Held<'a, V>
        ensures turnstile { turnstile_of result ≡ turnstile.now }
        ensures same_reference { name_of result ≡ pass.entry.ghost_name }
        ensures pass { pass_of result ≡ pass.old }
        ensures value { (place_of result ≡ place) × (value_of result ≡ value) }
    {
        Held {
            turnstile,
            pass,
            place,
            value,
        }
    }

    /// The value. Whatever is written through the reference is the value from then on.
    pub fn value(&mut self) -> &mut V
        ensures* writes_back { sem 𝓛 (Lends (held_row (record { mir = named 1; lft = [] }) V.row V.Entry.row V.Story) V.row self.entry result (with_value self.old)) }
        ensures value { result.now ≡ value_of self.old }
    {
        &mut self.value
    }

    /// The number of entries so far.
    pub fn place(&self) -> u64
        ensures value { result ≡ place_of self.now }
    {
        self.place
    }

    /// Publishes an entry, and gives its place in the history. It takes no memory.
    ///
    /// In the midst of a turn the value may be other than what the entries make of the start: only
    /// `done` requires that they agree.
    pub fn publish(&mut self, entry: Snapshot<V::Entry>) -> u64
        requires ready { IsHeld self.old }
        requires fits { told_of (pass_of self.old) < 4 }
        ensures value { result ≡ place_of self.old }
        ensures ready { IsHeld self.new × IsSameTurn self.old self.new }
        ensures place { place_of self.new ≡ place_of self.old + 1 }
        ensures stays { value_of self.new ≡ value_of self.old }
        ensures view { view_of (pass_of self.new) ≡ with_entry (view_of (pass_of self.old)) (entry.value ∷ []) result }
    {
        let place = self.turnstile.append(self.pass, entry);
        self.place = place + 1;
        place
    }

    /// Ends the turn: the value goes back, and the next ticket is served. It takes no memory.
    pub fn done(self)
        requires ready { IsHeld self }
        requires stands { StandsFor V.stands (view_of (pass_of self)) (value_of self) }
        ensures ready { IsPassOf (turnstile_of self.entry) self.exit.1.0.now }
        ensures stays { view_of self.exit.1.0.now ≡ record (view_of (pass_of self.entry)) { ticket = None; turn = false; told = 0 } }
    {
        let Held {
            turnstile,
            pass,
            place: _,
            value,
        } = self;
        turnstile.put_back(pass, value);
        turnstile.release(pass);
        turnstile.wake();
    }
}
