//! A collection that is asked of a hall: it takes one turn after another, and others ask between them.
ghost use Rattle.std.specs.Prelude.{◌≡◌, List};
ghost use Rattle.turnstile.specs.PassView.{IsPassOf, drawn_of, parts_of, passes_of};
ghost use Rattle.sync_calls.specs.Collecting.{CollectsOne, CollectsSo, EndsSo, IsEndSeen, OneTurn, StepsSo, TurnsOnce, next_goal};
ghost use Rattle.turnstile.specs.Rule.{most_turns};
ghost use Rattle.sync_calls.specs.Hall.{AreReady, IsReadyAt, StaySpent, drawn_by, made_with, shares_of, shown_by};
ghost use Rattle.sync_calls.specs.Operations.{Line};
ghost use Rattle.sync_calls.specs.ServedTurn.{IsSameShare};
ghost use Rattle.sync_calls.specs.Shown.{Knows, shown_of};

use crate::asking::place_of;
use crate::collect_turn::{Taken, take_one};
use crate::door::admits_collection;
use crate::hall::{Hall, HallPass, Room};
use depot::{Depot, Turn};
use ids::LibId;
use library_state::{Clock, Refusal, Secret};
use object_store::Shelf;
use std::sync::{Mutex, Wait};
use turnstile::{Pass, Turnstile};

/// How a collection that was asked for ended.
#[derive(Debug, Drop)]
pub enum Collected {
    /// The collection of this number ended, in a turn of this call or of another one's since this call's first turn. So many
    /// objects left in the turns of this call, and so many turns it took. A number over 64 bits is told as their greatest.
    Done {
        number: u64,
        removed: u64,
        turns: u64,
    },
    /// Why it didn't. What the turns of this call changed stands.
    Refused(Refusal),
}

/// What was done till now: the collection that is gone on with, how many objects left, and how many turns were taken.
#[derive(Clone, Copy)]
pub(crate) struct SoFar {
    pub goal: Option<u64>,
    pub removed: u64,
    pub turns: u64,
}

/// What follows a turn: another one, or the end.
#[derive(Drop)]
pub(crate) enum Step {
    Goes(SoFar),
    Ends(Collected),
}

impl<S: Shelf> Hall<S> {
    /// Collects a library, in turns of at most 1,000 objects, until its collection ended or a turn is refused. Each takes one turn
    /// at the library, and others ask between them. It may wait.
    ///
    /// `NoLibrary` comes exactly where no library has the id, and then `Denied` exactly where the secret isn't an owner's, by the
    /// tokens with which the library came into the hall; neither takes a turn. `Spent` comes exactly where this call read `TURNS` as
    /// the next ticket of the library's lock, or a collection was to begin after the last number. A collection that runs already is
    /// gone on with, and no other one is begun once it ended.
    pub fn collect<R: Wait, C: Clock>(
        &self,
        rt: &R,
        pass: &mut HallPass<S>,
        lib: LibId,
        secret: &Option<Secret>,
        clock: &C,
    ) -> Collected
        requires ready { AreReady S.contents S.may_give S.texts S.faults self.now pass.old }
        ensures ready { AreReady S.contents S.may_give S.texts S.faults self.now pass.new }
        ensures size { (shares_of pass.new ≡ shares_of pass.old) × (made_with pass.new ≡ made_with pass.old) }
        ensures drawn { StaySpent (drawn_by pass.old) (drawn_by pass.new) }
        ensures told { (lines : List Line)
            × CollectsSo S.contents S.may_give S.texts S.faults (C.shows clock.now) (shown_by pass.old) lib secret.now result lines (shown_by pass.new) (drawn_by pass.new) }
    {
        let place = match place_of(self.rooms.as_slice(), &lib) {
            Some(place) => place,
            None => return Collected::Refused(Refusal::NoLibrary),
        };
        collect_at(
            rt,
            &self.rooms[place],
            &mut pass.passes[place],
            secret,
            clock,
        )
    }
}

/// Collects the library of a room.
fn collect_at<S: Shelf, R: Wait, C: Clock>(
    rt: &R,
    room: &Room<Turnstile<Depot<S>>, Depot<S>>,
    pass: &mut Pass<Depot<S>>,
    secret: &Option<Secret>,
    clock: &C,
) -> Collected
    requires ready { IsReadyAt S.contents S.may_give S.texts S.faults (parts_of pass.old) (passes_of pass.old) room.now pass.old }
    ensures ready { IsReadyAt S.contents S.may_give S.texts S.faults (parts_of pass.old) (passes_of pass.old) room.now pass.new }
    ensures drawn { drawn_of pass.old ≡ most_turns → drawn_of pass.new ≡ most_turns }
    ensures told { CollectsOne S.contents S.may_give S.texts S.faults (C.shows clock.now) (shown_of pass.old) secret.now result (shown_of pass.new) (drawn_of pass.new) }
{
    if !admits_collection(&room.door, secret) {
        return Collected::Refused(Refusal::Denied);
    }
    collect_all(rt, &room.lock, &room.gate, pass, clock)
}

/// Takes turns until the collection ended or one is refused.
fn collect_all<S: Shelf, R: Wait, C: Clock>(
    rt: &R,
    lock: &Turnstile<Depot<S>>,
    gate: &Mutex<()>,
    pass: &mut Pass<Depot<S>>,
    clock: &C,
) -> Collected
    requires ready { IsPassOf lock.now pass.old }
    requires known { Knows S.contents S.may_give S.texts S.faults (shown_of pass.old) }
    ensures ready { IsPassOf lock.now pass.new }
    ensures known { Knows S.contents S.may_give S.texts S.faults (shown_of pass.new) }
    ensures same { IsSameShare pass.old pass.new }
    ensures drawn { drawn_of pass.old ≡ most_turns → drawn_of pass.new ≡ most_turns }
    ensures told { (turns : List OneTurn)
        × EndsSo S.contents S.may_give S.texts S.faults (C.shows clock.now) (shown_of pass.old) result turns (shown_of pass.new) (drawn_of pass.new)
        × IsEndSeen turns result (shown_of pass.new) }
{
    let mut so_far = SoFar {
        goal: None,
        removed: 0,
        turns: 0,
    };
    for _ in rt.forever() {
        match turn_on(rt, lock, gate, pass, clock, so_far) {
            Step::Goes(more) => so_far = more,
            Step::Ends(ends) => return ends,
        }
    }
    unreachable!()
}

/// Takes one turn more, once it went through the gate, and tells what follows it.
fn turn_on<S: Shelf, R: Wait, C: Clock>(
    rt: &R,
    lock: &Turnstile<Depot<S>>,
    gate: &Mutex<()>,
    pass: &mut Pass<Depot<S>>,
    clock: &C,
    so_far: SoFar,
) -> Step
    requires ready { IsPassOf lock.now pass.old }
    requires known { Knows S.contents S.may_give S.texts S.faults (shown_of pass.old) }
    ensures ready { IsPassOf lock.now pass.new }
    ensures known { Knows S.contents S.may_give S.texts S.faults (shown_of pass.new) }
    ensures same { IsSameShare pass.old pass.new }
    ensures drawn { drawn_of pass.old ≡ most_turns → drawn_of pass.new ≡ most_turns }
    ensures told { TurnsOnce S.contents S.may_give S.texts S.faults (C.shows clock.now) (shown_of pass.old) so_far result (shown_of pass.new) (drawn_of pass.new) }
{
    drop(gate.lock(rt));
    match take_one(rt, lock, pass, so_far.goal, clock.now()) {
        Ok(taken) => step_of(taken, so_far),
        Err(_) => Step::Ends(Collected::Refused(Refusal::Spent)),
    }
}

/// What follows a turn.
fn step_of(taken: Taken, so_far: SoFar) -> Step
    ensures { StepsSo taken.turn taken.running so_far result }
{
    let Taken {
        turn,
        place: _,
        running,
    } = taken;
    let goal = next_goal(so_far.goal, running);
    let removed = so_far.removed;
    let turns = so_far.turns.saturating_add(1);
    match turn {
        Turn::Began(_) => Step::Goes(SoFar {
            goal,
            removed,
            turns,
        }),
        Turn::Marked(_) => Step::Goes(SoFar {
            goal,
            removed,
            turns,
        }),
        Turn::Swept(keys) => Step::Goes(SoFar {
            goal,
            removed: removed.saturating_add(keys.len() as u64),
            turns,
        }),
        Turn::Ended(number) => Step::Ends(Collected::Done {
            number,
            removed,
            turns,
        }),
        Turn::Over(number) => Step::Ends(Collected::Done {
            number,
            removed,
            turns,
        }),
        Turn::Refused(why, _) => Step::Ends(Collected::Refused(why)),
    }
}

/// The goal of the turn that follows one with this goal.
fn next_goal(goal: Option<u64>, running: Option<u64>) -> Option<u64>
    ensures { result ≡ next_goal goal running }
{
    match goal {
        Some(number) => Some(number),
        None => running,
    }
}
