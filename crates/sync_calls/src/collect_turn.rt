//! One turn of a pass at one library that goes on with its collection.
ghost use Rattle.std.specs.Prelude.{◌≡◌, ◌<◌, false, true, IfOk, OnErr, OnOk, ℕ, Option};
ghost use Rattle.turnstile.specs.HeldTurn.{IsHeld, IsSameTurn, pass_of, value_of};
ghost use Rattle.turnstile.specs.PassView.{IsPassOf, StandsFor, drawn_of, told_of, view_of};
ghost use Rattle.turnstile.specs.Rule.{most_turns};
ghost use Rattle.depot.specs.Story.{ComesBy, IsOther, IsSame, IsTurned};
ghost use Rattle.sync_calls.specs.CollectTurn.{RunsAt, running_number};
ghost use Rattle.sync_calls.specs.Operations.{IsDone, TookTurn};
ghost use Rattle.sync_calls.specs.ServedTurn.{CatchesUp, IsEntryOf, IsSameShare};
ghost use Rattle.sync_calls.specs.Shown.{Knows, Shown, shown_in, shown_of};

use depot::{Change, Depot, Made, Turn};
use object_store::Shelf;
use std::snapshot::Snapshot;
use std::sync::Wait;
use turnstile::{Held, Pass, Spent, Turnstile};

/// How many objects one turn may handle.
const OBJECTS: u64 = 1_000;

/// What a turn did, the place in the history at which it was taken, and the number of the collection that runs then.
#[derive(Drop)]
pub(crate) struct Taken {
    pub turn: Turn,
    pub place: u64,
    pub running: Option<u64>,
}

/// Takes a turn, and in it one of the library's collection.
pub(crate) fn take_one<S: Shelf, R: Wait>(
    rt: &R,
    lock: &Turnstile<Depot<S>>,
    pass: &mut Pass<Depot<S>>,
    goal: Option<u64>,
    moment: u64,
) -> Result<Taken, Spent>
    requires ready { IsPassOf lock.now pass.old }
    requires known { Knows S.contents S.may_give S.texts S.faults (shown_of pass.old) }
    ensures ready { IsPassOf lock.now pass.new }
    ensures known { Knows S.contents S.may_give S.texts S.faults (shown_of pass.new) }
    ensures same { IsSameShare pass.old pass.new }
    ensures told { IfOk result (λ taken. IsDone S.contents S.may_give S.texts S.faults (shown_of pass.old) taken.place (TookTurn goal moment 1000 taken.turn) (shown_of pass.new)) }
    ensures running { IfOk result (λ taken. RunsAt (shown_of pass.new) taken.running) }
    ensures err { OnErr result ((shown_of pass.new ≡ shown_of pass.old) × (drawn_of pass.new ≡ most_turns)) }
    ensures unspent { OnOk result (drawn_of pass.new < most_turns) }
    ensures drawn { drawn_of pass.old ≡ most_turns → drawn_of pass.new ≡ most_turns }
{
    let mut held = pass.turn(rt, lock)?;
    let taken = take(&mut held, goal, moment);
    held.done();
    Ok(taken)
}

/// Takes one turn of the collection. Where it changed the library the change is published, and else nothing is.
fn take<S: Shelf>(held: &mut Held<'_, Depot<S>>, goal: Option<u64>, moment: u64) -> Taken
    requires ready { IsHeld held.old }
    requires fits { told_of (pass_of held.old) ≡ 0 }
    requires stands { StandsFor (ComesBy S.contents S.may_give S.texts S.faults) (view_of (pass_of held.old)) (value_of held.old) }
    ensures ready { IsHeld held.new × IsSameTurn held.old held.new }
    ensures stands { StandsFor (ComesBy S.contents S.may_give S.texts S.faults) (view_of (pass_of held.new)) (value_of held.new) }
    ensures told { (u : Shown S) → CatchesUp u (shown_in (view_of (pass_of held.old)))
        → IsDone S.contents S.may_give S.texts S.faults u result.place (TookTurn goal moment 1000 result.turn) (shown_in (view_of (pass_of held.new))) }
    ensures running { RunsAt (shown_in (view_of (pass_of held.new))) result.running }
    ensures known { (u : Shown S) → CatchesUp u (shown_in (view_of (pass_of held.old)))
        → Knows S.contents S.may_give S.texts S.faults u → Knows S.contents S.may_give S.texts S.faults (shown_in (view_of (pass_of held.new))) }
    ensures same { IsSameShare (pass_of held.old) (pass_of held.new) × (drawn_of (pass_of held.new) ≡ drawn_of (pass_of held.old)) }
{
    let before = Snapshot::of(&*held.value());
    let (turn, changed, running) = turned(held.value(), goal, moment);
    let place = held.place();
    if !changed {
        return Taken {
            turn,
            place,
            running,
        };
    }
    let entry = entry_of(before, goal, moment, &turn, &*held.value());
    held.publish(entry);
    Taken {
        turn,
        place,
        running,
    }
}

/// What a turn did, whether it changed the library, and the number of the collection that runs then.
fn turned<S: Shelf>(
    depot: &mut Depot<S>,
    goal: Option<u64>,
    moment: u64,
) -> (Turn, bool, Option<u64>)
    ensures turned { IsTurned S.contents S.may_give S.texts S.faults depot.old goal moment 1000 result.0 depot.new }
    ensures same { result.1 ≡ false → IsSame S.contents S.faults depot.old depot.new }
    ensures other { result.1 ≡ true → IsOther S.contents S.faults depot.old depot.new }
    ensures running { result.2 ≡ running_number depot.new }
{
    let (turn, changed) = depot.tell_turn(goal, moment, OBJECTS);
    let running = depot.running();
    (turn, changed, running)
}

/// The change that a turn made.
fn entry_of<S: Shelf>(
    before: Snapshot<Depot<S>>,
    goal: Option<u64>,
    moment: u64,
    turn: &Turn,
    after: &Depot<S>,
) -> Snapshot<Change<Depot<S>>>
    ensures { IsEntryOf before.value (TookTurn goal moment 1000 turn.now) after.now result.value }
{
    let change = Change {
        before,
        made: Made::Turned(goal, OBJECTS, Snapshot::of(turn)),
        moment,
        after: Snapshot::of(after),
    };
    Snapshot::of(&change)
}
