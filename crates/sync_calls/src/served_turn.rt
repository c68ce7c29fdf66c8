//! One turn of a pass at one library: a call is answered, and a change is published with it.
ghost use Rattle.std.specs.Prelude.{◌≡◌, ◌<◌, IfOk, OnOk, OnErr, length};
ghost use Rattle.turnstile.specs.Rule.{most_turns};
ghost use Rattle.turnstile.specs.PassView.{IsPassOf, StandsFor, drawn_of, seen_of, told_of, view_of};
ghost use Rattle.turnstile.specs.HeldTurn.{IsHeld, IsSameTurn, pass_of, place_of, value_of};
ghost use Rattle.depot.specs.Story.{ComesBy};
ghost use Rattle.depot.specs.Unjudged.{judged};
ghost use Rattle.sync_calls.specs.FirstAsking.{Spares};
ghost use Rattle.sync_calls.specs.Operations.{Called, IsDone};
ghost use Rattle.sync_calls.specs.ServedTurn.{CatchesUp, IsEntryOf, IsSameShare};
ghost use Rattle.sync_calls.specs.Shown.{Knows, Shown, shown_in, shown_of};

use crate::hall::Room;
use crate::question::Question;
use depot::{Change, Depot, Made, Unjudged, judged};
use library_state::{Call, Reply};
use object_store::Shelf;
use std::snapshot::Snapshot;
use std::sync::Wait;
use turnstile::{Held, Pass, Spent, Turnstile};

/// The answer to a call, of which the bytes may still be to be judged, the place in the history at which it was asked, and how
/// long the history is then.
#[derive(Drop)]
pub(crate) struct Served {
    pub answer: Unjudged,
    pub place: u64,
    pub length: u64,
}

/// Takes a turn at the library of a room, behind its gate, and asks a question in it.
pub(crate) fn ask_behind_gate<S: Shelf, R: Wait, Q: Question<S>>(
    rt: &R,
    room: &Room<Turnstile<Depot<S>>, Depot<S>>,
    pass: &mut Pass<Depot<S>>,
    question: Q,
    moment: u64,
) -> Result<Served, Spent>
    requires ready { IsPassOf room.now.lock pass.old }
    requires known { Knows S.contents S.may_give S.texts S.faults (shown_of pass.old) }
    requires named { Q.fits question }
    ensures ready { IsPassOf room.now.lock pass.new }
    ensures known { Knows S.contents S.may_give S.texts S.faults (shown_of pass.new) }
    ensures same { IsSameShare pass.old pass.new }
    ensures told { IfOk result (λ served. (done : IsDone S.contents S.may_give S.texts S.faults (shown_of pass.old) served.place (Called (Q.call question) moment (judged served.answer)) (shown_of pass.new))
        × Spares (Q.too_much question) (judged served.answer) done) }
    ensures size { IfOk result (λ served. served.length ≡ length (seen_of pass.new)) }
    ensures err { OnErr result ((shown_of pass.new ≡ shown_of pass.old) × (drawn_of pass.new ≡ most_turns)) }
    ensures unspent { OnOk result (drawn_of pass.new < most_turns) }
    ensures drawn { drawn_of pass.old ≡ most_turns → drawn_of pass.new ≡ most_turns }
{
    let gate = room.gate.lock(rt);
    let asked = ask_one(rt, &room.lock, pass, question, moment);
    drop(gate);
    asked
}

/// Takes a turn, and asks a question in it.
fn ask_one<S: Shelf, R: Wait, Q: Question<S>>(
    rt: &R,
    lock: &Turnstile<Depot<S>>,
    pass: &mut Pass<Depot<S>>,
    question: Q,
    moment: u64,
) -> Result<Served, Spent>
    requires ready { IsPassOf lock.now pass.old }
    requires known { Knows S.contents S.may_give S.texts S.faults (shown_of pass.old) }
    requires named { Q.fits question }
    ensures ready { IsPassOf lock.now pass.new }
    ensures known { Knows S.contents S.may_give S.texts S.faults (shown_of pass.new) }
    ensures same { IsSameShare pass.old pass.new }
    ensures told { IfOk result (λ served. (done : IsDone S.contents S.may_give S.texts S.faults (shown_of pass.old) served.place (Called (Q.call question) moment (judged served.answer)) (shown_of pass.new))
        × Spares (Q.too_much question) (judged served.answer) done) }
    ensures size { IfOk result (λ served. served.length ≡ length (seen_of pass.new)) }
    ensures err { OnErr result ((shown_of pass.new ≡ shown_of pass.old) × (drawn_of pass.new ≡ most_turns)) }
    ensures unspent { OnOk result (drawn_of pass.new < most_turns) }
    ensures drawn { drawn_of pass.old ≡ most_turns → drawn_of pass.new ≡ most_turns }
{
    let mut held = pass.turn(rt, lock)?;
    let served = serve(&mut held, question, moment);
    held.done();
    Ok(served)
}

/// Asks a question in a turn. Where it changed the library the change is published, and else nothing is.
fn serve<S: Shelf, Q: Question<S>>(
    held: &mut Held<'_, Depot<S>>,
    question: Q,
    moment: u64,
) -> Served
    requires ready { IsHeld held.old }
    requires fits { told_of (pass_of held.old) ≡ 0 }
    requires stands { StandsFor (ComesBy S.contents S.may_give S.texts S.faults) (view_of (pass_of held.old)) (value_of held.old) }
    requires named { Q.fits question }
    ensures ready { IsHeld held.new × IsSameTurn held.old held.new }
    ensures stands { StandsFor (ComesBy S.contents S.may_give S.texts S.faults) (view_of (pass_of held.new)) (value_of held.new) }
    ensures told { (u : Shown S) → CatchesUp u (shown_in (view_of (pass_of held.old)))
        → (done : IsDone S.contents S.may_give S.texts S.faults u result.place (Called (Q.call question) moment (judged result.answer)) (shown_in (view_of (pass_of held.new))))
        × Spares (Q.too_much question) (judged result.answer) done }
    ensures size { result.length ≡ length (seen_of (pass_of held.new)) }
    ensures known { (u : Shown S) → CatchesUp u (shown_in (view_of (pass_of held.old)))
        → Knows S.contents S.may_give S.texts S.faults u → Knows S.contents S.may_give S.texts S.faults (shown_in (view_of (pass_of held.new))) }
    ensures same { IsSameShare (pass_of held.old) (pass_of held.new) × (drawn_of (pass_of held.new) ≡ drawn_of (pass_of held.old)) }
{
    let before = Snapshot::of(&*held.value());
    let asked = question.asked();
    let (answer, changed) = question.tell(held.value(), moment);
    let place = held.place();
    if !changed {
        return Served {
            answer,
            place,
            length: place,
        };
    }
    let reply = judged(answer);
    let entry = entry_of(before, asked, moment, &reply, &*held.value());
    held.publish(entry);
    Served {
        answer: Unjudged::Told(reply),
        place,
        length: held.place(),
    }
}

/// The change that a call made.
fn entry_of<S: Shelf>(
    before: Snapshot<Depot<S>>,
    asked: Snapshot<Call>,
    moment: u64,
    reply: &Reply,
    after: &Depot<S>,
) -> Snapshot<Change<Depot<S>>>
    ensures { IsEntryOf before.value (Called asked.value moment reply.now) after.now result.value }
{
    let change = Change {
        before,
        made: Made::Asked(asked, Snapshot::of(reply)),
        moment,
        after: Snapshot::of(after),
    };
    Snapshot::of(&change)
}
