//! A collection that is asked for.
ghost use Rattle.collection_turns.specs.Collecting.{StepsSo};
ghost use Rattle.collection_turns.specs.Turns.{CollectsBy, TakesTurns};

use crate::collectable::Collectable;
use depot::Turn;
use ids::LibId;
use library_state::{Clock, Refusal, Secret};
use worker_server::Collected;

/// The most objects of one turn.
const MOST: u64 = 1_000;

/// What follows a turn.
pub(crate) enum Step {
    /// Another turn; so many objects were removed till now.
    Goes(u64),
    /// Nothing.
    Ends(Collected),
}

/// Collects a library, in turns of at most 1,000 objects, each at a moment that the clock shows, until its collection ended or a
/// turn is refused. `NoLibrary` comes exactly where the library is another, and then `Denied` exactly where the secret isn't an
/// owner's; neither takes a turn, and the library is as it was. After any other refusal what the turns changed stands.
///
/// A collection that runs already is gone on with, and then ended. `Done` tells its number, and how many objects these turns
/// removed, up to 2^64 - 1.
pub fn collect<T: Collectable, C: Clock>(
    library: &mut T,
    lib: LibId,
    secret: &Option<Secret>,
    clock: &C,
) -> Collected
    ensures value { CollectsBy T.view T.notes T.Storage.contents T.Storage.may_give T.Storage.texts T.Storage.faults (C.shows clock.now)
        library.old lib secret.now result library.new }
{
    let depot = library.depot();
    if lib == depot.lib() {
        if depot.may_collect(secret) {
            return take_turns(library, clock);
        }
        return Collected::Refused(Refusal::Denied);
    }
    Collected::Refused(Refusal::NoLibrary)
}

/// Takes turns until one ended the collection or is refused.
fn take_turns<T: Collectable, C: Clock>(library: &mut T, clock: &C) -> Collected
    ensures value { TakesTurns T.view T.notes T.Storage.contents T.Storage.may_give T.Storage.texts T.Storage.faults (C.shows clock.now)
        library.old result library.new }
{
    let mut goal = None;
    let mut removed = 0;
    for _taken in 0..u64::MAX {
        match step_of(library.collect_turn(goal, clock.now(), MOST), removed) {
            Step::Goes(sum) => removed = sum,
            Step::Ends(told) => return told,
        }
        let depot = library.depot();
        goal = depot.running();
    }
    // No memory holds the marks of so many turns.
    Collected::Refused(Refusal::NoMemory)
}

/// What follows a turn, where so many objects were removed before it.
fn step_of(turn: Turn, removed: u64) -> Step
    ensures value { StepsSo turn removed result }
{
    match turn {
        Turn::Began(_) => Step::Goes(removed),
        Turn::Marked(_) => Step::Goes(removed),
        Turn::Swept(keys) => Step::Goes(removed.saturating_add(keys.len() as u64)),
        Turn::Ended(number) => Step::Ends(Collected::Done { number, removed }),
        Turn::Over(number) => Step::Ends(Collected::Done { number, removed }),
        Turn::Refused(why, _) => Step::Ends(Collected::Refused(why)),
    }
}
