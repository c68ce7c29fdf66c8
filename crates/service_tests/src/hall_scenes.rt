//! Scenes at a hall over one library in memory, by one thread through two passes. Each ends as the hall is closed, too early and then with
//! both passes: one function makes all of them, since what a hall costs to prove goes by who holds it.
ghost use Rattle.sync_calls.specs.Hall.{AreReady};

use crate::hall::{closed_late, two_passes};
use crate::hall_connection_tests::is_replied;
use crate::hall_own_tests::is_put_and_given;
use crate::hall_tests::{are_turned_away, is_first, leaves};
use crate::library::library_on;
use object_store::Shelf;
use std::alloc::{AllocError, Global};
use std::sync::Wait;
use sync_calls::{Hall, HallPass};

/// What happens at the hall.
#[derive(Clone, Copy)]
pub(crate) enum Scene {
    /// A put, and looks.
    First,
    /// Calls without a secret.
    TurnedAway,
    /// Collections through both passes.
    Collections,
    /// A call that is handed over, and the first of several.
    HandedOver,
    /// A connection.
    Connection,
}

/// Whether a scene goes as it should.
fn goes<S: Shelf, R: Wait>(
    rt: &R,
    alloc: Global,
    hall: &Hall<S>,
    first: &mut HallPass<S>,
    second: &mut HallPass<S>,
    scene: Scene,
) -> Result<bool, AllocError>
    requires first { AreReady S.contents S.may_give S.texts S.faults hall.now first.old }
    requires second { AreReady S.contents S.may_give S.texts S.faults hall.now second.old }
    ensures first { AreReady S.contents S.may_give S.texts S.faults hall.now first.new }
    ensures second { AreReady S.contents S.may_give S.texts S.faults hall.now second.new }
{
    match scene {
        Scene::First => is_first(rt, alloc, hall, first),
        Scene::TurnedAway => Ok(are_turned_away(rt, hall, first)),
        Scene::Collections => leaves(rt, alloc, hall, first, second),
        Scene::HandedOver => is_put_and_given(rt, alloc, hall, first),
        Scene::Connection => is_replied(rt, alloc, hall, first),
    }
}

/// Whether a scene goes as it should at a new hall, which is told to have two passes as it is closed with one, and gives its library back
/// with both.
pub(crate) fn shows<R: Wait>(rt: &R, alloc: Global, scene: Scene) -> Result<bool, AllocError> {
    let depot = library_on(alloc, &[])?;
    let (hall, mut first, mut second) = two_passes(alloc, depot)?;
    let shown = goes(rt, alloc, &hall, &mut first, &mut second, scene)?;
    let closed = closed_late(hall, first, second);
    Ok(shown && closed == Some((2, 1)))
}
