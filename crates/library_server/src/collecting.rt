//! A collection that is asked for.
ghost use Rattle.std.specs.Prelude.{[]};
ghost use Rattle.library_server.specs.Collecting.{CollectsOn};

use crate::counting::{Counted, OpenedLibrary, take_turn};
use collection_turns::Collectable;
use depot::{Depot, Turn};
use ids::LibId;
use library_state::{Clock, Secret};
use object_store::Shelf;
use worker_server::Collected;

/// Each turn that changed the library is counted.
impl<S: Shelf> Collectable for Counted<Depot<S>> {
    ghost use Rattle.library_server.specs.Collecting.{library_of};
    ghost use Rattle.library_server.specs.Counting.{IsCounted};

    type Storage = S;

    ghost view = { library_of };

    ghost notes = { IsCounted S.contents S.faults };

    fn depot(&self) -> &Depot<S> {
        &self.depot
    }

    fn collect_turn(&mut self, goal: Option<u64>, moment: u64, at_most: u64) -> Turn {
        take_turn(self, goal, moment, at_most)
    }
}

/// Collects a library, turn after turn, until its collection ended or a turn is refused. `NoLibrary` comes exactly where it is
/// not the one that is served, and then `Denied` where the secret is not an owner's.
///
/// A collection that runs already is gone on with, and then ended.
pub(crate) fn collect<S: Shelf, C: Clock>(
    library: &mut OpenedLibrary<S>,
    lib: LibId,
    secret: &Option<Secret>,
    clock: &C,
) -> Collected
    ensures value { CollectsOn S.contents S.may_give S.texts S.faults (C.shows clock.now) library.old lib secret.now result [] library.new }
{
    collection_turns::collect(library, lib, secret, clock)
}
