//! What a collection takes its turns of.
use depot::{Depot, Turn};
use object_store::Shelf;

/// A library of which turns of a collection are taken: alone, or with what is noted of each turn beside it.
pub trait Collectable {
    ghost use Rattle.std.specs.Prelude.{◌≡◌, ◌≤◌};
    ghost use Rattle.depot.specs.DepotView.{DepotView};
    ghost use Rattle.depot.specs.Story.{IsTurned};

    type Storage: Shelf;

    // The library, as contracts see it.
    ghost view: { Self → DepotView Self.Storage };

    // What is noted of a turn that leads from the one to the other.
    ghost notes: { Self → Self → Type 0 };

    /// The library. It takes no memory.
    fn depot(&self) -> &Depot<Self::Storage>
        ensures value { result.now ≡ view self.now };

    /// Takes one turn of a collection, as `Depot::turn_of_collection` does, and notes it.
    fn collect_turn(&mut self, goal: Option<u64>, moment: u64, at_most: u64) -> Turn
        requires some { 1 ≤ at_most }
        ensures turned { IsTurned Self.Storage.contents Self.Storage.may_give Self.Storage.texts Self.Storage.faults (view self.old) goal moment at_most result (view self.new) }
        ensures told { notes self.old self.new };
}

/// A library alone: nothing is noted of a turn.
impl<S: Shelf> Collectable for Depot<S> {
    ghost use Rattle.collection_turns.specs.Turns.{itself, notes_nothing};

    type Storage = S;

    ghost view = { itself };

    ghost notes = { notes_nothing };

    fn depot(&self) -> &Depot<S> {
        self
    }

    fn collect_turn(&mut self, goal: Option<u64>, moment: u64, at_most: u64) -> Turn {
        self.turn_of_collection(goal, moment, at_most)
    }
}
