//! A library that is kept.
ghost use Rattle.std.specs.Prelude.{◌≡◌, ◌<◌};
ghost use Rattle.library_rules.specs.LibraryState.{head_of};

use crate::collection::Collection;
use crate::history::head_of;
use ids::{LibId, ObjId};
use library_state::LibState;
use object_store::{Shelf, Store};
use std::alloc::Global;
use std::marker::Model;
use tree_walk::Known;

/// A library that is kept: its objects in a store, and the rest of its state, of which the shelf's status slot holds the
/// text. Where the shelf tells its contents, contracts see the state of a library (`state_of`), which is always sound.
///
/// Objects are put before the text that names them. Where a write of the text fails, the slot has the present state's text
/// or that of the state that the refused call was to make. The depot is unsettled then: before it writes another text it
/// writes the present one anew.
///
/// It keeps which directories and files it found whole, so that the check of a pushed commit reads what wasn't found whole
/// before, and a merge counts by them what it doesn't open. No clause says how much is read: what is kept is no part of what
/// contracts see, but of the invariant. Where there is no memory for it less is kept.
#[derive(Drop)]
pub struct Depot<S: Shelf> {
    pub(crate) parts: Parts<S>,
    /// What was found whole. It is to be forgotten, or kept for what is marked, before an object leaves the store.
    pub(crate) known: Known,
    /// The collection that runs, if one does. It lives as long as the process.
    pub(crate) running: Option<Collection>,
}

/// What a depot holds. Its methods are the steps that write.
#[derive(Drop)]
pub(crate) struct Parts<S: Shelf> {
    pub alloc: Global,
    pub store: Store<S>,
    pub state: LibState,
    /// Whether the last write of the state text failed.
    pub unsettled: bool,
}

impl<S: Shelf> Model for Depot<S> {
    ghost use Rattle.depot.specs.DepotView.{DepotView, IsKept, depot_code, marked_of, running_of};

    ghost Value = { DepotView S };

    ghost coded = { depot_code S.code };

    ghost view = { λ a. record { store = a.parts.store; state = a.parts.state; unsettled = a.parts.unsettled; running = running_of a.running; marked = marked_of a.running } };

    ghost invariant = { λ a. IsKept S.contents S.faults (record { store = a.parts.store; state = a.parts.state; unsettled = a.parts.unsettled; running = running_of a.running; marked = marked_of a.running }) a.known a.running };
}

impl<S: Shelf> Depot<S> {
    ghost use Rattle.depot.specs.DepotView.{IsGood};

    /// The commit that the library stands at. It takes no memory.
    pub fn head(&self) -> ObjId
        ensures value { result ≡ head_of self.now.state.kept }
    {
        head_of(self.parts.state.kept.slice())
    }

    /// How often the library was opened. It takes no memory.
    pub fn opening(&self) -> u64
        ensures value { result ≡ self.now.state.opening }
    {
        self.parts.state.opening
    }

    /// How many collections were begun. Where that is `LAST`, no other begins. It takes no memory.
    pub fn collection(&self) -> u64
        ensures value { result ≡ self.now.state.collection }
    {
        self.parts.state.collection
    }

    /// The library's id. It takes no memory.
    pub fn lib(&self) -> LibId
        ensures value { result ≡ self.now.state.lib }
    {
        self.parts.state.lib
    }

    /// The store, with the shelf.
    pub fn close(self) -> Store<S>
        ensures value { result ≡ self.store }
        ensures good { IsGood S.contents S.faults self }
    {
        self.parts.store
    }
}
