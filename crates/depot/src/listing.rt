//! Which files and directories a kept commit needs.
ghost use Rattle.std.specs.Prelude.{◌≡◌, Some};
ghost use Rattle.ids.specs.Key.{Objects};
ghost use Rattle.library_rules.specs.Calls.{kept_alone, listed, said_by};
ghost use Rattle.library_rules.specs.LibraryState.{State, IsSound};
ghost use Rattle.object_store.specs.Shelf.{GivesNoMore};
ghost use Rattle.object_store.specs.StoreView.{Keeps, objects_of};
ghost use Rattle.depot.specs.Answering.{MayAnswer, ServesAct, ids_decided};
ghost use Rattle.depot.specs.DepotView.{FitsIn};
ghost use Rattle.depot.specs.ObjectCalls.{Counts, IsToldDamage, SaysOr};
ghost use Rattle.library_state.specs.declared.call.Act.TheVariants as act;

use crate::depot::Depot;
use crate::history::is_kept;
use crate::refusals::walk_refusal;
use ids::{Key, Kind, ObjId};
use library_state::{Install, Refusal, Reply};
use object_store::{Shelf, Store};
use std::alloc::Global;
use tree_walk::{Known, fs_ids};

impl<S: Shelf> Depot<S> {
    /// Lists the files and directories that one kept commit needs and another doesn't.
    pub(crate) fn list(&mut self, server: &ObjId, client: &Option<ObjId>) -> Reply
        ensures value { ServesAct S.contents S.may_give S.texts S.faults self.old (act.Ids server.now client.now) result self.new }
        ensures gives { GivesNoMore (S.may_give self.old.store.shelf) (S.may_give self.new.store.shelf) }
        ensures held { self.new.store.index ≡ self.old.store.index }
    {
        list_ids(
            self.parts.alloc,
            &mut self.parts.store,
            &mut self.known,
            self.parts.state.kept.slice(),
            server,
            client,
        )
    }
}

/// The ids of the files and directories that a kept commit needs and the client's doesn't, in ascending order. A client's
/// commit that isn't kept counts as none. What is known to be whole isn't walked for faults again.
fn list_ids<S: Shelf>(
    alloc: Global,
    store: &mut Store<S>,
    known: &mut Known,
    kept: &[Install],
    server: &ObjId,
    client: &Option<ObjId>,
) -> Reply
    requires known { FitsIn S.contents store.old known.old }
    ensures known { FitsIn S.contents store.old known.new }
    ensures value { (s : State) → objects_of S.contents store.old ≡ Some s.objects → s.state.kept ≡ kept.now → IsSound s → SaysOr s.objects (said_by (ids_decided s.state.kept server.now) (listed s server.now client.now)) result }
    ensures stays { Keeps S.contents store.old store.new }
    ensures cause { MayAnswer store.new.index (S.may_give store.new.shelf) (act.Ids server.now client.now) (ids_decided kept.now server.now) result }
    ensures damaged { (objects : Objects) → objects_of S.contents store.old ≡ Some objects → IsToldDamage objects result }
    ensures written { S.texts store.new.shelf ≡ S.texts store.old.shelf }
    ensures gives { GivesNoMore (S.may_give store.old.shelf) (S.may_give store.new.shelf) }
    ensures faults { Counts (S.faults store.old.shelf) (S.faults store.new.shelf) result }
{
    if !is_kept(kept, server) {
        return Reply::Refused(Refusal::NoObject(Key {
            kind: Kind::Commit,
            id: *server,
        }));
    }
    match fs_ids(alloc, store, known, *server, kept_alone(kept, client)) {
        Ok(ids) => Reply::Listed(ids),
        Err(fault) => Reply::Refused(walk_refusal(fault)),
    }
}

/// The client's commit, if it is kept.
fn kept_alone(kept: &[Install], client: &Option<ObjId>) -> Option<ObjId>
    ensures value { (s : State) → s.state.kept ≡ kept.now → result ≡ kept_alone s client.now }
{
    match client {
        Some(commit) => {
            if is_kept(kept, commit) {
                Some(*commit)
            } else {
                None
            }
        }
        None => None,
    }
}
