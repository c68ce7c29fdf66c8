//! The merge base of a pushed commit.
ghost use Rattle.library_rules.specs.declared.limits.TheConstants.{MAX_STEPS};
ghost use Rattle.std.specs.Prelude.{◌≡◌, Some};
ghost use Rattle.ids.specs.Key.{Objects};
ghost use Rattle.library_rules.specs.LibraryState.{State};
ghost use Rattle.library_rules.specs.MergeBase.{base_from, base_of};
ghost use Rattle.object_store.specs.StoreView.{objects_of};
ghost use Rattle.tree_walk.specs.Reading.{Reads};
ghost use Rattle.depot.specs.UpdateBase.{FindsSo, LooksSo};

use crate::history::is_kept;
use ids::ObjId;
use library_rules::MAX_STEPS;
use library_state::Install;
use object_store::{Shelf, Store};
use std::alloc::Global;
use tree_walk::{WalkFault, commit_at};

/// What the search for a merge base ends with.
#[derive(Drop)]
pub(crate) enum Found {
    /// This kept commit.
    At(ObjId),
    /// No kept commit in so many steps.
    Unrelated(u64),
}

/// What the search meets at one commit.
#[derive(Drop)]
pub(crate) enum Look {
    /// It is kept.
    Kept,
    /// It isn't, and this is its first parent.
    Parent(ObjId),
    /// It isn't, and it has no parent.
    Last,
}

/// The first kept commit from the pushed one along first parents, at most MAX_STEPS steps away.
pub(crate) fn find_base<S: Shelf>(
    alloc: Global,
    store: &mut Store<S>,
    kept: &[Install],
    pushed: ObjId,
) -> Result<Found, WalkFault>
    ensures value { (s : State) → objects_of S.contents store.old ≡ Some s.objects → s.state.kept ≡ kept.now → FindsSo s.objects (base_of s pushed) result }
    ensures stays { Reads S.contents S.may_give S.texts S.faults store.old store.new result }
{
    let mut id = pushed;
    for steps in 0..MAX_STEPS {
        let seen = match look_at(alloc, store, kept, id) {
            Ok(seen) => seen,
            Err(fault) => return Err(fault),
        };
        match seen {
            Look::Kept => return Ok(Found::At(id)),
            Look::Parent(parent) => id = parent,
            Look::Last => return Ok(Found::Unrelated(steps)),
        }
    }
    find_last(alloc, store, kept, id)
}

/// The end of the search, after all its steps.
fn find_last<S: Shelf>(
    alloc: Global,
    store: &mut Store<S>,
    kept: &[Install],
    id: ObjId,
) -> Result<Found, WalkFault>
    ensures value { (s : State) → objects_of S.contents store.old ≡ Some s.objects → s.state.kept ≡ kept.now → FindsSo s.objects (base_from s 0 MAX_STEPS id) result }
    ensures stays { Reads S.contents S.may_give S.texts S.faults store.old store.new result }
{
    let seen = match look_at(alloc, store, kept, id) {
        Ok(seen) => seen,
        Err(fault) => return Err(fault),
    };
    match seen {
        Look::Kept => Ok(Found::At(id)),
        Look::Parent(_) => Ok(Found::Unrelated(MAX_STEPS)),
        Look::Last => Ok(Found::Unrelated(MAX_STEPS)),
    }
}

/// Whether a commit is kept, and else its first parent.
fn look_at<S: Shelf>(
    alloc: Global,
    store: &mut Store<S>,
    kept: &[Install],
    id: ObjId,
) -> Result<Look, WalkFault>
    ensures value { (objects : Objects) → objects_of S.contents store.old ≡ Some objects → LooksSo objects kept.now id result }
    ensures stays { Reads S.contents S.may_give S.texts S.faults store.old store.new result }
{
    if is_kept(kept, &id) {
        return Ok(Look::Kept);
    }
    let commit = match commit_at(alloc, store, id) {
        Ok(commit) => commit,
        Err(fault) => return Err(fault),
    };
    match commit.parent {
        Some(parent) => Ok(Look::Parent(parent)),
        None => Ok(Look::Last),
    }
}
