//! The plan of a merge: a pushed commit and the head, merged over their base.
ghost use Rattle.std.specs.Prelude.{◌≡◌, ◌≢◌, ℕ, [], IfErr, IfOk, Some};
ghost use Rattle.ids.specs.Key.{Objects};
ghost use Rattle.library_rules.specs.LibraryState.{head_of};
ghost use Rattle.object_store.specs.StoreView.{objects_of};
ghost use Rattle.tree_walk.specs.Reading.{Reads};
ghost use Rattle.depot.specs.Answering.{MayRefuseUpdate};
ghost use Rattle.depot.specs.DepotView.{FitsIn, library};
ghost use Rattle.depot.specs.ObjectCalls.{IsToldDamageOf};
ghost use Rattle.depot.specs.UpdateBase.{ReadsOnly};
ghost use Rattle.depot.specs.UpdateMerge.{AreComplete, RootSo, RootsSo};
ghost use Rattle.depot.specs.Plan.{HasNames};
ghost use Rattle.depot.specs.UpdatePlan.{MergesSo};

use crate::history::head_of;
use crate::plan::Plan;
use crate::refusals::{merge_refusal, walk_refusal};
use crate::update_made::plan_merged;
use ids::{ObjId, Text};
use library_state::{LibState, Refusal};
use object_store::{Shelf, Store};
use std::alloc::Global;
use tree_merge::{MergeFault, merge};
use tree_walk::{Known, WalkFault, commit_at};

/// The roots of the merge base, the head and the pushed commit.
#[derive(Drop)]
pub(crate) struct Roots {
    pub base: ObjId,
    pub head: ObjId,
    pub pushed: ObjId,
}

/// The plan of an update that merges a pushed commit into the head, over a merge base, by what is known. Nothing is stored yet.
///
/// Refused as the merge is, and as taken where the made commit can't be stored under its id.
pub(crate) fn plan_merge<S: Shelf>(
    alloc: Global,
    store: &mut Store<S>,
    known: &mut Known,
    state: &LibState,
    user: &Text,
    base: ObjId,
    pushed: ObjId,
    moment: u64,
) -> Result<Plan, Refusal>
    requires known { FitsIn S.contents store.old known.old }
    requires complete { (objects : Objects) → objects_of S.contents store.old ≡ Some objects → AreComplete objects base (head_of state.now.kept) pushed }
    requires some_kept { state.now.kept ≢ [] }
    ensures known { FitsIn S.contents store.old known.new }
    ensures value { (objects : Objects) (count : ℕ) → objects_of S.contents store.old ≡ Some objects
        → MergesSo (library state.now count objects) moment user.now base pushed result }
    ensures named { IfOk result HasNames }
    ensures cause { IfErr result (MayRefuseUpdate store.new.index (S.may_give store.new.shelf)) }
    ensures damaged { (objects : Objects) → objects_of S.contents store.old ≡ Some objects → IfErr result (IsToldDamageOf objects) }
    ensures stays { ReadsOnly S.contents S.may_give S.texts S.faults store.old store.new result }
{
    let head = head_of(state.kept.slice());
    let roots = match read_roots(alloc, store, base, head, pushed) {
        Ok(roots) => roots,
        Err(fault) => return Err(walk_refusal(fault)),
    };
    let merged = match merge(alloc, store, known, roots.base, roots.head, roots.pushed) {
        Ok(merged) => merged,
        Err(fault) => return Err(merge_refusal(fault)),
    };
    plan_merged(alloc, store, state, user, pushed, moment, merged)
}

/// The roots of three complete commits.
fn read_roots<S: Shelf>(
    alloc: Global,
    store: &mut Store<S>,
    base: ObjId,
    head: ObjId,
    pushed: ObjId,
) -> Result<Roots, WalkFault>
    ensures value { (objects : Objects) → objects_of S.contents store.old ≡ Some objects → AreComplete objects base head pushed
        → RootsSo objects base head pushed result }
    ensures stays { Reads S.contents S.may_give S.texts S.faults store.old store.new result }
{
    let base = match root_at(alloc, store, base) {
        Ok(base) => base,
        Err(fault) => return Err(fault),
    };
    let head = match root_at(alloc, store, head) {
        Ok(head) => head,
        Err(fault) => return Err(fault),
    };
    let pushed = match root_at(alloc, store, pushed) {
        Ok(pushed) => pushed,
        Err(fault) => return Err(fault),
    };
    Ok(Roots { base, head, pushed })
}

/// The root of a commit.
fn root_at<S: Shelf>(alloc: Global, store: &mut Store<S>, id: ObjId) -> Result<ObjId, WalkFault>
    ensures value { (objects : Objects) → objects_of S.contents store.old ≡ Some objects → RootSo objects id result }
    ensures stays { Reads S.contents S.may_give S.texts S.faults store.old store.new result }
{
    match commit_at(alloc, store, id) {
        Ok(commit) => Ok(commit.root),
        Err(fault) => Err(fault),
    }
}
