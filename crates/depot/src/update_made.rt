//! The commit that a merge makes, and where its text is stored already.
ghost use Rattle.std.specs.Prelude.{◌≡◌, ◌≢◌, ℕ, [], codes, false, IfErr, IfOk, OnOk, Some};
ghost use Rattle.std.specs.Str.{bytes_eq};
ghost use Rattle.ids.specs.Key.{Objects};
ghost use Rattle.commit_objects.specs.Made.{made};
ghost use Rattle.library_rules.specs.LibraryState.{head_of};
ghost use Rattle.object_graph.specs.Objects.{is_nil};
ghost use Rattle.object_store.specs.StoreView.{objects_of};
ghost use Rattle.tree_merge.specs.TreeBuilding.{AreNamed};
ghost use Rattle.depot.specs.Answering.{MayRefuseUpdate};
ghost use Rattle.depot.specs.DepotView.{library};
ghost use Rattle.depot.specs.ObjectCalls.{IsToldDamageOf};
ghost use Rattle.depot.specs.UpdateBase.{ReadsOnly};
ghost use Rattle.depot.specs.UpdateMerge.{PlansMade, StoredSo, commit_over};
ghost use Rattle.depot.specs.Plan.{HasNames};

use crate::history::head_of;
use crate::plan::Plan;
use crate::refusals::store_refusal;
use commit_objects::Commit;
use ids::{Key, Kind, ObjId, Text};
use library_state::{LibState, Refusal};
use object_store::{Shelf, Store};
use std::alloc::{AllocError, Global};
use tree_merge::Merged;

/// The plan of what was merged: a commit of its tree over the head and the pushed commit. Nothing is stored yet.
pub(crate) fn plan_merged<S: Shelf>(
    alloc: Global,
    store: &mut Store<S>,
    state: &LibState,
    user: &Text,
    pushed: ObjId,
    moment: u64,
    merged: Merged,
) -> Result<Plan, Refusal>
    requires some_kept { state.now.kept ≢ [] }
    requires own_names { AreNamed merged.made }
    ensures value { (objects : Objects) (count : ℕ) → objects_of S.contents store.old ≡ Some objects
        → PlansMade objects merged (commit_over (library state.now count objects) moment user.now pushed merged) result }
    ensures named { IfOk result HasNames }
    ensures cause { IfErr result (MayRefuseUpdate store.new.index (S.may_give store.new.shelf)) }
    ensures damaged { (objects : Objects) → objects_of S.contents store.old ≡ Some objects → IfErr result (IsToldDamageOf objects) }
    ensures stays { ReadsOnly S.contents S.may_give S.texts S.faults store.old store.new result }
{
    let Merged {
        root,
        made,
        conflicts,
    } = merged;
    let conflict = !conflicts.is_empty();
    let commit = match made_commit(alloc, state, root, pushed, user, moment, conflict) {
        Ok(commit) => commit,
        Err(_) => return Err(Refusal::NoMemory),
    };
    let text = match commit.write(alloc) {
        Ok(text) => text,
        Err(_) => return Err(Refusal::NoMemory),
    };
    match is_stored(store, &commit.id, text.slice()) {
        Ok(true) => Ok(Plan {
            head: commit.id,
            dirs: made,
            text: None,
        }),
        Ok(false) => Ok(Plan {
            head: commit.id,
            dirs: made,
            text: Some(text),
        }),
        Err(why) => Err(why),
    }
}

/// The commit of a merge: its parents are the head and the pushed commit, in this order.
fn made_commit(
    alloc: Global,
    state: &LibState,
    root: ObjId,
    pushed: ObjId,
    user: &Text,
    moment: u64,
    conflict: bool,
) -> Result<Commit, AllocError>
    requires some_kept { state.now.kept ≢ [] }
    ensures value { IfOk result (λ commit. commit
        ≡ made state.now.lib root (Some (head_of state.now.kept)) (Some pushed) user.now (codes "Auto merge by system") moment conflict) }
{
    let description = Text::copy(alloc, "Auto merge by system")?;
    let head = head_of(state.kept.slice());
    Commit::make(
        alloc,
        state.lib,
        root,
        Some(head),
        Some(pushed),
        user,
        &description,
        moment,
        conflict,
    )
}

/// Whether the text is stored as a commit of this id.
fn is_stored<S: Shelf>(store: &mut Store<S>, id: &ObjId, text: &[u8]) -> Result<bool, Refusal>
    ensures value { (objects : Objects) → objects_of S.contents store.old ≡ Some objects → StoredSo objects id.now text.now result }
    ensures not_zeros { OnOk result (is_nil id.now ≡ false) }
    ensures cause { IfErr result (MayRefuseUpdate store.new.index (S.may_give store.new.shelf)) }
    ensures damaged { (objects : Objects) → objects_of S.contents store.old ≡ Some objects → IfErr result (IsToldDamageOf objects) }
    ensures stays { ReadsOnly S.contents S.may_give S.texts S.faults store.old store.new result }
{
    if is_zeros(id) {
        return Err(Refusal::Taken(*id));
    }
    let key = Key {
        kind: Kind::Commit,
        id: *id,
    };
    match store.get(key) {
        Ok(Some(stored)) => {
            if is_same(stored.slice(), text) {
                Ok(true)
            } else {
                Err(Refusal::Taken(*id))
            }
        }
        Ok(None) => Ok(false),
        Err(fault) => Err(store_refusal(fault)),
    }
}

/// Whether an id is forty zeros.
fn is_zeros(id: &ObjId) -> bool
    ensures value { result ≡ is_nil id.now }
{
    *id == ObjId::NIL
}

/// Whether both are the same bytes.
fn is_same(left: &[u8], right: &[u8]) -> bool
    ensures value { result ≡ bytes_eq left.now right.now }
{
    left == right
}
