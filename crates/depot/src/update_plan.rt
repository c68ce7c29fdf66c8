//! What an update is to do, found by reading alone.
ghost use Rattle.std.specs.Prelude.{◌≡◌, ◌<◌, ℕ, true, IfErr, IfOk, Some, length};
ghost use Rattle.ids.specs.Key.{Objects};
ghost use Rattle.library_rules.specs.Calls.{base_due, complete_due, due, update_due};
ghost use Rattle.library_rules.specs.LibraryState.{is_kept};
ghost use Rattle.library_rules.specs.MergeBase.{base_of};
ghost use Rattle.library_state.specs.declared.call.Act.TheVariants as act;
ghost use Rattle.library_state.specs.declared.call.Call.{Call};
ghost use Rattle.object_graph.specs.Traversal.{walk_commit};
ghost use Rattle.object_store.specs.StoreView.{objects_of};
ghost use Rattle.depot.specs.Answering.{MayAsk, MayRefuseUpdate};
ghost use Rattle.depot.specs.DepotView.{FitsIn, library};
ghost use Rattle.depot.specs.ObjectCalls.{IsToldDamageOf};
ghost use Rattle.depot.specs.UpdateBase.{ReadsOnly};
ghost use Rattle.depot.specs.Plan.{HasNames};
ghost use Rattle.depot.specs.UpdatePlan.{DecidesCall, DecidesSo, PlansDue, PlansOver, PlansSo};

use crate::history::{is_head, is_kept};
use crate::plan::Plan;
use crate::refusals::walk_refusal;
use crate::update_base::{Found, find_base};
use crate::update_merge::plan_merge;
use ids::{KeyTable, ObjId, Text};
use library_state::{LibState, Refusal, Token};
use object_store::{Shelf, Store};
use std::alloc::Global;
use tree_walk::{Known, check};

/// The plan of an update by the token at a place, which may write.
pub(crate) fn plan_of<S: Shelf>(
    alloc: Global,
    store: &mut Store<S>,
    known: &mut Known,
    state: &LibState,
    place: usize,
    pushed: ObjId,
    moment: u64,
) -> Result<Option<Plan>, Refusal>
    requires within { place < length state.now.tokens }
    requires ready { PlansOver S.contents store.old state.now known.old }
    ensures known { FitsIn S.contents store.old known.new }
    ensures value { (objects : Objects) (count : ℕ) → objects_of S.contents store.old ≡ Some objects
        → (call : Call) → MayAsk state.now.tokens call.secret call.act place → call.act ≡ act.Update pushed
        → PlansSo (library state.now count objects) moment pushed (due (library state.now count objects) call) result }
    ensures any { (call : Call) → MayAsk state.now.tokens call.secret call.act place → call.act ≡ act.Update pushed
        → DecidesCall state.now call pushed store.new.index (S.may_give store.new.shelf) result }
    ensures damaged { (objects : Objects) → objects_of S.contents store.old ≡ Some objects → IfErr result (IsToldDamageOf objects) }
    ensures stays { ReadsOnly S.contents S.may_give S.texts S.faults store.old store.new result }
{
    let token = &state.tokens.slice()[place];
    plan_update(alloc, store, known, state, token, pushed, moment)
}

/// The plan of an update by a token, and none where the pushed commit is kept already.
///
/// Refused, in this order: as stale, where a collection began since the token's last upload check; as the search for the
/// merge base is; by the first fault of the pushed commit; as the merge is.
fn plan_update<S: Shelf>(
    alloc: Global,
    store: &mut Store<S>,
    known: &mut Known,
    state: &LibState,
    token: &Token,
    pushed: ObjId,
    moment: u64,
) -> Result<Option<Plan>, Refusal>
    requires ready { PlansOver S.contents store.old state.now known.old }
    ensures known { FitsIn S.contents store.old known.new }
    ensures value { (objects : Objects) (count : ℕ) → objects_of S.contents store.old ≡ Some objects
        → PlansSo (library state.now count objects) moment pushed (update_due (library state.now count objects) token.now pushed) result }
    ensures any { DecidesSo state.now token.now pushed store.new.index (S.may_give store.new.shelf) result }
    ensures damaged { (objects : Objects) → objects_of S.contents store.old ≡ Some objects → IfErr result (IsToldDamageOf objects) }
    ensures stays { ReadsOnly S.contents S.may_give S.texts S.faults store.old store.new result }
{
    if is_kept(state.kept.slice(), &pushed) {
        return Ok(None);
    }
    if token.last < state.collection {
        return Err(Refusal::Stale {
            last: token.last,
            now: state.collection,
        });
    }
    match plan_unknown(alloc, store, known, state, &token.user, pushed, moment) {
        Ok(plan) => Ok(Some(plan)),
        Err(why) => Err(why),
    }
}

/// The plan of an update of a commit that isn't kept.
fn plan_unknown<S: Shelf>(
    alloc: Global,
    store: &mut Store<S>,
    known: &mut Known,
    state: &LibState,
    user: &Text,
    pushed: ObjId,
    moment: u64,
) -> Result<Plan, Refusal>
    requires ready { PlansOver S.contents store.old state.now known.old }
    ensures known { FitsIn S.contents store.old known.new }
    ensures value { (objects : Objects) (count : ℕ) → objects_of S.contents store.old ≡ Some objects
        → PlansDue (library state.now count objects) moment
        (base_due (library state.now count objects) user.now pushed (base_of (library state.now count objects) pushed)) result }
    ensures named { IfOk result HasNames }
    ensures cause { IfErr result (MayRefuseUpdate store.new.index (S.may_give store.new.shelf)) }
    ensures damaged { (objects : Objects) → objects_of S.contents store.old ≡ Some objects → IfErr result (IsToldDamageOf objects) }
    ensures stays { ReadsOnly S.contents S.may_give S.texts S.faults store.old store.new result }
{
    let found = match find_base(alloc, store, state.kept.slice(), pushed) {
        Ok(found) => found,
        Err(fault) => return Err(walk_refusal(fault)),
    };
    let base = match found {
        Found::At(base) => base,
        Found::Unrelated(steps) => return Err(Refusal::Unrelated(steps)),
    };
    plan_based(alloc, store, known, state, user, base, pushed, moment)
}

/// The plan of an update over a merge base. What was found whole and fits at its place the check doesn't read again, and what is
/// settled a merge doesn't open.
fn plan_based<S: Shelf>(
    alloc: Global,
    store: &mut Store<S>,
    known: &mut Known,
    state: &LibState,
    user: &Text,
    base: ObjId,
    pushed: ObjId,
    moment: u64,
) -> Result<Plan, Refusal>
    requires ready { PlansOver S.contents store.old state.now known.old }
    requires based { (objects : Objects) → objects_of S.contents store.old ≡ Some objects → is_kept state.now.kept base ≡ true }
    ensures known { FitsIn S.contents store.old known.new }
    ensures value { (objects : Objects) (count : ℕ) → objects_of S.contents store.old ≡ Some objects
        → PlansDue (library state.now count objects) moment (complete_due (library state.now count objects) user.now base pushed (walk_commit objects pushed).fault) result }
    ensures named { IfOk result HasNames }
    ensures cause { IfErr result (MayRefuseUpdate store.new.index (S.may_give store.new.shelf)) }
    ensures damaged { (objects : Objects) → objects_of S.contents store.old ≡ Some objects → IfErr result (IsToldDamageOf objects) }
    ensures stays { ReadsOnly S.contents S.may_give S.texts S.faults store.old store.new result }
{
    match check(alloc, store, known, pushed) {
        Ok(()) => {}
        Err(fault) => return Err(walk_refusal(fault)),
    }
    if is_head(state.kept.slice(), &base) {
        return Ok(Plan {
            head: pushed,
            dirs: KeyTable::new(alloc),
            text: None,
        });
    }
    plan_merge(alloc, store, known, state, user, base, pushed, moment)
}
