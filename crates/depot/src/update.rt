//! An update: a pushed commit is taken in, and the library stands at it, or at its merge with what it stood at.
ghost use Rattle.std.specs.Prelude.{ℕ, List, Option};
ghost use Rattle.library_state.specs.declared.call.Act.TheVariants as act;
ghost use Rattle.depot.specs.Answering.{MayAsk, ServesAt};
ghost use Rattle.depot.specs.DepotView.{IsKept, depot_of};
ghost use Rattle.depot.specs.Giving.{GivesBy, IsOfUpdate};
ghost use Rattle.depot.specs.Held.{HoldsStill};

use crate::collection::Collection;
use crate::depot::{Depot, Parts};
use crate::history::head_of;
use crate::refusals::store_refusal;
use crate::shields::{prepare, shield, stale_unless_stored};
use crate::update_plan::plan_of;
use ids::ObjId;
use library_state::{Install, Reply};
use object_store::Shelf;
use tree_walk::Known;

impl<S: Shelf> Depot<S> {
    /// Takes in a commit that the token at a place pushes.
    ///
    /// A commit that is kept changes nothing. Else the library stands at the pushed commit where its merge base is the head,
    /// and at a made commit that merges the two where it isn't. After a refusal the library is as it was, but that some of
    /// the objects that a merge made may be stored.
    pub(crate) fn update(&mut self, place: usize, pushed: ObjId, moment: u64) -> Reply
        requires who { (secret : Option (List ℕ)) × MayAsk self.old.state.tokens secret (act.Update pushed) place }
        ensures value { ServesAt S.contents S.may_give S.texts S.faults self.old place (act.Update pushed) moment result self.new }
        ensures gives { GivesBy (IsOfUpdate self.old.state.lib) (S.may_give self.old.store.shelf) (S.may_give self.new.store.shelf) }
        ensures held { HoldsStill self.old.store.index self.new.store.index }
    {
        self.parts
            .update_library(&mut self.known, &mut self.running, place, pushed, moment)
    }
}

impl<S: Shelf> Parts<S> {
    /// The same, of the parts, by what is known.
    fn update_library(
        &mut self,
        known: &mut Known,
        running: &mut Option<Collection>,
        place: usize,
        pushed: ObjId,
        moment: u64,
    ) -> Reply
        requires who { (secret : Option (List ℕ)) × MayAsk self.old.state.tokens secret (act.Update pushed) place }
        requires good { IsKept S.contents S.faults (depot_of self.old.store self.old.state self.old.unsettled running.old) known.old running.old }
        ensures value { ServesAt S.contents S.may_give S.texts S.faults (depot_of self.old.store self.old.state self.old.unsettled running.old)
            place (act.Update pushed) moment result (depot_of self.new.store self.new.state self.new.unsettled running.new) }
        ensures gives { GivesBy (IsOfUpdate self.old.state.lib) (S.may_give self.old.store.shelf) (S.may_give self.new.store.shelf) }
        ensures held { HoldsStill self.old.store.index self.new.store.index }
        ensures stands { IsKept S.contents S.faults (depot_of self.new.store self.new.state self.new.unsettled running.new) known.new running.new }
    {
        let plan = match plan_of(
            self.alloc,
            &mut self.store,
            known,
            &self.state,
            place,
            pushed,
            moment,
        ) {
            Ok(plan) => plan,
            Err(why) => return Reply::Refused(why),
        };
        let plan = match plan {
            Some(plan) => plan,
            None => return Reply::Updated(head_of(self.state.kept.slice())),
        };
        let before = head_of(self.state.kept.slice());
        let shields = match prepare(self.alloc, &mut self.store, running, before, &plan, pushed) {
            Ok(shields) => shields,
            Err(why) => return Reply::Refused(why),
        };
        let install = Install {
            head: plan.head,
            pushed,
            at: moment,
        };
        match self.carry_out(&plan, install) {
            Ok(()) => {
                shield(running, &shields.needed);
                Reply::Updated(plan.head)
            }
            Err(fault) => {
                stale_unless_stored(&self.store, running, shields.made.slice());
                Reply::Refused(store_refusal(fault))
            }
        }
    }
}
