//! For how many days history is retained.
ghost use Rattle.std.specs.Prelude.{◌≡◌, OnOk, OnErr};
ghost use Rattle.library_rules.specs.LibraryState.{is_day_count};
ghost use Rattle.library_state.specs.declared.call.Act.TheVariants as act;
ghost use Rattle.object_store.specs.Store.{CountsShelf};
ghost use Rattle.object_store.specs.StoreView.{AddsNoStray, objects_of, status_of};
ghost use Rattle.depot.specs.Answering.{ServesAct};
ghost use Rattle.depot.specs.Changing.{TextSo};
ghost use Rattle.depot.specs.Giving.{GivesBy, IsOwnText};

use crate::depot::{Depot, Parts};
use crate::refusals::answer_of;
use library_state::{MAX_DAYS, Refusal, Reply};
use object_store::{Shelf, StoreFault};

impl<S: Shelf> Depot<S> {
    /// Sets for how many days history is retained.
    pub(crate) fn limit(&mut self, days: i64) -> Reply
        ensures value { ServesAct S.contents S.may_give S.texts S.faults self.old (act.Limit days) result self.new }
        ensures gives { GivesBy (IsOwnText self.old.state.lib) (S.may_give self.old.store.shelf) (S.may_give self.new.store.shelf) }
        ensures held { self.new.store.index ≡ self.old.store.index }
    {
        if !is_day_count(days) {
            return Reply::Refused(Refusal::BadDays(days));
        }
        let set = self.parts.set_days(days);
        answer_of(Reply::Limited, set)
    }
}

/// Whether history can be retained for so many days.
fn is_day_count(days: i64) -> bool
    ensures value { result ≡ is_day_count days }
{
    -1 <= days && days <= MAX_DAYS
}

impl<S: Shelf> Parts<S> {
    /// Sets the days, and writes the text where that changes it.
    fn set_days(&mut self, days: i64) -> Result<(), StoreFault>
        ensures ok { OnOk result (self.new.state ≡ record self.old.state { days = days }) }
        ensures err { OnErr result (self.new.state ≡ self.old.state) }
        ensures text { TextSo self.old.unsettled self.old.state (record self.old.state { days = days })
            (status_of S.contents self.old.store) self.new.unsettled (status_of S.contents self.new.store) result (S.texts self.old.store.shelf) (S.texts self.new.store.shelf) }
        ensures stays { objects_of S.contents self.new.store ≡ objects_of S.contents self.old.store }
        ensures held { self.new.store.index ≡ self.old.store.index }
        ensures lying { AddsNoStray S.contents self.old.store self.new.store }
        ensures gives { GivesBy (IsOwnText self.old.state.lib) (S.may_give self.old.store.shelf) (S.may_give self.new.store.shelf) }
        ensures faults { CountsShelf (S.faults self.old.store.shelf) (S.faults self.new.store.shelf) result }
    {
        let before = self.state.days;
        if before == days {
            return Ok(());
        }
        match self.settle() {
            Ok(()) => {}
            Err(fault) => return Err(fault),
        }
        self.state.days = days;
        match self.write_next() {
            Ok(()) => Ok(()),
            Err(fault) => {
                self.state.days = before;
                Err(fault)
            }
        }
    }
}
