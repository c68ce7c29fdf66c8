//! How a library is made where there is none.
ghost use Rattle.library_state.specs.declared.state.TheConstants.{MAX_STATE_NAME};
ghost use Rattle.std.specs.Prelude.{◌≡◌, ◌≤◌, ℕ, List, IfOk, IfErr, OnOk, Option, Some, Err, length, ⊤};
ghost use Rattle.ids.specs.FaultCount.{FailsBy};
ghost use Rattle.depot.specs.DepotView.{IsGood, state_of};
ghost use Rattle.depot.specs.Giving.{GivesBy, IsOfMaking};
ghost use Rattle.depot.specs.Make.{IsMakeFault, RefusesWith, is_make_counted, is_make_free, make_refusal};
ghost use Rattle.folder_storage.specs.Ground.{Standing};
ghost use Rattle.library_rules.specs.Creation.{created, opening_commit, opening_object};
ghost use Rattle.object_store.specs.Shelf.{Contents};
ghost use Rattle.object_store.specs.Store.{put_refusal};
ghost use Rattle.object_store.specs.StoreView.{HasNoStray};
ghost use Rattle.library_server.specs.Answering.{NeverFails};
ghost use Rattle.library_server.specs.Lines.{fault_of_not_made};
ghost use Rattle.library_server.specs.Making.{IsNew, IsNotMade, LeavesText, MakesSo, RoseWhere, first_of, is_unmade_counted, new_commit};
ghost use Rattle.library_server.specs.Standing.{HandsOutOr, OthersGiveNoMore};
ghost use Rattle.library_server.specs.Whole.{IsWhole, OutWhole};

use crate::not_done::NotMade;
use depot::{Depot, MakeFault};
use folder_storage::Ground;
use ids::{LibId, Text};
use library_state::Secret;
use object_store::{Shelf, Store};
use std::alloc::Global;

/// A library that is to be made: its id and its name, and the user and the secret of its first token, which has every
/// right. The name has at most 255 bytes, the user's 1 to 255.
#[derive(Debug, Drop)]
pub(crate) struct NewLibrary {
    pub lib: LibId,
    pub name: Text,
    pub user: Text,
    pub secret: Secret,
}

/// Makes a library that is not there. Its opening commit is of this moment, in seconds since 1970-01-01 UTC.
///
/// After a refusal the shelf that was handed out is back.
pub(crate) fn make_library<G: Ground>(
    alloc: Global,
    libraries: &mut G,
    folder: &str,
    new: &NewLibrary,
    moment: u64,
) -> Result<Depot<G::S>, NotMade>
    requires fits { length new.now.name ≤ MAX_STATE_NAME }
    requires ready { (1 ≤ length new.now.user) × (length new.now.user ≤ MAX_STATE_NAME) }
    ensures value { IfOk result (IsNew new.now moment) }
    ensures lying { IfOk result (λ depot. HasNoStray G.S.contents depot.store) }
    ensures gives { IfOk result (λ depot. GivesBy (IsOfMaking (new_commit new.now moment) (first_of new.now moment)) (G.may_give libraries.old folder.now new.now.lib) (G.S.may_give depot.store.shelf)) }
    ensures shown { (standing : Standing) → G.stands libraries.old folder.now new.now.lib ≡ Some standing
        → MakesSo G.S.contents G.S.faults new.now moment standing result (G.stands libraries.new folder.now new.now.lib) }
    ensures back { HandsOutOr G.S.contents (G.stands libraries.old) (G.stands libraries.new) folder.now new.now.lib result }
    ensures others { OthersGiveNoMore (G.may_give libraries.old) (G.may_give libraries.new) folder.now new.now.lib }
    ensures cause { IfErr result (IsNotMade (G.may_give libraries.old folder.now new.now.lib) new.now moment) }
    ensures faults { IfErr result (λ why. RoseWhere (is_unmade_counted why) (G.faults libraries.old) (G.faults libraries.new)) }
    ensures steady { NeverFails G.S.faults → (standing : Standing) → G.stands libraries.old folder.now new.now.lib ≡ Some standing → IsWhole standing
        → OutWhole fault_of_not_made G.S.contents result }
    ensures good { IfOk result (IsGood G.S.contents G.S.faults) }
    ensures count { OnOk result (G.faults libraries.new ≡ G.faults libraries.old) }
{
    let shelf = match libraries.make(folder, new.lib) {
        Ok(Some(shelf)) => shelf,
        Ok(None) => return Err(NotMade::Exists),
        Err(failed) => return Err(NotMade::Storage(failed)),
    };
    match make_on(alloc, shelf, new, moment) {
        Ok(depot) => Ok(depot),
        Err((shelf, fault)) => {
            libraries.give_back(folder, new.lib, shelf);
            Err(NotMade::Refused(fault))
        }
    }
}

/// Makes a library on a shelf. After a refusal the shelf is given back.
fn make_on<S: Shelf>(
    alloc: Global,
    shelf: S,
    new: &NewLibrary,
    moment: u64,
) -> Result<Depot<S>, (S, MakeFault)>
    requires fits { length new.now.name ≤ MAX_STATE_NAME }
    requires ready { (1 ≤ length new.now.user) × (length new.now.user ≤ MAX_STATE_NAME) }
    ensures value { IfOk result (IsNew new.now moment) }
    ensures lying { IfOk result (λ depot. HasNoStray S.contents depot.store) }
    ensures gives { IfOk result (λ depot. GivesBy (IsOfMaking (new_commit new.now moment) (first_of new.now moment)) (S.may_give shelf) (S.may_give depot.store.shelf)) }
    ensures shown { (held : Contents) → S.contents shelf ≡ Some held → IfOk result (λ depot. state_of S.contents S.faults depot
        ≡ Some (created new.now.lib new.now.name new.now.user new.now.secret moment held.objects (S.faults shelf))) }
    ensures good { IfOk result (IsGood S.contents S.faults) }
    ensures refused { (held : Contents) → S.contents shelf ≡ Some held → RefusesWith is_make_free result (make_refusal held.status
        (put_refusal held.objects (opening_object (opening_commit new.now.lib new.now.user moment)).key (opening_object (opening_commit new.now.lib new.now.user moment)).bytes)) }
    ensures left { (held : Contents) → S.contents shelf ≡ Some held → IfErr result (λ refused. LeavesText new.now moment refused.1 held (S.contents refused.0)) }
    ensures cause { IfErr result (λ refused. IsMakeFault (S.may_give shelf) (opening_object (opening_commit new.now.lib new.now.user moment)) refused.1) }
    ensures faults { IfErr result (λ refused. FailsBy {T = ⊤} is_make_counted (S.faults shelf) (S.faults refused.0) (Err refused.1)) }
{
    let store = match Store::start(alloc, shelf) {
        Ok(store) => store,
        Err((shelf, fault)) => return Err((shelf, MakeFault::Store(fault))),
    };
    match Depot::make(
        alloc, store, new.lib, &new.name, &new.user, new.secret, moment,
    ) {
        Ok(depot) => Ok(depot),
        Err((store, fault)) => Err((store.end(), fault)),
    }
}
