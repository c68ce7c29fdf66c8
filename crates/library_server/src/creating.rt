//! The command that makes a library.
ghost use Rattle.library_state.specs.declared.state.TheConstants.{MAX_STATE_NAME};
ghost use Rattle.std.specs.Prelude.{◌≡◌, ◌≤◌, ℕ, List, IfErr, IfOk, Option, Some, length};
ghost use Rattle.folder_storage.specs.Ground.{Standing};
ghost use Rattle.library_rules.specs.Creation.{opening_commit};
ghost use Rattle.library_server.specs.Answering.{NeverFails};
ghost use Rattle.library_server.specs.Creating.{CreatesSo};
ghost use Rattle.library_server.specs.Lines.{fault_of_not_made};
ghost use Rattle.library_server.specs.Making.{IsNotMade, RoseWhere, is_unmade_counted};
ghost use Rattle.library_server.specs.Standing.{OthersGiveNoMore, Returned};
ghost use Rattle.library_server.specs.Whole.{IsWhole, NotOfStorage};

use crate::making::{NewLibrary, make_library};
use crate::not_done::NotMade;
use crate::starting::bring_back;
use folder_storage::Ground;
use ids::ObjId;
use std::alloc::Global;

/// Makes a library, and gives the id of its opening commit. What was handed out is back.
pub(crate) fn create<G: Ground>(
    alloc: Global,
    libraries: &mut G,
    folder: &str,
    new: &NewLibrary,
    moment: u64,
) -> Result<ObjId, NotMade>
    requires fits { length new.now.name ≤ MAX_STATE_NAME }
    requires ready { (1 ≤ length new.now.user) × (length new.now.user ≤ MAX_STATE_NAME) }
    ensures shown { (standing : Standing) → G.stands libraries.old folder.now new.now.lib ≡ Some standing
        → CreatesSo new.now moment standing result (G.stands libraries.new folder.now new.now.lib) }
    ensures value { IfOk result (λ head. head ≡ (opening_commit new.now.lib new.now.user moment).id) }
    ensures back { Returned G.S.contents (G.stands libraries.old) (G.stands libraries.new) folder.now new.now.lib }
    ensures others { OthersGiveNoMore (G.may_give libraries.old) (G.may_give libraries.new) folder.now new.now.lib }
    ensures cause { IfErr result (IsNotMade (G.may_give libraries.old folder.now new.now.lib) new.now moment) }
    ensures faults { IfErr result (λ why. RoseWhere (is_unmade_counted why) (G.faults libraries.old) (G.faults libraries.new)) }
    ensures steady { NeverFails G.S.faults → (standing : Standing) → G.stands libraries.old folder.now new.now.lib ≡ Some standing → IsWhole standing
        → NotOfStorage fault_of_not_made result }
{
    match make_library(alloc, libraries, folder, new, moment) {
        Ok(depot) => {
            let head = depot.head();
            bring_back(libraries, folder, new.lib, depot);
            Ok(head)
        }
        Err(fault) => Err(fault),
    }
}
