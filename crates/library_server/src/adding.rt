//! The command that adds a token to a library.
ghost use Rattle.library_state.specs.declared.state.TheConstants.{MAX_STATE_NAME};
ghost use Rattle.std.specs.Prelude.{◌≡◌, ◌≤◌, ℕ, IfErr, IfOk, Option, Some, length};
ghost use Rattle.folder_storage.specs.Ground.{Standing};
ghost use Rattle.server_words.specs.Spelling.{location_text};
ghost use Rattle.library_server.specs.Adding.{AddsSo, IsAddedTo, IsNotAdded, is_unadded_counted};
ghost use Rattle.library_server.specs.Answering.{NeverFails};
ghost use Rattle.library_server.specs.Lines.{fault_of_not_added};
ghost use Rattle.library_server.specs.Making.{RoseWhere};
ghost use Rattle.library_server.specs.Standing.{OthersGiveNoMore, Returned};
ghost use Rattle.library_server.specs.Whole.{IsWhole, NotOfStorage};

use crate::not_done::NotAdded;
use crate::starting::{bring_back, folder_word, start_library};
use folder_storage::Ground;
use ids::{LibId, Text};
use library_state::{Clock, Right, Secret};
use server_words::Location;
use std::alloc::Global;

/// A token that is to be added. The user's name has 1 to 255 bytes.
#[derive(Debug, Drop)]
pub(crate) struct NewToken {
    pub user: Text,
    pub secret: Secret,
    pub right: Right,
}

/// Starts a library and adds a token to it. What was handed out is back.
pub(crate) fn add_token<G: Ground, C: Clock>(
    alloc: Global,
    libraries: &mut G,
    location: &Location,
    lib: LibId,
    token: &NewToken,
    clock: &C,
) -> Result<(), NotAdded>
    requires ready { (1 ≤ length token.now.user) × (length token.now.user ≤ MAX_STATE_NAME) }
    ensures shown { (standing : Standing) → G.stands libraries.old (location_text location.now) lib ≡ Some standing
        → AddsSo location.now lib (C.shows clock.now) token.now standing result (G.stands libraries.new (location_text location.now) lib) }
    ensures back { Returned G.S.contents (G.stands libraries.old) (G.stands libraries.new) (location_text location.now) lib }
    ensures others { OthersGiveNoMore (G.may_give libraries.old) (G.may_give libraries.new) (location_text location.now) lib }
    ensures any { IfOk result (λ done. IsAddedTo (G.may_give libraries.old (location_text location.now) lib) location.now lib (C.shows clock.now) token.now) }
    ensures cause { IfErr result (IsNotAdded (G.may_give libraries.old (location_text location.now) lib) location.now lib (C.shows clock.now) token.now) }
    ensures faults { IfErr result (λ why. RoseWhere (is_unadded_counted why) (G.faults libraries.old) (G.faults libraries.new)) }
    ensures steady { NeverFails G.S.faults → (standing : Standing) → G.stands libraries.old (location_text location.now) lib ≡ Some standing → IsWhole standing
        → NotOfStorage fault_of_not_added result }
{
    let mut depot = match start_library(alloc, libraries, location, lib, clock) {
        Ok(depot) => depot,
        Err(fault) => return Err(NotAdded::Unbrought(fault)),
    };
    match depot.add_token(&token.user, token.secret, token.right) {
        Ok(()) => {
            bring_back(libraries, folder_word(location), lib, depot);
            Ok(())
        }
        Err(fault) => {
            bring_back(libraries, folder_word(location), lib, depot);
            Err(NotAdded::Refused(fault))
        }
    }
}
