//! Calls of a depot, each with what the theorems take of it in one clause.
ghost use Rattle.library_state.specs.declared.state.TheConstants.{MAX_STATE_NAME};
ghost use Rattle.std.specs.Prelude.{◌≤◌, length, IfErr};
ghost use Rattle.stop_laws.specs.Reopening.{IsOpening, IsRefusedMaking};
ghost use Rattle.depot.specs.Story.{AddsToken};

use depot::{Depot, MakeFault, StartFault, TokenFault};
use ids::{LibId, Text};
use library_state::{Right, Secret};
use object_store::{Shelf, Store};
use std::alloc::Global;

/// Makes a library as `Depot::make` does.
pub fn make<S: Shelf>(
    alloc: Global,
    store: Store<S>,
    lib: LibId,
    name: &Text,
    user: &Text,
    secret: Secret,
    moment: u64,
) -> Result<Depot<S>, (Store<S>, MakeFault)>
    requires fits { length name.now ≤ MAX_STATE_NAME }
    requires ready { (1 ≤ length user.now) × (length user.now ≤ MAX_STATE_NAME) }
    ensures left { IfErr result (λ refused. IsRefusedMaking S.contents store lib name.now user.now secret moment refused.0 refused.1) }
{
    Depot::make(alloc, store, lib, name, user, secret, moment)
}

/// Opens a library as `Depot::start` does.
pub fn start<S: Shelf>(alloc: Global, store: Store<S>) -> Result<Depot<S>, (Store<S>, StartFault)>
    ensures after { IsOpening S.contents S.faults store result }
{
    Depot::start(alloc, store)
}

/// Adds a token as `Depot::add_token` does.
pub fn add_token<S: Shelf>(
    depot: &mut Depot<S>,
    user: &Text,
    secret: Secret,
    right: Right,
) -> Result<(), TokenFault>
    requires fits { (1 ≤ length user.now) × (length user.now ≤ MAX_STATE_NAME) }
    ensures after { AddsToken S.contents S.faults depot.old user.now secret right result depot.new }
{
    depot.add_token(user, secret, right)
}
