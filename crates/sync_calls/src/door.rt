//! Who may ask a library of a hall: a copy of its opening number, secrets and rights.
ghost use Rattle.std.specs.Prelude.{◌≡◌, nat_le, IfOk, Option, Some, option_map, find};
ghost use Rattle.std.specs.List.{slice_get};
ghost use Rattle.library_state.specs.Rights.{right_number};
ghost use Rattle.depot.specs.CollectionTurns.{is_owner};
ghost use Rattle.sync_calls.specs.Door.{IsDoorOf, admits, admits_collection, holders_of, is_enough, is_owners, right_in, right_shown};

use depot::Depot;
use ids::{Items, LibId};
use library_rules::right_needed;
use library_state::{Act, Right, Secret};
use object_store::Shelf;
use std::alloc::{AllocError, Global};

/// Who shows a secret, and what that one may.
#[derive(Clone, Copy, Debug)]
pub struct Holder {
    pub(crate) secret: Secret,
    pub(crate) right: Right,
}

/// What is fixed of a library while a hall runs.
#[derive(Drop)]
pub struct Door {
    pub(crate) lib: LibId,
    pub(crate) opening: u64,
    pub(crate) holders: Items<Holder>,
}

/// Whether the one who shows this secret may ask for this.
pub(crate) fn admits(door: &Door, secret: &Option<Secret>, act: &Act) -> bool
    ensures { result ≡ admits door.now secret.now act.now }
{
    let shown = match secret {
        Some(shown) => shown,
        None => return false,
    };
    match right_in(door.holders.slice(), shown) {
        Some(right) => right_needed(act) <= right,
        None => false,
    }
}

/// Whether the one who shows this secret may ask for a collection: an owner.
pub(crate) fn admits_collection(door: &Door, secret: &Option<Secret>) -> bool
    ensures { result ≡ admits_collection door.now secret.now }
{
    let Some(shown) = secret else {
        return false;
    };
    match right_in(door.holders.slice(), shown) {
        Some(right) => is_owner(right),
        None => false,
    }
}

/// Whether it is the right of an owner.
fn is_owner(right: Right) -> bool
    ensures { result ≡ is_owner right }
{
    match right {
        Right::Owner => true,
        Right::Write => false,
        Right::Read => false,
    }
}

/// The right of the first holder of a secret.
fn right_in(holders: &[Holder], secret: &Secret) -> Option<Right>
    ensures { result ≡ right_in holders.now secret.now }
{
    for holder in holders {
        if secret.is(&holder.secret) {
            return Some(holder.right);
        }
    }
    None
}

/// The door of a library.
pub(crate) fn door_of<S: Shelf>(alloc: Global, depot: &Depot<S>) -> Result<Door, AllocError>
    ensures { IfOk result (λ door. IsDoorOf door depot.now) }
{
    let holders = holders_of(alloc, depot)?;
    Ok(Door {
        lib: depot.lib(),
        opening: depot.opening(),
        holders,
    })
}

/// The secrets and rights of a library's tokens, in their order.
fn holders_of<S: Shelf>(alloc: Global, depot: &Depot<S>) -> Result<Items<Holder>, AllocError>
    ensures { IfOk result (λ holders. holders ≡ holders_of depot.now.state.tokens) }
{
    let mut holders = Vec::new(alloc);
    while let Some(holder) = holder_at(depot, holders.len()) {
        holders.push(holder)?;
    }
    Ok(Items::from_vec(holders))
}

/// The secret and the right of the token at a place.
fn holder_at<S: Shelf>(depot: &Depot<S>, place: usize) -> Option<Holder>
    ensures { result ≡ slice_get (holders_of depot.now.state.tokens) place }
{
    match depot.token_at(place as u64) {
        Some((secret, right)) => Some(Holder { secret, right }),
        None => None,
    }
}
