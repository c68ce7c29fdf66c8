//! Which keys of what a plan makes nothing is stored under.
ghost use Rattle.std.specs.Prelude.{◌≡◌, ◌++◌, ◌∷◌, [], IfOk, OnOk, Some};
ghost use Rattle.std.specs.FinMap as map;
ghost use Rattle.ids.specs.Key.{Objects};
ghost use Rattle.library_rules.specs.Changes.{keys_added};
ghost use Rattle.object_store.specs.StoreView.{objects_of};
ghost use Rattle.depot.specs.Held.{lacking};
ghost use Rattle.depot.specs.Plan.{listed};
ghost use Rattle.depot.specs.Shields.{keys_made, unstored};

use crate::plan::Plan;
use crate::shields::commit_key;
use ids::{Bytes, Key, KeyList, KeyTable};
use object_store::{Shelf, Store};
use std::alloc::{AllocError, Global};

/// The keys of what a plan makes that isn't stored.
pub(crate) fn made_keys<S: Shelf>(
    alloc: Global,
    store: &Store<S>,
    plan: &Plan,
) -> Result<KeyList, AllocError>
    ensures value { IfOk result (λ keys. keys ≡ lacking store.now.index (keys_made plan.now)) }
    ensures shown { (objects : Objects) → objects_of S.contents store.now ≡ Some objects → IfOk result (λ keys. keys ≡ unstored objects (keys_made plan.now)) }
{
    let mut keys = dir_keys(alloc, store, &plan.dirs)?;
    match &plan.text {
        Some(_) => {}
        None => return Ok(keys),
    }
    push_unstored(store, &mut keys, &commit_key(&plan.head))?;
    Ok(keys)
}

/// The same of directories, in the order of their keys.
fn dir_keys<S: Shelf>(
    alloc: Global,
    store: &Store<S>,
    dirs: &KeyTable<Bytes>,
) -> Result<KeyList, AllocError>
    ensures value { IfOk result (λ keys. keys ≡ lacking store.now.index (keys_added (listed (map.entries dirs.now)))) }
    ensures shown { (objects : Objects) → objects_of S.contents store.now ≡ Some objects
        → IfOk result (λ keys. keys ≡ unstored objects (keys_added (listed (map.entries dirs.now)))) }
{
    let mut keys = KeyList::new(alloc);
    for (key, _) in dirs.iter() {
        push_unstored(store, &mut keys, key)?;
    }
    Ok(keys)
}

/// Appends a key, if nothing is stored under it.
fn push_unstored<S: Shelf>(
    store: &Store<S>,
    keys: &mut KeyList,
    key: &Key,
) -> Result<(), AllocError>
    ensures value { OnOk result (keys.new ≡ keys.old ++ lacking store.now.index (key.now ∷ [])) }
    ensures shown { (objects : Objects) → objects_of S.contents store.now ≡ Some objects → OnOk result (keys.new ≡ keys.old ++ unstored objects (key.now ∷ [])) }
{
    match store.has(*key) {
        Some(_) => return Ok(()),
        None => {}
    }
    keys.push(*key)?;
    Ok(())
}
