//! Which ids name nothing that is stored.
ghost use Rattle.std.specs.Prelude.{◌≡◌, ◌&&◌, ◌++◌, ◌∷◌, [], IfOk, OnOk, Some, OnErr, filter, not};
ghost use Rattle.std.specs.FinMap as map;
ghost use Rattle.std.specs.FinSet as set;
ghost use Rattle.ids.specs.Key.{Objects};
ghost use Rattle.library_rules.specs.Calls.{keys_of};
ghost use Rattle.library_rules.specs.Changes.{stored_keys};
ghost use Rattle.library_rules.specs.LibraryState.{is_stored};
ghost use Rattle.object_graph.specs.Objects.{is_nil};
ghost use Rattle.object_store.specs.Shelf.{GivesNoMore};
ghost use Rattle.object_store.specs.StoreView.{objects_of};
ghost use Rattle.library_state.specs.declared.call.Act.TheVariants as act;
ghost use Rattle.depot.specs.Answering.{ServesAct};
ghost use Rattle.depot.specs.Fresh.{MayHaveFresh, MayKeep};
ghost use Rattle.depot.specs.Missing.{absent_from, is_absent, is_known};

use crate::collection::Collection;
use crate::depot::Depot;
use crate::shields::{freshen, shield};
use ids::{IdList, Key, KeyList, KeyTable, Kind, ObjId};
use library_state::{Refusal, Reply};
use object_store::{Shelf, Store};
use std::alloc::{AllocError, Global};

impl<S: Shelf> Depot<S> {
    /// Tells which ids name nothing that is stored.
    pub(crate) fn missing(&mut self, kind: Kind, ids: &[ObjId]) -> Reply
        ensures value { ServesAct S.contents S.may_give S.texts S.faults self.old (act.Missing kind ids.now) result self.new }
        ensures gives { GivesNoMore (S.may_give self.old.store.shelf) (S.may_give self.new.store.shelf) }
        ensures held { self.new.store.index ≡ self.old.store.index }
    {
        let found = match absent_ids(self.parts.alloc, &self.parts.store, kind, ids) {
            Ok(found) => found,
            Err(_) => return Reply::Refused(Refusal::NoMemory),
        };
        let store = &self.parts.store;
        match keep_told(self.parts.alloc, store, &mut self.running, kind, ids) {
            Ok(()) => {}
            Err(_) => {
                drop(found);
                return Reply::Refused(Refusal::NoMemory);
            }
        }
        Reply::Absent(found)
    }
}

/// Keeps from the collection that runs, if one does, what an answer tells to be stored. After an error nothing is changed.
fn keep_told<S: Shelf>(
    alloc: Global,
    store: &Store<S>,
    running: &mut Option<Collection>,
    kind: Kind,
    ids: &[ObjId],
) -> Result<(), AllocError>
    ensures shown { (objects : Objects) → objects_of S.contents store.now ≡ Some objects → OnOk result (MayKeep (stored_keys objects (keys_of kind ids.now)) running.old running.new) }
    ensures ok { OnOk result (MayKeep (filter (is_known store.now.index) (keys_of kind ids.now)) running.old running.new) }
    ensures err { OnErr result (MayHaveFresh (λ fresh key. set.contains fresh key) running.old running.new) }
{
    if running.is_none() {
        return Ok(());
    }
    keep_present(alloc, store, running, kind, ids)
}

/// Takes those of the ids as fresh that name what is stored, and keeps them from the collection. After an error nothing is
/// changed.
fn keep_present<S: Shelf>(
    alloc: Global,
    store: &Store<S>,
    running: &mut Option<Collection>,
    kind: Kind,
    ids: &[ObjId],
) -> Result<(), AllocError>
    ensures shown { (objects : Objects) → objects_of S.contents store.now ≡ Some objects → OnOk result (MayKeep (stored_keys objects (keys_of kind ids.now)) running.old running.new) }
    ensures ok { OnOk result (MayKeep (filter (is_known store.now.index) (keys_of kind ids.now)) running.old running.new) }
    ensures err { OnErr result (MayHaveFresh (λ fresh key. set.contains fresh key) running.old running.new) }
{
    let keys = present_keys(alloc, store, kind, ids)?;
    freshen(alloc, running, keys.slice())?;
    shield(running, &keys);
    Ok(())
}

/// The keys of the ids that name what is stored.
fn present_keys<S: Shelf>(
    alloc: Global,
    store: &Store<S>,
    kind: Kind,
    ids: &[ObjId],
) -> Result<KeyList, AllocError>
    ensures shown { (objects : Objects) → objects_of S.contents store.now ≡ Some objects → IfOk result (λ keys. keys ≡ stored_keys objects (keys_of kind ids.now)) }
    ensures value { IfOk result (λ keys. keys ≡ filter (is_known store.now.index) (keys_of kind ids.now)) }
{
    let mut keys = KeyList::new(alloc);
    for id in ids {
        list_present(store, &mut keys, &Key { kind, id: *id })?;
    }
    Ok(keys)
}

/// Lists a key, if it names what is stored.
fn list_present<S: Shelf>(store: &Store<S>, keys: &mut KeyList, key: &Key) -> Result<(), AllocError>
    ensures shown { (objects : Objects) → objects_of S.contents store.now ≡ Some objects
        → OnOk result (keys.new ≡ keys.old ++ stored_keys objects (keys_of key.now.kind (key.now.id ∷ []))) }
    ensures value { OnOk result (keys.new ≡ keys.old ++ filter (is_known store.now.index) (keys_of key.now.kind (key.now.id ∷ []))) }
{
    if !is_present(store, key) {
        return Ok(());
    }
    keys.push(*key)?;
    Ok(())
}

/// Whether a key names what is stored.
fn is_present<S: Shelf>(store: &Store<S>, key: &Key) -> bool
    ensures shown { (objects : Objects) → objects_of S.contents store.now ≡ Some objects → result ≡ (not (is_nil key.now.id) && is_stored objects key.now) }
    ensures value { result ≡ (not (is_nil key.now.id) && is_known store.now.index key.now) }
{
    !key.id.is_nil() && store.has(*key).is_some()
}

/// The ids that name nothing that is stored as this kind, in the order asked, each once. Forty zeros are never told.
fn absent_ids<S: Shelf>(
    alloc: Global,
    store: &Store<S>,
    kind: Kind,
    ids: &[ObjId],
) -> Result<IdList, AllocError>
    ensures shown { (objects : Objects) → objects_of S.contents store.now ≡ Some objects
        → IfOk result (λ found. found ≡ absent_from (is_stored objects) kind map.empty ids.now) }
    ensures value { IfOk result (λ found. found ≡ absent_from (is_known store.now.index) kind map.empty ids.now) }
{
    let mut met = KeyTable::new(alloc);
    let mut found = IdList::new(alloc);
    for id in ids {
        let key = Key { kind, id: *id };
        if is_absent(store, &met, &key) {
            tell(&mut met, &mut found, &key)?;
        }
    }
    Ok(found)
}

/// Whether a key is told absent.
fn is_absent<S: Shelf>(store: &Store<S>, met: &KeyTable<()>, key: &Key) -> bool
    ensures shown { (objects : Objects) → objects_of S.contents store.now ≡ Some objects → result ≡ is_absent (is_stored objects) met.now key.now }
    ensures value { result ≡ is_absent (is_known store.now.index) met.now key.now }
{
    !key.id.is_nil() && store.has(*key).is_none() && !met.has(key)
}

/// Tells a key absent.
fn tell(met: &mut KeyTable<()>, found: &mut IdList, key: &Key) -> Result<(), AllocError>
    ensures met { OnOk result (met.new ≡ map.insert met.old key.now tt) }
    ensures found { OnOk result (found.new ≡ found.old ++ key.now.id ∷ []) }
{
    met.insert(*key, ())?;
    found.push(key.id)?;
    Ok(())
}
