//! What is kept from the collection that runs as a call is answered.
ghost use Rattle.std.specs.Prelude.{◌≡◌, ◌&&◌, ◌||◌, ◌++◌, ◌∷◌, [], ℕ, is_some, length, not, option_map, IfErr, IfOk, IsTrue, List, None, Ok, OnErr, OnOk, Some};
ghost use Rattle.std.specs.FinMap as map;
ghost use Rattle.std.specs.FinSet as set;
ghost use Rattle.ids.specs.Key.{Objects};
ghost use Rattle.ids.specs.declared.key.Key.{Key};
ghost use Rattle.library_rules.specs.LibraryState.{is_stored};
ghost use Rattle.object_graph.specs.Objects.{commit_in, commit_key};
ghost use Rattle.object_graph.specs.Traversal.{is_in};
ghost use Rattle.object_store.specs.StoreView.{objects_of};
ghost use Rattle.tree_walk.specs.Reading.{AnswersRead, Reads};
ghost use Rattle.collector.specs.Comparing.{AreComplete, AreWithMade, IsOfStore};
ghost use Rattle.collector.specs.Naming.{is_of_bytes};
ghost use Rattle.depot.specs.Answering.{MayRefuseUpdate};
ghost use Rattle.depot.specs.Fresh.{AreNew, AreNewIn, HasFresh, MayHaveFresh, MayShield, ShieldsKeys};
ghost use Rattle.depot.specs.Held.{lacking};
ghost use Rattle.depot.specs.ObjectCalls.{IsToldRefusal};
ghost use Rattle.depot.specs.Shields.{AreWhole, ListsBoth, ListsNeeded, ListsNeededIn, MayLack, NeedsBeside, keys_made, plan_root, root_at, root_in, unstored, with_plan};
ghost use Rattle.depot.specs.UpdateBase.{ReadsOnly};

use crate::collection::Collection;
use crate::plan::Plan;
use crate::refusals::walk_refusal;
use crate::unstored::made_keys;
use collector::unshared;
use commit_objects::Commit;
use ids::{Bytes, Key, KeyList, KeyTable, Kind, ObjId};
use json_words::ReadFault;
use library_state::Refusal;
use object_store::{Shelf, Store, StoreFault};
use std::alloc::{AllocError, Global};
use tree_walk::{WalkFault, commit_at};

/// What a head update that is carried out keeps from the collection that runs.
#[derive(Drop)]
pub(crate) struct Shields {
    /// What its head and its pushed commit need that the head before them isn't known to need.
    pub needed: KeyList,
    /// What it makes: these keys are fresh, and weren't.
    pub made: KeyList,
}

/// Takes the keys as fresh where a collection runs, and gives those that weren't. They are not shielded yet. After an error
/// nothing is changed.
pub(crate) fn freshen(
    alloc: Global,
    running: &mut Option<Collection>,
    keys: &[Key],
) -> Result<KeyList, AllocError>
    ensures ok { OnOk result (MayHaveFresh (λ fresh key. set.contains fresh key || is_in keys.now key) running.old running.new) }
    ensures new { IfOk result (AreNewIn keys.now running.old) }
    ensures err { OnErr result (MayHaveFresh (λ fresh key. set.contains fresh key) running.old running.new) }
{
    match running {
        Some(collection) => collection.freshen(alloc, keys),
        None => Ok(KeyList::new(alloc)),
    }
}

/// Keeps the keys from the collection that runs, if one does.
pub(crate) fn shield(running: &mut Option<Collection>, keys: &KeyList)
    ensures value { MayShield keys.now running.old running.new }
{
    match running {
        Some(collection) => shield_in(collection, keys),
        None => {}
    }
}

/// The same of a collection.
fn shield_in(running: &mut Collection, keys: &KeyList)
    ensures value { ShieldsKeys keys.now running.old running.new }
{
    running.marks.shield(keys);
}

/// Takes keys back that are not to be fresh.
pub(crate) fn stale(running: &mut Option<Collection>, keys: &[Key])
    ensures value { MayHaveFresh (λ fresh key. set.contains fresh key && not (is_in keys.now key)) running.old running.new }
{
    match running {
        Some(collection) => collection.stale(keys),
        None => {}
    }
}

/// What a head update is to keep from the collection that runs, if one does: listed before its first write, and its made keys
/// are fresh. Nothing is stored yet, and what is made is opened where it is. After a refusal nothing is changed.
pub(crate) fn prepare<S: Shelf>(
    alloc: Global,
    store: &mut Store<S>,
    running: &mut Option<Collection>,
    before: ObjId,
    plan: &Plan,
    pushed: ObjId,
) -> Result<Shields, Refusal>
    ensures value { (objects : Objects) → objects_of S.contents store.old ≡ Some objects → AreWhole objects before plan.now pushed
        → IfOk result (λ shields. ListsNeededIn objects before plan.now pushed running.old shields.needed) }
    ensures made { IfOk result (λ shields. AreNewIn (lacking store.old.index (keys_made plan.now)) running.old shields.made) }
    ensures ok { OnOk result (MayHaveFresh (λ fresh key. set.contains fresh key || is_in (lacking store.old.index (keys_made plan.now)) key) running.old running.new) }
    ensures shown { (objects : Objects) → objects_of S.contents store.old ≡ Some objects
        → IfOk result (λ shields. AreNewIn (unstored objects (keys_made plan.now)) running.old shields.made
        × MayHaveFresh (λ fresh key. set.contains fresh key || is_in (unstored objects (keys_made plan.now)) key) running.old running.new) }
    ensures err { OnErr result (MayHaveFresh (λ fresh key. set.contains fresh key) running.old running.new) }
    ensures refused { (objects : Objects) → objects_of S.contents store.old ≡ Some objects → AreWhole objects before plan.now pushed
        → IfErr result (IsToldRefusal objects) }
    ensures cause { IfErr result (MayRefuseUpdate store.new.index (S.may_give store.new.shelf)) }
    ensures stays { ReadsOnly S.contents S.may_give S.texts S.faults store.old store.new result }
{
    match running {
        Some(collection) => prepare_beside(alloc, store, collection, before, plan, pushed),
        None => Ok(Shields {
            needed: KeyList::new(alloc),
            made: KeyList::new(alloc),
        }),
    }
}

/// The same beside a collection.
fn prepare_beside<S: Shelf>(
    alloc: Global,
    store: &mut Store<S>,
    running: &mut Collection,
    before: ObjId,
    plan: &Plan,
    pushed: ObjId,
) -> Result<Shields, Refusal>
    ensures value { (objects : Objects) → objects_of S.contents store.old ≡ Some objects → AreWhole objects before plan.now pushed
        → IfOk result (λ shields. ListsNeeded objects before plan.now pushed shields.needed) }
    ensures made { IfOk result (λ shields. AreNew (lacking store.old.index (keys_made plan.now)) running.old.running.fresh shields.made) }
    ensures ok { OnOk result (HasFresh (λ key. set.contains running.old.running.fresh key || is_in (lacking store.old.index (keys_made plan.now)) key) running.old running.new) }
    ensures shown { (objects : Objects) → objects_of S.contents store.old ≡ Some objects
        → IfOk result (λ shields. AreNew (unstored objects (keys_made plan.now)) running.old.running.fresh shields.made
        × HasFresh (λ key. set.contains running.old.running.fresh key || is_in (unstored objects (keys_made plan.now)) key) running.old running.new) }
    ensures err { OnErr result (HasFresh (λ key. set.contains running.old.running.fresh key) running.old running.new) }
    ensures refused { (objects : Objects) → objects_of S.contents store.old ≡ Some objects → AreWhole objects before plan.now pushed
        → IfErr result (IsToldRefusal objects) }
    ensures cause { IfErr result (MayRefuseUpdate store.new.index (S.may_give store.new.shelf)) }
    ensures stays { ReadsOnly S.contents S.may_give S.texts S.faults store.old store.new result }
{
    let needed = match needed_keys(alloc, store, before, plan, pushed) {
        Ok(needed) => needed,
        Err(fault) => return Err(walk_refusal(fault)),
    };
    let made = match made_keys(alloc, store, plan) {
        Ok(made) => made,
        Err(_) => return Err(Refusal::NoMemory),
    };
    match running.freshen(alloc, made.slice()) {
        Ok(made) => Ok(Shields { needed, made }),
        Err(_) => Err(Refusal::NoMemory),
    }
}

/// What the head and the pushed commit need that the head before them isn't known to need.
fn needed_keys<S: Shelf>(
    alloc: Global,
    store: &mut Store<S>,
    before: ObjId,
    plan: &Plan,
    pushed: ObjId,
) -> Result<KeyList, WalkFault>
    ensures value { (objects : Objects) → objects_of S.contents store.old ≡ Some objects → AreWhole objects before plan.now pushed
        → IfOk result (ListsNeeded objects before plan.now pushed) }
    ensures refused { (objects : Objects) → objects_of S.contents store.old ≡ Some objects → AreWhole objects before plan.now pushed
        → IfErr result (IsOfStore objects) }
    ensures stays { Reads S.contents S.may_give S.texts S.faults store.old store.new result }
{
    let older = match stored_root(alloc, store, before) {
        Ok(older) => older,
        Err(fault) => return Err(fault),
    };
    let none: KeyTable<Bytes> = KeyTable::new(alloc);
    let root = match stored_root(alloc, store, pushed) {
        Ok(root) => root,
        Err(fault) => return Err(fault),
    };
    let keys = match needed_by(alloc, store, &none, older, &pushed, root) {
        Ok(keys) => keys,
        Err(fault) => return Err(fault),
    };
    if plan.head == pushed {
        return Ok(keys);
    }
    needed_both(alloc, store, plan, older, keys)
}

/// These keys, with what the head that a plan makes needs beside an older root.
fn needed_both<S: Shelf>(
    alloc: Global,
    store: &mut Store<S>,
    plan: &Plan,
    older: ObjId,
    mut keys: KeyList,
) -> Result<KeyList, WalkFault>
    ensures value { (objects : Objects) → objects_of S.contents store.old ≡ Some objects → (root : List ℕ) → plan_root objects plan.now ≡ Ok root
        → AreComplete objects (with_plan objects plan.now) older root → IfOk result (ListsBoth objects plan.now older root keys) }
    ensures refused { (objects : Objects) → objects_of S.contents store.old ≡ Some objects → (root : List ℕ) → plan_root objects plan.now ≡ Ok root
        → AreComplete objects (with_plan objects plan.now) older root → IfErr result (IsOfStore objects) }
    ensures stays { Reads S.contents S.may_give S.texts S.faults store.old store.new result }
{
    let root = match head_root(alloc, store, plan) {
        Ok(root) => root,
        Err(fault) => return Err(fault),
    };
    let more = match needed_by(alloc, store, &plan.dirs, older, &plan.head, root) {
        Ok(more) => more,
        Err(fault) => return Err(fault),
    };
    match push_all(&mut keys, more.slice()) {
        Ok(()) => Ok(keys),
        Err(_) => Err(WalkFault::Store(StoreFault::NoMemory)),
    }
}

/// A commit's own key, and what its root needs beside an older one.
fn needed_by<S: Shelf>(
    alloc: Global,
    store: &mut Store<S>,
    made: &KeyTable<Bytes>,
    before: ObjId,
    commit: &ObjId,
    root: ObjId,
) -> Result<KeyList, WalkFault>
    ensures value { (objects : Objects) → (all : Objects) → objects_of S.contents store.old ≡ Some objects → AreWithMade objects made.now all → AreComplete objects all before root
        → IfOk result (NeedsBeside objects all before commit.now root) }
    ensures refused { (objects : Objects) → (all : Objects) → objects_of S.contents store.old ≡ Some objects → AreWithMade objects made.now all → AreComplete objects all before root
        → IfErr result (IsOfStore objects) }
    ensures stays { Reads S.contents S.may_give S.texts S.faults store.old store.new result }
{
    let mut keys = match unshared(alloc, store, made, before, root) {
        Ok(keys) => keys,
        Err(fault) => return Err(fault),
    };
    match keys.push(commit_key(commit)) {
        Ok(()) => Ok(keys),
        Err(_) => Err(WalkFault::Store(StoreFault::NoMemory)),
    }
}

/// The root of the head that a plan makes: as it is stored, or made.
fn head_root<S: Shelf>(alloc: Global, store: &mut Store<S>, plan: &Plan) -> Result<ObjId, WalkFault>
    ensures value { (objects : Objects) → objects_of S.contents store.old ≡ Some objects → AnswersRead objects (plan_root objects plan.now) result }
    ensures stays { Reads S.contents S.may_give S.texts S.faults store.old store.new result }
{
    match store.has(commit_key(&plan.head)) {
        Some(_) => stored_root(alloc, store, plan.head),
        None => made_root(alloc, plan),
    }
}

/// The same where the head isn't stored.
fn made_root(alloc: Global, plan: &Plan) -> Result<ObjId, WalkFault>
    ensures value { (objects : Objects) → None ≡ option_map length (map.get objects (commit_key plan.now.head)) → AnswersRead objects (plan_root objects plan.now) result }
    ensures free { IfErr result (MayLack plan.now.head) }
{
    let key = commit_key(&plan.head);
    if let Some(bytes) = plan.dirs.get(&key) {
        return root_of(alloc, &plan.head, bytes);
    }
    match &plan.text {
        Some(text) => root_of(alloc, &plan.head, text),
        None => Err(WalkFault::Incomplete(key)),
    }
}

/// The root that a commit of these bytes names.
fn root_of(alloc: Global, id: &ObjId, bytes: &Bytes) -> Result<ObjId, WalkFault>
    ensures value { (objects : Objects) → AnswersRead objects (root_in (commit_in id.now (Some bytes.now))) result }
    ensures free { IfErr result (λ fault. IsTrue (is_of_bytes fault)) }
{
    let commit = match Commit::read(alloc, bytes.slice()) {
        Ok(commit) => commit,
        Err(ReadFault::Bad(_)) => return Err(WalkFault::Unreadable(commit_key(id))),
        Err(ReadFault::NoMemory) => return Err(WalkFault::Store(StoreFault::NoMemory)),
    };
    if commit.id != *id {
        return Err(WalkFault::Unreadable(commit_key(id)));
    }
    Ok(commit.root)
}

/// The root of a commit as it is stored.
fn stored_root<S: Shelf>(alloc: Global, store: &mut Store<S>, id: ObjId) -> Result<ObjId, WalkFault>
    ensures value { (objects : Objects) → objects_of S.contents store.old ≡ Some objects → AnswersRead objects (root_at objects id) result }
    ensures stays { Reads S.contents S.may_give S.texts S.faults store.old store.new result }
{
    match commit_at(alloc, store, id) {
        Ok(commit) => Ok(commit.root),
        Err(fault) => Err(fault),
    }
}

/// The key of a commit.
pub(crate) fn commit_key(id: &ObjId) -> Key
    ensures value { result ≡ commit_key id.now }
{
    Key {
        kind: Kind::Commit,
        id: *id,
    }
}

/// Appends keys. After an error the first ones of them were.
fn push_all(keys: &mut KeyList, more: &[Key]) -> Result<(), AllocError>
    ensures value { OnOk result (keys.new ≡ keys.old ++ more.now) }
{
    for key in more {
        keys.push(*key)?;
    }
    Ok(())
}

/// Those of the keys that aren't stored are not fresh.
pub(crate) fn stale_unless_stored<S: Shelf>(
    store: &Store<S>,
    running: &mut Option<Collection>,
    keys: &[Key],
)
    ensures shown { (objects : Objects) → objects_of S.contents store.now ≡ Some objects
        → MayHaveFresh (λ fresh key. set.contains fresh key && not (is_in keys.now key && not (is_stored objects key))) running.old running.new }
    ensures value { MayHaveFresh (λ fresh key. set.contains fresh key && not (is_in keys.now key && not (is_some (map.get store.now.index key)))) running.old running.new }
{
    match running {
        Some(collection) => take_back(store, collection, keys),
        None => {}
    }
}

/// The same of a collection.
fn take_back<S: Shelf>(store: &Store<S>, running: &mut Collection, keys: &[Key])
    ensures shown { (objects : Objects) → objects_of S.contents store.now ≡ Some objects
        → HasFresh (λ key. set.contains running.old.running.fresh key && not (is_in keys.now key && not (is_stored objects key))) running.old running.new }
    ensures value { HasFresh (λ key. set.contains running.old.running.fresh key && not (is_in keys.now key && not (is_some (map.get store.now.index key)))) running.old running.new }
{
    for key in keys {
        take_back_one(store, running, key);
    }
}

/// The same of one key.
fn take_back_one<S: Shelf>(store: &Store<S>, running: &mut Collection, key: &Key)
    ensures shown { (objects : Objects) → objects_of S.contents store.now ≡ Some objects
        → HasFresh (λ k. set.contains running.old.running.fresh k && not (is_in (key.now ∷ []) k && not (is_stored objects k))) running.old running.new }
    ensures value { HasFresh (λ k. set.contains running.old.running.fresh k && not (is_in (key.now ∷ []) k && not (is_some (map.get store.now.index k)))) running.old running.new }
{
    match store.has(*key) {
        Some(_) => {}
        None => running.stale_one(key),
    }
}
