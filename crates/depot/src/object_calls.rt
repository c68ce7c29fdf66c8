//! The calls on objects: to get, to put, and to ask what is missing.
ghost use Rattle.std.specs.Prelude.{false, ◌≡◌, ◌⊎◌, ◌∷◌, [], ℕ, List, Some, Ok, Err};
ghost use Rattle.std.specs.FinMap as map;
ghost use Rattle.ids.specs.Key.{Objects};
ghost use Rattle.ids.specs.declared.key.Kind.TheVariants as kinds;
ghost use Rattle.library_rules.specs.Calls.{first_refusal, got, not_fs, other_name, put_due};
ghost use Rattle.library_rules.specs.LibraryState.{State};
ghost use Rattle.library_state.specs.declared.call.Act.TheVariants as act;
ghost use Rattle.object_store.specs.Shelf.{GivesNoMore};
ghost use Rattle.object_store.specs.Store.{judged_found};
ghost use Rattle.object_store.specs.StoreView.{AddsNoStray, Keeps, objects_of, status_of};
ghost use Rattle.depot.specs.Answering.{MayAnswer, MayGet, ServesAct, put_decided};
ghost use Rattle.depot.specs.Fresh.{EndsPut, is_stored_reply};
ghost use Rattle.depot.specs.Held.{HoldsPut};
ghost use Rattle.depot.specs.Giving.{GivesBy, IsObject, IsPut};
ghost use Rattle.depot.specs.ObjectCalls.{Counts, DoneSo, IsToldDamage, SaysOr, is_counted, store_decided, store_due};
ghost use Rattle.depot.specs.Unjudged.{judged, reply_found};
ghost use Rattle.depot.specs.Writing.{with_stored};

use crate::collection::Collection;
use crate::depot::Depot;
use crate::refusals::store_refusal;
use crate::shields::{freshen, shield, stale};
use crate::unjudged::Unjudged;
use commit_objects::Commit;
use fs_objects::{BadFs, FsObject};
use ids::{Bytes, Key, KeyList, Kind, LibId, ObjId};
use json_words::ReadFault;
use library_state::{Refusal, Reply};
use object_store::{Put, Shelf, Store, StoreFault};
use std::alloc::Global;

impl<S: Shelf> Depot<S> {
    /// Answers with what is stored under a key.
    pub(crate) fn get(&mut self, key: &Key) -> Reply
        ensures value { ServesAct S.contents S.may_give S.texts S.faults self.old (act.Get key.now) result self.new }
        ensures gives { GivesNoMore (S.may_give self.old.store.shelf) (S.may_give self.new.store.shelf) }
        ensures held { self.new.store.index ≡ self.old.store.index }
    {
        get_object(&mut self.parts.store, key)
    }

    /// The same, of which the bytes are still to be judged.
    pub(crate) fn get_unjudged(&mut self, key: &Key) -> Unjudged
        ensures value { ServesAct S.contents S.may_give S.texts S.faults self.old (act.Get key.now) (judged result) self.new }
        ensures gives { GivesNoMore (S.may_give self.old.store.shelf) (S.may_give self.new.store.shelf) }
        ensures held { self.new.store.index ≡ self.old.store.index }
    {
        find_object(&mut self.parts.store, key)
    }

    /// Stores an object.
    pub(crate) fn put(&mut self, key: &Key, bytes: &[u8]) -> Reply
        ensures value { ServesAct S.contents S.may_give S.texts S.faults self.old (act.Put key.now bytes.now) result self.new }
        ensures gives { GivesBy (IsPut key.now bytes.now) (S.may_give self.old.store.shelf) (S.may_give self.new.store.shelf) }
        ensures held { HoldsPut key.now result self.old.store.index self.new.store.index }
    {
        let new = match freshen(self.parts.alloc, &mut self.running, &[*key]) {
            Ok(new) => new,
            Err(_) => return Reply::Refused(Refusal::NoMemory),
        };
        let reply = put_object(
            self.parts.alloc,
            &mut self.parts.store,
            &self.parts.state.lib,
            key,
            bytes,
        );
        end_put(&mut self.running, &reply, &new);
        reply
    }
}

/// Keeps from the collection what became fresh for a put that stored its object, and takes it back else.
pub(crate) fn end_put(running: &mut Option<Collection>, reply: &Reply, new: &KeyList)
    ensures value { EndsPut new.now reply.now running.old running.new }
{
    if is_stored(reply) {
        shield(running, new);
    } else {
        stale(running, new.slice());
    }
}

/// Whether an answer tells that an object is stored.
fn is_stored(reply: &Reply) -> bool
    ensures value { result ≡ is_stored_reply reply.now }
{
    match reply {
        Reply::Stored(_) => true,
        _ => false,
    }
}

/// What is stored under the key.
fn get_object<S: Shelf>(store: &mut Store<S>, key: &Key) -> Reply
    ensures value { (objects : Objects) → objects_of S.contents store.old ≡ Some objects → SaysOr objects (got key.now (map.get objects key.now)) result }
    ensures stays { Keeps S.contents store.old store.new }
    ensures cause { MayGet store.old.index (S.may_give store.new.shelf) key.now result }
    ensures damaged { (objects : Objects) → objects_of S.contents store.old ≡ Some objects → IsToldDamage objects result }
    ensures written { S.texts store.new.shelf ≡ S.texts store.old.shelf }
    ensures gives { GivesNoMore (S.may_give store.old.shelf) (S.may_give store.new.shelf) }
    ensures faults { Counts (S.faults store.old.shelf) (S.faults store.new.shelf) result }
{
    match store.get(*key) {
        Ok(Some(bytes)) => Reply::Got(bytes),
        Ok(None) => Reply::Refused(Refusal::NoObject(*key)),
        Err(fault) => Reply::Refused(store_refusal(fault)),
    }
}

/// The same, of which the bytes are still to be judged.
fn find_object<S: Shelf>(store: &mut Store<S>, key: &Key) -> Unjudged
    ensures value { (objects : Objects) → objects_of S.contents store.old ≡ Some objects → SaysOr objects (got key.now (map.get objects key.now)) (judged result) }
    ensures stays { Keeps S.contents store.old store.new }
    ensures cause { MayGet store.old.index (S.may_give store.new.shelf) key.now (judged result) }
    ensures damaged { (objects : Objects) → objects_of S.contents store.old ≡ Some objects → IsToldDamage objects (judged result) }
    ensures written { S.texts store.new.shelf ≡ S.texts store.old.shelf }
    ensures gives { GivesNoMore (S.may_give store.old.shelf) (S.may_give store.new.shelf) }
    ensures faults { Counts (S.faults store.old.shelf) (S.faults store.new.shelf) (judged result) }
{
    let found = store.fetch(*key);
    answer_found(key, found)
}

/// The answer to a get where the store found this.
fn answer_found(key: &Key, found: Result<Option<Bytes>, StoreFault>) -> Unjudged
    ensures value { judged result ≡ reply_found key.now (judged_found key.now found) }
{
    match found {
        Ok(found) => answer_object(key, found),
        Err(fault) => Unjudged::Told(Reply::Refused(store_refusal(fault))),
    }
}

/// The same where the shelf didn't fail.
fn answer_object(key: &Key, found: Option<Bytes>) -> Unjudged
    ensures value { judged result ≡ reply_found key.now (judged_found key.now (Ok found)) }
{
    match found {
        Some(bytes) => Unjudged::Found(*key, bytes),
        None => Unjudged::Told(Reply::Refused(Refusal::NoObject(*key))),
    }
}

/// Stores the bytes under the key, as an object of this library.
fn put_object<S: Shelf>(
    alloc: Global,
    store: &mut Store<S>,
    lib: &LibId,
    key: &Key,
    bytes: &[u8],
) -> Reply
    ensures value { (s : State) → objects_of S.contents store.old ≡ Some s.objects → s.state.lib ≡ lib.now
        → DoneSo s.objects (put_due s key.now bytes.now) result (objects_of S.contents store.new) }
    ensures stays { status_of S.contents store.new ≡ status_of S.contents store.old }
    ensures stored { (objects_of S.contents store.new ≡ objects_of S.contents store.old)
        ⊎ (objects_of S.contents store.new ≡ with_stored (record { key = key.now; bytes = bytes.now }) (objects_of S.contents store.old)) }
    ensures held { HoldsPut key.now result store.old.index store.new.index }
    ensures cause { MayAnswer store.old.index (S.may_give store.new.shelf) (act.Put key.now bytes.now) (put_decided lib.now key.now bytes.now) result }
    ensures damaged { (objects : Objects) → objects_of S.contents store.old ≡ Some objects → IsToldDamage objects result }
    ensures lying { is_counted result ≡ false → AddsNoStray S.contents store.old store.new }
    ensures written { S.texts store.new.shelf ≡ S.texts store.old.shelf }
    ensures gives { GivesBy (IsPut key.now bytes.now) (S.may_give store.old.shelf) (S.may_give store.new.shelf) }
    ensures faults { Counts (S.faults store.old.shelf) (S.faults store.new.shelf) result }
{
    match key.kind {
        Kind::Block => store_object(store, key, bytes),
        Kind::Fs => put_fs(alloc, store, key, bytes),
        Kind::Commit => put_commit_text(alloc, store, lib, key, bytes),
    }
}

/// Stores bytes of which only the name and what is stored there are still to be looked at.
fn store_object<S: Shelf>(store: &mut Store<S>, key: &Key, bytes: &[u8]) -> Reply
    ensures value { (s : State) → objects_of S.contents store.old ≡ Some s.objects
        → DoneSo s.objects (store_due s key.now bytes.now) result (objects_of S.contents store.new) }
    ensures stays { status_of S.contents store.new ≡ status_of S.contents store.old }
    ensures stored { (objects_of S.contents store.new ≡ objects_of S.contents store.old)
        ⊎ (objects_of S.contents store.new ≡ with_stored (record { key = key.now; bytes = bytes.now }) (objects_of S.contents store.old)) }
    ensures held { HoldsPut key.now result store.old.index store.new.index }
    ensures cause { MayAnswer store.old.index (S.may_give store.new.shelf) (act.Put key.now bytes.now) (store_decided key.now bytes.now) result }
    ensures damaged { (objects : Objects) → objects_of S.contents store.old ≡ Some objects → IsToldDamage objects result }
    ensures lying { is_counted result ≡ false → AddsNoStray S.contents store.old store.new }
    ensures written { S.texts store.new.shelf ≡ S.texts store.old.shelf }
    ensures gives { GivesBy (IsObject key.now bytes.now) (S.may_give store.old.shelf) (S.may_give store.new.shelf) }
    ensures faults { Counts (S.faults store.old.shelf) (S.faults store.new.shelf) result }
{
    match store.put(*key, bytes) {
        Ok(Put::New) => Reply::Stored(true),
        Ok(Put::Same) => Reply::Stored(false),
        Err(fault) => Reply::Refused(store_refusal(fault)),
    }
}

/// Stores a file or directory object.
fn put_fs<S: Shelf>(alloc: Global, store: &mut Store<S>, key: &Key, bytes: &[u8]) -> Reply
    requires ready { key.now.kind ≡ kinds.Fs }
    ensures value { (s : State) → objects_of S.contents store.old ≡ Some s.objects
        → DoneSo s.objects (put_due s key.now bytes.now) result (objects_of S.contents store.new) }
    ensures stays { status_of S.contents store.new ≡ status_of S.contents store.old }
    ensures stored { (objects_of S.contents store.new ≡ objects_of S.contents store.old)
        ⊎ (objects_of S.contents store.new ≡ with_stored (record { key = key.now; bytes = bytes.now }) (objects_of S.contents store.old)) }
    ensures held { HoldsPut key.now result store.old.index store.new.index }
    ensures cause { (lib : List ℕ) → MayAnswer store.old.index (S.may_give store.new.shelf) (act.Put key.now bytes.now) (put_decided lib key.now bytes.now) result }
    ensures damaged { (objects : Objects) → objects_of S.contents store.old ≡ Some objects → IsToldDamage objects result }
    ensures lying { is_counted result ≡ false → AddsNoStray S.contents store.old store.new }
    ensures written { S.texts store.new.shelf ≡ S.texts store.old.shelf }
    ensures gives { GivesBy (IsPut key.now bytes.now) (S.may_give store.old.shelf) (S.may_give store.new.shelf) }
    ensures faults { Counts (S.faults store.old.shelf) (S.faults store.new.shelf) result }
{
    match FsObject::read(alloc, bytes) {
        Ok(_) => store_object(store, key, bytes),
        Err(ReadFault::Bad(bad)) => Reply::Refused(fs_refusal(key, bytes, &bad)),
        Err(ReadFault::NoMemory) => Reply::Refused(Refusal::NoMemory),
    }
}

/// Why bytes that are no file and no directory object are refused: for their name first.
fn fs_refusal(key: &Key, bytes: &[u8], bad: &BadFs) -> Refusal
    ensures value { Some result ≡ first_refusal (other_name key.now bytes.now ∷ not_fs (Err bad.now) ∷ []) }
{
    let name = ObjId::of(bytes);
    if name == key.id {
        Refusal::BadFs(bad.code())
    } else {
        Refusal::Wrong(name)
    }
}

/// Stores a commit of this library.
fn put_commit_text<S: Shelf>(
    alloc: Global,
    store: &mut Store<S>,
    lib: &LibId,
    key: &Key,
    bytes: &[u8],
) -> Reply
    requires ready { key.now.kind ≡ kinds.Commit }
    ensures value { (s : State) → objects_of S.contents store.old ≡ Some s.objects → s.state.lib ≡ lib.now
        → DoneSo s.objects (put_due s key.now bytes.now) result (objects_of S.contents store.new) }
    ensures stays { status_of S.contents store.new ≡ status_of S.contents store.old }
    ensures stored { (objects_of S.contents store.new ≡ objects_of S.contents store.old)
        ⊎ (objects_of S.contents store.new ≡ with_stored (record { key = key.now; bytes = bytes.now }) (objects_of S.contents store.old)) }
    ensures held { HoldsPut key.now result store.old.index store.new.index }
    ensures cause { MayAnswer store.old.index (S.may_give store.new.shelf) (act.Put key.now bytes.now) (put_decided lib.now key.now bytes.now) result }
    ensures damaged { (objects : Objects) → objects_of S.contents store.old ≡ Some objects → IsToldDamage objects result }
    ensures lying { is_counted result ≡ false → AddsNoStray S.contents store.old store.new }
    ensures written { S.texts store.new.shelf ≡ S.texts store.old.shelf }
    ensures gives { GivesBy (IsPut key.now bytes.now) (S.may_give store.old.shelf) (S.may_give store.new.shelf) }
    ensures faults { Counts (S.faults store.old.shelf) (S.faults store.new.shelf) result }
{
    let commit = match Commit::read(alloc, bytes) {
        Ok(commit) => commit,
        Err(ReadFault::Bad(bad)) => return Reply::Refused(Refusal::BadCommit(bad.code())),
        Err(ReadFault::NoMemory) => return Reply::Refused(Refusal::NoMemory),
    };
    if commit.id != key.id {
        return Reply::Refused(Refusal::Wrong(commit.id));
    }
    if commit.lib != *lib {
        return Reply::Refused(Refusal::OtherLibrary(commit.lib));
    }
    store_object(store, key, bytes)
}
