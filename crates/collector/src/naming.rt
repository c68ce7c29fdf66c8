//! What an object names.
ghost use Rattle.std.specs.Prelude.{◌≡◌, ◌++◌, IfErr, IfOk, IsTrue, OnErr, OnOk, Some, is_some, true};
ghost use Rattle.std.specs.FinMap as map;
ghost use Rattle.ids.specs.Key.{Objects};
ghost use Rattle.object_graph.specs.Objects.{fs_in};
ghost use Rattle.object_graph.specs.Reached.{block_keys, entry_keys, named_in, own_keys};
ghost use Rattle.object_store.specs.StoreView.{objects_of};
ghost use Rattle.tree_walk.specs.Reading.{AnswersRead, IsDamageAt, Reads};
ghost use Rattle.collector.specs.Marking.{IsDamageRead};
ghost use Rattle.collector.specs.Naming.{is_of_bytes, names_at, names_by, names_of};
ghost use Rattle.collector.specs.Opened.{ReadsAs, ReadsNames};

use commit_objects::Commit;
use fs_objects::{DirObject, Dirent, FsObject};
use ids::{Bytes, Key, KeyList, Kind, ObjId};
use json_words::ReadFault;
use object_store::{Shelf, Store, StoreFault};
use std::alloc::{AllocError, Global};
use tree_walk::{WalkFault, bytes_at, in_name_order};

/// The keys that a stored object names: a commit its root, a directory the objects of its entries, a file its blocks.
///
/// A block is looked up and not read. What isn't stored is incomplete, and what can't be read is unreadable.
pub(crate) fn names_at<S: Shelf>(
    alloc: Global,
    store: &mut Store<S>,
    key: &Key,
) -> Result<KeyList, WalkFault>
    ensures value { (objects : Objects) → objects_of S.contents store.old ≡ Some objects → AnswersRead objects (names_at objects key.now) result }
    ensures known { IfOk result (λ names. is_some (map.get store.old.index key.now) ≡ true) }
    ensures whole { IfOk result (λ names. ReadsNames (S.may_give store.new.shelf) key.now.kind key.now names) }
    ensures damaged { (objects : Objects) → objects_of S.contents store.old ≡ Some objects → IfErr result (IsDamageRead objects key.now) }
    ensures stays { Reads S.contents S.may_give S.texts S.faults store.old store.new result }
{
    match key.kind {
        Kind::Block => block_names(alloc, store, key),
        Kind::Commit => names_read(alloc, store, key),
        Kind::Fs => names_read(alloc, store, key),
    }
}

/// What a stored block names: nothing.
fn block_names<S: Shelf>(
    alloc: Global,
    store: &mut Store<S>,
    key: &Key,
) -> Result<KeyList, WalkFault>
    requires ready { key.now.kind ≡ Kind.Block }
    ensures value { (objects : Objects) → objects_of S.contents store.old ≡ Some objects → AnswersRead objects (names_at objects key.now) result }
    ensures known { IfOk result (λ names. is_some (map.get store.old.index key.now) ≡ true) }
    ensures whole { IfOk result (λ names. ReadsNames (S.may_give store.new.shelf) key.now.kind key.now names) }
    ensures damaged { (objects : Objects) → objects_of S.contents store.old ≡ Some objects → IfErr result (IsDamageRead objects key.now) }
    ensures stays { Reads S.contents S.may_give S.texts S.faults store.old store.new result }
{
    match store.has(*key) {
        Some(_) => Ok(KeyList::new(alloc)),
        None => Err(WalkFault::Incomplete(*key)),
    }
}

/// What a stored object names, by its bytes.
fn names_read<S: Shelf>(
    alloc: Global,
    store: &mut Store<S>,
    key: &Key,
) -> Result<KeyList, WalkFault>
    ensures value { (objects : Objects) → objects_of S.contents store.old ≡ Some objects → AnswersRead objects (names_at objects key.now) result }
    ensures known { IfOk result (λ names. is_some (map.get store.old.index key.now) ≡ true) }
    ensures whole { IfOk result (λ names. ReadsAs (S.may_give store.new.shelf) key.now names) }
    ensures damaged { (objects : Objects) → objects_of S.contents store.old ≡ Some objects → IfErr result (IsDamageAt objects key.now) }
    ensures stays { Reads S.contents S.may_give S.texts S.faults store.old store.new result }
{
    let bytes = match bytes_at(store, key) {
        Ok(bytes) => bytes,
        Err(fault) => return Err(fault),
    };
    names_of(alloc, key, &bytes)
}

/// The keys that an object of these bytes names. A commit's parents aren't among them.
pub(crate) fn names_of(alloc: Global, key: &Key, bytes: &Bytes) -> Result<KeyList, WalkFault>
    ensures value { (objects : Objects) → AnswersRead objects (names_of key.now bytes.now) result }
    ensures free { IfErr result (λ fault. IsTrue (is_of_bytes fault)) }
{
    match key.kind {
        Kind::Commit => root_of(alloc, &key.id, bytes),
        Kind::Fs => named_by_bytes(alloc, key, bytes),
        Kind::Block => Ok(KeyList::new(alloc)),
    }
}

/// The root that a commit of these bytes names.
fn root_of(alloc: Global, id: &ObjId, bytes: &Bytes) -> Result<KeyList, WalkFault>
    ensures value { (objects : Objects) → AnswersRead objects (names_by Kind.Commit id.now bytes.now) result }
    ensures free { IfErr result (λ fault. IsTrue (is_of_bytes fault)) }
{
    let key = &Key {
        kind: Kind::Commit,
        id: *id,
    };
    let commit = match Commit::read(alloc, bytes.slice()) {
        Ok(commit) => commit,
        Err(ReadFault::Bad(_)) => return Err(WalkFault::Unreadable(*key)),
        Err(ReadFault::NoMemory) => return Err(WalkFault::Store(StoreFault::NoMemory)),
    };
    if commit.id != *id {
        return Err(WalkFault::Unreadable(*key));
    }
    let mut names = KeyList::new(alloc);
    match push_own(&mut names, &commit.root) {
        Ok(()) => Ok(names),
        Err(_) => Err(WalkFault::Store(StoreFault::NoMemory)),
    }
}

/// What a file or directory object of these bytes names.
fn named_by_bytes(alloc: Global, key: &Key, bytes: &Bytes) -> Result<KeyList, WalkFault>
    requires ready { key.now.kind ≡ Kind.Fs }
    ensures value { (objects : Objects) → AnswersRead objects (names_of key.now bytes.now) result }
    ensures free { IfErr result (λ fault. IsTrue (is_of_bytes fault)) }
{
    let object = match fs_of(alloc, key, bytes) {
        Ok(object) => object,
        Err(fault) => return Err(fault),
    };
    match named_in(alloc, object) {
        Ok(names) => Ok(names),
        Err(_) => Err(WalkFault::Store(StoreFault::NoMemory)),
    }
}

/// The file or directory object of these bytes.
pub(crate) fn fs_of(alloc: Global, key: &Key, bytes: &Bytes) -> Result<FsObject, WalkFault>
    ensures value { (objects : Objects) → AnswersRead objects (fs_in key.now (Some bytes.now)) result }
    ensures free { IfErr result (λ fault. IsTrue (is_of_bytes fault)) }
{
    match FsObject::read(alloc, bytes.slice()) {
        Ok(object) => Ok(object),
        Err(ReadFault::Bad(_)) => Err(WalkFault::Unreadable(*key)),
        Err(ReadFault::NoMemory) => Err(WalkFault::Store(StoreFault::NoMemory)),
    }
}

/// The keys that a file or directory object names.
pub(crate) fn named_in(alloc: Global, object: FsObject) -> Result<KeyList, AllocError>
    ensures value { IfOk result (λ names. names ≡ named_in object) }
{
    match object {
        FsObject::File(file) => block_keys(alloc, file.blocks.slice()),
        FsObject::Dir(directory) => named_by_entries(alloc, directory),
    }
}

/// The keys of the entries of a directory, in ascending byte order of name.
fn named_by_entries(alloc: Global, directory: DirObject) -> Result<KeyList, AllocError>
    ensures value { IfOk result (λ names. names ≡ named_in (FsObject.Dir directory)) }
{
    let entries = in_name_order(alloc, directory)?;
    entry_keys(alloc, entries.as_slice())
}

/// The keys of the objects of entries.
pub(crate) fn entry_keys(alloc: Global, entries: &[Dirent]) -> Result<KeyList, AllocError>
    ensures value { IfOk result (λ names. names ≡ entry_keys entries.now) }
{
    let mut names = KeyList::new(alloc);
    for entry in entries {
        push_own(&mut names, &entry.id)?;
    }
    Ok(names)
}

/// The keys of blocks.
fn block_keys(alloc: Global, blocks: &[ObjId]) -> Result<KeyList, AllocError>
    ensures value { IfOk result (λ names. names ≡ block_keys blocks.now) }
{
    let mut names = KeyList::new(alloc);
    for block in blocks {
        names.push(Key {
            kind: Kind::Block,
            id: *block,
        })?;
    }
    Ok(names)
}

/// Appends the key of a file or directory object; forty zeros have none. After an error the list is as it was.
fn push_own(names: &mut KeyList, id: &ObjId) -> Result<(), AllocError>
    ensures ok { OnOk result (names.new ≡ names.old ++ own_keys id.now) }
    ensures err { OnErr result (names.new ≡ names.old) }
{
    if id.is_nil() {
        return Ok(());
    }
    names.push(Key {
        kind: Kind::Fs,
        id: *id,
    })
}
