//! What one tree needs beside another.
ghost use Rattle.std.specs.Prelude.{◌≡◌, ℕ, false, IfErr, IfOk, IsTrue, List, OnOk, Some};
ghost use Rattle.ids.specs.Key.{Objects};
ghost use Rattle.object_graph.specs.Objects.{fs_at, fs_key, is_nil};
ghost use Rattle.object_graph.specs.Reached.{named, named_in};
ghost use Rattle.object_store.specs.StoreView.{objects_of};
ghost use Rattle.tree_walk.specs.Reading.{AnswersRead, Reads};
ghost use Rattle.collector.specs.Compared.{AreAmong, FindsNamed, IsFirst, MayPlace, PlacesBeside, Spares};
ghost use Rattle.collector.specs.Comparing.{AreComplete, AreSettled, AreWithMade, FindsBeside, FindsSpared, IsFsFault, IsOfStore, IsReadFaultAt, ListsUnshared};

use crate::compared::Compared;
use crate::naming::{entry_keys, fs_of, named_in};
use fs_objects::{DirObject, Dirent, FileObject, FsObject, is_directory_mode};
use ids::{Bytes, Key, KeyList, KeyTable, Kind, ObjId};
use object_store::{Shelf, Store, StoreFault};
use std::alloc::{AllocError, Global};
use tree_walk::{WalkFault, fs_at, in_name_order};

/// The keys below a root, itself among them, that aren't known to be below an older root. Nothing is stored.
///
/// The newer root's files and directories are stored, or are among those that are made and not stored yet. At each path
/// where both have a directory the two are opened side by side, and what the older one names is passed over; so it costs
/// what differs, with the directories above it, and not the trees. A key that the older root needs at another path alone
/// may be listed.
///
/// Over complete trees it meets no fault but those of the store.
pub fn unshared<S: Shelf>(
    alloc: Global,
    store: &mut Store<S>,
    made: &KeyTable<Bytes>,
    older: ObjId,
    newer: ObjId,
) -> Result<KeyList, WalkFault>
    ensures value { (objects : Objects) → (all : Objects) → objects_of S.contents store.old ≡ Some objects → AreWithMade objects made.now all → AreComplete objects all older newer
        → IfOk result (ListsUnshared objects all older newer) }
    ensures cause { (objects : Objects) → (all : Objects) → objects_of S.contents store.old ≡ Some objects → AreWithMade objects made.now all → AreComplete objects all older newer
        → IfErr result (IsOfStore objects) }
    ensures stays { Reads S.contents S.may_give S.texts S.faults store.old store.new result }
{
    let mut compared = match begin(alloc, &older, &newer) {
        Ok(compared) => compared,
        Err(_) => return Err(WalkFault::Store(StoreFault::NoMemory)),
    };
    for _ in 0..u64::MAX {
        let key = match compared.first() {
            Some(key) => key,
            None => return Ok(compared.into_keys()),
        };
        match open(alloc, store, made, &mut compared, &key) {
            Ok(()) => {}
            Err(fault) => return Err(fault),
        }
    }
    // No memory holds so many keys.
    Err(WalkFault::Store(StoreFault::NoMemory))
}

/// A root beside an older one; neither is opened, and forty zeros have no object.
fn begin(alloc: Global, older: &ObjId, newer: &ObjId) -> Result<Compared, AllocError>
    ensures value { IfOk result (λ compared. (objects : Objects) → (all : Objects) → AreComplete objects all older.now newer.now
        → AreSettled objects all older.now newer.now compared) }
{
    if newer.is_nil() {
        return Ok(Compared::new(alloc));
    }
    if *newer == *older {
        return Ok(Compared::new(alloc));
    }
    let mut compared = Compared::new(alloc);
    let key = Key {
        kind: Kind::Fs,
        id: *newer,
    };
    compared.meet(&key)?;
    if older.is_nil() {
        return Ok(compared);
    }
    compared.spare_one(Key {
        kind: Kind::Fs,
        id: *older,
    })?;
    compared.place(key, *older)?;
    Ok(compared)
}

/// Opens the key that waits first, with what stands beside it in the older tree.
fn open<S: Shelf>(
    alloc: Global,
    store: &mut Store<S>,
    made: &KeyTable<Bytes>,
    compared: &mut Compared,
    key: &Key,
) -> Result<(), WalkFault>
    requires ready { IsFirst key.now compared.old }
    ensures value { (objects : Objects) → (all : Objects) → objects_of S.contents store.old ≡ Some objects → AreWithMade objects made.now all
        → (older : List ℕ) → (newer : List ℕ) → AreComplete objects all older newer → AreSettled objects all older newer compared.old → OnOk result (AreSettled objects all older newer compared.new) }
    ensures cause { (objects : Objects) → (all : Objects) → objects_of S.contents store.old ≡ Some objects → AreWithMade objects made.now all
        → (older : List ℕ) → (newer : List ℕ) → AreComplete objects all older newer → AreSettled objects all older newer compared.old → IfErr result (IsOfStore objects) }
    ensures stays { Reads S.contents S.may_give S.texts S.faults store.old store.new result }
{
    match key.kind {
        Kind::Fs => open_object(alloc, store, made, compared, key),
        Kind::Block => {
            compared.open();
            Ok(())
        }
        Kind::Commit => {
            compared.open();
            Ok(())
        }
    }
}

/// Opens the file or the directory that waits first.
fn open_object<S: Shelf>(
    alloc: Global,
    store: &mut Store<S>,
    made: &KeyTable<Bytes>,
    compared: &mut Compared,
    key: &Key,
) -> Result<(), WalkFault>
    requires ready { IsFirst key.now compared.old }
    requires fits { key.now.kind ≡ Kind.Fs }
    ensures value { (objects : Objects) → (all : Objects) → objects_of S.contents store.old ≡ Some objects → AreWithMade objects made.now all
        → (older : List ℕ) → (newer : List ℕ) → AreComplete objects all older newer → AreSettled objects all older newer compared.old → OnOk result (AreSettled objects all older newer compared.new) }
    ensures cause { (objects : Objects) → (all : Objects) → objects_of S.contents store.old ≡ Some objects → AreWithMade objects made.now all
        → (older : List ℕ) → (newer : List ℕ) → AreComplete objects all older newer → AreSettled objects all older newer compared.old → IfErr result (IsOfStore objects) }
    ensures stays { Reads S.contents S.may_give S.texts S.faults store.old store.new result }
{
    match open_fs(alloc, store, made, compared, key) {
        Ok(()) => {
            compared.open();
            Ok(())
        }
        Err(fault) => Err(fault),
    }
}

/// Finds what a file or a directory names, beside what the object that stands beside it names, which is spared.
fn open_fs<S: Shelf>(
    alloc: Global,
    store: &mut Store<S>,
    made: &KeyTable<Bytes>,
    compared: &mut Compared,
    key: &Key,
) -> Result<(), WalkFault>
    requires ready { key.now.kind ≡ Kind.Fs }
    ensures value { (objects : Objects) → (all : Objects) → objects_of S.contents store.old ≡ Some objects → AreWithMade objects made.now all
        → OnOk result (FindsBeside objects all key.now compared.old compared.new) }
    ensures cause { (objects : Objects) → (all : Objects) → objects_of S.contents store.old ≡ Some objects → AreWithMade objects made.now all
        → IfErr result (IsFsFault objects all key.now compared.old) }
    ensures stays { Reads S.contents S.may_give S.texts S.faults store.old store.new result }
{
    let object = match object_at(alloc, store, made, key) {
        Ok(object) => object,
        Err(fault) => return Err(fault),
    };
    match compared.take_beside(key) {
        Some(id) => match find_beside(alloc, store, compared, &id, object) {
            Ok(()) => Ok(()),
            Err(fault) => Err(fault),
        },
        None => match find_names(alloc, compared, Vec::new(alloc).as_slice(), object) {
            Ok(()) => Ok(()),
            Err(_) => Err(WalkFault::Store(StoreFault::NoMemory)),
        },
    }
}

/// A file or directory object that is stored, or else made.
fn object_at<S: Shelf>(
    alloc: Global,
    store: &mut Store<S>,
    made: &KeyTable<Bytes>,
    key: &Key,
) -> Result<FsObject, WalkFault>
    requires ready { key.now.kind ≡ Kind.Fs }
    ensures value { (objects : Objects) → (all : Objects) → objects_of S.contents store.old ≡ Some objects → AreWithMade objects made.now all
        → AnswersRead objects (fs_at all key.now.id) result }
    ensures stays { Reads S.contents S.may_give S.texts S.faults store.old store.new result }
{
    match store.has(*key) {
        Some(_) => fs_at(alloc, store, &key.id),
        None => match made.get(key) {
            Some(bytes) => fs_of(alloc, key, bytes),
            None => Err(WalkFault::Incomplete(*key)),
        },
    }
}

/// Spares what an object of the older tree names, and finds what a newer one names beside it.
fn find_beside<S: Shelf>(
    alloc: Global,
    store: &mut Store<S>,
    compared: &mut Compared,
    id: &ObjId,
    object: FsObject,
) -> Result<(), WalkFault>
    ensures value { (objects : Objects) → objects_of S.contents store.old ≡ Some objects
        → OnOk result (FindsSpared objects (Some id.now) (named_in object) compared.old compared.new) }
    ensures cause { (objects : Objects) → objects_of S.contents store.old ≡ Some objects → IfErr result (IsReadFaultAt objects id.now) }
    ensures stays { Reads S.contents S.may_give S.texts S.faults store.old store.new result }
{
    let entries = match spared_entries(alloc, store, compared, id) {
        Ok(entries) => entries,
        Err(fault) => return Err(fault),
    };
    match find_names(alloc, compared, entries.as_slice(), object) {
        Ok(()) => Ok(()),
        Err(_) => Err(WalkFault::Store(StoreFault::NoMemory)),
    }
}

/// Spares what an object of the older tree names, and gives its entries in ascending byte order of name; of a file none.
fn spared_entries<S: Shelf>(
    alloc: Global,
    store: &mut Store<S>,
    compared: &mut Compared,
    id: &ObjId,
) -> Result<Vec<Dirent>, WalkFault>
    ensures value { (objects : Objects) → objects_of S.contents store.old ≡ Some objects
        → OnOk result (Spares (named objects (fs_key id.now)) compared.old compared.new) }
    ensures listed { (objects : Objects) → objects_of S.contents store.old ≡ Some objects
        → IfOk result (λ entries. AreAmong (named objects (fs_key id.now)) entries.items) }
    ensures cause { (objects : Objects) → objects_of S.contents store.old ≡ Some objects → IfErr result (IsReadFaultAt objects id.now) }
    ensures stays { Reads S.contents S.may_give S.texts S.faults store.old store.new result }
{
    let object = match fs_at(alloc, store, id) {
        Ok(object) => object,
        Err(fault) => return Err(fault),
    };
    match spare_names(alloc, compared, object) {
        Ok(entries) => Ok(entries),
        Err(_) => Err(WalkFault::Store(StoreFault::NoMemory)),
    }
}

/// Spares what an object names, and gives its entries in ascending byte order of name; of a file none.
fn spare_names(
    alloc: Global,
    compared: &mut Compared,
    object: FsObject,
) -> Result<Vec<Dirent>, AllocError>
    ensures value { OnOk result (Spares (named_in object) compared.old compared.new) }
    ensures listed { IfOk result (λ entries. AreAmong (named_in object) entries.items) }
{
    match object {
        FsObject::Dir(directory) => spare_directory(alloc, compared, directory),
        FsObject::File(file) => spare_file(alloc, compared, file),
    }
}

fn spare_directory(
    alloc: Global,
    compared: &mut Compared,
    directory: DirObject,
) -> Result<Vec<Dirent>, AllocError>
    ensures value { OnOk result (Spares (named_in (FsObject.Dir directory)) compared.old compared.new) }
    ensures listed { IfOk result (λ entries. AreAmong (named_in (FsObject.Dir directory)) entries.items) }
{
    let entries = in_name_order(alloc, directory)?;
    let names = entry_keys(alloc, entries.as_slice())?;
    compared.spare(names.slice())?;
    Ok(entries)
}

fn spare_file(
    alloc: Global,
    compared: &mut Compared,
    file: FileObject,
) -> Result<Vec<Dirent>, AllocError>
    ensures value { OnOk result (Spares (named_in (FsObject.File file)) compared.old compared.new) }
    ensures listed { IfOk result (λ entries. AreAmong (named_in (FsObject.File file)) entries.items) }
{
    let names = named_in(alloc, FsObject::File(file))?;
    compared.spare(names.slice())?;
    Ok(Vec::new(alloc))
}

/// Finds what an object names and isn't spared; of a directory's entries, which of the older ones stand beside them.
fn find_names(
    alloc: Global,
    compared: &mut Compared,
    older: &[Dirent],
    object: FsObject,
) -> Result<(), AllocError>
    ensures value { OnOk result (FindsNamed (named_in object) older.now compared.old compared.new) }
{
    match object {
        FsObject::File(file) => find_blocks(alloc, compared, older, file),
        FsObject::Dir(directory) => find_entries(alloc, compared, older, directory),
    }
}

fn find_blocks(
    alloc: Global,
    compared: &mut Compared,
    older: &[Dirent],
    file: FileObject,
) -> Result<(), AllocError>
    ensures value { OnOk result (FindsNamed (named_in (FsObject.File file)) older.now compared.old compared.new) }
{
    let _ = older;
    let names = named_in(alloc, FsObject::File(file))?;
    compared.find(names.slice())?;
    Ok(())
}

fn find_entries(
    alloc: Global,
    compared: &mut Compared,
    older: &[Dirent],
    directory: DirObject,
) -> Result<(), AllocError>
    ensures value { OnOk result (FindsNamed (named_in (FsObject.Dir directory)) older.now compared.old compared.new) }
{
    let entries = in_name_order(alloc, directory)?;
    place_beside(compared, older, entries.as_slice())?;
    let names = entry_keys(alloc, entries.as_slice())?;
    compared.find(names.slice())?;
    Ok(())
}

/// Notes which directories of the older entries stand beside directories that aren't spared, by their names. Both lists
/// are in ascending byte order of name.
fn place_beside(
    compared: &mut Compared,
    older: &[Dirent],
    entries: &[Dirent],
) -> Result<(), AllocError>
    ensures value { OnOk result (PlacesBeside older.now compared.old compared.new) }
{
    let mut place = 0;
    for entry in entries {
        place = place_from(older, place, entry);
        place_at(compared, older, place, entry)?;
    }
    Ok(())
}

/// The place of the first entry, from a place on, whose name isn't below another's.
fn place_from(older: &[Dirent], from: usize, entry: &Dirent) -> usize {
    for place in from..older.len() {
        if older[place].name >= entry.name {
            return place;
        }
    }
    older.len()
}

/// Notes that the directory at a place stands beside another of its name that isn't spared, if it does.
fn place_at(
    compared: &mut Compared,
    older: &[Dirent],
    place: usize,
    entry: &Dirent,
) -> Result<(), AllocError>
    ensures value { OnOk result (PlacesBeside older.now compared.old compared.new) }
{
    if place >= older.len() {
        return Ok(());
    }
    let beside = &older[place];
    if !is_beside(beside, entry) {
        return Ok(());
    }
    note_beside(compared, &beside.id, &entry.id)?;
    Ok(())
}

/// Whether two entries are directories of one name, neither of them empty.
fn is_beside(older: &Dirent, entry: &Dirent) -> bool
    ensures value { IsTrue result → is_nil older.now.id ≡ false }
{
    if older.id.is_nil() {
        return false;
    }
    older.name == entry.name
        && is_directory_mode(older.mode)
        && is_directory_mode(entry.mode)
        && !entry.id.is_nil()
}

/// Notes that an older directory stands beside one that isn't spared.
fn note_beside(compared: &mut Compared, older: &ObjId, newer: &ObjId) -> Result<(), AllocError>
    ensures value { OnOk result (MayPlace older.now compared.old compared.new) }
{
    let key = Key {
        kind: Kind::Fs,
        id: *newer,
    };
    if compared.is_spared(&key) {
        return Ok(());
    }
    compared.place(key, *older)?;
    Ok(())
}
