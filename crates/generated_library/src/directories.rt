//! The directory objects of a push: those of `tree_merge`, of which the root tells the time of its directories.
ghost use Rattle.std.specs.Prelude.{◌≡◌, ◌≢◌, All, IfErr, IfOk, List, Ok, map as list_map};
ghost use Rattle.std.specs.FinMap as map;
ghost use Rattle.std.specs.List.{IsDistinct};
ghost use Rattle.std.specs.Str.{bytes_eq};
ghost use Rattle.fs_objects.specs.Directory.{names_of};
ghost use Rattle.fs_objects.specs.FsObject.{fs_of};
ghost use Rattle.fs_objects.specs.Proper.{IsProperEntry};
ghost use Rattle.fs_objects.specs.Spelling.{in_written_order};
ghost use Rattle.fs_objects.specs.declared.dirent.Dirent.{Dirent as SpecDirent};
ghost use Rattle.fs_objects.specs.declared.fs_object.FsObject.TheVariants as file_variants;
ghost use Rattle.ids.specs.ObjectId.{nil};
ghost use Rattle.tree_merge.specs.TreeBuilding.{IsClash, IsRefused};
ghost use Rattle.generated_library.specs.Directories.{AreOfRoot, IsFlat, IsListedAs, IsPlaced, IsRootOf, IsRootRefused, IsTakenFor, IsTextAt, IsTimed, entry_at, is_other};
ghost use Rattle.generated_library.specs.Generated.{time_of};

use fs_objects::{DIRECTORY_TYPE, DirObject, Dirent, FsObject, is_directory_mode};
use ids::{Bytes, Items, Key, KeyTable, Kind, ObjId};
use json_words::ReadFault;
use object_graph::Entry;
use std::alloc::{AllocError, Global};
use tree_merge::{BuildFault, BuiltTree, build};
use tree_model::PathTable;

/// The time of what is written at a moment.
pub(crate) fn time_of(moment: u64) -> i64
    ensures value { result ≡ time_of moment }
{
    moment.min(9_223_372_036_854_775_807) as i64
}

/// Makes the directory objects of entries of which the root alone lists directories. These have the time of the moment.
pub(crate) fn build_at(
    alloc: Global,
    moment: u64,
    entries: PathTable<Entry>,
) -> Result<BuiltTree, BuildFault>
    requires entries { IsFlat entries }
    ensures value { IfOk result (λ built. IsRootOf moment entries built.made built.root) }
    ensures needed { IfOk result (λ built. AreOfRoot built.made built.root) }
    ensures taken { IfErr result (IsTakenFor (IsClash entries)) }
{
    let built = match build(alloc, entries) {
        Ok(built) => built,
        Err(fault) => return Err(fault),
    };
    let BuiltTree { root, made } = built;
    let mut made = made;
    match give_time(alloc, moment, root, &mut made) {
        Ok(root) => Ok(BuiltTree { root, made }),
        Err(fault) => Err(fault),
    }
}

/// Puts in the place of a root one whose directories have the time of the moment, and tells its id.
fn give_time(
    alloc: Global,
    moment: u64,
    root: ObjId,
    made: &mut KeyTable<Bytes>,
) -> Result<ObjId, BuildFault>
    requires listed { root ≢ nil → (dirents : List SpecDirent) × IsListedAs made.old root dirents }
    ensures value { IfOk result (IsTimed (time_of moment) made.old root made.new) }
    ensures taken { IfErr result (IsTakenFor (IsRootRefused (time_of moment) made.old root)) }
{
    if root.is_nil() {
        return Ok(root);
    }
    let key = Key {
        kind: Kind::Fs,
        id: root,
    };
    let Some(before) = made.remove(&key) else {
        unreachable!()
    };
    let bytes = match text_at(alloc, moment, before.slice()) {
        Ok(bytes) => bytes,
        Err(_) => return Err(BuildFault::NoMemory),
    };
    place(made, bytes)
}

/// Keeps an object under its own name, which no other one may have.
fn place(made: &mut KeyTable<Bytes>, bytes: Bytes) -> Result<ObjId, BuildFault>
    ensures value { IfOk result (IsPlaced bytes made.old made.new) }
    ensures taken { IfErr result (IsTakenFor (IsRefused made.old bytes)) }
{
    let id = ObjId::of(bytes.slice());
    let key = Key { kind: Kind::Fs, id };
    if id.is_nil() {
        return Err(BuildFault::Taken(id));
    }
    if is_other(made, &key, bytes.slice()) {
        return Err(BuildFault::Taken(id));
    }
    match made.put(key, bytes) {
        Ok(()) => Ok(id),
        Err(_) => Err(BuildFault::NoMemory),
    }
}

/// Whether there are other bytes under a key.
fn is_other(made: &KeyTable<Bytes>, key: &Key, bytes: &[u8]) -> bool
    ensures value { result ≡ is_other bytes.now (map.get made.now key.now) }
{
    match made.get(key) {
        Some(other) => !are_equal(other.slice(), bytes),
        None => false,
    }
}

fn are_equal(left: &[u8], right: &[u8]) -> bool
    ensures value { result ≡ bytes_eq left.now right.now }
{
    left == right
}

/// The text of a directory, of which the directories that it lists have the time of the moment.
fn text_at(alloc: Global, moment: u64, bytes: &[u8]) -> Result<Bytes, AllocError>
    requires listed { (dirents : List SpecDirent) × (fs_of bytes.now ≡ Ok (file_variants.Dir dirents)) }
    ensures value { IfOk result (λ text. (dirents : List SpecDirent) → fs_of bytes.now ≡ Ok (file_variants.Dir dirents) → IsTextAt (time_of moment) dirents text) }
{
    let object = match FsObject::read(alloc, bytes) {
        Ok(object) => object,
        Err(ReadFault::Bad(_)) => unreachable!(),
        Err(ReadFault::NoMemory) => return Err(AllocError),
    };
    match object {
        FsObject::Dir(directory) => written_at(alloc, moment, directory),
        FsObject::File(_) => unreachable!(),
    }
}

/// The text of a directory once those that it lists have the time of the moment.
fn written_at(alloc: Global, moment: u64, directory: DirObject) -> Result<Bytes, AllocError>
    requires proper { All IsProperEntry directory }
    ensures value { IfOk result (IsTextAt (time_of moment) directory) }
{
    let DirObject { entries } = directory;
    let timed = entries_at(alloc, moment, entries.into_vec())?;
    directory_text(alloc, Items::from_vec(timed))
}

/// The text of a directory of these entries.
fn directory_text(alloc: Global, entries: Items<Dirent>) -> Result<Bytes, AllocError>
    requires ready { IsDistinct bytes_eq (names_of entries) }
    ensures value { IfOk result (λ text. All IsProperEntry entries → fs_of text ≡ Ok (file_variants.Dir (in_written_order entries))) }
{
    let object = FsObject::Dir(DirObject { entries });
    object.write(alloc)
}

/// The entries, of which directories have the time of the moment.
fn entries_at(alloc: Global, moment: u64, entries: Vec<Dirent>) -> Result<Vec<Dirent>, AllocError>
    ensures value { IfOk result (λ timed. timed.items ≡ list_map (entry_at (time_of moment)) entries.items) }
{
    let mut left = entries;
    let mut timed = Vec::with_capacity(alloc, left.len())?;
    while let Some(entry) = left.pop() {
        timed.push(entry_at(moment, entry))?;
    }
    timed.reverse();
    Ok(timed)
}

/// The entry, which has the time of the moment if it is a directory's.
fn entry_at(moment: u64, entry: Dirent) -> Dirent
    ensures value { result ≡ entry_at (time_of moment) entry }
{
    if !is_directory_mode(entry.mode) {
        return entry;
    }
    let mut entry = entry;
    entry.mode = DIRECTORY_TYPE;
    entry.mtime = time_of(moment);
    entry
}
