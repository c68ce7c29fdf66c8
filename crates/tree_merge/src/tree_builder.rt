//! The directory objects of a tree, made of its entries by path.
ghost use Rattle.std.specs.Prelude.{◌≡◌, ◌++◌, ◌∷◌, [], ℕ, List, None, IfErr, IfOk, OnOk, OnErr, Ok, Err, ◌⊎◌, ◌≢◌, ◌↔◌, if◌then◌else◌};
ghost use Rattle.std.specs.FinMap as map;
ghost use Rattle.std.specs.List.{IsDistinct};
ghost use Rattle.std.specs.Ordering.{eq_by_cmp};
ghost use Rattle.std.specs.Str.{bytes_eq};
ghost use Rattle.ids.specs.Key.{Objects};
ghost use Rattle.ids.specs.ObjectId.{nil};
ghost use Rattle.tree_model.specs.Path.{PathV, path_cmp};
ghost use Rattle.fs_objects.specs.Directory.{names_of};
ghost use Rattle.fs_objects.specs.FsObject.{fs_of};
ghost use Rattle.fs_objects.specs.Proper.{IsProper};
ghost use Rattle.fs_objects.specs.Spelling.{as_written};
ghost use Rattle.object_graph.specs.Objects.{AreEntriesOf, dirents_at};
ghost use Rattle.object_graph.specs.Unchanged.{Keeps};
ghost use Rattle.object_graph.specs.declared.entry.Entry.TheVariants.{Dir as dir_entry};
ghost use Rattle.tree_merge.specs.Sides.{Entries};
ghost use Rattle.tree_merge.specs.TreeBuilding.{AreThere, Given, IsSound, AreNamed, AreDirectories, AreDirectoriesOver, HasListed, IsCausedInBuild, IsDirectoryMade, IsDirectoryOf, IsClash, IsEntryListed, IsMade, IsNilOrMade, IsOwnListed, IsRefused, IsRefusedEntry, IsRefusedList, IsShownPart, Lists, HasMade, held_at, directory_id_in, dirent_of, kept_ids};

use crate::opening::Kept;
use crate::tables::{drop_root, put};
use fs_objects::{DIRECTORY_TYPE, DirObject, Dirent, FsObject};
use ids::{Bytes, Items, Key, KeyTable, Kind, ObjId, Text};
use object_graph::Entry;
use std::alloc::{AllocError, Global};
use tree_model::{Name, Path, PathTable};

/// A tree as objects.
#[derive(Drop)]
pub struct BuiltTree {
    /// The root directory; forty zeros for the tree of no paths.
    pub root: ObjId,
    /// The objects of the tree's directories, each under its key.
    pub made: KeyTable<Bytes>,
}

/// Why a tree has no objects.
#[derive(Drop)]
pub enum BuildFault {
    /// Two directory objects have this id, or it is forty zeros.
    Taken(ObjId),
    NoMemory,
}

impl From<AllocError> for BuildFault {
    ghost use Rattle.std.specs.Prelude.{◌≡◌};
    ghost use Rattle.tree_merge.specs.declared.tree_builder.BuildFault.{BuildFault};

    ghost from_gives = { λ _ r. r ≡ BuildFault.NoMemory };

    fn from(_fault: AllocError) -> BuildFault {
        BuildFault::NoMemory
    }
}

/// Makes the directory objects of a tree.
///
/// It goes from the last path to the first, so that each directory's entries are complete before its own object is made.
/// Directories have mtime 0, and no object is made for an empty one.
pub fn build(alloc: Global, entries: PathTable<Entry>) -> Result<BuiltTree, BuildFault>
    ensures value { IfOk result (λ built. IsSound entries → (objects : Objects) → Keeps built.made objects → AreEntriesOf objects built.root entries) }
    ensures needed { IfOk result (λ built. IsSound entries → (id : List ℕ) → HasMade built.made id
        → (objects : Objects) → Keeps built.made objects → IsDirectoryOf objects built.root id) }
    ensures dirs { IfOk result (λ built. IsSound entries → AreDirectories entries built.made × IsNilOrMade built.made built.root) }
    ensures zeros { IfOk result (λ built. IsSound entries → (built.root ≡ nil) ↔ ((path : PathV) → map.get entries path ≡ None)) }
    ensures stays { IfOk result (λ built. AreNamed built.made) }

    // The refusal. Want of memory may come in its place.
    ensures taken { (id : List ℕ) → result ≡ Err (BuildFault.Taken id) → IsSound entries → IsClash entries id }
    ensures cause { IfErr result IsCausedInBuild }
{
    let kept = PathTable::new(alloc);
    build_over(alloc, entries, &kept)
}

/// Makes the directory objects of a tree, of which some directories are kept by their ids, as they are stored: what lies below
/// those isn't among the entries.
pub(crate) fn build_over(
    alloc: Global,
    mut entries: PathTable<Entry>,
    kept: &PathTable<Kept>,
) -> Result<BuiltTree, BuildFault>
    ensures value { IfOk result (λ built. (stored : Given) → (whole : Entries) → IsShownPart stored (kept_ids kept.now) whole entries
        → (objects : Objects) → AreThere stored objects → Keeps built.made objects → AreEntriesOf objects built.root whole) }
    ensures needed { IfOk result (λ built. (stored : Given) → (whole : Entries) → IsShownPart stored (kept_ids kept.now) whole entries
        → (id : List ℕ) → HasMade built.made id → (objects : Objects) → Keeps built.made objects → IsDirectoryOf objects built.root id) }
    ensures ids { IfOk result (λ built. (stored : Given) → (whole : Entries) → IsShownPart stored (kept_ids kept.now) whole entries
        → (dir : PathV) → (id : List ℕ) → kept_ids kept.now dir ≡ Some id → (objects : Objects) → Keeps built.made objects
        → directory_id_in objects (dirents_at objects built.root) dir ≡ Some id) }
    ensures dirs { IfOk result (λ built. (stored : Given) → (whole : Entries) → IsShownPart stored (kept_ids kept.now) whole entries
        → AreDirectoriesOver (kept_ids kept.now) whole built.made × IsNilOrMade built.made built.root) }
    ensures zeros { IfOk result (λ built. (stored : Given) → (whole : Entries) → IsShownPart stored (kept_ids kept.now) whole entries
        → (built.root ≡ nil) ↔ ((path : PathV) → map.get whole path ≡ None)) }
    ensures stays { IfOk result (λ built. AreNamed built.made) }
    ensures taken { (id : List ℕ) → result ≡ Err (BuildFault.Taken id) → (stored : Given) → (whole : Entries) → IsShownPart stored (kept_ids kept.now) whole entries
        → IsClash whole id }
    ensures cause { IfErr result IsCausedInBuild }
{
    drop_root(alloc, &mut entries);
    let mut held = PathTable::new(alloc);
    let mut made = KeyTable::new(alloc);
    while let Some((path, entry)) = entries.pop_last() {
        match add_entry(alloc, path, entry, kept, &mut held, &mut made) {
            Ok(()) => {}
            Err(fault) => return Err(fault),
        }
    }
    let root = Path::root(alloc);
    let top = held.remove(&root);
    match make_directory(alloc, top, &mut made) {
        Ok(root) => Ok(BuiltTree { root, made }),
        Err(fault) => Err(fault),
    }
}

/// Lists an entry in the directory that it stands in. The entries of a directory are listed already, or it is kept by its id.
fn add_entry(
    alloc: Global,
    path: Path,
    entry: Entry,
    kept: &PathTable<Kept>,
    held: &mut PathTable<Items<Dirent>>,
    made: &mut KeyTable<Bytes>,
) -> Result<(), BuildFault>
    requires some { path ≢ [] }
    requires ready { IsDistinct bytes_eq (names_of (held_at (map.get held.old path))) }
    ensures ok { OnOk result (HasListed (kept_ids kept.now path) path entry held.old held.new made.old made.new) }
    ensures stays { OnOk result (Keeps made.old made.new) }
    ensures named { AreNamed made.old → AreNamed made.new }
    ensures taken { (id : List ℕ) → result ≡ Err (BuildFault.Taken id) → IsRefusedEntry (kept_ids kept.now path) entry made.old (held_at (map.get held.old path)) id }
{
    let entries = held.remove(&path);
    let own = kept_at(kept, &path);
    let Some((dir, name)) = path.split_last() else {
        unreachable!()
    };
    let dirent = match make_dirent(alloc, name, entry, own, entries, made) {
        Ok(dirent) => dirent,
        Err(fault) => return Err(fault),
    };
    match hold(alloc, held, dir, dirent) {
        Ok(()) => Ok(()),
        Err(_) => Err(BuildFault::NoMemory),
    }
}

/// The id of the directory that is kept at a path, if there is one.
fn kept_at(kept: &PathTable<Kept>, path: &Path) -> Option<ObjId>
    ensures value { result ≡ kept_ids kept.now path.now }
{
    match kept.get(path) {
        Some(own) => Some(own.id),
        None => None,
    }
}

/// Adds an entry to those of a directory.
fn hold(
    alloc: Global,
    held: &mut PathTable<Items<Dirent>>,
    dir: Path,
    dirent: Dirent,
) -> Result<(), AllocError>
    ensures ok { OnOk result ((q : PathV) → held_at (map.get held.new q)
        ≡ (if eq_by_cmp path_cmp q dir then held_at (map.get held.old q) ++ dirent ∷ [] else held_at (map.get held.old q))) }
{
    let mut listed = or_new(alloc, held.remove(&dir));
    listed.push(dirent)?;
    put(held, dir, listed)
}

fn or_new(alloc: Global, listed: Option<Items<Dirent>>) -> Items<Dirent>
    ensures value { result ≡ held_at listed }
{
    match listed {
        Some(listed) => listed,
        None => Items::new(alloc),
    }
}

/// The entry of a file, or of a directory that is kept by its id, or of one with these entries, whose object is made.
fn make_dirent(
    alloc: Global,
    name: Name,
    entry: Entry,
    own: Option<ObjId>,
    entries: Option<Items<Dirent>>,
    made: &mut KeyTable<Bytes>,
) -> Result<Dirent, BuildFault>
    requires ready { IsDistinct bytes_eq (names_of (held_at entries)) }
    ensures value { IfOk result (IsEntryListed made.new name own entry (held_at entries)) }
    ensures stays { OnOk result (Keeps made.old made.new) }
    ensures told { IfOk result (λ dirent. (id : List ℕ) → HasMade made.new id → (HasMade made.old id) ⊎ IsOwnListed own entry dirent id) }
    ensures named { AreNamed made.old → AreNamed made.new }
    ensures taken { (id : List ℕ) → result ≡ Err (BuildFault.Taken id) → IsRefusedEntry own entry made.old (held_at entries) id }
{
    match entry {
        Entry::File {
            id,
            mode,
            mtime,
            modifier,
            size,
        } => Ok(Dirent {
            name,
            id,
            mode,
            mtime,
            modifier,
            size,
        }),
        Entry::Dir => match own {
            Some(id) => directory_dirent(alloc, name, id),
            None => make_named(alloc, name, entries, made),
        },
    }
}

/// The entry of a directory with these entries, whose object is made.
fn make_named(
    alloc: Global,
    name: Name,
    entries: Option<Items<Dirent>>,
    made: &mut KeyTable<Bytes>,
) -> Result<Dirent, BuildFault>
    requires ready { IsDistinct bytes_eq (names_of (held_at entries)) }
    ensures value { IfOk result (IsDirectoryMade made.new name (held_at entries)) }
    ensures stays { OnOk result (Keeps made.old made.new) }
    ensures told { IfOk result (λ dirent. (id : List ℕ) → HasMade made.new id → (HasMade made.old id) ⊎ (id ≡ dirent.id)) }
    ensures named { AreNamed made.old → AreNamed made.new }
    ensures taken { (id : List ℕ) → result ≡ Err (BuildFault.Taken id) → IsRefusedList made.old (held_at entries) id }
{
    match make_directory(alloc, entries, made) {
        Ok(id) => directory_dirent(alloc, name, id),
        Err(fault) => Err(fault),
    }
}

/// The entry of a directory.
fn directory_dirent(alloc: Global, name: Name, id: ObjId) -> Result<Dirent, BuildFault>
    ensures value { IfOk result (λ dirent. dirent ≡ dirent_of name id) }
    ensures memory { (id : List ℕ) → result ≢ Err (BuildFault.Taken id) }
{
    match Text::copy(alloc, "") {
        Ok(modifier) => Ok(Dirent {
            name,
            id,
            mode: DIRECTORY_TYPE,
            mtime: 0,
            modifier,
            size: 0,
        }),
        Err(_) => Err(BuildFault::NoMemory),
    }
}

/// The object of a directory, of which these entries are known, if any: none where it has none.
fn make_directory(
    alloc: Global,
    entries: Option<Items<Dirent>>,
    made: &mut KeyTable<Bytes>,
) -> Result<ObjId, BuildFault>
    requires ready { IsDistinct bytes_eq (names_of (held_at entries)) }
    ensures value { IfOk result (λ id. Lists made.new id (held_at entries)) }
    ensures stays { OnOk result (Keeps made.old made.new) }
    ensures told { IfOk result (λ own. (id : List ℕ) → HasMade made.new id → (HasMade made.old id) ⊎ (id ≡ own)) }
    ensures named { AreNamed made.old → AreNamed made.new }
    ensures taken { (id : List ℕ) → result ≡ Err (BuildFault.Taken id) → IsRefusedList made.old (held_at entries) id }
{
    match entries {
        Some(entries) => make_listed(alloc, entries, made),
        None => Ok(ObjId::NIL),
    }
}

/// The object of a directory with these entries, if there are any.
fn make_listed(
    alloc: Global,
    entries: Items<Dirent>,
    made: &mut KeyTable<Bytes>,
) -> Result<ObjId, BuildFault>
    requires ready { IsDistinct bytes_eq (names_of entries) }
    ensures value { IfOk result (λ id. Lists made.new id entries) }
    ensures stays { OnOk result (Keeps made.old made.new) }
    ensures told { IfOk result (λ own. (id : List ℕ) → HasMade made.new id → (HasMade made.old id) ⊎ (id ≡ own)) }
    ensures named { AreNamed made.old → AreNamed made.new }
    ensures taken { (id : List ℕ) → result ≡ Err (BuildFault.Taken id) → IsRefusedList made.old entries id }
{
    if entries.is_empty() {
        return Ok(ObjId::NIL);
    }
    match directory_text(alloc, entries) {
        Ok(bytes) => make_object(bytes, made),
        Err(_) => Err(BuildFault::NoMemory),
    }
}

/// The text of a directory object with these entries.
fn directory_text(alloc: Global, entries: Items<Dirent>) -> Result<Bytes, AllocError>
    requires ready { IsDistinct bytes_eq (names_of entries) }
    ensures value { IfOk result (λ text. IsProper (FsObject.Dir entries) → fs_of text ≡ Ok (as_written (FsObject.Dir entries))) }
{
    let object = FsObject::Dir(DirObject { entries });
    object.write(alloc)
}

/// Keeps an object under its id. The same object is kept once.
fn make_object(bytes: Bytes, made: &mut KeyTable<Bytes>) -> Result<ObjId, BuildFault>
    ensures value { IfOk result (λ id. IsMade made.new id bytes) }
    ensures stays { OnOk result (Keeps made.old made.new) }
    ensures told { IfOk result (λ own. (id : List ℕ) → HasMade made.new id → (HasMade made.old id) ⊎ (id ≡ own)) }
    ensures named { AreNamed made.old → AreNamed made.new }
    ensures taken { (id : List ℕ) → result ≡ Err (BuildFault.Taken id) → IsRefused made.old bytes id }
{
    let id = ObjId::of(bytes.slice());
    if id.is_nil() {
        return Err(BuildFault::Taken(id));
    }
    let key = Key { kind: Kind::Fs, id };
    match made.get(&key) {
        Some(other) => {
            if are_equal(other.slice(), bytes.slice()) {
                return Ok(id);
            }
            return Err(BuildFault::Taken(id));
        }
        None => {}
    }
    match keep(made, key, bytes) {
        Ok(()) => Ok(id),
        Err(_) => Err(BuildFault::NoMemory),
    }
}

pub(crate) fn are_equal(left: &[u8], right: &[u8]) -> bool
    ensures value { result ≡ bytes_eq left.now right.now }
{
    left == right
}

pub(crate) fn keep(made: &mut KeyTable<Bytes>, key: Key, bytes: Bytes) -> Result<(), AllocError>
    ensures ok { OnOk result (made.new ≡ map.insert made.old key bytes) }
    ensures err { OnErr result (made.new ≡ made.old) }
{
    match made.insert(key, bytes) {
        Ok(_) => Ok(()),
        Err(fault) => Err(fault),
    }
}
