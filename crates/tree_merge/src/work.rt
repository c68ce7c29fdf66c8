//! What a merge has made so far, and what refuses it.
ghost use Rattle.std.specs.Prelude.{◌≡◌, ◌++◌, ℕ, List, IfOk, OnOk, Err, Some};
ghost use Rattle.std.specs.FinMap as map;
ghost use Rattle.std.specs.Ordering.{is_lt};
ghost use Rattle.tree_model.specs.Path.{PathV, path_cmp};
ghost use Rattle.tree_model.specs.MergeParts.{earlier};
ghost use Rattle.object_graph.specs.Unchanged.{Keeps};
ghost use Rattle.tree_merge.specs.TreeBuilding.{AreNamed, IsOwnName};
ghost use Rattle.tree_merge.specs.WorkSoFar.{AreFrom, IsFrom, IsOtherThere, IsRefusedOther, comes_first, copies_over, long_told};

use crate::tables::put;
use crate::tree_builder::{BuildFault, are_equal, keep};
use ids::{Bytes, Key, KeyTable, ObjId};
use std::alloc::{AllocError, Global};
use std::cmp::Ordering;
use tree_model::{Name, Path, PathTable};

/// What a merge has made so far, and what refuses it. Once it is known to be refused no object is made any more: what is still
/// told is which refusal it is.
#[derive(Drop)]
pub(crate) struct Work {
    /// The objects that were made, those that are stored already among them, each under its key.
    pub made: KeyTable<Bytes>,
    /// The path of each conflict copy, by the path that its file left.
    pub copies: PathTable<Path>,
    /// Of the files whose conflict names are too long the first one so far, in the byte order of paths.
    pub long: Option<Long>,
    /// Why no object is made any more, where no name is too long.
    pub stop: Option<Stop>,
}

/// Why a merge makes no object any more.
#[derive(Drop)]
pub(crate) enum Stop {
    /// A directory has more paths below it than a tree may have.
    Many,
    /// A directory can't be stored under this id.
    Taken(ObjId),
}

/// A file whose conflict name has so many bytes, over MAX_NAME.
#[derive(Drop)]
pub(crate) struct Long {
    pub path: Path,
    pub bytes: u64,
}

/// The path that stands behind a directory.
pub(crate) fn behind(alloc: Global, dir: &Path, path: &Path) -> Result<Path, AllocError>
    ensures value { IfOk result (λ whole. whole ≡ dir.now ++ path.now) }
{
    let mut whole = dir.copy(alloc)?;
    push_names(alloc, &mut whole, path.names())?;
    Ok(whole)
}

/// Adds names to a path.
fn push_names(alloc: Global, whole: &mut Path, names: &[Name]) -> Result<(), AllocError>
    ensures ok { OnOk result (whole.new ≡ whole.old ++ names.now) }
{
    for name in names {
        whole.push(name.copy(alloc)?)?;
    }
    Ok(())
}

/// Writes down a file whose conflict name is too long, where none is written down whose path comes first.
pub(crate) fn note_long(work: &mut Work, path: Path, bytes: u64)
    ensures ok { long_told work.new.long ≡ earlier (long_told work.old.long) (Some (path, bytes)) }
    ensures stays { (work.new.made ≡ work.old.made) × (work.new.copies ≡ work.old.copies) × (work.new.stop ≡ work.old.stop) }
{
    if !comes_first(&work.long, &path) {
        return;
    }
    work.long = Some(Long { path, bytes });
}

/// Whether the path stands before that of the file that is written down, if one is.
fn comes_first(long: &Option<Long>, path: &Path) -> bool
    ensures value { result ≡ comes_first (long_told long.now) path.now }
{
    match long {
        Some(long) => stands_before(path, &long.path),
        None => true,
    }
}

fn stands_before(left: &Path, right: &Path) -> bool
    ensures value { result ≡ is_lt (path_cmp left.now right.now) }
{
    match left.cmp(right) {
        Ordering::Less => true,
        Ordering::Equal => false,
        Ordering::Greater => false,
    }
}

/// Writes down the copies of a directory's files, behind its path.
pub(crate) fn take_copies(
    alloc: Global,
    dir: &Path,
    mut copies: PathTable<Path>,
    told: &mut PathTable<Path>,
) -> Result<(), AllocError>
    ensures ok { OnOk result ((q : PathV) → map.get told.new q ≡ copies_over dir.now copies told.old q) }
{
    while let Some((left, place)) = copies.pop_first() {
        put_behind(alloc, dir, &left, &place, told)?;
    }
    Ok(())
}

/// Writes down the copy of one file, behind the path of its directory.
fn put_behind(
    alloc: Global,
    dir: &Path,
    left: &Path,
    place: &Path,
    told: &mut PathTable<Path>,
) -> Result<(), AllocError>
    ensures ok { OnOk result (told.new ≡ map.insert told.old (dir.now ++ left.now) (dir.now ++ place.now)) }
{
    let whole = behind(alloc, dir, left)?;
    put(told, whole, behind(alloc, dir, place)?)
}

/// Adds the objects of one directory to those that were made, or tells the id of one that has other bytes there.
pub(crate) fn add_made(
    made: &mut KeyTable<Bytes>,
    mut more: KeyTable<Bytes>,
) -> Result<(), BuildFault>
    requires named { AreNamed more }
    ensures ok { OnOk result (Keeps more made.new) }
    ensures told { AreFrom made.old more made.new }
    ensures named { AreNamed made.old → AreNamed made.new }
    ensures stays { Keeps made.old made.new }
    ensures taken { (id : List ℕ) → result ≡ Err (BuildFault.Taken id) → IsRefusedOther made.old more id }
{
    while let Some(key) = more.next(None) {
        let Some(bytes) = more.remove(&key) else {
            unreachable!()
        };
        match add_one(made, key, bytes) {
            Ok(()) => {}
            Err(fault) => return Err(fault),
        }
    }
    Ok(())
}

fn add_one(made: &mut KeyTable<Bytes>, key: Key, bytes: Bytes) -> Result<(), BuildFault>
    requires named { IsOwnName key bytes }
    ensures ok { OnOk result (map.get made.new key ≡ Some bytes) }
    ensures told { IsFrom made.old key bytes made.new }
    ensures named { AreNamed made.old → AreNamed made.new }
    ensures stays { Keeps made.old made.new }
    ensures taken { (id : List ℕ) → result ≡ Err (BuildFault.Taken id) → IsOtherThere made.old key bytes id }
{
    match made.get(&key) {
        Some(other) => {
            if are_equal(other.slice(), bytes.slice()) {
                return Ok(());
            }
            return Err(BuildFault::Taken(key.id));
        }
        None => {}
    }
    match keep(made, key, bytes) {
        Ok(()) => Ok(()),
        Err(_) => Err(BuildFault::NoMemory),
    }
}
