//! The names that files get which leave theirs.
ghost use Rattle.std.specs.Prelude.{◌≡◌, ◌≢◌, ◌≤◌, ◌+◌, [], ℕ, IfOk, OnOk, None, Err};
ghost use Rattle.std.specs.FinMap as map;
ghost use Rattle.ids.specs.Key.{Objects};
ghost use Rattle.tree_model.specs.Path.{PathV};
ghost use Rattle.tree_model.specs.DirectorySurvival.{Sides};
ghost use Rattle.tree_merge.specs.Sides.{AreTrees};
ghost use Rattle.tree_merge.specs.Decision.{AreWholeIn, IsDecided, IsWholeDecided};
ghost use Rattle.tree_merge.specs.ConflictNaming.{IsNamed, IsFreePlace, IsLongPlace, IsPlaceAt, IsLongAt, HasCopied};

use crate::decision::Decided;
use crate::file_entry::FileEntry;
use crate::tables::put;
use conflict_names::{ConflictFault, conflict_name};
use object_graph::Entry;
use std::alloc::{AllocError, Global};
use tree_model::{Path, PathTable};

/// A merged tree with its conflict copies.
#[derive(Drop)]
pub(crate) struct Named {
    pub nodes: PathTable<Entry>,
    /// The path of each conflict copy, by the path that its file left.
    pub copies: PathTable<Path>,
}

/// Why a conflict copy has no name.
#[derive(Drop)]
pub(crate) enum CopyFault {
    /// The conflict name of the file at this path has so many bytes, over MAX_NAME.
    TooLong(Path, u64),
    NoMemory,
}

impl From<AllocError> for CopyFault {
    ghost use Rattle.std.specs.Prelude.{◌≡◌};
    ghost use Rattle.tree_merge.specs.declared.conflict_copies.CopyFault.{CopyFault};

    ghost from_gives = { λ _ r. r ≡ CopyFault.NoMemory };

    fn from(_fault: AllocError) -> CopyFault {
        CopyFault::NoMemory
    }
}

/// Puts each file that leaves its path beside it, under the conflict name of the least number that is free.
pub(crate) fn name_leavers(alloc: Global, decided: Decided) -> Result<Named, CopyFault>
    requires some { map.get decided.leavers [] ≡ None }
    requires fits { map.len decided.known + map.len decided.leavers ≤ 4_000_000_000 }
    ensures value { (objects : Objects) → (s : Sides) → AreTrees s → IsDecided objects s decided → IsNamed objects s result }
    ensures whole { IfOk result (λ named. (objects : Objects) → IsWholeDecided objects decided → AreWholeIn objects named.nodes) }
{
    let Decided {
        mut nodes,
        mut leavers,
        mut known,
    } = decided;
    let mut copies = PathTable::new(alloc);
    while let Some((path, file)) = leavers.pop_first() {
        let place = match free_place(alloc, &known, &path, &file) {
            Ok(place) => place,
            Err(fault) => return Err(fault),
        };
        match put_copy(
            alloc,
            path,
            place,
            file,
            &mut known,
            &mut nodes,
            &mut copies,
        ) {
            Ok(()) => {}
            Err(_) => return Err(CopyFault::NoMemory),
        }
    }
    Ok(Named { nodes, copies })
}

/// The place of a file's conflict copy: that of the least number from 1 on which is no known path.
fn free_place(
    alloc: Global,
    known: &PathTable<()>,
    path: &Path,
    file: &FileEntry,
) -> Result<Path, CopyFault>
    requires some { path.now ≢ [] }
    requires fits { map.len known.now ≤ 4_000_000_000 }
    ensures ok { IfOk result (IsFreePlace known.now path.now file.now) }
    ensures too_long { (of : PathV) → (bytes : ℕ) → result ≡ Err (CopyFault.TooLong of bytes) → IsLongPlace known.now path.now file.now of bytes }
{
    let last = known.len() as u32 + 2;
    for number in 1..last {
        let place = match place_at(alloc, path, file, number) {
            Ok(place) => place,
            Err(fault) => return Err(fault),
        };
        if !known.has(&place) {
            return Ok(place);
        }
    }
    unreachable!()
}

/// The place of a file's conflict copy of this number.
fn place_at(alloc: Global, path: &Path, file: &FileEntry, number: u32) -> Result<Path, CopyFault>
    requires some { path.now ≢ [] }
    requires from_one { 1 ≤ number }
    ensures value { IfOk result (IsPlaceAt path.now file.now number) }
    ensures too_long { (of : PathV) → (bytes : ℕ) → result ≡ Err (CopyFault.TooLong of bytes) → IsLongAt path.now file.now number of bytes }
{
    let Some((dir, name)) = path.copy(alloc)?.split_last() else {
        unreachable!()
    };
    match conflict_name(alloc, &name, &file.modifier, file.changed(), number) {
        Ok(name) => Ok(dir.child(alloc, &name)?),
        Err(ConflictFault::TooLong(bytes)) => Err(CopyFault::TooLong(path.copy(alloc)?, bytes)),
        Err(ConflictFault::NoMemory) => Err(CopyFault::NoMemory),
    }
}

/// Puts a file that leaves a path at the place of its conflict copy.
fn put_copy(
    alloc: Global,
    path: Path,
    place: Path,
    file: FileEntry,
    known: &mut PathTable<()>,
    nodes: &mut PathTable<Entry>,
    copies: &mut PathTable<Path>,
) -> Result<(), AllocError>
    ensures ok { OnOk result (HasCopied path place file known.old known.new nodes.old nodes.new copies.old copies.new) }
{
    put(known, place.copy(alloc)?, ())?;
    put(nodes, place.copy(alloc)?, file.into_entry())?;
    put(copies, path, place)
}
