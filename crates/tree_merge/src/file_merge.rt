//! The files at one path: which keeps its name, and which gets a conflict name.
ghost use Rattle.std.specs.Prelude.{◌≡◌, IfOk, Some, option_map, None};
ghost use Rattle.ids.specs.Key.{Objects};
ghost use Rattle.object_graph.specs.Unchanged.{Keeps};
ghost use Rattle.object_store.specs.StoreView.{objects_of};
ghost use Rattle.tree_model.specs.FileMerge.{same_file, same_version, choice};
ghost use Rattle.tree_walk.specs.Reading.{Reads};
ghost use Rattle.tree_merge.specs.Compared.{AreCompared, StayCompared};
ghost use Rattle.tree_merge.specs.FileEntry.{version_of};
ghost use Rattle.tree_merge.specs.FileChoice.{IsChoice, IsWholeIf, changed_both};
ghost use Rattle.tree_merge.specs.Telling.{AnswersWell, IsWhole};

use crate::compared::{Compared, same_contents};
use crate::file_entry::FileEntry;
use object_store::{Shelf, Store};
use std::alloc::Global;
use tree_walk::WalkFault;

/// The file that keeps its name at a path, and the one that gets a conflict name.
#[derive(Drop)]
pub(crate) struct Chosen {
    pub main: Option<FileEntry>,
    pub side: Option<FileEntry>,
}

/// The files of a path after a merge, by the first row of the table of docs/MERGE.md that holds.
pub(crate) fn choose<S: Shelf>(
    alloc: Global,
    store: &mut Store<S>,
    compared: &mut Compared,
    base: Option<FileEntry>,
    head: Option<FileEntry>,
    pushed: Option<FileEntry>,
) -> Result<Chosen, WalkFault>
    ensures value { (objects : Objects) → objects_of S.contents store.old ≡ Some objects
        → AreCompared objects compared.old → (more : Objects) → Keeps objects more
        → IsWholeIf objects base → IsWholeIf objects head → IsWholeIf objects pushed
        → AnswersWell objects (IsChoice more (choice (option_map (version_of more) base) (option_map (version_of more) head) (option_map (version_of more) pushed))) result }
    ensures whole { IfOk result (λ chosen. (objects : Objects) → IsWholeIf objects base → IsWholeIf objects head → IsWholeIf objects pushed
        → IsWholeIf objects chosen.main × IsWholeIf objects chosen.side) }
    ensures known { StayCompared (objects_of S.contents store.old) compared.old compared.new }
    ensures stays { Reads S.contents S.may_give S.texts S.faults store.old store.new result }
{
    if same_files(alloc, store, compared, &head, &pushed)? {
        return Ok(only(head)); // the same change on both sides
    }
    if same_files(alloc, store, compared, &head, &base)? {
        return Ok(only(pushed)); // only the pushed side changed
    }
    if same_files(alloc, store, compared, &pushed, &base)? {
        return Ok(only(head)); // only the head changed
    }
    Ok(both_changed(head, pushed))
}

/// Both sides changed: a change beats a deletion, and of two changes both stay.
fn both_changed(head: Option<FileEntry>, pushed: Option<FileEntry>) -> Chosen
    ensures value { result ≡ changed_both head pushed }
    ensures whole { (objects : Objects) → IsWholeIf objects head → IsWholeIf objects pushed → IsWholeIf objects result.main × IsWholeIf objects result.side }
{
    match head {
        None => only(pushed),
        Some(head) => Chosen {
            main: Some(head),
            side: pushed,
        },
    }
}

fn only(file: Option<FileEntry>) -> Chosen
    ensures value { result ≡ record { main = file; side = None } }
{
    Chosen {
        main: file,
        side: None,
    }
}

/// Whether two files, or their absence, are the same: equal bytes and modes.
fn same_files<S: Shelf>(
    alloc: Global,
    store: &mut Store<S>,
    compared: &mut Compared,
    left: &Option<FileEntry>,
    right: &Option<FileEntry>,
) -> Result<bool, WalkFault>
    ensures value { (objects : Objects) → objects_of S.contents store.old ≡ Some objects
        → AreCompared objects compared.old → (more : Objects) → Keeps objects more → IsWholeIf objects left.now → IsWholeIf objects right.now
        → AnswersWell objects (λ same. same ≡ same_file (option_map (version_of more) left.now) (option_map (version_of more) right.now)) result }
    ensures known { StayCompared (objects_of S.contents store.old) compared.old compared.new }
    ensures stays { Reads S.contents S.may_give S.texts S.faults store.old store.new result }
{
    match (left, right) {
        (Some(left), Some(right)) => same_versions(alloc, store, compared, left, right),
        (None, None) => Ok(true),
        _ => Ok(false),
    }
}

/// Whether two files have equal bytes and modes. Equal ids are not looked up.
fn same_versions<S: Shelf>(
    alloc: Global,
    store: &mut Store<S>,
    compared: &mut Compared,
    left: &FileEntry,
    right: &FileEntry,
) -> Result<bool, WalkFault>
    ensures value { (objects : Objects) → objects_of S.contents store.old ≡ Some objects
        → AreCompared objects compared.old → (more : Objects) → Keeps objects more → IsWhole objects left.now.id → IsWhole objects right.now.id
        → AnswersWell objects (λ same. same ≡ same_version (version_of more left.now) (version_of more right.now)) result }
    ensures known { StayCompared (objects_of S.contents store.old) compared.old compared.new }
    ensures stays { Reads S.contents S.may_give S.texts S.faults store.old store.new result }
{
    if left.mode != right.mode {
        return Ok(false);
    }
    if left.id == right.id {
        return Ok(true);
    }
    same_contents(alloc, store, compared, left.id, right.id)
}
