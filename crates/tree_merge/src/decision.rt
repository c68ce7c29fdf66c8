//! Which directories survive a merge, which files keep their names, and which leave them.
ghost use Rattle.std.specs.Prelude.{◌≡◌, ◌≤◌, ◌||◌, Some, OnOk, IfOk, IfErr, [], None, is_some, option_map};
ghost use Rattle.std.specs.Option.{option_or};
ghost use Rattle.std.specs.FinMap as map;
ghost use Rattle.ids.specs.Key.{Objects};
ghost use Rattle.object_graph.specs.Unchanged.{Keeps};
ghost use Rattle.object_store.specs.StoreView.{objects_of};
ghost use Rattle.tree_model.specs.Path.{PathV};
ghost use Rattle.tree_model.specs.FileMerge.{Choice};
ghost use Rattle.tree_model.specs.DirectorySurvival.{Sides};
ghost use Rattle.tree_walk.specs.Reading.{Reads};
ghost use Rattle.tree_merge.specs.Compared.{AreCompared, StayCompared};
ghost use Rattle.tree_merge.specs.FileEntry.{as_entry};
ghost use Rattle.tree_merge.specs.FileChoice.{IsChoice, IsWholeIf, IsWholeThree, IsWholeAt};
ghost use Rattle.tree_merge.specs.Sides.{AreSeen, AreTrees};
ghost use Rattle.tree_merge.specs.Decision.{choice_in, kept_by, IsPlaced, HasSettled, HasGrown, IsDecided, IsDecidedAt, IsWholeDecided, IsWholePlacing};
ghost use Rattle.tree_merge.specs.Telling.{AnswersWell};

use crate::compared::Compared;
use crate::file_entry::{FileEntry, file_in, is_directory};
use crate::file_merge::{Chosen, choose};
use crate::sides::Three;
use crate::tables::{mark_parent, put, put_if};
use object_graph::Entry;
use object_store::{Shelf, Store, StoreFault};
use std::alloc::{AllocError, Global};
use tree_model::{Path, PathTable};
use tree_walk::WalkFault;

/// What a merge decides at the paths of the three trees.
#[derive(Drop)]
pub(crate) struct Decided {
    /// The directories that survive, and the files that keep their names.
    pub nodes: PathTable<Entry>,
    /// The files that leave their names, by their paths.
    pub leavers: PathTable<FileEntry>,
    /// The paths of the three trees.
    pub known: PathTable<()>,
}

/// What is decided at one path.
#[derive(Drop)]
pub(crate) struct Placing {
    pub node: Option<Entry>,
    pub leaver: Option<FileEntry>,
    /// A directory survives here, or a file gets its place here or beside it: so the directory above survives.
    pub keeps: bool,
}

/// Decides at each path of the three trees.
///
/// It goes from the last path to the first, so that a directory's entries are decided before it.
pub(crate) fn decide<S: Shelf>(
    alloc: Global,
    store: &mut Store<S>,
    compared: &mut Compared,
    mut joined: PathTable<Three>,
) -> Result<Decided, WalkFault>
    ensures value { (objects : Objects) → objects_of S.contents store.old ≡ Some objects
        → AreCompared objects compared.old → (more : Objects) → Keeps objects more
        → ((path : PathV) → IsWholeAt objects (map.get joined path))
        → (s : Sides) → AreTrees s → AreSeen more joined s → AnswersWell objects (IsDecided more s) result }
    ensures whole { IfOk result (λ decided. (objects : Objects) → ((path : PathV) → IsWholeAt objects (map.get joined path)) → IsWholeDecided objects decided) }
    ensures bound { IfOk result (λ decided. map.len decided.leavers ≤ map.len joined) }
    ensures few { IfOk result (λ decided. map.len decided.known ≤ map.len joined) }
    ensures root { IfOk result (λ decided. map.get joined [] ≡ None → map.get decided.leavers [] ≡ None) }
    ensures known { StayCompared (objects_of S.contents store.old) compared.old compared.new }
    ensures stays { Reads S.contents S.may_give S.texts S.faults store.old store.new result }
{
    let mut staying = PathTable::new(alloc);
    let mut decided = Decided {
        nodes: PathTable::new(alloc),
        leavers: PathTable::new(alloc),
        known: PathTable::new(alloc),
    };
    while let Some((path, three)) = joined.pop_last() {
        match decide_at(
            alloc,
            store,
            compared,
            path,
            three,
            &mut staying,
            &mut decided,
        ) {
            Ok(()) => {}
            Err(fault) => return Err(fault),
        }
    }
    Ok(decided)
}

/// Decides at one path, all paths behind which are decided.
fn decide_at<S: Shelf>(
    alloc: Global,
    store: &mut Store<S>,
    compared: &mut Compared,
    path: Path,
    three: Three,
    staying: &mut PathTable<()>,
    decided: &mut Decided,
) -> Result<(), WalkFault>
    ensures value { (objects : Objects) → objects_of S.contents store.old ≡ Some objects
        → AreCompared objects compared.old → (more : Objects) → Keeps objects more → IsWholeThree objects three
        → AnswersWell objects (λ done. IsDecidedAt more path three staying.old staying.new decided.old decided.new) result }
    ensures whole { OnOk result ((objects : Objects) → IsWholeThree objects three → IsWholeDecided objects decided.old → IsWholeDecided objects decided.new) }
    ensures bound { OnOk result (HasGrown path decided.old decided.new) }
    ensures known { StayCompared (objects_of S.contents store.old) compared.old compared.new }
    ensures stays { Reads S.contents S.may_give S.texts S.faults store.old store.new result }
{
    let is_marked = staying.has(&path);
    match place(alloc, store, compared, three, is_marked) {
        Ok(placing) => settle(alloc, path, placing, staying, decided),
        Err(fault) => Err(fault),
    }
}

/// Decides at one path, where it is known whether an entry below it makes it survive.
fn place<S: Shelf>(
    alloc: Global,
    store: &mut Store<S>,
    compared: &mut Compared,
    three: Three,
    is_marked: bool,
) -> Result<Placing, WalkFault>
    ensures value { (objects : Objects) → objects_of S.contents store.old ≡ Some objects
        → AreCompared objects compared.old → (more : Objects) → Keeps objects more → IsWholeThree objects three
        → AnswersWell objects (IsPlaced more (choice_in more three) (kept_by three || is_marked)) result }
    ensures whole { IfOk result (λ placing. (objects : Objects) → IsWholeThree objects three → IsWholePlacing objects placing) }
    ensures known { StayCompared (objects_of S.contents store.old) compared.old compared.new }
    ensures stays { Reads S.contents S.may_give S.texts S.faults store.old store.new result }
{
    let stays = is_kept(&three) | is_marked;
    let Three { base, head, pushed } = three;
    let chosen = choose(
        alloc,
        store,
        compared,
        file_in(base),
        file_in(head),
        file_in(pushed),
    )?;
    Ok(placing_of(chosen, stays))
}

/// Whether a directory survives by what the trees have at its path alone.
fn is_kept(three: &Three) -> bool
    ensures value { result ≡ kept_by three.now }
{
    let base = is_directory(&three.base);
    let head = is_directory(&three.head);
    let pushed = is_directory(&three.pushed);
    (head & pushed) | ((head | pushed) & !base)
}

fn placing_of(chosen: Chosen, stays: bool) -> Placing
    ensures value { (objects : Objects) → (files : Choice) → IsChoice objects files chosen → IsPlaced objects files stays result }
    ensures whole { (objects : Objects) → IsWholeIf objects chosen.main → IsWholeIf objects chosen.side → IsWholePlacing objects result }
{
    let Chosen { main, side } = chosen;
    let keeps = main.is_some() | side.is_some() | stays;
    if stays {
        Placing {
            node: Some(Entry::Dir),
            leaver: first_of(side, main),
            keeps,
        }
    } else {
        Placing {
            node: entry_of(main),
            leaver: side,
            keeps,
        }
    }
}

fn first_of(file: Option<FileEntry>, other: Option<FileEntry>) -> Option<FileEntry>
    ensures value { result ≡ option_or file other }
{
    match file {
        Some(file) => Some(file),
        None => other,
    }
}

fn entry_of(file: Option<FileEntry>) -> Option<Entry>
    ensures value { result ≡ option_map as_entry file }
{
    match file {
        Some(file) => Some(file.into_entry()),
        None => None,
    }
}

/// Writes down what is decided at one path.
fn settle(
    alloc: Global,
    path: Path,
    placing: Placing,
    staying: &mut PathTable<()>,
    decided: &mut Decided,
) -> Result<(), WalkFault>
    ensures ok { OnOk result (HasSettled path placing staying.old staying.new decided.old decided.new) }
    ensures bound { OnOk result (HasGrown path decided.old decided.new) }
    ensures err { IfErr result (λ fault. fault ≡ WalkFault.Store StoreFault.NoMemory) }
{
    match settle_in(alloc, path, placing, staying, decided) {
        Ok(()) => Ok(()),
        Err(_) => Err(WalkFault::Store(StoreFault::NoMemory)),
    }
}

fn settle_in(
    alloc: Global,
    path: Path,
    placing: Placing,
    staying: &mut PathTable<()>,
    decided: &mut Decided,
) -> Result<(), AllocError>
    ensures ok { OnOk result (HasSettled path placing staying.old staying.new decided.old decided.new) }
    ensures bound { OnOk result (HasGrown path decided.old decided.new) }
{
    let Placing {
        node,
        leaver,
        keeps,
    } = placing;
    mark_parent(alloc, staying, &path, keeps)?;
    put_if(alloc, &mut decided.nodes, &path, node)?;
    put_if(alloc, &mut decided.leavers, &path, leaver)?;
    put(&mut decided.known, path, ())
}
