//! The merge of three directories together with what lies below them: at each moment three directories' entries a level are held.
ghost use Rattle.std.specs.Prelude.{◌≡◌, ◌++◌, OnOk, Some};
ghost use Rattle.ids.specs.Key.{Objects};
ghost use Rattle.object_store.specs.StoreView.{objects_of};
ghost use Rattle.tree_walk.specs.KnownTrees.{Fits};
ghost use Rattle.tree_walk.specs.Reading.{Reads};
ghost use Rattle.tree_merge.specs.Compared.{AreCompared, StayCompared};
ghost use Rattle.tree_merge.specs.DirectoryMerge.{MergesDirectory, MergesEntry, MergesPart};
ghost use Rattle.tree_merge.specs.Opening.{AreWholeEntries, AreWholeSides};
ghost use Rattle.tree_merge.specs.Telling.{AnswersWell};
ghost use Rattle.tree_merge.specs.TreeBuilding.{AreNamed};
ghost use Rattle.tree_merge.specs.WorkSoFar.{IsCausedIn};

use crate::compared::Compared;
use crate::level::{Trio, next};
use crate::level_merge::merge_level;
use crate::opening::{
    Ids, Kept, Opened, ids_of, is_settled, level_at, own_part, part_of, put_entry,
};
use crate::work::{Work, behind};
use object_store::{Shelf, Store, StoreFault};
use std::alloc::Global;
use tree_model::{Path, PathTable};
use tree_walk::{Known, WalkFault};

/// Merges three directories at a path, and those below them that aren't settled, and tells what is left of them: nothing where
/// nothing survives below. Forty zeros stand for none.
#[cycle(directories)]
pub(crate) fn merge_directory<S: Shelf>(
    alloc: Global,
    store: &mut Store<S>,
    known: &mut Known,
    compared: &mut Compared,
    path: &Path,
    ids: &Ids,
    room: u32,
    work: &mut Work,
) -> Result<Option<Kept>, WalkFault>
    requires known { (objects : Objects) → objects_of S.contents store.old ≡ Some objects → Fits objects known.old }
    ensures value { (objects : Objects) → objects_of S.contents store.old ≡ Some objects → AreCompared objects compared.old → AreWholeSides objects room ids.now
        → AnswersWell objects (MergesDirectory objects path.now ids.now work.old work.new) result }
    ensures named { OnOk result (AreNamed work.old.made → AreNamed work.new.made) }
    ensures cause { OnOk result (IsCausedIn work.old work.new) }
    ensures known { (objects : Objects) → objects_of S.contents store.old ≡ Some objects → Fits objects known.new }
    ensures told { StayCompared (objects_of S.contents store.old) compared.old compared.new }
    ensures stays { Reads S.contents S.may_give S.texts S.faults store.old store.new result }
{
    let mut level = match level_at(alloc, store, ids) {
        Ok(level) => level,
        Err(fault) => return Err(fault),
    };
    let mut opened = Opened {
        joined: PathTable::new(alloc),
        kept: PathTable::new(alloc),
    };
    while let Some((own, trio)) = next(&mut level) {
        match merge_entry(
            alloc,
            store,
            known,
            compared,
            path,
            own,
            trio,
            room,
            &mut opened,
            work,
        ) {
            Ok(()) => {}
            Err(fault) => return Err(fault),
        }
    }
    merge_level(alloc, store, compared, path, &ids.head, opened, work)
}

/// Merges what lies below an entry of three directories, and writes down the entry with what is left there.
#[cycle(directories)]
fn merge_entry<S: Shelf>(
    alloc: Global,
    store: &mut Store<S>,
    known: &mut Known,
    compared: &mut Compared,
    path: &Path,
    own: Path,
    trio: Trio,
    room: u32,
    opened: &mut Opened,
    work: &mut Work,
) -> Result<(), WalkFault>
    requires known { (objects : Objects) → objects_of S.contents store.old ≡ Some objects → Fits objects known.old }
    ensures value { (objects : Objects) → objects_of S.contents store.old ≡ Some objects → AreCompared objects compared.old → AreWholeEntries objects room trio
        → AnswersWell objects (λ done. MergesEntry objects path.now own trio opened.old opened.new work.old work.new) result }
    ensures named { OnOk result (AreNamed work.old.made → AreNamed work.new.made) }
    ensures cause { OnOk result (IsCausedIn work.old work.new) }
    ensures known { (objects : Objects) → objects_of S.contents store.old ≡ Some objects → Fits objects known.new }
    ensures told { StayCompared (objects_of S.contents store.old) compared.old compared.new }
    ensures stays { Reads S.contents S.may_give S.texts S.faults store.old store.new result }
{
    if room == 0 {
        let whole = match behind(alloc, path, &own) {
            Ok(whole) => whole,
            Err(_) => return Err(WalkFault::Store(StoreFault::NoMemory)),
        };
        return Err(WalkFault::TooDeep(whole));
    }
    let ids = ids_of(&trio);
    let part = match merge_below(
        alloc,
        store,
        known,
        compared,
        path,
        &own,
        &ids,
        room - 1,
        work,
    ) {
        Ok(part) => part,
        Err(fault) => return Err(fault),
    };
    match put_entry(alloc, opened, own, trio, part) {
        Ok(()) => Ok(()),
        Err(_) => Err(WalkFault::Store(StoreFault::NoMemory)),
    }
}

/// What is left below an entry: what one side has, where that is settled.
#[cycle(directories)]
fn merge_below<S: Shelf>(
    alloc: Global,
    store: &mut Store<S>,
    known: &mut Known,
    compared: &mut Compared,
    path: &Path,
    own: &Path,
    ids: &Ids,
    room: u32,
    work: &mut Work,
) -> Result<Option<Kept>, WalkFault>
    requires known { (objects : Objects) → objects_of S.contents store.old ≡ Some objects → Fits objects known.old }
    ensures value { (objects : Objects) → objects_of S.contents store.old ≡ Some objects → AreCompared objects compared.old → AreWholeSides objects room ids.now
        → AnswersWell objects (MergesPart objects (path.now ++ own.now) ids.now work.old work.new) result }
    ensures named { OnOk result (AreNamed work.old.made → AreNamed work.new.made) }
    ensures cause { OnOk result (IsCausedIn work.old work.new) }
    ensures known { (objects : Objects) → objects_of S.contents store.old ≡ Some objects → Fits objects known.new }
    ensures told { StayCompared (objects_of S.contents store.old) compared.old compared.new }
    ensures stays { Reads S.contents S.may_give S.texts S.faults store.old store.new result }
{
    if is_settled(ids) {
        let part = part_of(ids);
        return own_part(alloc, store, known, &part);
    }
    match behind(alloc, path, own) {
        Ok(whole) => merge_directory(alloc, store, known, compared, &whole, ids, room, work),
        Err(_) => Err(WalkFault::Store(StoreFault::NoMemory)),
    }
}
