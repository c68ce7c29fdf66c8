//! Whether two files of a merge have the same bytes. What was told of two files is kept.
ghost use Rattle.std.specs.Prelude.{◌≡◌, IfSome, Some};
ghost use Rattle.ids.specs.Key.{Objects};
ghost use Rattle.object_store.specs.StoreView.{objects_of};
ghost use Rattle.tree_walk.specs.Reading.{Reads};
ghost use Rattle.tree_merge.specs.Compared.{AreCompared, IsSame, StayCompared};
ghost use Rattle.tree_merge.specs.Telling.{AnswersWell, IsWhole};

use ids::ObjId;
use object_store::{Shelf, Store};
use std::alloc::Global;
use std::collections::BTreeMap;
use tree_walk::{WalkFault, same_file};

/// Two files, by the ids of their objects. Ordered by the left one and then by the right one.
#[derive(Clone, Copy, Debug, PartialEq, Eq, PartialOrd, Ord)]
pub(crate) struct Pair {
    pub left: ObjId,
    pub right: ObjId,
}

/// The pairs of files that a merge compared, each with whether they have the same bytes.
///
/// It is of one store. Where there was no memory for a pair, it isn't there.
#[derive(Drop)]
pub(crate) struct Compared {
    pub pairs: BTreeMap<Pair, bool>,
}

impl Compared {
    /// Nothing. It takes no memory.
    pub(crate) fn new(alloc: Global) -> Compared
        ensures value { (objects : Objects) → AreCompared objects result }
    {
        Compared {
            pairs: BTreeMap::new(alloc),
        }
    }

    /// What was told of a pair, if it was compared.
    fn told(&self, pair: &Pair) -> Option<bool>
        ensures value { (objects : Objects) → AreCompared objects self.now → IfSome result (IsSame objects pair.now.left pair.now.right) }
    {
        match self.pairs.get(pair) {
            Some(same) => Some(*same),
            None => None,
        }
    }

    /// Keeps what was told of a pair, where there is memory for it.
    fn keep(&mut self, pair: Pair, same: bool)
        ensures value { (objects : Objects) → AreCompared objects self.old → IsSame objects pair.left pair.right same → AreCompared objects self.new }
    {
        match self.pairs.insert(pair, same) {
            Ok(_) => {}
            Err(_) => {}
        }
    }
}

/// Whether two files that are stored whole have the same bytes. A pair that was compared isn't read again.
pub(crate) fn same_contents<S: Shelf>(
    alloc: Global,
    store: &mut Store<S>,
    compared: &mut Compared,
    left: ObjId,
    right: ObjId,
) -> Result<bool, WalkFault>
    ensures value { (objects : Objects) → objects_of S.contents store.old ≡ Some objects → AreCompared objects compared.old → IsWhole objects left → IsWhole objects right
        → AnswersWell objects (IsSame objects left right) result }
    ensures known { StayCompared (objects_of S.contents store.old) compared.old compared.new }
    ensures stays { Reads S.contents S.may_give S.texts S.faults store.old store.new result }
{
    let pair = Pair { left, right };
    match compared.told(&pair) {
        Some(same) => return Ok(same),
        None => {}
    }
    let same = match same_file(alloc, store, left, right) {
        Ok(same) => same,
        Err(fault) => return Err(fault),
    };
    compared.keep(pair, same);
    Ok(same)
}
