//! What a collection has marked, and what it may remove.
ghost use Rattle.std.specs.Prelude.{◌≡◌, ◌&&◌, [], is_some, not, IfOk, Some, map as map_list, ◌++◌};
ghost use Rattle.ids.specs.Key.{Objects};
ghost use Rattle.ids.specs.declared.key.Key.{Key};
ghost use Rattle.std.specs.FinMap as map;
ghost use Rattle.object_graph.specs.Objects.{commit_key};
ghost use Rattle.object_graph.specs.Traversal.{distinct_from, is_in};
ghost use Rattle.object_store.specs.StoreView.{objects_of};
ghost use Rattle.collector.specs.Sweeping.{is_listed};

use crate::worklist::Worklist;
use ids::{IdList, Key, KeyList, KeyTable, Kind, ObjId};
use object_store::{Shelf, Store};
use std::alloc::{AllocError, Global};
use std::marker::Model;

/// What is due of a collection.
#[derive(Clone, Copy, Debug, PartialEq, Eq)]
pub enum Phase {
    /// An object waits to be marked.
    Marking,
    /// None waits, and a candidate is left.
    Sweeping,
    /// Neither: what is stored is needed, or was shielded.
    Over,
}

/// The marks of a collection, and its candidates: the keys that it may still remove.
///
/// It begins with all that is stored as candidates, and with commits that wait to be marked. What is marked leaves the
/// candidates, and what it names waits, if it was not met before; so each object that the commits need is opened once, in
/// as many steps as there are objects and names. A shielded key leaves the candidates too, and is no mark.
///
/// It is of one store, and lives as long as the process: nothing of it is written.
#[derive(Drop)]
pub struct Marks {
    pub(crate) alloc: Global,
    pub(crate) commits: IdList,
    pub(crate) work: Worklist,
    pub(crate) candidates: KeyTable<()>,
}

impl Model for Marks {
    ghost use Rattle.collector.specs.Marks.{MarksView, marks_code};
    ghost use Rattle.collector.specs.Opened.{AreWholeMarks};

    ghost Value = { MarksView };

    ghost coded = { marks_code };

    ghost view = { λ a. record { commits = a.commits; marked = a.work.opened; pending = a.work.waiting; candidates = a.candidates } };

    ghost invariant = { λ a. AreWholeMarks (record { commits = a.commits; marked = a.work.opened; pending = a.work.waiting; candidates = a.candidates }) };
}

impl Marks {
    ghost use Rattle.collector.specs.Marks.{AreFirst, AreMarks, HasTheSameMarks, is_candidate, phase_of};
    ghost use Rattle.collector.specs.Opened.{HaveOpened};

    /// The marks of a collection that begins, for these commits: all that is stored is a candidate, and the commits wait.
    ///
    /// Over a store in which the commits are complete, `mark` and `sweep` meet no fault but those of the store.
    pub fn begin<S: Shelf>(
        alloc: Global,
        store: &Store<S>,
        kept: &IdList,
    ) -> Result<Marks, AllocError>
        ensures value { IfOk result (AreFirst store.now.index kept.now) }
        ensures good { IfOk result AreMarks }
        ensures read { IfOk result HaveOpened }
        ensures shown { (objects : Objects) → objects_of S.contents store.now ≡ Some objects
            → IfOk result (λ marks. (key : Key) → is_candidate marks key ≡ is_some (map.get objects key)) }
    {
        let commits = IdList::copy(alloc, kept.slice())?;
        let candidates = store.keys(alloc)?;
        let work = waiting(alloc, kept.slice(), candidates.len())?;
        Ok(Marks {
            alloc,
            commits,
            work,
            candidates,
        })
    }

    /// Keeps those of the keys that are candidates from every later sweep. It takes no memory.
    ///
    /// A shield is no mark: a shielded key that one of the commits needs is still marked, and what it names with it.
    pub fn shield(&mut self, keys: &KeyList)
        ensures value { (key : Key) → is_candidate self.new key ≡ (is_candidate self.old key && not (is_in keys.now key)) }
        ensures stays { HasTheSameMarks self.old self.new }
        ensures good { AreMarks self.new }
        ensures read { HaveOpened self.new }
    {
        take_out(&mut self.candidates, keys.slice());
    }

    /// What is due. It takes no memory.
    ///
    /// Over any shelf each object that is marked was read whole, and what it named was met. So where it isn't `Marking`, all
    /// that the commits lead to is marked.
    pub fn phase(&self) -> Phase
        ensures value { result ≡ phase_of self.now }
        ensures good { AreMarks self.now }
        ensures read { HaveOpened self.now }
    {
        if !self.work.is_done() {
            return Phase::Marking;
        }
        if self.candidates.len() == 0 {
            Phase::Over
        } else {
            Phase::Sweeping
        }
    }

    /// The commits for which the collection began. It takes no memory.
    pub fn commits(&self) -> &[ObjId]
        ensures value { result.now ≡ self.now.commits }
    {
        self.commits.slice()
    }

    /// The keys that were met: those that are marked, and then those that wait. It takes no memory.
    pub fn met(&self) -> &[Key]
        ensures value { result.now ≡ self.now.marked ++ self.now.pending }
    {
        self.work.keys()
    }
}

/// The keys of commits, each once, of which none is opened, with room for so many keys.
fn waiting(alloc: Global, commits: &[ObjId], room: usize) -> Result<Worklist, AllocError>
    ensures value { IfOk result (λ work. work ≡ record { opened = []; waiting = distinct_from [] (map_list commit_key commits.now) }) }
{
    let mut work = Worklist::with_room(alloc, room)?;
    for commit in commits {
        work.meet(&Key {
            kind: Kind::Commit,
            id: *commit,
        })?;
    }
    Ok(work)
}

/// Takes keys out of candidates.
fn take_out(candidates: &mut KeyTable<()>, keys: &[Key])
    ensures value { (key : Key) → is_listed candidates.new key ≡ (is_listed candidates.old key && not (is_in keys.now key)) }
{
    for key in keys {
        candidates.remove(key);
    }
}
