//! The marking of what commits need.
ghost use Rattle.std.specs.Prelude.{◌≡◌, ◌≢◌, ◌≤◌, ◌+◌, ◌==◌, [], ⊤, false, length, IfErr, IfOk, IsErr, None, OnErr, OnOk, Some};
ghost use Rattle.ids.specs.Key.{Objects};
ghost use Rattle.object_store.specs.StoreView.{objects_of};
ghost use Rattle.tree_walk.specs.Reading.{Answers, IsCause, Reads};
ghost use Rattle.collector.specs.Marking.{FailsToMark, HasMarked, IsDamageOfNeeded, IsMarkFault, MarksMany, MarksOne, MarksUpTo, TellsMarked, WaitsWith, first_fault, is_of_store};
ghost use Rattle.collector.specs.Marks.{AreCompleteCommits, AreMarks, IsExact};
ghost use Rattle.collector.specs.Opened.{HaveOpened, OpensFirst, OpensMore};

use crate::marks::Marks;
use crate::naming::names_at;
use ids::ObjId;
use object_store::{Shelf, Store, StoreFault};
use std::alloc::Global;
use tree_walk::{Known, WalkFault, check};

impl Marks {
    /// Marks up to so many objects that wait, in the order in which they were met, and tells how many: one at least, where
    /// one waits. Each is opened, and what it names and wasn't met before waits.
    ///
    /// Over any shelf nothing is marked but what the store knows and, unless it is a block, was read whole under its own name;
    /// and what it names waits, or is marked. Where no fault comes the object that waited first is among them. So one that is
    /// missing, damaged or unreadable ends the marking as it is met: it never counts as one that names nothing, and no sweep
    /// comes behind it.
    ///
    /// With a fault those before the object that can't be read are marked, and it goes on waiting. A fault of a tree comes
    /// only where the traversal of one of the commits has that fault. Where the commits are complete, damage is told of no
    /// object but a commit, directory or file that they need: a block is looked up and not read.
    pub fn mark<S: Shelf>(&mut self, store: &mut Store<S>, at_most: u64) -> Result<u64, WalkFault>
        requires some { 1 ≤ at_most }
        ensures value { (objects : Objects) → objects_of S.contents store.old ≡ Some objects → IfOk result (MarksMany objects self.old self.new) }
        ensures err { (objects : Objects) → objects_of S.contents store.old ≡ Some objects → OnErr result (MarksUpTo objects self.old self.new) }
        ensures told { IfOk result (TellsMarked at_most self.old self.new) }
        ensures left { HasMarked self.old self.new }
        ensures opened { OpensMore store.old.index (S.may_give store.old.shelf) self.old self.new }
        ensures first { IfOk result (λ count. OpensFirst store.old.index (S.may_give store.old.shelf) self.old self.new) }
        ensures good { AreMarks self.new }
        ensures read { HaveOpened self.new }
        ensures cause { (objects : Objects) → objects_of S.contents store.old ≡ Some objects → IsExact objects self.old
            → IfErr result (IsMarkFault objects self.old.commits) }
        ensures damaged { (objects : Objects) → objects_of S.contents store.old ≡ Some objects → IsExact objects self.old → AreCompleteCommits objects self.old.commits
            → IfErr result (IsDamageOfNeeded objects self.old.commits) }
        ensures stays { Reads S.contents S.may_give S.texts S.faults store.old store.new result }
    {
        for count in 0..at_most {
            if self.is_done() {
                return Ok(count);
            }
            match self.mark_next(store) {
                Ok(()) => {}
                Err(fault) => {
                    if is_of_store(&fault) {
                        return Err(fault);
                    }
                    return self.tree_fault(store, fault);
                }
            }
        }
        Ok(at_most)
    }

    /// Whether nothing waits.
    fn is_done(&self) -> bool
        ensures value { result ≡ (length self.now.pending == 0) }
        ensures good { AreMarks self.now }
        ensures read { HaveOpened self.now }
    {
        self.work.is_done()
    }

    /// Marks the object that waits first. After a fault it goes on waiting, and some of what it names may wait too.
    fn mark_next<S: Shelf>(&mut self, store: &mut Store<S>) -> Result<(), WalkFault>
        requires some { self.old.pending ≢ [] }
        ensures ok { (objects : Objects) → objects_of S.contents store.old ≡ Some objects → OnOk result (MarksOne objects self.old self.new) }
        ensures err { (objects : Objects) → objects_of S.contents store.old ≡ Some objects → OnErr result (WaitsWith objects self.old self.new) }
        ensures size { OnOk result (length self.new.marked ≡ length self.old.marked + 1) }
        ensures left { HasMarked self.old self.new }
        ensures opened { OpensMore store.old.index (S.may_give store.old.shelf) self.old self.new }
        ensures first { OnOk result (OpensFirst store.old.index (S.may_give store.old.shelf) self.old self.new) }
        ensures good { AreMarks self.new }
        ensures read { HaveOpened self.new }
        ensures cause { (objects : Objects) → objects_of S.contents store.old ≡ Some objects → IfErr result (FailsToMark objects self.old) }
        ensures stays { Reads S.contents S.may_give S.texts S.faults store.old store.new result }
    {
        let key = match self.work.first() {
            Some(key) => key,
            None => return Ok(()),
        };
        let names = match names_at(self.alloc, store, &key) {
            Ok(names) => names,
            Err(fault) => return Err(fault),
        };
        match self.work.meet_all(names.slice()) {
            Ok(()) => {}
            Err(_) => return Err(WalkFault::Store(StoreFault::NoMemory)),
        }
        self.work.open();
        self.candidates.remove(&key);
        Ok(())
    }

    /// The fault that is told where an object can't be marked: that of the first commit whose traversal has one, since
    /// marking meets objects in another order than a traversal.
    fn tree_fault<S: Shelf>(&self, store: &mut Store<S>, met: WalkFault) -> Result<u64, WalkFault>
        requires ready { is_of_store met ≡ false }
        requires cause { IsCause store.old.index (S.may_give store.old.shelf) met }
        ensures value { (objects : Objects) → objects_of S.contents store.old ≡ Some objects → first_fault objects self.now.commits ≢ None
            → IfErr result (IsMarkFault objects self.now.commits) }
        ensures wrong { IsErr result }
        ensures stays { Reads S.contents S.may_give S.texts S.faults store.old store.new result }
    {
        match check_all(self.alloc, store, self.commits.slice()) {
            Ok(()) => Err(met),
            Err(fault) => Err(fault),
        }
    }
}

/// Whether the commits are complete. The first fault of the first one that isn't is answered.
fn check_all<S: Shelf>(
    alloc: Global,
    store: &mut Store<S>,
    commits: &[ObjId],
) -> Result<(), WalkFault>
    ensures value { (objects : Objects) → objects_of S.contents store.old ≡ Some objects
        → Answers objects (first_fault objects commits.now) (λ done. ⊤) result }
    ensures stays { Reads S.contents S.may_give S.texts S.faults store.old store.new result }
{
    let mut known = Known::new(alloc);
    for commit in commits {
        match check(alloc, store, &mut known, *commit) {
            Ok(()) => {}
            Err(fault) => return Err(fault),
        }
    }
    Ok(())
}

/// Whether a fault is one of the store.
fn is_of_store(fault: &WalkFault) -> bool
    ensures value { result ≡ is_of_store fault.now }
{
    match fault {
        WalkFault::Store(_) => true,
        WalkFault::Incomplete(_) => false,
        WalkFault::Unreadable(_) => false,
        WalkFault::WrongKind(_) => false,
        WalkFault::WrongSize(_) => false,
        WalkFault::TooDeep(_) => false,
        WalkFault::TooMany(_) => false,
    }
}
