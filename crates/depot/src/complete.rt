//! Whether a commit is complete.
ghost use Rattle.std.specs.Prelude.{◌≡◌, Some, IfErr};
ghost use Rattle.ids.specs.FaultCount.{FailsBy};
ghost use Rattle.ids.specs.Key.{Objects};
ghost use Rattle.object_graph.specs.Traversal.{walk_commit};
ghost use Rattle.object_store.specs.StoreView.{Keeps, ReadsShelf, objects_of};
ghost use Rattle.depot.specs.DepotView.{FitsIn};
ghost use Rattle.depot.specs.Start.{ChecksSo, IsCheckFault, check_fault_of, first_incomplete, is_check_counted};
ghost use Rattle.library_rules.specs.LibraryState.{kept_commits};
ghost use Rattle.tree_walk.specs.Files.{first_due};

use ids::ObjId;
use library_state::Install;
use object_graph::TreeFault;
use object_store::{Shelf, Store, StoreFault};
use std::alloc::Global;
use tree_walk::{Known, WalkFault, check};

/// Why a commit was not found complete.
#[derive(Debug, PartialEq, Eq, Drop)]
pub(crate) enum CheckFault {
    /// The first fault in the order of the traversal.
    Tree(TreeFault),
    /// The store failed, by its `Damaged`, `Shelf` or `NoMemory`.
    Store(StoreFault),
}

/// Whether all that the commit needs is stored and can be read. What is found whole becomes known.
pub(crate) fn check_complete<S: Shelf>(
    alloc: Global,
    store: &mut Store<S>,
    known: &mut Known,
    commit: ObjId,
) -> Result<(), CheckFault>
    requires known { FitsIn S.contents store.old known.old }
    ensures known { FitsIn S.contents store.old known.new }
    ensures value { (objects : Objects) → objects_of S.contents store.old ≡ Some objects → ChecksSo objects (walk_commit objects commit).fault result }
    ensures stays { Keeps S.contents store.old store.new }
    ensures reads { ReadsShelf S.may_give S.texts store.old.shelf store.new.shelf }
    ensures cause { IfErr result (IsCheckFault (S.may_give store.old.shelf)) }
    ensures faults { FailsBy is_check_counted (S.faults store.old.shelf) (S.faults store.new.shelf) result }
{
    match check(alloc, store, known, commit) {
        Ok(()) => Ok(()),
        Err(fault) => Err(check_fault(fault)),
    }
}

/// The fault of a traversal, or of the store in it.
fn check_fault(fault: WalkFault) -> CheckFault
    ensures value { result ≡ check_fault_of fault }
{
    match fault {
        WalkFault::Incomplete(key) => CheckFault::Tree(TreeFault::Incomplete(key)),
        WalkFault::Unreadable(key) => CheckFault::Tree(TreeFault::Unreadable(key)),
        WalkFault::WrongKind(id) => CheckFault::Tree(TreeFault::WrongKind(id)),
        WalkFault::WrongSize(id) => CheckFault::Tree(TreeFault::WrongSize(id)),
        WalkFault::TooDeep(path) => CheckFault::Tree(TreeFault::TooDeep(path)),
        WalkFault::TooMany(paths) => CheckFault::Tree(TreeFault::TooMany(paths)),
        WalkFault::Store(fault) => CheckFault::Store(fault),
    }
}

/// Whether each kept commit is complete, each head before its pushed commit. What one of them was found to need is not
/// read again for another.
pub(crate) fn check_kept<S: Shelf>(
    alloc: Global,
    store: &mut Store<S>,
    known: &mut Known,
    kept: &[Install],
) -> Result<(), CheckFault>
    requires known { FitsIn S.contents store.old known.old }
    ensures known { FitsIn S.contents store.old known.new }
    ensures value { (objects : Objects) → objects_of S.contents store.old ≡ Some objects
        → ChecksSo objects (first_incomplete objects (kept_commits kept.now)) result }
    ensures stays { Keeps S.contents store.old store.new }
    ensures reads { ReadsShelf S.may_give S.texts store.old.shelf store.new.shelf }
    ensures cause { IfErr result (IsCheckFault (S.may_give store.old.shelf)) }
    ensures faults { FailsBy is_check_counted (S.faults store.old.shelf) (S.faults store.new.shelf) result }
{
    for install in kept {
        match check_install(alloc, store, known, install) {
            Ok(()) => {}
            Err(fault) => return Err(fault),
        }
    }
    Ok(())
}

/// Whether the head and the pushed commit of a head update are complete.
fn check_install<S: Shelf>(
    alloc: Global,
    store: &mut Store<S>,
    known: &mut Known,
    install: &Install,
) -> Result<(), CheckFault>
    requires known { FitsIn S.contents store.old known.old }
    ensures known { FitsIn S.contents store.old known.new }
    ensures value { (objects : Objects) → objects_of S.contents store.old ≡ Some objects
        → ChecksSo objects (first_due (walk_commit objects install.now.head).fault (walk_commit objects install.now.pushed).fault) result }
    ensures stays { Keeps S.contents store.old store.new }
    ensures reads { ReadsShelf S.may_give S.texts store.old.shelf store.new.shelf }
    ensures cause { IfErr result (IsCheckFault (S.may_give store.old.shelf)) }
    ensures faults { FailsBy is_check_counted (S.faults store.old.shelf) (S.faults store.new.shelf) result }
{
    match check_complete(alloc, store, known, install.head) {
        Ok(()) => {}
        Err(fault) => return Err(fault),
    }
    if install.pushed == install.head {
        return Ok(());
    }
    check_complete(alloc, store, known, install.pushed)
}
