//! Getting the whole tree of a root.
ghost use Rattle.std.specs.Prelude.{◌≡◌, IfOk};
ghost use Rattle.tree_walk.specs.Limits.{IsWithinLimits};
ghost use Rattle.tree_fetch.specs.Fetching.{FetchesTree};
ghost use Rattle.tree_fetch.specs.Levels.{tree_fault};

use crate::asker::Asker;
use crate::fetched::FetchedObjects;
use crate::levels::fetch_levels;
use ids::ObjId;
use object_graph::Entry;
use remote_calls::Remote;
use std::alloc::Global;
use sync_rules::SyncFault;
use tree_model::PathTable;
use tree_walk::WalkFault;

/// A tree that was fetched: its files and directories, and its entries, each at its path.
#[derive(Drop)]
pub struct FetchedTree {
    pub objects: FetchedObjects,
    pub entries: PathTable<Entry>,
}

/// The whole tree of a root, without the blocks of its files. Forty zeros are the empty tree, for which nothing is asked.
///
/// Files and directories are asked for level by level, as a rule each id once, in lists of at most 10,000. A list of more
/// than one that is answered with want of memory is halved; of one alone it is `Refused`. What comes under another id than
/// its SHA-1 is `Damaged`. What is wrong with the tree is `BadTree`, never by `WrongSize` or `Store`.
pub fn fetch_tree<R: Remote>(
    alloc: Global,
    remote: &mut R,
    asker: &Asker,
    root: ObjId,
) -> Result<FetchedTree, SyncFault>
    ensures value { FetchesTree asker.now (R.sends remote.old) (R.sends remote.new) root result }
    ensures bound { IfOk result (λ tree. IsWithinLimits tree.entries) }
    ensures stays { R.peer remote.new ≡ R.peer remote.old }
{
    let mut objects = match fetch_levels(alloc, remote, asker, &root) {
        Ok(objects) => objects,
        Err(fault) => return Err(fault),
    };
    match objects.tree(alloc, root) {
        Ok(entries) => Ok(FetchedTree { objects, entries }),
        Err(fault) => Err(tree_fault(fault)),
    }
}

/// Why a sync ends with what is wrong with a tree. A store in memory fails for want of memory alone.
fn tree_fault(fault: WalkFault) -> SyncFault
    ensures value { result ≡ tree_fault fault }
{
    match fault {
        WalkFault::Store(_) => SyncFault::NoMemory,
        other => SyncFault::BadTree(other),
    }
}
