//! One sync of a folder with a library.
ghost use Rattle.std.specs.Prelude.{◌≡◌};
ghost use Rattle.sync_rules.specs.Causes.{FolderRose};
ghost use Rattle.sync_daemon.specs.Finishing.{SyncsIndex};
ghost use Rattle.sync_daemon.specs.Syncing.{SyncedAs};
ghost use Rattle.sync_daemon.specs.Touching.{TouchesScanned};

use crate::finishing::finish;
use crate::round::rounds;
use block_chunker::Cuts;
use folder_side::Folder;
use ids::Text;
use library_state::{Clock, Secret};
use local_index::Index;
use remote_calls::Remote;
use std::alloc::Global;
use sync_rules::{SyncFault, Synced};
use tree_fetch::Asker;

/// Syncs a folder with the library of its index.
///
/// In this order: whether one may upload is asked, and where that is denied, whether one may download. The folder is scanned.
/// Where the index has no base, the head is asked for and is the base; `NotEmpty` where folder and head both have something.
/// What entries such an index has don't count: nothing was synced by them, so nothing is taken for removed.
/// What changed since the index is pushed as one commit on the base, by this user; all begins anew, from the first check, where a
/// collection began meanwhile, in three rounds at most. Where nothing changed the head is asked for, unless it was in the round. So it
/// is where an upload is denied and something changed: then `Denied` is answered, unless the head isn't the index's base and the folder
/// is as a checkout to it leaves it that was interrupted, which is looked at once the head's tree was got. The
/// head's tree is got, unless nothing was pushed and it is the index's base, or it is the commit that was pushed: of that what was
/// offered is known. Then the folder is changed, by the steps of a plan: removals, deepest first, and then directories and files in
/// byte order of path.
///
/// After an error the index is as it was. The folder is as it was, or, once the plan was begun, each path holds its old
/// contents, the head's, or nothing where the head has nothing or another kind. What is neither a file nor a directory is never
/// touched. Memory: at most one block, one chunk and a block more in the chunker, and two
/// pieces of files, beside the scan, the index, the tree's directories and files and the objects that are made.
/// Source: our own; the orders are those of `http_client`'s table.
pub fn sync_once<F: Folder, R: Remote, C: Clock>(
    alloc: Global,
    folder: &mut F,
    index: &mut Index,
    remote: &mut R,
    secret: Secret,
    user: &Text,
    clock: &C,
) -> Result<Synced, SyncFault>
    ensures value { SyncedAs secret user.now (C.shows clock.now) (F.told folder.old) (F.told folder.new) index.old index.new (R.sends remote.old) (R.sends remote.new) result }
    ensures touches { TouchesScanned (F.told folder.old) (F.trace folder.old) (F.trace folder.new) }
    ensures stays { R.peer remote.new ≡ R.peer remote.old }
    ensures faults { FolderRose (F.faults folder.old) (F.faults folder.new) result }
{
    if index.base.is_some() {
        return sync_index(alloc, folder, index, remote, secret, user, clock);
    }
    let mut fresh = Index::empty(alloc, index.lib);
    match sync_index(alloc, folder, &mut fresh, remote, secret, user, clock) {
        Ok(synced) => {
            *index = fresh;
            Ok(synced)
        }
        Err(fault) => Err(fault),
    }
}

/// Syncs a folder with the library of an index, of which each entry counts.
fn sync_index<F: Folder, R: Remote, C: Clock>(
    alloc: Global,
    folder: &mut F,
    index: &mut Index,
    remote: &mut R,
    secret: Secret,
    user: &Text,
    clock: &C,
) -> Result<Synced, SyncFault>
    ensures value { SyncsIndex secret user.now (C.shows clock.now) (F.told folder.old) (F.told folder.new) index.old index.new (R.sends remote.old) (R.sends remote.new) result }
    ensures touches { TouchesScanned (F.told folder.old) (F.trace folder.old) (F.trace folder.new) }
    ensures stays { R.peer remote.new ≡ R.peer remote.old }
    ensures faults { FolderRose (F.faults folder.old) (F.faults folder.new) result }
{
    let cuts = Cuts::usual();
    let asker = Asker {
        lib: index.lib,
        secret,
    };
    let settled = match rounds(alloc, folder, remote, &asker, index, user, clock, cuts) {
        Ok(settled) => settled,
        Err(fault) => return Err(fault),
    };
    finish(alloc, folder, index, remote, &asker, user, cuts, settled)
}
