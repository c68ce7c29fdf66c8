//! Where nothing was synced yet: the head is the base, if one of folder and library has nothing.
ghost use Rattle.std.specs.Prelude.{◌≡◌};
ghost use Rattle.sync_daemon.specs.Joining.{EmptySo, JoinsAs, has_seen};

use crate::asking::ask_head;
use folder_side::Scan;
use ids::ObjId;
use local_index::Index;
use remote_calls::Remote;
use std::alloc::Global;
use sync_rules::SyncFault;
use tree_fetch::{Asker, fetch_commit};

/// The head, where the index has no base.
///
/// Where the folder has something the head's commit is got, and `NotEmpty` is answered where its root isn't forty zeros.
pub(crate) fn join<R: Remote>(
    alloc: Global,
    remote: &mut R,
    asker: &Asker,
    index: &Index,
    report: &Scan,
) -> Result<Option<ObjId>, SyncFault>
    ensures value { JoinsAs asker.now index.now.base report.now (R.sends remote.old) (R.sends remote.new) result }
    ensures stays { R.peer remote.new ≡ R.peer remote.old }
{
    if index.base.is_some() {
        return Ok(None);
    }
    let head = match ask_head(alloc, remote, asker) {
        Ok(head) => head,
        Err(fault) => return Err(fault),
    };
    if !has_seen(report) {
        return Ok(Some(head));
    }
    match look_empty(alloc, remote, asker, head) {
        Ok(()) => Ok(Some(head)),
        Err(fault) => Err(fault),
    }
}

/// Whether a scan found a file or a directory.
fn has_seen(report: &Scan) -> bool
    ensures value { result ≡ has_seen report.now }
{
    report.paths.len() != 0
}

/// Looks whether the tree of a head has nothing.
fn look_empty<R: Remote>(
    alloc: Global,
    remote: &mut R,
    asker: &Asker,
    head: ObjId,
) -> Result<(), SyncFault>
    ensures value { EmptySo asker.now (R.sends remote.old) (R.sends remote.new) head result }
    ensures stays { R.peer remote.new ≡ R.peer remote.old }
{
    match fetch_commit(alloc, remote, asker, head) {
        Ok(commit) => {
            if commit.root.is_nil() {
                Ok(())
            } else {
                Err(SyncFault::NotEmpty)
            }
        }
        Err(fault) => Err(fault),
    }
}
