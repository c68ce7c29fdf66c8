//! Getting one commit.
ghost use Rattle.std.specs.Prelude.{◌≡◌, IfErr, IfOk};
ghost use Rattle.object_graph.specs.Objects.{commit_key};
ghost use Rattle.tree_fetch.specs.Asking.{ReadsCommit};
ghost use Rattle.tree_fetch.specs.Fetching.{CommitFails, FetchesCommit, GotCommit};

use crate::asker::{Asker, get_object};
use commit_objects::Commit;
use ids::{Key, Kind, ObjId};
use json_words::ReadFault;
use remote_calls::Remote;
use std::alloc::Global;
use sync_rules::SyncFault;
use tree_walk::WalkFault;

/// The commit of an id, by one order.
///
/// Bytes that aren't a commit's, or are those of a commit that bears another name, are `BadTree` by `Unreadable`.
pub fn fetch_commit<R: Remote>(
    alloc: Global,
    remote: &mut R,
    asker: &Asker,
    id: ObjId,
) -> Result<Commit, SyncFault>
    ensures value { FetchesCommit asker.now (R.sends remote.old) (R.sends remote.new) id result }

    // The one send that got it.
    ensures listed { IfOk result (GotCommit asker.now (R.sends remote.old) (R.sends remote.new) id) }

    // The one order that was sent, or for which there was no memory.
    ensures fails { IfErr result (CommitFails asker.now (R.sends remote.old) (R.sends remote.new) id) }
    ensures stays { R.peer remote.new ≡ R.peer remote.old }
{
    let bytes = match get_object(alloc, remote, asker, commit_key(id)) {
        Ok(bytes) => bytes,
        Err(fault) => return Err(fault),
    };
    read_commit(alloc, bytes.slice(), id)
}

/// The commit of a name that some bytes spell.
fn read_commit(alloc: Global, bytes: &[u8], id: ObjId) -> Result<Commit, SyncFault>
    ensures value { ReadsCommit id bytes.now result }
{
    match Commit::read(alloc, bytes) {
        Ok(commit) => if commit.id == id {
            Ok(commit)
        } else {
            Err(unreadable(id))
        },
        Err(ReadFault::Bad(_)) => Err(unreadable(id)),
        Err(ReadFault::NoMemory) => Err(SyncFault::NoMemory),
    }
}

/// That bytes aren't the commit of this name.
fn unreadable(id: ObjId) -> SyncFault
    ensures value { result ≡ SyncFault.BadTree (WalkFault.Unreadable (commit_key id)) }
{
    SyncFault::BadTree(WalkFault::Unreadable(commit_key(id)))
}

/// The key of a commit.
fn commit_key(id: ObjId) -> Key
    ensures value { result ≡ commit_key id }
{
    Key {
        kind: Kind::Commit,
        id,
    }
}
