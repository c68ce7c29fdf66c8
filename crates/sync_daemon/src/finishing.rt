//! The second half of a sync: the index is made anew, and before that the folder is brought to a head that isn't the pushed commit.
ghost use Rattle.std.specs.Prelude.{◌≡◌, ◌↔◌, IsTrue};
ghost use Rattle.std.specs.Str.{bytes_eq};
ghost use Rattle.ids.specs.FaultCount.{FailsBy};
ghost use Rattle.sync_rules.specs.Causes.{is_folder_fault};
ghost use Rattle.tree_push.specs.ChangedOwns.{AreChangedOwns};
ghost use Rattle.tree_checkout.specs.Touches.{Touches};
ghost use Rattle.sync_daemon.specs.Bringing.{FinishesAs, IsDone, KnowsSo, ReachesAs, is_pushed, tells_conflict};
ghost use Rattle.sync_daemon.specs.Finishing.{spared_of};

use crate::bringing::bring;
use crate::own_head::{is_own_head, known_offer};
use crate::round::Settled;
use block_chunker::Cuts;
use folder_side::Folder;
use ids::{Items, ObjId, Text};
use library_state::Refusal;
use local_index::Index;
use remote_calls::Remote;
use std::alloc::{AllocError, Global};
use sync_rules::{SyncFault, Synced};
use tree_fetch::{Asker, fetch_commit};

/// Brings a folder to the head, and makes its index anew. After an error the index is as it was.
///
/// Nothing is got of a head that is the commit which was pushed: its tree is what was offered. Where the folder differs from its index and
/// an upload is denied, it has to be as a checkout to the head leaves it that was interrupted, else `Denied` is answered.
pub(crate) fn finish<F: Folder, R: Remote>(
    alloc: Global,
    folder: &mut F,
    index: &mut Index,
    remote: &mut R,
    asker: &Asker,
    user: &Text,
    cuts: Cuts,
    settled: Settled,
) -> Result<Synced, SyncFault>
    requires ids { AreChangedOwns index.old.entries settled.scan.paths settled.owns }
    ensures value { FinishesAs asker.now user.now cuts settled (R.sends remote.old) (R.sends remote.new) (F.told folder.old) (F.told folder.new) index.old index.new result }
    ensures touches { Touches cuts settled.scan (F.trace folder.old) (F.trace folder.new) }
    ensures stays { R.peer remote.new ≡ R.peer remote.old }
    ensures faults { FailsBy is_folder_fault (F.faults folder.old) (F.faults folder.new) result }
{
    if is_done(index, &settled) {
        if settled.differs {
            return Err(SyncFault::Refused(Refusal::Denied));
        }
        return Ok(spared(alloc, settled));
    }
    let own = match is_own_head(alloc, index, &settled) {
        Ok(own) => own,
        Err(AllocError) => return Err(SyncFault::NoMemory),
    };
    if own {
        return know_offer(alloc, index, user, settled);
    }
    reach(alloc, folder, index, remote, asker, cuts, settled)
}

/// Makes an index of what was seen and offered, with the head as its base.
fn know_offer(
    alloc: Global,
    index: &mut Index,
    user: &Text,
    settled: Settled,
) -> Result<Synced, SyncFault>
    requires ids { AreChangedOwns index.old.entries settled.scan.paths settled.owns }
    ensures value { KnowsSo user.now settled index.old index.new result }
{
    let entries = match known_offer(
        alloc,
        &settled.scan.paths,
        &index.entries,
        &settled.owns,
        settled.moment,
        user,
    ) {
        Ok(entries) => entries,
        Err(AllocError) => return Err(SyncFault::NoMemory),
    };
    index.base = Some(settled.head);
    index.entries = entries;
    Ok(spared(alloc, settled))
}

/// Gets the head's commit and its tree, and brings a folder to it.
fn reach<F: Folder, R: Remote>(
    alloc: Global,
    folder: &mut F,
    index: &mut Index,
    remote: &mut R,
    asker: &Asker,
    cuts: Cuts,
    settled: Settled,
) -> Result<Synced, SyncFault>
    requires ids { AreChangedOwns index.old.entries settled.scan.paths settled.owns }
    ensures value { ReachesAs asker.now cuts settled (R.sends remote.old) (R.sends remote.new) (F.told folder.old) (F.told folder.new) index.old index.new result }
    ensures touches { Touches cuts settled.scan (F.trace folder.old) (F.trace folder.new) }
    ensures stays { R.peer remote.new ≡ R.peer remote.old }
    ensures faults { FailsBy is_folder_fault (F.faults folder.old) (F.faults folder.new) result }
{
    let commit = match fetch_commit(alloc, remote, asker, settled.head) {
        Ok(commit) => commit,
        Err(fault) => return Err(fault),
    };
    let conflict = tells_conflict(&settled.pushed, &settled.head, commit.conflict);
    let pushed = is_pushed(&settled.pushed);
    let done = match bring(
        alloc,
        folder,
        index,
        remote,
        asker,
        cuts,
        &settled,
        pushed,
        commit.root,
    ) {
        Ok(done) => done,
        Err(fault) => return Err(fault),
    };
    index.base = Some(settled.head);
    index.entries = done.entries;
    Ok(Synced {
        head: settled.head,
        pushed: settled.pushed,
        conflict,
        written: done.written,
        removed: done.removed,
        skipped: settled.scan.skipped,
        held: done.held,
    })
}

/// Whether nothing was pushed and the head is the index's base.
fn is_done(index: &Index, settled: &Settled) -> bool
    ensures value { IsTrue result ↔ IsDone settled.now index.now }
{
    if settled.pushed.is_some() {
        return false;
    }
    match &index.base {
        Some(base) => is_same(base, &settled.head),
        None => false,
    }
}

/// Nothing was done to the folder.
fn spared(alloc: Global, settled: Settled) -> Synced
    ensures value { result ≡ spared_of settled }
{
    Synced {
        head: settled.head,
        pushed: settled.pushed,
        conflict: false,
        written: 0,
        removed: 0,
        skipped: settled.scan.skipped,
        held: Items::new(alloc),
    }
}

/// Whether the head is another commit than the one that was pushed, and tells a conflict.
fn tells_conflict(pushed: &Option<ObjId>, head: &ObjId, told: bool) -> bool
    ensures value { result ≡ tells_conflict pushed.now head.now told }
{
    match pushed {
        Some(commit) => told && !is_same_id(commit, head),
        None => false,
    }
}

/// Whether something was pushed.
fn is_pushed(pushed: &Option<ObjId>) -> bool
    ensures value { result ≡ is_pushed pushed.now }
{
    match pushed {
        Some(_) => true,
        None => false,
    }
}

fn is_same(commit: &ObjId, head: &ObjId) -> bool
    ensures value { IsTrue result ↔ (commit.now ≡ head.now) }
{
    *commit == *head
}

fn is_same_id(commit: &ObjId, head: &ObjId) -> bool
    ensures value { result ≡ bytes_eq commit.now head.now }
{
    commit == head
}
