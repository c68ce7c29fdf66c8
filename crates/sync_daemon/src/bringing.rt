//! A tree is got, and a folder brought to it.
ghost use Rattle.std.specs.Prelude.{◌≡◌, ◌↔◌, IfOk, IsTrue, length, vec_len};
ghost use Rattle.ids.specs.FaultCount.{FailsBy};
ghost use Rattle.sync_rules.specs.Causes.{is_folder_fault};
ghost use Rattle.tree_push.specs.ChangedOwns.{AreChangedOwns};
ghost use Rattle.tree_checkout.specs.Touches.{Touches};
ghost use Rattle.sync_daemon.specs.Bringing.{BringsSo, ChangesSo, MayChange};
ghost use Rattle.sync_daemon.specs.declared.bringing.TheConstants.{PIECE};

use crate::interrupted_checkout::is_left_by_checkout;
use crate::known_entries::known_entries;
use crate::round::Settled;
use crate::tree_writes::writes_of;
use block_chunker::Cuts;
use folder_side::{Folder, Scan};
use ids::{Items, ObjId};
use library_state::Refusal;
use local_index::{Index, Known};
use object_graph::Entry;
use remote_calls::Remote;
use std::alloc::{AllocError, Global};
use sync_rules::SyncFault;
use tree_checkout::{Plan, Source, Write, checkout, plan_of};
use tree_fetch::{Asker, fetch_tree};
use tree_model::{Path, PathTable};

/// The size of a piece in which a file is read.
const PIECE: usize = 65_536;

/// What a checkout did: the entries of the new index, and how many files were moved in and paths removed.
#[derive(Drop)]
pub(crate) struct Done {
    pub(crate) entries: PathTable<Known>,
    pub(crate) held: Items<Path>,
    pub(crate) written: u64,
    pub(crate) removed: u64,
}

/// Gets the tree of a root, and brings the folder to it. Each file's object is read before the folder is touched, and whether it may be
/// is looked at.
pub(crate) fn bring<F: Folder, R: Remote>(
    alloc: Global,
    folder: &mut F,
    index: &Index,
    remote: &mut R,
    asker: &Asker,
    cuts: Cuts,
    settled: &Settled,
    pushed: bool,
    root: ObjId,
) -> Result<Done, SyncFault>
    requires ids { AreChangedOwns index.now.entries settled.now.scan.paths settled.now.owns }
    ensures value { BringsSo asker.now cuts settled.now.scan index.now pushed settled.now.differs root (R.sends remote.old) (R.sends remote.new) (F.told folder.old) (F.told folder.new) result }
    ensures touches { Touches cuts settled.now.scan (F.trace folder.old) (F.trace folder.new) }
    ensures stays { R.peer remote.new ≡ R.peer remote.old }
    ensures faults { FailsBy is_folder_fault (F.faults folder.old) (F.faults folder.new) result }
{
    let mut tree = match fetch_tree(alloc, remote, asker, root) {
        Ok(tree) => tree,
        Err(fault) => return Err(fault),
    };
    if !may_change(index, settled, &tree.entries) {
        return Err(SyncFault::Refused(Refusal::Denied));
    }
    let plan = match plan_of(alloc, &settled.scan, index, &tree.entries, pushed) {
        Ok(plan) => plan,
        Err(fault) => return Err(fault),
    };
    let writes = match writes_of(alloc, &mut tree.objects, plan.writes.slice()) {
        Ok(writes) => writes,
        Err(AllocError) => return Err(SyncFault::NoMemory),
    };
    change(
        alloc,
        folder,
        remote,
        asker,
        cuts,
        &settled.scan,
        &tree.entries,
        plan,
        writes,
    )
}

/// Whether a folder may be changed: what differs from its index in it, if that may not be pushed, a checkout left so that was interrupted.
fn may_change(index: &Index, settled: &Settled, entries: &PathTable<Entry>) -> bool
    requires ids { AreChangedOwns index.now.entries settled.now.scan.paths settled.now.owns }
    ensures value { IsTrue result ↔ MayChange settled.now.differs settled.now.scan.paths index.now.entries entries.now }
{
    if !settled.differs {
        return true;
    }
    is_left_by_checkout(&settled.scan.paths, &index.entries, &settled.owns, entries)
}

/// Does the steps of a plan, and tells what is known of the entries then.
fn change<F: Folder, R: Remote>(
    alloc: Global,
    folder: &mut F,
    remote: &mut R,
    asker: &Asker,
    cuts: Cuts,
    scan: &Scan,
    entries: &PathTable<Entry>,
    plan: Plan,
    writes: Items<Write>,
) -> Result<Done, SyncFault>
    ensures value { ChangesSo asker.now cuts scan.now entries.now plan writes (R.sends remote.old) (R.sends remote.new) (F.told folder.old) (F.told folder.new) result }
    ensures touches { Touches cuts scan.now (F.trace folder.old) (F.trace folder.new) }
    ensures stays { R.peer remote.new ≡ R.peer remote.old }
    ensures faults { FailsBy is_folder_fault (F.faults folder.old) (F.faults folder.new) result }
{
    let source = Source {
        lib: asker.lib,
        secret: asker.secret,
    };
    let mut buffer = match piece(alloc) {
        Ok(buffer) => buffer,
        Err(AllocError) => return Err(SyncFault::NoMemory),
    };
    let owns = match checkout(
        alloc,
        folder,
        remote,
        &source,
        scan,
        plan.doomed.slice(),
        writes.slice(),
        cuts,
        buffer.as_mut_slice(),
    ) {
        Ok(owns) => owns,
        Err(fault) => return Err(fault),
    };
    let written = count(&owns);
    let removed = count(&plan.doomed);
    match known_entries(alloc, scan, entries, writes.slice(), owns.slice()) {
        Ok(entries) => Ok(Done {
            entries,
            held: plan.held,
            written,
            removed,
        }),
        Err(AllocError) => Err(SyncFault::NoMemory),
    }
}

/// The number of items.
fn count<T>(items: &Items<T>) -> u64
    ensures value { result ≡ length items.now }
{
    items.len() as u64
}

/// A buffer with which files are read.
fn piece(alloc: Global) -> Result<Vec<u8>, AllocError>
    ensures bound { IfOk result (λ buffer. vec_len buffer ≡ PIECE) }
{
    vec![in alloc; 0; PIECE]
}
