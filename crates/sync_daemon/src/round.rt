//! One round of a sync: the checks, the scan, and then a push or the head.
ghost use Rattle.std.specs.Prelude.{◌≡◌, ◌≤◌, ◌≢◌, ◌++◌, ℕ, IfSome, List, Some, false, true};
ghost use Rattle.ids.specs.FaultCount.{FailsBy};
ghost use Rattle.ids.specs.ObjectId.{nil};
ghost use Rattle.std.specs.Option.{option_or};
ghost use Rattle.folder_side.specs.Calls.{Glances};
ghost use Rattle.folder_side.specs.Folder.{Contents};
ghost use Rattle.remote_calls.specs.Sends.{Sent};
ghost use Rattle.sync_rules.specs.Causes.{is_folder_fault};
ghost use Rattle.sync_rules.specs.Orders.Stage.{Begins};
ghost use Rattle.tree_push.specs.ChangedOwns.{AreChangedOwns};
ghost use Rattle.sync_daemon.specs.Asking.{HeadOf};
ghost use Rattle.sync_daemon.specs.Going.{Going, Spares};
ghost use Rattle.sync_daemon.specs.Rounds.{IsChecked, IsJoined, IsSeen, MayDiffer, RoundSo, RoundsSo, TellsChange, pushed_round, sync_of};

use crate::asking::{ask_head, may_upload};
use crate::joining::join;
use crate::scanning::{Found, files_known, find_changes, scan_folder};
use block_chunker::Cuts;
use folder_side::{Ahead, Folder, Scan};
use ids::{ObjId, Text};
use library_state::{Clock, Refusal};
use local_index::Index;
use remote_calls::Remote;
use std::alloc::{AllocError, Global};
use sync_rules::SyncFault;
use tree_fetch::Asker;
use tree_model::PathTable;
use tree_push::{Library, Pushed, push};

/// What a round came to.
#[derive(Drop)]
pub(crate) enum Round {
    /// The folder agrees with its index, or what changed was pushed, or may not be.
    Settled(Settled),
    /// The update came too late; the last collection has this number.
    Late(u64),
}

/// What the folder held, with the own ids of the files that are new or changed, and where the library stands now; the moment of the
/// round, at which it was offered where something was pushed; whether the folder differs from its index and nothing may be pushed.
#[derive(Drop)]
pub(crate) struct Settled {
    pub(crate) scan: Scan,
    pub(crate) owns: PathTable<ObjId>,
    pub(crate) head: ObjId,
    pub(crate) pushed: Option<ObjId>,
    pub(crate) moment: u64,
    pub(crate) differs: bool,
}

/// How often an update may come too late.
const MOST_LATE: u64 = 3;

/// Up to three rounds: the next one begins where an update came too late.
pub(crate) fn rounds<F: Folder, R: Remote, C: Clock>(
    alloc: Global,
    folder: &mut F,
    remote: &mut R,
    asker: &Asker,
    index: &Index,
    user: &Text,
    clock: &C,
    cuts: Cuts,
) -> Result<Settled, SyncFault>
    requires library { asker.now.lib ≡ index.now.lib }
    ensures value { RoundsSo (sync_of asker.now user.now (C.shows clock.now) cuts (F.told folder.old) index.now) (R.sends remote.old) (R.sends remote.new) result }
    ensures stays { (F.told folder.new ≡ F.told folder.old) × (R.peer remote.new ≡ R.peer remote.old) }
    ensures traced { Glances (F.trace folder.old) (F.trace folder.new) }
    ensures faults { FailsBy is_folder_fault (F.faults folder.old) (F.faults folder.new) result }
{
    let mut late: u64 = 0;
    let mut last: u64 = 0;
    while late < MOST_LATE {
        let came = match one_round(alloc, folder, remote, asker, index, user, clock, cuts) {
            Ok(came) => came,
            Err(fault) => return Err(fault),
        };
        match came {
            Round::Settled(settled) => return Ok(settled),
            Round::Late(now) => last = now,
        }
        late += 1;
    }
    Err(SyncFault::Stale(last))
}

/// One round: whether one may upload is asked first.
fn one_round<F: Folder, R: Remote, C: Clock>(
    alloc: Global,
    folder: &mut F,
    remote: &mut R,
    asker: &Asker,
    index: &Index,
    user: &Text,
    clock: &C,
    cuts: Cuts,
) -> Result<Round, SyncFault>
    requires library { asker.now.lib ≡ index.now.lib }
    ensures value { (start before : List Sent) (late : ℕ) → R.sends remote.old ≡ start ++ before → Going (sync_of asker.now user.now (C.shows clock.now) cuts (F.told folder.old) index.now) before Begins late → late ≤ 2 → Spares (sync_of asker.now user.now (C.shows clock.now) cuts (F.told folder.old) index.now) before → RoundSo (sync_of asker.now user.now (C.shows clock.now) cuts (F.told folder.old) index.now) start (R.sends remote.new) late result }
    ensures stays { (F.told folder.new ≡ F.told folder.old) × (R.peer remote.new ≡ R.peer remote.old) }
    ensures traced { Glances (F.trace folder.old) (F.trace folder.new) }
    ensures faults { FailsBy is_folder_fault (F.faults folder.old) (F.faults folder.new) result }
{
    let may = match may_upload(alloc, remote, asker) {
        Ok(may) => may,
        Err(fault) => return Err(fault),
    };
    checked_round(alloc, folder, remote, asker, index, user, clock, cuts, may)
}

/// The rest of a round: the folder is scanned. No order comes until then, so that what is kept for the next one is left.
fn checked_round<F: Folder, R: Remote, C: Clock>(
    alloc: Global,
    folder: &mut F,
    remote: &mut R,
    asker: &Asker,
    index: &Index,
    user: &Text,
    clock: &C,
    cuts: Cuts,
    may: bool,
) -> Result<Round, SyncFault>
    requires library { asker.now.lib ≡ index.now.lib }
    ensures value { (start before : List Sent) (late : ℕ) → R.sends remote.old ≡ start ++ before → IsChecked (sync_of asker.now user.now (C.shows clock.now) cuts (F.told folder.old) index.now) before late may → RoundSo (sync_of asker.now user.now (C.shows clock.now) cuts (F.told folder.old) index.now) start (R.sends remote.new) late result }
    ensures stays { (F.told folder.new ≡ F.told folder.old) × (R.peer remote.new ≡ R.peer remote.old) }
    ensures traced { Glances (F.trace folder.old) (F.trace folder.new) }
    ensures faults { FailsBy is_folder_fault (F.faults folder.old) (F.faults folder.new) result }
{
    remote.rest();
    folder.ahead(Ahead::Files(files_known(index)));
    let report = match scan_folder(alloc, folder, cuts) {
        Ok(report) => report,
        Err(fault) => return Err(fault),
    };
    scanned_round(
        alloc, folder, remote, asker, index, user, clock, cuts, may, report,
    )
}

/// The rest of a round: where the index has no base, the head is asked for.
fn scanned_round<F: Folder, R: Remote, C: Clock>(
    alloc: Global,
    folder: &mut F,
    remote: &mut R,
    asker: &Asker,
    index: &Index,
    user: &Text,
    clock: &C,
    cuts: Cuts,
    may: bool,
    report: Scan,
) -> Result<Round, SyncFault>
    requires library { asker.now.lib ≡ index.now.lib }
    ensures value { (start before : List Sent) (late : ℕ) → R.sends remote.old ≡ start ++ before → IsChecked (sync_of asker.now user.now (C.shows clock.now) cuts (F.told folder.old) index.now) before late may → ((c : Contents) → F.told folder.old ≡ Some c → IsSeen cuts c report) → RoundSo (sync_of asker.now user.now (C.shows clock.now) cuts (F.told folder.old) index.now) start (R.sends remote.new) late result }
    ensures stays { (F.told folder.new ≡ F.told folder.old) × (R.peer remote.new ≡ R.peer remote.old) }
    ensures traced { Glances (F.trace folder.old) (F.trace folder.new) }
    ensures faults { FailsBy is_folder_fault (F.faults folder.old) (F.faults folder.new) result }
{
    let asked = match join(alloc, remote, asker, index, &report) {
        Ok(asked) => asked,
        Err(fault) => return Err(fault),
    };
    joined_round(
        alloc, folder, remote, asker, index, user, clock, cuts, may, report, asked,
    )
}

/// The rest of a round: what changed is pushed, where one may, or else the head is asked for.
fn joined_round<F: Folder, R: Remote, C: Clock>(
    alloc: Global,
    folder: &mut F,
    remote: &mut R,
    asker: &Asker,
    index: &Index,
    user: &Text,
    clock: &C,
    cuts: Cuts,
    may: bool,
    report: Scan,
    asked: Option<ObjId>,
) -> Result<Round, SyncFault>
    requires library { asker.now.lib ≡ index.now.lib }
    ensures value { (start before : List Sent) (late : ℕ) → R.sends remote.old ≡ start ++ before → IsJoined (sync_of asker.now user.now (C.shows clock.now) cuts (F.told folder.old) index.now) before late may asked → ((c : Contents) → F.told folder.old ≡ Some c → IsSeen cuts c report) → RoundSo (sync_of asker.now user.now (C.shows clock.now) cuts (F.told folder.old) index.now) start (R.sends remote.new) late result }
    ensures stays { (F.told folder.new ≡ F.told folder.old) × (R.peer remote.new ≡ R.peer remote.old) }
    ensures traced { Glances (F.trace folder.old) (F.trace folder.new) }
    ensures faults { FailsBy is_folder_fault (F.faults folder.old) (F.faults folder.new) result }
{
    let Found { is_changed, owns } = match find_changes(alloc, &report, index) {
        Ok(found) => found,
        Err(AllocError) => return Err(SyncFault::NoMemory),
    };
    if !is_changed {
        return unpushed_round(
            alloc, folder, remote, asker, index, user, clock, cuts, may, report, owns, asked, false,
        );
    }
    if may {
        return changed_round(
            alloc, folder, remote, asker, index, user, clock, cuts, report, owns, asked,
        );
    }
    if index.base.is_some() {
        return unpushed_round(
            alloc, folder, remote, asker, index, user, clock, cuts, may, report, owns, asked, true,
        );
    }
    Err(SyncFault::Refused(Refusal::Denied))
}

/// The end of a round in which nothing is pushed: the head is asked for, unless it was. `differs` tells that the folder differs from its
/// index, which one who may only read can't push.
fn unpushed_round<F: Folder, R: Remote, C: Clock>(
    alloc: Global,
    folder: &mut F,
    remote: &mut R,
    asker: &Asker,
    index: &Index,
    user: &Text,
    clock: &C,
    cuts: Cuts,
    may: bool,
    report: Scan,
    owns: PathTable<ObjId>,
    asked: Option<ObjId>,
    differs: bool,
) -> Result<Round, SyncFault>
    requires library { asker.now.lib ≡ index.now.lib }
    requires ids { AreChangedOwns index.now.entries report.paths owns }
    ensures value { (start before : List Sent) (late : ℕ) → R.sends remote.old ≡ start ++ before → IsJoined (sync_of asker.now user.now (C.shows clock.now) cuts (F.told folder.old) index.now) before late may asked → ((c : Contents) → F.told folder.old ≡ Some c → IsSeen cuts c report) → TellsChange report index.now differs → MayDiffer differs may index.now.base → RoundSo (sync_of asker.now user.now (C.shows clock.now) cuts (F.told folder.old) index.now) start (R.sends remote.new) late result }
    ensures stays { (F.told folder.new ≡ F.told folder.old) × (R.peer remote.new ≡ R.peer remote.old) }
    ensures traced { Glances (F.trace folder.old) (F.trace folder.new) }
    ensures faults { FailsBy is_folder_fault (F.faults folder.old) (F.faults folder.new) result }
{
    let moment = clock.now();
    match head_of(alloc, remote, asker, asked) {
        Ok(head) => Ok(Round::Settled(Settled {
            scan: report,
            owns,
            head,
            pushed: None,
            moment,
            differs,
        })),
        Err(fault) => Err(fault),
    }
}

/// The end of a round in which what changed is pushed.
fn changed_round<F: Folder, R: Remote, C: Clock>(
    alloc: Global,
    folder: &mut F,
    remote: &mut R,
    asker: &Asker,
    index: &Index,
    user: &Text,
    clock: &C,
    cuts: Cuts,
    report: Scan,
    owns: PathTable<ObjId>,
    asked: Option<ObjId>,
) -> Result<Round, SyncFault>
    requires library { asker.now.lib ≡ index.now.lib }
    requires ids { AreChangedOwns index.now.entries report.paths owns }
    ensures value { (start before : List Sent) (late : ℕ) → R.sends remote.old ≡ start ++ before → IsJoined (sync_of asker.now user.now (C.shows clock.now) cuts (F.told folder.old) index.now) before late true asked → ((c : Contents) → F.told folder.old ≡ Some c → IsSeen cuts c report) → TellsChange report index.now true → RoundSo (sync_of asker.now user.now (C.shows clock.now) cuts (F.told folder.old) index.now) start (R.sends remote.new) late result }
    ensures stays { (F.told folder.new ≡ F.told folder.old) × (R.peer remote.new ≡ R.peer remote.old) }
    ensures traced { Glances (F.trace folder.old) (F.trace folder.new) }
    ensures faults { FailsBy is_folder_fault (F.faults folder.old) (F.faults folder.new) result }
{
    let Some(parent) = parent_of(index, asked) else {
        return Err(SyncFault::NoMemory);
    };
    let library = Library {
        lib: asker.lib,
        secret: asker.secret,
    };
    let moment = clock.now();
    match push(
        alloc, folder, remote, &library, &report, index, &owns, parent, cuts, user, moment,
    ) {
        Ok(pushed) => Ok(pushed_round(report, owns, moment, pushed)),
        Err(fault) => Err(fault),
    }
}

/// What a round came to in which something was pushed.
fn pushed_round(report: Scan, owns: PathTable<ObjId>, moment: u64, pushed: Pushed) -> Round
    ensures value { result ≡ pushed_round report owns moment pushed }
{
    match pushed {
        Pushed::Installed { commit, head } => Round::Settled(Settled {
            scan: report,
            owns,
            head,
            pushed: Some(commit),
            moment,
            differs: false,
        }),
        Pushed::Late { now } => Round::Late(now),
    }
}

/// The commit on which a push is made: the index's base, or the head that was asked for. None of forty zeros, which no text is
/// known to have as its name.
fn parent_of(index: &Index, asked: Option<ObjId>) -> Option<ObjId>
    ensures value { IfSome result (λ parent. (option_or index.now.base asked ≡ Some parent) × (parent ≢ nil)) }
{
    let parent = match index.base {
        Some(base) => base,
        None => match asked {
            Some(head) => head,
            None => return None,
        },
    };
    if parent.is_nil() {
        return None;
    }
    Some(parent)
}

/// The head that was asked for, or else it is asked for now.
fn head_of<R: Remote>(
    alloc: Global,
    remote: &mut R,
    asker: &Asker,
    asked: Option<ObjId>,
) -> Result<ObjId, SyncFault>
    ensures value { HeadOf asker.now asked (R.sends remote.old) (R.sends remote.new) result }
    ensures stays { R.peer remote.new ≡ R.peer remote.old }
{
    match asked {
        Some(head) => Ok(head),
        None => ask_head(alloc, remote, asker),
    }
}
