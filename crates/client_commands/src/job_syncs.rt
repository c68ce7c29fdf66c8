//! The sync of a job: its folder with the library of its index.
ghost use Rattle.std.specs.Prelude.{◌≡◌, false, IfOk, Some};
ghost use Rattle.std.specs.List.{list_any};
ghost use Rattle.folder_side.specs.Folder.{Contents, FolderFails};
ghost use Rattle.http_client.specs.RequestText.{IsHost};
ghost use Rattle.remote_calls.specs.Exchange.{link_view};
ghost use Rattle.client_commands.specs.JobSyncs.{SyncsOver, WorksBy, WorksSo, is_unwanted, is_visible};
ghost use Rattle.client_commands.specs.Keeping.{DeskKeeps, OwnKeeps};
ghost use Rattle.client_commands.specs.Views.{desk_view, dial_view, own_view};

use crate::dialled_server::DialledServer;
use crate::folders::{give_folder, take_folder};
use crate::sync_faults::told_of;
use crate::wanted::Wanted;
use client_desk::{Claim, Desk, fault_of_folder};
use client_words::{Fault, Job};
use folder_side::{Folder, FolderFault, Item, ItemKind};
use ids::Text;
use library_state::Clock;
use local_index::Index;
use std::alloc::{AllocError, Global};
use sync_daemon::sync_once;
use sync_rules::Synced;
use tree_model::Path;

/// Syncs the folder of a job, which is asked for at the desk first and given back in the end.
pub(crate) fn sync_folder<D: Desk, C: Clock>(
    alloc: Global,
    desk: &mut D,
    job: &Job,
    index: &mut Index,
    claim: Claim,
    wanted: Wanted,
    clock: &C,
) -> Result<Synced, Fault>
    requires name { IsHost job.now.host }
    ensures value { WorksSo (dial_view (link_view D.N.L.left D.N.L.taken D.N.L.given D.N.L.asked D.N.L.faults) D.N.back D.N.dialled) (C.shows clock.now) wanted job.now index.old index.new
        (desk_view D.has_place D.holds D.dials D.folder_faults D.dial_faults desk.old)
        (desk_view D.has_place D.holds D.dials D.folder_faults D.dial_faults desk.new) result }
    ensures faults { DeskKeeps (desk_view D.has_place D.holds D.dials D.folder_faults D.dial_faults desk.old)
        (desk_view D.has_place D.holds D.dials D.folder_faults D.dial_faults desk.new) result }
{
    let host = match Text::copy(alloc, job.host.slice()) {
        Ok(host) => host,
        Err(AllocError) => return Err(Fault::NoMemory),
    };
    let mut folder = match take_folder(desk, &job.dir, claim) {
        Ok(folder) => folder,
        Err(fault) => return Err(fault),
    };
    let synced = sync_open(alloc, desk, &mut folder, host, job, index, wanted, clock);
    give_folder(desk, &job.dir, folder, synced.is_ok());
    synced
}

/// Syncs the folder of a job, once it is open, unless it is full and an empty one is wanted.
fn sync_open<D: Desk, C: Clock>(
    alloc: Global,
    desk: &mut D,
    folder: &mut D::F,
    host: Text,
    job: &Job,
    index: &mut Index,
    wanted: Wanted,
    clock: &C,
) -> Result<Synced, Fault>
    requires name { IsHost host }
    requires same { host ≡ job.now.host }
    ensures value { WorksBy (dial_view (link_view D.N.L.left D.N.L.taken D.N.L.given D.N.L.asked D.N.L.faults) D.N.back D.N.dialled) (C.shows clock.now) wanted job.now index.old index.new
        (D.F.told folder.old) (D.F.told folder.new) (D.dials desk.old) (D.dials desk.new) result }
    ensures faults { OwnKeeps (own_view D.F.told D.F.faults folder.old) (own_view D.F.told D.F.faults folder.new)
        (desk_view D.has_place D.holds D.dials D.folder_faults D.dial_faults desk.old)
        (desk_view D.has_place D.holds D.dials D.folder_faults D.dial_faults desk.new) result }
    ensures stays { D.holds desk.new ≡ D.holds desk.old }
{
    let unwanted = match is_unwanted(alloc, folder, wanted) {
        Ok(unwanted) => unwanted,
        Err(fault) => return Err(fault_of_folder(fault)),
    };
    if unwanted {
        return Err(Fault::FolderNotEmpty);
    }
    sync_over(alloc, desk, folder, host, job, index, clock)
}

/// Syncs the folder of a job over a dial of the desk.
fn sync_over<D: Desk, C: Clock>(
    alloc: Global,
    desk: &mut D,
    folder: &mut D::F,
    host: Text,
    job: &Job,
    index: &mut Index,
    clock: &C,
) -> Result<Synced, Fault>
    requires name { IsHost host }
    requires same { host ≡ job.now.host }
    ensures value { SyncsOver (dial_view (link_view D.N.L.left D.N.L.taken D.N.L.given D.N.L.asked D.N.L.faults) D.N.back D.N.dialled) (C.shows clock.now) job.now index.old index.new
        (D.F.told folder.old) (D.F.told folder.new) (D.dials desk.old) (D.dials desk.new) result }
    ensures faults { OwnKeeps (own_view D.F.told D.F.faults folder.old) (own_view D.F.told D.F.faults folder.new)
        (desk_view D.has_place D.holds D.dials D.folder_faults D.dial_faults desk.old)
        (desk_view D.has_place D.holds D.dials D.folder_faults D.dial_faults desk.new) result }
    ensures stays { D.holds desk.new ≡ D.holds desk.old }
{
    let dial = desk.dial();
    let mut remote = DialledServer::new(dial, host, job.port);
    let synced = sync_once(
        alloc,
        folder,
        index,
        &mut remote,
        job.secret,
        &job.user,
        clock,
    );
    let used = remote.end();
    desk.hang_up(used);
    told_of(synced)
}

/// Whether a folder is full where an empty one is wanted.
fn is_unwanted<F: Folder>(
    alloc: Global,
    folder: &mut F,
    wanted: Wanted,
) -> Result<bool, FolderFault>
    ensures value { (c : Contents) → F.told folder.old ≡ Some c → IfOk result (λ unwanted. unwanted ≡ is_unwanted wanted c) }
    ensures any { wanted ≡ Wanted.Any → IfOk result (λ unwanted. unwanted ≡ false) }
    ensures stays { F.told folder.new ≡ F.told folder.old }
    ensures faults { FolderFails (F.faults folder.old) (F.faults folder.new) result }
{
    match wanted {
        Wanted::Any => Ok(false),
        Wanted::Empty => match folder.list(alloc, &Path::root(alloc)) {
            Ok(listing) => Ok(has_visible(listing.items.slice())),
            Err(fault) => Err(fault),
        },
    }
}

/// Whether a file or a directory is listed.
fn has_visible(items: &[Item]) -> bool
    ensures value { result ≡ list_any is_visible items.now }
{
    items.iter().any(|item| is_visible(item))
}

fn is_visible(item: &Item) -> bool
    ensures value { result ≡ is_visible item.now }
{
    match item.kind {
        ItemKind::File => true,
        ItemKind::Dir => true,
        ItemKind::Other => false,
    }
}
