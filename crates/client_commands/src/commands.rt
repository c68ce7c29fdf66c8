//! The commands, with the client's own folder, which the desk hands out first and takes back in the end.
ghost use Rattle.http_client.specs.RequestText.{IsHost};
ghost use Rattle.remote_calls.specs.Exchange.{link_view};
ghost use Rattle.client_desk.specs.Commands.{IsDesyncFault, IsInitFault};
ghost use Rattle.client_desk.specs.KeptTexts.{IsListFault};
ghost use Rattle.client_commands.specs.Folders.{WithFolder};
ghost use Rattle.client_commands.specs.Keeping.{DeskKeeps};
ghost use Rattle.client_commands.specs.KeptSyncs.{SyncsOwn};
ghost use Rattle.client_commands.specs.Runs.{DesyncDoes, InOwn, InitDoes, ListDoes};
ghost use Rattle.client_commands.specs.Statuses.{StatusDoes};
ghost use Rattle.client_commands.specs.Views.{desk_view, dial_view};

use crate::folders::{give_folder, take_folder, take_marker};
use crate::kept_syncs::sync_asked;
use crate::statuses::statuses;
use crate::wanted::Wanted;
use client_desk::{Claim, Desk, desync, init, list};
use client_words::{Fault, Job, Line};
use ids::{Items, LibId, Text};
use library_state::Clock;
use std::alloc::Global;
use sync_rules::Synced;

/// `init` in the client's own folder.
pub(crate) fn init_at<D: Desk>(alloc: Global, desk: &mut D, conf: &Text) -> Result<(), Fault>
    ensures value { WithFolder conf.now (InOwn IsInitFault InitDoes) (desk_view D.has_place D.holds D.dials D.folder_faults D.dial_faults desk.old)
        (desk_view D.has_place D.holds D.dials D.folder_faults D.dial_faults desk.new) result }
    ensures faults { DeskKeeps (desk_view D.has_place D.holds D.dials D.folder_faults D.dial_faults desk.old)
        (desk_view D.has_place D.holds D.dials D.folder_faults D.dial_faults desk.new) result }
{
    let mut folder = match take_folder(desk, conf, Claim::Own) {
        Ok(folder) => folder,
        Err(fault) => return Err(fault),
    };
    let done = init(alloc, &mut folder);
    give_folder(desk, conf, folder, false);
    done
}

/// `list` of the client's own folder.
pub(crate) fn list_at<D: Desk>(
    alloc: Global,
    desk: &mut D,
    conf: &Text,
) -> Result<Items<Line>, Fault>
    ensures value { WithFolder conf.now (InOwn IsListFault ListDoes) (desk_view D.has_place D.holds D.dials D.folder_faults D.dial_faults desk.old)
        (desk_view D.has_place D.holds D.dials D.folder_faults D.dial_faults desk.new) result }
    ensures faults { DeskKeeps (desk_view D.has_place D.holds D.dials D.folder_faults D.dial_faults desk.old)
        (desk_view D.has_place D.holds D.dials D.folder_faults D.dial_faults desk.new) result }
{
    let mut folder = match take_folder(desk, conf, Claim::Own) {
        Ok(folder) => folder,
        Err(fault) => return Err(fault),
    };
    let lines = list(alloc, &mut folder);
    give_folder(desk, conf, folder, false);
    lines
}

/// `desync` in the client's own folder.
pub(crate) fn desync_at<D: Desk>(
    alloc: Global,
    desk: &mut D,
    conf: &Text,
    dir: &Text,
) -> Result<LibId, Fault>
    ensures value { WithFolder conf.now (InOwn IsDesyncFault (DesyncDoes dir.now)) (desk_view D.has_place D.holds D.dials D.folder_faults D.dial_faults desk.old)
        (desk_view D.has_place D.holds D.dials D.folder_faults D.dial_faults desk.new) result }
    ensures faults { DeskKeeps (desk_view D.has_place D.holds D.dials D.folder_faults D.dial_faults desk.old)
        (desk_view D.has_place D.holds D.dials D.folder_faults D.dial_faults desk.new) result }
{
    let mut folder = match take_folder(desk, conf, Claim::Own) {
        Ok(folder) => folder,
        Err(fault) => return Err(fault),
    };
    let done = desync(alloc, &mut folder, dir);
    take_marker(desk, dir, &done);
    give_folder(desk, conf, folder, false);
    done
}

/// `status` of the jobs of the client's own folder.
pub(crate) fn status_at<D: Desk>(
    alloc: Global,
    desk: &mut D,
    conf: &Text,
) -> Result<Items<Line>, Fault>
    ensures value { WithFolder conf.now StatusDoes (desk_view D.has_place D.holds D.dials D.folder_faults D.dial_faults desk.old)
        (desk_view D.has_place D.holds D.dials D.folder_faults D.dial_faults desk.new) result }
    ensures faults { DeskKeeps (desk_view D.has_place D.holds D.dials D.folder_faults D.dial_faults desk.old)
        (desk_view D.has_place D.holds D.dials D.folder_faults D.dial_faults desk.new) result }
{
    let mut folder = match take_folder(desk, conf, Claim::Own) {
        Ok(folder) => folder,
        Err(fault) => return Err(fault),
    };
    let lines = statuses(alloc, desk, &mut folder);
    give_folder(desk, conf, folder, false);
    lines
}

/// `sync` or `download`, with the client's own folder.
pub(crate) fn sync_at<D: Desk, C: Clock>(
    alloc: Global,
    desk: &mut D,
    conf: &Text,
    asked: Job,
    wanted: Wanted,
    clock: &C,
) -> Result<Synced, Fault>
    requires name { IsHost asked.host }
    ensures value { WithFolder conf.now (SyncsOwn (dial_view (link_view D.N.L.left D.N.L.taken D.N.L.given D.N.L.asked D.N.L.faults) D.N.back D.N.dialled) (C.shows clock.now) wanted asked) (desk_view D.has_place D.holds D.dials D.folder_faults D.dial_faults desk.old)
        (desk_view D.has_place D.holds D.dials D.folder_faults D.dial_faults desk.new) result }
    ensures faults { DeskKeeps (desk_view D.has_place D.holds D.dials D.folder_faults D.dial_faults desk.old)
        (desk_view D.has_place D.holds D.dials D.folder_faults D.dial_faults desk.new) result }
{
    let mut folder = match take_folder(desk, conf, Claim::Own) {
        Ok(folder) => folder,
        Err(fault) => return Err(fault),
    };
    let synced = sync_asked(alloc, desk, &mut folder, asked, wanted, clock);
    give_folder(desk, conf, folder, false);
    synced
}
