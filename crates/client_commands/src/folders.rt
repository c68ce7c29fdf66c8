//! A folder of the desk, which is out for a while.
ghost use Rattle.std.specs.Prelude.{◌≡◌, IsTrue};
ghost use Rattle.client_commands.specs.Folders.{GivesFolder, ChecksMarker, TakesBy, claim_of};
ghost use Rattle.client_commands.specs.Keeping.{DeskKeeps};
ghost use Rattle.client_commands.specs.Views.{desk_view, own_view};

use client_desk::{Asking, Claim, Desk, fault_of_folder};
use client_words::{Fault, Job};
use ids::{LibId, Text};
use local_index::Index;
use sync_rules::Synced;

/// Asks the desk for the folder at a path.
pub(crate) fn take_folder<D: Desk>(desk: &mut D, dir: &Text, claim: Claim) -> Result<D::F, Fault>
    ensures told { TakesBy D.F.told D.F.faults dir.now (desk_view D.has_place D.holds D.dials D.folder_faults D.dial_faults desk.old)
        (desk_view D.has_place D.holds D.dials D.folder_faults D.dial_faults desk.new) result }
{
    match desk.folder(dir.slice(), claim) {
        Ok(folder) => Ok(folder),
        Err(fault) => Err(fault_of_folder(fault)),
    }
}

/// Gives the folder at a path back, at which the desk has a place for one, and tells whether a sync of it ended well.
pub(crate) fn give_folder<D: Desk>(desk: &mut D, dir: &Text, folder: D::F, is_synced: bool)
    requires found { IsTrue (D.has_place desk.old dir.now) }
    ensures after { GivesFolder dir.now (own_view D.F.told D.F.faults folder) (desk_view D.has_place D.holds D.dials D.folder_faults D.dial_faults desk.old)
        (desk_view D.has_place D.holds D.dials D.folder_faults D.dial_faults desk.new) }
{
    desk.give_back(dir.slice(), folder, is_synced);
}

/// What the folder of a job of the list is asked for as.
pub(crate) fn claim_of(job: &Job, index: &Index, asking: Asking) -> Claim
    ensures value { result ≡ claim_of job.now index.now asking }
{
    Claim::Listed {
        lib: job.lib,
        asking,
        has_paths: index.entries.len() > 0,
    }
}

/// What a sync came to that ended well: a fault where the marker of its folder could not be put.
pub(crate) fn told_of_marker<D: Desk>(desk: &mut D, synced: Synced) -> Result<Synced, Fault>
    ensures value { ChecksMarker synced (desk_view D.has_place D.holds D.dials D.folder_faults D.dial_faults desk.old)
        (desk_view D.has_place D.holds D.dials D.folder_faults D.dial_faults desk.new) result }
    ensures faults { DeskKeeps (desk_view D.has_place D.holds D.dials D.folder_faults D.dial_faults desk.old)
        (desk_view D.has_place D.holds D.dials D.folder_faults D.dial_faults desk.new) result }
{
    match desk.check_marker() {
        Ok(()) => Ok(synced),
        Err(fault) => Err(fault_of_folder(fault)),
    }
}

/// Lets the desk take the marker of a job away that was taken from the list.
pub(crate) fn take_marker<D: Desk>(desk: &mut D, dir: &Text, taken: &Result<LibId, Fault>)
    ensures same { desk_view D.has_place D.holds D.dials D.folder_faults D.dial_faults desk.new
        ≡ desk_view D.has_place D.holds D.dials D.folder_faults D.dial_faults desk.old }
{
    match taken {
        Ok(lib) => desk.take_marker(dir.slice(), lib),
        Err(_) => {}
    }
}
