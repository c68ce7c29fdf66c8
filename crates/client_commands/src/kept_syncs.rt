//! A sync of a job of the list, or of one that is added to it, and what is kept of it.
ghost use Rattle.std.specs.Prelude.{◌≡◌, IfErr, IsTrue, Some};
ghost use Rattle.ids.specs.FaultCount.{FailsBy};
ghost use Rattle.folder_side.specs.Folder.{Changes, Contents};
ghost use Rattle.http_client.specs.RequestText.{IsHost};
ghost use Rattle.remote_calls.specs.Exchange.{link_view};
ghost use Rattle.client_desk.specs.Commands.{with_jobs};
ghost use Rattle.client_desk.specs.JobList.{jobs_with};
ghost use Rattle.client_desk.specs.KeptTexts.{is_free, is_of_folder};
ghost use Rattle.client_commands.specs.Keeping.{OwnKeeps};
ghost use Rattle.client_commands.specs.KeptSyncs.{SyncsAsked, SyncsListed, SyncsNew, asking_of, job_line};
ghost use Rattle.client_commands.specs.Views.{desk_view, dial_view, own_view};

use crate::folders::{claim_of, told_of_marker};
use crate::job_syncs::sync_folder;
use crate::wanted::Wanted;
use client_desk::{
    Asking, Claim, Desk, index_in, job_due, jobs_in, jobs_with, put_index, put_jobs,
};
use client_words::{Fault, Job, Line};
use folder_side::Folder;
use ids::{Items, LibId};
use library_state::Clock;
use local_index::Index;
use std::alloc::{AllocError, Global};
use sync_rules::Synced;

/// Syncs the folder that the words of `sync` or `download` name: as the job that it is already, or as a new one, which is
/// added to the list once the sync has ended well.
pub(crate) fn sync_asked<D: Desk, C: Clock>(
    alloc: Global,
    desk: &mut D,
    conf: &mut D::F,
    asked: Job,
    wanted: Wanted,
    clock: &C,
) -> Result<Synced, Fault>
    requires name { IsHost asked.host }
    ensures value { SyncsAsked (dial_view (link_view D.N.L.left D.N.L.taken D.N.L.given D.N.L.asked D.N.L.faults) D.N.back D.N.dialled) (C.shows clock.now) wanted asked (D.F.told conf.old) (D.F.told conf.new)
        (desk_view D.has_place D.holds D.dials D.folder_faults D.dial_faults desk.old)
        (desk_view D.has_place D.holds D.dials D.folder_faults D.dial_faults desk.new) result }
    ensures faults { OwnKeeps (own_view D.F.told D.F.faults conf.old) (own_view D.F.told D.F.faults conf.new)
        (desk_view D.has_place D.holds D.dials D.folder_faults D.dial_faults desk.old)
        (desk_view D.has_place D.holds D.dials D.folder_faults D.dial_faults desk.new) result }
{
    let jobs = match jobs_in(alloc, conf) {
        Ok(jobs) => jobs,
        Err(fault) => return Err(fault),
    };
    let found = match job_due(jobs.slice(), &asked) {
        Ok(found) => found,
        Err(fault) => return Err(fault),
    };
    if let Some(job) = found {
        return sync_listed(alloc, desk, conf, job, asking_of(wanted), wanted, clock);
    }
    sync_new(alloc, desk, conf, asked, jobs, wanted, clock)
}

/// Which command asks for the folder of a job whose sync wants this of it, where the words named that folder.
fn asking_of(wanted: Wanted) -> Asking
    ensures value { result ≡ asking_of wanted }
{
    match wanted {
        Wanted::Any => Asking::Sync,
        Wanted::Empty => Asking::Download,
    }
}

/// Syncs a job of the list by its index, which is put again where the sync ended well.
pub(crate) fn sync_listed<D: Desk, C: Clock>(
    alloc: Global,
    desk: &mut D,
    conf: &mut D::F,
    job: &Job,
    asking: Asking,
    wanted: Wanted,
    clock: &C,
) -> Result<Synced, Fault>
    requires name { IsHost job.now.host }
    ensures value { SyncsListed (dial_view (link_view D.N.L.left D.N.L.taken D.N.L.given D.N.L.asked D.N.L.faults) D.N.back D.N.dialled) (C.shows clock.now) wanted job.now (D.F.told conf.old) (D.F.told conf.new)
        (desk_view D.has_place D.holds D.dials D.folder_faults D.dial_faults desk.old)
        (desk_view D.has_place D.holds D.dials D.folder_faults D.dial_faults desk.new) result }
    ensures faults { OwnKeeps (own_view D.F.told D.F.faults conf.old) (own_view D.F.told D.F.faults conf.new)
        (desk_view D.has_place D.holds D.dials D.folder_faults D.dial_faults desk.old)
        (desk_view D.has_place D.holds D.dials D.folder_faults D.dial_faults desk.new) result }
{
    let mut index = match index_in(alloc, conf, &job.lib) {
        Ok(index) => index,
        Err(fault) => return Err(fault),
    };
    let claim = claim_of(job, &index, asking);
    let synced = match sync_folder(alloc, desk, job, &mut index, claim, wanted, clock) {
        Ok(synced) => synced,
        Err(fault) => return Err(fault),
    };
    match put_index(alloc, conf, &index) {
        Ok(()) => told_of_marker(desk, synced),
        Err(fault) => Err(fault),
    }
}

/// Syncs a folder that is no job yet, and adds it where that ended well: first its index, then the job.
fn sync_new<D: Desk, C: Clock>(
    alloc: Global,
    desk: &mut D,
    conf: &mut D::F,
    asked: Job,
    jobs: Items<Job>,
    wanted: Wanted,
    clock: &C,
) -> Result<Synced, Fault>
    requires name { IsHost asked.host }
    ensures value { SyncsNew (dial_view (link_view D.N.L.left D.N.L.taken D.N.L.given D.N.L.asked D.N.L.faults) D.N.back D.N.dialled) (C.shows clock.now) wanted asked jobs (D.F.told conf.old) (D.F.told conf.new)
        (desk_view D.has_place D.holds D.dials D.folder_faults D.dial_faults desk.old)
        (desk_view D.has_place D.holds D.dials D.folder_faults D.dial_faults desk.new) result }
    ensures faults { OwnKeeps (own_view D.F.told D.F.faults conf.old) (own_view D.F.told D.F.faults conf.new)
        (desk_view D.has_place D.holds D.dials D.folder_faults D.dial_faults desk.old)
        (desk_view D.has_place D.holds D.dials D.folder_faults D.dial_faults desk.new) result }
{
    let mut index = Index::empty(alloc, asked.lib);
    let claim = Claim::New(asked.lib);
    let synced = match sync_folder(alloc, desk, &asked, &mut index, claim, wanted, clock) {
        Ok(synced) => synced,
        Err(failed) => return Err(failed),
    };
    if let Err(fault) = put_index(alloc, conf, &index) {
        return Err(fault);
    }
    match add_job(alloc, conf, asked, jobs) {
        Ok(()) => told_of_marker(desk, synced),
        Err(fault) => Err(fault),
    }
}

/// Puts the list with one job more. After a fault the old list or the new is there.
fn add_job<F: Folder>(alloc: Global, conf: &mut F, new: Job, jobs: Items<Job>) -> Result<(), Fault>
    ensures value { (c : Contents) → F.told conf.old ≡ Some c → Changes (with_jobs (jobs_with new jobs)) (F.told conf.old) (F.told conf.new) result }
    ensures free { IfErr result (λ e. IsTrue (is_free e)) }
    ensures faults { FailsBy is_of_folder (F.faults conf.old) (F.faults conf.new) result }
{
    let all = match jobs_with(new, jobs) {
        Ok(all) => all,
        Err(AllocError) => return Err(Fault::NoMemory),
    };
    put_jobs(alloc, conf, all.slice())
}

/// The line of a job that was synced, or not.
pub(crate) fn job_line(lib: LibId, synced: Result<Synced, Fault>) -> Line
    ensures value { result ≡ job_line lib synced }
{
    match synced {
        Ok(done) => Line::Synced {
            lib,
            head: done.head,
            written: done.written,
            removed: done.removed,
            conflict: done.conflict,
        },
        Err(fault) => Line::Fault(fault),
    }
}
