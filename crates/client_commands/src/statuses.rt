//! What `status` tells of each job.
ghost use Rattle.std.specs.Prelude.{◌≡◌, false, IfErr, Some};
ghost use Rattle.ids.specs.FaultCount.{FailsBy};
ghost use Rattle.folder_side.specs.Folder.{Contents};
ghost use Rattle.client_desk.specs.KeptTexts.{is_of_folder};
ghost use Rattle.client_commands.specs.Keeping.{DeskKeeps, OwnKeeps, is_of_link};
ghost use Rattle.client_commands.specs.Statuses.{FindsIndex, FindsIndexes, IsSameDesk, StatusDoes, TellsClean, TellsLine, TellsLines, clean_line};
ghost use Rattle.client_commands.specs.Views.{desk_view, own_view};

use crate::folders::{claim_of, give_folder, take_folder};
use crate::sync_faults::told_of_scan;
use crate::worktrees::is_clean;
use client_desk::{Asking, Desk, index_in, jobs_in};
use client_words::{Fault, Job, Line};
use folder_side::Folder;
use ids::{Items, LibId};
use local_index::Index;
use std::alloc::{AllocError, Global};

/// A line for each job of the list, in their order: whether its folder is as its index tells, by a scan. All index texts are
/// read before the first scan. Nothing is changed.
pub(crate) fn statuses<D: Desk>(
    alloc: Global,
    desk: &mut D,
    conf: &mut D::F,
) -> Result<Items<Line>, Fault>
    ensures value { StatusDoes (own_view D.F.told D.F.faults conf.old) (own_view D.F.told D.F.faults conf.new)
        (desk_view D.has_place D.holds D.dials D.folder_faults D.dial_faults desk.old)
        (desk_view D.has_place D.holds D.dials D.folder_faults D.dial_faults desk.new) result }
    ensures faults { OwnKeeps (own_view D.F.told D.F.faults conf.old) (own_view D.F.told D.F.faults conf.new)
        (desk_view D.has_place D.holds D.dials D.folder_faults D.dial_faults desk.old)
        (desk_view D.has_place D.holds D.dials D.folder_faults D.dial_faults desk.new) result }
{
    let jobs = match jobs_in(alloc, conf) {
        Ok(jobs) => jobs,
        Err(fault) => return Err(fault),
    };
    match check_indexes(alloc, conf, jobs.slice()) {
        Ok(()) => {}
        Err(fault) => return Err(fault),
    }
    job_lines(alloc, desk, conf, jobs.slice())
}

/// Whether each job has its index in the client's own folder: `BadIndex` where one has none. Nothing is changed.
pub(crate) fn check_indexes<F: Folder>(
    alloc: Global,
    conf: &mut F,
    jobs: &[Job],
) -> Result<(), Fault>
    ensures value { (c : Contents) → F.told conf.old ≡ Some c → FindsIndexes c jobs.now result }
    ensures may { IfErr result (λ e. is_of_link e ≡ false) }
    ensures stays { F.told conf.new ≡ F.told conf.old }
    ensures faults { FailsBy is_of_folder (F.faults conf.old) (F.faults conf.new) result }
{
    for job in jobs {
        match check_index(alloc, conf, job) {
            Ok(()) => {}
            Err(fault) => return Err(fault),
        }
    }
    Ok(())
}

/// Whether a job has its index in the client's own folder.
fn check_index<F: Folder>(alloc: Global, conf: &mut F, job: &Job) -> Result<(), Fault>
    ensures value { (c : Contents) → F.told conf.old ≡ Some c → FindsIndex c job.now result }
    ensures may { IfErr result (λ e. is_of_link e ≡ false) }
    ensures stays { F.told conf.new ≡ F.told conf.old }
    ensures faults { FailsBy is_of_folder (F.faults conf.old) (F.faults conf.new) result }
{
    match index_in(alloc, conf, &job.lib) {
        Ok(index) => {
            drop(index);
            Ok(())
        }
        Err(fault) => Err(fault),
    }
}

/// The lines of these jobs.
fn job_lines<D: Desk>(
    alloc: Global,
    desk: &mut D,
    conf: &mut D::F,
    jobs: &[Job],
) -> Result<Items<Line>, Fault>
    ensures value { (c : Contents) → D.F.told conf.old ≡ Some c → TellsLines (D.holds desk.old) c jobs.now result }
    ensures stays { D.F.told conf.new ≡ D.F.told conf.old }
    ensures same { IsSameDesk (desk_view D.has_place D.holds D.dials D.folder_faults D.dial_faults desk.old)
        (desk_view D.has_place D.holds D.dials D.folder_faults D.dial_faults desk.new) }
    ensures faults { OwnKeeps (own_view D.F.told D.F.faults conf.old) (own_view D.F.told D.F.faults conf.new)
        (desk_view D.has_place D.holds D.dials D.folder_faults D.dial_faults desk.old)
        (desk_view D.has_place D.holds D.dials D.folder_faults D.dial_faults desk.new) result }
{
    let mut lines = Items::new(alloc);
    for job in jobs {
        let line = match job_line(alloc, desk, conf, job) {
            Ok(line) => line,
            Err(fault) => return Err(fault),
        };
        match lines.push(line) {
            Ok(()) => {}
            Err(AllocError) => return Err(Fault::NoMemory),
        }
    }
    Ok(lines)
}

/// The line of a job.
fn job_line<D: Desk>(alloc: Global, desk: &mut D, conf: &mut D::F, job: &Job) -> Result<Line, Fault>
    ensures value { (c : Contents) → D.F.told conf.old ≡ Some c → TellsLine (D.holds desk.old) c job.now result }
    ensures stays { D.F.told conf.new ≡ D.F.told conf.old }
    ensures same { IsSameDesk (desk_view D.has_place D.holds D.dials D.folder_faults D.dial_faults desk.old)
        (desk_view D.has_place D.holds D.dials D.folder_faults D.dial_faults desk.new) }
    ensures faults { OwnKeeps (own_view D.F.told D.F.faults conf.old) (own_view D.F.told D.F.faults conf.new)
        (desk_view D.has_place D.holds D.dials D.folder_faults D.dial_faults desk.old)
        (desk_view D.has_place D.holds D.dials D.folder_faults D.dial_faults desk.new) result }
{
    let index = match index_in(alloc, conf, &job.lib) {
        Ok(index) => index,
        Err(fault) => return Err(fault),
    };
    match compare(alloc, desk, job, &index) {
        Ok(clean) => Ok(clean_line(job.lib, clean)),
        Err(fault) => Err(fault),
    }
}

/// The line that tells whether a job's folder is as it was synced.
fn clean_line(lib: LibId, clean: bool) -> Line
    ensures value { result ≡ clean_line lib clean }
{
    if clean {
        Line::Clean(lib)
    } else {
        Line::Changed(lib)
    }
}

/// Whether the folder of a job, which is asked for at the desk first and given back in the end, is as its index tells.
fn compare<D: Desk>(alloc: Global, desk: &mut D, job: &Job, index: &Index) -> Result<bool, Fault>
    ensures value { TellsClean (D.holds desk.old job.now.dir) index.now result }
    ensures same { IsSameDesk (desk_view D.has_place D.holds D.dials D.folder_faults D.dial_faults desk.old)
        (desk_view D.has_place D.holds D.dials D.folder_faults D.dial_faults desk.new) }
    ensures faults { DeskKeeps (desk_view D.has_place D.holds D.dials D.folder_faults D.dial_faults desk.old)
        (desk_view D.has_place D.holds D.dials D.folder_faults D.dial_faults desk.new) result }
{
    let mut folder = match take_folder(desk, &job.dir, claim_of(job, index, Asking::Status)) {
        Ok(folder) => folder,
        Err(fault) => return Err(fault),
    };
    let clean = is_clean(alloc, &mut folder, index);
    give_folder(desk, &job.dir, folder, false);
    told_of_scan(clean)
}
