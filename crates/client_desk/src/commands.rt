//! The commands that need no worktree: a list of jobs is begun, told, or a job taken from it.
ghost use Rattle.std.specs.Prelude.{◌≡◌, [], IfErr, IfOk, map, option_map, Some};
ghost use Rattle.ids.specs.FaultCount.{FailsBy};
ghost use Rattle.folder_side.specs.Folder.{Contents};
ghost use Rattle.folder_texts.specs.FolderTexts.{text_at};
ghost use Rattle.client_desk.specs.Commands.{DesyncsSo, DoesSo, IsDesyncFault, IsInitFault, init_due, list_due, listed_line, with_jobs};
ghost use Rattle.client_desk.specs.JobList.{job_of};
ghost use Rattle.client_desk.specs.KeptTexts.{Answers, IsListFault, is_of_folder, jobs_found, jobs_name};

use crate::job_list::{job_of, jobs_without};
use crate::kept_texts::{jobs_in, jobs_text, put_jobs, take_index};
use client_words::{Fault, Job, Line};
use folder_side::Folder;
use ids::{Items, LibId, Text};
use std::alloc::{AllocError, Global};

/// Begins a list of jobs in the client's folder: `AlreadyInitialised` where one is there.
pub fn init<F: Folder>(alloc: Global, conf: &mut F) -> Result<(), Fault>
    ensures value { (c : Contents) → F.told conf.old ≡ Some c →
        DoesSo (init_due (text_at c jobs_name)) c (with_jobs [] c) (F.told conf.new) result }
    ensures may { IfErr result IsInitFault }
    ensures faults { FailsBy is_of_folder (F.faults conf.old) (F.faults conf.new) result }
{
    let found = match jobs_text(alloc, conf) {
        Ok(found) => found,
        Err(fault) => return Err(fault),
    };
    match found {
        Some(_there) => Err(Fault::AlreadyInitialised),
        None => put_jobs(alloc, conf, &[]),
    }
}

/// A line for each job, in their order. Nothing is changed.
pub fn list<F: Folder>(alloc: Global, conf: &mut F) -> Result<Items<Line>, Fault>
    ensures value { (c : Contents) → F.told conf.old ≡ Some c → Answers (list_due (jobs_found (text_at c jobs_name))) result }
    ensures may { IfErr result IsListFault }
    ensures stays { F.told conf.new ≡ F.told conf.old }
    ensures faults { FailsBy is_of_folder (F.faults conf.old) (F.faults conf.new) result }
{
    let jobs = match jobs_in(alloc, conf) {
        Ok(jobs) => jobs,
        Err(fault) => return Err(fault),
    };
    match listed_lines(alloc, jobs.slice()) {
        Ok(lines) => Ok(lines),
        Err(AllocError) => Err(Fault::NoMemory),
    }
}

/// The lines that tell jobs.
fn listed_lines(alloc: Global, jobs: &[Job]) -> Result<Items<Line>, AllocError>
    ensures value { IfOk result (λ lines. lines ≡ map listed_line jobs.now) }
{
    let mut lines = Items::new(alloc);
    for job in jobs {
        let line = listed_line(alloc, job)?;
        lines.push(line)?;
    }
    Ok(lines)
}

fn listed_line(alloc: Global, job: &Job) -> Result<Line, AllocError>
    ensures value { IfOk result (λ line. line ≡ listed_line job.now) }
{
    let dir = Text::copy(alloc, job.dir.slice())?;
    Ok(Line::Listed { lib: job.lib, dir })
}

/// Takes the job of a folder, and the index of its library, away, and gives that library: `NoJob` where the list has none of
/// the folder. The list is changed first. The folder itself is left.
pub fn desync<F: Folder>(alloc: Global, conf: &mut F, dir: &Text) -> Result<LibId, Fault>
    ensures value { (c : Contents) → F.told conf.old ≡ Some c →
        DesyncsSo dir.now c (jobs_found (text_at c jobs_name)) (F.told conf.new) result }
    ensures may { IfErr result IsDesyncFault }
    ensures faults { FailsBy is_of_folder (F.faults conf.old) (F.faults conf.new) result }
{
    let jobs = match jobs_in(alloc, conf) {
        Ok(jobs) => jobs,
        Err(fault) => return Err(fault),
    };
    let lib = match library_of(dir, &jobs) {
        Some(lib) => lib,
        None => return Err(Fault::NoJob),
    };
    let left = jobs_without(dir, jobs);
    if let Err(fault) = put_jobs(alloc, conf, left.slice()) {
        return Err(fault);
    }
    match take_index(alloc, conf, &lib) {
        Ok(()) => Ok(lib),
        Err(fault) => Err(fault),
    }
}

/// The library of the job of a folder, if there is one.
fn library_of(dir: &Text, jobs: &Items<Job>) -> Option<LibId>
    ensures value { result ≡ option_map (λ job. job.lib) (job_of dir.now jobs.now) }
{
    match job_of(dir, jobs.slice()) {
        Some(job) => Some(job.lib),
        None => None,
    }
}
