//! The list of jobs: which job a folder is, and one that is taken away or added.
ghost use Rattle.std.specs.Prelude.{◌≡◌, ◌<◌, ◌≤◌, IfOk, IfSome, length, option_map, position};
ghost use Rattle.std.specs.List.{find, list_any};
ghost use Rattle.json_words.specs.Check.{result_map};
ghost use Rattle.client_desk.specs.JobList.{is_above, is_of_folder, is_of_library, is_same_job, job_due, job_of, jobs_with, jobs_without, meets_job, place_of};

use client_words::{Fault, Job};
use ids::{Items, LibId, Text};
use std::alloc::AllocError;

/// The job of a folder, if there is one.
pub fn job_of<'a>(dir: &Text, jobs: &'a [Job]) -> Option<&'a Job>
    ensures value { option_map (λ job. job.now) result ≡ job_of dir.now jobs.now }
{
    jobs.iter().find(|job| is_of_folder(dir, job))
}

/// The jobs of all other folders. It takes no memory.
pub fn jobs_without(dir: &Text, jobs: Items<Job>) -> Items<Job>
    ensures value { result ≡ jobs_without dir.now jobs }
{
    let mut left = jobs.into_vec();
    left.retain(|job| !is_of_folder(dir, job));
    Items::from_vec(left)
}

/// The job that is asked for, where the list has it: its library and its folder are one job's. `JobExists` where one of them is
/// a job's and not both, and none where neither is.
pub fn job_due<'a>(jobs: &'a [Job], new: &Job) -> Result<Option<&'a Job>, Fault>
    ensures value { result_map (λ found. option_map (λ job. job.now) found) result ≡ job_due jobs.now new.now }
{
    match same_job(jobs, new) {
        Some(job) => Ok(Some(job)),
        None => if meets_any(jobs, new) {
            Err(Fault::JobExists)
        } else {
            Ok(None)
        },
    }
}

/// The job that has the library and the folder of another, if there is one.
fn same_job<'a>(jobs: &'a [Job], new: &Job) -> Option<&'a Job>
    ensures value { option_map (λ job. job.now) result ≡ find (is_same_job new.now) jobs.now }
{
    jobs.iter().find(|job| is_same_job(new, job))
}

/// Whether a job has the library or the folder of another.
fn meets_any(jobs: &[Job], new: &Job) -> bool
    ensures value { result ≡ list_any (meets_job new.now) jobs.now }
{
    jobs.iter().any(|job| meets_job(new, job))
}

/// The jobs with a new one, in the order of their libraries.
pub fn jobs_with(new: Job, jobs: Items<Job>) -> Result<Items<Job>, AllocError>
    ensures value { IfOk result (λ all. all ≡ jobs_with new jobs) }
{
    let mut all = jobs.into_vec();
    let place = place_of(&new, all.as_slice());
    match all.insert(place, new) {
        Ok(()) => Ok(Items::from_vec(all)),
        Err(failed) => Err(failed.into()),
    }
}

/// Behind how many jobs a new one stands: before the first whose library is above its own.
fn place_of(new: &Job, jobs: &[Job]) -> usize
    ensures value { result ≡ place_of new.now jobs.now }
    ensures bound { result ≤ length jobs.now }
{
    match first_above(new, jobs) {
        Some(place) => place,
        None => jobs.len(),
    }
}

/// The place of the first job whose library is above that of another.
fn first_above(new: &Job, jobs: &[Job]) -> Option<usize>
    ensures value { result ≡ position (is_above new.now) jobs.now }
    ensures bound { IfSome result (λ place. place < length jobs.now) }
{
    jobs.iter().position(|job| is_above(new, job))
}

/// Whether a job has this folder.
fn is_of_folder(dir: &Text, job: &Job) -> bool
    ensures value { result ≡ is_of_folder dir.now job.now }
{
    job.dir.as_bytes() == dir.as_bytes()
}

/// Whether a job has this library.
fn is_of_library(lib: &LibId, job: &Job) -> bool
    ensures value { result ≡ is_of_library lib.now job.now }
{
    job.lib.as_bytes() == lib.as_bytes()
}

/// Whether a job has the library and the folder of another.
fn is_same_job(new: &Job, job: &Job) -> bool
    ensures value { result ≡ is_same_job new.now job.now }
{
    is_of_library(&new.lib, job) && is_of_folder(&new.dir, job)
}

/// Whether a job has the library or the folder of another.
fn meets_job(new: &Job, job: &Job) -> bool
    ensures value { result ≡ meets_job new.now job.now }
{
    is_of_library(&new.lib, job) || is_of_folder(&new.dir, job)
}

/// Whether a job has a library above that of another.
fn is_above(new: &Job, job: &Job) -> bool
    ensures value { result ≡ is_above new.now job.now }
{
    new.lib.as_bytes().cmp(job.lib.as_bytes()).is_lt()
}
