//! Reading of the list of jobs.
ghost use Rattle.std.specs.Prelude.{◌≡◌, ◌≤◌, [], map, if◌then◌else◌, Some, None, option_map, IfOk, IfSome};
ghost use Rattle.std.specs.List.{list_all};
ghost use Rattle.serde_json.specs.View.{view};
ghost use Rattle.json_words.specs.Fields.{has_only};
ghost use Rattle.client_words.specs.JobReading.{host_in, is_behind, is_list, job_keys, job_of, jobs_at, jobs_in, jobs_of, list_keys, number_at, parts_of, server_at, text_at, with_job, with_jobs};
ghost use Rattle.client_words.specs.JobWriting.{AreJobs};

use crate::address::{MAX_PORT, Server, host_of};
use crate::job::Job;
use crate::option_values::job_from;
use ids::{Items, Text};
use json_words::{array_field, has_only, number_between, parse, text_field};
use serde_json::Value;
use std::alloc::{AllocError, Global};

/// The jobs of which a text is the list, `seaf.json`, and none where it is no such list: JSON of exactly the keys that
/// `write_jobs` writes, of version 1, each value in the form of its option (`read_words`), the jobs in the order of their
/// libraries, no two of one library or of one folder. Our own.
///
/// It takes n² steps for n jobs.
#[tactic(auto, unfolding(crate::specs::JobReading::jobs_of))]
pub fn read_jobs(alloc: Global, text: &[u8]) -> Result<Option<Items<Job>>, AllocError>
    ensures value { IfOk result (λ jobs. jobs ≡ jobs_of text.now) }
    ensures proper { IfOk result (λ jobs. IfSome jobs AreJobs) }
{
    match parse(alloc, text)? {
        Some(value) => jobs_in(alloc, &value),
        None => Ok(None),
    }
}

/// The jobs of a value.
fn jobs_in(alloc: Global, value: &Value) -> Result<Option<Items<Job>>, AllocError>
    ensures value { IfOk result (λ jobs. jobs ≡ jobs_in (view value.now)) }
{
    if !is_list(value) {
        return Ok(None);
    }
    match array_field(value, "jobs") {
        Ok(items) => read_items(alloc, items),
        Err(_) => Ok(None),
    }
}

/// Whether a value has the keys of a list, and its version.
#[tactic(auto, unfolding(crate::specs::JobReading::list_keys))]
fn is_list(value: &Value) -> bool
    ensures value { result ≡ is_list (view value.now) }
{
    has_only(value, &["jobs", "version"]) && number_at(value, "version", 1, 1).is_some()
}

/// The jobs that the items of an array are.
fn read_items(alloc: Global, items: &[Value]) -> Result<Option<Items<Job>>, AllocError>
    ensures value { IfOk result (λ jobs. jobs ≡ with_jobs [] (map view items.now)) }
{
    let mut jobs = Items::new(alloc);
    for item in items {
        if !read_item(alloc, &mut jobs, item)? {
            return Ok(None);
        }
    }
    Ok(Some(jobs))
}

/// Appends the job that an item is, and tells whether it is one and stands behind all that are there.
fn read_item(alloc: Global, jobs: &mut Items<Job>, item: &Value) -> Result<bool, AllocError>
    ensures value { IfOk result (λ added. (if added then Some jobs.new else None) ≡ with_job jobs.old (job_of (view item.now))) }
{
    let Some(job) = job_of(alloc, item)? else {
        return Ok(false);
    };
    if !is_behind_all(jobs.slice(), &job) {
        return Ok(false);
    }
    jobs.push(job)?;
    Ok(true)
}

/// Whether a job stands behind all of these.
fn is_behind_all(jobs: &[Job], job: &Job) -> bool
    ensures value { result ≡ list_all (λ other. is_behind other job.now) jobs.now }
{
    jobs.iter().all(|other| is_behind(other, job))
}

/// Whether a job has a library above the other's, and another folder.
fn is_behind(other: &Job, job: &Job) -> bool
    ensures value { result ≡ is_behind other.now job.now }
{
    if !other.lib.as_bytes().cmp(job.lib.as_bytes()).is_lt() {
        return false;
    }
    other.dir.slice() != job.dir.slice()
}

/// The job that an object is.
fn job_of(alloc: Global, value: &Value) -> Result<Option<Job>, AllocError>
    ensures value { IfOk result (λ job. job ≡ job_of (view value.now)) }
{
    if !has_job_keys(value) {
        return Ok(None);
    }
    let server = server_at(alloc, value)?;
    job_from(
        alloc,
        server,
        text_at(value, "lib"),
        text_at(value, "secret"),
        text_at(value, "dir"),
        text_at(value, "user"),
    )
}

#[tactic(auto, unfolding(crate::specs::JobReading::job_keys))]
fn has_job_keys(value: &Value) -> bool
    ensures value { result ≡ has_only job_keys (view value.now) }
{
    has_only(value, &["dir", "host", "lib", "port", "secret", "user"])
}

/// The server of a job.
fn server_at(alloc: Global, value: &Value) -> Result<Option<Server>, AllocError>
    ensures value { IfOk result (λ server. server ≡ server_at (view value.now)) }
{
    let Some(port) = number_at(value, "port", 1, u64::from(MAX_PORT)) else {
        return Ok(None);
    };
    match host_in(alloc, text_at(value, "host"))? {
        Some(host) => Ok(Some(Server {
            host,
            port: port as u16,
        })),
        None => Ok(None),
    }
}

/// The name of a host.
fn host_in(alloc: Global, text: Option<&str>) -> Result<Option<Text>, AllocError>
    ensures value { IfOk result (λ host. host ≡ host_in (option_map (λ text. text.now) text.entry)) }
{
    match text {
        Some(text) => host_of(alloc, text),
        None => Ok(None),
    }
}

/// A field that is a text.
fn text_at<'a>(value: &'a Value, name: &str) -> Option<&'a str>
    ensures value { option_map (λ text. text.now) result ≡ text_at name.now (view value.now) }
{
    match text_field(value, name) {
        Ok(text) => Some(text),
        Err(_) => None,
    }
}

/// A field that is a number from `low` to `high`.
fn number_at(value: &Value, name: &str, low: u64, high: u64) -> Option<u64>
    ensures value { result ≡ number_at low high name.now (view value.now) }
    ensures bound { IfSome result (λ number. (low ≤ number) × (number ≤ high)) }
{
    match number_between(value, name, low, high) {
        Ok(number) => Some(number),
        Err(_) => None,
    }
}
