//! Writing of the list of jobs.
ghost use Rattle.std.specs.Prelude.{◌≡◌, All, IfOk, IsUtf8, OnOk, Some, map};
ghost use Rattle.serde_json.specs.View.{view};
ghost use Rattle.client_words.specs.JobReading.{jobs_of};
ghost use Rattle.client_words.specs.JobWriting.{AreJobs, job_data, job_with, list_with, text_of};
ghost use Rattle.client_words.specs.TypedJob.{IsTyped};

use crate::job::Job;
use ids::Bytes;
use serde_json::{Value, json};
use std::alloc::{AllocError, Global};
use std::str::from_utf8;

/// Writes the one text of a list of jobs: compact, with sorted keys, in the order in which the jobs stand.
///
/// Jobs that `read_jobs` gave, and all that can stand together, are read back.
pub fn write_jobs(alloc: Global, jobs: &[Job]) -> Result<Bytes, AllocError>
    ensures value { IfOk result (λ text. text ≡ text_of jobs.now) }
    ensures reads_back { IfOk result (λ text. AreJobs jobs.now → jobs_of text ≡ Some jobs.now) }
{
    let values = job_values(alloc, jobs)?;
    let value = list_with(alloc, values)?;
    json_words::write(alloc, &value)
}

/// The values of the jobs.
fn job_values(alloc: Global, jobs: &[Job]) -> Result<Vec<Value>, AllocError>
    ensures value { IfOk result (λ values. map view values.items ≡ map job_data jobs.now) }
    ensures typed { OnOk result (All IsTyped jobs.now) }
{
    let mut values = Vec::new(alloc);
    for job in jobs {
        let value = job_value(alloc, job)?;
        values.push(value)?;
    }
    Ok(values)
}

/// The value of a job.
fn job_value(alloc: Global, job: &Job) -> Result<Value, AllocError>
    ensures value { IfOk result (λ value. view value ≡ job_data job.now) }
    ensures typed { OnOk result (IsTyped job.now) }
{
    let lib = job.lib.digits();
    let secret = job.secret.digits();
    job_with(
        alloc,
        job.dir.slice(),
        job.host.slice(),
        text_of_digits(&lib),
        job.port,
        text_of_digits(&secret),
        job.user.slice(),
    )
}

/// Digits as a text.
fn text_of_digits(digits: &[u8]) -> &str
    requires utf8 { IsUtf8 digits.now }
    ensures value { result.now ≡ digits.now }
{
    match from_utf8(digits) {
        Ok(text) => text,
        Err(_) => unreachable!(),
    }
}

#[tactic(auto, unfolding(crate::specs::JobWriting::job_with))]
fn job_with(
    alloc: Global,
    dir: &str,
    host: &str,
    lib: &str,
    port: u16,
    secret: &str,
    user: &str,
) -> Result<Value, AllocError>
    ensures value { IfOk result (λ value. view value ≡ job_with dir.now host.now lib.now port secret.now user.now) }
{
    json!(in alloc; {
        "dir": dir,
        "host": host,
        "lib": lib,
        "port": port,
        "secret": secret,
        "user": user
    })
}

#[tactic(auto, unfolding(crate::specs::JobWriting::list_with))]
fn list_with(alloc: Global, jobs: Vec<Value>) -> Result<Value, AllocError>
    ensures value { IfOk result (λ value. view value ≡ list_with (map view jobs.items)) }
{
    json!(in alloc; {"jobs": jobs, "version": 1u64})
}
