//! What commands print, with which status.
use crate::closed_dial::{HOST, PORT};
use crate::memory_desk::MemoryDesk;
use client_commands::cli;
use client_desk::{Claim, Desk, put_index, put_jobs};
use client_words::Job;
use http_front::MemorySink;
use ids::{Items, LibId, Text};
use library_state::{ListClock, Secret};
use local_index::Index;
use std::alloc::{AllocError, Global};

const LIB: &str = "11111111-2222-4333-8444-555555555555";

const TOKEN: &str = "aaaaaaaaaaaaaaaaaaaaaaaaaaaaaaaaaaaaaaaa";

fn words_of(alloc: Global, line: &[&str]) -> Result<Items<Text>, AllocError> {
    let mut words = Items::new(alloc);
    for word in line {
        words.push(Text::copy(alloc, word)?)?;
    }
    Ok(words)
}

/// Whether a command prints this, with this status.
fn prints(
    rt: &HostRuntime,
    alloc: Global,
    desk: &mut MemoryDesk,
    line: &[&str],
    text: &[u8],
    status: u8,
) -> Result<bool, AllocError> {
    let words = words_of(alloc, line)?;
    let clock = ListClock::new(Items::copy(alloc, &[5])?);
    let mut out = MemorySink::new(alloc, 10_000, Items::new(alloc))?;
    let ended = cli(rt, alloc, words.slice(), desk, &clock, &mut out);
    Ok(ended == status && out.given() == text)
}

/// Lines of words, one after another over one desk, with what each prints and its status.
const BEGINS: [(&[&str], &[u8], u8); 6] = [
    (&["list", "-c", "conf"], b"seaf-cli: not initialised\n", 1),
    (&["init", "-c", "conf"], b"ready\n", 0),
    (
        &["init", "-c", "conf"],
        b"seaf-cli: already initialised\n",
        1,
    ),
    (&["list", "-c", "conf"], b"", 0),
    (&["list", "-c", "elsewhere"], b"seaf-cli: folder fault\n", 1),
    (&["list", "-p", "x"], b"seaf-cli: -p is not supported\n", 2),
];

/// The same where jobs are asked for: the dial makes no link.
const ASKS: [(&[&str], &[u8], u8); 6] = [
    (&["init", "-c", "conf"], b"ready\n", 0),
    (
        &[
            "download",
            "-c",
            "conf",
            "-l",
            LIB,
            "-s",
            "http://localhost:8082",
            "-w",
            "work",
            "-u",
            "me",
            "-k",
            TOKEN,
        ],
        b"seaf-cli: link fault\n",
        1,
    ),
    (&["list", "-c", "conf"], b"", 0),
    (
        &["desync", "-c", "conf", "-d", "work"],
        b"seaf-cli: no job\n",
        1,
    ),
    (&["status", "-c", "conf"], b"", 0),
    (&["start", "-c", "conf", "-n", "2"], b"", 0),
];

/// Lines over one job, whose folder has nothing and was never synced.
const LISTED: [(&[&str], &[u8], u8); 8] = [
    (
        &["list", "-c", "conf"],
        b"11111111-2222-4333-8444-555555555555 work\n",
        0,
    ),
    (
        &["status", "-c", "conf"],
        b"11111111-2222-4333-8444-555555555555 clean\n",
        0,
    ),
    (
        &["start", "-c", "conf", "-n", "2"],
        b"seaf-cli: link fault\nseaf-cli: link fault\n",
        1,
    ),
    (
        &[
            "sync",
            "-c",
            "conf",
            "-l",
            LIB,
            "-s",
            "http://localhost:8083",
            "-d",
            "work",
            "-u",
            "me",
            "-k",
            TOKEN,
        ],
        b"seaf-cli: link fault\n",
        1,
    ),
    (
        &[
            "sync",
            "-c",
            "conf",
            "-l",
            LIB,
            "-s",
            "http://localhost:8082",
            "-d",
            "other",
            "-u",
            "me",
            "-k",
            TOKEN,
        ],
        b"seaf-cli: job exists\n",
        1,
    ),
    (
        &["desync", "-c", "conf", "-d", "other"],
        b"seaf-cli: no job\n",
        1,
    ),
    (
        &["desync", "-c", "conf", "-d", "work"],
        b"desynced 11111111-2222-4333-8444-555555555555\n",
        0,
    ),
    (&["list", "-c", "conf"], b"", 0),
];

/// The first line that prints otherwise, by its place; the number of lines where none does.
fn first_otherwise(
    rt: &HostRuntime,
    alloc: Global,
    desk: &mut MemoryDesk,
    lines: &[(&[&str], &[u8], u8)],
) -> Result<usize, AllocError> {
    for place in 0..lines.len() {
        let (line, text, status) = lines[place];
        if !prints(rt, alloc, desk, line, text, status)? {
            return Ok(place);
        }
    }
    Ok(lines.len())
}

/// The job of the folder `work`.
fn job_of_work(alloc: Global) -> Result<Job, AllocError> {
    let Ok(lib) = LibId::read(LIB) else {
        return Err(AllocError);
    };
    let Ok(secret) = Secret::read(TOKEN) else {
        return Err(AllocError);
    };
    Ok(Job {
        lib,
        dir: Text::copy(alloc, "work")?,
        host: Text::copy(alloc, HOST)?,
        port: PORT,
        user: Text::copy(alloc, "me")?,
        secret,
    })
}

/// Gives the client's own folder that job, with an index of which nothing was synced. Whether it could be done is told.
fn put_job(alloc: Global, desk: &mut MemoryDesk, job: Job) -> Result<bool, AllocError> {
    let lib = job.lib;
    let mut jobs = Items::new(alloc);
    jobs.push(job)?;
    let Ok(mut conf) = desk.folder("conf", Claim::Own) else {
        return Ok(false);
    };
    let done = put_jobs(alloc, &mut conf, jobs.slice()).is_ok()
        && put_index(alloc, &mut conf, &Index::empty(alloc, lib)).is_ok();
    desk.give_back("conf", conf, false);
    Ok(done)
}

#[test]
fn list_of_jobs_is_begun_once_and_told(rt: HostRuntime) -> Result<(), AllocError> {
    let mut desk = MemoryDesk::new(rt.alloc());
    let place = first_otherwise(&rt, rt.alloc(), &mut desk, &BEGINS)?;
    assert!(rt; place == 6, "{place}");
    Ok(())
}

#[test]
fn job_whose_link_fails_is_not_added(rt: HostRuntime) -> Result<(), AllocError> {
    let mut desk = MemoryDesk::new(rt.alloc());
    let place = first_otherwise(&rt, rt.alloc(), &mut desk, &ASKS)?;
    let asked = desk.asked();
    assert!(rt; place == 6 && asked == 1, "{place}, {asked}");
    Ok(())
}

#[test]
fn job_of_the_list_is_told_and_synced_as_the_list_says(rt: HostRuntime) -> Result<(), AllocError> {
    let mut desk = MemoryDesk::new(rt.alloc());
    let job = job_of_work(rt.alloc())?;
    let is_put = put_job(rt.alloc(), &mut desk, job)?;
    let place = first_otherwise(&rt, rt.alloc(), &mut desk, &LISTED)?;
    let asked = desk.asked();
    assert!(rt; is_put && place == 8 && asked == 3, "{place}, {asked}");
    Ok(())
}
