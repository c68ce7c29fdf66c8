//! The server program: it makes libraries, adds tokens to them, and serves one connection over standard input and output, or a port.
//!
//! `main` makes the real objects and calls `library_server::run`, whose clauses say what is done.
#![tactic(auto)]

mod noted_files;
mod usage;

use crate::noted_files::NotedFiles;
use crate::usage::wrong_word;
use folder_storage::{FolderGround, Ground, SystemFiles};
use ids::Text;
use library_server::{run, run_in_memory};
use link_ears::TcpNet;
use server_words::names_memory;
use std::fs::{File, Files};
use std::io::{Stderr, Write};
use std::os::unix::fs::MetadataExt;
use std::process::ExitCode;
use std::sync::Wait;
use std::thread::Threads;
use std::{fs, io};
use system_edges::{StandardLink, StandardSink, SystemClock, words_of};

/// The status of words that are no command.
const USAGE: u8 = 2;

fn main(rt: HostRuntime) -> ExitCode {
    let words = match words_of(&rt, rt.alloc()) {
        Ok(words) => words,
        Err(_) => return ExitCode::from(3u8),
    };
    let files = match rt.clone() {
        Ok(files) => files,
        Err(_) => return ExitCode::from(3u8),
    };
    let times = match rt.clone() {
        Ok(times) => times,
        Err(_) => return ExitCode::from(3u8),
    };
    let err = note_stream(&rt, words.slice(), rt.stderr());
    let noted = NotedFiles::new(SystemFiles::new(files), times, err);
    let mut libraries = FolderGround::over(noted);
    let status = run_words(&rt, &rt, words.slice(), &mut libraries);
    if status == USAGE {
        note_usage(&rt, words.slice());
    }
    ExitCode::from(status)
}

/// Where causes are told: on standard error, where that was open as the program began and, of `inetd`, isn't the very connection that is
/// served.
fn note_stream<R: Files<File = File>>(rt: &R, words: &[Text], err: Stderr) -> Option<Stderr> {
    if fs::metadata(rt, "/proc/self/fd/2").is_err() {
        return None;
    }
    match words.first() {
        Some(word) if word.slice() == "inetd" => match are_one(rt) {
            Ok(false) => Some(err),
            _ => None,
        },
        _ => Some(err),
    }
}

/// Whether standard output and standard error are the same file.
fn are_one<R: Files<File = File>>(rt: &R) -> io::Result<bool> {
    let out = fs::metadata(rt, "/proc/self/fd/1")?;
    let err = fs::metadata(rt, "/proc/self/fd/2")?;
    Ok(out.ino() == err.ino() && out.dev() == err.dev())
}

/// Tells which word was wrong, and where the right ones are told. A line that can't be made or written is left out.
fn note_usage(rt: &HostRuntime, words: &[Text]) {
    let Ok(wrong) = wrong_word(rt.alloc(), words) else {
        return;
    };
    let line = format!(in rt.alloc();
        "seaf-server: {}; 'seaf-server --help' tells the words that there are\n",
        wrong.as_str()
    );
    if let Ok(line) = line {
        let mut err = rt.stderr();
        let _ = err.write_all(line.as_bytes());
    }
}

/// Runs the command over standard input and output, the ports of this machine and the system's clock, in memory where its words name
/// that, and else over these libraries. What waits for a lock, and starts threads, does so by `waiting`.
fn run_words<G: Ground, W: Threads + Wait + Sync>(
    rt: &HostRuntime,
    waiting: &W,
    words: &[Text],
    libraries: &mut G,
) -> u8
where
    G::S: Send,
{
    let clock = match rt.clone() {
        Ok(times) => SystemClock::new(times),
        Err(_) => return 3,
    };
    let mut net = match rt.clone() {
        Ok(sockets) => TcpNet::new(sockets, rt.stderr(), libraries_in(words)),
        Err(_) => return 3,
    };
    let mut link = StandardLink::new(rt.stdin(), rt.stdout());
    let mut out = StandardSink::new(rt.stdout());
    if names_memory(words) {
        return run_in_memory(
            waiting,
            rt.alloc(),
            words,
            &mut link,
            &mut net,
            &clock,
            &mut out,
        );
    }
    run(
        waiting,
        rt.alloc(),
        words,
        libraries,
        &mut link,
        &mut net,
        &clock,
        &mut out,
    )
}

/// How many libraries words that serve a port name: all behind the first five. It is told to who runs the server, and nothing else.
fn libraries_in(words: &[Text]) -> usize {
    words.len().saturating_sub(5)
}
