//! The client program: it syncs folders with the libraries of servers.
//!
//! `main` makes the real objects and calls `client_commands::cli`, whose clauses say what is done.
#![tactic(auto)]

mod cause;
mod claims;
mod markers;
mod notes;
mod own_folder;
mod progress;
mod shown_dial;
mod shown_folder;
mod system_desk;
mod usage;

use crate::notes::Notes;
use crate::own_folder::own_folder;
use crate::system_desk::SystemDesk;
use crate::usage::wrong_word;
use client_commands::cli;
use http_front::Sink;
use ids::Text;
use std::fs;
use std::fs::{File, Files};
use std::io::Stderr;
use std::net::{Net, TcpStream};
use std::process::ExitCode;
use std::rt::Env;
use std::time::Clock;
use system_edges::{StandardSink, SystemClock, words_of};

/// The status of words that are no command.
const USAGE: u8 = 2;

fn main(rt: HostRuntime) -> ExitCode {
    let words = match words_of(&rt, rt.alloc()) {
        Ok(words) => words,
        Err(_) => return ExitCode::from(3u8),
    };
    let clock = match rt.clone() {
        Ok(times) => SystemClock::new(times),
        Err(_) => return ExitCode::from(3u8),
    };
    let mut out = StandardSink::new(rt.stdout());
    ExitCode::from(run_over(&rt, words.slice(), rt.stderr(), &clock, &mut out))
}

/// Runs the command over the folders and the network of this runtime.
fn run_over<
    R: Files<File = File> + Net<Stream = TcpStream> + Env + Clock + AllocGlobal + Clone + Drop,
    C: library_state::Clock,
    O: Sink,
>(rt: &R, words: &[Text], err: Stderr, clock: &C, out: &mut O) -> u8 {
    let own = match own_folder(rt.alloc(), words) {
        Ok(own) => own,
        Err(_) => return 3,
    };
    let is_open = fs::metadata(rt, "/proc/self/fd/2").is_ok();
    let notes = Notes::new(rt, rt.alloc(), err, is_open);
    let mut desk = SystemDesk::new(rt, own, &notes);
    let status = cli(rt, rt.alloc(), words, &mut desk, clock, out);
    notes.end();
    if status == USAGE {
        note_usage(&notes, words);
    }
    status
}

/// Tells which word was wrong, and where the right ones are told.
fn note_usage<R: Clock>(notes: &Notes<R>, words: &[Text]) {
    if let Ok(wrong) = wrong_word(notes.alloc(), words) {
        notes.wrong_words(wrong.as_str());
    }
}
