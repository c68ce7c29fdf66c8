//! Lines on standard error that tell the causes of faults.
use crate::progress::Progress;
use std::alloc::Global;
use std::cell::Cell;
use std::io;
use std::io::{Stderr, Write};
use std::time::Clock;
use system_edges::{cause_line, escaped};

/// So many faults have a line of their own; of the others it is told how many they are.
const TOLD: u64 = 10;

/// Lines on standard error that tell the causes of faults, and the line of progress, which is taken away before each of them.
///
/// All folders, dials and links of a command share it. A line that can't be made or written is left out; nothing fails by that, and what a
/// command prints on standard output is the same.
#[derive(Drop)]
pub struct Notes<R> {
    progress: Progress<R>,
    alloc: Global,
    // Where the lines go, if they do.
    err: Option<Stderr>,
    // How many faults there were so far, told or not.
    faults: Cell<u64>,
}

impl<R: Clock> Notes<R> {
    /// No line yet. Where standard error was not open as the program began there is none to come: what is opened since may have its number.
    pub fn new(rt: R, alloc: Global, err: Stderr, is_open: bool) -> Notes<R> {
        Notes {
            progress: Progress::new(rt, alloc, err),
            alloc,
            err: if is_open { Some(err) } else { None },
            faults: Cell::new(0),
        }
    }

    /// The line of progress.
    pub fn progress(&self) -> &Progress<R> {
        &self.progress
    }

    /// What texts are made with.
    pub fn alloc(&self) -> Global {
        self.alloc
    }

    /// Tells of a fault that was counted: whose it is, a library, a folder or a server; what was done, at which place, if any; and the
    /// failure, whose words are the system's. Control characters are escaped.
    pub fn fault(&self, whose: &str, deed: &str, place: &str, failure: &io::Error) {
        if !self.is_due() {
            return;
        }
        if let Ok(line) = cause_line(self.alloc, "seaf-cli", whose, deed, place, failure) {
            self.write(line.as_str());
        }
    }

    /// Tells of a fault that was counted in words of our own, which may have no control character: use `escaped` for a path in them.
    pub fn refusal(&self, whose: &str, words: &str) {
        if self.is_due() {
            self.say_of(whose, words);
        }
    }

    /// Tells something that is no fault, in words that may have no control character.
    pub fn advice(&self, words: &str) {
        if let Ok(line) = format!(in self.alloc; "seaf-cli: {words}\n") {
            self.write(line.as_str());
        }
    }

    /// Tells which word of a command line was wrong, and where the right ones are told.
    pub fn wrong_words(&self, wrong: &str) {
        let line = format!(in self.alloc;
            "seaf-cli: {wrong}; 'seaf-cli --help' tells the words that there are\n"
        );
        if let Ok(line) = line {
            self.write(line.as_str());
        }
    }

    /// Tells how many more faults there were than have a line.
    pub fn end(&self) {
        let more = self.faults.get().saturating_sub(TOLD);
        if more == 0 {
            return;
        }
        let faults = if more == 1 { "fault" } else { "faults" };
        if let Ok(line) = format!(in self.alloc; "seaf-cli: and {more} more {faults}\n") {
            self.write(line.as_str());
        }
    }

    /// Counts a fault. The answer is whether it has a line.
    fn is_due(&self) -> bool {
        let before = self.faults.get();
        self.faults.set(before.saturating_add(1));
        before < TOLD
    }

    /// Writes a line of someone's.
    fn say_of(&self, whose: &str, words: &str) {
        let Ok(whose) = escaped(self.alloc, whose) else {
            return;
        };
        if let Ok(line) = format!(in self.alloc; "seaf-cli: {}: {words}\n", whose.as_str()) {
            self.write(line.as_str());
        }
    }

    /// Writes a line, if it can be written, in place of the line of progress.
    fn write(&self, line: &str) {
        let Some(mut err) = self.err else {
            return;
        };
        self.progress.clear();
        let _ = err.write_all(line.as_bytes());
    }
}
