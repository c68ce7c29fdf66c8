//! A line on standard error that shows what is going on.
use folder_side::Ahead;
use std::alloc::{AllocError, Global};
use std::cell::Cell;
use std::io::{IsTerminal, Stderr, Write};
use std::time::{Clock, Duration, Instant};

/// How many milliseconds a line stands at least before it is drawn anew.
const STANDS_MILLISECONDS: u64 = 100;

/// What was done so far of a job, and what is ahead.
#[derive(Clone, Copy, Debug, PartialEq, Eq)]
pub struct Done {
    /// So many files of so many bytes were read in the last scan.
    pub files: u64,
    pub bytes: u64,
    /// So many bytes went to the server, and so many came.
    pub sent: u64,
    pub fetched: u64,
    /// So many files were written, and so many paths removed.
    pub written: u64,
    pub removed: u64,
    /// What is ahead, without the steps that were done of it.
    pub ahead: Ahead,
}

const NOTHING: Done = Done {
    files: 0,
    bytes: 0,
    sent: 0,
    fetched: 0,
    written: 0,
    removed: 0,
    ahead: Ahead::Files(0),
};

/// A line on standard error, drawn anew now and then, where that is a terminal. Where it can't be drawn nothing is shown.
///
/// The folder of a job and its connection share it.
#[derive(Drop)]
pub struct Progress<R> {
    rt: R,
    alloc: Global,
    err: Stderr,
    is_shown: bool,
    is_drawn: Cell<bool>,
    last: Cell<Option<Instant>>,
    done: Cell<Done>,
}

impl<R: Clock> Progress<R> {
    /// A line that isn't drawn yet.
    pub fn new(rt: R, alloc: Global, err: Stderr) -> Progress<R> {
        Progress {
            rt,
            alloc,
            err,
            is_shown: err.is_terminal(),
            is_drawn: Cell::new(false),
            last: Cell::new(None),
            done: Cell::new(NOTHING),
        }
    }

    /// What was done so far, to which the caller adds.
    pub fn done(&self) -> Done {
        self.done.get()
    }

    /// Notes what was done by now, and shows it, unless the last line was drawn just now.
    pub fn note(&self, done: Done) {
        self.done.set(done);
        if !self.is_shown || !self.is_due() {
            return;
        }
        if let Ok(line) = line_of(self.alloc, done) {
            let mut err = self.err;
            self.is_drawn.set(err.write_all(line.as_bytes()).is_ok());
        }
    }

    /// Takes the line away, and begins anew.
    pub fn end(&self) {
        self.done.set(NOTHING);
        self.clear();
    }

    /// Takes the line away, until what was done is noted again.
    pub fn clear(&self) {
        if self.is_drawn.get() {
            let mut err = self.err;
            self.is_drawn.set(err.write_all(b"\r\x1b[K").is_err());
        }
    }

    /// Whether a line may be drawn now, which counts as the last one then.
    fn is_due(&self) -> bool {
        let now = match Instant::now(&self.rt) {
            Ok(now) => now,
            Err(_) => return false,
        };
        let is_due = match self.last.get() {
            Some(last) => {
                now.saturating_duration_since(last) >= Duration::from_millis(STANDS_MILLISECONDS)
            }
            None => true,
        };
        if is_due {
            self.last.set(Some(now));
        }
        is_due
    }
}

/// The line that tells what is going on and how many are left, over the one that stands there. With numbers of six digits it fits
/// into 80 columns.
fn line_of(alloc: Global, done: Done) -> Result<String, AllocError> {
    match done.ahead {
        Ahead::Files(0) => format!(in alloc;
            "\r\x1b[Kread {} files, {} MB; sent {} MB, fetched {} MB",
            done.files,
            megabytes(done.bytes),
            megabytes(done.sent),
            megabytes(done.fetched)
        ),
        Ahead::Files(known) => format!(in alloc;
            "\r\x1b[Kread {} of about {known} files, {} MB; sent {} MB, fetched {} MB",
            done.files,
            megabytes(done.bytes),
            megabytes(done.sent),
            megabytes(done.fetched)
        ),
        Ahead::Blocks(left) => format!(in alloc;
            "\r\x1b[Kread {} files; sent {} MB, fetched {} MB; {left} blocks left",
            done.files,
            megabytes(done.sent),
            megabytes(done.fetched)
        ),
        Ahead::Steps(left) => format!(in alloc;
            "\r\x1b[Kfetched {} MB; wrote {} files, removed {}; {left} steps left",
            megabytes(done.fetched),
            done.written,
            done.removed
        ),
    }
}

fn megabytes(bytes: u64) -> u64 {
    bytes / 1_000_000
}
