//! Files whose failures have lines on standard error.
ghost use Rattle.std.specs.Prelude.{◌<◌};

use folder_storage::{FileFacts, FileSystem, SyncEnding, SyncPlace};
use std::alloc::Global;
use std::io;
use std::io::{ErrorKind, Stderr, Write};
use std::time::{Clock, Duration, Instant};
use system_edges::cause_line;

/// For so many milliseconds at least after a line there is no other of its kind.
const RESTS_MILLISECONDS: u64 = 1_000;

/// What is done with files, by which lines are of a kind.
#[derive(Clone, Copy)]
enum Deed {
    Read,
    Write,
    Sync,
    Move,
    Remove,
    Lock,
    /// What no call of the system refused.
    Hear,
}

/// How many kinds there are.
const DEEDS: usize = 7;

impl Deed {
    /// The place of its kind among all.
    fn place(self) -> usize
        ensures bound { result < 7 }
    {
        match self {
            Deed::Read => 0,
            Deed::Write => 1,
            Deed::Sync => 2,
            Deed::Move => 3,
            Deed::Remove => 4,
            Deed::Lock => 5,
            Deed::Hear => 6,
        }
    }

    /// What a line calls it.
    fn text(self) -> &'static str {
        match self {
            Deed::Read => "reading",
            Deed::Write => "writing",
            Deed::Sync => "making durable",
            Deed::Move => "moving",
            Deed::Remove => "removing",
            Deed::Lock => "locking",
            Deed::Hear => "using",
        }
    }
}

/// Files of which each call that failed, but for want of memory, has a line on standard error: the path, what was done, and the words of
/// the failure; one line a second at most of each kind. All else is the files' own.
#[derive(Drop)]
pub struct NotedFiles<F, R> {
    files: F,
    rt: R,
    // Where the lines go, if they do.
    err: Option<Stderr>,
    // When there was a line of each kind last.
    last: [Option<Instant>; DEEDS],
}

impl<F, R> NotedFiles<F, R> {
    /// These files, with lines where there is a standard error.
    pub fn new(files: F, rt: R, err: Option<Stderr>) -> NotedFiles<F, R> {
        NotedFiles {
            files,
            rt,
            err,
            last: [None; DEEDS],
        }
    }
}

impl<F: FileSystem, R: Clock> NotedFiles<F, R> {
    /// What a call answered, and its line where it failed.
    fn noted<T>(&mut self, deed: Deed, path: &str, done: io::Result<T>) -> io::Result<T> {
        if let Err(failure) = &done {
            if failure.kind() != ErrorKind::OutOfMemory {
                self.note(deed, path, failure);
            }
        }
        done
    }

    /// Tells of a failure, unless another of its kind was told just now.
    fn note(&mut self, deed: Deed, path: &str, failure: &io::Error) {
        self.say(deed, deed.text(), path, failure);
    }

    /// As `note`, by this word for what was done. A line that can't be made or written is left out.
    fn say(&mut self, deed: Deed, text: &str, path: &str, failure: &io::Error) {
        let Some(err) = &mut self.err else {
            return;
        };
        if !is_due(&self.rt, &mut self.last[deed.place()]) {
            return;
        }
        let line = cause_line(
            self.files.alloc(),
            "seaf-server",
            "store",
            text,
            path,
            failure,
        );
        if let Ok(line) = line {
            let _ = err.write_all(line.as_bytes());
        }
    }
}

/// Whether there may be a line now, which counts as the last one then.
fn is_due<R: Clock>(rt: &R, last: &mut Option<Instant>) -> bool {
    let Ok(now) = Instant::now(rt) else {
        return false;
    };
    let is_due = match *last {
        Some(last) => {
            now.saturating_duration_since(last) >= Duration::from_millis(RESTS_MILLISECONDS)
        }
        None => true,
    };
    if is_due {
        *last = Some(now);
    }
    is_due
}

impl<F: FileSystem + Drop, R: Clock + Clone + Drop> FileSystem for NotedFiles<F, R> {
    fn alloc(&self) -> Global {
        self.files.alloc()
    }

    fn another(&self) -> io::Result<NotedFiles<F, R>> {
        Ok(NotedFiles {
            files: self.files.another()?,
            rt: self.rt.clone()?,
            err: self.err,
            last: [None; DEEDS],
        })
    }

    fn look(&mut self, path: &str) -> io::Result<Option<FileFacts>> {
        let found = self.files.look(path);
        self.noted(Deed::Read, path, found)
    }

    fn look_through(&mut self, path: &str) -> io::Result<Option<FileFacts>> {
        let found = self.files.look_through(path);
        self.noted(Deed::Read, path, found)
    }

    fn list(&mut self, folder: &str) -> io::Result<Option<Vec<String>>> {
        let names = self.files.list(folder);
        self.noted(Deed::Read, folder, names)
    }

    fn read(&mut self, path: &str) -> io::Result<Option<Vec<u8>>> {
        let bytes = self.files.read(path);
        self.noted(Deed::Read, path, bytes)
    }

    fn write(&mut self, path: &str, bytes: &[u8], is_durable: bool) -> io::Result<i64> {
        let written = self.files.write(path, bytes, is_durable);
        self.noted(Deed::Write, path, written)
    }

    fn sync_folder(&mut self, path: &str) -> io::Result<bool> {
        let synced = self.files.sync_folder(path);
        self.noted(Deed::Sync, path, synced)
    }

    fn sync_at_once(&mut self, places: &mut [SyncPlace]) {
        self.files.sync_at_once(places);
        for place in places.iter() {
            if let SyncEnding::Failed = place.ending {
                let failure = io::Error::new(ErrorKind::Other, "the system refused it");
                self.note(Deed::Sync, place.path.as_str(), &failure);
            }
        }
    }

    fn rename(&mut self, from: &str, to: &str) -> io::Result<()> {
        let moved = self.files.rename(from, to);
        self.noted(Deed::Move, from, moved)
    }

    fn remove_file(&mut self, path: &str) -> io::Result<bool> {
        let removed = self.files.remove_file(path);
        self.noted(Deed::Remove, path, removed)
    }

    fn remove_folder(&mut self, path: &str) -> io::Result<()> {
        let removed = self.files.remove_folder(path);
        self.noted(Deed::Remove, path, removed)
    }

    fn remove_all(&mut self, path: &str) -> io::Result<()> {
        let removed = self.files.remove_all(path);
        self.noted(Deed::Remove, path, removed)
    }

    fn make_folder(&mut self, path: &str) -> io::Result<()> {
        let made = self.files.make_folder(path);
        self.noted(Deed::Write, path, made)
    }

    fn lock(&mut self, path: &str) -> io::Result<()> {
        match self.files.lock(path) {
            // (it is heard of where the library is opened)
            Err(failure) if failure.kind() == ErrorKind::WouldBlock => Err(is_taken()),
            locked => self.noted(Deed::Lock, path, locked),
        }
    }

    fn hear(&mut self, deed: &str, path: &str, failure: &io::Error) {
        if failure.kind() == ErrorKind::NotFound {
            let gone = io::Error::new(ErrorKind::NotFound, "no folder is there");
            self.say(Deed::Hear, deed, path, &gone);
        } else {
            self.say(Deed::Hear, deed, path, failure);
        }
    }
}

/// The failure of a lock that another process has.
fn is_taken() -> io::Error {
    io::Error::new(
        ErrorKind::WouldBlock,
        "another process has this library open",
    )
}
