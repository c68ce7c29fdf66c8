//! A disk without files, which tells what it is asked for. Definitions: specs/ToldDisk.antt.
ghost use Rattle.std.specs.Prelude.{◌≡◌, ◌+◌, ◌∷◌, [], OnErr, OnOk, Some};
ghost use Rattle.folder_storage.specs.Durability.{fault_kind, with_steps};
ghost use Rattle.folder_storage.specs.ToldDisk.{EndsAt, calls_of, step_of, steps_of, total_of};

use crate::durability::{Directory, Disk};
use http_server::Log;
use ids::Key;
use std::alloc::Global;
use std::io;
use std::io::ErrorKind;

/// What a disk did.
#[derive(Drop)]
pub(crate) enum Done {
    Put(Key),
    Gather(Vec<Key>),
    Begin(Vec<Key>),
    SyncFile(Key),
    SyncNames(Directory),
    End(bool),
    Text(Vec<u8>),
}

/// A disk that keeps nothing. Of its calls that may fail so many are done, and then each fails; what it did it tells, in its
/// order, to proofs alone.
#[derive(Drop)]
pub struct ToldDisk {
    alloc: Global,
    /// How many calls are done before each fails.
    left: u64,
    // What was done, each with the calls that were left then.
    done: Log<Done, u64>,
}

impl ToldDisk {
    /// A disk that did nothing, of which so many calls will be done.
    pub(crate) fn new(alloc: Global, left: u64) -> ToldDisk
        ensures value { steps_of result.done.items ≡ [] }
        ensures count { result.left ≡ left }
    {
        ToldDisk {
            alloc,
            left,
            done: Log::new(),
        }
    }

    /// One call less is left. Where none is, the call fails.
    fn pass(&mut self) -> io::Result<()>
        ensures ok { OnOk result (self.old.left ≡ self.new.left + 1) }
        ensures err { OnErr result ((self.new.left ≡ self.old.left) × (self.new.left ≡ 0)) }
        ensures stays { self.new.done.items ≡ self.old.done.items }
    {
        if self.left == 0 {
            return Err(io::Error::from(ErrorKind::Other));
        }
        self.left -= 1;
        Ok(())
    }

    /// Notes what was done.
    fn note(&mut self, done: &Done)
        ensures told { Some (steps_of self.new.done.items) ≡ with_steps (Some (steps_of self.old.done.items)) (step_of done.now ∷ []) }
        ensures stays { self.new.left ≡ self.old.left }
    {
        self.done = self.done.and(done, &self.left);
    }

    /// Notes what was done, unless no call is left.
    fn pass_noted(&mut self, done: &Done) -> io::Result<()>
        ensures ok { OnOk result (Some (steps_of self.new.done.items) ≡ with_steps (Some (steps_of self.old.done.items)) (step_of done.now ∷ [])) }
        ensures err { OnErr result (Some (steps_of self.new.done.items) ≡ Some (steps_of self.old.done.items)) }
        ensures cause { EndsAt (fault_kind result) self.new.left }
        ensures count { calls_of (step_of done.now) ≡ 1 → total_of self.new.done.items self.new.left ≡ total_of self.old.done.items self.old.left }
    {
        if let Err(failure) = self.pass() {
            return Err(failure);
        }
        self.note(done);
        Ok(())
    }
}

impl Disk for ToldDisk {
    ghost use Rattle.std.specs.Prelude.{Some, ⊤};
    ghost use Rattle.folder_storage.specs.ToldDisk.{EndsAt, steps_of, total_of};

    type Way = ();

    type Files = ();

    type Names = ();

    ghost steps = { λ disk. Some (steps_of disk.done.items) };

    ghost puts = { λ _ _ _ _ _. ⊤ };

    ghost calls = { λ disk. total_of disk.done.items disk.left };

    ghost ends = { λ kind disk. EndsAt kind disk.left };

    fn put_object(&mut self, key: &Key, bytes: &[u8], way: &()) -> io::Result<()> {
        let _ = bytes;
        let _ = way;
        self.pass_noted(&Done::Put(*key))
    }

    fn gather(&mut self, keys: &mut Vec<Key>) -> io::Result<()> {
        let noted = match keys.clone() {
            Ok(noted) => noted,
            Err(failure) => return Err(io::Error::from(failure)),
        };
        let done = Done::Gather(noted);
        self.pass_noted(&done)
    }

    fn begin_syncs(&mut self, keys: &[Key]) -> io::Result<()> {
        let noted = match Vec::from_slice(self.alloc, keys) {
            Ok(noted) => noted,
            Err(failure) => return Err(io::Error::from(failure)),
        };
        let done = Done::Begin(noted);
        self.pass_noted(&done)
    }

    fn begin_files(&mut self, keys: &[Key]) -> io::Result<()> {
        let _ = keys;
        Ok(())
    }

    fn sync_object(&mut self, files: &(), key: &Key) -> io::Result<()> {
        let _ = files;
        self.pass_noted(&Done::SyncFile(*key))
    }

    fn begin_names(&mut self, directories: &[Directory]) -> io::Result<()> {
        let _ = directories;
        Ok(())
    }

    fn sync_directory(&mut self, names: &(), directory: Directory) -> io::Result<()> {
        let _ = names;
        self.pass_noted(&Done::SyncNames(directory))
    }

    fn end_syncs(&mut self, is_synced: bool) {
        self.note(&Done::End(is_synced));
    }

    fn put_text(&mut self, text: &[u8]) -> io::Result<()> {
        let noted = match Vec::from_slice(self.alloc, text) {
            Ok(noted) => noted,
            Err(failure) => return Err(io::Error::from(failure)),
        };
        let done = Done::Text(noted);
        self.pass_noted(&done)
    }
}
