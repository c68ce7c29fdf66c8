//! The calls of the system, of which one fails, or finds a link in the place of a directory; or which take capitals for the
//! small letters.
ghost use Rattle.std.specs.Prelude.{◌≡◌, ◌≤◌, IfOk, IsTrue, length};

use local_folder::{DirectoryCalls, EntryKind, EntryNames, FileStamp};
use std::alloc::{AllocError, Global};
use std::io::ErrorKind;
use std::{fs, io};

/// What is done at one of the calls.
#[derive(Clone, Copy, Debug, PartialEq, Eq)]
pub(crate) enum Turn {
    /// The call fails, and does nothing.
    Fault,
    /// Before it the directory `work/d` goes to `kept`, and a link to `outside` takes its place.
    Link,
    /// From it on no name has a capital: one with capitals finds what has small letters in their places, and takes its place.
    Fold,
}

/// Other calls, of which one is turned.
#[derive(Drop)]
pub(crate) struct TurnedCalls<C> {
    calls: C,
    rt: HostRuntime,
    from: String,
    to: String,
    turn: Turn,
    at: u64,
    count: u64,
}

impl<C: Drop> TurnedCalls<C> {
    /// These calls, of which that of the number is turned; the first has number 0.
    pub(crate) fn new(
        calls: C,
        rt: HostRuntime,
        alloc: Global,
        place: &str,
        turn: Turn,
        at: u64,
    ) -> Result<TurnedCalls<C>, AllocError> {
        Ok(TurnedCalls {
            calls,
            rt,
            from: format!(in alloc; "{place}/work/d")?,
            to: format!(in alloc; "{place}/kept")?,
            turn,
            at,
            count: 0,
        })
    }

    /// Comes before each call.
    fn pass(&mut self) -> io::Result<()>
        ensures stays { self.new.calls ≡ self.old.calls }
    {
        let is_due = self.count == self.at;
        self.count = self.count.saturating_add(1);
        if !is_due {
            return Ok(());
        }
        match self.turn {
            Turn::Fault => Err(io::Error::from(ErrorKind::Other)),
            Turn::Link => self.put_link(),
            Turn::Fold => Ok(()),
        }
    }

    /// The name that an entry then has.
    fn held(&self, alloc: Global, name: &str) -> Result<String, AllocError> {
        match self.turn {
            Turn::Fold => name.to_ascii_lowercase(alloc),
            _ => String::from_str(alloc, name),
        }
    }

    /// Puts the link in the place of the directory.
    fn put_link(&mut self) -> io::Result<()>
        ensures stays { self.new.calls ≡ self.old.calls }
    {
        fs::rename(&self.rt, self.from.as_str(), self.to.as_str())?;
        std::os::unix::fs::symlink(&self.rt, "../outside", self.from.as_str())
    }
}

impl<C: DirectoryCalls + Drop> DirectoryCalls for TurnedCalls<C> {
    ghost use Rattle.std.specs.Prelude.{None, true};

    type Dir = C::Dir;

    type File = C::File;

    ghost stands_at = { C.stands_at };

    ghost may_take = { λ _ _ _. true };

    ghost steps = { λ _. None };

    fn alloc(&self) -> Global {
        self.calls.alloc()
    }

    fn open_folder(&mut self, path: &str) -> io::Result<C::Dir> {
        self.pass()?;
        self.calls.open_folder(path)
    }

    fn another(&mut self, dir: &C::Dir) -> io::Result<C::Dir> {
        self.pass()?;
        self.calls.another(dir)
    }

    fn is_at(&mut self, dir: &C::Dir, path: &str) -> io::Result<bool> {
        self.pass()?;
        self.calls.is_at(dir, path)
    }

    fn lock(&mut self, dir: &C::Dir) -> io::Result<()> {
        self.pass()?;
        self.calls.lock(dir)
    }

    fn open_directory(&mut self, dir: &C::Dir, name: &str) -> io::Result<C::Dir> {
        self.pass()?;
        self.calls.open_directory(dir, name)
    }

    fn look(&mut self, dir: &C::Dir, name: &str) -> io::Result<Option<EntryKind>> {
        self.pass()?;
        let held = self.held(self.calls.alloc(), name)?;
        self.calls.look(dir, held.as_str())
    }

    fn list(&mut self, dir: &C::Dir) -> io::Result<EntryNames> {
        self.pass()?;
        self.calls.list(dir)
    }

    fn is_listed(&mut self, dir: &C::Dir, name: &str) -> io::Result<bool> {
        self.pass()?;
        self.calls.is_listed(dir, name)
    }

    fn open_file(&mut self, dir: &C::Dir, name: &str) -> io::Result<C::File> {
        self.pass()?;
        self.calls.open_file(dir, name)
    }

    fn stamp(&mut self, file: &C::File) -> io::Result<FileStamp> {
        self.pass()?;
        self.calls.stamp(file)
    }

    fn stamp_at(&mut self, dir: &C::Dir, name: &str) -> io::Result<FileStamp> {
        self.pass()?;
        self.calls.stamp_at(dir, name)
    }

    fn read(&mut self, file: &mut C::File, place: u64, into: &mut [u8]) -> io::Result<usize> {
        self.pass()?;
        self.calls.read(file, place, into)
    }

    fn create(&mut self, dir: &C::Dir, name: &str) -> io::Result<C::File> {
        self.pass()?;
        self.calls.create(dir, name)
    }

    fn write(&mut self, file: &mut C::File, bytes: &[u8]) -> io::Result<()> {
        self.pass()?;
        self.calls.write(file, bytes)
    }

    fn sync_file(&mut self, file: &mut C::File) -> io::Result<()> {
        self.pass()?;
        self.calls.sync_file(file)
    }

    fn sync_names(&mut self, dir: &C::Dir) -> io::Result<()> {
        self.pass()?;
        self.calls.sync_names(dir)
    }

    fn rename(&mut self, from: &C::Dir, old: &str, to: &C::Dir, new: &str) -> io::Result<()> {
        self.pass()?;
        let held = self.held(self.calls.alloc(), new)?;
        let name = held.as_str();
        match may_take(&mut self.calls, to, name) {
            Ok(true) => self.calls.rename(from, old, to, name),
            Ok(false) => Err(io::Error::from(ErrorKind::Other)),
            Err(failure) => Err(failure),
        }
    }

    fn make_directory(&mut self, dir: &C::Dir, name: &str) -> io::Result<()> {
        self.pass()?;
        self.calls.make_directory(dir, name)
    }

    fn remove_file(&mut self, dir: &C::Dir, name: &str) -> io::Result<()> {
        self.pass()?;
        self.calls.remove_file(dir, name)
    }

    fn remove_directory(&mut self, dir: &C::Dir, name: &str) -> io::Result<()> {
        self.pass()?;
        self.calls.remove_directory(dir, name)
    }
}

/// Whether a file may take a name in a directory: nothing has the name, or just this one is listed.
fn may_take<C: DirectoryCalls>(calls: &mut C, dir: &C::Dir, name: &str) -> io::Result<bool>
    ensures named { IfOk result (λ may. IsTrue may → IsTrue (C.may_take calls.new dir.now name.now)) }
{
    let found = match calls.look(dir, name) {
        Ok(found) => found,
        Err(failure) => return Err(failure),
    };
    match found {
        None => Ok(true),
        Some(_) => calls.is_listed(dir, name),
    }
}
