//! How a library's folder makes durable what was put, and the state text after it.
ghost use Rattle.std.specs.Prelude.{◌≡◌, [], is_some, not, option_map, string_bytes, true, IfOk, IsErr, OnErr, OnOk};
ghost use Rattle.folder_storage.specs.Durability.{AddsEarlier, AreAmong};
ghost use Rattle.folder_storage.specs.LibraryFolder.{doubts_of, ended};

use crate::at_once::{FileEndings, NameEndings};
use crate::durability::{Directory, Disk, first_byte};
use crate::file_system::{FileSystem, SyncEnding};
use crate::library_folder::{LibraryFolder, Way};
use crate::paths::{moved_path, named_path, object_path};
use crate::unsynced::note;
use crate::whole::is_whole;
use ids::{Key, Kind, ObjId};
use std::alloc::AllocError;
use std::io;
use std::io::ErrorKind;

impl<F: FileSystem + Drop> LibraryFolder<F> {
    /// Takes away, durably, what earlier runs left torn: the next state text is younger, and would vouch for it. No text
    /// that stands names it. Want of memory is told as such only where no file was touched.
    fn clear_torn(&mut self) -> io::Result<()>
        ensures ok { OnOk result (self.new.earlier.torn.items ≡ []) }
        ensures stays { (self.new.earlier.near.items ≡ self.old.earlier.near.items)
            × (self.new.earlier.whole.items ≡ self.old.earlier.whole.items) × (self.new.has_earlier ≡ self.old.has_earlier) }
        ensures after { doubts_of self.new ≡ record (doubts_of self.old) { torn = self.new.earlier.torn.items; is_adrift = self.new.is_adrift } }
    {
        let torn = self.earlier.torn.clone()?;
        let mut is_touched = false;
        for key in &torn {
            let taken = self.take_torn(key, &mut is_touched);
            match taken {
                Ok(()) => {}
                Err(failure) if is_touched => return Err(after_a_change(failure)),
                Err(failure) => return Err(failure),
            }
        }
        self.earlier.torn.clear();
        Ok(())
    }

    /// Takes away, durably, what was left torn under a key, and tells that a file was touched.
    fn take_torn(&mut self, key: &Key, is_touched: &mut bool) -> io::Result<()>
        ensures stays { (self.new.earlier.near.items ≡ self.old.earlier.near.items)
            × (self.new.earlier.whole.items ≡ self.old.earlier.whole.items) × (self.new.has_earlier ≡ self.old.has_earlier) }
        ensures after { doubts_of self.new ≡ record (doubts_of self.old) { is_adrift = self.new.is_adrift } }
    {
        let path = object_path(self.files.alloc(), self.path.as_str(), key)?;
        let folder = self.folder_of(key)?;
        *is_touched = true;
        self.files.remove_file(path.as_str())?;
        if let Err(failure) = self.files.sync_folder(folder.as_str()) {
            self.is_adrift = true;
            return Err(failure);
        }
        Ok(())
    }

    /// Adds what earlier runs put to the objects that are to be made durable, once in this run. After a failure it is still
    /// to be added.
    fn add_earlier(&mut self, keys: &mut Vec<Key>) -> io::Result<()>
        ensures listed { AreAmong keys.old.items keys.new.items }
        ensures found { OnOk result (AddsEarlier self.old.earlier.near.items self.old.earlier.whole.items self.old.has_earlier keys.new.items) }
        ensures stays { (self.new.earlier.near.items ≡ self.old.earlier.near.items)
            × (self.new.earlier.whole.items ≡ self.old.earlier.whole.items) }
        ensures err { OnErr result (self.new.has_earlier ≡ self.old.has_earlier) }
        ensures after { doubts_of self.new ≡ record (doubts_of self.old) { has_earlier = self.new.has_earlier } }
    {
        if self.has_earlier {
            return Ok(());
        }
        if let Err(failure) = add_all(keys, self.earlier.near.as_slice()) {
            return Err(io::Error::from(failure));
        }
        if let Err(failure) = add_all(keys, self.earlier.whole.as_slice()) {
            return Err(io::Error::from(failure));
        }
        self.has_earlier = true;
        Ok(())
    }

    /// Readies the folder for a state text: what is torn is taken away. While a folder's own name is in doubt, or an object
    /// was lost, no text is put.
    fn clear(&mut self) -> io::Result<()>
        ensures ok { OnOk result (self.new.earlier.torn.items ≡ []) }
        ensures refused { (self.old.is_adrift ≡ true → IsErr result) × (is_some self.old.lost ≡ true → IsErr result) }
        ensures stays { (self.new.earlier.near.items ≡ self.old.earlier.near.items)
            × (self.new.earlier.whole.items ≡ self.old.earlier.whole.items) × (self.new.has_earlier ≡ self.old.has_earlier) }
        ensures after { doubts_of self.new ≡ record (doubts_of self.old) { torn = self.new.earlier.torn.items; is_adrift = self.new.is_adrift } }
    {
        if self.is_adrift || self.lost.is_some() {
            return Err(needs_opening());
        }
        self.clear_torn()
    }

    /// Leaves a mark before the first sync: a run that finds it trusts no sync of what that mark's run put. Where a sync
    /// failed before, the mark is left anew, and made durable.
    fn mark(&mut self) -> io::Result<()>
        ensures after { doubts_of self.new ≡ record (doubts_of self.old) { is_marked = self.new.is_marked } }
    {
        let mark = named_path(self.files.alloc(), self.path.as_str(), "syncing")?;
        if self.is_in_doubt {
            self.files.remove_file(mark.as_str())?;
            self.is_marked = false;
        }
        if !self.is_marked {
            self.files.write(mark.as_str(), b"", false)?;
            self.is_marked = true;
        }
        if self.is_in_doubt {
            self.files.sync_folder(self.path.as_str())?;
        }
        Ok(())
    }

    /// Takes the mark away. One that stays costs time alone.
    fn unmark(&mut self)
        ensures after { doubts_of self.new ≡ record (doubts_of self.old) { is_marked = self.new.is_marked } }
    {
        if self.is_marked {
            if let Ok(mark) = named_path(self.files.alloc(), self.path.as_str(), "syncing") {
                self.is_marked = self.files.remove_file(mark.as_str()).is_err();
            }
        }
    }

    /// Writes an object anew, durably, unless it was removed. It has to read back as what was put.
    fn write_anew(&mut self, key: &Key, path: &str) -> io::Result<()>
        ensures stays { doubts_of self.new ≡ doubts_of self.old }
    {
        let bytes = match self.files.read(path)? {
            Some(bytes) => bytes,
            None => return Ok(()),
        };
        if !self.is_as_put(key, bytes.as_slice()) {
            return self.unless_near(key);
        }
        let spare = self.spare()?;
        let time = self.write_spare(spare.as_str(), bytes.as_slice(), true)?;
        self.watch_clock(spare.as_str(), time)?;
        self.move_spare(spare.as_str(), path)
    }

    /// An object that a state text vouches for stays as it is where it is damaged: whoever asks for it is told.
    fn unless_near(&self, key: &Key) -> io::Result<()> {
        if self.earlier.near.binary_search(key).is_ok() {
            return Ok(());
        }
        Err(io::Error::from(ErrorKind::InvalidData))
    }

    /// Whether the bytes are those that were put under the key.
    fn is_as_put(&self, key: &Key, bytes: &[u8]) -> bool {
        for commit in &self.commits {
            if key.kind == Kind::Commit && commit.id == key.id {
                return commit.sum == ObjId::of(bytes);
            }
        }
        is_whole(key, bytes)
    }

    /// Takes away an object of this run that could not be made durable. One that an earlier run put stays, since a state
    /// text that stands may name it.
    fn give_up(&mut self, key: &Key, path: &str) -> io::Result<()>
        ensures after { doubts_of self.new ≡ record (doubts_of self.old) { lost = self.new.lost } }
    {
        if self.earlier.whole.binary_search(key).is_ok()
            || self.earlier.near.binary_search(key).is_ok()
        {
            return Ok(());
        }
        self.lost = Some(*key);
        self.forget_listing(key);
        self.files.remove_file(path)?;
        Ok(())
    }

    /// Writes the name of each folder of these objects anew, before those names are synced.
    fn enter_folders(&mut self, keys: &[Key]) -> io::Result<()>
        ensures after { doubts_of self.new ≡ record (doubts_of self.old) { is_adrift = self.new.is_adrift } }
    {
        let mut last = None;
        for key in keys {
            let directory = Directory::Objects(key.kind, first_byte(key));
            if last != Some(directory) {
                let folder = self.folder_of(key)?;
                self.enter_anew(folder.as_str())?;
                last = Some(directory);
            }
        }
        Ok(())
    }

    /// Moves a folder away and back, so that its name is written anew.
    fn enter_anew(&mut self, folder: &str) -> io::Result<()>
        ensures after { doubts_of self.new ≡ record (doubts_of self.old) { is_adrift = self.new.is_adrift } }
    {
        if self.files.look(folder)?.is_none() {
            return Ok(());
        }
        let moved = moved_path(self.files.alloc(), folder)?;
        let away = self.files.rename(folder, moved.as_str());
        let done = match away {
            Ok(()) => self.files.rename(moved.as_str(), folder),
            // It may have been done.
            Err(failure) => Err(failure),
        };
        match done {
            Ok(()) => Ok(()),
            Err(failure) => {
                self.is_adrift = true;
                Err(after_a_change(failure))
            }
        }
    }
}

impl<F: FileSystem + Drop> Disk for LibraryFolder<F> {
    ghost use Rattle.std.specs.Prelude.{None, ⊤};
    ghost use Rattle.folder_storage.specs.LibraryFolder.{PutsOne, doubts_of};

    type Way = Way;

    type Files = FileEndings;

    type Names = NameEndings;

    ghost steps = { λ _. None };

    ghost puts = { λ key bytes is_done old new. PutsOne key bytes is_done (doubts_of old) (doubts_of new) };

    ghost calls = { λ _. 0 };

    ghost ends = { λ _ _. ⊤ };

    fn put_object(&mut self, key: &Key, bytes: &[u8], way: &Way) -> io::Result<()> {
        self.move_in(key, bytes, way)
    }

    /// Adds what earlier runs put, and takes away what they left torn. After a failure it is still to be added. It fails
    /// where an object was lost, or the name of a folder is in doubt.
    fn gather(&mut self, keys: &mut Vec<Key>) -> io::Result<()>
        ensures refused { (self.old.is_adrift ≡ true → IsErr result) × (is_some self.old.lost ≡ true → IsErr result) }
        ensures listed { AreAmong keys.old.items keys.new.items }
        ensures found { OnOk result (AddsEarlier self.old.earlier.near.items self.old.earlier.whole.items self.old.has_earlier keys.new.items) }
        ensures stays { (self.new.earlier.near.items ≡ self.old.earlier.near.items)
            × (self.new.earlier.whole.items ≡ self.old.earlier.whole.items) }
        ensures err { OnErr result (self.new.has_earlier ≡ self.old.has_earlier) }
        ensures after { doubts_of self.new ≡ record (doubts_of self.old) { torn = self.new.earlier.torn.items; is_adrift = self.new.is_adrift; has_earlier = self.new.has_earlier } }
    {
        if let Err(failure) = self.clear() {
            return Err(failure);
        }
        self.add_earlier(keys)
    }

    /// Leaves the mark, and after a sync that may have failed writes the names of the folders anew.
    fn begin_syncs(&mut self, keys: &[Key]) -> io::Result<()>
        ensures after { doubts_of self.new ≡ record (doubts_of self.old) { is_marked = self.new.is_marked; is_adrift = self.new.is_adrift } }
    {
        if !keys.is_empty() {
            self.mark()?;
        }
        if self.is_in_doubt {
            self.enter_folders(keys)?;
        }
        Ok(())
    }

    /// Where a sync failed, what it was to make durable is in doubt: another sync would say that all is well.
    fn end_syncs(&mut self, is_synced: bool)
        ensures ok { self.new.is_in_doubt ≡ not is_synced }
        ensures after { doubts_of self.new ≡ ended is_synced (doubts_of self.old) }
    {
        self.is_in_doubt = !is_synced;
        if is_synced {
            self.commits.clear();
            self.earlier.near.clear();
            self.earlier.whole.clear();
        }
    }

    /// Syncs them at once, but where what was put is in doubt: then each is written anew.
    fn begin_files(&mut self, keys: &[Key]) -> io::Result<FileEndings>
        ensures none { self.old.is_in_doubt ≡ true → IfOk result (λ files. files.keys.items ≡ []) }
        ensures after { doubts_of self.new ≡ doubts_of self.old }
    {
        if self.is_in_doubt {
            return Ok(FileEndings::none(self.files.alloc()));
        }
        self.sync_files_at_once(keys)
    }

    /// Makes an object's file durable. One whose sync may have failed is written anew.
    fn sync_object(&mut self, files: &FileEndings, key: &Key) -> io::Result<()>
        ensures after { doubts_of self.new ≡ record (doubts_of self.old) { lost = self.new.lost } }
    {
        if files.is_done(key) {
            return Ok(());
        }
        let path = object_path(self.files.alloc(), self.path.as_str(), key)?;
        let anew = self.write_anew(key, path.as_str());
        match anew {
            Ok(()) => Ok(()),
            // It stays in doubt, and is written anew with the next text.
            Err(failure) if failure.kind() == ErrorKind::OutOfMemory => Err(failure),
            Err(failure) => match self.give_up(key, path.as_str()) {
                Ok(()) => Err(after_a_change(failure)),
                Err(other) => Err(after_a_change(other)),
            },
        }
    }

    fn begin_names(&mut self, directories: &[Directory]) -> io::Result<NameEndings>
        ensures after { doubts_of self.new ≡ doubts_of self.old }
    {
        self.sync_names_at_once(directories)
    }

    /// Makes a folder's names durable. A folder of objects that isn't there has none.
    fn sync_directory(&mut self, names: &NameEndings, directory: Directory) -> io::Result<()>
        ensures stays { doubts_of self.new ≡ doubts_of self.old }
    {
        match names.ending_of(directory) {
            SyncEnding::Synced => Ok(()),
            SyncEnding::Missing => match directory {
                Directory::Objects(_, _) => Ok(()),
                Directory::OfKind(_) => Err(io::Error::from(ErrorKind::NotFound)),
            },
            SyncEnding::Failed => Err(io::Error::from(ErrorKind::Other)),
        }
    }

    /// Puts the state text, durably. With its first one a new library's folder takes its name.
    fn put_text(&mut self, text: &[u8]) -> io::Result<()>
        ensures after { doubts_of self.new ≡ record (doubts_of self.old) { is_marked = self.new.is_marked; is_adrift = self.new.is_adrift; path = string_bytes self.new.path; home = option_map string_bytes self.new.home; above = option_map string_bytes self.new.above } }
    {
        let status = named_path(self.files.alloc(), self.path.as_str(), "status")?;
        let spare = self.spare()?;
        self.write_spare(spare.as_str(), text, true)?;
        let time = self.begin_text(spare.as_str())?;
        let moved = self.move_spare(spare.as_str(), status.as_str());
        if let Err(failure) = moved {
            return Err(after_a_change(failure));
        }
        if let Err(failure) = self.settle() {
            return Err(after_a_change(failure));
        }
        self.end_text(time);
        self.unmark();
        Ok(())
    }
}

/// Adds keys to a list.
fn add_all(keys: &mut Vec<Key>, more: &[Key]) -> Result<(), AllocError>
    ensures listed { AreAmong keys.old.items keys.new.items }
    ensures found { OnOk result (AreAmong more.now keys.new.items) }
{
    for key in more {
        note(keys, key)?;
    }
    Ok(())
}

/// The failure of a text while something is in doubt that the next opening finds out.
fn needs_opening() -> io::Error {
    io::Error::new(
        ErrorKind::Other,
        "an object or a name was lost: it has to be opened anew, as a restart does",
    )
}

/// The failure of a call that may have changed something: want of memory is no excuse there.
fn after_a_change(failure: io::Error) -> io::Error {
    if failure.kind() == ErrorKind::OutOfMemory {
        return io::Error::from(ErrorKind::Other);
    }
    failure
}
