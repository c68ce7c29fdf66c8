//! A shelf over the files of one library's folder.
ghost use Rattle.std.specs.Prelude.{◌≡◌, OnErr, OnOk, is_ok};
ghost use Rattle.object_store.specs.Shelf.{CountsFaults, texts_after};
ghost use Rattle.folder_storage.specs.Durability.{IsListed, StaysListed};
ghost use Rattle.folder_storage.specs.LibraryFolder.{PutsInto, WantsNoMore, doubts_of};

use crate::answer::{answer, counted, tell};
use crate::file_system::FileSystem;
use crate::library_folder::{LibraryFolder, Way};
use crate::unsynced::Unsynced;
use ids::{Bytes, Key, Kind, ObjId};
use object_store::{CallCount, Found, Shelf, ShelfFailed, Slot};
use std::io;

/// A shelf over the files of one library's folder, one file a slot. It tells nothing of what it holds, and counts the
/// calls that failed.
///
/// `FOLDER/LIB` holds `status`, and `commits`, `fs` and `blocks` with the files `xx/` and the other 38 digits of an
/// object's id: our own, with Seafile's names of the kinds. A file is written as `tmp/spare` and moved to its place, so
/// that a slot holds the old or the new whole. Folders are their owner's alone (0700), and so are files (0600). A library
/// that is made stands in `FOLDER/LIB.new` until its first state text is durable, and then takes its name.
///
/// One process at a time has a library: the file `lock` in its folder is locked (flock), and the system gives the lock
/// up with the process. What a run that was killed left half-written is taken away when the library is opened.
///
/// Before a state text is moved to its place, every object that was put before it, by whichever run, is made durable
/// with each folder that names it. A sync that fails is never tried again: what it was to make durable is written anew,
/// and an object of this run that can't be is taken away, although the call is that of another slot; then no state text
/// is put until that object is put again. Of what no state text names, that which a loss of power left torn isn't stored.
///
/// The order of the calls, what each stop leaves and what is trusted: docs/STORAGE.md.
#[derive(Drop)]
pub struct FolderShelf<F> {
    folder: LibraryFolder<F>,
    unsynced: Unsynced,
    faults: u64,
    texts: CallCount,
}

impl<F: FileSystem> FolderShelf<F> {
    /// A shelf over this folder, with no faults.
    pub(crate) fn new(folder: LibraryFolder<F>) -> FolderShelf<F>
        ensures folder { result.folder ≡ folder }
        ensures faults { result.faults ≡ 0 }
    {
        let unsynced = Unsynced::new(folder.files.alloc());
        FolderShelf {
            folder,
            unsynced,
            faults: 0,
            texts: CallCount::new(),
        }
    }
}

impl<F> FolderShelf<F> {
    /// The files that it stands on, as its calls left them.
    pub fn files(&self) -> &F {
        &self.folder.files
    }
}

impl<F: FileSystem + Drop> Shelf for FolderShelf<F> {
    ghost use Rattle.std.specs.Prelude.{None, ⊤};

    ghost contents = { λ _. None };

    ghost may_give = { λ _ _ _. ⊤ };

    ghost faults = { λ s. s.faults };

    ghost texts = { λ s. s.texts.count };

    fn fetch(&mut self, slot: Slot) -> Result<Option<Bytes>, ShelfFailed>
        ensures listed { self.new.unsynced.keys.items ≡ self.old.unsynced.keys.items }
        ensures folder { doubts_of self.new.folder ≡ doubts_of self.old.folder }
        ensures faults { CountsFaults self.old.faults self.new.faults result }
        ensures texts { self.new.texts.count ≡ self.old.texts.count }
    {
        answer(&mut self.faults, self.folder.read(&slot))
    }

    fn put(&mut self, slot: Slot, bytes: &[u8]) -> Result<(), ShelfFailed>
        ensures listed { OnOk result (IsListed slot self.new.unsynced.keys.items) }
        ensures stays { StaysListed slot self.old.unsynced.keys.items self.new.unsynced.keys.items }
        ensures folder { PutsInto slot bytes.now (is_ok result) (doubts_of self.old.folder) (doubts_of self.new.folder) }
        ensures faults { CountsFaults self.old.faults self.new.faults result }
        ensures texts { self.new.texts.count ≡ texts_after slot self.old.texts.count }
    {
        self.texts.count_put(&slot);
        match slot {
            Slot::Object(key) => {
                let written = write_beside(&mut self.unsynced, &mut self.folder, &key, bytes);
                let way = answer(&mut self.faults, written)?;
                let put = self
                    .unsynced
                    .put_object(&mut self.folder, &key, bytes, &way);
                counted(&mut self.faults, put)
            }
            Slot::Status => {
                let alloc = self.folder.files.alloc();
                let put = self.unsynced.put_text(alloc, &mut self.folder, bytes);
                tell(
                    &mut self.folder.files,
                    "changing",
                    self.folder.path.as_str(),
                    &put,
                );
                answer(&mut self.faults, put)
            }
        }
    }

    fn put_own(&mut self, slot: Slot, bytes: Bytes) -> Result<(), ShelfFailed>
        ensures listed { OnOk result (IsListed slot self.new.unsynced.keys.items) }
        ensures stays { StaysListed slot self.old.unsynced.keys.items self.new.unsynced.keys.items }
        ensures folder { PutsInto slot bytes (is_ok result) (doubts_of self.old.folder) (doubts_of self.new.folder) }
        ensures faults { CountsFaults self.old.faults self.new.faults result }
        ensures texts { self.new.texts.count ≡ texts_after slot self.old.texts.count }
    {
        self.put(slot, bytes.slice())
    }

    fn remove(&mut self, slot: Slot) -> Result<(), ShelfFailed>
        ensures listed { self.new.unsynced.keys.items ≡ self.old.unsynced.keys.items }
        ensures ok { OnOk result (WantsNoMore slot (doubts_of self.old.folder) (doubts_of self.new.folder)) }
        ensures err { OnErr result (doubts_of self.new.folder ≡ doubts_of self.old.folder) }
        ensures faults { CountsFaults self.old.faults self.new.faults result }
        ensures texts { self.new.texts.count ≡ self.old.texts.count }
    {
        let path = answer(&mut self.faults, self.folder.path_of(&slot))?;
        let removed = self.folder.remove(&slot, path.as_str());
        counted(&mut self.faults, removed)
    }

    fn next(&mut self, kind: Kind, after: Option<ObjId>) -> Result<Option<Found>, ShelfFailed>
        ensures listed { self.new.unsynced.keys.items ≡ self.old.unsynced.keys.items }
        ensures folder { doubts_of self.new.folder ≡ doubts_of self.old.folder }
        ensures faults { CountsFaults self.old.faults self.new.faults result }
        ensures texts { self.new.texts.count ≡ self.old.texts.count }
    {
        let found = self.folder.next(kind, &after);
        answer(&mut self.faults, found)
    }

    fn faults(&self) -> u64 {
        self.faults
    }

    ghost told = { λ shelf held slot given known. Prim.cc };
}

/// Writes the bytes of an object beside its slot, and makes room to note it. No slot changes.
fn write_beside<F: FileSystem + Drop>(
    unsynced: &mut Unsynced,
    folder: &mut LibraryFolder<F>,
    key: &Key,
    bytes: &[u8],
) -> io::Result<Way>
    ensures stays { unsynced.new.keys.items ≡ unsynced.old.keys.items }
    ensures folder { doubts_of folder.new ≡ doubts_of folder.old }
{
    unsynced.make_room()?;
    folder.write_beside(key, bytes)
}
