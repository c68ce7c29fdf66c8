//! The folder of one library, held by this process.
ghost use Rattle.std.specs.Prelude.{◌≡◌, false, is_ok, OnErr, OnOk};
ghost use Rattle.folder_storage.specs.LibraryFolder.{FindsAgain, IsFoundAgain, MayNote, PutsOne, TakesOut, WantsNoMore, doubts_of, noted};
ghost use Rattle.folder_storage.specs.Listing.{IsForgotten, IsForgottenAt};

use crate::durability::first_byte;
use crate::earlier::Earlier;
use crate::file_system::FileSystem;
use crate::listing::Listing;
use crate::paths::{listed_folder, named_path, object_path, slot_path};
use crate::seen_folders::SeenFolders;
use ids::{Bytes, Key, Kind, ObjId};
use object_store::{Found, Slot};
use std::alloc::AllocError;
use std::io;
use std::io::ErrorKind;

/// The SHA-1 of a commit's bytes, by which it is known again: its own name is that of something else.
#[derive(Clone, Copy, Debug, PartialEq, Eq)]
pub(crate) struct CommitSum {
    pub(crate) id: ObjId,
    pub(crate) sum: ObjId,
}

/// The folder of one library.
#[derive(Drop)]
pub(crate) struct LibraryFolder<F> {
    /// The file system, through which the library's lock is held.
    pub(crate) files: F,
    /// Where it stands.
    pub(crate) path: String,
    /// Where a new one will stand once it has a state text.
    pub(crate) home: Option<String>,
    /// The folder in which it stands, until its place there is durable.
    pub(crate) above: Option<String>,
    /// What this run put among the commits that aren't durable.
    pub(crate) commits: Vec<CommitSum>,
    /// What no earlier state text vouches for.
    pub(crate) earlier: Earlier,
    /// Whether what earlier runs put whole is among the unsynced, or was made durable.
    pub(crate) has_earlier: bool,
    /// An object that was taken away since it could not be made durable. No state text is put while there is one.
    pub(crate) lost: Option<Key>,
    /// Whether the mark stands that syncs have begun.
    pub(crate) is_marked: bool,
    /// Whether a sync of the unsynced objects or their folders may have failed, so that another one tells nothing.
    pub(crate) is_in_doubt: bool,
    /// Whether a folder's own name is in doubt, so that this run puts nothing any more.
    pub(crate) is_adrift: bool,
    /// When the state text was written, or one that may stand, in nanoseconds: what is put after it is no older.
    pub(crate) text_time: i64,
    /// Whether the mark stands that something was put after the state text whose file is older.
    pub(crate) is_set_back: bool,
    /// The folders of objects that this run saw or made: they are there.
    there: SeenFolders,
    /// What was listed last.
    listing: Option<Listing>,
}

impl<F: FileSystem + Drop> LibraryFolder<F> {
    /// The folder at this path, which this process has taken, in the folder above.
    pub(crate) fn new(files: F, path: String, above: String, earlier: Earlier) -> LibraryFolder<F>
        ensures folder { result.path ≡ path }
        ensures found { (result.earlier ≡ earlier) × (result.has_earlier ≡ false) }
    {
        let alloc = files.alloc();
        LibraryFolder {
            files,
            path,
            home: None,
            above: Some(above),
            commits: Vec::new(alloc),
            earlier,
            has_earlier: false,
            lost: None,
            is_marked: false,
            is_in_doubt: false,
            is_adrift: false,
            text_time: i64::MIN,
            is_set_back: false,
            there: SeenFolders::new(alloc),
            listing: None,
        }
    }

    /// Whether the folder is still there: where a file isn't, this tells an empty slot from a lost folder. While a folder's
    /// own name is in doubt, what isn't there tells nothing.
    fn check(&mut self) -> io::Result<()>
        ensures stays { doubts_of self.new ≡ doubts_of self.old }
    {
        if self.is_adrift {
            return Err(io::Error::from(ErrorKind::Other));
        }
        match self.files.look_through(self.path.as_str())? {
            Some(_) => Ok(()),
            None => Err(io::Error::from(ErrorKind::NotFound)),
        }
    }

    /// The bytes in a slot.
    pub(crate) fn read(&mut self, slot: &Slot) -> io::Result<Option<Bytes>>
        ensures stays { doubts_of self.new ≡ doubts_of self.old }
    {
        let path = slot_path(self.files.alloc(), self.path.as_str(), slot)?;
        match self.files.read(path.as_str())? {
            Some(bytes) => Ok(Some(Bytes::from_vec(bytes))),
            None => {
                self.check()?;
                Ok(None)
            }
        }
    }

    /// Writes the bytes of an object beside its slot, and finds out what its move needs. No slot changes.
    pub(crate) fn write_beside(&mut self, key: &Key, bytes: &[u8]) -> io::Result<Way>
        ensures stays { doubts_of self.new ≡ doubts_of self.old }
    {
        if self.is_adrift {
            return Err(io::Error::from(ErrorKind::Other));
        }
        self.commits.reserve(1)?;
        let way = self.way_of(key)?;
        let time = self.write_spare(way.spare.as_str(), bytes, false)?;
        self.watch_clock(way.spare.as_str(), time)?;
        Ok(way)
    }

    /// The paths that an object is moved along, and that of its folder where it has to be made.
    fn way_of(&mut self, key: &Key) -> io::Result<Way>
        ensures stays { doubts_of self.new ≡ doubts_of self.old }
    {
        let spare = self.spare()?;
        let path = object_path(self.files.alloc(), self.path.as_str(), key)?;
        let lacking = self.lacking_folder(key)?;
        Ok(Way {
            spare,
            lacking,
            path,
        })
    }

    /// The path of the folder that an object's file lies in, where it isn't there. One that is, is looked at once in a run.
    fn lacking_folder(&mut self, key: &Key) -> io::Result<Option<String>>
        ensures stays { doubts_of self.new ≡ doubts_of self.old }
    {
        if self.there.has(key) {
            return Ok(None);
        }
        let folder = self.folder_of(key)?;
        if self.files.look(folder.as_str())?.is_none() {
            return Ok(Some(folder));
        }
        self.there.note(key);
        Ok(None)
    }

    /// Writes the spare file, and tells when that was. Where it fails the file is taken away, if it can be.
    pub(crate) fn write_spare(
        &mut self,
        spare: &str,
        bytes: &[u8],
        is_durable: bool,
    ) -> io::Result<i64>
        ensures stays { doubts_of self.new ≡ doubts_of self.old }
    {
        let written = self.files.write(spare, bytes, is_durable);
        if written.is_err() {
            let _ = self.files.remove_file(spare);
        }
        written
    }

    /// Moves the spare file to this path. Where that fails it is taken away, if it can be.
    pub(crate) fn move_spare(&mut self, spare: &str, path: &str) -> io::Result<()>
        ensures stays { doubts_of self.new ≡ doubts_of self.old }
    {
        let moved = self.files.rename(spare, path);
        if moved.is_err() {
            let _ = self.files.remove_file(spare);
        }
        moved
    }

    /// Where bytes are written first.
    pub(crate) fn spare(&self) -> Result<String, AllocError> {
        named_path(self.files.alloc(), self.path.as_str(), "tmp/spare")
    }

    /// Moves the object that was written beside into its slot. Where that fails the spare file is taken away, if it
    /// can be. The object's folder is listed anew, since a move that fails may have been done.
    pub(crate) fn move_in(&mut self, key: &Key, bytes: &[u8], way: &Way) -> io::Result<()>
        ensures after { PutsOne key.now bytes.now (is_ok result) (doubts_of self.old) (doubts_of self.new) }
        ensures forgotten { IsForgotten self.new.listing key.now }
    {
        let moved = self.move_object(key, bytes, way);
        if moved.is_err() {
            let _ = self.files.remove_file(way.spare.as_str());
        }
        self.forget_listing(key);
        moved
    }

    /// Moves the object that was written beside into its slot, whose folder is made where it wasn't there. Only what was
    /// moved is no longer what an earlier run put, and no longer lost.
    fn move_object(&mut self, key: &Key, bytes: &[u8], way: &Way) -> io::Result<()>
        ensures after { PutsOne key.now bytes.now (is_ok result) (doubts_of self.old) (doubts_of self.new) }
    {
        self.note_commit(key, bytes)?;
        if let Some(folder) = &way.lacking {
            self.files.make_folder(folder.as_str())?;
            self.there.note(key);
        }
        self.files.rename(way.spare.as_str(), way.path.as_str())?;
        take_out(&mut self.earlier.whole, key);
        take_out(&mut self.earlier.torn, key);
        self.find_again(key);
        Ok(())
    }

    /// Notes the bytes of a commit that is put by this run.
    fn note_commit(&mut self, key: &Key, bytes: &[u8]) -> Result<(), AllocError>
        ensures ok { OnOk result (self.new.commits.items ≡ noted key.now.kind key.now.id bytes.now self.old.commits.items) }
        ensures err { OnErr result (MayNote key.now.kind key.now.id bytes.now self.old.commits.items self.new.commits.items) }
        ensures stays { doubts_of self.new ≡ record (doubts_of self.old) { commits = self.new.commits.items } }
    {
        if key.kind == Kind::Commit {
            let sum = ObjId::of(bytes);
            self.commits.retain(|commit| commit.id != key.id);
            self.commits.push(CommitSum { id: key.id, sum })?;
        }
        Ok(())
    }

    /// An object that was lost is put again, or wanted no more.
    fn find_again(&mut self, key: &Key)
        ensures found { FindsAgain key.now self.old.lost self.new.lost }
        ensures stays { self.new ≡ record self.old { lost = self.new.lost } }
    {
        if self.lost == Some(*key) {
            self.lost = None;
        }
    }

    /// The path of the folder that an object's file lies in.
    pub(crate) fn folder_of(&self, key: &Key) -> Result<String, AllocError> {
        let alloc = self.files.alloc();
        listed_folder(alloc, self.path.as_str(), key.kind, first_byte(key))
    }

    /// The path of a slot's file.
    pub(crate) fn path_of(&self, slot: &Slot) -> io::Result<String> {
        Ok(slot_path(self.files.alloc(), self.path.as_str(), slot)?)
    }

    /// Takes away the file of a slot, if it is there. The folder that it lies in is listed anew.
    pub(crate) fn remove(&mut self, slot: &Slot, path: &str) -> io::Result<()>
        ensures ok { OnOk result (WantsNoMore slot.now (doubts_of self.old) (doubts_of self.new)) }
        ensures err { OnErr result (doubts_of self.new ≡ doubts_of self.old) }
        ensures forgotten { IsForgottenAt self.new.listing slot.now }
    {
        match slot {
            Slot::Object(key) => self.remove_object(key, path),
            Slot::Status => self.take_away(path),
        }
    }

    /// Takes away the file of an object, if it is there. The folder that it lies in is listed anew.
    fn remove_object(&mut self, key: &Key, path: &str) -> io::Result<()>
        ensures ok { OnOk result (IsFoundAgain key.now (doubts_of self.old) (doubts_of self.new)) }
        ensures err { OnErr result (doubts_of self.new ≡ doubts_of self.old) }
        ensures forgotten { IsForgotten self.new.listing key.now }
    {
        let removed = self.take_away(path);
        self.forget_listing(key);
        if let Err(failure) = removed {
            return Err(failure);
        }
        self.find_again(key);
        Ok(())
    }

    /// Takes away the file at this path, if it is there.
    fn take_away(&mut self, path: &str) -> io::Result<()>
        ensures stays { doubts_of self.new ≡ doubts_of self.old }
    {
        if !self.files.remove_file(path)? {
            self.check()?;
        }
        Ok(())
    }

    /// Forgets what was listed of the folder that an object lies in.
    pub(crate) fn forget_listing(&mut self, key: &Key)
        ensures stays { doubts_of self.new ≡ doubts_of self.old }
        ensures forgotten { IsForgotten self.new.listing key.now }
    {
        let is_stale = match &self.listing {
            Some(listing) => listing.is_of(key.kind, first_byte(key)),
            None => false,
        };
        if is_stale {
            self.listing = None;
        }
    }

    /// The object of the kind with the least id above `after`.
    pub(crate) fn next(&mut self, kind: Kind, after: &Option<ObjId>) -> io::Result<Option<Found>>
        ensures stays { doubts_of self.new ≡ doubts_of self.old }
    {
        for first in first_listed(after)..=u8::MAX {
            if let Some(found) = self.next_in(kind, first, after)? {
                return Ok(Some(found));
            }
        }
        self.check()?;
        Ok(None)
    }

    /// The same among the objects whose ids begin with one byte. They are listed once, however often this is asked.
    fn next_in(&mut self, kind: Kind, first: u8, after: &Option<ObjId>) -> io::Result<Option<Found>>
        ensures stays { doubts_of self.new ≡ doubts_of self.old }
    {
        if let Some(listing) = &self.listing {
            if listing.is_of(kind, first) {
                return Ok(listing.next(after));
            }
        }
        let folder = listed_folder(self.files.alloc(), self.path.as_str(), kind, first)?;
        let torn = self.earlier.torn.as_slice();
        let listing = Listing::read(&mut self.files, folder.as_str(), kind, first, torn)?;
        let found = listing.next(after);
        self.listing = Some(listing);
        Ok(found)
    }
}

/// The paths that an object is moved along, from the spare file to its own in its folder, and that of the folder where it wasn't
/// there as they were found.
#[derive(Drop)]
pub(crate) struct Way {
    spare: String,
    lacking: Option<String>,
    path: String,
}

/// The first byte of an id, and 0 where there is none.
fn first_listed(id: &Option<ObjId>) -> u8 {
    match id {
        Some(id) => id.as_bytes()[0],
        None => 0,
    }
}

/// Takes a key out of a sorted list, if it is there.
fn take_out(keys: &mut Vec<Key>, key: &Key)
    ensures after { TakesOut key.now keys.old.items keys.new.items }
{
    if let Ok(place) = keys.binary_search(key) {
        let _ = keys.remove(place);
    }
}
