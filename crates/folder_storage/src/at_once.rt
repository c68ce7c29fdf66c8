//! Syncs of a library's folder that are asked for several at once: a flush of the disk that each waited for alone serves
//! many of them. Definitions: specs/AtOnce.antt.
ghost use Rattle.std.specs.Prelude.{◌≡◌, ◌++◌, [], HoldsAt, IfOk, IfSome, IsTrue, OnOk, map, string_bytes};
ghost use Rattle.folder_storage.specs.AtOnce.{EndedSo, IsDone, IsDoneSo, directory_text, ending_told, file_text, path_told};
ghost use Rattle.folder_storage.specs.LibraryFolder.{doubts_of};

use crate::durability::{Directory, is_same};
use crate::file_system::{FileSystem, SyncEnding, SyncPlace};
use crate::library_folder::LibraryFolder;
use crate::paths::{kind_path, listed_folder, object_path};
use ids::Key;
use std::alloc::{AllocError, Global};
use std::io;

/// How many files are asked for in one call: it bounds the memory of their paths.
const MOST: usize = 256;

/// What came of the syncs of objects' files that were asked for at once: each key, sorted, and at its place the ending.
#[derive(Drop)]
pub(crate) struct FileEndings {
    keys: Vec<Key>,
    endings: Vec<SyncEnding>,
}

impl FileEndings {
    /// No sync was asked for.
    pub(crate) fn none(alloc: Global) -> FileEndings
        ensures none { result.keys.items ≡ [] }
    {
        FileEndings {
            keys: Vec::new(alloc),
            endings: Vec::new(alloc),
        }
    }

    /// Whether an object's file is durable by a sync that was asked for. One that wasn't asked for isn't.
    pub(crate) fn is_done(&self, key: &Key) -> bool
        ensures told { IsTrue result → IsDoneSo self.now.keys.items self.now.endings.items key.now }
    {
        match self.of(key) {
            Some(ending) => ending.is_done(),
            None => false,
        }
    }

    /// What came of the sync of an object's file, if it was asked for.
    fn of(&self, key: &Key) -> Option<SyncEnding>
        ensures told { IfSome result (λ ending. EndedSo self.now.keys.items self.now.endings.items key.now ending) }
    {
        match self.keys.binary_search(key) {
            Ok(place) => ending_at(self.endings.as_slice(), place),
            Err(_) => None,
        }
    }

    /// Adds what came of these.
    fn add(&mut self, keys: &[Key], places: &[SyncPlace]) -> Result<(), AllocError>
        ensures items { OnOk result (self.new.keys.items ≡ self.old.keys.items ++ keys.now) }
        ensures told { OnOk result (self.new.endings.items ≡ self.old.endings.items ++ map ending_told places.now) }
    {
        self.keys.extend_from_slice(keys)?;
        add_endings(&mut self.endings, places)
    }
}

/// What came of the syncs of folders that were asked for at once: each folder, and at its place the ending.
#[derive(Drop)]
pub(crate) struct NameEndings {
    directories: Vec<Directory>,
    endings: Vec<SyncEnding>,
}

impl NameEndings {
    /// What came of the sync of a folder. One that wasn't asked for counts as failed.
    pub(crate) fn ending_of(&self, directory: Directory) -> SyncEnding
        ensures told { IsDone result → EndedSo self.now.directories.items self.now.endings.items directory result }
    {
        match self.of(directory) {
            Some(ending) => ending,
            None => SyncEnding::Failed,
        }
    }

    /// The same, if it was asked for.
    fn of(&self, directory: Directory) -> Option<SyncEnding>
        ensures told { IfSome result (λ ending. EndedSo self.now.directories.items self.now.endings.items directory ending) }
    {
        let directories = self.directories.as_slice();
        for place in 0..directories.len() {
            if is_same(&directories[place], &directory) {
                return ending_at(self.endings.as_slice(), place);
            }
        }
        None
    }
}

/// The ending at a place.
fn ending_at(endings: &[SyncEnding], place: usize) -> Option<SyncEnding>
    ensures told { IfSome result (λ ending. HoldsAt (λ told. told ≡ ending) endings.now place) }
{
    if place < endings.len() {
        return Some(endings[place]);
    }
    None
}

/// Adds what came of these.
fn add_endings(endings: &mut Vec<SyncEnding>, places: &[SyncPlace]) -> Result<(), AllocError>
    ensures value { OnOk result (endings.new.items ≡ endings.old.items ++ map ending_told places.now) }
{
    for place in places {
        endings.push(place.ending)?;
    }
    Ok(())
}

impl<F: FileSystem + Drop> LibraryFolder<F> {
    /// Syncs the files of these objects, several at once. After a failure some were synced, and what came of that isn't
    /// known.
    pub(crate) fn sync_files_at_once(&mut self, keys: &[Key]) -> io::Result<FileEndings>
        ensures stays { doubts_of self.new ≡ doubts_of self.old }
    {
        let mut found = FileEndings::none(self.files.alloc());
        for some in keys.chunks(MOST) {
            self.sync_some(some, &mut found)?;
        }
        Ok(found)
    }

    /// The same of so many as are asked for in one call.
    fn sync_some(&mut self, keys: &[Key], found: &mut FileEndings) -> io::Result<()>
        ensures items { OnOk result (found.new.keys.items ≡ found.old.keys.items ++ keys.now) }
        ensures stays { doubts_of self.new ≡ doubts_of self.old }
    {
        let mut places = object_places(self.files.alloc(), self.path.as_str(), keys)?;
        self.files.sync_at_once(places.as_mut_slice());
        Ok(found.add(keys, places.as_slice())?)
    }

    /// Syncs the names in these folders, several at once. After a failure some were synced, and what came of that isn't
    /// known.
    pub(crate) fn sync_names_at_once(
        &mut self,
        directories: &[Directory],
    ) -> io::Result<NameEndings>
        ensures items { IfOk result (λ names. names.directories.items ≡ directories.now) }
        ensures stays { doubts_of self.new ≡ doubts_of self.old }
    {
        let alloc = self.files.alloc();
        let asked = Vec::from_slice(alloc, directories)?;
        let mut places = directory_places(alloc, self.path.as_str(), directories)?;
        self.files.sync_at_once(places.as_mut_slice());
        let mut endings = Vec::new(alloc);
        add_endings(&mut endings, places.as_slice())?;
        Ok(NameEndings {
            directories: asked,
            endings,
        })
    }
}

/// The files of these objects, as yet to be synced.
fn object_places(alloc: Global, library: &str, keys: &[Key]) -> Result<Vec<SyncPlace>, AllocError>
    ensures path { IfOk result (λ places. map path_told places.items ≡ map (file_text library.now) keys.now) }
{
    let mut places = Vec::with_capacity(alloc, keys.len())?;
    for key in keys {
        places.push(SyncPlace::new(object_path(alloc, library, key)?))?;
    }
    Ok(places)
}

/// The same of folders.
fn directory_places(
    alloc: Global,
    library: &str,
    directories: &[Directory],
) -> Result<Vec<SyncPlace>, AllocError>
    ensures path { IfOk result (λ places. map path_told places.items ≡ map (directory_text library.now) directories.now) }
{
    let mut places = Vec::with_capacity(alloc, directories.len())?;
    for directory in directories {
        places.push(SyncPlace::new(directory_path(alloc, library, directory)?))?;
    }
    Ok(places)
}

/// The path of a folder whose names are synced.
fn directory_path(alloc: Global, library: &str, directory: &Directory) -> Result<String, AllocError>
    ensures value { IfOk result (λ path. string_bytes path ≡ directory_text library.now directory.now) }
{
    match directory {
        Directory::Objects(kind, first) => listed_folder(alloc, library, *kind, *first),
        Directory::OfKind(kind) => kind_path(alloc, library, *kind),
    }
}
