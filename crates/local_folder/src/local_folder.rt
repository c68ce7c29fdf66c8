//! A folder of the file system.
ghost use Rattle.std.specs.Prelude.{◌≡◌, ◌≤◌, ◌<◌, ◌∷◌, [], IfOk, IsTrue, OnOk, length};
ghost use Rattle.uuid.specs.Text.{hyphenated_text, lower};
ghost use Rattle.folder_side.specs.Folder.{FolderFails};
ghost use Rattle.local_folder.specs.Marker.{marker_name};
ghost use Rattle.local_folder.specs.Steps.{Does, DoesAll, Empties, MovesIn, PutsSmall, SyncedFile, Wrote, is_so_synced, made, moved_in, taken};

use crate::changes::{make_at, move_spare, new_spare, remove_at, sweep};
use crate::counting::noted_answer;
use crate::directory_calls::DirectoryCalls;
use crate::entries::{Reading, is_as_opened, listing_at, look_at, no_entry, open_to_read, read_at};
use crate::marker::{Marker, has_path_in, marker_in, put_marker_in, take_marker};
use folder_side::{Ahead, Folder, FolderFault, ItemKind, Listing};
use ids::LibId;
use std::alloc::Global;
use std::io;
use std::io::ErrorKind;
use tree_model::Path;

/// A folder of the file system, which tells nothing of what it holds, and counts the calls that failed.
///
/// Each part of a path is opened from the directory before it, and no link is followed, also one that is put there
/// meanwhile; only the path of the folder itself may lead through links. The spare is the file `.seaf-cli.spare` in the
/// folder, and the marker `.seaf-cli.library`: no listing has them, and a path that begins with one is a fault. What a run
/// that was killed left of the spare is taken away as the folder is opened. A file is read from the handle that its first bytes
/// came from, and is as it was opened as long as the system tells the same device, number, size and times of what stands at its
/// path. After a move, a making
/// and a removal the names of its directory are durable, and so are the bytes of a file that was moved in.
///
/// The folder is locked (flock) as long as it is open, so that one client at a time has it; the system gives the lock up
/// with the process. A listing of the root, a look at what stands in it, and the opening of a file that is gone fail once another
/// folder, or none, stands at its path; all else goes on in the folder that was opened.
#[derive(Drop)]
pub struct LocalFolder<C: DirectoryCalls> {
    calls: C,
    path: String,
    root: C::Dir,
    reading: Option<Reading<C::File>>,
    spare: Option<C::File>,
    is_synced: bool,
    faults: u64,
    // Why the last call failed, for who looks on.
    failure: Option<io::Error>,
    pub ghost at_root: { IsTrue (C.stands_at root []) },
    pub ghost synced: { IsTrue (is_so_synced is_synced (C.steps calls)) },
}

impl<C: DirectoryCalls + Drop> LocalFolder<C> {
    /// Opens the folder at a path, which is there. A folder that another has open is a failure.
    pub fn open(calls: C, path: &str) -> io::Result<LocalFolder<C>>
        ensures faults { IfOk result (λ folder. folder.faults ≡ 0) }
    {
        let mut calls = calls;
        let path = String::from_str(calls.alloc(), path)?;
        let root = calls.open_folder(path.as_str())?;
        calls.lock(&root)?;
        sweep(&mut calls, &root)?;
        Ok(LocalFolder {
            calls,
            path,
            root,
            reading: None,
            spare: None,
            is_synced: false,
            faults: 0,
            failure: None,
        })
    }

    /// Closes the folder, and takes a spare that was not moved away, if it can be. The answer is the count of faults.
    pub fn end(self) -> u64
        ensures value { result ≡ self.faults }
    {
        let LocalFolder {
            calls,
            path: _,
            root,
            reading: _,
            spare,
            is_synced: _,
            faults,
            failure: _,
        } = self;
        let mut calls = calls;
        if spare.is_some() {
            let _ = sweep(&mut calls, &root);
        }
        faults
    }

    /// Why the last call failed, if it did; no clause says so.
    pub fn failure(&self) -> Option<io::Error> {
        self.failure
    }

    /// Its marker.
    #[tactic(auto, using(crate::proofs::StepLemmas::kept_synced))]
    pub fn marker(&mut self) -> io::Result<Marker>
        ensures faults { self.new.faults ≡ self.old.faults }
        ensures stays { C.steps self.new.calls ≡ C.steps self.old.calls }
    {
        marker_in(&mut self.calls, &self.root)
    }

    /// Puts the marker of a library, in place of one that is there: its bytes are durable before it takes its name, and its name after.
    /// It takes the spare; after a failure that is taken away, if it can be.
    pub fn put_marker(&mut self, lib: &LibId) -> io::Result<()>
        ensures faults { self.new.faults ≡ self.old.faults }
        ensures order { OnOk result (PutsSmall marker_name (hyphenated_text lower lib.now) (C.steps self.old.calls) (C.steps self.new.calls) result) }
    {
        self.is_synced = false;
        let _ = self.spare.take();
        match put_marker_in(&mut self.calls, &self.root, lib) {
            Ok(()) => Ok(()),
            Err(failure) => {
                let _ = sweep(&mut self.calls, &self.root);
                Err(failure)
            }
        }
    }

    /// Takes the marker away, durably.
    pub fn take_marker(&mut self) -> io::Result<()>
        ensures faults { self.new.faults ≡ self.old.faults }
        ensures order { DoesAll (taken (marker_name ∷ [])) (C.steps self.old.calls) (C.steps self.new.calls) result }
    {
        self.is_synced = false;
        take_marker(&mut self.calls, &self.root)
    }

    /// Whether a file or a directory that a sync sees stands in it.
    #[tactic(auto, using(crate::proofs::StepLemmas::kept_synced))]
    pub fn has_path(&mut self) -> io::Result<bool>
        ensures faults { self.new.faults ≡ self.old.faults }
        ensures stays { C.steps self.new.calls ≡ C.steps self.old.calls }
    {
        has_path_in(&mut self.calls, &self.root)
    }

    /// Whether it is the folder that stands at this path.
    #[tactic(auto, using(crate::proofs::StepLemmas::kept_synced))]
    pub fn is_at(&mut self, path: &str) -> io::Result<bool>
        ensures faults { self.new.faults ≡ self.old.faults }
        ensures stays { C.steps self.new.calls ≡ C.steps self.old.calls }
    {
        self.calls.is_at(&self.root, path)
    }

    /// The calls by which it works.
    pub fn calls(&self) -> &C {
        &self.calls
    }
}

impl<C: DirectoryCalls + Drop> Folder for LocalFolder<C> {
    ghost use Rattle.std.specs.Prelude.{None};

    ghost told = { λ _. None };

    ghost spare = { λ _. None };

    ghost faults = { λ folder. folder.faults };

    ghost trace = { λ _. None };

    #[tactic(auto, using(crate::proofs::StepLemmas::kept_synced))]
    fn list(&mut self, alloc: Global, dir: &Path) -> Result<Listing, FolderFault>
        ensures faults { FolderFails self.old.faults self.new.faults result }

        // Nothing is changed.
        ensures stays { C.steps self.new.calls ≡ C.steps self.old.calls }
    {
        let listed = listing_at(&mut self.calls, alloc, &self.root, dir.names());
        let listed = self.if_there(dir.names().is_empty(), listed);
        noted_answer(&mut self.faults, &mut self.failure, listed)
    }

    #[tactic(auto, using(crate::proofs::StepLemmas::kept_synced))]
    fn look(&mut self, path: &Path) -> Result<Option<ItemKind>, FolderFault>
        ensures faults { FolderFails self.old.faults self.new.faults result }

        // Nothing is changed.
        ensures stays { C.steps self.new.calls ≡ C.steps self.old.calls }
    {
        let found = look_at(&mut self.calls, &self.root, path.names());
        let found = self.if_there(path.names().len() <= 1, found);
        noted_answer(&mut self.faults, &mut self.failure, found)
    }

    #[tactic(auto, using(crate::proofs::StepLemmas::kept_synced))]
    fn open_file(&mut self, file: &Path) -> Result<bool, FolderFault>
        ensures faults { FolderFails self.old.faults self.new.faults result }

        // Nothing is changed.
        ensures stays { C.steps self.new.calls ≡ C.steps self.old.calls }
    {
        let opened = open_to_read(&mut self.calls, &self.root, &mut self.reading, file);
        let is_gone = self.reading.is_none();
        let opened = self.if_there(is_gone, opened);
        noted_answer(&mut self.faults, &mut self.failure, opened)
    }

    #[tactic(auto, using(crate::proofs::StepLemmas::kept_synced))]
    fn is_as_opened(&mut self, file: &Path) -> Result<bool, FolderFault>
        ensures faults { FolderFails self.old.faults self.new.faults result }

        // Nothing is changed.
        ensures stays { C.steps self.new.calls ≡ C.steps self.old.calls }
    {
        let same = is_as_opened(&mut self.calls, &self.root, &self.reading, file);
        noted_answer(&mut self.faults, &mut self.failure, same)
    }

    #[tactic(auto, using(crate::proofs::StepLemmas::kept_synced))]
    fn read(&mut self, file: &Path, place: u64, into: &mut [u8]) -> Result<usize, FolderFault>
        requires some { 0 < length into.old }
        ensures bound { IfOk result (λ count. count ≤ length into.new) }
        ensures faults { FolderFails self.old.faults self.new.faults result }

        // Nothing is changed.
        ensures stays { C.steps self.new.calls ≡ C.steps self.old.calls }
    {
        let read = read_at(
            &mut self.calls,
            &self.root,
            &mut self.reading,
            file,
            place,
            into,
        );
        noted_answer(&mut self.faults, &mut self.failure, read)
    }

    fn spare_clear(&mut self) -> Result<(), FolderFault>
        ensures faults { FolderFails self.old.faults self.new.faults result }

        // An empty spare is made, once one that is there is taken away.
        ensures order { Empties (C.steps self.old.calls) (C.steps self.new.calls) result }
    {
        self.is_synced = false;
        self.spare = None;
        match new_spare(&mut self.calls, &self.root) {
            Ok(spare) => {
                self.spare = Some(spare);
                Ok(())
            }
            Err(failure) => noted_answer(&mut self.faults, &mut self.failure, Err(failure)),
        }
    }

    fn spare_add(&mut self, bytes: &[u8]) -> Result<(), FolderFault>
        ensures faults { FolderFails self.old.faults self.new.faults result }

        // The bytes are appended.
        ensures order { Does (Wrote bytes.now) (C.steps self.old.calls) (C.steps self.new.calls) result }
    {
        let added = self.add_to_spare(bytes);
        noted_answer(&mut self.faults, &mut self.failure, added)
    }

    #[tactic(auto, using(crate::proofs::StepLemmas::synced_so))]
    fn spare_sync(&mut self) -> Result<(), FolderFault>
        ensures faults { FolderFails self.old.faults self.new.faults result }

        // The bytes of the spare are durable.
        ensures order { Does SyncedFile (C.steps self.old.calls) (C.steps self.new.calls) result }
    {
        let synced = self.sync_spare();
        self.is_synced = synced.is_ok();
        noted_answer(&mut self.faults, &mut self.failure, synced)
    }

    fn spare_move(&mut self, file: &Path) -> Result<(), FolderFault>
        ensures faults { FolderFails self.old.faults self.new.faults result }

        // The bytes are durable before the file takes its path, and its name after.
        ensures order { MovesIn file.now (C.steps self.old.calls) (C.steps self.new.calls) result }
    {
        self.reading = None;
        let moved = self.move_to(file);
        noted_answer(&mut self.faults, &mut self.failure, moved)
    }

    fn make_dir(&mut self, dir: &Path) -> Result<(), FolderFault>
        ensures faults { FolderFails self.old.faults self.new.faults result }

        // It is made, and its name is durable.
        ensures order { DoesAll (made dir.now) (C.steps self.old.calls) (C.steps self.new.calls) result }
    {
        self.reading = None;
        self.is_synced = false;
        let made = make_at(&mut self.calls, &self.root, dir.names());
        noted_answer(&mut self.faults, &mut self.failure, made)
    }

    fn remove(&mut self, path: &Path) -> Result<(), FolderFault>
        ensures faults { FolderFails self.old.faults self.new.faults result }

        // It is taken away, durably.
        ensures order { DoesAll (taken path.now) (C.steps self.old.calls) (C.steps self.new.calls) result }
    {
        self.reading = None;
        self.is_synced = false;
        let removed = remove_at(&mut self.calls, &self.root, path.names());
        noted_answer(&mut self.faults, &mut self.failure, removed)
    }

    fn ahead(&self, ahead: Ahead) {
        let _ = ahead;
    }
}

/// The failure of a call on a folder that no longer stands at its path.
fn gone() -> io::Error {
    io::Error::new(ErrorKind::NotFound, "the folder is no longer at its path")
}

impl<C: DirectoryCalls> LocalFolder<C> {
    /// What was found in the root counts only where the folder still stands at its path: in one that was removed is nothing.
    #[tactic(auto, using(crate::proofs::StepLemmas::kept_synced))]
    fn if_there<T: Drop>(&mut self, is_root: bool, found: io::Result<T>) -> io::Result<T>
        ensures faults { self.new.faults ≡ self.old.faults }
        ensures stays { C.steps self.new.calls ≡ C.steps self.old.calls }
    {
        let found = found?;
        if is_root && !self.calls.is_at(&self.root, self.path.as_str())? {
            return Err(gone());
        }
        Ok(found)
    }

    /// Appends to the spare, if there is one.
    fn add_to_spare(&mut self, bytes: &[u8]) -> io::Result<()>
        ensures faults { self.new.faults ≡ self.old.faults }
        ensures order { Does (Wrote bytes.now) (C.steps self.old.calls) (C.steps self.new.calls) result }
    {
        self.is_synced = false;
        match &mut self.spare {
            Some(spare) => self.calls.write(spare, bytes),
            None => Err(no_entry()),
        }
    }

    /// Makes the bytes of the spare durable, if there is one.
    fn sync_spare(&mut self) -> io::Result<()>
        ensures faults { self.new.faults ≡ self.old.faults }
        ensures order { Does SyncedFile (C.steps self.old.calls) (C.steps self.new.calls) result }
    {
        self.is_synced = false;
        match &mut self.spare {
            Some(spare) => self.calls.sync_file(spare),
            None => Err(no_entry()),
        }
    }

    /// Moves the spare to a path, if there is one; it is none afterwards. Its bytes are made durable before, if they weren't just now.
    #[tactic(auto, using(crate::proofs::StepLemmas::moves_synced, crate::proofs::StepLemmas::moves_now, crate::proofs::StepLemmas::moves_stopped))]
    fn move_to(&mut self, file: &Path) -> io::Result<()>
        ensures faults { self.new.faults ≡ self.old.faults }
        ensures order { MovesIn file.now (C.steps self.old.calls) (C.steps self.new.calls) result }
    {
        if self.is_synced {
            return self.name_spare(file);
        }
        match self.sync_spare() {
            Ok(()) => self.name_spare(file),
            Err(failure) => Err(failure),
        }
    }

    /// Moves the spare to a path, if there is one; it is none afterwards. Its bytes are durable.
    fn name_spare(&mut self, file: &Path) -> io::Result<()>
        ensures faults { self.new.faults ≡ self.old.faults }
        ensures order { DoesAll (moved_in file.now) (C.steps self.old.calls) (C.steps self.new.calls) result }
    {
        self.is_synced = false;
        if self.spare.is_none() {
            return Err(no_entry());
        }
        let _ = self.spare.take();
        move_spare(&mut self.calls, &self.root, file.names())
    }
}
