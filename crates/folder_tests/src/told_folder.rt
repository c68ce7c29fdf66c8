//! A folder in memory that tells its calls. Definitions: specs/ToldFolder.antt.
ghost use Rattle.std.specs.Prelude.{◌≡◌, ◌∷◌, [], Some};
ghost use Rattle.folder_side.specs.Calls.{with_calls};
ghost use Rattle.folder_tests.specs.ToldFolder.{call_of, calls_of};

use crate::folder_side_tests::{folder, path};
use crate::made::Made;
use block_chunker::Cuts;
use folder_side::{Ahead, Folder, FolderFault, ItemKind, Listing, MemoryFolder, scan};
use http_server::Log;
use ids::Items;
use std::alloc::{AllocError, Global};
use tree_model::Path;

/// A folder in memory whose calls are told, in their order, to proofs alone.
#[derive(Drop)]
pub(crate) struct ToldFolder {
    folder: MemoryFolder,
    alloc: Global,
    // Each with its path, or with that of the folder itself.
    made: Log<Path, Made>,
}

impl ToldFolder {
    /// This folder, before its first call is told.
    fn new(alloc: Global, folder: MemoryFolder) -> ToldFolder {
        ToldFolder {
            folder,
            alloc,
            made: Log::new(),
        }
    }

    /// Notes a call.
    #[tactic(auto, using(crate::proofs::ToldFolderLemmas::noted_more))]
    fn note(&mut self, path: &Path, made: &Made)
        ensures told { Some (calls_of self.new.made.items) ≡ with_calls (Some (calls_of self.old.made.items)) (call_of path.now made.now ∷ []) }
        ensures stays { self.new.folder ≡ self.old.folder }
    {
        self.made = self.made.and(path, made);
    }

    /// Notes a call of the spare.
    fn note_spare(&mut self, made: &Made)
        ensures told { Some (calls_of self.new.made.items) ≡ with_calls (Some (calls_of self.old.made.items)) (call_of [] made.now ∷ []) }
        ensures stays { self.new.folder ≡ self.old.folder }
    {
        let root = Path::root(self.alloc);
        self.note(&root, made);
    }
}

impl Folder for ToldFolder {
    ghost use Rattle.std.specs.Prelude.{Some};
    ghost use Rattle.folder_tests.specs.ToldFolder.{calls_of};

    ghost told = { λ told. Some told.folder.contents };

    ghost spare = { λ told. told.folder.spare };

    ghost faults = { λ told. told.folder.faults };

    ghost trace = { λ told. Some (calls_of told.made.items) };

    fn list(&mut self, alloc: Global, dir: &Path) -> Result<Listing, FolderFault> {
        self.folder.list(alloc, dir)
    }

    #[tactic(auto, using(crate::proofs::ToldFolderLemmas::noted_none))]
    fn look(&mut self, path: &Path) -> Result<Option<ItemKind>, FolderFault> {
        match self.folder.look(path) {
            Ok(kind) => {
                self.note(path, &Made::Looked(kind));
                Ok(kind)
            }
            Err(fault) => Err(fault),
        }
    }

    #[tactic(auto, using(crate::proofs::ToldFolderLemmas::noted_none))]
    fn open_file(&mut self, file: &Path) -> Result<bool, FolderFault> {
        match self.folder.open_file(file) {
            Ok(there) => {
                self.note(file, &Made::Opened(there));
                Ok(there)
            }
            Err(fault) => Err(fault),
        }
    }

    #[tactic(auto, using(crate::proofs::ToldFolderLemmas::noted_none))]
    fn is_as_opened(&mut self, file: &Path) -> Result<bool, FolderFault> {
        match self.folder.is_as_opened(file) {
            Ok(same) => {
                self.note(file, &Made::Compared(same));
                Ok(same)
            }
            Err(fault) => Err(fault),
        }
    }

    #[tactic(auto, using(crate::proofs::ToldFolderLemmas::noted_none))]
    fn read(&mut self, file: &Path, place: u64, into: &mut [u8]) -> Result<usize, FolderFault> {
        match self.folder.read(file, place, into) {
            Ok(count) => match Items::copy(self.alloc, &into[..count]) {
                Ok(bytes) => {
                    self.note(file, &Made::Read(place, bytes));
                    Ok(count)
                }
                Err(AllocError) => Err(FolderFault::NoMemory),
            },
            Err(fault) => Err(fault),
        }
    }

    fn spare_clear(&mut self) -> Result<(), FolderFault> {
        self.note_spare(&Made::SpareCleared);
        self.folder.spare_clear()
    }

    fn spare_add(&mut self, bytes: &[u8]) -> Result<(), FolderFault> {
        self.note_spare(&Made::SpareAdded(bytes.len() as u64));
        self.folder.spare_add(bytes)
    }

    #[tactic(auto, using(crate::proofs::ToldFolderLemmas::noted_none))]
    fn spare_sync(&mut self) -> Result<(), FolderFault> {
        match self.folder.spare_sync() {
            Ok(()) => {
                self.note_spare(&Made::SpareSynced);
                Ok(())
            }
            Err(fault) => Err(fault),
        }
    }

    fn spare_move(&mut self, file: &Path) -> Result<(), FolderFault> {
        self.note(file, &Made::Moved);
        self.folder.spare_move(file)
    }

    fn make_dir(&mut self, dir: &Path) -> Result<(), FolderFault> {
        self.note(dir, &Made::MadeDir);
        self.folder.make_dir(dir)
    }

    fn remove(&mut self, path: &Path) -> Result<(), FolderFault> {
        self.note(path, &Made::Removed);
        self.folder.remove(path)
    }

    fn ahead(&self, ahead: Ahead) {
        self.folder.ahead(ahead);
    }
}

/// Whether a folder that tells its calls is scanned as the same folder that doesn't.
fn is_scanned_alike(alloc: Global) -> Result<bool, AllocError> {
    let mut silent = folder(alloc, &[])?;
    let mut told = ToldFolder::new(alloc, folder(alloc, &[])?);
    let file = path(alloc, "a/x")?;
    let is_alike = told.look(&file) == silent.look(&file);
    Ok(is_alike && scan(alloc, &mut told, Cuts::USUAL).is_ok())
}

#[test]
fn a_folder_that_tells_its_calls_is_scanned(rt: HostRuntime) -> Result<(), AllocError> {
    assert!(rt; is_scanned_alike(rt.alloc())?);
    Ok(())
}
