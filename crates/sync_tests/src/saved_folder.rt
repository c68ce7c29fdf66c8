//! A folder in memory in which another program saves a file. It tells nothing.
ghost use Rattle.folder_side.specs.Folder.{FolderFails};

use folder_side::{Ahead, Folder, FolderFault, Holding, ItemKind, Listing, MemoryFolder};
use ids::Items;
use std::alloc::{AllocError, Global};
use tree_model::Path;

/// A folder in which another program puts the bytes `saved` in the place of those of a file, once: where it is due, as the first block
/// comes that is to be appended to the spare, or else as a file is opened, by the number of openings up to that one. By no opening where
/// that is 0.
#[derive(Drop)]
pub(crate) struct SavedFolder {
    pub(crate) folder: MemoryFolder,
    pub(crate) file: Path,
    pub(crate) is_due: bool,
    pub(crate) openings: u64,
    pub(crate) alloc: Global,
}

impl SavedFolder {
    /// Saves the file.
    fn save(&mut self) -> Result<(), FolderFault>
        ensures faults { FolderFails self.old.folder.faults self.new.folder.faults result }
    {
        self.is_due = false;
        let path = match self.file.copy(self.alloc) {
            Ok(path) => path,
            Err(AllocError) => return Err(FolderFault::NoMemory),
        };
        let bytes = match Items::copy(self.alloc, b"saved") {
            Ok(bytes) => bytes,
            Err(AllocError) => return Err(FolderFault::NoMemory),
        };
        if let Err(fault) = self.folder.remove(&self.file) {
            return Err(fault);
        }
        match self.folder.add(path, Holding::File(bytes)) {
            Ok(true) => Ok(()),
            Ok(false) => Ok(()),
            Err(AllocError) => Err(FolderFault::NoMemory),
        }
    }
}

impl Folder for SavedFolder {
    ghost use Rattle.std.specs.Prelude.{None};

    ghost told = { λ folder. None };

    ghost spare = { λ folder. None };

    ghost faults = { λ folder. folder.folder.faults };

    ghost trace = { λ folder. None };

    fn list(&mut self, alloc: Global, dir: &Path) -> Result<Listing, FolderFault> {
        self.folder.list(alloc, dir)
    }

    fn look(&mut self, path: &Path) -> Result<Option<ItemKind>, FolderFault> {
        self.folder.look(path)
    }

    fn open_file(&mut self, file: &Path) -> Result<bool, FolderFault> {
        let openings = self.openings;
        self.openings = openings.saturating_sub(1);
        if openings != 1 {
            return self.folder.open_file(file);
        }
        match self.save() {
            Ok(()) => self.folder.open_file(file),
            Err(fault) => Err(fault),
        }
    }

    fn is_as_opened(&mut self, file: &Path) -> Result<bool, FolderFault> {
        self.folder.is_as_opened(file)
    }

    fn read(&mut self, file: &Path, place: u64, into: &mut [u8]) -> Result<usize, FolderFault> {
        self.folder.read(file, place, into)
    }

    fn spare_clear(&mut self) -> Result<(), FolderFault> {
        self.folder.spare_clear()
    }

    fn spare_add(&mut self, bytes: &[u8]) -> Result<(), FolderFault> {
        if !self.is_due {
            return self.folder.spare_add(bytes);
        }
        match self.save() {
            Ok(()) => self.folder.spare_add(bytes),
            Err(fault) => Err(fault),
        }
    }

    fn spare_sync(&mut self) -> Result<(), FolderFault> {
        self.folder.spare_sync()
    }

    fn spare_move(&mut self, file: &Path) -> Result<(), FolderFault> {
        self.folder.spare_move(file)
    }

    fn make_dir(&mut self, dir: &Path) -> Result<(), FolderFault> {
        self.folder.make_dir(dir)
    }

    fn remove(&mut self, path: &Path) -> Result<(), FolderFault> {
        self.folder.remove(path)
    }

    fn ahead(&self, ahead: Ahead) {
        let _ = ahead;
    }
}
