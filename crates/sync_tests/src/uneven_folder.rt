//! A folder in memory that takes two names for one. It tells nothing.
use folder_side::{Ahead, Folder, FolderFault, ItemKind, Listing, MemoryFolder};
use std::alloc::Global;
use tree_model::{Name, Path};

/// A folder in which no two entries may have names that differ in the case of ASCII letters alone, or in how `é` is spelled: it lists
/// each by the name with which it was made, and makes none that is taken for another.
#[derive(Drop)]
pub(crate) struct UnevenFolder {
    pub(crate) folder: MemoryFolder,
    pub(crate) root: Path,
}

fn is_spelled_so(one: &[u8], other: &[u8]) -> bool {
    one == "é".as_bytes() && other == "e\u{301}".as_bytes()
}

/// Whether two names are taken for one, though they are two.
fn is_alike(one: &[u8], other: &[u8]) -> bool {
    one != other
        && (one.eq_ignore_ascii_case(other)
            || is_spelled_so(one, other)
            || is_spelled_so(other, one))
}

fn is_alike_last(one: Option<&Name>, other: Option<&Name>) -> bool {
    match (one, other) {
        (Some(one), Some(other)) => is_alike(one.bytes(), other.bytes()),
        _ => false,
    }
}

/// Whether an entry stands there whose last name is taken for that of a path.
fn has_alike(folder: &MemoryFolder, path: &Path) -> bool {
    for (other, _) in folder.paths().iter() {
        if is_alike_last(other.names().last(), path.names().last()) {
            return true;
        }
    }
    false
}

impl Folder for UnevenFolder {
    ghost use Rattle.std.specs.Prelude.{None};

    ghost told = { λ folder. None };

    ghost spare = { λ folder. None };

    ghost faults = { λ folder. folder.folder.faults };

    ghost trace = { λ folder. None };

    fn list(&mut self, alloc: Global, dir: &Path) -> Result<Listing, FolderFault> {
        self.folder.list(alloc, dir)
    }

    fn look(&mut self, path: &Path) -> Result<Option<ItemKind>, FolderFault> {
        self.folder.look(path)
    }

    fn open_file(&mut self, file: &Path) -> Result<bool, FolderFault> {
        self.folder.open_file(file)
    }

    fn is_as_opened(&mut self, file: &Path) -> Result<bool, FolderFault> {
        self.folder.is_as_opened(file)
    }

    fn read(&mut self, file: &Path, place: u64, into: &mut [u8]) -> Result<usize, FolderFault> {
        self.folder.read(file, place, into)
    }

    fn spare_clear(&mut self) -> Result<(), FolderFault> {
        self.folder.spare_clear()
    }

    fn spare_add(&mut self, bytes: &[u8]) -> Result<(), FolderFault> {
        self.folder.spare_add(bytes)
    }

    fn spare_sync(&mut self) -> Result<(), FolderFault> {
        self.folder.spare_sync()
    }

    fn spare_move(&mut self, file: &Path) -> Result<(), FolderFault> {
        if has_alike(&self.folder, file) {
            return self.folder.remove(&self.root);
        }
        self.folder.spare_move(file)
    }

    fn make_dir(&mut self, dir: &Path) -> Result<(), FolderFault> {
        if has_alike(&self.folder, dir) {
            return self.folder.remove(&self.root);
        }
        self.folder.make_dir(dir)
    }

    fn remove(&mut self, path: &Path) -> Result<(), FolderFault> {
        self.folder.remove(path)
    }

    fn ahead(&self, ahead: Ahead) {
        let _ = ahead;
    }
}
