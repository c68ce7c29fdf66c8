//! Libraries in folders of the file system.
ghost use Rattle.std.specs.Prelude.{◌≡◌, IfOk, IfSome, IsSomeAnd};
ghost use Rattle.std.specs.String.{string_bytes};
ghost use Rattle.object_store.specs.Shelf.{CountsFaults};
ghost use Rattle.folder_storage.specs.Ground.{HasNoFaults};
ghost use Rattle.folder_storage.specs.Paths.{library_text};

use crate::answer::{answer, tell};
use crate::file_system::FileSystem;
use crate::folder_shelf::FolderShelf;
use crate::ground::Ground;
use crate::opening::{find_library, make_library};
use crate::system_files::SystemFiles;
use ids::LibId;
use object_store::{Shelf, ShelfFailed};

/// Libraries in folders of a file system, each in a folder of its own, named by its id. It tells nothing of them, and what
/// the system gives of one may be anything; the shelf that is handed out stands over the folder of the library that was
/// named.
///
/// It has a library once its first state text is durable. One that was made and goes back before is not there, and what
/// was put is taken away when it is made anew.
///
/// A folder above that isn't there, a missing permission, a full disk, and a library that another process has are
/// faults; no library is missing for them.
#[derive(Drop)]
pub struct FolderGround<F> {
    files: F,
    faults: u64,
}

impl<R> FolderGround<SystemFiles<R>> {
    /// A ground over the file system of the runtime, with no faults.
    pub fn new(rt: R) -> FolderGround<SystemFiles<R>>
        ensures faults { result.faults ≡ 0 }
    {
        FolderGround {
            files: SystemFiles::new(rt),
            faults: 0,
        }
    }
}

impl<F> FolderGround<F> {
    /// A ground over these files, which may stand in for the system's, with no faults.
    pub fn over(files: F) -> FolderGround<F>
        ensures faults { result.faults ≡ 0 }
    {
        FolderGround { files, faults: 0 }
    }
}

impl<F: FileSystem + Drop> Ground for FolderGround<F> {
    ghost use Rattle.std.specs.Prelude.{None, ⊤};

    type S = FolderShelf<F>;

    ghost stands = { λ _ _ _. None };

    ghost may_give = { λ _ _ _ _ _. ⊤ };

    ghost faults = { λ ground. ground.faults };

    fn find(&mut self, folder: &str, lib: LibId) -> Result<Option<FolderShelf<F>>, ShelfFailed>
        ensures folder { IfOk result (λ found. IfSome found (λ shelf. string_bytes shelf.folder.path ≡ library_text folder.now lib)) }
        ensures faults { CountsFaults self.old.faults self.new.faults result }
        ensures fresh { IfOk result (HasNoFaults (λ shelf. shelf.faults)) }
    {
        let found = find_library(&self.files, folder, &lib);
        tell(&mut self.files, "opening a library of", folder, &found);
        match answer(&mut self.faults, found)? {
            Some(library) => Ok(Some(FolderShelf::new(library))),
            None => Ok(None),
        }
    }

    fn make(&mut self, folder: &str, lib: LibId) -> Result<Option<FolderShelf<F>>, ShelfFailed>
        ensures folder { IfOk result (λ made. IfSome made (λ shelf. IsSomeAnd shelf.folder.home (λ home. string_bytes home ≡ library_text folder.now lib))) }
        ensures faults { CountsFaults self.old.faults self.new.faults result }
        ensures fresh { IfOk result (HasNoFaults (λ shelf. shelf.faults)) }
    {
        let made = make_library(&self.files, folder, &lib);
        tell(&mut self.files, "making a library in", folder, &made);
        match answer(&mut self.faults, made)? {
            Some(library) => Ok(Some(FolderShelf::new(library))),
            None => Ok(None),
        }
    }

    fn give_back(&mut self, folder: &str, lib: LibId, shelf: FolderShelf<F>) {
        let _ = folder;
        let _ = lib;
        self.faults = self.faults.saturating_add(shelf.faults());
    }

    fn faults(&self) -> u64 {
        self.faults
    }

    ghost told = { λ ground folder lib standing slot given known. Prim.cc };
}
