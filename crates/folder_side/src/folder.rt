//! A folder of files, as a sync sees it.

ghost use Rattle.std.specs.Prelude.{◌≡◌, ℕ, ◌<◌, ◌≤◌, ◌++◌, [], ◌∷◌, true, List, length, take, Option, Some, None, IsSome, is_some, IfOk, OnOk};
ghost use Rattle.std.specs.Option.{option_map};
ghost use Rattle.folder_side.specs.Folder.{Contents, IsFolder, Changes, PartAt, listing_at, with_file, with_dir, without, at, is_dir_at, kind_of, FolderFails, TakesFile, IsFree, IsRemovable};
ghost use Rattle.folder_side.specs.Calls.{Call, Compared, Looked, MadeDir, Moved, Opened, Read, Removed, SpareAdded, SpareCleared, SpareSynced, done_as, with_calls};
ghost use Rattle.tree_model.specs.Path.{parent_of};

use crate::error::FolderFault;
use ids::Items;
use std::alloc::Global;
use tree_model::{Name, Path};

/// What kind of entry a directory has under a name.
#[derive(Clone, Copy, Debug, PartialEq, Eq)]
pub enum ItemKind {
    File,
    Dir,
    /// Neither a directory nor a plain file, such as a symbolic link. It is never opened.
    Other,
}

/// An entry of a directory.
#[derive(Debug, Drop)]
pub struct Item {
    pub name: Name,
    pub kind: ItemKind,
}

/// The entries of a directory in byte order of their names, and how many more have no good name.
#[derive(Debug, Drop)]
pub struct Listing {
    pub items: Items<Item>,
    pub nameless: u64,
}

/// What is ahead of a sync in its folder.
#[derive(Clone, Copy, Debug, PartialEq, Eq)]
pub enum Ahead {
    /// A scan, in which so many files are known from the last sync.
    Files(u64),
    /// An upload, in which so many blocks are still to be read again and sent.
    Blocks(u64),
    /// A checkout of so many steps: paths to be removed, directories to be made, and files to be moved in.
    Steps(u64),
}

/// A folder whose files a sync reads and changes, and one spare file outside its tree.
///
/// A new file is written into the spare and then moved to its path. Contracts see what the folder holds
/// and what the spare holds where the folder tells them, a count of faults: each call that answers
/// `Folder` raises it; and its calls in their order, where it tells these. After a failed change the old or the new stands at that path, and all other paths
/// are as they were.
pub trait Folder {
    ghost told: { Self → Option Contents };

    ghost spare: { Self → Option (List ℕ) };

    ghost faults: { Self → ℕ };

    // The calls so far, where the folder tells them.
    ghost trace: { Self → Option (List Call) };

    /// The entries of a directory; the root is the folder itself. A path that is no directory is a fault.
    fn list(&mut self, alloc: Global, dir: &Path) -> Result<Listing, FolderFault>
        ensures formed { (c : Contents) → told self.old ≡ Some c → OnOk result (IsFolder c) }
        ensures listed { (c : Contents) → told self.old ≡ Some c → IfOk result (λ listing. Some listing ≡ listing_at c dir.now) }
        ensures stays { (told self.new ≡ told self.old) × (spare self.new ≡ spare self.old) }
        ensures faults { FolderFails (faults self.old) (faults self.new) result }
        ensures traced { trace self.new ≡ trace self.old };

    /// What kind of entry stands at a path, if one does; at the root stands none. A path that stands in no directory is a
    /// fault.
    fn look(&mut self, path: &Path) -> Result<Option<ItemKind>, FolderFault>
        ensures formed { (c : Contents) → told self.old ≡ Some c → OnOk result (IsFolder c) }
        ensures found { (c : Contents) → told self.old ≡ Some c → OnOk result (is_dir_at c (parent_of path.now) ≡ true) }
        ensures value { (c : Contents) → told self.old ≡ Some c → IfOk result (λ kind. kind ≡ option_map kind_of (at c path.now)) }
        ensures stays { (told self.new ≡ told self.old) × (spare self.new ≡ spare self.old) }
        ensures faults { FolderFails (faults self.old) (faults self.new) result }
        ensures traced { trace self.new ≡ with_calls (trace self.old) (done_as (Looked path.now) result) };

    /// Opens a file to read it from its start. It tells `false` where nothing stands at its path, as where it is gone since it was
    /// listed. What is no file may be a fault already here.
    fn open_file(&mut self, file: &Path) -> Result<bool, FolderFault>
        ensures value { (c : Contents) → told self.old ≡ Some c → IfOk result (λ there. there ≡ is_some (at c file.now)) }
        ensures stays { (told self.new ≡ told self.old) × (spare self.new ≡ spare self.old) }
        ensures faults { FolderFails (faults self.old) (faults self.new) result }
        ensures traced { trace self.new ≡ with_calls (trace self.old) (done_as (Opened file.now) result) };

    /// Whether at a path still stands the file that was opened there last, unchanged since then, as far as the folder knows
    /// without reading it. What a folder holds that tells it is changed by its own calls alone.
    fn is_as_opened(&mut self, file: &Path) -> Result<bool, FolderFault>
        ensures value { (c : Contents) → told self.old ≡ Some c → IfOk result (λ same. same ≡ true) }
        ensures stays { (told self.new ≡ told self.old) × (spare self.new ≡ spare self.old) }
        ensures faults { FolderFails (faults self.old) (faults self.new) result }
        ensures traced { trace self.new ≡ with_calls (trace self.old) (done_as (Compared file.now) result) };

    /// Reads bytes of a file from a place on: 1 to `into.len()`, or none exactly at or past the file's end. A
    /// path that is no file is a fault.
    fn read(&mut self, file: &Path, place: u64, into: &mut [u8]) -> Result<usize, FolderFault>
        requires some { 0 < length into.old }
        ensures bound { IfOk result (λ count. count ≤ length into.new) }
        ensures value { (c : Contents) → told self.old ≡ Some c → IfOk result (λ count. PartAt (at c file.now) place count into.new) }
        ensures stays { (told self.new ≡ told self.old) × (spare self.new ≡ spare self.old) }
        ensures faults { FolderFails (faults self.old) (faults self.new) result }
        ensures traced { trace self.new ≡ with_calls (trace self.old) (done_as (λ count. Read file.now place (take count into.new)) result) };

    /// Empties the spare, and makes it where there is none.
    fn spare_clear(&mut self) -> Result<(), FolderFault>
        ensures ok { (c : Contents) → told self.old ≡ Some c → OnOk result (spare self.new ≡ Some []) }
        ensures stays { told self.new ≡ told self.old }
        ensures faults { FolderFails (faults self.old) (faults self.new) result }
        ensures traced { trace self.new ≡ with_calls (trace self.old) (SpareCleared ∷ []) };

    /// Appends to the spare.
    fn spare_add(&mut self, bytes: &[u8]) -> Result<(), FolderFault>
        ensures ok { OnOk result (spare self.new ≡ option_map (λ held. held ++ bytes.now) (spare self.old)) }
        ensures stays { told self.new ≡ told self.old }
        ensures faults { FolderFails (faults self.old) (faults self.new) result }
        ensures traced { trace self.new ≡ with_calls (trace self.old) (SpareAdded (length bytes.now) ∷ []) };

    /// Makes the bytes of the spare durable, so that its move needs no time for them. Where there is no spare it is a fault.
    fn spare_sync(&mut self) -> Result<(), FolderFault>
        ensures found { (c : Contents) → told self.old ≡ Some c → OnOk result (IsSome (spare self.old)) }
        ensures stays { (told self.new ≡ told self.old) × (spare self.new ≡ spare self.old) }
        ensures faults { FolderFails (faults self.old) (faults self.new) result }
        ensures traced { trace self.new ≡ with_calls (trace self.old) (done_as (λ done. SpareSynced) result) };

    /// Moves the spare to a path in a directory, in place of a file that is there; anything else there is a
    /// fault, and so it is where there is no spare. Of a folder that doesn't tell what it holds no clause says so.
    fn spare_move(&mut self, file: &Path) -> Result<(), FolderFault>
        ensures ok { (bytes : List ℕ) → spare self.old ≡ Some bytes →
            Changes (with_file file.now bytes) (told self.old) (told self.new) result }
        ensures found { (c : Contents) → told self.old ≡ Some c → OnOk result (IsSome (spare self.old) × TakesFile c file.now) }
        ensures stays { spare self.old ≡ None → told self.new ≡ told self.old }
        ensures faults { FolderFails (faults self.old) (faults self.new) result }
        ensures traced { trace self.new ≡ with_calls (trace self.old) (Moved file.now ∷ []) };

    /// Makes a directory in a directory, where nothing is yet.
    fn make_dir(&mut self, dir: &Path) -> Result<(), FolderFault>
        ensures ok { Changes (with_dir dir.now) (told self.old) (told self.new) result }
        ensures absent { (c : Contents) → told self.old ≡ Some c → OnOk result (IsFree c dir.now) }
        ensures stays { spare self.new ≡ spare self.old }
        ensures faults { FolderFails (faults self.old) (faults self.new) result }
        ensures traced { trace self.new ≡ with_calls (trace self.old) (MadeDir dir.now ∷ []) };

    /// Removes a file or an empty directory; anything else is a fault.
    fn remove(&mut self, path: &Path) -> Result<(), FolderFault>
        ensures ok { Changes (without path.now) (told self.old) (told self.new) result }
        ensures found { (c : Contents) → told self.old ≡ Some c → OnOk result (IsRemovable c path.now (at c path.now)) }
        ensures stays { spare self.new ≡ spare self.old }
        ensures faults { FolderFails (faults self.old) (faults self.new) result }
        ensures traced { trace self.new ≡ with_calls (trace self.old) (Removed path.now ∷ []) };

    /// Hears what is ahead of the sync, for a user who looks on. It is no call that fails, and nothing is changed by it.
    fn ahead(&self, ahead: Ahead);
}
