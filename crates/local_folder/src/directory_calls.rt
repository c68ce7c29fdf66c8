//! The calls of the system on the entries of open directories.
ghost use Rattle.std.specs.Prelude.{◌≡◌, ◌≤◌, ◌∷◌, ◌++◌, [], ℕ, List, IfOk, IsNone, IsTrue, length};
ghost use Rattle.local_folder.specs.Steps.{Does, Moved, MadeDirectory, Removed, Created, Wrote, SyncedFile, SyncedNames};

use std::alloc::Global;
use std::io;

/// What stands under a name.
#[derive(Clone, Copy, Debug, PartialEq, Eq)]
pub enum EntryKind {
    File,
    Directory,
    /// A link, a pipe, a socket or a device.
    Other,
}

/// The names in a directory, in any order, and how many more are no text.
#[derive(Debug, Drop)]
pub struct EntryNames {
    pub names: Vec<String>,
    pub nameless: u64,
}

/// What the system tells of a file beside its bytes. A file that was written, or another that took its name, differs from what was
/// told of it before in one of them.
#[derive(Clone, Copy, Debug, PartialEq, Eq)]
pub struct FileStamp {
    /// The device, and the number of the file on it.
    pub device: u64,
    pub inode: u64,
    /// In bytes.
    pub size: u64,
    /// When its bytes were written last: seconds since 1970, and nanoseconds.
    pub written: (i64, i64),
    /// When these or anything else of it was changed last.
    pub changed: (i64, i64),
}

/// The calls of the system by which a folder works, each on one entry of a directory that is open.
///
/// No call follows a link, but `open_folder` and `is_at` one in the path of the folder itself. A name has no `/`.
/// `SystemDirectories` hands the calls to the system; a stand-in may count them, let one fail, and tell its steps.
pub trait DirectoryCalls {
    ghost use Rattle.std.specs.Prelude.{ℕ, Bool, Option, List};
    ghost use Rattle.local_folder.specs.Steps.{Step};
    ghost use Rattle.tree_model.specs.Path.{PathV};

    /// A directory that is open.
    type Dir: Drop;

    /// A file that is open.
    type File: Drop;

    // The directory was opened as the one at this path of its folder.
    ghost stands_at: { Self.Dir → PathV → Bool };

    // A file may take a name in a directory: it was seen that nothing has the name, or that the directory lists just this one.
    ghost may_take: { Self → Self.Dir → List ℕ → Bool };

    // What was done, in its order.
    ghost steps: { Self → Option (List Step) };

    /// What texts and lists are made with.
    fn alloc(&self) -> Global;

    /// Opens the folder at a path, as its root.
    fn open_folder(&mut self, path: &str) -> io::Result<Self::Dir>
        ensures told { IfOk result (λ dir. IsTrue (stands_at dir [])) }
        ensures stays { steps self.new ≡ steps self.old };

    /// Another handle of the same directory.
    fn another(&mut self, dir: &Self::Dir) -> io::Result<Self::Dir>
        ensures told { IfOk result (λ other. (path : PathV) → IsTrue (stands_at dir.now path) → IsTrue (stands_at other path)) }
        ensures stays { steps self.new ≡ steps self.old };

    /// Whether the folder at this path is still the one that is open.
    fn is_at(&mut self, dir: &Self::Dir, path: &str) -> io::Result<bool>
        ensures stays { steps self.new ≡ steps self.old };

    /// Locks a directory for as long as a handle of it stands. A lock that another has is a failure.
    fn lock(&mut self, dir: &Self::Dir) -> io::Result<()>
        ensures stays { steps self.new ≡ steps self.old };

    /// Opens an entry that is a directory itself.
    fn open_directory(&mut self, dir: &Self::Dir, name: &str) -> io::Result<Self::Dir>
        ensures told { IfOk result (λ inner. (path : PathV) → IsTrue (stands_at dir.now path) → IsTrue (stands_at inner (path ++ name.now ∷ []))) }
        ensures stays { steps self.new ≡ steps self.old };

    /// What stands under a name, if anything does: also what is listed under another one, where the file system takes both for
    /// the same, as letters of both cases.
    fn look(&mut self, dir: &Self::Dir, name: &str) -> io::Result<Option<EntryKind>>
        ensures absent { IfOk result (λ found. IsNone found → IsTrue (may_take self.new dir.now name.now)) }
        ensures stays { steps self.new ≡ steps self.old };

    /// The names in a directory.
    fn list(&mut self, dir: &Self::Dir) -> io::Result<EntryNames>
        ensures stays { steps self.new ≡ steps self.old };

    /// Whether the directory lists an entry of just this name, byte by byte.
    fn is_listed(&mut self, dir: &Self::Dir, name: &str) -> io::Result<bool>
        ensures listed { IfOk result (λ there. IsTrue there → IsTrue (may_take self.new dir.now name.now)) }
        ensures stays { steps self.new ≡ steps self.old };

    /// Opens an entry that is a file itself, to read it.
    fn open_file(&mut self, dir: &Self::Dir, name: &str) -> io::Result<Self::File>
        ensures stays { steps self.new ≡ steps self.old };

    /// What the system tells of an open file.
    fn stamp(&mut self, file: &Self::File) -> io::Result<FileStamp>
        ensures stays { steps self.new ≡ steps self.old };

    /// What it tells of an entry.
    fn stamp_at(&mut self, dir: &Self::Dir, name: &str) -> io::Result<FileStamp>
        ensures stays { steps self.new ≡ steps self.old };

    /// Reads bytes of a file from a place on: none only at or past its end.
    fn read(&mut self, file: &mut Self::File, place: u64, into: &mut [u8]) -> io::Result<usize>
        ensures bound { IfOk result (λ count. count ≤ length into.new) }
        ensures stays { steps self.new ≡ steps self.old };

    /// Makes an empty file to write, where nothing has the name.
    fn create(&mut self, dir: &Self::Dir, name: &str) -> io::Result<Self::File>
        ensures order { (path : PathV) → IsTrue (stands_at dir.now path) → Does (Created (path ++ name.now ∷ [])) (steps self.old) (steps self.new) result };

    /// Appends to an open file; no clause says to which.
    fn write(&mut self, file: &mut Self::File, bytes: &[u8]) -> io::Result<()>
        ensures order { Does (Wrote bytes.now) (steps self.old) (steps self.new) result };

    /// Makes the bytes of an open file durable; no clause says of which.
    fn sync_file(&mut self, file: &mut Self::File) -> io::Result<()>
        ensures order { Does SyncedFile (steps self.old) (steps self.new) result }
        ensures untouched { (dir : Self.Dir) (name : List ℕ) → IsTrue (may_take self.old dir name) → IsTrue (may_take self.new dir name) };

    /// Makes the names in a directory durable.
    fn sync_names(&mut self, dir: &Self::Dir) -> io::Result<()>
        ensures order { (path : PathV) → IsTrue (stands_at dir.now path) → Does (SyncedNames path) (steps self.old) (steps self.new) result };

    /// Gives an entry another name, in place of the file that has it. What has it was looked at before.
    fn rename(&mut self, from: &Self::Dir, old: &str, to: &Self::Dir, new: &str) -> io::Result<()>
        requires named { IsTrue (may_take self.old to.now new.now) }
        ensures order { (path target : PathV) → IsTrue (stands_at from.now path) → IsTrue (stands_at to.now target) →
            Does (Moved (path ++ old.now ∷ []) (target ++ new.now ∷ [])) (steps self.old) (steps self.new) result };

    /// Makes a directory, where nothing has the name.
    fn make_directory(&mut self, dir: &Self::Dir, name: &str) -> io::Result<()>
        ensures order { (path : PathV) → IsTrue (stands_at dir.now path) → Does (MadeDirectory (path ++ name.now ∷ [])) (steps self.old) (steps self.new) result };

    /// Takes a file away.
    fn remove_file(&mut self, dir: &Self::Dir, name: &str) -> io::Result<()>
        ensures order { (path : PathV) → IsTrue (stands_at dir.now path) → Does (Removed (path ++ name.now ∷ [])) (steps self.old) (steps self.new) result };

    /// Takes an empty directory away.
    fn remove_directory(&mut self, dir: &Self::Dir, name: &str) -> io::Result<()>
        ensures order { (path : PathV) → IsTrue (stands_at dir.now path) → Does (Removed (path ++ name.now ∷ [])) (steps self.old) (steps self.new) result };
}
