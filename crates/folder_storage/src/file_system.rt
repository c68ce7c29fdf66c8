//! The calls of the system by which libraries are kept in folders.
ghost use Rattle.std.specs.Prelude.{◌≡◌};
ghost use Rattle.folder_storage.specs.declared.file_system.SyncEnding.TheVariants.{Failed};
ghost use Rattle.folder_storage.specs.SyncAnswer.{ending_after, is_done_by};

use std::alloc::Global;
use std::io;

/// What stands at a path.
#[derive(Clone, Copy, Debug, PartialEq, Eq)]
pub enum FileKind {
    File,
    Folder,
    /// A link, a pipe, a socket or a device.
    Other,
}

/// What is told of what stands at a path.
#[derive(Clone, Copy, Debug, PartialEq, Eq)]
pub struct FileFacts {
    pub kind: FileKind,
    pub size: u64,
    /// When it was changed last, in nanoseconds since 1970 began in UTC; as far as 64 bits go.
    pub changed: i64,
}

/// What came of the sync of a file or folder.
#[derive(Clone, Copy, Debug, PartialEq, Eq)]
pub enum SyncEnding {
    Synced,
    /// Nothing stands there.
    Missing,
    /// It may be durable or not, and another sync would not tell.
    Failed,
}

impl SyncEnding {
    /// Whether what stood there is durable by this sync, or nothing has to be.
    pub fn is_done(self) -> bool
        ensures value { result ≡ is_done_by self }
    {
        match self {
            SyncEnding::Synced => true,
            SyncEnding::Missing => true,
            SyncEnding::Failed => false,
        }
    }
}

/// A file or folder that is to be made durable, beside others.
#[derive(Drop)]
pub struct SyncPlace {
    pub path: String,
    /// What came of it. Until that is told it counts as failed.
    pub ending: SyncEnding,
}

impl SyncPlace {
    /// What stands at this path, as yet to be made durable.
    pub fn new(path: String) -> SyncPlace
        ensures path { result.path ≡ path }
        ensures told { result.ending ≡ Failed }
    {
        SyncPlace {
            path,
            ending: SyncEnding::Failed,
        }
    }

    /// Tells what a sync of it answered, which is whether it is there.
    pub fn tell(&mut self, answer: io::Result<bool>)
        ensures path { self.new.path ≡ self.old.path }
        ensures told { self.new.ending ≡ ending_after answer }
    {
        self.ending = match answer {
            Ok(true) => SyncEnding::Synced,
            Ok(false) => SyncEnding::Missing,
            Err(_) => SyncEnding::Failed,
        };
    }
}

/// The calls of the system by which libraries are kept in folders. `SystemFiles` hands them to the system; a stand-in may
/// count them, let one fail, and lose what was not made durable.
///
/// A path that isn't there is no failure where a call answers an `Option` or a `bool`.
pub trait FileSystem {
    /// What texts and lists are made with.
    fn alloc(&self) -> Global;

    /// Another handle of the same files, which holds no lock.
    fn another(&self) -> io::Result<Self>;

    /// What stands at a path. A link at its end is not followed.
    fn look(&mut self, path: &str) -> io::Result<Option<FileFacts>>;

    /// What stands at a path, or at the end of the link there.
    fn look_through(&mut self, path: &str) -> io::Result<Option<FileFacts>>;

    /// The names in a folder, in any order. A name that is no text is left out.
    fn list(&mut self, folder: &str) -> io::Result<Option<Vec<String>>>;

    /// The bytes of a file.
    fn read(&mut self, path: &str) -> io::Result<Option<Vec<u8>>>;

    /// Writes a file with these bytes, its owner's alone, in place of what stands there; durably if that is asked. The answer
    /// is when that was, as a look would tell it.
    fn write(&mut self, path: &str, bytes: &[u8], is_durable: bool) -> io::Result<i64>;

    /// Makes the names in a folder durable. The answer is whether it is there.
    fn sync_folder(&mut self, path: &str) -> io::Result<bool>;

    /// Makes what stands at these paths durable, the bytes of files and the names in folders, in any order and several at
    /// once, and tells of each what came of it. Each path stays at its place.
    fn sync_at_once(&mut self, places: &mut [SyncPlace]);

    /// Gives a file or folder another name, in place of the file that has it.
    fn rename(&mut self, from: &str, to: &str) -> io::Result<()>;

    /// Takes a file away. The answer is whether it was there.
    fn remove_file(&mut self, path: &str) -> io::Result<bool>;

    /// Takes an empty folder away.
    fn remove_folder(&mut self, path: &str) -> io::Result<()>;

    /// Takes a folder away with all that is in it. No link is followed.
    fn remove_all(&mut self, path: &str) -> io::Result<()>;

    /// Makes a folder, its owner's alone, unless something of that name is there.
    fn make_folder(&mut self, path: &str) -> io::Result<()>;

    /// Takes the lock of a file, which is made where it isn't there, for as long as this handle stands. A lock that
    /// another handle has is a failure, and so is a file that is no longer at this path once the lock is had.
    fn lock(&mut self, path: &str) -> io::Result<()>;

    /// Hears why something of this path can't be done that no call of the system refused, for who looks on. It is no call that fails, and
    /// nothing is changed by it.
    fn hear(&mut self, deed: &str, path: &str, failure: &io::Error) {
        let _ = deed;
        let _ = path;
        let _ = failure;
    }
}
