//! The directories of the runtime's file system.
use crate::directory_calls::{DirectoryCalls, EntryKind, EntryNames, FileStamp};
use crate::permissions::{Permissions, hand_on, make_owners_file, usual_rights};
use std::alloc::{AllocError, Global};
use std::fs::{DirBuilder, DirEntry, File, Files, Metadata, TryLockError};
use std::io::{ErrorKind, Write};
use std::os::fd::AsRawFd;
use std::os::unix::fs::{DirBuilderExt, FileExt, MetadataExt};
use std::{fs, io};

/// The directories of the runtime's file system.
///
/// An entry of an open directory is reached by `/proc/self/fd`, which Linux has, so that no other part of a path is walked.
/// What was opened is kept only where the entry itself is the same file of the same device, so that no link was
/// followed.
///
/// A file that is made is its owner's alone until it is moved: then it has the rights, owner and group of the file that it replaces, as
/// far as the system lets it, or those of a new file. So what replaces a file is at no moment read by who couldn't read that one.
#[derive(Drop)]
pub struct SystemDirectories<R> {
    rt: R,
    permissions: Permissions,
    // The rights of a new file, once one was made.
    usual: Option<u32>,
    // Another handle of the file that was made last, until it is moved.
    made: Option<File>,
}

impl<R> SystemDirectories<R> {
    /// The directories of this runtime; what is made in them has these permissions.
    pub fn new(rt: R, permissions: Permissions) -> SystemDirectories<R> {
        SystemDirectories {
            rt,
            permissions,
            usual: None,
            made: None,
        }
    }
}

impl<R: Files<File = File> + AllocGlobal + Clone + Drop> DirectoryCalls for SystemDirectories<R> {
    ghost use Rattle.std.specs.Prelude.{None, true};

    type Dir = File;

    type File = File;

    ghost stands_at = { λ _ _. true };

    ghost may_take = { λ _ _ _. true };

    ghost steps = { λ _. None };

    fn alloc(&self) -> Global {
        self.rt.alloc()
    }

    fn open_folder(&mut self, path: &str) -> io::Result<File> {
        let inside = format!(in self.rt.alloc(); "{path}/.")?;
        File::open(&self.rt, inside.as_str())
    }

    fn another(&mut self, dir: &File) -> io::Result<File> {
        dir.try_clone()
    }

    fn is_at(&mut self, dir: &File, path: &str) -> io::Result<bool> {
        let standing = fs::metadata(&self.rt, path)?;
        Ok(is_same(&dir.metadata()?, &standing))
    }

    fn lock(&mut self, dir: &File) -> io::Result<()> {
        match dir.try_lock() {
            Ok(()) => Ok(()),
            Err(TryLockError::WouldBlock) => Err(is_taken()),
            Err(TryLockError::Error(failure)) => Err(failure),
        }
    }

    fn open_directory(&mut self, dir: &File, name: &str) -> io::Result<File> {
        let path = entry_path(self.rt.alloc(), dir, name)?;
        let inside = format!(in self.rt.alloc(); "{}/.", path.as_str())?;
        let opened = File::open(&self.rt, inside.as_str())?;
        itself(&self.rt, opened, path.as_str())
    }

    fn look(&mut self, dir: &File, name: &str) -> io::Result<Option<EntryKind>> {
        let path = entry_path(self.rt.alloc(), dir, name)?;
        match fs::symlink_metadata(&self.rt, path.as_str()) {
            Ok(metadata) => Ok(Some(kind_of(&metadata))),
            Err(failure) if failure.kind() == ErrorKind::NotFound => Ok(None),
            Err(failure) => Err(failure),
        }
    }

    fn list(&mut self, dir: &File) -> io::Result<EntryNames> {
        let path = entry_path(self.rt.alloc(), dir, "")?;
        let mut found = EntryNames {
            names: Vec::new(self.rt.alloc()),
            nameless: 0,
        };
        for entry in fs::read_dir(&self.rt, path.as_str())? {
            add_name(self.rt.alloc(), entry, &mut found)?;
        }
        Ok(found)
    }

    fn is_listed(&mut self, dir: &File, name: &str) -> io::Result<bool> {
        let path = entry_path(self.rt.alloc(), dir, "")?;
        for entry in fs::read_dir(&self.rt, path.as_str())? {
            if has_name(entry, name)? {
                return Ok(true);
            }
        }
        Ok(false)
    }

    fn open_file(&mut self, dir: &File, name: &str) -> io::Result<File> {
        let path = entry_path(self.rt.alloc(), dir, name)?;
        if !fs::symlink_metadata(&self.rt, path.as_str())?.is_file() {
            return Err(io::Error::new(ErrorKind::InvalidInput, "it is no file"));
        }
        let opened = File::open(&self.rt, path.as_str())?;
        itself(&self.rt, opened, path.as_str())
    }

    fn stamp(&mut self, file: &File) -> io::Result<FileStamp> {
        Ok(stamp_of(&file.metadata()?))
    }

    fn stamp_at(&mut self, dir: &File, name: &str) -> io::Result<FileStamp> {
        let path = entry_path(self.rt.alloc(), dir, name)?;
        Ok(stamp_of(&fs::symlink_metadata(&self.rt, path.as_str())?))
    }

    fn read(&mut self, file: &mut File, place: u64, into: &mut [u8]) -> io::Result<usize> {
        file.read_at(into, place)
    }

    fn create(&mut self, dir: &File, name: &str) -> io::Result<File> {
        let path = entry_path(self.rt.alloc(), dir, name)?;
        self.made = None;
        if !self.permissions.are_owners_alone() && self.usual.is_none() {
            self.usual = Some(usual_rights(&self.rt, path.as_str())?);
        }
        let file = make_owners_file(&self.rt, path.as_str())?;
        self.made = Some(file.try_clone()?);
        Ok(file)
    }

    fn write(&mut self, file: &mut File, bytes: &[u8]) -> io::Result<()> {
        file.write_all(bytes)
    }

    fn sync_file(&mut self, file: &mut File) -> io::Result<()> {
        file.sync_all()
    }

    fn sync_names(&mut self, dir: &File) -> io::Result<()> {
        dir.sync_all()
    }

    fn rename(&mut self, from: &File, old: &str, to: &File, new: &str) -> io::Result<()> {
        let from = entry_path(self.rt.alloc(), from, old)?;
        let to = entry_path(self.rt.alloc(), to, new)?;
        if let Some(usual) = self.usual {
            hand_on_at(&self.rt, &self.made, from.as_str(), to.as_str(), usual)?;
        }
        self.made = None;
        fs::rename(&self.rt, from.as_str(), to.as_str())
    }

    fn make_directory(&mut self, dir: &File, name: &str) -> io::Result<()> {
        let path = entry_path(self.rt.alloc(), dir, name)?;
        let mut how = DirBuilder::new();
        how.mode(self.permissions.of_directory());
        how.create(&self.rt, path.as_str())
    }

    fn remove_file(&mut self, dir: &File, name: &str) -> io::Result<()> {
        let path = entry_path(self.rt.alloc(), dir, name)?;
        fs::remove_file(&self.rt, path.as_str())
    }

    fn remove_directory(&mut self, dir: &File, name: &str) -> io::Result<()> {
        let path = entry_path(self.rt.alloc(), dir, name)?;
        fs::remove_dir(&self.rt, path.as_str())
    }
}

/// Gives the file that was made last, where it stands at this path, the permissions that it is to have at that one.
fn hand_on_at<R: Files>(
    rt: &R,
    made: &Option<File>,
    from: &str,
    to: &str,
    usual: u32,
) -> io::Result<()> {
    let Some(made) = made else {
        return Ok(());
    };
    if !is_same(&made.metadata()?, &fs::symlink_metadata(rt, from)?) {
        return Ok(());
    }
    match fs::symlink_metadata(rt, to) {
        Ok(replaced) if replaced.is_file() => hand_on(made, Some(&replaced), usual),
        Ok(_) => hand_on(made, None, usual),
        Err(failure) if failure.kind() == ErrorKind::NotFound => hand_on(made, None, usual),
        Err(failure) => Err(failure),
    }
}

/// The failure of a lock that another has.
fn is_taken() -> io::Error {
    io::Error::new(ErrorKind::WouldBlock, "another seaf-cli has this folder")
}

/// The path of an entry by the number of its open directory.
fn entry_path(alloc: Global, dir: &File, name: &str) -> Result<String, AllocError> {
    format!(in alloc; "/proc/self/fd/{}/{name}", dir.as_raw_fd())
}

/// What was opened at a path, where it is the entry itself and not what a link leads to.
fn itself<R: Files>(rt: &R, opened: File, path: &str) -> io::Result<File> {
    let entry = fs::symlink_metadata(rt, path)?;
    if is_same(&opened.metadata()?, &entry) {
        return Ok(opened);
    }
    Err(io::Error::new(ErrorKind::FilesystemLoop, "a link, which is not followed"))
}

/// Whether two tell of the same file of the same device.
fn is_same(one: &Metadata, other: &Metadata) -> bool {
    one.ino() == other.ino() && one.dev() == other.dev()
}

/// What the system tells of a file beside its bytes.
fn stamp_of(metadata: &Metadata) -> FileStamp {
    FileStamp {
        device: metadata.dev(),
        inode: metadata.ino(),
        size: metadata.size(),
        written: (metadata.mtime(), metadata.mtime_nsec()),
        changed: (metadata.ctime(), metadata.ctime_nsec()),
    }
}

/// What the system tells, in our words.
fn kind_of(metadata: &Metadata) -> EntryKind {
    if metadata.is_file() {
        EntryKind::File
    } else if metadata.is_dir() {
        EntryKind::Directory
    } else {
        EntryKind::Other
    }
}

/// Adds an entry's name, or counts it where it is no text.
fn add_name<R: Files<File = File> + Drop>(
    alloc: Global,
    entry: io::Result<DirEntry<R>>,
    found: &mut EntryNames,
) -> io::Result<()> {
    match entry {
        Ok(entry) => Ok(
            found
                .names
                .push(String::from_str(alloc, entry.file_name())?)?,
        ),
        Err(failure) if is_no_text(&failure) => {
            found.nameless = found.nameless.saturating_add(1);
            Ok(())
        }
        Err(failure) => Err(failure),
    }
}

/// Whether an entry has this name.
fn has_name<R: Files<File = File> + Drop>(
    entry: io::Result<DirEntry<R>>,
    name: &str,
) -> io::Result<bool> {
    match entry {
        Ok(entry) => Ok(entry.file_name() == name),
        Err(failure) if is_no_text(&failure) => Ok(false),
        Err(failure) => Err(failure),
    }
}

/// Whether an entry has a name that is no text.
fn is_no_text(failure: &io::Error) -> bool {
    failure.kind() == ErrorKind::InvalidFilename && failure.raw_os_error().is_none()
}
