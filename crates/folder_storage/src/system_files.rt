//! The file system of the runtime.
use crate::file_system::{FileFacts, FileKind, FileSystem, SyncEnding, SyncPlace};
use std::alloc::{AllocError, Global};
use std::fs::{DirBuilder, DirEntry, File, Files, Metadata, OpenOptions};
use std::io::{ErrorKind, Read, Write};
use std::marker::PhantomData;
use std::os::unix::fs::{DirBuilderExt, MetadataExt, OpenOptionsExt};
use std::thread::{Threads, for_each_mut};
use std::{fs, io};

/// Who may look into a folder that is made: its owner alone.
const FOLDER_MODE: u32 = 0o700;

/// Who may read and write a file that is made: its owner alone.
const FILE_MODE: u32 = 0o600;

/// How many files are open at once, to be synced.
const OPEN: usize = 256;

/// How many syncs the system is asked for at once. A disk's flush serves all that were asked for before it began.
const AT_ONCE: usize = 64;

/// The file system of the runtime, with the lock that was taken through it.
#[derive(Drop)]
pub struct SystemFiles<R> {
    rt: R,
    /// The open file that is locked. The system gives the lock up with it, and so with the process.
    lock: Option<File>,
}

impl<R> SystemFiles<R> {
    /// The file system of this runtime.
    pub fn new(rt: R) -> SystemFiles<R> {
        SystemFiles { rt, lock: None }
    }
}

impl<R: Files<File = File> + AllocGlobal + Threads + Sync + Clone + Drop> FileSystem
    for SystemFiles<R> {
    fn alloc(&self) -> Global {
        self.rt.alloc()
    }

    fn another(&self) -> io::Result<SystemFiles<R>> {
        Ok(SystemFiles {
            rt: self.rt.clone()?,
            lock: None,
        })
    }

    fn look(&mut self, path: &str) -> io::Result<Option<FileFacts>> {
        facts_if_there(fs::symlink_metadata(&self.rt, path))
    }

    fn look_through(&mut self, path: &str) -> io::Result<Option<FileFacts>> {
        facts_if_there(fs::metadata(&self.rt, path))
    }

    fn list(&mut self, folder: &str) -> io::Result<Option<Vec<String>>> {
        let entries = match fs::read_dir(&self.rt, folder) {
            Ok(entries) => entries,
            Err(failure) if failure.kind() == ErrorKind::NotFound => return Ok(None),
            Err(failure) => return Err(failure),
        };
        let mut names = Vec::new(self.rt.alloc());
        for entry in entries {
            if let Some(name) = name_of(self.rt.alloc(), entry)? {
                names.push(name)?;
            }
        }
        Ok(Some(names))
    }

    fn read(&mut self, path: &str) -> io::Result<Option<Vec<u8>>> {
        match File::open(&self.rt, path) {
            Ok(file) => Ok(Some(bytes_of(self.rt.alloc(), file)?)),
            Err(failure) if failure.kind() == ErrorKind::NotFound => Ok(None),
            Err(failure) => Err(failure),
        }
    }

    fn write(&mut self, path: &str, bytes: &[u8], is_durable: bool) -> io::Result<i64> {
        let mut how = OpenOptions::new();
        how.write(true).create(true).truncate(true).mode(FILE_MODE);
        let mut file = how.open(&self.rt, path)?;
        file.write_all(bytes)?;
        if is_durable {
            file.sync_all()?;
        }
        Ok(facts_of(&file.metadata()?).changed)
    }

    fn sync_folder(&mut self, path: &str) -> io::Result<bool> {
        sync(&self.rt, path)
    }

    fn sync_at_once(&mut self, places: &mut [SyncPlace]) {
        let alloc = self.rt.alloc();
        for some in places.chunks_mut(OPEN) {
            match open_all(&self.rt, alloc, some) {
                Ok(mut opened) => {
                    sync_opened(&Leave::<R> { of: PhantomData }, opened.as_mut_slice());
                    take_endings(some, opened.as_slice());
                }
                Err(_) => sync_each(&self.rt, some),
            }
        }
    }

    fn rename(&mut self, from: &str, to: &str) -> io::Result<()> {
        fs::rename(&self.rt, from, to)
    }

    fn remove_file(&mut self, path: &str) -> io::Result<bool> {
        match fs::remove_file(&self.rt, path) {
            Ok(()) => Ok(true),
            Err(failure) if failure.kind() == ErrorKind::NotFound => Ok(false),
            Err(failure) => Err(failure),
        }
    }

    fn remove_folder(&mut self, path: &str) -> io::Result<()> {
        fs::remove_dir(&self.rt, path)
    }

    fn remove_all(&mut self, path: &str) -> io::Result<()> {
        match fs::remove_dir_all(&self.rt, path) {
            Ok(()) => Ok(()),
            Err(failure) if failure.kind() == ErrorKind::NotFound => Ok(()),
            Err(failure) => Err(failure),
        }
    }

    fn make_folder(&mut self, path: &str) -> io::Result<()> {
        let mut how = DirBuilder::new();
        how.mode(FOLDER_MODE);
        match how.create(&self.rt, path) {
            Ok(()) => Ok(()),
            Err(failure) if failure.kind() == ErrorKind::AlreadyExists => Ok(()),
            Err(failure) => Err(failure),
        }
    }

    fn lock(&mut self, path: &str) -> io::Result<()> {
        let mut how = OpenOptions::new();
        how.read(true).write(true).create(true).mode(FILE_MODE);
        let file = how.open(&self.rt, path)?;
        file.try_lock()?;
        let taken = file.metadata()?;
        let named = fs::symlink_metadata(&self.rt, path)?;
        if taken.ino() == named.ino() && taken.dev() == named.dev() {
            self.lock = Some(file);
            return Ok(());
        }
        Err(io::Error::from(ErrorKind::ResourceBusy))
    }
}

/// The bytes of an open file. There is room from the beginning for as many as the system tells, and for one more, so that their
/// end is met without another place for them.
fn bytes_of(alloc: Global, mut file: File) -> io::Result<Vec<u8>> {
    let size = file.metadata()?.len() as usize;
    let mut bytes = Vec::with_capacity(alloc, size.saturating_add(1))?;
    file.read_to_end(&mut bytes)?;
    Ok(bytes)
}

/// Makes what stands at a path durable, if something does.
fn sync<R: Files<File = File>>(rt: &R, path: &str) -> io::Result<bool> {
    match File::open(rt, path) {
        Ok(file) => {
            file.sync_all()?;
            Ok(true)
        }
        Err(failure) if failure.kind() == ErrorKind::NotFound => Ok(false),
        Err(failure) => Err(failure),
    }
}

/// What stands at a path, opened to be made durable, and what came of that.
#[derive(Drop)]
struct Opened {
    file: Option<File>,
    ending: SyncEnding,
}

/// The leave of a runtime to start threads, and nothing else of it: a trait's method can't tell a thread that it may share
/// the runtime itself.
struct Leave<R> {
    of: PhantomData<R>,
}

impl<R: Threads> Threads for Leave<R> {}

/// Makes them durable, in threads of their own where they can be made.
fn sync_opened<R: Threads + Sync>(rt: &R, opened: &mut [Opened]) {
    for_each_mut(rt, opened, AT_ONCE, &|_, one: &mut Opened| end_sync(one));
}

/// Opens what stands at these paths.
fn open_all<R: Files<File = File>>(
    rt: &R,
    alloc: Global,
    places: &[SyncPlace],
) -> Result<Vec<Opened>, AllocError> {
    let mut opened = Vec::with_capacity(alloc, places.len())?;
    for place in places {
        opened.push(open(rt, place.path.as_str()))?;
    }
    Ok(opened)
}

/// Opens what stands at a path.
fn open<R: Files<File = File>>(rt: &R, path: &str) -> Opened {
    match File::open(rt, path) {
        Ok(file) => Opened {
            file: Some(file),
            ending: SyncEnding::Failed,
        },
        Err(failure) if failure.kind() == ErrorKind::NotFound => Opened {
            file: None,
            ending: SyncEnding::Missing,
        },
        Err(_) => Opened {
            file: None,
            ending: SyncEnding::Failed,
        },
    }
}

/// Makes it durable, and tells what came of it.
fn end_sync(opened: &mut Opened) {
    if let Some(file) = &opened.file {
        if file.sync_all().is_ok() {
            opened.ending = SyncEnding::Synced;
        }
    }
}

/// Tells of each place what came of it.
fn take_endings(places: &mut [SyncPlace], opened: &[Opened]) {
    for (place, one) in places.iter_mut().zip(opened.iter()) {
        place.ending = one.ending;
    }
}

/// Makes what stands at these paths durable, one after another, for want of memory.
fn sync_each<R: Files<File = File>>(rt: &R, places: &mut [SyncPlace]) {
    for place in places.iter_mut() {
        let answer = sync(rt, place.path.as_str());
        place.tell(answer);
    }
}

/// What is told of a path, if something is there.
fn facts_if_there(told: io::Result<Metadata>) -> io::Result<Option<FileFacts>> {
    match told {
        Ok(metadata) => Ok(Some(facts_of(&metadata))),
        Err(failure) if failure.kind() == ErrorKind::NotFound => Ok(None),
        Err(failure) => Err(failure),
    }
}

/// What the system tells, in our words.
fn facts_of(metadata: &Metadata) -> FileFacts {
    let kind = if metadata.is_file() {
        FileKind::File
    } else if metadata.is_dir() {
        FileKind::Folder
    } else {
        FileKind::Other
    };
    FileFacts {
        kind,
        size: metadata.len(),
        changed: metadata
            .mtime()
            .saturating_mul(1_000_000_000)
            .saturating_add(metadata.mtime_nsec()),
    }
}

/// The name of an entry, if it is text.
fn name_of<R: Files<File = File> + Drop>(
    alloc: Global,
    entry: io::Result<DirEntry<R>>,
) -> io::Result<Option<String>> {
    match entry {
        Ok(entry) => Ok(Some(String::from_str(alloc, entry.file_name())?)),
        Err(failure) if is_bad_name(&failure) => Ok(None),
        Err(failure) => Err(failure),
    }
}

/// Whether an entry has a name that is no text.
fn is_bad_name(failure: &io::Error) -> bool {
    failure.kind() == ErrorKind::InvalidFilename && failure.raw_os_error().is_none()
}
