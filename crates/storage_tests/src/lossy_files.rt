//! A file system in memory that fails one sync, and loses what was not made durable.
use crate::lossy_nodes::{Also, Failures, Home, NOW, NOWHERE, Node, parted};
use folder_storage::{FileFacts, FileKind, FileSystem, SyncPlace};
use std::alloc::{AllocError, Global};
use std::io;
use std::io::ErrorKind;

/// Files in memory. Some calls fail; what a sync that fails was to write is never written, unless it is written anew, though
/// later syncs say that all is well.
#[derive(Drop)]
pub(crate) struct LossyFiles {
    alloc: Global,
    /// The files and folders, by their numbers, and the bytes of each. The first is the folder of all.
    nodes: Vec<Node>,
    bytes: Vec<Vec<u8>>,
    /// All names, by their numbers.
    names: Vec<String>,
    fails: Failures,
    /// All calls of this handle that change something or sync it, a line each.
    calls: String,
    /// How often this handle waited for a flush: those that are asked for at once wait for one.
    waits: u64,
}

fn failure(kind: ErrorKind) -> io::Error {
    io::Error::from(kind)
}

impl LossyFiles {
    /// Files with nothing in them, of which no sync fails.
    pub(crate) fn new(alloc: Global) -> Result<LossyFiles, AllocError> {
        let mut files = LossyFiles {
            alloc,
            nodes: Vec::new(alloc),
            bytes: Vec::new(alloc),
            names: Vec::new(alloc),
            fails: Failures::one(u64::MAX),
            calls: String::new(alloc),
            waits: 0,
        };
        let nowhere = Home {
            folder: NOWHERE,
            name: 0,
        };
        files.push(Node::new(FileKind::Folder, nowhere), b"")?;
        Ok(files)
    }

    /// Another handle of the files as they are now, of which these calls fail.
    fn failing_so(&self, fails: Failures) -> io::Result<LossyFiles> {
        let mut files = self.another()?;
        files.fails = fails;
        Ok(files)
    }

    /// Another handle of the files as they are now, of which the sync with this number fails.
    pub(crate) fn failing(&self, number: u64) -> io::Result<LossyFiles> {
        self.failing_so(Failures::one(number))
    }

    /// Another handle of the files as they are now, of which so many calls fail, from the first sync on.
    pub(crate) fn failing_from_the_first(&self, left: u64, also: Also) -> io::Result<LossyFiles> {
        self.failing_so(Failures {
            first: 0,
            left,
            also,
            syncs: 0,
        })
    }

    /// What stands after the power failed: what the disk has. Before that it may have taken over each name of what had
    /// none there. A file whose bytes it lacks has one byte of none.
    pub(crate) fn cut(&self, has_names: bool) -> io::Result<LossyFiles> {
        let mut left = self.another()?;
        for node in left.nodes.iter_mut() {
            node.cut(has_names);
        }
        Ok(left)
    }

    pub(crate) fn syncs(&self) -> u64 {
        self.fails.syncs
    }

    pub(crate) fn waits(&self) -> u64 {
        self.waits
    }

    pub(crate) fn calls(&self) -> &str {
        self.calls.as_str()
    }

    /// Sets when what stands at a path was changed.
    pub(crate) fn set_changed(&mut self, path: &str, changed: i64) -> io::Result<()> {
        let number = self.number_at(path)?;
        if let Some(node) = self.nodes.get_mut(number) {
            node.changed = changed;
        }
        Ok(())
    }

    /// What stands at a path. The empty path is the folder of all.
    fn find(&self, path: &str) -> Option<usize> {
        let mut at = 0;
        if path.is_empty() {
            return Some(at);
        }
        for name in path.split('/') {
            at = self.child(at, name)?;
        }
        Some(at)
    }

    fn child(&self, folder: usize, name: &str) -> Option<usize> {
        let name = self.name_at(name)?;
        let home = Home { folder, name };
        for (number, node) in self.nodes.iter().enumerate() {
            if node.seen == home {
                return Some(number);
            }
        }
        None
    }

    /// The number of a name.
    fn name_at(&self, name: &str) -> Option<usize> {
        for (number, known) in self.names.iter().enumerate() {
            if known.as_str() == name {
                return Some(number);
            }
        }
        None
    }

    /// The number of what stands at a path, which has to be there.
    fn number_at(&self, path: &str) -> io::Result<usize> {
        match self.find(path) {
            Some(number) => Ok(number),
            None => Err(failure(ErrorKind::NotFound)),
        }
    }

    /// Where a path names something, in a folder that has to be there.
    fn home_of(&mut self, path: &str) -> io::Result<Home> {
        let (folder, name) = parted(path);
        let folder = self.number_at(folder)?;
        let name = self.add_name(name)?;
        Ok(Home { folder, name })
    }

    /// The number of a name, which is added where it isn't there.
    fn add_name(&mut self, name: &str) -> Result<usize, AllocError> {
        if let Some(number) = self.name_at(name) {
            return Ok(number);
        }
        self.names.push(String::from_str(self.alloc, name)?)?;
        Ok(self.names.len().saturating_sub(1))
    }

    fn note(&mut self, call: &str, path: &str) -> Result<(), AllocError> {
        self.calls.push_str(call)?;
        self.calls.push_str(path)?;
        self.calls.push('\n')
    }

    fn push(&mut self, node: Node, bytes: &[u8]) -> Result<(), AllocError> {
        self.bytes.push(Vec::from_slice(self.alloc, bytes)?)?;
        self.nodes.push(node)?;
        Ok(())
    }

    /// Adds a file or folder, which takes the place of what stands there.
    fn add(&mut self, path: &str, kind: FileKind, bytes: &[u8]) -> io::Result<()> {
        let home = self.home_of(path)?;
        self.unname(home);
        self.push(Node::new(kind, home), bytes)?;
        Ok(())
    }

    /// Takes a name away. The disk may still have it.
    fn unname(&mut self, home: Home) {
        for node in self.nodes.iter_mut() {
            if node.seen == home {
                node.seen.folder = NOWHERE;
            }
        }
    }

    /// Begins a sync of what has to be there: its number, and whether the sync fails.
    fn begin_sync(&mut self, path: &str) -> io::Result<(usize, bool)> {
        self.note("sync ", path)?;
        let number = self.number_at(path)?;
        Ok((number, self.fails.is_failing()))
    }

    /// Syncs what stands at a path: the bytes of a file, the names in a folder.
    fn sync_at(&mut self, path: &str) -> io::Result<bool> {
        let (number, is_failing) = self.begin_sync(path)?;
        if let Some(node) = self.nodes.get_mut(number) {
            node.sync_bytes(is_failing);
        }
        for node in self.nodes.iter_mut() {
            node.sync_in(number, is_failing);
        }
        synced(is_failing)
    }

    fn push_name(&self, names: &mut Vec<String>, number: usize) -> Result<(), AllocError> {
        if let Some(name) = self.names.get(number) {
            names.push(name.clone()?)?;
        }
        Ok(())
    }

    /// The names in a folder.
    fn names_in(&self, folder: usize) -> Result<Vec<String>, AllocError> {
        let mut names = Vec::new(self.alloc);
        for node in self.nodes.iter() {
            if node.seen.folder == folder {
                self.push_name(&mut names, node.seen.name)?;
            }
        }
        Ok(names)
    }

    /// The bytes with this number, or one byte of none where the disk lost them.
    fn bytes_at(&self, number: usize) -> &[u8] {
        match self.nodes.get(number) {
            Some(node) if node.is_torn => b"\0",
            _ => match self.bytes.get(number) {
                Some(bytes) => bytes.as_slice(),
                None => b"",
            },
        }
    }
}

/// The answer of a sync of what is there.
fn synced(is_failing: bool) -> io::Result<bool> {
    if is_failing {
        return Err(failure(ErrorKind::StorageFull));
    }
    Ok(true)
}

impl FileSystem for LossyFiles {
    fn alloc(&self) -> Global {
        self.alloc
    }

    fn another(&self) -> io::Result<LossyFiles> {
        let nodes = self.nodes.clone()?;
        let bytes = self.bytes.clone()?;
        let names = self.names.clone()?;
        Ok(LossyFiles {
            alloc: self.alloc,
            nodes,
            bytes,
            names,
            fails: Failures {
                syncs: 0,
                ..self.fails
            },
            calls: String::new(self.alloc),
            waits: 0,
        })
    }

    fn look(&mut self, path: &str) -> io::Result<Option<FileFacts>> {
        if self.fails.is_failing_at(Also::Look) {
            return Err(failure(ErrorKind::OutOfMemory));
        }
        let number = match self.find(path) {
            Some(number) => number,
            None => return Ok(None),
        };
        match self.nodes.get(number) {
            Some(node) => Ok(Some(FileFacts {
                kind: node.kind,
                size: 1,
                changed: node.changed,
            })),
            None => Ok(None),
        }
    }

    fn look_through(&mut self, path: &str) -> io::Result<Option<FileFacts>> {
        self.look(path)
    }

    fn list(&mut self, folder: &str) -> io::Result<Option<Vec<String>>> {
        match self.find(folder) {
            Some(number) => Ok(Some(self.names_in(number)?)),
            None => Ok(None),
        }
    }

    fn read(&mut self, path: &str) -> io::Result<Option<Vec<u8>>> {
        match self.find(path) {
            Some(number) => Ok(Some(Vec::from_slice(self.alloc, self.bytes_at(number))?)),
            None => Ok(None),
        }
    }

    fn write(&mut self, path: &str, bytes: &[u8], is_durable: bool) -> io::Result<i64> {
        self.note("write ", path)?;
        self.add(path, FileKind::File, bytes)?;
        if is_durable {
            self.waits = self.waits.saturating_add(1);
            self.sync_at(path)?;
        }
        Ok(NOW)
    }

    fn sync_folder(&mut self, path: &str) -> io::Result<bool> {
        self.waits = self.waits.saturating_add(1);
        self.sync_at(path)
    }

    fn sync_at_once(&mut self, places: &mut [SyncPlace]) {
        self.waits = self.waits.saturating_add(1);
        for place in places.iter_mut() {
            let answer = self.sync_at(place.path.as_str());
            place.tell(answer);
        }
    }

    fn rename(&mut self, from: &str, to: &str) -> io::Result<()> {
        if self.fails.is_failing_at(Also::Move) {
            return Err(failure(ErrorKind::StorageFull));
        }
        self.note("rename to ", to)?;
        let number = self.number_at(from)?;
        let home = self.home_of(to)?;
        self.unname(home);
        if let Some(node) = self.nodes.get_mut(number) {
            node.move_to(home);
        }
        Ok(())
    }

    fn remove_file(&mut self, path: &str) -> io::Result<bool> {
        if self.fails.is_failing_at(Also::Remove) {
            return Err(failure(ErrorKind::OutOfMemory));
        }
        if self.find(path).is_none() {
            return Ok(false);
        }
        self.note("remove ", path)?;
        let home = self.home_of(path)?;
        self.unname(home);
        Ok(true)
    }

    fn remove_folder(&mut self, path: &str) -> io::Result<()> {
        self.remove_file(path)?;
        Ok(())
    }

    fn remove_all(&mut self, path: &str) -> io::Result<()> {
        self.remove_file(path)?;
        Ok(())
    }

    fn make_folder(&mut self, path: &str) -> io::Result<()> {
        if self.find(path).is_some() {
            return Ok(());
        }
        self.note("make ", path)?;
        self.add(path, FileKind::Folder, b"")
    }

    fn lock(&mut self, path: &str) -> io::Result<()> {
        if self.find(path).is_none() {
            self.add(path, FileKind::File, b"")?;
        }
        Ok(())
    }
}
