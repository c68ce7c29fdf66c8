//! Two folders in memory, and the library with which both are synced.
use crate::library::{LIB, OWNER, desk};
use folder_side::{Folder, Holding, MemoryFolder};
use ids::{Items, LibId, Text};
use library_state::{ListClock, Refusal, Secret};
use local_index::Index;
use remote_calls::{DeskRemote, Remote};
use std::alloc::{AllocError, Global};
use sync_daemon::sync_once;
use sync_rules::{SyncFault, Synced};
use tree_model::Path;

/// A folder with its index, and what a sync of it needs besides a library.
#[derive(Drop)]
pub(crate) struct Worktree {
    pub(crate) folder: MemoryFolder,
    pub(crate) index: Index,
    pub(crate) user: Text,
    pub(crate) clock: ListClock,
}

/// A clock that shows the moment 9.
pub(crate) fn clock(alloc: Global) -> Result<ListClock, AllocError> {
    let moments = Items::copy(alloc, &[9])?;
    Ok(ListClock::new(moments))
}

/// An empty folder that was never synced, of `me` at the moment 9.
pub(crate) fn empty_worktree(alloc: Global) -> Result<Worktree, AllocError> {
    let user = Text::copy(alloc, "me")?;
    let clock = clock(alloc)?;
    Ok(Worktree {
        folder: empty_tree(alloc),
        index: Index::empty(alloc, LibId::from_bytes(LIB)),
        user,
        clock,
    })
}

/// Two folders, and the library with which both are synced.
#[derive(Drop)]
pub(crate) struct House<R> {
    pub(crate) here: Worktree,
    pub(crate) there: Worktree,
    pub(crate) remote: R,
}

/// Both folders are empty; orders of these numbers fail.
pub(crate) fn empty_house(alloc: Global, orders: &[u64]) -> Result<House<DeskRemote>, AllocError> {
    let here = empty_worktree(alloc)?;
    let there = empty_worktree(alloc)?;
    let remote = desk(alloc, orders)?;
    Ok(House {
        here,
        there,
        remote,
    })
}

/// What a sync came to, in short. Each number is of paths.
#[derive(Clone, Copy, PartialEq, Eq)]
pub(crate) enum Came {
    Done {
        is_pushed: bool,
        conflict: bool,
        written: u64,
        removed: u64,
        skipped: usize,
    },
    NotEmpty,
    /// Something stands in the folder where the library has another thing, and can't be replaced.
    Blocked,
    Denied,
    Folder,
    NoReply,
    /// Something else came than was asked for.
    Damaged,
    /// Something was changed meanwhile.
    Changed,
    /// An update came too late; the last collection has this number.
    Stale(u64),
    Other,
}

/// It ended well, and nothing was passed over.
pub(crate) fn done(is_pushed: bool, written: u64, removed: u64) -> Came {
    Came::Done {
        is_pushed,
        conflict: false,
        written,
        removed,
        skipped: 0,
    }
}

fn ended(synced: &Synced) -> Came {
    Came::Done {
        is_pushed: synced.pushed.is_some(),
        conflict: synced.conflict,
        written: synced.written,
        removed: synced.removed,
        skipped: synced.skipped.len(),
    }
}

fn refused(why: &Refusal) -> Came {
    if matches!(why, Refusal::Denied) {
        return Came::Denied;
    }
    Came::Other
}

fn faulted(fault: &SyncFault) -> Came {
    match fault {
        SyncFault::Folder => Came::Folder,
        SyncFault::Remote(_) => Came::NoReply,
        SyncFault::NotEmpty => Came::NotEmpty,
        SyncFault::Blocked(_) => Came::Blocked,
        SyncFault::Damaged { .. } => Came::Damaged,
        SyncFault::Changed(_) => Came::Changed,
        SyncFault::Stale(now) => Came::Stale(*now),
        SyncFault::Refused(why) => refused(why),
        _ => Came::Other,
    }
}

pub(crate) fn came_to(synced: &Result<Synced, SyncFault>) -> Came {
    match synced {
        Ok(synced) => ended(synced),
        Err(fault) => faulted(fault),
    }
}

/// Syncs a folder with a library, with this secret.
pub(crate) fn sync_folder<F: Folder, R: Remote>(
    alloc: Global,
    folder: &mut F,
    index: &mut Index,
    remote: &mut R,
    secret: [u8; 20],
    user: &Text,
    clock: &ListClock,
) -> Came {
    let synced = sync_once(
        alloc,
        folder,
        index,
        remote,
        Secret::from_bytes(secret),
        user,
        clock,
    );
    came_to(&synced)
}

/// The same of a folder that has its index.
pub(crate) fn sync_with<R: Remote>(
    alloc: Global,
    tree: &mut Worktree,
    remote: &mut R,
    secret: [u8; 20],
) -> Came {
    sync_folder(
        alloc,
        &mut tree.folder,
        &mut tree.index,
        remote,
        secret,
        &tree.user,
        &tree.clock,
    )
}

/// Syncs the first folder, with the owner's secret.
pub(crate) fn sync_here<R: Remote>(alloc: Global, house: &mut House<R>) -> Came {
    sync_with(alloc, &mut house.here, &mut house.remote, OWNER)
}

/// Syncs the second one.
pub(crate) fn sync_there<R: Remote>(alloc: Global, house: &mut House<R>) -> Came {
    sync_with(alloc, &mut house.there, &mut house.remote, OWNER)
}

/// The path of a text, which is that of the folder itself where it is no path.
pub(crate) fn path(alloc: Global, text: &str) -> Result<Path, AllocError> {
    match Path::read(alloc, text)? {
        Some(path) => Ok(path),
        None => Ok(Path::root(alloc)),
    }
}

/// Adds a directory; false where none can stand there.
pub(crate) fn add_dir(alloc: Global, tree: &mut Worktree, text: &str) -> Result<bool, AllocError> {
    let path = path(alloc, text)?;
    tree.folder.add(path, Holding::Dir)
}

/// Adds a symbolic link.
pub(crate) fn add_link(alloc: Global, tree: &mut Worktree, text: &str) -> Result<bool, AllocError> {
    let path = path(alloc, text)?;
    tree.folder.add(path, Holding::Other)
}

/// Adds a file.
pub(crate) fn add_file(
    alloc: Global,
    tree: &mut Worktree,
    text: &str,
    bytes: &[u8],
) -> Result<bool, AllocError> {
    let held = Items::copy(alloc, bytes)?;
    let path = path(alloc, text)?;
    tree.folder.add(path, Holding::File(held))
}

/// Puts other bytes into a file; false where there is none.
pub(crate) fn change_file(
    alloc: Global,
    tree: &mut Worktree,
    text: &str,
    bytes: &[u8],
) -> Result<bool, AllocError> {
    let is_removed = remove(alloc, tree, text)?;
    Ok(is_removed && add_file(alloc, tree, text, bytes)?)
}

/// Whether a file of these bytes stands there.
pub(crate) fn has_file(
    alloc: Global,
    tree: &Worktree,
    text: &str,
    bytes: &[u8],
) -> Result<bool, AllocError> {
    let path = path(alloc, text)?;
    Ok(match tree.folder.paths().get(&path) {
        Some(found) => has_bytes(found, bytes),
        None => false,
    })
}

/// Removes a file or an empty directory; false where that fails.
pub(crate) fn remove(alloc: Global, tree: &mut Worktree, text: &str) -> Result<bool, AllocError> {
    let path = path(alloc, text)?;
    Ok(tree.folder.remove(&path).is_ok())
}

/// Adds a directory `old` with a file `a`, and a file `b`.
pub(crate) fn add_small(alloc: Global, tree: &mut Worktree) -> Result<(), AllocError> {
    let _ = add_dir(alloc, tree, "old")?;
    let _ = add_file(alloc, tree, "old/a", b"abc")?;
    let _ = add_file(alloc, tree, "b", b"hello world")?;
    Ok(())
}

/// Forgets with which commit a folder was synced, and keeps what the index lists.
pub(crate) fn forget_base(tree: &mut Worktree) {
    tree.index.base = None;
}

/// A folder with nothing in it, of which no call fails.
pub(crate) fn empty_tree(alloc: Global) -> MemoryFolder {
    MemoryFolder::new(alloc, Items::new(alloc))
}

/// Empties a folder, and keeps its index.
pub(crate) fn empty_folder(alloc: Global, tree: &mut Worktree) {
    tree.folder = empty_tree(alloc);
}

/// How many paths a folder has.
pub(crate) fn count(tree: &Worktree) -> usize {
    tree.folder.paths().len()
}

/// Whether the index is as it was made.
pub(crate) fn is_unsynced(tree: &Worktree) -> bool {
    tree.index.base.is_none() && tree.index.entries.len() == 0
}

fn has_bytes(holding: &Holding, bytes: &[u8]) -> bool {
    match holding {
        Holding::File(held) => held.slice() == bytes,
        _ => false,
    }
}

fn is_same(here: &Holding, there: &Holding) -> bool {
    match here {
        Holding::Dir => matches!(there, Holding::Dir),
        Holding::File(bytes) => has_bytes(there, bytes.slice()),
        Holding::Other => false,
    }
}

pub(crate) fn has(tree: &Worktree, path: &Path, holding: &Holding) -> bool {
    match tree.folder.paths().get(path) {
        Some(found) => is_same(holding, found),
        None => false,
    }
}

/// Whether all that stands in the one folder stands in the other.
pub(crate) fn holds_all(here: &Worktree, there: &Worktree) -> bool {
    for (path, holding) in here.folder.paths().iter() {
        if !has(there, path, holding) {
            return false;
        }
    }
    true
}

/// Whether both folders hold the same.
pub(crate) fn are_equal(here: &Worktree, there: &Worktree) -> bool {
    count(here) == count(there) && holds_all(here, there)
}

/// Whether what the first folder has is pushed, and the second, which gets so many files, then holds the same.
pub(crate) fn is_shared(alloc: Global, house: &mut House<DeskRemote>, files: u64) -> bool {
    let pushed = sync_here(alloc, house);
    let got = sync_there(alloc, house);
    pushed == done(true, 0, 0)
        && got == done(false, files, 0)
        && are_equal(&house.here, &house.there)
}
