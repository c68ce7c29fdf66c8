//! Objects that are put into a library by calls of its owner, and updates to them. Each refusal is told as want of memory.
use crate::calls::{Said, asked};
use crate::library::library_on;
use depot::Depot;
use ids::{Bytes, IdList, Key, Kind, ObjId};
use library_state::Act;
use object_store::{MemoryShelf, Shelf};
use std::alloc::{AllocError, Global};

pub(crate) type Kept = Depot<MemoryShelf>;

/// Appends these parts to a text.
fn push_all(text: &mut Vec<u8>, parts: &[&[u8]]) -> Result<(), AllocError> {
    for part in parts {
        text.extend_from_slice(part)?;
    }
    Ok(())
}

/// Puts bytes under a key.
fn put_at<S: Shelf>(depot: &mut Depot<S>, key: Key, bytes: Bytes) -> Result<(), AllocError> {
    match asked(depot, Act::Put(key, bytes)) {
        Said::Stored => Ok(()),
        _ => Err(AllocError),
    }
}

/// Puts an object of this text under its own name.
fn put<S: Shelf>(depot: &mut Depot<S>, kind: Kind, text: Vec<u8>) -> Result<ObjId, AllocError> {
    let id = ObjId::of(text.as_slice());
    let key = Key { kind, id };
    put_at(depot, key, Bytes::from_vec(text))?;
    Ok(id)
}

/// Puts a block of this text.
pub(crate) fn put_block<S: Shelf>(
    alloc: Global,
    depot: &mut Depot<S>,
    text: &str,
) -> Result<ObjId, AllocError> {
    let text = Vec::from_slice(alloc, text.as_bytes())?;
    put(depot, Kind::Block, text)
}

/// The text of a file of this one block, of one byte.
fn file_text(alloc: Global, block: &ObjId) -> Result<Vec<u8>, AllocError> {
    let id = block.digits();
    let mut text = Vec::new(alloc);
    push_all(
        &mut text,
        &[
            b"{\"block_ids\":[\"",
            id.as_slice(),
            b"\"],\"size\":1,\"type\":1,\"version\":1}",
        ],
    )?;
    Ok(text)
}

/// Puts a file of one block of this letter.
fn put_file<S: Shelf>(
    alloc: Global,
    depot: &mut Depot<S>,
    letter: &str,
) -> Result<ObjId, AllocError> {
    let block = put_block(alloc, depot, letter)?;
    let text = file_text(alloc, &block)?;
    put(depot, Kind::Fs, text)
}

/// Appends an entry of this mode and size, with what stands before it.
fn push_entry(
    text: &mut Vec<u8>,
    between: &[u8],
    name: &str,
    mode: &[u8],
    size: &[u8],
    id: &ObjId,
) -> Result<(), AllocError> {
    text.extend_from_slice(between)?;
    text.extend_from_slice(b"{\"id\":\"")?;
    text.extend_from_slice(id.digits().as_slice())?;
    text.extend_from_slice(b"\",\"mode\":")?;
    text.extend_from_slice(mode)?;
    text.extend_from_slice(b",\"modifier\":\"me\",\"mtime\":7,\"name\":\"")?;
    text.extend_from_slice(name.as_bytes())?;
    text.extend_from_slice(b"\",\"size\":")?;
    text.extend_from_slice(size)?;
    text.extend_from_slice(b"}")
}

/// What the text of a directory begins with, and what it ends with.
const BEGINNING: &[u8] = b"{\"dirents\":[";

const ENDING: &[u8] = b"],\"type\":3,\"version\":1}";

/// Puts the files of a directory with these letters as names, each of one block of its letter, but the first one of this letter;
/// and appends the directory's text.
fn push_files<S: Shelf>(
    alloc: Global,
    depot: &mut Depot<S>,
    text: &mut Vec<u8>,
    names: &[&str],
    first: &str,
) -> Result<(), AllocError> {
    text.extend_from_slice(BEGINNING)?;
    let mut between = b"".as_slice();
    for name in names {
        let letter = if between.is_empty() { first } else { *name };
        let file = put_file(alloc, depot, letter)?;
        push_entry(text, between, *name, b"33188", b"1", &file)?;
        between = b",";
    }
    text.extend_from_slice(ENDING)
}

/// Puts that directory, and its files.
fn put_root<S: Shelf>(
    alloc: Global,
    depot: &mut Depot<S>,
    names: &[&str],
    first: &str,
) -> Result<ObjId, AllocError> {
    let mut text = Vec::new(alloc);
    match push_files(alloc, depot, &mut text, names, first) {
        Ok(()) => put(depot, Kind::Fs, text),
        Err(why) => {
            drop(text);
            Err(why)
        }
    }
}

/// Puts a directory of each of these names, with one file of that name in each, and appends the text of the directory that has
/// them all.
fn push_directories<S: Shelf>(
    alloc: Global,
    depot: &mut Depot<S>,
    text: &mut Vec<u8>,
    names: &[&str],
    first: &str,
) -> Result<(), AllocError> {
    text.extend_from_slice(BEGINNING)?;
    let mut between = b"".as_slice();
    for name in names {
        let letter = if between.is_empty() { first } else { *name };
        let directory = put_root(alloc, depot, &[*name], letter)?;
        push_entry(text, between, *name, b"16384", b"0", &directory)?;
        between = b",";
    }
    text.extend_from_slice(ENDING)
}

/// Puts that directory, and its directories.
fn put_directories<S: Shelf>(
    alloc: Global,
    depot: &mut Depot<S>,
    names: &[&str],
    first: &str,
) -> Result<ObjId, AllocError> {
    let mut text = Vec::new(alloc);
    match push_directories(alloc, depot, &mut text, names, first) {
        Ok(()) => put(depot, Kind::Fs, text),
        Err(why) => {
            drop(text);
            Err(why)
        }
    }
}

/// The text of a commit of this name, parent and root.
fn commit_text(
    alloc: Global,
    id: &ObjId,
    parent: &ObjId,
    root: &ObjId,
) -> Result<Vec<u8>, AllocError> {
    let id = id.digits();
    let parent = parent.digits();
    let root = root.digits();
    let mut text = Vec::new(alloc);
    push_all(
        &mut text,
        &[
            b"{\"commit_id\":\"",
            id.as_slice(),
            b"\",\"ctime\":1,\"parent_id\":\"",
            parent.as_slice(),
            b"\",\"repo_id\":\"11111111-2222-4333-8444-555555555555\",\"root_id\":\"",
            root.as_slice(),
            b"\"}",
        ],
    )?;
    Ok(text)
}

/// Puts a commit of forty digits of this byte, with this root, on a parent.
fn put_commit_of<S: Shelf>(
    alloc: Global,
    depot: &mut Depot<S>,
    byte: u8,
    parent: &ObjId,
    root: &ObjId,
) -> Result<ObjId, AllocError> {
    let id = ObjId::from_bytes([byte; 20]);
    let text = commit_text(alloc, &id, parent, root)?;
    let key = Key {
        kind: Kind::Commit,
        id,
    };
    put_at(depot, key, Bytes::from_vec(text))?;
    Ok(id)
}

/// The same with that directory of files as its root.
pub(crate) fn put_commit<S: Shelf>(
    alloc: Global,
    depot: &mut Depot<S>,
    byte: u8,
    parent: &ObjId,
    names: &[&str],
    first: &str,
) -> Result<ObjId, AllocError> {
    let root = put_root(alloc, depot, names, first)?;
    put_commit_of(alloc, depot, byte, parent, &root)
}

/// The same with a directory for each file.
pub(crate) fn put_deep_commit<S: Shelf>(
    alloc: Global,
    depot: &mut Depot<S>,
    byte: u8,
    parent: &ObjId,
    names: &[&str],
    first: &str,
) -> Result<ObjId, AllocError> {
    let root = put_directories(alloc, depot, names, first)?;
    put_commit_of(alloc, depot, byte, parent, &root)
}

/// Whether an update of the commit makes this the head.
pub(crate) fn is_updated<S: Shelf>(depot: &mut Depot<S>, commit: &ObjId) -> bool {
    match asked(depot, Act::Update(*commit)) {
        Said::Updated(head) => head == *commit,
        _ => false,
    }
}

/// Puts that commit, and updates to it.
pub(crate) fn update_to(
    alloc: Global,
    depot: &mut Kept,
    byte: u8,
    parent: &ObjId,
    names: &[&str],
    first: &str,
) -> Result<ObjId, AllocError> {
    let commit = put_commit(alloc, depot, byte, parent, names, first)?;
    if is_updated(depot, &commit) {
        Ok(commit)
    } else {
        Err(AllocError)
    }
}

/// The name of the one file of a small library.
pub(crate) const ONE: &[&str] = &["a"];

/// Updates a library three times, each time to another file, and keeps no days of history.
fn update_thrice(alloc: Global, depot: &mut Kept) -> Result<(), AllocError> {
    let first = depot.head();
    let one = update_to(alloc, depot, 0x11, &first, ONE, "1")?;
    let two = update_to(alloc, depot, 0x22, &one, ONE, "2")?;
    update_to(alloc, depot, 0x33, &two, ONE, "3")?;
    match asked(depot, Act::Limit(0)) {
        Said::Limited => Ok(()),
        _ => Err(AllocError),
    }
}

/// The library after three updates, each of which replaced one file, over a shelf whose calls of these numbers fail; no days of
/// history are kept. Where one of those calls makes the library, there is none.
pub(crate) fn updated_thrice(alloc: Global, fails: &[u64]) -> Result<Kept, AllocError> {
    let mut depot = library_on(alloc, fails)?;
    match update_thrice(alloc, &mut depot) {
        Ok(()) => Ok(depot),
        Err(why) => {
            drop(depot);
            Err(why)
        }
    }
}

/// The key of the block of this text.
fn block_key(text: &str) -> Key {
    Key {
        kind: Kind::Block,
        id: ObjId::of(text.as_bytes()),
    }
}

/// Whether the block of this text is given.
pub(crate) fn has_block(depot: &mut Kept, text: &str) -> bool {
    match asked(depot, Act::Get(block_key(text))) {
        Said::Got(id) => id == ObjId::of(text.as_bytes()),
        _ => false,
    }
}

/// Whether the block of this text is told to be there.
pub(crate) fn is_present(alloc: Global, depot: &mut Kept, text: &str) -> Result<bool, AllocError> {
    let ids = IdList::copy(alloc, &[ObjId::of(text.as_bytes())])?;
    match asked(depot, Act::Missing(Kind::Block, ids)) {
        Said::Absent(count) => Ok(count == 0),
        _ => Ok(false),
    }
}
