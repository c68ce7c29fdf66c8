//! The limits of a traversal that no update makes, and the bytes of a file; each public call once with ample memory.
use ids::{Bytes, Items, Key, Kind, ObjId};
use object_store::{MemoryShelf, Shelf, Store};
use std::alloc::{AllocError, Global};
use std::test::Fail;
use tree_walk::{Known, WalkFault, extent_at, file_bytes, laws, needs, tree};

type Shelved = Store<MemoryShelf>;

/// The text of a commit named by forty `c`, around the id of its root.
const COMMIT_HEAD: &str =
    "{\"commit_id\":\"cccccccccccccccccccccccccccccccccccccccc\",\"ctime\":0,\"repo_id\":\"11111111-1111-1111-1111-111111111111\",\"root_id\":\"";

const COMMIT_TAIL: &str = "\"}";

/// A directory around the id of its one entry, the directory `a`.
const LEVEL_HEAD: &str = "{\"dirents\":[{\"id\":\"";

const LEVEL_TAIL: &str =
    "\",\"mode\":16384,\"modifier\":\"me\",\"mtime\":7,\"name\":\"a\",\"size\":0}],\"type\":3,\"version\":1}";

/// What stands between the ids of two directories, `a` and `b`, and behind the second.
const TWICE_MIDDLE: &str =
    "\",\"mode\":16384,\"modifier\":\"me\",\"mtime\":7,\"name\":\"a\",\"size\":0},{\"id\":\"";

const TWICE_TAIL: &str =
    "\",\"mode\":16384,\"modifier\":\"me\",\"mtime\":7,\"name\":\"b\",\"size\":0}],\"type\":3,\"version\":1}";

/// The file of the blocks `ab` and `c`.
const CUT: &str =
    "{\"block_ids\":[\"da23614e02469a0d7c7bd1bdab5c9c474b1904dc\",\"84a516841ba77a5b4648de2cd0dfcb30ea46dbb4\"],\"size\":3,\"type\":1,\"version\":1}";

/// An empty store.
pub(crate) fn empty(alloc: Global) -> Result<Shelved, Fail> {
    match Store::start(alloc, MemoryShelf::new(alloc, Items::new(alloc))) {
        Ok(store) => Ok(store),
        Err(refused) => {
            drop(refused);
            Err(Fail::from("start"))
        }
    }
}

/// Puts an object under a name, and gives it.
pub(crate) fn put_as(
    store: &mut Shelved,
    kind: Kind,
    id: ObjId,
    text: &str,
) -> Result<ObjId, Fail> {
    let id = &id;
    match store.put(Key { kind, id: *id }, text.as_bytes()) {
        Ok(_) => Ok(*id),
        Err(_) => Err(Fail::from("put")),
    }
}

/// Puts an object under the name of its text.
pub(crate) fn put(store: &mut Shelved, kind: Kind, text: &str) -> Result<ObjId, Fail> {
    put_as(store, kind, ObjId::of(text.as_bytes()), text)
}

fn push_id(text: &mut String, id: &ObjId) -> Result<(), AllocError> {
    for digit in id.digits() {
        text.push(digit as char)?;
    }
    Ok(())
}

/// The text around an id.
fn around(alloc: Global, head: &str, id: &ObjId, tail: &str) -> Result<String, AllocError> {
    let mut text = String::from_str(alloc, head)?;
    push_id(&mut text, id)?;
    text.push_str(tail)?;
    Ok(text)
}

/// Puts the directory of this text around an id, and gives its own.
fn put_directory(
    alloc: Global,
    store: &mut Shelved,
    head: &str,
    below: &ObjId,
    tail: &str,
) -> Result<ObjId, Fail> {
    let text = around(alloc, head, below, tail)?;
    put(store, Kind::Fs, text.as_str())
}

/// Puts a directory that names this one as `a` and as `b`.
fn put_twice(alloc: Global, store: &mut Shelved, below: &ObjId) -> Result<ObjId, Fail> {
    let head = around(alloc, LEVEL_HEAD, below, TWICE_MIDDLE)?;
    put_directory(alloc, store, head.as_str(), below, TWICE_TAIL)
}

/// Puts the commit of a root, and gives its name.
fn put_commit(alloc: Global, store: &mut Shelved, root: &ObjId) -> Result<ObjId, Fail> {
    let text = around(alloc, COMMIT_HEAD, root, COMMIT_TAIL)?;
    put_as(
        store,
        Kind::Commit,
        ObjId::from_bytes([0xcc; 20]),
        text.as_str(),
    )
}

/// How many keys the commit of a root needs; 0 where a path is too deep.
fn needed(alloc: Global, store: &mut Shelved, root: &ObjId) -> Result<usize, Fail> {
    let commit = put_commit(alloc, store, root)?;
    match needs(alloc, store, commit) {
        Ok(keys) => {
            let count = keys.len();
            drop(keys);
            Ok(count)
        }
        Err(WalkFault::TooDeep(_)) => Ok(0),
        Err(_) => Err(Fail::from("needs")),
    }
}

/// The same for a chain of so many directories that is put.
fn needed_in_chain(alloc: Global, store: &mut Shelved, names: u64) -> Result<usize, Fail> {
    let mut below = ObjId::NIL;
    for _ in 0..names {
        below = put_directory(alloc, store, LEVEL_HEAD, &below, LEVEL_TAIL)?;
    }
    needed(alloc, store, &below)
}

/// The same for a chain of directories whose longest path has so many names.
fn needed_by_chain(alloc: Global, names: u64) -> Result<usize, Fail> {
    let mut store = empty(alloc)?;
    let count = needed_in_chain(alloc, &mut store, names);
    drop(store);
    count
}

#[test]
fn a_path_of_a_hundred_names_is_complete_and_one_of_a_name_more_is_too_deep(
    rt: HostRuntime,
) -> Result<(), Fail> {
    assert!(rt; needed_by_chain(rt.alloc(), 100)? == 101);
    assert!(rt; needed_by_chain(rt.alloc(), 101)? == 0);
    Ok(())
}

/// Puts so many levels that name the next twice, and gives the root.
fn put_levels(alloc: Global, store: &mut Shelved, levels: u64) -> Result<ObjId, Fail> {
    let mut root = ObjId::NIL;
    for _ in 0..levels {
        root = put_twice(alloc, store, &root)?;
    }
    Ok(root)
}

/// Puts them, and tells how many keys are needed.
fn needed_in_levels(alloc: Global, store: &mut Shelved, levels: u64) -> Result<usize, Fail> {
    let root = put_levels(alloc, store, levels)?;
    needed(alloc, store, &root)
}

/// How many keys are needed by so many such levels.
fn needed_by_levels(alloc: Global, levels: u64) -> Result<usize, Fail> {
    let mut store = empty(alloc)?;
    let count = needed_in_levels(alloc, &mut store, levels);
    drop(store);
    count
}

/// Puts them, and tells how many paths they have.
fn paths_in_levels(alloc: Global, store: &mut Shelved, levels: u64) -> Result<usize, Fail> {
    let root = put_levels(alloc, store, levels)?;
    match tree(alloc, store, root) {
        Ok(entries) => {
            let count = entries.len();
            drop(entries);
            Ok(count)
        }
        Err(_) => Err(Fail::from("tree")),
    }
}

/// How many paths they have.
fn paths_of_levels(alloc: Global, levels: u64) -> Result<usize, Fail> {
    let mut store = empty(alloc)?;
    let count = paths_in_levels(alloc, &mut store, levels);
    drop(store);
    count
}

#[test]
fn twelve_levels_that_name_the_next_twice_have_8190_paths(rt: HostRuntime) -> Result<(), Fail> {
    assert!(rt; paths_of_levels(rt.alloc(), 12)? == 8190);
    Ok(())
}

// A walk of each path would read half a million directories.
#[test]
fn levels_that_name_the_next_twice_need_each_object_once(rt: HostRuntime) -> Result<(), Fail> {
    for (levels, keys) in [(12, 13), (18, 19)] {
        assert!(rt; needed_by_levels(rt.alloc(), levels)? == keys);
    }
    Ok(())
}

/// Puts the blocks `ab` and `c`.
fn put_blocks(store: &mut Shelved) -> Result<(), Fail> {
    for text in ["ab", "c"] {
        let _ = put(store, Kind::Block, text)?;
    }
    Ok(())
}

fn is_given(told: &Result<Bytes, WalkFault>, wanted: &[u8]) -> bool {
    match told {
        Ok(bytes) => bytes.slice() == wanted,
        Err(_) => false,
    }
}

/// Whether the file of both is told as `abc`.
fn is_joined(alloc: Global, store: &mut Shelved) -> Result<bool, Fail> {
    put_blocks(store)?;
    let cut = put(store, Kind::Fs, CUT)?;
    let told = file_bytes(alloc, store, cut);
    let joined = is_given(&told, b"abc");
    drop(told);
    Ok(joined)
}

/// The same in a new store.
fn is_joined_in_one(alloc: Global) -> Result<bool, Fail> {
    let mut store = empty(alloc)?;
    let joined = is_joined(alloc, &mut store);
    drop(store);
    joined
}

#[test]
fn the_bytes_of_a_file_are_those_of_its_blocks_in_order(rt: HostRuntime) -> Result<(), Fail> {
    assert!(rt; is_joined_in_one(rt.alloc())?);
    Ok(())
}

/// Whether a root is found whole in one store and, once that is forgotten, not in the other.
fn is_read_again<S: Shelf>(
    alloc: Global,
    full: &mut Store<S>,
    other: &mut Store<S>,
    root: ObjId,
) -> bool {
    laws::what_is_known_is_right_at_first();
    let mut known = Known::new(alloc);
    let is_found = extent_at(alloc, full, &mut known, root).is_ok();
    known.forget();
    let is_lost = extent_at(alloc, other, &mut known, root).is_err();
    drop(known);
    is_found && is_lost
}

/// The same of a directory that is put into the one.
fn is_forgotten_by(alloc: Global, full: &mut Shelved, other: &mut Shelved) -> Result<bool, Fail> {
    let root = put_directory(alloc, full, LEVEL_HEAD, &ObjId::NIL, LEVEL_TAIL)?;
    Ok(is_read_again(alloc, full, other, root))
}

/// The same of two new stores.
fn is_forgotten(alloc: Global) -> Result<bool, Fail> {
    let mut full = empty(alloc)?;
    match empty(alloc) {
        Ok(other) => {
            let mut other = other;
            let forgotten = is_forgotten_by(alloc, &mut full, &mut other);
            drop(other);
            drop(full);
            forgotten
        }
        Err(why) => {
            drop(full);
            Err(why)
        }
    }
}

#[test]
fn what_is_forgotten_is_read_again(rt: HostRuntime) -> Result<(), Fail> {
    assert!(rt; is_forgotten(rt.alloc())?);
    Ok(())
}
