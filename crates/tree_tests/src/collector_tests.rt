//! A collection of a small store, turn by turn, and what one tree needs beside another.
ghost use Rattle.std.specs.Prelude.{IfOk};
ghost use Rattle.collector.specs.StoredCandidates.{AreStoredIn};

use collector::{Marks, Phase, unshared};
use ids::{Bytes, IdList, Items, Key, KeyList, KeyTable, Kind, ObjId};
use object_store::{MemoryShelf, Store, StoreFault};
use std::alloc::{AllocError, Global};
use std::test::Fail;
use tree_walk::WalkFault;

type Shelved = Store<MemoryShelf>;

/// The text of a commit named by forty `c`, around the id of its root.
const COMMIT_HEAD: &str =
    "{\"commit_id\":\"cccccccccccccccccccccccccccccccccccccccc\",\"ctime\":0,\"repo_id\":\"11111111-1111-1111-1111-111111111111\",\"root_id\":\"";

const COMMIT_TAIL: &str = "\"}";

/// The file of the block `abc`.
const FILE: &str =
    "{\"block_ids\":[\"a9993e364706816aba3e25717850c26c9cd0d89d\"],\"size\":3,\"type\":1,\"version\":1}";

/// A directory around the id of its one entry, the file `a`.
const DIRECTORY_HEAD: &str = "{\"dirents\":[{\"id\":\"";

const DIRECTORY_TAIL: &str =
    "\",\"mode\":33188,\"modifier\":\"me\",\"mtime\":7,\"name\":\"a\",\"size\":3}],\"type\":3,\"version\":1}";

/// What stands behind the id of the directory `d`, before that of the directory `e`, and behind it.
const PAIR_MIDDLE: &str =
    "\",\"mode\":16384,\"modifier\":\"\",\"mtime\":7,\"name\":\"d\",\"size\":0},{\"id\":\"";

const PAIR_TAIL: &str =
    "\",\"mode\":16384,\"modifier\":\"\",\"mtime\":7,\"name\":\"e\",\"size\":0}],\"type\":3,\"version\":1}";

/// An empty store, whose shelf fails at the calls of these numbers.
fn store_that_fails(alloc: Global, fails: Items<u64>) -> Result<Shelved, Fail> {
    match Store::start(alloc, MemoryShelf::new(alloc, fails)) {
        Ok(store) => Ok(store),
        Err(refused) => {
            drop(refused);
            Err(Fail::from("start"))
        }
    }
}

/// Puts an object of this text, and gives its name.
fn put(store: &mut Shelved, kind: Kind, text: &str) -> Result<ObjId, Fail> {
    let id = ObjId::of(text.as_bytes());
    let id = &id;
    match store.put(Key { kind, id: *id }, text.as_bytes()) {
        Ok(_) => Ok(*id),
        Err(_) => Err(Fail::from("put")),
    }
}

fn push_id(text: &mut String, id: &ObjId) -> Result<(), AllocError> {
    for digit in id.digits() {
        text.push(digit as char)?;
    }
    Ok(())
}

/// The text around an id.
fn around(alloc: Global, head: &str, id: &ObjId, tail: &str) -> Result<String, AllocError> {
    let mut text = String::from_str(alloc, head)?;
    push_id(&mut text, id)?;
    text.push_str(tail)?;
    Ok(text)
}

/// Puts the commit of a root, and gives its name.
fn put_commit(alloc: Global, store: &mut Shelved, root: &ObjId) -> Result<ObjId, Fail> {
    let text = around(alloc, COMMIT_HEAD, root, COMMIT_TAIL)?;
    let id = ObjId::from_bytes([0xcc; 20]);
    let id = &id;
    let key = Key {
        kind: Kind::Commit,
        id: *id,
    };
    match store.put(key, text.as_bytes()) {
        Ok(_) => Ok(*id),
        Err(_) => Err(Fail::from("commit")),
    }
}

/// Puts the directory of one file, whose id is told.
fn put_directory(alloc: Global, store: &mut Shelved, file: &ObjId) -> Result<ObjId, Fail> {
    let text = around(alloc, DIRECTORY_HEAD, file, DIRECTORY_TAIL)?;
    put(store, Kind::Fs, text.as_str())
}

/// Puts a commit of one file of the block `abc`, which is put or not, and the blocks `ab` and `c` beside it.
fn fill(alloc: Global, store: &mut Shelved, with_block: bool) -> Result<(), Fail> {
    for text in ["ab", "c"] {
        let _ = put(store, Kind::Block, text)?;
    }
    if with_block {
        let _ = put(store, Kind::Block, "abc")?;
    }
    let file = put(store, Kind::Fs, FILE)?;
    let root = put_directory(alloc, store, &file)?;
    let _ = put_commit(alloc, store, &root)?;
    Ok(())
}

/// A store of them.
fn small(alloc: Global, with_block: bool, fails: Items<u64>) -> Result<Shelved, Fail> {
    let mut store = store_that_fails(alloc, fails)?;
    match fill(alloc, &mut store, with_block) {
        Ok(()) => Ok(store),
        Err(why) => {
            drop(store);
            Err(why)
        }
    }
}

/// The marks of a collection of it that begins.
fn begun(alloc: Global, store: &Shelved) -> Result<Marks, AllocError>
    ensures stored { IfOk result (AreStoredIn store.now.index) }
{
    let mut kept = IdList::new(alloc);
    kept.push(ObjId::from_bytes([0xcc; 20]))?;
    Marks::begin(alloc, store, &kept)
}

/// Such a store, and the marks of a collection of it that begins.
fn small_begun(alloc: Global, with_block: bool, fails: Items<u64>) -> Result<(Shelved, Marks), Fail>
    ensures stored { IfOk result (λ t. AreStoredIn t.0.index t.1) }
{
    let store = small(alloc, with_block, fails)?;
    match begun(alloc, &store) {
        Ok(marks) => Ok((store, marks)),
        Err(why) => {
            drop(store);
            Err(Fail::from(why))
        }
    }
}

/// How many turns of one object a marking takes; none where it is refused, or isn't over after a hundred.
#[tactic(auto, using(crate::proofs::StoredCandidatesLemmas::marked_stored))]
fn marked(store: &mut Shelved, marks: &mut Marks) -> Option<u64>
    requires stored { AreStoredIn store.old.index marks.old }
    ensures stored { AreStoredIn store.new.index marks.new }
{
    for turns in 0..100 {
        if marks.phase() != Phase::Marking {
            return Some(turns);
        }
        match marks.mark(store, 1) {
            Ok(1) => {}
            Ok(_) => return None,
            Err(_) => return None,
        }
    }
    None
}

/// How many turns of one object a sweep takes, and none where it isn't over then.
#[tactic(auto, using(crate::proofs::StoredCandidatesLemmas::taken_stored))]
fn swept(store: &mut Shelved, marks: &mut Marks) -> Option<u64>
    requires stored { AreStoredIn store.old.index marks.old }
{
    for turns in 0..100 {
        if marks.phase() == Phase::Over {
            return Some(turns);
        }
        let took = marks.sweep(store, 1);
        if took.removed.len() != 1 || took.fault.is_some() {
            return None;
        }
    }
    None
}

/// How many turns of one object a collection takes to mark, and how many to sweep, and how much of the store is left.
fn collected(alloc: Global) -> Result<(Option<u64>, Option<u64>, u64), Fail> {
    let (mut store, mut marks) = small_begun(alloc, true, Items::new(alloc))?;
    let marking = marked(&mut store, &mut marks);
    let sweeping = swept(&mut store, &mut marks);
    drop(marks);
    let count = store.count();
    drop(store);
    Ok((marking, sweeping, count))
}

#[test]
fn a_collection_marks_what_is_needed_and_takes_the_rest(rt: HostRuntime) -> Result<(), Fail> {
    let (marking, sweeping, count) = collected(rt.alloc())?;
    assert!(rt; marking == Some(4));
    assert!(rt; sweeping == Some(2));
    assert!(rt; count == 4);
    Ok(())
}

/// The key of the block of this text.
fn block(text: &str) -> Key {
    Key {
        kind: Kind::Block,
        id: ObjId::of(text.as_bytes()),
    }
}

/// How much of the store is left of a collection in which these keys were shielded before it was marked.
fn left_beside(alloc: Global, keys: &KeyList) -> Result<u64, Fail> {
    let (mut store, mut marks) = small_begun(alloc, true, Items::new(alloc))?;
    marks.shield(keys);
    let _ = marked(&mut store, &mut marks);
    let _ = swept(&mut store, &mut marks);
    drop(marks);
    let count = store.count();
    drop(store);
    Ok(count)
}

/// The same of the key of the block of this text.
fn left_with(alloc: Global, text: &str) -> Result<u64, Fail> {
    let keys = KeyList::copy(alloc, &[block(text)])?;
    let left = left_beside(alloc, &keys);
    drop(keys);
    left
}

#[test]
fn what_is_shielded_stays(rt: HostRuntime) -> Result<(), Fail> {
    assert!(rt; left_with(rt.alloc(), "ab")? == 5);
    assert!(rt; left_with(rt.alloc(), "abc")? == 4);
    Ok(())
}

/// Whether a marking ended as the block `abc` isn't there.
fn is_incomplete(told: Result<u64, WalkFault>) -> bool {
    match told {
        Ok(_) => false,
        Err(fault) => fault == WalkFault::Incomplete(block("abc")),
    }
}

/// Whether the marking of a file without its block ends with that, and goes on marking.
fn lacks_its_block(alloc: Global) -> Result<bool, Fail> {
    let (mut store, mut marks) = small_begun(alloc, false, Items::new(alloc))?;
    let told = marks.mark(&mut store, 1000);
    let goes_on = marks.phase() == Phase::Marking;
    drop(marks);
    drop(store);
    Ok(is_incomplete(told) && goes_on)
}

#[test]
fn a_missing_block_ends_the_marking(rt: HostRuntime) -> Result<(), Fail> {
    assert!(rt; lacks_its_block(rt.alloc())?);
    Ok(())
}

/// What a collection comes to whose sweep of at most a thousand objects ended.
#[derive(Clone, Copy)]
struct Ended {
    /// How many turns its marking took.
    marking: Option<u64>,
    removed: usize,
    fault: Option<StoreFault>,
    phase: Phase,
}

/// The same of a store whose shelf fails at the fourteenth call.
fn ended_at_a_removal(alloc: Global) -> Result<Ended, Fail> {
    let (mut store, mut marks) = small_begun(alloc, true, Items::copy(alloc, &[13])?)?;
    let marking = marked(&mut store, &mut marks);
    let took = marks.sweep(&mut store, 1000);
    let phase = marks.phase();
    drop(marks);
    drop(store);
    let removed = took.removed.len();
    let fault = took.fault;
    drop(took);
    Ok(Ended {
        marking,
        removed,
        fault,
        phase,
    })
}

// A start asks the shelf three times, six objects are put, and three of four are read; the fourteenth call is the second
// removal.
#[test]
fn a_removal_that_fails_is_told_and_ends_the_sweep(rt: HostRuntime) -> Result<(), Fail> {
    let ended = ended_at_a_removal(rt.alloc())?;
    assert!(rt; ended.marking == Some(4));
    assert!(rt; ended.removed == 2);
    assert!(rt; ended.fault == Some(StoreFault::Shelf));
    assert!(rt; ended.phase == Phase::Over);
    Ok(())
}

/// Puts a directory of the directories `d` and `e`.
fn put_pair(alloc: Global, store: &mut Shelved, d: &ObjId, e: &ObjId) -> Result<ObjId, Fail> {
    let head = around(alloc, DIRECTORY_HEAD, d, PAIR_MIDDLE)?;
    let text = around(alloc, head.as_str(), e, PAIR_TAIL)?;
    put(store, Kind::Fs, text.as_str())
}

/// Puts two trees of two directories that differ in one file.
fn put_two(alloc: Global, store: &mut Shelved) -> Result<(ObjId, ObjId), Fail> {
    let file = put(store, Kind::Fs, FILE)?;
    let one = put_directory(alloc, store, &file)?;
    let other = put_directory(alloc, store, &ObjId::NIL)?;
    let old = put_pair(alloc, store, &one, &other)?;
    let new = put_pair(alloc, store, &one, &one)?;
    Ok((old, new))
}

/// How many keys the second needs beside the first.
fn needed_beside(alloc: Global, store: &mut Shelved) -> Result<usize, Fail> {
    let (old, new) = put_two(alloc, store)?;
    let made: KeyTable<Bytes> = KeyTable::new(alloc);
    let told = unshared(alloc, store, &made, old, new);
    drop(made);
    match told {
        Ok(keys) => {
            let count = keys.len();
            drop(keys);
            Ok(count)
        }
        Err(_) => Err(Fail::from("unshared")),
    }
}

/// How many keys a tree needs beside one that differs from it in one file of two directories.
fn beside(alloc: Global) -> Result<usize, Fail> {
    let mut store = small(alloc, true, Items::new(alloc))?;
    let count = needed_beside(alloc, &mut store);
    drop(store);
    count
}

#[test]
fn a_tree_beside_another_needs_what_differs(rt: HostRuntime) -> Result<(), Fail> {
    assert!(rt; beside(rt.alloc())? == 1);
    Ok(())
}
