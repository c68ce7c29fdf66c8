//! Directory objects whose ids are those of texts written by hand, and the conflict copies of a merge; with ample memory.
ghost use Rattle.std.specs.Prelude.{◌≡◌, IfOk, Some};
ghost use Rattle.ids.specs.Key.{Objects};
ghost use Rattle.object_graph.specs.Traversal.{IsCompleteRoot};
ghost use Rattle.object_store.specs.StoreView.{objects_of};

use crate::tree_walk_tests::{empty, put, put_as};
use ids::{Kind, ObjId, Text};
use object_graph::Entry;
use object_store::{MemoryShelf, Shelf, Store};
use std::alloc::{AllocError, Global};
use std::test::Fail;
use tree_merge::{BuildFault, BuiltTree, MergeFault, Merged, build, merge};
use tree_model::{Name, NameFault, Path, PathTable};
use tree_walk::{Known, commit_at, laws, needs};

fn path(alloc: Global, names: &[&str]) -> Result<Path, NameFault> {
    let mut path = Path::root(alloc);
    for name in names {
        let name = Name::read(alloc, name)?;
        path = path.child(alloc, &name)?;
    }
    Ok(path)
}

/// An empty file by me.
fn file(alloc: Global) -> Result<Entry, AllocError> {
    Ok(Entry::File {
        id: ObjId::NIL,
        mode: 0o100644,
        mtime: 5,
        modifier: Text::copy(alloc, "me")?,
        size: 0,
    })
}

/// Adds such an entry at a path.
fn add(
    alloc: Global,
    entries: &mut PathTable<Entry>,
    names: &[&str],
    entry: Entry,
) -> Result<(), NameFault> {
    match path(alloc, names) {
        Ok(path) => {
            entries.insert(path, entry)?;
            Ok(())
        }
        Err(why) => {
            drop(entry);
            Err(why)
        }
    }
}

/// Adds the directory d with an empty file a by me and an empty directory b.
fn add_directory(alloc: Global, entries: &mut PathTable<Entry>) -> Result<(), NameFault> {
    add(alloc, entries, &["d"], Entry::Dir)?;
    add(alloc, entries, &["d", "b"], Entry::Dir)?;
    add(alloc, entries, &["d", "a"], file(alloc)?)
}

/// The entries of it.
fn directory(alloc: Global) -> Result<PathTable<Entry>, NameFault> {
    let mut entries = PathTable::new(alloc);
    match add_directory(alloc, &mut entries) {
        Ok(()) => Ok(entries),
        Err(why) => {
            drop(entries);
            Err(why)
        }
    }
}

/// Whether a tree is built to this root, with so many objects.
fn is_built(told: &Result<BuiltTree, BuildFault>, digits: &[u8], count: usize) -> bool {
    match told {
        Ok(built) => built.root.digits().as_slice() == digits && built.made.len() == count,
        Err(_) => false,
    }
}

/// The same of a tree that is built of these entries.
fn builds(alloc: Global, entries: PathTable<Entry>, digits: &[u8], count: usize) -> bool {
    let told = build(alloc, entries);
    let built = is_built(&told, digits, count);
    drop(told);
    built
}

const ROOT: &[u8] = b"12834c88128f54a3e99dbb4a14672cd61dc45c33";

const ZEROS: &[u8] = b"0000000000000000000000000000000000000000";

#[test]
fn a_tree_is_made_from_its_last_directory_up(rt: HostRuntime) -> Result<(), NameFault> {
    let alloc = rt.alloc();
    assert!(rt; builds(alloc, directory(alloc)?, ROOT, 2));
    assert!(rt; builds(alloc, PathTable::new(alloc), ZEROS, 0));
    Ok(())
}

/// The directory of an empty file f by me.
const PLAIN: &str =
    "{\"dirents\":[{\"id\":\"0000000000000000000000000000000000000000\",\"mode\":33188,\"modifier\":\"me\",\"mtime\":0,\"name\":\"f\",\"size\":0}],\"type\":3,\"version\":1}";

/// The same, where the file can be run.
const RUNNABLE: &str =
    "{\"dirents\":[{\"id\":\"0000000000000000000000000000000000000000\",\"mode\":33261,\"modifier\":\"me\",\"mtime\":0,\"name\":\"f\",\"size\":0}],\"type\":3,\"version\":1}";

/// Commits of nothing and of each of both, with the byte that each is named by.
const COMMITS: [(u8, &str); 3] = [
    (
        0xaa,
        "{\"commit_id\":\"aaaaaaaaaaaaaaaaaaaaaaaaaaaaaaaaaaaaaaaa\",\"ctime\":0,\"repo_id\":\"11111111-1111-1111-1111-111111111111\",\"root_id\":\"0000000000000000000000000000000000000000\"}",
    ),
    (
        0xbb,
        "{\"commit_id\":\"bbbbbbbbbbbbbbbbbbbbbbbbbbbbbbbbbbbbbbbb\",\"ctime\":0,\"repo_id\":\"11111111-1111-1111-1111-111111111111\",\"root_id\":\"f98b0a4b632a43bc9cab66a51b274da2ea1519b6\"}",
    ),
    (
        0xcc,
        "{\"commit_id\":\"cccccccccccccccccccccccccccccccccccccccc\",\"ctime\":0,\"repo_id\":\"11111111-1111-1111-1111-111111111111\",\"root_id\":\"5e6a31e937443a0d5c7808500035ff0585b8c314\"}",
    ),
];

/// Puts the commits and their trees.
fn put_all(store: &mut Store<MemoryShelf>) -> Result<(), Fail> {
    for text in [PLAIN, RUNNABLE] {
        let _ = put(store, Kind::Fs, text)?;
    }
    for (byte, text) in COMMITS {
        let _ = put_as(store, Kind::Commit, ObjId::from_bytes([byte; 20]), text)?;
    }
    Ok(())
}

/// The root of a commit that is complete.
fn complete_root<S: Shelf>(
    alloc: Global,
    store: &mut Store<S>,
    commit: ObjId,
) -> Result<ObjId, Fail>
    ensures value { IfOk result (λ root. (objects : Objects) → objects_of S.contents store.new ≡ Some objects → IsCompleteRoot objects root) }
    ensures stays { objects_of S.contents store.new ≡ objects_of S.contents store.old }
{
    let commit = &commit;
    let root = match commit_at(alloc, store, *commit) {
        Ok(commit) => commit.root,
        Err(_) => return Err(Fail::from("commit")),
    };
    match needs(alloc, store, *commit) {
        Ok(_) => Ok(root),
        Err(_) => Err(Fail::from("needs")),
    }
}

/// The merge of the trees of three commits, given as base, head and pushed.
fn merge_commits<S: Shelf>(
    alloc: Global,
    store: &mut Store<S>,
    base: ObjId,
    head: ObjId,
    pushed: ObjId,
) -> Result<Result<Merged, MergeFault>, Fail> {
    let base = complete_root(alloc, store, base)?;
    let head = complete_root(alloc, store, head)?;
    let pushed = complete_root(alloc, store, pushed)?;
    laws::what_is_known_is_right_at_first();
    let mut known = Known::new(alloc);
    let told = merge(alloc, store, &mut known, base, head, pushed);
    drop(known);
    Ok(told)
}

/// The merge of both trees over nothing, which are put first.
fn merge_put(
    alloc: Global,
    store: &mut Store<MemoryShelf>,
) -> Result<Result<Merged, MergeFault>, Fail> {
    put_all(store)?;
    merge_commits(
        alloc,
        store,
        ObjId::from_bytes([0xaa; 20]),
        ObjId::from_bytes([0xbb; 20]),
        ObjId::from_bytes([0xcc; 20]),
    )
}

/// The same in a new store.
fn merge_both(alloc: Global) -> Result<Result<Merged, MergeFault>, Fail> {
    let mut store = empty(alloc)?;
    let told = merge_put(alloc, &mut store);
    drop(store);
    told
}

/// Whether the one path has this one name.
fn is_at(paths: &[Path], text: &str) -> bool {
    match paths {
        [path] => has_name(path.names(), text),
        _ => false,
    }
}

fn has_name(names: &[Name], text: &str) -> bool {
    match names {
        [name] => name.as_str() == text,
        _ => false,
    }
}

/// Whether a merge has one conflict copy, of this name.
fn has_copy(told: &Result<Merged, MergeFault>, text: &str) -> bool {
    match told {
        Ok(merged) => merged.conflicts.len() == 1 && is_at(merged.conflicts.slice(), text),
        Err(_) => false,
    }
}

/// Whether the merge of both trees has one conflict copy, of this name.
fn merges_to_copy(alloc: Global, text: &str) -> Result<bool, Fail> {
    let told = merge_both(alloc)?;
    let copied = has_copy(&told, text);
    drop(told);
    Ok(copied)
}

#[test]
fn a_merge_tells_the_one_conflict_copy_by_its_path(rt: HostRuntime) -> Result<(), Fail> {
    assert!(rt; merges_to_copy(rt.alloc(), "f (SFConflict me 1970-01-01-00-00-00)")?);
    Ok(())
}
