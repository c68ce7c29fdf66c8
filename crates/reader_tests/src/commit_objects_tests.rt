//! Outside vectors, and each call once with ample memory.
use commit_objects::Commit;
use ids::ObjId;
use json_words::ReadFault;
use std::alloc::{AllocError, Global};
use std::test::Fail;

/// Whether a text is refused with this fault, as it is printed.
fn is_refused(alloc: Global, text: &str, wanted: &str) -> Result<bool, AllocError> {
    match Commit::read(alloc, text.as_bytes()) {
        Err(ReadFault::Bad(bad)) => {
            Ok(format!(in alloc; "{bad:?}")?.as_bytes() == wanted.as_bytes())
        }
        _ => Ok(false),
    }
}

// Hand-written texts; each is wrong at one place, or the earlier key counts.
const REFUSED: &[(&str, &str)] = &[
    ("7", "NotJson"),
    ("{}", "Missing(KCommitId)"),
    ("{\"commit_id\":null}", "WrongType(KCommitId)"),
    ("{\"commit_id\":\"\",\"root_id\":1}", "BadId(KCommitId)"),
    (
        "{\"commit_id\":\"0000000000000000000000000000000000000000\"}",
        "BadId(KCommitId)",
    ),
    (
        "{\"commit_id\":\"cccccccccccccccccccccccccccccccccccccccc\",\"root_id\":\"0000000000000000000000000000000000000000\",\"repo_id\":\"11111111-2222-4333-8444-55555555555A\"}",
        "BadId(KRepoId)",
    ),
    (
        "{\"commit_id\":\"cccccccccccccccccccccccccccccccccccccccc\",\"root_id\":\"0000000000000000000000000000000000000000\",\"repo_id\":\"11111111-2222-4333-8444-555555555555\",\"ctime\":1,\"conflict\":1.0}",
        "WrongType(KConflict)",
    ),
];

/// Whether each is refused so.
fn are_refused(alloc: Global) -> Result<bool, AllocError> {
    for place in 0..REFUSED.len() {
        let (text, wanted) = REFUSED[place];
        if !is_refused(alloc, text, wanted)? {
            return Ok(false);
        }
    }
    Ok(true)
}

#[test]
fn the_first_failing_check_of_a_commit_is_answered(rt: HostRuntime) -> Result<(), AllocError> {
    assert!(rt; are_refused(rt.alloc())?);
    Ok(())
}

const SHORT: &[u8] =
    b"{\"commit_id\":\"cccccccccccccccccccccccccccccccccccccccc\",\"ctime\":1,\"repo_id\":\"11111111-2222-4333-8444-555555555555\",\"root_id\":\"0000000000000000000000000000000000000000\"}";

const STOCK: &[u8] =
    b"{\"commit_id\": \"a9993e364706816aba3e25717850c26c9cd0d89d\", \"root_id\": \"0000000000000000000000000000000000000000\", \"repo_id\": \"11111111-2222-4333-8444-555555555555\", \"creator_name\": \"me@x.org\", \"creator\": \"0000000000000000000000000000000000000000\", \"description\": \"Added \\\"a.txt\\\".\", \"ctime\": 1700000000, \"parent_id\": \"2aae6c35c94fcfb415dbe95f408b9ce91ee846ed\", \"second_parent_id\": null, \"conflict\": 1, \"repo_name\": \"docs\", \"repo_desc\": \"\", \"no_local_history\": 1, \"version\": 1}";

fn is_shortest(commit: &Commit) -> bool {
    commit.ctime == 1
        && commit.root == ObjId::NIL
        && commit.parent.is_none()
        && !commit.conflict
        && commit.creator.is_empty()
}

fn is_stock(commit: &Commit) -> bool {
    commit.parent == Some(ObjId::of(b"hello world"))
        && commit.conflict
        && commit.description.slice() == "Added \"a.txt\"."
}

/// Whether a text is read as such a commit.
fn reads_shortest(alloc: Global, text: &[u8]) -> Result<bool, Fail> {
    let commit = Commit::read(alloc, text)?;
    let is_shortest = is_shortest(&commit);
    drop(commit);
    Ok(is_shortest)
}

fn reads_stock(alloc: Global, text: &[u8]) -> Result<bool, Fail> {
    let commit = Commit::read(alloc, text)?;
    let is_stock = is_stock(&commit);
    drop(commit);
    Ok(is_stock)
}

// The shortest commit, and a text as stock clients write it, with blanks and further keys.
#[test]
fn absent_and_null_keys_have_their_meaning(rt: HostRuntime) -> Result<(), Fail> {
    assert!(rt; reads_shortest(rt.alloc(), SHORT)?);
    assert!(rt; reads_stock(rt.alloc(), STOCK)?);
    Ok(())
}
