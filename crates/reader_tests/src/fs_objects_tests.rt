//! Outside vectors, and each call once with ample memory.
use fs_objects::FsObject;
use ids::ObjId;
use json_words::ReadFault;
use std::alloc::{AllocError, Global};
use std::test::Fail;

const FILE: &[u8] =
    b"{\"block_ids\":[\"a9993e364706816aba3e25717850c26c9cd0d89d\"],\"size\":3,\"type\":1,\"version\":1}";

const DIRECTORY: &[u8] =
    b"{\"dirents\":[{\"id\":\"0000000000000000000000000000000000000000\",\"mode\":16384,\"mtime\":5,\"name\":\"b\"},{\"id\":\"0000000000000000000000000000000000000000\",\"mode\":33188,\"modifier\":\"me\",\"mtime\":5,\"name\":\"a\",\"size\":0}],\"type\":3,\"version\":1}";

/// Whether a text is refused with this fault, as it is printed.
fn is_refused(alloc: Global, text: &str, wanted: &str) -> Result<bool, AllocError> {
    match FsObject::read(alloc, text.as_bytes()) {
        Err(ReadFault::Bad(bad)) => {
            Ok(format!(in alloc; "{bad:?}")?.as_bytes() == wanted.as_bytes())
        }
        _ => Ok(false),
    }
}

// Hand-written texts; each is wrong at one place, or the earlier place counts.
const REFUSED: &[(&str, &str)] = &[
    ("[]", "NotJson"),
    ("{}", "Missing(KType)"),
    ("{\"type\":2,\"version\":1}", "WrongType(KType)"),
    ("{\"type\":1,\"version\":2}", "BadVersion(2)"),
    (
        "{\"type\":1,\"version\":1,\"size\":-1}",
        "Missing(KBlockIds)",
    ),
    (
        "{\"type\":1,\"version\":1,\"block_ids\":[\"0000000000000000000000000000000000000000\"],\"size\":1}",
        "WrongType(KBlockIds)",
    ),
    (
        "{\"type\":3,\"version\":1,\"dirents\":[1,{}]}",
        "WrongType(KDirents)",
    ),
    (
        "{\"type\":3,\"version\":1,\"dirents\":[{\"id\":\"0000000000000000000000000000000000000000\",\"mode\":40960}]}",
        "WrongType(KMode)",
    ),
    (
        "{\"type\":3,\"version\":1,\"dirents\":[{\"id\":\"0000000000000000000000000000000000000000\",\"mode\":33188,\"mtime\":0,\"name\":\"..\"}]}",
        "BadName(0)",
    ),
    (
        "{\"type\":3,\"version\":1,\"dirents\":[{\"id\":\"0000000000000000000000000000000000000000\",\"mode\":16384,\"mtime\":0,\"name\":\"a\"},{\"id\":\"0000000000000000000000000000000000000000\",\"mode\":33188,\"mtime\":0,\"name\":\"a\"}]}",
        "Twice(1)",
    ),
];

/// Whether each is refused so.
fn are_refused(alloc: Global) -> Result<bool, AllocError> {
    for place in 0..REFUSED.len() {
        let (text, wanted) = REFUSED[place];
        if !is_refused(alloc, text, wanted)? {
            return Ok(false);
        }
    }
    Ok(true)
}

#[test]
fn the_first_failing_check_of_an_object_is_answered(rt: HostRuntime) -> Result<(), AllocError> {
    assert!(rt; are_refused(rt.alloc())?);
    Ok(())
}

fn is_file_of_abc(object: &FsObject) -> bool {
    match object {
        FsObject::File(file) => {
            file.size == 3 && file.blocks.slice() == [ObjId::of(b"abc")].as_slice()
        }
        FsObject::Dir(_) => false,
    }
}

/// Whether a text is read as an object that is written as the other.
fn is_written(alloc: Global, text: &[u8], wanted: &[u8]) -> Result<bool, Fail> {
    let object = FsObject::read(alloc, text)?;
    let written = object.write(alloc);
    drop(object);
    let written = written?;
    let is_wanted = written.slice() == wanted;
    drop(written);
    Ok(is_wanted)
}

/// Whether a text is read as the file of `abc`.
fn reads_file(alloc: Global, text: &[u8]) -> Result<bool, Fail> {
    let object = FsObject::read(alloc, text)?;
    let is_file = is_file_of_abc(&object);
    drop(object);
    Ok(is_file)
}

#[test]
fn a_file_object_of_one_block_has_88_bytes(rt: HostRuntime) -> Result<(), Fail> {
    assert!(rt; FILE.len() == 88);
    assert!(rt; is_written(rt.alloc(), FILE, FILE)?);
    assert!(rt; reads_file(rt.alloc(), FILE)?);
    Ok(())
}

// A text as stock clients write it, with blanks and a further key, and with the entries the other way round.
const STOCK: &[u8] =
    b"{\"dirents\": [{\"id\": \"0000000000000000000000000000000000000000\", \"mode\": 33188, \"modifier\": \"me\", \"mtime\": 5, \"name\": \"a\", \"size\": 0}, {\"id\": \"0000000000000000000000000000000000000000\", \"mode\": 16384, \"modifier\": \"me\", \"mtime\": 5, \"name\": \"b\", \"size\": 7}], \"type\": 3, \"version\": 1, \"more\": null}";

#[test]
fn entries_are_written_in_descending_order(rt: HostRuntime) -> Result<(), Fail> {
    assert!(rt; is_written(rt.alloc(), STOCK, DIRECTORY)?);
    assert!(rt; is_written(rt.alloc(), DIRECTORY, DIRECTORY)?);
    Ok(())
}
