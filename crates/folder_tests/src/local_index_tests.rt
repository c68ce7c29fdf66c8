//! Index texts and what is wrong with others, differences of scans and indexes, and each call once with ample memory.
use block_chunker::Cuts;
use folder_side::{Holding, MemoryFolder, Scan, scan};
use ids::{Bytes, Items, LibId};
use json_words::ReadFault;
use local_index::*;
use std::alloc::{AllocError, Global};
use tree_model::Path;

/// The text of an empty directory `d` with an empty file `a`.
const TEXT: &str =
    "{\"base\":\"cccccccccccccccccccccccccccccccccccccccc\",\"entries\":[{\"path\":\"d\"},{\"id\":\"0000000000000000000000000000000000000000\",\"mode\":33188,\"modifier\":\"me\",\"mtime\":5,\"own\":\"0000000000000000000000000000000000000000\",\"path\":\"d/a\",\"size\":0}],\"lib\":\"11111111-2222-4333-8444-555555555555\",\"version\":1}";

/// The same text with a number for its base.
const BASE_IS_1: &str =
    "{\"base\":1,\"entries\":[{\"path\":\"d\"},{\"id\":\"0000000000000000000000000000000000000000\",\"mode\":33188,\"modifier\":\"me\",\"mtime\":5,\"own\":\"0000000000000000000000000000000000000000\",\"path\":\"d/a\",\"size\":0}],\"lib\":\"11111111-2222-4333-8444-555555555555\",\"version\":1}";

/// An index text without a base, with these entries.
fn index_text(alloc: Global, entries: &str) -> Result<String, AllocError> {
    let mut text = String::from_str(alloc, "{\"base\":null,\"entries\":[")?;
    text.push_str(entries)?;
    text.push_str("],\"lib\":\"11111111-2222-4333-8444-555555555555\",\"version\":1}")?;
    Ok(text)
}

/// The path of a text, which is that of the folder itself where it is no path.
fn path(alloc: Global, text: &str) -> Result<Path, AllocError> {
    match Path::read(alloc, text)? {
        Some(path) => Ok(path),
        None => Ok(Path::root(alloc)),
    }
}

fn add_dir(alloc: Global, folder: &mut MemoryFolder, text: &str) -> Result<bool, AllocError> {
    folder.add(path(alloc, text)?, Holding::Dir)
}

/// Adds a file with the bytes `abc`.
fn add_file(alloc: Global, folder: &mut MemoryFolder, text: &str) -> Result<bool, AllocError> {
    let path = path(alloc, text)?;
    folder.add(path, Holding::File(Items::copy(alloc, b"abc")?))
}

/// Fills a folder: paths of directories end in `/`, and all others are files with the bytes `abc`. The answer is whether
/// each has a directory to stand in.
fn fill(alloc: Global, folder: &mut MemoryFolder, paths: &[&str]) -> Result<bool, AllocError> {
    for text in paths {
        let is_added = match text.strip_suffix('/') {
            Some(dir) => add_dir(alloc, folder, dir)?,
            None => add_file(alloc, folder, text)?,
        };
        if !is_added {
            return Ok(false);
        }
    }
    Ok(true)
}

fn word(kind: ChangeKind) -> &'static str {
    match kind {
        ChangeKind::Added => " added\n",
        ChangeKind::Changed => " changed\n",
        ChangeKind::Gone => " gone\n",
    }
}

fn lines(alloc: Global, changes: &Items<Change>) -> Result<String, AllocError> {
    let mut text = String::new(alloc);
    for change in changes.slice() {
        text.push_str(change.path.text(alloc)?.slice())?;
        text.push_str(word(change.kind))?;
    }
    Ok(text)
}

/// Whether this key, as it is printed, is what was first wrong with a text; no text where nothing was.
fn is_first_wrong(
    alloc: Global,
    told: &Result<Index, IndexFault>,
    wanted: &str,
) -> Result<bool, AllocError> {
    match told {
        Err(ReadFault::Bad(key)) => Ok(format!(in alloc; "{key:?}")?.as_str() == wanted),
        Err(ReadFault::NoMemory) => Ok(false),
        Ok(_) => Ok(wanted.is_empty()),
    }
}

/// Whether this key is what is first wrong with a text.
fn is_told(alloc: Global, text: &str, wanted: &str) -> Result<bool, AllocError> {
    let told = Index::read(alloc, text.as_bytes());
    let is_wrong = is_first_wrong(alloc, &told, wanted);
    drop(told);
    is_wrong
}

/// Whether an index is written as this text.
fn is_written(alloc: Global, index: &Index, text: &[u8]) -> Result<bool, AllocError> {
    let written = index.write(alloc)?;
    let is_same = written.slice() == text;
    drop(written);
    Ok(is_same)
}

/// Whether a text has two entries and is written back as itself.
fn is_written_back(alloc: Global, text: &[u8]) -> Result<bool, AllocError> {
    match Index::read(alloc, text) {
        Ok(index) => {
            let is_same = is_written(alloc, &index, text);
            let count = index.entries.len();
            drop(index);
            Ok(is_same? && count == 2)
        }
        Err(_) => Ok(false),
    }
}

/// The text of an empty index.
fn empty_text(alloc: Global) -> Result<Bytes, AllocError> {
    let lib = LibId::from_bytes([
        17, 17, 17, 17, 34, 34, 67, 51, 132, 68, 85, 85, 85, 85, 85, 85,
    ]);
    let index = Index::empty(alloc, lib);
    let written = index.write(alloc);
    drop(index);
    written
}

/// Whether that is the text of no entries.
fn is_empty_text(alloc: Global) -> Result<bool, AllocError> {
    let text = index_text(alloc, "")?;
    Ok(empty_text(alloc)?.slice() == text.as_bytes())
}

// The text is that of docs/FORMATS.md.
#[test]
fn an_index_text_is_written_back_as_itself(rt: HostRuntime) -> Result<(), AllocError> {
    assert!(rt; is_written_back(rt.alloc(), TEXT.as_bytes())?);
    assert!(rt; is_empty_text(rt.alloc())?);
    Ok(())
}

const FIRST_WRONG: &[(&str, &str)] = &[
    ("[]", "Whole"),
    ("{", "Whole"),
    ("{}", "Version"),
    ("{\"version\":2}", "Version"),
    ("{\"version\":1}", "Lib"),
    ("{\"lib\":\"x\",\"version\":1}", "Lib"),
    (
        "{\"lib\":\"11111111-2222-4333-8444-555555555555\",\"version\":1}",
        "Base",
    ),
    (
        "{\"base\":1,\"lib\":\"11111111-2222-4333-8444-555555555555\",\"version\":1}",
        "Base",
    ),
    (
        "{\"base\":\"0000000000000000000000000000000000000000\",\"lib\":\"11111111-2222-4333-8444-555555555555\",\"version\":1}",
        "Base",
    ),
    (
        "{\"base\":null,\"lib\":\"11111111-2222-4333-8444-555555555555\",\"version\":1}",
        "Entries",
    ),
    (
        "{\"base\":null,\"entries\":[],\"lib\":\"11111111-2222-4333-8444-555555555555\",\"more\":1,\"version\":1}",
        "Extra",
    ),
];

/// The first of these of which something else is told; no text where none is.
fn first_other(alloc: Global) -> Result<&'static str, AllocError> {
    for place in 0..FIRST_WRONG.len() {
        let (text, wanted) = FIRST_WRONG[place];
        if !is_told(alloc, text, wanted)? {
            return Ok(text);
        }
    }
    Ok("")
}

#[test]
fn the_first_failing_check_of_a_text_is_told(rt: HostRuntime) -> Result<(), AllocError> {
    let text = first_other(rt.alloc())?;
    assert!(rt; text.is_empty(), "{text}");
    Ok(())
}

#[test]
fn a_number_is_no_base_whatever_the_entries_are(rt: HostRuntime) -> Result<(), AllocError> {
    assert!(rt; is_told(rt.alloc(), BASE_IS_1, "Base")?);
    Ok(())
}

/// Entries, and whether an index has them.
const ENTRIES: &[(&str, &str)] = &[
    ("{\"path\":\"d\"}", ""),
    ("{\"path\":\"d/e\"},{\"path\":\"d\"}", ""),
    ("{\"path\":\"d/e\"}", "Entries"),
    ("{\"path\":\"d\"},{\"path\":\"d\"}", "Entries"),
    ("{\"path\":\"\"}", "Entries"),
    ("{\"path\":\"/d\"}", "Entries"),
    ("{\"path\":\"..\"}", "Entries"),
    ("{\"path\":\"d\",\"x\":1}", "Entries"),
    ("{}", "Entries"),
    ("1", "Entries"),
];

/// Whether this key is what is first wrong with the index text of these entries.
fn is_told_of(alloc: Global, entries: &str, wanted: &str) -> Result<bool, AllocError> {
    let text = index_text(alloc, entries)?;
    let told = is_told(alloc, text.as_str(), wanted);
    drop(text);
    told
}

/// The first of these of which something else is told; no text where none is.
fn first_told_otherwise(alloc: Global) -> Result<&'static str, AllocError> {
    for place in 0..ENTRIES.len() {
        let (entries, wanted) = ENTRIES[place];
        if !is_told_of(alloc, entries, wanted)? {
            return Ok(entries);
        }
    }
    Ok("")
}

#[test]
fn entries_are_distinct_paths_in_directories(rt: HostRuntime) -> Result<(), AllocError> {
    let entries = first_told_otherwise(rt.alloc())?;
    assert!(rt; entries.is_empty(), "{entries}");
    Ok(())
}

/// Whether a scan differs so from an index.
fn differs(alloc: Global, scan: &Scan, index: &Index, wanted: &str) -> Result<bool, AllocError> {
    let changes = changes(alloc, scan, index)?;
    let lines = lines(alloc, &changes);
    drop(changes);
    let lines = lines?;
    let is_wanted = lines.as_str() == wanted;
    drop(lines);
    Ok(is_wanted)
}

/// Whether the scan of a folder differs so from an index.
fn scan_differs(
    alloc: Global,
    folder: &mut MemoryFolder,
    index: &Index,
    wanted: &str,
) -> Result<bool, AllocError> {
    match scan(alloc, folder, Cuts::USUAL) {
        Ok(scan) => {
            let differs = differs(alloc, &scan, index, wanted);
            drop(scan);
            differs
        }
        Err(_) => Ok(false),
    }
}

/// The same of a folder that is filled with these paths.
fn filled_differs(
    alloc: Global,
    folder: &mut MemoryFolder,
    paths: &[&str],
    index: &Index,
    wanted: &str,
) -> Result<bool, AllocError> {
    Ok(fill(alloc, folder, paths)? && scan_differs(alloc, folder, index, wanted)?)
}

/// Whether the scan of these paths differs so from an index.
fn paths_differ(
    alloc: Global,
    paths: &[&str],
    index: &Index,
    wanted: &str,
) -> Result<bool, AllocError> {
    let mut folder = MemoryFolder::new(alloc, Items::new(alloc));
    let differ = filled_differs(alloc, &mut folder, paths, index, wanted);
    drop(folder);
    differ
}

/// Whether the scan of these paths differs so from the index of these entries.
fn differs_so(
    alloc: Global,
    entries: &str,
    paths: &[&str],
    wanted: &str,
) -> Result<bool, AllocError> {
    let text = index_text(alloc, entries)?;
    let told = Index::read(alloc, text.as_bytes());
    drop(text);
    match told {
        Ok(index) => {
            let differ = paths_differ(alloc, paths, &index, wanted);
            drop(index);
            differ
        }
        Err(_) => Ok(false),
    }
}

/// A file whose own text is that of `abc`.
const SAME: &str =
    "{\"id\":\"0000000000000000000000000000000000000000\",\"mode\":33188,\"modifier\":\"me\",\"mtime\":5,\"own\":\"f94650066818ed77bd0283d828bd992667a2d5ad\",\"path\":\"a\",\"size\":99}";

/// The same file under another id of its own.
const OTHER: &str =
    "{\"id\":\"0000000000000000000000000000000000000000\",\"mode\":33188,\"modifier\":\"me\",\"mtime\":5,\"own\":\"0000000000000000000000000000000000000000\",\"path\":\"a\",\"size\":3}";

/// A directory with a file.
const BELOW: &str =
    "{\"path\":\"d\"},{\"id\":\"0000000000000000000000000000000000000000\",\"mode\":33188,\"modifier\":\"me\",\"mtime\":5,\"own\":\"0000000000000000000000000000000000000000\",\"path\":\"d/a\",\"size\":0}";

/// Entries, the paths of a folder, and how it differs.
const CHANGED: &[(&str, &[&str], &str)] = &[
    ("", &["a"], "a added\n"),
    (BELOW, &["d/"], "d/a gone\n"),
    (OTHER, &["a/"], "a changed\n"),
    (OTHER, &["a"], "a changed\n"),
    (SAME, &["a"], ""),
    (SAME, &["a", "b/"], "b added\n"),
    (
        BELOW,
        &["d-e", "d/", "d/b"],
        "d-e added\nd/a gone\nd/b added\n",
    ),
];

/// The entries of the first of these that differs otherwise.
fn first_differing_otherwise(alloc: Global) -> Result<Option<&'static str>, AllocError> {
    for place in 0..CHANGED.len() {
        let (entries, paths, wanted) = CHANGED[place];
        if !differs_so(alloc, entries, paths, wanted)? {
            return Ok(Some(entries));
        }
    }
    Ok(None)
}

// The id of the file `abc` is the SHA-1 of its object's 88 bytes.
#[test]
fn changes_are_told_in_byte_order_of_path(rt: HostRuntime) -> Result<(), AllocError> {
    let entries = first_differing_otherwise(rt.alloc())?;
    assert!(rt; entries.is_none(), "{entries:?}");
    Ok(())
}
