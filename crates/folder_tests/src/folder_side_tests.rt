//! Scans of folders with known contents, and faults by their number.
use block_chunker::Cuts;
use folder_side::*;
use ids::{IdList, Items};
use std::alloc::{AllocError, Global};
use tree_model::Path;

/// The path of a text, which is that of the folder itself where it is no path.
pub(crate) fn path(alloc: Global, text: &str) -> Result<Path, AllocError> {
    match Path::read(alloc, text)? {
        Some(path) => Ok(path),
        None => Ok(Path::root(alloc)),
    }
}

fn add_dir(alloc: Global, folder: &mut MemoryFolder, text: &str) -> Result<bool, AllocError> {
    folder.add(path(alloc, text)?, Holding::Dir)
}

fn add_link(alloc: Global, folder: &mut MemoryFolder, text: &str) -> Result<bool, AllocError> {
    folder.add(path(alloc, text)?, Holding::Other)
}

fn add_file(
    alloc: Global,
    folder: &mut MemoryFolder,
    text: &str,
    bytes: &[u8],
) -> Result<bool, AllocError> {
    let path = path(alloc, text)?;
    folder.add(path, Holding::File(Items::copy(alloc, bytes)?))
}

const DIRS: [&str; 2] = ["a", "d"];

const LINKS: [&str; 2] = ["a/link", "a!"];

const FILES: [(&str, &[u8]); 3] = [("a-b", b"abc"), ("a/b", &[7; 100]), ("empty", b"")];

/// Directories, and how many of their entries have no good name.
const NAMELESS: [(&str, u64); 2] = [("d", 2), ("a", 1)];

/// Adds the directories and links.
fn add_dirs_and_links(alloc: Global, folder: &mut MemoryFolder) -> Result<(), AllocError> {
    for text in DIRS {
        let _ = add_dir(alloc, folder, text)?;
    }
    for text in LINKS {
        let _ = add_link(alloc, folder, text)?;
    }
    Ok(())
}

/// Tells how many entries of a directory have no good name.
fn set_nameless(
    alloc: Global,
    folder: &mut MemoryFolder,
    text: &str,
    count: u64,
) -> Result<bool, AllocError> {
    let path = path(alloc, text)?;
    folder.set_nameless(path, count)
}

/// Adds all of these.
fn fill(alloc: Global, folder: &mut MemoryFolder) -> Result<(), AllocError> {
    add_dirs_and_links(alloc, folder)?;
    for (text, bytes) in FILES {
        let _ = add_file(alloc, folder, text, bytes)?;
    }
    for (text, count) in NAMELESS {
        let _ = set_nameless(alloc, folder, text, count)?;
    }
    Ok(())
}

/// A folder of which the calls with these numbers fail: `a-b` is a file, `a` a directory with a file, a link and a
/// nameless entry, `d` a directory with two nameless entries.
pub(crate) fn folder(alloc: Global, fails: &[u64]) -> Result<MemoryFolder, AllocError> {
    let mut folder = MemoryFolder::new(alloc, Items::copy(alloc, fails)?);
    match fill(alloc, &mut folder) {
        Ok(()) => Ok(folder),
        Err(why) => {
            drop(folder);
            Err(why)
        }
    }
}

/// The paths' texts, each with a line feed.
fn lines(alloc: Global, paths: &Items<Path>) -> Result<String, AllocError> {
    let mut text = String::new(alloc);
    for path in paths.slice() {
        text.push_str(path.text(alloc)?.slice())?;
        text.push_str("\n")?;
    }
    Ok(text)
}

/// What was seen, a line for each path.
fn seen_lines(alloc: Global, scan: &Scan) -> Result<String, AllocError> {
    let mut text = String::new(alloc);
    for (path, seen) in scan.paths.iter() {
        text.push_str(path.text(alloc)?.slice())?;
        push_seen(&mut text, seen)?;
    }
    Ok(text)
}

fn push_seen(text: &mut String, seen: &Seen) -> Result<(), AllocError> {
    match seen {
        Seen::Dir => text.push_str(" directory\n"),
        Seen::File { blocks, size: _ } => push_blocks(text, blocks),
    }
}

fn push_blocks(text: &mut String, blocks: &IdList) -> Result<(), AllocError> {
    for block in blocks.slice() {
        text.push_str(" ")?;
        for c in block.digits().iter() {
            text.push(char::from(*c))?;
        }
    }
    text.push_str("\n")
}

/// Whether a scan saw these lines, and skipped and met no name at these.
fn tells(
    alloc: Global,
    scan: &Scan,
    seen: &str,
    skipped: &str,
    nameless: &str,
) -> Result<bool, AllocError> {
    Ok(
        seen_lines(alloc, scan)?.as_str() == seen
            && lines(alloc, &scan.skipped)?.as_str() == skipped
            && lines(alloc, &scan.nameless)?.as_str() == nameless,
    )
}

/// Whether a scan of a folder with these parameters tells these lines, without a fault.
fn scan_tells(
    alloc: Global,
    folder: &mut MemoryFolder,
    cuts: Cuts,
    seen: &str,
    skipped: &str,
    nameless: &str,
) -> Result<bool, AllocError> {
    match scan(alloc, folder, cuts) {
        Ok(scan) => {
            let told = tells(alloc, &scan, seen, skipped, nameless);
            drop(scan);
            Ok(told? && folder.faults() == 0)
        }
        Err(_) => Ok(false),
    }
}

const SEEN: &str =
    "a directory\na-b a9993e364706816aba3e25717850c26c9cd0d89d\na/b 5a1e1b103a1661b2d0553a4403f32967e4391fb7 5a1e1b103a1661b2d0553a4403f32967e4391fb7 29fb26f0ca3b0a0644528f5648a806fbd0820eb3\nd directory\nempty\n";

/// Whether a scan with the least chunks tells what is there.
fn tells_small_chunks(alloc: Global, folder: &mut MemoryFolder) -> Result<bool, AllocError> {
    match Cuts::new(48, 48, 44) {
        Some(cuts) => scan_tells(alloc, folder, cuts, SEEN, "a!\na/link\n", "a\nd\n"),
        None => Ok(false),
    }
}

/// What a scan shows.
#[derive(Clone, Copy)]
enum Case {
    /// Chunks, links and nameless entries.
    Chunks,
    /// A link, and the directory of a nameless entry.
    Link,
    /// A path that is too deep.
    Depth,
}

fn folder_of(alloc: Global, case: Case) -> Result<MemoryFolder, AllocError> {
    match case {
        Case::Chunks => folder(alloc, &[]),
        _ => Ok(MemoryFolder::new(alloc, Items::new(alloc))),
    }
}

fn goes(alloc: Global, folder: &mut MemoryFolder, case: Case) -> Result<bool, AllocError> {
    match case {
        Case::Chunks => tells_small_chunks(alloc, folder),
        Case::Link => tells_link_and_nameless(alloc, folder),
        Case::Depth => is_refused_deeper(alloc, folder),
    }
}

/// Whether that is shown of the folder of a case.
fn shows(alloc: Global, case: Case) -> Result<bool, AllocError> {
    let mut folder = folder_of(alloc, case)?;
    let shown = goes(alloc, &mut folder, case);
    drop(folder);
    shown
}

#[test]
fn a_scan_tells_chunks_links_and_nameless_entries(rt: HostRuntime) -> Result<(), AllocError> {
    assert!(rt; shows(rt.alloc(), Case::Chunks)?);
    Ok(())
}

/// Whether a scan of a link, and of a directory with a nameless entry, tells them.
fn tells_link_and_nameless(alloc: Global, folder: &mut MemoryFolder) -> Result<bool, AllocError> {
    Ok(
        add_link(alloc, folder, "l")?
            && add_dir(alloc, folder, "d")?
            && set_nameless(alloc, folder, "d", 1)?
            && scan_tells(alloc, folder, Cuts::USUAL, "d directory\n", "l\n", "d\n")?,
    )
}

#[test]
fn a_link_is_skipped_and_a_nameless_entry_names_its_directory(
    rt: HostRuntime,
) -> Result<(), AllocError> {
    assert!(rt; shows(rt.alloc(), Case::Link)?);
    Ok(())
}

/// Whether a scan of a folder whose call of this number fails ends with a fault that is counted.
fn ends_with_fault(alloc: Global, number: u64) -> Result<bool, AllocError> {
    let mut folder = folder(alloc, &[number])?;
    let told = scan(alloc, &mut folder, Cuts::USUAL);
    let faults = folder.faults();
    drop(folder);
    let is_failed = matches!(&told, Err(ScanFault::Folder));
    drop(told);
    Ok(is_failed && faults == 1)
}

#[test]
fn a_failing_call_ends_a_scan(rt: HostRuntime) -> Result<(), AllocError> {
    for number in 0..5 {
        assert!(rt; ends_with_fault(rt.alloc(), number)?, "call {number}");
    }
    Ok(())
}

/// So many times `n/`, and an `n`.
fn deep(alloc: Global, above: u64) -> Result<String, AllocError> {
    let mut text = String::new(alloc);
    for _ in 0..above {
        text.push_str("n/")?;
    }
    text.push_str("n")?;
    Ok(text)
}

/// Adds a directory at that path.
fn add_deep(alloc: Global, folder: &mut MemoryFolder, above: u64) -> Result<bool, AllocError> {
    let text = deep(alloc, above)?;
    let is_added = add_dir(alloc, folder, text.as_str());
    drop(text);
    is_added
}

/// Adds 100 directories, one in the other. The answer is whether each has a directory to stand in.
fn add_chain(alloc: Global, folder: &mut MemoryFolder) -> Result<bool, AllocError> {
    for above in 0..100 {
        if !add_deep(alloc, folder, above)? {
            return Ok(false);
        }
    }
    Ok(true)
}

/// Whether a scan was refused for this path.
fn is_too_deep(
    alloc: Global,
    told: &Result<Scan, ScanFault>,
    text: &str,
) -> Result<bool, AllocError> {
    match told {
        Err(ScanFault::TooDeep(path)) => Ok(path.text(alloc)?.slice() == text),
        _ => Ok(false),
    }
}

/// Whether a folder is scanned.
fn is_scanned(alloc: Global, folder: &mut MemoryFolder) -> bool {
    let told = scan(alloc, folder, Cuts::USUAL);
    let is_scanned = told.is_ok();
    drop(told);
    is_scanned
}

/// Whether its scan is refused for this path.
fn scan_is_too_deep(
    alloc: Global,
    folder: &mut MemoryFolder,
    text: &str,
) -> Result<bool, AllocError> {
    let told = scan(alloc, folder, Cuts::USUAL);
    let is_refused = is_too_deep(alloc, &told, text);
    drop(told);
    is_refused
}

/// Whether a file at this path can be added, and a scan is refused for it, which was not before.
fn is_refused_for(
    alloc: Global,
    folder: &mut MemoryFolder,
    text: &str,
) -> Result<bool, AllocError> {
    Ok(
        is_scanned(alloc, folder)
            && add_file(alloc, folder, text, b"")?
            && scan_is_too_deep(alloc, folder, text)?,
    )
}

/// Whether a directory is refused that is deeper than a hundred others, one in the other.
fn is_refused_deeper(alloc: Global, folder: &mut MemoryFolder) -> Result<bool, AllocError> {
    let deeper = deep(alloc, 100)?;
    let is_refused = is_refused_below(alloc, folder, deeper.as_str());
    drop(deeper);
    is_refused
}

/// The same of a file at this path.
fn is_refused_below(
    alloc: Global,
    folder: &mut MemoryFolder,
    text: &str,
) -> Result<bool, AllocError> {
    Ok(add_chain(alloc, folder)? && is_refused_for(alloc, folder, text)?)
}

#[test]
fn a_path_of_more_than_100_names_is_too_deep(rt: HostRuntime) -> Result<(), AllocError> {
    assert!(rt; shows(rt.alloc(), Case::Depth)?);
    Ok(())
}
