//! What each call of a folder in memory does, and when it fails.
use crate::folder_side_tests::{folder, path};
use folder_side::*;
use std::alloc::{AllocError, Global};
use tree_model::Path;

/// Writes a file by way of the spare.
pub(crate) fn write<F: Folder>(
    folder: &mut F,
    file: &Path,
    bytes: &[u8],
) -> Result<(), FolderFault> {
    folder.spare_clear()?;
    folder.spare_add(bytes)?;
    folder.spare_move(file)
}

/// Whether a file has these bytes from a place on, of which four are asked for.
pub(crate) fn reads<F: Folder>(folder: &mut F, file: &Path, place: u64, bytes: &[u8]) -> bool {
    let mut piece = [0; 4];
    match folder.read(file, place, piece.as_mut_slice()) {
        Ok(count) => &piece[..count] == bytes,
        Err(_) => false,
    }
}

/// Whether a call was done, or else failed with the folder.
fn went(told: Result<(), FolderFault>, is_done: bool) -> bool {
    match told {
        Ok(()) => is_done,
        Err(fault) => !is_done && fault == FolderFault::Folder,
    }
}

/// Whether a file is written at this path, or the call fails with the folder.
fn writes(
    alloc: Global,
    folder: &mut MemoryFolder,
    text: &str,
    is_written: bool,
) -> Result<bool, AllocError> {
    let path = path(alloc, text)?;
    Ok(went(write(folder, &path, b"abcdef"), is_written))
}

/// A path, whether a file is written there, and why. The first call is to fail.
const WRITES: [(&str, bool, &str); 6] = [
    ("new", false, "the call is to fail"),
    ("d/new", true, "a new file"),
    ("a/b", true, "in place of a file"),
    ("d", false, "in place of a directory"),
    ("a!", false, "in place of a link"),
    ("x/y", false, "in no directory"),
];

/// The first of these that goes otherwise; no text where none does.
fn first_written_otherwise(
    alloc: Global,
    folder: &mut MemoryFolder,
) -> Result<&'static str, AllocError> {
    for (text, is_written, case) in WRITES {
        if !writes(alloc, folder, text, is_written)? {
            return Ok(case);
        }
    }
    Ok("")
}

/// The same of a folder of which that call fails.
fn first_written_wrong(alloc: Global) -> Result<&'static str, AllocError> {
    let mut folder = folder(alloc, &[0])?;
    let case = first_written_otherwise(alloc, &mut folder);
    drop(folder);
    case
}

#[test]
fn files_are_written_in_place_of_files_alone(rt: HostRuntime) -> Result<(), AllocError> {
    let case = first_written_wrong(rt.alloc())?;
    assert!(rt; case.is_empty(), "{case}");
    Ok(())
}

/// Whether a spare that is not there is neither moved nor grown, and this file, of the bytes `abc`, stays.
fn keeps_without_spare(folder: &mut MemoryFolder, file: &Path) -> bool {
    went(folder.spare_move(file), false)
        && went(folder.spare_add(b"x"), false)
        && folder.faults() == 2
        && reads(folder, file, 0, b"abc")
}

/// What is looked at of the file `a-b`.
#[derive(Clone, Copy)]
enum Look {
    /// Whether it stays without a spare.
    Spare,
    /// Whether it is read up to its end.
    End,
}

/// Whether that is so of a new folder, at this path.
fn shows_at(alloc: Global, look: Look, file: &Path) -> Result<bool, AllocError> {
    let mut folder = folder(alloc, &[])?;
    let shown = match look {
        Look::Spare => keeps_without_spare(&mut folder, file),
        Look::End => reads_to_the_end(&mut folder, file),
    };
    drop(folder);
    Ok(shown)
}

fn shows(alloc: Global, look: Look) -> Result<bool, AllocError> {
    let file = path(alloc, "a-b")?;
    let shown = shows_at(alloc, look, &file);
    drop(file);
    shown
}

#[test]
fn a_spare_that_is_not_there_is_not_moved(rt: HostRuntime) -> Result<(), AllocError> {
    assert!(rt; shows(rt.alloc(), Look::Spare)?);
    Ok(())
}

/// Whether a file of the bytes `abc` is read up to its end.
fn reads_to_the_end(folder: &mut MemoryFolder, file: &Path) -> bool {
    reads(folder, file, 0, b"abc")
        && reads(folder, file, 1, b"bc")
        && reads(folder, file, 3, b"")
        && reads(folder, file, u64::MAX, b"")
}

#[test]
fn files_are_read_up_to_their_end(rt: HostRuntime) -> Result<(), AllocError> {
    assert!(rt; shows(rt.alloc(), Look::End)?);
    Ok(())
}

/// A path, and what a look at it finds, or that it is refused.
const LOOKS: [(&str, Result<Option<ItemKind>, FolderFault>); 6] = [
    ("a-b", Ok(Some(ItemKind::File))),
    ("a", Ok(Some(ItemKind::Dir))),
    ("a!", Ok(Some(ItemKind::Other))),
    ("a/x", Ok(None)),
    ("a-b/x", Err(FolderFault::Folder)),
    ("x/y", Err(FolderFault::Folder)),
];

/// Whether a look at a path finds this, or is refused so.
fn looks(
    alloc: Global,
    folder: &mut MemoryFolder,
    text: &str,
    found: Result<Option<ItemKind>, FolderFault>,
) -> Result<bool, AllocError> {
    let path = path(alloc, text)?;
    let is_found = folder.look(&path) == found;
    drop(path);
    Ok(is_found)
}

/// The path of the first of these that is looked at otherwise; no text where none is.
fn first_looked_otherwise(
    alloc: Global,
    folder: &mut MemoryFolder,
) -> Result<&'static str, AllocError> {
    for (text, found) in LOOKS {
        if !looks(alloc, folder, text, found)? {
            return Ok(text);
        }
    }
    Ok("")
}

/// The same of a new folder, and how often it failed.
fn first_looked_wrong(alloc: Global) -> Result<(&'static str, u64), AllocError> {
    let mut folder = folder(alloc, &[])?;
    let text = first_looked_otherwise(alloc, &mut folder);
    let faults = folder.faults();
    drop(folder);
    Ok((text?, faults))
}

#[test]
fn one_path_is_looked_at(rt: HostRuntime) -> Result<(), AllocError> {
    let (text, faults) = first_looked_wrong(rt.alloc())?;
    assert!(rt; text.is_empty() && faults == 2, "{text}");
    Ok(())
}

/// Makes a directory, or else removes something.
fn change<F: Folder>(folder: &mut F, is_made: bool, path: &Path) -> Result<(), FolderFault> {
    if is_made {
        return folder.make_dir(path);
    }
    folder.remove(path)
}

/// Whether that is done, or the call fails with the folder.
fn changes(
    alloc: Global,
    folder: &mut MemoryFolder,
    is_made: bool,
    text: &str,
    is_done: bool,
) -> Result<bool, AllocError> {
    let path = path(alloc, text)?;
    Ok(went(change(folder, is_made, &path), is_done))
}

/// Whether a directory is made, or else something removed; the path; and whether it is done.
const CHANGES: [(bool, &str, bool); 8] = [
    (true, "d/e", true),
    (true, "d/e", false),
    (true, "x/y", false),
    (false, "d/e", true),
    (false, "d", false),
    (false, "a", false),
    (false, "a!", false),
    (false, "a-b", true),
];

/// The path of the first of these that goes otherwise; no text where none does.
fn first_changed_otherwise(
    alloc: Global,
    folder: &mut MemoryFolder,
) -> Result<&'static str, AllocError> {
    for (is_made, text, is_done) in CHANGES {
        if !changes(alloc, folder, is_made, text, is_done)? {
            return Ok(text);
        }
    }
    Ok("")
}

/// Whether a directory has so many entries with good names, and so many without.
fn has_entries(
    alloc: Global,
    folder: &mut MemoryFolder,
    dir: &Path,
    good: usize,
    nameless: u64,
) -> bool {
    match folder.list(alloc, dir) {
        Ok(listing) => {
            let is_so = listing.items.len() == good && listing.nameless == nameless;
            drop(listing);
            is_so
        }
        Err(_) => false,
    }
}

/// Whether so many calls failed, and what is left is there.
fn is_left(alloc: Global, folder: &mut MemoryFolder) -> Result<bool, AllocError> {
    let dir = path(alloc, "a")?;
    let has_entries = has_entries(alloc, folder, &dir, 2, 1);
    drop(dir);
    Ok(folder.faults() == 5 && folder.paths().len() == 6 && has_entries)
}

/// The path of the first change that goes otherwise, and whether what is left is there.
fn changed_and_left(
    alloc: Global,
    folder: &mut MemoryFolder,
) -> Result<(&'static str, bool), AllocError> {
    let text = first_changed_otherwise(alloc, folder)?;
    Ok((text, is_left(alloc, folder)?))
}

/// The same of a new folder.
fn first_changed_wrong(alloc: Global) -> Result<(&'static str, bool), AllocError> {
    let mut folder = folder(alloc, &[])?;
    let told = changed_and_left(alloc, &mut folder);
    drop(folder);
    told
}

#[test]
fn directories_are_made_and_empty_ones_removed(rt: HostRuntime) -> Result<(), AllocError> {
    let (text, is_left) = first_changed_wrong(rt.alloc())?;
    assert!(rt; text.is_empty(), "{text}");
    assert!(rt; is_left);
    Ok(())
}
