//! Runs of one library over a stand-in for the system's files, and what stands of it once the power failed.
use crate::library::{done, holds, lib, slot_of, there};
use crate::lossy_files::LossyFiles;
use crate::lossy_nodes::Also;
use folder_storage::{FileSystem, FolderGround, FolderShelf, Ground};
use ids::Kind;
use object_store::{Shelf, Slot};
use std::alloc::Global;
use std::io;
use std::test::Fail;

/// Objects of each kind, and in two folders of one. State texts from `2` on name them.
const OBJECTS: [(Kind, &str); 4] = [
    (Kind::Commit, "{}"),
    (Kind::Fs, "fs"),
    (Kind::Block, "abc"),
    (Kind::Block, "other"),
];

/// A new run over these files.
pub(crate) fn opened(files: LossyFiles) -> Result<FolderShelf<LossyFiles>, Fail> {
    let mut ground = FolderGround::over(files);
    let found = ground.find("F", lib());
    drop(ground);
    there(found)
}

/// Makes a folder, which is durable then.
fn make_durable_folder(files: &mut LossyFiles) -> io::Result<()> {
    files.make_folder("F")?;
    files.sync_folder("")?;
    Ok(())
}

/// The run over these files that makes the library.
fn made_over(files: LossyFiles) -> Result<FolderShelf<LossyFiles>, Fail> {
    let mut ground = FolderGround::over(files);
    let made = ground.make("F", lib());
    drop(ground);
    there(made)
}

/// The run that makes the library, in a folder that is durable.
pub(crate) fn made(alloc: Global) -> Result<FolderShelf<LossyFiles>, Fail> {
    let mut files = LossyFiles::new(alloc)?;
    match make_durable_folder(&mut files) {
        Ok(()) => made_over(files),
        Err(why) => {
            drop(files);
            Err(Fail::from(why))
        }
    }
}

/// The files of a shelf, once a state text is put.
fn after_text(shelf: &mut FolderShelf<LossyFiles>) -> Result<LossyFiles, Fail> {
    done(shelf.put(Slot::Status, b"1"))?;
    Ok(shelf.files().another()?)
}

/// The files of a library whose state text is `1`.
pub(crate) fn with_text(alloc: Global) -> Result<LossyFiles, Fail> {
    let mut shelf = made(alloc)?;
    let files = after_text(&mut shelf);
    drop(shelf);
    files
}

/// Whether an object is there, whole.
pub(crate) fn has(shelf: &mut FolderShelf<LossyFiles>, kind: Kind, text: &str) -> bool {
    holds(shelf, &slot_of(kind, text), text.as_bytes())
}

/// Whether all objects are there, whole.
fn has_all(shelf: &mut FolderShelf<LossyFiles>) -> bool {
    for (kind, text) in OBJECTS {
        if !has(shelf, kind, text) {
            return false;
        }
    }
    true
}

/// Puts each object that isn't there whole.
pub(crate) fn put_what_lacks(shelf: &mut FolderShelf<LossyFiles>) -> Result<(), Fail> {
    for (kind, text) in OBJECTS {
        if !has(shelf, kind, text) {
            done(shelf.put(slot_of(kind, text), text.as_bytes()))?;
        }
    }
    Ok(())
}

/// The state text, a digit.
fn text_of(shelf: &mut FolderShelf<LossyFiles>) -> Result<u8, Fail> {
    match there(shelf.fetch(Slot::Status))?.slice() {
        [digit] => Ok(*digit),
        _ => Err("no digit".into()),
    }
}

/// Whether a text stands that is not before the one that was answered last, and all that it names.
fn stands_on(shelf: &mut FolderShelf<LossyFiles>, answered: u8) -> Result<bool, Fail> {
    let told = text_of(shelf)?;
    Ok(told >= answered && (told == b'1' || has_all(shelf)))
}

/// The power fails now: whether that holds, where the names that the disk lacks are taken over, or aren't.
fn stands_cut(files: &LossyFiles, has_names: bool, answered: u8) -> Result<bool, Fail> {
    let mut shelf = opened(files.cut(has_names)?)?;
    let stood = stands_on(&mut shelf, answered);
    drop(shelf);
    stood
}

/// Whether it holds either way.
pub(crate) fn stands(files: &LossyFiles, answered: u8) -> Result<bool, Fail> {
    Ok(stands_cut(files, false, answered)? && stands_cut(files, true, answered)?)
}

/// A run of which so many calls fail from the first sync on.
pub(crate) fn failing(
    alloc: Global,
    left: u64,
    also: Also,
) -> Result<FolderShelf<LossyFiles>, Fail> {
    let files = with_text(alloc)?;
    let failing = files.failing_from_the_first(left, also);
    drop(files);
    opened(failing?)
}
