//! Texts that are kept in a folder: what is read, put and taken away.
use crate::folder_side_tests::folder;
use folder_side::{Folder, MemoryFolder};
use folder_texts::{put_text, take_text, text_in};
use std::alloc::{AllocError, Global};
use tree_model::{Name, NameFault};

fn name(alloc: Global, text: &str) -> Result<Name, AllocError> {
    match Name::read(alloc, text) {
        Ok(name) => Ok(name),
        Err(NameFault::NoMemory) => Err(AllocError),
        Err(NameFault::Bad(_)) => Err(AllocError),
    }
}

/// Whether a name has a text with these bytes.
fn has(alloc: Global, folder: &mut MemoryFolder, name: &Name, bytes: &[u8]) -> bool {
    match text_in(alloc, folder, name) {
        Ok(Some(text)) => text.slice() == bytes,
        Ok(None) => false,
        Err(_) => false,
    }
}

/// Whether a name has no text.
fn has_none(alloc: Global, folder: &mut MemoryFolder, name: &Name) -> bool {
    match text_in(alloc, folder, name) {
        Ok(Some(_)) => false,
        Ok(None) => true,
        Err(_) => false,
    }
}

/// Whether a text is put, put again shorter, and each time read whole.
fn is_put(alloc: Global, folder: &mut MemoryFolder, name: &Name, long: &[u8]) -> bool {
    put_text(alloc, folder, name, long).is_ok()
        && has(alloc, folder, name, long)
        && put_text(alloc, folder, name, b"short").is_ok()
        && has(alloc, folder, name, b"short")
}

/// Whether a text is taken away, and then there is none to take.
fn is_taken(alloc: Global, folder: &mut MemoryFolder, name: &Name) -> bool {
    take_text(alloc, folder, name).is_ok()
        && has_none(alloc, folder, name)
        && take_text(alloc, folder, name).is_ok()
}

/// Whether a text of seventy thousand bytes is put and taken so.
fn is_put_and_taken(
    alloc: Global,
    folder: &mut MemoryFolder,
    name: &Name,
) -> Result<bool, AllocError> {
    let long = vec![in alloc; 7u8; 70_000]?;
    let put = is_put(alloc, folder, name, long.as_slice());
    drop(long);
    Ok(is_taken(alloc, folder, name) && put)
}

/// The same of a text of this name.
fn takes_long(alloc: Global, folder: &mut MemoryFolder, text: &str) -> Result<bool, AllocError> {
    let name = name(alloc, text)?;
    let taken = is_put_and_taken(alloc, folder, &name);
    drop(name);
    taken
}

/// The same in a new folder.
fn shows_long(alloc: Global) -> Result<bool, AllocError> {
    let mut folder = folder(alloc, &[])?;
    let shown = takes_long(alloc, &mut folder, "seaf.json");
    drop(folder);
    shown
}

#[test]
fn text_longer_than_a_piece_is_put_read_and_taken(rt: HostRuntime) -> Result<(), AllocError> {
    assert!(rt; shows_long(rt.alloc())?);
    Ok(())
}

/// A name of the folder, and whether a text has it.
const NAMES: [(&str, bool); 4] = [("a-b", true), ("d", false), ("a!", false), ("none", false)];

/// Whether a text has this name, and nothing else is told as one.
fn is_told(
    alloc: Global,
    folder: &mut MemoryFolder,
    text: &str,
    there: bool,
) -> Result<bool, AllocError> {
    let name = name(alloc, text)?;
    let told = if there {
        has(alloc, folder, &name, b"abc")
    } else {
        has_none(alloc, folder, &name)
    };
    drop(name);
    Ok(told)
}

/// The same of a new folder.
fn is_told_anew(alloc: Global, text: &str, there: bool) -> Result<bool, AllocError> {
    let mut folder = folder(alloc, &[])?;
    let told = is_told(alloc, &mut folder, text, there);
    drop(folder);
    told
}

#[test]
fn directory_or_link_is_no_text(rt: HostRuntime) -> Result<(), AllocError> {
    for (text, there) in NAMES {
        assert!(rt; is_told_anew(rt.alloc(), text, there)?, "{text}");
    }
    Ok(())
}
