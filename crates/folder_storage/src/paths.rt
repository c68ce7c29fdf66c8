//! The paths of a library's folder and of what lies in it. Definitions: specs/Paths.antt.
ghost use Rattle.std.specs.Prelude.{◌≡◌, ◌++◌, ◌<◌, ◌∷◌, [], All, IfOk, OnOk, codes};
ghost use Rattle.std.specs.String.{string_bytes};
ghost use Rattle.hex.specs.Hex.{encode_lower};
ghost use Rattle.object_store.specs.declared.shelf.Slot.TheVariants.{Object};
ghost use Rattle.folder_storage.specs.Paths.{kind_folder, library_text, listed_text, slot_text, under};

use crate::durability::first_byte;
use ids::{Key, Kind, LibId};
use object_store::Slot;
use std::alloc::{AllocError, Global};

/// The digits of a byte's halves.
const DIGITS: &[u8; 16] = b"0123456789abcdef";

/// How many digits of an id name the folder that its object lies in.
const FOLDER_DIGITS: usize = 2;

/// The path of a library's folder.
pub(crate) fn library_path(alloc: Global, folder: &str, lib: &LibId) -> Result<String, AllocError>
    ensures value { IfOk result (λ path. string_bytes path ≡ library_text folder.now lib.now) }
{
    let mut path = below(alloc, folder)?;
    push_ascii(&mut path, &lib.digits())?;
    Ok(path)
}

/// The path of the folder in which a library is made, until it has a state text.
pub(crate) fn draft_path(alloc: Global, folder: &str, lib: &LibId) -> Result<String, AllocError> {
    let mut path = library_path(alloc, folder, lib)?;
    path.push_str(".new")?;
    Ok(path)
}

/// The path of a slot's file.
pub(crate) fn slot_path(alloc: Global, library: &str, slot: &Slot) -> Result<String, AllocError>
    ensures value { IfOk result (λ path. string_bytes path ≡ slot_text library.now slot.now) }
{
    match slot {
        Slot::Object(key) => object_path(alloc, library, key),
        Slot::Status => named_path(alloc, library, "status"),
    }
}

/// The path of a folder while it is entered anew.
pub(crate) fn moved_path(alloc: Global, folder: &str) -> Result<String, AllocError> {
    let mut path = String::with_capacity(alloc, folder.len().saturating_add(64))?;
    path.push_str(folder)?;
    path.push_str(".moved")?;
    Ok(path)
}

/// The path of an object's file: `KIND/xx/` and the other 38 digits of its id.
pub(crate) fn object_path(alloc: Global, library: &str, key: &Key) -> Result<String, AllocError>
    ensures value { IfOk result (λ path. string_bytes path ≡ slot_text library.now (Object key.now)) }
{
    let digits = key.id.digits();
    let mut path = listed_folder(alloc, library, key.kind, first_byte(key))?;
    path.push_str("/")?;
    push_ascii(&mut path, &digits[FOLDER_DIGITS..])?;
    Ok(path)
}

/// The path of the folder of a kind's objects whose ids begin with one byte.
pub(crate) fn listed_folder(
    alloc: Global,
    library: &str,
    kind: Kind,
    first: u8,
) -> Result<String, AllocError>
    ensures value { IfOk result (λ path. string_bytes path ≡ listed_text library.now kind first) }
{
    let mut path = kind_path(alloc, library, kind)?;
    path.push_str("/")?;
    push_ascii(&mut path, &byte_digits(first))?;
    Ok(path)
}

/// The path of the folder of a kind.
pub(crate) fn kind_path(alloc: Global, library: &str, kind: Kind) -> Result<String, AllocError>
    ensures value { IfOk result (λ path. string_bytes path ≡ under library.now (kind_folder kind)) }
{
    named_path(alloc, library, kind_folder(kind))
}

/// The path of something with a fixed name in a library's folder.
pub(crate) fn named_path(alloc: Global, library: &str, name: &str) -> Result<String, AllocError>
    ensures value { IfOk result (λ path. string_bytes path ≡ under library.now name.now) }
{
    let mut path = below(alloc, library)?;
    path.push_str(name)?;
    Ok(path)
}

/// The folder of a kind, as Seafile's server names it.
pub(crate) fn kind_folder(kind: Kind) -> &'static str
    ensures value { result.now ≡ kind_folder kind }
{
    match kind {
        Kind::Commit => "commits",
        Kind::Fs => "fs",
        Kind::Block => "blocks",
    }
}

/// A folder's path with a slash, and room for what comes after it.
fn below(alloc: Global, folder: &str) -> Result<String, AllocError>
    ensures value { IfOk result (λ path. string_bytes path ≡ folder.now ++ codes "/") }
{
    let mut path = String::with_capacity(alloc, folder.len().saturating_add(64))?;
    path.push_str(folder)?;
    path.push('/')?;
    Ok(path)
}

/// The two digits of a byte.
pub(crate) fn byte_digits(byte: u8) -> [u8; 2]
    ensures value { result ≡ encode_lower (byte ∷ []) }
{
    [
        DIGITS[usize::from(byte / 16)],
        DIGITS[usize::from(byte % 16)],
    ]
}

/// Appends characters that are all ASCII.
pub(crate) fn push_ascii(path: &mut String, bytes: &[u8]) -> Result<(), AllocError>
    ensures ok { OnOk result (All (λ byte. byte < 128) bytes.now → string_bytes path.new ≡ string_bytes path.old ++ bytes.now) }
{
    match str::from_utf8(bytes) {
        Ok(text) => path.push_str(text),
        Err(_) => push_each(path, bytes),
    }
}

/// The same one by one.
fn push_each(path: &mut String, bytes: &[u8]) -> Result<(), AllocError>
    ensures ok { OnOk result (All (λ byte. byte < 128) bytes.now → string_bytes path.new ≡ string_bytes path.old ++ bytes.now) }
{
    for byte in bytes {
        path.push(char::from(*byte))?;
    }
    Ok(())
}
