//! The name of a conflict copy.
ghost use Rattle.tree_model.specs.declared.limits.TheConstants.{MAX_NAME};
ghost use Rattle.std.specs.Prelude.{◌≡◌, ◌≢◌, ◌≤◌, ◌<◌, ◌++◌, ℕ, IfOk, IsUtf8, OnOk, length, map};
ghost use Rattle.ids.specs.Outcome.{ExactlyWith};
ghost use Rattle.tree_model.specs.Name.{IsName};
ghost use Rattle.conflict_names.specs.Naming.{ext_at as extension_place, shown as shown_byte, number_text, naming};
ghost use Rattle.conflict_names.specs.ConflictFault.{is_no_memory};

use crate::civil_time::stamp_at;
use ids::Text;
use itoa::Buffer;
use std::alloc::{AllocError, Global};
use tree_model::{MAX_NAME, Name, NameFault};

/// Why no name was made for a conflict copy.
#[derive(Clone, Copy, Debug, PartialEq, Eq)]
pub enum ConflictFault {
    /// The name has this many bytes, over MAX_NAME.
    TooLong(u64),
    /// There was no memory for the name.
    NoMemory,
}

impl From<AllocError> for ConflictFault {
    ghost use Rattle.std.specs.Prelude.{◌≡◌};
    ghost use Rattle.conflict_names.specs.declared.naming.ConflictFault.{ConflictFault};

    ghost from_gives = { λ _ r. r ≡ ConflictFault.NoMemory };

    fn from(_fault: AllocError) -> ConflictFault {
        ConflictFault::NoMemory
    }
}

/// The place at which a name's extension begins: that of its last dot past place 0, or else its length.
///
/// So `.rc` has no extension, and `a.b.c` has `.c`. It takes no memory.
pub fn ext_at(name: &Name) -> u64
    ensures value { result ≡ extension_place name.now }
{
    last_dot(name.bytes()) as u64
}

/// The name of a file's conflict copy: `stem (SFConflict modifier YYYY-MM-DD-HH-MM-SS).ext`, our own form.
///
/// The extension begins at `ext_at`. `mtime` is the file's own time in seconds since 1970-01-01 UTC, and is shown
/// in UTC; a time before counts as that moment, and one past 9999-01-01 00:00:00 as this one. `/` and NUL of the
/// modifier are shown as `_`. `k` tells copies of one name apart: from 2 on, `-` and `k` follow the seconds.
pub fn conflict_name(
    alloc: Global,
    name: &Name,
    modifier: &Text,
    mtime: i64,
    k: u32,
) -> Result<Name, ConflictFault>
    requires from_one { 1 ≤ k }
    ensures value { IfOk result (λ made. made ≡ naming name.now modifier.now mtime k) }

    // The refusal. Want of memory may come in its place.
    ensures too_long { ExactlyWith is_no_memory result ConflictFault.TooLong (length (naming name.now modifier.now mtime k)) (MAX_NAME < length (naming name.now modifier.now mtime k)) }
{
    let text = name.as_str();
    let made = conflict_bytes(alloc, text.as_bytes(), modifier.as_bytes(), mtime, k)?;
    if made.len() > MAX_NAME {
        return Err(ConflictFault::TooLong(made.len() as u64));
    }
    name_of(alloc, made.as_slice())
}

/// The bytes of the name, of any length.
fn conflict_bytes(
    alloc: Global,
    name: &[u8],
    modifier: &[u8],
    mtime: i64,
    k: u32,
) -> Result<Vec<u8>, AllocError>
    ensures value { IfOk result (λ made. made.items ≡ naming name.now modifier.now mtime k) }
{
    let (stem, extension) = name.split_at(last_dot(name));
    let mut made = Vec::with_capacity(alloc, MAX_NAME)?;
    made.extend_from_slice(stem)?;
    made.extend_from_slice(b" (SFConflict ")?;
    push_shown(&mut made, modifier)?;
    made.push(b' ')?;
    made.extend_from_slice(stamp_at(mtime).as_slice())?;
    push_number(&mut made, k)?;
    made.push(b')')?;
    made.extend_from_slice(extension)?;
    Ok(made)
}

fn last_dot(name: &[u8]) -> usize
    ensures value { result ≡ extension_place name.now }
    ensures within { result ≤ length name.now }
{
    for place in (1..name.len()).rev() {
        if name[place] == b'.' {
            return place;
        }
    }
    name.len()
}

/// Appends a modifier as a name shows it.
fn push_shown(made: &mut Vec<u8>, modifier: &[u8]) -> Result<(), AllocError>
    ensures ok { OnOk result (made.new.items ≡ made.old.items ++ map shown_byte modifier.now) }
{
    for byte in modifier {
        made.push(shown(*byte))?;
    }
    Ok(())
}

fn shown(byte: u8) -> u8
    ensures value { result ≡ shown_byte byte }
{
    match byte {
        b'/' | 0 => b'_',
        _ => byte,
    }
}

/// Appends what tells a copy's number.
fn push_number(made: &mut Vec<u8>, k: u32) -> Result<(), AllocError>
    ensures ok { OnOk result (made.new.items ≡ made.old.items ++ number_text k) }
{
    if k < 2 {
        return Ok(());
    }
    made.push(b'-')?;
    let mut buffer = Buffer::new();
    made.extend_from_slice(buffer.format(k).as_bytes())?;
    Ok(())
}

/// The name with these bytes.
fn name_of(alloc: Global, bytes: &[u8]) -> Result<Name, ConflictFault>
    requires utf8 { IsUtf8 bytes.now }
    requires name { IsName bytes.now }
    ensures value { IfOk result (λ name. name ≡ bytes.now) }
    ensures refused { (length : ℕ) → result ≢ Err (ConflictFault.TooLong length) }
{
    match str::from_utf8(bytes) {
        Ok(text) => match Name::read(alloc, text) {
            Ok(name) => Ok(name),
            Err(NameFault::NoMemory) => Err(ConflictFault::NoMemory),
            Err(NameFault::Bad(_)) => unreachable!(),
        },
        Err(_) => unreachable!(),
    }
}
