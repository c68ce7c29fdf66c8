//! The marker of a folder: with which library it was synced.
ghost use Rattle.std.specs.Prelude.{◌≡◌, ◌∷◌, [], IfOk, IsTrue};
ghost use Rattle.uuid.specs.Text.{hyphenated_text, lower};
ghost use Rattle.local_folder.specs.Marker.{TellsMarker, marker_name};
ghost use Rattle.local_folder.specs.Steps.{DoesAll, PutsSmall, filled_small, named_small, taken};

use crate::changes::{new_spare, takes_file};
use crate::directory_calls::{DirectoryCalls, EntryKind};
use crate::entries::{MARKER, SPARE, is_own_name};
use ids::LibId;
use std::alloc::Global;
use std::io;
use std::io::ErrorKind;
use std::str::from_utf8;
use tree_model::{Name, NameFault};

/// The length of a marker.
const CHARACTERS: usize = 36;

/// What a folder tells of the library with which it was synced.
#[derive(Clone, Copy, Debug, PartialEq, Eq)]
pub enum Marker {
    /// Nothing has the marker's name.
    Missing,
    /// It was synced with this library.
    Of(LibId),
    /// What has the marker's name is none.
    Bad,
}

/// The marker in a folder.
pub(crate) fn marker_in<C: DirectoryCalls>(calls: &mut C, root: &C::Dir) -> io::Result<Marker>
    ensures stays { C.steps calls.new ≡ C.steps calls.old }
{
    match calls.look(root, MARKER)? {
        None => Ok(Marker::Missing),
        Some(EntryKind::File) => {
            let mut room = [0; CHARACTERS + 1];
            let mut file = calls.open_file(root, MARKER)?;
            let count = calls.read(&mut file, 0, &mut room)?;
            Ok(marker_of(&room[..count]))
        }
        Some(_) => Ok(Marker::Bad),
    }
}

/// The marker that has these bytes.
fn marker_of(bytes: &[u8]) -> Marker
    ensures value { TellsMarker bytes.now result }
{
    let Ok(text) = from_utf8(bytes) else {
        return Marker::Bad;
    };
    match LibId::read(text) {
        Ok(lib) => Marker::Of(lib),
        Err(_) => Marker::Bad,
    }
}

/// Puts the marker of a library, in place of one that is there.
pub(crate) fn put_marker_in<C: DirectoryCalls>(
    calls: &mut C,
    root: &C::Dir,
    lib: &LibId,
) -> io::Result<()>
    requires root { IsTrue (C.stands_at root.now []) }
    ensures order { PutsSmall marker_name (hyphenated_text lower lib.now) (C.steps calls.old) (C.steps calls.new) result }
{
    let name = match own_name(calls.alloc(), MARKER) {
        Ok(name) => name,
        Err(failure) => return Err(failure),
    };
    put_small(calls, root, &name, &lib.digits())
}

/// Puts a small file into the folder itself, in place of one that is there: its bytes are durable before it takes its name, and its
/// name after. After a failure the spare may be left.
pub fn put_small<C: DirectoryCalls>(
    calls: &mut C,
    root: &C::Dir,
    name: &Name,
    bytes: &[u8],
) -> io::Result<()>
    requires root { IsTrue (C.stands_at root.now []) }
    ensures order { PutsSmall name.now bytes.now (C.steps calls.old) (C.steps calls.new) result }
{
    match new_spare(calls, root) {
        Ok(spare) => {
            let mut spare = spare;
            fill_small(calls, root, &mut spare, name, bytes)
        }
        Err(failure) => Err(failure),
    }
}

/// Fills the spare, and gives it a name.
fn fill_small<C: DirectoryCalls>(
    calls: &mut C,
    root: &C::Dir,
    spare: &mut C::File,
    name: &Name,
    bytes: &[u8],
) -> io::Result<()>
    requires root { IsTrue (C.stands_at root.now []) }
    ensures order { DoesAll (filled_small name.now bytes.now) (C.steps calls.old) (C.steps calls.new) result }
{
    if let Err(failure) = calls.write(spare, bytes) {
        return Err(failure);
    }
    if let Err(failure) = calls.sync_file(spare) {
        return Err(failure);
    }
    name_small(calls, root, name)
}

/// Gives the spare a name in the folder itself, in place of a file that is there.
fn name_small<C: DirectoryCalls>(calls: &mut C, root: &C::Dir, name: &Name) -> io::Result<()>
    requires root { IsTrue (C.stands_at root.now []) }
    ensures order { DoesAll (named_small name.now) (C.steps calls.old) (C.steps calls.new) result }
{
    if let Err(failure) = takes_file(calls, root, name) {
        return Err(failure);
    }
    if let Err(failure) = calls.rename(root, SPARE, root, name.as_str()) {
        return Err(failure);
    }
    calls.sync_names(root)
}

/// The name that has this text.
pub fn own_name(alloc: Global, text: &str) -> io::Result<Name>
    ensures value { IfOk result (λ name. name ≡ text.now) }
{
    match Name::read(alloc, text) {
        Ok(name) => Ok(name),
        Err(NameFault::Bad(_)) => Err(io::Error::from(ErrorKind::InvalidInput)),
        Err(NameFault::NoMemory) => Err(io::Error::from(ErrorKind::OutOfMemory)),
    }
}

/// Takes the marker away, durably.
pub(crate) fn take_marker<C: DirectoryCalls>(calls: &mut C, root: &C::Dir) -> io::Result<()>
    requires root { IsTrue (C.stands_at root.now []) }
    ensures order { DoesAll (taken (marker_name ∷ [])) (C.steps calls.old) (C.steps calls.new) result }
{
    if let Err(failure) = calls.remove_file(root, MARKER) {
        return Err(failure);
    }
    calls.sync_names(root)
}

/// Whether a file or a directory that a sync sees stands in the folder itself.
pub(crate) fn has_path_in<C: DirectoryCalls>(calls: &mut C, root: &C::Dir) -> io::Result<bool>
    ensures stays { C.steps calls.new ≡ C.steps calls.old }
{
    let found = calls.list(root)?;
    for name in &found.names {
        if !is_own_name(name.as_str()) && is_seen(calls, root, name.as_str())? {
            return Ok(true);
        }
    }
    Ok(false)
}

/// Whether what has this name is a file or a directory, and the name a good one.
fn is_seen<C: DirectoryCalls>(calls: &mut C, root: &C::Dir, name: &str) -> io::Result<bool>
    ensures stays { C.steps calls.new ≡ C.steps calls.old }
{
    match calls.look(root, name)? {
        None => return Ok(false),
        Some(EntryKind::Other) => return Ok(false),
        Some(_) => {}
    }
    match Name::read(calls.alloc(), name) {
        Ok(_) => Ok(true),
        Err(NameFault::Bad(_)) => Ok(false),
        Err(NameFault::NoMemory) => Err(io::Error::from(ErrorKind::OutOfMemory)),
    }
}
