//! The entries of a folder, reached part by part from its root.
ghost use Rattle.std.specs.Prelude.{◌≡◌, ◌≤◌, ◌∷◌, [], IfOk, IsTrue, length};

use crate::directory_calls::{DirectoryCalls, EntryKind, FileStamp};
use folder_side::{Item, ItemKind, Listing};
use ids::Items;
use std::alloc::{AllocError, Global};
use std::io;
use std::io::ErrorKind;
use tree_model::{Name, NameFault, Path};

/// Where new bytes are written first, in the folder itself: no scan sees it, and no path begins with it.
pub(crate) const SPARE: &str = ".seaf-cli.spare";

/// The folder's marker, in the folder itself: no scan sees it, and no path begins with it.
pub(crate) const MARKER: &str = ".seaf-cli.library";

/// The directory at a path, opened part by part from the root.
pub(crate) fn open_at<C: DirectoryCalls>(
    calls: &mut C,
    root: &C::Dir,
    names: &[Name],
) -> io::Result<C::Dir>
    requires root { IsTrue (C.stands_at root.now []) }
    ensures told { IfOk result (λ dir. IsTrue (C.stands_at dir names.now)) }
    ensures stays { C.steps calls.new ≡ C.steps calls.old }
{
    let mut dir = match calls.another(root) {
        Ok(dir) => dir,
        Err(failure) => return Err(failure),
    };
    for name in names {
        dir = match calls.open_directory(&dir, name.as_str()) {
            Ok(inner) => inner,
            Err(failure) => return Err(failure),
        };
    }
    Ok(dir)
}

/// Whether a name in the folder itself is the client's own: that of the spare, or of the marker.
pub(crate) fn is_own_name(name: &str) -> bool {
    name == SPARE || name == MARKER
}

/// Whether the names are those of the spare or the marker, or of something under them.
pub(crate) fn is_spare(names: &[Name]) -> bool {
    match names.first() {
        Some(first) => is_own_name(first.as_str()),
        None => false,
    }
}

/// The failure of a call on what no entry is.
pub(crate) fn no_entry() -> io::Error {
    io::Error::new(
        ErrorKind::NotFound,
        "it isn't there, or its name is seaf-cli's own",
    )
}

/// The failure of a call on a path at which never stands a file of the folder. It isn't told as one that is gone.
fn no_file() -> io::Error {
    io::Error::new(
        ErrorKind::InvalidInput,
        "it isn't there, or its name is seaf-cli's own",
    )
}

/// The entries of a directory in byte order of their names, without the spare and the marker.
pub(crate) fn listing_at<C: DirectoryCalls>(
    calls: &mut C,
    alloc: Global,
    root: &C::Dir,
    names: &[Name],
) -> io::Result<Listing>
    requires root { IsTrue (C.stands_at root.now []) }
    ensures stays { C.steps calls.new ≡ C.steps calls.old }
{
    if is_spare(names) {
        return Err(no_entry());
    }
    let dir = open_at(calls, root, names)?;
    let mut found = calls.list(&dir)?;
    found.names.sort()?;
    let mut listing = Listing {
        items: Items::new(alloc),
        nameless: found.nameless,
    };
    for name in &found.names {
        if !names.is_empty() || !is_own_name(name.as_str()) {
            add_entry(calls, alloc, &dir, name.as_str(), &mut listing)?;
        }
    }
    Ok(listing)
}

/// What stands at a path, as the listing of its directory has it: neither the spare nor the marker, nor what is listed under another name, as
/// where the file system takes letters of both cases for the same.
pub(crate) fn look_at<C: DirectoryCalls>(
    calls: &mut C,
    root: &C::Dir,
    names: &[Name],
) -> io::Result<Option<ItemKind>>
    requires root { IsTrue (C.stands_at root.now []) }
    ensures stays { C.steps calls.new ≡ C.steps calls.old }
{
    match names.split_last() {
        Some((name, above)) => {
            if is_spare(above) {
                return Err(no_entry());
            }
            if is_spare(names) {
                return Ok(None);
            }
            let dir = open_at(calls, root, above)?;
            look_in(calls, &dir, name.as_str())
        }
        None => Ok(None),
    }
}

/// What a directory lists under just this name. It is listed only where the system finds something.
fn look_in<C: DirectoryCalls>(
    calls: &mut C,
    dir: &C::Dir,
    name: &str,
) -> io::Result<Option<ItemKind>>
    ensures stays { C.steps calls.new ≡ C.steps calls.old }
{
    match calls.look(dir, name)? {
        Some(kind) => {
            if calls.is_listed(dir, name)? {
                Ok(Some(item_kind(kind)))
            } else {
                Ok(None)
            }
        }
        None => Ok(None),
    }
}

/// Adds an entry to a listing. One that is gone is left out, and one whose text is no name is counted.
fn add_entry<C: DirectoryCalls>(
    calls: &mut C,
    alloc: Global,
    dir: &C::Dir,
    name: &str,
    listing: &mut Listing,
) -> io::Result<()>
    ensures stays { C.steps calls.new ≡ C.steps calls.old }
{
    let kind = match calls.look(dir, name)? {
        Some(kind) => item_kind(kind),
        None => return Ok(()),
    };
    match Name::read(alloc, name) {
        Ok(name) => Ok(listing.items.push(Item { name, kind })?),
        Err(NameFault::Bad(_)) => {
            listing.nameless = listing.nameless.saturating_add(1);
            Ok(())
        }
        Err(NameFault::NoMemory) => Err(io::Error::from(AllocError)),
    }
}

/// What a sync sees of what stands under a name.
fn item_kind(kind: EntryKind) -> ItemKind {
    match kind {
        EntryKind::File => ItemKind::File,
        EntryKind::Directory => ItemKind::Dir,
        EntryKind::Other => ItemKind::Other,
    }
}

/// A file that was opened to be read.
#[derive(Drop)]
pub(crate) struct Reading<F> {
    path: Path,
    file: F,
    stamp: FileStamp,
    is_unread: bool,
}

/// Opens a file to be read from its start, and tells whether it is there.
pub(crate) fn open_to_read<C: DirectoryCalls>(
    calls: &mut C,
    root: &C::Dir,
    reading: &mut Option<Reading<C::File>>,
    file: &Path,
) -> io::Result<bool>
    requires root { IsTrue (C.stands_at root.now []) }
    ensures stays { C.steps calls.new ≡ C.steps calls.old }
{
    *reading = None;
    let opened = open_reading(calls, root, file);
    if is_gone(&opened) {
        return Ok(false);
    }
    *reading = Some(opened?);
    Ok(true)
}

/// Whether what was asked for isn't there.
fn is_gone<T>(outcome: &io::Result<T>) -> bool {
    match outcome {
        Ok(_) => false,
        Err(failure) => failure.kind() == ErrorKind::NotFound,
    }
}

/// Whether at a path still stands the file that was opened there last, as it was told then.
pub(crate) fn is_as_opened<C: DirectoryCalls>(
    calls: &mut C,
    root: &C::Dir,
    reading: &Option<Reading<C::File>>,
    file: &Path,
) -> io::Result<bool>
    requires root { IsTrue (C.stands_at root.now []) }
    ensures stays { C.steps calls.new ≡ C.steps calls.old }
{
    let Some(first) = stamp_of(reading, file) else {
        return Ok(false);
    };
    let now = stamp_at(calls, root, file);
    if is_gone(&now) {
        return Ok(false);
    }
    Ok(now? == first)
}

/// What was told of the file at this path as it was opened, if it was the last.
fn stamp_of<F>(reading: &Option<Reading<F>>, file: &Path) -> Option<FileStamp> {
    match reading {
        Some(open) => if open.path == *file {
            Some(open.stamp)
        } else {
            None
        },
        None => None,
    }
}

/// What is told of what stands at a path.
fn stamp_at<C: DirectoryCalls>(calls: &mut C, root: &C::Dir, file: &Path) -> io::Result<FileStamp>
    requires root { IsTrue (C.stands_at root.now []) }
    ensures stays { C.steps calls.new ≡ C.steps calls.old }
{
    match file.names().split_last() {
        Some((name, above)) => {
            let dir = open_at(calls, root, above)?;
            calls.stamp_at(&dir, name.as_str())
        }
        None => Err(no_entry()),
    }
}

/// Reads bytes of a file. It is opened as its first bytes are read, if it wasn't just before, or where another was read before.
pub(crate) fn read_at<C: DirectoryCalls>(
    calls: &mut C,
    root: &C::Dir,
    reading: &mut Option<Reading<C::File>>,
    file: &Path,
    place: u64,
    into: &mut [u8],
) -> io::Result<usize>
    requires root { IsTrue (C.stands_at root.now []) }
    ensures bound { IfOk result (λ count. count ≤ length into.new) }
    ensures stays { C.steps calls.new ≡ C.steps calls.old }
{
    if !goes_on(reading, file, place) {
        *reading = None;
        *reading = Some(open_reading(calls, root, file)?);
    }
    match reading {
        Some(open) => {
            open.is_unread = false;
            calls.read(&mut open.file, place, into)
        }
        None => Err(no_entry()),
    }
}

/// Whether a read goes on in the file that is open: it is the one at this path, and its start isn't read once more.
fn goes_on<F>(reading: &Option<Reading<F>>, file: &Path, place: u64) -> bool {
    match reading {
        Some(open) => (place > 0 || open.is_unread) && open.path == *file,
        None => false,
    }
}

/// Opens a file to read it.
fn open_reading<C: DirectoryCalls>(
    calls: &mut C,
    root: &C::Dir,
    file: &Path,
) -> io::Result<Reading<C::File>>
    requires root { IsTrue (C.stands_at root.now []) }
    ensures stays { C.steps calls.new ≡ C.steps calls.old }
{
    let path = file.copy(calls.alloc())?;
    if is_spare(file.names()) {
        return Err(no_file());
    }
    match file.names().split_last() {
        Some((name, above)) => {
            let dir = open_at(calls, root, above)?;
            let file = calls.open_file(&dir, name.as_str())?;
            let stamp = calls.stamp(&file)?;
            Ok(Reading {
                path,
                file,
                stamp,
                is_unread: true,
            })
        }
        None => Err(no_file()),
    }
}
