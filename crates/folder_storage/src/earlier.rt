//! The objects that earlier runs may have put without making them durable.
use crate::file_system::{FileFacts, FileKind, FileSystem};
use crate::listing::id_of;
use crate::paths::{listed_folder, named_path};
use crate::whole::is_whole;
use ids::{Key, Kind};
use std::alloc::Global;
use std::io;

/// How many nanoseconds a folder may be older than the file that was moved into it: the clock may be set in between.
const MARGIN: i64 = 10_000_000_000;

/// The objects in a library's folder that no state text vouches for, as it was opened, and those that one vouches for
/// only as far as file times can be trusted.
#[derive(Drop)]
pub(crate) struct Earlier {
    /// Those that are older than the state text, where the clock was set back after it, sorted. They aren't read.
    pub(crate) near: Vec<Key>,
    /// Those that no text vouches for, and that read back as what their names say, sorted.
    pub(crate) whole: Vec<Key>,
    /// Those that no text vouches for, and that don't, sorted. They aren't stored, and can be put again. They are taken
    /// away before the next state text, which would vouch for them.
    pub(crate) torn: Vec<Key>,
}

/// The times by which files are told apart.
#[derive(Clone, Copy)]
pub(crate) struct Times {
    /// That of the state text, and the least one where there is none: it vouches for what is older.
    pub(crate) text: i64,
    /// Whether the mark stands that something was put after that text whose file is older.
    pub(crate) is_set_back: bool,
}

impl Earlier {
    /// No objects.
    pub(crate) fn none(alloc: Global) -> Earlier {
        Earlier {
            near: Vec::new(alloc),
            whole: Vec::new(alloc),
            torn: Vec::new(alloc),
        }
    }
}

/// The objects in a library's folder that may be later than its state text. Without a state text they are all of them, and
/// so they are where the mark of a clock that was set back stands.
///
/// What a run puts after a state text has a file time that is not before that of `status`, else that mark stands; and so
/// has, but for what the clock was set in between, its `xx` folder. A folder that has no such time is not read. A file that
/// can't be read is a failure, and no torn object.
pub(crate) fn earlier_objects<F: FileSystem>(
    files: &mut F,
    library: &str,
    times: Times,
) -> io::Result<Earlier> {
    let mut earlier = Earlier::none(files.alloc());
    for kind in [Kind::Commit, Kind::Fs, Kind::Block] {
        for first in 0..=u8::MAX {
            let folder = listed_folder(files.alloc(), library, kind, first)?;
            if is_since(files.look(folder.as_str())?, times) {
                add_objects(files, folder.as_str(), (kind, first), times, &mut earlier)?;
            }
        }
    }
    earlier.near.sort()?;
    earlier.whole.sort()?;
    earlier.torn.sort()?;
    Ok(earlier)
}

/// The time of the state text, and whether the mark stands that the clock was set back after it.
pub(crate) fn times_of<F: FileSystem>(files: &mut F, library: &str) -> io::Result<Times> {
    let mark = named_path(files.alloc(), library, "set-back")?;
    let is_set_back = files.look(mark.as_str())?.is_some();
    let status = named_path(files.alloc(), library, "status")?;
    let text = match files.look_through(status.as_str())? {
        Some(facts) => facts.changed,
        None => i64::MIN,
    };
    Ok(Times { text, is_set_back })
}

/// Whether a folder is there that may have been given an object after the state text.
fn is_since(facts: Option<FileFacts>, times: Times) -> bool {
    match facts {
        Some(facts) => { times.is_set_back || facts.changed >= times.text.saturating_sub(MARGIN) }
        None => false,
    }
}

/// Adds the objects of one folder, that of a kind's ids with this first byte, that may be later than the state text.
fn add_objects<F: FileSystem>(
    files: &mut F,
    folder: &str,
    place: (Kind, u8),
    times: Times,
    earlier: &mut Earlier,
) -> io::Result<()> {
    let (kind, first) = place;
    let names = match files.list(folder)? {
        Some(names) => names,
        None => return Ok(()),
    };
    for name in &names {
        if let Some(id) = id_of(files.alloc(), first, name.as_str())? {
            let path = named_path(files.alloc(), folder, name.as_str())?;
            if let Some(facts) = files.look(path.as_str())? {
                add_object(
                    files,
                    path.as_str(),
                    Key { kind, id },
                    facts,
                    times,
                    earlier,
                )?;
            }
        }
    }
    Ok(())
}

/// Adds the object whose file is at this path, unless it is older.
fn add_object<F: FileSystem>(
    files: &mut F,
    path: &str,
    key: Key,
    facts: FileFacts,
    times: Times,
    earlier: &mut Earlier,
) -> io::Result<()> {
    if facts.kind != FileKind::File {
        return Ok(());
    }
    if facts.changed >= times.text {
        return add_read(files, path, key, earlier);
    }
    if times.is_set_back {
        earlier.near.push(key)?;
    }
    Ok(())
}

/// Adds an object that no state text vouches for to those that read back, or to those that don't.
fn add_read<F: FileSystem>(
    files: &mut F,
    path: &str,
    key: Key,
    earlier: &mut Earlier,
) -> io::Result<()> {
    if let Some(bytes) = files.read(path)? {
        if is_whole(&key, bytes.as_slice()) {
            earlier.whole.push(key)?;
        } else {
            earlier.torn.push(key)?;
        }
    }
    Ok(())
}
