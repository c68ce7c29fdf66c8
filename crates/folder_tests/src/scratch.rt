//! Temporary folders, what stands in them, and the folder `work` in one.
use crate::turned_calls::{Turn, TurnedCalls};
use local_folder::{LocalFolder, Permissions, SystemDirectories};
use std::{env, fs, io, process};

/// A folder of this test's own, with the folder `work`, in which are the file `a` of the bytes `abc`, the directory `d` with
/// `d/f` of `def`, and a link `l` that leads to `d`; beside it the folder `outside` with `f` of `spy`.
pub(crate) fn scratch(rt: &HostRuntime, name: &str) -> io::Result<String> {
    let place = path_of(rt, name)?;
    match make_and_fill(rt, place.as_str()) {
        Ok(()) => Ok(place),
        Err(why) => {
            drop(place);
            Err(why)
        }
    }
}

/// Its path.
fn path_of(rt: &HostRuntime, name: &str) -> io::Result<String> {
    let temporary = env::temp_dir(rt)?;
    let number = process::id(rt.process());
    let place = format!(in rt.alloc(); "{}/folder_tests-{number}-{name}", temporary.as_str());
    drop(temporary);
    Ok(place?)
}

/// Makes it, and what stands in it.
fn make_and_fill(rt: &HostRuntime, place: &str) -> io::Result<()> {
    fs::create_dir(rt, place)?;
    for dir in ["outside", "work", "work/d"] {
        make_dir(rt, place, dir)?;
    }
    for (file, text) in [("outside/f", "spy"), ("work/a", "abc"), ("work/d/f", "def")] {
        put_file(rt, place, file, text)?;
    }
    make_link(rt, place)
}

fn make_dir(rt: &HostRuntime, place: &str, dir: &str) -> io::Result<()> {
    let path = within(rt, place, dir)?;
    let made = fs::create_dir(rt, path.as_str());
    drop(path);
    made
}

pub(crate) fn put_file(rt: &HostRuntime, place: &str, file: &str, text: &str) -> io::Result<()> {
    let path = within(rt, place, file)?;
    let put = fs::write(rt, path.as_str(), text);
    drop(path);
    put
}

fn make_link(rt: &HostRuntime, place: &str) -> io::Result<()> {
    let path = within(rt, place, "work/l")?;
    let made = std::os::unix::fs::symlink(rt, "d", path.as_str());
    drop(path);
    made
}

/// The path of something in a folder.
pub(crate) fn within(rt: &HostRuntime, place: &str, name: &str) -> io::Result<String> {
    Ok(format!(in rt.alloc(); "{place}/{name}")?)
}

/// Whether something stands in the place.
pub(crate) fn is_there(rt: &HostRuntime, place: &str, name: &str) -> io::Result<bool> {
    let path = within(rt, place, name)?;
    let is_there = fs::exists(rt, path.as_str());
    drop(path);
    is_there
}

/// The text of a file.
fn text_of(rt: &HostRuntime, place: &str, name: &str) -> io::Result<String> {
    let path = within(rt, place, name)?;
    let text = fs::read_to_string(rt, path.as_str());
    drop(path);
    text
}

/// Whether a file has this text.
pub(crate) fn has(rt: &HostRuntime, place: &str, name: &str, wanted: &str) -> io::Result<bool> {
    let text = text_of(rt, place, name)?;
    let is_wanted = text.as_str() == wanted;
    drop(text);
    Ok(is_wanted)
}

/// The folder `work`, opened.
pub(crate) fn work(
    rt: &HostRuntime,
    place: &str,
) -> io::Result<LocalFolder<SystemDirectories<HostRuntime>>> {
    let calls = SystemDirectories::new(rt.clone()?, Permissions::Usual);
    match within(rt, place, "work") {
        Ok(path) => {
            let folder = LocalFolder::open(calls, path.as_str());
            drop(path);
            folder
        }
        Err(why) => {
            drop(calls);
            Err(why)
        }
    }
}

/// Whether the folder can be opened.
pub(crate) fn is_opened(rt: &HostRuntime, place: &str) -> bool {
    let folder = work(rt, place);
    let is_opened = folder.is_ok();
    drop(folder);
    is_opened
}

/// The calls of the system, of which one is turned.
fn turned_calls(
    rt: &HostRuntime,
    place: &str,
    turn: Turn,
    at: u64,
) -> io::Result<TurnedCalls<SystemDirectories<HostRuntime>>> {
    let own = rt.clone()?;
    match rt.clone() {
        Ok(other) => {
            let calls = SystemDirectories::new(own, Permissions::Usual);
            Ok(TurnedCalls::new(calls, other, rt.alloc(), place, turn, at)?)
        }
        Err(why) => {
            drop(own);
            Err(why.into())
        }
    }
}

/// The folder `work` over such calls.
pub(crate) fn turned(
    rt: &HostRuntime,
    place: &str,
    turn: Turn,
    at: u64,
) -> io::Result<LocalFolder<TurnedCalls<SystemDirectories<HostRuntime>>>> {
    let calls = turned_calls(rt, place, turn, at)?;
    match within(rt, place, "work") {
        Ok(path) => {
            let folder = LocalFolder::open(calls, path.as_str());
            drop(path);
            folder
        }
        Err(why) => {
            drop(calls);
            Err(why)
        }
    }
}
