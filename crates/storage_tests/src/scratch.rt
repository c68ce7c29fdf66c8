//! A temporary folder, and the library of these tests in it.
use crate::library::{lib, there};
use folder_storage::{FolderGround, Ground, SystemFiles};
use std::test::Fail;
use std::{env, fs, io, process};

/// The path of a folder of this test's own.
fn path_of(rt: &HostRuntime, name: &str) -> io::Result<String> {
    let temporary = env::temp_dir(rt)?;
    let number = process::id(rt.process());
    let path = format!(in rt.alloc(); "{}/storage_tests-{number}-{name}", temporary.as_str());
    drop(temporary);
    Ok(path?)
}

/// A folder of this test's own.
pub(crate) fn scratch(rt: &HostRuntime, name: &str) -> io::Result<String> {
    let folder = path_of(rt, name)?;
    match fs::create_dir(rt, folder.as_str()) {
        Ok(()) => Ok(folder),
        Err(why) => {
            drop(folder);
            Err(why)
        }
    }
}

/// Takes the folder away once the test is done.
pub(crate) fn clear(rt: &HostRuntime, folder: &str) -> io::Result<()> {
    fs::remove_dir_all(rt, folder)
}

/// The path of something in a folder.
pub(crate) fn within(rt: &HostRuntime, folder: &str, name: &str) -> io::Result<String> {
    Ok(format!(in rt.alloc(); "{folder}/{name}")?)
}

/// The ground of the file system.
pub(crate) fn ground(rt: &HostRuntime) -> Result<FolderGround<SystemFiles<HostRuntime>>, Fail> {
    Ok(FolderGround::new(rt.clone()?))
}

/// The library of these tests, made in a folder.
pub(crate) fn made<G: Ground>(libraries: &mut G, folder: &str) -> Result<G::S, Fail>
where
    G::S: Drop,
{
    there(libraries.make(folder, lib()))
}

/// The shelf of that library, made by a ground that is let go.
pub(crate) fn shelf_in<G: Ground + Drop>(libraries: G, folder: &str) -> Result<G::S, Fail>
where
    G::S: Drop,
{
    let mut libraries = libraries;
    let shelf = made(&mut libraries, folder);
    drop(libraries);
    shelf
}
