//! A file that is opened in a folder of the file system, and what another program does with it.
use crate::folder_side_tests::path;
use crate::memory_folder_tests::reads;
use crate::scratch::{scratch, within, work};
use folder_side::Folder;
use std::alloc::{AllocError, Global};
use std::test::Fail;
use std::{fs, io};

/// What another program does with the file `a`.
#[derive(Clone, Copy, PartialEq, Eq)]
enum Deed {
    Nothing,
    /// It writes a byte more.
    Writes,
    /// It puts another file of the same bytes in its place.
    Replaces,
    Removes,
}

fn do_deed(rt: &HostRuntime, place: &str, deed: Deed) -> io::Result<()> {
    let file = within(rt, place, "work/a")?;
    let other = within(rt, place, "work/other")?;
    match deed {
        Deed::Nothing => Ok(()),
        Deed::Writes => fs::write(rt, file.as_str(), "abcd"),
        Deed::Replaces => {
            fs::write(rt, other.as_str(), "abc")?;
            fs::rename(rt, other.as_str(), file.as_str())
        }
        Deed::Removes => fs::remove_file(rt, file.as_str()),
    }
}

/// Whether the file `a` is opened and read, and is as it was opened once that was done.
fn is_as_opened_behind(rt: &HostRuntime, place: &str, deed: Deed) -> io::Result<bool> {
    let file = path(rt.alloc(), "a")?;
    let mut folder = work(rt, place)?;
    let is_read = folder.open_file(&file) == Ok(true) && reads(&mut folder, &file, 0, b"abc");
    do_deed(rt, place, deed)?;
    Ok(is_read && folder.is_as_opened(&file) == Ok(true))
}

/// The same in a folder of its own, and whether it is so just where nothing was done.
fn tells_deed(rt: &HostRuntime, deed: Deed) -> io::Result<bool> {
    let place = scratch(rt, "opened")?;
    let is_same = is_as_opened_behind(rt, place.as_str(), deed)?;
    fs::remove_dir_all(rt, place.as_str())?;
    Ok(is_same == (deed == Deed::Nothing))
}

#[test]
fn a_file_is_as_it_was_opened_until_it_is_changed(rt: HostRuntime) -> Result<(), Fail> {
    for deed in [Deed::Nothing, Deed::Writes, Deed::Replaces, Deed::Removes] {
        let is_told = tells_deed(&rt, deed)?;
        assert!(rt; is_told);
    }
    Ok(())
}

/// Whether a file that isn't there is told as gone, and what is no file fails.
fn opens_files_alone<F: Folder>(alloc: Global, folder: &mut F) -> Result<bool, AllocError> {
    let gone = folder.open_file(&path(alloc, "x")?);
    let link = folder.open_file(&path(alloc, "l")?);
    let spare = folder.open_file(&path(alloc, ".seaf-cli.spare")?);
    Ok(gone == Ok(false) && link.is_err() && spare.is_err())
}

/// The same of the folder `work`; and whether one that was removed tells nothing as gone.
fn opens_so(rt: &HostRuntime, place: &str) -> io::Result<bool> {
    let file = path(rt.alloc(), "a")?;
    let mut folder = work(rt, place)?;
    let is_right = opens_files_alone(rt.alloc(), &mut folder)?;
    fs::remove_dir_all(rt, within(rt, place, "work")?.as_str())?;
    Ok(is_right && folder.open_file(&file).is_err())
}

#[test]
fn a_file_that_is_gone_is_told_in_its_folder_alone(rt: HostRuntime) -> Result<(), Fail> {
    let place = scratch(&rt, "gone")?;
    let is_right = opens_so(&rt, place.as_str())?;
    fs::remove_dir_all(&rt, place.as_str())?;
    assert!(rt; is_right);
    Ok(())
}
