//! How a library's folder is found, made and opened.
ghost use Rattle.std.specs.Prelude.{◌≡◌, IfOk, IfSome, IsSomeAnd};
ghost use Rattle.std.specs.String.{string_bytes};
ghost use Rattle.folder_storage.specs.Paths.{library_text};

use crate::earlier::{Earlier, earlier_objects, times_of};
use crate::file_system::{FileKind, FileSystem};
use crate::library_folder::LibraryFolder;
use crate::paths::{draft_path, library_path, listed_folder, moved_path, named_path};
use ids::{Kind, LibId};
use std::io;
use std::io::ErrorKind;

/// The folders of a library's folder, in which it is made ready.
const FOLDERS: [&str; 4] = ["tmp", "commits", "fs", "blocks"];

/// Opens the folder of a library, if it is there. One that another process has is a failure.
pub(crate) fn find_library<F: FileSystem + Drop>(
    files: &F,
    folder: &str,
    lib: &LibId,
) -> io::Result<Option<LibraryFolder<F>>>
    ensures folder { IfOk result (λ found. IfSome found (λ library. string_bytes library.path ≡ library_text folder.now lib.now)) }
{
    let mut files = files.another()?;
    let path = library_path(files.alloc(), folder, lib)?;
    if !is_there(&mut files, folder, path.as_str())? {
        return Ok(None);
    }
    let lock = named_path(files.alloc(), path.as_str(), "lock")?;
    files.lock(lock.as_str())?;
    make_ready(&mut files, path.as_str())?;
    let mark = named_path(files.alloc(), path.as_str(), "syncing")?;
    let is_marked = files.look(mark.as_str())?.is_some();
    bring_back(&mut files, path.as_str())?;
    let times = times_of(&mut files, path.as_str())?;
    let earlier = earlier_objects(&mut files, path.as_str(), times)?;
    let above = String::from_str(files.alloc(), folder)?;
    let mut library = LibraryFolder::new(files, path, above, earlier);
    library.is_marked = is_marked;
    library.is_in_doubt = is_marked;
    library.text_time = times.text;
    library.is_set_back = times.is_set_back;
    Ok(Some(library))
}

/// Makes the folder of a library, unless it is there. It is a folder of another name until it has a state text.
pub(crate) fn make_library<F: FileSystem + Drop>(
    files: &F,
    folder: &str,
    lib: &LibId,
) -> io::Result<Option<LibraryFolder<F>>>
    ensures folder { IfOk result (λ made. IfSome made (λ library. IsSomeAnd library.home (λ home. string_bytes home ≡ library_text folder.now lib.now))) }
{
    let mut files = files.another()?;
    let path = library_path(files.alloc(), folder, lib)?;
    if is_there(&mut files, folder, path.as_str())? {
        return Ok(None);
    }
    let draft = draft_path(files.alloc(), folder, lib)?;
    if !take_draft(&mut files, folder, path.as_str(), draft.as_str())? {
        return Ok(None);
    }
    take_away(&mut files, draft.as_str())?;
    make_ready(&mut files, draft.as_str())?;
    let above = String::from_str(files.alloc(), folder)?;
    let earlier = Earlier::none(files.alloc());
    let mut library = LibraryFolder::new(files, draft, above, earlier);
    library.home = Some(path);
    Ok(Some(library))
}

/// Takes the folder in which a library is made for this process. The answer is no where another process made the
/// library meanwhile.
fn take_draft<F: FileSystem>(
    files: &mut F,
    folder: &str,
    path: &str,
    draft: &str,
) -> io::Result<bool> {
    files.make_folder(draft)?;
    check_folder(files, draft)?;
    let lock = named_path(files.alloc(), draft, "lock")?;
    files.lock(lock.as_str())?;
    // Another process may have made it before this one had the lock: then the folder taken here is new and empty.
    if is_there(files, folder, path)? {
        let _ = files.remove_file(lock.as_str());
        let _ = files.remove_folder(draft);
        return Ok(false);
    }
    Ok(true)
}

/// Whether something is there, in a folder that has to be there.
fn is_there<F: FileSystem>(files: &mut F, above: &str, path: &str) -> io::Result<bool> {
    match files.look_through(above)? {
        Some(facts) if facts.kind == FileKind::Folder => Ok(files.look_through(path)?.is_some()),
        Some(_) => Err(io::Error::from(ErrorKind::NotADirectory)),
        None => Err(io::Error::from(ErrorKind::NotFound)),
    }
}

/// A folder has to stand at this path, and no link to one.
fn check_folder<F: FileSystem>(files: &mut F, path: &str) -> io::Result<()> {
    match files.look(path)? {
        Some(facts) if facts.kind == FileKind::Folder => Ok(()),
        Some(_) => Err(io::Error::from(ErrorKind::NotADirectory)),
        None => Err(io::Error::from(ErrorKind::NotFound)),
    }
}

/// Takes away all but the lock that is in the folder of a library that was not made to its end.
fn take_away<F: FileSystem>(files: &mut F, path: &str) -> io::Result<()> {
    for name in FOLDERS {
        let folder = named_path(files.alloc(), path, name)?;
        files.remove_all(folder.as_str())?;
    }
    for name in ["status", "syncing", "set-back"] {
        let file = named_path(files.alloc(), path, name)?;
        files.remove_file(file.as_str())?;
    }
    Ok(())
}

/// Makes the folders of a library that this process has taken, and takes away the spare files of a run that was killed.
fn make_ready<F: FileSystem>(files: &mut F, path: &str) -> io::Result<()> {
    for name in FOLDERS {
        let folder = named_path(files.alloc(), path, name)?;
        files.make_folder(folder.as_str())?;
    }
    let spares = named_path(files.alloc(), path, "tmp")?;
    if let Some(names) = files.list(spares.as_str())? {
        for name in &names {
            let spare = named_path(files.alloc(), spares.as_str(), name.as_str())?;
            let _ = files.remove_file(spare.as_str());
        }
    }
    Ok(())
}

/// Gives each folder of objects its name back that a run was about to enter anew as it was killed.
fn bring_back<F: FileSystem>(files: &mut F, library: &str) -> io::Result<()> {
    for kind in [Kind::Commit, Kind::Fs, Kind::Block] {
        for first in 0..=u8::MAX {
            let folder = listed_folder(files.alloc(), library, kind, first)?;
            let moved = moved_path(files.alloc(), folder.as_str())?;
            if files.look(moved.as_str())?.is_some() {
                files.rename(moved.as_str(), folder.as_str())?;
            }
        }
    }
    Ok(())
}
