//! A folder of the file system: what stands in it, what its calls change, and what a link in it leads to.
use crate::folder_side_tests::path;
use crate::memory_folder_tests::{reads, write};
use crate::scratch::{has, is_opened, is_there, put_file, scratch, turned, within, work};
use crate::turned_calls::Turn;
use folder_side::{Folder, ItemKind, Listing};
use std::alloc::{AllocError, Global};
use std::test::Fail;
use std::{fs, io};
use tree_model::Path;

/// The kind of the item of a name, told by a letter; `-` where there is none.
fn letter(listing: &Listing, name: &str) -> &'static str {
    for item in listing.items.slice() {
        if item.name.as_str() == name {
            return match item.kind {
                ItemKind::File => "f",
                ItemKind::Dir => "d",
                ItemKind::Other => "o",
            };
        }
    }
    "-"
}

/// Whether these are the three entries of the root.
fn are_all(listing: &Listing) -> bool {
    listing.items.len() == 3
        && letter(listing, "a") == "f"
        && letter(listing, "d") == "d"
        && letter(listing, "l") == "o"
}

/// Whether the root has just these three entries.
fn lists<F: Folder>(alloc: Global, folder: &mut F) -> Result<bool, AllocError> {
    let root = Path::root(alloc);
    let told = folder.list(alloc, &root);
    drop(root);
    match told {
        Ok(listing) => {
            let are_all = are_all(&listing);
            drop(listing);
            Ok(are_all)
        }
        Err(_) => Ok(false),
    }
}

/// Whether a directory is listed.
fn is_listed<F: Folder>(alloc: Global, folder: &mut F, dir: &Path) -> bool {
    let told = folder.list(alloc, dir);
    let is_listed = told.is_ok();
    drop(told);
    is_listed
}

/// What is done with a path.
#[derive(Clone, Copy)]
enum Step {
    List,
    /// This is found, or nothing.
    Look(Option<ItemKind>),
    Make,
    Remove,
    /// `new` is written, by way of the spare.
    Write,
    /// `def` is read.
    ReadOld,
    /// `new` is read.
    ReadNew,
}

/// Whether it is done.
fn goes<F: Folder>(
    alloc: Global,
    folder: &mut F,
    step: Step,
    text: &str,
) -> Result<bool, AllocError> {
    let path = path(alloc, text)?;
    let is_done = match step {
        Step::List => is_listed(alloc, folder, &path),
        Step::Look(kind) => folder.look(&path) == Ok(kind),
        Step::Make => folder.make_dir(&path).is_ok(),
        Step::Remove => folder.remove(&path).is_ok(),
        Step::Write => write(folder, &path, b"new").is_ok(),
        Step::ReadOld => reads(folder, &path, 0, b"def"),
        Step::ReadNew => reads(folder, &path, 0, b"new"),
    };
    drop(path);
    Ok(is_done)
}

/// Steps one after another, and whether each is done. None is that would go through the link, or to where the spare stands.
const STEPS: [(Step, &str, bool); 28] = [
    (Step::Look(Some(ItemKind::File)), "d/f", true),
    (Step::Look(Some(ItemKind::Dir)), "d", true),
    (Step::Look(Some(ItemKind::Other)), "l", true),
    (Step::Look(None), "d/x", true),
    (Step::Look(None), ".seaf-cli.spare", true),
    (Step::Look(None), "a/x", false),
    (Step::Look(None), "x/y", false),
    (Step::Look(Some(ItemKind::File)), "l/f", false),
    (Step::ReadOld, "d/f", true),
    (Step::ReadOld, "l/f", false),
    (Step::List, "l", false),
    (Step::Make, "l/e", false),
    (Step::Remove, "l/f", false),
    (Step::Remove, "l", false),
    (Step::Write, "l/f", false),
    (Step::Write, "l", false),
    (Step::Write, "d", false),
    (Step::Write, ".seaf-cli.spare", false),
    (Step::Remove, "d", false),
    (Step::Make, "e", true),
    (Step::Make, "e", false),
    (Step::Write, "e/n", true),
    (Step::ReadNew, "e/n", true),
    (Step::Remove, "e/n", true),
    (Step::Remove, "e", true),
    (Step::Remove, "e", false),
    (Step::Write, "d/f", true),
    (Step::ReadNew, "d/f", true),
];

/// The path of the first of these that goes otherwise; no text where none does.
fn first_gone_otherwise<F: Folder>(
    alloc: Global,
    folder: &mut F,
) -> Result<&'static str, AllocError> {
    for (step, text, is_done) in STEPS {
        if goes(alloc, folder, step, text)? != is_done {
            return Ok(text);
        }
    }
    Ok("")
}

/// The first of all this that goes otherwise; no text where none does.
fn first_wrong<F: Folder>(alloc: Global, folder: &mut F) -> Result<&'static str, AllocError> {
    if !lists(alloc, folder)? {
        return Ok("listed first");
    }
    let text = first_gone_otherwise(alloc, folder)?;
    if !text.is_empty() {
        return Ok(text);
    }
    Ok(if lists(alloc, folder)? {
        ""
    } else {
        "listed last"
    })
}

/// That of the folder `work`.
fn first_wrong_at(rt: &HostRuntime, place: &str) -> io::Result<&'static str> {
    let mut folder = work(rt, place)?;
    let wrong = first_wrong(rt.alloc(), &mut folder);
    drop(folder);
    Ok(wrong?)
}

#[test]
fn a_folder_of_the_file_system_is_read_and_changed(rt: HostRuntime) -> Result<(), Fail> {
    let place = scratch(&rt, "changed")?;
    let wrong = first_wrong_at(&rt, place.as_str())?;
    fs::remove_dir_all(&rt, place.as_str())?;
    assert!(rt; wrong.is_empty(), "{wrong}");
    Ok(())
}

/// Whether the folder can't be opened while it is open, and the spare is gone then.
fn is_alone(rt: &HostRuntime, place: &str) -> io::Result<bool> {
    let folder = work(rt, place)?;
    let is_locked = !is_opened(rt, place);
    let faults = folder.end();
    Ok(is_locked && faults == 0 && !is_there(rt, place, "work/.seaf-cli.spare")?)
}

/// The same where a run that was killed left a spare, and whether the folder is opened again after it.
fn is_opened_once(rt: &HostRuntime, place: &str) -> io::Result<bool> {
    put_file(rt, place, "work/.seaf-cli.spare", "left")?;
    Ok(is_alone(rt, place)? && is_opened(rt, place))
}

#[test]
fn one_client_at_a_time_has_a_folder(rt: HostRuntime) -> Result<(), Fail> {
    let place = scratch(&rt, "locked")?;
    let is_right = is_opened_once(&rt, place.as_str())?;
    fs::remove_dir_all(&rt, place.as_str())?;
    assert!(rt; is_right);
    Ok(())
}

/// Whether a listing of the root is an answer, or a look at this entry of it.
fn tells_something<F: Folder>(alloc: Global, folder: &mut F, entry: &Path) -> bool {
    let root = Path::root(alloc);
    let tells = is_listed(alloc, folder, &root) || folder.look(entry).is_ok();
    drop(root);
    tells
}

/// Removes the folder `work`.
fn remove_work(rt: &HostRuntime, place: &str) -> io::Result<()> {
    let path = within(rt, place, "work")?;
    let removed = fs::remove_dir_all(rt, path.as_str());
    drop(path);
    removed
}

/// Whether a folder that was removed tells something, of this entry too.
fn tells_removed(rt: &HostRuntime, place: &str, entry: &Path) -> io::Result<bool> {
    let mut folder = work(rt, place)?;
    let removed = remove_work(rt, place);
    let tells = tells_something(rt.alloc(), &mut folder, entry);
    drop(folder);
    removed?;
    Ok(tells)
}

/// The same of the entry `a`.
fn tells_once_removed(rt: &HostRuntime, place: &str) -> io::Result<bool> {
    let entry = path(rt.alloc(), "a")?;
    let tells = tells_removed(rt, place, &entry);
    drop(entry);
    tells
}

#[test]
fn a_folder_that_was_removed_is_no_empty_folder(rt: HostRuntime) -> Result<(), Fail> {
    let place = scratch(&rt, "removed")?;
    let is_told = tells_once_removed(&rt, place.as_str())?;
    fs::remove_dir_all(&rt, place.as_str())?;
    assert!(rt; !is_told);
    Ok(())
}

/// Reads a file and writes it, and tells whether what was read isn't what stands outside.
fn reads_inside<F: Folder>(folder: &mut F, file: &Path) -> bool {
    let is_outside = reads(folder, file, 0, b"spy");
    let _ = write(folder, file, b"new");
    !is_outside
}

/// The same over such calls, where the folder can be opened.
fn reads_file_turned(rt: &HostRuntime, place: &str, turn: Turn, at: u64, file: &Path) -> bool {
    match turned(rt, place, turn, at) {
        Ok(folder) => {
            let mut folder = folder;
            let is_inside = reads_inside(&mut folder, file);
            drop(folder);
            is_inside
        }
        Err(_) => true,
    }
}

/// The same of the file `d/f`.
fn reads_turned(rt: &HostRuntime, place: &str, turn: Turn, at: u64) -> io::Result<bool> {
    let file = path(rt.alloc(), "d/f")?;
    let is_inside = reads_file_turned(rt, place, turn, at, &file);
    drop(file);
    Ok(is_inside)
}

/// Whether the file outside still has its bytes, and the one in the folder its old or its new ones, wherever its directory
/// is now.
fn stand_whole(rt: &HostRuntime, place: &str) -> io::Result<bool> {
    let inside = if is_there(rt, place, "kept/f")? {
        "kept/f"
    } else {
        "work/d/f"
    };
    Ok(
        has(rt, place, "outside/f", "spy")?
            && (has(rt, place, inside, "def")? || has(rt, place, inside, "new")?),
    )
}

/// Whether neither a read nor a write goes through a link that takes the place of a directory, or a call that fails, at
/// this number of calls.
fn stays_inside(rt: &HostRuntime, name: &str, turn: Turn, at: u64) -> io::Result<bool> {
    let place = scratch(rt, name)?;
    let is_right = stays_inside_at(rt, place.as_str(), turn, at);
    drop(place);
    is_right
}

/// The same of what stands at a place, which is removed then.
fn stays_inside_at(rt: &HostRuntime, place: &str, turn: Turn, at: u64) -> io::Result<bool> {
    let is_right = reads_turned(rt, place, turn, at)? && stand_whole(rt, place)?;
    fs::remove_dir_all(rt, place)?;
    Ok(is_right)
}

/// More calls than reading and writing a file make.
const CALLS: u64 = 24;

/// The first call at which something goes wrong so, or `CALLS`.
fn first_outside(rt: &HostRuntime, name: &str, turn: Turn) -> io::Result<u64> {
    for at in 0..CALLS {
        if !stays_inside(rt, name, turn, at)? {
            return Ok(at);
        }
    }
    Ok(CALLS)
}

#[test]
fn a_link_that_is_put_there_meanwhile_is_not_followed(rt: HostRuntime) -> Result<(), Fail> {
    let at = first_outside(&rt, "link", Turn::Link)?;
    assert!(rt; at == CALLS, "{at}");
    Ok(())
}

#[test]
fn a_call_that_fails_leaves_the_old_or_the_new(rt: HostRuntime) -> Result<(), Fail> {
    let at = first_outside(&rt, "fault", Turn::Fault)?;
    assert!(rt; at == CALLS, "{at}");
    Ok(())
}

/// Whether only `a` stands there and no file `A` takes its place where both names find one file, and `a` is replaced all the
/// same.
fn keeps_small<F: Folder>(folder: &mut F, small: &Path, large: &Path) -> bool {
    folder.look(large) == Ok(None)
        && folder.look(small) == Ok(Some(ItemKind::File))
        && write(folder, large, b"big").is_err()
        && reads(folder, small, 0, b"abc")
        && write(folder, small, b"new").is_ok()
        && reads(folder, small, 0, b"new")
}

/// The same with the paths of both.
fn keeps_both<F: Folder>(alloc: Global, folder: &mut F) -> Result<bool, AllocError> {
    let small = path(alloc, "a")?;
    match path(alloc, "A") {
        Ok(large) => {
            let is_kept = keeps_small(folder, &small, &large);
            drop(small);
            drop(large);
            Ok(is_kept)
        }
        Err(why) => {
            drop(small);
            Err(why)
        }
    }
}

/// The same of the folder `work`.
fn keeps_both_at(rt: &HostRuntime, place: &str) -> io::Result<bool> {
    let mut folder = turned(rt, place, Turn::Fold, 0)?;
    let is_kept = keeps_both(rt.alloc(), &mut folder);
    drop(folder);
    Ok(is_kept?)
}

#[test]
fn a_file_whose_name_differs_in_case_alone_is_not_replaced(rt: HostRuntime) -> Result<(), Fail> {
    let place = scratch(&rt, "case")?;
    let is_kept = keeps_both_at(&rt, place.as_str())?;
    fs::remove_dir_all(&rt, place.as_str())?;
    assert!(rt; is_kept);
    Ok(())
}
