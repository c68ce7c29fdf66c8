//! What is to be made durable before a state text is written, over the runs that put it, by the times of files.
use crate::library::{done, slot_of};
use crate::lossy_files::LossyFiles;
use crate::lossy_runs::{opened, with_text};
use folder_storage::{FileSystem, FolderShelf};
use ids::Kind;
use object_store::{Shelf, Slot};
use std::alloc::Global;
use std::test::Fail;

/// When the state text of these rows was written, in nanoseconds: long before what the rows put.
const WRITTEN: i64 = 1_000_000_000_000_000_000;

/// The same of a text that was written before the clock was set back: long after.
const AHEAD: i64 = 3_000_000_000_000_000_000;

/// A second, in nanoseconds.
const SECOND: i64 = 1_000_000_000;

// Three texts whose ids begin with the same byte, in the order of their ids: one older than the text, one of the same time,
// and one that is later.
const OLD: &str = "70";

const COARSE: &str = "79";

const LATE: &str = "51";

const STATUS: &str = "F/11111111-2222-4333-8444-555555555555/status";

const OLD_FILE: &str =
    "F/11111111-2222-4333-8444-555555555555/blocks/b7/103ca278a75cad8f7d065acda0c2e80da0b7dc";

const COARSE_FILE: &str =
    "F/11111111-2222-4333-8444-555555555555/blocks/b7/4f5ee9461495ba5ca4c72a7108a23904c27a05";

const OLD_FOLDER: &str = "F/11111111-2222-4333-8444-555555555555/fs/c0";

/// The syncs of the objects that no older text vouches for.
const SYNCED: [&str; 3] = [
    "sync F/11111111-2222-4333-8444-555555555555/commits/bf/21a9e8fbc5a3846fb05b4fa0859e0917b2202f\n",
    "sync F/11111111-2222-4333-8444-555555555555/blocks/b7/4f5ee9461495ba5ca4c72a7108a23904c27a05\n",
    "sync F/11111111-2222-4333-8444-555555555555/blocks/b7/eb6c689c037217079766fdb77c3bac3e51cb4c\n",
];

/// The files of a shelf, once an object is put.
fn after_put(
    shelf: &mut FolderShelf<LossyFiles>,
    kind: Kind,
    text: &str,
) -> Result<LossyFiles, Fail> {
    done(shelf.put(slot_of(kind, text), text.as_bytes()))?;
    Ok(shelf.files().another()?)
}

/// Puts an object in a run of its own, which writes no state text. The answer are the files as it left them.
fn put_in_a_run(files: LossyFiles, kind: Kind, text: &str) -> Result<LossyFiles, Fail> {
    let mut shelf = opened(files)?;
    let files = after_put(&mut shelf, kind, text);
    drop(shelf);
    files
}

/// Whether all these calls were made.
fn made_all(shelf: &FolderShelf<LossyFiles>, calls: &[&str]) -> bool {
    for call in calls {
        if !shelf.files().calls().contains(*call) {
            return false;
        }
    }
    true
}

/// The files of a library with a state text, and objects that four later runs put.
fn with_objects(alloc: Global) -> Result<LossyFiles, Fail> {
    let files = put_in_a_run(with_text(alloc)?, Kind::Block, LATE)?;
    let files = put_in_a_run(files, Kind::Block, OLD)?;
    let files = put_in_a_run(files, Kind::Fs, "old")?;
    let files = put_in_a_run(files, Kind::Block, COARSE)?;
    put_in_a_run(files, Kind::Commit, "{}")
}

/// Whether a first text makes all these calls, with so many syncs in all, and a second one has two syncs more.
fn texts_sync(shelf: &mut FolderShelf<LossyFiles>, calls: &[&str], syncs: u64) -> bool {
    shelf.put(Slot::Status, b"2").is_ok()
        && made_all(shelf, calls)
        && shelf.files().syncs() == syncs
        && shelf.put(Slot::Status, b"3").is_ok()
        && shelf.files().syncs() == syncs.saturating_add(2)
}

/// Sets the times by which they are told apart.
fn set_times(files: &mut LossyFiles) -> Result<(), Fail> {
    files.set_changed(STATUS, WRITTEN)?;
    files.set_changed(OLD_FILE, WRITTEN - 1)?;
    files.set_changed(COARSE_FILE, WRITTEN)?;
    files.set_changed(OLD_FOLDER, WRITTEN - 11 * SECOND)?;
    Ok(())
}

/// Those files, with these times.
fn timed(alloc: Global) -> Result<LossyFiles, Fail> {
    let mut files = with_objects(alloc)?;
    match set_times(&mut files) {
        Ok(()) => Ok(files),
        Err(why) => {
            drop(files);
            Err(why)
        }
    }
}

#[test]
fn objects_of_an_earlier_run_are_made_durable(rt: HostRuntime) -> Result<(), Fail> {
    assert!(rt; shows(rt.alloc(), Row::Earlier)?);
    Ok(())
}

/// The calls of a put whose file is older than the state text.
const PUT_BEHIND: &str = "\
write F/11111111-2222-4333-8444-555555555555/tmp/spare
write F/11111111-2222-4333-8444-555555555555/set-back
sync F/11111111-2222-4333-8444-555555555555/set-back
sync F/11111111-2222-4333-8444-555555555555
make F/11111111-2222-4333-8444-555555555555/blocks/b7
rename to F/11111111-2222-4333-8444-555555555555/blocks/b7/103ca278a75cad8f7d065acda0c2e80da0b7dc
";

/// Those of the next one, into the same folder.
const PUT_NEXT: &str = "\
write F/11111111-2222-4333-8444-555555555555/tmp/spare
rename to F/11111111-2222-4333-8444-555555555555/blocks/b7/4f5ee9461495ba5ca4c72a7108a23904c27a05
";

/// Files in which what stands at a path was changed then.
fn changed_at(files: LossyFiles, path: &str, changed: i64) -> Result<LossyFiles, Fail> {
    let mut files = files;
    match files.set_changed(path, changed) {
        Ok(()) => Ok(files),
        Err(why) => {
            drop(files);
            Err(Fail::from(why))
        }
    }
}

/// The files of a library whose state text was written before the clock was set back.
fn set_back(alloc: Global) -> Result<LossyFiles, Fail> {
    changed_at(with_text(alloc)?, STATUS, AHEAD)
}

/// Whether a put of a block makes these calls after those that were made.
fn puts_so(shelf: &mut FolderShelf<LossyFiles>, text: &str, made: &str, calls: &str) -> bool {
    shelf
        .put(slot_of(Kind::Block, text), text.as_bytes())
        .is_ok()
        && shelf.files().calls().strip_prefix(made) == Some(calls)
}

/// Whether a first put leaves the mark before its move, and a second one leaves none.
fn leaves_a_mark_once(shelf: &mut FolderShelf<LossyFiles>) -> bool {
    puts_so(shelf, OLD, "", PUT_BEHIND) && puts_so(shelf, COARSE, PUT_BEHIND, PUT_NEXT)
}

/// The end of the mark.
const UNMARKED: &str = "remove F/11111111-2222-4333-8444-555555555555/set-back\n";

/// Whether a first text makes both durable, and takes the mark away.
fn syncs_both(shelf: &mut FolderShelf<LossyFiles>) -> bool {
    // Besides the folder of both and that of their kind, the text, and the folders that name it and the library.
    texts_sync(shelf, &BOTH, 7) && shelf.files().calls().contains(UNMARKED)
}

/// The same of a later run over these files.
fn later_syncs_both(files: &LossyFiles) -> Result<bool, Fail> {
    let mut shelf = opened(files.another()?)?;
    let synced = syncs_both(&mut shelf);
    drop(shelf);
    Ok(synced)
}

/// Whether a mark is left once, and a later run syncs both.
fn is_watched(shelf: &mut FolderShelf<LossyFiles>) -> Result<bool, Fail> {
    Ok(leaves_a_mark_once(shelf) && later_syncs_both(shelf.files())?)
}

#[test]
fn what_is_put_after_the_clock_was_set_back_is_made_durable(rt: HostRuntime) -> Result<(), Fail> {
    assert!(rt; shows(rt.alloc(), Row::SetBack)?);
    Ok(())
}

/// The files of a shelf, once its state text is removed.
fn after_removal(shelf: &mut FolderShelf<LossyFiles>) -> Result<LossyFiles, Fail> {
    done(shelf.remove(Slot::Status))?;
    Ok(shelf.files().another()?)
}

/// The files of a library whose state text was removed.
fn removed(alloc: Global) -> Result<LossyFiles, Fail> {
    let mut shelf = opened(with_text(alloc)?)?;
    let files = after_removal(&mut shelf);
    drop(shelf);
    files
}

/// The same of one to which a block was put then.
fn without_text(alloc: Global) -> Result<LossyFiles, Fail> {
    let files = put_in_a_run(removed(alloc)?, Kind::Block, OLD)?;
    changed_at(files, OLD_FILE, WRITTEN)
}

/// The syncs of two blocks, of which one was put by an earlier run.
const BOTH: [&str; 2] = [
    "sync F/11111111-2222-4333-8444-555555555555/blocks/b7/103ca278a75cad8f7d065acda0c2e80da0b7dc\n",
    "sync F/11111111-2222-4333-8444-555555555555/blocks/b7/4f5ee9461495ba5ca4c72a7108a23904c27a05\n",
];

/// Whether the later block is put.
fn puts_later(shelf: &mut FolderShelf<LossyFiles>) -> bool {
    shelf
        .put(slot_of(Kind::Block, COARSE), COARSE.as_bytes())
        .is_ok()
}

/// What a run shows over what earlier ones put.
#[derive(Clone, Copy)]
enum Row {
    /// Objects of four of them.
    Earlier,
    /// A state text that was written before the clock was set back.
    SetBack,
    /// No state text.
    WithoutText,
}

/// The files of a row.
fn files_of(alloc: Global, row: Row) -> Result<LossyFiles, Fail> {
    match row {
        Row::Earlier => timed(alloc),
        Row::SetBack => set_back(alloc),
        Row::WithoutText => without_text(alloc),
    }
}

/// Whether a run shows what it should.
fn goes(shelf: &mut FolderShelf<LossyFiles>, row: Row) -> Result<bool, Fail> {
    match row {
        // Besides two folders of objects and the two of their kinds, the text, and the folders that name it and the library.
        Row::Earlier => Ok(texts_sync(shelf, &SYNCED, 10)),
        Row::SetBack => is_watched(shelf),
        // Besides the folder of both and that of their kind, the text, and the folders that name it and the library.
        Row::WithoutText => Ok(puts_later(shelf) && texts_sync(shelf, &BOTH, 7)),
    }
}

/// The same of a run over the files of a row.
fn shows(alloc: Global, row: Row) -> Result<bool, Fail> {
    let mut shelf = opened(files_of(alloc, row)?)?;
    let shown = goes(&mut shelf, row);
    drop(shelf);
    shown
}

#[test]
fn without_a_state_text_all_objects_are_made_durable_once(rt: HostRuntime) -> Result<(), Fail> {
    assert!(rt; shows(rt.alloc(), Row::WithoutText)?);
    Ok(())
}
