//! One sync fails, the server goes on or starts anew, and then the power fails: what stands?
use crate::library::{done, is_fault, slot_of};
use crate::lossy_files::LossyFiles;
use crate::lossy_nodes::Also;
use crate::lossy_runs::{failing, has, made, opened, put_what_lacks, stands, with_text};
use folder_storage::{FileSystem, FolderShelf};
use ids::Kind;
use object_store::{Shelf, ShelfFailed, Slot};
use std::alloc::Global;
use std::test::Fail;

/// Puts a text. The answer is the text that was answered last.
fn put_text(shelf: &mut FolderShelf<LossyFiles>, text: u8, answered: u8) -> u8 {
    match shelf.put(Slot::Status, &[text]) {
        Ok(()) => text,
        Err(_) => answered,
    }
}

/// An update in which the sync with this number fails, and another one in the same run: whether what is answered is so, and
/// stands, and the text that was answered last.
fn goes_on(shelf: &mut FolderShelf<LossyFiles>, case: u64) -> Result<(bool, u8), Fail> {
    put_what_lacks(shelf)?;
    let first = put_text(shelf, b'2', b'1');
    // What of an object was not synced is written anew at once: the failures of the others are answered.
    let is_told = (first == b'1') == (4..SYNCS).contains(&case);
    let stood = stands(shelf.files(), first)?;
    let second = put_text(shelf, b'3', first);
    Ok((is_told && stood && stands(shelf.files(), second)?, second))
}

/// Whether a new run's update is answered, and stands.
fn ends(shelf: &mut FolderShelf<LossyFiles>, answered: u8) -> Result<bool, Fail> {
    put_what_lacks(shelf)?;
    Ok(put_text(shelf, b'4', answered) == b'4' && stands(shelf.files(), b'4')?)
}

/// The same of a new run over these files.
fn ends_anew(files: &LossyFiles, answered: u8) -> Result<bool, Fail> {
    let mut shelf = opened(files.failing(u64::MAX)?)?;
    let ended = ends(&mut shelf, answered);
    drop(shelf);
    ended
}

/// Whether that holds in a run in which the sync with this number fails, and then in another.
fn goes_on_anew(shelf: &mut FolderShelf<LossyFiles>, case: u64) -> Result<bool, Fail> {
    let (is_right, answered) = goes_on(shelf, case)?;
    Ok(is_right && ends_anew(shelf.files(), answered)?)
}

/// Whether that holds where the sync with this number fails in an update, which is tried again in the same run, and then in
/// another.
fn one_sync_fails(files: &LossyFiles, case: u64) -> Result<bool, Fail> {
    let mut shelf = opened(files.failing(case)?)?;
    let is_right = goes_on_anew(&mut shelf, case);
    drop(shelf);
    is_right
}

/// The syncs of a run's first update: four objects, their four folders and the three of their kinds, the text, the
/// library's folder, and the one above.
const SYNCS: u64 = 14;

/// Whether a first update syncs so often, before the text alone.
fn syncs_all(shelf: &mut FolderShelf<LossyFiles>) -> Result<bool, Fail> {
    put_what_lacks(shelf)?;
    let before = shelf.files().syncs();
    let is_put = shelf.put(Slot::Status, b"2").is_ok();
    Ok(before == 0 && is_put && shelf.files().syncs() == SYNCS && stands(shelf.files(), b'2')?)
}

#[test]
fn an_update_syncs_each_object_and_each_folder(rt: HostRuntime) -> Result<(), Fail> {
    assert!(rt; shows(rt.alloc(), Row::SyncsAll)?);
    Ok(())
}

/// Whether a first update waits so often for the disk: once for all objects, once for all their folders, and then for the
/// text, the library's folder, and the one above.
fn waits_five_times(shelf: &mut FolderShelf<LossyFiles>) -> Result<bool, Fail> {
    put_what_lacks(shelf)?;
    Ok(shelf.put(Slot::Status, b"2").is_ok() && shelf.files().waits() == 5)
}

#[test]
fn what_is_synced_at_once_is_waited_for_once(rt: HostRuntime) -> Result<(), Fail> {
    assert!(rt; shows(rt.alloc(), Row::WaitsFiveTimes)?);
    Ok(())
}

/// Puts so many blocks.
fn put_numbers(alloc: Global, shelf: &mut FolderShelf<LossyFiles>, count: u32) -> Result<(), Fail> {
    for number in 0..count {
        let text = format!(in alloc; "{number}")?;
        let put = shelf.put(slot_of(Kind::Block, text.as_str()), text.as_bytes());
        drop(text);
        done(put)?;
    }
    Ok(())
}

/// Whether the text after so many blocks waits once more, since 256 of them are asked for in one call.
fn waits_once_more(alloc: Global, shelf: &mut FolderShelf<LossyFiles>) -> Result<bool, Fail> {
    put_numbers(alloc, shelf, 257)?;
    Ok(shelf.put(Slot::Status, b"2").is_ok() && shelf.files().waits() == 6)
}

#[test]
fn many_objects_are_asked_for_256_at_a_time(rt: HostRuntime) -> Result<(), Fail> {
    assert!(rt; shows(rt.alloc(), Row::WaitsOnceMore)?);
    Ok(())
}

/// The cases that are to be tried.
const CASES: u64 = 17;

/// The first case that fails, or the number of all.
fn first_failing_over(files: &LossyFiles) -> Result<u64, Fail> {
    for case in 0..CASES {
        if !one_sync_fails(files, case)? {
            return Ok(case);
        }
    }
    Ok(CASES)
}

/// The same over the files of a library whose state text is `1`.
fn first_failing(alloc: Global) -> Result<u64, Fail> {
    let files = with_text(alloc)?;
    let case = first_failing_over(&files);
    drop(files);
    case
}

#[test]
fn no_text_stands_over_what_a_failed_sync_lost(rt: HostRuntime) -> Result<(), Fail> {
    let case = first_failing(rt.alloc())?;
    assert!(rt; case == CASES, "case {case}");
    Ok(())
}

/// Whether a shelf tells an object of a kind.
fn tells(shelf: &mut FolderShelf<LossyFiles>, kind: Kind) -> bool {
    shelf.next(kind, None) != Ok(None)
}

/// Whether a shelf tells no object.
fn tells_none(shelf: &mut FolderShelf<LossyFiles>) -> bool {
    !tells(shelf, Kind::Commit) && !tells(shelf, Kind::Fs) && !tells(shelf, Kind::Block)
}

/// Whether nothing is stored, and all can be put, is told, and stands after a text.
fn takes_anew(shelf: &mut FolderShelf<LossyFiles>) -> Result<bool, Fail> {
    let was_bare = tells_none(shelf);
    put_what_lacks(shelf)?;
    Ok(was_bare && tells(shelf, Kind::Block) && stands_with_text(shelf)?)
}

/// Whether all stands after a text.
fn stands_with_text(shelf: &mut FolderShelf<LossyFiles>) -> Result<bool, Fail> {
    done(shelf.put(Slot::Status, b"2"))?;
    stands(shelf.files(), b'2')
}

/// Whether nothing was stored of what these files would have lost.
fn lost_is_taken_anew(files: &LossyFiles) -> Result<bool, Fail> {
    let mut shelf = opened(files.cut(true)?)?;
    let taken = takes_anew(&mut shelf);
    drop(shelf);
    taken
}

/// Whether all that these files have stands after a text.
fn rest_stands(files: &LossyFiles) -> Result<bool, Fail> {
    let mut shelf = opened(files.another()?)?;
    let stood = stands_with_text(&mut shelf);
    drop(shelf);
    stood
}

/// Whether nothing was stored of what was put and is not durable, and all of it stands after a text.
fn trusts_nothing(shelf: &mut FolderShelf<LossyFiles>) -> Result<bool, Fail> {
    put_what_lacks(shelf)?;
    Ok(lost_is_taken_anew(shelf.files())? && rest_stands(shelf.files())?)
}

#[test]
fn a_new_run_trusts_nothing_that_was_not_synced(rt: HostRuntime) -> Result<(), Fail> {
    assert!(rt; shows(rt.alloc(), Row::TrustsNothing)?);
    Ok(())
}

/// Whether a put of the block `abc` is done.
fn puts_block(shelf: &mut FolderShelf<LossyFiles>) -> bool {
    shelf.put(slot_of(Kind::Block, "abc"), b"abc").is_ok()
}

/// Whether a put of the text `2` is a fault, which is counted.
fn text_is_fault(shelf: &mut FolderShelf<LossyFiles>) -> bool {
    let faults = shelf.faults();
    is_fault(shelf.put(Slot::Status, b"2")) && shelf.faults() > faults
}

/// A library in which the block `abc` was put, and a text after it, as so many calls failed from the first sync on.
fn failed(alloc: Global, left: u64, also: Also) -> Result<FolderShelf<LossyFiles>, Fail> {
    let mut shelf = failing(alloc, left, also)?;
    if puts_block(&mut shelf) && text_is_fault(&mut shelf) {
        return Ok(shelf);
    }
    drop(shelf);
    Err("no fault was counted".into())
}

/// Whether the block that was lost as it could not be made durable, and whose next put fails in its move, stays lost until
/// it is put again.
fn stays_lost(shelf: &mut FolderShelf<LossyFiles>) -> bool {
    !puts_block(shelf)
        && text_is_fault(shelf)
        && puts_block(shelf)
        && shelf.put(Slot::Status, b"2").is_ok()
        && has(shelf, Kind::Block, "abc")
}

#[test]
fn an_object_that_was_lost_is_lost_until_it_is_put_again(rt: HostRuntime) -> Result<(), Fail> {
    assert!(rt; shows(rt.alloc(), Row::StaysLost)?);
    Ok(())
}

#[test]
fn want_of_memory_after_a_failed_sync_is_a_fault(rt: HostRuntime) -> Result<(), Fail> {
    assert!(rt; shows(rt.alloc(), Row::TextIsFault)?);
    Ok(())
}

/// Whether a put of the block `abc` fails for want of memory.
fn wants_memory(shelf: &mut FolderShelf<LossyFiles>) -> bool {
    let put = shelf.put(slot_of(Kind::Block, "abc"), b"abc");
    matches!(put, Err(ShelfFailed::NoMemory))
}

/// Whether the put of the block that fails then can be made again.
fn changes_nothing(shelf: &mut FolderShelf<LossyFiles>) -> bool {
    text_is_fault(shelf) && wants_memory(shelf) && puts_block(shelf)
}

#[test]
fn want_of_memory_before_a_move_changes_nothing(rt: HostRuntime) -> Result<(), Fail> {
    assert!(rt; shows(rt.alloc(), Row::ChangesNothing)?);
    Ok(())
}

/// The calls of a run that puts the block `abc` and a text.
const UPDATE: &str = "\
write F/11111111-2222-4333-8444-555555555555/tmp/spare
make F/11111111-2222-4333-8444-555555555555/blocks/a9
rename to F/11111111-2222-4333-8444-555555555555/blocks/a9/993e364706816aba3e25717850c26c9cd0d89d
write F/11111111-2222-4333-8444-555555555555/syncing
sync F/11111111-2222-4333-8444-555555555555/blocks/a9/993e364706816aba3e25717850c26c9cd0d89d
sync F/11111111-2222-4333-8444-555555555555/blocks/a9
sync F/11111111-2222-4333-8444-555555555555/blocks
write F/11111111-2222-4333-8444-555555555555/tmp/spare
sync F/11111111-2222-4333-8444-555555555555/tmp/spare
rename to F/11111111-2222-4333-8444-555555555555/status
sync F/11111111-2222-4333-8444-555555555555
sync F
remove F/11111111-2222-4333-8444-555555555555/syncing
";

/// The calls by which a library is made and has its first text.
const MAKING: &str = "\
make F/11111111-2222-4333-8444-555555555555.new
make F/11111111-2222-4333-8444-555555555555.new/tmp
make F/11111111-2222-4333-8444-555555555555.new/commits
make F/11111111-2222-4333-8444-555555555555.new/fs
make F/11111111-2222-4333-8444-555555555555.new/blocks
write F/11111111-2222-4333-8444-555555555555.new/tmp/spare
sync F/11111111-2222-4333-8444-555555555555.new/tmp/spare
rename to F/11111111-2222-4333-8444-555555555555.new/status
sync F/11111111-2222-4333-8444-555555555555.new
rename to F/11111111-2222-4333-8444-555555555555
sync F
";

/// Whether the first text of a library comes by these calls.
fn makes_so(shelf: &mut FolderShelf<LossyFiles>) -> bool {
    shelf.put(Slot::Status, b"1").is_ok() && shelf.files().calls() == MAKING
}

/// Whether a block and a text come by these calls.
fn updates_so(shelf: &mut FolderShelf<LossyFiles>) -> bool {
    puts_block(shelf) && shelf.put(Slot::Status, b"2").is_ok() && shelf.files().calls() == UPDATE
}

/// The same of a new run over these files.
fn next_updates_so(files: &LossyFiles) -> Result<bool, Fail> {
    let mut shelf = opened(files.another()?)?;
    let updates = updates_so(&mut shelf);
    drop(shelf);
    Ok(updates)
}

/// What a run shows.
#[derive(Clone, Copy)]
enum Row {
    /// How often a first update syncs.
    SyncsAll,
    /// How often it waits.
    WaitsFiveTimes,
    /// The same after many blocks.
    WaitsOnceMore,
    /// What a new run trusts.
    TrustsNothing,
    /// A block that was lost, whose next put fails in its move.
    StaysLost,
    /// A text for which memory is wanting after a failed sync.
    TextIsFault,
    /// A put whose look fails for want of memory, after a failed sync.
    ChangesNothing,
    /// All calls of a making, and of an update.
    Calls,
}

/// The run of a row.
fn run_of(alloc: Global, row: Row) -> Result<FolderShelf<LossyFiles>, Fail> {
    match row {
        Row::StaysLost => failed(alloc, 3, Also::Move),
        Row::TextIsFault => failed(alloc, 4, Also::Remove),
        Row::ChangesNothing => failing(alloc, 2, Also::Look),
        Row::Calls => made(alloc),
        _ => opened(with_text(alloc)?),
    }
}

/// Whether a run shows what it should.
fn goes(alloc: Global, shelf: &mut FolderShelf<LossyFiles>, row: Row) -> Result<bool, Fail> {
    match row {
        Row::SyncsAll => syncs_all(shelf),
        Row::WaitsFiveTimes => waits_five_times(shelf),
        Row::WaitsOnceMore => waits_once_more(alloc, shelf),
        Row::TrustsNothing => trusts_nothing(shelf),
        Row::StaysLost => Ok(stays_lost(shelf)),
        Row::TextIsFault => Ok(text_is_fault(shelf)),
        Row::ChangesNothing => Ok(changes_nothing(shelf)),
        Row::Calls => Ok(makes_so(shelf) && next_updates_so(shelf.files())?),
    }
}

/// The same of the run of a row.
fn shows(alloc: Global, row: Row) -> Result<bool, Fail> {
    let mut shelf = run_of(alloc, row)?;
    let shown = goes(alloc, &mut shelf, row);
    drop(shelf);
    shown
}

#[test]
fn the_calls_come_in_their_order(rt: HostRuntime) -> Result<(), Fail> {
    assert!(rt; shows(rt.alloc(), Row::Calls)?);
    Ok(())
}
