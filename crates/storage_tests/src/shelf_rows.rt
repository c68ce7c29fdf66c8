//! Rows that every shelf meets: those in memory, those over another shelf, and the one over a folder.
use crate::library::{holds, is_fault, slot_of};
use crate::scratch::{clear, ground, scratch, shelf_in};
use folder_storage::{CountedShelf, Ground, SteadyShelf};
use ids::{Bytes, Items, Key, Kind, ObjId};
use object_store::{Found, FuseShelf, MemoryShelf, OddShelf, Shelf, ShelfFailed, Slot};
use std::alloc::{AllocError, Global};
use std::io;
use std::test::Fail;

/// An empty shelf whose calls of these numbers fail.
pub(crate) fn memory(alloc: Global, fails: &[u64]) -> Result<MemoryShelf, AllocError> {
    Ok(MemoryShelf::new(alloc, Items::copy(alloc, fails)?))
}

/// A shelf that gives odd bytes for a slot that no row asks for.
fn odd(alloc: Global, fails: &[u64]) -> Result<OddShelf, AllocError> {
    let elsewhere = slot_of(Kind::Fs, "elsewhere");
    Ok(OddShelf::new(alloc, memory(alloc, fails)?, elsewhere, Bytes::new(alloc)))
}

/// A shelf that stops after so many calls.
fn fuse(alloc: Global, passes: u64) -> Result<FuseShelf, AllocError> {
    Ok(FuseShelf::new(memory(alloc, &[])?, passes, false))
}

/// A shelf in memory, with a count of its own over it.
fn counted(alloc: Global, fails: &[u64]) -> Result<CountedShelf<MemoryShelf>, AllocError> {
    Ok(CountedShelf::new(memory(alloc, fails)?))
}

/// Whether a slot gives what is put into it, in place of what lay there.
fn gives_back<S: Shelf>(shelf: &mut S, slot: &Slot, text: &[u8]) -> bool {
    shelf.put(*slot, text) == Ok(()) && holds(shelf, slot, text)
}

/// Whether a slot gives nothing, and can be emptied.
fn is_empty<S: Shelf>(shelf: &mut S, slot: &Slot) -> bool {
    matches!(shelf.fetch(*slot), Ok(None)) && shelf.remove(*slot) == Ok(())
}

/// Whether a slot gives what was put last, until it is removed. No bytes are bytes.
fn gives_what_was_put<S: Shelf>(shelf: &mut S, slot: &Slot) -> bool {
    is_empty(shelf, slot)
        && gives_back(shelf, slot, b"abc")
        && gives_back(shelf, slot, b"another")
        && gives_back(shelf, slot, b"")
        && shelf.remove(*slot) == Ok(())
        && is_empty(shelf, slot)
}

/// The same of an object's slot and of that of the status text, with no fault.
fn gives_in_each_slot<S: Shelf>(shelf: &mut S) -> bool {
    gives_what_was_put(shelf, &slot_of(Kind::Block, "abc"))
        && gives_what_was_put(shelf, &Slot::Status)
        && shelf.faults() == 0
}

/// An id of twenty equal bytes.
fn id(byte: u8) -> ObjId {
    ObjId::from_bytes([byte; 20])
}

/// Puts an object under such an id.
fn puts<S: Shelf>(shelf: &mut S, kind: Kind, byte: u8, text: &[u8]) -> bool {
    shelf.put(Slot::Object(Key { kind, id: id(byte) }), text) == Ok(())
}

/// Whether the next object above such an id is this one.
fn tells<S: Shelf>(shelf: &mut S, kind: Kind, after: Option<u8>, found: Option<(u8, u64)>) -> bool {
    let after = match after {
        Some(byte) => Some(id(byte)),
        None => None,
    };
    match shelf.next(kind, after) {
        Ok(Some(told)) => is_found(&told, found),
        Ok(None) => found.is_none(),
        Err(_) => false,
    }
}

fn is_found(told: &Found, found: Option<(u8, u64)>) -> bool {
    match found {
        Some((byte, size)) => told.id == id(byte) && told.size == size,
        None => false,
    }
}

/// Whether the objects of a kind are told in their order.
fn tells_two<S: Shelf>(shelf: &mut S, kind: Kind) -> bool {
    tells(shelf, kind, None, Some((0, 3)))
        && tells(shelf, kind, Some(0), Some((255, 2)))
        && tells(shelf, kind, Some(1), Some((255, 2)))
        && tells(shelf, kind, Some(255), None)
}

/// Puts two objects of a kind, the later first.
fn puts_two<S: Shelf>(shelf: &mut S, kind: Kind) -> bool {
    puts(shelf, kind, 255, b"ab") && puts(shelf, kind, 0, b"abc")
}

/// Whether the names of one kind come in their order, and no other kind's among them.
fn tells_names_in_order<S: Shelf>(shelf: &mut S) -> bool {
    puts_two(shelf, Kind::Block)
        && puts_two(shelf, Kind::Commit)
        && tells_two(shelf, Kind::Commit)
        && tells_two(shelf, Kind::Block)
        && tells(shelf, Kind::Fs, None, None)
        && forgets_the_first(shelf)
        && shelf.faults() == 0
}

/// Whether an object that is removed is told no more.
fn forgets_the_first<S: Shelf>(shelf: &mut S) -> bool {
    let first = Key {
        kind: Kind::Block,
        id: id(0),
    };
    shelf.remove(Slot::Object(first)) == Ok(()) && tells(shelf, Kind::Block, None, Some((255, 2)))
}

/// Whether a slot gives what is handed over.
fn takes_over<S: Shelf>(alloc: Global, shelf: &mut S, slot: &Slot) -> Result<bool, AllocError> {
    let bytes = Bytes::copy(alloc, b"handed over")?;
    Ok(shelf.put_own(*slot, bytes) == Ok(()) && holds(shelf, slot, b"handed over"))
}

/// The same of an object's slot and of that of the status text.
fn takes_over_in_each_slot<S: Shelf>(alloc: Global, shelf: &mut S) -> Result<bool, AllocError> {
    let object = takes_over(alloc, shelf, &slot_of(Kind::Block, "abc"))?;
    let status = takes_over(alloc, shelf, &Slot::Status)?;
    Ok(object && status)
}

/// Whether a shelf gives what was put, lent or handed over, and tells its names in order.
fn gives_and_tells<S: Shelf>(alloc: Global, shelf: &mut S) -> Result<bool, AllocError> {
    let gives = gives_in_each_slot(shelf) && tells_names_in_order(shelf);
    Ok(takes_over_in_each_slot(alloc, shelf)? && gives)
}

fn memory_gives(alloc: Global) -> Result<bool, AllocError> {
    let mut shelf = memory(alloc, &[])?;
    let given = gives_and_tells(alloc, &mut shelf);
    drop(shelf);
    given
}

fn odd_gives(alloc: Global) -> Result<bool, AllocError> {
    let mut shelf = odd(alloc, &[])?;
    let given = gives_and_tells(alloc, &mut shelf);
    drop(shelf);
    given
}

fn fuse_gives(alloc: Global) -> Result<bool, AllocError> {
    let mut shelf = fuse(alloc, 100)?;
    let given = gives_and_tells(alloc, &mut shelf);
    drop(shelf);
    given
}

fn counted_gives(alloc: Global) -> Result<bool, AllocError> {
    let mut shelf = counted(alloc, &[])?;
    let given = gives_and_tells(alloc, &mut shelf);
    drop(shelf);
    given
}

fn steady_gives(alloc: Global) -> Result<bool, AllocError> {
    let mut shelf = SteadyShelf::new(alloc);
    let given = gives_and_tells(alloc, &mut shelf);
    drop(shelf);
    given
}

/// What each of them gives, in this order.
fn gives_each(alloc: Global) -> Result<(bool, bool), AllocError> {
    let three = memory_gives(alloc)? && odd_gives(alloc)? && fuse_gives(alloc)?;
    Ok((three, counted_gives(alloc)? && steady_gives(alloc)?))
}

#[test]
fn every_shelf_gives_what_was_put_and_tells_names_in_order(
    rt: HostRuntime,
) -> Result<(), AllocError> {
    let (three, two) = gives_each(rt.alloc())?;
    assert!(rt; three);
    assert!(rt; two);
    Ok(())
}

/// What a shelf in a folder shows.
#[derive(Clone, Copy)]
enum Row {
    /// What was put, and names in order.
    Gives,
    /// Calls over a folder that is lost.
    Lost,
}

/// Whether it shows it, and the folder is cleared.
fn goes<S: Shelf>(rt: &HostRuntime, shelf: &mut S, folder: &str, row: Row) -> io::Result<bool> {
    match row {
        Row::Gives => {
            let given = gives_and_tells(rt.alloc(), shelf)?;
            clear(rt, folder)?;
            Ok(given)
        }
        Row::Lost => counts_without_folder(rt, shelf, folder),
    }
}

/// The same of the shelf of a library that is made.
fn goes_in<G: Ground + Drop>(
    rt: &HostRuntime,
    libraries: G,
    folder: &str,
    row: Row,
) -> Result<bool, Fail>
where
    G::S: Drop,
{
    let mut shelf = shelf_in(libraries, folder)?;
    let shown = goes(rt, &mut shelf, folder, row);
    drop(shelf);
    Ok(shown?)
}

/// The same in a folder of this test's own.
fn shows<G: Ground + Drop>(
    rt: &HostRuntime,
    libraries: G,
    name: &str,
    row: Row,
) -> Result<bool, Fail>
where
    G::S: Drop,
{
    match scratch(rt, name) {
        Ok(folder) => {
            let shown = goes_in(rt, libraries, folder.as_str(), row);
            drop(folder);
            shown
        }
        Err(why) => {
            drop(libraries);
            Err(Fail::from(why))
        }
    }
}

#[test]
fn a_folder_gives_what_was_put_and_tells_names_in_order(rt: HostRuntime) -> Result<(), Fail> {
    assert!(rt; shows(&rt, ground(&rt)?, "gives", Row::Gives)?);
    Ok(())
}

/// Whether the second of two puts fails and is counted.
fn counts_a_failing_put<S: Shelf>(shelf: &mut S) -> bool {
    shelf.put(Slot::Status, b"old") == Ok(())
        && shelf.put(Slot::Status, b"new") == Err(ShelfFailed::Shelf)
        && shelf.faults() == 1
}

/// Whether such a put leaves the old text.
fn keeps_the_old<S: Shelf>(shelf: &mut S) -> bool {
    counts_a_failing_put(shelf) && holds(shelf, &Slot::Status, b"old")
}

/// Whether each of five calls fails, is told as a fault, and is counted.
fn counts_each_call<S: Shelf>(shelf: &mut S, before: u64) -> bool {
    is_fault(shelf.fetch(Slot::Status))
        && is_fault(shelf.put(slot_of(Kind::Block, "abc"), b"abc"))
        && is_fault(shelf.put(Slot::Status, b"new"))
        && is_fault(shelf.remove(Slot::Status))
        && shelf.next(Kind::Fs, None) == Err(ShelfFailed::Shelf)
        && shelf.faults() == before.saturating_add(5)
}

/// Whether a failing put leaves the old text, and five failing calls after it are counted.
fn counts_all<S: Shelf>(shelf: &mut S) -> bool {
    keeps_the_old(shelf) && counts_each_call(shelf, 1)
}

/// The second call, and five behind the one that looks for the old text.
const FAILING: [u64; 6] = [1, 3, 4, 5, 6, 7];

fn memory_counts(alloc: Global) -> Result<bool, AllocError> {
    let mut shelf = memory(alloc, &FAILING)?;
    let counts = counts_all(&mut shelf);
    drop(shelf);
    Ok(counts)
}

fn odd_counts(alloc: Global) -> Result<bool, AllocError> {
    let mut shelf = odd(alloc, &FAILING)?;
    let counts = counts_all(&mut shelf);
    drop(shelf);
    Ok(counts)
}

fn counted_counts(alloc: Global) -> Result<bool, AllocError> {
    let mut shelf = counted(alloc, &FAILING)?;
    let counts = counts_all(&mut shelf);
    drop(shelf);
    Ok(counts)
}

#[test]
fn a_failing_call_is_told_and_counted_and_a_put_leaves_the_old(
    rt: HostRuntime,
) -> Result<(), AllocError> {
    let alloc = rt.alloc();
    assert!(rt; memory_counts(alloc)? && odd_counts(alloc)? && counted_counts(alloc)?);
    Ok(())
}

/// Whether a shelf that stops after one call fails in each later one.
fn counts_until_the_end<S: Shelf>(shelf: &mut S) -> bool {
    counts_a_failing_put(shelf) && counts_each_call(shelf, 1)
}

/// Whether that is so of a fuse, and whether the shelf below it holds the old text.
fn fuse_counts(alloc: Global) -> Result<(bool, bool), AllocError> {
    let mut fuse = fuse(alloc, 1)?;
    let counts = counts_until_the_end(&mut fuse);
    let mut inner = fuse.into_inner();
    let holds_old = holds(&mut inner, &Slot::Status, b"old");
    drop(inner);
    Ok((counts, holds_old))
}

#[test]
fn a_fuse_that_is_spent_leaves_the_old(rt: HostRuntime) -> Result<(), AllocError> {
    let (counts, holds_old) = fuse_counts(rt.alloc())?;
    assert!(rt; counts);
    assert!(rt; holds_old);
    Ok(())
}

/// Whether each call over a library whose folder is lost fails, is told as a fault, and is counted.
fn counts_without_folder<S: Shelf>(
    rt: &HostRuntime,
    shelf: &mut S,
    folder: &str,
) -> io::Result<bool> {
    clear(rt, folder)?;
    Ok(counts_each_call(shelf, 0))
}

#[test]
fn a_lost_folder_is_a_fault_and_no_empty_slot(rt: HostRuntime) -> Result<(), Fail> {
    assert!(rt; shows(&rt, ground(&rt)?, "lost", Row::Lost)?);
    Ok(())
}

/// A shelf that gives other bytes for the status text.
fn odd_status(alloc: Global) -> Result<OddShelf, AllocError> {
    let text = Bytes::copy(alloc, b"odd")?;
    Ok(OddShelf::new(alloc, memory(alloc, &[])?, Slot::Status, text))
}

/// Whether a shelf gives odd bytes until the slot is put.
fn gives_odd_bytes<S: Shelf>(shelf: &mut S) -> bool {
    holds(shelf, &Slot::Status, b"odd") && gives_back(shelf, &Slot::Status, b"abc")
}

/// The same of a shelf that gives odd bytes for the status text.
fn odd_status_gives(alloc: Global) -> Result<bool, AllocError> {
    let mut shelf = odd_status(alloc)?;
    let given = gives_odd_bytes(&mut shelf);
    drop(shelf);
    Ok(given)
}

#[test]
fn odd_bytes_are_given_until_the_slot_is_put(rt: HostRuntime) -> Result<(), AllocError> {
    assert!(rt; odd_status_gives(rt.alloc())?);
    Ok(())
}
