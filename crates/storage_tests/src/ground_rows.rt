//! Rows over grounds: which libraries are there, and who has them.
use crate::library::{LIB, holds, is_absent, is_fault, lib, there};
use crate::scratch::{clear, ground, scratch, within};
use folder_storage::{Ground, MemoryGround};
use ids::LibId;
use object_store::{Shelf, Slot};
use std::test::Fail;
use std::{fs, io};

/// Whether a library that is out is not made, and not found either.
fn is_out<G: Ground>(libraries: &mut G, folder: &str) -> bool
where
    G::S: Drop,
{
    is_absent(libraries.make(folder, lib())) && is_fault(libraries.find(folder, lib()))
}

/// Makes the library and puts its state text. The answer is whether that was done, and it was out then.
fn is_made<G: Ground>(libraries: &mut G, folder: &str) -> Result<bool, Fail>
where
    G::S: Drop,
{
    let mut shelf = there(libraries.make(folder, lib()))?;
    let is_put = shelf.put(Slot::Status, b"state").is_ok();
    let was_out = is_out(libraries, folder);
    libraries.give_back(folder, lib(), shelf);
    Ok(is_put && was_out)
}

/// Whether the library is found as it was given back.
fn is_found_again<G: Ground>(libraries: &mut G, folder: &str) -> Result<bool, Fail>
where
    G::S: Drop,
{
    let mut shelf = there(libraries.find(folder, lib()))?;
    let is_same = holds(&mut shelf, &Slot::Status, b"state");
    libraries.give_back(folder, lib(), shelf);
    Ok(is_same)
}

/// Whether a library isn't there, in this folder.
fn lacks<G: Ground>(libraries: &mut G, folder: &str, id: LibId) -> bool
where
    G::S: Drop,
{
    is_absent(libraries.find(folder, id))
}

/// Whether there is no such library, and one can be had once it was made.
fn keeps_libraries<G: Ground>(libraries: &mut G, folder: &str) -> Result<bool, Fail>
where
    G::S: Drop,
{
    Ok(
        lacks(libraries, folder, lib())
            && is_made(libraries, folder)?
            && is_absent(libraries.make(folder, lib()))
            && is_found_again(libraries, folder)?
            && lacks(libraries, folder, LibId::from_bytes([0; 16]))
            && libraries.faults() == 1,
    )
}

/// Whether libraries in memory are kept so, each in its folder alone.
fn memory_keeps(libraries: &mut MemoryGround) -> Result<bool, Fail> {
    Ok(keeps_libraries(libraries, "F")? && lacks(libraries, "G", lib()))
}

#[test]
fn memory_keeps_libraries(rt: HostRuntime) -> Result<(), Fail> {
    assert!(rt; memory_keeps(&mut MemoryGround::new(rt.alloc()))?);
    Ok(())
}

#[test]
fn a_folder_keeps_libraries(rt: HostRuntime) -> Result<(), Fail> {
    assert!(rt; shows(&rt, ground(&rt)?, ground(&rt)?, "keeps", Row::Keeps)?);
    Ok(())
}

/// Makes the library, puts its state text, and gives it back. The answer is whether that was done.
fn make_library<G: Ground>(libraries: &mut G, folder: &str) -> Result<bool, Fail>
where
    G::S: Drop,
{
    let mut shelf = there(libraries.make(folder, lib()))?;
    let is_put = shelf.put(Slot::Status, b"state").is_ok();
    libraries.give_back(folder, lib(), shelf);
    Ok(is_put)
}

/// Whether a shelf fails as its library is moved away from here, and counts that once.
fn fails_moved(
    rt: &HostRuntime,
    shelf: &mut impl Shelf,
    here: &str,
    away: &str,
) -> io::Result<bool> {
    fs::rename(rt, here, away)?;
    let is_failed = is_fault(shelf.fetch(Slot::Status));
    fs::rename(rt, away, here)?;
    Ok(is_failed && shelf.faults() == 1)
}

/// The same of a library in a folder.
fn fails_away(rt: &HostRuntime, shelf: &mut impl Shelf, folder: &str) -> io::Result<bool> {
    let here = within(rt, folder, LIB)?;
    match within(rt, folder, "away") {
        Ok(away) => {
            let failed = fails_moved(rt, shelf, here.as_str(), away.as_str());
            drop(here);
            drop(away);
            failed
        }
        Err(why) => {
            drop(here);
            Err(why)
        }
    }
}

/// A library is moved away for one call: whether that fails and is counted once, by the shelf and, once that is back, by
/// the ground.
fn one_fault<G: Ground>(rt: &HostRuntime, libraries: &mut G, folder: &str) -> Result<bool, Fail>
where
    G::S: Drop,
{
    let mut shelf = there(libraries.find(folder, lib()))?;
    let is_counted = fails_away(rt, &mut shelf, folder);
    libraries.give_back(folder, lib(), shelf);
    Ok(is_counted? && libraries.faults() == 1)
}

/// Whether a shelf that is handed out has counted no fault, and adds none as it comes back.
fn is_fresh<G: Ground>(libraries: &mut G, folder: &str) -> Result<bool, Fail>
where
    G::S: Drop,
{
    let shelf = there(libraries.find(folder, lib()))?;
    let fresh = shelf.faults();
    libraries.give_back(folder, lib(), shelf);
    Ok(fresh == 0 && libraries.faults() == 1)
}

/// Whether a fault is counted once, and a shelf that is handed out after it has counted none.
fn counts_once<G: Ground>(rt: &HostRuntime, libraries: &mut G, folder: &str) -> Result<bool, Fail>
where
    G::S: Drop,
{
    Ok(
        make_library(libraries, folder)?
            && one_fault(rt, libraries, folder)?
            && is_fresh(libraries, folder)?,
    )
}

#[test]
fn a_fault_is_counted_once(rt: HostRuntime) -> Result<(), Fail> {
    assert!(rt; shows(&rt, ground(&rt)?, ground(&rt)?, "once", Row::Once)?);
    Ok(())
}

/// Whether no library is found or made in the folder of no name.
fn refuses_no_name<G: Ground>(libraries: &mut G) -> bool
where
    G::S: Drop,
{
    is_fault(libraries.find("", lib())) && is_fault(libraries.make("", lib()))
}

/// The same of a ground that is let go.
fn refuses_without_name<G: Ground + Drop>(libraries: G) -> bool
where
    G::S: Drop,
{
    let mut libraries = libraries;
    let is_refused = refuses_no_name(&mut libraries);
    drop(libraries);
    is_refused
}

#[test]
fn a_folder_without_a_name_is_a_fault(rt: HostRuntime) -> Result<(), Fail> {
    assert!(rt; refuses_without_name(ground(&rt)?));
    Ok(())
}

/// Whether a library that is out is a fault for a second ground, made or found, counted twice, and stays as it is.
fn is_refused<G: Ground, S: Shelf>(second: &mut G, shelf: &mut S, folder: &str) -> bool
where
    G::S: Drop,
{
    is_fault(second.make(folder, lib()))
        && shelf.put(Slot::Status, b"state").is_ok()
        && is_fault(second.find(folder, lib()))
        && holds(shelf, &Slot::Status, b"state")
        && second.faults() == 2
}

/// Whether that is so while the first has the library, which is then given back.
fn is_had_by_one<G: Ground>(first: &mut G, second: &mut G, folder: &str) -> Result<bool, Fail>
where
    G::S: Drop,
{
    let mut shelf = there(first.make(folder, lib()))?;
    let is_refused = is_refused(second, &mut shelf, folder);
    first.give_back(folder, lib(), shelf);
    Ok(is_refused)
}

/// Whether the second then finds it, and the first has counted no fault.
fn is_handed_on<G: Ground>(first: &mut G, second: &mut G, folder: &str) -> Result<bool, Fail>
where
    G::S: Drop,
{
    Ok(
        is_had_by_one(first, second, folder)?
            && is_found_again(second, folder)?
            && first.faults() == 0,
    )
}

/// Two grounds of one kind.
#[derive(Drop)]
struct Grounds<G> {
    first: G,
    second: G,
}

/// What they show in a folder.
#[derive(Clone, Copy)]
enum Row {
    /// Libraries that are kept.
    Keeps,
    /// A fault that is counted once.
    Once,
    /// A library that another has.
    Lock,
}

/// Whether they show it.
fn goes<G: Ground>(
    rt: &HostRuntime,
    grounds: &mut Grounds<G>,
    folder: &str,
    row: Row,
) -> Result<bool, Fail>
where
    G::S: Drop,
{
    match row {
        Row::Keeps => keeps_libraries(&mut grounds.first, folder),
        Row::Once => counts_once(rt, &mut grounds.first, folder),
        Row::Lock => is_handed_on(&mut grounds.first, &mut grounds.second, folder),
    }
}

/// The same in a folder of this test's own, which is cleared then.
fn goes_in_scratch<G: Ground>(
    rt: &HostRuntime,
    grounds: &mut Grounds<G>,
    name: &str,
    row: Row,
) -> Result<bool, Fail>
where
    G::S: Drop,
{
    let folder = scratch(rt, name)?;
    let shown = goes(rt, grounds, folder.as_str(), row);
    let cleared = clear(rt, folder.as_str());
    drop(folder);
    let shown = shown?;
    cleared?;
    Ok(shown)
}

/// The same of grounds that are let go.
fn shows<G: Ground + Drop>(
    rt: &HostRuntime,
    first: G,
    second: G,
    name: &str,
    row: Row,
) -> Result<bool, Fail>
where
    G::S: Drop,
{
    let mut grounds = Grounds { first, second };
    let shown = goes_in_scratch(rt, &mut grounds, name, row);
    drop(grounds);
    shown
}

#[test]
fn a_library_that_another_has_is_a_fault_and_stays(rt: HostRuntime) -> Result<(), Fail> {
    assert!(rt; shows(&rt, ground(&rt)?, ground(&rt)?, "lock", Row::Lock)?);
    Ok(())
}
