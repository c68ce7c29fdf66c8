//! What a sync comes to where the library tells something else than it has.
use crate::household::{Came, House, add_small, are_equal, count, done, sync_here, sync_there};
use crate::meddling::{MeddledRemote, Meddling, meddled_house};
use std::alloc::{AllocError, Global};

/// Whether a folder that was synced, and changed since, is refused where a collection ends before each of three updates.
fn is_stale(alloc: Global, house: &mut House<MeddledRemote>) -> Result<bool, AllocError> {
    let begun = sync_here(alloc, house);
    add_small(alloc, &mut house.here)?;
    let came = sync_here(alloc, house);
    Ok(begun == done(false, 0, 0) && came == Came::Stale(3))
}

/// The same of two empty folders and such a library.
fn is_stale_anew(alloc: Global) -> Result<bool, AllocError> {
    let mut house = meddled_house(alloc, Meddling::Collects)?;
    is_stale(alloc, &mut house)
}

#[test]
fn three_updates_that_come_too_late_end_a_sync(rt: HostRuntime) -> Result<(), AllocError> {
    assert!(rt; is_stale_anew(rt.alloc())?);
    Ok(())
}

/// Whether an empty folder stays so where something comes empty.
fn is_damaged(alloc: Global, house: &mut House<MeddledRemote>) -> Result<bool, AllocError> {
    add_small(alloc, &mut house.here)?;
    let pushed = sync_here(alloc, house);
    let came = sync_there(alloc, house);
    Ok(pushed == done(true, 0, 0) && came == Came::Damaged && count(&house.there) == 0)
}

/// The same of two empty folders and such a library.
fn is_damaged_anew(alloc: Global, meddling: Meddling) -> Result<bool, AllocError> {
    let mut house = meddled_house(alloc, meddling)?;
    is_damaged(alloc, &mut house)
}

#[test]
fn a_block_with_other_bytes_is_told_as_damaged(rt: HostRuntime) -> Result<(), AllocError> {
    assert!(rt; is_damaged_anew(rt.alloc(), Meddling::Empties)?);
    Ok(())
}

#[test]
fn a_directory_with_other_bytes_is_told_as_damaged(rt: HostRuntime) -> Result<(), AllocError> {
    assert!(rt; is_damaged_anew(rt.alloc(), Meddling::EmptiesObjects)?);
    Ok(())
}

/// Whether an empty folder gets all where each list of two or more files and directories is refused, and one was.
fn is_halved(alloc: Global, house: &mut House<MeddledRemote>) -> Result<bool, AllocError> {
    add_small(alloc, &mut house.here)?;
    let pushed = sync_here(alloc, house);
    let got = sync_there(alloc, house);
    let is_got = got == done(false, 2, 0) && are_equal(&house.here, &house.there);
    Ok(pushed == done(true, 0, 0) && is_got && house.remote.meddled > 0)
}

/// The same of two empty folders and such a library.
fn is_halved_anew(alloc: Global) -> Result<bool, AllocError> {
    let mut house = meddled_house(alloc, Meddling::RefusesLists)?;
    is_halved(alloc, &mut house)
}

#[test]
fn a_list_that_is_refused_for_want_of_memory_is_asked_for_by_halves(
    rt: HostRuntime,
) -> Result<(), AllocError> {
    assert!(rt; is_halved_anew(rt.alloc())?);
    Ok(())
}
