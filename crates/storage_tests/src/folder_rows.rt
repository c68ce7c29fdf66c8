//! What a folder's shelf does on the disk.
use crate::library::slot_of;
use crate::scratch::{clear, ground, made, scratch, shelf_in};
use folder_storage::{FileSystem, FolderShelf, Ground, SyncEnding, SyncPlace};
use ids::{Kind, ObjId};
use object_store::{Found, Shelf};
use std::alloc::{AllocError, Global};
use std::test::Fail;

/// How many blocks are put: some twelve in each of the 256 folders that are listed one by one.
const BLOCKS: u64 = 3_000;

/// Puts a block under the name of the text of its number. The answer is whether that was done.
fn put_block<S: Shelf>(alloc: Global, shelf: &mut S, number: u64) -> Result<bool, AllocError> {
    let text = format!(in alloc; "{number}")?;
    let slot = slot_of(Kind::Block, text.as_str());
    Ok(shelf.put(slot, text.as_bytes()).is_ok())
}

/// Puts all of them.
fn put_blocks<S: Shelf>(alloc: Global, shelf: &mut S) -> Result<bool, AllocError> {
    for number in 0..BLOCKS {
        if !put_block(alloc, shelf, number)? {
            return Ok(false);
        }
    }
    Ok(true)
}

/// The next block above an id.
fn next_block<S: Shelf>(shelf: &mut S, after: &Option<ObjId>) -> Option<Found> {
    match shelf.next(Kind::Block, *after) {
        Ok(found) => found,
        Err(_) => None,
    }
}

/// Whether an id is above another, if there is one.
fn is_above(id: &ObjId, after: &Option<ObjId>) -> bool {
    match after {
        Some(after) => *after < *id,
        None => true,
    }
}

/// How many blocks are told, each above the one before, and the sum of their sizes.
fn told_blocks<S: Shelf>(shelf: &mut S) -> (u64, u64) {
    let mut last = None;
    let mut count = 0u64;
    let mut bytes = 0u64;
    for _ in 0..100_000u64 {
        let found = match next_block(shelf, &last) {
            Some(found) => found,
            None => break,
        };
        if !is_above(&found.id, &last) {
            break;
        }
        count = count.saturating_add(1);
        bytes = bytes.saturating_add(found.size);
        last = Some(found.id);
    }
    (count, bytes)
}

/// Whether all are told, with the 10,890 bytes of their texts.
fn tells_thousands<S: Shelf>(alloc: Global, shelf: &mut S) -> Result<bool, Fail> {
    Ok(put_blocks(alloc, shelf)? && told_blocks(shelf) == (BLOCKS, 10_890))
}

/// What takes every write, and no sync.
const NEVER_DURABLE: &str = "/dev/null";

/// Whether each call that is to make it durable fails, and a write that isn't asked to be durable is done.
fn asks_for_syncs<F: FileSystem>(files: &mut F) -> bool {
    files.sync_folder(NEVER_DURABLE).is_err()
        && files.write(NEVER_DURABLE, b"abc", true).is_err()
        && files.write(NEVER_DURABLE, b"abc", false).is_ok()
}

/// A path at which nothing is.
const NOT_THERE: &str = "/not-there";

/// Whether these are the endings of a sync that fails, one that is done, and one of nothing.
fn are_told(places: &[SyncPlace]) -> bool {
    match places {
        [failed, done, nothing] => {
            failed.ending == SyncEnding::Failed
                && done.ending == SyncEnding::Synced
                && nothing.ending == SyncEnding::Missing
        }
        _ => false,
    }
}

/// Adds three places that are to be synced at once.
fn push_places(alloc: Global, places: &mut Vec<SyncPlace>, folder: &str) -> Result<(), AllocError> {
    for path in [NEVER_DURABLE, folder, NOT_THERE] {
        places.push(SyncPlace::new(String::from_str(alloc, path)?))?;
    }
    Ok(())
}

/// Whether what comes of three syncs at once is told of each.
fn tells_each_sync<F: FileSystem>(files: &mut F, folder: &str) -> Result<bool, AllocError> {
    let alloc = files.alloc();
    let mut places = Vec::new(alloc);
    match push_places(alloc, &mut places, folder) {
        Ok(()) => {
            files.sync_at_once(places.as_mut_slice());
            let told = are_told(places.as_slice());
            drop(places);
            Ok(told)
        }
        Err(why) => {
            drop(places);
            Err(why)
        }
    }
}

/// The same of the files that a shelf stands on.
fn stands_on_syncs<F: FileSystem + Drop>(
    shelf: &FolderShelf<F>,
    folder: &str,
) -> Result<bool, Fail> {
    let mut files = shelf.files().another()?;
    let asks = asks_for_syncs(&mut files);
    let tells = tells_each_sync(&mut files, folder);
    drop(files);
    Ok(tells? && asks)
}

/// Whether the shelf of a library that is made in a folder tells thousands.
fn goes<G: Ground + Drop>(alloc: Global, libraries: G, folder: &str) -> Result<bool, Fail>
where
    G::S: Drop,
{
    let mut shelf = shelf_in(libraries, folder)?;
    let shown = tells_thousands(alloc, &mut shelf);
    drop(shelf);
    shown
}

/// The same in a folder of this test's own, which is cleared then.
fn shows_in<G: Ground + Drop>(rt: &HostRuntime, libraries: G, folder: &str) -> Result<bool, Fail>
where
    G::S: Drop,
{
    let shown = goes(rt.alloc(), libraries, folder)?;
    clear(rt, folder)?;
    Ok(shown)
}

/// The same in a folder of this name.
fn shows<G: Ground + Drop>(rt: &HostRuntime, libraries: G, name: &str) -> Result<bool, Fail>
where
    G::S: Drop,
{
    match scratch(rt, name) {
        Ok(folder) => {
            let shown = shows_in(rt, libraries, folder.as_str());
            drop(folder);
            shown
        }
        Err(why) => {
            drop(libraries);
            Err(Fail::from(why))
        }
    }
}

#[test]
fn thousands_of_blocks_are_told_once_each(rt: HostRuntime) -> Result<(), Fail> {
    assert!(rt; shows(&rt, ground(&rt)?, "thousands")?);
    Ok(())
}

#[test]
fn a_sync_that_the_system_refuses_is_told(rt: HostRuntime) -> Result<(), Fail> {
    let folder = scratch(&rt, "syncs")?;
    assert!(rt; stands_on_syncs(&made(&mut ground(&rt)?, folder.as_str())?, folder.as_str())?);
    Ok(clear(&rt, folder.as_str())?)
}
