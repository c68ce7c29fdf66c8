//! What a sync comes to in a folder in which another program saves.
use crate::household::{
    Came, House, Worktree, add_file, change_file, done, empty_house, empty_tree, has_file,
    is_shared, is_unsynced, path, sync_folder, sync_here,
};
use crate::library::OWNER;
use crate::saved_folder::SavedFolder;
use remote_calls::{DeskRemote, Remote};
use std::alloc::{AllocError, Global};
use std::mem;

/// Syncs a folder in which another program saves the file `b`: as its first block comes, where that is due, or else as so many files
/// are opened.
fn sync_saved<R: Remote>(
    alloc: Global,
    tree: &mut Worktree,
    remote: &mut R,
    is_due: bool,
    openings: u64,
) -> Result<Came, AllocError> {
    let file = path(alloc, "b")?;
    let mut saved = SavedFolder {
        folder: mem::replace(&mut tree.folder, empty_tree(alloc)),
        file,
        is_due,
        openings,
        alloc,
    };
    let came = sync_folder(
        alloc,
        &mut saved,
        &mut tree.index,
        remote,
        OWNER,
        &tree.user,
        &tree.clock,
    );
    give_back(tree, saved);
    Ok(came)
}

/// Gives the folder back.
fn give_back(tree: &mut Worktree, saved: SavedFolder) {
    let SavedFolder {
        folder,
        file: _,
        is_due: _,
        openings: _,
        alloc: _,
    } = saved;
    tree.folder = folder;
}

/// Whether a file that both folders have, of which the library has another version, is kept as it was saved meanwhile.
fn keeps_saved(alloc: Global, house: &mut House<DeskRemote>) -> Result<bool, AllocError> {
    let _ = add_file(alloc, &mut house.here, "b", b"hello world")?;
    let begun = is_shared(alloc, house, 1);
    let _ = change_file(alloc, &mut house.here, "b", b"hello")?;
    let pushed = sync_here(alloc, house);
    let came = sync_saved(alloc, &mut house.there, &mut house.remote, true, 0)?;
    let is_told = came == Came::Changed && pushed == done(true, 0, 0);
    Ok(begun && is_told && has_file(alloc, &house.there, "b", b"saved")?)
}

/// The same of two empty folders and an empty library.
fn keeps_saved_anew(alloc: Global) -> Result<bool, AllocError> {
    let mut house = empty_house(alloc, &[])?;
    keeps_saved(alloc, &mut house)
}

#[test]
fn what_is_saved_while_a_block_comes_is_kept(rt: HostRuntime) -> Result<(), AllocError> {
    assert!(rt; keeps_saved_anew(rt.alloc())?);
    Ok(())
}

/// Whether a push ends as changed where its second file is saved as the block of its first one is sent, so before the fourth opening of
/// a file: two were for the scan. What was saved stays, and the next push sends it.
fn pushes_saved(alloc: Global, house: &mut House<DeskRemote>) -> Result<bool, AllocError> {
    let _ = add_file(alloc, &mut house.here, "a", b"abc")?;
    let _ = add_file(alloc, &mut house.here, "b", b"hello world")?;
    let came = sync_saved(alloc, &mut house.here, &mut house.remote, false, 4)?;
    let is_kept = is_unsynced(&house.here) && has_file(alloc, &house.here, "b", b"saved")?;
    Ok(came == Came::Changed && is_kept && is_shared(alloc, house, 2))
}

/// The same of two empty folders and an empty library.
fn pushes_saved_anew(alloc: Global) -> Result<bool, AllocError> {
    let mut house = empty_house(alloc, &[])?;
    pushes_saved(alloc, &mut house)
}

#[test]
fn what_is_saved_while_a_block_is_sent_ends_a_push_as_changed(
    rt: HostRuntime,
) -> Result<(), AllocError> {
    assert!(rt; pushes_saved_anew(rt.alloc())?);
    Ok(())
}
