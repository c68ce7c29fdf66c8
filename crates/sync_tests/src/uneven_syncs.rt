//! What a sync comes to in a folder that can't hold two names.
use crate::household::{
    Came, House, Worktree, add_file, count, done, empty_house, empty_tree, holds_all, sync_folder,
    sync_here,
};
use crate::library::OWNER;
use crate::uneven_folder::UnevenFolder;
use remote_calls::DeskRemote;
use std::alloc::{AllocError, Global};
use std::mem;
use tree_model::Path;

/// Syncs the second folder as one that takes two names for one.
fn sync_uneven(alloc: Global, house: &mut House<DeskRemote>) -> Came {
    let mut uneven = take_folder(alloc, &mut house.there);
    let came = sync_folder(
        alloc,
        &mut uneven,
        &mut house.there.index,
        &mut house.remote,
        OWNER,
        &house.there.user,
        &house.there.clock,
    );
    give_folder(&mut house.there, uneven);
    came
}

/// Takes the folder away, as one that takes two names for one.
fn take_folder(alloc: Global, tree: &mut Worktree) -> UnevenFolder {
    UnevenFolder {
        folder: mem::replace(&mut tree.folder, empty_tree(alloc)),
        root: Path::root(alloc),
    }
}

/// Gives it back.
fn give_folder(tree: &mut Worktree, uneven: UnevenFolder) {
    let UnevenFolder { folder, root: _ } = uneven;
    tree.folder = folder;
}

/// Whether both folders get one name.
fn is_begun(alloc: Global, house: &mut House<DeskRemote>, one: &str) -> Result<bool, AllocError> {
    let _ = add_file(alloc, &mut house.here, one, b"one")?;
    let pushed = sync_here(alloc, house);
    let got = sync_uneven(alloc, house);
    Ok(pushed == done(true, 0, 0) && got == done(false, 1, 0))
}

/// Whether the second folder can't get the other one, twice, and keeps what it has; and the library and the first one keep both.
fn keeps_both(
    alloc: Global,
    house: &mut House<DeskRemote>,
    other: &str,
) -> Result<bool, AllocError> {
    let _ = add_file(alloc, &mut house.here, other, b"other")?;
    let pushed = sync_here(alloc, house);
    let came = sync_uneven(alloc, house);
    let again = sync_uneven(alloc, house);
    let same = sync_here(alloc, house);
    let is_told = came == Came::Folder && again == Came::Folder;
    Ok(is_told && pushed == done(true, 0, 0) && same == done(false, 0, 0) && stand(house))
}

/// Whether the first folder has two paths, and the second one of them.
fn stand(house: &House<DeskRemote>) -> bool {
    count(&house.here) == 2 && count(&house.there) == 1 && holds_all(&house.there, &house.here)
}

fn loses_none(
    alloc: Global,
    house: &mut House<DeskRemote>,
    one: &str,
    other: &str,
) -> Result<bool, AllocError> {
    Ok(is_begun(alloc, house, one)? && keeps_both(alloc, house, other)?)
}

/// The same of two empty folders and an empty library.
fn loses_none_anew(alloc: Global, one: &str, other: &str) -> Result<bool, AllocError> {
    let mut house = empty_house(alloc, &[])?;
    loses_none(alloc, &mut house, one, other)
}

#[test]
fn two_names_that_a_folder_takes_for_one_lose_nothing(rt: HostRuntime) -> Result<(), AllocError> {
    assert!(rt; loses_none_anew(rt.alloc(), "a", "A")?);
    assert!(rt; loses_none_anew(rt.alloc(), "é", "e\u{301}")?);
    Ok(())
}
