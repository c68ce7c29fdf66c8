//! What a sync leaves where the folder or the library fails.
use crate::household::{
    Came, House, Worktree, add_dir, add_file, add_small, are_equal, done, empty_house,
    empty_worktree, has, holds_all, is_shared, is_unsynced, sync_here, sync_there,
};
use folder_side::{Holding, MemoryFolder};
use ids::Items;
use remote_calls::DeskRemote;
use std::alloc::{AllocError, Global};
use tree_model::Path;

/// Which sync of the second folder has a call that fails.
#[derive(Clone, Copy, PartialEq, Eq)]
enum Case {
    /// It gets what the first one pushed, and has nothing before.
    Clone,
    /// There is nothing to do.
    Idle,
    /// It pushes what was changed in it.
    Push,
    /// It gets what was changed in the first one.
    Checkout,
}

/// What stands in a folder: each path, with the first byte of a file; a directory has 0.
const OLD: [(&str, u8); 4] = [("a", 1), ("d", 0), ("d/x", 2), ("f", 3)];

/// The same once it was changed: a file has other bytes, a directory with a file is a file now, and a file a directory with a file.
const NEW: [(&str, u8); 4] = [("a", 4), ("d", 5), ("f", 0), ("f/z", 6)];

fn add_row(
    alloc: Global,
    tree: &mut Worktree,
    path: &str,
    first: u8,
    second: u8,
) -> Result<bool, AllocError> {
    if first == 0 {
        add_dir(alloc, tree, path)
    } else {
        add_file(alloc, tree, path, &[first, second])
    }
}

/// Has a folder hold just these, each file with this second byte. Its calls of these numbers fail from now on; its index stays.
/// A path that can't be added is told as want of memory.
fn fill(
    alloc: Global,
    tree: &mut Worktree,
    rows: &[(&str, u8)],
    second: u8,
    fails: &[u64],
) -> Result<(), AllocError> {
    let fails = Items::copy(alloc, fails)?;
    tree.folder = MemoryFolder::new(alloc, fails);
    for place in 0..rows.len() {
        let (path, first) = rows[place];
        if !add_row(alloc, tree, path, first, second)? {
            return Err(AllocError);
        }
    }
    Ok(())
}

/// Has it hold what the second folder has before that sync. What is pushed is new to the library each time, so that all of it is read.
fn fill_before(
    alloc: Global,
    tree: &mut Worktree,
    case: Case,
    number: u8,
    fails: &[u64],
) -> Result<(), AllocError> {
    match case {
        Case::Clone => fill(alloc, tree, &[], 0, fails),
        Case::Idle => fill(alloc, tree, &OLD, 0, fails),
        Case::Push => fill(alloc, tree, &NEW, number, fails),
        Case::Checkout => fill(alloc, tree, &OLD, 0, fails),
    }
}

/// Two folders with their library, and what the second one has before that sync.
#[derive(Drop)]
struct Scene {
    house: House<DeskRemote>,
    before: Worktree,
}

fn empty_scene(alloc: Global) -> Result<Scene, AllocError> {
    let before = empty_worktree(alloc)?;
    let house = empty_house(alloc, &[])?;
    Ok(Scene { house, before })
}

/// What comes before that sync.
fn begin(alloc: Global, scene: &mut Scene, case: Case) -> Result<(), AllocError> {
    fill(alloc, &mut scene.house.here, &OLD, 0, &[])?;
    let _ = sync_here(alloc, &mut scene.house);
    if case != Case::Clone {
        let _ = sync_there(alloc, &mut scene.house);
    }
    if case == Case::Checkout {
        fill(alloc, &mut scene.house.here, &NEW, 0, &[])?;
        let _ = sync_here(alloc, &mut scene.house);
    }
    Ok(())
}

/// What it comes to where no call fails.
fn wanted(case: Case) -> Came {
    match case {
        Case::Clone => done(false, 3, 0),
        Case::Idle => done(false, 0, 0),
        Case::Push => done(true, 0, 0),
        Case::Checkout => done(false, 3, 3),
    }
}

/// Whether it may change the folder.
fn writes(case: Case) -> bool {
    matches!(case, Case::Clone | Case::Checkout)
}

fn is_same_kind(one: &Holding, other: &Holding) -> bool {
    match one {
        Holding::Dir => matches!(other, Holding::Dir),
        Holding::File(_) => matches!(other, Holding::File(_)),
        Holding::Other => false,
    }
}

/// Whether something of this kind stands there.
fn has_kind(tree: &Worktree, path: &Path, holding: &Holding) -> bool {
    match tree.folder.paths().get(path) {
        Some(found) => is_same_kind(holding, found),
        None => false,
    }
}

/// Whether all that stands in the one folder stands so in one of the others.
fn holds_either(tree: &Worktree, old: &Worktree, new: &Worktree) -> bool {
    for (path, holding) in tree.folder.paths().iter() {
        if !has(old, path, holding) && !has(new, path, holding) {
            return false;
        }
    }
    true
}

/// Whether nothing that stood there is gone, but where the new folder has nothing or another kind.
fn loses_none(tree: &Worktree, old: &Worktree, new: &Worktree) -> bool {
    for (path, holding) in old.folder.paths().iter() {
        if !tree.folder.paths().has(path) && has_kind(new, path, holding) {
            return false;
        }
    }
    true
}

/// Whether each path of the second folder is as it was or, in the midst of a checkout, as the first one has it.
fn is_old_or_new(scene: &Scene, may_write: bool) -> bool {
    if may_write {
        let new = &scene.house.here;
        holds_either(&scene.house.there, &scene.before, new)
            && loses_none(&scene.house.there, &scene.before, new)
    } else {
        are_equal(&scene.house.there, &scene.before)
    }
}

/// Whether it holds what it is to hold.
fn is_new(scene: &Scene, case: Case) -> bool {
    if writes(case) {
        are_equal(&scene.house.there, &scene.house.here)
    } else {
        are_equal(&scene.house.there, &scene.before)
    }
}

/// How that sync left the second folder.
#[derive(Clone, Copy, PartialEq, Eq)]
enum State {
    /// No call failed, and all is as it is to be.
    Whole,
    /// A call failed, which was told, and each path is old or new.
    Kept,
    Torn,
}

fn state_after(scene: &Scene, case: Case, came: Came, may_write: bool) -> State {
    if scene.house.there.folder.faults() == 0 {
        if came == wanted(case) && is_new(scene, case) {
            return State::Whole;
        }
        return State::Torn;
    }
    if came == Came::Folder && is_old_or_new(scene, may_write) {
        return State::Kept;
    }
    State::Torn
}

/// The same by the sync itself; an index that is another one after a failure is torn too.
fn sync_to_state(
    alloc: Global,
    scene: &mut Scene,
    case: Case,
    may_write: bool,
) -> Result<State, AllocError> {
    let before = scene.house.there.index.write(alloc)?;
    let came = sync_there(alloc, &mut scene.house);
    let after = scene.house.there.index.write(alloc)?;
    let state = state_after(scene, case, came, may_write);
    if state == State::Kept && before.slice() != after.slice() {
        return Ok(State::Torn);
    }
    Ok(state)
}

/// The same where the call of that number fails.
fn state_at(
    alloc: Global,
    scene: &mut Scene,
    case: Case,
    number: u8,
    may_write: bool,
) -> Result<State, AllocError> {
    let fails = [u64::from(number)];
    fill_before(alloc, &mut scene.before, case, number, &[])?;
    fill_before(alloc, &mut scene.house.there, case, number, &fails)?;
    sync_to_state(alloc, scene, case, may_write)
}

/// How many calls of the folder that sync makes, where the failing of each leaves what it may; the first ones, so many, change nothing.
/// None where one leaves something else.
fn calls_in(
    alloc: Global,
    scene: &mut Scene,
    case: Case,
    first: u8,
) -> Result<Option<u8>, AllocError> {
    begin(alloc, scene, case)?;
    for number in 0..250u8 {
        let may_write = writes(case) && number >= first;
        match state_at(alloc, scene, case, number, may_write)? {
            State::Whole => return Ok(Some(number)),
            State::Kept => {}
            State::Torn => return Ok(None),
        }
    }
    Ok(None)
}

/// The same of two empty folders and an empty library.
fn calls(alloc: Global, case: Case, first: u8) -> Result<Option<u8>, AllocError> {
    let mut scene = empty_scene(alloc)?;
    calls_in(alloc, &mut scene, case, first)
}

fn is_more(count: Option<u8>, than: u8) -> bool {
    match count {
        Some(count) => count > than,
        None => false,
    }
}

#[test]
fn a_folder_that_fails_at_any_call_holds_old_or_new_at_each_path(
    rt: HostRuntime,
) -> Result<(), AllocError> {
    assert!(rt; is_more(calls(rt.alloc(), Case::Clone, 1)?, 1));
    Ok(())
}

/// Whether each call of a checkout may fail. It begins with a scan of the folder, which is all that a sync with nothing to do does.
fn is_checked_out(alloc: Global) -> Result<bool, AllocError> {
    match calls(alloc, Case::Idle, 0)? {
        Some(scanned) => Ok(is_more(calls(alloc, Case::Checkout, scanned)?, scanned)),
        None => Ok(false),
    }
}

#[test]
fn a_folder_that_fails_at_any_call_of_a_checkout_is_old_or_new(
    rt: HostRuntime,
) -> Result<(), AllocError> {
    assert!(rt; is_checked_out(rt.alloc())?);
    Ok(())
}

#[test]
fn a_folder_that_fails_at_any_call_of_a_push_is_as_it_was(
    rt: HostRuntime,
) -> Result<(), AllocError> {
    assert!(rt; is_more(calls(rt.alloc(), Case::Push, 0)?, 0));
    Ok(())
}

/// Whether the second folder got all, or some of it and its index knows of none.
fn is_all_or_unknown(alloc: Global, house: &mut House<DeskRemote>) -> bool {
    let came = sync_there(alloc, house);
    if came == Came::NoReply {
        return is_unsynced(&house.there) && holds_all(&house.there, &house.here);
    }
    came == done(false, 2, 0)
}

/// Whether an index is as it was where some order fails, of the first sync or of the second.
fn keeps_indexes(alloc: Global, house: &mut House<DeskRemote>) -> Result<bool, AllocError> {
    add_small(alloc, &mut house.here)?;
    let came = sync_here(alloc, house);
    if came == Came::NoReply {
        return Ok(is_unsynced(&house.here));
    }
    Ok(came == done(true, 0, 0) && is_all_or_unknown(alloc, house))
}

fn is_untouched(alloc: Global, number: u64) -> Result<bool, AllocError> {
    let mut house = empty_house(alloc, &[number])?;
    keeps_indexes(alloc, &mut house)
}

/// The first order whose failing changes an index, or 40.
fn first_changed(alloc: Global) -> Result<u64, AllocError> {
    for number in 0..40u64 {
        if !is_untouched(alloc, number)? {
            return Ok(number);
        }
    }
    Ok(40)
}

#[test]
fn a_remote_that_fails_at_any_order_leaves_the_index(rt: HostRuntime) -> Result<(), AllocError> {
    let changed = first_changed(rt.alloc())?;
    assert!(rt; changed == 40);
    Ok(())
}

/// Whether a small folder is pushed and cloned where that order fails, so that it isn't sent.
fn is_spare(alloc: Global, house: &mut House<DeskRemote>) -> Result<bool, AllocError> {
    add_small(alloc, &mut house.here)?;
    Ok(is_shared(alloc, house, 2))
}

fn is_spare_anew(alloc: Global, number: u64) -> Result<bool, AllocError> {
    let mut house = empty_house(alloc, &[number])?;
    is_spare(alloc, &mut house)
}

/// How many orders a push and a clone of a small folder send, or 40.
fn orders_sent(alloc: Global) -> Result<u64, AllocError> {
    for number in 0..40u64 {
        if is_spare_anew(alloc, number)? {
            return Ok(number);
        }
    }
    Ok(40)
}

/// The push: a check, the head, its commit, what is lacking of blocks, both of them, what is lacking of files and directories, all of
/// them at once, the commit, the update. The clone: a check, the head, its commit, three levels of the tree, and both blocks.
#[test]
fn a_push_and_a_clone_send_eighteen_orders(rt: HostRuntime) -> Result<(), AllocError> {
    let sent = orders_sent(rt.alloc())?;
    assert!(rt; sent == 18);
    Ok(())
}
