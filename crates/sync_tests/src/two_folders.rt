//! What syncs leave in two folders and their library.
use crate::household::{
    Came, House, Worktree, add_dir, add_file, add_link, add_small, are_equal, came_to, change_file,
    clock, count, done, empty_folder, empty_house, empty_worktree, forget_base, has_file,
    is_shared, remove, sync_here, sync_there, sync_with,
};
use crate::library::{OWNER, READER, desk};
use folder_side::MemoryFolder;
use library_state::Secret;
use remote_calls::DeskRemote;
use std::alloc::{AllocError, Global};
use sync_daemon::{Job, run_turns};
use sync_rules::{SyncFault, Synced};

/// What is looked at in two folders and their library.
#[derive(Clone, Copy)]
enum Case {
    ManyFiles,
    LargeFile,
    Meeting,
    Conflict,
    Link,
    Blocking,
    Reader,
    LostBase,
    NoBase,
}

fn holds(alloc: Global, house: &mut House<DeskRemote>, case: Case) -> Result<bool, AllocError> {
    match case {
        Case::ManyFiles => is_cloned(alloc, house),
        Case::LargeFile => is_large_one_cloned(alloc, house),
        Case::Meeting => do_meet(alloc, house),
        Case::Conflict => is_conflict(alloc, house),
        Case::Link => is_apart(alloc, house),
        Case::Blocking => is_blocked(alloc, house),
        Case::Reader => is_denied(alloc, house),
        Case::LostBase => is_kept(alloc, house),
        Case::NoBase => is_filled(alloc, house),
    }
}

/// The same of two empty folders and an empty library.
fn holds_anew(alloc: Global, case: Case) -> Result<bool, AllocError> {
    let mut house = empty_house(alloc, &[])?;
    holds(alloc, &mut house, case)
}

fn add_numbered(alloc: Global, tree: &mut Worktree, file: u32) -> Result<(), AllocError> {
    let dir = file % 40;
    let text = format!(in alloc; "d{dir}/f{file}")?;
    let _ = add_file(alloc, tree, text.as_str(), text.as_bytes())?;
    Ok(())
}

fn add_numbered_dir(alloc: Global, tree: &mut Worktree, dir: u32) -> Result<(), AllocError> {
    let text = format!(in alloc; "d{dir}")?;
    let _ = add_dir(alloc, tree, text.as_str())?;
    Ok(())
}

/// Three hundred files in forty directories, each of the bytes of its path.
fn fill(alloc: Global, tree: &mut Worktree) -> Result<(), AllocError> {
    for dir in 0..40u32 {
        add_numbered_dir(alloc, tree, dir)?;
    }
    for file in 0..300u32 {
        add_numbered(alloc, tree, file)?;
    }
    Ok(())
}

fn is_cloned(alloc: Global, house: &mut House<DeskRemote>) -> Result<bool, AllocError> {
    fill(alloc, &mut house.here)?;
    Ok(is_shared(alloc, house, 300) && count(&house.there) == 340)
}

#[test]
fn three_hundred_files_are_pushed_by_one_commit_and_cloned(
    rt: HostRuntime,
) -> Result<(), AllocError> {
    assert!(rt; holds_anew(rt.alloc(), Case::ManyFiles)?);
    Ok(())
}

/// Whether a file of 9 MiB of zeros, of which two blocks are the same, is pushed and cloned.
fn is_large_one_cloned(alloc: Global, house: &mut House<DeskRemote>) -> Result<bool, AllocError> {
    let mut bytes = Vec::new(alloc);
    bytes.resize(9_437_184, 0)?;
    let is_added = add_file(alloc, &mut house.here, "a", bytes.as_slice())?;
    Ok(is_added && is_shared(alloc, house, 1))
}

#[test]
fn a_file_of_nine_mebibytes_is_pushed_and_cloned(rt: HostRuntime) -> Result<(), AllocError> {
    assert!(rt; holds_anew(rt.alloc(), Case::LargeFile)?);
    Ok(())
}

/// Moves `old/a` to `new/a`, and removes the directory that it leaves.
fn rename(alloc: Global, tree: &mut Worktree) -> Result<bool, AllocError> {
    let is_made = add_dir(alloc, tree, "new")?;
    let is_added = add_file(alloc, tree, "new/a", b"abc")?;
    let is_removed = remove(alloc, tree, "old/a")?;
    let is_left = remove(alloc, tree, "old")?;
    Ok(is_made && is_added && is_removed && is_left)
}

/// Whether both changes are in both folders, once the first is synced, and the second, and the first again.
fn are_merged(alloc: Global, house: &mut House<DeskRemote>) -> bool {
    let first = sync_here(alloc, house);
    let second = sync_there(alloc, house);
    let third = sync_here(alloc, house);
    first == done(true, 0, 0)
        && second == done(true, 1, 2)
        && third == done(false, 1, 0)
        && are_equal(&house.here, &house.there)
}

fn do_meet(alloc: Global, house: &mut House<DeskRemote>) -> Result<bool, AllocError> {
    add_small(alloc, &mut house.here)?;
    let is_begun = is_shared(alloc, house, 2);
    let is_renamed = rename(alloc, &mut house.here)?;
    let is_added = add_file(alloc, &mut house.there, "c", b"cde")?;
    Ok(is_begun && is_renamed && is_added && are_merged(alloc, house))
}

#[test]
fn a_directory_renamed_here_and_a_file_added_there_meet(rt: HostRuntime) -> Result<(), AllocError> {
    assert!(rt; holds_anew(rt.alloc(), Case::Meeting)?);
    Ok(())
}

/// A push met another change of a file, so two files were written.
fn conflicting() -> Came {
    Came::Done {
        is_pushed: true,
        conflict: true,
        written: 2,
        removed: 0,
        skipped: 0,
    }
}

/// Whether the conflict is told where the second change is pushed, and nowhere else.
fn tells_conflict(alloc: Global, house: &mut House<DeskRemote>) -> bool {
    let first = sync_here(alloc, house);
    let second = sync_there(alloc, house);
    let third = sync_here(alloc, house);
    first == done(true, 0, 0) && second == conflicting() && third == done(false, 1, 0)
}

/// Whether both changes of a file stand in both folders.
fn keep_both(alloc: Global, house: &House<DeskRemote>) -> Result<bool, AllocError> {
    let copy = "b (SFConflict me 1970-01-01-00-00-09)";
    let is_kept = has_file(alloc, &house.here, "b", b"here")?;
    let is_copied = has_file(alloc, &house.here, copy, b"there")?;
    let are_alike = count(&house.here) == 4 && are_equal(&house.here, &house.there);
    Ok(is_kept && is_copied && are_alike)
}

fn is_conflict(alloc: Global, house: &mut House<DeskRemote>) -> Result<bool, AllocError> {
    add_small(alloc, &mut house.here)?;
    let is_begun = is_shared(alloc, house, 2);
    let is_changed = change_file(alloc, &mut house.here, "b", b"here")?;
    let is_other = change_file(alloc, &mut house.there, "b", b"there")?;
    let is_told = is_begun && is_changed && is_other && tells_conflict(alloc, house);
    Ok(is_told && keep_both(alloc, house)?)
}

#[test]
fn two_changes_of_a_file_are_told_as_a_conflict_and_kept(
    rt: HostRuntime,
) -> Result<(), AllocError> {
    assert!(rt; holds_anew(rt.alloc(), Case::Conflict)?);
    Ok(())
}

/// A link was passed over, and a file may have been pushed.
fn passed_over(is_pushed: bool) -> Came {
    Came::Done {
        is_pushed,
        conflict: false,
        written: 0,
        removed: 0,
        skipped: 1,
    }
}

/// Whether a folder with a file and a link is pushed but for the link, and another one with a file is refused behind it.
fn is_apart(alloc: Global, house: &mut House<DeskRemote>) -> Result<bool, AllocError> {
    let _ = add_file(alloc, &mut house.here, "a", b"abc")?;
    let _ = add_link(alloc, &mut house.here, "link")?;
    let _ = add_file(alloc, &mut house.there, "b", b"abc")?;
    Ok(sync_here(alloc, house) == passed_over(true) && sync_there(alloc, house) == Came::NotEmpty)
}

#[test]
fn a_link_is_passed_over_and_a_full_folder_not_joined_to_a_full_library(
    rt: HostRuntime,
) -> Result<(), AllocError> {
    assert!(rt; holds_anew(rt.alloc(), Case::Link)?);
    Ok(())
}

/// Whether a folder with a link where the library has a file gets nothing, and keeps the link.
fn is_blocked(alloc: Global, house: &mut House<DeskRemote>) -> Result<bool, AllocError> {
    add_small(alloc, &mut house.here)?;
    let _ = add_link(alloc, &mut house.there, "b")?;
    let pushed = sync_here(alloc, house);
    let came = sync_there(alloc, house);
    Ok(pushed == done(true, 0, 0) && came == Came::Blocked && count(&house.there) == 1)
}

#[test]
fn a_link_where_the_library_has_a_file_blocks_a_sync(rt: HostRuntime) -> Result<(), AllocError> {
    assert!(rt; holds_anew(rt.alloc(), Case::Blocking)?);
    Ok(())
}

/// Syncs the second folder with the secret of one who may only read.
fn read(alloc: Global, house: &mut House<DeskRemote>) -> Came {
    sync_with(alloc, &mut house.there, &mut house.remote, READER)
}

/// Whether one who may only read gets what is there, and is refused with a file more, which stays.
fn is_denied(alloc: Global, house: &mut House<DeskRemote>) -> Result<bool, AllocError> {
    add_small(alloc, &mut house.here)?;
    let pushed = sync_here(alloc, house);
    let got = read(alloc, house);
    let _ = add_file(alloc, &mut house.there, "c", b"cde")?;
    let refused = read(alloc, house);
    let is_begun = pushed == done(true, 0, 0) && got == done(false, 2, 0);
    Ok(is_begun && refused == Came::Denied && count(&house.there) == 4)
}

#[test]
fn a_reader_whose_folder_changed_is_denied(rt: HostRuntime) -> Result<(), AllocError> {
    assert!(rt; holds_anew(rt.alloc(), Case::Reader)?);
    Ok(())
}

/// Whether the first folder is pushed whole to another library, which is empty.
fn is_pushed_whole(alloc: Global, tree: &mut Worktree) -> Result<bool, AllocError> {
    let mut other = desk(alloc, &[])?;
    Ok(sync_with(alloc, tree, &mut other, OWNER) == done(true, 0, 0) && count(tree) == 3)
}

/// Whether a folder whose index lost its base isn't joined to the library that has the same, and is pushed whole to an empty one.
fn is_kept(alloc: Global, house: &mut House<DeskRemote>) -> Result<bool, AllocError> {
    add_small(alloc, &mut house.here)?;
    let first = sync_here(alloc, house);
    forget_base(&mut house.here);
    let second = sync_here(alloc, house);
    let is_begun = first == done(true, 0, 0) && second == Came::NotEmpty;
    Ok(is_begun && is_pushed_whole(alloc, &mut house.here)?)
}

#[test]
fn a_folder_whose_index_lost_its_base_is_pushed_whole_or_refused(
    rt: HostRuntime,
) -> Result<(), AllocError> {
    assert!(rt; holds_anew(rt.alloc(), Case::LostBase)?);
    Ok(())
}

/// Whether an empty folder whose index lists files of no base gets what the library has.
fn is_filled(alloc: Global, house: &mut House<DeskRemote>) -> Result<bool, AllocError> {
    add_small(alloc, &mut house.here)?;
    let is_begun = is_shared(alloc, house, 2);
    empty_folder(alloc, &mut house.there);
    forget_base(&mut house.there);
    let got = sync_there(alloc, house);
    Ok(is_begun && got == done(false, 2, 0) && are_equal(&house.here, &house.there))
}

#[test]
fn what_an_index_without_a_base_lists_is_not_removed(rt: HostRuntime) -> Result<(), AllocError> {
    assert!(rt; holds_anew(rt.alloc(), Case::NoBase)?);
    Ok(())
}

/// A folder that was never synced, with a directory and two files.
fn small_worktree(alloc: Global) -> Result<Worktree, AllocError> {
    let mut tree = empty_worktree(alloc)?;
    add_small(alloc, &mut tree)?;
    Ok(tree)
}

fn job_of(tree: Worktree, remote: DeskRemote) -> Job<MemoryFolder, DeskRemote> {
    Job {
        folder: tree.folder,
        index: tree.index,
        remote,
        secret: Secret::from_bytes(OWNER),
        user: tree.user,
    }
}

/// That folder, with its library.
fn jobs(alloc: Global) -> Result<Vec<Job<MemoryFolder, DeskRemote>>, AllocError> {
    let remote = desk(alloc, &[])?;
    let tree = small_worktree(alloc)?;
    let mut jobs = Vec::new(alloc);
    jobs.push(job_of(tree, remote))?;
    Ok(jobs)
}

/// Whether the first sync pushed, and the second had nothing to do.
fn are_two(results: &[Result<Synced, SyncFault>]) -> bool {
    match results {
        [first, second] => came_to(first) == done(true, 0, 0)
            && came_to(second) == done(false, 0, 0),
        _ => false,
    }
}

fn has_two_turns(
    alloc: Global,
    jobs: &mut Vec<Job<MemoryFolder, DeskRemote>>,
) -> Result<bool, AllocError> {
    let clock = clock(alloc)?;
    let results = run_turns(alloc, jobs, 2, &clock)?;
    Ok(are_two(results.as_slice()))
}

#[test]
fn a_job_is_synced_once_a_turn(rt: HostRuntime) -> Result<(), AllocError> {
    let mut jobs = jobs(rt.alloc())?;
    assert!(rt; has_two_turns(rt.alloc(), &mut jobs)?);
    Ok(())
}

/// A folder that was never synced, with a link.
fn linked_worktree(alloc: Global) -> Result<Worktree, AllocError> {
    let mut tree = empty_worktree(alloc)?;
    let _ = add_link(alloc, &mut tree, "link")?;
    Ok(tree)
}

/// Another folder, with a library of its own.
fn add_linked(
    alloc: Global,
    jobs: &mut Vec<Job<MemoryFolder, DeskRemote>>,
) -> Result<(), AllocError> {
    let remote = desk(alloc, &[])?;
    let tree = linked_worktree(alloc)?;
    jobs.push(job_of(tree, remote))?;
    Ok(())
}

/// Whether the first folder was pushed, and of the second a link passed over, and the same once more with nothing to do.
fn are_four(results: &[Result<Synced, SyncFault>]) -> bool {
    match results {
        [first, second, third, fourth] => {
            came_to(first) == done(true, 0, 0)
                && came_to(second) == passed_over(false)
                && came_to(third) == done(false, 0, 0)
                && came_to(fourth) == passed_over(false)
        }
        _ => false,
    }
}

/// Whether each folder's index has a base.
fn are_synced(jobs: &[Job<MemoryFolder, DeskRemote>]) -> bool {
    match jobs {
        [first, second] => first.index.base.is_some() && second.index.base.is_some(),
        _ => false,
    }
}

fn have_two_turns(
    alloc: Global,
    jobs: &mut Vec<Job<MemoryFolder, DeskRemote>>,
) -> Result<bool, AllocError> {
    add_linked(alloc, jobs)?;
    let clock = clock(alloc)?;
    let results = run_turns(alloc, jobs, 2, &clock)?;
    Ok(are_four(results.as_slice()) && are_synced(jobs.as_slice()))
}

#[test]
fn two_jobs_are_synced_in_order_each_in_its_own_folder(rt: HostRuntime) -> Result<(), AllocError> {
    let mut jobs = jobs(rt.alloc())?;
    assert!(rt; have_two_turns(rt.alloc(), &mut jobs)?);
    Ok(())
}
