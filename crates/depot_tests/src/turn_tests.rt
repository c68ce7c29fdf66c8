//! A collection of a library in turns, and calls between them: what no request of one connection shows.
use crate::calls::{Said, Step, asked, removed_by, turned};
use crate::library::{count_left, library_on};
use crate::objects::{
    Kept, ONE, has_block, is_present, is_updated, put_block, put_commit, update_to, updated_thrice,
};
use depot::Depot;
use ids::ObjId;
use library_state::{Act, Op};
use object_store::{MemoryShelf, Store};
use std::alloc::{AllocError, Global};

/// A turn of one object of the first collection as a letter; `?` where it is of another one, or takes another number of objects.
fn letter_of(step: Step) -> char {
    match step {
        Step::Began(1) => 'b',
        Step::Marked(1) => 'm',
        Step::Swept(1) => 's',
        Step::Ended(1) => 'e',
        Step::Over(1) => 'o',
        Step::Failed(_) => 'f',
        Step::Refused => 'r',
        _ => '?',
    }
}

/// So many turns of one object, the first without a goal, as letters.
fn turns(alloc: Global, depot: &mut Kept, count: u64) -> Result<String, AllocError> {
    let mut letters = String::new(alloc);
    let mut goal = None;
    for _ in 0..count {
        letters.push(letter_of(turned(depot, goal, 1)))?;
        goal = Some(1);
    }
    Ok(letters)
}

/// Whether no collection runs, and four objects are left.
fn is_over(depot: Kept) -> bool {
    let runs = depot.running().is_some();
    count_left(depot) == 4 && !runs
}

/// The turns of the library of three updates, and whether they are over.
fn turns_of_three(alloc: Global) -> Result<(String, bool), AllocError> {
    let mut depot = updated_thrice(alloc, &[])?;
    let letters = turns(alloc, &mut depot, 16);
    let over = is_over(depot);
    Ok((letters?, over))
}

#[test]
fn a_collection_takes_one_step_a_turn(rt: HostRuntime) -> Result<(), AllocError> {
    let (letters, over) = turns_of_three(rt.alloc())?;
    assert_eq!(rt; letters.as_str(), "bmmmmssssssssseo");
    assert!(rt; over);
    Ok(())
}

/// How many objects a turn took, three at most, as a digit; `b` where it began a collection, `e` where it ended one, and `?`
/// where it is none of these.
fn taken_by(step: Step) -> char {
    match step {
        Step::Began(_) => 'b',
        Step::Marked(count) => digit_of(count),
        Step::Swept(count) => digit_of(count),
        Step::Ended(_) => 'e',
        _ => '?',
    }
}

fn digit_of(count: u64) -> char {
    match count {
        1 => '1',
        2 => '2',
        3 => '3',
        _ => '?',
    }
}

/// What so many turns of at most three objects took.
fn taken(alloc: Global, depot: &mut Kept, count: u64) -> Result<String, AllocError> {
    let mut digits = String::new(alloc);
    for _ in 0..count {
        digits.push(taken_by(turned(depot, None, 3)))?;
    }
    Ok(digits)
}

/// What the turns of the library of three updates took.
fn taken_of_three(alloc: Global) -> Result<String, AllocError> {
    let mut depot = updated_thrice(alloc, &[])?;
    let digits = taken(alloc, &mut depot, 7);
    drop(depot);
    digits
}

// Four objects are needed, and nine are not.
#[test]
fn a_turn_tells_how_many_objects_it_took(rt: HostRuntime) -> Result<(), AllocError> {
    let digits = taken_of_three(rt.alloc())?;
    assert_eq!(rt; digits.as_str(), "b31333e");
    Ok(())
}

fn is_checked(depot: &mut Kept) -> bool {
    matches!(asked(depot, Act::Check(Op::Upload)), Said::Checked)
}

fn is_begun(depot: &mut Kept) -> bool {
    matches!(turned(depot, None, 1000), Step::Began(1))
}

/// Whether an upload is checked and told that block `a` is there, once a collection began.
fn is_told_present(alloc: Global, depot: &mut Kept) -> Result<bool, AllocError> {
    let begun = is_begun(depot) && is_checked(depot);
    Ok(is_present(alloc, depot, "a")? && begun)
}

/// Whether the collection takes the other block alone.
fn keeps_first(depot: &mut Kept) -> bool {
    removed_by(depot, 1000) == Some(1) && has_block(depot, "a") && !has_block(depot, "b")
}

/// Whether an update that needs this block is then taken.
fn takes_update(alloc: Global, depot: &mut Kept, letter: &str) -> Result<bool, AllocError> {
    let head = depot.head();
    let commit = put_commit(alloc, depot, 0x44, &head, ONE, letter)?;
    Ok(is_updated(depot, &commit))
}

/// Whether of two blocks that nothing needs the one that was told to be there stays, and is needed then.
fn stays(alloc: Global, depot: &mut Kept) -> Result<bool, AllocError> {
    put_block(alloc, depot, "a")?;
    put_block(alloc, depot, "b")?;
    Ok(is_told_present(alloc, depot)? && keeps_first(depot) && takes_update(alloc, depot, "a")?)
}

/// The same of a new library.
fn stays_in_one(alloc: Global) -> Result<bool, AllocError> {
    let mut depot = library_on(alloc, &[])?;
    let stays = stays(alloc, &mut depot);
    drop(depot);
    stays
}

#[test]
fn what_was_told_present_stays_through_a_collection(rt: HostRuntime) -> Result<(), AllocError> {
    assert!(rt; stays_in_one(rt.alloc())?);
    Ok(())
}

/// Puts all objects of an update, which it doesn't ask for, and a block that nothing needs: the update's commit.
fn put_unasked(alloc: Global, depot: &mut Kept) -> Result<ObjId, AllocError> {
    let head = depot.head();
    put_block(alloc, depot, "x")?;
    put_commit(alloc, depot, 0x44, &head, ONE, "d")
}

/// Whether the update is taken after so many turns of one object, and the collection then takes one object alone.
fn takes_beside(depot: &mut Kept, commit: &ObjId, before: u64) -> bool {
    for _ in 0..before {
        let _ = turned(depot, None, 1);
    }
    is_checked(depot)
        && is_updated(depot, commit)
        && removed_by(depot, 1000) == Some(1)
        && has_block(depot, "d")
}

/// The same of an update whose objects are put first.
fn takes_unasked(alloc: Global, depot: &mut Kept, before: u64) -> Result<bool, AllocError> {
    let commit = put_unasked(alloc, depot)?;
    Ok(takes_beside(depot, &commit, before))
}

/// Whether an update beside a collection keeps what it needs, when it comes after so many turns of one object: its objects lay
/// there unneeded before the collection began, and nobody asked for them since.
fn keeps_what_it_needs(alloc: Global, before: u64) -> Result<bool, AllocError> {
    let mut depot = library_on(alloc, &[])?;
    let taken = takes_unasked(alloc, &mut depot, before);
    let count = count_left(depot);
    Ok(count == 5 && taken?)
}

#[test]
fn an_update_keeps_what_it_needs_from_the_collection_that_runs(
    rt: HostRuntime,
) -> Result<(), AllocError> {
    for before in 1..3 {
        assert!(rt; keeps_what_it_needs(rt.alloc(), before)?, "{before}");
    }
    Ok(())
}

/// Whether an update is taken in, and made the head or merged with it.
fn is_merged(depot: &mut Kept, commit: &ObjId) -> bool {
    matches!(asked(depot, Act::Update(*commit)), Said::Updated(_))
}

/// Puts all objects of two updates of the head: their commits.
fn put_two(alloc: Global, depot: &mut Kept) -> Result<(ObjId, ObjId), AllocError> {
    let base = depot.head();
    let one = put_commit(alloc, depot, 0x11, &base, ONE, "1")?;
    let two = put_commit(alloc, depot, 0x22, &base, ONE, "2")?;
    Ok((one, two))
}

/// Whether both are taken beside a collection, which then takes nothing.
fn takes_both_beside(depot: &mut Kept, one: &ObjId, two: &ObjId) -> bool {
    let _ = turned(depot, None, 1);
    is_checked(depot)
        && is_updated(depot, one)
        && is_merged(depot, two)
        && removed_by(depot, 1000) == Some(0)
        && has_block(depot, "1")
        && has_block(depot, "2")
}

/// The same of two updates whose objects are put first.
fn takes_put(alloc: Global, depot: &mut Kept) -> Result<bool, AllocError> {
    let (one, two) = put_two(alloc, depot)?;
    Ok(takes_both_beside(depot, &one, &two))
}

/// Whether a library opens from this store.
fn opens(alloc: Global, store: Store<MemoryShelf>) -> bool {
    match Depot::start(alloc, store) {
        Ok(depot) => {
            drop(depot);
            true
        }
        Err(refused) => {
            drop(refused);
            false
        }
    }
}

/// Whether a merged update beside a collection leaves a whole library.
fn merges_beside(alloc: Global) -> Result<bool, AllocError> {
    let mut depot = library_on(alloc, &[])?;
    let taken = takes_put(alloc, &mut depot);
    let opens = opens(alloc, depot.close());
    Ok(opens && taken?)
}

#[test]
fn a_merged_update_keeps_what_it_needs_from_the_collection_that_runs(
    rt: HostRuntime,
) -> Result<(), AllocError> {
    assert!(rt; merges_beside(rt.alloc())?);
    Ok(())
}

/// Whether an update that was answered is answered with its commit again, once a collection ended that takes nothing.
fn is_known_over(alloc: Global, depot: &mut Kept) -> Result<bool, AllocError> {
    let first = depot.head();
    let commit = update_to(alloc, depot, 0x11, &first, ONE, "1")?;
    Ok(removed_by(depot, 1000) == Some(0) && is_updated(depot, &commit))
}

/// The same of a new library.
fn is_known_after(alloc: Global) -> Result<bool, AllocError> {
    let mut depot = library_on(alloc, &[])?;
    let known = is_known_over(alloc, &mut depot);
    drop(depot);
    known
}

#[test]
fn an_update_that_was_answered_is_known_after_a_collection(
    rt: HostRuntime,
) -> Result<(), AllocError> {
    assert!(rt; is_known_after(rt.alloc())?);
    Ok(())
}

/// Whether an update is refused, as a collection began since an upload was last allowed.
fn is_stale(depot: &mut Kept, commit: &ObjId) -> bool {
    matches!(asked(depot, Act::Update(*commit)), Said::Stale)
}

/// Whether a collection takes the four objects of an update that wasn't made, which is then stale, and of which its block isn't
/// there any more.
fn is_taken(alloc: Global, depot: &mut Kept, commit: &ObjId) -> Result<bool, AllocError> {
    let taken = removed_by(depot, 1000) == Some(4) && is_stale(depot, commit) && is_checked(depot);
    Ok(!is_present(alloc, depot, "1")? && taken)
}

/// Whether a collection takes an upload, whose update is made once it was put again.
fn is_put_again(alloc: Global, depot: &mut Kept) -> Result<bool, AllocError> {
    let first = depot.head();
    let commit = put_commit(alloc, depot, 0x11, &first, ONE, "1")?;
    let taken = is_taken(alloc, depot, &commit)?;
    let again = put_commit(alloc, depot, 0x11, &first, ONE, "1")?;
    Ok(taken && is_updated(depot, &again))
}

/// The same of a new library.
fn is_put_again_in_one(alloc: Global) -> Result<bool, AllocError> {
    let mut depot = library_on(alloc, &[])?;
    let again = is_put_again(alloc, &mut depot);
    drop(depot);
    again
}

#[test]
fn an_upload_that_a_collection_took_is_put_again(rt: HostRuntime) -> Result<(), AllocError> {
    assert!(rt; is_put_again_in_one(rt.alloc())?);
    Ok(())
}
