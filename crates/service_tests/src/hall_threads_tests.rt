//! Two threads at one hall, over one library in memory.
ghost use Rattle.std.specs.Prelude.{IfOk};
ghost use Rattle.sync_calls.specs.Hall.{AreReady};

use crate::hall::{Said, Told, ask, asked, block, collect, owner, put_of, two_passes};
use crate::library::library_on;
use ids::{Items, Key, Kind, ObjId};
use library_state::{Act, Call};
use object_store::Shelf;
use std::alloc::{AllocError, Global};
use std::sync::Wait;
use std::thread::{Threads, join};
use sync_calls::{Hall, HallPass};

/// Asks a call, collects then where that is said, and gives the pass back.
fn act<S: Shelf, R: Wait>(
    rt: &R,
    hall: &Hall<S>,
    mut pass: HallPass<S>,
    call: &Call,
    collects: bool,
) -> HallPass<S>
    requires ready { AreReady S.contents S.may_give S.texts S.faults hall.now pass }
    ensures ready { AreReady S.contents S.may_give S.texts S.faults hall.now result }
{
    let _ = ask(rt, hall, &mut pass, call);
    if collects {
        let _ = collect(rt, hall, &mut pass, &owner());
    }
    pass
}

/// Two threads act at one library, each through its pass, and the passes are joined. One asks a call; the other one too, and
/// then it collects where that is said.
fn beside<S: Shelf + Send, R: Threads + Wait + Sync>(
    rt: &R,
    hall: &Hall<S>,
    first: HallPass<S>,
    second: HallPass<S>,
    one: &Call,
    two: &Call,
    collects: bool,
) -> HallPass<S>
    requires first { AreReady S.contents S.may_give S.texts S.faults hall.now first }
    requires second { AreReady S.contents S.may_give S.texts S.faults hall.now second }
    ensures ready { AreReady S.contents S.may_give S.texts S.faults hall.now result }
{
    let (first, mut second) = join(
        rt,
        || -> HallPass<S>
            requires { AreReady S.contents S.may_give S.texts S.faults hall.now first }
            ensures { AreReady S.contents S.may_give S.texts S.faults hall.entry.now result }
        { act(rt, hall, first, one, false) },
        || -> HallPass<S>
            requires { AreReady S.contents S.may_give S.texts S.faults hall.now second }
            ensures { AreReady S.contents S.may_give S.texts S.faults hall.entry.now result }
        { act(rt, hall, second, two, collects) },
    );
    hall.join(&mut second, first);
    second
}

/// Whether these bytes are given, after two changes.
fn is_given(told: &Told, bytes: &[u8]) -> bool {
    match told.said {
        Said::Got(name) => name == ObjId::of(bytes) && told.place == 2 && told.opening == 1,
        _ => false,
    }
}

/// Whether both blocks are read.
fn are_read<S: Shelf, R: Wait>(rt: &R, hall: &Hall<S>, pass: &mut HallPass<S>) -> bool
    requires ready { AreReady S.contents S.may_give S.texts S.faults hall.now pass.old }
{
    let one = ask(rt, hall, pass, &asked(Act::Get(block(b"one"))));
    let two = ask(rt, hall, pass, &asked(Act::Get(block(b"two"))));
    is_given(&one, b"one") && is_given(&two, b"two")
}

/// Puts a block in each of two threads. The joined pass comes back.
fn put<S: Shelf + Send, R: Threads + Wait + Sync>(
    rt: &R,
    alloc: Global,
    hall: &Hall<S>,
    first: HallPass<S>,
    second: HallPass<S>,
) -> Result<HallPass<S>, AllocError>
    requires first { AreReady S.contents S.may_give S.texts S.faults hall.now first }
    requires second { AreReady S.contents S.may_give S.texts S.faults hall.now second }
    ensures ready { IfOk result (AreReady S.contents S.may_give S.texts S.faults hall.now) }
{
    let one = put_of(alloc, b"one")?;
    let two = put_of(alloc, b"two")?;
    Ok(beside(rt, hall, first, second, &one, &two, false))
}

/// The id of a commit on the library's first one, with no files.
fn later() -> ObjId {
    ObjId::from_bytes([0xcc; 20])
}

const COMMIT: &[u8] =
    b"{\"commit_id\":\"cccccccccccccccccccccccccccccccccccccccc\",\"ctime\":1,\"parent_id\":\"55cc6bc1017dda39888c7020ca41ea1b19f52ec4\",\"repo_id\":\"11111111-2222-4333-8444-555555555555\",\"root_id\":\"0000000000000000000000000000000000000000\"}";

/// A put of it.
fn put_of_commit(alloc: Global) -> Result<Call, AllocError> {
    let key = Key {
        kind: Kind::Commit,
        id: later(),
    };
    Ok(asked(Act::Put(key, Items::copy(alloc, COMMIT)?)))
}

/// Puts a commit, and asks an update to it in one thread while another one looks, which collects then where that is said. The joined pass
/// comes back.
fn pushed<S: Shelf + Send, R: Threads + Wait + Sync>(
    rt: &R,
    alloc: Global,
    hall: &Hall<S>,
    mut first: HallPass<S>,
    second: HallPass<S>,
    collects: bool,
) -> Result<HallPass<S>, AllocError>
    requires first { AreReady S.contents S.may_give S.texts S.faults hall.now first }
    requires second { AreReady S.contents S.may_give S.texts S.faults hall.now second }
    ensures ready { IfOk result (AreReady S.contents S.may_give S.texts S.faults hall.now) }
{
    let commit = put_of_commit(alloc)?;
    let _ = ask(rt, hall, &mut first, &commit);
    let update = asked(Act::Update(later()));
    let look = asked(Act::Head);
    Ok(beside(rt, hall, first, second, &update, &look, collects))
}

fn is_told(told: &Told) -> bool {
    match told.said {
        Said::Head(head) => head == later(),
        _ => false,
    }
}

/// Whether the library stands at that commit.
fn is_head<S: Shelf, R: Wait>(rt: &R, hall: &Hall<S>, pass: &mut HallPass<S>) -> bool
    requires ready { AreReady S.contents S.may_give S.texts S.faults hall.now pass.old }
{
    let told = ask(rt, hall, pass, &asked(Act::Head));
    is_told(&told)
}

/// Whether the first collection ended: the next one is the second.
fn is_second<S: Shelf, R: Wait>(rt: &R, hall: &Hall<S>, pass: &mut HallPass<S>) -> bool
    requires ready { AreReady S.contents S.may_give S.texts S.faults hall.now pass.old }
{
    match collect(rt, hall, pass, &owner()) {
        Some(ended) => ended.number == 2,
        None => false,
    }
}

/// What two threads do.
#[derive(Clone, Copy)]
enum Scene {
    /// Each puts a block.
    Puts,
    /// One pushes a commit, and the other one looks.
    Push,
    /// One pushes a commit, and the other one looks and collects.
    PushAndCollection,
}

/// Whether the joined pass sees what it should after a scene.
fn goes<S: Shelf + Send, R: Threads + Wait + Sync>(
    rt: &R,
    alloc: Global,
    hall: &Hall<S>,
    first: HallPass<S>,
    second: HallPass<S>,
    scene: Scene,
) -> Result<bool, AllocError>
    requires first { AreReady S.contents S.may_give S.texts S.faults hall.now first }
    requires second { AreReady S.contents S.may_give S.texts S.faults hall.now second }
{
    match scene {
        Scene::Puts => {
            let mut pass = put(rt, alloc, hall, first, second)?;
            Ok(are_read(rt, hall, &mut pass))
        }
        Scene::Push => {
            let mut pass = pushed(rt, alloc, hall, first, second, false)?;
            Ok(is_head(rt, hall, &mut pass))
        }
        Scene::PushAndCollection => {
            let mut pass = pushed(rt, alloc, hall, first, second, true)?;
            Ok(is_second(rt, hall, &mut pass))
        }
    }
}

/// Whether a scene goes as it should at a new hall.
fn shows<R: Threads + Wait + Sync>(
    rt: &R,
    alloc: Global,
    scene: Scene,
) -> Result<bool, AllocError> {
    let depot = library_on(alloc, &[])?;
    let (hall, first, second) = two_passes(alloc, depot)?;
    goes(rt, alloc, &hall, first, second, scene)
}

#[test]
fn two_threads_ask_one_library_and_read_what_the_other_put(
    rt: HostRuntime,
) -> Result<(), AllocError> {
    assert!(rt; shows(&rt, rt.alloc(), Scene::Puts)?);
    Ok(())
}

#[test]
fn an_update_and_a_collection_beside_it_both_end(rt: HostRuntime) -> Result<(), AllocError> {
    assert!(rt; shows(&rt, rt.alloc(), Scene::PushAndCollection)?);
    Ok(())
}

#[test]
fn a_commit_that_one_thread_pushed_is_read_by_the_other(rt: HostRuntime) -> Result<(), AllocError> {
    assert!(rt; shows(&rt, rt.alloc(), Scene::Push)?);
    Ok(())
}
