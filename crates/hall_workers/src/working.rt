//! The workers at work, in threads of their own.
ghost use Rattle.std.specs.Prelude.{◌≡◌, ◌<◌, ℕ, All, slice_index_or, vec_capacity, vec_len};
ghost use Rattle.std.specs.Bool.{OnTrue};
ghost use Rattle.link_ears.specs.Ear.{link_seen};
ghost use Rattle.hall_workers.specs.Workers.{GoesOn, ServesGiven, Stops, Works, worker_seen};
ghost use Rattle.hall_workers.specs.declared.worker.Worker.{Worker};

use crate::serves::Serves;
use crate::worker::{Ending, Worker};
use library_state::Clock;
use link_ears::Ear;
use std::alloc::Global;
use std::sync::Wait;
use std::thread::{Threads, for_each_mut};
use worker_server::Served;

/// Lets all workers serve the links of their ears, each in a thread of its own where one can be made, until each has stopped. It may
/// wait.
///
/// Each link that an ear gave comes back to it, in order, with how it ended, which is in `served` too. A worker stops where its ear says
/// that no more links come, where it fails, or where there is no memory to take another link. Where no thread can be made workers run one
/// after another.
pub fn serve_all<
    P: Send,
    H: Serves<P> + Sync,
    E: Ear + Send,
    C: Clock + Sync,
    R: Threads + Wait + Sync,
>(rt: &R, alloc: Global, hall: &H, workers: &mut Vec<Worker<P, E>>, clock: &C)
    requires ready { All (λ worker. H.ready hall.now worker.pass) workers.old.items }
    ensures size { vec_len workers.new ≡ vec_len workers.old }
    ensures ready { (i : ℕ) (d : Worker P E) → i < vec_len workers.old → H.ready hall.now (slice_index_or workers.new.items i d).pass }
    ensures each { (i : ℕ) (d : Worker P E) → i < vec_len workers.old
        → Works (H.serves hall.now (C.shows clock.now)) (link_seen E.L.left E.L.taken E.L.given E.L.asked E.L.faults)
        (worker_seen E.tells E.back E.faults (slice_index_or workers.old.items i d)) (worker_seen E.tells E.back E.faults (slice_index_or workers.new.items i d)) }
    ensures stops { (i : ℕ) (d : Worker P E) → i < vec_len workers.old
        → Stops (worker_seen E.tells E.back E.faults (slice_index_or workers.old.items i d)) (slice_index_or workers.new.items i d).ending
        (worker_seen E.tells E.back E.faults (slice_index_or workers.new.items i d)) }
{
    let count = workers.len();
    for_each_mut(
        rt,
        workers.as_mut_slice(),
        count.max(1),
        &|_, worker: &mut Worker<P, E>|
            requires { H.ready hall.now worker.now.pass }
            ensures { H.ready hall.entry.now worker.exit.now.pass
                × Works (H.serves hall.entry.now (C.shows clock.entry.now)) (link_seen E.L.left E.L.taken E.L.given E.L.asked E.L.faults)
                (worker_seen E.tells E.back E.faults worker.entry.now) (worker_seen E.tells E.back E.faults worker.exit.now)
                × Stops (worker_seen E.tells E.back E.faults worker.entry.now) worker.exit.now.ending (worker_seen E.tells E.back E.faults worker.exit.now) }
        { work(rt, alloc, hall, worker, clock) },
    );
}

/// Serves the links of a worker's ear until it stops.
fn work<P, H: Serves<P>, E: Ear, C: Clock, R: Wait>(
    rt: &R,
    alloc: Global,
    hall: &H,
    worker: &mut Worker<P, E>,
    clock: &C,
)
    requires ready { H.ready hall.now worker.old.pass }
    ensures ready { H.ready hall.now worker.new.pass }
    ensures works { Works (H.serves hall.now (C.shows clock.now)) (link_seen E.L.left E.L.taken E.L.given E.L.asked E.L.faults)
        (worker_seen E.tells E.back E.faults worker.old) (worker_seen E.tells E.back E.faults worker.new) }
    ensures stops { Stops (worker_seen E.tells E.back E.faults worker.old) worker.new.ending (worker_seen E.tells E.back E.faults worker.new) }
{
    for _ in rt.forever() {
        match serve_next(rt, alloc, hall, worker, clock) {
            None => {}
            Some(ending) => {
                worker.ending = ending;
                return;
            }
        }
    }
    unreachable!()
}

/// Serves the next link of a worker's ear. Where there is none, or none can be had, it is told why.
fn serve_next<P, H: Serves<P>, E: Ear, C: Clock, R: Wait>(
    rt: &R,
    alloc: Global,
    hall: &H,
    worker: &mut Worker<P, E>,
    clock: &C,
) -> Option<Ending>
    requires ready { H.ready hall.now worker.old.pass }
    ensures ready { H.ready hall.now worker.new.pass }
    ensures next { GoesOn (H.serves hall.now (C.shows clock.now)) (link_seen E.L.left E.L.taken E.L.given E.L.asked E.L.faults)
        (worker_seen E.tells E.back E.faults worker.old) result (worker_seen E.tells E.back E.faults worker.new) }
{
    if !has_room(&mut worker.served) {
        return Some(Ending::NoMemory);
    }
    let next = match worker.ear.accept() {
        Ok(next) => next,
        Err(_) => return Some(Ending::EarFault),
    };
    match next {
        Some(link) => {
            serve_one(rt, alloc, hall, worker, link, clock);
            None
        }
        None => Some(Ending::Ended),
    }
}

/// Serves a link that a worker's ear gave, and gives it back. There is room to keep how it ends.
fn serve_one<P, H: Serves<P>, E: Ear, C: Clock, R: Wait>(
    rt: &R,
    alloc: Global,
    hall: &H,
    worker: &mut Worker<P, E>,
    mut link: E::L,
    clock: &C,
)
    requires ready { H.ready hall.now worker.old.pass }
    requires room { vec_len worker.old.served < vec_capacity worker.old.served }
    ensures ready { H.ready hall.now worker.new.pass }
    ensures given { ServesGiven (H.serves hall.now (C.shows clock.now)) (link_seen E.L.left E.L.taken E.L.given E.L.asked E.L.faults)
        (worker_seen E.tells E.back E.faults worker.old) link (worker_seen E.tells E.back E.faults worker.new) }
{
    let how = hall.serve(rt, alloc, &mut worker.pass, &mut link, clock);
    worker.ear.give_back(link, how);
    worker.served.push_reserved(how);
}

/// Whether there is room to keep how one link more ends.
fn has_room(served: &mut Vec<Served>) -> bool
    ensures room { OnTrue result (vec_len served.new < vec_capacity served.new) }
    ensures items { served.new.items ≡ served.old.items }
{
    match served.reserve(1) {
        Ok(()) => true,
        Err(_) => false,
    }
}
