//! The workers of a port: each with an ear and a pass of one hall, and what became of them.
ghost use Rattle.std.specs.Prelude.{◌≡◌, ◌≤◌, ◌+◌, [], All, IfOk, length, map, sum_by, vec_capacity, vec_len, ⊤};
ghost use Rattle.link_ears.specs.Ear.{EarRules, link_seen};
ghost use Rattle.sync_calls.specs.Hall.{AreReady, drawn_by, made_with, shares_of, shown_by};
ghost use Rattle.library_server.specs.Port.{AreJoinOf, AreSeated, HoldsWorkers, ReadNoMore, line_by, tallied, tally_of};

use crate::inetd_hall::close;
use depot::Depot;
use hall_workers::{Ending, Worker, serve_all};
use ids::Items;
use library_state::Clock;
use link_ears::Ear;
use object_store::Shelf;
use server_words::{Fault, Line};
use std::alloc::{AllocError, Global};
use std::sync::Wait;
use std::thread::Threads;
use sync_calls::{Hall, HallPass};

/// A worker of a hall.
type HallWorker<S, E> = Worker<HallPass<S>, E>;

/// Room for the workers of a port, and for its ears as they come back.
struct Room<S: Shelf, E> {
    workers: Vec<HallWorker<S, E>>,
    ears: Vec<E>,
}

/// How workers ended: whether an ear failed, whether one stopped for want of memory, and how many connections were served.
#[derive(Clone, Copy, Debug)]
pub(crate) struct Tally {
    pub failed: bool,
    pub wanting: bool,
    pub served: u64,
}

/// Lets workers serve libraries that were started, one at each ear, until all have stopped. The libraries and the ears come out again,
/// with the line.
#[tactic(auto, using(crate::proofs::PortLemmas::none_held))]
pub(crate) fn serve_depots<
    S: Shelf + Send,
    E: Ear + Send,
    C: Clock + Sync,
    R: Threads + Wait + Sync,
>(
    rt: &R,
    alloc: Global,
    depots: Vec<Depot<S>>,
    ears: Items<E>,
    clock: &C,
) -> (Line, Items<E>, Vec<Depot<S>>)
    requires bound { (1 ≤ length ears) × (length ears ≤ 64) }
    ensures { HoldsWorkers S.contents S.may_give S.texts S.faults
        (record { hears = λ ear port. ⊤; tells = E.tells; back = E.back; faults = E.faults; seen = link_seen E.L.left E.L.taken E.L.given E.L.asked E.L.faults })
        (C.shows clock.now) depots.items result.2.items ears result.1 result.0 }
{
    match room_for(alloc, ears.len()) {
        Ok(room) => serve_in(rt, alloc, room, depots, ears, clock),
        Err(_) => (Line::Fault(Fault::NoMemory), ears, depots),
    }
}

/// The same in this room.
fn serve_in<S: Shelf + Send, E: Ear + Send, C: Clock + Sync, R: Threads + Wait + Sync>(
    rt: &R,
    alloc: Global,
    room: Room<S, E>,
    depots: Vec<Depot<S>>,
    ears: Items<E>,
    clock: &C,
) -> (Line, Items<E>, Vec<Depot<S>>)
    requires bound { (1 ≤ length ears) × (length ears ≤ 64) }
    requires empty { (room.workers.items ≡ []) × (room.ears.items ≡ []) }
    requires capacity { (length ears ≤ vec_capacity room.workers) × (length ears ≤ vec_capacity room.ears) }
    ensures { HoldsWorkers S.contents S.may_give S.texts S.faults
        (record { hears = λ ear port. ⊤; tells = E.tells; back = E.back; faults = E.faults; seen = link_seen E.L.left E.L.taken E.L.given E.L.asked E.L.faults })
        (C.shows clock.now) depots.items result.2.items ears result.1 result.0 }
{
    let Room {
        workers: seats,
        ears: back,
    } = room;
    let passes = ears.len() as u32 + 1;
    let (hall, mut passes) = match Hall::new(alloc, depots, passes) {
        Ok(made) => made,
        Err((depots, _)) => {
            seats.destroy_empty();
            back.destroy_empty();
            return (Line::Fault(Fault::NoMemory), ears, depots);
        }
    };
    let mut last = match passes.pop() {
        Some(pass) => pass,
        None => unreachable!(),
    };
    let mut workers = seat(alloc, seats, passes, ears.into_vec());
    serve_all(rt, alloc, &hall, &mut workers, clock);
    let (tally, ears) = unseat(&hall, &mut last, workers, back);
    (line_of(tally), Items::from_vec(ears), close(hall, last))
}

/// Room for so many.
fn room_for<S: Shelf, E>(alloc: Global, count: usize) -> Result<Room<S, E>, AllocError>
    ensures empty { IfOk result (λ room. (room.workers.items ≡ []) × (room.ears.items ≡ [])) }
    ensures capacity { IfOk result (λ room. (count ≤ vec_capacity room.workers) × (count ≤ vec_capacity room.ears)) }
{
    let workers = Vec::with_capacity(alloc, count)?;
    match Vec::with_capacity(alloc, count) {
        Ok(ears) => Ok(Room { workers, ears }),
        Err(failed) => {
            workers.destroy_empty();
            Err(failed)
        }
    }
}

/// A worker for each ear, with the pass in its place.
fn seat<P, E>(
    alloc: Global,
    mut workers: Vec<Worker<P, E>>,
    mut passes: Vec<P>,
    mut ears: Vec<E>,
) -> Vec<Worker<P, E>>
    requires size { vec_len passes ≡ vec_len ears }
    requires room { (workers.items ≡ []) × (vec_len ears ≤ vec_capacity workers) }
    ensures seated { AreSeated passes.items ears.items result.items }
{
    passes.reverse();
    ears.reverse();
    while let Some(ear) = ears.pop() {
        match passes.pop() {
            Some(pass) => workers.push_reserved(Worker {
                pass,
                ear,
                served: Vec::new(alloc),
                ending: Ending::Idle,
            }),
            None => unreachable!(),
        }
    }
    ears.destroy_empty();
    passes.destroy_empty();
    workers
}

/// Joins the passes of all workers into one, in the order of the workers, and tells how they ended. Their ears come out.
fn unseat<S: Shelf, E>(
    hall: &Hall<S>,
    last: &mut HallPass<S>,
    mut workers: Vec<HallWorker<S, E>>,
    mut ears: Vec<E>,
) -> (Tally, Vec<E>)
    requires ready { AreReady S.contents S.may_give S.texts S.faults hall.now last.old × All (λ w. AreReady S.contents S.may_give S.texts S.faults hall.now w.pass) workers.items }
    requires room { (ears.items ≡ []) × (vec_len workers ≤ vec_capacity ears) }
    ensures ready { AreReady S.contents S.may_give S.texts S.faults hall.now last.new }
    ensures joined { AreJoinOf (shown_by last.old) (map (λ w. shown_by w.pass) workers.items) (shown_by last.new) }
    ensures drawn { All (λ w. ReadNoMore (drawn_by w.pass) (drawn_by last.new)) workers.items }
    ensures size { (shares_of last.new ≡ shares_of last.old + sum_by (λ w. shares_of w.pass) workers.items) × (made_with last.new ≡ made_with last.old) }
    ensures tally { result.0 ≡ tally_of workers.items }
    ensures ears { result.1.items ≡ map (λ w. w.ear) workers.items }
{
    let mut tally = Tally {
        failed: false,
        wanting: false,
        served: 0,
    };
    workers.reverse();
    while let Some(worker) = workers.pop() {
        let Worker {
            pass,
            ear,
            served,
            ending,
        } = worker;
        hall.join(last, pass);
        tally = tallied(tally, ending, served.len());
        ears.push_reserved(ear);
    }
    workers.destroy_empty();
    (tally, ears)
}

/// The tally with one worker more.
fn tallied(tally: Tally, ending: Ending, served: usize) -> Tally
    ensures value { result ≡ tallied tally ending served }
{
    Tally {
        failed: tally.failed || ending == Ending::EarFault,
        wanting: tally.wanting || ending == Ending::NoMemory,
        served: tally.served.saturating_add(served as u64),
    }
}

/// The line that tells how workers ended.
fn line_of(tally: Tally) -> Line
    ensures value { result ≡ line_by tally }
{
    if tally.failed {
        return Line::Fault(Fault::Link);
    }
    if tally.wanting {
        return Line::Fault(Fault::NoMemory);
    }
    Line::Served(tally.served)
}
