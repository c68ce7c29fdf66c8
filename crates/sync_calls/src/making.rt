//! A hall that is made of libraries, with its passes.
ghost use Rattle.std.specs.Prelude.{◌≡◌, ◌+◌, ◌≤◌, ◌<◌, [], ℕ, All, IfErr, IfOk, OnErr, OnOk, List, Some, length, slice_index_or, vec_capacity, vec_len};
ghost use Rattle.turnstile.specs.PassView.{IsNewPass, IsPassOf, StandsFor, parts_of, passes_of};
ghost use Rattle.depot.specs.Story.{ComesBy};
ghost use Rattle.sync_calls.specs.Door.{IsDoorOf};
ghost use Rattle.depot.specs.DepotView.{DepotView};
ghost use Rattle.sync_calls.specs.Hall.{ExitLock, ExitOf, HallOf, PassOf};
ghost use Rattle.sync_calls.specs.Making.{AreBehind, AreEndedTo, AreNew, AreSame, IsDealt, IsFilling, IsFresh, IsSeated};

use crate::door::door_of;
use crate::hall::{Exit, Hall, HallPass, Passes, Room, Rooms};
use depot::Depot;
use object_store::Shelf;
use std::alloc::{AllocError, Global};
use std::snapshot::Snapshot;
use std::sync::Mutex;
use turnstile::{Pass, Turnstile};

/// A library in its room, with all passes to it.
pub(crate) struct Fresh<R, P> {
    pub room: R,
    pub passes: Vec<P>,
}

type FreshRoom<S> = Fresh<Room<Turnstile<Depot<S>>, Depot<S>>, Pass<Depot<S>>>;

impl<S: Shelf> Hall<S> {
    /// A hall of these libraries, in their order, with so many passes, each of which has seen and made nothing.
    ///
    /// Where two have one id, the first is asked. All memory that `close` needs is taken here. Where memory is wanting the libraries
    /// come back, each the same as it was.
    pub fn new(
        alloc: Global,
        mut depots: Vec<Depot<S>>,
        passes: u32,
    ) -> Result<(Hall<S>, Vec<HallPass<S>>), (Vec<Depot<S>>, AllocError)>
        requires from_one { 1 ≤ passes }
        ensures bound { IfOk result (λ made. vec_len made.1 ≡ passes) }
        ensures ok { IfOk result (λ made. AreNew S.contents S.may_give S.texts S.faults passes depots.items made.0 made.1.items) }
        ensures err { IfErr result (λ e. AreSame S.contents S.may_give S.texts S.faults depots.items e.0.items) }
    {
        let rooms = match start_all(alloc, &mut depots, passes) {
            Ok(rooms) => rooms,
            Err(e) => return Err((depots, e)),
        };
        match hall_of(alloc, rooms, passes) {
            Ok(made) => {
                depots.destroy_empty();
                Ok(made)
            }
            Err((rooms, e)) => {
                end_all(&mut depots, rooms);
                Err((depots, e))
            }
        }
    }
}

/// Each library in its room, the last one first. Where memory is wanting they come back.
fn start_all<S: Shelf>(
    alloc: Global,
    depots: &mut Vec<Depot<S>>,
    passes: u32,
) -> Result<Vec<FreshRoom<S>>, AllocError>
    requires from_one { 1 ≤ passes }
    ensures ok { IfOk result (λ rooms. AreBehind (IsFresh passes) depots.old.items depots.new.items rooms.items × (vec_len depots.new ≡ 0)) }
    ensures capacity { OnOk result (vec_capacity depots.new ≡ vec_capacity depots.old) }
    ensures err { OnErr result (AreSame S.contents S.may_give S.texts S.faults depots.old.items depots.new.items) }
{
    let mut rooms = Vec::with_capacity(alloc, depots.len())?;
    while let Some(depot) = depots.pop() {
        match start_one(alloc, depot, passes) {
            Ok(fresh) => rooms.push_reserved(fresh),
            Err((depot, e)) => {
                depots.push_reserved(depot);
                end_all(depots, rooms);
                return Err(e);
            }
        }
    }
    Ok(rooms)
}

/// A library in its room. Where memory is wanting it comes back.
fn start_one<S: Shelf>(
    alloc: Global,
    depot: Depot<S>,
    passes: u32,
) -> Result<FreshRoom<S>, (Depot<S>, AllocError)>
    requires from_one { 1 ≤ passes }
    ensures ok { IfOk result (IsFresh passes depot) }
    ensures err { IfErr result (λ e. e.0 ≡ depot) }
{
    let door = match door_of(alloc, &depot) {
        Ok(door) => door,
        Err(e) => return Err((depot, e)),
    };
    let start = Snapshot::of(&depot);
    match Turnstile::new(alloc, depot, passes, 0) {
        Ok((lock, passes)) => Ok(Fresh {
            room: Room {
                door,
                start,
                lock,
                gate: Mutex::new(()),
            },
            passes,
        }),
        Err(back) => Err(back),
    }
}

/// Takes the libraries out of rooms that nobody has entered, behind those that are there.
fn end_all<S: Shelf>(depots: &mut Vec<Depot<S>>, mut rooms: Vec<FreshRoom<S>>)
    requires stands { (passes : ℕ) × (all : List (DepotView S)) × (1 ≤ passes) × AreEndedTo S.contents S.may_give S.texts S.faults passes all depots.old.items rooms.items }
    requires capacity { vec_len depots.old + vec_len rooms ≤ vec_capacity depots.old }
    ensures { (passes : ℕ) (all : List (DepotView S)) → AreEndedTo S.contents S.may_give S.texts S.faults passes all depots.old.items rooms.items → AreSame S.contents S.may_give S.texts S.faults all depots.new.items }
{
    while let Some(fresh) = rooms.pop() {
        depots.push_reserved(end_one(fresh));
    }
    rooms.destroy_empty();
}

/// Takes the library out of a room that nobody has entered.
fn end_one<S: Shelf>(fresh: FreshRoom<S>) -> Depot<S>
    requires { (passes : ℕ) × (depot : DepotView S) × (1 ≤ passes) × IsFresh passes depot fresh }
    ensures { (passes : ℕ) (depot : DepotView S) → IsFresh passes depot fresh → ComesBy S.contents S.may_give S.texts S.faults depot [] result }
{
    let Fresh { room, mut passes } = fresh;
    let Room {
        door: _,
        start: _,
        lock,
        gate: _,
    } = room;
    let mut first = match passes.pop() {
        Some(first) => first,
        None => unreachable!(),
    };
    while let Some(other) = passes.pop() {
        lock.join(&mut first, other);
    }
    match lock.close(first) {
        Ok(depot) => depot,
        Err(_) => unreachable!(),
    }
}

/// The hall of libraries in their rooms, the last one first, with its passes.
fn hall_of<S: Shelf>(
    alloc: Global,
    rooms: Vec<FreshRoom<S>>,
    passes: u32,
) -> Result<(Hall<S>, Vec<HallPass<S>>), (Vec<FreshRoom<S>>, AllocError)>
    requires from_one { 1 ≤ passes }
    requires stands { (depots : List (DepotView S)) × AreBehind (IsFresh passes) depots [] rooms.items }
    ensures ok { (depots : List (DepotView S)) → AreBehind (IsFresh passes) depots [] rooms.items
        → IfOk result (λ made. AreNew S.contents S.may_give S.texts S.faults passes depots made.0 made.1.items) }
    ensures bound { IfOk result (λ made. vec_len made.1 ≡ passes) }
    ensures err { IfErr result (λ e. e.0 ≡ rooms) }
{
    let tables = match tables_of(alloc, rooms.len(), passes as usize) {
        Ok(tables) => tables,
        Err(e) => return Err((rooms, e)),
    };
    let seats = match Vec::with_capacity(alloc, passes as usize) {
        Ok(seats) => seats,
        Err(e) => return Err((rooms, e)),
    };
    let open = match Vec::with_capacity(alloc, rooms.len()) {
        Ok(open) => open,
        Err(e) => return Err((rooms, e)),
    };
    let depots = match Vec::with_capacity(alloc, rooms.len()) {
        Ok(depots) => depots,
        Err(e) => {
            open.destroy_empty();
            return Err((rooms, e));
        }
    };
    match Turnstile::new(alloc, Exit { depots }, passes, 0) {
        Ok((exit, shares)) => {
            let seated = seat_all(seats, tables, shares);
            Ok(open_all(Rooms { rooms: open, exit }, seated, rooms))
        }
        Err((way, e)) => {
            let Exit { depots } = way;
            depots.destroy_empty();
            open.destroy_empty();
            Err((rooms, e))
        }
    }
}

/// So many empty lists, each with memory for so many passes.
fn tables_of<P: Drop>(alloc: Global, rooms: usize, passes: usize) -> Result<Vec<Vec<P>>, AllocError>
    ensures size { IfOk result (λ tables. vec_len tables ≡ passes) }
    ensures ok { IfOk result (λ tables. All (λ table. (table.items ≡ []) × (rooms ≤ vec_capacity table)) tables.items) }
{
    let mut tables = Vec::with_capacity(alloc, passes)?;
    for _made in 0..passes {
        tables.push_reserved(Vec::with_capacity(alloc, rooms)?);
    }
    Ok(tables)
}

/// A pass of each list and each pass to the way out.
fn seat_all<S: Shelf>(
    mut seats: Vec<HallPass<S>>,
    mut tables: Vec<Vec<Pass<Depot<S>>>>,
    mut shares: Vec<Pass<Exit<Depot<S>>>>,
) -> Vec<HallPass<S>>
    requires size { (vec_len tables ≡ vec_len shares) × (vec_len seats ≡ 0) × (vec_len shares ≤ vec_capacity seats) }
    ensures size { vec_len result ≡ vec_len shares }
    ensures ok { (rooms passes : ℕ) (exit : ExitLock S) (way : ExitOf S) → All (λ table. (table.items ≡ []) × (rooms ≤ vec_capacity table)) tables.items
        → All (IsNewPass exit (Some way) passes 0) shares.items → All (IsSeated rooms passes exit way) result.items }
{
    while let Some(exit) = shares.pop() {
        match tables.pop() {
            Some(passes) => seats.push_reserved(Passes { passes, exit }),
            None => unreachable!(),
        }
    }
    seats
}

/// Opens each room in the hall, with one of its passes for each participant.
fn open_all<S: Shelf>(
    mut hall: Hall<S>,
    mut seated: Vec<HallPass<S>>,
    mut rooms: Vec<FreshRoom<S>>,
) -> (Hall<S>, Vec<HallPass<S>>)
    requires capacity { (vec_len hall.rooms ≡ 0) × (vec_len rooms ≤ vec_capacity hall.rooms) }
    requires stands { (passes : ℕ) × (way : ExitOf S) × (depots : List (DepotView S)) × (vec_len seated ≡ passes)
        × (vec_len way.depots ≡ 0) × (vec_len rooms ≤ vec_capacity way.depots) × All (IsSeated (vec_len rooms) passes hall.exit way) seated.items × AreBehind (IsFresh passes) depots [] rooms.items }
    ensures size { vec_len result.1 ≡ vec_len seated }
    ensures ok { (passes : ℕ) (way : ExitOf S) (depots : List (DepotView S)) → vec_len way.depots ≡ 0 → vec_len rooms ≤ vec_capacity way.depots
        → All (IsSeated (vec_len rooms) passes hall.exit way) seated.items → AreBehind (IsFresh passes) depots [] rooms.items
        → AreNew S.contents S.may_give S.texts S.faults passes depots result.0 result.1.items }
{
    while let Some(fresh) = rooms.pop() {
        let Fresh { room, passes } = fresh;
        hall.rooms.push_reserved(room);
        deal(&mut seated, passes);
    }
    rooms.destroy_empty();
    (hall, seated)
}

/// One more pass for each participant.
fn deal<S: Shelf>(seated: &mut Vec<HallPass<S>>, mut passes: Vec<Pass<Depot<S>>>)
    requires size { vec_len passes ≡ vec_len seated.old }
    requires capacity { All (λ pass. vec_len pass.passes < vec_capacity pass.passes) seated.old.items }
    ensures size { vec_len seated.new ≡ vec_len seated.old }
    ensures ok { (i : ℕ) (d e : PassOf S) → i < vec_len seated.old → IsDealt passes.items (slice_index_or seated.old.items i d) (slice_index_or seated.new.items i e) }
{
    for place in 0..seated.len() {
        match passes.pop() {
            Some(pass) => seated[place].passes.push_reserved(pass),
            None => unreachable!(),
        }
    }
}
