//! The end of a hall: its libraries come out.
ghost use Rattle.std.specs.Prelude.{◌≡◌, ◌↔◌, ◌<◌, ◌≤◌, ℕ, IfErr, IfOk, IsOk, List, Some, length, slice_index_or, vec_capacity, vec_len};
ghost use Rattle.turnstile.specs.PassView.{IsPassOf, parts_of, passes_of, start_of};
ghost use Rattle.sync_calls.specs.Closing.{AreClosed, IsClosed};
ghost use Rattle.sync_calls.specs.Hall.{AreReady, IsReadyAt, LibraryRoom, made_with, passes_in, shares_of, shown_by};
ghost use Rattle.sync_calls.specs.Shown.{LibraryPass};

use crate::hall::{Hall, HallPass, Passes, Room, Rooms};
use depot::Depot;
use object_store::Shelf;
use turnstile::{Pass, Turnstile};

impl<S: Shelf> Hall<S> {
    /// Takes the libraries out for good, in the order in which they came. It takes no memory.
    ///
    /// Only the pass that stands for all passes closes. Any other gets the hall back, and itself, which shows what it showed, with
    /// the number of passes made.
    pub fn close(self, pass: HallPass<S>) -> Result<Vec<Depot<S>>, (Hall<S>, HallPass<S>, u64)>
        requires ready { AreReady S.contents S.may_give S.texts S.faults self pass }
        ensures ok { IfOk result (λ depots. AreClosed S.contents S.may_give S.texts S.faults (passes_in pass) depots.items) }
        ensures told { IsOk result ↔ (shares_of pass ≡ made_with pass) }
        ensures err { IfErr result (λ e. (e.0 ≡ self) × AreReady S.contents S.may_give S.texts S.faults e.0 e.1 × (shown_by e.1 ≡ shown_by pass)) }
        ensures refused { IfErr result (λ e. (e.2 ≡ made_with pass) × (shares_of pass < e.2) × (shares_of e.1 ≡ shares_of pass)) }
    {
        let Rooms { rooms, exit } = self;
        let Passes {
            passes,
            exit: share,
        } = pass;
        match exit.close(share) {
            Ok(way) => Ok(close_all(rooms, passes, way.depots)),
            Err((exit, share, made)) => Err((
                Rooms { rooms, exit },
                Passes {
                    passes,
                    exit: share,
                },
                made,
            )),
        }
    }
}

/// Takes the library out of each room.
fn close_all<S: Shelf>(
    mut rooms: Vec<Room<Turnstile<Depot<S>>, Depot<S>>>,
    mut passes: Vec<Pass<Depot<S>>>,
    mut depots: Vec<Depot<S>>,
) -> Vec<Depot<S>>
    requires size { vec_len passes ≡ vec_len rooms }
    requires capacity { (vec_len depots ≡ 0) × (vec_len rooms ≤ vec_capacity depots) }
    requires ready { (made : ℕ) × ((i : ℕ) (room : LibraryRoom S) (to : LibraryPass S) → i < vec_len rooms
        → IsReadyAt S.contents S.may_give S.texts S.faults made made (slice_index_or rooms.items i room) (slice_index_or passes.items i to)) }
    ensures { AreClosed S.contents S.may_give S.texts S.faults passes.items result.items }
{
    while let Some(room) = rooms.pop() {
        match passes.pop() {
            Some(pass) => depots.push_reserved(close_at(room, pass)),
            None => unreachable!(),
        }
    }
    rooms.destroy_empty();
    depots.reverse();
    depots
}

/// Takes the library out of a room, by the pass that stands for all.
fn close_at<S: Shelf>(room: Room<Turnstile<Depot<S>>, Depot<S>>, pass: Pass<Depot<S>>) -> Depot<S>
    requires ready { IsReadyAt S.contents S.may_give S.texts S.faults (parts_of pass) (passes_of pass) room pass }
    requires all { parts_of pass ≡ passes_of pass }
    ensures { IsClosed S.contents S.may_give S.texts S.faults pass result }
{
    match room.lock.close(pass) {
        Ok(depot) => depot,
        Err(_) => unreachable!(),
    }
}
