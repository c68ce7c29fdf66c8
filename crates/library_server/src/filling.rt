//! The command that fills a new library with generated files.
ghost use Rattle.std.specs.Prelude.{◌≡◌, ◌≤◌, ◌∷◌, [], ℕ, IfNone, IfSome, Some, false, length};
ghost use Rattle.depot.specs.DepotView.{IsGood};
ghost use Rattle.folder_storage.specs.Ground.{GivesBack, Standing, TakesBack, count_sum};
ghost use Rattle.library_rules.specs.LibraryState.{head_of};
ghost use Rattle.server_words.specs.Spelling.{location_text};
ghost use Rattle.library_server.specs.Answering.{NeverFails};
ghost use Rattle.library_server.specs.Filling.{ComesOf, Fills, IsLeft, IsOwned, IsOwnedBy, MakesFiles, fault_of_not_filled, fault_of_refusal, filled_line, stored_by, told_of};
ghost use Rattle.library_server.specs.Standing.{GroundView, OthersGiveNoMore};
ghost use Rattle.library_server.specs.Whole.{IsWhole};
ghost use Rattle.library_server.specs.WholeRuns.{is_storage_line};

use crate::inetd_hall::close;
use crate::port::fault_of_unserved;
use crate::starting::{folder_word, start_counted};
use depot::Depot;
use folder_storage::Ground;
use generated_library::{Filled, NotFilled, Plan, fill};
use ids::LibId;
use library_state::{Clock, LAST, Refusal, Right, Secret};
use object_store::Shelf;
use server_words::{Fault, Line, Location};
use std::alloc::Global;
use std::sync::Wait;
use sync_calls::Hall;

/// What a library is filled with.
#[derive(Clone, Copy, Debug)]
pub(crate) struct Files {
    pub count: u32,
    pub number: u64,
}

/// Opens a library, fills it where it has one object and its first token is an owner's, and gives the line. What was handed out is back.
pub(crate) fn make_files<G: Ground, C: Clock, R: Wait>(
    rt: &R,
    alloc: Global,
    libraries: &mut G,
    location: &Location,
    lib: LibId,
    files: Files,
    clock: &C,
) -> Line
    requires few { files.count ≤ 10000 }
    ensures makes { MakesFiles G.S.contents G.S.may_give G.S.texts G.S.faults (G.may_give libraries.old) location.now lib files.count files.number (C.shows clock.now)
        (record { stands = G.stands libraries.old; faults = G.faults libraries.old })
        (record { stands = G.stands libraries.new; faults = G.faults libraries.new }) result }
    ensures steady { NeverFails G.S.faults → (standing : Standing) → G.stands libraries.old (location_text location.now) lib ≡ Some standing → IsWhole standing
        → is_storage_line result ≡ false }
    ensures others { OthersGiveNoMore (G.may_give libraries.old) (G.may_give libraries.new) (location_text location.now) lib }
{
    let (depot, count) = match start_counted(alloc, libraries, location, lib, clock) {
        Ok(opened) => opened,
        Err(why) => return Line::Fault(fault_of_unserved(why)),
    };
    let (filled, depot) = fill_opened(rt, alloc, depot, count, files, clock);
    let left = give_counted(libraries, folder_word(location), lib, depot);
    line_of(filled, left)
}

/// Gives back the shelf of a library, and tells how many objects it has.
fn give_counted<G: Ground>(libraries: &mut G, folder: &str, lib: LibId, depot: Depot<G::S>) -> u64
    ensures ok { TakesBack (G.stands libraries.old) (G.stands libraries.new) folder.now lib (G.S.contents depot.store.shelf) }
    ensures gives { GivesBack (G.may_give libraries.old) (G.may_give libraries.new) folder.now lib (G.S.may_give depot.store.shelf) }
    ensures good { IsGood G.S.contents G.S.faults depot }
    ensures faults { G.faults libraries.new ≡ count_sum (G.faults libraries.old) (G.S.faults depot.store.shelf) }
    ensures left { IsLeft G.S.contents G.S.faults depot result }
{
    let store = depot.close();
    let left = store.count();
    libraries.give_back(folder, lib, store.end());
    left
}

/// The line of what a library was filled with, of which so many objects are left.
fn line_of(filled: Result<Filled, Fault>, left: u64) -> Line
    ensures value { result ≡ filled_line filled (stored_by filled left) }
{
    match filled {
        Ok(filled) => Line::Made {
            paths: filled.paths,
            bytes: filled.bytes,
            stored: left.saturating_add(filled.removed),
            removed: filled.removed,
        },
        Err(why) => Line::Fault(why),
    }
}

/// Fills a library that was opened and has so many objects, where it is new. It comes out again.
fn fill_opened<S: Shelf, C: Clock, R: Wait>(
    rt: &R,
    alloc: Global,
    depot: Depot<S>,
    count: u64,
    files: Files,
    clock: &C,
) -> (Result<Filled, Fault>, Depot<S>)
    requires few { files.count ≤ 10000 }
    requires good { IsGood S.contents S.faults depot }
    ensures { (left : ℕ) → IsLeft S.contents S.faults result.1 left
        → ComesOf S.contents S.may_give S.texts S.faults (C.shows clock.now) files.count files.number depot count result.1 (stored_by result.0 left) result.0 }
{
    let secret = match owner_of(&depot) {
        Some(secret) => secret,
        None => return (Err(Fault::LibraryExists), depot),
    };
    if count == 1 {
        let plan = Plan {
            lib: depot.lib(),
            secret,
            head: depot.head(),
            count: files.count,
            number: files.number,
        };
        return fill_new(rt, alloc, depot, &plan, clock);
    }
    (Err(Fault::LibraryExists), depot)
}

/// The secret of the first token, where it is an owner's.
fn owner_of<S: Shelf>(depot: &Depot<S>) -> Option<Secret>
    ensures some { IfSome result (IsOwnedBy depot.now.state.tokens) }
    ensures none { IfNone result (IsOwned depot.now.state.tokens → ⊥) }
{
    match depot.token_at(0) {
        Some((secret, Right::Owner)) => Some(secret),
        _ => None,
    }
}

/// Fills a library as it is planned, by the secret of its first token, through a hall of its own. It comes out again.
fn fill_new<S: Shelf, C: Clock, R: Wait>(
    rt: &R,
    alloc: Global,
    depot: Depot<S>,
    plan: &Plan,
    clock: &C,
) -> (Result<Filled, Fault>, Depot<S>)
    requires few { plan.now.count ≤ 10000 }
    requires named { plan.now.lib ≡ depot.state.lib }
    requires who { IsOwnedBy depot.state.tokens plan.now.secret }
    requires stands { plan.now.head ≡ head_of depot.state.kept }
    requires good { IsGood S.contents S.faults depot }
    ensures { (left : ℕ) → IsLeft S.contents S.faults result.1 left
        → Fills S.contents S.may_give S.texts S.faults (C.shows clock.now) plan.now.count plan.now.number plan.now.secret depot result.1 (stored_by result.0 left) result.0 }
{
    let mut depots = match Vec::with_capacity(alloc, 1) {
        Ok(depots) => depots,
        Err(_) => return (Err(Fault::NoMemory), depot),
    };
    depots.push_reserved(depot);
    let (hall, mut passes) = match Hall::new(alloc, depots, 1) {
        Ok(made) => made,
        Err((depots, _)) => return (Err(Fault::NoMemory), only(depots)),
    };
    let mut pass = match passes.pop() {
        Some(pass) => pass,
        None => unreachable!(),
    };
    passes.destroy_empty();
    let filled = fill(rt, alloc, &hall, &mut pass, plan, clock);
    let depot = only(close(hall, pass));
    (told_of(filled, depot.collection()), depot)
}

/// What came of a filling, with the fault that is printed, where so many collections were begun of the library that comes out.
fn told_of(filled: Result<Filled, NotFilled>, collection: u64) -> Result<Filled, Fault>
    ensures value { result ≡ told_of collection filled }
{
    match filled {
        Ok(filled) => Ok(filled),
        Err(why) => Err(fault_of_not_filled(why, collection)),
    }
}

/// The one library of these.
fn only<S: Shelf>(mut depots: Vec<Depot<S>>) -> Depot<S>
    requires one { length depots.items ≡ 1 }
    ensures { depots.items ≡ result ∷ [] }
{
    let depot = match depots.pop() {
        Some(depot) => depot,
        None => unreachable!(),
    };
    depots.destroy_empty();
    depot
}

/// As it is printed.
fn fault_of_not_filled(why: NotFilled, collection: u64) -> Fault
    ensures value { result ≡ fault_of_not_filled collection why }
{
    match why {
        NotFilled::Refused(why) => fault_of_refusal(why, collection),
        NotFilled::Taken(id) => Fault::Taken(id),
        NotFilled::NoMemory => Fault::NoMemory,
    }
}

/// A refusal as it is printed. One that no filling meets is told as want of memory, which may always come.
///
/// As spent a filling is refused where its collection would follow the last one, and where all turns of the lock are taken:
/// those are 2^61, which at most 10,000 files don't come to. So `worn` is told only where no collection can begin any more,
/// and else want of memory.
fn fault_of_refusal(why: Refusal, collection: u64) -> Fault
    ensures value { result ≡ fault_of_refusal collection why }
{
    match why {
        Refusal::Incomplete(key) => Fault::Incomplete(key),
        Refusal::Unreadable(key) => Fault::Unreadable(key),
        Refusal::WrongKind(id) => Fault::WrongKind(id),
        Refusal::WrongSize(id) => Fault::WrongSize(id),
        Refusal::TooDeep(_) => Fault::TooDeep,
        Refusal::TooMany(_) => Fault::TooMany,
        Refusal::Damaged { want, got } => {
            let _ = got;
            Fault::Damaged(want)
        }
        Refusal::Taken(id) => Fault::Taken(id),
        Refusal::Store => Fault::Store,
        Refusal::Spent => if collection == LAST {
            Fault::Worn
        } else {
            Fault::NoMemory
        },
        _ => Fault::NoMemory,
    }
}
