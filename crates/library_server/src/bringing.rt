//! Several libraries that a command names: started one after another, and given back.
ghost use Rattle.std.specs.Prelude.{◌≡◌, ◌≤◌, ◌<◌, ℕ, false, IfErr, IfOk, OnOk, length, slice_index_or, vec_capacity, vec_len};
ghost use Rattle.depot.specs.DepotView.{DepotView, IsGood};
ghost use Rattle.folder_storage.specs.Ground.{Standing};
ghost use Rattle.server_words.specs.CommandLine.{AreApart};
ghost use Rattle.server_words.specs.Spelling.{location_text};
ghost use Rattle.library_server.specs.Answering.{NeverFails};
ghost use Rattle.library_server.specs.Bringing.{AreBrought, AreOut, AreTaken, IsRaised, IsStoppedAt, IsStopping, UnnamedGiveNoMore};
ghost use Rattle.library_server.specs.Lines.{fault_of_not_brought, is_storage_fault};
ghost use Rattle.library_server.specs.Standing.{GroundView};
ghost use Rattle.library_server.specs.Whole.{AreWhole};

use crate::not_done::NotBrought;
use crate::starting::{bring_back, folder_word, start_library};
use depot::Depot;
use folder_storage::Ground;
use ids::LibId;
use library_state::Clock;
use object_store::ShelfFailed;
use server_words::Location;
use std::alloc::Global;

/// Starts each of these libraries, in their order. After a refusal, which is that of the first that isn't started, each that was
/// handed out is back.
pub(crate) fn bring_all<G: Ground, C: Clock>(
    alloc: Global,
    libraries: &mut G,
    location: &Location,
    libs: &[LibId],
    clock: &C,
) -> Result<Vec<Depot<G::S>>, NotBrought>
    requires apart { AreApart libs.now }
    requires some { 1 ≤ length libs.now }
    ensures brought { IfOk result (λ depots. AreBrought G.S.contents G.S.may_give G.S.faults (G.may_give libraries.old) location.now (C.shows clock.now) (G.stands libraries.old) libs.now (length libs.now) depots.items) }
    ensures out { OnOk result (AreOut (G.stands libraries.old) (G.stands libraries.new) (location_text location.now) libs.now (length libs.now)) }
    ensures count { OnOk result (G.faults libraries.new ≡ G.faults libraries.old) }
    ensures stopped { IfErr result (IsStoppedAt G.S.contents G.S.may_give G.S.faults (G.may_give libraries.old) location.now (C.shows clock.now) libs.now
        (record { stands = G.stands libraries.old; faults = G.faults libraries.old })
        (record { stands = G.stands libraries.new; faults = G.faults libraries.new })) }
    ensures steady { IfErr result (λ why. NeverFails G.S.faults → AreWhole (G.stands libraries.old) → is_storage_fault (fault_of_not_brought why) ≡ false) }
    ensures others { UnnamedGiveNoMore (G.may_give libraries.old) (G.may_give libraries.new) (location_text location.now) libs.now 0 (length libs.now) }
{
    let mut depots = match Vec::with_capacity(alloc, libs.len()) {
        Ok(depots) => depots,
        Err(_) => return Err(NotBrought::Storage(ShelfFailed::NoMemory)),
    };
    match bring_each(alloc, libraries, location, libs, clock, &mut depots) {
        Ok(()) => Ok(depots),
        Err(why) => {
            bring_all_back(libraries, folder_word(location), libs, depots);
            Err(why)
        }
    }
}

/// Starts each of these libraries in turn, up to the first that isn't started.
fn bring_each<G: Ground, C: Clock>(
    alloc: Global,
    libraries: &mut G,
    location: &Location,
    libs: &[LibId],
    clock: &C,
    depots: &mut Vec<Depot<G::S>>,
) -> Result<(), NotBrought>
    requires apart { AreApart libs.now }
    requires size { vec_len depots.old ≡ 0 }
    requires capacity { length libs.now ≤ vec_capacity depots.old }
    ensures brought { AreBrought G.S.contents G.S.may_give G.S.faults (G.may_give libraries.old) location.now (C.shows clock.now) (G.stands libraries.old) libs.now (vec_len depots.new) depots.new.items }
    ensures whole { OnOk result (vec_len depots.new ≡ length libs.now) }
    ensures out { OnOk result (AreOut (G.stands libraries.old) (G.stands libraries.new) (location_text location.now) libs.now (vec_len depots.new)) }
    ensures count { OnOk result (G.faults libraries.new ≡ G.faults libraries.old) }
    ensures stopped { IfErr result (IsStopping G.S.contents (G.may_give libraries.old) location.now (C.shows clock.now) libs.now (vec_len depots.new)
        (record { stands = G.stands libraries.old; faults = G.faults libraries.old })
        (record { stands = G.stands libraries.new; faults = G.faults libraries.new })) }
    ensures steady { IfErr result (λ why. NeverFails G.S.faults → AreWhole (G.stands libraries.old) → is_storage_fault (fault_of_not_brought why) ≡ false) }
    ensures others { UnnamedGiveNoMore (G.may_give libraries.old) (G.may_give libraries.new) (location_text location.now) libs.now 0 (length libs.now) }
{
    for lib in libs {
        match start_library(alloc, libraries, location, *lib, clock) {
            Ok(depot) => depots.push_reserved(depot),
            Err(why) => return Err(why),
        }
    }
    Ok(())
}

/// Gives back the shelf of each of these libraries, which are the first of those named, from the last on. Where it tells what it
/// holds, each stands for a library.
pub(crate) fn bring_all_back<G: Ground>(
    libraries: &mut G,
    folder: &str,
    libs: &[LibId],
    mut depots: Vec<Depot<G::S>>,
)
    requires apart { AreApart libs.now }
    requires few { vec_len depots ≤ length libs.now }
    ensures ok { AreTaken G.S.contents (G.stands libraries.old) (G.stands libraries.new) folder.now libs.now depots.items 0 (vec_len depots) }
    ensures others { UnnamedGiveNoMore (G.may_give libraries.old) (G.may_give libraries.new) folder.now libs.now 0 (vec_len depots) }
    ensures good { (i : ℕ) (d : DepotView G.S) → i < vec_len depots → IsGood G.S.contents G.S.faults (slice_index_or depots.items i d) }
    ensures faults { IsRaised (G.faults libraries.old) (G.faults libraries.new) }
{
    while let Some(depot) = depots.pop() {
        let place = depots.len();
        bring_back(libraries, folder, libs[place], depot);
    }
    depots.destroy_empty();
}
