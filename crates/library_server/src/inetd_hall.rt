//! The command that serves one connection with several libraries.
ghost use Rattle.std.specs.Prelude.{◌≡◌, ◌≤◌, length};
ghost use Rattle.http_front.specs.Link.{told_by};
ghost use Rattle.server_words.specs.CommandLine.{AreApart};
ghost use Rattle.server_words.specs.Spelling.{location_text};
ghost use Rattle.sync_calls.specs.Closing.{AreClosed};
ghost use Rattle.sync_calls.specs.Hall.{AreReady, made_with, passes_in, shares_of};
ghost use Rattle.sync_calls.specs.Making.{AreSame};
ghost use Rattle.library_server.specs.Answering.{NeverFails};
ghost use Rattle.library_server.specs.Bringing.{UnnamedGiveNoMore};
ghost use Rattle.link_ears.specs.Ear.{LinkView};
ghost use Rattle.library_server.specs.HallConnections.{HoldsHall, ServesHall, ServesLibraries};
ghost use Rattle.library_server.specs.Standing.{GroundView};
ghost use Rattle.library_server.specs.Whole.{AreWhole};
ghost use Rattle.library_server.specs.WholeRuns.{LibrariesWhole};

use crate::bringing::{bring_all, bring_all_back};
use crate::inetd::status_of;
use crate::starting::folder_word;
use depot::Depot;
use folder_storage::Ground;
use hall_server::serve_link;
use http_front::Link;
use ids::LibId;
use library_state::Clock;
use object_store::Shelf;
use server_words::{Line, Location};
use std::alloc::Global;
use std::sync::Wait;
use sync_calls::{Hall, HallPass};

/// Starts the libraries, serves one connection with them, and gives the status. It prints nothing. What was handed out is back.
pub(crate) fn inetd_hall<G: Ground, L: Link, C: Clock, R: Wait>(
    rt: &R,
    alloc: Global,
    libraries: &mut G,
    location: &Location,
    libs: &[LibId],
    link: &mut L,
    clock: &C,
) -> u8
    requires apart { AreApart libs.now }
    requires some { 1 ≤ length libs.now }
    ensures serves { (service : ServesLibraries G.S.contents G.S.may_give G.S.texts G.S.faults (G.may_give libraries.old) location.now libs.now (C.shows clock.now)
        (record { stands = G.stands libraries.old; faults = G.faults libraries.old })
        (record { stands = G.stands libraries.new; faults = G.faults libraries.new })
        (record { left = L.left link.old; tells = told_by L.taken L.given L.asked link.old; faults = L.faults link.old })
        (record { left = L.left link.new; tells = told_by L.taken L.given L.asked link.new; faults = L.faults link.new }) result)
        × (NeverFails G.S.faults → AreWhole (G.stands libraries.old) → LibrariesWhole service) }
    ensures others { UnnamedGiveNoMore (G.may_give libraries.old) (G.may_give libraries.new) (location_text location.now) libs.now 0 (length libs.now) }
{
    let depots = match bring_all(alloc, libraries, location, libs, clock) {
        Ok(depots) => depots,
        Err(fault) => return Line::Fault(fault.fault()).status(),
    };
    let (status, depots) = serve_opened(rt, alloc, depots, link, clock);
    bring_all_back(libraries, folder_word(location), libs, depots);
    status
}

/// Serves one connection with libraries that were started, which come out again. Where there is no memory for the hall the status is 3.
fn serve_opened<S: Shelf, L: Link, C: Clock, R: Wait>(
    rt: &R,
    alloc: Global,
    depots: Vec<Depot<S>>,
    link: &mut L,
    clock: &C,
) -> (u8, Vec<Depot<S>>)
    ensures { HoldsHall S.contents S.may_give S.texts S.faults (C.shows clock.now) depots.items result.1.items
        (record { left = L.left link.old; tells = told_by L.taken L.given L.asked link.old; faults = L.faults link.old })
        (record { left = L.left link.new; tells = told_by L.taken L.given L.asked link.new; faults = L.faults link.new }) result.0 }
{
    let (hall, mut passes) = match Hall::new(alloc, depots, 1) {
        Ok(made) => made,
        Err((depots, _)) => return (3, depots),
    };
    let mut pass = match passes.pop() {
        Some(pass) => pass,
        None => unreachable!(),
    };
    passes.destroy_empty();
    let how = serve_link(rt, alloc, &hall, &mut pass, link, clock);
    (status_of(how), close(hall, pass))
}

/// The libraries of a hall whose pass stands for all.
pub(crate) fn close<S: Shelf>(hall: Hall<S>, pass: HallPass<S>) -> Vec<Depot<S>>
    requires ready { AreReady S.contents S.may_give S.texts S.faults hall pass }
    requires all { shares_of pass ≡ made_with pass }
    ensures { AreClosed S.contents S.may_give S.texts S.faults (passes_in pass) result.items }
{
    match hall.close(pass) {
        Ok(depots) => depots,
        Err(_) => unreachable!(),
    }
}
