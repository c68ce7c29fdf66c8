//! The command that serves one connection.
ghost use Rattle.std.specs.Prelude.{◌≡◌, Some};
ghost use Rattle.folder_storage.specs.Ground.{Standing};
ghost use Rattle.http_front.specs.Link.{told_by};
ghost use Rattle.server_words.specs.Spelling.{location_text};
ghost use Rattle.library_server.specs.Answering.{NeverFails};
ghost use Rattle.link_ears.specs.Ear.{LinkView};
ghost use Rattle.library_server.specs.Connections.{ServesOpened, ServesLocation, status_of};
ghost use Rattle.library_server.specs.Standing.{GroundView, OthersGiveNoMore};
ghost use Rattle.library_server.specs.Whole.{IsWhole};
ghost use Rattle.library_server.specs.WholeRuns.{ServesWhole};

use crate::counting::{Counted, OpenedLibrary};
use crate::serving::serve_link;
use crate::starting::{bring_back, folder_word, start_library};
use folder_storage::Ground;
use http_front::Link;
use ids::LibId;
use library_state::Clock;
use object_store::Shelf;
use server_words::{Line, Location};
use std::alloc::Global;
use worker_server::Served;

/// Starts a library, serves one connection with it, and gives the status. It prints nothing. What was handed out is back.
pub(crate) fn inetd<G: Ground, L: Link, C: Clock>(
    alloc: Global,
    libraries: &mut G,
    location: &Location,
    lib: LibId,
    link: &mut L,
    clock: &C,
) -> u8
    ensures serves { (service : ServesLocation G.S.contents G.S.may_give G.S.texts G.S.faults (G.may_give libraries.old) location.now lib (C.shows clock.now)
        (record { stands = G.stands libraries.old; faults = G.faults libraries.old })
        (record { stands = G.stands libraries.new; faults = G.faults libraries.new })
        (record { left = L.left link.old; tells = told_by L.taken L.given L.asked link.old; faults = L.faults link.old })
        (record { left = L.left link.new; tells = told_by L.taken L.given L.asked link.new; faults = L.faults link.new }) result)
        × (NeverFails G.S.faults → (standing : Standing) → G.stands libraries.old (location_text location.now) lib ≡ Some standing → IsWhole standing
        → ServesWhole service) }
    ensures others { OthersGiveNoMore (G.may_give libraries.old) (G.may_give libraries.new) (location_text location.now) lib }
{
    let depot = match start_library(alloc, libraries, location, lib, clock) {
        Ok(depot) => depot,
        Err(fault) => return Line::Fault(fault.fault()).status(),
    };
    let mut library = Counted { depot, changes: 0 };
    let status = serve_opened(alloc, &mut library, link, clock);
    let Counted { depot, changes: _ } = library;
    bring_back(libraries, folder_word(location), lib, depot);
    status
}

/// Serves one connection with a library that was started.
fn serve_opened<S: Shelf, L: Link, C: Clock>(
    alloc: Global,
    library: &mut OpenedLibrary<S>,
    link: &mut L,
    clock: &C,
) -> u8
    ensures serves { ServesOpened S.contents S.may_give S.texts S.faults (C.shows clock.now) library.old library.new
        (record { left = L.left link.old; tells = told_by L.taken L.given L.asked link.old; faults = L.faults link.old })
        (record { left = L.left link.new; tells = told_by L.taken L.given L.asked link.new; faults = L.faults link.new }) result }
{
    status_of(serve_link(alloc, library, link, clock))
}

/// The status of a connection's end.
pub(crate) fn status_of(how: Served) -> u8
    ensures value { result ≡ status_of how }
{
    match how {
        Served::Ended | Served::Limit => 0,
        Served::Cut(_) | Served::Refused(_) | Served::ReadFault | Served::WriteFault => 1,
        Served::NoMemory => 3,
    }
}
