//! The command that serves a port: workers beside each other, all with the same libraries.
ghost use Rattle.std.specs.Prelude.{◌≡◌, ◌≤◌, false, length, ⊤};
ghost use Rattle.link_ears.specs.Ear.{EarRules, NetView, link_seen};
ghost use Rattle.server_words.specs.CommandLine.{AreApart};
ghost use Rattle.server_words.specs.Spelling.{location_text};
ghost use Rattle.library_server.specs.Answering.{NeverFails};
ghost use Rattle.library_server.specs.Bringing.{UnnamedGiveNoMore};
ghost use Rattle.library_server.specs.Port.{ServesEars, ServesPort, fault_of_net, fault_of_unserved};
ghost use Rattle.library_server.specs.Standing.{GroundView};
ghost use Rattle.library_server.specs.Whole.{AreWhole};
ghost use Rattle.library_server.specs.WholeRuns.{is_storage_line};

use crate::bringing::{bring_all, bring_all_back};
use crate::not_done::{NotBrought, NotStarted};
use crate::starting::folder_word;
use crate::workers::serve_depots;
use folder_storage::Ground;
use ids::{Items, LibId};
use library_state::Clock;
use link_ears::{Ear, Net, NetFault};
use server_words::{Fault, Line, Location};
use std::alloc::Global;
use std::sync::Wait;
use std::thread::Threads;

/// A port of this machine, how many workers serve it, and how many connections each of them.
#[derive(Clone, Copy, Debug)]
pub(crate) struct Port {
    pub number: u16,
    pub workers: u32,
    pub connections: u32,
}

/// Opens a port, starts the libraries, lets the workers serve until each has stopped, and gives the line. What was handed out is back.
pub(crate) fn serve_port<G: Ground, N: Net, C: Clock + Sync, R: Threads + Wait + Sync>(
    rt: &R,
    alloc: Global,
    libraries: &mut G,
    location: &Location,
    port: Port,
    libs: &[LibId],
    net: &mut N,
    clock: &C,
) -> Line
where
    G::S: Send,
    requires apart { AreApart libs.now }
    requires some { 1 ≤ length libs.now }
    requires workers { (1 ≤ port.workers) × (port.workers ≤ 64) }
    ensures serves { ServesPort G.S.contents G.S.may_give G.S.texts G.S.faults
        (record { hears = N.hears; tells = N.E.tells; back = N.E.back; faults = N.E.faults; seen = link_seen N.E.L.left N.E.L.taken N.E.L.given N.E.L.asked N.E.L.faults })
        (G.may_give libraries.old) location.now port libs.now (C.shows clock.now)
        (record { stands = G.stands libraries.old; faults = G.faults libraries.old })
        (record { stands = G.stands libraries.new; faults = G.faults libraries.new })
        (record { asked = N.asked net.old; back = N.back net.old; faults = N.faults net.old })
        (record { asked = N.asked net.new; back = N.back net.new; faults = N.faults net.new }) result }
    ensures steady { NeverFails G.S.faults → AreWhole (G.stands libraries.old) → is_storage_line result ≡ false }
    ensures others { UnnamedGiveNoMore (G.may_give libraries.old) (G.may_give libraries.new) (location_text location.now) libs.now 0 (length libs.now) }
{
    let ears = match net.ears(alloc, port.number, port.workers, port.connections) {
        Ok(ears) => ears,
        Err(why) => return Line::Fault(fault_of_net(why)),
    };
    let (line, ears) = serve_ears(rt, alloc, libraries, location, libs, ears, clock);
    net.give_back(ears);
    line
}

/// Starts the libraries and serves them at these ears, which come out again with the line.
fn serve_ears<G: Ground, E: Ear + Send, C: Clock + Sync, R: Threads + Wait + Sync>(
    rt: &R,
    alloc: Global,
    libraries: &mut G,
    location: &Location,
    libs: &[LibId],
    ears: Items<E>,
    clock: &C,
) -> (Line, Items<E>)
where
    G::S: Send,
    requires apart { AreApart libs.now }
    requires some { 1 ≤ length libs.now }
    requires bound { (1 ≤ length ears) × (length ears ≤ 64) }
    ensures serves { ServesEars G.S.contents G.S.may_give G.S.texts G.S.faults
        (record { hears = λ ear port. ⊤; tells = E.tells; back = E.back; faults = E.faults; seen = link_seen E.L.left E.L.taken E.L.given E.L.asked E.L.faults })
        (G.may_give libraries.old) location.now libs.now (C.shows clock.now)
        (record { stands = G.stands libraries.old; faults = G.faults libraries.old })
        (record { stands = G.stands libraries.new; faults = G.faults libraries.new }) ears result.1 result.0 }
    ensures steady { NeverFails G.S.faults → AreWhole (G.stands libraries.old) → is_storage_line result.0 ≡ false }
    ensures others { UnnamedGiveNoMore (G.may_give libraries.old) (G.may_give libraries.new) (location_text location.now) libs.now 0 (length libs.now) }
{
    let depots = match bring_all(alloc, libraries, location, libs, clock) {
        Ok(depots) => depots,
        Err(why) => return (Line::Fault(fault_of_unserved(why)), ears),
    };
    let (line, ears, depots) = serve_depots(rt, alloc, depots, ears, clock);
    bring_all_back(libraries, folder_word(location), libs, depots);
    (line, ears)
}

/// As it is printed of a port. Another library than the one that was named is told as such.
pub(crate) fn fault_of_unserved(why: NotBrought) -> Fault
    ensures value { result ≡ fault_of_unserved why }
{
    match why {
        NotBrought::Refused(NotStarted::Other) => Fault::OtherLibrary,
        other => other.fault(),
    }
}

fn fault_of_net(why: NetFault) -> Fault
    ensures value { result ≡ fault_of_net why }
{
    match why {
        NetFault::Link => Fault::Link,
        NetFault::NoMemory => Fault::NoMemory,
    }
}
