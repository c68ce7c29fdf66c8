//! The server's top call.
ghost use Rattle.library_state.specs.declared.state.TheConstants.{MAX_STATE_NAME};
ghost use Rattle.std.specs.Prelude.{◌≡◌, ◌≤◌, false, length, Some};
ghost use Rattle.std.specs.Io.KnownBytes.{append_known};
ghost use Rattle.server_words.specs.CommandLine.{AreLibraries, NamesFit, command_of};
ghost use Rattle.server_words.specs.Lines.{line_text};
ghost use Rattle.server_words.specs.declared.line.Line.TheVariants as lines;
ghost use Rattle.folder_storage.specs.Ground.{Standing};
ghost use Rattle.folder_storage.specs.SteadyShelf.{SteadyShelfState};
ghost use Rattle.http_front.specs.Link.{told_by};
ghost use Rattle.server_words.specs.Spelling.{location_text};
ghost use Rattle.library_server.specs.Answering.{NeverFails};
ghost use Rattle.library_server.specs.Bringing.{UnnamedGiveNoMore};
ghost use Rattle.link_ears.specs.Ear.{EarRules, LinkView, NetView, link_seen};
ghost use Rattle.library_server.specs.HallConnections.{ServesNamed};
ghost use Rattle.library_server.specs.Runs.{AddsToken, CreatesLibrary, OnlyNamedGivesMore, PrintsSo, RunsSo, SinkView, added_line, created_line, help_printed, line_printed, version_printed};
ghost use Rattle.library_server.specs.Standing.{GroundView, OthersGiveNoMore};
ghost use Rattle.library_server.specs.Whole.{AreWhole, IsWhole, empty_gives, empty_ground, holds_in};
ghost use Rattle.library_server.specs.WholeRuns.{NamedWhole, RunsWhole, is_storage_line};

use crate::adding::{NewToken, add_token};
use crate::creating::create;
use crate::filling::{Files, make_files};
use crate::inetd::inetd;
use crate::inetd_hall::inetd_hall;
use crate::making::NewLibrary;
use crate::not_done::{NotAdded, NotMade};
use crate::port::{Port, serve_port};
use crate::starting::folder_word;
use folder_storage::{Ground, MemoryGround};
use http_front::{Link, Sink};
use ids::{LibId, ObjId, Text};
use library_state::Clock;
use link_ears::Net;
use server_words::{Command, Line, Location, help_text, read_command, version_text};
use std::alloc::Global;
use std::sync::Wait;
use std::thread::Threads;

/// Runs the command that the words are, and gives its status.
///
/// `create FOLDER LIB NAME USER TOKEN` makes a library in `libraries`, `token FOLDER LIB USER TOKEN RIGHT` adds a token to
/// one, and each puts its line or a fault line to `out`. `inetd FOLDER LIB [LIB..]` serves one connection over the link, with one
/// library alone or with several through a hall, where it may wait, and puts nothing.
/// `serve FOLDER PORT WORKERS CONNECTIONS LIB [LIB..]` opens a port of `net` and lets so many workers serve its connections beside
/// each other, each so many, where it may wait, and puts how many were served.
/// `make FOLDER LIB COUNT NUMBER` fills a library that has one object, and whose first token is an owner's, with so many generated files,
/// and puts what came of it.
/// `--help` and `--version`, alone, put their texts. Other words put the usage line. Where FOLDER is `:memory:`, `token`, `inetd`,
/// `serve` and `make` first make a library that is not there, of the name `memory`, the user `me` and a secret of forty `a`. What `libraries` and
/// `net` handed out is back.
///
/// The status is 0 where the command was done, for `inetd` where the connection ended well or met its limit; 1 after a
/// fault, and where the sink failed; 2 for words that are no command; 3 for want of memory, without a line where
/// there was none for the words, and for a refusal that no filling meets.
pub fn run<G: Ground, L: Link, N: Net, C: Clock + Sync, O: Sink, R: Threads + Wait + Sync>(
    rt: &R,
    alloc: Global,
    words: &[Text],
    libraries: &mut G,
    link: &mut L,
    net: &mut N,
    clock: &C,
    out: &mut O,
) -> u8
where
    G::S: Send,
    ensures runs { RunsSo G.S.contents G.S.may_give G.S.texts G.S.faults
        (record { hears = N.hears; tells = N.E.tells; back = N.E.back; faults = N.E.faults; seen = link_seen N.E.L.left N.E.L.taken N.E.L.given N.E.L.asked N.E.L.faults })
        (G.may_give libraries.old) (C.shows clock.now) (command_of words.now)
        (record { stands = G.stands libraries.old; faults = G.faults libraries.old })
        (record { stands = G.stands libraries.new; faults = G.faults libraries.new })
        (record { left = L.left link.old; tells = told_by L.taken L.given L.asked link.old; faults = L.faults link.old })
        (record { left = L.left link.new; tells = told_by L.taken L.given L.asked link.new; faults = L.faults link.new })
        (record { asked = N.asked net.old; back = N.back net.old; faults = N.faults net.old })
        (record { asked = N.asked net.new; back = N.back net.new; faults = N.faults net.new })
        (record { given = O.given out.old; faults = O.faults out.old })
        (record { given = O.given out.new; faults = O.faults out.new }) result }

    // Over storage that never fails, in which each object lies under its own name, no line and no reply is a fault of it.
    ensures steady { NeverFails G.S.faults → AreWhole (G.stands libraries.old) → (done : RunsSo G.S.contents G.S.may_give G.S.texts G.S.faults
        (record { hears = N.hears; tells = N.E.tells; back = N.E.back; faults = N.E.faults; seen = link_seen N.E.L.left N.E.L.taken N.E.L.given N.E.L.asked N.E.L.faults })
        (G.may_give libraries.old) (C.shows clock.now) (command_of words.now)
        (record { stands = G.stands libraries.old; faults = G.faults libraries.old })
        (record { stands = G.stands libraries.new; faults = G.faults libraries.new })
        (record { left = L.left link.old; tells = told_by L.taken L.given L.asked link.old; faults = L.faults link.old })
        (record { left = L.left link.new; tells = told_by L.taken L.given L.asked link.new; faults = L.faults link.new })
        (record { asked = N.asked net.old; back = N.back net.old; faults = N.faults net.old })
        (record { asked = N.asked net.new; back = N.back net.new; faults = N.faults net.new })
        (record { given = O.given out.old; faults = O.faults out.old })
        (record { given = O.given out.new; faults = O.faults out.new }) result) × RunsWhole done }

    // Of every place: no library may give more than before, but the one that is named.
    ensures others { OnlyNamedGivesMore (command_of words.now) (G.may_give libraries.old) (G.may_give libraries.new) }

    // 2 comes with a written usage line alone.
    ensures usage { result ≡ 2
        → (command_of words.now ≡ Command.Usage) × (O.given out.new ≡ append_known (O.given out.old) (line_text lines.Usage)) }
{
    match read_command(alloc, words) {
        Ok(command) => perform(rt, alloc, command, libraries, link, net, clock, out),
        Err(_) => 3,
    }
}

/// Runs the command that the words are over libraries in memory, of which none is there at first and none is left, and
/// gives its status. Their storage never fails: no line tells a fault of it, and no reply of a connection is one.
pub fn run_in_memory<L: Link, N: Net, C: Clock + Sync, O: Sink, R: Threads + Wait + Sync>(
    rt: &R,
    alloc: Global,
    words: &[Text],
    link: &mut L,
    net: &mut N,
    clock: &C,
    out: &mut O,
) -> u8
    ensures runs { (after : GroundView) × RunsSo {S = SteadyShelfState} (λ shelf. Some shelf.contents) (λ shelf. holds_in shelf.contents) (λ shelf. shelf.texts) (λ shelf. 0)
        (record { hears = N.hears; tells = N.E.tells; back = N.E.back; faults = N.E.faults; seen = link_seen N.E.L.left N.E.L.taken N.E.L.given N.E.L.asked N.E.L.faults })
        empty_gives (C.shows clock.now) (command_of words.now) empty_ground after
        (record { left = L.left link.old; tells = told_by L.taken L.given L.asked link.old; faults = L.faults link.old })
        (record { left = L.left link.new; tells = told_by L.taken L.given L.asked link.new; faults = L.faults link.new })
        (record { asked = N.asked net.old; back = N.back net.old; faults = N.faults net.old })
        (record { asked = N.asked net.new; back = N.back net.new; faults = N.faults net.new })
        (record { given = O.given out.old; faults = O.faults out.old })
        (record { given = O.given out.new; faults = O.faults out.new }) result }
    ensures steady { (after : GroundView) × (done : RunsSo {S = SteadyShelfState} (λ shelf. Some shelf.contents) (λ shelf. holds_in shelf.contents) (λ shelf. shelf.texts) (λ shelf. 0)
        (record { hears = N.hears; tells = N.E.tells; back = N.E.back; faults = N.E.faults; seen = link_seen N.E.L.left N.E.L.taken N.E.L.given N.E.L.asked N.E.L.faults })
        empty_gives (C.shows clock.now) (command_of words.now) empty_ground after
        (record { left = L.left link.old; tells = told_by L.taken L.given L.asked link.old; faults = L.faults link.old })
        (record { left = L.left link.new; tells = told_by L.taken L.given L.asked link.new; faults = L.faults link.new })
        (record { asked = N.asked net.old; back = N.back net.old; faults = N.faults net.old })
        (record { asked = N.asked net.new; back = N.back net.new; faults = N.faults net.new })
        (record { given = O.given out.old; faults = O.faults out.old })
        (record { given = O.given out.new; faults = O.faults out.new }) result) × RunsWhole done }
{
    let mut libraries = MemoryGround::new(alloc);
    run(rt, alloc, words, &mut libraries, link, net, clock, out)
}

/// Does what a command asks for.
fn perform<G: Ground, L: Link, N: Net, C: Clock + Sync, O: Sink, R: Threads + Wait + Sync>(
    rt: &R,
    alloc: Global,
    command: Command,
    libraries: &mut G,
    link: &mut L,
    net: &mut N,
    clock: &C,
    out: &mut O,
) -> u8
where
    G::S: Send,
    requires fits { NamesFit command }
    ensures runs { RunsSo G.S.contents G.S.may_give G.S.texts G.S.faults
        (record { hears = N.hears; tells = N.E.tells; back = N.E.back; faults = N.E.faults; seen = link_seen N.E.L.left N.E.L.taken N.E.L.given N.E.L.asked N.E.L.faults })
        (G.may_give libraries.old) (C.shows clock.now) command
        (record { stands = G.stands libraries.old; faults = G.faults libraries.old })
        (record { stands = G.stands libraries.new; faults = G.faults libraries.new })
        (record { left = L.left link.old; tells = told_by L.taken L.given L.asked link.old; faults = L.faults link.old })
        (record { left = L.left link.new; tells = told_by L.taken L.given L.asked link.new; faults = L.faults link.new })
        (record { asked = N.asked net.old; back = N.back net.old; faults = N.faults net.old })
        (record { asked = N.asked net.new; back = N.back net.new; faults = N.faults net.new })
        (record { given = O.given out.old; faults = O.faults out.old })
        (record { given = O.given out.new; faults = O.faults out.new }) result }
    ensures steady { NeverFails G.S.faults → AreWhole (G.stands libraries.old) → (done : RunsSo G.S.contents G.S.may_give G.S.texts G.S.faults
        (record { hears = N.hears; tells = N.E.tells; back = N.E.back; faults = N.E.faults; seen = link_seen N.E.L.left N.E.L.taken N.E.L.given N.E.L.asked N.E.L.faults })
        (G.may_give libraries.old) (C.shows clock.now) command
        (record { stands = G.stands libraries.old; faults = G.faults libraries.old })
        (record { stands = G.stands libraries.new; faults = G.faults libraries.new })
        (record { left = L.left link.old; tells = told_by L.taken L.given L.asked link.old; faults = L.faults link.old })
        (record { left = L.left link.new; tells = told_by L.taken L.given L.asked link.new; faults = L.faults link.new })
        (record { asked = N.asked net.old; back = N.back net.old; faults = N.faults net.old })
        (record { asked = N.asked net.new; back = N.back net.new; faults = N.faults net.new })
        (record { given = O.given out.old; faults = O.faults out.old })
        (record { given = O.given out.new; faults = O.faults out.new }) result) × RunsWhole done }
    ensures others { OnlyNamedGivesMore command (G.may_give libraries.old) (G.may_give libraries.new) }
{
    match command {
        Command::Create {
            location,
            lib,
            name,
            user,
            secret,
        } => {
            let new = NewLibrary {
                lib,
                name,
                user,
                secret,
            };
            create_printed(alloc, libraries, &location, &new, clock, out)
        }
        Command::Token {
            location,
            lib,
            user,
            secret,
            right,
        } => {
            let new = NewToken {
                user,
                secret,
                right,
            };
            add_printed(alloc, libraries, &location, lib, &new, clock, out)
        }
        Command::Inetd { location, libs } => {
            serve_named(rt, alloc, libraries, &location, libs.slice(), link, clock)
        }
        Command::Serve {
            location,
            port,
            workers,
            connections,
            libs,
        } => {
            let port = Port {
                number: port,
                workers,
                connections,
            };
            let libs = libs.slice();
            let line = serve_port(rt, alloc, libraries, &location, port, libs, net, clock);
            print_line(out, line)
        }
        Command::Make {
            location,
            lib,
            count,
            number,
        } => {
            let files = Files { count, number };
            let line = make_files(rt, alloc, libraries, &location, lib, files, clock);
            print_line(out, line)
        }
        Command::Help => print(out, help_text(), 0),
        Command::Version => print(out, version_text(), 0),
        Command::Usage => print_line(out, Line::Usage),
    }
}

/// Serves one connection with the libraries that a command names: one alone, several through a hall.
fn serve_named<G: Ground, L: Link, C: Clock, R: Wait>(
    rt: &R,
    alloc: Global,
    libraries: &mut G,
    location: &Location,
    libs: &[LibId],
    link: &mut L,
    clock: &C,
) -> u8
    requires named { AreLibraries libs.now }
    ensures serves { (named : ServesNamed G.S.contents G.S.may_give G.S.texts G.S.faults (G.may_give libraries.old) location.now libs.now (C.shows clock.now)
        (record { stands = G.stands libraries.old; faults = G.faults libraries.old })
        (record { stands = G.stands libraries.new; faults = G.faults libraries.new })
        (record { left = L.left link.old; tells = told_by L.taken L.given L.asked link.old; faults = L.faults link.old })
        (record { left = L.left link.new; tells = told_by L.taken L.given L.asked link.new; faults = L.faults link.new }) result)
        × (NeverFails G.S.faults → AreWhole (G.stands libraries.old) → NamedWhole named) }
    ensures others { UnnamedGiveNoMore (G.may_give libraries.old) (G.may_give libraries.new) (location_text location.now) libs.now 0 (length libs.now) }
{
    let count = libs.len();
    if count == 1 {
        let place = 0;
        return inetd(alloc, libraries, location, libs[place], link, clock);
    }
    inetd_hall(rt, alloc, libraries, location, libs, link, clock)
}

/// Makes a library, and puts the line that tells it.
fn create_printed<G: Ground, C: Clock, O: Sink>(
    alloc: Global,
    libraries: &mut G,
    location: &Location,
    new: &NewLibrary,
    clock: &C,
    out: &mut O,
) -> u8
    requires fits { length new.now.name ≤ MAX_STATE_NAME }
    requires ready { (1 ≤ length new.now.user) × (length new.now.user ≤ MAX_STATE_NAME) }
    ensures value { (done : CreatesLibrary G.S.contents (G.may_give libraries.old) (C.shows clock.now) location.now new.now
        (record { stands = G.stands libraries.old; faults = G.faults libraries.old })
        (record { stands = G.stands libraries.new; faults = G.faults libraries.new })
        (record { given = O.given out.old; faults = O.faults out.old })
        (record { given = O.given out.new; faults = O.faults out.new }) result)
        × (NeverFails G.S.faults → (standing : Standing) → G.stands libraries.old (location_text location.now) new.now.lib ≡ Some standing → IsWhole standing
        → is_storage_line (created_line new.now.lib done.created) ≡ false) }
    ensures others { OthersGiveNoMore (G.may_give libraries.old) (G.may_give libraries.new) (location_text location.now) new.now.lib }
{
    let created = create(alloc, libraries, folder_word(location), new, clock.now());
    print_line(out, created_line(new.lib, created))
}

/// The line that tells how the making of a library went.
fn created_line(lib: LibId, created: Result<ObjId, NotMade>) -> Line
    ensures value { result ≡ created_line lib created }
{
    match created {
        Ok(head) => Line::Created { lib, head },
        Err(why) => Line::Fault(why.fault()),
    }
}

/// Adds a token, and puts the line that tells it.
fn add_printed<G: Ground, C: Clock, O: Sink>(
    alloc: Global,
    libraries: &mut G,
    location: &Location,
    lib: LibId,
    new: &NewToken,
    clock: &C,
    out: &mut O,
) -> u8
    requires ready { (1 ≤ length new.now.user) × (length new.now.user ≤ MAX_STATE_NAME) }
    ensures value { (done : AddsToken G.S.contents (G.may_give libraries.old) (C.shows clock.now) location.now lib new.now
        (record { stands = G.stands libraries.old; faults = G.faults libraries.old })
        (record { stands = G.stands libraries.new; faults = G.faults libraries.new })
        (record { given = O.given out.old; faults = O.faults out.old })
        (record { given = O.given out.new; faults = O.faults out.new }) result)
        × (NeverFails G.S.faults → (standing : Standing) → G.stands libraries.old (location_text location.now) lib ≡ Some standing → IsWhole standing
        → is_storage_line (added_line done.added) ≡ false) }
    ensures others { OthersGiveNoMore (G.may_give libraries.old) (G.may_give libraries.new) (location_text location.now) lib }
{
    let added = add_token(alloc, libraries, location, lib, new, clock);
    print_line(out, added_line(added))
}

/// The line that tells how the adding of a token went.
fn added_line(added: Result<(), NotAdded>) -> Line
    ensures value { result ≡ added_line added }
{
    match added {
        Ok(()) => Line::TokenAdded,
        Err(why) => Line::Fault(why.fault()),
    }
}

/// Puts a line, and gives its status.
fn print_line<O: Sink>(out: &mut O, line: Line) -> u8
    ensures prints { PrintsSo (line_printed line)
        (record { given = O.given out.old; faults = O.faults out.old })
        (record { given = O.given out.new; faults = O.faults out.new }) result }
{
    print(out, line.text().slice(), line.status())
}

/// Puts a text, and gives the status.
fn print<O: Sink>(out: &mut O, text: &[u8], status: u8) -> u8
    ensures prints { PrintsSo (record { text = text.now; status = status })
        (record { given = O.given out.old; faults = O.faults out.old })
        (record { given = O.given out.new; faults = O.faults out.new }) result }
{
    match out.put_all(text) {
        Ok(()) => status,
        Err(_) => 1,
    }
}
