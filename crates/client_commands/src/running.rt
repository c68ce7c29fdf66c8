//! The client's top call.
ghost use Rattle.std.specs.Prelude.{◌≡◌, Some};
ghost use Rattle.std.specs.Io.KnownBytes.{append_known};
ghost use Rattle.client_words.specs.WordReading.{words_of};
ghost use Rattle.remote_calls.specs.Exchange.{link_view};
ghost use Rattle.client_commands.specs.Printing.{Printed, Prints};
ghost use Rattle.client_commands.specs.Runs.{AreReady, RunsSo, begun_line, desynced_line, listed_printed, printed_for};
ghost use Rattle.client_commands.specs.Views.{desk_view, dial_view, sink_view};

use crate::commands::{desync_at, init_at, list_at, status_at, sync_at};
use crate::kept_syncs::job_line;
use crate::printing::{print_line, print_lines, print_no_memory, put};
use crate::starting::start_at;
use crate::wanted::Wanted;
use client_desk::Desk;
use client_words::{Fault, Line, Words, help_text, read_words, version_text};
use http_front::Sink;
use ids::{Items, LibId, Text};
use library_state::Clock;
use std::alloc::{AllocError, Global};

/// Does what the words ask for, and gives the status.
///
/// `init`, `list`, `status`, `download`, `sync`, `desync` and `start` print the lines of what they did, or the line of the
/// first fault, in the order of `client_words::Fault`; `start` prints a line for each job and turn, as it comes, and goes on
/// after a fault. `--help` and `--version`, alone, print their texts.
///
/// The status is 0 where the command was done, and of `start` where each sync of the last turn ended well; 1 after a fault, and
/// where the sink failed; 2 for words that ask for nothing, and for an option that is not supported; 3 for want of memory and
/// nothing else. What the desk handed out is back.
pub fn cli<D: Desk, C: Clock, O: Sink, R>(
    rt: &R,
    alloc: Global,
    words: &[Text],
    desk: &mut D,
    clock: &C,
    out: &mut O,
) -> u8
    ensures runs { RunsSo (dial_view (link_view D.N.L.left D.N.L.taken D.N.L.given D.N.L.asked D.N.L.faults) D.N.back D.N.dialled) (C.shows clock.now) (words_of words.now)
        (desk_view D.has_place D.holds D.dials D.folder_faults D.dial_faults desk.old)
        (desk_view D.has_place D.holds D.dials D.folder_faults D.dial_faults desk.new)
        (sink_view O.given O.faults out.old) (sink_view O.given O.faults out.new) result }

    // 2 comes for words that ask for nothing and for an option that is not supported, and with their line alone.
    ensures refused { result ≡ 2 → (printed : Printed) × (printed_for (words_of words.now) ≡ Some printed) × (printed.status ≡ 2)
        × (O.given out.new ≡ append_known (O.given out.old) printed.text) }
{
    let _ = rt;
    match read_words(alloc, words) {
        Ok(asked) => perform(alloc, asked, desk, clock, out),
        Err(AllocError) => print_no_memory(out),
    }
}

/// Does what is asked for.
fn perform<D: Desk, C: Clock, O: Sink>(
    alloc: Global,
    asked: Words,
    desk: &mut D,
    clock: &C,
    out: &mut O,
) -> u8
    requires ready { AreReady asked }
    ensures runs { RunsSo (dial_view (link_view D.N.L.left D.N.L.taken D.N.L.given D.N.L.asked D.N.L.faults) D.N.back D.N.dialled) (C.shows clock.now) asked
        (desk_view D.has_place D.holds D.dials D.folder_faults D.dial_faults desk.old)
        (desk_view D.has_place D.holds D.dials D.folder_faults D.dial_faults desk.new)
        (sink_view O.given O.faults out.old) (sink_view O.given O.faults out.new) result }
{
    match asked {
        Words::Init { conf } => {
            let done = init_at(alloc, desk, &conf);
            print_line(alloc, out, &begun_line(done))
        }
        Words::List { conf } => {
            let listed = list_at(alloc, desk, &conf);
            print_listed(alloc, out, listed)
        }
        Words::Status { conf } => {
            let told = status_at(alloc, desk, &conf);
            print_listed(alloc, out, told)
        }
        Words::Download { conf, job } => {
            let lib = job.lib;
            let synced = sync_at(alloc, desk, &conf, job, Wanted::Empty, clock);
            print_line(alloc, out, &job_line(lib, synced))
        }
        Words::Sync { conf, job } => {
            let lib = job.lib;
            let synced = sync_at(alloc, desk, &conf, job, Wanted::Any, clock);
            print_line(alloc, out, &job_line(lib, synced))
        }
        Words::Desync { conf, dir } => {
            let done = desync_at(alloc, desk, &conf, &dir);
            print_line(alloc, out, &desynced_line(done))
        }
        Words::Start { conf, turns } => start_at(alloc, desk, &conf, turns, clock, out),
        Words::NotSupported(option) => print_line(alloc, out, &Line::NotSupported(option)),
        Words::Help => put(out, help_text(), 0),
        Words::Version => put(out, version_text(), 0),
        Words::Usage => print_line(alloc, out, &Line::Usage),
    }
}

/// The line of `init`.
fn begun_line(done: Result<(), Fault>) -> Line
    ensures value { result ≡ begun_line done }
{
    match done {
        Ok(()) => Line::Ready,
        Err(fault) => Line::Fault(fault),
    }
}

/// The line of `desync`.
fn desynced_line(done: Result<LibId, Fault>) -> Line
    ensures value { result ≡ desynced_line done }
{
    match done {
        Ok(lib) => Line::Desynced(lib),
        Err(fault) => Line::Fault(fault),
    }
}

/// Puts the lines of a command, or that of its fault.
fn print_listed<O: Sink>(alloc: Global, out: &mut O, listed: Result<Items<Line>, Fault>) -> u8
    ensures prints { Prints (listed_printed listed) (sink_view O.given O.faults out.old) (sink_view O.given O.faults out.new) result }
{
    match listed {
        Ok(lines) => print_lines(alloc, out, lines.slice()),
        Err(fault) => print_line(alloc, out, &Line::Fault(fault)),
    }
}
