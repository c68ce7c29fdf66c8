//! `start`: the jobs of the list, synced turn after turn.
ghost use Rattle.std.specs.Prelude.{◌≡◌, false, IfErr, IfOk, Some};
ghost use Rattle.ids.specs.FaultCount.{FailsBy};
ghost use Rattle.folder_side.specs.Folder.{Contents};
ghost use Rattle.client_words.specs.JobWriting.{AreJobs};
ghost use Rattle.http_client.specs.RequestText.{IsHost};
ghost use Rattle.remote_calls.specs.Exchange.{link_view};
ghost use Rattle.client_desk.specs.KeptTexts.{is_of_folder};
ghost use Rattle.client_commands.specs.Keeping.{is_of_link};
ghost use Rattle.client_commands.specs.Starts.{ListsSo, RunsBy, RunsListed, StartsSo, TurnBy, TurnsSo, first_of};
ghost use Rattle.client_commands.specs.Views.{desk_view, dial_view, own_view, sink_view};

use crate::folders::{give_folder, take_folder};
use crate::kept_syncs::{job_line, sync_listed};
use crate::printing::{print_line, try_line};
use crate::statuses::check_indexes;
use crate::wanted::Wanted;
use client_desk::{Asking, Claim, Desk, jobs_in};
use client_words::{Fault, Job, Line};
use folder_side::Folder;
use http_front::{LinkFailed, Sink};
use ids::{Items, Text};
use library_state::Clock;
use std::alloc::Global;

/// Syncs each job of the list so many times, in order, turn after turn, and puts a line for each, as it comes. All index texts
/// are read before the first turn.
///
/// The status is 0 where each sync of the last turn ended well, and else that of the first that didn't; 1 where the sink
/// failed, and then nothing more is synced.
pub(crate) fn start_at<D: Desk, C: Clock, O: Sink>(
    alloc: Global,
    desk: &mut D,
    conf: &Text,
    turns: u32,
    clock: &C,
    out: &mut O,
) -> u8
    ensures value { StartsSo (dial_view (link_view D.N.L.left D.N.L.taken D.N.L.given D.N.L.asked D.N.L.faults) D.N.back D.N.dialled) (C.shows clock.now) conf.now turns
        (desk_view D.has_place D.holds D.dials D.folder_faults D.dial_faults desk.old)
        (desk_view D.has_place D.holds D.dials D.folder_faults D.dial_faults desk.new)
        (sink_view O.given O.faults out.old) (sink_view O.given O.faults out.new) result }
{
    let mut folder = match take_folder(desk, conf, Claim::Own) {
        Ok(folder) => folder,
        Err(fault) => return print_line(alloc, out, &Line::Fault(fault)),
    };
    let status = run_listed(alloc, desk, &mut folder, turns, clock, out);
    give_folder(desk, conf, folder, false);
    status
}

/// The same, once the client's own folder is open.
fn run_listed<D: Desk, C: Clock, O: Sink>(
    alloc: Global,
    desk: &mut D,
    conf: &mut D::F,
    turns: u32,
    clock: &C,
    out: &mut O,
) -> u8
    ensures value { RunsListed (dial_view (link_view D.N.L.left D.N.L.taken D.N.L.given D.N.L.asked D.N.L.faults) D.N.back D.N.dialled) (C.shows clock.now) turns
        (record { own = own_view D.F.told D.F.faults conf.old; desk = desk_view D.has_place D.holds D.dials D.folder_faults D.dial_faults desk.old; out = sink_view O.given O.faults out.old })
        (record { own = own_view D.F.told D.F.faults conf.new; desk = desk_view D.has_place D.holds D.dials D.folder_faults D.dial_faults desk.new; out = sink_view O.given O.faults out.new }) result }
    ensures stays { D.has_place desk.new ≡ D.has_place desk.old }
{
    match listed_jobs(alloc, conf) {
        Ok(jobs) => run_turns(alloc, desk, conf, jobs.slice(), turns, clock, out),
        Err(fault) => print_line(alloc, out, &Line::Fault(fault)),
    }
}

/// The jobs of the list, of which each has its index.
fn listed_jobs<F: Folder>(alloc: Global, conf: &mut F) -> Result<Items<Job>, Fault>
    ensures value { (c : Contents) → F.told conf.old ≡ Some c → ListsSo c result }
    ensures proper { IfOk result AreJobs }
    ensures may { IfErr result (λ e. is_of_link e ≡ false) }
    ensures stays { F.told conf.new ≡ F.told conf.old }
    ensures faults { FailsBy is_of_folder (F.faults conf.old) (F.faults conf.new) result }
{
    let jobs = match jobs_in(alloc, conf) {
        Ok(jobs) => jobs,
        Err(fault) => return Err(fault),
    };
    match check_indexes(alloc, conf, jobs.slice()) {
        Ok(()) => Ok(jobs),
        Err(fault) => Err(fault),
    }
}

/// So many turns.
fn run_turns<D: Desk, C: Clock, O: Sink>(
    alloc: Global,
    desk: &mut D,
    conf: &mut D::F,
    jobs: &[Job],
    turns: u32,
    clock: &C,
    out: &mut O,
) -> u8
    requires proper { AreJobs jobs.now }
    ensures value { TurnsSo (dial_view (link_view D.N.L.left D.N.L.taken D.N.L.given D.N.L.asked D.N.L.faults) D.N.back D.N.dialled) (C.shows clock.now) jobs.now turns 0
        (record { own = own_view D.F.told D.F.faults conf.old; desk = desk_view D.has_place D.holds D.dials D.folder_faults D.dial_faults desk.old; out = sink_view O.given O.faults out.old })
        (record { own = own_view D.F.told D.F.faults conf.new; desk = desk_view D.has_place D.holds D.dials D.folder_faults D.dial_faults desk.new; out = sink_view O.given O.faults out.new }) result }
    ensures stays { D.has_place desk.new ≡ D.has_place desk.old }
{
    let mut status = 0;
    let mut left = turns;
    while left > 0 {
        match run_turn(alloc, desk, conf, jobs, clock, out) {
            Ok(ended) => status = ended,
            Err(LinkFailed) => return 1,
        }
        left -= 1;
    }
    status
}

/// Syncs each job once, and tells the status of the turn: that of the first sync that did not end well. The sink's fault ends
/// the turn.
fn run_turn<D: Desk, C: Clock, O: Sink>(
    alloc: Global,
    desk: &mut D,
    conf: &mut D::F,
    jobs: &[Job],
    clock: &C,
    out: &mut O,
) -> Result<u8, LinkFailed>
    requires proper { AreJobs jobs.now }
    ensures value { TurnBy (dial_view (link_view D.N.L.left D.N.L.taken D.N.L.given D.N.L.asked D.N.L.faults) D.N.back D.N.dialled) (C.shows clock.now) jobs.now
        (record { own = own_view D.F.told D.F.faults conf.old; desk = desk_view D.has_place D.holds D.dials D.folder_faults D.dial_faults desk.old; out = sink_view O.given O.faults out.old })
        (record { own = own_view D.F.told D.F.faults conf.new; desk = desk_view D.has_place D.holds D.dials D.folder_faults D.dial_faults desk.new; out = sink_view O.given O.faults out.new }) result }
    ensures stays { D.has_place desk.new ≡ D.has_place desk.old }
{
    let mut status = 0;
    for job in jobs {
        match run_job(alloc, desk, conf, job, clock, out) {
            Ok(ended) => status = first_of(status, ended),
            Err(failed) => return Err(failed),
        }
    }
    Ok(status)
}

/// The status of a turn so far, behind one more sync.
fn first_of(status: u8, ended: u8) -> u8
    ensures value { result ≡ first_of status ended }
{
    if status == 0 { ended } else { status }
}

/// Syncs a job once, and puts its line.
fn run_job<D: Desk, C: Clock, O: Sink>(
    alloc: Global,
    desk: &mut D,
    conf: &mut D::F,
    job: &Job,
    clock: &C,
    out: &mut O,
) -> Result<u8, LinkFailed>
    requires name { IsHost job.now.host }
    ensures value { RunsBy (dial_view (link_view D.N.L.left D.N.L.taken D.N.L.given D.N.L.asked D.N.L.faults) D.N.back D.N.dialled) (C.shows clock.now) job.now
        (record { own = own_view D.F.told D.F.faults conf.old; desk = desk_view D.has_place D.holds D.dials D.folder_faults D.dial_faults desk.old; out = sink_view O.given O.faults out.old })
        (record { own = own_view D.F.told D.F.faults conf.new; desk = desk_view D.has_place D.holds D.dials D.folder_faults D.dial_faults desk.new; out = sink_view O.given O.faults out.new }) result }
    ensures stays { D.has_place desk.new ≡ D.has_place desk.old }
{
    let synced = sync_listed(alloc, desk, conf, job, Asking::Start, Wanted::Any, clock);
    try_line(alloc, out, &job_line(job.lib, synced))
}
