//! Several folders, synced turn after turn.
ghost use Rattle.std.specs.Prelude.{◌≡◌, ◌++◌, IfOk, List, OnErr, OnOk, Result, map as list_map};
ghost use Rattle.sync_rules.specs.declared.fault.SyncFault.{SyncFault as Fault};
ghost use Rattle.sync_rules.specs.declared.synced.Synced.{Synced as Done};
ghost use Rattle.sync_daemon.specs.Turns.{JobSo, StopsTurn, StopsTurns, TurnSo, TurnsSo, state_of};

use crate::syncing::sync_once;
use folder_side::Folder;
use ids::Text;
use library_state::{Clock, Secret};
use local_index::Index;
use remote_calls::Remote;
use std::alloc::{AllocError, Global};
use sync_rules::{SyncFault, Synced};

/// A folder with its index, and the library with which it is synced.
#[derive(Drop)]
pub struct Job<F, R> {
    pub folder: F,
    pub index: Index,
    pub remote: R,
    pub secret: Secret,
    pub user: Text,
}

/// Syncs each job once a turn, in order. There is one result for each job and turn.
///
/// Want of memory is told where there is none for a result. A front of the syncs was done then, in the same order, and nothing
/// else to any job; the results are lost.
pub fn run_turns<F: Folder, R: Remote, C: Clock>(
    alloc: Global,
    jobs: &mut Vec<Job<F, R>>,
    turns: u32,
    clock: &C,
) -> Result<Vec<Result<Synced, SyncFault>>, AllocError>
    ensures value { IfOk result (λ results. TurnsSo (C.shows clock.now) turns (list_map (state_of F.told F.faults R.sends R.peer) jobs.old.items) (list_map (state_of F.told F.faults R.sends R.peer) jobs.new.items) results.items) }
    ensures err { OnErr result (StopsTurns (C.shows clock.now) turns (list_map (state_of F.told F.faults R.sends R.peer) jobs.old.items) (list_map (state_of F.told F.faults R.sends R.peer) jobs.new.items)) }
{
    let mut results = Vec::new(alloc);
    let mut turn: u32 = 0;
    while turn < turns {
        run_turn(alloc, jobs, clock, &mut results)?;
        turn += 1;
    }
    Ok(results)
}

/// Syncs each job once.
fn run_turn<F: Folder, R: Remote, C: Clock>(
    alloc: Global,
    jobs: &mut Vec<Job<F, R>>,
    clock: &C,
    results: &mut Vec<Result<Synced, SyncFault>>,
) -> Result<(), AllocError>
    ensures value { OnOk result ((more : List (Result Done Fault)) × (results.new.items ≡ results.old.items ++ more)
        × TurnSo (C.shows clock.now) (list_map (state_of F.told F.faults R.sends R.peer) jobs.old.items) (list_map (state_of F.told F.faults R.sends R.peer) jobs.new.items) more) }
    ensures err { OnErr result (StopsTurn (C.shows clock.now) (list_map (state_of F.told F.faults R.sends R.peer) jobs.old.items) (list_map (state_of F.told F.faults R.sends R.peer) jobs.new.items)) }
{
    let mut place: usize = 0;
    while place < jobs.len() {
        results.reserve(1)?;
        let synced = run_job(alloc, &mut jobs[place], clock);
        results.push_reserved(synced);
        place += 1;
    }
    Ok(())
}

fn run_job<F: Folder, R: Remote, C: Clock>(
    alloc: Global,
    job: &mut Job<F, R>,
    clock: &C,
) -> Result<Synced, SyncFault>
    ensures value { JobSo (C.shows clock.now) (state_of F.told F.faults R.sends R.peer job.old) (state_of F.told F.faults R.sends R.peer job.new) result }
{
    sync_once(
        alloc,
        &mut job.folder,
        &mut job.index,
        &mut job.remote,
        job.secret,
        &job.user,
        clock,
    )
}
