//! Getting one list of files and directories.
ghost use Rattle.std.specs.Prelude.{◌≡◌, ◌<◌, ◌≤◌, length};
ghost use Rattle.std.specs.Prelude.{List};
ghost use Rattle.ids.specs.declared.key.Key.{Key};
ghost use Rattle.remote_calls.specs.Sends.{Sent};
ghost use Rattle.tree_fetch.specs.Asking.{GetsRows, refused_of};
ghost use Rattle.tree_fetch.specs.Fetching.{Fetching};
ghost use Rattle.tree_fetch.specs.Levels.{AreReached, FetchesList, KeepsRows};

use crate::asker::{Asker, ask};
use crate::fetched::FetchedObjects;
use crate::told::rows_told;
use http_front::{Row, What};
use ids::{IdList, Items, ObjId};
use library_state::Refusal;
use remote_calls::Remote;
use std::alloc::Global;
use sync_rules::SyncFault;

/// No order asks for more files and directories.
const MOST_ASKED: usize = 10_000;

/// Gets the files and directories of these ids, and keeps them. One whose bytes have another SHA-1 is `Damaged`.
///
/// Of more than 10,000 ids each half is asked for; so is each half of a list of more than one that is answered with want of
/// memory, as a server answers one that it can't pack.
#[cycle(fetching)]
pub(crate) fn fetch_list<R: Remote>(
    alloc: Global,
    remote: &mut R,
    asker: &Asker,
    held: &mut FetchedObjects,
    ids: &[ObjId],
) -> Result<(), SyncFault>
    ensures value { (from : List Key) (before : List Sent) → Fetching asker.now from before (R.sends remote.old) held.old
        → AreReached from held.old ids.now → FetchesList asker.now from before (R.sends remote.new) ids.now held.old held.new result }
    ensures stays { R.peer remote.new ≡ R.peer remote.old }
{
    if ids.is_empty() {
        return Ok(());
    }
    if ids.len() > MOST_ASKED {
        return fetch_halves(alloc, remote, asker, held, ids);
    }
    let given = match ask_list(alloc, remote, asker, ids) {
        Ok(given) => given,
        Err(fault) => return Err(fault),
    };
    match given {
        Some(rows) => keep_rows(held, rows.slice()),
        None => fetch_halves(alloc, remote, asker, held, ids),
    }
}

/// The same of a list of more than one, by its halves.
#[cycle(fetching)]
fn fetch_halves<R: Remote>(
    alloc: Global,
    remote: &mut R,
    asker: &Asker,
    held: &mut FetchedObjects,
    ids: &[ObjId],
) -> Result<(), SyncFault>
    requires size { 1 < length ids.now }
    ensures value { (from : List Key) (before : List Sent) → Fetching asker.now from before (R.sends remote.old) held.old
        → AreReached from held.old ids.now → FetchesList asker.now from before (R.sends remote.new) ids.now held.old held.new result }
    ensures stays { R.peer remote.new ≡ R.peer remote.old }
{
    let (first, later) = ids.split_at(ids.len() / 2);
    match fetch_list(alloc, remote, asker, held, first) {
        Ok(()) => {}
        Err(fault) => return Err(fault),
    }
    fetch_list(alloc, remote, asker, held, later)
}

/// Asks for the files and directories of these ids. None is answered where more than one was asked for and the answer was want
/// of memory.
fn ask_list<R: Remote>(
    alloc: Global,
    remote: &mut R,
    asker: &Asker,
    ids: &[ObjId],
) -> Result<Option<Items<Row>>, SyncFault>
    requires some { 0 < length ids.now }
    ensures value { GetsRows asker.now (R.sends remote.old) (R.sends remote.new) ids.now result }
    ensures stays { R.peer remote.new ≡ R.peer remote.old }
{
    let asked = match IdList::copy(alloc, ids) {
        Ok(asked) => asked,
        Err(_) => return Err(SyncFault::NoMemory),
    };
    let outcome = match ask(alloc, remote, asker, What::GetFs(asked)) {
        Ok(outcome) => outcome,
        Err(fault) => return Err(fault),
    };
    match rows_told(outcome) {
        Ok(rows) => Ok(Some(rows)),
        Err(why) => refused_of(ids.len() > 1, why),
    }
}

/// A list of many that is too large is to be halved; what else is refused ends the sync.
fn refused_of(many: bool, why: Refusal) -> Result<Option<Items<Row>>, SyncFault>
    ensures value { result ≡ refused_of many why }
{
    if !many {
        return Err(SyncFault::Refused(why));
    }
    match why {
        Refusal::NoMemory => Ok(None),
        other => Err(SyncFault::Refused(other)),
    }
}

/// Keeps each of the rows, unless one has another SHA-1 than its id.
fn keep_rows(held: &mut FetchedObjects, rows: &[Row]) -> Result<(), SyncFault>
    ensures value { KeepsRows rows.now held.old held.new result }
{
    for row in rows {
        match held.keep(&row.id, row.bytes.slice()) {
            Ok(()) => {}
            Err(fault) => return Err(fault),
        }
    }
    Ok(())
}
