//! The commit of an offer, and the library that is asked to stand at it.
ghost use Rattle.std.specs.Prelude.{◌≡◌, ◌≢◌, IfErr, IfOk};
ghost use Rattle.ids.specs.ObjectId.{nil};
ghost use Rattle.tree_push.specs.Asking.{IsOrderFault};
ghost use Rattle.tree_push.specs.Standing.{IsOwnCommit, IsUpdateReply, PutsCommit, PutsThenUpdates, RefusesSo, StandsSo, TakesSo, UpdatesSo};

use crate::asking::{Library, ask};
use crate::puts::stored;
use commit_objects::Commit;
use http_front::What;
use ids::{Bytes, Key, Kind, ObjId, Text};
use library_state::{Refusal, Reply};
use remote_calls::Remote;
use std::alloc::{AllocError, Global};
use sync_rules::SyncFault;

/// What came of a commit that was pushed.
#[derive(Clone, Copy, Debug)]
pub enum Pushed {
    /// The commit was taken in, and the library stands at this head.
    Installed { commit: ObjId, head: ObjId },
    /// A collection began since the upload was allowed; the last one has this number.
    Late { now: u64 },
}

/// The words by which a sync describes a commit.
const WORDS: &str = "Sync";

/// A commit that was made, with its text.
#[derive(Drop)]
struct Made {
    id: ObjId,
    text: Bytes,
}

/// Makes the commit of a root on this parent, puts it, and asks the library to stand at it.
///
/// `Remote` and `Refused` by the last order; that it came too late is no fault. A commit whose name is forty zeros, as no
/// text is known to have, is told as want of memory.
pub fn stand_at<R: Remote>(
    alloc: Global,
    remote: &mut R,
    library: &Library,
    root: ObjId,
    parent: ObjId,
    user: &Text,
    moment: u64,
) -> Result<Pushed, SyncFault>
    requires some { parent ≢ nil }
    ensures value { StandsSo library.now root parent user.now moment (R.sends remote.old) (R.sends remote.new) result }
    ensures faults { IfErr result IsOrderFault }
    ensures stays { R.peer remote.new ≡ R.peer remote.old }
{
    let made = match make(alloc, library, root, parent, user, moment) {
        Ok(made) => made,
        Err(AllocError) => return Err(SyncFault::NoMemory),
    };
    put_and_update(alloc, remote, library, made)
}

/// The commit and its text.
fn make(
    alloc: Global,
    library: &Library,
    root: ObjId,
    parent: ObjId,
    user: &Text,
    moment: u64,
) -> Result<Made, AllocError>
    requires some { parent ≢ nil }
    ensures value { IfOk result (λ made. IsOwnCommit library.now root parent user.now moment made.id made.text) }
{
    let words = Text::copy(alloc, WORDS)?;
    let commit = Commit::make(
        alloc,
        library.lib,
        root,
        Some(parent),
        None,
        user,
        &words,
        moment,
        false,
    )?;
    let text = commit.write(alloc)?;
    let id = commit.id;
    if id.is_nil() {
        return Err(AllocError);
    }
    Ok(Made { id, text })
}

fn put_and_update<R: Remote>(
    alloc: Global,
    remote: &mut R,
    library: &Library,
    made: Made,
) -> Result<Pushed, SyncFault>
    ensures value { PutsThenUpdates library.now made.id made.text (R.sends remote.old) (R.sends remote.new) result }
    ensures faults { IfErr result IsOrderFault }
    ensures stays { R.peer remote.new ≡ R.peer remote.old }
{
    let id = made.id;
    match put_commit(alloc, remote, library, id, made.text) {
        Ok(()) => update(alloc, remote, library, id),
        Err(fault) => Err(fault),
    }
}

/// Puts a commit under its name.
fn put_commit<R: Remote>(
    alloc: Global,
    remote: &mut R,
    library: &Library,
    id: ObjId,
    text: Bytes,
) -> Result<(), SyncFault>
    ensures value { PutsCommit library.now id text (R.sends remote.old) (R.sends remote.new) result }
    ensures faults { IfErr result IsOrderFault }
    ensures stays { R.peer remote.new ≡ R.peer remote.old }
{
    let key = Key {
        kind: Kind::Commit,
        id,
    };
    match ask(alloc, remote, library, What::Put(key, text)) {
        Ok(reply) => stored(reply),
        Err(fault) => Err(fault),
    }
}

/// Asks the library to stand at a commit.
fn update<R: Remote>(
    alloc: Global,
    remote: &mut R,
    library: &Library,
    id: ObjId,
) -> Result<Pushed, SyncFault>
    ensures value { UpdatesSo library.now id (R.sends remote.old) (R.sends remote.new) result }
    ensures faults { IfErr result IsOrderFault }
    ensures stays { R.peer remote.new ≡ R.peer remote.old }
{
    match ask(alloc, remote, library, What::Update(id)) {
        Ok(reply) => taken(id, reply),
        Err(fault) => Err(fault),
    }
}

/// What the reply to an update tells.
fn taken(id: ObjId, reply: Reply) -> Result<Pushed, SyncFault>
    requires told { IsUpdateReply reply }
    ensures value { TakesSo id reply result }
    ensures faults { IfErr result IsOrderFault }
{
    match reply {
        Reply::Updated(head) => Ok(Pushed::Installed { commit: id, head }),
        Reply::Refused(why) => refused(why),
        _ => unreachable!(),
    }
}

fn refused(why: Refusal) -> Result<Pushed, SyncFault>
    ensures value { RefusesSo why result }
    ensures faults { IfErr result IsOrderFault }
{
    match why {
        Refusal::Stale { last: _, now } => Ok(Pushed::Late { now }),
        other => Err(SyncFault::Refused(other)),
    }
}
