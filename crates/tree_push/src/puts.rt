//! What is put into the library.
ghost use Rattle.std.specs.Prelude.{◌≡◌, ◌+◌, ◌-◌, ◌^◌, ◌++◌, ◌∷◌, [], IfErr, OnOk, length, min, true};
ghost use Rattle.std.specs.FinMap as map;
ghost use Rattle.std.specs.List.{filter};
ghost use Rattle.sha1.specs.Sha1.{sha1};
ghost use Rattle.tree_push.specs.Asking.{IsFree, IsOrderFault, IsStoredReply, IsUploadWhat, StoresSo, Went, is_asked, is_put, PutsAmong};
ghost use Rattle.tree_push.specs.Lacking.{has_key};
ghost use Rattle.tree_push.specs.Puts.{HasRoom, IsBatch, PutsInto, PutsKeys, PutsMade, PutsSome, row_keys, row_of};
ghost use Rattle.tree_push.specs.SentOnce.{SendsFront};
ghost use Rattle.tree_push.specs.Wanted.{AreOwnNamed};
ghost use Rattle.object_graph.specs.Objects.{block_key};
ghost use Rattle.object_graph.specs.Traversal.{is_in};
ghost use Rattle.sync_rules.specs.Named.{put_by};

use crate::asking::{Library, ask};
use http_front::{Row, What};
use ids::{Bytes, Items, Key, KeyTable, Kind, ObjId};
use library_state::Reply;
use remote_calls::Remote;
use std::alloc::{AllocError, Global};
use std::mem;
use sync_rules::SyncFault;

/// So many bytes has the body of an order that puts files and directories, or it has one alone.
const MOST_BYTES: u64 = 1_048_576;

/// So many bytes has a row of such a body for the length of its object.
const LENGTH_BYTES: u64 = 4;

/// Files and directories that are to be put together, and how many bytes their rows have.
#[derive(Drop)]
struct Batch {
    rows: Items<Row>,
    size: u64,
}

/// Puts the files and directories that are lacking and were made, each under its own name.
///
/// So many are put at once that their order has a body of 1,048,576 bytes at most, or a larger one alone. `Remote` and `Refused` by the last
/// order.
pub fn put_objects<R: Remote>(
    alloc: Global,
    remote: &mut R,
    library: &Library,
    made: &KeyTable<Bytes>,
    lacking: &KeyTable<()>,
) -> Result<(), SyncFault>
    requires named { AreOwnNamed made.now }
    ensures value { Went library.now (PutsAmong (has_key lacking.now)) (PutsMade made.now lacking.now) (R.sends remote.old) (R.sends remote.new) result }
    ensures once { SendsFront [] (filter (has_key made.now) (map.keys lacking.now)) (R.sends remote.old) (R.sends remote.new) }
    ensures faults { IfErr result IsOrderFault }
    ensures stays { R.peer remote.new ≡ R.peer remote.old }
{
    let mut batch = Batch {
        rows: Items::new(alloc),
        size: 0,
    };
    for (key, _) in lacking.iter() {
        match put_object(alloc, remote, library, made, key, &mut batch) {
            Ok(()) => {}
            Err(fault) => return Err(fault),
        }
    }
    put_batch(alloc, remote, library, &mut batch)
}

/// Takes an object, if it was made, into the batch; a batch that is full is put before.
#[tactic(auto, using(crate::proofs::PutsLemmas::put_skipped, crate::proofs::SentOnceLemmas::front_none))]
fn put_object<R: Remote>(
    alloc: Global,
    remote: &mut R,
    library: &Library,
    made: &KeyTable<Bytes>,
    key: &Key,
    batch: &mut Batch,
) -> Result<(), SyncFault>
    requires named { AreOwnNamed made.now }
    requires ready { IsBatch batch.old.rows batch.old.size }
    ensures value { Went library.now (PutsAmong (is_in (row_keys batch.old.rows))) (PutsInto made.now (key.now ∷ []) batch.old.rows batch.new.rows) (R.sends remote.old) (R.sends remote.new) result }
    ensures once { SendsFront [] (row_keys batch.old.rows) (R.sends remote.old) (R.sends remote.new) }
    ensures after { OnOk result (IsBatch batch.new.rows batch.new.size) }
    ensures faults { IfErr result IsOrderFault }
    ensures stays { R.peer remote.new ≡ R.peer remote.old }
{
    let Some(bytes) = made.get(key) else {
        return Ok(());
    };
    let copied = match Bytes::copy(alloc, bytes.slice()) {
        Ok(copied) => copied,
        Err(AllocError) => return Err(SyncFault::NoMemory),
    };
    let size = row_size(&key.id, copied.slice());
    match make_room(alloc, remote, library, size, batch) {
        Ok(()) => add(batch, key.id, copied, size),
        Err(fault) => Err(fault),
    }
}

/// So many bytes has the row of an object, or 2^64 - 1 where that is more.
fn row_size(id: &ObjId, bytes: &[u8]) -> u64
    ensures value { result ≡ min (44 + length bytes.now) (2 ^ 64 - 1) }
    ensures digits { length id.now ≡ 20 }
{
    (bytes.len() as u64).saturating_add(LENGTH_BYTES + 2 * id.as_bytes().len() as u64)
}

/// Takes an object into the batch, whose row has this size.
fn add(batch: &mut Batch, id: ObjId, bytes: Bytes, size: u64) -> Result<(), SyncFault>
    requires ready { IsBatch batch.old.rows batch.old.size }
    requires named { sha1 bytes ≡ id }
    requires digits { length id ≡ 20 }
    requires sized { size ≡ min (44 + length bytes) (2 ^ 64 - 1) }
    requires room { HasRoom batch.old.rows batch.old.size size }
    ensures free { IsFree result }
    ensures faults { IfErr result IsOrderFault }
    ensures ok { OnOk result (batch.new.rows ≡ batch.old.rows ++ row_of id bytes ∷ []) }
    ensures after { OnOk result (IsBatch batch.new.rows batch.new.size) }
{
    batch.size = batch.size.saturating_add(size);
    match batch.rows.push(Row { id, bytes }) {
        Ok(()) => Ok(()),
        Err(AllocError) => Err(SyncFault::NoMemory),
    }
}

/// Puts the batch where a row of so many bytes more would be too many.
#[tactic(auto, using(crate::proofs::PutsLemmas::put_none, crate::proofs::PutsLemmas::room_left, crate::proofs::PutsLemmas::room_after, crate::proofs::SentOnceLemmas::front_none))]
fn make_room<R: Remote>(
    alloc: Global,
    remote: &mut R,
    library: &Library,
    size: u64,
    batch: &mut Batch,
) -> Result<(), SyncFault>
    requires ready { IsBatch batch.old.rows batch.old.size }
    ensures value { Went library.now (PutsAmong (is_in (row_keys batch.old.rows))) (PutsSome batch.old.rows batch.new.rows) (R.sends remote.old) (R.sends remote.new) result }
    ensures once { SendsFront [] (row_keys batch.old.rows) (R.sends remote.old) (R.sends remote.new) }
    ensures after { OnOk result (IsBatch batch.new.rows batch.new.size) }
    ensures room { OnOk result (HasRoom batch.new.rows batch.new.size size) }
    ensures faults { IfErr result IsOrderFault }
    ensures stays { R.peer remote.new ≡ R.peer remote.old }
{
    if batch.size.saturating_add(size) <= MOST_BYTES {
        return Ok(());
    }
    put_batch(alloc, remote, library, batch)
}

/// Puts what the batch has, if it has anything.
#[tactic(auto, using(crate::proofs::PutsLemmas::no_batch, crate::proofs::PutsLemmas::put_none, crate::proofs::PutsLemmas::put_waiting, crate::proofs::PutsLemmas::small_left))]
fn put_batch<R: Remote>(
    alloc: Global,
    remote: &mut R,
    library: &Library,
    batch: &mut Batch,
) -> Result<(), SyncFault>
    requires ready { IsBatch batch.old.rows batch.old.size }
    ensures value { Went library.now (PutsAmong (is_in (row_keys batch.old.rows))) (PutsSome batch.old.rows batch.new.rows) (R.sends remote.old) (R.sends remote.new) result }
    ensures once { SendsFront [] (row_keys batch.old.rows) (R.sends remote.old) (R.sends remote.new) }
    ensures none { batch.new.rows ≡ [] }
    ensures after { IsBatch batch.new.rows batch.new.size }
    ensures faults { IfErr result IsOrderFault }
    ensures stays { R.peer remote.new ≡ R.peer remote.old }
{
    if batch.rows.is_empty() {
        return Ok(());
    }
    let rows = mem::replace(&mut batch.rows, Items::new(alloc));
    batch.size = 0;
    put(alloc, remote, library, What::PutFs(rows))
}

/// Puts a block under its name.
pub fn put_block<R: Remote>(
    alloc: Global,
    remote: &mut R,
    library: &Library,
    id: ObjId,
    bytes: Bytes,
) -> Result<(), SyncFault>
    requires named { sha1 bytes ≡ id }
    ensures value { Went library.now (PutsAmong (is_in (block_key id ∷ []))) (PutsKeys (block_key id ∷ [])) (R.sends remote.old) (R.sends remote.new) result }
    ensures once { SendsFront [] (block_key id ∷ []) (R.sends remote.old) (R.sends remote.new) }
    ensures faults { IfErr result IsOrderFault }
    ensures stays { R.peer remote.new ≡ R.peer remote.old }
{
    let key = Key {
        kind: Kind::Block,
        id,
    };
    put(alloc, remote, library, What::Put(key, bytes))
}

/// Asks that something be stored.
fn put<R: Remote>(
    alloc: Global,
    remote: &mut R,
    library: &Library,
    what: What,
) -> Result<(), SyncFault>
    requires asked { is_asked what ≡ true }
    requires ready { is_put what ≡ true }
    requires named { IsUploadWhat what }
    ensures value { Went library.now (PutsAmong (is_in (put_by what))) (PutsKeys (put_by what)) (R.sends remote.old) (R.sends remote.new) result }
    ensures once { SendsFront [] (put_by what) (R.sends remote.old) (R.sends remote.new) }
    ensures faults { IfErr result IsOrderFault }
    ensures stays { R.peer remote.new ≡ R.peer remote.old }
{
    match ask(alloc, remote, library, what) {
        Ok(reply) => stored(reply),
        Err(fault) => Err(fault),
    }
}

/// What was to be stored is, or it was refused.
pub(crate) fn stored(reply: Reply) -> Result<(), SyncFault>
    requires told { IsStoredReply reply }
    ensures value { StoresSo reply result }
{
    match reply {
        Reply::Stored(_) => Ok(()),
        Reply::Refused(why) => Err(SyncFault::Refused(why)),
        _ => unreachable!(),
    }
}
