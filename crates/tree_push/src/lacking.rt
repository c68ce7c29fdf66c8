//! What the library lacks.
ghost use Rattle.std.specs.Prelude.{◌≡◌, ◌≤◌, [], IfErr, IfOk, length, map as list_map, true};
ghost use Rattle.std.specs.FinMap as map;
ghost use Rattle.folder_side.specs.declared.folder.Ahead.TheVariants.{Blocks};
ghost use Rattle.sync_rules.specs.Orders.{most_asked};
ghost use Rattle.tree_push.specs.Asking.{AsksAmong, IsAbsentReply, IsOrderFault, Went, is_listed, key_of};
ghost use Rattle.tree_push.specs.Lacking.{AsksNoting, NotesIds, NotesSo};
ghost use Rattle.tree_push.specs.SentOnce.{SendsFront};
ghost use Rattle.tree_push.specs.Wanted.{ids_in};

use crate::asking::{Library, ask};
use folder_side::Ahead;
use http_front::What;
use ids::{IdList, Key, KeyTable, Kind, ObjId};
use library_state::Reply;
use remote_calls::Remote;
use std::alloc::{AllocError, Global};
use sync_rules::SyncFault;

/// The most ids that are asked for at once.
const MOST_ASKED: usize = 10_000;

/// Asks which of these ids of files and directories, or of blocks, name nothing, in lists of at most 10,000, and notes those.
///
/// `Remote` and `Refused` by the last order. After an error some may be noted.
pub fn ask_lacking<R: Remote>(
    alloc: Global,
    remote: &mut R,
    library: &Library,
    kind: Kind,
    ids: &[ObjId],
    lacking: &mut KeyTable<()>,
) -> Result<(), SyncFault>
    requires listed { is_listed kind ≡ true }
    ensures value { Went library.now (AsksAmong kind ids.now) (AsksNoting library.now kind ids.now lacking.old lacking.new) (R.sends remote.old) (R.sends remote.new) result }
    ensures once { SendsFront (list_map (key_of kind) ids.now) [] (R.sends remote.old) (R.sends remote.new) }
    ensures faults { IfErr result IsOrderFault }
    ensures stays { R.peer remote.new ≡ R.peer remote.old }
{
    let mut left = ids;
    while !left.is_empty() {
        let count = left.len().min(MOST_ASKED);
        let (first, rest) = left.split_at(count);
        match ask_list(alloc, remote, library, kind, first, lacking) {
            Ok(()) => {}
            Err(fault) => return Err(fault),
        }
        left = rest;
    }
    Ok(())
}

/// The same of one list.
fn ask_list<R: Remote>(
    alloc: Global,
    remote: &mut R,
    library: &Library,
    kind: Kind,
    ids: &[ObjId],
    lacking: &mut KeyTable<()>,
) -> Result<(), SyncFault>
    requires listed { is_listed kind ≡ true }
    requires few { length ids.now ≤ most_asked }
    ensures value { Went library.now (AsksAmong kind ids.now) (AsksNoting library.now kind ids.now lacking.old lacking.new) (R.sends remote.old) (R.sends remote.new) result }
    ensures once { SendsFront (list_map (key_of kind) ids.now) [] (R.sends remote.old) (R.sends remote.new) }
    ensures faults { IfErr result IsOrderFault }
    ensures stays { R.peer remote.new ≡ R.peer remote.old }
{
    let asked = match IdList::copy(alloc, ids) {
        Ok(asked) => asked,
        Err(AllocError) => return Err(SyncFault::NoMemory),
    };
    match ask(alloc, remote, library, What::Missing(kind, asked)) {
        Ok(reply) => note(kind, reply, lacking),
        Err(fault) => Err(fault),
    }
}

/// Notes the ids that a reply tells.
fn note(kind: Kind, reply: Reply, lacking: &mut KeyTable<()>) -> Result<(), SyncFault>
    requires told { IsAbsentReply reply }
    ensures value { NotesSo kind reply lacking.old lacking.new result }
    ensures faults { IfErr result IsOrderFault }
{
    match reply {
        Reply::Absent(ids) => note_ids(kind, ids.slice(), lacking),
        Reply::Refused(why) => Err(SyncFault::Refused(why)),
        _ => unreachable!(),
    }
}

/// Notes these ids.
fn note_ids(kind: Kind, ids: &[ObjId], lacking: &mut KeyTable<()>) -> Result<(), SyncFault>
    ensures value { NotesIds kind ids.now lacking.old lacking.new result }
    ensures faults { IfErr result IsOrderFault }
{
    for id in ids {
        match lacking.put(Key { kind, id: *id }, ()) {
            Ok(()) => {}
            Err(AllocError) => return Err(SyncFault::NoMemory),
        }
    }
    Ok(())
}

/// The ids of a table's keys, in order.
pub fn ids_of<V>(alloc: Global, table: &KeyTable<V>) -> Result<IdList, AllocError>
    ensures value { IfOk result (λ ids. ids ≡ ids_in (map.entries table.now)) }
{
    let mut ids = IdList::new(alloc);
    for (key, _) in table.iter() {
        ids.push(key.id)?;
    }
    Ok(ids)
}

/// How many blocks are left to be put, for who looks on.
pub(crate) fn blocks_ahead(lacking: &KeyTable<()>) -> Ahead
    ensures value { result ≡ Blocks (map.len lacking.now) }
{
    Ahead::Blocks(lacking.len() as u64)
}
