//! Ids that are to be among those that were asked for.
ghost use Rattle.std.specs.Prelude.{◌≡◌, ℕ, List, IfOk};
ghost use Rattle.http_client.specs.AskedIds.{KnowsIds, block_key};
ghost use Rattle.http_client.specs.OrderOutcome.{are_among, is_among};

use ids::{Key, KeyTable, Kind, ObjId};
use std::alloc::{AllocError, Global};

/// Whether each of the ids is among those that were asked for. The time is that of a search in a table for each id.
pub(crate) fn are_among(alloc: Global, asked: &[ObjId], ids: &[ObjId]) -> Result<bool, AllocError>
    ensures value { IfOk result (λ all. all ≡ are_among asked.now ids.now) }
{
    let known = table_of(alloc, asked)?;
    Ok(are_known(asked, &known, ids))
}

/// The table of some ids.
fn table_of(alloc: Global, asked: &[ObjId]) -> Result<KeyTable<()>, AllocError>
    ensures value { IfOk result (KnowsIds asked.now) }
{
    let mut known = KeyTable::new(alloc);
    for id in asked {
        known.put(block_key(id), ())?;
    }
    Ok(known)
}

/// The key that stands for an id in the table.
fn block_key(id: &ObjId) -> Key
    ensures value { result ≡ block_key id.now }
{
    Key {
        kind: Kind::Block,
        id: *id,
    }
}

/// Whether the table knows each of the ids.
fn are_known(asked: &[ObjId], known: &KeyTable<()>, ids: &[ObjId]) -> bool
    requires known { KnowsIds asked.now known.now }
    ensures value { result ≡ are_among asked.now ids.now }
{
    for id in ids {
        if !is_known(known, id) {
            return false;
        }
    }
    true
}

/// Whether the table knows the id.
#[tactic(none)]
fn is_known(known: &KeyTable<()>, id: &ObjId) -> bool
    ensures value { (asked : List (List ℕ)) → KnowsIds asked known.now → result ≡ is_among asked id.now }
{
    known.has(&block_key(id))
}
