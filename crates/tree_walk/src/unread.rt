//! What is left of a file that is read block by block.
ghost use Rattle.std.specs.Prelude.{◌≡◌, ◌↔◌, ◌<◌, ◌≤◌, [], IfOk, IsTrue, true, false, None, Some, length, drop};
ghost use Rattle.ids.specs.Key.{Objects};
ghost use Rattle.object_store.specs.StoreView.{objects_of};
ghost use Rattle.tree_walk.specs.Files.{IsHeld, LoadsSo, blocks_due, Loaded};
ghost use Rattle.tree_walk.specs.Reading.{Reads};

use crate::fault::WalkFault;
use crate::reading::{block_key, bytes_at};
use ids::{Bytes, ObjId};
use object_store::{Shelf, Store};
use std::alloc::Global;

/// What is left of a file: a block, from a place on, and the blocks after it.
#[derive(Drop)]
pub struct Unread<'a> {
    /// Which block is in memory, if one was read.
    pub held: Option<ObjId>,
    pub block: Bytes,
    pub place: usize,
    pub blocks: &'a [ObjId],
}

/// What is left of the block in memory.
pub fn rest<'a>(unread: &'a Unread<'_>) -> &'a [u8]
    ensures value { result.now ≡ drop unread.now.place unread.now.block }
{
    if unread.place < unread.block.len() {
        &unread.block.slice()[unread.place..]
    } else {
        &[]
    }
}

/// Lets the block in memory go, of which nothing is left, and reads the next one, unless that is the one in memory. It tells
/// whether there was one.
pub fn load<S: Shelf>(
    alloc: Global,
    store: &mut Store<S>,
    unread: &mut Unread<'_>,
) -> Result<bool, WalkFault>
    requires ready { length unread.old.block ≤ unread.old.place }
    ensures value { (objects : Objects) → objects_of S.contents store.old ≡ Some objects → IsHeld objects unread.old → blocks_due objects unread.old.blocks.now ≡ None
        → LoadsSo objects unread.old unread.new result }
    ensures told { IfOk result (Loaded unread.old unread.new) }
    ensures stays { Reads S.contents S.may_give S.texts S.faults store.old store.new result }
{
    match unread.blocks.split_first() {
        Some((next, others)) => {
            if is_held(&unread.held, next) {
                unread.place = 0;
                unread.blocks = others;
                return Ok(true);
            }
            unread.block = Bytes::new(alloc);
            unread.block = bytes_at(store, &block_key(next))?;
            unread.held = Some(*next);
            unread.place = 0;
            unread.blocks = others;
            Ok(true)
        }
        None => Ok(false),
    }
}

/// Whether the block in memory is this one.
fn is_held(held: &Option<ObjId>, id: &ObjId) -> bool
    ensures value { IsTrue result ↔ (held.now ≡ Some id.now) }
{
    match held {
        Some(held) => *held == *id,
        None => false,
    }
}
