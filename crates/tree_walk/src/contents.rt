//! The contents of files.
ghost use Rattle.std.specs.Prelude.{◌≡◌, ◌↔◌, ◌<◌, ◌+◌, IfOk, IfSome, IsTrue, None, Some, length, min};
ghost use Rattle.ids.specs.Key.{Objects};
ghost use Rattle.object_graph.specs.Objects.{contents_of, joined, same_id};
ghost use Rattle.object_graph.specs.Traversal.{start, walk_file_at};
ghost use Rattle.object_store.specs.StoreView.{objects_of};
ghost use Rattle.tree_walk.specs.Files.{AreReady, Fronts, HaveSameNext, Lighter, StepsSo, blocks_due, files_due};
ghost use Rattle.tree_walk.specs.Reading.{Answers, Reads};

use crate::fault::WalkFault;
use crate::file::whole_file_at;
use crate::reading::{block_key, bytes_at};
use crate::unread::{Unread, load, rest};
use ids::{Bytes, ObjId};
use object_store::{Shelf, Store};
use std::alloc::Global;

/// The bytes of a file. Forty zeros are the empty file.
///
/// The first fault of the file's traversal is answered, its size among them.
pub fn file_bytes<S: Shelf>(
    alloc: Global,
    store: &mut Store<S>,
    id: ObjId,
) -> Result<Bytes, WalkFault>
    ensures value { (objects : Objects) → objects_of S.contents store.old ≡ Some objects
        → Answers objects (walk_file_at objects id start).fault (λ bytes. bytes ≡ contents_of objects id) result }
    ensures stays { Reads S.contents S.may_give S.texts S.faults store.old store.new result }
{
    let file = whole_file_at(alloc, store, &id)?;
    join(alloc, store, file.blocks.slice())
}

/// The bytes of blocks, joined in order.
fn join<S: Shelf>(alloc: Global, store: &mut Store<S>, blocks: &[ObjId]) -> Result<Bytes, WalkFault>
    ensures value { (objects : Objects) → objects_of S.contents store.old ≡ Some objects
        → Answers objects (blocks_due objects blocks.now) (λ bytes. bytes ≡ joined objects blocks.now) result }
    ensures stays { Reads S.contents S.may_give S.texts S.faults store.old store.new result }
{
    let mut bytes = Vec::new(alloc);
    for block in blocks {
        let next = match bytes_at(store, &block_key(block)) {
            Ok(next) => next,
            Err(fault) => return Err(fault),
        };
        bytes.extend_from_slice(next.slice())?;
    }
    Ok(Bytes::from_vec(bytes))
}

/// Whether two files have the same bytes. At most one block of each is in memory.
///
/// The first fault of the left file's traversal is answered, and then that of the right one's. No block is read where their
/// sizes differ, or where both list the same blocks.
pub fn same_file<S: Shelf>(
    alloc: Global,
    store: &mut Store<S>,
    left: ObjId,
    right: ObjId,
) -> Result<bool, WalkFault>
    ensures value { (objects : Objects) → objects_of S.contents store.old ≡ Some objects
        → Answers objects (files_due objects left right) (λ same. same ≡ same_id (contents_of objects left) (contents_of objects right)) result }
    ensures stays { Reads S.contents S.may_give S.texts S.faults store.old store.new result }
{
    let left_file = whole_file_at(alloc, store, &left)?;
    let right_file = match whole_file_at(alloc, store, &right) {
        Ok(file) => file,
        Err(fault) => return Err(fault),
    };
    if left_file.size != right_file.size {
        return Ok(false);
    }
    let left_blocks = left_file.blocks.slice();
    let right_blocks = right_file.blocks.slice();
    if are_one(left_blocks, right_blocks) {
        return Ok(true);
    }
    same_blocks(alloc, store, left_blocks, right_blocks)
}

/// Whether two lists have the same ids in the same order.
pub(crate) fn are_one(left: &[ObjId], right: &[ObjId]) -> bool
    ensures value { IsTrue result ↔ (left.now ≡ right.now) }
{
    left == right
}

/// Whether blocks that are stored have the same bytes joined, where they have as many.
fn same_blocks<S: Shelf>(
    alloc: Global,
    store: &mut Store<S>,
    left: &[ObjId],
    right: &[ObjId],
) -> Result<bool, WalkFault>
    ensures value { (objects : Objects) → objects_of S.contents store.old ≡ Some objects → blocks_due objects left.now ≡ None → blocks_due objects right.now ≡ None
        → length (joined objects left.now) ≡ length (joined objects right.now)
        → Answers objects None (λ same. same ≡ same_id (joined objects left.now) (joined objects right.now)) result }
    ensures stays { Reads S.contents S.may_give S.texts S.faults store.old store.new result }
{
    let mut left = Unread {
        held: None,
        block: Bytes::new(alloc),
        place: 0,
        blocks: left,
    };
    let mut right = Unread {
        held: None,
        block: Bytes::new(alloc),
        place: 0,
        blocks: right,
    };
    loop {
        match step(alloc, store, &mut left, &mut right)? {
            Some(same) => return Ok(same),
            None => {}
        }
    }
}

/// One step of a comparison: the next block is passed over, which is the same of both; or a block is read into memory; or what
/// is in memory of both is compared.
fn step<S: Shelf>(
    alloc: Global,
    store: &mut Store<S>,
    left: &mut Unread<'_>,
    right: &mut Unread<'_>,
) -> Result<Option<bool>, WalkFault>
    ensures value { (objects : Objects) → objects_of S.contents store.old ≡ Some objects → AreReady objects left.old right.old
        → StepsSo objects left.old right.old left.new right.new result }
    ensures bound { IfOk result (Lighter left.old right.old left.new right.new) }
    ensures stays { Reads S.contents S.may_give S.texts S.faults store.old store.new result }
{
    if let Some((left_rest, right_rest)) = after_same_block(left, right) {
        left.blocks = left_rest;
        right.blocks = right_rest;
        return Ok(None);
    }
    if left.place >= left.block.len() {
        return match load(alloc, store, left)? {
            true => Ok(None),
            false => Ok(Some(true)),
        };
    }
    if right.place >= right.block.len() {
        return match load(alloc, store, right)? {
            true => Ok(None),
            false => Ok(Some(false)),
        };
    }
    match same_front(rest(left), rest(right)) {
        Some(count) => {
            left.place += count;
            right.place += count;
            Ok(None)
        }
        None => Ok(Some(false)),
    }
}

/// The blocks after the next one of both, where nothing is left in memory of either, and the next block is the same.
fn after_same_block<'a, 'b>(
    left: &Unread<'a>,
    right: &Unread<'b>,
) -> Option<(&'a [ObjId], &'b [ObjId])>
    ensures value { IfSome result (λ rests. HaveSameNext left.now right.now rests.0.now rests.1.now) }
{
    if left.place < left.block.len() {
        return None;
    }
    if right.place < right.block.len() {
        return None;
    }
    match (left.blocks.split_first(), right.blocks.split_first()) {
        (Some((one, left_rest)), Some((other, right_rest))) => if *one == *other {
            Some((left_rest, right_rest))
        } else {
            None
        },
        _ => None,
    }
}

/// The number of bytes that both have, if those are the same at the front of both.
fn same_front(left: &[u8], right: &[u8]) -> Option<usize>
    ensures value { Fronts left.now right.now result }
{
    let count = left.len().min(right.len());
    if left[..count] == right[..count] {
        Some(count)
    } else {
        None
    }
}
