//! Reading of the blocks of a file from its text, one after another: no more than one is held as JSON.
ghost use Rattle.std.specs.Prelude.{◌≡◌, ◌≢◌, ◌<◌, length, All, IfOk, IfSome, OnOk};
ghost use Rattle.ids.specs.ObjectId.{nil};
ghost use Rattle.serde_json.specs.Data.{Data, Items};
ghost use Rattle.json_words.specs.Answer.{OnBad};
ghost use Rattle.json_words.specs.Check.{each};
ghost use Rattle.json_words.specs.Fields.{list_of};
ghost use Rattle.json_tokens.specs.Front.{FrontIs, NoFront, ItemsAre, NoItems};
ghost use Rattle.json_words.specs.IdText.{stored_id_in};
ghost use Rattle.fs_objects.specs.File.{block_of};
ghost use Rattle.fs_objects.specs.Reading.{told};

use crate::fault::{BadFs, FsKey};
use ids::{IdList, ObjId};
use json::Reader;
use json_tokens::{kept_value, pass_items};
use json_words::{NotJson, ReadFault, stored_id_in};
use std::alloc::Global;

/// What the items of an array are read as: the ids of blocks, or the first fault and the ids before it.
#[derive(Drop)]
pub struct BlocksRead {
    pub blocks: IdList,
    pub fault: Option<BadFs>,
}

/// The blocks that the items of an array name. The reader stands behind the opening bracket; the closing one is taken.
///
/// The items behind a fault are read over, since the text may still be no JSON. It holds one item at a time. After an
/// error the reader stands anywhere.
pub(crate) fn blocks_behind(
    alloc: Global,
    reader: &mut Reader<'_>,
    depth: usize,
) -> Result<BlocksRead, ReadFault<NotJson>>
    ensures ok { IfOk result (λ read. (ds : Items) × ItemsAre depth reader.old ds reader.new
        × (told read.fault read.blocks ≡ each block_of (list_of ds))) }
    ensures proper { IfOk result (λ read. All (λ id. id ≢ nil) read.blocks) }
    ensures shorter { OnOk result (length reader.new < length reader.old) }
    ensures err { OnBad result (NoItems depth reader.old) }
{
    let mut blocks = IdList::new(alloc);
    'items: while !reader.take_end_array() {
        match next_block(alloc, reader, depth)? {
            Some(id) => blocks.push(id)?,
            None => {
                pass_items(reader, depth)?;
                return Ok(BlocksRead {
                    blocks,
                    fault: Some(BadFs::WrongType(FsKey::KBlockIds)),
                });
            }
        }
    }
    Ok(BlocksRead {
        blocks,
        fault: None,
    })
}

/// The id of a block that the item at the front is, or none where it is no such id.
fn next_block(
    alloc: Global,
    reader: &mut Reader<'_>,
    depth: usize,
) -> Result<Option<ObjId>, ReadFault<NotJson>>
    ensures ok { IfOk result (λ found. (d : Data) × FrontIs depth reader.old d reader.new
        × (found ≡ stored_id_in d)) }
    ensures not_zeros { IfOk result (λ found. IfSome found (λ id. id ≢ nil)) }
    ensures shorter { OnOk result (length reader.new < length reader.old) }
    ensures err { OnBad result (NoFront depth reader.old) }
{
    let item = kept_value(alloc, reader, depth, &[])?;
    Ok(stored_id_in(&item))
}
