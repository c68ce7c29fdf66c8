//! The id of a file by this project's cuts.
ghost use Rattle.std.specs.Prelude.{◌≡◌, IfOk};
ghost use Rattle.local_index.specs.OwnIds.{own_id};

use fs_objects::{FileObject, FsObject};
use ids::{Items, ObjId};
use std::alloc::{AllocError, Global};

/// The id of the file object of these blocks and this size; forty zeros where the file has no bytes.
pub fn own_id(alloc: Global, blocks: &[ObjId], size: u64) -> Result<ObjId, AllocError>
    ensures value { IfOk result (λ id. id ≡ own_id blocks.now size) }
{
    if size == 0 {
        return Ok(ObjId::NIL);
    }
    let object = FsObject::File(FileObject {
        blocks: Items::copy(alloc, blocks)?,
        size,
    });
    let text = object.write(alloc)?;
    Ok(ObjId::of(text.slice()))
}
