//! What an entry of a directory is, by its mode.
ghost use Rattle.std.specs.Prelude.{◌≡◌, IfOk};
ghost use Rattle.object_graph.specs.Objects.{entry_of};

use fs_objects::{Dirent, is_directory_mode};
use ids::Text;
use object_graph::Entry;
use std::alloc::{AllocError, Global};

/// What a directory tells of one of its entries.
pub fn entry_of(alloc: Global, entry: &Dirent) -> Result<Entry, AllocError>
    ensures value { IfOk result (λ told. told ≡ entry_of entry.now) }
{
    if is_directory_mode(entry.mode) {
        return Ok(Entry::Dir);
    }
    let modifier = Text::copy(alloc, entry.modifier.slice())?;
    Ok(Entry::File {
        id: entry.id,
        mode: entry.mode,
        mtime: entry.mtime,
        modifier,
        size: entry.size,
    })
}
