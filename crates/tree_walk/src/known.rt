//! Tables of keys that are known.
ghost use Rattle.std.specs.Prelude.{IfOk};
ghost use Rattle.tree_walk.specs.Known.{Knows};

use ids::{Key, KeyTable};
use std::alloc::{AllocError, Global};

/// The table of some keys.
pub fn table_of(alloc: Global, keys: &[Key]) -> Result<KeyTable<()>, AllocError>
    ensures value { IfOk result (Knows keys.now) }
{
    let mut known = KeyTable::new(alloc);
    for key in keys {
        known.put(*key, ())?;
    }
    Ok(known)
}
