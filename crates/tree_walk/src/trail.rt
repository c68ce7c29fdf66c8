//! Where a traversal stands: the names from the root on.
ghost use Rattle.std.specs.Prelude.{◌≡◌, IfOk};
ghost use Rattle.tree_walk.specs.Trail.{names_of};

use std::alloc::{AllocError, Global};
use tree_model::{Name, Path};

/// The names from the root on, each lent by its directory.
#[derive(Drop)]
pub enum Trail<'a> {
    Root,
    Below(&'a Trail<'a>, &'a Name),
}

/// The path of these names.
pub fn path_of(alloc: Global, trail: &Trail<'_>) -> Result<Path, AllocError>
    ensures value { IfOk result (λ path. path ≡ names_of trail.now) }
{
    match trail {
        Trail::Root => Ok(Path::root(alloc)),
        Trail::Below(above, name) => {
            let above = path_of(alloc, above)?;
            above.child(alloc, name)
        }
    }
}
