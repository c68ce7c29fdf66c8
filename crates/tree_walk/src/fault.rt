//! Why a commit, a tree or a file could not be read from a store.
use ids::{Key, ObjId};
use object_store::StoreFault;
use std::alloc::AllocError;
use tree_model::Path;

/// The first thing that is wrong, in the order of the traversal, or a failure of the store.
#[derive(Debug, PartialEq, Eq, Drop)]
pub enum WalkFault {
    /// No object is stored under this key.
    Incomplete(Key),
    /// The bytes under this key are no object of their grammar, or a commit of another name.
    Unreadable(Key),
    /// This object is a file where a directory is told, or a directory where a file is told.
    WrongKind(ObjId),
    /// The size that this file object tells isn't the number of the bytes of its blocks.
    WrongSize(ObjId),
    /// This path has more than 100 names.
    TooDeep(Path),
    /// There are more than 1,000,000 paths: so many were counted.
    TooMany(u64),
    /// The store failed, by its `Damaged`, `Shelf` or `NoMemory`.
    Store(StoreFault),
}

impl From<AllocError> for WalkFault {
    ghost use Rattle.std.specs.Prelude.{◌≡◌};
    ghost use Rattle.object_store.specs.declared.error.StoreFault.{StoreFault};
    ghost use Rattle.object_store.specs.declared.error.StoreFault.TheVariants.{NoMemory};
    ghost use Rattle.tree_walk.specs.declared.fault.WalkFault.{WalkFault};

    ghost from_gives = { λ _ r. r ≡ WalkFault.Store NoMemory };

    fn from(_fault: AllocError) -> WalkFault {
        WalkFault::Store(StoreFault::NoMemory)
    }
}
