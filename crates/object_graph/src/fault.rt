//! What is wrong with a tree of objects.
use ids::{Key, ObjId};
use tree_model::Path;

/// The first thing that is wrong with a commit or a tree, in the order of a depth-first traversal.
#[derive(Debug, PartialEq, Eq, Drop)]
pub enum TreeFault {
    /// No object is stored under this key.
    Incomplete(Key),
    /// The bytes under this key are no object of their grammar, or a commit of another name.
    Unreadable(Key),
    /// This object is a file where a directory is told, or a directory where a file is told.
    WrongKind(ObjId),
    /// The size that this file object tells isn't the number of the bytes of its blocks.
    WrongSize(ObjId),
    /// This path has more than 100 names.
    TooDeep(Path),
    /// There are more than 1,000,000 paths: so many were counted.
    TooMany(u64),
}
