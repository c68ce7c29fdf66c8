//! What a sync did.
use ids::{Items, ObjId};
use tree_model::Path;

/// What a sync did.
#[derive(Debug, Drop)]
pub struct Synced {
    /// The commit whose tree the folder holds now.
    pub head: ObjId,
    /// The commit that was made of the folder, where it had changed.
    pub pushed: Option<ObjId>,
    /// Whether the head is another commit than the one that was pushed, and tells a conflict.
    pub conflict: bool,
    /// How many files were moved in.
    pub written: u64,
    /// How many paths were removed.
    pub removed: u64,
    /// What the last scan passed over: what is neither a file nor a directory.
    pub skipped: Items<Path>,
    /// The directories that the tree lacks and that can't be removed.
    pub held: Items<Path>,
}
