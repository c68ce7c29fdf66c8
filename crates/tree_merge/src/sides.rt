//! What the three trees of a merge have at a path.
use object_graph::Entry;

/// What the three trees have at one path, at which at least one of them has something.
#[derive(Drop)]
pub(crate) struct Three {
    pub base: Option<Entry>,
    pub head: Option<Entry>,
    pub pushed: Option<Entry>,
}
