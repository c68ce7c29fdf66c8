//! What a scan of a folder finds.

use ids::{IdList, Items};
use tree_model::{Path, PathTable};

/// What a scan saw at a path.
#[derive(Debug, Drop)]
pub enum Seen {
    Dir,
    /// A file: the names of its chunks, in order, and its length in bytes.
    File { blocks: IdList, size: u64 },
}

/// What a scan found: what stands at each path, the paths of other entries, and the directories with
/// entries that have no good name, both in byte order of path.
#[derive(Drop)]
pub struct Scan {
    pub paths: PathTable<Seen>,
    pub skipped: Items<Path>,
    pub nameless: Items<Path>,
}
