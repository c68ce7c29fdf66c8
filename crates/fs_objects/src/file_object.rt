//! File objects: the blocks of a file's bytes.
use ids::IdList;

/// A file: its blocks in order, and the number of its bytes.
#[derive(Drop)]
pub struct FileObject {
    pub blocks: IdList,
    pub size: u64,
}
