//! What stands at a path of a tree.
use ids::{Bytes, Text};

/// One version of a file: its bytes, with what its directory says of it.
#[derive(Debug, Drop)]
pub struct FileVersion {
    /// Unix file mode.
    pub mode: u32,
    /// When it was last changed, in seconds since 1970-01-01 UTC.
    pub mtime: i64,
    /// Who changed it last.
    pub modifier: Text,
    pub bytes: Bytes,
}

/// A directory, or a file in one version.
#[derive(Debug, Drop)]
pub enum Node {
    Dir,
    File(FileVersion),
}
