//! What stands at a path of a tree, with the object's id in the place of a file's bytes.
use ids::{ObjId, Text};

/// A directory, or a file as its directory tells it.
#[derive(Debug, Drop)]
pub enum Entry {
    Dir,
    File {
        /// The file object; forty zeros for an empty file.
        id: ObjId,
        /// Unix file mode.
        mode: u32,
        /// When it was changed, in seconds since 1970-01-01 UTC.
        mtime: i64,
        /// Who changed it last.
        modifier: Text,
        /// The number of bytes that the directory tells. It is compared with nothing.
        size: u64,
    },
}
