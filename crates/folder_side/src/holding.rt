//! What stands at a path of a folder.

use ids::Bytes;

/// What stands at a path of a folder.
#[derive(Debug, Drop)]
pub enum Holding {
    Dir,
    File(Bytes),
    /// Neither a directory nor a plain file, such as a symbolic link.
    Other,
}
