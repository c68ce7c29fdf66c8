//! Entries of directory objects.
use ids::{ObjId, Text};
use tree_model::Name;

/// An entry of a directory: a file or a directory, by the type in its mode.
///
/// A directory's modifier is empty and its size 0.
#[derive(Drop)]
pub struct Dirent {
    pub name: Name,
    /// The file or directory object; forty zeros for an empty one.
    pub id: ObjId,
    pub mode: u32,
    /// When it was changed, in seconds since 1970-01-01 UTC.
    pub mtime: i64,
    /// Who changed the file last.
    pub modifier: Text,
    /// The number of the file's bytes.
    pub size: u64,
}
