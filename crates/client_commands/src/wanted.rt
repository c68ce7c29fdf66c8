//! What a sync wants of a folder.

/// Whether a sync wants a folder without a file and a directory, as that of `download` does.
#[derive(Clone, Copy, Debug, PartialEq, Eq)]
pub enum Wanted {
    /// Any folder will do.
    Any,
    /// The folder has no entry that is synced.
    Empty,
}
