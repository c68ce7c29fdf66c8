//! Tags, by which a client tells the state that it has seen.

/// A state of a library: which time it was opened, and how many changes were made since.
#[derive(Clone, Copy, Debug, PartialEq, Eq)]
pub struct Tag {
    /// The opening number, which rises each time that the library is opened.
    pub opening: u64,
    /// The number of changes since then.
    pub count: u64,
}
