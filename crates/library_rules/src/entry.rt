//! What stands in the history of a library: the calls and the steps of collections that changed it.
use ids::{Bytes, Items, Key, KeyList};
use library_state::{Call, Reply};

/// One change of a library.
#[derive(Debug, Drop)]
pub struct Entry {
    /// What changed it.
    pub step: Step,
    /// When, in seconds since 1970-01-01 UTC.
    pub moment: u64,
    /// The answer; of a collection's step that was not refused `Reply::Checked`.
    pub reply: Reply,
    /// The objects that are stored since, in the order in which they were put.
    pub added: Items<Stored>,
    /// The keys whose objects are gone since.
    pub removed: KeyList,
    /// The count of the storage's faults since.
    pub faults: u64,
}

/// What can change a library.
#[derive(Debug, Drop)]
pub enum Step {
    /// A call.
    Asked(Call),
    /// A collection began.
    Began,
    /// A part of a collection: the objects that it removed, if any, are those that the entry names.
    Swept,
    /// The collection ended.
    Ended,
}

/// An object as it was put.
#[derive(Debug, Drop)]
pub struct Stored {
    pub key: Key,
    pub bytes: Bytes,
}
