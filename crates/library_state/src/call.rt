//! What is asked of a library.
use crate::secret::Secret;
use ids::{Bytes, IdList, Key, Kind, ObjId};

/// A call of a library: who asks, and for what.
#[derive(Debug, Drop)]
pub struct Call {
    /// The secret of the one who asks, if the request had one.
    pub secret: Option<Secret>,
    /// What is asked.
    pub act: Act,
}

/// What a call asks for. The calls are Seafile's sync calls; `Limit` is our own.
#[derive(Debug, Drop)]
pub enum Act {
    /// Whether the one who asks may do this.
    Check(Op),
    /// The commit that the library stands at.
    Head,
    /// The bytes that are stored under a key.
    Get(Key),
    /// That the bytes be stored under a key.
    Put(Key, Bytes),
    /// Which of these ids name nothing that is stored as this kind.
    Missing(Kind, IdList),
    /// That the library take in this commit and stand at it, or at its merge with what it stands at.
    Update(ObjId),
    /// That history be kept for so many days: -1 for all of it, else 0 to 36,500.
    Limit(i64),
    /// The file and directory objects that the first commit needs and the second, if there is one, does not.
    Ids(ObjId, Option<ObjId>),
}

/// What one may be about to do with a library.
#[derive(Clone, Copy, Debug, PartialEq, Eq)]
pub enum Op {
    /// To put objects and update the head.
    Upload,
    /// To get objects.
    Download,
}
