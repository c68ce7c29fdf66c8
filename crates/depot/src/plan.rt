//! What an update that is not refused does.
use ids::{Bytes, KeyTable, ObjId};

/// What an update that is not refused does.
#[derive(Drop)]
pub(crate) struct Plan {
    /// The commit that becomes the head.
    pub head: ObjId,
    /// The directories that are stored before it.
    pub dirs: KeyTable<Bytes>,
    /// The head's text, where it is made here and not stored yet.
    pub text: Option<Bytes>,
}
