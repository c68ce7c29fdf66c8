//! Whether a put stored something.

/// Whether a put stored something.
#[derive(Clone, Copy, Debug, PartialEq, Eq)]
pub enum Put {
    /// The object is stored now and was not before.
    New,
    /// The same object was stored already.
    Same,
}
