//! What a folder in memory notes of a call.
use folder_side::ItemKind;
use ids::Bytes;

/// A call that was made, with its answer where it changes nothing.
#[derive(Drop)]
pub(crate) enum Made {
    Looked(Option<ItemKind>),
    Opened(bool),
    Read(u64, Bytes),
    Compared(bool),
    SpareCleared,
    SpareAdded(u64),
    SpareSynced,
    Moved,
    MadeDir,
    Removed,
}
