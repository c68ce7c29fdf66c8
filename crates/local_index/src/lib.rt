//! The local index of a sync: what was synced last, as a text on disk, and what a scan finds changed since.
//!
//! Shown upward: `Index` with its reader and writer, `changes`, and `own_id`, the id that this project's cuts give a
//! file. Definitions: `specs/IndexText.antt`, `specs/IndexSpelling.antt`, `specs/ScanChanges.antt`.
//! It reads no folder and no library.
#![tactic(auto)]

mod entry_reading;
mod fault;
mod index;
mod index_reading;
mod index_writing;
mod own_ids;
mod scan_changes;

pub use fault::{IndexFault, IndexKey};
pub use index::{Index, Known};
pub use own_ids::own_id;
pub use scan_changes::{Change, ChangeKind, changes};
