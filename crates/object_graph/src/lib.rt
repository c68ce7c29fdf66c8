//! What stored objects stand for: files and trees; which objects a commit needs, and the first thing that is wrong with it.
//!
//! Shown upward: `Entry`, `TreeFault`, the theorems of `laws`, and the definitions of `specs/`: read Objects, then
//! Traversal. It reads no bytes and knows no store.
#![tactic(auto)]

mod entry;
mod fault;
pub mod laws;

pub use crate::entry::Entry;
pub use crate::fault::TreeFault;
