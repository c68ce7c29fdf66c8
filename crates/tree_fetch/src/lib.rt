//! Getting a commit, and the whole tree of a root, from a library.
//!
//! Shown upward: `Asker`, `ask`, `fetch_commit`, `fetch_tree`, `FetchedTree`, `FetchedObjects`. Definitions:
//! specs/Fetching.antt. It decides nothing of a sync.
#![tactic(auto)]

mod asker;
mod commit;
mod fetched;
mod levels;
mod list;
mod told;
mod tree;

pub use crate::asker::{Asker, ask};
pub use crate::commit::fetch_commit;
pub use crate::fetched::FetchedObjects;
pub use crate::tree::{FetchedTree, fetch_tree};
