//! Commits: their one grammar, read, made and written exactly.
//!
//! Shown upward: `Commit` with `read`, `make` and `write`, and the faults.
//! Definitions: `specs/Commit.antt` (`commit_of`), `specs/Spelling.antt` (`text_of`), `specs/Made.antt` (`made`).
//! It stores nothing and follows no parent.
#![tactic(auto)]

mod commit;
mod fault;
mod fields;
mod reading;
mod writing;

pub use crate::commit::Commit;
pub use crate::fault::{BadCommit, CommitFault, CommitKey};
