//! The names of conflict copies: the stem, who changed the file and when, a number, and the extension.
//!
//! Shown upward: `ext_at`, `conflict_name`, the theorem of `laws`, and the definitions of `specs/`.
//! It knows names and no trees: who leaves a name, and which number is free, `tree_model` defines.
#![tactic(auto)]

mod civil_time;
pub mod laws;
mod naming;

pub use naming::{ConflictFault, conflict_name, ext_at};
