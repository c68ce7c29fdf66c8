//! Names, paths and trees: what a library holds, without object ids.
//!
//! Shown upward: `Name`, `Path`, `PathTable`, the theorems of `laws`, and the definitions of `specs/`.
//! It knows no ids, no bytes of objects and no calendar.
#![tactic(auto)]

pub mod laws;
mod limits;
mod name;
mod node;
mod path;
mod path_table;

pub use limits::{MAX_NAME, MAX_NAMES, MAX_PATHS};
pub use name::{BadName, Name, NameFault};
pub use node::{FileVersion, Node};
pub use path::Path;
pub use path_table::PathTable;
