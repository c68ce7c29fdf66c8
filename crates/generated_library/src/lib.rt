//! A library is filled with generated files, through the calls of a hall: a sequence of numbers gives their lengths and bytes.
//!
//! Shown upward: `fill`, with `Plan`, `Filled` and `NotFilled`. Definitions: specs/Generated.antt (`files_from`, `changed_from`, `tree_of`),
//! specs/Directories.antt (`HasTimes`), specs/Filled.antt (`IsFilled`) and specs/Stopping.antt (`EndsFor`).
//! What a hall answers is sync_calls'. It makes no hall and opens no library.
#![tactic(auto)]

mod asking;
mod directories;
mod filling;
mod numbers;
mod paths;
mod pushing;

pub use crate::asking::NotFilled;
pub use crate::filling::{Filled, Plan, fill};
