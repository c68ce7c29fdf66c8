//! What a collection may remove: what its commits need is marked, object by object, and the rest is given up in turns.
//!
//! Shown upward: `Marks` with `begin`, `mark`, `sweep`, `shield` and `phase`, `Swept`, `Phase`; `unshared`, what one tree
//! needs beside another; and the theorems of `laws`. Definitions: specs/, read Marks, then Marking, Sweeping and Collecting.
//! It writes no state text and answers no call: when a turn is due, its caller says.
#![tactic(auto)]

mod compared;
mod comparing;
pub mod laws;
mod marking;
mod marks;
mod naming;
mod sweeping;
mod worklist;

pub use crate::comparing::unshared;
pub use crate::marks::{Marks, Phase};
pub use crate::sweeping::Swept;
