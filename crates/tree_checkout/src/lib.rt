//! Brings a folder to a tree, by a plan of steps: what the tree lacks is removed, then directories are made and files are moved
//! in, each got block by block into the spare.
//!
//! Shown upward: `plan_of` with `Plan`, `Due`, `DueNode`; `checkout` with `Source`, `Write`, `WriteNode`, `TreeFile`; and `laws`.
//! Definitions: specs/Planning.antt, specs/Steps.antt, specs/CheckingOut.antt. It asks a library for blocks alone.
#![tactic(auto)]

mod block_gets;
mod checking_out;
mod fault;
mod hidden;
mod hindrances;
pub mod laws;
mod planning;
mod second_look;
mod steps;
mod writing;

pub use block_gets::Source;
pub use checking_out::checkout;
pub use planning::{Due, DueNode, Plan, plan_of};
pub use steps::{Write, WriteNode};
pub use writing::TreeFile;
