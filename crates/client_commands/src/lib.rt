//! What the commands of `seaf-cli` do.
//!
//! Shown upward: `cli`, the client's top call, over any desk, clock and sink; `laws`. Definitions: specs/.
#![tactic(auto)]

mod commands;
mod dialled_server;
mod folders;
mod job_syncs;
mod kept_syncs;
pub mod laws;
mod printing;
mod running;
mod starting;
mod statuses;
mod sync_faults;
mod wanted;
mod worktrees;

pub use crate::running::cli;
pub use crate::wanted::Wanted;
