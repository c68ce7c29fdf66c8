//! Syncs a folder with a library: once, or several folders turn after turn.
//!
//! Shown upward: `sync_once`, `run_turns` with `Job`. Definitions: specs/Syncing.antt, over those of `sync_rules`; what stands
//! between the steps: specs/Going.antt, specs/Rounds.antt. It reads no index text and makes no link.
#![tactic(auto)]

mod asking;
mod bringing;
mod finishing;
mod interrupted_checkout;
mod joining;
mod known_entries;
mod own_head;
mod round;
mod scanning;
mod seen_folder;
mod syncing;
mod tree_writes;
mod turns;

pub use syncing::sync_once;
pub use turns::{Job, run_turns};
