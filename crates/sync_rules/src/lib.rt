//! What one sync of a folder with a library is to leave, in definitions and laws.
//!
//! Shown upward: `Synced`, `SyncFault`, and laws.rt. Definitions: specs/Synced.antt. It syncs nothing itself.
#![tactic(auto)]

mod fault;
pub mod laws;
mod synced;

pub use fault::SyncFault;
pub use synced::Synced;
