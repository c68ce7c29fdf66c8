//! A collection that is asked for, of a library that nobody else asks: turn after turn, up to its end or a refusal.
//!
//! Shown upward: `collect`, and `Collectable`, of what it takes its turns. Definition: `specs/Turns.antt`. What one turn does stands in
//! `depot`. How a hall that many ask collects stands in `sync_calls`.
#![tactic(auto)]

mod collectable;
mod collecting;

pub use crate::collectable::Collectable;
pub use crate::collecting::collect;
