//! Tests of the client's commands, over a desk in memory whose dial makes no link.
//!
//! They stand apart, since a crate with tests is proved twice. It has no code but its tests and that desk.
#![tactic(auto)]

#[cfg(test)]
mod closed_dial;
#[cfg(test)]
mod command_tests;
#[cfg(test)]
mod kept_text_tests;
#[cfg(test)]
mod memory_desk;
