//! Tests of the client's side, over the public calls of the crates below alone.
//!
//! They stand apart, since a crate with tests is proved twice. It has no code but its tests.
#![tactic(auto)]

#[cfg(test)]
mod desk_tests;
#[cfg(test)]
mod orders;
#[cfg(test)]
mod remote_tests;
#[cfg(test)]
mod reply_tests;
#[cfg(test)]
mod request_tests;
