//! What the shelf of a library stands for as each of its calls returns, a refused one too, and what comes of it as it is opened
//! again: theorems on the definitions.
//!
//! Shown upward: the theorems of `laws`, and in `calls` the calls of a depot by which a library is made, opened and given a token,
//! with what the theorems take of them. Definitions: `specs/Stops.antt`, then `specs/Reopening.antt`.
#![tactic(auto)]

pub mod calls;
pub mod laws;
