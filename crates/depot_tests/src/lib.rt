//! Tests of a library over the depot's public calls alone, what no scenario over the built program can show: collections in
//! turns, and what a stop at any call of the shelf leaves.
//!
//! They stand apart, since a crate with tests is proved twice. It has no code but its tests.
#![tactic(auto)]

#[cfg(test)]
mod calls;
#[cfg(test)]
mod cost_tests;
#[cfg(test)]
mod fault_tests;
#[cfg(test)]
mod law_tests;
#[cfg(test)]
mod library;
#[cfg(test)]
mod make_stop_tests;
#[cfg(test)]
mod objects;
#[cfg(test)]
mod stop_tests;
#[cfg(test)]
mod sweep_cost_tests;
#[cfg(test)]
mod turn_tests;
#[cfg(test)]
mod update_stop_tests;
