//! Tests of the store, of walks over trees and of merges, over their public calls alone.
//!
//! They stand apart, since a crate with tests is proved twice. It has no code but its tests.
#![tactic(auto)]

#[cfg(test)]
mod collector_tests;
#[cfg(test)]
mod object_store_tests;
#[cfg(test)]
mod tree_merge_tests;
#[cfg(test)]
mod tree_walk_tests;
