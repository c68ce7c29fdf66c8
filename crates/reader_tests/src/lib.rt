//! Tests of the readers and small words, over their public calls alone.
//!
//! They stand apart, since a crate with tests is proved twice. It has no code but its tests.
#![tactic(auto)]

#[cfg(test)]
mod block_chunker_tests;
#[cfg(test)]
mod client_words_tests;
#[cfg(test)]
mod commit_objects_tests;
#[cfg(test)]
mod conflict_names_tests;
#[cfg(test)]
mod fs_objects_tests;
#[cfg(test)]
mod ids_tests;
#[cfg(test)]
mod json_words_tests;
#[cfg(test)]
mod library_rules_tests;
#[cfg(test)]
mod library_state_tests;
#[cfg(test)]
mod server_words_tests;
#[cfg(test)]
mod tree_model_tests;
