//! Tests of folders, scans of them and indexes, over their public calls alone.
//!
//! They stand apart, since a crate with tests is proved twice. It has no code but its tests.
#![tactic(auto)]

#[cfg(test)]
mod folder_side_tests;
#[cfg(test)]
mod folder_texts_tests;
#[cfg(test)]
mod local_folder_tests;
#[cfg(test)]
mod local_index_tests;
mod made;
#[cfg(test)]
mod memory_folder_tests;
#[cfg(test)]
mod opened_file_tests;
#[cfg(test)]
mod scratch;
#[cfg(test)]
mod told_folder;
#[cfg(test)]
mod turned_calls;
