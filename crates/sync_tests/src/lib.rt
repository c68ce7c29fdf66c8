//! Tests of one sync, over folders and a library in memory.
//!
//! They stand apart, since a crate with tests is proved twice. It has no code but its tests.
#![tactic(auto)]

#[cfg(test)]
mod failing_ends;
#[cfg(test)]
mod household;
#[cfg(test)]
mod library;
#[cfg(test)]
mod meddled_syncs;
#[cfg(test)]
mod meddling;
#[cfg(test)]
mod saved_folder;
#[cfg(test)]
mod saved_syncs;
#[cfg(test)]
mod two_folders;
#[cfg(test)]
mod uneven_folder;
#[cfg(test)]
mod uneven_syncs;
