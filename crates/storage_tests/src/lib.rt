//! Tests of shelves and of places in folders, by public calls alone: over every kind of shelf, over a temporary folder, and
//! over a stand-in for the system's files.
//!
//! They stand apart, since a crate with tests is proved twice. It has no code but its tests.
#![tactic(auto)]

#[cfg(test)]
mod durable_rows;
#[cfg(test)]
mod earlier_rows;
#[cfg(test)]
mod folder_rows;
#[cfg(test)]
mod gate_rows;
#[cfg(test)]
mod ground_rows;
#[cfg(test)]
mod library;
#[cfg(test)]
mod lossy_files;
#[cfg(test)]
mod lossy_nodes;
#[cfg(test)]
mod lossy_runs;
#[cfg(test)]
mod scratch;
#[cfg(test)]
mod shelf_rows;
#[cfg(test)]
mod told_rows;
