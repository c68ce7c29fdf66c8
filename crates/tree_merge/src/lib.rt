//! The three-way merge of stored trees.
//!
//! Shown upward: `merge`, and `build`, which makes the directory objects of a tree. What they promise is what
//! specs/Merging.antt and specs/TreeBuilding.antt say. A merge goes down three directories together, and makes each directory after
//! those below it. How it does so is a private part: specs/DirectoryMerge.antt, LevelMerge.antt, Decision.antt and
//! ConflictNaming.antt. It reads files only to compare them, and stores nothing.
#![tactic(auto)]

mod compared;
mod conflict_copies;
mod decision;
mod directory_merge;
mod file_entry;
mod file_merge;
mod head_directory;
mod level;
mod level_merge;
mod merging;
mod opening;
mod sides;
mod tables;
mod tree_builder;
mod unstored;
mod work;

pub use crate::merging::{MergeFault, Merged, merge};
pub use crate::tree_builder::{BuildFault, BuiltTree, build};
