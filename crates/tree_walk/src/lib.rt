//! Stored trees, read: which objects a commit needs, what stands at each path, the bytes of files.
#![tactic(auto)]

mod checking;
mod contents;
mod extent;
mod fault;
mod file;
mod found;
mod fs_list;
mod kind;
mod known;
mod known_trees;
pub mod laws;
mod listing;
mod met;
mod name_order;
mod reaching;
mod reading;
mod trail;
mod unread;

pub use crate::checking::{check, extent_at};
pub use crate::contents::{file_bytes, same_file};
pub use crate::extent::Extent;
pub use crate::fault::WalkFault;
pub use crate::file::file_at;
pub use crate::fs_list::fs_ids;
pub use crate::known_trees::Known;
pub use crate::listing::tree;
pub use crate::name_order::in_name_order;
pub use crate::reaching::needs;
pub use crate::reading::{bytes_at, commit_at, fs_at};
