//! What a folder offers to a library: its tree as objects, what the library lacks of it, and the commit that it is asked to stand at.
//!
//! Shown upward: `push`, and what it is made of: `changed_owns`, `offer`, `offered_tree`, `Wanted`, `add_files`, `ask_lacking`,
//! `put_objects`, `put_block`, `put_blocks`, `stand_at`, `Library`, `Pushed`, and laws.rt. Definitions: specs/Pushing.antt,
//! OfferedEntries.antt, ChangedOwns.antt, OfferedNames.antt, Wanted.antt, OfferedTree.antt, Asking.antt, Lacking.antt, Puts.antt,
//! BlockUpload.antt, Upload.antt, Standing.antt.
#![tactic(auto)]

mod asking;
mod block_upload;
mod lacking;
pub mod laws;
mod offered_entries;
mod offered_objects;
mod offering;
mod own_table;
mod pushing;
mod puts;
mod standing;
mod upload;
mod wanted;

pub use asking::Library;
pub use block_upload::put_blocks;
pub use lacking::{ask_lacking, ids_of};
pub use offered_entries::file_entry;
pub use offered_objects::offered_tree;
pub use offering::{Offered, offer};
pub use own_table::{changed_owns, own_or_known};
pub use pushing::push;
pub use puts::{put_block, put_objects};
pub use standing::{Pushed, stand_at};
pub use wanted::{Wanted, add_files};
