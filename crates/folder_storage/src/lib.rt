//! Where libraries are kept: a folder of the file system, or memory.
//!
//! Shown upward: `FolderShelf`, a shelf over the files of one library's folder; the trait `Ground`, from which shelves
//! come and to which they go back, with `FolderGround` and `MemoryGround`. Definition: specs/Ground.antt.
//!
//! The adapters over files tell nothing of what they hold, so what they do with it is no clause: of them it is proved
//! that their counts of faults are right, that what is put is listed until a text, and that they are safe and end. In
//! which order objects are made durable before a text is proved over a disk that tells its calls, as `ToldDisk` does. The layout of a library's folder and what
//! lasts through a loss of power are told at `FolderShelf`.
#![tactic(auto)]

mod answer;
mod at_once;
mod clock;
mod counted_shelf;
mod durability;
mod earlier;
mod file_system;
mod folder_ground;
mod folder_shelf;
mod ground;
pub mod laws;
mod library_folder;
mod listing;
mod memory_ground;
mod opening;
mod paths;
mod seen_folders;
mod settling;
mod steady_shelf;
mod syncing;
mod system_files;
mod told_disk;
mod unsynced;
mod whole;

pub use crate::counted_shelf::CountedShelf;
pub use crate::file_system::{FileFacts, FileKind, FileSystem, SyncEnding, SyncPlace};
pub use crate::folder_ground::FolderGround;
pub use crate::folder_shelf::FolderShelf;
pub use crate::ground::Ground;
pub use crate::memory_ground::{KeptLibrary, MemoryGround};
pub use crate::steady_shelf::SteadyShelf;
pub use crate::system_files::SystemFiles;
pub use crate::told_disk::ToldDisk;
