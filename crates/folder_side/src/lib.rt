//! The folder side of a sync: what a folder holds, and a scan of it into chunks.
//!
//! Shown upward: the trait `Folder`, `MemoryFolder`, which tells what it holds, `scan` with its report,
//! `read_file`, which cuts a file into chunks, and `take_piece` and `end_file`, which do it with one that comes in pieces.
//! Definitions: `specs/Folder.antt`, `specs/WorkingTree.antt`, `specs/ScanReport.antt`. What a scan means for the
//! visible tree: `laws`.
//! It knows no library, writes no index and merges nothing.
#![tactic(auto)]

mod error;
mod file_reader;
mod findings;
mod folder;
mod folder_scan;
mod holding;
pub mod laws;
mod memory_bytes;
mod memory_contents;
mod memory_folder;
mod scan_report;

pub use error::{FolderFault, ScanFault};
pub use file_reader::{FileRead, ReadFault, end_file, read_file, take_piece};
pub use folder::{Ahead, Folder, Item, ItemKind, Listing};
pub use folder_scan::scan;
pub use holding::Holding;
pub use memory_folder::MemoryFolder;
pub use scan_report::{Scan, Seen};
