//! A folder of the file system, as a sync sees it.
//!
//! Shown upward: `LocalFolder`, a `folder_side::Folder` over a real directory, with its `Marker`; the trait `DirectoryCalls`, the
//! calls of the system by which it works, with `SystemDirectories`; `put_small`, which puts a small file; `answer`, which counts
//! what fails.
//! Definitions: specs/Steps.antt, specs/Marker.antt. It scans nothing and knows no library.
#![tactic(auto)]

mod changes;
mod counting;
mod directory_calls;
mod entries;
mod local_folder;
mod marker;
mod permissions;
mod system_directories;

pub use crate::counting::answer;
pub use crate::directory_calls::{DirectoryCalls, EntryKind, EntryNames, FileStamp};
pub use crate::local_folder::LocalFolder;
pub use crate::marker::{Marker, own_name, put_small};
pub use crate::permissions::Permissions;
pub use crate::system_directories::SystemDirectories;
