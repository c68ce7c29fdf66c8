//! File and directory objects: their one grammar, read and written exactly.
//!
//! Shown upward: `FsObject` with `read` and `write`, `FileObject`, `DirObject`, `Dirent`, and the faults.
//! Definitions: `specs/FsObject.antt` (`fs_of`), `specs/Spelling.antt` (`text_of`); `laws` has what holds of
//! written directories. It stores nothing.
#![tactic(auto)]

mod dir_object;
mod directory_reading;
mod dirent;
mod entry_reading;
mod fault;
mod fields;
mod file_object;
mod file_reading;
mod fs_object;
pub mod laws;
mod mode;
mod object_reading;
mod parts;
mod writing;

pub use crate::dir_object::DirObject;
pub use crate::dirent::Dirent;
pub use crate::fault::{BadFs, FsFault, FsKey};
pub use crate::file_object::FileObject;
pub use crate::fs_object::FsObject;
pub use crate::mode::{DIRECTORY_TYPE, FILE_TYPE, TYPE_MASK, is_directory_mode, is_file_mode};
