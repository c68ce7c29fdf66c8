//! Texts that are kept in a folder, a file each.
//!
//! Shown upward: `text_in`, `put_text`, `take_text`. Definition: specs/FolderTexts.antt. What the texts say stands above.
#![tactic(auto)]

mod texts;
mod whole_file;

pub use crate::texts::{put_text, take_text, text_in};
