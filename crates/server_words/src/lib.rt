//! The words of `seaf-server` as a command, and the lines that it prints.
//!
//! Shown upward: `Command` with `read_command`, `Location` with `names_memory`; `Line` and `Fault` with their texts and statuses; `LineText`;
//! the texts of `--help` and `--version`. Definitions: specs/CommandLine.antt (`command_of`), specs/Lines.antt
//! (`line_text`, `status_of`). Laws on both: laws.rt.
//! It does nothing that a command asks for: it opens nothing and prints nothing itself.
#![tactic(auto)]

mod command;
mod command_line;
mod fault;
pub mod laws;
mod line;
mod line_text;
mod number;
mod numbered;

pub use crate::command::{Command, Location};
pub use crate::command_line::{is_name, names_memory, read_command, secret_of};
pub use crate::fault::Fault;
pub use crate::line::{Line, help_text, version_text};
pub use crate::line_text::LineText;
