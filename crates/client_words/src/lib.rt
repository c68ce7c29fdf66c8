//! The words of `seaf-cli` as what they ask for.
//!
//! Shown upward: `Words` with `read_words`; `Job`, a folder that is synced with a library, with `read_jobs` and `write_jobs`;
//! `Line` and `Fault`, what is printed; the texts of `--help` and `--version`. Definitions: specs/Grammar.antt (the command line
//! as `clap` takes it), specs/WordReading.antt (`words_of`), specs/JobReading.antt, JobWriting.antt, Lines.antt.
//! It does nothing that a command asks for: it opens nothing and prints nothing itself.
#![tactic(auto)]

mod address;
mod fault;
mod grammar;
mod help;
mod job;
mod job_reading;
mod job_writing;
mod line;
mod option_values;
mod word_reading;
mod words;

pub use crate::address::{Server, number_up_to, server_of};
pub use crate::fault::Fault;
pub use crate::help::{help_text, version_text};
pub use crate::job::Job;
pub use crate::job_reading::read_jobs;
pub use crate::job_writing::write_jobs;
pub use crate::line::Line;
pub use crate::word_reading::read_words;
pub use crate::words::{MAX_TURNS, Unsupported, Words};
