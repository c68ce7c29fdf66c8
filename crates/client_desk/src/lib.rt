//! What the client keeps, and where its folders and dials come from.
//!
//! Shown upward: `Desk`, `Claim`, `Asking`; `jobs_in`, `put_jobs`, `index_in`, `put_index`, the texts in the client's own folder; `job_due`,
//! `jobs_with`; the commands `init`, `list` and `desync`; `laws`. Definitions: specs/KeptTexts.antt, specs/JobList.antt,
//! specs/Commands.antt. It syncs nothing, reads no words and prints nothing.
#![tactic(auto)]

mod commands;
mod desk;
mod job_list;
mod kept_texts;
pub mod laws;

pub use crate::commands::{desync, init, list};
pub use crate::desk::{Asking, Claim, Desk};
pub use crate::job_list::{job_due, jobs_with};
pub use crate::kept_texts::{fault_of_folder, index_in, jobs_in, put_index, put_jobs};
