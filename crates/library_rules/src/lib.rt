//! The rules of one library: its state, what each call answers and changes, collections, and its history.
//!
//! Shown upward: `Entry`, `Step`, `Stored`, `MAX_STEPS`, the table `right_needed`, the theorems
//! of `laws` and `upload_laws`, and the definitions of `specs/`: read LibraryState, Calls, Changes, Permitted and
//! History, in this order.
//! It answers no call and keeps no object: it says what an answer may be.
#![tactic(auto)]

mod entry;
pub mod laws;
mod limits;
mod rights;
pub mod upload_laws;

pub use crate::entry::{Entry, Step, Stored};
pub use crate::limits::MAX_STEPS;
pub use crate::rights::right_needed;
