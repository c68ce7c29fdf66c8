//! One library that is kept: made, opened, asked, and kept on a shelf with the text of its state.
//!
//! Shown upward: `Depot` and the faults of its calls, and `read_state`. Definitions: `specs/DepotView.antt` (`state_of`, `IsGood`), then
//! `specs/Answering.antt`, `specs/Make.antt`, `specs/Start.antt`, `specs/Tokens.antt` and `specs/Writing.antt`.
//! Laws: `src/laws.rt`. What a call may answer stands in library_rules. It serves no connection and starts no thread.
#![tactic(auto)]

mod answering;
mod checking;
mod collection;
mod commit_put;
mod complete;
mod depot;
mod error;
mod first_get;
mod history;
mod history_limit;
pub mod laws;
mod listing;
mod make;
mod missing;
mod object_calls;
mod own_call;
mod plan;
mod refusals;
mod shields;
mod start;
mod state_write;
mod story;
mod telling;
mod tokens;
mod turn;
mod unjudged;
mod unstored;
mod update;
mod update_base;
mod update_install;
mod update_made;
mod update_merge;
mod update_plan;

pub use crate::depot::Depot;
pub use crate::error::{MakeFault, StartFault, TokenFault};
pub use crate::start::read_state;
pub use crate::story::{Change, Made};
pub use crate::turn::Turn;
pub use crate::unjudged::{Unjudged, judged};
