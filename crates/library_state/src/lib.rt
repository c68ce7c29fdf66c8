//! What a library knows and what is asked of it: its state, tokens and history, calls, replies and refusals.
//!
//! Shown upward: `LibState` with `read`, `write` and `cut`; `Secret`, `Right`, `Token`, `Install`, `History`, `Tag`;
//! `Call`, `Act`, `Op`, `Reply`, `Refusal`; the trait `Clock`.
//! Definitions: `specs/StateText.antt` (`state_of`), `StateSpelling.antt` (`text_of`), `Retention.antt` (`kept_for`);
//! `laws` has what holds of them together. It answers no call itself.
#![tactic(auto)]

mod call;
mod clock;
mod history;
pub mod laws;
mod refusal;
mod reply;
mod right;
mod secret;
mod state;
mod state_fault;
mod state_lists;
mod state_reading;
mod state_writing;
mod tag;
mod token;

pub use crate::call::{Act, Call, Op};
pub use crate::clock::{Clock, ListClock};
pub use crate::history::{History, Install};
pub use crate::refusal::Refusal;
pub use crate::reply::Reply;
pub use crate::right::Right;
pub use crate::secret::Secret;
pub use crate::state::{LAST, LibState, MAX_DAYS, MAX_STATE_NAME, MAX_TOKENS};
pub use crate::state_fault::{StateFault, StateKey};
pub use crate::tag::Tag;
pub use crate::token::Token;
