//! A ticket lock over one value that counts its history.
//!
//! Shown upward: `Turnstile`, its `Pass`es and `Held`, a turn; and `Story`, which says when a value
//! stands for a list of entries.
//! Definitions: `specs/Rule.antt` (the rule), `specs/Steps.antt` (the steps), `specs/PassView.antt`
//! and `specs/HeldTurn.antt` (words for callers). Promises: the clauses of the calls, and `laws.rt`.
//! Steps and rule in words: docs/CONCURRENCY.md. Nothing is promised of when a turn comes.
#![tactic(auto)]

mod held;
pub mod laws;
mod lock;
mod pass;
mod rule;
mod seated;
mod steps;
mod story;
mod turnstile;
mod view;
mod waiting;

pub use held::Held;
pub use lock::{Lock, Turnstile};
pub use pass::Spent;
pub use rule::Turns;
pub use seated::{Pass, Seated};
pub use story::Story;
pub use view::{About, Parcel, View};

/// The greatest number of turns of one turnstile, 2^61.
pub const TURNS: u64 = 2_305_843_009_213_693_952;
