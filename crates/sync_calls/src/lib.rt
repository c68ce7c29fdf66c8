//! Libraries that many ask at once: each call takes one turn at its library, and leaves a record of what it did.
//!
//! Shown upward: `Hall` and its `HallPass`es, with `Answer` and `Glance`. Definitions: `specs/Shown.antt` (what a pass shows),
//! `specs/Operations.antt` (records of operations), `specs/Asking.antt`, `specs/Looking.antt`, `specs/Joining.antt` and
//! `specs/Closing.antt`. What a library answers is the depot's; how turns are taken is the turnstile's.
//! Nothing is promised of when a turn comes.
#![tactic(auto)]

mod asking;
mod closing;
mod collect_turn;
mod collecting;
mod door;
mod hall;
mod joining;
pub mod laws;
mod looking;
mod making;
mod question;
mod served_turn;

pub use asking::Answer;
pub use collecting::Collected;
pub use door::{Door, Holder};
pub use hall::{Exit, Hall, HallPass, Passes, Room, Rooms};
pub use looking::Glance;
