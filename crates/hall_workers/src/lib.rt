//! The workers of a server, in threads of their own: each serves the links of its ear, one after another, through a pass.
//!
//! Shown upward: `serve_all`, over `Worker`s, and `Serves`, what serves a link through a pass, which a hall is. Definitions:
//! specs/Workers.antt (`Works`, `Stops`), specs/Serves.antt (`ServesLink`). One connection is hall_server's, and where links come
//! from link_ears'. It makes no hall, no pass and no ear.
#![tactic(auto)]

mod serves;
mod worker;
mod working;

pub use crate::serves::Serves;
pub use crate::worker::{Ending, Worker};
pub use crate::working::serve_all;
