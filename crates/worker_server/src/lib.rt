//! A served connection: requests are read from a link, asked of a host and answered, in their order.
//!
//! Shown upward: `Served`, `Host` with its `Answer`, `serve_session`, `answer_order`, and laws.rt.
//! Definition: specs/ServedConnection.antt. Promise: the clauses of `serve_session`.
//! It keeps no library: what answers the calls is the host's.
#![tactic(auto)]

mod answering;
mod asking;
mod connection;
mod giving;
mod host;
pub mod laws;
mod looking;
mod reading;
mod requesting;
mod served;

pub use answering::answer_order;
pub use connection::serve_session;
pub use host::{Answer, Collected, Host};
pub use served::Served;
