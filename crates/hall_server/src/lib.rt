//! One connection with libraries that many ask at once.
//!
//! Shown upward: `serve_link`, over any hall, pass, link and clock. Definitions: specs/Serving.antt (`hall_rules`, `Goes`). Requests and
//! replies are http_front's, the connection is worker_server's, and what a hall answers is sync_calls'.
//! It makes no hall and starts no thread.
#![tactic(auto)]

pub mod laws;
mod serving;

pub use crate::serving::serve_link;
