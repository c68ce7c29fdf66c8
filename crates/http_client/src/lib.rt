//! HTTP/1.1 as a client of this server speaks it: the bytes of a request, and the outcome that a reply tells.
//!
//! Shown upward: `request_bytes`, and `has_request`, `is_within_limit` and `is_host`, which tell its premises; `body_size` and
//! `body_limit`; `next_response` and its `Response`; and laws.rt. What orders and outcomes are stands in `http_front`. It
//! holds no state between calls and opens no connection. Each error is want of memory.
#![tactic(auto)]

mod asked_ids;
mod conditions;
pub mod laws;
mod outcome_reading;
mod refusal_due;
mod refusal_reading;
mod reply_front;
mod reply_head;
mod request_text;
mod response;

pub use conditions::{body_limit, body_size, has_request, is_host, is_within_limit};
pub use request_text::request_bytes;
pub use response::{Response, next_response};
