//! HTTP/1.1 as this server speaks it: links, the buffer, request heads, the stream of requests, what a request asks
//! for, and the bytes of each reply.
//!
//! Shown upward: `Link`, `Sink`, `Dial` and their kinds in memory; `next_head`, `order_of`, `order_of_own`;
//! `reply_bytes`, `reply_own`, `interim_bytes`, `bad_bytes`; and laws.rt. It answers no call itself.
#![tactic(auto)]

mod buffer;
mod dial;
mod entity_tag;
mod expectation;
mod fields;
mod head;
mod id_array;
mod judgement;
pub mod laws;
mod link;
mod memory_dial;
mod memory_link;
mod memory_sink;
mod method;
mod object_reply;
mod order;
mod outcome;
mod query;
mod refusal_text;
mod refusal_value;
mod reply_body;
mod reply_text;
mod route;
mod row;
mod status;
mod target;
mod target_front;
mod token;

pub use buffer::{Buffer, FillFault};
pub use dial::{Dial, DialLog};
pub use entity_tag::{read_tag_text, write_tag_text};
pub use expectation::wants_close;
pub use fields::{Seen, look_for};
pub use head::{HEAD_LIMIT, Head, Next, next_head};
pub use id_array::{array_bytes, read_ids};
pub use judgement::number_in;
pub use link::{Link, LinkFailed, Sink};
pub use memory_dial::MemoryDial;
pub use memory_link::MemoryLink;
pub use memory_sink::MemorySink;
pub use method::Method;
pub use object_reply::{ReplyBytes, reply_own};
pub use order::{Order, OrderFault, What, order_of, order_of_own};
pub use outcome::Outcome;
pub use refusal_text::refused_status;
pub use reply_text::{bad_bytes, interim_bytes, reply_bytes};
pub use row::{Row, read_rows, write_rows};
pub use status::Status;
