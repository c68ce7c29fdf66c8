//! Tests of the wire: links, and what of heads and replies no run of the program shows, over the public calls of http_front
//! alone.
//!
//! They stand apart, since a crate with tests is proved twice. It has no code but its tests.
#![tactic(auto)]

#[cfg(test)]
mod head_tests;
#[cfg(test)]
mod link_tests;
#[cfg(test)]
mod order_tests;
#[cfg(test)]
mod reply_tests;
#[cfg(test)]
mod tcp_ear_tests;
#[cfg(test)]
mod tcp_link_tests;
