//! Where the links of a server come from.
//!
//! Shown upward: `Ear`, which gives links one after another and takes them back, and `Net`, which opens ears at a port; over
//! TCP on 127.0.0.1 `TcpNet` and `TcpEar`, in memory `MemoryNet` and `ListEar`. They move no bytes themselves.
//! Definition: specs/Ear.antt.
#![tactic(auto)]

mod ear;
mod list_ear;
mod memory_net;
mod net;
mod notes;
mod tcp_ear;
mod tcp_net;

pub use crate::ear::Ear;
pub use crate::list_ear::ListEar;
pub use crate::memory_net::MemoryNet;
pub use crate::net::{Net, NetFault};
pub use crate::tcp_ear::TcpEar;
pub use crate::tcp_net::TcpNet;
