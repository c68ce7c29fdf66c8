//! Orders to a library and their outcomes: over links to a server, or of a library in memory.
//!
//! Shown upward: `Remote`, `HttpRemote`, `DeskRemote`, `RemoteFault`, and laws.rt. What orders and outcomes are stands in
//! `http_front`, how they are written and read in `http_client`. It decides nothing of a sync.
#![tactic(auto)]

mod desk_host;
mod desk_remote;
mod error;
mod http_remote;
pub mod laws;
mod link_choice;
mod open_link;
mod order_copy;
mod remote;
mod reply_reading;

pub use desk_remote::DeskRemote;
pub use error::RemoteFault;
pub use http_remote::HttpRemote;
pub use remote::{Ending, Remote};
