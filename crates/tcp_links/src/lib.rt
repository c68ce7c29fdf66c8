//! Links over TCP.
//!
//! Shown upward: `TcpLink`, an `http_front::Link` over a connection, with `Waits`, how long it waits for its peer; `TcpDial`,
//! an `http_front::Dial` that connects to a port of a host; `answer`, which counts what fails. They move bytes and read none.
#![tactic(auto)]

mod counting;
mod tcp_dial;
mod tcp_link;

pub use crate::counting::answer;
pub use crate::tcp_dial::TcpDial;
pub use crate::tcp_link::{TcpLink, Waits};
