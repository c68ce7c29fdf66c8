//! What the server program does: it makes libraries, adds tokens to them, fills them, and serves one connection or a port.
//!
//! Shown upward: `run`, the server's top call, with `run_in_memory`, and `serve_link`, the promise of one connection with an `OpenedLibrary`, over any shelf, link, clock
//! and place of libraries. Definitions: specs/, read Answering, then Runs and what it cites.
//! It opens no real stream, file or clock: those stand in the program above.
#![tactic(auto)]

mod adding;
mod bringing;
mod collecting;
mod counting;
mod creating;
mod filling;
mod inetd;
mod inetd_hall;
pub mod laws;
mod looking;
mod making;
mod not_done;
mod port;
mod running;
mod serving;
mod starting;
mod workers;

pub use crate::counting::{Counted, OpenedLibrary};
pub use crate::running::{run, run_in_memory};
pub use crate::serving::serve_link;
