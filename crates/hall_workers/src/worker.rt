//! A worker as a struct, and why it stopped.
use worker_server::Served;

/// Why a worker stopped.
#[derive(Clone, Copy, Debug, PartialEq, Eq)]
pub enum Ending {
    /// It didn't begin yet.
    Idle,
    /// Its ear said that no more links come.
    Ended,
    /// Its ear failed.
    EarFault,
    /// There was no memory to take another link.
    NoMemory,
}

/// What serves the links of an ear, one after another, through a pass.
#[derive(Drop)]
pub struct Worker<P, E> {
    pub pass: P,
    pub ear: E,
    /// How the links ended that it served, in their order.
    pub served: Vec<Served>,
    pub ending: Ending,
}
