//! Content-defined chunking by a rolling hash.
//!
//! Shown upward: `Cuts`, the chunking parameters, and `Chunker`, which takes bytes in pieces and
//! hands out chunks. How the bytes are cut into pieces never matters.
//! Definition: `specs/ChunkBoundaries.antt`. Promise: the clauses of `Chunker` and the laws.
//! It reads no file and hashes no chunk into a name.
#![tactic(auto)]

mod chunker;
mod cuts;
pub mod laws;
mod rolling_hash;

pub use chunker::Chunker;
pub use cuts::Cuts;
