//! What is replied to a request.
use crate::row::Row;
use ids::Items;
use library_state::{Refusal, Reply, Tag};

/// What is replied to a request.
#[derive(Debug, Drop)]
pub enum Outcome {
    /// The version of the protocol.
    Version,
    /// The library is still in the state of this tag, which the request showed.
    Same(Tag),
    /// What the library answered to the request's call, and the state that it told of. Of several calls it is the
    /// first answer that was not as asked, and where each was, `Stored(true)` with a tag of two zeros.
    Plain(Reply, Tag),
    /// The files and directories that were asked for, in that order.
    Packed(Items<Row>),
    /// A collection of the library is over.
    Collected {
        /// The collection's number.
        number: u64,
        /// How many objects it removed.
        removed: u64,
    },
    /// The request was refused before any library was asked.
    Refused(Refusal),
}
