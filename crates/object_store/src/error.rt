//! Why a call on a store was refused.
use ids::ObjId;
use thiserror::Error;

/// Why a call on a store was refused. `Taken` and `Wrong` come from a put alone, `Damaged` from a put or a get.
#[derive(Clone, Copy, Debug, PartialEq, Eq, Error)]
pub enum StoreFault {
    /// Other bytes are stored under the key of this id, or it is `ObjId::NIL`.
    #[error("the id is taken")]
    Taken(ObjId),
    /// The object is a file, a directory or a block, and the SHA-1 of its bytes is this other id. Looked for first.
    #[error("the bytes have another name")]
    Wrong(ObjId),
    /// For the object of the id `want` the shelf gave bytes of the SHA-1 `got`, or nothing.
    #[error("the stored bytes are damaged")]
    Damaged { want: ObjId, got: Option<ObjId> },
    /// The shelf failed, and counted it.
    #[error("the shelf failed")]
    Shelf,
    /// There was no memory. It may come in any other fault's place.
    #[error("out of memory")]
    NoMemory,
}
