//! Why an order has no outcome.
use thiserror::Error;

/// Why an order has no outcome. `TooLarge` is looked for first, before anything is sent.
#[derive(Clone, Copy, Debug, PartialEq, Eq, Error)]
pub enum RemoteFault {
    /// No link could be made, or it failed. The remote's count of faults rose in this call.
    #[error("the link failed")]
    Link,
    /// What the peer gave is no reply to the order: its first bytes go on as one up to this place, or have a head of this
    /// length that isn't right or whose body tells no outcome of the order.
    #[error("the reply is none")]
    BadReply(u64),
    /// What the peer gave ended with so many bytes of a reply that isn't whole: 0 where it gave none of it.
    #[error("the reply is cut short")]
    Cut(u64),
    /// The body of the order's request has so many bytes, or 2^64 - 1 where that is more, which is over its limit. Nothing
    /// was sent.
    #[error("the order is too large")]
    TooLarge(u64),
    /// There was no memory. It may come in any other fault's place, also after the order was sent.
    #[error("out of memory")]
    NoMemory,
}
