//! How a connection ended.

/// How a connection ended. What was given before the end is said at each call that answers it.
#[derive(Clone, Copy, Debug, PartialEq, Eq)]
pub enum Served {
    /// Nothing more was to be read: the input stops where a request would begin, or the request
    /// before closes the connection.
    Ended,
    /// 10,000 requests were answered.
    Limit,
    /// The input ended inside a request, of which so many bytes were read.
    Cut(u64),
    /// The next bytes are no request that is served. The reply with this status, 400, 413, 431 or 501, was given.
    Refused(u16),
    /// A take failed: the link's count of faults rose.
    ReadFault,
    /// A give failed: the link's count of faults rose.
    WriteFault,
    /// There was no memory for a request or its reply.
    NoMemory,
}
