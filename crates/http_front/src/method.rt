//! The method of a request, as far as the calls tell methods apart.

/// The method of a request (RFC 9112, section 3.1). No call has another one than the first three.
#[derive(Clone, Copy, Debug, PartialEq, Eq)]
pub enum Method {
    Get,
    Put,
    Post,
    /// Every other method.
    Other,
}
