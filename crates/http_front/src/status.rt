//! The status lines of replies.
ghost use Rattle.std.specs.Prelude.{◌≡◌};
ghost use Rattle.http_front.specs.Status.{status_words};

/// The status of a reply (RFC 9110, section 15; 431 is of RFC 6585, and 442 to 449 are our own).
#[derive(Clone, Copy, Debug, PartialEq, Eq)]
pub enum Status {
    Success,
    NotModified,
    BadRequest,
    Forbidden,
    NotFound,
    Conflict,
    ContentTooLarge,
    HeadTooLarge,
    TooLarge,
    Damaged,
    Incomplete,
    Spent,
    ServerError,
    NotImplemented,
    Unavailable,
}

/// The number and the words of a status, as its line shows them.
pub fn status_words(status: Status) -> &'static [u8]
    ensures { result.now ≡ status_words status }
{
    match status {
        Status::Success => b"200 OK",
        Status::NotModified => b"304 Not Modified",
        Status::BadRequest => b"400 Bad Request",
        Status::Forbidden => b"403 Forbidden",
        Status::NotFound => b"404 Not Found",
        Status::Conflict => b"409 Conflict",
        Status::ContentTooLarge => b"413 Content Too Large",
        Status::HeadTooLarge => b"431 Request Header Fields Too Large",
        Status::TooLarge => b"442 Too Large",
        Status::Damaged => b"445 Damaged",
        Status::Incomplete => b"446 Incomplete",
        Status::Spent => b"449 Spent",
        Status::ServerError => b"500 Internal Server Error",
        Status::NotImplemented => b"501 Not Implemented",
        Status::Unavailable => b"503 Service Unavailable",
    }
}
