//! What a request is answered by, in a few words.

/// A status of a response (RFC 9110, 15; RFC 6585, 5).
#[derive(Clone, Copy, Debug, PartialEq, Eq)]
pub enum Status {
    Ok,
    PartialContent,
    MovedPermanently,
    NotModified,
    BadRequest,
    NotFound,
    MethodNotAllowed,
    PreconditionFailed,
    ContentTooLarge,
    UriTooLong,
    RangeNotSatisfiable,
    HeadTooLarge,
    NotImplemented,
    VersionNotSupported,
}

/// What a request is answered by. Its bytes follow from it and the pages.
#[derive(Clone, Copy, Debug, PartialEq, Eq)]
pub struct Answer {
    pub status: Status,
    /// Which page is sent, is had already, or is the index of the folder that was meant.
    pub page: usize,
    /// Where the part of the page's body begins that is sent, in bytes.
    pub from: usize,
    /// Where that part ends.
    pub to: usize,
    /// Only the head is sent: the method was HEAD.
    pub only_head: bool,
    /// The connection stays, for the next request.
    pub keeps: bool,
    /// The request was of HTTP/1.0, whose connections end by default.
    pub old: bool,
    /// When the request was read, in microseconds since 1970.
    pub at: u64,
}
