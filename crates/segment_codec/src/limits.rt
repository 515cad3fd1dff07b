//! The numbers of the segments that are sent, as `specs/Limits.antt` has them.

/// The most bytes of a segment's text that `encode` takes: a datagram of 1,500 bytes without both headers (RFC 9293, 3.7.1).
pub const MOST_TEXT: u16 = 1460;
