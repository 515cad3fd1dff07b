//! The numbers that the rules fix, as `specs/Limits.antt` has them. Times are in microseconds, spaces and segment sizes in bytes.

use segment_codec::MOST_TEXT;

pub(crate) const SECOND: u64 = 1_000_000;

/// The retransmission timeout at first (RFC 6298, 2.1).
pub(crate) const FIRST_TIMEOUT: u64 = SECOND;

/// The longest retransmission timeout (RFC 6298, 2.5).
pub(crate) const LONGEST_TIMEOUT: u64 = 60 * SECOND;

/// How many retransmissions and probes a block makes in its life.
pub(crate) const MOST_RETRANSMISSIONS: u32 = 64;

/// How long TIME-WAIT lasts: twice the maximum segment lifetime of 2 minutes (RFC 9293, 3.4.2).
pub(crate) const TIME_WAIT: u64 = 240 * SECOND;

/// The most text of a segment that is sent, where the peer's SYN has no MSS option (RFC 9293, 3.7.1).
pub const DEFAULT_MSS: u16 = 536;

/// A smaller MSS of the peer counts as this one.
pub(crate) const LEAST_MSS: u16 = 64;

/// A larger MSS of the peer counts as this one, and it is the one that we announce.
pub(crate) const MOST_MSS: u16 = MOST_TEXT;

/// The receive space of a connection whose SYN carries a window scale, until a program asks for another.
pub(crate) const WHOLE_SPACE: u32 = 1_048_576;

/// The largest window without window scale, in bytes, and the most receive space that a program asks for.
pub const PLAIN_SPACE: u32 = 65_535;

/// The window scale that we announce (RFC 7323, 2.2).
pub(crate) const OUR_SHIFT: u8 = 5;

/// A larger window scale of the peer counts as this one (RFC 7323, 2.3).
pub(crate) const MOST_SHIFT: u8 = 14;

/// A block takes a segment as long as fewer bytes of each of its streams have come.
pub(crate) const MOST_STREAMED: u64 = 1 << 61;

/// No block is given a later time, in microseconds.
pub const LAST_TIME: u64 = 1 << 62;
