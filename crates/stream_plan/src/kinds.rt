//! What a record holds, where it is served, and what the records of a capture count as.

use segment_codec::Seg;
use udp_codec::Udp;

/// What a record holds, where it is served.
#[derive(Clone, Copy, Debug, PartialEq, Eq)]
pub enum Found {
    /// To echo or discard.
    Datagram(Udp),
    /// To the generator.
    Segment(Seg),
}

/// What of a record is served, with the record's number, and its time in microseconds.
#[derive(Clone, Copy, Debug, PartialEq, Eq)]
pub struct Arrived {
    pub rec: u32,
    pub at: u64,
    pub found: Found,
}

/// A served datagram, with its record's number. Times are in microseconds and never fall from one of a stream to the next.
#[derive(Clone, Copy, Debug, PartialEq, Eq)]
pub struct ServedDatagram {
    pub at: u64,
    pub rec: u32,
    pub udp: Udp,
}

/// How many records count as what: each in exactly one class.
#[derive(Clone, Copy, Debug, PartialEq, Eq)]
pub struct Counts {
    pub served: u32,
    /// Of a later stream than the first 4,096.
    pub nofit: u32,
    pub other: u32,
}
