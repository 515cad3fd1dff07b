//! The items of a connection, and what the records of a capture count as.

use segment_codec::Seg;

/// One entry of a connection. Times are in microseconds and never fall from one item to the next.
#[derive(Clone, Copy, Debug, PartialEq, Eq)]
pub enum Item {
    /// The clock moves on to `at` with nothing received, so that due timers fire.
    Time {
        at: u64,
    },

    /// The segment of record number `rec` is received at `at`. `iss` is the hint: the initial sequence number that the
    /// client's later segments acknowledge, or 0.
    Segment {
        at: u64,
        rec: u32,
        iss: u32,
        seg: Seg,
    },
}

/// An item as a plan keeps it: a segment by its record's number.
#[derive(Clone, Copy, Debug, PartialEq, Eq)]
pub enum Slot {
    Time { at: u64 },
    Segment { at: u64, rec: u32, iss: u32 },
}

/// A served segment, with its record's number, and its time in microseconds.
#[derive(Clone, Copy, Debug, PartialEq, Eq)]
pub struct Arrival {
    pub rec: u32,
    pub at: u64,
    pub seg: Seg,
}

/// What one record of a capture counts as.
#[derive(Clone, Copy, Debug, PartialEq, Eq)]
pub enum Class {
    /// A segment to an echo or discard port, of one of the first 4,096 connections.
    Served,
    /// A segment to an echo or discard port, of a later connection.
    NoFit,
    /// A segment from an echo or discard port to another port.
    Server,
    /// A segment between other ports, or no TCP over IPv4.
    Other,
    /// A fragment of an IPv4 datagram.
    Fragment,
    /// Fewer bytes were captured than the headers name.
    Cut,
    /// A header contradicts another or its RFC.
    Malformed,
    /// A wrong checksum, where checksums decide.
    BadSum,
}

/// How many records there are, whether the last one was cut (1) or not (0), and how many of the records count as what.
/// Each record counts in exactly one class.
#[derive(Clone, Copy, Debug, PartialEq, Eq)]
pub struct Counts {
    pub records: u32,
    pub tail: u32,
    /// To an echo or discard port, and of one of the first 4,096 connections.
    pub served: u32,
    /// To an echo or discard port, and of a later connection.
    pub nofit: u32,
    /// From an echo or discard port to another port.
    pub server: u32,
    /// Between other ports, or no TCP over IPv4.
    pub other: u32,
    /// A fragment of an IPv4 datagram.
    pub fragment: u32,
    /// Fewer bytes were captured than the datagram has.
    pub cut: u32,
    /// A header contradicts another or its RFC.
    pub malformed: u32,
    /// A wrong checksum, where checksums decide.
    pub badsum: u32,
}
