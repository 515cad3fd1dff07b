//! The limits of a capture, as `specs/Limits.antt` has them, the same for every form of file.

/// The most bytes of a capture: 64 MiB.
pub const MOST_BYTES: usize = 67_108_864;

/// The most packets of a capture.
pub const MOST_RECORDS: usize = 1_048_576;

/// The most captured bytes of a packet: 256 KiB.
pub const LONGEST_BODY: u32 = 262_144;

/// The greatest time of a packet, in microseconds: 2^53.
pub const LATEST_TIME: u64 = 9_007_199_254_740_992;

/// The bytes of a capture file's header.
pub(crate) const HEADER: usize = 24;

/// The bytes of the header before each packet.
pub(crate) const RECORD_HEADER: usize = 16;
