//! Why there is no capture.

use thiserror::Error;

/// Why bytes gave no capture. Blocks are numbered from 0 through the file. All but `NoMemory` are causes of the bytes' own.
#[derive(Clone, Copy, Debug, PartialEq, Eq, Error)]
pub enum PcapngFault {
    /// Memory for the interfaces or for the list of packets was missing.
    #[error("out of memory")]
    NoMemory,
    /// There are fewer than 28 bytes, the least of a section header: so many.
    #[error("pcapng short section of {0} bytes")]
    ShortSection(u32),
    /// The byte-order magic of a section header is none of the two.
    #[error("pcapng magic {found:?} in block {index}")]
    Magic { index: u32, found: [u8; 4] },
    /// A total length that is no multiple of 4, or below the least of the block's type.
    #[error("pcapng block {index} has length {len}")]
    BlockLength { index: u32, len: u32 },
    /// The total length at a block's end is another one: this.
    #[error("pcapng block {index} ends with length {len}")]
    EndLength { index: u32, len: u32 },
    /// The major version of a section isn't 1 (draft-ietf-opsawg-pcapng, section 4.1).
    #[error("pcapng version {major}.{minor} in block {index}")]
    Version { index: u32, major: u16, minor: u16 },
    /// The link type of an interface is none that `Link::of` reads.
    #[error("pcapng link type {link} in block {index}")]
    Link { index: u32, link: u32 },
    /// The link type of an interface isn't that of the file's first one.
    #[error("pcapng second link type {link} in block {index}")]
    MixedLink { index: u32, link: u32 },
    /// A packet is of an interface that its section doesn't have.
    #[error("pcapng interface {id} in block {index}")]
    NoInterface { index: u32, id: u32 },
    /// The captured length of a packet is over 262,144, or more than its block holds.
    #[error("pcapng packet of {len} bytes in block {index}")]
    PacketLength { index: u32, len: u32 },
    /// There are more than 1,048,576 packets.
    #[error("too many records")]
    TooManyRecords,
}
