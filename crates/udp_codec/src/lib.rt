//! UDP datagrams as they stand in a capture, and as they are sent (RFC 768).
//!
//! `decode_udp` tells whether a record's bytes hold one, and `encode_udp` gives the bytes of one that is sent. Neither keeps
//! anything between two calls, and decoding takes no memory: a datagram's text is a place in the record.
#![tactic(auto)]

mod datagram;
pub mod laws;
mod reading;
mod writing;

pub use datagram::Udp;
pub use reading::decode_udp;
pub use writing::encode_udp;
