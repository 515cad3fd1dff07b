//! Segments as they stand in a capture, and as they are sent: Ethernet, IPv4 (RFC 791) and TCP (RFC 9293).
//!
//! `decode` tells what a record's bytes hold, `encode` gives the bytes of a segment that is sent, and `refusal` the answer to
//! a segment that nobody serves. None keeps anything between two calls, and decoding takes no memory: a segment's text is a
//! place in the record.
#![tactic(auto)]

mod control;
pub mod laws;
mod limits;
mod options;
mod packet;
pub mod places;
mod reading;
mod refusing;
pub mod words;
mod writing;

pub use control::{ACK, FIN, PSH, RST, SYN};
pub use limits::MOST_TEXT;
pub use options::Options;
pub use packet::{Packet, Reply, Seg, Why};
pub use reading::{decode, ip_place};
pub use refusing::{refusal, tuple_of};
pub use writing::{MOST_DATAGRAM, encode, encode_into};
