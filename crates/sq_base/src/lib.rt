//! What every layer stands on: sources and sinks of bytes, serial numbers, the Internet checksum, lists of bytes,
//! and the small types and the ports that several layers speak of.
//!
//! A source and a sink count their faults, so that a caller can say that an answer came from a fault and from nothing
//! else. Those over memory tell their bytes and fail where they are told to; those over std's readers and writers are
//! the edge to the system. Nothing here knows of captures, segments or squeues.
#![tactic(auto)]

mod ends;
mod kinds;
mod mem;
mod octets;
mod ports;
mod serial;
mod std_ends;
mod sums;

pub use ends::{Failed, Sink, Source, put};
pub use kinds::{Addr, Link, Status, Tuple};
pub use mem::{MemSink, MemSource};
pub use octets::Octets;
pub use ports::{CHARGEN_PORT, DISCARD_PORT, ECHO_PORT, is_served, is_served_udp};
pub use serial::{seq_add, seq_dist, seq_le, seq_lt};
pub use std_ends::{StdSink, StdSource};
pub use sums::inet_sum;
