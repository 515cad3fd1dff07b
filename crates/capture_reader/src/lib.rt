//! Reads a capture file (libpcap file format 2.4): its link and its packets, each with its time and its bytes. A reader of another
//! form takes the bytes by `read_bytes` and gives what it found to `Capture::make`. `read_within` reads any source to its end.
//!
//! The file is read whole and kept as it is; a packet is a place in it, found in one pass. What can't be read is refused
//! with the place and the value that refuse it. A last packet that an interrupted capture cut is left out and noted.
//! What a packet's bytes mean is no matter of this crate.
#![tactic(auto)]

mod capture;
mod fault;
mod form;
mod header;
pub mod laws;
mod limits;
mod source;

pub use capture::{Capture, Record, parse_capture};
pub use fault::CaptureFault;
pub use limits::{LATEST_TIME, LONGEST_BODY, MOST_BYTES, MOST_RECORDS};
pub use source::{read_bytes, read_capture, read_within};
