//! The live server as a process: its words, a device or frames, and what it ends with.
//!
//!     sqlive frames SECRET SETTING     datagrams come in frames from standard input, and go in frames to standard output
//!     sqlive device SETTING            standard input and output are a TUN device: a read is a datagram, and so is a write
//!
//! SECRET is 32 hexadecimal digits; for a device the program draws its own. SETTING is six words or more, ADDRESS BROADCAST
//! PLACES IDLE BYTES SEGMENT [--ttl N] [--dscp N] [PORTS [PINGS [HOST]]]: the address that is answered for and the network's broadcast address, in eight hexadecimal digits
//! each; how many connections are kept at once; after how many seconds without a word one may leave a full table; how many bytes of text
//! all may hold, and how many a segment that is sent has at most. TTL of what is sent is 1 to 255, and 64 without its word; DSCP is 0 to 63, and 0
//! without. PORTS says which services there are and at which ports, as
//! `echo=7,discard=9,daytime=13,chargen=19,web=80`; without it there are echo at 7 and discard at 9. PINGS says how many echo
//! requests are answered from tick to tick, 1000 without it. HOST is the address whose orders are obeyed, in eight hexadecimal digits;
//! without it nobody's are. Before all words may stand `--pages FILE`, a file of pages in one piece, which are handed out at the port of
//! `web`. A frame is a length in eight bytes and a time in microseconds in eight, both big-endian, and so many bytes; one without bytes
//! only carries the time.
#![tactic(auto)]

mod device;
mod drawing;
mod fault;
mod frames;
mod marking_words;
mod pages;
mod port_words;
mod process;
mod words;

pub use drawing::secret;
pub use fault::Fault;
pub use frames::{serve_frames_of, serve_stream};
pub use pages::{pages_named, site_in};
pub use process::run_process;
pub use words::{Medium, ServerWords, asked_in};
