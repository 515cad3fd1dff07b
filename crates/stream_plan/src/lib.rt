//! The streams of a capture that are served beside connections: UDP datagrams to echo or discard (RFC 862, RFC 863), and TCP
//! segments to the character generator's port.
//!
//! The records are gone through once, in record order, with a hashed set of the streams, and what each one holds is kept with its
//! stream at once. Each stream's segments are then gone through once from the back, for the hints. It holds no bytes of the capture.
#![tactic(auto)]

mod finding;
mod kinds;
mod making;
mod planned;
mod sorting;
mod streams;

pub use kinds::{Arrived, Counts, Found, ServedDatagram};
pub use making::more_plan;
pub use planned::{CapturedStream, MorePlan};
