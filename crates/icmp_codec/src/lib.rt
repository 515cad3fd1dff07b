//! Echo requests as they come, the replies to them as they are sent (RFC 792; RFC 1122, 3.2.2.6), and what routers say of datagrams that
//! are too long for them (RFC 1191), or don't arrive (RFC 1122, 3.2.2).
//!
//! `ping_in` tells whether a datagram is an echo request, and `pong` gives the bytes of the reply. `too_long_in` tells whether a router
//! says that a segment was dropped, since the next path takes no datagram of its length, and `unreachable_in` whether one says that a
//! segment didn't arrive, and why. No call keeps anything for another, and reading takes no memory: what a request carries stays in
//! the datagram. Other messages of ICMP aren't read. Whether a message is for
//! this host, and whether it is true, is for the caller to say.
#![tactic(auto)]

pub mod laws;
mod message;
mod reading;
mod too_long;
mod unreachable;
mod writing;

pub use message::Ping;
pub use reading::ping_in;
pub use too_long::{TooLong, too_long_in};
pub use unreachable::{Cause, Unreachable, unreachable_in};
pub use writing::pong;
