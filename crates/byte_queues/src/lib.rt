//! The two queues of a connection: the peer's text as it comes, and our own until it is acknowledged.
//!
//! Positions count the text bytes of one direction from 0. A queue knows no sequence numbers, no timers and no states.
#![tactic(auto)]

mod buffer;
mod laws;
mod recv;
mod run;
mod send;

pub use laws::{
    offered_is_kept, positions, received_is_kept, what_is_in_order_stays, what_is_taken_was_held,
};
pub use recv::{Placed, RecvQueue};
pub use send::SendQueue;
