//! The server side of one TCP connection (RFC 9293), with window scale (RFC 7323).
//!
//! A block is given the segments of its peer with their times, the times at which its timers are looked at, and the calls of
//! programs. It keeps what it sends in a list of replies. It knows no other connection, no thread and no clock of its own.
#![tactic(auto)]

mod agreed;
mod kinds;
mod laws;
mod limits;
mod tcb;

pub use agreed::Agreed;
pub use kinds::{AckKind, Answer, Call, Ending, Next, State, Step};
pub use laws::{
    a_challenge_is_alone, a_segment_adds_little, a_server_beside_keeps_a_block,
    acknowledged_numbers_and_bytes_go_together, at_most_one_deadline_is_set, every_block_is_valid,
    forgetting_keeps_what_is_acknowledged, nothing_fires_before_the_next_deadline,
    output_moves_no_text, sequence_numbers_have_one_order, shortening_lengthens_no_segment,
    streams_grow_little, timers_move_no_text,
};
pub use limits::{DEFAULT_MSS, LAST_TIME, PLAIN_SPACE};
pub use tcb::Tcb;
