//! A connection's block with a character generator behind it (as RFC 864, with a pattern of its own).
//!
//! The service itself is `Chargen` of `echo_services`; this is a block with it. What comes is thrown away; what is offered is one
//! pattern, which goes on where the last connection of the block left it, up to 65,535 bytes in the block's life.
#![tactic(auto)]

mod generator;
mod laws;

pub use echo_services::pattern;
pub use generator::GenBlock;
pub use laws::{
    a_segment_adds_little, every_served_block_is_valid, serving_is_kept, the_pattern_is_offered,
};
