//! Services behind a connection: echo (RFC 862), discard (RFC 863), a character generator (RFC 864), daytime (RFC 867), and what any
//! service has to be.
//!
//! A service works on a block through its public calls alone. It answers no segment itself; output follows its pump. Each has a file
//! here and a definition of the same name in `specs/`.
#![tactic(auto)]

mod chargen;
mod closing;
mod daytime;
mod discard;
mod echo;
mod laws;
mod port_service;
mod service;
mod serving;
mod text;
mod worked;

pub use chargen::Chargen;
pub use daytime::Daytime;
pub use discard::Discard;
pub use echo::Echo;
pub use laws::{
    a_segment_adds_little, echo_offers_what_it_took, every_served_block_is_valid,
    services_are_pumps, serving_is_kept,
};
pub use port_service::PortService;
pub use service::{Service, pump};
pub use serving::{ask, serve, tick};
pub use text::pattern;
pub use worked::{
    closed_by_a_call, daytime_behind_the_close, daytime_closes_first, daytime_small_window,
    exchanges, five_segment_echo, handshake_retransmissions, repeated_syn, reset_at_next,
    reset_before_window, reset_behind_window, reset_in_window, scale_over_fourteen,
    scaled_five_segment_echo, scaled_small_window, sequence_numbers_wrap, small_buffer,
    text_out_of_order, tuple_used_again, zero_window_probe,
};
