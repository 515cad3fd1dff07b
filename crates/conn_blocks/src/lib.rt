//! A connection's block: its TCP state, what was done to it, and in which order.
//!
//! `serve_one` serves one order of acts on one thread. `Blocks` is what a squeue serves: the blocks of the connections that are
//! at it. A block knows no squeue and no other connection.
#![tactic(auto)]

mod block;
mod blocks;
mod calls;
mod facts;
mod holding;
pub mod laws;
mod limits;
mod services;
mod stages;

pub use block::{Block, serve_one};
pub use blocks::Blocks;
pub use calls::Calls;
pub use facts::Origin;
pub use limits::{CALLERS, MOST_CALLS};
pub use perimeter_core::Act;
pub use services::service_in;
