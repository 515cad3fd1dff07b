//! The owner of a perimeter, its drain, and the worker.
//!
//! An owner holds the resident and a hand of entries, and processes the hand from the front, outside of the gate: each feed
//! goes to the resident. When the hand is used up one turn decides whether the owner takes what was queued meanwhile or
//! leaves. When it meets the Ask of another pass, it hands the perimeter over. `drain` is an owner with a budget of feeds.
//! `worker` is the thread that comes where something is queued and nobody has the perimeter. Nothing here takes memory but
//! the resident's feeds. What tests hold, not a clause, is that no entry is processed while the gate is held.
#![tactic(auto)]

mod draining;
pub mod laws;
mod owner;
mod working;

pub use draining::{drain, serve_one};
pub use owner::{Owner, is_free, process};
pub use working::worker;
