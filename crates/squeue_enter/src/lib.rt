//! How a thread enters a squeue with what it brings.
//!
//! An entry holds the gate once to decide, and in the mode and what it finds there lies what it does: it queues its feeds,
//! or it takes the perimeter as owner and processes them itself. It answers what it did, how much is queued after it, and
//! whether the ring is to bring chains. It takes no memory but in the resident.
#![tactic(auto)]

mod entering;

pub use entering::{Entered, How, enter, enter_or_full, fill_or_full, try_fill};
pub use histories::Mode;
