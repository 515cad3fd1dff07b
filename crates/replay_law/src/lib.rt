//! What `sqrun` wrote with its marks replays.
//!
//! The runner and the checker stand on the same definitions, and neither stands on the other. Only the law that joins them knows
//! both, so it has a crate of its own, which no program stands on. Nothing here is called.
#![tactic(auto)]

pub mod laws;
