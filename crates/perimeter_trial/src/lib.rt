//! The machine on worked histories, and the plainest resident: what tests of `perimeter_core` and of the crates above run on.
#![tactic(auto)]

mod logs;
pub mod worked;

pub use logs::{Log, Logs};
