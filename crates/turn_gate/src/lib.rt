//! A ticket lock round one value, whose holders see one history.
//!
//! Threads meet at a `Gate`. Each has a `Pass`, takes the gate with it, works on the value and releases it. A release
//! may add one element to the history of the value. The history exists in contracts alone: a pass knows a beginning of
//! it and which elements of it are its own, and a `Held` knows the whole.
//!
//! The gate never waits but in `hold` and `hold_soon`, takes no memory after `make`, and never says who is next.
#![tactic(auto)]

mod gate;
mod held;
mod kept;
pub mod laws;
mod pass;
mod plays;
mod rule;
mod storied;
mod views;

pub use gate::Gate;
pub use held::Held;
pub use pass::{Missed, Pass};
pub use storied::{Names, Storied};
pub use views::LockStep;
