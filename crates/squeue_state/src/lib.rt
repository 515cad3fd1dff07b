//! One squeue: a perimeter behind a gate.
//!
//! The value behind the gate stands for a legal history of the perimeter machine. A turn takes the gate and finds that
//! history; each call that ends a turn adds exactly its mark, or none. Where the machine says that a pass is out, the
//! resident is with that pass; else it lies in the gate. All memory is taken when the squeue is made: the two buffers
//! never grow, since what is queued always fits, and neither does the trace, since a history is bounded.
#![tactic(auto)]

mod bell;
mod ended;
mod entering;
mod event;
mod guarded;
mod hand;
mod inner;
pub mod laws;
mod owning;
mod release;
mod room;
mod squeue;
mod trace;
mod turn;

pub use ended::Ended;
pub use event::{End, Event, Facts, Notes};
pub use guarded::{Guarded, Life};
pub use hand::Hand;
pub use histories::Quota;
pub use inner::Inner;
pub use squeue::{Missed, Pass, Squeue};
pub use trace::{Trace, TraceMark};
pub use turn::Turn;
