//! Whether a report with marks is that of histories that fit its setup, over a capture.
//!
//! Who runs squeues with threads says afterwards what each squeue did, mark by mark. This crate believes none of it. It reads the
//! report's own lines on the setup, the calls and the marks, goes through the marks of each squeue again, one by one, and serves
//! on one thread the orders that they give. A report passes only if all of that fits, and its first reason to fail is told.
//!
//! The parts, in the order in which a report meets them:
//! - `input` finds where the report ends and the capture begins; no part of either is copied but the capture, once, into a list of
//!   its own.
//! - `trace_lines`, a crate below, reads lines. Mark lines are only looked at there; they are read again, one by one, as they are
//!   replayed, so that no list of marks is kept.
//! - `squeue_replay`, another one, has the state of one squeue and what each mark does to it.
//! - `replaying` goes through the marks of all squeues; `orders` joins what was done to each connection in all its stays, and
//!   serves it; `comparing` holds the lines on connections against the report of what was served.
//! - `run` is the top call, `reason` why a report fails, and `process` the one place that touches the process' ends.
//!
//! There is no thread here but in the decoding of the plan, and nothing waits.
#![tactic(auto)]

mod comparing;
mod input;
pub mod laws;
mod orders;
mod process;
mod reason;
mod replaying;
mod run;

pub use process::run_process;
pub use reason::Reason;
pub use run::{Replayed, replay_run, replay_within};
