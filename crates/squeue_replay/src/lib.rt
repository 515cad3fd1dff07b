//! One squeue, gone through again by its marks.
//!
//! A history of a squeue is a list of marks: who entered what, who took the perimeter, processed, granted, left. Given such a list
//! by someone who isn't believed, this crate says mark by mark whether it is legal where it stands, and what it does. Nothing runs
//! at the same time, and nothing waits.
//!
//! - `marks` has a mark as it is read from a line.
//! - `squeue` has the state of one squeue and what each mark does to it, in time for what the mark itself lists: beside the state
//!   stand counts, for each pass of what it may still enter, for each connection (`guest`) of what it had and what is queued.
//! - `pace` says whether a ring's marks keep homes, mode and budget.
#![tactic(auto)]

mod guest;
mod marks;
mod pace;
mod squeue;

pub use guest::Guest;
pub use marks::ReadMark;
pub use pace::{Met, PaceCheck};
pub use squeue::{ReplayedSqueue, RunSetup, stay_of};
