//! Counters by key behind squeues: a resident of one's own, served from several threads.
//!
//! Each key has a list of amounts, and a counter that adds them up. Several rings bring the items of their keys beside each
//! other, workers add what they leave queued, and the totals are the plain sums of the amounts. `counters` is the
//! resident, `reading` what is read off it, `counting` the whole from the amounts to the totals.
#![tactic(auto)]

mod counters;
mod counting;
mod reading;

pub use counters::{Amounts, Counter, Counters};
pub use counting::count;
pub use reading::{last_reading, new_counters, totals_of};
