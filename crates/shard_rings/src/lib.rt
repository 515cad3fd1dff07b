//! Rings that bring parcels to several squeues, and what each squeue's rings share.
//!
//! Source p is ring p of every squeue. It has a lane to each; [`Brings`] is what it does with them, by [`Lanes`]: it sends a
//! parcel to a squeue, and takes one that is back. Sending is a push and one feed. The owner of the squeue has what its rings
//! share take the parcel, as a [`shards::Shard`] does. [`run_shards`] is a whole run: a thread for each ring and a worker for each
//! squeue.
//!
//! A ring that waits for a parcel has the squeue do all its feeds, so it needs no other thread for that. What comes back by a lane comes in
//! the order in which it was sent. It never chooses a squeue for a parcel, as a ring does, and never opens one.
#![tactic(auto)]

mod bringing;
mod cell;
mod doing;
mod ending;
mod lanes;
mod making;
mod pool;
mod ring;
mod run;
#[cfg(test)]
mod tests;
mod way;

pub use bringing::Brings;
pub use lanes::Lanes;
pub use pool::{SPAN, ShardPool};
pub use run::{ServedShard, run_shards};
