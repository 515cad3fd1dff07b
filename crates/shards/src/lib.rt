//! Squeues as shards: what several rings bring to one squeue, and what they share there.
//!
//! Ring p of each squeue belongs to one source. It fills a *parcel*, pushes it onto its lane to the squeue, and enters one
//! feed for it. Whoever owns the squeue pops the parcel and has what all rings share take it, whatever that is: this is
//! [`Shared`]. The parcel goes back by the same lane with what came of it, so parcels go round and nothing is allocated.
//!
//! A [`Shard`] is the resident that does so. It has as many connections as rings, and no key, connection or frame has a place
//! in it: its parts only count the feeds of a ring, so a ring's numbers are renewed by taking its part out and putting a new
//! one in. What it stands for has a *log* of all parcels, oldest first: each with its ring, as it came and as it went back.
//! Of each ring the log has what was popped of its lane, in order, and what was pushed back; and what is shared is made of the
//! log. The log exists in contracts alone and takes no memory. [`Written`] is an example: rings write bytes behind one another.
//!
//! It never says which squeue a parcel is for, never opens a parcel, and never waits but for a parcel whose feed it does and
//! for room to give it back.
#![tactic(auto)]

mod counting;
mod lanes;
mod shard;
mod shared;
mod taking;
#[cfg(test)]
mod tests;
mod written;

pub use counting::{Counted, Counting};
pub use lanes::{RingEnd, SqueueEnd, lane};
pub use shard::Shard;
pub use shared::Shared;
pub use written::Written;
