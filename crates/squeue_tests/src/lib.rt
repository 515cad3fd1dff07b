//! Tests of the squeues.
//!
//! `worked` has rows of a squeue: each test but that of the modes' words makes a squeue, brings feeds with `enter`, on one thread or on
//! two, and reads from the trace and from the resident what was done. The resident is of logs, or one that finds memory wanting at one
//! act. `synchronous` has owners that come at their own Ask, `moves` a move between two squeues, `rings` the rings
//! that are polled, `jobs` what is done in threads beside each other.
#![tactic(auto)]

#[cfg(test)]
mod jobs;
#[cfg(test)]
mod moves;
#[cfg(test)]
mod rings;
#[cfg(test)]
mod synchronous;
#[cfg(test)]
mod worked;
