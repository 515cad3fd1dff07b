//! The ends of a stream: before it is served, and when it has ended.

use live_run::Fault;
use perimeter_core::Known;
use squeue_state::{Ended, Pass};

/// The two ends of a stream: where it is read, and where what is answered is written.
#[derive(Drop)]
pub struct Ends<S, K> {
    pub reader: S,
    pub sink: K,
}

/// A stream that has ended: where it was read, where it was written, and what went wrong, where something did; and whether memory was
/// missing and a connection, or some of what it sent, was lost.
#[derive(Drop)]
pub struct EndedRing<S, K> {
    pub reader: S,
    pub sink: K,
    pub fault: Option<Fault>,
    pub lost: bool,
    /// The pass of its ring when it had ended, for contracts alone.
    pub pass: Known<Pass>,
}

/// What is left of all streams, by number, and of the squeues that served them, in order: each squeue served the streams behind those of the
/// squeues before it, by rings numbered from 0.
#[derive(Drop)]
pub struct EndedRings<S, K> {
    pub streams: Vec<EndedRing<S, K>>,
    pub squeues: Vec<Ended>,
}
