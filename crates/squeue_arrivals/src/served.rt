//! What is handed back of each source when its ring is done, and of the squeues.

use crate::watching::WatchedEnd;
use perimeter_core::Known;
use squeue_state::{Ended, Pass};

/// What was made of the items of a key.
#[derive(Drop)]
pub struct KeyPart<S> {
    pub key: u64,
    pub state: S,
}

/// Why an item was refused: its ring has no place left for another key, or the source has given as many items as a ring serves, which are
/// 2^49.
#[derive(Clone, Copy)]
pub enum Cause {
    NoPlace,
    LifeIsOver,
}

/// An item that was refused, with its key and the cause. Nothing was made of it.
#[derive(Drop)]
pub struct Refused<T> {
    pub key: u64,
    pub item: T,
    pub cause: Cause,
}

/// What is left of a source that is served: the source, what was made of each key that came, in the order in which the keys came first;
/// and the item at which the ring stopped, where it didn't stop at the source's end.
#[derive(Drop)]
pub struct ServedSource<A, T, S> {
    pub source: A,
    pub parts: Vec<KeyPart<S>>,
    pub refused: Option<Refused<T>>,
    /// The pass of its ring when that was done, for contracts alone.
    pub pass: Known<Pass>,
}

/// What is left of all sources, by number, and of the squeues that served them, in order: each squeue served the sources behind those of the
/// squeues before it, by rings numbered from 0.
#[derive(Drop)]
pub struct Arrived<A, T, S> {
    pub sources: Vec<ServedSource<A, T, S>>,
    pub squeues: Vec<Ended>,
}

/// The same of squeues that were watched.
#[derive(Drop)]
pub struct WatchedArrived<A, T, S, Z> {
    pub sources: Vec<ServedSource<A, T, S>>,
    pub squeues: Vec<WatchedEnd<Z>>,
}
