//! What a thread has of a stream: while it is at no squeue, and while it stays at one.
ghost use Rattle.std.specs.Prelude.{◌≡◌, ◌+◌, ◌^◌, ◌<◌, ◌≤◌, length};
ghost use Rattle.rtrb.specs.Ring.{sent};

use perimeter_core::Known;
use rtrb::Producer;
use squeue_streams::Stream;

/// A stream that is at no squeue: the end of its ring that pushes, its part, its number, and how often it may still leave a squeue.
#[derive(Drop)]
pub struct Vacant<T: Drop, S: Drop> {
    pub producer: Producer<T>,
    pub part: Stream<T, S>,
    pub stream: u32,
    pub leaves: u64,
}

/// A stream that stays at a squeue: the end of its ring that pushes, and for contracts alone that end as it was when the stay began;
/// its number, and how often it may still leave; how many items were pushed since, and how many of their feeds are entered.
#[derive(Drop)]
pub struct Stay<T: Drop> {
    pub(crate) producer: Producer<T>,
    pub(crate) first: Known<Producer<T>>,
    pub(crate) stream: u32,
    pub(crate) leaves: u64,
    pub(crate) pushed: u32,
    pub(crate) entered: u32,
    ghost order: { (entered ≤ pushed) × (pushed < 2 ^ 32) },
    ghost count: { length (sent producer) ≡ length (sent first.value) + pushed },
}
