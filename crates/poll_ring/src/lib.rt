//! A receive ring: where the numbers of received packets go from the thread that brings them to the thread that enters
//! them.
//!
//! In illumos a receive ring of a network device belongs to one squeue, and has two sides. The device puts packets, one
//! by one, as they arrive, and never asks who takes them. While the squeue is busy it turns interrupts off, and its poll
//! thread takes a whole chain of packets at once, as many as may come. So each side has a thread of its own, and neither
//! holds a lock while it works on the packets.
//!
//! A `Ring` here gives the numbers 0, 1, 2 up to its capacity, each once and in order, and is then spent. A `FeedEnd`
//! puts the next number, and a `PollEnd` takes a chain of those that were put. One thread has the one end, another the
//! other, and both share the ring. It is a bounded queue with room for all numbers, so that a put can't be refused.
//! Between any two steps the queue holds the numbers from how many were popped to how many were put less one, and each
//! end knows its own count. This rule (`specs/Rule.antt`) survives each step, so a popped number is the next one,
//! whatever the other end does at the same time, and no number is lost or comes twice.
//!
//! A ring takes no memory after `make`, and waits for a number that isn't put yet in `cleanup` alone.
//!
//! Ring and ends may be dropped at any time and in any order. An end that is gone changes nothing at the other end: what
//! was put is still popped, and puts are still taken in. But nothing makes a new end, so a `cleanup` waits for ever where
//! the feeder's end went early. The numbers that a ring still holds go with it, and its ends fit no other ring.
#![tactic(auto)]

mod ends;
mod ring;
mod rule;

pub use ends::{FeedEnd, PollEnd};
pub use ring::Ring;
