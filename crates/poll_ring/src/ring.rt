//! The ring itself. What its calls give is what the queue gave; the ends count.

ghost use Rattle.std.specs.Prelude.{◌≡◌, ◌+◌, ◌^◌, ◌<◌, ◌≤◌, IfOk, MatchOption};
ghost use Rattle.crossbeam_queue.specs.Passes.{ruled_capacity};
ghost use Rattle.poll_ring.specs.Rings.{RingSize};

use crate::ends::{FeedEnd, PollEnd};
use crate::rule::{NextOnes, Popped, Put, TwoEnds, View};
use crossbeam_queue::RuledArrayQueue;
use std::alloc::{AllocError, Global};
use std::marker::Model;
use std::sync::Wait;
use std::thread;

/// A ring, which gives the numbers 0, 1, 2 up to its capacity. Threads share it by reference. Contracts see which one it
/// is, and its capacity.
///
/// # Example
///
/// ```
/// let (ring, mut feed, mut poll) = Ring::make(rt.alloc(), 3)?;
/// assert_eq!(rt; ring.pop_chain(&rt, &mut poll, 1), (0, 0));
/// ring.push(&rt, &mut feed);
/// ...
/// assert_eq!(rt; ring.pop_chain(&rt, &mut poll, 2), (0, 2));
/// assert_eq!(rt; ring.left(&poll), 1);
/// assert_eq!(rt; ring.cleanup(&rt, &mut poll), (2, 1));
/// ```
#[derive(Drop)]
pub struct Ring {
    // It has a slot for each number, and so no slot is used twice.
    queue: RuledArrayQueue<u32, View, NextOnes>,
    capacity: u32,
}

impl Model for Ring {
    ghost Value = { RingSize };

    ghost view = { λ r. record { ring = r.queue.table.shared.table_id; capacity = r.capacity } };

    ghost invariant = { λ r. (ruled_capacity r.queue ≡ r.capacity) × (r.capacity < 2 ^ 32) };
}

impl Ring {
    /// A ring in which nothing was put, and its two ends. All memory that the ring ever needs is taken here.
    pub fn make(alloc: Global, capacity: u32) -> Result<(Ring, FeedEnd, PollEnd), AllocError>
        requires some { 1 ≤ capacity }
        ensures capacity { IfOk result (λ r. r.0.capacity ≡ capacity) }
        ensures feed { IfOk result (λ r. r.1 ≡ record { ring = r.0.ring; put = 0 }) }
        ensures poll { IfOk result (λ r. r.2 ≡ record { ring = r.0.ring; popped = 0 }) }
    {
        let (queue, mut pass) = RuledArrayQueue::ruled(alloc, capacity as usize)?;
        let taking = queue.another::<TwoEnds>(&mut pass);
        let feed = FeedEnd { pass, put: 0 };
        let poll = PollEnd {
            pass: taking,
            popped: 0,
        };
        Ok((Ring { queue, capacity }, feed, poll))
    }

    /// Puts the next number. There is room for it, so it can't be refused.
    pub fn push<W: Wait>(&self, rt: &W, end: &mut FeedEnd)
        requires ring { end.old.ring ≡ self.now.ring }
        requires room { end.old.put < self.now.capacity }
        ensures { end.new ≡ record end.old { put = end.old.put + 1 } }
    {
        let Ok(()) = self.queue.push_as::<Put, W>(rt, &mut end.pass, end.put) else {
            unreachable!()
        };
        end.put += 1;
    }

    /// Takes a chain: its first number, and how many numbers it has, at most `most`. Fewer come only where a pop of this
    /// call found the ring empty, or where all were popped. A `push` that is under way may be waited for, one that
    /// hasn't begun never is.
    pub fn pop_chain<W: Wait>(&self, rt: &W, end: &mut PollEnd, most: u32) -> (u32, u32)
        requires ring { end.old.ring ≡ self.now.ring }
        requires most { (1 ≤ most) × (most ≤ 32) }
        ensures first { result.0 ≡ end.old.popped }
        ensures most { result.1 ≤ most }
        ensures popped { end.new ≡ record end.old { popped = end.old.popped + result.1 } }
        ensures capacity { end.new.popped ≤ self.now.capacity }
    {
        let first = end.popped;
        for _ in 0..most {
            if end.popped == self.capacity || self.pop(rt, end).is_none() {
                break;
            }
        }
        (first, end.popped - first)
    }

    /// Takes all numbers that are left up to the capacity as one chain: its first number, and how many numbers it has.
    /// It waits for those that aren't put yet.
    pub fn cleanup<W: Wait>(&self, rt: &W, end: &mut PollEnd) -> (u32, u32)
        requires ring { end.old.ring ≡ self.now.ring }
        ensures first { result.0 ≡ end.old.popped }
        ensures count { end.old.popped + result.1 ≡ self.now.capacity }
        ensures popped { end.new ≡ record end.old { popped = self.now.capacity } }
    {
        let first = end.popped;
        for _ in rt.forever() {
            if end.popped == self.capacity {
                break;
            }
            if self.pop(rt, end).is_none() {
                thread::yield_now();
            }
        }
        (first, end.popped - first)
    }

    /// How many numbers are still to be popped: the capacity less those that were popped.
    pub fn left(&self, end: &PollEnd) -> u32
        requires ring { end.now.ring ≡ self.now.ring }
        ensures { end.now.popped + result ≡ self.now.capacity }
    {
        self.capacity - end.popped
    }

    // Takes the next number, or finds the ring empty.
    fn pop<W: Wait>(&self, rt: &W, end: &mut PollEnd) -> Option<u32>
        requires ring { end.old.ring ≡ self.now.ring }
        requires some { end.old.popped < self.now.capacity }
        ensures { MatchOption result (end.new ≡ end.old) (λ n. (n ≡ end.old.popped) × (end.new ≡ record end.old { popped = n + 1 })) }
    {
        let number = self.queue.pop_as::<Popped, W>(rt, &mut end.pass)?;
        end.popped = number + 1;
        Some(number)
    }
}
