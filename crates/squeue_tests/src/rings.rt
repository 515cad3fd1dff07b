//! Worked rows on one thread, and a ring between two threads.

ghost use Rattle.std.specs.Prelude.{◌≡◌, ◌+◌, ◌≤◌};

use poll_ring::*;
use std::alloc::Global;
use std::process::Abort;
use std::sync::Wait;
use std::test::*;
use std::thread::{Threads, join_mut};

#[test]
fn ring_of_three(rt: HostRuntime) -> Result<(), Fail> {
    let (ring, mut feed, mut poll) = Ring::make(rt.alloc(), 3)?;
    assert_eq!(rt; ring.pop_chain(&rt, &mut poll, 1), (0, 0));
    ring.push(&rt, &mut feed);
    ring.push(&rt, &mut feed);
    ring.push(&rt, &mut feed);
    assert_eq!(rt; ring.pop_chain(&rt, &mut poll, 2), (0, 2));
    assert_eq!(rt; ring.left(&poll), 1);
    assert_eq!(rt; ring.cleanup(&rt, &mut poll), (2, 1));
    assert_eq!(rt; ring.left(&poll), 0);
    Ok(())
}

// Fewer than `most` come only where the ring was found empty, or where all were popped.
#[test]
fn a_chain_is_as_long_as_it_may_be(rt: HostRuntime) -> Result<(), Fail> {
    let (ring, mut feed, mut poll) = Ring::make(rt.alloc(), 70)?;
    puts(&rt, &ring, &mut feed, 40);
    assert_eq!(rt; ring.pop_chain(&rt, &mut poll, 32), (0, 32));
    assert_eq!(rt; ring.pop_chain(&rt, &mut poll, 1), (32, 1));
    assert_eq!(rt; ring.pop_chain(&rt, &mut poll, 32), (33, 7));
    assert_eq!(rt; ring.pop_chain(&rt, &mut poll, 32), (40, 0));
    puts(&rt, &ring, &mut feed, 30);
    assert_eq!(rt; ring.pop_chain(&rt, &mut poll, 29), (40, 29));
    assert_eq!(rt; ring.pop_chain(&rt, &mut poll, 32), (69, 1));
    assert_eq!(rt; ring.pop_chain(&rt, &mut poll, 32), (70, 0));
    assert_eq!(rt; ring.cleanup(&rt, &mut poll), (70, 0));
    Ok(())
}

// An end that is gone changes nothing at the other end, and the ring may go before its ends.
#[test]
fn what_was_put_outlives_its_feeder(rt: HostRuntime) -> Result<(), Fail> {
    let (ring, mut feed, mut poll) = Ring::make(rt.alloc(), 2)?;
    puts(&rt, &ring, &mut feed, 2);
    drop(feed);
    assert_eq!(rt; ring.pop_chain(&rt, &mut poll, 32), (0, 2));
    let (other, mut feed, poll) = Ring::make(rt.alloc(), 2)?;
    drop(poll);
    puts(&rt, &other, &mut feed, 1);
    drop(other);
    Ok(())
}

#[test]
fn a_thousand_numbers_from_thread_to_thread(rt: HostRuntime) -> Result<(), Fail> {
    // how many chains are taken that give nothing before `cleanup` is called; the first calls it at once
    for patience in [0, 10, u32::MAX] {
        passes_all(&rt, rt.alloc(), 1000, patience);
    }
    Ok(())
}

// One thread puts all numbers, and the other finds each of them once, in order.
fn passes_all<R: Threads + Wait + Sync + Abort>(rt: &R, alloc: Global, capacity: u32, patience: u32)
    requires { 1 ≤ capacity }
{
    let (ring, mut feed, mut poll) = Ring::make(alloc, capacity).expect(rt, "memory");
    let ring = &ring;
    let ((), found) = join_mut(
        rt,
        &mut || puts(rt, ring, &mut feed, capacity),
        &mut || finds_all(rt, ring, &mut poll, patience),
    );
    assert_eq!(rt; found, capacity);
    assert_eq!(rt; ring.left(&poll), 0);
}

// Puts so many numbers.
fn puts<W: Wait>(rt: &W, ring: &Ring, end: &mut FeedEnd, count: u32)
    requires ring { end.old.ring ≡ ring.now.ring }
    requires room { end.old.put + count ≤ ring.now.capacity }
    ensures { end.new ≡ record end.old { put = end.old.put + count } }
{
    for _ in 0..count {
        ring.push(rt, end);
    }
}

// Takes all numbers, each of which has to be the next one, and says how many came.
fn finds_all<W: Wait + Abort>(rt: &W, ring: &Ring, end: &mut PollEnd, patience: u32) -> u32
    requires ring { end.old.ring ≡ ring.now.ring }
    ensures ring { end.new.ring ≡ end.old.ring }
{
    let mut next = 0u32;
    let mut empty = 0u32;
    for _ in rt.forever() {
        if ring.left(end) == 0 {
            break;
        }
        let (first, count) = if empty < patience {
            ring.pop_chain(rt, end, 32)
        } else {
            ring.cleanup(rt, end)
        };
        assert_eq!(rt; first, next);
        next = next.checked_add(count).expect(rt, "a count");
        if count == 0 {
            empty = empty.saturating_add(1);
        }
    }
    next
}
