//! Runs whose places are opened anew as they go, whose room is full most of the time, and in which somebody looks.
ghost use Rattle.std.specs.Prelude.{◌≤◌, ◌^◌};

use crate::serving::{RunEnd, Size, sum_for};
use crate::source::Stint;
use squeue_arrivals::SPAN;
use std::process::Abort;
use std::sync::Wait;
use std::sync::atomic::AtomicU32;
use std::test::*;
use std::thread::Threads;
use std::time::Clock;

// What is left of a run by so many rings, each of which has brought so many rounds of the amounts 0 to 999. All are counted.
fn counts<'a, W: Threads + Wait + Clock + Print + Sync + AllocGlobal + Abort>(
    rt: &'a W,
    looked: &'a AtomicU32,
    size: Size,
) -> RunEnd<'a, W>
    requires rings { (1 ≤ size.rings) × (size.rings ≤ 62) }
    requires room { (1 ≤ size.room) × (size.room ≤ 2 ^ 30) }
{
    let rounds = u64::from(size.rings).saturating_mul(u64::from(size.stint.rounds));
    let left = sum_for(rt, rt.alloc(), looked, size).expect(rt, "a run");
    assert_eq!(rt; left.end.amounts, rounds.saturating_mul(1_000));
    assert_eq!(rt; left.end.total, rounds.saturating_mul(499_500));
    left
}

// So many rounds, however long they last.
fn rounds(rounds: u32) -> Stint {
    Stint {
        seconds: 0,
        rounds,
        pause: 0,
    }
}

// The place of a ring is opened anew before each amount, or behind some of them.
#[test]
fn places_are_opened_anew(rt: HostRuntime) {
    for (rings, room, span) in [(2, 4, 300), (1, 1, 1), (3, 64, 0)] {
        let size = Size {
            rings,
            room,
            stint: rounds(1),
            span,
        };
        let looked = AtomicU32::new(0);
        let left = counts(&rt, &looked, size);
        assert!(rt; left.squeue.last.is_none());
    }
}

// Rings flood a squeue with less room than one chain of theirs would take, and all that each brings finds its place.
#[test]
fn rooms_are_full(rt: HostRuntime) {
    for (rings, room) in [(3, 1), (2, 2), (2, 63)] {
        let size = Size {
            rings,
            room,
            stint: rounds(2),
            span: SPAN,
        };
        let looked = AtomicU32::new(0);
        let _left = counts(&rt, &looked, size);
    }
}

// The first ring rests for a fifth of a millisecond after each amount, while the others flood the room for a second. What each ring
// has brought is counted, that of the slow one too.
#[test]
fn one_ring_is_slow(rt: HostRuntime) {
    for (rings, room) in [(2, 1), (3, 64)] {
        let stint = Stint {
            seconds: 1,
            rounds: 1,
            pause: 200,
        };
        let size = Size {
            rings,
            room,
            stint,
            span: SPAN,
        };
        let looked = AtomicU32::new(0);
        let left = sum_for(&rt, rt.alloc(), &looked, size).expect(&rt, "a run");
        let mut brought = 0u64;
        for ring in &left.rings {
            let count = ring.source.count();
            assert!(rt; count >= 1_000);
            assert_eq!(rt; ring.parts.len(), 1);
            assert_eq!(rt; ring.parts[0].state.amounts, count);
            brought = brought.wrapping_add(count);
        }
        assert_eq!(rt; left.end.amounts, brought);
        assert_eq!(rt; left.end.total, (brought / 1_000).saturating_mul(499_500));
    }
}

// What is seen after a second is kept, and is no more than what is counted at the end.
#[test]
fn who_looks_sees_a_beginning(rt: HostRuntime) {
    let stint = Stint {
        seconds: 1,
        rounds: 1,
        pause: 0,
    };
    let size = Size {
        rings: 1,
        room: 64,
        stint,
        span: SPAN,
    };
    let looked = AtomicU32::new(0);
    let left = sum_for(&rt, rt.alloc(), &looked, size).expect(&rt, "a run");
    let last = left.squeue.last.expect(&rt, "a look");
    assert!(rt; left.squeue.told);
    assert!(rt; last.amounts > 0);
    assert!(rt; last.amounts <= left.end.amounts);
}
