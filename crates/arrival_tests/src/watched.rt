//! Sums by key, and somebody who looks at them while they grow.
use arriving_counters::Adding;
use squeue_arrivals::{ArrivalPool, Listed, SPAN, Watches, serve_watched};
use squeue_enter::Mode;
use squeue_streams::Stream;
use std::alloc::{AllocError, Global};
use std::test::*;
use std::thread::yield_now;

// Who looks three times at the sum of all keys of a squeue, and tells the first two looks.
struct Looker;

impl Watches<u32, u64> for Looker {
    type Seen = u64;

    ghost many = { λ _. 3 };

    ghost says = { λ _ _ _. Unit {0} };

    fn looks(&self) -> u32 {
        3
    }

    fn wait(&self, _look: u32) {
        yield_now();
    }

    fn read(&self, parts: &[Option<Stream<u32, u64>>]) -> u64 {
        let mut all = 0u64;
        for place in parts {
            all = all.wrapping_add(sum_at(place));
        }
        all
    }

    fn tell(&self, _squeue: u32, look: u32, _seen: &u64) -> bool {
        look < 2
    }
}

fn sum_at(place: &Option<Stream<u32, u64>>) -> u64 {
    match place {
        Some(stream) => *stream.state(),
        None => 0,
    }
}

// A list of the amounts below 300, each with the key that is its remainder by three.
fn amounts(alloc: Global) -> Result<Listed<u32>, AllocError> {
    let mut items = Vec::new(alloc);
    for n in 0..300 {
        items.push((u64::from(n % 3), n))?;
    }
    Ok(Listed::of(items))
}

// Each of two squeues serves a list. What the last look has seen is no more than the sum of all in the end, 44850, and that this look isn't told is kept.
#[test]
fn sums_are_watched(rt: HostRuntime) -> Result<(), Fail> {
    let alloc = rt.alloc();
    let pool = ArrivalPool {
        squeues: 2,
        places: 3,
        room: 16,
        mode: Mode::Process,
        budget: 4,
        span: SPAN,
    };
    let sources = vec![in alloc; amounts(alloc)?, amounts(alloc)?]?;
    let served = serve_watched(&rt, alloc, &pool, Adding, &Looker, sources)?;
    assert_eq!(rt; served.sources.len(), 2);
    for source in &served.sources {
        assert_eq!(rt; source.parts.len(), 3);
        assert_eq!(rt; source.parts[0].state, 14_850);
    }
    assert_eq!(rt; served.squeues.len(), 2);
    for squeue in &served.squeues {
        assert!(rt; !squeue.told);
        let last = squeue.last.expect(&rt, "a look");
        assert!(rt; last <= 44_850);
    }
    Ok(())
}
