//! What is told each second: the total so far.
ghost use Rattle.std.specs.Prelude.{◌≡◌};
ghost use Rattle.endless_counters.specs.Counting.{AreSummed, held_at};

use crate::totals::Total;
use squeue_arrivals::Watches;
use squeue_streams::Stream;
use std::sync::atomic::{AtomicU32, Ordering};
use std::thread;
use std::time::{Clock, Duration, Instant};

/// A look at the end of each of so many seconds, from a start on, where there is one. How many were made is counted.
#[derive(Drop)]
pub struct Seconds<'r, W> {
    pub rt: &'r W,
    pub looked: &'r AtomicU32,
    pub start: Option<Instant>,
    pub seconds: u32,
}

impl<W: Clock + Print> Watches<u32, Total> for Seconds<'_, W> {
    type Seen = Total;

    ghost many = { λ s. s.seconds };

    ghost says = { λ _. AreSummed held_at };

    fn looks(&self) -> u32 {
        self.seconds
    }

    fn wait(&self, look: u32) {
        let mut left = Duration::from_secs(1);
        if let Some(start) = self.start {
            if let Ok(passed) = start.elapsed(self.rt) {
                left = Duration::from_secs(u64::from(look) + 1).saturating_sub(passed);
            }
        }
        thread::sleep(self.rt, left);
    }

    fn read(&self, parts: &[Option<Stream<u32, Total>>]) -> Total {
        let mut all = Total::zero();
        for place in parts {
            all = all.and(held(place));
        }
        all
    }

    fn tell(&self, _squeue: u32, look: u32, seen: &Total) -> bool {
        self.looked.fetch_add(1, Ordering::SeqCst);
        println!(self.rt; "second {look} {seen}").is_ok()
    }
}

// What the part at a place holds.
fn held(place: &Option<Stream<u32, Total>>) -> Total
    ensures { result ≡ held_at place.now }
{
    match place {
        Some(stream) => *stream.state(),
        None => Total::zero(),
    }
}
