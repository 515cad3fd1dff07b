//! Which amounts a ring gives: 0 to 999, round after round.
ghost use Rattle.std.specs.Prelude.{◌≡◌, ◌+◌, ◌*◌, ◌<◌, ◌≤◌, [], length, true, false};
ghost use Rattle.squeue_arrivals.specs.Giving.{given_by};
ghost use Rattle.endless_counters.specs.Rounds.{AreRounds, HasDone};

use squeue_arrivals::{Arrival, Arrivals, GivenItems};
use std::sync::atomic::{AtomicU32, Ordering};
use std::thread;
use std::time::{Clock, Duration, Instant};

/// So many amounts there are in a round.
pub const ROUND: u32 = 1_000;

// So many seconds a ring goes on for a look that is late.
const LATE: u64 = 10;

// So many rounds there are in the life of a ring, which serves 2^49 items.
const MOST: u64 = 562_949_953_421;

/// How long a ring gives amounts: so many seconds, and so many rounds at least; and how many microseconds it rests after each amount. There is a look
/// in each of the seconds.
#[derive(Clone, Copy)]
pub struct Stint {
    pub seconds: u32,
    pub rounds: u32,
    pub pause: u32,
}

/// Rounds of amounts, one at least, until the stint is over. Where the last look is late, they go on for up to ten seconds, so that it finds them.
/// The seconds are over too where the clock fails, and the stint with the 562949953421st round. The amounts have one key, 0.
#[derive(Drop)]
pub struct Amounts<'r, W: Clock> {
    rt: &'r W,
    looked: &'r AtomicU32,
    stint: Stint,
    start: Option<Instant>,
    rounds: u64,
    next: u32,
    given: GivenItems<u32>,
    ghost are: { AreRounds (rounds * 1000 + next) (given_by given) },
    ghost short: { next < 1000 },
    ghost life: { rounds * 1000 + next ≤ 562949953421000 },
}

impl<'r, W: Clock> Amounts<'r, W> {
    ghost use Rattle.endless_counters.specs.Sources.{amounts_by, stint_of};

    /// The amounts of a stint that begins now, of which none was given. The number of looks so far stands in `looked`.
    pub fn of(rt: &'r W, looked: &'r AtomicU32, stint: Stint) -> Amounts<'r, W>
        ensures stint { stint_of result ≡ stint }
        ensures none { amounts_by result ≡ [] }
    {
        Amounts {
            rt,
            looked,
            stint,
            start: Instant::now(rt).ok(),
            rounds: 0,
            next: 0,
            given: GivenItems::none(),
        }
    }

    /// How many amounts were given.
    pub fn count(&self) -> u64
        ensures { result ≡ length (amounts_by self.now) }
    {
        self.rounds * u64::from(ROUND) + u64::from(self.next)
    }

    // Whether no round begins any more: the stint is over, or the life is.
    fn is_done(&self) -> bool
        ensures done { result ≡ true → (1 ≤ self.now.rounds) × (self.now.stint.rounds ≤ self.now.rounds) }
        ensures open { result ≡ false → self.now.rounds < 562949953421 }
    {
        let least = u64::from(self.stint.rounds).max(1);
        if self.rounds >= MOST {
            return true;
        }
        self.rounds >= least && self.is_over()
    }

    // Whether the seconds are over, and all looks were made or are late.
    fn is_over(&self) -> bool {
        let Some(start) = self.start else {
            return true;
        };
        match start.elapsed(self.rt) {
            Ok(time) => self.is_late(time.as_secs()),
            Err(_) => true,
        }
    }

    // Whether so many seconds are as many as the stint has, with all looks made, or so many more that these are late.
    fn is_late(&self, passed: u64) -> bool {
        let seconds = u64::from(self.stint.seconds);
        if passed < seconds {
            return false;
        }
        self.looked.load(Ordering::SeqCst) >= self.stint.seconds || passed >= seconds + LATE
    }

    // Sleeps for as long as it is to after each amount, where there was one.
    fn rest(&self) {
        if self.stint.pause > 0 && self.count() > 0 {
            thread::sleep(self.rt, Duration::from_micros(u64::from(self.stint.pause)));
        }
    }
}

impl<W: Clock> Arrivals for Amounts<'_, W> {
    ghost use Rattle.endless_counters.specs.Sources.{amounts_by, stint_of};

    type Item = u32;

    type Origin = Stint;

    ghost origin = { stint_of };

    ghost given = { amounts_by };

    ghost is_over = { λ s. HasDone (stint_of s).rounds (amounts_by s) };

    fn next(&mut self) -> Arrival<u32> {
        self.rest();
        if self.next == 0 && self.is_done() {
            return Arrival::End;
        }
        let arrival = Arrival::Item(0, self.next);
        self.given = self.given.and(&arrival);
        self.next += 1;
        if self.next == ROUND {
            self.next = 0;
            self.rounds += 1;
        }
        arrival
    }

    fn stop(&mut self) {}
}
