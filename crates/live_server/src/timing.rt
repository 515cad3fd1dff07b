//! The retransmission timeout beside a block (RFC 6298): what is known of the round trip, and what a block's timer is started with.
//! It acts on the block by `retime` alone. While the timer runs, the block itself makes it twice as long each time that it expires.

ghost use Rattle.std.specs.Prelude.{◌≡◌, ◌≤◌, true, false};
ghost use Rattle.tcb_machine.specs.Limits.{longest_timeout};
ghost use Rattle.tcb_machine.specs.States.{is_listen};
ghost use Rattle.live_server.specs.Timing.{clocked, computed, ended, expired, is_reached, is_sending, is_started, least_timeout, mark_of, measured, measures, no_timing, opened, retimed, sampled, timeout, unsampled};

use sq_base::seq_dist;
use tcb_machine::{State, Tcb};

/// G: how often the time comes to a connection, in microseconds.
const GRANULARITY: u64 = 20_000;

/// The shortest timeout, and that of a connection of which no round trip was measured.
const LEAST_TIMEOUT: u64 = 1_000_000;

/// That of one whose SYN,ACK was sent again, until a round trip is measured.
const SLOW_TIMEOUT: u64 = 3_000_000;

const LONGEST_TIMEOUT: u64 = 60_000_000;

/// A timeout of a second that is doubled so often is beyond the longest one.
const MOST_DOUBLED: u32 = 6;

/// What is known of the round trip to the peer. Times are in microseconds.
#[derive(Clone, Copy, Debug, PartialEq, Eq)]
pub struct Timing {
    /// Once one was measured.
    pub trip: Option<Trip>,
    /// The SYN,ACK was sent again.
    pub slow: bool,
    /// How often the retransmission timer expired since a round trip was measured, or since the handshake.
    pub timeouts: u32,
    /// The round trip that is being measured.
    pub sample: Option<Sample>,
}

/// The round trips that were measured (RFC 6298, 2).
#[derive(Clone, Copy, Debug, PartialEq, Eq)]
pub struct Trip {
    pub srtt: u64,
    pub rttvar: u64,
}

/// All before `edge`, a sequence number, was sent by the time `at`, and what stands right before it was sent then, and not again.
#[derive(Clone, Copy, Debug, PartialEq, Eq)]
pub struct Sample {
    pub edge: u32,
    pub at: u64,
}

/// What a block was before a step: SND.UNA, SND.NXT, its state, and whether its retransmission timer ran.
#[derive(Clone, Copy, Debug, PartialEq, Eq)]
pub struct Mark {
    pub una: u32,
    pub nxt: u32,
    pub state: State,
    pub running: bool,
}

impl Mark {
    /// What the timeout follows of a block, as it is now.
    pub fn of(tcb: &Tcb) -> Mark
        ensures { result ≡ mark_of tcb.now }
    {
        Mark {
            una: tcb.snd_una(),
            nxt: tcb.snd_nxt(),
            state: tcb.state(),
            running: tcb.retransmit_at().is_some(),
        }
    }
}

impl Timing {
    /// Nothing is known yet.
    pub fn fresh() -> Timing
        ensures { result ≡ no_timing }
    {
        Timing {
            trip: None,
            slow: false,
            timeouts: 0,
            sample: None,
        }
    }

    /// RTO, in microseconds.
    #[tactic(auto, using(crate::proofs::TimingLemmas::doubled_enough), unfolding(crate::specs::Timing::timeout))]
    pub fn timeout(&self) -> u64
        ensures is { result ≡ timeout self.now }
        ensures some { 1 ≤ result }
        ensures most { result ≤ longest_timeout }
    {
        let doubled = 1 << self.timeouts.min(MOST_DOUBLED);
        (self.computed() * doubled).min(LONGEST_TIMEOUT)
    }

    /// RTO before it is doubled.
    fn computed(&self) -> u64
        ensures is { result ≡ computed self.now.slow self.now.trip }
        ensures least { least_timeout ≤ result }
        ensures most { result ≤ longest_timeout }
    {
        match self.trip {
            Some(trip) => {
                let varied = trip.rttvar.saturating_mul(4).max(GRANULARITY);
                trip.srtt
                    .saturating_add(varied)
                    .max(LEAST_TIMEOUT)
                    .min(LONGEST_TIMEOUT)
            }
            None if self.slow => SLOW_TIMEOUT,
            None => LEAST_TIMEOUT,
        }
    }

    /// A segment came, and the block is another one. Maybe something is sent again at once.
    #[tactic(auto, unfolding(crate::specs::Timing::clocked))]
    pub fn follow(&mut self, tcb: &Tcb, before: Mark, now: u64, again: bool)
        ensures { self.new ≡ clocked now again before tcb.now self.old }
    {
        if matches!(tcb.state(), State::Listen) {
            return;
        }
        self.end(tcb, now);
        self.open(tcb, before);
        if again {
            self.forget();
        } else {
            self.begin(tcb, before, now);
        }
    }

    /// The time came to the block, which had made so many retransmissions before. Maybe it probes a window of 0.
    #[tactic(auto, unfolding(crate::specs::Timing::expired))]
    pub fn expire(&mut self, tcb: &Tcb, before: u32, probes: bool)
        ensures { self.new ≡ expired before probes tcb.now self.old }
    {
        let count = tcb.retransmissions();
        if before >= count {
            return;
        }
        self.forget();
        if !probes {
            self.timeouts = self.timeouts.saturating_add(count - before);
        }
    }

    /// What is sent again is in no round trip (RFC 6298, 3).
    pub fn forget(&mut self)
        ensures { self.new ≡ unsampled self.old }
    {
        self.sample = None;
    }

    /// Where all is acknowledged up to the edge, the round trip is measured.
    #[tactic(auto, unfolding(crate::specs::Timing::ended))]
    fn end(&mut self, tcb: &Tcb, now: u64)
        ensures { self.new ≡ ended now tcb.now self.old }
    {
        if let Some(sample) = self.sample {
            if is_reached(tcb, sample) {
                self.measure(now.saturating_sub(sample.at));
            }
        }
    }

    fn measure(&mut self, round: u64)
        ensures { self.new ≡ measures round self.old }
    {
        self.trip = Some(measured(self.trip, round));
        self.timeouts = 0;
        self.sample = None;
    }

    /// The handshake ends, in which the timer expired (RFC 6298, 5.7).
    #[tactic(auto, unfolding(crate::specs::Timing::opened))]
    fn open(&mut self, tcb: &Tcb, before: Mark)
        ensures { self.new ≡ opened before tcb.now self.old }
    {
        if matches!(before.state, State::SynReceived)
            && !matches!(tcb.state(), State::SynReceived)
            && self.timeouts > 0
        {
            self.slow = true;
            self.timeouts = 0;
        }
    }

    /// What is sent the first time is measured, where nothing is.
    #[tactic(auto, unfolding(crate::specs::Timing::sampled))]
    fn begin(&mut self, tcb: &Tcb, before: Mark, now: u64)
        ensures { self.new ≡ sampled now before tcb.now self.old }
    {
        if self.sample.is_none() && is_sending(tcb, before) {
            self.sample = Some(Sample {
                edge: tcb.snd_nxt(),
                at: now,
            });
        }
    }
}

fn measured(trip: Option<Trip>, round: u64) -> Trip
    ensures { result ≡ measured round trip }
{
    match trip {
        None => Trip {
            srtt: round,
            rttvar: round / 2,
        },
        Some(old) => {
            let apart = old
                .srtt
                .saturating_sub(round)
                .max(round.saturating_sub(old.srtt));
            Trip {
                srtt: old.srtt - old.srtt / 8 + round / 8,
                rttvar: old.rttvar - old.rttvar / 4 + apart / 4,
            }
        }
    }
}

fn is_reached(tcb: &Tcb, sample: Sample) -> bool
    ensures { result ≡ is_reached tcb.now sample }
{
    seq_dist(sample.edge, tcb.snd_una()) < 1 << 31
}

pub(crate) fn is_sending(tcb: &Tcb, before: Mark) -> bool
    ensures { result ≡ is_sending before tcb.now }
{
    matches!(before.state, State::Listen) || tcb.snd_nxt() != before.nxt
}

/// Where a step started the retransmission timer, it expires by this RTO.
#[tactic(auto, unfolding(crate::specs::Timing::retimed))]
pub(crate) fn retime(tcb: &mut Tcb, before: Mark, rto: u64)
    requires some { 1 ≤ rto }
    requires most { rto ≤ longest_timeout }
    ensures { tcb.new ≡ retimed rto before tcb.old }
{
    if is_started(tcb, before) {
        tcb.retime(rto);
    }
}

#[tactic(auto, unfolding(crate::specs::Timing::is_started))]
fn is_started(tcb: &Tcb, before: Mark) -> bool
    ensures is { result ≡ is_started before tcb.now }
    ensures open { result ≡ true → is_listen tcb.now.state ≡ false }
{
    !matches!(tcb.state(), State::Listen)
        && tcb.retransmit_at().is_some()
        && (!before.running || tcb.snd_una() != before.una)
}
