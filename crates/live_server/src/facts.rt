//! What a table of connections has to know of each: whether it is over, and whether it is to leave.

ghost use Rattle.std.specs.Prelude.{◌≡◌};
ghost use Rattle.live_server.specs.Facts.{is_given_up_by, is_half_open_by, is_idle_by, is_in_time_wait_by, is_leaving_by, is_over_by, is_waiting_by, reported_by};

use crate::setting::Setting;
use crate::unreached::Reported;
use sq_base::seq_dist;
use tcb_machine::State;

/// A connection is half open for so many microseconds at most (RFC 9293, 3.8.3 gives a SYN three minutes at least).
const HANDSHAKE_LIMIT: u64 = 180_000_000;

/// A connection is silent in FIN-WAIT-2 for so many microseconds at most.
const HALF_CLOSED_LIMIT: u64 = 60_000_000;

/// What a table has to know of a connection. Times are in microseconds.
#[derive(Clone, Copy)]
pub struct Facts {
    /// The state of its block.
    pub state: State,
    /// The how-manyth it is of those that took a place, modulo 2^64.
    pub number: u64,
    /// When it was opened.
    pub since: u64,
    /// When the last segment came that wasn't dropped.
    pub heard: u64,
    /// How many bytes of text it holds.
    pub held: u64,
    /// SND.UNA (RFC 9293, 3.3.1).
    pub una: u32,
    /// How many sequence numbers were sent and aren't acknowledged.
    pub flight: u32,
}

impl Facts {
    /// Whether it is over: its block is in LISTEN.
    pub fn is_over(&self) -> bool
        ensures { result ≡ is_over_by self.now }
    {
        matches!(self.state, State::Listen)
    }

    /// Whether it is half open: its block is in SYN-RECEIVED.
    pub fn is_half_open(&self) -> bool
        ensures { result ≡ is_half_open_by self.now }
    {
        matches!(self.state, State::SynReceived)
    }

    /// Whether it is half open, and the one that was opened with a number.
    pub fn is_waiting(&self, number: u64) -> bool
        ensures { result ≡ is_waiting_by number self.now }
    {
        self.is_half_open() && self.number == number
    }

    /// What a message is to it that the segment with a number didn't arrive.
    pub fn reported(&self, seq: u32) -> Reported
        ensures { result ≡ reported_by seq self.now }
    {
        if seq_dist(self.una, seq) >= self.flight {
            Reported::Stray
        } else if self.is_half_open() {
            Reported::HalfOpen
        } else {
            Reported::Open
        }
    }

    /// Whether it is in TIME-WAIT (RFC 9293, 3.3.2).
    pub fn is_in_time_wait(&self) -> bool
        ensures { result ≡ is_in_time_wait_by self.now }
    {
        matches!(self.state, State::TimeWait)
    }

    /// Whether nothing came from it for so long.
    pub fn is_idle(&self, now: u64, limit: u64) -> bool
        ensures { result ≡ is_idle_by now limit self.now }
    {
        now.saturating_sub(self.heard) >= limit
    }

    /// Whether it is half open, or silent in FIN-WAIT-2, for too long.
    pub fn is_given_up(&self, now: u64) -> bool
        ensures { result ≡ is_given_up_by now self.now }
    {
        match self.state {
            State::SynReceived => now.saturating_sub(self.since) >= HANDSHAKE_LIMIT,
            State::FinWait2 => self.is_idle(now, HALF_CLOSED_LIMIT),
            _ => false,
        }
    }

    /// Whether it leaves at a tick, where so many places are taken.
    pub fn is_leaving(&self, setting: &Setting, now: u64, taken: usize) -> bool
        ensures { result ≡ is_leaving_by setting.now now taken self.now }
    {
        let places = setting.places;
        self.is_given_up(now)
            || (taken >= places - places / 4 && self.is_in_time_wait())
            || (taken >= places && self.is_idle(now, setting.idle))
    }
}
