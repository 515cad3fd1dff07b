//! What a server met.

ghost use Rattle.std.specs.Prelude.{◌≡◌};
ghost use Rattle.live_server.specs.Counting.{counting_cause, counting_judged};

use crate::conn::Judged;
use icmp_codec::Cause;

/// What a server met, by cause; each count is modulo 2^64.
#[derive(Clone, Copy, Debug, Default, PartialEq, Eq)]
pub struct Counts {
    /// Datagrams that are neither a whole TCP segment nor an echo request that is answered, or have a wrong sum.
    pub passed_over: u64,
    /// Echo requests that were answered (RFC 792).
    pub pinged: u64,
    /// Segments to another address, or from one that is no other host's (RFC 9293, 3.9.2.3).
    pub astray: u64,
    /// Segments to ports that aren't served.
    pub refused: u64,
    /// Connections that took a place.
    pub opened: u64,
    /// Connections that found no place.
    pub turned_away: u64,
    /// Half-open connections that gave way to later ones.
    pub gave_way: u64,
    /// Connections that left at a tick, though nobody ended them: half open or half closed too long, crowded out, or for somebody else.
    pub left: u64,
    /// Challenges that were sent (RFC 5961).
    pub challenges: u64,
    /// Segments that would have got a challenge, so shortly behind another one.
    pub unanswered: u64,
    /// Segments that came at an earlier time than their connection's last one.
    pub late: u64,
    /// Segments whose text was passed over, since all connections hold as much as they may.
    pub over_full: u64,
    /// Connections whose segments became shorter, since a router said that one was too long for the path (RFC 1191).
    pub shortened: u64,
    /// Segments of which a router says that their network or host can't be reached (RFC 792; RFC 1122, 3.2.2.1).
    pub unreachable: u64,
    /// Segments whose host says that it has nobody for their protocol or port.
    pub port_unreachable: u64,
    /// Segments that somebody doesn't let pass.
    pub prohibited: u64,
    /// Segments that passed too many hops, or waited too long for their other fragments (RFC 1122, 3.2.2.4).
    pub time_exceeded: u64,
    /// Segments of which somebody says that their header is wrong (RFC 1122, 3.2.2.5).
    pub parameter_problem: u64,
    /// Half-open connections that left at such a message.
    pub unreached: u64,
    /// How often urgent data came of which nothing was known, or it turned out to end later (RFC 9293, 3.8.5).
    pub urgent: u64,
}

impl Counts {
    /// One segment more of which this became.
    pub(crate) fn judge(&mut self, judged: Judged)
        ensures { self.new ≡ counting_judged judged self.old }
    {
        match judged {
            Judged::Taken => {}
            Judged::Challenged => self.challenges = self.challenges.wrapping_add(1),
            Judged::Unanswered => self.unanswered = self.unanswered.wrapping_add(1),
            Judged::Late => self.late = self.late.wrapping_add(1),
        }
    }

    /// One segment more that didn't arrive.
    pub(crate) fn report(&mut self, cause: Cause)
        ensures { self.new ≡ counting_cause cause self.old }
    {
        match cause {
            Cause::Away => self.unreachable = self.unreachable.wrapping_add(1),
            Cause::Port => self.port_unreachable = self.port_unreachable.wrapping_add(1),
            Cause::Prohibited => self.prohibited = self.prohibited.wrapping_add(1),
            Cause::TimeExceeded => self.time_exceeded = self.time_exceeded.wrapping_add(1),
            Cause::Parameter => self.parameter_problem = self.parameter_problem.wrapping_add(1),
        }
    }
}
