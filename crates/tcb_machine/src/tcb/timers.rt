//! The deadlines (RFC 9293, 3.8.1 and 3.10.8; RFC 6298).

ghost use Rattle.std.specs.Prelude.{false, ◌≡◌, ◌+◌, ◌-◌, ◌*◌, ◌<◌, ◌≤◌, None, Some, OnOk, IfSome, IfNone, IsSome};
ghost use Rattle.std.specs.Option.{ForSome};
ghost use Rattle.tcb_machine.specs.States.{is_listen};
ghost use Rattle.tcb_machine.specs.Timers.{next_deadline, tcp_time, fired, fires, retransmission, sends_again, retransmits};
ghost use Rattle.byte_queues.specs.ReceiveQueue.{next_of};
ghost use Rattle.tcb_machine.specs.BlockState.{offered};
ghost use Rattle.tcb_machine.specs.Limits.{most_retransmissions, last_time};

use super::Tcb;
use crate::kinds::State;
use crate::limits::{LONGEST_TIMEOUT, MOST_RETRANSMISSIONS};
use segment_codec::{ACK, PSH};
use std::alloc::{AllocError, Global};

impl Tcb {
    /// When the next deadline fires, in microseconds and not before the block's clock, or `None` where none is set. Until then
    /// `time` sets the clock and does nothing else.
    #[tactic(auto, using(crate::proofs::TimeLemmas::first_retransmission), unfolding(crate::specs::Timers::next_deadline))]
    pub fn next_deadline(&self) -> Option<u64>
        ensures { result ≡ next_deadline self.now }
    {
        match (self.time_wait_at, self.retransmit_at) {
            (Some(at), _) => Some(self.clock.max(at)),
            (None, Some(at)) => Some(self.clock.max(at)),
            (None, None) => None,
        }
    }

    /// Runs the timers up to a time, in microseconds. After NoMemory nothing more is promised.
    pub fn time(&mut self, alloc: Global, to: u64) -> Result<(), AllocError>
        requires clock { self.old.clock ≤ to }
        requires time { to ≤ last_time }
        ensures time { OnOk result (self.new ≡ tcp_time to self.old) }
        ensures clock { OnOk result (self.new.clock ≡ to) }
        ensures taken { OnOk result (self.new.recv.taken ≤ self.old.recv.taken) }
        ensures next { OnOk result (next_of self.new.recv ≤ next_of self.old.recv) }
        ensures offered { OnOk result (offered self.new ≤ offered self.old) }
    {
        self.run_timers(alloc, to)?;
        self.clock = to;
        Ok(())
    }

    /// The deadlines up to a time fire.
    fn run_timers(&mut self, alloc: Global, to: u64) -> Result<(), AllocError>
        requires clock { self.old.clock ≤ to }
        requires time { to ≤ last_time }
        ensures { OnOk result (record self.new { clock = to } ≡ tcp_time to self.old) }
    {
        match self.time_wait_at {
            Some(at) => {
                if at <= to {
                    self.go_to_listen(alloc);
                }
                Ok(())
            }
            None => self.retransmissions_up_to(alloc, to),
        }
    }

    fn retransmissions_up_to(&mut self, alloc: Global, to: u64) -> Result<(), AllocError>
        requires clock { self.old.clock ≤ to }
        requires time { to ≤ last_time }
        requires none { self.old.time_wait_at ≡ None }
        ensures { OnOk result (record self.new { clock = to } ≡ tcp_time to self.old) }
    {
        while let Some(at) = self.retransmission_due(to) {
            self.fire(alloc, at)?;
        }
        Ok(())
    }

    /// The retransmission deadline fires. Where all retransmissions were made, the block returns to LISTEN without a word.
    #[tactic(auto, unfolding(crate::specs::Timers::fires))]
    fn fire(&mut self, alloc: Global, at: u64) -> Result<(), AllocError>
        requires due { self.old.retransmit_at ≡ Some at }
        requires time { at ≤ last_time }
        requires open { is_listen self.old.state ≡ false }
        ensures { OnOk result (self.new ≡ fired at self.old) }
    {
        self.clock = self.clock.max(at);
        if self.retransmissions < MOST_RETRANSMISSIONS {
            self.retransmit(alloc)
        } else {
            self.go_to_listen(alloc);
            Ok(())
        }
    }

    /// The retransmission deadline, where it isn't after a time.
    fn retransmission_due(&self, to: u64) -> Option<u64>
        ensures due { IfSome result (λ at. (self.now.retransmit_at ≡ Some at) × (at ≤ to)) }
        ensures idle { IfNone result (ForSome self.now.retransmit_at (λ at. to < at)) }
        ensures open { IsSome self.now.retransmit_at → is_listen self.now.state ≡ false }
        ensures tries { self.now.retransmissions ≤ most_retransmissions }
    {
        match self.retransmit_at {
            Some(at) if at <= to => Some(at),
            _ => None,
        }
    }

    /// One segment is sent again, and the next timeout is twice as long, up to 60 s (RFC 6298, 5.5).
    #[tactic(auto, unfolding(crate::specs::Timers::fires))]
    fn retransmit(&mut self, alloc: Global) -> Result<(), AllocError>
        requires open { is_listen self.old.state ≡ false }
        requires few { self.old.retransmissions < most_retransmissions }
        ensures { OnOk result (self.new ≡ fires (retransmission self.old.clock) self.old) }
    {
        self.resend(alloc)?;
        self.retransmissions += 1;
        self.rto = (2 * self.rto).min(LONGEST_TIMEOUT);
        self.retransmit_at = Some(self.clock + self.rto);
        Ok(())
    }

    /// Sends the first unacknowledged segment again, now: what the deadline would send, while the deadline, RTO and the count of
    /// retransmissions stay (RFC 5681, 3.2: fast retransmit). In SYN-RECEIVED it is the SYN,ACK, with the same options; where
    /// nothing is unacknowledged it is a probe with at most one new byte. After NoMemory nothing more is promised.
    #[tactic(auto, unfolding(crate::specs::BlockState::offered))]
    pub fn resend(&mut self, alloc: Global) -> Result<(), AllocError>
        requires open { is_listen self.old.state ≡ false }
        ensures is { OnOk result (self.new ≡ retransmits self.old.state self.old) }
        ensures state { OnOk result (self.new.state ≡ self.old.state) }
        ensures tries { OnOk result (self.new.retransmissions ≡ self.old.retransmissions) }
        ensures rto { OnOk result (self.new.rto ≡ self.old.rto) }
        ensures clock { OnOk result (self.new.clock ≡ self.old.clock) }
        ensures recv { OnOk result (self.new.recv ≡ self.old.recv) }
        ensures offered { OnOk result (offered self.new ≡ offered self.old) }
    {
        if matches!(self.state, State::SynReceived) {
            self.send_syn_ack(alloc)
        } else {
            self.send_again(alloc)
        }
    }

    /// The first unacknowledged bytes, else our FIN, else one byte to probe a closed window (RFC 9293, 3.8.6.1).
    #[tactic(auto, unfolding(crate::specs::Timers::sends_again, crate::specs::Output::sends_text, crate::specs::BlockState::offered))]
    fn send_again(&mut self, alloc: Global) -> Result<(), AllocError>
        requires open { is_listen self.old.state ≡ false }
        ensures is { OnOk result (self.new ≡ sends_again self.old) }
        ensures state { OnOk result (self.new.state ≡ self.old.state) }
        ensures tries { OnOk result (self.new.retransmissions ≡ self.old.retransmissions) }
        ensures rto { OnOk result (self.new.rto ≡ self.old.rto) }
        ensures clock { OnOk result (self.new.clock ≡ self.old.clock) }
        ensures recv { OnOk result (self.new.recv ≡ self.old.recv) }
        ensures offered { OnOk result (offered self.new ≡ offered self.old) }
    {
        if self.in_flight() > 0 {
            let n = self
                .in_flight()
                .min(self.wnd.max(1))
                .min(u32::from(self.agreed.mss));
            let text = self.send.slice(alloc, 0, n)?;
            self.send_segment(PSH | ACK, self.una, text)
        } else if self.fin_sent && self.una != self.snd_nxt() {
            self.send_fin(alloc, self.snd_end())
        } else {
            self.send_text(alloc, PSH | ACK, self.unsent().min(1))
        }
    }
}
