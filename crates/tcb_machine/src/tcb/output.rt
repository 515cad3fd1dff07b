//! What goes out: text, FIN, acknowledgement, and the retransmission deadline (RFC 9293, 3.8.6 and 3.10.2).

ghost use Rattle.std.specs.Prelude.{true, false, ◌≡◌, ◌+◌, ◌-◌, ◌<◌, None, Some, OnOk};
ghost use Rattle.tcb_machine.specs.BlockState.{unsent, segment_of, offered};
ghost use Rattle.tcb_machine.specs.States.{is_listen};
ghost use Rattle.tcb_machine.specs.Output.{output, outputs_text, outputs_fin, outputs_ack, outputs_deadline};

use super::Tcb;
use crate::kinds::State;
use crate::limits::FIRST_TIMEOUT;
use segment_codec::{ACK, PSH};
use sq_base::seq_dist;
use std::alloc::{AllocError, Global};

impl Tcb {
    /// Sends what may be sent: in the states with a peer the text that its window holds and our FIN behind all text,
    /// and an acknowledgement where one is due and nothing else was sent. After NoMemory nothing more is promised.
    #[tactic(auto, unfolding(crate::specs::Output::output, crate::specs::Output::outputs_ack, crate::specs::BlockState::offered))]
    pub fn output(&mut self, alloc: Global) -> Result<(), AllocError>
        ensures output { OnOk result (self.new ≡ output self.old) }
        ensures clock { OnOk result (self.new.clock ≡ self.old.clock) }
        ensures recv { OnOk result (self.new.recv ≡ self.old.recv) }
        ensures offered { OnOk result (offered self.new ≡ offered self.old) }
    {
        let count = self.replies.len();
        match self.state {
            State::Listen => Ok(()),
            State::SynReceived | State::TimeWait => self.output_ack(alloc, count),
            _ => {
                self.output_text(alloc)?;
                self.output_fin(alloc)?;
                self.output_ack(alloc, count)?;
                self.output_deadline();
                Ok(())
            }
        }
    }

    /// The text that the usable window holds, in segments of at most `mss` bytes. The last one has PSH.
    fn output_text(&mut self, alloc: Global) -> Result<(), AllocError>
        requires open { is_listen self.old.state ≡ false }
        ensures is { OnOk result (self.new ≡ outputs_text self.old) }
        ensures state { OnOk result (self.new.state ≡ self.old.state) }
        ensures clock { OnOk result (self.new.clock ≡ self.old.clock) }
        ensures recv { OnOk result (self.new.recv ≡ self.old.recv) }
        ensures acked { OnOk result (self.new.acked ≡ self.old.acked) }
        ensures out { OnOk result (self.new.out ≡ self.old.out) }
    {
        let usable = self.wnd.saturating_sub(seq_dist(self.una, self.snd_nxt()));
        let mut left = usable.min(self.unsent());
        let most = u32::from(self.agreed.mss);
        while left > most {
            self.send_text(alloc, ACK, most)?;
            left -= most;
        }
        if left > 0 {
            self.send_text(alloc, PSH | ACK, left)?;
        }
        Ok(())
    }

    /// Our FIN, once all text was sent, whatever the window is.
    #[tactic(auto, unfolding(crate::specs::Output::outputs_fin, crate::specs::BlockState::segment_of))]
    fn output_fin(&mut self, alloc: Global) -> Result<(), AllocError>
        requires open { is_listen self.old.state ≡ false }
        ensures is { OnOk result (self.new ≡ outputs_fin self.old) }
        ensures state { OnOk result (self.new.state ≡ self.old.state) }
        ensures clock { OnOk result (self.new.clock ≡ self.old.clock) }
        ensures recv { OnOk result (self.new.recv ≡ self.old.recv) }
        ensures acked { OnOk result (self.new.acked ≡ self.old.acked) }
        ensures out { OnOk result (self.new.out ≡ self.old.out) }
    {
        if self.fin_wanted && !self.fin_sent && self.unsent() == 0 {
            self.send_fin(alloc, self.snd_nxt())?;
            self.fin_sent = true;
        }
        Ok(())
    }

    /// An acknowledgement of its own, where one is due and there are `count` replies, as before the text.
    #[tactic(auto, unfolding(crate::specs::Output::outputs_ack))]
    fn output_ack(&mut self, alloc: Global, count: usize) -> Result<(), AllocError>
        requires open { is_listen self.old.state ≡ false }
        ensures is { OnOk result (self.new ≡ outputs_ack count self.old) }
        ensures state { OnOk result (self.new.state ≡ self.old.state) }
        ensures clock { OnOk result (self.new.clock ≡ self.old.clock) }
        ensures recv { OnOk result (self.new.recv ≡ self.old.recv) }
        ensures acked { OnOk result (self.new.acked ≡ self.old.acked) }
        ensures out { OnOk result (self.new.out ≡ self.old.out) }
    {
        if self.ack_due && self.replies.len() == count {
            self.send_ack(alloc)?;
        }
        self.ack_due = false;
        Ok(())
    }

    /// The retransmission timer runs while something is unacknowledged or unsent (RFC 6298, 5.1 and 5.2).
    #[tactic(auto, unfolding(crate::specs::Output::outputs_deadline))]
    fn output_deadline(&mut self)
        requires open { is_listen self.old.state ≡ false }
        ensures is { self.new ≡ outputs_deadline self.old }
        ensures clock { (self.new.clock ≡ self.old.clock) }
        ensures recv { (self.new.recv ≡ self.old.recv) }
        ensures acked { (self.new.acked ≡ self.old.acked) }
        ensures out { (self.new.out ≡ self.old.out) }
    {
        if self.una == self.snd_nxt() && self.unsent() == 0 {
            self.retransmit_at = None;
        } else if self.retransmit_at.is_none() {
            self.rto = FIRST_TIMEOUT;
            self.retransmit_at = Some(self.clock + FIRST_TIMEOUT);
        }
    }
}
