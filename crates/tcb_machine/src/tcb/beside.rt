//! What a server that stands beside a block asks of it.

ghost use Rattle.std.specs.Prelude.{◌≡◌, ◌+◌, ◌<◌, ◌≤◌, ◌^◌, false, OnOk};
ghost use Rattle.tcb_machine.specs.Beside.{aborting, is_reset_sent, probing, resending, retiming, showing};
ghost use Rattle.tcb_machine.specs.BlockState.{held_in, in_flight, sends_ack};
ghost use Rattle.tcb_machine.specs.Forgetting.{forgetting};
ghost use Rattle.tcb_machine.specs.Limits.{longest_timeout};
ghost use Rattle.tcb_machine.specs.Shortening.{shortening};
ghost use Rattle.tcb_machine.specs.States.{is_listen};

use super::Tcb;
use crate::kinds::State;
use crate::limits::LEAST_MSS;
use segment_codec::{ACK, PSH, RST, Reply};
use sq_base::Octets;
use std::alloc::{AllocError, Global};

impl Tcb {
    /// How many bytes are held: received and not taken, behind a gap too, and offered and not acknowledged.
    pub fn held(&self) -> u64
        ensures is { result ≡ held_in self.now }
        ensures most { result < 2 ^ 34 }
    {
        self.recv.held() + u64::from(self.send.held())
    }

    /// Forgets the received text behind a gap (RFC 9293, 3.10.7.4). None of it was acknowledged, and the window stays as it is.
    #[tactic(auto, using(crate::proofs::ForgettingLemmas::ahead_below, crate::proofs::ForgettingLemmas::next_forgotten), unfolding(crate::specs::Forgetting::forgetting, byte_queues::specs::ReceiveQueue::without_ahead))]
    pub fn forget_ahead(&mut self)
        ensures { self.new ≡ forgetting self.old }
    {
        self.recv.forget_ahead();
    }

    /// From now on no segment has more than `most` bytes of text, or than 64 where that is less: the path takes no longer ones (RFC 1191, 3).
    #[tactic(auto, unfolding(crate::specs::Shortening::shortening))]
    pub fn shorten(&mut self, most: u16)
        requires open { is_listen self.old.state ≡ false }
        ensures { self.new ≡ shortening most self.old }
    {
        self.agreed.mss = self.agreed.mss.min(most.max(LEAST_MSS));
    }

    /// Sends an acknowledgement, as a challenge (RFC 5961). After NoMemory nothing more is promised.
    pub fn challenge(&mut self, alloc: Global) -> Result<(), AllocError>
        requires open { is_listen self.old.state ≡ false }
        ensures { OnOk result (self.new ≡ sends_ack self.old) }
    {
        self.send_ack(alloc)
    }

    /// RTO in microseconds from now on, until the block sets it itself. Where the retransmission timer runs, it expires so long from
    /// now (RFC 6298, 5.3).
    #[tactic(auto, unfolding(crate::specs::Beside::retiming))]
    pub fn retime(&mut self, rto: u64)
        requires open { is_listen self.old.state ≡ false }
        requires some { 1 ≤ rto }
        requires most { rto ≤ longest_timeout }
        ensures { self.new ≡ retiming rto self.old }
    {
        self.rto = rto;
        if self.retransmit_at.is_some() {
            self.retransmit_at = Some(self.clock + rto);
        }
    }

    /// SND.WND in bytes from now on, until a segment updates it: what the output rule may use of the peer's window (RFC 9293, 3.8.6).
    #[tactic(auto, unfolding(crate::specs::Beside::showing))]
    pub fn show(&mut self, window: u32)
        requires open { is_listen self.old.state ≡ false }
        ensures { self.new ≡ showing window self.old }
    {
        self.wnd = window;
    }

    /// Sends `n` bytes again that were sent, from SND.UNA + `from` on, as one segment, now: the deadline, RTO and the count of
    /// retransmissions stay (RFC 6675, 5). After NoMemory nothing more is promised.
    #[tactic(auto, unfolding(crate::specs::Beside::resending))]
    pub fn resend_at(&mut self, alloc: Global, from: u32, n: u32) -> Result<(), AllocError>
        requires open { is_listen self.old.state ≡ false }
        requires some { 1 ≤ n }
        requires most { n ≤ self.old.agreed.mss }
        requires sent { from + n ≤ in_flight self.old }
        ensures { OnOk result (self.new ≡ resending from n self.old) }
    {
        let text = self.send.slice(alloc, from, n)?;
        self.send_segment(PSH | ACK, self.una.wrapping_add(from), text)
    }

    /// Sends a segment without text whose number was used, which an open peer answers: whether it is still there (RFC 9293, 3.8.4).
    /// After NoMemory nothing more is promised.
    #[tactic(auto, unfolding(crate::specs::Beside::probing))]
    pub fn probe(&mut self, alloc: Global) -> Result<(), AllocError>
        requires open { is_listen self.old.state ≡ false }
        ensures { OnOk result (self.new ≡ probing self.old) }
    {
        let seq = self.snd_nxt().wrapping_sub(1);
        self.send_segment(ACK, seq, Octets::wrap(Vec::new(alloc)))
    }

    /// ABORT (RFC 9293, 3.10.5): back to LISTEN, up to CLOSE-WAIT with a reset to the peer. After NoMemory nothing more is promised.
    #[tactic(auto, unfolding(crate::specs::Beside::aborting))]
    pub fn abort(&mut self, alloc: Global) -> Result<(), AllocError>
        ensures { OnOk result (self.new ≡ aborting self.old) }
    {
        if self.is_reset_sent() {
            let text = Octets::wrap(Vec::new(alloc));
            self.send(Reply::plain(self.clock, RST, self.snd_nxt(), 0, 0, text))?;
        }
        self.go_to_listen(alloc);
        Ok(())
    }

    fn is_reset_sent(&self) -> bool
        ensures { result ≡ is_reset_sent self.now.state }
    {
        matches!(
            self.state,
            State::SynReceived
                | State::Established
                | State::FinWait1
                | State::FinWait2
                | State::CloseWait
        )
    }
}
