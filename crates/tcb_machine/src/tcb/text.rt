//! The last two checks of an arriving segment: text and FIN (RFC 9293, 3.10.7.4, seventh and eighth).

ghost use Rattle.std.specs.Prelude.{true, false, ◌≡◌, ◌+◌, ◌-◌, ◌<◌, ◌≤◌, None, Some, OnOk};
ghost use Rattle.tcb_machine.specs.States.{is_listen};
ghost use Rattle.tcb_machine.specs.TcpStep.{go, in_time_wait, repeated, ahead, takes_fin, takes_text, closes, check_text};
ghost use Rattle.byte_queues.specs.ReceiveQueue.{next_of, placed};
ghost use Rattle.tcb_machine.specs.TcpStep.{is_end_kept};
ghost use Rattle.tcb_machine.specs.Limits.{most_streamed};
ghost use Rattle.byte_queues.specs.Limits.{position_limit};

use super::Tcb;
use crate::kinds::State;
use byte_queues::Placed;
use segment_codec::{FIN, Seg};
use sq_base::{seq_dist, seq_lt};
use std::alloc::AllocError;

impl Tcb {
    pub(super) fn check_text(&mut self, seg: &Seg, text: &[u8]) -> Result<(), AllocError>
        requires open { is_listen self.old.state ≡ false }
        requires next { next_of self.old.recv < most_streamed }
        ensures { OnOk result (check_text seg.now text.now self.old ≡ go self.new) }
    {
        self.keep(seg, text)?;
        self.close();
        Ok(())
    }

    /// The text and the FIN are kept, as far as they are new.
    #[tactic(auto, unfolding(crate::specs::TcpStep::check_text))]
    fn keep(&mut self, seg: &Seg, text: &[u8]) -> Result<(), AllocError>
        requires open { is_listen self.old.state ≡ false }
        requires next { next_of self.old.recv < most_streamed }
        ensures is { OnOk result (check_text seg.now text.now self.old ≡ closes self.new) }
        ensures open { OnOk result (is_listen self.new.state ≡ false) }
    {
        let repeated = self.repeated(seg) as usize;
        let at = self.recv.next() + u64::from(self.ahead(seg));
        let fin_at = (at + text.len() as u64).saturating_sub(repeated as u64);
        if text.is_empty() {
            self.take_fin(seg, fin_at);
            Ok(())
        } else {
            let (_, fresh) = text.split_at(repeated.min(text.len()));
            self.take_text(seg, at, fresh, fin_at)
        }
    }

    /// How many numbers before RCV.NXT a segment begins.
    #[tactic(auto, unfolding(crate::specs::TcpStep::repeated))]
    fn repeated(&self, seg: &Seg) -> u32
        ensures { result ≡ repeated seg.now self.now }
    {
        let next = self.rcv_nxt();
        if seq_lt(seg.seq, next) {
            seq_dist(seg.seq, next)
        } else {
            0
        }
    }

    /// How many numbers behind RCV.NXT a segment begins.
    #[tactic(auto, unfolding(crate::specs::TcpStep::ahead))]
    fn ahead(&self, seg: &Seg) -> u32
        ensures is { result ≡ ahead seg.now self.now }
    {
        let next = self.rcv_nxt();
        if seq_lt(seg.seq, next) {
            0
        } else {
            seq_dist(next, seg.seq)
        }
    }

    /// What is new of a text. Where too many runs would stand, neither it nor the FIN is kept.
    #[tactic(auto, using(crate::proofs::QueueLemmas::placed_taken, crate::proofs::QueueLemmas::placed_edge, crate::proofs::QueueLemmas::placed_cap, crate::proofs::QueueLemmas::placed_below, crate::proofs::QueueLemmas::placed_read))]
    fn take_text(&mut self, seg: &Seg, at: u64, fresh: &[u8], fin_at: u64) -> Result<(), AllocError>
        requires open { is_listen self.old.state ≡ false }
        requires behind { next_of self.old.recv ≤ at }
        requires small { at < position_limit }
        ensures is { OnOk result (takes_text (placed at fresh.now self.old.recv) seg.now fin_at self.old ≡ self.new) }
        ensures open { OnOk result (is_listen self.new.state ≡ false) }
    {
        self.ack_due = true;
        match self.recv.place(at, fresh)? {
            Placed::Held => self.take_fin(seg, fin_at),
            Placed::Blocks => {}
        }
        Ok(())
    }

    /// The FIN's position is kept where it is in the window, not before bytes that are held in order, and the first.
    #[tactic(auto, unfolding(crate::specs::TcpStep::takes_fin, crate::specs::TcpStep::keeps_end, byte_queues::specs::ReceiveQueue::with_end, byte_queues::specs::ReceiveQueue::next_of))]
    fn take_fin(&mut self, seg: &Seg, fin_at: u64)
        requires open { is_listen self.old.state ≡ false }
        ensures is { self.new ≡ takes_fin seg.now fin_at self.old }
        ensures open { is_listen self.new.state ≡ false }
    {
        if seg.flags & FIN == 0 {
            return;
        }
        self.ack_due = true;
        if self.is_end_kept(fin_at) {
            self.recv.end_at(fin_at);
        }
    }

    #[tactic(auto, unfolding(byte_queues::specs::ReceiveQueue::window_of))]
    fn is_end_kept(&self, f: u64) -> bool
        ensures kept { result ≡ is_end_kept f self.now.recv }
        ensures new { result ≡ true → (self.now.recv.stream_end ≡ None) × (next_of self.now.recv ≤ f) }
    {
        match self.recv.stream_end() {
            Some(_) => false,
            None => {
                let next = self.recv.next();
                f >= next && f - next < u64::from(self.recv.window())
            }
        }
    }

    /// The FIN is consumed where all before it is held.
    #[tactic(auto, unfolding(crate::specs::TcpStep::closes, crate::specs::TcpStep::in_time_wait))]
    fn close(&mut self)
        requires open { is_listen self.old.state ≡ false }
        ensures { closes self.old ≡ go self.new }
    {
        if !self.recv.ended() {
            return;
        }
        self.ack_due = true;
        match self.state {
            State::Established => self.state = State::CloseWait,
            State::FinWait1 => self.state = State::Closing,
            State::FinWait2 => self.wait(),
            _ => {}
        }
    }
}
