//! The arrival of a segment (RFC 9293, 3.10.7): LISTEN, and the first five checks of the other states.

ghost use Rattle.std.specs.Prelude.{true, false, ◌≡◌, ◌+◌, ◌-◌, ◌%◌, ◌^◌, ◌<◌, ◌≤◌, length, None, Some, IfOk, OnOk};
ghost use Rattle.tcb_machine.specs.Challenges.{is_challenged};
ghost use Rattle.tcb_machine.specs.BlockState.{has, seg_wnd, offered};
ghost use Rattle.tcb_machine.specs.Limits.{whole_space, last_time, most_streamed};
ghost use Rattle.tcb_machine.specs.Room.{HasRoom};
ghost use Rattle.tcb_machine.specs.States.{is_listen};
ghost use Rattle.tcb_machine.specs.TcpStep.{over, listen, opened, is_in_window, is_acceptable, check_sequence, refused};
ghost use Rattle.tcb_machine.specs.TcpStep.{check_reset, syn_again, ack_kind, with_window, takes_window, takes_ack, is_fin_acked, after_ack};
ghost use Rattle.tcb_machine.specs.TcpStep.{acknowledged, check_ack, first_checks, in_state, tcp_segment, said, step_said};
ghost use Rattle.byte_queues.specs.ReceiveQueue.{next_of};

use super::Tcb;
use crate::agreed::Agreed;
use crate::kinds::{AckKind, Next, State, Step};
use crate::limits::{FIRST_TIMEOUT, TIME_WAIT};
use byte_queues::RecvQueue;
use segment_codec::{ACK, FIN, RST, SYN, Seg};
use sq_base::{seq_dist, seq_lt};
use std::alloc::{AllocError, Global};

impl Tcb {
    /// A segment arrives at a time in microseconds, with the hint for our initial sequence number (RFC 9293, 3.10.7).
    /// `Go` means that pump and output are to follow. After NoMemory nothing more is promised.
    #[tactic(auto, unfolding(crate::specs::TcpStep::tcp_segment, crate::specs::BlockState::offered))]
    pub fn segment(
        &mut self,
        alloc: Global,
        now: u64,
        iss: u32,
        seg: &Seg,
        text: &[u8],
    ) -> Result<Next, AllocError>
        requires clock { self.old.clock ≤ now }
        requires time { now ≤ last_time }
        requires room { HasRoom self.old }
        ensures step { IfOk result (λ next. tcp_segment now iss seg.now text.now self.old ≡ said next self.new) }
        ensures clock { OnOk result (self.new.clock ≡ now) }
        ensures taken { OnOk result (self.new.recv.taken ≤ self.old.recv.taken) }
        ensures next { OnOk result (next_of self.new.recv ≤ next_of self.old.recv + whole_space) }
        ensures offered { OnOk result (offered self.new ≤ offered self.old) }
    {
        self.clock = now;
        let next = self.arrive(alloc, iss, seg, text)?;
        // The fields bound how far the received text stands past what was taken.
        let _ = &self.recv;
        Ok(next)
    }

    /// The checks, in the block's state.
    #[tactic(auto, unfolding(crate::specs::TcpStep::arrives, crate::specs::BlockState::offered))]
    fn arrive(
        &mut self,
        alloc: Global,
        iss: u32,
        seg: &Seg,
        text: &[u8],
    ) -> Result<Next, AllocError>
        requires next { next_of self.old.recv < most_streamed }
        requires offered { offered self.old < most_streamed }
        ensures { IfOk result (λ next. in_state self.old.state seg.now iss text.now self.old ≡ said next self.new) }
    {
        if matches!(self.state, State::Listen) {
            self.listen(alloc, iss, seg)?;
            return Ok(Next::Over);
        }
        match self.first_checks(alloc, seg, text)? {
            Step::Over => Ok(Next::Over),
            Step::Go => Ok(Next::Go),
            Step::On => {
                self.check_text(seg, text)?;
                Ok(Next::Go)
            }
        }
    }

    /// LISTEN (3.10.7.2).
    #[tactic(auto, unfolding(crate::specs::TcpStep::listen))]
    fn listen(&mut self, alloc: Global, iss: u32, seg: &Seg) -> Result<(), AllocError>
        ensures { OnOk result (listen seg.now iss self.old ≡ over self.new) }
    {
        if seg.flags & RST != 0 {
            return Ok(());
        }
        if seg.flags & ACK != 0 {
            return self.send_rst(alloc, seg);
        }
        if seg.flags & SYN != 0 {
            self.open(alloc, iss, seg);
            return self.send_syn_ack(alloc);
        }
        Ok(())
    }

    /// A SYN in LISTEN, with its options.
    #[tactic(auto, unfolding(crate::specs::TcpStep::opened))]
    fn open(&mut self, alloc: Global, iss: u32, seg: &Seg)
        ensures { self.new ≡ opened seg.now iss self.old }
    {
        self.agreed = Agreed::taken_from(&seg.options);
        self.recv = RecvQueue::make(alloc, self.agreed.space_of(self.want));
        self.state = State::SynReceived;
        self.irs = seg.seq;
        self.iss = iss;
        self.una = iss;
        self.rto = FIRST_TIMEOUT;
        self.retransmit_at = Some(self.clock + FIRST_TIMEOUT);
    }

    /// Checks 1 to 5 of a segment in a state other than LISTEN (3.10.7.4). `On` says that text and FIN are to be looked at.
    #[tactic(auto, unfolding(crate::specs::TcpStep::first_checks, crate::specs::TcpStep::check_sequence, crate::specs::TcpStep::check_reset, crate::specs::TcpStep::check_syn))]
    fn first_checks(&mut self, alloc: Global, seg: &Seg, text: &[u8]) -> Result<Step, AllocError>
        requires open { is_listen self.old.state ≡ false }
        requires few { self.old.acked + length self.old.out ≤ most_streamed }
        ensures is { IfOk result (λ step. first_checks seg.now text.now self.old ≡ step_said step self.new) }
        ensures kept { IfOk result (λ step. step ≡ Step.On → (self.new.recv ≡ self.old.recv) × (is_listen self.new.state ≡ false)) }
    {
        if !self.is_acceptable(seg, text) {
            self.refuse(alloc, seg)?;
            return Ok(Step::Over);
        }
        if seg.flags & RST != 0 {
            self.check_reset(alloc, seg)?;
            return Ok(Step::Over);
        }
        if seg.flags & SYN != 0 {
            self.syn_again(alloc)?;
            return Ok(Step::Over);
        }
        self.check_ack(alloc, seg)
    }

    #[tactic(auto, unfolding(crate::specs::TcpStep::is_in_window))]
    fn is_in_window(&self, n: u32) -> bool
        ensures { result ≡ is_in_window n self.now }
    {
        seq_dist(self.rcv_nxt(), n) < self.rcv_wnd()
    }

    /// First, the sequence number: the table of 3.4.
    #[tactic(auto, unfolding(crate::specs::TcpStep::is_acceptable, crate::specs::BlockState::seg_len))]
    fn is_acceptable(&self, seg: &Seg, text: &[u8]) -> bool
        ensures { result ≡ is_acceptable seg.now text.now self.now }
    {
        let len = text.len() as u64
            + u64::from(seg.flags & SYN != 0)
            + u64::from(seg.flags & FIN != 0);
        if len == 0 {
            if self.rcv_wnd() == 0 {
                seg.seq == self.rcv_nxt()
            } else {
                self.is_in_window(seg.seq)
            }
        } else if self.rcv_wnd() == 0 {
            false
        } else {
            self.is_in_window(seg.seq) || self.is_in_window(seq_after(seg.seq, len - 1))
        }
    }

    /// Whether a segment is answered by an acknowledgement alone, and changes nothing else (RFC 9293, 3.10.7.4; RFC 5961, 3.2 and 4.2).
    #[tactic(auto, unfolding(crate::specs::Challenges::is_challenged))]
    pub fn is_challenged(&self, seg: &Seg, text: &[u8]) -> bool
        ensures { result ≡ is_challenged seg.now text.now self.now }
    {
        if matches!(self.state, State::Listen) {
            false
        } else if !self.is_acceptable(seg, text) {
            seg.flags & RST == 0 && !(matches!(self.state, State::TimeWait) && seg.flags & FIN != 0)
        } else if seg.flags & RST != 0 {
            seg.seq != self.rcv_nxt()
        } else {
            seg.flags & SYN != 0 && !matches!(self.state, State::SynReceived)
        }
    }

    /// What a segment that isn't acceptable does.
    #[tactic(auto, unfolding(crate::specs::TcpStep::refused))]
    fn refuse(&mut self, alloc: Global, seg: &Seg) -> Result<(), AllocError>
        requires open { is_listen self.old.state ≡ false }
        ensures { OnOk result (refused seg.now self.old ≡ over self.new) }
    {
        if seg.flags & RST != 0 {
            return Ok(());
        }
        self.send_ack(alloc)?;
        if matches!(self.state, State::TimeWait) && seg.flags & FIN != 0 {
            self.time_wait_at = Some(self.clock + TIME_WAIT);
        }
        Ok(())
    }

    /// Second, RST, with the challenge of RFC 5961.
    #[tactic(auto, unfolding(crate::specs::TcpStep::check_reset))]
    fn check_reset(&mut self, alloc: Global, seg: &Seg) -> Result<(), AllocError>
        requires open { is_listen self.old.state ≡ false }
        requires rst { has seg.now.flags 4 ≡ true }
        ensures { OnOk result (check_reset seg.now self.old ≡ over self.new) }
    {
        if seg.seq == self.rcv_nxt() {
            self.go_to_listen(alloc);
            Ok(())
        } else {
            self.send_ack(alloc)
        }
    }

    /// Fourth, SYN.
    fn syn_again(&mut self, alloc: Global) -> Result<(), AllocError>
        requires open { is_listen self.old.state ≡ false }
        ensures { OnOk result (syn_again self.old.state self.old ≡ over self.new) }
    {
        if matches!(self.state, State::SynReceived) {
            self.go_to_listen(alloc);
            Ok(())
        } else {
            self.send_ack(alloc)
        }
    }

    /// Fifth, the ACK field.
    #[tactic(auto, unfolding(crate::specs::TcpStep::check_ack))]
    fn check_ack(&mut self, alloc: Global, seg: &Seg) -> Result<Step, AllocError>
        requires few { self.old.acked + length self.old.out ≤ most_streamed }
        ensures is { IfOk result (λ step. check_ack seg.now self.old ≡ step_said step self.new) }
        ensures kept { IfOk result (λ step. step ≡ Step.On → (self.new.recv ≡ self.old.recv) × (is_listen self.new.state ≡ false)) }
    {
        if seg.flags & ACK == 0 {
            return Ok(Step::Over);
        }
        match self.state {
            State::TimeWait | State::Listen => Ok(Step::Over),
            State::SynReceived => {
                let kind = self.ack_kind(seg.ack);
                if kind == AckKind::Fresh {
                    self.set_window(seg);
                    self.state = State::Established;
                    self.acknowledge(alloc, kind, seg)
                } else {
                    self.send_rst(alloc, seg)?;
                    Ok(Step::Over)
                }
            }
            _ => {
                let kind = self.ack_kind(seg.ack);
                self.acknowledge(alloc, kind, seg)
            }
        }
    }

    #[tactic(auto, unfolding(crate::specs::TcpStep::ack_kind))]
    fn ack_kind(&self, ack: u32) -> AckKind
        ensures { result ≡ ack_kind ack self.now }
    {
        let d = seq_dist(self.una, ack);
        if d == 0 {
            AckKind::Equal
        } else if d <= seq_dist(self.una, self.snd_nxt()) {
            AckKind::Fresh
        } else if d >= 0x8000_0000 {
            AckKind::Old
        } else {
            AckKind::Beyond
        }
    }

    #[tactic(auto, unfolding(crate::specs::TcpStep::acknowledged, crate::specs::TcpStep::takes_ack, crate::specs::TcpStep::takes_window))]
    fn acknowledge(&mut self, alloc: Global, kind: AckKind, seg: &Seg) -> Result<Step, AllocError>
        requires open { is_listen self.old.state ≡ false }
        requires few { self.old.acked + length self.old.out ≤ most_streamed }
        ensures is { IfOk result (λ step. acknowledged kind seg.now self.old ≡ step_said step self.new) }
        ensures kept { IfOk result (λ step. step ≡ Step.On → (self.new.recv ≡ self.old.recv) × (is_listen self.new.state ≡ false)) }
    {
        match kind {
            AckKind::Fresh => {
                self.take_ack(seg);
                self.take_window(seg);
                Ok(self.after_ack(alloc))
            }
            AckKind::Equal => {
                self.take_window(seg);
                Ok(self.after_ack(alloc))
            }
            AckKind::Old => Ok(self.after_ack(alloc)),
            AckKind::Beyond => {
                self.send_ack(alloc)?;
                Ok(Step::Over)
            }
        }
    }

    /// A new acknowledgement: the bytes leave. Our SYN and our FIN take a number each, and aren't among them.
    #[tactic(auto, unfolding(crate::specs::TcpStep::takes_ack))]
    fn take_ack(&mut self, seg: &Seg)
        requires { self.old.acked + length self.old.out ≤ most_streamed }
        ensures { self.new ≡ takes_ack seg.now self.old }
    {
        let gone = self.in_flight().min(seq_dist(self.una, seg.ack));
        self.send.acked(gone);
        self.una = seg.ack;
        self.acked += u64::from(gone);
        self.rto = FIRST_TIMEOUT;
        self.retransmit_at = None;
    }

    /// The peer's window, where the segment isn't older than the last one that gave it.
    #[tactic(auto, unfolding(crate::specs::TcpStep::takes_window))]
    fn take_window(&mut self, seg: &Seg)
        ensures is { self.new ≡ takes_window seg.now self.old }
        ensures recv { self.new.recv ≡ self.old.recv }
        ensures state { self.new.state ≡ self.old.state }
    {
        if seq_lt(self.wl1, seg.seq) || (self.wl1 == seg.seq && !seq_lt(seg.ack, self.wl2)) {
            self.set_window(seg);
        }
    }

    #[tactic(auto, unfolding(crate::specs::BlockState::seg_wnd))]
    fn set_window(&mut self, seg: &Seg)
        ensures { self.new ≡ with_window seg.now self.old }
    {
        self.wnd = u32::from(seg.wnd) << self.agreed.snd_shift;
        self.wl1 = seg.seq;
        self.wl2 = seg.ack;
    }

    /// What an acknowledgement does to the state.
    fn after_ack(&mut self, alloc: Global) -> Step
        ensures is { after_ack self.old.state (is_fin_acked self.old) self.old ≡ step_said result self.new }
        ensures kept { result ≡ Step.On → (self.new.recv ≡ self.old.recv) × (is_listen self.new.state ≡ false) }
    {
        let acked = self.is_fin_acked();
        match self.state {
            State::FinWait1 => {
                if acked {
                    self.state = State::FinWait2;
                }
                Step::On
            }
            State::Closing => {
                if acked {
                    self.wait();
                }
                Step::Go
            }
            State::LastAck => {
                if acked {
                    self.go_to_listen(alloc);
                    Step::Over
                } else {
                    Step::Go
                }
            }
            State::CloseWait => Step::Go,
            State::Established | State::FinWait2 => Step::On,
            State::Listen | State::SynReceived | State::TimeWait => Step::Over,
        }
    }
}

/// The sequence number `n` after another.
fn seq_after(seq: u32, n: u64) -> u32
    ensures { result ≡ (seq + n) % 2 ^ 32 }
{
    seq.wrapping_add((n & 0xffff_ffff) as u32)
}
