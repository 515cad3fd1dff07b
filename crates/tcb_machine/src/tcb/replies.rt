//! The segments that are sent.

ghost use Rattle.std.specs.Prelude.{false, ◌≡◌, ◌+◌, ◌-◌, ◌<◌, ◌≤◌, [], length, take, OnOk};
ghost use Rattle.segment_codec.specs.ControlBits.{ack, fin};
ghost use Rattle.tcb_machine.specs.BlockState.{unsent, sent_window};
ghost use Rattle.tcb_machine.specs.BlockState.{segment_of, syn_ack_of, rst_of, sends, sends_ack, IsOurs};
ghost use Rattle.tcb_machine.specs.States.{is_listen};
ghost use Rattle.tcb_machine.specs.TcpStep.{sends_syn_ack};
ghost use Rattle.tcb_machine.specs.Output.{sends_text};
ghost use Rattle.tcb_machine.specs.Limits.{most_mss};

use super::Tcb;
use crate::limits::{OUR_SHIFT, PLAIN_SPACE};
use segment_codec::{ACK, FIN, RST, Reply, SYN, Seg};
use sq_base::Octets;
use std::alloc::{AllocError, Global};

impl Tcb {
    /// The window field of a segment without SYN: RCV.WND, with our window scale of 5 where the SYN carried one.
    #[tactic(auto, unfolding(crate::specs::BlockState::sent_window))]
    fn sent_window(&self) -> u16
        requires { is_listen self.now.state ≡ false }
        ensures { result ≡ sent_window self.now }
    {
        if self.agreed.scaled {
            (self.rcv_wnd() >> OUR_SHIFT) as u16
        } else {
            self.rcv_wnd() as u16
        }
    }

    pub(super) fn send(&mut self, reply: Reply) -> Result<(), AllocError>
        requires { IsOurs reply }
        ensures { OnOk result (self.new ≡ sends reply self.old) }
    {
        self.replies.push(reply)?;
        Ok(())
    }

    /// <SEQ=seq><ACK=RCV.NXT> with control bits and a text.
    #[tactic(auto, unfolding(crate::specs::BlockState::segment_of))]
    pub(super) fn send_segment(
        &mut self,
        flags: u8,
        seq: u32,
        text: Octets,
    ) -> Result<(), AllocError>
        requires open { is_listen self.old.state ≡ false }
        requires text { length text ≤ most_mss }
        requires flags { flags < 64 }
        ensures { OnOk result (self.new ≡ sends (segment_of flags seq text self.old) self.old) }
    {
        let ack = self.rcv_nxt();
        let wnd = self.sent_window();
        self.send(Reply::plain(self.clock, flags, seq, ack, wnd, text))
    }

    /// <SEQ=SND.NXT><ACK=RCV.NXT><CTL=ACK>
    pub(super) fn send_ack(&mut self, alloc: Global) -> Result<(), AllocError>
        requires open { is_listen self.old.state ≡ false }
        ensures { OnOk result (self.new ≡ sends_ack self.old) }
    {
        self.send_segment(ACK, self.snd_nxt(), Octets::wrap(Vec::new(alloc)))
    }

    /// <SEQ=seq><ACK=RCV.NXT><CTL=FIN,ACK>
    pub(super) fn send_fin(&mut self, alloc: Global, seq: u32) -> Result<(), AllocError>
        requires open { is_listen self.old.state ≡ false }
        ensures { OnOk result (self.new ≡ sends (segment_of (fin + ack) seq [] self.old) self.old) }
    {
        self.send_segment(FIN | ACK, seq, Octets::wrap(Vec::new(alloc)))
    }

    /// <SEQ=SEG.ACK><CTL=RST>
    #[tactic(auto, unfolding(crate::specs::BlockState::rst_of))]
    pub(super) fn send_rst(&mut self, alloc: Global, seg: &Seg) -> Result<(), AllocError>
        ensures { OnOk result (self.new ≡ sends (rst_of seg.now self.old) self.old) }
    {
        let text = Octets::wrap(Vec::new(alloc));
        self.send(Reply::plain(self.clock, RST, seg.ack, 0, 0, text))
    }

    /// <SEQ=ISS><ACK=RCV.NXT><CTL=SYN,ACK> with our options.
    #[tactic(auto, unfolding(crate::specs::BlockState::syn_ack_of))]
    pub(super) fn send_syn_ack(&mut self, alloc: Global) -> Result<(), AllocError>
        ensures { OnOk result (self.new ≡ sends_syn_ack self.old) }
    {
        let reply = Reply {
            at: self.clock,
            flags: SYN | ACK,
            seq: self.iss,
            ack: self.rcv_nxt(),
            wnd: self.rcv_wnd().min(PLAIN_SPACE) as u16,
            options: self.agreed.announced(),
            text: Octets::wrap(Vec::new(alloc)),
        };
        self.send(reply)
    }

    /// A segment of the next `n` bytes that weren't sent yet.
    #[tactic(auto, unfolding(crate::specs::Output::sends_text, crate::specs::BlockState::unsent))]
    pub(super) fn send_text(&mut self, alloc: Global, flags: u8, n: u32) -> Result<(), AllocError>
        requires open { is_listen self.old.state ≡ false }
        requires within { n ≤ length (unsent self.old) }
        requires small { n ≤ most_mss }
        requires flags { flags < 64 }
        ensures { OnOk result (self.new ≡ sends_text flags (take n (unsent self.old)) self.old) }
    {
        let text = self.send.slice(alloc, self.in_flight(), n)?;
        self.send_segment(flags, self.snd_nxt(), text)?;
        self.sent += u64::from(n);
        Ok(())
    }
}
