//! A connection whose path takes no datagram as long as one that it sent, as a router says (RFC 1191).

ghost use Rattle.std.specs.Prelude.{◌≡◌, ◌++◌, true, false, IfOk, OnErr, OnOk};
ghost use Rattle.sq_base.specs.declared.kinds.Tuple.{Tuple};
ghost use Rattle.tcb_machine.specs.States.{is_listen};
ghost use Rattle.live_server.specs.Acts.{emptied, sent_by};
ghost use Rattle.live_server.specs.PathMtu.{is_heeded, path_told, shortened, shortens, text_in_mtu};
ghost use Rattle.live_server.specs.Written.{HasSent};

use crate::acting::Datagram;
use crate::congestion::{flight, is_open};
use crate::conn::{Conn, Judged, Met, resend};
use sq_base::{Tuple, seq_dist};
use std::alloc::{AllocError, Global};
use tcb_machine::DEFAULT_MSS;

/// The headers of a segment that is sent with text.
const HEADER_BYTES: u16 = 40;

impl Conn {
    /// A router says that it dropped the segment with a number, since the next path takes no more than `most` bytes of text in one. Where
    /// that number is under way, and segments are longer, they are shorter from then on, and what was sent is sent again. The answer says
    /// whether it was heeded: else it met nobody. After an error nothing more is promised of the connection.
    #[tactic(auto, using(crate::proofs::WrittenLemmas::nothing_sent))]
    pub fn shorten(
        &mut self,
        alloc: Global,
        seq: u32,
        most: u16,
        tuple: &Tuple,
        out: &mut Vec<Datagram>,
    ) -> Result<Met, AllocError>
        ensures met { IfOk result (λ m. m ≡ (shortens seq most tuple.now self.old).met) }
        ensures conn { OnOk result (self.new ≡ emptied (path_told seq most self.old)) }
        ensures sent { OnOk result (out.new.items ≡ out.old.items ++ sent_by tuple.now (path_told seq most self.old)) }
        ensures wrote { OnErr result (HasSent out.old.items out.new.items (sent_by tuple.now (path_told seq most self.old))) }
    {
        let met = self.hear_path(alloc, seq, most)?;
        self.send(alloc, tuple, out)?;
        Ok(met)
    }

    /// The same, where what is sent stays in the block.
    #[tactic(auto, unfolding(crate::specs::PathMtu::path_told))]
    fn hear_path(&mut self, alloc: Global, seq: u32, most: u16) -> Result<Met, AllocError>
        ensures met { IfOk result (λ m. (t : Tuple) → m ≡ (shortens seq most t self.old).met) }
        ensures conn { OnOk result (self.new ≡ path_told seq most self.old) }
    {
        if !self.heeds(seq, most) {
            return Ok(Met::Gone);
        }
        self.take_path(alloc, most)?;
        Ok(Met::Judged(Judged::Taken))
    }

    /// Whether it heeds what is said of the segment with a number.
    #[tactic(auto, unfolding(crate::specs::PathMtu::is_heeded))]
    fn heeds(&self, seq: u32, most: u16) -> bool
        ensures is { result ≡ is_heeded seq most self.now }
        ensures open { result ≡ true → is_listen self.now.tcb.state ≡ false }
    {
        is_open(&self.tcb)
            && seq_dist(self.tcb.snd_una(), seq) < flight(&self.tcb)
            && most < self.tcb.mss()
    }

    /// From now on its segments have at most so many bytes of text, or 64. The first one that isn't acknowledged is sent again.
    #[tactic(auto, unfolding(crate::specs::PathMtu::shortened))]
    fn take_path(&mut self, alloc: Global, most: u16) -> Result<(), AllocError>
        requires open { is_listen self.old.tcb.state ≡ false }
        ensures { OnOk result (self.new ≡ shortened most self.old) }
    {
        self.tcb.shorten(most);
        self.most = most;
        self.congestion.restart(&self.tcb);
        self.timing.forget();
        resend(&mut self.tcb, alloc, true)
    }
}

/// The most text of a segment in a datagram of so many bytes: 536 at least, which every path takes.
pub fn text_in_mtu(mtu: u16) -> u16
    ensures { result ≡ text_in_mtu mtu }
{
    mtu.saturating_sub(HEADER_BYTES).max(DEFAULT_MSS)
}
