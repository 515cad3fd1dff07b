//! Urgent data (RFC 9293, 3.8.5): the pointer of a segment, and what a connection makes of it. The text stays in line.

ghost use Rattle.std.specs.Prelude.{◌≡◌, ◌++◌, ◌∷◌, ◌≤◌, [], length, Some, IfOk, OnErr, OnOk};
ghost use Rattle.segment_codec.specs.Refusal.{tuple_of};
ghost use Rattle.sq_base.specs.declared.kinds.Tuple.{Tuple};
ghost use Rattle.tcb_machine.specs.Limits.{last_time};
ghost use Rattle.tcb_machine.specs.TcpStep.{is_in_window};
ghost use Rattle.live_server.specs.Acts.{emptied, sent_by};
ghost use Rattle.live_server.specs.Isolation.{KeepsRest, Loses};
ghost use Rattle.live_server.specs.Serving.{on_urgent, server_of, urges_at, urges_own};
ghost use Rattle.live_server.specs.Table.{place_of};
ghost use Rattle.live_server.specs.Told.{told_urgent, told_urging};
ghost use Rattle.live_server.specs.Told.Told.{hears};
ghost use Rattle.live_server.specs.Urgent.{ahead_by, as_reset, is_near, is_news, is_sending, is_urging, last_of, reset_text, urged, urgent_in, urges};
ghost use Rattle.live_server.specs.Written.{HasSent};

use crate::acting::Datagram;
use crate::congestion::flight;
use crate::conn::{Conn, Judged, Met, is_consumed, is_outside, read_nxt, takes};
use crate::conn_table::ConnTable;
use crate::rules::Rules;
use segment_codec::places::word_at;
use segment_codec::{ACK, FIN, RST, SYN, Seg, tuple_of};
use sq_base::{Tuple, seq_dist};
use std::alloc::{AllocError, Global};
use tcb_machine::{State, Tcb};

/// The control bit URG (RFC 9293, 3.1).
const URG: u8 = 32;

/// The urgent pointer of a segment in its datagram, where URG is set: the octet of this number behind the segment's own is the first that isn't
/// urgent (RFC 9293, 3.1).
#[tactic(auto, unfolding(crate::specs::Urgent::urgent_in))]
pub(crate) fn urgent_in(seg: &Seg, body: &[u8]) -> Option<u16>
    ensures { result ≡ urgent_in seg.now body.now }
{
    if seg.flags & URG == 0 || body.is_empty() {
        return None;
    }
    let tcp = 4 * (body[0] % 16) as usize;
    if body.len() < tcp + 20 {
        None
    } else {
        Some(word_at(body, tcp + 18))
    }
}

/// A segment as its flags let it count: a RST without its FIN.
pub(crate) fn as_reset(seg: &Seg) -> Seg
    ensures { result ≡ as_reset seg.now }
{
    let flags = if seg.flags & RST != 0 {
        seg.flags & 62
    } else {
        seg.flags
    };
    Seg { flags, ..*seg }
}

/// The text that counts of a segment: of a RST none.
#[tactic(auto, unfolding(crate::specs::Urgent::reset_text))]
pub(crate) fn reset_text<'a>(seg: &Seg, text: &'a [u8]) -> &'a [u8]
    ensures is { result.now ≡ reset_text seg.now text.now }
    ensures short { length result.now ≤ length text.now }
{
    if seg.flags & RST != 0 { &[] } else { text }
}

impl Conn {
    /// How many bytes of urgent data its service hasn't read: RCV.UP less what it read, or 0 where nothing urgent is left (RFC 9293, 3.8.5).
    pub fn urgent_left(&self) -> u32
        ensures { result ≡ self.now.urgent }
    {
        self.urgent
    }

    /// A segment with URG comes, whose pointer this is. Where it is acceptable, and urgent data ends later than was known, that is noted. The
    /// answer says whether it was: else it met nobody. After an error nothing more is promised of the connection.
    #[tactic(auto, using(crate::proofs::WrittenLemmas::nothing_sent))]
    pub fn urge(
        &mut self,
        alloc: Global,
        now: u64,
        pointer: u16,
        seg: &Seg,
        tuple: &Tuple,
        out: &mut Vec<Datagram>,
    ) -> Result<Met, AllocError>
        ensures met { IfOk result (λ m. m ≡ (urges now pointer seg.now tuple.now self.old).met) }
        ensures conn { OnOk result (self.new ≡ emptied (urged now pointer seg.now self.old)) }
        ensures sent { OnOk result (out.new.items ≡ out.old.items ++ sent_by tuple.now (urged now pointer seg.now self.old)) }
        ensures wrote { OnErr result (HasSent out.old.items out.new.items (sent_by tuple.now (urged now pointer seg.now self.old))) }
    {
        let met = self.hear_pointer(now, pointer, seg);
        self.send(alloc, tuple, out)?;
        Ok(met)
    }

    /// The same, where what is sent stays in the block.
    #[tactic(auto, unfolding(crate::specs::Urgent::urged, crate::specs::Urgent::is_news))]
    fn hear_pointer(&mut self, now: u64, pointer: u16, seg: &Seg) -> Met
        ensures met { (t : Tuple) → result ≡ (urges now pointer seg.now t self.old).met }
        ensures conn { self.new ≡ urged now pointer seg.now self.old }
    {
        let ahead = ahead_by(&self.tcb, pointer, seg);
        if is_urging(&self.tcb, now, seg) && self.urgent < ahead {
            self.urgent = ahead;
            Met::Judged(Judged::Taken)
        } else {
            Met::Gone
        }
    }
}

/// How far the end of the urgent data is beyond what the service read.
fn ahead_by(tcb: &Tcb, pointer: u16, seg: &Seg) -> u32
    ensures { result ≡ ahead_by pointer seg.now tcb.now }
{
    let ahead = seq_dist(read_nxt(tcb), seg.seq.wrapping_add(u32::from(pointer)));
    if ahead < 0x8000_0000 { ahead } else { 0 }
}

/// Whether the URG of a segment counts (RFC 9293, 3.10.7.4, sixth).
#[tactic(auto, unfolding(crate::specs::Urgent::is_urging))]
fn is_urging(tcb: &Tcb, now: u64, seg: &Seg) -> bool
    ensures { result ≡ is_urging now seg.now tcb.now }
{
    if seg.flags & RST != 0 || seg.flags & SYN != 0 {
        return false;
    }
    seg.flags & ACK != 0 && takes(tcb, now) && is_sending(tcb, seg) && is_near(tcb, seg)
}

/// Whether what a segment acknowledges lets it count, in a state in which the peer may still send.
#[tactic(auto, unfolding(crate::specs::Urgent::is_sending))]
fn is_sending(tcb: &Tcb, seg: &Seg) -> bool
    ensures { result ≡ is_sending seg.now tcb.now }
{
    let state = tcb.state();
    if matches!(state, State::SynReceived) {
        let newly = seq_dist(tcb.snd_una(), seg.ack);
        0 < newly && newly <= flight(tcb)
    } else {
        !is_consumed(state) && !matches!(state, State::Listen) && !is_outside(tcb, seg)
    }
}

/// Whether some of a segment is in the window, or it is waited for where that is closed.
#[tactic(auto, unfolding(crate::specs::Urgent::is_near))]
fn is_near(tcb: &Tcb, seg: &Seg) -> bool
    ensures { result ≡ is_near seg.now tcb.now }
{
    if tcb.rcv_wnd() == 0 {
        seg.seq == tcb.rcv_nxt() || seg.seq == tcb.rcv_nxt().wrapping_add(1)
    } else {
        is_in_window(tcb, seg.seq) || is_in_window(tcb, last_of(seg))
    }
}

/// The last number of a segment, or its own where it takes none.
fn last_of(seg: &Seg) -> u32
    ensures { result ≡ last_of seg.now }
{
    let without_fin = u32::from(seg.flags & FIN == 0);
    seg.seq
        .wrapping_add(seg.text_len.saturating_sub(without_fin))
}

/// Whether a number is in the window.
#[tactic(auto, unfolding(tcb_machine::specs::TcpStep::is_in_window))]
fn is_in_window(tcb: &Tcb, seq: u32) -> bool
    ensures { result ≡ is_in_window seq tcb.now }
{
    seq_dist(tcb.rcv_nxt(), seq) < tcb.rcv_wnd()
}

impl<T: ConnTable> Rules<T> {
    /// A segment to a service comes, and before it, where URG is set, where its urgent data ends.
    #[tactic(auto, unfolding(crate::specs::Serving::on_urgent))]
    pub(crate) fn urgent(
        &mut self,
        alloc: Global,
        now: u64,
        pointer: Option<u16>,
        seg: &Seg,
        text: &[u8],
        out: &mut Vec<Datagram>,
    ) -> Result<(), AllocError>
        requires good { T.good self.old.table }
        requires time { now ≤ last_time }
        ensures good { T.good self.new.table }
        ensures server { OnOk result (server_of T.conns self.new ≡ (on_urgent now pointer seg.now text.now (server_of T.conns self.old)).server) }
        ensures sent { OnOk result (out.new.items ≡ out.old.items ++ (on_urgent now pointer seg.now text.now (server_of T.conns self.old)).sent) }
        ensures wrote { OnErr result (HasSent out.old.items out.new.items (on_urgent now pointer seg.now text.now (server_of T.conns self.old)).sent) }
        ensures told { OnOk result (T.tells self.old.table (told_urgent now pointer seg.now text.now (server_of T.conns self.old)) self.new.table) }
        ensures lost { OnErr result (Loses (tuple_of seg.now) (server_of T.conns self.old) (server_of T.conns self.new)) }
        ensures rest { OnErr result (KeepsRest (length text.now) (server_of T.conns self.old) (server_of T.conns self.new)) }
    {
        self.urge(alloc, now, pointer, seg, out)?;
        self.segment(alloc, now, seg, text, out)
    }

    /// The connection of a segment with URG is told where its urgent data ends.
    #[tactic(auto, unfolding(crate::specs::Serving::urges_own))]
    fn urge(
        &mut self,
        alloc: Global,
        now: u64,
        pointer: Option<u16>,
        seg: &Seg,
        out: &mut Vec<Datagram>,
    ) -> Result<(), AllocError>
        requires good { T.good self.old.table }
        ensures good { T.good self.new.table }
        ensures server { OnOk result (server_of T.conns self.new ≡ (urges_own now pointer seg.now (server_of T.conns self.old)).server) }
        ensures sent { OnOk result (out.new.items ≡ out.old.items ++ (urges_own now pointer seg.now (server_of T.conns self.old)).sent) }
        ensures wrote { OnErr result (HasSent out.old.items out.new.items (urges_own now pointer seg.now (server_of T.conns self.old)).sent) }
        ensures told { OnOk result (T.tells self.old.table (told_urging pointer seg.now (server_of T.conns self.old)) self.new.table) }
        ensures lost { OnErr result (Loses (tuple_of seg.now) (server_of T.conns self.old) (server_of T.conns self.new)) }
        ensures rest { OnErr result (KeepsRest 0 (server_of T.conns self.old) (server_of T.conns self.new)) }
    {
        if let Some(pointer) = pointer {
            if let Some(place) = self.table.find(&tuple_of(seg)) {
                return self.urge_at(alloc, now, pointer, seg, place, out);
            }
        }
        Ok(())
    }

    /// The connection at a place is told that. Where it is news, it counts.
    #[tactic(auto, unfolding(crate::specs::Serving::urges_at, crate::specs::Serving::becomes))]
    fn urge_at(
        &mut self,
        alloc: Global,
        now: u64,
        pointer: u16,
        seg: &Seg,
        place: usize,
        out: &mut Vec<Datagram>,
    ) -> Result<(), AllocError>
        requires good { T.good self.old.table }
        requires place { place_of (tuple_of seg.now) (T.conns self.old.table) ≡ Some place }
        ensures good { T.good self.new.table }
        ensures server { OnOk result (server_of T.conns self.new ≡ (urges_at now pointer seg.now place (server_of T.conns self.old)).server) }
        ensures sent { OnOk result (out.new.items ≡ out.old.items ++ (urges_at now pointer seg.now place (server_of T.conns self.old)).sent) }
        ensures wrote { OnErr result (HasSent out.old.items out.new.items (urges_at now pointer seg.now place (server_of T.conns self.old)).sent) }
        ensures told { OnOk result (T.tells self.old.table (hears (tuple_of seg.now) ∷ []) self.new.table) }
        ensures lost { OnErr result (Loses (tuple_of seg.now) (server_of T.conns self.old) (server_of T.conns self.new)) }
        ensures rest { OnErr result (KeepsRest 0 (server_of T.conns self.old) (server_of T.conns self.new)) }
    {
        let tuple = tuple_of(seg);
        let met = self
            .table
            .urge(place, alloc, now, pointer, seg, &tuple, out)?;
        match met {
            Met::Judged(_) => {
                self.counts.urgent = self.counts.urgent.wrapping_add(1);
                Ok(())
            }
            Met::Gone => Ok(()),
        }
    }
}
