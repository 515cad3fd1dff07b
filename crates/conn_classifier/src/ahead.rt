//! The hints of a connection's segments.

ghost use Rattle.std.specs.Prelude.{◌≡◌, List, ◌∷◌, IfOk, Some, length, map};
ghost use Rattle.std.specs.List.{AllByRecursion};
ghost use Rattle.capture_reader.specs.CaptureFile.{Packet as Captured};
ghost use Rattle.conn_classifier.specs.Items.{hint};
ghost use Rattle.conn_classifier.specs.Slots.{IsKept, segment_at};
ghost use Rattle.conn_classifier.specs.Hints.{hints_of, said, IsAhead};

use crate::kinds::Arrival;
use crate::slots::segment_at;
use segment_codec::{ACK, Packet, RST, SYN, Seg};
use std::alloc::{AllocError, Global};

/// What the later segments say: nothing, an acknowledgement, or a SYN that comes first.
#[derive(Clone, Copy, Debug, PartialEq, Eq)]
pub enum Ahead {
    Nothing,
    Acked(u32),
    Syn(u32, u32),
}

impl Ahead {
    fn said(self, seq: u32) -> u32
        ensures { result ≡ said self seq }
    {
        match self {
            Ahead::Nothing => 0,
            Ahead::Acked(iss) => iss,
            Ahead::Syn(other, iss) => { if other == seq { iss } else { 0 } }
        }
    }

    /// What the segments say, with this one before them, and its own hint.
    fn before(self, seg: &Seg) -> (Ahead, u32)
        ensures hint { (more : List Arrival) → IsAhead self more → result.1 ≡ hint seg.now more }
        ensures ahead { (a : Arrival) (more : List Arrival) → a.seg ≡ seg.now → IsAhead self more → IsAhead result.0 (a ∷ more) }
    {
        if seg.flags & SYN == SYN {
            let iss = self.said(seg.seq);
            (Ahead::Syn(seg.seq, iss), iss)
        } else if seg.flags & RST == RST {
            (self, 0)
        } else if seg.flags & ACK == ACK {
            (Ahead::Acked(seg.ack.wrapping_sub(1)), 0)
        } else {
            (self, 0)
        }
    }

    /// The same of the segment of record number `rec`. A record without one says nothing.
    fn before_record(self, packets: &[Packet], rec: u32) -> (Ahead, u32)
        ensures hint { (a : Arrival) (more : List Arrival) → segment_at packets.now rec ≡ Some a.seg → IsAhead self more
            → result.1 ≡ hint a.seg more }
        ensures ahead { (a : Arrival) (more : List Arrival) → segment_at packets.now rec ≡ Some a.seg → IsAhead self more
            → IsAhead result.0 (a ∷ more) }
    {
        match segment_at(packets, rec) {
            Some(seg) => self.before(&seg),
            None => (self, 0),
        }
    }
}

/// The hint of each segment of a connection. Fails only for want of memory.
pub fn hints(alloc: Global, arrivals: &[Arrival]) -> Result<Vec<u32>, AllocError>
    ensures { IfOk result (λ v. v.items ≡ hints_of arrivals.now) }
{
    let mut hints = vec![in alloc; 0u32; arrivals.len()]?;
    let mut ahead = Ahead::Nothing;
    let mut i = arrivals.len();
    while i > 0 {
        i -= 1;
        let (now, iss) = ahead.before(&arrivals[i].seg);
        hints[i] = iss;
        ahead = now;
    }
    Ok(hints)
}

/// The hint of each segment of a connection that has these records. Fails only for want of memory.
pub fn hints_at(alloc: Global, packets: &[Packet], recs: &[u32]) -> Result<Vec<u32>, AllocError>
    ensures even { IfOk result (λ v. length v.items ≡ length recs.now) }
    ensures value { (rs : List Captured) (xs : List Arrival) → recs.now ≡ map (λ a. a.rec) xs → AllByRecursion (IsKept rs packets.now) xs
        → IfOk result (λ v. v.items ≡ hints_of xs) }
{
    let mut hints = vec![in alloc; 0u32; recs.len()]?;
    let mut ahead = Ahead::Nothing;
    let mut i = recs.len();
    while i > 0 {
        i -= 1;
        let (now, iss) = ahead.before_record(packets, recs[i]);
        hints[i] = iss;
        ahead = now;
    }
    Ok(hints)
}
