//! A segment for a connection that isn't there, as one to a port that isn't served, is answered by a reset.

ghost use Rattle.std.specs.Prelude.{◌≡◌, if◌then◌else◌, ◌+◌, ◌%◌, ◌^◌};
ghost use Rattle.segment_codec.specs.ControlBits.{ack, has_ack, rst};
ghost use Rattle.segment_codec.specs.Refusal.{refusal_of, tuple_of, seg_len};

use crate::control::{ACK, FIN, RST, SYN};
use crate::packet::{Reply, Seg};
use sq_base::{Octets, Tuple};
use std::alloc::Global;

/// The connection of a segment that its client sent.
pub fn tuple_of(seg: &Seg) -> Tuple
    ensures { result ≡ tuple_of seg.now }
{
    Tuple {
        client: seg.src,
        client_port: seg.src_port,
        server: seg.dst,
        server_port: seg.dst_port,
    }
}

/// The reset for a segment of a connection that isn't there (RFC 9293, 3.10.7.1), sent at `at` microseconds, or None for a
/// segment that is a reset itself. It takes no memory.
pub fn refusal(alloc: Global, at: u64, seg: &Seg) -> Option<Reply>
    ensures { result ≡ refusal_of at seg.now }
{
    if seg.flags & RST == RST {
        return None;
    }
    let (flags, seq, ack) = reset_numbers(seg);
    let text = Octets::wrap(Vec::new(alloc));
    Some(Reply::plain(at, flags, seq, ack, 0, text))
}

/// The flags of the reset, its sequence number and its acknowledgement number.
fn reset_numbers(seg: &Seg) -> (u8, u32, u32)
    ensures { result ≡ (if has_ack seg.now then (rst, seg.now.ack, 0) else (rst + ack, 0, (seg.now.seq + seg_len seg.now) % 2 ^ 32)) }
{
    if seg.flags & ACK == ACK {
        return (RST, seg.ack, 0);
    }
    let syn = u32::from(seg.flags & SYN == SYN);
    let fin = u32::from(seg.flags & FIN == FIN);
    let end = seg
        .seq
        .wrapping_add(seg.text_len)
        .wrapping_add(syn)
        .wrapping_add(fin);
    (RST | ACK, 0, end)
}
