//! What a record holds, and what is sent.

ghost use Rattle.std.specs.Prelude.{◌≡◌};
ghost use Rattle.segment_codec.specs.PlainSegments.{plain, plain_from};

use crate::options::Options;
use sq_base::{Addr, Octets, Tuple};

/// The fields of a segment (RFC 9293, 3.1).
///
/// The ports, the sequence number `seq`, the acknowledgement number `ack` and the window `wnd` are the header's own;
/// `flags` are its lower six bits (FIN 1, SYN 2, RST 4, PSH 8, ACK 16, URG 32). `options` is what its options say, with
/// whatever flags; no rule on flags is applied.
/// The text is the `text_len` bytes of the record's body from `text_from` on; the window isn't scaled.
#[derive(Clone, Copy, Debug, PartialEq, Eq)]
pub struct Seg {
    pub src: Addr,
    pub src_port: u16,
    pub dst: Addr,
    pub dst_port: u16,
    pub seq: u32,
    pub ack: u32,
    pub flags: u8,
    pub wnd: u16,
    pub options: Options,
    pub text_from: u32,
    pub text_len: u32,
}

impl Seg {
    /// A segment without options that the tuple's client sent: control bits, sequence number, acknowledgement number, window
    /// field, and where its text stands in the record's body.
    pub fn plain(
        tuple: &Tuple,
        flags: u8,
        seq: u32,
        ack: u32,
        wnd: u16,
        text_from: u32,
        text_len: u32,
    ) -> Seg
        ensures { result ≡ plain_from tuple.now flags seq ack wnd text_from text_len }
    {
        Seg {
            src: tuple.client,
            src_port: tuple.client_port,
            dst: tuple.server,
            dst_port: tuple.server_port,
            seq,
            ack,
            flags,
            wnd,
            options: Options::none(),
            text_from,
            text_len,
        }
    }
}

/// Which number of a datagram contradicts another, or what RFC 791 or RFC 9293 demands of it.
#[derive(Clone, Copy, Debug, PartialEq, Eq)]
pub enum Why {
    /// The version isn't 4.
    Version,
    /// The IPv4 header is shorter than 20 bytes.
    HeaderLength,
    /// The total length is shorter than the IPv4 header.
    TotalLength,
    /// The TCP part is shorter than 20 bytes.
    TcpLength,
    /// The TCP header is shorter than 20 bytes, or longer than the TCP part.
    DataOffset,
}

/// What a record's bytes hold.
#[derive(Clone, Copy, Debug, PartialEq, Eq)]
pub enum Packet {
    /// A whole TCP segment.
    Segment(Seg),
    /// Another protocol than TCP over IPv4.
    Other,
    /// A fragment of an IPv4 datagram.
    Fragment,
    /// The capture holds fewer bytes than the headers name.
    Cut,
    /// A header contradicts another or its RFC. The first such answer counts.
    Malformed(Why),
    /// A checksum is wrong. Given only where checksums are to be verified.
    BadSum,
}

/// A segment that is sent: its time `at` in microseconds, the fields of its header (RFC 9293, 3.1), the options that it carries, and its text.
///
/// `wnd` is the field as it is sent. `encode` takes at most 1,460 bytes of text.
#[derive(Debug, Drop)]
pub struct Reply {
    pub at: u64,
    pub flags: u8,
    pub seq: u32,
    pub ack: u32,
    pub wnd: u16,
    pub options: Options,
    pub text: Octets,
}

impl Reply {
    /// A segment without options: time in microseconds, control bits, sequence number, acknowledgement number, window field, text.
    pub fn plain(at: u64, flags: u8, seq: u32, ack: u32, wnd: u16, text: Octets) -> Reply
        ensures { result ≡ plain at flags seq ack wnd text }
    {
        Reply {
            at,
            flags,
            seq,
            ack,
            wnd,
            options: Options::none(),
            text,
        }
    }
}
