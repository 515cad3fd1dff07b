//! From a record to a packet: one function for each layer, and the first answer ends it.

ghost use Rattle.std.specs.Prelude.{◌≡◌, ◌+◌, ◌*◌, ◌/◌, ◌<◌, ◌≤◌, ◌^◌, length, slice_index, IfOk};
ghost use Rattle.segment_codec.specs.Packet.{packet_in, ip_place, behind_header, datagram, tcp_packet, segment_of, sums_hold};

use crate::options::Options;
use crate::packet::{Packet, Seg, Why};
use crate::places::{front, long_at, rest_at, word_at};
use sq_base::{Addr, Link, inet_sum};

const IPV4: u16 = 0x0800;

const TAGGED: u16 = 0x8100;

const TCP: u8 = 6;

/// The packet in a record's bytes, under the capture's link: IPv4 (RFC 791, 3.1) and TCP (RFC 9293, 3.1). `BadSum` comes only with
/// `verify`; each other answer is the first whose condition in `specs/Packet.antt` holds.
///
/// # Example
///
/// ```
/// match decode(Link::RawIp, datagram, true) {
///     Packet::Segment(seg) if seg.dst_port == 7 || seg.dst_port == 9 => {
///         let text = text_of(&seg, datagram);
///         ...
///     }
///     _ => Ok(Vec::new(alloc)),
/// }
/// ```
#[tactic(auto, unfolding(crate::specs::Packet::packet_in))]
pub fn decode(link: Link, body: &[u8], verify: bool) -> Packet
    requires { length body.now < 2 ^ 32 }
    ensures { result ≡ packet_in link body.now verify }
{
    match ip_place(link, body) {
        Ok(at) => decode_datagram(rest_at(body, at), at as u32, verify),
        Err(answer) => answer,
    }
}

/// The place at which the IPv4 datagram begins in a record's bytes, under the capture's link: IEEE 802.3 with at most one tag of
/// 802.1Q, Linux cooked, raw IP. Where none begins the error is the answer of `decode`: `Cut` where the bytes end inside the link's
/// header, else `Other`.
///
/// # Example
///
/// ```
/// for (link, body, place) in places {
///     assert_eq!(rt; ip_place(link, body), place);
/// }
/// ```
#[tactic(auto, unfolding(crate::specs::Packet::ip_place))]
pub fn ip_place(link: Link, body: &[u8]) -> Result<usize, Packet>
    ensures is { result ≡ ip_place link body.now }
    ensures within { IfOk result (λ at. at ≤ length body.now) }
{
    match link {
        Link::Ethernet => {
            let tagged = body.len() >= 14 && word_at(body, 12) == TAGGED;
            behind_header(if tagged { 18 } else { 14 }, body)
        }
        Link::Cooked => behind_header(16, body),
        Link::RawIp => {
            if !body.is_empty() && body[0] >> 4 == 6 {
                Err(Packet::Other)
            } else {
                Ok(0)
            }
        }
    }
}

/// The place behind a link header of so many bytes, whose last two name what follows.
#[tactic(auto, unfolding(crate::specs::Packet::behind_header))]
fn behind_header(size: usize, body: &[u8]) -> Result<usize, Packet>
    requires { 2 ≤ size }
    ensures is { result ≡ behind_header size body.now }
    ensures within { IfOk result (λ at. at ≤ length body.now) }
{
    if body.len() < size {
        Err(Packet::Cut)
    } else if word_at(body, size - 2) == IPV4 {
        Ok(size)
    } else {
        Err(Packet::Other)
    }
}

/// The packet in the datagram that starts at the place `from` of the record's body.
#[tactic(auto, unfolding(crate::specs::Packet::datagram))]
fn decode_datagram(ip: &[u8], from: u32, verify: bool) -> Packet
    requires { length ip.now + from < 2 ^ 32 }
    ensures { result ≡ datagram verify ip.now from }
{
    if ip.is_empty() {
        return Packet::Cut;
    }
    if ip[0] >> 4 != 4 {
        return Packet::Malformed(Why::Version);
    }
    let ihl = 4 * usize::from(ip[0] & 15);
    if ihl < 20 {
        return Packet::Malformed(Why::HeaderLength);
    }
    if ip.len() < 20 {
        return Packet::Cut;
    }
    let named = usize::from(word_at(ip, 2));
    if named != 0 && named < ihl {
        return Packet::Malformed(Why::TotalLength);
    }
    if word_at(ip, 6) & 0x3fff != 0 {
        return Packet::Fragment;
    }
    if ip[9] != TCP {
        return Packet::Other;
    }
    let total = if named == 0 { ip.len() } else { named };
    if ip.len() < total || ip.len() < ihl {
        return Packet::Cut;
    }
    let tcp = rest_at(front(ip, total), ihl);
    decode_tcp(ip, front(ip, ihl), tcp, from + ihl as u32, verify)
}

/// The packet in the TCP part that starts at the place `from` of the record's body.
#[tactic(auto, unfolding(crate::specs::Packet::tcp_packet))]
fn decode_tcp(ip: &[u8], header: &[u8], tcp: &[u8], from: u32, verify: bool) -> Packet
    requires ip { 20 ≤ length ip.now }
    requires fits { length tcp.now + from < 2 ^ 32 }
    ensures { result ≡ tcp_packet verify ip.now header.now tcp.now from }
{
    if tcp.len() < 20 {
        return Packet::Malformed(Why::TcpLength);
    }
    let offset = usize::from(tcp[12] >> 4);
    if offset < 5 || tcp.len() < 4 * offset {
        return Packet::Malformed(Why::DataOffset);
    }
    if verify && !sums_hold(ip, header, tcp) {
        return Packet::BadSum;
    }
    Packet::Segment(segment_of(ip, tcp, from))
}

#[tactic(auto, unfolding(crate::specs::Packet::sums_hold))]
fn sums_hold(ip: &[u8], header: &[u8], tcp: &[u8]) -> bool
    requires { 20 ≤ length ip.now }
    ensures { result ≡ sums_hold ip.now header.now tcp.now }
{
    // A length that the pseudo-header can't hold has no right sum.
    if inet_sum(0, header) != 0xffff || tcp.len() > 0xffff {
        return false;
    }
    let start = inet_sum(u16::from(TCP), rest_at(front(ip, 20), 12));
    let start = inet_sum(start, &(tcp.len() as u16).to_be_bytes());
    inet_sum(start, tcp) == 0xffff
}

#[tactic(auto, unfolding(crate::specs::Packet::segment_of))]
fn segment_of(ip: &[u8], tcp: &[u8], from: u32) -> Seg
    requires ip { 20 ≤ length ip.now }
    requires tcp { 20 ≤ length tcp.now }
    requires offset { 5 ≤ slice_index tcp.now 12 / 16 }
    requires options { 4 * (slice_index tcp.now 12 / 16) ≤ length tcp.now }
    requires fits { length tcp.now + from < 2 ^ 32 }
    ensures { result ≡ segment_of ip.now tcp.now from }
{
    let header = 4 * usize::from(tcp[12] >> 4);
    Seg {
        src: Addr(long_at(ip, 12)),
        src_port: word_at(tcp, 0),
        dst: Addr(long_at(ip, 16)),
        dst_port: word_at(tcp, 2),
        seq: long_at(tcp, 4),
        ack: long_at(tcp, 8),
        flags: tcp[13] & 63,
        wnd: word_at(tcp, 14),
        options: Options::read(rest_at(front(tcp, header), 20)),
        text_from: from + header as u32,
        text_len: (tcp.len() - header) as u32,
    }
}
