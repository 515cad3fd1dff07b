//! From a record to a datagram.

ghost use Rattle.std.specs.Prelude.{◌≡◌, ◌+◌, ◌*◌, ◌<◌, ◌≤◌, ◌^◌, true, length};
ghost use Rattle.segment_codec.specs.Packet.{total_of};
ghost use Rattle.udp_codec.specs.UdpDatagram.{udp_in, is_whole, header_of, part_of, is_udp, udp_at};
ghost use Rattle.udp_codec.specs.Limits.{ip_header_size, udp_header_size};

use crate::datagram::Udp;
use segment_codec::ip_place;
use segment_codec::places::{front, long_at, rest_at, word_at};
use sq_base::{Addr, Link};

const UDP: u8 = 17;

/// The bytes of an IPv4 header without options.
const IP_HEADER: usize = 20;

/// The bytes of a UDP header.
const UDP_HEADER: usize = 8;

/// The most bytes of a UDP header with its text: the longest datagram without an IPv4 header.
const MOST_LENGTH: usize = 65_535 - IP_HEADER;

/// The UDP datagram in a record's bytes, under the capture's link (RFC 791, 3.1; RFC 768), or `None` where they hold no whole one,
/// or a fragment. Its checksum isn't looked at.
///
/// # Example
///
/// ```
/// let body = captured(alloc, before, changes, behind)?;
/// assert!(rt; body.len() < 100_000);
/// Ok(decode_udp(link, body.as_slice()))
/// ```
pub fn decode_udp(link: Link, body: &[u8]) -> Option<Udp>
    requires { length body.now < 2 ^ 32 }
    ensures { result ≡ udp_in link body.now }
{
    let at = ip_place(link, body).ok()?;
    udp_at(rest_at(body, at), at as u32)
}

/// The UDP datagram in the IPv4 datagram that begins at this place of the record's body.
#[tactic(auto, unfolding(crate::specs::UdpDatagram::udp_of))]
fn udp_at(ip: &[u8], at: u32) -> Option<Udp>
    requires { length ip.now + at < 2 ^ 32 }
    ensures { result ≡ udp_at ip.now at }
{
    if !is_whole(ip) {
        return None;
    }
    let part = part_of(ip);
    if !is_udp(part) {
        return None;
    }
    Some(Udp {
        src: Addr(long_at(ip, 12)),
        src_port: word_at(part, 0),
        dst: Addr(long_at(ip, 16)),
        dst_port: word_at(part, 2),
        text_from: at + header_of(ip) as u32 + UDP_HEADER as u32,
        text_len: u32::from(word_at(part, 4)) - UDP_HEADER as u32,
    })
}

/// A whole datagram of IPv4 and UDP, and no fragment.
#[tactic(auto, unfolding(crate::specs::UdpDatagram::is_whole))]
fn is_whole(ip: &[u8]) -> bool
    ensures is { result ≡ is_whole ip.now }
    ensures long { result ≡ true → ip_header_size ≤ length ip.now }
    ensures header { result ≡ true → header_of ip.now ≤ total_of ip.now }
    ensures total { result ≡ true → total_of ip.now ≤ length ip.now }
{
    if ip.len() < IP_HEADER {
        return false;
    }
    let header = header_of(ip);
    let named = usize::from(word_at(ip, 2));
    let total = total_of(ip);
    ip[0] >> 4 == 4
        && header >= IP_HEADER
        && (named == 0 || named >= header)
        && word_at(ip, 6) & 0x3fff == 0
        && ip[9] == UDP
        && ip.len() >= total
        && ip.len() >= header
}

/// The IPv4 header's length.
fn header_of(ip: &[u8]) -> usize
    requires { 1 ≤ length ip.now }
    ensures is { result ≡ header_of ip.now }
    ensures small { result ≤ 60 }
{
    4 * usize::from(ip[0] & 15)
}

/// The datagram's total length; 0 stands for as many bytes as were captured.
fn total_of(ip: &[u8]) -> usize
    requires { ip_header_size ≤ length ip.now }
    ensures { result ≡ total_of ip.now }
{
    let named = usize::from(word_at(ip, 2));
    if named == 0 { ip.len() } else { named }
}

/// What follows the IPv4 header, without padding.
#[tactic(auto, unfolding(crate::specs::UdpDatagram::part_of))]
fn part_of(ip: &[u8]) -> &[u8]
    requires long { ip_header_size ≤ length ip.now }
    requires header { header_of ip.now ≤ total_of ip.now }
    requires total { total_of ip.now ≤ length ip.now }
    ensures is { result.now ≡ part_of ip.now }
    ensures len { length result.now + header_of ip.now ≤ length ip.now }
{
    rest_at(front(ip, total_of(ip)), header_of(ip))
}

/// The UDP length counts header and text, and the part holds them.
fn is_udp(part: &[u8]) -> bool
    ensures is { result ≡ is_udp part.now }
    ensures long { result ≡ true → udp_header_size ≤ length part.now }
{
    if part.len() < UDP_HEADER {
        return false;
    }
    let len = usize::from(word_at(part, 4));
    len >= UDP_HEADER && len <= part.len() && len <= MOST_LENGTH
}
