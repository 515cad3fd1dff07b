//! From a datagram to an echo request.

ghost use Rattle.std.specs.Prelude.{◌≡◌, ◌+◌, ◌≤◌, true, length};
ghost use Rattle.segment_codec.specs.Places.{word};
ghost use Rattle.icmp_codec.specs.EchoRequest.{ping_in, is_icmp, is_echo, message_of, sum_holds};
ghost use Rattle.icmp_codec.specs.Limits.{ip_header_size, icmp_header_size, least_rest, most_rest};

use crate::message::Ping;
use segment_codec::places::{front, long_at, rest_at, word_at};
use sq_base::{Addr, inet_sum};

const ICMP: u8 = 1;

/// The type of an echo request.
const ECHO: u8 = 8;

/// The bytes of an IPv4 header without options.
pub(crate) const IP_HEADER: usize = 20;

/// The bytes of type, code and checksum.
const ICMP_HEADER: usize = 4;

/// The least bytes of an echo message: identifier and sequence number stand behind its header.
const LEAST_MESSAGE: usize = 8;

/// The echo request that an IPv4 datagram holds (RFC 791, 3.1; RFC 792), or `None` where it holds no whole one, or has options, or
/// is a fragment, or one of its two checksums is wrong. Bytes behind its total length are padding.
#[tactic(auto, unfolding(crate::specs::EchoRequest::echo_in, crate::specs::EchoRequest::message_in))]
pub fn ping_in(body: &[u8]) -> Option<Ping<'_>>
    ensures { result ≡ ping_in body.now }
{
    if !is_icmp(body) {
        return None;
    }
    let message = message_of(body);
    if !is_request(message) {
        return None;
    }
    Some(Ping {
        src: Addr(long_at(body, 12)),
        dst: Addr(long_at(body, 16)),
        rest: rest_at(message, ICMP_HEADER),
    })
}

/// A whole datagram of IPv4 and ICMP, without options and no fragment, that has room for an echo message.
#[tactic(auto, unfolding(crate::specs::EchoRequest::is_icmp))]
pub(crate) fn is_icmp(ip: &[u8]) -> bool
    ensures is { result ≡ is_icmp ip.now }
    ensures least { result ≡ true → ip_header_size + icmp_header_size + least_rest ≤ word ip.now 2 }
    ensures whole { result ≡ true → word ip.now 2 ≤ length ip.now }
{
    if ip.len() < IP_HEADER {
        return false;
    }
    let total = usize::from(word_at(ip, 2));
    ip[0] == 0x45
        && total >= IP_HEADER + LEAST_MESSAGE
        && total <= ip.len()
        && word_at(ip, 6) & 0x3fff == 0
        && ip[9] == ICMP
        && sum_holds(front(ip, IP_HEADER))
}

/// What follows the IPv4 header, without padding.
pub(crate) fn message_of(ip: &[u8]) -> &[u8]
    requires least { ip_header_size ≤ word ip.now 2 }
    requires whole { word ip.now 2 ≤ length ip.now }
    ensures is { result.now ≡ message_of ip.now }
    ensures len { length result.now + ip_header_size ≡ word ip.now 2 }
    ensures most { length result.now ≤ icmp_header_size + most_rest }
{
    let total = usize::from(word_at(ip, 2));
    rest_at(front(ip, total), IP_HEADER)
}

/// An echo request whose checksum is right.
#[tactic(auto, unfolding(crate::specs::EchoRequest::is_echo))]
fn is_request(message: &[u8]) -> bool
    requires { icmp_header_size ≤ length message.now }
    ensures { result ≡ is_echo 8 message.now }
{
    message[0] == ECHO && message[1] == 0 && sum_holds(message)
}

/// The checksum among these bytes is right (RFC 1071).
pub(crate) fn sum_holds(bytes: &[u8]) -> bool
    ensures { result ≡ sum_holds bytes.now }
{
    inet_sum(0, bytes) == 0xffff
}
