//! Which datagrams are orders of the server's host.

ghost use Rattle.std.specs.Prelude.{◌≡◌, ◌+◌, ◌<◌, ◌^◌, drop, length, take};
ghost use Rattle.icmp_codec.specs.EchoRequest.{sum_holds};
ghost use Rattle.udp_codec.specs.ReadAgain.{text_in};
ghost use Rattle.live_server.specs.Orders.{is_from_host, is_host, order_in, order_of, part_holds, sums_hold};
ghost use Rattle.live_server.specs.Serving.{back_to};

use crate::setting::Setting;
use segment_codec::places::word_at;
use sq_base::{Addr, Link, Tuple, inet_sum};
use udp_codec::{Udp, decode_udp};

/// The port of systat (RFC 866), to which orders go.
const SYSTAT_PORT: u16 = 11;

/// The least port that a program needs no right for.
const FREE_PORT: u16 = 1024;

/// The bytes of an IPv4 header without options, and of that of UDP.
const HEADERS: usize = 28;

/// The number of UDP in an IPv4 header.
const UDP: u16 = 17;

/// The fields of the order that an IPv4 datagram holds: from a port of the host that needs a right, to the server's systat. A datagram
/// with options or with a wrong sum is none.
pub(crate) fn order_in(setting: &Setting, ip: &[u8]) -> Option<Udp>
    requires { length ip.now < 2 ^ 32 }
    ensures { result ≡ order_in setting.now ip.now }
{
    order_of(setting, ip, decode_udp(Link::RawIp, ip)?)
}

#[tactic(auto, unfolding(crate::specs::Orders::order_of))]
fn order_of(setting: &Setting, ip: &[u8], udp: Udp) -> Option<Udp>
    ensures { result ≡ order_of setting.now ip.now udp }
{
    if is_from_host(setting, &udp) && sums_hold(&udp, ip) {
        Some(udp)
    } else {
        None
    }
}

/// The text of an order.
pub(crate) fn order_text<'d>(udp: &Udp, ip: &'d [u8]) -> &'d [u8]
    ensures { result.now ≡ text_in udp.now ip.now }
{
    piece(ip, udp.text_from as usize, udp.text_len as usize)
}

/// The ends of an answer, which goes where the datagram came from.
pub(crate) fn back_to(udp: &Udp) -> Tuple
    ensures { result ≡ back_to udp.now }
{
    Tuple {
        client: udp.src,
        client_port: udp.src_port,
        server: udp.dst,
        server_port: udp.dst_port,
    }
}

/// Whether it comes from a port of the host that needs a right, and goes to the server's systat.
fn is_from_host(setting: &Setting, udp: &Udp) -> bool
    ensures { result ≡ is_from_host setting.now udp.now }
{
    is_host(setting, udp.src)
        && udp.src_port < FREE_PORT
        && udp.dst.0 == setting.address.0
        && udp.dst_port == SYSTAT_PORT
}

fn is_host(setting: &Setting, address: Addr) -> bool
    ensures { result ≡ is_host setting.now address }
{
    match setting.host {
        Some(host) => host.0 == address.0,
        None => false,
    }
}

/// Whether the header has no options, and both sums are right.
#[tactic(auto, unfolding(crate::specs::Orders::sums_hold))]
fn sums_hold(udp: &Udp, ip: &[u8]) -> bool
    ensures { result ≡ sums_hold udp.now ip.now }
{
    udp.text_from as usize == HEADERS && header_holds(ip) && part_holds(ip)
}

/// Whether the header's sum is right.
fn header_holds(ip: &[u8]) -> bool
    ensures { result ≡ sum_holds (take 20 ip.now) }
{
    inet_sum(0, piece(ip, 0, 20)) == 0xffff
}

/// Whether the sum of UDP is right. It goes over the addresses, which end the header, and over the UDP part and its length.
fn part_holds(ip: &[u8]) -> bool
    ensures { result ≡ part_holds ip.now }
{
    if ip.len() < HEADERS {
        return false;
    }
    let size = word_at(ip, 24);
    inet_sum(size, piece(ip, 12, 8 + usize::from(size))) == 0xffff - UDP
}

/// So many bytes from a place on, as far as there are.
fn piece(bytes: &[u8], from: usize, size: usize) -> &[u8]
    ensures { result.now ≡ take size (drop from bytes.now) }
{
    let (_, rest) = bytes.split_at(from.min(bytes.len()));
    let (piece, _) = rest.split_at(size.min(rest.len()));
    piece
}
