//! The reply in bytes.

ghost use Rattle.std.specs.Prelude.{◌≡◌, IfOk};
ghost use Rattle.icmp_codec.specs.EchoReply.{pong_bytes, ip_with, ip_sum, pong_sum};

use crate::message::Ping;
use byteorder::{BigEndian, ByteOrder};
use segment_codec::words::joined;
use sq_base::{Octets, inet_sum};
use std::alloc::{AllocError, Global};

/// The bytes in front of what a reply takes from its request: the IPv4 header, and type, code and checksum.
const HEADERS: u16 = 24;

/// The IPv4 datagram of the reply to an echo request (RFC 791, 3.1; RFC 792): its ends exchanged, what stands behind its checksum as
/// it came (RFC 1122, 3.2.2.6), both checksums anew. An error says that memory for it was missing.
#[tactic(auto, unfolding(crate::specs::EchoReply::pong_bytes))]
pub fn pong(alloc: Global, ping: &Ping<'_>) -> Result<Octets, AllocError>
    ensures { IfOk result (λ o. o ≡ pong_bytes ping.now) }
{
    let total = HEADERS + ping.rest.len() as u16;
    let mut out = Vec::with_capacity(alloc, usize::from(total))?;
    out.extend_from_slice(&header_with(ping, total, header_sum(ping, total)))?;
    out.extend_from_slice(&[0, 0])?;
    out.extend_from_slice(&message_sum(ping).to_be_bytes())?;
    out.extend_from_slice(ping.rest)?;
    Ok(Octets::wrap(out))
}

/// The IPv4 header with this checksum: no fragment, 64 hops, ICMP.
fn header_with(ping: &Ping<'_>, total: u16, sum: u16) -> [u8; 20]
    ensures { result ≡ ip_with ping.now total sum }
{
    let words = [
        joined(0x4500, total),
        joined(0, 0x4000),
        joined(0x4001, sum),
        ping.dst.0,
        ping.src.0,
    ];
    let mut bytes = [0; 20];
    BigEndian::write_u32_into(&words, &mut bytes);
    bytes
}

/// The header's checksum.
#[tactic(auto, unfolding(crate::specs::EchoReply::ip_sum))]
fn header_sum(ping: &Ping<'_>, total: u16) -> u16
    ensures { result ≡ ip_sum ping.now total }
{
    0xffff - inet_sum(0, &header_with(ping, total, 0))
}

/// The checksum of the message. Its type and its code, which are 0, add nothing.
#[tactic(auto, unfolding(crate::specs::EchoReply::pong_sum))]
fn message_sum(ping: &Ping<'_>) -> u16
    ensures { result ≡ pong_sum ping.now }
{
    0xffff - inet_sum(0, ping.rest)
}
