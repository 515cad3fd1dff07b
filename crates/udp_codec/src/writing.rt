//! A sent datagram in bytes. Both checksums are taken over the fields as numbers first, so each byte is written once.

ghost use Rattle.std.specs.Prelude.{◌≡◌, ◌+◌, ◌++◌, ◌≤◌, length, flat_map, IfOk, OnOk};
ghost use Rattle.byteorder.specs.Endian.{big_bytes};
ghost use Rattle.udp_codec.specs.UdpBytes.{udp_bytes, ip_with, udp_with, ip_sum, udp_sum, not_none};
ghost use Rattle.udp_codec.specs.Limits.{most_text};

use byteorder::{BigEndian, ByteOrder};
use segment_codec::words::{folded, halves, joined};
use sq_base::{Octets, Tuple, inet_sum};
use std::alloc::{AllocError, Global};

/// The IPv4 datagram of a text from the tuple's server to its client (RFC 791, 3.1; RFC 768), with both checksums. An error says that memory for
/// it was missing.
#[tactic(auto, unfolding(crate::specs::UdpBytes::udp_bytes))]
pub fn encode_udp(alloc: Global, tuple: &Tuple, text: &[u8]) -> Result<Octets, AllocError>
    requires { length text.now ≤ most_text }
    ensures { IfOk result (λ o. o ≡ udp_bytes tuple.now text.now) }
{
    let len = 8 + text.len() as u16;
    let total = 20 + len;
    let mut out = Vec::with_capacity(alloc, usize::from(total))?;
    push_header(&mut out, tuple, total, header_sum(tuple, total))?;
    push_part(&mut out, tuple, text, udp_sum(tuple, text, len))?;
    Ok(Octets::wrap(out))
}

/// The header's checksum.
#[tactic(auto, unfolding(crate::specs::UdpBytes::ip_sum))]
fn header_sum(tuple: &Tuple, total: u16) -> u16
    ensures { result ≡ ip_sum tuple.now total }
{
    // The words that are the same in each header: version and length, no fragment, time to live and protocol.
    let same = 0x4500 + 0x4000 + 0x4011;
    0xffff - folded(same + u32::from(total) + halves(tuple.server.0) + halves(tuple.client.0))
}

/// The UDP checksum: over the pseudo-header, the header's fields, and the text.
fn udp_sum(tuple: &Tuple, text: &[u8], len: u16) -> u16
    requires { len ≡ 8 + length text.now }
    ensures { result ≡ udp_sum tuple.now text.now }
{
    let pseudo = halves(tuple.server.0) + halves(tuple.client.0) + 17 + u32::from(len);
    let header = u32::from(tuple.server_port) + u32::from(tuple.client_port) + u32::from(len);
    not_none(0xffff - inet_sum(folded(pseudo + header), text))
}

/// A checksum of 0 would say that there is none.
fn not_none(sum: u16) -> u16
    ensures { result ≡ not_none sum }
{
    if sum == 0 { 0xffff } else { sum }
}

/// Appends the IPv4 header with this checksum.
fn push_header(out: &mut Vec<u8>, tuple: &Tuple, total: u16, sum: u16) -> Result<(), AllocError>
    ensures { OnOk result (out.new.items ≡ out.old.items ++ ip_with tuple.now total sum) }
{
    let mut header = [0; 20];
    BigEndian::write_u32_into(&ip_header(tuple, total, sum), &mut header);
    out.extend_from_slice(&header)
}

/// The IPv4 header with this checksum, in words of 32 bits: no fragment, 64 hops, UDP.
fn ip_header(tuple: &Tuple, total: u16, sum: u16) -> [u32; 5]
    ensures { flat_map (big_bytes 4) result ≡ ip_with tuple.now total sum }
{
    [
        joined(0x4500, total),
        joined(0, 0x4000),
        joined(0x4011, sum),
        tuple.server.0,
        tuple.client.0,
    ]
}

/// Appends the UDP part with this checksum.
#[tactic(auto, using(segment_codec::proofs::Joins::joins))]
fn push_part(out: &mut Vec<u8>, tuple: &Tuple, text: &[u8], sum: u16) -> Result<(), AllocError>
    requires { length text.now ≤ most_text }
    ensures { OnOk result (out.new.items ≡ out.old.items ++ udp_with tuple.now text.now sum) }
{
    let words = [
        tuple.server_port,
        tuple.client_port,
        8 + text.len() as u16,
        sum,
    ];
    let mut header = [0; 8];
    BigEndian::write_u16_into(&words, &mut header);
    out.extend_from_slice(&header)?;
    out.extend_from_slice(text)
}
