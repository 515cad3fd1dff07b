//! A sent segment in bytes. Both checksums are taken over the fields as numbers first, so each byte is written once.

ghost use Rattle.std.specs.Prelude.{◌≡◌, ◌≤◌, ◌+◌, ◌*◌, ◌<◌, length, take, IfOk, IsOk, OnOk, OnErr, ◌++◌, ◌∷◌, [], if◌then◌else◌, is_ok, flat_map};
ghost use Rattle.std.specs.Prelude.{vec_capacity, vec_len};
ghost use Rattle.byteorder.specs.Endian.{big_bytes};
ghost use Rattle.sq_base.specs.InternetSum.{word_sum};
ghost use Rattle.segment_codec.specs.SegmentBytes.{segment_bytes, ip_with, tcp_with, offset_of, ip_sum, tcp_sum};
ghost use Rattle.segment_codec.specs.Options.{option_bytes, word_bytes};
ghost use Rattle.segment_codec.specs.Limits.{most_text, most_option_words};
ghost use Rattle.segment_codec.specs.Datagrams.{most_datagram};

use crate::packet::Reply;
use crate::words::{folded, halves, joined};
use byteorder::{BigEndian, ByteOrder};
use sq_base::{Octets, Tuple, inet_sum};
use std::alloc::{AllocError, Global};

/// The most bytes of a datagram that is sent: an IPv4 header without options, the largest TCP header, and the text.
pub const MOST_DATAGRAM: usize = 1540;

/// The IPv4 datagram of a reply from the tuple's server to its client (RFC 791, 3.1; RFC 9293, 3.1), with both checksums.
/// An error says that memory for it was missing.
pub fn encode(alloc: Global, tuple: &Tuple, reply: &Reply) -> Result<Octets, AllocError>
    requires text { length reply.now.text ≤ most_text }
    ensures { IfOk result (λ o. o ≡ segment_bytes tuple.now reply.now) }
{
    let mut out = Vec::new(alloc);
    encode_into(&mut out, tuple, reply)?;
    Ok(Octets::wrap(out))
}

/// Appends the datagram that `encode` gives to a buffer that the caller keeps. After an error the buffer is as it was;
/// there is none where it has room for the largest datagram.
pub fn encode_into(out: &mut Vec<u8>, tuple: &Tuple, reply: &Reply) -> Result<(), AllocError>
    requires text { length reply.now.text ≤ most_text }
    ensures items { out.new.items ≡ (if is_ok result then out.old.items ++ segment_bytes tuple.now reply.now else out.old.items) }
    ensures succeeds { vec_len out.old + most_datagram ≤ vec_capacity out.old → IsOk result }
    ensures capacity { vec_capacity out.old ≤ vec_capacity out.new }
{
    let before = out.len();
    let written = append(out, tuple, reply);
    if written.is_err() {
        out.truncate(before);
    }
    written
}

/// Appends the datagram, or a front of it where memory is missing.
#[tactic(auto, unfolding(crate::specs::SegmentBytes::segment_bytes), using(crate::proofs::Joins::joins, crate::proofs::Joins::fronts))]
fn append(out: &mut Vec<u8>, tuple: &Tuple, reply: &Reply) -> Result<(), AllocError>
    requires text { length reply.now.text ≤ most_text }
    ensures ok { OnOk result (out.new.items ≡ out.old.items ++ segment_bytes tuple.now reply.now) }
    ensures kept { take (length out.old.items) out.new.items ≡ out.old.items }
    ensures succeeds { vec_len out.old + most_datagram ≤ vec_capacity out.old → IsOk result }
    ensures capacity { vec_capacity out.old ≤ vec_capacity out.new }
{
    let len = tcp_len(reply);
    let total = 20 + len;
    out.reserve(usize::from(total))?;
    let sum = header_sum(tuple, total);
    push_header(out, ip_header(tuple, total, sum))?;
    push_tcp(out, tuple, reply, tcp_sum(tuple, reply, len))?;
    Ok(())
}

/// The length of the TCP part.
fn tcp_len(reply: &Reply) -> u16
    requires { length reply.now.text ≤ most_text }
    ensures value { result ≡ 20 + length (option_bytes reply.now.options) + length reply.now.text }
    ensures small { result ≤ most_text + 60 }
{
    u16::from(offset(reply)) * 4 + reply.text.as_slice().len() as u16
}

/// The header's checksum.
#[tactic(auto, unfolding(crate::specs::SegmentBytes::ip_sum))]
fn header_sum(tuple: &Tuple, total: u16) -> u16
    ensures { result ≡ ip_sum tuple.now total }
{
    0xffff - folded(sum_of(ip_header(tuple, total, 0)))
}

/// The TCP checksum: over the pseudo-header (RFC 9293, 3.1), the header's fields, its options, and the text.
fn tcp_sum(tuple: &Tuple, reply: &Reply, len: u16) -> u16
    requires { len ≡ 20 + length (option_bytes reply.now.options) + length reply.now.text }
    ensures { result ≡ tcp_sum tuple.now reply.now }
{
    let pseudo = halves(tuple.server.0) + halves(tuple.client.0) + 6 + u32::from(len);
    let header = sum_of(tcp_header(tuple, reply, 0));
    let sum = folded(pseudo + header + sum_options(&reply.options.words()));
    0xffff - inet_sum(sum, reply.text.as_slice())
}

/// The IPv4 header with this checksum, in words of 32 bits: no fragment, 64 hops, TCP.
fn ip_header(tuple: &Tuple, total: u16, sum: u16) -> [u32; 5]
    ensures { flat_map (big_bytes 4) result ≡ ip_with tuple.now total sum }
{
    [
        joined(0x4500, total),
        joined(0, 0x4000),
        joined(0x4006, sum),
        tuple.server.0,
        tuple.client.0,
    ]
}

/// The TCP header without its options, with this checksum, in words of 32 bits.
fn tcp_header(tuple: &Tuple, reply: &Reply, sum: u16) -> [u32; 5]
    ensures { flat_map (big_bytes 4) result ≡ take 20 (tcp_with tuple.now reply.now sum) }
{
    [
        joined(tuple.server_port, tuple.client_port),
        reply.seq,
        reply.ack,
        joined(word(offset(reply) * 16, reply.flags), reply.wnd),
        joined(sum, 0),
    ]
}

/// Two bytes as a word of 16 bits.
fn word(high: u8, low: u8) -> u16
    ensures { big_bytes 2 result ≡ high ∷ low ∷ [] }
{
    u16::from(high) * 256 + u16::from(low)
}

/// The sum of a header's words of 16 bits.
fn sum_of(header: [u32; 5]) -> u32
    ensures is { result ≡ word_sum (flat_map (big_bytes 4) header) }
    ensures small { result ≤ 10 * 0xffff }
{
    let [a, b, c, d, e] = header;
    halves(a) + halves(b) + halves(c) + halves(d) + halves(e)
}

/// The sum of the words of options.
fn sum_options(words: &[Option<u32>]) -> u32
    requires { length words.now ≤ most_option_words }
    ensures is { result ≡ word_sum (flat_map word_bytes words.now) }
    ensures small { result ≤ 2 * most_option_words * 0xffff }
{
    let mut sum = 0;
    for word in words {
        if let Some(word) = word {
            sum += halves(*word);
        }
    }
    sum
}

/// Appends a header.
fn push_header(out: &mut Vec<u8>, header: [u32; 5]) -> Result<(), AllocError>
    ensures ok { OnOk result (out.new.items ≡ out.old.items ++ flat_map (big_bytes 4) header) }
    ensures kept { OnErr result (out.new.items ≡ out.old.items) }
    ensures len { OnOk result (vec_len out.new ≡ vec_len out.old + 20) }
    ensures succeeds { vec_len out.old + 20 ≤ vec_capacity out.old → IsOk result }
    ensures capacity { vec_capacity out.old ≤ vec_capacity out.new }
{
    let mut bytes = [0u8; 20];
    BigEndian::write_u32_into(&header, &mut bytes);
    out.extend_from_slice(&bytes)
}

/// Appends the TCP part with this checksum, or a front of it where memory is missing.
#[tactic(auto, using(crate::proofs::Joins::joins, crate::proofs::Joins::fronts))]
fn push_tcp(out: &mut Vec<u8>, tuple: &Tuple, reply: &Reply, sum: u16) -> Result<(), AllocError>
    ensures ok { OnOk result (out.new.items ≡ out.old.items ++ tcp_with tuple.now reply.now sum) }
    ensures kept { take (length out.old.items) out.new.items ≡ out.old.items }
    ensures succeeds { vec_len out.old + (20 + length (option_bytes reply.now.options) + length reply.now.text) ≤ vec_capacity out.old → IsOk result }
    ensures capacity { vec_capacity out.old ≤ vec_capacity out.new }
{
    push_header(out, tcp_header(tuple, reply, sum))?;
    push_options(out, &reply.options.words())?;
    out.extend_from_slice(reply.text.as_slice())?;
    Ok(())
}

/// The data offset: the header's length in words of four bytes.
fn offset(reply: &Reply) -> u8
    ensures value { result ≡ offset_of reply.now }
    ensures small { result ≤ 15 }
{
    5 + carried(&reply.options.words())
}

/// How many words of options are carried.
fn carried(words: &[Option<u32>]) -> u8
    requires { length words.now ≤ most_option_words }
    ensures value { 4 * result ≡ length (flat_map word_bytes words.now) }
    ensures small { result ≤ most_option_words }
{
    let mut count = 0;
    for word in words {
        count += u8::from(word.is_some());
    }
    count
}

/// Appends the words of options, or a front of them where memory is missing.
#[tactic(auto, using(crate::proofs::Joins::joins, crate::proofs::Joins::fronts))]
fn push_options(out: &mut Vec<u8>, words: &[Option<u32>]) -> Result<(), AllocError>
    ensures ok { OnOk result (out.new.items ≡ out.old.items ++ flat_map word_bytes words.now) }
    ensures kept { take (length out.old.items) out.new.items ≡ out.old.items }
    ensures len { OnOk result (vec_len out.new ≡ vec_len out.old + length (flat_map word_bytes words.now)) }
    ensures succeeds { vec_len out.old + length (flat_map word_bytes words.now) ≤ vec_capacity out.old → IsOk result }
    ensures capacity { vec_capacity out.old ≤ vec_capacity out.new }
{
    for word in words {
        if let Some(word) = word {
            out.extend_from_slice(&word.to_be_bytes())?;
        }
    }
    Ok(())
}
