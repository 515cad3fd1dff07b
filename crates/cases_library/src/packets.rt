//! Records' bytes, as packets, and what is sent in bytes.
//!
//! | Field | A line | What is told |
//! |---|---|---|
//! | `packets` | LINK HEX, or LINK `verify` HEX | the segment, or what the bytes are else |
//! | `places` | LINK HEX | where the datagram begins |
//! | `datagrams` | LINK HEX | the UDP datagram |
//! | `pings` | HEX | the echo request, and the reply's bytes |
//! | `too_long` | HEX | what a router says of a segment that was too long |
//! | `unreachable` | HEX | what a router says of a segment that didn't arrive |
//! | `replies` | FLAGS SEQ ACK WINDOW, maybe `mss=N` and `scale=N`, maybe HEX of a text | its bytes |
//! | `texts` | HEX | the bytes of a UDP datagram with this text |
//! | `refused` | FLAGS SEQ ACK LENGTH | the reset that answers a segment with so long a text |

ghost use Rattle.std.specs.Prelude.{◌≤◌, IfOk, length};

use crate::ends::{tell_address, tell_end};
use case_rows::{RowFault, RowWords, Wrong, add_bytes, add_flags, add_text, spelled, told_at};
use icmp_codec::{Cause, ping_in, pong, too_long_in, unreachable_in};
use segment_codec::{MOST_TEXT, Options, Packet, Reply, Seg, decode, encode, ip_place, refusal};
use sq_base::{Addr, Link, Octets, Tuple};
use std::alloc::{AllocError, Global};
use std::fmt::Write;
use udp_codec::{Udp, decode_udp, encode_udp};

/// What a line of these fields is.
#[derive(Clone, Copy)]
pub enum Form {
    Packets,
    Places,
    Datagrams,
    Pings,
    TooLong,
    Unreachable,
    Replies,
    Texts,
    Refused,
}

/// The ends of what is sent over TCP.
const ENDS: Tuple = Tuple {
    client: Addr(0x0a00_0001),
    client_port: 4000,
    server: Addr(0x0a00_0002),
    server_port: 7,
};

/// The ends of what is sent over UDP.
const UDP_ENDS: Tuple = Tuple {
    client: Addr(0x0a00_0001),
    client_port: 5000,
    server: Addr(0x0a00_0002),
    server_port: 7,
};

/// The link that a word names.
fn link_of(word: &str) -> Result<Link, Wrong> {
    match word {
        "ethernet" => Ok(Link::Ethernet),
        "raw" => Ok(Link::RawIp),
        "cooked" => Ok(Link::Cooked),
        _ => Err(Wrong::Word),
    }
}

/// Bytes that a line spells; none where it is empty.
fn body_of(alloc: Global, line: &str) -> Result<Vec<u8>, Wrong>
    ensures { IfOk result (λ body. length body.items ≤ 1000000) }
{
    let mut body = Vec::new(alloc);
    if !line.is_empty() {
        add_bytes(&mut body, alloc, line)?;
    }
    if body.len() > 1_000_000 {
        return Err(Wrong::Call);
    }
    Ok(body)
}

/// Tells the options of a segment.
fn tell_options(out: &mut String, options: &Options) -> Result<(), AllocError> {
    if let Some(mss) = options.mss {
        write!(out, " mss={mss}")?;
    }
    if let Some(scale) = options.scale {
        write!(out, " scale={scale}")?;
    }
    Ok(())
}

/// Tells a segment: its two ends, control bits, sequence number, acknowledgement number, window, options, place and length of the text.
fn tell_segment(out: &mut String, seg: &Seg) -> Result<(), AllocError> {
    out.push_str("segment")?;
    tell_end(out, seg.src, seg.src_port)?;
    tell_end(out, seg.dst, seg.dst_port)?;
    out.push_str(" ")?;
    add_flags(out, seg.flags)?;
    write!(out, " {} {} {}", seg.seq, seg.ack, seg.wnd)?;
    tell_options(out, &seg.options)?;
    writeln!(out, " text {} {}", seg.text_from, seg.text_len)
}

/// Tells a packet.
fn tell_packet(out: &mut String, packet: &Packet) -> Result<(), AllocError> {
    match packet {
        Packet::Segment(seg) => tell_segment(out, seg),
        _ => writeln!(out, "{packet:?}"),
    }
}

/// Tells the packet in a record's bytes.
fn packet(out: &mut String, alloc: Global, line: &str) -> Result<(), Wrong> {
    let mut words = RowWords::of(line);
    let link = link_of(words.word())?;
    let (verify, digits) = match words.rest().strip_prefix("verify ") {
        Some(digits) => (true, digits),
        None => (false, words.rest()),
    };
    let body = body_of(alloc, digits)?;
    tell_packet(out, &decode(link, body.as_slice(), verify))?;
    Ok(())
}

/// Tells where the datagram begins in a record's bytes.
fn place(out: &mut String, alloc: Global, line: &str) -> Result<(), Wrong> {
    let mut words = RowWords::of(line);
    let link = link_of(words.word())?;
    let body = body_of(alloc, words.rest())?;
    match ip_place(link, body.as_slice()) {
        Ok(at) => writeln!(out, "at {at}")?,
        Err(packet) => tell_packet(out, &packet)?,
    }
    Ok(())
}

/// Tells a UDP datagram: its two ends, place and length of the text.
fn tell_datagram(out: &mut String, udp: &Udp) -> Result<(), AllocError> {
    out.push_str("datagram")?;
    tell_end(out, udp.src, udp.src_port)?;
    tell_end(out, udp.dst, udp.dst_port)?;
    writeln!(out, " text {} {}", udp.text_from, udp.text_len)
}

/// Tells the UDP datagram in a record's bytes.
fn datagram(out: &mut String, alloc: Global, line: &str) -> Result<(), Wrong> {
    let mut words = RowWords::of(line);
    let link = link_of(words.word())?;
    let body = body_of(alloc, words.rest())?;
    match decode_udp(link, body.as_slice()) {
        Some(udp) => tell_datagram(out, &udp)?,
        None => out.push_str("none\n")?,
    }
    Ok(())
}

/// Tells an echo request: who asks and who is asked, how many bytes the reply takes from it, and the reply's bytes.
fn ping(out: &mut String, alloc: Global, line: &str) -> Result<(), Wrong> {
    let body = body_of(alloc, line)?;
    match ping_in(body.as_slice()) {
        Some(ping) => {
            out.push_str("ping")?;
            tell_address(out, ping.src())?;
            tell_address(out, ping.dst())?;
            write!(out, " rest {} reply ", ping.rest().len())?;
            add_text(out, pong(alloc, &ping)?.as_slice())?;
            out.push_str("\n")?;
        }
        None => out.push_str("none\n")?,
    }
    Ok(())
}

/// Tells what a router says of a segment that was too long: who says it to whom, the segment's client and server, its number, and the MTU.
fn too_long(out: &mut String, alloc: Global, line: &str) -> Result<(), Wrong> {
    let body = body_of(alloc, line)?;
    match too_long_in(body.as_slice()) {
        Some(told) => {
            out.push_str("too long")?;
            tell_address(out, told.src)?;
            tell_address(out, told.dst)?;
            tell_end(out, told.ends.client, told.ends.client_port)?;
            tell_end(out, told.ends.server, told.ends.server_port)?;
            writeln!(out, " seq {} mtu {}", told.seq, told.mtu)?;
        }
        None => out.push_str("none\n")?,
    }
    Ok(())
}

/// The word for why a segment didn't arrive.
fn cause_word(cause: Cause) -> &'static str {
    match cause {
        Cause::Away => "away",
        Cause::Port => "port",
        Cause::Prohibited => "prohibited",
        Cause::TimeExceeded => "time exceeded",
        Cause::Parameter => "parameter",
    }
}

/// Tells what a router says of a segment that didn't arrive: why, who says it to whom, the segment's client and server, and its number.
fn unreachable(out: &mut String, alloc: Global, line: &str) -> Result<(), Wrong> {
    let body = body_of(alloc, line)?;
    match unreachable_in(body.as_slice()) {
        Some(told) => {
            out.push_str(cause_word(told.cause))?;
            tell_address(out, told.src)?;
            tell_address(out, told.dst)?;
            tell_end(out, told.ends.client, told.ends.client_port)?;
            tell_end(out, told.ends.server, told.ends.server_port)?;
            writeln!(out, " seq {}", told.seq)?;
        }
        None => out.push_str("none\n")?,
    }
    Ok(())
}

/// A word sets an option of a reply. Says whether it was one.
fn set(reply: &mut Reply, word: &str) -> Result<bool, Wrong> {
    match word.split_once('=') {
        Some(("mss", value)) => {
            reply.options.mss = Some(value.parse::<u16>().map_err(|_| Wrong::Word)?);
        }
        Some(("scale", value)) => {
            reply.options.scale = Some(value.parse::<u8>().map_err(|_| Wrong::Word)?);
        }
        _ => return Ok(false),
    }
    Ok(true)
}

/// A reply that a line writes.
fn reply_of(alloc: Global, line: &str) -> Result<Reply, Wrong> {
    let mut words = RowWords::of(line);
    let flags = words.flags()?;
    let seq = words.number()?;
    let ack = words.number()?;
    let wnd = words.short()?;
    let mut reply = Reply::plain(0, flags, seq, ack, wnd, Octets::of(alloc, b"")?);
    for word in words.rest().split_ascii_whitespace() {
        if !set(&mut reply, word)? {
            reply.text = Octets::wrap(spelled(alloc, word)?);
        }
    }
    Ok(reply)
}

/// Tells the bytes of a reply.
fn reply(out: &mut String, alloc: Global, line: &str) -> Result<(), Wrong> {
    let reply = reply_of(alloc, line)?;
    if reply.text.as_slice().len() > usize::from(MOST_TEXT) {
        return Err(Wrong::Call);
    }
    let sent = encode(alloc, &ENDS, &reply)?;
    add_text(out, sent.as_slice())?;
    out.push_str("\n")?;
    Ok(())
}

/// Tells the bytes of a UDP datagram.
fn text(out: &mut String, alloc: Global, line: &str) -> Result<(), Wrong> {
    let text = body_of(alloc, line)?;
    if text.len() > 1460 {
        return Err(Wrong::Call);
    }
    let sent = encode_udp(alloc, &UDP_ENDS, text.as_slice())?;
    add_text(out, sent.as_slice())?;
    out.push_str("\n")?;
    Ok(())
}

/// Tells the reset that answers a segment.
fn refused(out: &mut String, alloc: Global, line: &str) -> Result<(), Wrong> {
    let mut words = RowWords::of(line);
    let flags = words.flags()?;
    let seq = words.number()?;
    let ack = words.number()?;
    let length = words.number()?;
    let seg = Seg::plain(&ENDS, flags, seq, ack, 4096, 40, length);
    match refusal(alloc, 9, &seg) {
        Some(reset) => {
            add_flags(out, reset.flags)?;
            writeln!(out, " {} {}", reset.seq, reset.ack)?;
        }
        None => out.push_str("none\n")?,
    }
    Ok(())
}

/// Tells what a line of this form gives.
fn tell(form: Form, out: &mut String, alloc: Global, line: &str) -> Result<(), Wrong> {
    match form {
        Form::Packets => packet(out, alloc, line),
        Form::Places => place(out, alloc, line),
        Form::Datagrams => datagram(out, alloc, line),
        Form::Pings => ping(out, alloc, line),
        Form::TooLong => too_long(out, alloc, line),
        Form::Unreachable => unreachable(out, alloc, line),
        Form::Replies => reply(out, alloc, line),
        Form::Texts => text(out, alloc, line),
        Form::Refused => refused(out, alloc, line),
    }
}

/// Tells what lines of this form give, one after another.
pub fn tell_packets(
    form: Form,
    alloc: Global,
    lines: &[&str],
    out: &mut String,
) -> Result<(), RowFault> {
    for line in lines {
        let told = tell(form, out, alloc, line);
        told_at(alloc, line, told)?;
    }
    Ok(())
}
