//! The bytes of an input from lines that a person writes.
//!
//! | Line | What it adds |
//! |---|---|
//! | `pcap` or `pcap LINK` | a file's header: little-endian, microseconds, of this link type or of raw IP |
//! | `AT FLAGS SEQ ACK WINDOW [options HEX] [TEXT]` | a record at AT microseconds with a segment, its checksums 0; FLAGS are letters of
//! `SAPFRU`, or `-` for none |
//! | `AT udp [TEXT]` | a record with a datagram, its checksums 0 |
//! | `hex HEX` | these bytes |
//! | `zeros N` | so many zeros |
//! | `line TEXT` | the text as it stands, and a newline |
//! | `repeat N LINE` | N times what one of the lines above adds |
//! | `ports N LINE` | a segment or datagram N times, each time from the next port |
//! | `from IP:PORT`, `to IP:PORT` | nothing: whom the later packets are from and to, at first 10.0.0.1:4000 and 10.0.0.2:7 |
//! | `front N` | nothing: only the first N bytes of all above stay |
//!
//! TEXT is `"characters"`, or `hex HEX`, or `count N`, which is the numbers 0, 1, 2 .. modulo 251. HEX is pairs of hexadecimal digits.

use crate::bytes::{add_bytes, spelled};
use crate::fault::RowFault;
use crate::told::told_at;
use crate::words::{RowWords, number_of};
use crate::wrong::Wrong;
use std::alloc::Global;

/// An address and a port.
#[derive(Clone, Copy, Drop)]
struct Address {
    ip: [u8; 4],
    port: u16,
}

/// What is made so far, and whom the next packets are from and to.
#[derive(Drop)]
struct Maker {
    alloc: Global,
    bytes: Vec<u8>,
    from: Address,
    to: Address,
}

/// The bytes that these lines make. A line that isn't read is a fault that names it.
pub fn bytes_of(alloc: Global, lines: &[&str]) -> Result<Vec<u8>, RowFault> {
    let mut maker = Maker {
        alloc,
        bytes: Vec::new(alloc),
        from: Address {
            ip: [10, 0, 0, 1],
            port: 4000,
        },
        to: Address {
            ip: [10, 0, 0, 2],
            port: 7,
        },
    };
    for line in lines {
        told_at(alloc, line, maker.take(RowWords::of(line)))?;
    }
    Ok(maker.bytes)
}

/// The seconds of a time, and the microseconds above them.
fn time(word: &str) -> Result<(u32, u32), Wrong> {
    let at = number_of(word).ok_or(Wrong::Word)?;
    let seconds = u32::try_from(at / 1_000_000).ok().ok_or(Wrong::Word)?;
    Ok((seconds, (at % 1_000_000) as u32))
}

/// The two sides of a separator, which stands in the text.
fn two(text: &str, separator: char) -> Result<(&str, &str), Wrong> {
    text.split_once(separator).ok_or(Wrong::Word)
}

/// A byte of an address.
fn byte(text: &str) -> Result<u8, Wrong> {
    text.parse::<u8>().ok().ok_or(Wrong::Word)
}

/// An address and a port, as in `10.0.0.1:4000`.
fn address_of(text: &str) -> Result<Address, Wrong> {
    let (ip, port) = two(text, ':')?;
    Ok(Address {
        ip: ip_of(ip)?,
        port: port.parse::<u16>().ok().ok_or(Wrong::Word)?,
    })
}

/// An address, as in `10.0.0.1`.
fn ip_of(text: &str) -> Result<[u8; 4], Wrong> {
    let (first, rest) = byte_before(text)?;
    let (second, rest) = byte_before(rest)?;
    let (third, rest) = byte_before(rest)?;
    Ok([first, second, third, byte(rest)?])
}

/// A byte of an address, and what stands behind its dot.
fn byte_before(text: &str) -> Result<(u8, &str), Wrong> {
    let (first, rest) = two(text, '.')?;
    Ok((byte(first)?, rest))
}

/// The bytes 0, 1, 2 .. modulo 251, so many.
fn counted(alloc: Global, count: u32) -> Result<Vec<u8>, Wrong> {
    let mut bytes = Vec::new(alloc);
    for i in 0..count {
        bytes.push((i % 251) as u8)?;
    }
    Ok(bytes)
}

/// The bytes of a TEXT; none where nothing is left.
fn text_of(alloc: Global, mut words: RowWords<'_>) -> Result<Vec<u8>, Wrong> {
    if words.is_done() {
        return Ok(Vec::new(alloc));
    }
    if let Some(rest) = words.rest().strip_prefix('"') {
        let characters = rest.strip_suffix('"').ok_or(Wrong::Word)?;
        return Ok(Vec::from_slice(alloc, characters.as_bytes())?);
    }
    match words.word() {
        "hex" => spelled(alloc, words.rest()),
        "count" => counted(alloc, words.last()?),
        _ => Err(Wrong::Word),
    }
}

/// The options of a segment, where the next word says that there are any.
fn options_of(alloc: Global, words: &mut RowWords<'_>) -> Result<Vec<u8>, Wrong> {
    if !words.begin_with("options") {
        return Ok(Vec::new(alloc));
    }
    words.word();
    spelled(alloc, words.word())
}

/// What a segment's line has of its header.
#[derive(Clone, Copy, Drop)]
struct Numbers {
    flags: u8,
    seq: u32,
    ack: u32,
    window: u16,
}

/// The numbers of a segment's line.
fn numbers_of(words: &mut RowWords<'_>) -> Result<Numbers, Wrong> {
    Ok(Numbers {
        flags: words.flags()?,
        seq: words.number()?,
        ack: words.number()?,
        window: words.short()?,
    })
}

/// The offset of a segment's text behind so many bytes of options, as its header has it.
fn offset_behind(options: usize) -> Result<u8, Wrong> {
    match u8::try_from(options / 4) {
        Ok(words) if words <= 10 => Ok((5 + words) << 4),
        _ => Err(Wrong::Word),
    }
}

/// A segment's header up to its options.
fn tcp_header(from: u16, to: u16, numbers: &Numbers, offset: u8) -> [u8; 20] {
    let [f0, f1] = from.to_be_bytes();
    let [t0, t1] = to.to_be_bytes();
    let [s0, s1, s2, s3] = numbers.seq.to_be_bytes();
    let [a0, a1, a2, a3] = numbers.ack.to_be_bytes();
    let [w0, w1] = numbers.window.to_be_bytes();
    let flags = numbers.flags;
    [
        f0, f1, t0, t1, s0, s1, s2, s3, a0, a1, a2, a3, offset, flags, w0, w1, 0, 0, 0, 0,
    ]
}

impl Maker {
    /// What a line says.
    fn take(&mut self, mut words: RowWords<'_>) -> Result<(), Wrong> {
        match words.word() {
            "front" => self.keep(words.last()?),
            "from" => self.from = address_of(words.rest())?,
            "to" => self.to = address_of(words.rest())?,
            "repeat" => return self.repeat(words.number()?, words.rest()),
            "ports" => return self.in_turn(words.short()?, words.rest()),
            word => return self.add(word, words),
        }
        Ok(())
    }

    /// Keeps so many bytes.
    fn keep(&mut self, count: u32) {
        self.bytes.truncate(count as usize);
    }

    /// What a line adds, so many times.
    fn repeat(&mut self, count: u32, line: &str) -> Result<(), Wrong> {
        let before = self.bytes.len();
        self.add_line(line)?;
        let piece = Vec::from_slice(self.alloc, self.bytes.get(before..).unwrap_or(&[]))?;
        for _ in 1..count {
            self.bytes.extend_from_slice(piece.as_slice())?;
        }
        Ok(())
    }

    /// What a line adds, so many times, each time from the next port.
    fn in_turn(&mut self, count: u16, line: &str) -> Result<(), Wrong> {
        let first = self.from;
        for more in 0..count {
            self.from.port = first.port.wrapping_add(more);
            self.add_line(line)?;
        }
        self.from = first;
        Ok(())
    }

    /// What a line adds that adds something.
    fn add_line(&mut self, line: &str) -> Result<(), Wrong> {
        let mut words = RowWords::of(line);
        let word = words.word();
        self.add(word, words)
    }

    /// What a line adds, by its first word.
    fn add(&mut self, word: &str, mut words: RowWords<'_>) -> Result<(), Wrong> {
        match word {
            "pcap" => self.add_header(words),
            "hex" => add_bytes(&mut self.bytes, self.alloc, words.rest()),
            "zeros" => self.add_zeros(words.last()?),
            "line" => self.add_all(&[words.rest().as_bytes(), b"\n"]),
            _ => self.add_packet(word, words),
        }
    }

    fn add_all(&mut self, pieces: &[&[u8]]) -> Result<(), Wrong> {
        for piece in pieces {
            self.bytes.extend_from_slice(piece)?;
        }
        Ok(())
    }

    fn add_zeros(&mut self, count: u32) -> Result<(), Wrong> {
        let Some(len) = self.bytes.len().checked_add(count as usize) else {
            return Err(Wrong::Word);
        };
        self.bytes.resize(len, 0)?;
        Ok(())
    }

    /// A file's header.
    fn add_header(&mut self, mut words: RowWords<'_>) -> Result<(), Wrong> {
        let link = if words.is_done() { 101 } else { words.last()? };
        self.add_all(&[
            &[0xd4, 0xc3, 0xb2, 0xa1, 2, 0, 4, 0],
            &[0, 0, 0, 0, 0, 0, 0, 0, 0, 0, 4, 0],
            &link.to_le_bytes(),
        ])
    }

    /// A record with a segment or a datagram.
    fn add_packet(&mut self, at: &str, mut words: RowWords<'_>) -> Result<(), Wrong> {
        let at = time(at)?;
        if !words.begin_with("udp") {
            return self.add_segment(at, words);
        }
        words.word();
        let text = text_of(self.alloc, words)?;
        self.add_datagram(at, text.as_slice())
    }

    /// A record with a segment.
    fn add_segment(&mut self, at: (u32, u32), mut words: RowWords<'_>) -> Result<(), Wrong> {
        let numbers = numbers_of(&mut words)?;
        let options = options_of(self.alloc, &mut words)?;
        let text = text_of(self.alloc, words)?;
        let offset = offset_behind(options.len())?;
        let header = tcp_header(self.from.port, self.to.port, &numbers, offset);
        self.add_record(at, 6, &header, options.as_slice(), text.as_slice())
    }

    /// A record with a UDP datagram.
    fn add_datagram(&mut self, at: (u32, u32), text: &[u8]) -> Result<(), Wrong> {
        let [f0, f1] = self.from.port.to_be_bytes();
        let [t0, t1] = self.to.port.to_be_bytes();
        let [l0, l1] = length_of(8, 0, text.len())?.to_be_bytes();
        self.add_record(at, 17, &[f0, f1, t0, t1, l0, l1, 0, 0], &[], text)
    }

    /// A record of a datagram with this protocol, whose header, options and text these are.
    fn add_record(
        &mut self,
        at: (u32, u32),
        protocol: u8,
        header: &[u8],
        options: &[u8],
        text: &[u8],
    ) -> Result<(), Wrong> {
        let len = length_of(header.len(), options.len(), text.len())?;
        let len = length_of(20, 0, usize::from(len))?;
        let [high, low] = len.to_be_bytes();
        let captured = u32::from(len).to_le_bytes();
        let from = self.from.ip;
        let to = self.to.ip;
        self.add_all(&[
            &at.0.to_le_bytes(),
            &at.1.to_le_bytes(),
            &captured,
            &captured,
            &[0x45, 0, high, low, 0, 0, 0x40, 0, 64, protocol, 0, 0],
            &from,
            &to,
        ])?;
        self.bytes.extend_from_slice(header)?;
        self.bytes.extend_from_slice(options)?;
        self.bytes.extend_from_slice(text)?;
        Ok(())
    }
}

/// The sum of three lengths, below 2^16.
fn length_of(first: usize, second: usize, third: usize) -> Result<u16, Wrong> {
    let all = first.saturating_add(second).saturating_add(third);
    u16::try_from(all).ok().ok_or(Wrong::Word)
}
