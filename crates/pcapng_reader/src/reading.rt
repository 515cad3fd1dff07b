//! The blocks of a file, one after the other.

ghost use Rattle.std.specs.Prelude.{◌≡◌, ◌+◌, ◌-◌, ◌<◌, ◌≤◌, ◌==◌, length, IfOk, IfErr, MatchResult, Ok, Err};
ghost use Rattle.capture_reader.specs.Limits.{most_bytes};
ghost use Rattle.pcapng_reader.specs.Blocks.{section_says, interface_says, packet_says, simple_says, record_says, content_says};
ghost use Rattle.pcapng_reader.specs.Limits.{least, least_section, least_interface, least_packet, least_simple};
ghost use Rattle.pcapng_reader.specs.PcapngFile.{start, file_link, BeginsSection, IsPcapng, ParseFails};
ghost use Rattle.pcapng_reader.specs.SoFar.{Told, state_of, ReadsFile, Fails};

use crate::fault::PcapngFault;
use crate::frame::{
    Frame, INTERFACE, LEAST_PACKET, LEAST_SECTION, LEAST_SIMPLE, PACKET, SECTION, SIMPLE, framed,
};
use crate::interface::{Interface, padded, time_of};
use crate::order::{Order, rest_at};
use capture_reader::{Capture, LONGEST_BODY, MOST_RECORDS, Record};
use sq_base::{Link, Octets};
use std::alloc::Global;

/// How far a file is read.
#[derive(Drop)]
pub struct Reading {
    /// The number of the next block.
    blocks: u32,
    /// The place of the next block.
    at: usize,
    /// The byte order of the section.
    order: Order,
    /// The section's interfaces, by number.
    interfaces: Vec<Interface>,
    /// The link type of the file's first interface.
    link: Option<u32>,
    records: Vec<Record>,
}

impl Reading {
    fn new(alloc: Global) -> Reading
        ensures { state_of result ≡ start }
    {
        Reading {
            blocks: 0,
            at: 0,
            order: Order::Little,
            interfaces: Vec::new(alloc),
            link: None,
            records: Vec::new(alloc),
        }
    }

    /// A section header.
    fn section(&mut self, order: Order, block: &[u8]) -> Result<(), PcapngFault>
        requires { least_section ≤ length block.now }
        ensures { Told (section_says (state_of self.old) order block.now) (state_of self.new) result }
    {
        let major = order.u16_at(block, 12);
        if major != 1 {
            return Err(PcapngFault::Version {
                index: self.blocks,
                major,
                minor: order.u16_at(block, 14),
            });
        }
        self.order = order;
        self.interfaces.clear();
        Ok(())
    }

    /// An interface of the section.
    fn interface(&mut self, block: &[u8]) -> Result<(), PcapngFault>
        requires { least_interface ≤ length block.now }
        ensures { Told (interface_says (state_of self.old) block.now) (state_of self.new) result }
    {
        let link = u32::from(self.order.u16_at(block, 8));
        if Link::of(link).is_none() {
            return Err(PcapngFault::Link {
                index: self.blocks,
                link,
            });
        }
        if let Some(first) = self.link
            && first != link
        {
            return Err(PcapngFault::MixedLink {
                index: self.blocks,
                link,
            });
        }
        self.interfaces
            .push(Interface::of(self.order, block))
            .map_err(|_| PcapngFault::NoMemory)?;
        self.link = Some(link);
        Ok(())
    }

    /// A packet with a time and an interface.
    fn packet(&mut self, block: &[u8]) -> Result<(), PcapngFault>
        requires whole { least_packet ≤ length block.now }
        requires small { self.old.at + length block.now ≤ most_bytes }
        ensures { Told (packet_says (state_of self.old) block.now) (state_of self.new) result }
    {
        let id = self.order.u32_at(block, 8);
        let Some(interface) = self.interfaces.get(id as usize) else {
            return Err(PcapngFault::NoInterface {
                index: self.blocks,
                id,
            });
        };
        let high = u64::from(self.order.u32_at(block, 12));
        let low = u64::from(self.order.u32_at(block, 16));
        let packet = Record {
            at: time_of(interface.resolution, high * 0x1_0000_0000 + low),
            from: (self.at + 28) as u32,
            len: self.order.u32_at(block, 20),
        };
        self.add(packet, block.len() - LEAST_PACKET as usize)
    }

    /// A packet with neither, as long as the first interface leaves it.
    fn simple_packet(&mut self, block: &[u8]) -> Result<(), PcapngFault>
        requires whole { least_simple ≤ length block.now }
        requires small { self.old.at + length block.now ≤ most_bytes }
        ensures { Told (simple_says (state_of self.old) block.now) (state_of self.new) result }
    {
        let Some(first) = self.interfaces.first() else {
            return Err(PcapngFault::NoInterface {
                index: self.blocks,
                id: 0,
            });
        };
        let original = self.order.u32_at(block, 8);
        let len = if first.snapshot == 0 {
            original
        } else {
            original.min(first.snapshot)
        };
        let at = match self.records.last() {
            Some(last) => last.at,
            None => 0,
        };
        let from = (self.at + 12) as u32;
        self.add(
            Record { at, from, len },
            block.len() - LEAST_SIMPLE as usize,
        )
    }

    /// One record more, whose block has room for so many captured bytes.
    fn add(&mut self, packet: Record, room: usize) -> Result<(), PcapngFault>
        ensures { Told (record_says (state_of self.old) packet room) (state_of self.new) result }
    {
        if packet.len > LONGEST_BODY || padded(packet.len as usize) > room {
            return Err(PcapngFault::PacketLength {
                index: self.blocks,
                len: packet.len,
            });
        }
        if self.records.len() == MOST_RECORDS {
            return Err(PcapngFault::TooManyRecords);
        }
        self.records.push(packet).map_err(|_| PcapngFault::NoMemory)
    }

    /// The body of a block.
    #[tactic(auto, unfolding(crate::specs::Blocks::content_says))]
    fn content(&mut self, frame: Frame, block: &[u8]) -> Result<(), PcapngFault>
        requires whole { least frame.kind ≤ length block.now }
        requires small { self.old.at + length block.now ≤ most_bytes }
        ensures { Told (content_says (state_of self.old) frame block.now) (state_of self.new) result }
    {
        match frame.kind {
            SECTION => self.section(frame.order, block),
            INTERFACE => self.interface(block),
            SIMPLE => self.simple_packet(block),
            PACKET => self.packet(block),
            _ => Ok(()),
        }
    }

    /// The link of all packets.
    fn link(&self) -> Link
        ensures { result ≡ file_link self.now.link }
    {
        self.link.and_then(Link::of).unwrap_or(Link::RawIp)
    }
}

/// The blocks of a file, and whether its tail is cut.
fn walk(alloc: Global, bytes: &[u8]) -> Result<(Reading, bool), PcapngFault>
    requires { length bytes.now ≤ most_bytes }
    ensures { MatchResult result (λ x. ReadsFile bytes.now (state_of x.0) x.1) (Fails bytes.now) }
{
    let mut reading = Reading::new(alloc);
    loop {
        let rest = rest_at(bytes, reading.at);
        if rest.is_empty() {
            return Ok((reading, false));
        }
        let Some(frame) = framed(reading.order, reading.blocks, rest)? else {
            return Ok((reading, true));
        };
        let total = frame.total as usize;
        reading.content(frame, rest.split_at(total).0)?;
        reading.blocks += 1;
        reading.at += total;
    }
}

/// The capture that the bytes of a pcapng file are (draft-ietf-opsawg-pcapng), at most 64 MiB of them, or the first refusal that they
/// meet. `NoMemory` comes where room for interfaces or packets was missing. The bytes stay as they are.
///
/// # Example
///
/// ```
/// assert!(rt; bytes.len() <= 67_108_864);
/// assert!(rt; bytes.as_slice().starts_with(&[0x0a, 0x0d, 0x0d, 0x0a]));
/// parse_pcapng(alloc, Octets::wrap(bytes))
/// ```
pub fn parse_pcapng(alloc: Global, bytes: Octets) -> Result<Capture, PcapngFault>
    requires section { BeginsSection bytes }
    requires small { length bytes ≤ most_bytes }
    ensures ok { IfOk result (λ c. IsPcapng c × (c.bytes ≡ bytes)) }
    ensures err { IfErr result (ParseFails bytes) }
{
    let size = bytes.as_slice().len();
    if size < LEAST_SECTION as usize {
        return Err(PcapngFault::ShortSection(size as u32));
    }
    let (reading, cut) = walk(alloc, bytes.as_slice())?;
    let link = reading.link();
    Capture::make(alloc, link, bytes, &reading.records, cut).map_err(|_| PcapngFault::NoMemory)
}
