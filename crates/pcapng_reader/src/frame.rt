//! The frame of a block: its type and its length, which stands before and behind its body.

ghost use Rattle.std.specs.Prelude.{◌≡◌, ◌≤◌, length, drop};
ghost use Rattle.capture_reader.specs.Limits.{most_bytes};
ghost use Rattle.pcapng_reader.specs.Limits.{least};
ghost use Rattle.pcapng_reader.specs.Numbers.{number};
ghost use Rattle.pcapng_reader.specs.Frame.{framed, sized};

use crate::fault::PcapngFault;
use crate::order::{Order, rest_at};
use byteorder::{BigEndian, ByteOrder};

/// The type of a section header, the same in either order.
pub const SECTION: u32 = 0x0a0d_0d0a;

/// An interface description.
pub const INTERFACE: u32 = 1;

/// A simple packet.
pub const SIMPLE: u32 = 3;

/// An enhanced packet.
pub const PACKET: u32 = 6;

/// The least total length of a section header.
pub const LEAST_SECTION: u32 = 28;

/// The least total length of an interface.
pub const LEAST_INTERFACE: u32 = 20;

/// The least total length of a simple packet's block.
pub const LEAST_SIMPLE: u32 = 16;

/// The least total length of an enhanced packet's block.
pub const LEAST_PACKET: u32 = 32;

/// The least total length of any block.
const LEAST_OTHER: u32 = 12;

/// A block whose frame isn't refused: the byte order of its numbers, its type, and its total length in bytes.
#[derive(Clone, Copy, Debug, PartialEq, Eq)]
pub struct Frame {
    pub order: Order,
    pub kind: u32,
    pub total: u32,
}

/// The least total length of a block of this type.
fn least(kind: u32) -> u32
    ensures { result ≡ least kind }
{
    match kind {
        SECTION => LEAST_SECTION,
        INTERFACE => LEAST_INTERFACE,
        SIMPLE => LEAST_SIMPLE,
        PACKET => LEAST_PACKET,
        _ => LEAST_OTHER,
    }
}

/// The frame of the block that begins what is left of a file, or None where the file's tail is cut there. `order` is that of the
/// section so far, `index` the block's number.
#[tactic(auto, unfolding(crate::specs::Frame::framed))]
pub fn framed(order: Order, index: u32, rest: &[u8]) -> Result<Option<Frame>, PcapngFault>
    requires { length rest.now ≤ most_bytes }
    ensures { result ≡ framed order index rest.now }
{
    if rest.len() < 8 {
        return Ok(None);
    }
    if BigEndian::read_u32(rest) != SECTION {
        return sized(order, index, order.u32_at(rest, 0), rest);
    }
    if rest.len() < 12 {
        return Ok(None);
    }
    let magic = rest_at(rest, 8);
    match Order::of(BigEndian::read_u32(magic)) {
        Some(order) => sized(order, index, SECTION, rest),
        None => Err(PcapngFault::Magic {
            index,
            found: [magic[0], magic[1], magic[2], magic[3]],
        }),
    }
}

/// The frame of a block of this type, from its two lengths.
fn sized(order: Order, index: u32, kind: u32, rest: &[u8]) -> Result<Option<Frame>, PcapngFault>
    requires head { 8 ≤ length rest.now }
    requires small { length rest.now ≤ most_bytes }
    ensures { result ≡ sized order index kind (number order 4 (drop 4 rest.now)) rest.now }
{
    let total = order.u32_at(rest, 4);
    if total % 4 != 0 || total < least(kind) {
        return Err(PcapngFault::BlockLength { index, len: total });
    }
    if rest.len() < total as usize {
        return Ok(None);
    }
    let end = order.u32_at(rest, total as usize - 4);
    if end != total {
        return Err(PcapngFault::EndLength { index, len: end });
    }
    Ok(Some(Frame { order, kind, total }))
}
