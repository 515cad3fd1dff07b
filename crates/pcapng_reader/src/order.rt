//! The byte order of a section, and the numbers in it.

ghost use Rattle.std.specs.Prelude.{◌≡◌, ◌+◌, ◌≤◌, length, drop};

use byteorder::{BigEndian, ByteOrder, LittleEndian};

/// The byte order of a section (draft-ietf-opsawg-pcapng, section 4.1).
#[derive(Clone, Copy, Debug, PartialEq, Eq)]
pub enum Order {
    Big,
    Little,
}

impl Order {
    ghost use Rattle.pcapng_reader.specs.Numbers.{number, order_of};

    /// The order that a byte-order magic names, its four bytes read high first.
    pub fn of(magic: u32) -> Option<Order>
        ensures { result ≡ order_of magic }
    {
        match magic {
            0x1a2b_3c4d => Some(Order::Big),
            0x4d3c_2b1a => Some(Order::Little),
            _ => None,
        }
    }

    /// The number in the four bytes at a place.
    #[tactic(auto, unfolding(crate::specs::Numbers::number))]
    pub fn u32_at(self, bytes: &[u8], at: usize) -> u32
        requires { at + 4 ≤ length bytes.now }
        ensures { result ≡ number self 4 (drop at bytes.now) }
    {
        let bytes = rest_at(bytes, at);
        match self {
            Order::Big => BigEndian::read_u32(bytes),
            Order::Little => LittleEndian::read_u32(bytes),
        }
    }

    /// The number in the two bytes at a place.
    #[tactic(auto, unfolding(crate::specs::Numbers::number))]
    pub fn u16_at(self, bytes: &[u8], at: usize) -> u16
        requires { at + 2 ≤ length bytes.now }
        ensures { result ≡ number self 2 (drop at bytes.now) }
    {
        let bytes = rest_at(bytes, at);
        match self {
            Order::Big => BigEndian::read_u16(bytes),
            Order::Little => LittleEndian::read_u16(bytes),
        }
    }
}

/// The bytes from a place on.
pub fn rest_at(bytes: &[u8], at: usize) -> &[u8]
    requires { at ≤ length bytes.now }
    ensures { result.now ≡ drop at bytes.now }
{
    bytes.split_at(at).1
}
