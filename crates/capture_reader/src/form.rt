//! The byte order of a capture file and the unit of its fractions, which its magic number names, and the numbers in it.

ghost use Rattle.std.specs.Prelude.{◌≡◌, ◌+◌, ◌≤◌, length, drop};

use byteorder::{BigEndian, ByteOrder, LittleEndian};

/// The byte order of a file, and whether its fractions of a second are nanoseconds or microseconds.
#[derive(Clone, Copy, Debug, PartialEq, Eq)]
pub struct Form {
    pub big_endian: bool,
    pub nanoseconds: bool,
}

impl Form {
    ghost use Rattle.capture_reader.specs.Form.{number, form_of};

    /// The form that the first four bytes, high first, name.
    pub fn of(magic: u32) -> Option<Form>
        ensures { result ≡ form_of magic }
    {
        let (big_endian, nanoseconds) = match magic {
            0xd4c3_b2a1 => (false, false),
            0xa1b2_c3d4 => (true, false),
            0x4d3c_b2a1 => (false, true),
            0xa1b2_3c4d => (true, true),
            _ => return None,
        };
        Some(Form {
            big_endian,
            nanoseconds,
        })
    }

    /// The number in the four bytes at a place.
    #[tactic(auto, unfolding(crate::specs::Form::number))]
    pub fn u32_at(self, bytes: &[u8], at: usize) -> u32
        requires { at + 4 ≤ length bytes.now }
        ensures { result ≡ number self 4 (drop at bytes.now) }
    {
        let bytes = rest_at(bytes, at);
        if self.big_endian {
            BigEndian::read_u32(bytes)
        } else {
            LittleEndian::read_u32(bytes)
        }
    }

    /// The number in the two bytes at a place.
    #[tactic(auto, unfolding(crate::specs::Form::number))]
    pub fn u16_at(self, bytes: &[u8], at: usize) -> u16
        requires { at + 2 ≤ length bytes.now }
        ensures { result ≡ number self 2 (drop at bytes.now) }
    {
        let bytes = rest_at(bytes, at);
        if self.big_endian {
            BigEndian::read_u16(bytes)
        } else {
            LittleEndian::read_u16(bytes)
        }
    }
}

/// The bytes from a place on.
pub fn rest_at(bytes: &[u8], at: usize) -> &[u8]
    requires { at ≤ length bytes.now }
    ensures { result.now ≡ drop at bytes.now }
{
    bytes.split_at(at).1
}
