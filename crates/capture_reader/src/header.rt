//! The header of a capture file: the first refusal that it meets, or the form and the link of what follows.

ghost use Rattle.std.specs.Prelude.{◌≡◌, ◌≤◌, length};
ghost use Rattle.capture_reader.specs.Limits.{most_bytes};
ghost use Rattle.capture_reader.specs.Header.{header_answer};

use crate::fault::CaptureFault;
use crate::form::Form;
use crate::limits::HEADER;
use byteorder::{BigEndian, ByteOrder};
use sq_base::Link;

/// What the header says, or which refusal it meets.
#[tactic(auto, unfolding(crate::specs::Header::header_answer))]
pub fn header_of(bytes: &[u8]) -> Result<(Form, Link), CaptureFault>
    requires { length bytes.now ≤ most_bytes }
    ensures { result ≡ header_answer bytes.now }
{
    if bytes.len() < HEADER {
        return Err(CaptureFault::ShortHeader(bytes.len() as u32));
    }
    let magic = BigEndian::read_u32(bytes);
    let Some(form) = Form::of(magic) else {
        return Err(CaptureFault::Magic([bytes[0], bytes[1], bytes[2], bytes[3]]));
    };
    let major = form.u16_at(bytes, 4);
    let minor = form.u16_at(bytes, 6);
    if major != 2 || minor != 4 {
        return Err(CaptureFault::Version { major, minor });
    }
    let number = form.u32_at(bytes, 20);
    match Link::of(number) {
        Some(link) => Ok((form, link)),
        None => Err(CaptureFault::Link(number)),
    }
}
