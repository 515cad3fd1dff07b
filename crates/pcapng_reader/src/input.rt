//! A capture in either form.

ghost use Rattle.std.specs.Prelude.{◌≡◌, ◌≤◌, length, MatchResult};
ghost use Rattle.capture_reader.specs.Limits.{most_bytes};
ghost use Rattle.pcapng_reader.specs.Input.{InputFails, IsInput};

use crate::fault::PcapngFault;
use crate::reading::parse_pcapng;
use capture_reader::{Capture, CaptureFault, parse_capture};
use sq_base::Octets;
use std::alloc::Global;

/// A section header's type, with which a pcapng file begins.
const SECTION: [u8; 4] = [0x0a, 0x0d, 0x0d, 0x0a];

/// Why bytes gave no capture, by the form that they were read in.
#[derive(Clone, Copy, Debug, PartialEq, Eq)]
pub enum InputFault {
    /// They don't begin with a section header.
    Capture(CaptureFault),
    /// They begin with a section header.
    Pcapng(PcapngFault),
}

/// The capture that the bytes are, at most 64 MiB of them: a pcapng file where they begin with a section header, and else a capture
/// file (libpcap file format 2.4).
pub fn parse_input(alloc: Global, bytes: Octets) -> Result<Capture, InputFault>
    requires { length bytes ≤ most_bytes }
    ensures { MatchResult result (λ c. IsInput c × (c.bytes ≡ bytes)) (InputFails bytes) }
{
    if bytes.as_slice().starts_with(&SECTION) {
        match parse_pcapng(alloc, bytes) {
            Ok(capture) => Ok(capture),
            Err(fault) => Err(InputFault::Pcapng(fault)),
        }
    } else {
        match parse_capture(alloc, bytes) {
            Ok(capture) => Ok(capture),
            Err(fault) => Err(InputFault::Capture(fault)),
        }
    }
}
