//! The input as a capture, in either form.

ghost use Rattle.std.specs.Prelude.{◌≡◌, ◌≤◌, length, MatchResult};
ghost use Rattle.capture_reader.specs.Limits.{most_bytes};
ghost use Rattle.pcapng_reader.specs.Input.{IsInput};
ghost use Rattle.squeue_run.specs.Causes.{InputFails};

use crate::refusal::Refusal;
use capture_reader::Capture;
use pcapng_reader::{InputFault, parse_input};
use sq_base::Octets;
use std::alloc::Global;

/// The capture that the bytes are: a pcapng file where they begin with a section header, and else a capture file.
pub fn captured(alloc: Global, bytes: Octets) -> Result<Capture, Refusal>
    requires { length bytes ≤ most_bytes }
    ensures { MatchResult result (λ c. IsInput c × (c.bytes ≡ bytes)) (InputFails bytes) }
{
    match parse_input(alloc, bytes) {
        Ok(capture) => Ok(capture),
        Err(InputFault::Capture(fault)) => Err(Refusal::Capture(fault)),
        Err(InputFault::Pcapng(fault)) => Err(Refusal::Pcapng(fault)),
    }
}
