//! The input: a report, and a capture behind it, and where the one ends and the other begins.

ghost use Rattle.std.specs.Prelude.{◌≡◌, ◌≢◌, ℕ, ◌+◌, ◌<◌, ◌≤◌, Err, IfOk, List, MatchOption, length, slice_index, take};
ghost use Rattle.capture_reader.specs.Limits.{most_bytes};
ghost use Rattle.capture_reader.specs.Outcome.{CaptureFile};
ghost use Rattle.trace_replay.specs.Lines.{HasFirstLine, HasNoLine};
ghost use Rattle.trace_replay.specs.Reasons.{Holds, IsCut};
ghost use Rattle.pcapng_reader.specs.Input.{InputFails, IsInput};

use crate::reason::{Reason, Refusal};
use capture_reader::{Capture, CaptureFault, MOST_BYTES};
use pcapng_reader::{InputFault, PcapngFault, parse_input};
use sq_base::Octets;
use std::alloc::{AllocError, Global};

/// Where the first line begins that begins so.
pub fn line_at(text: &[u8], word: &[u8]) -> Option<usize>
    ensures { MatchOption result (HasNoLine word.now text.now)
        (λ at. (at + length word.now ≤ length text.now) × HasFirstLine word.now text.now (take at text.now)) }
{
    let mut at = 0;
    loop {
        let rest = &text[at..];
        if rest.starts_with(word) {
            return Some(at);
        }
        let Some(n) = newline_at(rest) else {
            return None;
        };
        at += n + 1;
    }
}

/// Where the first newline stands.
fn newline_at(text: &[u8]) -> Option<usize>
    ensures { MatchOption result
        ((k : ℕ) → k < length text.now → slice_index text.now k ≢ 10)
        (λ n. (n < length text.now) × (slice_index text.now n ≡ 10) × ((k : ℕ) → k < n → slice_index text.now k ≢ 10)) }
{
    text.iter().position(|byte| *byte == b'\n')
}

/// Cuts the capture off the report, which is what stands up to its last line.
pub fn cut(bytes: &mut Vec<u8>) -> Result<Vec<u8>, Refusal>
    ensures ok { IfOk result (λ rest. IsCut bytes.old.items bytes.new.items rest.items × (length rest.items ≤ most_bytes)) }
    ensures no { (r : Reason) → result ≡ Err (Refusal.No r) → Holds r bytes.old.items }
{
    let Some(last) = line_at(bytes.as_slice(), b"done\n") else {
        return Err(Refusal::No(Reason::NoReport));
    };
    let end = last + b"done\n".len();
    if bytes.len() - end > MOST_BYTES {
        return Err(Refusal::No(Reason::Capture));
    }
    Ok(bytes.split_off(end)?)
}

/// The capture that the bytes are, within the size: a pcapng file where they begin with a section header, and else a capture file.
pub fn captured(alloc: Global, bytes: Vec<u8>) -> Result<Capture, Refusal>
    requires { length bytes.items ≤ most_bytes }
    ensures ok { IfOk result (λ c. IsInput c × (c.bytes ≡ bytes.items)) }
    ensures no { (r : Reason) → result ≡ Err (Refusal.No r) → (r ≡ Reason.Capture) × ((file : CaptureFile) → file.bytes ≡ bytes.items → IsInput file → ⊥) }
{
    match parse_input(alloc, Octets::wrap(bytes)) {
        Ok(capture) => Ok(capture),
        Err(fault) => Err(refused(fault)),
    }
}

/// Why there is no capture.
fn refused(fault: InputFault) -> Refusal
    ensures { (r : Reason) → result ≡ Refusal.No r → (r ≡ Reason.Capture)
        × ((bytes : List ℕ) → InputFails bytes fault → (file : CaptureFile) → file.bytes ≡ bytes → IsInput file → ⊥) }
{
    match fault {
        InputFault::Capture(fault) => match fault {
            CaptureFault::NoMemory => Refusal::NoMemory,
            _ => Refusal::No(Reason::Capture),
        },
        InputFault::Pcapng(fault) => match fault {
            PcapngFault::NoMemory => Refusal::NoMemory,
            _ => Refusal::No(Reason::Capture),
        },
    }
}
