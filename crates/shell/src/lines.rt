//! The lines of an input that is no capture, under a program's name.

ghost use Rattle.std.specs.Prelude.{◌≡◌, IfOk, string_bytes};
ghost use Rattle.shell.specs.Lines.{bad_line, capture_text, pcapng_line, pcapng_text, shown_line};
ghost use Rattle.shell.specs.Reading.{IsBad, IsBadPcapng};

use capture_reader::CaptureFault;
use pcapng_reader::PcapngFault;
use std::alloc::{AllocError, Global};

/// The line of a bad capture that shows this text.
#[tactic(auto, unfolding(crate::specs::Lines::shown_line))]
fn shown_line(alloc: Global, program: &str, text: &str) -> Result<String, AllocError>
    ensures { IfOk result (λ line. string_bytes line ≡ shown_line program.now text.now) }
{
    format!(in alloc; "{program}: bad capture: {text}\n")
}

/// The line of a bad capture, by the program of this name. Fails only for want of memory.
pub fn bad_capture(alloc: Global, program: &str, fault: &CaptureFault) -> Result<String, AllocError>
    requires { IsBad fault.now }
    ensures { IfOk result (λ text. string_bytes text ≡ bad_line program.now fault.now) }
{
    shown_line(alloc, program, capture_text(alloc, fault)?.as_str())
}

/// What a bad capture shows.
#[tactic(auto, unfolding(crate::specs::Lines::capture_text))]
fn capture_text(alloc: Global, fault: &CaptureFault) -> Result<String, AllocError>
    requires { IsBad fault.now }
    ensures { IfOk result (λ text. string_bytes text ≡ capture_text fault.now) }
{
    match fault {
        CaptureFault::ShortHeader(n) => format!(in alloc; "short header of {n} bytes"),
        CaptureFault::Magic(magic) => {
            let digits = hex::encode(alloc, magic.as_slice())?;
            format!(in alloc; "magic {digits}")
        }
        CaptureFault::Version { major, minor } => format!(in alloc; "version {major}.{minor}"),
        CaptureFault::Link(n) => format!(in alloc; "link type {n}"),
        CaptureFault::RecordLength { index, len } => {
            format!(in alloc; "record {index} has length {len}")
        }
        _ => unreachable!(),
    }
}

/// The line of a bad pcapng file, by the program of this name. Fails only for want of memory.
pub fn bad_pcapng(alloc: Global, program: &str, fault: &PcapngFault) -> Result<String, AllocError>
    requires { IsBadPcapng fault.now }
    ensures { IfOk result (λ text. string_bytes text ≡ pcapng_line program.now fault.now) }
{
    shown_line(alloc, program, pcapng_text(alloc, fault)?.as_str())
}

/// What a bad pcapng file shows.
#[tactic(auto, unfolding(crate::specs::Lines::pcapng_text))]
fn pcapng_text(alloc: Global, fault: &PcapngFault) -> Result<String, AllocError>
    requires { IsBadPcapng fault.now }
    ensures { IfOk result (λ text. string_bytes text ≡ pcapng_text fault.now) }
{
    match fault {
        PcapngFault::ShortSection(n) => format!(in alloc; "pcapng short section of {n} bytes"),
        PcapngFault::Magic { index, found } => {
            let digits = hex::encode(alloc, found.as_slice())?;
            format!(in alloc; "pcapng magic {digits} in block {index}")
        }
        PcapngFault::BlockLength { index, len } => {
            format!(in alloc; "pcapng block {index} has length {len}")
        }
        PcapngFault::EndLength { index, len } => {
            format!(in alloc; "pcapng block {index} ends with length {len}")
        }
        PcapngFault::Version {
            index,
            major,
            minor,
        } => format!(in alloc; "pcapng version {major}.{minor} in block {index}"),
        PcapngFault::Link { index, link } => {
            format!(in alloc; "pcapng link type {link} in block {index}")
        }
        PcapngFault::MixedLink { index, link } => {
            format!(in alloc; "pcapng second link type {link} in block {index}")
        }
        PcapngFault::NoInterface { index, id } => {
            format!(in alloc; "pcapng interface {id} in block {index}")
        }
        PcapngFault::PacketLength { index, len } => {
            format!(in alloc; "pcapng packet of {len} bytes in block {index}")
        }
        _ => unreachable!(),
    }
}
