//! A capture, or its bytes alone, from a source, which is read to the end of its input.

ghost use Rattle.std.specs.Prelude.{◌≡◌, ◌≤◌, ◌+◌, length, IfOk, IfErr, Err};
ghost use Rattle.capture_reader.specs.Limits.{most_bytes, most_taken};
ghost use Rattle.sq_base.specs.Ends.{Rose};
ghost use Rattle.capture_reader.specs.Outcome.{IsCapture, ReadsWhole, ReadFails, BytesFail, FailsWithin, Takes};

use crate::capture::{Capture, parse_capture};
use crate::fault::CaptureFault;
use crate::limits::MOST_BYTES;
use sq_base::{Failed, Octets, Source};
use std::alloc::Global;

/// How many bytes one call asks for at most.
const PIECE: usize = 65_536;

/// The capture that a source gives (libpcap file format 2.4). `Read` comes only where the source's count of faults rose, and with
/// any other answer it didn't. `TooLarge(67108865)` comes where that byte was taken, and with no other answer but want of memory
/// it was.
///
/// # Example
///
/// ```
/// let mut source = MemSource::make(alloc, bytes, 100, failing)?;
/// Ok(read_capture(alloc, &mut source).map(|it| it.len()))
/// ```
pub fn read_capture<S: Source>(alloc: Global, src: &mut S) -> Result<Capture, CaptureFault>
    ensures ok { IfOk result (λ c. ReadsWhole (S.rest src.old) (S.rest src.new) c.bytes × IsCapture c) }
    ensures err { IfErr result (ReadFails (S.rest src.old) (S.rest src.new)) }
    ensures read { result ≡ Err CaptureFault.Read → Rose (S.read_faults src.old) (S.read_faults src.new) }
    ensures kept { (result ≡ Err CaptureFault.Read → ⊥) → S.read_faults src.new ≡ S.read_faults src.old }
    ensures few { Takes (λ n. n ≤ most_taken) (S.rest src.old) (S.rest src.new) }
    ensures never_falls { S.read_faults src.old ≤ S.read_faults src.new }
{
    let bytes = read_bytes(alloc, src)?;
    parse_capture(alloc, bytes)
}

/// All bytes that a source gives, 67,108,864 at most, whatever they mean. It answers `Read`, `NoMemory` and `TooLarge` where
/// `read_capture` does, and no other fault.
pub fn read_bytes<S: Source>(alloc: Global, src: &mut S) -> Result<Octets, CaptureFault>
    ensures ok { IfOk result (λ bytes. ReadsWhole (S.rest src.old) (S.rest src.new) bytes × (length bytes ≤ most_bytes)) }
    ensures err { IfErr result (BytesFail (S.rest src.old) (S.rest src.new)) }
    ensures read { result ≡ Err CaptureFault.Read → Rose (S.read_faults src.old) (S.read_faults src.new) }
    ensures kept { (result ≡ Err CaptureFault.Read → ⊥) → S.read_faults src.new ≡ S.read_faults src.old }
    ensures few { Takes (λ n. n ≤ most_taken) (S.rest src.old) (S.rest src.new) }
    ensures never_falls { S.read_faults src.old ≤ S.read_faults src.new }
{
    Ok(Octets::wrap(read_within(alloc, src, MOST_BYTES)?))
}

/// All bytes that a source gives, so many at most, whatever they mean. `Read` comes only where the source's count of faults rose,
/// `TooLarge` where one byte more than these was taken, and no other fault comes but `NoMemory`.
pub fn read_within<S: Source>(
    alloc: Global,
    src: &mut S,
    most: usize,
) -> Result<Vec<u8>, CaptureFault>
    ensures ok { IfOk result (λ bytes. ReadsWhole (S.rest src.old) (S.rest src.new) bytes.items × (length bytes.items ≤ most)) }
    ensures err { IfErr result (FailsWithin most (S.rest src.old) (S.rest src.new)) }
    ensures read { result ≡ Err CaptureFault.Read → Rose (S.read_faults src.old) (S.read_faults src.new) }
    ensures kept { (result ≡ Err CaptureFault.Read → ⊥) → S.read_faults src.new ≡ S.read_faults src.old }
    ensures few { Takes (λ n. n ≤ most + 1) (S.rest src.old) (S.rest src.new) }
    ensures never_falls { S.read_faults src.old ≤ S.read_faults src.new }
{
    let mut bytes = Vec::new(alloc);
    let mut buf = [0; PIECE];
    loop {
        // Never more than one byte past the size is asked for.
        let room = 1 + (most - bytes.len()).min(PIECE - 1);
        let n = match src.read(&mut buf[..room]) {
            Ok(0) => return Ok(bytes),
            Ok(n) => n,
            Err(Failed) => return Err(CaptureFault::Read),
        };
        bytes
            .extend_from_slice(&buf[..n])
            .map_err(|_| CaptureFault::NoMemory)?;
        if bytes.len() > most {
            return Err(CaptureFault::TooLarge(bytes.len() as u64));
        }
    }
}
