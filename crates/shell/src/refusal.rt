//! What is told where words or an input are refused, and the status of it.

ghost use Rattle.std.specs.Prelude.{◌≡◌, ◌++◌, MatchResult, string_bytes};
ghost use Rattle.sq_base.specs.Ends.{end_of};
ghost use Rattle.shell.specs.Lines.{memory_line};
ghost use Rattle.shell.specs.Refusals.{CaptureTold, PcapngTold, WordsTold};
ghost use Rattle.shell.specs.Table.{table_of};
ghost use Rattle.shell.specs.Telling.{TellsLine};

use crate::lines::{bad_capture, bad_pcapng};
use crate::table::Table;
use crate::telling::{MANY_BYTES, MANY_RECORDS, NO_MEMORY, READ_FAULT, tell, tell_line};
use crate::usage::tell_usage;
use crate::words::WordFault;
use capture_reader::CaptureFault;
use pcapng_reader::PcapngFault;
use sq_base::{Sink, Status};
use std::alloc::{AllocError, Global};

/// Writes why there are no words, and gives its status.
pub fn refuse_words<E: Sink>(err: &mut E, table: &Table, fault: WordFault) -> Status
    ensures { WordsTold (table_of table.now) fault (end_of E.contents E.write_faults err.old err.new) result }
{
    match fault {
        WordFault::Usage => {
            tell_usage(err, table);
            Status::Usage
        }
        WordFault::NoMemory => told(err, table.program, NO_MEMORY, Status::NoMemory),
    }
}

/// Writes why an input is no capture file, and gives its status. Where memory for the line is missing, that is the refusal.
pub fn refuse_capture<E: Sink>(
    alloc: Global,
    err: &mut E,
    program: &str,
    fault: &CaptureFault,
) -> Status
    ensures { CaptureTold program.now fault.now (end_of E.contents E.write_faults err.old err.new) result }
{
    match fault {
        CaptureFault::NoMemory => told(err, program, NO_MEMORY, Status::NoMemory),
        CaptureFault::Read => told(err, program, READ_FAULT, Status::ReadFault),
        CaptureFault::TooLarge(_) => told(err, program, MANY_BYTES, Status::TooLarge),
        CaptureFault::TooManyRecords => told(err, program, MANY_RECORDS, Status::TooLarge),
        _ => {
            let line = bad_capture(alloc, program, fault);
            told_line(err, program, line, Status::BadCapture)
        }
    }
}

/// The same of a pcapng file.
pub fn refuse_pcapng<E: Sink>(
    alloc: Global,
    err: &mut E,
    program: &str,
    fault: &PcapngFault,
) -> Status
    ensures { PcapngTold program.now fault.now (end_of E.contents E.write_faults err.old err.new) result }
{
    match fault {
        PcapngFault::NoMemory => told(err, program, NO_MEMORY, Status::NoMemory),
        PcapngFault::TooManyRecords => told(err, program, MANY_RECORDS, Status::TooLarge),
        _ => {
            let line = bad_pcapng(alloc, program, fault);
            told_line(err, program, line, Status::BadCapture)
        }
    }
}

/// Writes the program's name and what is to be told behind it, and gives the status.
pub fn told<E: Sink>(err: &mut E, program: &str, what: &str, status: Status) -> Status
    ensures status { result ≡ status }
    ensures line { TellsLine (end_of E.contents E.write_faults err.old err.new) (program.now ++ what.now) }
{
    tell(err, program, what);
    status
}

/// Writes a line that was made, and gives its status. Where memory for it was missing, that is told under the program's name.
pub fn told_line<E: Sink>(
    err: &mut E,
    program: &str,
    line: Result<String, AllocError>,
    status: Status,
) -> Status
    ensures { MatchResult line
        (λ text. (result ≡ status) × TellsLine (end_of E.contents E.write_faults err.old err.new) (string_bytes text))
        (λ _. (result ≡ Status.NoMemory) × TellsLine (end_of E.contents E.write_faults err.old err.new) (memory_line program.now)) }
{
    match line {
        Ok(line) => {
            tell_line(err, line.as_bytes());
            status
        }
        Err(_) => told(err, program, NO_MEMORY, Status::NoMemory),
    }
}
