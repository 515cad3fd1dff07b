//! Why a run gives no output, and what it then writes.

ghost use Rattle.std.specs.Prelude.{◌≡◌};
ghost use Rattle.sq_base.specs.Ends.{end_of};
ghost use Rattle.squeue_run.specs.Causes.{Told};

use crate::lines::{many_marks, no_connection};
use crate::words::{SQRUN, TABLE};
use capture_reader::CaptureFault;
use pcapng_reader::PcapngFault;
use shell::{WordFault, refuse_capture, refuse_pcapng, refuse_words, told_line};
use sq_base::{Sink, Status};
use std::alloc::{AllocError, Global};

/// Why there is no output.
#[derive(Debug, Drop)]
pub enum Refusal {
    NoMemory,
    Usage,
    Capture(CaptureFault),
    Pcapng(PcapngFault),
    /// A CALL on connection `c` of `conns`.
    NoConnection { c: u32, conns: u32 },
    /// A trace that may have so many marks, more than the limit.
    LongTrace(u64),
}

impl From<AllocError> for Refusal {
    ghost use Rattle.squeue_run.specs.declared.refusal.Refusal.TheVariants.{NoMemory};

    ghost from_gives = { λ _ e. e ≡ NoMemory };

    fn from(_error: AllocError) -> Refusal {
        Refusal::NoMemory
    }
}

/// Writes the line of a refusal, and gives its status. Where memory for the line is missing, that is the refusal.
pub fn refuse<E: Sink>(alloc: Global, err: &mut E, refusal: &Refusal) -> Status
    ensures { Told refusal.now (end_of E.contents E.write_faults err.old err.new) result }
{
    match refusal {
        Refusal::Usage => refuse_words(err, &TABLE, WordFault::Usage),
        Refusal::NoMemory => refuse_words(err, &TABLE, WordFault::NoMemory),
        Refusal::Capture(fault) => refuse_capture(alloc, err, SQRUN, fault),
        Refusal::Pcapng(fault) => refuse_pcapng(alloc, err, SQRUN, fault),
        Refusal::NoConnection { c, conns } => {
            let line = no_connection(alloc, *c, *conns);
            told_line(err, SQRUN, line, Status::NoConnection)
        }
        Refusal::LongTrace(marks) => {
            let line = many_marks(alloc, *marks);
            told_line(err, SQRUN, line, Status::TooLarge)
        }
    }
}
