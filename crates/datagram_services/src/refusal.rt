//! Why a run gives no whole report, and what it then tells.

ghost use Rattle.std.specs.Prelude.{◌≡◌};
ghost use Rattle.sq_base.specs.Ends.{end_of};
ghost use Rattle.datagram_services.specs.MoreCauses.{MoreTold};

use crate::words::TABLE;
use pcapng_reader::InputFault;
use shell::{WRITE_FAULT, WordFault, refuse_capture, refuse_pcapng, refuse_words, told};
use sq_base::{Sink, Status};
use std::alloc::{AllocError, Global};

/// Why there is no whole report.
#[derive(Clone, Copy, Debug, PartialEq, Eq)]
pub enum Refusal {
    NoMemory,
    Usage,
    Input(InputFault),
    Write,
}

impl From<AllocError> for Refusal {
    ghost use Rattle.datagram_services.specs.declared.refusal.Refusal.TheVariants.{NoMemory};

    ghost from_gives = { λ _ e. e ≡ NoMemory };

    fn from(_error: AllocError) -> Refusal {
        Refusal::NoMemory
    }
}

/// Writes the line of a refusal, and gives its status. Where memory for the line is missing, that is the refusal.
pub fn refuse<E: Sink>(alloc: Global, err: &mut E, refusal: Refusal) -> Status
    ensures { MoreTold refusal (end_of E.contents E.write_faults err.old err.new) result }
{
    match refusal {
        Refusal::Usage => refuse_words(err, &TABLE, WordFault::Usage),
        Refusal::NoMemory => refuse_words(err, &TABLE, WordFault::NoMemory),
        Refusal::Input(InputFault::Capture(fault)) => {
            refuse_capture(alloc, err, TABLE.program, &fault)
        }
        Refusal::Input(InputFault::Pcapng(fault)) => {
            refuse_pcapng(alloc, err, TABLE.program, &fault)
        }
        Refusal::Write => told(err, TABLE.program, WRITE_FAULT, Status::WriteFault),
    }
}
