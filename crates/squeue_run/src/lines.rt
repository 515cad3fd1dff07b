//! The lines of `sqrun` alone: those of a CALL without connection and of a long trace.

ghost use Rattle.std.specs.Prelude.{◌≡◌, IfOk, string_bytes};
ghost use Rattle.squeue_run.specs.Lines.{many_marks_line, missing_line};

use std::alloc::{AllocError, Global};

/// The line of a CALL on connection `c` of `conns`.
#[tactic(auto, unfolding(crate::specs::Lines::missing_line))]
pub fn no_connection(alloc: Global, c: u32, conns: u32) -> Result<String, AllocError>
    ensures { IfOk result (λ text. string_bytes text ≡ missing_line c conns) }
{
    format!(in alloc; "sqrun: call on connection {c} of {conns}\n")
}

/// The line of a trace that may have so many marks.
#[tactic(auto, unfolding(crate::specs::Lines::many_marks_line))]
pub fn many_marks(alloc: Global, marks: u64) -> Result<String, AllocError>
    ensures { IfOk result (λ text. string_bytes text ≡ many_marks_line marks) }
{
    format!(in alloc; "sqrun: too large: trace of {marks} marks\n")
}
