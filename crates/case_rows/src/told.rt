//! What is wrong with a row, by the line that says it.

ghost use Rattle.std.specs.Prelude.{◌≡◌, ◌++◌, codes, IfErr};
ghost use Rattle.std.specs.Result.{result_ok};
ghost use Rattle.case_rows.specs.Faults.{Tells, text_of};

use crate::fault::RowFault;
use crate::wrong::Wrong;
use std::alloc::Global;

/// The fault of a line, of which this is said.
fn fault_at(alloc: Global, said: &str, line: &str) -> RowFault
    ensures { Tells result (said.now ++ codes ": " ++ line.now) }
{
    RowFault::told(alloc, &[said, ": ", line])
}

/// What a line gave; or why it can't be run, with the line.
pub fn told_at<T>(alloc: Global, line: &str, given: Result<T, Wrong>) -> Result<T, RowFault>
    ensures ok { result_ok result ≡ result_ok given }
    ensures err { IfErr given (λ wrong. IfErr result (λ fault. Tells fault (text_of wrong ++ codes ": " ++ line.now))) }
{
    match given {
        Ok(value) => Ok(value),
        Err(wrong) => Err(fault_at(alloc, wrong.text(), line)),
    }
}
