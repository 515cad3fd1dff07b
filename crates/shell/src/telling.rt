//! Lines under the program's name. Where a write fails nothing is tried behind it, since there is nobody left to tell.

ghost use Rattle.std.specs.Prelude.{◌++◌};
ghost use Rattle.sq_base.specs.Ends.{end_of};
ghost use Rattle.shell.specs.Telling.{TellsLine};

use sq_base::{Sink, put};

/// What stands behind the program's name where memory is missing.
pub const NO_MEMORY: &str = ": out of memory\n";

/// Where a read failed.
pub const READ_FAULT: &str = ": read fault\n";

/// Where a write failed.
pub const WRITE_FAULT: &str = ": write fault\n";

/// Where the input is too large, and the program doesn't say by what.
pub const TOO_LARGE: &str = ": too large\n";

pub(crate) const MANY_BYTES: &str = ": too large: more than 67108864 bytes\n";

pub(crate) const MANY_RECORDS: &str = ": too large: more than 1048576 records\n";

/// Writes the program's name and what is to be told behind it, where that works.
pub fn tell<E: Sink>(err: &mut E, program: &str, what: &str)
    ensures { TellsLine (end_of E.contents E.write_faults err.old err.new) (program.now ++ what.now) }
{
    let Ok(()) = put(err, program.as_bytes()) else {
        return;
    };
    tell_line(err, what.as_bytes());
}

/// Appends a line, where that works. A write that failed isn't tried again.
pub(crate) fn tell_line<E: Sink>(err: &mut E, line: &[u8])
    ensures { TellsLine (end_of E.contents E.write_faults err.old err.new) line.now }
{
    let _ = put(err, line);
}
