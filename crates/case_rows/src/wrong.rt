//! Why a row can't be run.

ghost use Rattle.std.specs.Prelude.{◌≡◌};
ghost use Rattle.case_rows.specs.Faults.{text_of};

use std::alloc::{AllocError, AllocFailed};
use std::fmt;

/// Why a row can't be run. Such a row counts as one that failed.
#[derive(Clone, Copy, Debug, PartialEq, Eq)]
pub enum Wrong {
    /// Memory was missing.
    Memory,
    /// A word is none that may stand in its place.
    Word,
    /// What a line asks for may not be done there.
    Call,
}

impl Wrong {
    /// What is said of it.
    pub(crate) fn text(self) -> &'static str
        ensures { result.now ≡ text_of self }
    {
        match self {
            Wrong::Memory => "out of memory",
            Wrong::Word => "a word isn't understood",
            Wrong::Call => "this may not be done here",
        }
    }
}

impl fmt::Display for Wrong {
    fn fmt<W: fmt::Write>(&self, f: &mut fmt::Formatter<W>) -> fmt::Result {
        f.write_str(self.text())
    }
}

impl From<AllocError> for Wrong {
    fn from(_e: AllocError) -> Wrong {
        Wrong::Memory
    }
}

impl<T: Drop> From<AllocFailed<T>> for Wrong {
    fn from(_e: AllocFailed<T>) -> Wrong {
        Wrong::Memory
    }
}
