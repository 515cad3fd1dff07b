//! Why a row fails.

ghost use Rattle.std.specs.Prelude.{◌≡◌, IfOk};
ghost use Rattle.std.specs.List.{flat_map};
ghost use Rattle.std.specs.String.{string_bytes};
ghost use Rattle.case_rows.specs.Faults.{Tells};

use std::alloc::{AllocError, AllocFailed, Global};
use std::fmt;

/// Why a row fails.
#[derive(Debug, Drop)]
pub enum RowFault {
    /// Memory was missing.
    NoMemory,
    /// What differs, or what of the row isn't understood, as one line.
    Told(String),
}

impl RowFault {
    /// The fault whose line is these pieces, one behind another.
    pub fn told(alloc: Global, pieces: &[&str]) -> RowFault
        ensures { Tells result (flat_map (λ piece. piece.now) pieces.now) }
    {
        match joined(alloc, pieces) {
            Ok(line) => RowFault::Told(line),
            Err(_) => RowFault::NoMemory,
        }
    }
}

/// The pieces, one behind another.
fn joined(alloc: Global, pieces: &[&str]) -> Result<String, AllocError>
    ensures { IfOk result (λ line. string_bytes line ≡ flat_map (λ piece. piece.now) pieces.now) }
{
    let mut line = String::new(alloc);
    for piece in pieces {
        line.push_str(piece)?;
    }
    Ok(line)
}

impl<T: Drop> From<AllocFailed<T>> for RowFault {
    fn from(_: AllocFailed<T>) -> RowFault {
        RowFault::NoMemory
    }
}

impl From<AllocError> for RowFault {
    fn from(_: AllocError) -> RowFault {
        RowFault::NoMemory
    }
}

impl fmt::Display for RowFault {
    fn fmt<W: fmt::Write>(&self, f: &mut fmt::Formatter<W>) -> fmt::Result {
        match self {
            RowFault::NoMemory => write!(f, "out of memory"),
            RowFault::Told(line) => write!(f, "{line}"),
        }
    }
}
