//! Why a report fails.

ghost use Rattle.std.specs.Prelude.{◌≡◌};

use std::alloc::AllocError;
use std::fmt;
use std::fmt::{Display, Formatter, Write};

/// The first reason for which a report fails. Squeues, marks and connections are counted from 0, lines from 1.
#[derive(Clone, Copy, Debug, PartialEq, Eq)]
pub enum Reason {
    /// There is no line `done`.
    NoReport,
    /// What stands behind the report is no capture within the size.
    Capture,
    /// The lines from the setup on are none that a report has.
    Form,
    /// The marks up to this one of the squeue aren't legal.
    Illegal { squeue: u32, mark: u64 },
    /// After the squeue's marks it hasn't ended.
    Open { squeue: u32 },
    /// The marks up to this one break the homes, the mode or the budget.
    Unfit { squeue: u32, mark: u64 },
    /// The connection came to a squeue without having left the one before, or its order isn't whole.
    Order(u32),
    /// This line isn't the one of a right report.
    Text(u64),
}

impl Display for Reason {
    ghost use Rattle.std.specs.Prelude.{Some};
    ghost use Rattle.trace_replay.specs.Texts.{reason_text};

    ghost output = { λ r. Some (reason_text r) };

    fn fmt<W: Write>(&self, f: &mut Formatter<W>) -> fmt::Result {
        match self {
            Reason::NoReport => f.write_str("no report"),
            Reason::Capture => f.write_str("capture"),
            Reason::Form => f.write_str("form"),
            Reason::Illegal { squeue, mark } => write!(f, "illegal squeue {squeue} mark {mark}"),
            Reason::Open { squeue } => write!(f, "open squeue {squeue}"),
            Reason::Unfit { squeue, mark } => write!(f, "unfit squeue {squeue} mark {mark}"),
            Reason::Order(c) => write!(f, "order {c}"),
            Reason::Text(line) => write!(f, "text {line}"),
        }
    }
}

/// Why a report isn't found right.
#[derive(Clone, Copy, Debug, PartialEq, Eq)]
pub enum Refusal {
    NoMemory,
    No(Reason),
}

impl From<AllocError> for Refusal {
    ghost use Rattle.trace_replay.specs.declared.reason.Refusal.TheVariants.{NoMemory};

    ghost from_gives = { λ _ e. e ≡ NoMemory };

    fn from(_error: AllocError) -> Refusal {
        Refusal::NoMemory
    }
}
