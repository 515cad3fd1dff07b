//! Why a run ends early.

ghost use Rattle.std.specs.Prelude.{◌≡◌};
ghost use Rattle.live_run.specs.Faults.{code_of};

const USAGE: &str = concat!(
    "usage: sqlive [--pages FILE] [--rings N --squeues N --mode process|nodrain|fill --budget N] ",
    "frames SECRET SETTING | device SETTING, ",
    "where SETTING is ADDRESS BROADCAST PLACES IDLE BYTES SEGMENT [--ttl N] [--dscp N] [PORTS [PINGS [HOST]]], ",
    "and behind it with --rings an IN and an OUT for each ring",
);

/// Why a run ends early. Each has its exit code.
#[derive(Clone, Copy, Debug, PartialEq, Eq)]
pub enum Fault {
    /// The words are none of the usage line.
    Words,
    /// Memory was missing.
    NoMemory,
    /// The input, the clock, the random source or the pages can't be read.
    Reading,
    /// The output can't be written.
    Writing,
    /// The input isn't whole frames: one is broken, or the last one is cut.
    Frames,
}

impl Fault {
    /// The exit code.
    pub fn code(self) -> u8
        ensures { result ≡ code_of self }
    {
        match self {
            Fault::Words => 2,
            Fault::NoMemory => 3,
            Fault::Reading => 4,
            Fault::Writing => 5,
            Fault::Frames => 6,
        }
    }

    /// What is told of it.
    pub fn line(self) -> &'static str {
        match self {
            Fault::Words => USAGE,
            Fault::NoMemory => "out of memory",
            Fault::Reading => "cannot read",
            Fault::Writing => "cannot write",
            Fault::Frames => "the input isn't whole frames",
        }
    }
}
