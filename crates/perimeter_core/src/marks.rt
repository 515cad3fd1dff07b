//! The marks of a perimeter's history.
ghost use Rattle.std.specs.Prelude.{◌≡◌, ◌≤◌, length};
ghost use Rattle.perimeter_core.specs.History.{pass_of};
ghost use Rattle.perimeter_core.specs.Deeds.{entries_of};

use crate::entries::Entry;
use crate::few::Few;

/// Who has the perimeter. At `Out(p)` pass `p` alone has the resident; at `Granted(p)` it lies in the gate for `p` alone.
#[derive(Clone, Copy, Debug, PartialEq, Eq)]
pub enum Own {
    Free,
    Out(u32),
    Granted(u32),
}

/// What a synchronous owner did, as it reports when it leaves: nothing, call `k` of thread `j` on connection `c`, a call
/// that found its block elsewhere, or that it took the block of connection `c` out or put it in.
#[derive(Clone, Copy, Debug, PartialEq, Eq)]
pub enum SynchAct {
    None,
    Call { c: u32, j: u32, k: u32 },
    Away,
    Out { c: u32 },
    In { c: u32 },
}

/// What a mark is, but for its pass and the feeds that it enters.
#[derive(Clone, Copy, Debug, PartialEq, Eq)]
pub enum Kind {
    Fill,
    Fast,
    Claim,
    /// A Claim of the pass's own Ask.
    ClaimAsk,
    Take,
    Leave { rest: u64, act: SynchAct },
    Ask,
    Grant { j: u32, rest: u64 },
    Accept,
    Work,
    Close,
}

/// One change of a perimeter's state. The first number is the pass that makes it.
#[derive(Drop)]
pub enum Mark {
    /// Entries are queued.
    Fill(u32, Few),
    /// One entry is taken at once, where nothing is queued.
    Fast(u32, Entry),
    /// Entries are queued, and the whole queue is taken.
    Claim(u32, Few),
    /// The owner has processed its hand and takes the queue.
    Take(u32),
    /// The owner leaves with so many entries unprocessed, and with what it did.
    Leave(u32, u32, SynchAct),
    /// The pass waits for its turn as owner.
    Ask(u32),
    /// The owner hands the perimeter to the pass of the second number, whose Ask it met, with so many entries unprocessed.
    Grant(u32, u32, u32),
    /// The pass to which the perimeter was granted is owner.
    Accept(u32),
    /// The worker takes the queue.
    Work(u32),
    /// The pass enters no more.
    Close(u32),
}

impl Mark {
    /// The pass that makes the mark.
    pub fn pass(&self) -> u32
        ensures { result ≡ pass_of self.now }
    {
        match self {
            Mark::Fill(p, _) => *p,
            Mark::Fast(p, _) => *p,
            Mark::Claim(p, _) => *p,
            Mark::Take(p) => *p,
            Mark::Leave(p, _, _) => *p,
            Mark::Ask(p) => *p,
            Mark::Grant(p, _, _) => *p,
            Mark::Accept(j) => *j,
            Mark::Work(p) => *p,
            Mark::Close(p) => *p,
        }
    }

    /// How many entries the mark enters.
    pub fn entries(&self) -> usize
        ensures same { result ≡ length (entries_of self.now) }
        ensures few { result ≤ 32 }
    {
        match self {
            Mark::Fill(_, es) => es.as_slice().len(),
            Mark::Fast(_, _) => 1,
            Mark::Claim(_, es) => es.as_slice().len(),
            Mark::Ask(_) => 1,
            _ => 0,
        }
    }
}
