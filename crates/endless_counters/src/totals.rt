//! What is made of amounts: how many there are, and what they come to.
ghost use Rattle.std.specs.Prelude.{◌≡◌, ◌+◌, ◌%◌, ◌^◌};
ghost use Rattle.endless_counters.specs.Counting.{Adds, zero};

use squeue_arrivals::KeySteps;
use std::alloc::{AllocError, Global};
use std::fmt;
use std::fmt::{Display, Formatter, Write};

/// How many amounts were added, and their sum; both modulo 2^64.
#[derive(Drop, Clone, Copy, Debug, PartialEq, Eq)]
pub struct Total {
    pub amounts: u64,
    pub total: u64,
}

impl Total {
    /// That of no amounts.
    pub const fn zero() -> Total
        ensures { result ≡ zero }
    {
        Total {
            amounts: 0,
            total: 0,
        }
    }

    /// That of these amounts and others.
    pub fn and(self, others: Total) -> Total
        ensures amounts { result.amounts ≡ (self.amounts + others.amounts) % 2 ^ 64 }
        ensures total { result.total ≡ (self.total + others.total) % 2 ^ 64 }
    {
        Total {
            amounts: self.amounts.wrapping_add(others.amounts),
            total: self.total.wrapping_add(others.total),
        }
    }
}

impl Display for Total {
    fn fmt<W: Write>(&self, f: &mut Formatter<W>) -> fmt::Result {
        write!(f, "amounts {} total {}", self.amounts, self.total)
    }
}

/// Each amount is added to the total of its ring.
#[derive(Drop, Clone, Copy)]
pub struct Adding;

impl KeySteps for Adding {
    type Item = u32;

    type State = Total;

    ghost begins = { λ _ total. total ≡ zero };

    ghost step = { λ _. Adds };

    fn begin(&self, _alloc: Global) -> Result<Total, AllocError> {
        Ok(Total::zero())
    }

    fn take(&self, _alloc: Global, state: &mut Total, amount: u32) {
        *state = state.and(Total {
            amounts: 1,
            total: u64::from(amount),
        });
    }
}
