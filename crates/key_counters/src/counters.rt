//! The resident: the part of a key is its counter. It takes no memory after it is made.
ghost use Rattle.std.specs.Prelude.{◌≡◌, ◌+◌, ◌*◌, ◌^◌, ◌<◌, ◌≤◌, All, length};

use squeue::{Parts, Places};
use std::alloc::{AllocError, Global};
use std::collections::LinkedList;

/// How many amounts of a key were added up, always the first ones, and their sum; how many the last reading found, and their
/// sum, both 0 before the first.
#[derive(Drop)]
pub struct Counter {
    key: u32,
    had: u32,
    pub(crate) total: u64,
    read_at: u32,
    pub(crate) read: u64,
    ghost bounded: { total ≤ had * 4294967295 },
}

impl Counter {
    // Adds the next amount.
    fn add(&mut self, amount: u32)
        requires { self.old.had + 1 < 2 ^ 32 }
        ensures key { self.new.key ≡ self.old.key }
        ensures had { self.new.had ≡ self.old.had + 1 }
        ensures total { self.new.total ≡ self.old.total + amount }
        ensures read_at { self.new.read_at ≡ self.old.read_at }
        ensures read { self.new.read ≡ self.old.read }
    {
        self.total += u64::from(amount);
        self.had += 1;
    }

    // Notes the total as it stands.
    fn note(&mut self)
        ensures { self.new ≡ record self.old { read_at = self.old.had; read = self.old.total } }
    {
        self.read_at = self.had;
        self.read = self.total;
    }
}

/// The amounts of all keys, and the readings that there are: `(c, j, k)` where call `k` of thread `j` reads key `c`. A key's feed
/// `n` adds its amount `n`, and a call on it is a reading: it notes the total as it stands.
#[derive(Clone, Copy)]
pub struct Amounts<'a> {
    pub(crate) rows: &'a [Vec<u32>],
    pub(crate) readings: &'a [(u32, u32, u32)],
    ghost short: { All (λ row. length row.items < 2 ^ 32) rows.now },
}

/// A place for the counter of each key, as a squeue serves it.
pub type Counters<'a> = Places<Amounts<'a>>;

impl Parts for Amounts<'_> {
    ghost use Rattle.key_counters.specs.Counting.{HasAdded, IsPartOf, limits_of, rows_of};
    ghost use Rattle.std.proofs.Common.{sym, ◌∙◌};

    type Part = Counter;

    type Origin = LinkedList<LinkedList<u32>>;

    ghost part_stands = { HasAdded };

    ghost limits = { limits_of };

    ghost origin = { rows_of };

    ghost is_part_of = { IsPartOf };

    fn fresh(&self, _alloc: Global, c: u32) -> Result<Counter, AllocError> {
        Ok(Counter {
            key: c,
            had: 0,
            total: 0,
            read_at: 0,
            read: 0,
        })
    }

    fn feed(&self, _alloc: Global, counter: &mut Counter, c: u32, n: u32) {
        counter.add(self.rows[c as usize][n as usize]);
    }

    fn call(&self, _alloc: Global, counter: &mut Counter, _c: u32, _j: u32, _k: u32) {
        counter.note();
    }

    ghost same_count = { λ k a b x y. x.feeds ∙ sym y.feeds };
}
