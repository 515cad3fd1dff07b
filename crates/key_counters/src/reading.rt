//! The counters of all keys: how they are made, and what is read off them.
ghost use Rattle.std.specs.Prelude.{◌≡◌, ◌^◌, ◌<◌, All, IfOk, Some, List, length, map, option_map};
ghost use Rattle.squeue.specs.declared.Act.{Act};
ghost use Rattle.squeue.specs.Blocks.{Blocks};
ghost use Rattle.squeue.specs.Standing.{all_new};
ghost use Rattle.squeue.specs.Placing.{Stands, size_of, shared_of, parts_of, part_at};
ghost use Rattle.key_counters.specs.Counting.{rows_of, row_of, readings_of, found_by_reading, total_of};

use crate::counters::{Amounts, Counter, Counters};
use squeue::Places;
use std::alloc::{AllocError, Global};

/// The counters of all keys are here, and nothing was added. Fails only for want of memory.
pub fn new_counters<'a>(
    alloc: Global,
    amounts: &'a [Vec<u32>],
    readings: &'a [(u32, u32, u32)],
) -> Result<Counters<'a>, AllocError>
    requires few { length amounts.now < 2 ^ 32 }
    requires short { All (λ row. length row.items < 2 ^ 32) amounts.now }
    requires named { All (λ call. call.0 < length amounts.now) readings.now }
    ensures stands { IfOk result (λ r. Stands r (all_new (length amounts.now))) }
    ensures count { IfOk result (λ r. size_of r ≡ length amounts.now) }
    ensures amounts { IfOk result (λ r. rows_of (shared_of r) ≡ map (λ row. row.items) amounts.now) }
    ensures readings { IfOk result (λ r. readings_of (shared_of r) ≡ readings.now) }
{
    let count = amounts.len() as u32;
    let shared = Amounts {
        rows: amounts,
        readings,
    };
    Places::make(alloc, shared, count)
}

/// The total of each key, and 0 for one whose counter isn't here. Fails only for want of memory.
pub fn totals_of(counters: &Counters<'_>, alloc: Global) -> Result<Vec<u64>, AllocError>
    ensures { IfOk result (λ v. v.items ≡ map total_of (parts_of counters.now)) }
{
    counters
        .parts()
        .iter()
        .map(|place| total_at(place))
        .collect(alloc)
}

/// The total that the last reading of the key found, if its counter is here: the sum of the amounts that were added before
/// it; 0 before the first reading.
pub fn last_reading(counters: &Counters<'_>, c: u32) -> Option<u64>
    requires { c < size_of counters.now }
    ensures place { result ≡ option_map (λ k. k.read) (part_at counters.now c) }
    ensures found { (blocks : Blocks) (had : List Act) → Stands counters.now blocks → blocks c ≡ Some had
        → result ≡ Some (found_by_reading (row_of (rows_of (shared_of counters.now)) c) had) }
{
    match counters.part(c) {
        Some(counter) => Some(counter.read),
        None => None,
    }
}

// What a place holds for the totals.
fn total_at(place: &Option<Counter>) -> u64
    ensures { result ≡ total_of place.now }
{
    match place {
        Some(counter) => counter.total,
        None => 0,
    }
}
