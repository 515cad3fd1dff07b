//! From the amounts to the totals.
ghost use Rattle.std.specs.Prelude.{◌≡◌, ◌^◌, ◌<◌, ◌≤◌, IfOk, length, map, sum};
ghost use Rattle.squeue.specs.ServedParts.{IsServed, counts_of, shared_of};
ghost use Rattle.squeue.specs.Works.{IsInRange};
ghost use Rattle.key_counters.specs.Counting.{rows_of};

use crate::counters::Amounts;
use squeue::{Pool, ServedParts, lengths, serve_by_key};
use std::alloc::{AllocError, Global};
use std::sync::Wait;
use std::thread::Threads;

/// The sum of each key's amounts, added up at the squeues of the pool, which its rings and their workers serve beside each other.
/// Fails only for want of memory.
///
/// # Example
///
/// ```
/// let pool = Pool::of(squeues, rings, mode, budget);
/// let totals = count(&rt, alloc, &rows, &pool)?;
/// assert_eq!(rt;
///     totals.as_slice(),
///     wanted.as_slice(),
///     "{squeues} squeues, {rings} rings, budget {budget}"
/// );
/// ```
pub fn count<W: Threads + Wait + Sync>(
    rt: &W,
    alloc: Global,
    amounts: &[Vec<u32>],
    pool: &Pool,
) -> Result<Vec<u64>, AllocError>
    requires pool { IsInRange pool.now 0 × (pool.now.pace.homes.spread ≡ 0) }
    requires keys { length amounts.now < 2 ^ 32 }
    requires items { sum (map (λ row. length row.items) amounts.now) ≤ 2 ^ 30 }
    ensures { IfOk result (λ v. v.items ≡ map (λ row. sum row.items) amounts.now) }
{
    let counts = lengths(alloc, amounts)?;
    let shared = Amounts {
        rows: amounts,
        readings: &[],
    };
    let served = serve_by_key(rt, alloc, pool, shared, counts)?;
    totals_in(alloc, &served)
}

// The totals of counters that had all their amounts.
fn totals_in(alloc: Global, served: &ServedParts<Amounts<'_>>) -> Result<Vec<u64>, AllocError>
    requires served { IsServed served.now }
    requires counts { counts_of served.now ≡ map length (rows_of (shared_of served.now)) }
    ensures { IfOk result (λ v. v.items ≡ map sum (rows_of (shared_of served.now))) }
{
    let mut totals = Vec::new(alloc);
    for c in 0..served.count() {
        totals.push(served.part(c).total)?;
    }
    Ok(totals)
}
