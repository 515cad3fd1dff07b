//! Counters by key, for amounts that arrive: what a user of `squeue_arrivals` writes.
//!
//! An amount comes from a source, with its key, and is added to that key's total. Nobody knows before which keys come, nor how many
//! amounts. It knows no pass and no squeue.
#![tactic(auto)]

ghost use Rattle.std.specs.Prelude.{◌≡◌, ◌+◌, ◌%◌, ◌^◌, ◌≤◌, IfOk, length};
ghost use Rattle.ring_groups.specs.Groups.{AllBecame};
ghost use Rattle.squeue_arrivals.specs.Pooling.{IsInRange};
ghost use Rattle.arriving_counters.specs.Counting.{HasCounted};

use squeue_arrivals::{ArrivalPool, Arrivals, Arrived, KeySteps, serve_arriving};
use std::alloc::{AllocError, Global};
use std::sync::Wait;
use std::thread::Threads;

/// A key's state is the sum of its amounts, modulo 2^64.
#[derive(Drop, Clone, Copy)]
pub struct Adding;

impl KeySteps for Adding {
    type Item = u32;

    type State = u64;

    ghost begins = { λ _ total. total ≡ 0 };

    ghost step = { λ _ total amount next. next ≡ (total + amount) % 2 ^ 64 };

    fn begin(&self, _alloc: Global) -> Result<u64, AllocError> {
        Ok(0)
    }

    fn take(&self, _alloc: Global, total: &mut u64, amount: u32) {
        *total = total.wrapping_add(u64::from(amount));
    }
}

/// The sum of the amounts of each key, source by source. Fails only for want of memory before a squeue begins, and where the rings of a
/// squeue have 2^32 places or more.
pub fn count<A: Arrivals<Item = u32> + Drop + Send, W: Threads + Wait + Sync>(
    rt: &W,
    alloc: Global,
    pool: &ArrivalPool,
    sources: Vec<A>,
) -> Result<Arrived<A, u32, u64>, AllocError>
    requires pool { IsInRange pool.now }
    requires sources { length sources.items ≤ 63 }
    ensures { IfOk result (λ r. AllBecame (HasCounted A.origin A.given A.is_over pool.now.places) sources.items r.sources.items) }
{
    serve_arriving(rt, alloc, pool, Adding, sources)
}
