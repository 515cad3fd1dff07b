//! Work by key: each connection has a number of feeds, stays at its squeue, and nobody calls.
ghost use Rattle.std.specs.Prelude.{◌≡◌, ◌<◌, ◌≤◌, ◌^◌, IfOk, length, sum};
ghost use Rattle.perimeter_core.specs.Residing.{IsWithin};
ghost use Rattle.histories.specs.Limits.{most_feeds};
ghost use Rattle.squeue_pool.specs.Keys.{HadAll, HaveKeys, key_work};
ghost use Rattle.squeue_pool.specs.Runs.{HasRun};
ghost use Rattle.squeue_pool.specs.ServedParts.{IsServed, WasServedBy, counts_of, shared_of};
ghost use Rattle.squeue_pool.specs.Works.{IsInRange, work_of};

use crate::keys::{key_lists, key_quotas};
use crate::placing::places_of;
use crate::pool::Pool;
use crate::served::ServedParts;
use crate::whole_run::run;
use crate::work::{Left, Work};
use perimeter_core::{Hook, NoHook, Resident};
use placed_parts::Parts;
use std::alloc::{AllocError, Global};
use std::sync::Wait;
use std::thread::Threads;

/// Serves the parts of connections of which number `c` has `counts[c]` feeds, by the threads of the pool, and hands out the part of each
/// after all its feeds. What all parts share is copied for each squeue. Fails only for want of memory.
///
/// # Example
///
/// ```
/// let shared = Amounts {
///     rows: amounts,
///     readings: &[],
/// };
/// let served = serve_by_key(rt, alloc, pool, shared, counts)?;
/// ```
pub fn serve_by_key<S: Parts + Copy + Send, W: Threads + Wait + Sync>(
    rt: &W,
    alloc: Global,
    pool: &Pool,
    shared: S,
    counts: Vec<u32>,
) -> Result<ServedParts<S>, AllocError>
where
    S::Part: Send,
    requires pool { IsInRange pool.now 0 × (pool.now.pace.homes.spread ≡ 0) }
    requires counts { (length counts.items < 2 ^ 32) × (sum counts.items ≤ most_feeds) }
    requires feeds { (S.limits shared).feeds ≡ counts.items }
    requires within { IsWithin (length counts.items) (S.limits shared) }
    ensures served { IfOk result (λ v. IsServed v) }
    ensures shared { IfOk result (λ v. shared_of v ≡ shared) }
    ensures counts { IfOk result (λ v. counts_of v ≡ counts.items) }
    ensures ran { IfOk result (λ v. WasServedBy pool.now v) }
{
    let residents = places_of(alloc, shared, counts.len() as u32, pool.squeues())?;
    let left = run_by_key(rt, alloc, &NoHook, pool, residents, &counts)?;
    Ok(ServedParts {
        shared,
        counts,
        left,
    })
}

/// Serves connections of which number `c` has `counts[c]` feeds, brought by ring `c % rings` to squeue `c % squeues`, whose resident is
/// `residents[c % squeues]`. What is left of each squeue comes back by its number. Fails only for want of memory.
pub fn run_by_key<R: Resident + Send + Drop, H: Hook + Sync, W: Threads + Wait + Sync>(
    rt: &W,
    alloc: Global,
    hook: &H,
    pool: &Pool,
    residents: Vec<R>,
    counts: &[u32],
) -> Result<Vec<Left<R>>, AllocError>
    requires pool { IsInRange pool.now 0 × (pool.now.pace.homes.spread ≡ 0) }
    requires counts { (length counts.now < 2 ^ 32) × (sum counts.now ≤ most_feeds) }
    requires residents { HaveKeys R.Resident pool.now.pace.homes.squeues counts.now residents.items }
    ensures run { IfOk result (λ v. HasRun R.Resident pool.now (key_work pool.now.pace.homes.squeues pool.now.rings counts.now residents.items) v.items) }
    ensures had { IfOk result (λ v. HadAll R.Resident pool.now.pace.homes.squeues counts.now v.items) }
{
    let work = work_by_key(alloc, residents, counts, pool.squeues(), pool.rings)?;
    run(rt, alloc, hook, pool, work)
}

/// The same as work, for these residents and so many rings: the lists of the rings, the quotas of their passes, and no calls. Fails only
/// for want of memory.
pub fn work_by_key<R: Drop>(
    alloc: Global,
    residents: Vec<R>,
    counts: &[u32],
    squeues: u32,
    rings: u32,
) -> Result<Work<R>, AllocError>
    requires rings { 1 ≤ rings }
    requires counts { (length counts.now < 2 ^ 32) × (sum counts.now ≤ most_feeds) }
    ensures { IfOk result (λ w. work_of w ≡ key_work squeues rings counts.now residents.items) }
{
    let lists = key_lists(alloc, counts, rings)?;
    let quotas = key_quotas(alloc, &lists, squeues)?;
    Ok(Work {
        conns: counts.len() as u32,
        residents,
        quotas,
        lists,
        calls: Vec::new(alloc),
    })
}
