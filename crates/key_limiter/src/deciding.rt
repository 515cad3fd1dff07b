//! From the requests to what passed.
ghost use Rattle.std.specs.Prelude.{◌≡◌, ◌^◌, ◌<◌, ◌≤◌, IfOk, length, map, sum};
ghost use Rattle.squeue.specs.Works.{IsInRange};
ghost use Rattle.key_limiter.specs.Limiting.{decisions_of};

use crate::limiter::{Limit, Requests};
use squeue::{Pool, lengths, serve_by_key};
use std::alloc::{AllocError, Global};
use std::sync::Wait;
use std::thread::Threads;

/// Which requests of each key pass, in the order in which they stand there, whatever the other keys ask, and whatever the threads of
/// the pool do. Fails only for want of memory.
///
/// # Example
///
/// ```
/// let limit = Limit { token, most };
/// let passed = decide(rt, alloc, rows, limit, &pool)?;
/// ```
pub fn decide<W: Threads + Wait + Sync>(
    rt: &W,
    alloc: Global,
    requests: &[Vec<u32>],
    limit: Limit,
    pool: &Pool,
) -> Result<Vec<Vec<bool>>, AllocError>
    requires pool { IsInRange pool.now 0 × (pool.now.pace.homes.spread ≡ 0) }
    requires keys { length requests.now < 2 ^ 32 }
    requires items { sum (map (λ row. length row.items) requests.now) ≤ 2 ^ 30 }
    ensures { IfOk result (λ v. map (λ row. row.items) v.items ≡ map (λ row. decisions_of limit row.items) requests.now) }
{
    let counts = lengths(alloc, requests)?;
    let shared = Requests {
        rows: requests,
        limit,
        calls: &[],
    };
    let served = serve_by_key(rt, alloc, pool, shared, counts)?;
    let mut all = Vec::new(alloc);
    for c in 0..served.count() {
        all.push(served.part(c).passed.to_vec(alloc)?)?;
    }
    Ok(all)
}
