//! The one call that serves parts that move and are called.
ghost use Rattle.std.specs.Prelude.{◌≡◌, ◌<◌, All, IfOk, length, map};
ghost use Rattle.squeue_pool.specs.Works.{IsInRange};
ghost use Rattle.squeue_pool.specs.Calls.{AreFew, HaveHadAll, WasDoneBy, limits_for};

use crate::finished::{Finished, run_for_parts};
use crate::keys::key_lists;
use crate::placing::places_of;
use crate::pool::Pool;
use crate::quotas::call_quotas;
use crate::work::Work;
use perimeter_core::NoHook;
use placed_parts::Parts;
use std::alloc::{AllocError, Global};
use std::sync::Wait;
use std::thread::Threads;

/// Serves the parts of connections of which number `c` has `counts[c]` feeds, while for each list of `calls` a thread calls the
/// connections that it names, in order. Connections begin at squeue `c % squeues`, and move on after each `spread` feeds, as the pool's
/// homes say. Hands out the part of each connection after all its feeds and its calls. Fails only for want of memory.
///
/// # Example
///
/// ```
/// let counts = lengths(alloc, deposits)?;
/// let calls = calls_for(alloc, transfers)?;
/// let bank = Bank {
///     deposits,
///     transfers,
/// };
/// let finished = serve_called(rt, alloc, pool, bank, &counts, calls)?;
/// ```
pub fn serve_called<S: Parts + Copy + Send, W: Threads + Wait + Sync>(
    rt: &W,
    alloc: Global,
    pool: &Pool,
    shared: S,
    counts: &[u32],
    calls: Vec<Vec<u32>>,
) -> Result<Finished<S::Part>, AllocError>
where
    S::Part: Send,
    requires pool { IsInRange pool.now (length calls.items) }
    requires few { AreFew counts.now (map (λ called. called.items) calls.items) }
    requires range { All (λ called. All (λ c. c < length counts.now) called) (map (λ called. called.items) calls.items) }
    requires limits { S.limits shared ≡ limits_for counts.now (map (λ called. called.items) calls.items) }
    ensures had { IfOk result (λ f. HaveHadAll S.Parts shared counts.now (map (λ called. called.items) calls.items) f) }
    ensures ran { IfOk result (λ f. WasDoneBy S.Parts shared counts.now (map (λ called. called.items) calls.items) pool.now f) }
{
    let residents = places_of(alloc, shared, counts.len() as u32, pool.squeues())?;
    let lists = key_lists(alloc, counts, pool.rings)?;
    let quotas = call_quotas(alloc, &lists, counts, &calls, pool.squeues())?;
    let work = Work {
        conns: counts.len() as u32,
        residents,
        quotas,
        lists,
        calls,
    };
    run_for_parts(rt, alloc, &NoHook, pool, work)
}
