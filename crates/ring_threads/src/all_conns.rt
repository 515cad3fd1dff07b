//! All connections of a plan, served by threads over squeues.
ghost use Rattle.std.specs.Prelude.{◌<◌, All, IfOk, length};
ghost use Rattle.conn_blocks.specs.Allowed.{all_calls};
ghost use Rattle.ring_quotas.specs.Quotas.{IsInRange};
ghost use Rattle.ring_threads.specs.Served.{HasServed};

use crate::plan_work::{pool_for, work_for};
use crate::served::Served;
use conn_blocks::Calls;
use conn_blocks::laws::{a_block_holds_back_what_settling_holds, a_settled_order_is_whole};
use conn_classifier::Plan;
use conn_classifier::laws::all_items_are_few;
use perimeter_core::Hook;
use ring_quotas::Setup;
use squeue_pool::run_for_parts;
use std::alloc::{AllocError, Global};
use std::sync::Wait;
use std::thread::Threads;

/// Serves every connection of the plan, each with all its items and calls, by threads over squeues. Fails only for want of memory.
///
/// # Example
///
/// ```
/// let plan = plan(&rt, rt.alloc(), &capture, false)?;
/// let calls = Calls::make(rt.alloc());
/// let served = serve(&rt, rt.alloc(), &plan, &calls, &MOVING, &NoHook)?;
/// assert_eq!(rt; plan.conns(), 2);
/// assert!(rt; is_echo(&rt, served.block(0))?);
/// ```
pub fn serve<H: Hook + Sync, W: Threads + Wait + Sync>(
    rt: &W,
    alloc: Global,
    plan: &Plan<'_>,
    calls: &Calls,
    setup: &Setup,
    hook: &H,
) -> Result<Served, AllocError>
    requires setup { IsInRange setup.now }
    requires calls { All (λ call. call.0 < length plan.now.tuples) (all_calls calls.now) }
    ensures { IfOk result (λ v. HasServed plan.now calls.now setup.now v) }
{
    let work = work_for(alloc, plan, calls, setup)?;
    let pool = pool_for(setup);
    plan.is_sound();
    all_items_are_few();
    let finished = run_for_parts(rt, alloc, hook, &pool, work)?;
    a_settled_order_is_whole();
    a_block_holds_back_what_settling_holds();
    Served::left(finished, plan.conns())
}
