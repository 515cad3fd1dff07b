//! All streams of a plan, served by threads over squeues.
ghost use Rattle.std.specs.Prelude.{◌≡◌, false, IfOk};
ghost use Rattle.ring_quotas.specs.Quotas.{IsInRange};
ghost use Rattle.datagram_services.specs.Served.{HasMoreServed};

use crate::served::MoreServed;
use crate::work::work_for;
use perimeter_core::Hook;
use ring_quotas::Setup;
use squeue_pool::{Pool, run_for_parts};
use std::alloc::{AllocError, Global};
use std::sync::Wait;
use std::thread::Threads;
use stream_plan::MorePlan;

/// Serves every stream of the plan, each with all its items in order, each once, by threads over squeues: stream `c` at squeue
/// `c % squeues`, its items brought by ring `c % rings`. Fails only for want of memory.
///
/// # Example
///
/// ```
/// let capture = captured(alloc, &TWO)?;
/// let plan = more_plan(alloc, &capture)?;
/// let served = serve_more(rt, alloc, &plan, &PAIR, hook)?;
/// assert!(rt; plan.streams() == 2);
/// assert!(rt; served.answers(0).len() == 1 && served.answers(1).len() == 1);
/// ```
pub fn serve_more<H: Hook + Sync, W: Threads + Wait + Sync>(
    rt: &W,
    alloc: Global,
    plan: &MorePlan<'_>,
    setup: &Setup,
    hook: &H,
) -> Result<MoreServed, AllocError>
    requires setup { IsInRange setup.now }
    requires spread { setup.now.spread ≡ 0 }
    requires trace { setup.now.trace ≡ false }
    ensures { IfOk result (λ v. HasMoreServed plan.now setup.now v) }
{
    plan.is_sound();
    let pool = Pool::of(setup.squeues, setup.rings, setup.mode, setup.budget);
    let work = work_for(alloc, plan, setup)?;
    let finished = run_for_parts(rt, alloc, hook, &pool, work)?;
    MoreServed::left(finished, plan.streams())
}
