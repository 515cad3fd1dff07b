//! What a run has to do, and how it is set up.
ghost use Rattle.std.specs.Prelude.{◌≡◌, ◌<◌, All, IfOk, length, map};
ghost use Rattle.histories.specs.Quotas.{pairs};
ghost use Rattle.squeue_pool.specs.Works.{work_of};
ghost use Rattle.conn_blocks.specs.Allowed.{all_calls};
ghost use Rattle.ring_quotas.specs.Quotas.{IsInRange};
ghost use Rattle.ring_threads.specs.Working.{AreEach, AreQuotas, IsFirst, IsWorkFor, setup_of};

use crate::ring_lists::lists_of;
use conn_blocks::{Blocks, Calls};
use conn_classifier::Plan;
use ring_quotas::{Setup, quotas_at};
use squeue_pool::{Pool, Work};
use squeue_state::Quota;
use std::alloc::{AllocError, Global};

/// How the run is set up.
pub fn pool_for(setup: &Setup) -> Pool
    requires { IsInRange setup.now }
    ensures { setup_of result ≡ setup.now }
{
    Pool {
        pace: setup.pace(),
        rings: setup.rings,
        trace: setup.trace,
    }
}

/// What the run has to do: each connection's items and calls. Fails only for want of memory.
pub fn work_for<'p>(
    alloc: Global,
    plan: &'p Plan<'_>,
    calls: &'p Calls,
    setup: &Setup,
) -> Result<Work<Blocks<'p>>, AllocError>
    requires setup { IsInRange setup.now }
    requires calls { All (λ call. call.0 < length plan.now.tuples) (all_calls calls.now) }
    ensures { IfOk result (λ w. IsWorkFor plan.now calls.now setup.now (work_of w)) }
{
    let conns = calls.conns(alloc)?;
    let lists = lists_of(alloc, plan, setup.rings)?;
    let quotas = quotas_for(alloc, plan, calls, setup)?;
    let residents = residents_for(alloc, plan, calls, setup)?;
    Ok(Work {
        conns: plan.conns(),
        residents,
        quotas,
        lists,
        calls: conns,
    })
}

// The quotas of each squeue's passes, by its number.
fn quotas_for(
    alloc: Global,
    plan: &Plan<'_>,
    calls: &Calls,
    setup: &Setup,
) -> Result<Vec<Vec<Quota>>, AllocError>
    requires setup { IsInRange setup.now }
    requires calls { All (λ call. call.0 < length plan.now.tuples) (all_calls calls.now) }
    ensures { IfOk result (λ v. AreEach (AreQuotas plan.now calls.now setup.now) setup.now.squeues (map (λ qs. pairs qs.items) v.items)) }
{
    let mut quotas = Vec::with_capacity(alloc, setup.squeues as usize)?;
    for q in 0..setup.squeues {
        let its = quotas_at(alloc, plan, calls, setup, q)?;
        quotas.push_reserved(its);
    }
    Ok(quotas)
}

// The blocks that are first at each squeue, by its number.
fn residents_for<'p>(
    alloc: Global,
    plan: &'p Plan<'_>,
    calls: &'p Calls,
    setup: &Setup,
) -> Result<Vec<Blocks<'p>>, AllocError>
    requires setup { IsInRange setup.now }
    requires calls { All (λ call. call.0 < length plan.now.tuples) (all_calls calls.now) }
    ensures { IfOk result (λ v. AreEach (IsFirst plan.now calls.now setup.now) setup.now.squeues v.items) }
{
    let mut residents = Vec::with_capacity(alloc, setup.squeues as usize)?;
    for q in 0..setup.squeues {
        let blocks = Blocks::make(alloc, plan, calls, q, setup.squeues, setup.spread)?;
        residents.push_reserved(blocks);
    }
    Ok(residents)
}
