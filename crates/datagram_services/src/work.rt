//! What the threads of a run have to do.
ghost use Rattle.std.specs.Prelude.{◌≡◌, ◌<◌, ℕ, IfOk, Some, length, slice_get};
ghost use Rattle.squeue_pool.specs.Works.{work_of};
ghost use Rattle.ring_quotas.specs.Quotas.{IsInRange};
ghost use Rattle.datagram_services.specs.declared.blocks.StreamBlocks.{StreamBlocks as BlocksOf};
ghost use Rattle.datagram_services.specs.Fits.{counts_of};
ghost use Rattle.datagram_services.specs.Work.{IsFirst, IsWorkFor};

use crate::blocks::StreamBlocks;
use ring_quotas::Setup;
use squeue_pool::{Work, work_by_key};
use std::alloc::{AllocError, Global};
use stream_plan::MorePlan;

/// The streams of a plan as work for squeues and rings: each squeue has the new blocks of its streams, each ring brings the items of
/// its streams, and nobody calls. Fails only for want of memory.
pub fn work_for<'p>(
    alloc: Global,
    plan: &'p MorePlan<'p>,
    setup: &Setup,
) -> Result<Work<StreamBlocks<'p>>, AllocError>
    requires { IsInRange setup.now }
    ensures { IfOk result (λ w. IsWorkFor plan.now setup.now.squeues setup.now.rings (work_of w)) }
{
    plan.is_sound();
    let counts = counts_for(alloc, plan)?;
    let residents = residents_for(alloc, plan, setup.squeues)?;
    work_by_key(alloc, residents, &counts, setup.squeues, setup.rings)
}

// How many items each stream has.
fn counts_for(alloc: Global, plan: &MorePlan<'_>) -> Result<Vec<u32>, AllocError>
    ensures { IfOk result (λ v. v.items ≡ counts_of plan.now) }
{
    let mut counts = Vec::new(alloc);
    for c in 0..plan.streams() {
        counts.push(plan.items(c))?;
    }
    Ok(counts)
}

// By number the residents of so many squeues.
fn residents_for<'p>(
    alloc: Global,
    plan: &'p MorePlan<'p>,
    squeues: u32,
) -> Result<Vec<StreamBlocks<'p>>, AllocError>
    ensures count { IfOk result (λ v. length v.items ≡ squeues) }
    ensures each { IfOk result (λ v. (q : ℕ) (r : BlocksOf) → slice_get v.items q ≡ Some r → IsFirst plan.now squeues q r) }
{
    let mut residents = Vec::new(alloc);
    for q in 0..squeues {
        residents.push(StreamBlocks::make(alloc, plan, Vec::new(alloc), q, squeues)?)?;
    }
    Ok(residents)
}
