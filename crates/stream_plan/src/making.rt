//! A plan is made of a capture.

ghost use Rattle.std.specs.Prelude.{◌≡◌, IfOk};
ghost use Rattle.stream_plan.specs.Streams.{more_plan_of};

use crate::kinds::Counts;
use crate::planned::MorePlan;
use crate::sorting::sort;
use crate::streams::fill;
use capture_reader::Capture;
use std::alloc::{AllocError, Global};

/// The plan of a capture. Fails only for want of memory.
///
/// # Example
///
/// ```
/// let plan = more_plan(rt.alloc(), &capture)?;
/// ...
/// assert!(rt; plan.streams() == 3);
/// assert_eq!(rt; plan.stream(0).tuple(), stream_to(7));
/// assert_eq!(rt; plan.stream(1).tuple(), stream_to(9));
/// ```
pub fn more_plan<'c>(alloc: Global, capture: &'c Capture) -> Result<MorePlan<'c>, AllocError>
    ensures { IfOk result (λ p. p ≡ more_plan_of capture.entry.now) }
{
    let mut sorted = sort(alloc, capture)?;
    fill(
        alloc,
        capture.last_time(),
        &mut sorted.streams,
        sorted.segments.as_slice(),
    )?;
    let counts = Counts {
        served: sorted.served,
        nofit: sorted.arrived - sorted.served,
        other: capture.len() - sorted.arrived,
    };
    Ok(MorePlan {
        capture,
        counts,
        streams: sorted.streams,
    })
}
