//! What comes in by each ring.
ghost use Rattle.std.specs.Prelude.{◌≡◌, ◌<◌, ◌^◌, All, IfOk, length, map};
ghost use Rattle.squeue_rings.specs.Tasks.{AreUnused};

use perimeter_core::Feed;
use squeue_rings::{IntakeEnds, intake_of};
use std::alloc::{AllocError, Global};

/// The intakes of the rings that bring these lists, by number. Fails only for want of memory.
pub fn intakes_of(alloc: Global, lists: Vec<Vec<Feed>>) -> Result<Vec<IntakeEnds>, AllocError>
    requires { All (λ list. length list.items < 2 ^ 32) lists.items }
    ensures intakes { IfOk result (λ v. map (λ e. e.intake.list.items) v.items ≡ map (λ list. list.items) lists.items) }
    ensures unused { IfOk result (λ v. AreUnused v.items) }
{
    let mut lists = lists;
    let mut intakes = Vec::new(alloc);
    lists.reverse();
    while let Some(list) = lists.pop() {
        intakes.push(intake_of(alloc, list)?)?;
    }
    Ok(intakes)
}
