//! What comes in by each ring.
ghost use Rattle.std.specs.Prelude.{IfOk, map};
ghost use Rattle.conn_classifier.specs.RingList.{IsRingList};
ghost use Rattle.ring_threads.specs.Working.{AreEach};

use conn_classifier::Plan;
use perimeter_core::Feed;
use std::alloc::{AllocError, Global};

/// The lists of so many rings, by number. Fails only for want of memory.
pub fn lists_of(alloc: Global, plan: &Plan<'_>, rings: u32) -> Result<Vec<Vec<Feed>>, AllocError>
    ensures { IfOk result (λ v. AreEach (IsRingList plan.now rings) rings (map (λ list. list.items) v.items)) }
{
    let mut lists = Vec::with_capacity(alloc, rings as usize)?;
    for ring in 0..rings {
        let list = plan.ring_list(alloc, rings, ring)?;
        lists.push_reserved(list);
    }
    Ok(lists)
}
