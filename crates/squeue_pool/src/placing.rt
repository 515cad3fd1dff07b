//! The residents of all squeues, made from what their parts share.
ghost use Rattle.std.specs.Prelude.{◌≡◌, ◌<◌, IfOk, length};
ghost use Rattle.perimeter_core.specs.Residing.{IsWithin};
ghost use Rattle.squeue_pool.specs.Placed.{AreNew, IsNewAt};

use placed_parts::{Parts, Places};
use std::alloc::{AllocError, Global};

/// For each of so many squeues a place for each of so many connections, of which those are here that are first at home there: number
/// `c` at squeue `c % squeues`. Nothing was done to them. Fails only for want of memory.
pub fn places_of<S: Parts + Copy>(
    alloc: Global,
    shared: S,
    count: u32,
    squeues: u32,
) -> Result<Vec<Places<S>>, AllocError>
    requires rows { length (S.limits shared).feeds ≡ count }
    requires within { IsWithin count (S.limits shared) }
    ensures { IfOk result (λ v. AreNew shared count squeues v.items) }
{
    let mut all = Vec::new(alloc);
    for q in 0..squeues {
        all.push(places_at(alloc, shared, count, q, squeues)?)?;
    }
    Ok(all)
}

// The places at squeue `q`.
fn places_at<S: Parts + Copy>(
    alloc: Global,
    shared: S,
    count: u32,
    q: u32,
    squeues: u32,
) -> Result<Places<S>, AllocError>
    requires squeue { q < squeues }
    requires rows { length (S.limits shared).feeds ≡ count }
    requires within { IsWithin count (S.limits shared) }
    ensures { IfOk result (λ r. IsNewAt shared count squeues q r) }
{
    let mut starts = Vec::with_capacity(alloc, count as usize)?;
    for c in 0..count {
        starts.push_reserved(c % squeues == q);
    }
    Places::make_where(alloc, shared, &starts)
}
