//! What the rings bring: ring `k` all items of key `k`, in order. An item adds its amount to the counter of its key.
ghost use Rattle.std.specs.Prelude.{◌≡◌, ◌*◌, ◌≤◌, ◌<◌, ◌^◌, All, IfOk, length, replicate};
ghost use Rattle.squeue_bench.specs.Rows.{IsRow};

use perimeter_core::Feed;
use squeue_state::{Life, Quota};
use std::alloc::{AllocError, Global};

/// How many items each ring brings to each squeue, where so many entries are brought in all. It is a multiple of 32, so that
/// chains of 32 come out even.
pub fn items_each(entries: u32, squeues: u32, rings: u32) -> u32
    requires some { (1 ≤ squeues) × (1 ≤ rings) }
    requires few { squeues * rings < 2 ^ 32 }
    ensures all { squeues * rings * result ≤ entries }
    ensures each { rings * result ≤ entries }
{
    entries / (squeues * rings) / 32 * 32
}

/// The amounts of so many keys, with so many items each.
pub fn amounts_of(alloc: Global, keys: u32, items: u32) -> Result<Vec<Vec<u32>>, AllocError>
    ensures keys { IfOk result (λ v. length v.items ≡ keys) }
    ensures items { IfOk result (λ v. All (λ row. length row.items ≡ items) v.items) }
{
    let mut amounts = Vec::with_capacity(alloc, keys as usize)?;
    for key in 0..keys {
        amounts.push_reserved(amounts_at(alloc, key, items)?);
    }
    Ok(amounts)
}

fn amounts_at(alloc: Global, key: u32, items: u32) -> Result<Vec<u32>, AllocError>
    ensures { IfOk result (λ v. length v.items ≡ items) }
{
    let mut amounts = Vec::with_capacity(alloc, items as usize)?;
    for n in 0..items {
        amounts.push_reserved(key.wrapping_add(n) % 100);
    }
    Ok(amounts)
}

/// All items of a key, as feeds.
pub fn feeds_of(alloc: Global, key: u32, items: u32) -> Result<Vec<Feed>, AllocError>
    ensures { IfOk result (λ v. IsRow key items v.items) }
{
    let mut feeds = Vec::with_capacity(alloc, items as usize)?;
    for n in 0..items {
        feeds.push_reserved(Feed { c: key, n });
    }
    Ok(feeds)
}

/// The quotas of so many rings, each of which brings so many items and asks nothing.
pub fn quotas_of(alloc: Global, rings: u32, items: u32) -> Result<Vec<Quota>, AllocError>
    ensures { IfOk result (λ v. v.items ≡ replicate rings record { feeds = items; asks = 0 }) }
{
    let quota = Quota {
        feeds: items,
        asks: 0,
    };
    vec![in alloc; quota; rings as usize]
}

/// The same as lives, for a squeue of bounded room.
pub fn lives_of(alloc: Global, rings: u32, items: u32) -> Result<Vec<Life>, AllocError>
    ensures { IfOk result (λ v. v.items ≡ replicate rings record { feeds = items; asks = 0 }) }
{
    let life = Life {
        feeds: u64::from(items),
        asks: 0,
    };
    vec![in alloc; life; rings as usize]
}
