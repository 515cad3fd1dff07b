//! How much each pass may enter at any squeue, where a connection may leave one before each of its feeds.
ghost use Rattle.std.specs.Prelude.{◌≡◌, ◌<◌, ◌^◌, All, IfOk, length, map};
ghost use Rattle.histories.specs.Quotas.{pairs};
ghost use Rattle.squeue_pool.specs.Quotas.{asks_of, call_quotas, quotas_of, ring_quota};

use perimeter_core::Feed;
use squeue_state::Quota;
use std::alloc::{AllocError, Global};

/// For each of so many squeues the quotas of the rings that bring these lists, and of the threads that make these calls. Fails only for
/// want of memory.
pub fn call_quotas(
    alloc: Global,
    lists: &[Vec<Feed>],
    counts: &[u32],
    calls: &[Vec<u32>],
    squeues: u32,
) -> Result<Vec<Vec<Quota>>, AllocError>
    requires lists { All (λ list. length list.items < 2 ^ 32) lists.now }
    requires short { All (λ called. length called.items < 2 ^ 32) calls.now }
    requires range { All (λ called. All (λ c. c < length counts.now) called.items) calls.now }
    ensures { IfOk result (λ v. map (λ quotas. pairs quotas.items) v.items
        ≡ call_quotas squeues (map (λ list. list.items) lists.now) counts.now (map (λ called. called.items) calls.now)) }
{
    let mut quotas = Vec::new(alloc);
    for q in 0..squeues {
        quotas.push(quotas_of(alloc, lists, counts, calls)?)?;
    }
    Ok(quotas)
}

// Those at one squeue.
fn quotas_of(
    alloc: Global,
    lists: &[Vec<Feed>],
    counts: &[u32],
    calls: &[Vec<u32>],
) -> Result<Vec<Quota>, AllocError>
    requires lists { All (λ list. length list.items < 2 ^ 32) lists.now }
    requires short { All (λ called. length called.items < 2 ^ 32) calls.now }
    requires range { All (λ called. All (λ c. c < length counts.now) called.items) calls.now }
    ensures { IfOk result (λ v. pairs v.items ≡ quotas_of (map (λ list. list.items) lists.now) counts.now (map (λ called. called.items) calls.now)) }
{
    let mut quotas = ring_quotas(alloc, lists)?;
    for called in calls {
        let asks = asks_of(counts, called);
        quotas.push(Quota { feeds: 0, asks })?;
    }
    Ok(quotas)
}

// Those of the rings.
fn ring_quotas(alloc: Global, lists: &[Vec<Feed>]) -> Result<Vec<Quota>, AllocError>
    requires { All (λ list. length list.items < 2 ^ 32) lists.now }
    ensures { IfOk result (λ v. pairs v.items ≡ map ring_quota (map (λ list. list.items) lists.now)) }
{
    let mut quotas = Vec::new(alloc);
    for list in lists {
        let feeds = list.len() as u32;
        quotas.push(Quota {
            feeds,
            asks: 2 * u64::from(feeds),
        })?;
    }
    Ok(quotas)
}

// How often a thread may have to ask for these calls.
fn asks_of(counts: &[u32], called: &[u32]) -> u64
    requires short { length called.now < 2 ^ 32 }
    requires range { All (λ c. c < length counts.now) called.now }
    ensures { result ≡ asks_of counts.now called.now }
{
    let mut asks = 0;
    for c in called {
        asks += 1 + u64::from(counts[*c as usize]);
    }
    asks
}
