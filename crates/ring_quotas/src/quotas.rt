//! How many feeds and asks each pass of a squeue may enter.

ghost use Rattle.std.specs.Prelude.{◌≡◌, ◌<◌, ◌≤◌, ◌+◌, ◌^◌, All, IfOk, Some, length, slice_get};
ghost use Rattle.perimeter_core.specs.History.{all_quotas, feed_quotas};
ghost use Rattle.histories.specs.Limits.{most_asks, most_feeds};
ghost use Rattle.histories.specs.Quotas.{pairs, ask_quotas};
ghost use Rattle.conn_blocks.specs.Allowed.{all_calls};
ghost use Rattle.conn_blocks.specs.Limits.{callers};
ghost use Rattle.ring_quotas.specs.Limits.{most_caller_asks, most_ring_asks, most_ring_feeds};
ghost use Rattle.ring_quotas.specs.Quotas.{IsInRange, caller_asks, marks_most, quotas_of, ring_asks, ring_feeds};

use crate::setup::Setup;
use crate::shares::{coming, feeds, leaving};
use conn_blocks::{CALLERS, Calls};
use conn_classifier::Plan;
use conn_classifier::laws::all_items_are_few;
use histories::Quota;
use std::alloc::{AllocError, Global};

/// The quotas of the passes of squeue `q` but the worker's: those of the rings, then those of the application threads. Fails only
/// for want of memory.
///
/// # Example
///
/// ```
/// let quotas = quotas_at(rt.alloc(), &plan, &calls, &setup, q)?;
/// let pairs: Vec<(u32, u64)> = quotas
///     .iter()
///     .map(|quota| (quota.feeds, quota.asks))
///     .collect(rt.alloc())?;
/// ```
pub fn quotas_at(
    alloc: Global,
    plan: &Plan<'_>,
    calls: &Calls,
    setup: &Setup,
    q: u32,
) -> Result<Vec<Quota>, AllocError>
    requires range { IsInRange setup.now }
    requires squeue { q < setup.now.squeues }
    requires calls { All (λ call. call.0 < length plan.now.tuples) (all_calls calls.now) }
    ensures quotas { IfOk result (λ v. pairs v.items ≡ quotas_of plan.now calls.now setup.now.squeues setup.now.rings setup.now.spread q) }
    ensures count { IfOk result (λ v. length v.items ≡ setup.now.rings + callers) }
    ensures feeds { IfOk result (λ v. feed_quotas (pairs v.items) ≤ most_feeds) }
    ensures asks { IfOk result (λ v. ask_quotas (pairs v.items) ≤ most_asks) }
{
    let mut quotas = Vec::with_capacity(alloc, (setup.rings + CALLERS) as usize)?;
    for pass in 0..setup.rings + CALLERS {
        quotas.push_reserved(quota_of(plan, calls, setup, pass, q));
    }
    Ok(quotas)
}

/// How many marks the squeues may make in all: each of them eight for each entry of its quotas, and four for each of its passes.
pub fn marks_most(plan: &Plan<'_>, calls: &Calls, setup: &Setup) -> u64
    requires range { IsInRange setup.now }
    requires calls { All (λ call. call.0 < length plan.now.tuples) (all_calls calls.now) }
    ensures { result ≡ marks_most plan.now calls.now setup.now }
{
    let mut most = 0;
    for q in 0..setup.squeues {
        most += 8 * entries_most(plan, calls, setup, q) + 4 * u64::from(setup.rings + CALLERS + 1);
    }
    most
}

// How many entries all passes of squeue `q` may enter.
fn entries_most(plan: &Plan<'_>, calls: &Calls, setup: &Setup, q: u32) -> u64
    requires range { IsInRange setup.now }
    requires squeue { q < setup.now.squeues }
    requires calls { All (λ call. call.0 < length plan.now.tuples) (all_calls calls.now) }
    ensures value { result ≡ all_quotas (quotas_of plan.now calls.now setup.now.squeues setup.now.rings setup.now.spread q) }
    ensures few { result ≤ 2 ^ 40 }
{
    let mut entries = 0;
    for pass in 0..setup.rings + CALLERS {
        let quota = quota_of(plan, calls, setup, pass, q);
        entries += u64::from(quota.feeds) + quota.asks;
    }
    entries
}

// The quota of a pass of squeue `q` but the worker's.
fn quota_of(plan: &Plan<'_>, calls: &Calls, setup: &Setup, pass: u32, q: u32) -> Quota
    requires range { IsInRange setup.now }
    requires squeue { q < setup.now.squeues }
    requires pass { pass < setup.now.rings + callers }
    requires calls { All (λ call. call.0 < length plan.now.tuples) (all_calls calls.now) }
    ensures value { slice_get (quotas_of plan.now calls.now setup.now.squeues setup.now.rings setup.now.spread q) pass ≡ Some (result.feeds, result.asks) }
    ensures few { (result.feeds ≤ most_ring_feeds) × (result.asks ≤ most_caller_asks) }
{
    if pass < setup.rings {
        ring_quota(plan, setup, pass, q)
    } else {
        Quota {
            feeds: 0,
            asks: caller_asks(plan, calls, setup, pass - setup.rings, q),
        }
    }
}

// A ring's feeds are those of its connections that are at home at the squeue, its asks the moves of them out of it and into it.
fn ring_quota(plan: &Plan<'_>, setup: &Setup, ring: u32, q: u32) -> Quota
    requires range { IsInRange setup.now }
    requires squeue { q < setup.now.squeues }
    ensures feeds { result.feeds ≡ ring_feeds plan.now setup.now.squeues setup.now.rings setup.now.spread q ring }
    ensures asks { result.asks ≡ ring_asks plan.now setup.now.squeues setup.now.rings setup.now.spread q ring }
    ensures few { (result.feeds ≤ most_ring_feeds) × (result.asks ≤ most_ring_asks) }
{
    plan.is_sound();
    all_items_are_few();
    let homes = setup.homes();
    let mut entered = 0;
    let mut asks = 0;
    for c in 0..plan.conns() {
        if c % setup.rings == ring {
            let items = plan.items(c);
            entered += feeds(homes, c, items, q);
            asks += u64::from(leaving(homes, c, items, q)) + u64::from(coming(homes, c, items, q));
        }
    }
    Quota {
        feeds: entered,
        asks,
    }
}

// An application thread's asks are one for each of its calls, and one more for each time that the call's connection leaves the
// squeue.
fn caller_asks(plan: &Plan<'_>, calls: &Calls, setup: &Setup, thread: u32, q: u32) -> u64
    requires range { IsInRange setup.now }
    requires squeue { q < setup.now.squeues }
    requires thread { thread < callers }
    requires calls { All (λ call. call.0 < length plan.now.tuples) (all_calls calls.now) }
    ensures value { result ≡ caller_asks plan.now calls.now setup.now.squeues setup.now.spread q thread }
    ensures few { result ≤ most_caller_asks }
{
    let homes = setup.homes();
    let mut asks = 0;
    for k in 0..calls.len(thread) {
        let c = calls.get(thread, k).0;
        asks += 1 + u64::from(leaving(homes, c, plan.items(c), q));
    }
    asks
}
