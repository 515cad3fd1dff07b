//! A plan is made of a capture.

ghost use Rattle.std.specs.Prelude.{◌≡◌, ◌<◌, List, IfOk, length, map};
ghost use Rattle.std.specs.List.{AllByRecursion};
ghost use Rattle.conn_classifier.specs.declared.kinds.Arrival.{Arrival};
ghost use Rattle.conn_classifier.specs.Items.{items_of};
ghost use Rattle.conn_classifier.specs.Plan.{plan_by, plan_of};
ghost use Rattle.conn_classifier.specs.Slots.{IsKept, item_of};

use crate::ahead::hints_at;
use crate::decoding::decode_all;
use crate::kinds::Slot;
use crate::planned::{Plan, Table};
use crate::rules::Rules;
use crate::slots::slots_in;
use crate::sorting::sort;
use capture_reader::Capture;
use segment_codec::Packet;
use std::alloc::{AllocError, Global};
use std::thread::Threads;

/// The items of each list of records, where this is the greatest time of all. Fails only for want of memory.
fn all_items(
    alloc: Global,
    last: u64,
    capture: &Capture,
    packets: &[Packet],
    lists: &[Vec<u32>],
) -> Result<Vec<Vec<Slot>>, AllocError>
    requires { AllByRecursion (λ l. AllByRecursion (λ n. n < length capture.now.packets) l.items) lists.now }
    ensures { (xss : List (List Arrival)) → map (λ l. l.items) lists.now ≡ map (map (λ a. a.rec)) xss
        → AllByRecursion (AllByRecursion (IsKept capture.now.packets packets.now)) xss
        → IfOk result (λ v. map (λ x. map (item_of packets.now) x.items) v.items ≡ map (items_of last) xss) }
{
    let mut items = Vec::with_capacity(alloc, lists.len())?;
    for list in lists {
        let recs = list.as_slice();
        let hints = hints_at(alloc, packets, recs)?;
        items.push(slots_in(alloc, last, capture, recs, hints.as_slice())?)?;
    }
    Ok(items)
}

/// The plan of a capture by the well-known ports. With `verify` a record whose checksums are wrong counts as `badsum`.
/// Fails only for want of memory.
///
/// # Example
///
/// ```
/// let plan = plan(&rt, rt.alloc(), &capture, false)?;
/// assert_eq!(rt; plan.conns(), 4096);
/// ...
/// assert_eq!(rt; plan.tuple(4095), last);
/// assert_eq!(rt; plan.items(0), 3);
/// ```
pub fn plan<'c>(
    rt: &(impl Threads + Sync),
    alloc: Global,
    capture: &'c Capture,
    verify: bool,
) -> Result<Plan<'c>, AllocError>
    ensures { IfOk result (λ p. p ≡ plan_of capture.entry.now verify) }
{
    plan_with(rt, alloc, capture, Rules::usual(verify))
}

/// The plan of a capture by these rules. Fails only for want of memory.
pub fn plan_with<'c>(
    rt: &(impl Threads + Sync),
    alloc: Global,
    capture: &'c Capture,
    rules: Rules,
) -> Result<Plan<'c>, AllocError>
    ensures { IfOk result (λ p. p ≡ plan_by capture.entry.now rules) }
{
    let packets = decode_all(rt, alloc, capture, rules.verify)?;
    let sorted = sort(alloc, rules.ports, capture, packets.as_slice())?;
    let items = all_items(
        alloc,
        capture.last_time(),
        capture,
        packets.as_slice(),
        sorted.lists.as_slice(),
    )?;
    Ok(Plan {
        capture,
        table: Table {
            ports: rules.ports,
            tuples: sorted.tuples,
            packets,
            items,
            order: sorted.order,
            counts: sorted.counts,
        },
    })
}
