//! The items of a connection, as a plan keeps them: each segment by its record's number, beside the packets.

ghost use Rattle.std.specs.Prelude.{◌≡◌, ◌<◌, ◌≤◌, ◌++◌, List, IfOk, OnOk, length, map};
ghost use Rattle.std.specs.List.{AllByRecursion};
ghost use Rattle.segment_codec.specs.declared.packet.Packet.{Packet};
ghost use Rattle.conn_classifier.specs.declared.kinds.Arrival.{Arrival};
ghost use Rattle.conn_classifier.specs.Hints.{hints_of};
ghost use Rattle.conn_classifier.specs.Items.{items_of};
ghost use Rattle.conn_classifier.specs.Slots.{IsKept, slot_gap, item_of as kept_item, no_segment as kept_none, segment_at as kept_segment, segment_of as segment_in};

use crate::items::GAP;
use crate::kinds::{Item, Slot};
use capture_reader::Capture;
use segment_codec::{Packet, Seg};
use sq_base::{Addr, Tuple};
use std::alloc::{AllocError, Global};

/// The segment of a packet, where it is one.
fn segment_of(packet: &Packet) -> Option<Seg>
    ensures { result ≡ segment_in packet.now }
{
    match packet {
        Packet::Segment(seg) => Some(*seg),
        _ => None,
    }
}

/// The segment of record number `rec`, where that holds one.
pub fn segment_at(packets: &[Packet], rec: u32) -> Option<Seg>
    ensures { result ≡ kept_segment packets.now rec }
{
    segment_of(packets.get(rec as usize)?)
}

/// Stands for the segment of a record that has none, which no slot of a plan names.
fn no_segment() -> Seg
    ensures { result ≡ kept_none }
{
    let nobody = Tuple {
        client: Addr(0),
        client_port: 0,
        server: Addr(0),
        server_port: 0,
    };
    Seg::plain(&nobody, 0, 0, 0, 0, 0, 0)
}

/// The item that is kept so.
pub fn item_of(packets: &[Packet], slot: Slot) -> Item
    ensures { result ≡ kept_item packets.now slot }
{
    match slot {
        Slot::Time { at } => Item::Time { at },
        Slot::Segment { at, rec, iss } => match segment_at(packets, rec) {
            Some(seg) => Item::Segment { at, rec, iss, seg },
            None => Item::Segment {
                at,
                rec,
                iss,
                seg: no_segment(),
            },
        },
    }
}

fn push_gap(slots: &mut Vec<Slot>, last: u64, at: u64) -> Result<(), AllocError>
    requires { last ≤ at }
    ensures { OnOk result (slots.new.items ≡ slots.old.items ++ slot_gap last at) }
{
    if at - last >= GAP {
        slots.push(Slot::Time { at })?;
    }
    Ok(())
}

/// The items of the segments of these records, and the last time item, at `last` microseconds. Without records there are no items.
/// Fails only for want of memory.
pub fn slots_in(
    alloc: Global,
    last: u64,
    capture: &Capture,
    recs: &[u32],
    hints: &[u32],
) -> Result<Vec<Slot>, AllocError>
    requires within { AllByRecursion (λ n. n < length capture.now.packets) recs.now }
    requires even { length hints.now ≡ length recs.now }
    ensures { (ps : List Packet) (xs : List Arrival) → recs.now ≡ map (λ a. a.rec) xs → AllByRecursion (IsKept capture.now.packets ps) xs
        → hints.now ≡ hints_of xs → IfOk result (λ v. map (kept_item ps) v.items ≡ items_of last xs) }
{
    if recs.is_empty() {
        return Ok(Vec::new(alloc));
    }
    // Most connections have no gap.
    let mut slots = Vec::with_capacity(alloc, recs.len() + 1)?;
    let mut at = capture.rec(recs[0]).at;
    slots.push(Slot::Segment {
        at,
        rec: recs[0],
        iss: hints[0],
    })?;
    let mut i = 1;
    while i < recs.len() {
        let now = at.max(capture.rec(recs[i]).at);
        push_gap(&mut slots, at, now)?;
        slots.push(Slot::Segment {
            at: now,
            rec: recs[i],
            iss: hints[i],
        })?;
        at = now;
        i += 1;
    }
    slots.push(Slot::Time { at: last })?;
    Ok(slots)
}
