//! Captures, as the plan of their connections.
//!
//! What is told is named by lines: `counts` and `counts verified`, `conns`, `hints` of the segments of connection 0, `tuple C`, `items C`, `many C`
//! (how many items), `ring R N` (what ring R of N brings) and `homes C N` (its ring of N, and its first squeue of N).

use crate::ends::tell_ends;
use capture_reader::Capture;
use case_rows::{RowFault, RowWords, Wrong, told_at};
use conn_classifier::{Item, Plan, plan};
use std::alloc::{AllocError, Global};
use std::fmt::Write;
use std::thread::Threads;

/// Tells the hints of all segments of a connection.
fn tell_hints(out: &mut String, plan: &Plan<'_>) -> Result<(), Wrong> {
    if plan.conns() == 0 {
        return Err(Wrong::Call);
    }
    for n in 0..plan.items(0) {
        if let Item::Segment { iss, .. } = plan.item(0, n) {
            writeln!(out, "hint {iss}")?;
        }
    }
    Ok(())
}

/// Tells an item and its text.
fn tell_item(out: &mut String, item: Item, text: &[u8]) -> Result<(), AllocError> {
    match item {
        Item::Time { at } => writeln!(out, "time {at}"),
        Item::Segment { at, rec, iss, .. } => match str::from_utf8(text) {
            Ok(text) => writeln!(out, "segment {at} record {rec} hint {iss} {text}"),
            Err(_) => writeln!(out, "segment {at} record {rec} hint {iss} {text:?}"),
        },
    }
}

/// Tells the items of a connection.
fn tell_items(out: &mut String, plan: &Plan<'_>, c: u32) -> Result<(), Wrong> {
    if c >= plan.conns() {
        return Err(Wrong::Call);
    }
    for n in 0..plan.items(c) {
        tell_item(out, plan.item(c, n), plan.text(c, n))?;
    }
    Ok(())
}

/// Tells what a ring brings.
fn tell_ring(
    out: &mut String,
    alloc: Global,
    plan: &Plan<'_>,
    r: u32,
    rings: u32,
) -> Result<(), Wrong> {
    if r >= rings {
        return Err(Wrong::Call);
    }
    for feed in plan.ring_list(alloc, rings, r)?.iter() {
        writeln!(out, "feed {}.{}", feed.c, feed.n)?;
    }
    Ok(())
}

/// Tells of connection `c` what a word names.
fn tell_conn(out: &mut String, plan: &Plan<'_>, word: &str, c: u32, of: u32) -> Result<(), Wrong> {
    if c >= plan.conns() || of == 0 {
        return Err(Wrong::Call);
    }
    match word {
        "tuple" => tell_ends(out, "ends", &plan.tuple(c))?,
        "many" => writeln!(out, "items {}", plan.items(c))?,
        _ => writeln!(
            out,
            "ring {} squeue {}",
            plan.ring_of(c, of),
            plan.first_squeue(c, of)
        )?,
    }
    Ok(())
}

/// Tells what a line names.
fn tell(out: &mut String, alloc: Global, plan: &Plan<'_>, line: &str) -> Result<(), Wrong> {
    let mut words = RowWords::of(line);
    let word = words.word();
    match word {
        "counts" => writeln!(out, "{:?}", plan.counts())?,
        "conns" => writeln!(out, "conns {}", plan.conns())?,
        "hints" => return tell_hints(out, plan),
        "items" => return tell_items(out, plan, words.number()?),
        "ring" => return tell_ring(out, alloc, plan, words.number()?, words.number()?),
        "tuple" | "many" => return tell_conn(out, plan, word, words.number()?, 1),
        "homes" => return tell_conn(out, plan, word, words.number()?, words.number()?),
        _ => return Err(Wrong::Word),
    }
    Ok(())
}

/// Tells of a plan what lines name.
fn tell_all(
    out: &mut String,
    alloc: Global,
    plan: &Plan<'_>,
    lines: &[&str],
) -> Result<(), RowFault> {
    for line in lines {
        let told = tell(out, alloc, plan, line);
        told_at(alloc, line, told)?;
    }
    Ok(())
}

/// Tells of the plan of a capture what lines name.
pub fn tell_plans(
    rt: &(impl Threads + Sync),
    alloc: Global,
    capture: &Capture,
    verify: bool,
    lines: &[&str],
    out: &mut String,
) -> Result<(), RowFault> {
    let plan = plan(rt, alloc, capture, verify)?;
    tell_all(out, alloc, &plan, lines)
}
