//! Captures, as the plan of their streams.

use crate::ends::tell_ends;
use capture_reader::Capture;
use conn_classifier::Item;
use std::alloc::{AllocError, Global};
use std::fmt::Write;
use stream_plan::{CapturedStream, MorePlan, more_plan};

/// Tells a stream: its two ends, its datagrams and its items.
fn tell_stream(out: &mut String, stream: &CapturedStream) -> Result<(), AllocError> {
    tell_ends(out, "stream", &stream.tuple())?;
    for datagram in stream.datagrams() {
        writeln!(out, "datagram {} record {}", datagram.at, datagram.rec)?;
    }
    for item in stream.items() {
        match *item {
            Item::Time { at } => writeln!(out, "time {at}")?,
            Item::Segment { at, iss, .. } => writeln!(out, "segment {at} hint {iss}")?,
        }
    }
    Ok(())
}

/// Tells the counts and the streams, up to this many.
fn tell_plan(out: &mut String, plan: &MorePlan<'_>, most: u32) -> Result<(), AllocError> {
    writeln!(out, "{:?}", plan.counts())?;
    writeln!(out, "streams {}", plan.streams())?;
    for c in 0..plan.streams().min(most) {
        tell_stream(out, plan.stream(c))?;
    }
    Ok(())
}

/// Tells the streams of a capture.
pub fn tell_streams(
    alloc: Global,
    capture: &Capture,
    most: u32,
    out: &mut String,
) -> Result<(), AllocError> {
    let plan = more_plan(alloc, capture)?;
    tell_plan(out, &plan, most)
}
