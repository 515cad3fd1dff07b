//! Runs the rows of the library's own crates: what is read (files as captures, records as packets, captures as plans, and numbers of the wire), and TCP
//! (one connection and what it sends, and its queues).
//!
//! The field with the input says what kind of row it is. `file` makes the bytes of a file: with `fronts N` each front of at least N bytes is told, with
//! `sources` what a source gives whose reads fail, with `plan` the plan of its connections, with `streams` N the first N of its streams, and else
//! what `tell` names of the capture. The fields of packets are told line by line, and so is `numbers`. A `port` has the lines that a connection
//! to it is `given`, a `queue` is the capacity of a receive queue with its `calls`. `out` is what is wanted. Each module opens with the lines that it reads.
//!
//! Each row of `refused.rows` is wrong in one field, and must fail: what the program writes has a line for each.
#![tactic(auto)]

mod calls;
mod captures;
mod ends;
mod exchange;
mod items;
mod numbers;
mod packets;
mod plans;
mod queue;
mod served;
mod streams;
mod telling;

use capture_reader::{Capture, parse_capture};
use captures::{tell_each_front, tell_parsed, tell_sources};
use case_rows::{Row, RowFault, bytes_of, expect_lines, run_cases};
use exchange::tell_exchange;
use numbers::tell_numbers;
use packets::{Form, tell_packets};
use plans::tell_plans;
use queue::tell_queue;
use sq_base::Octets;
use std::alloc::Global;
use std::io;
use std::process::ExitCode;
use std::thread::Threads;
use streams::tell_streams;

/// What is told of a file by itself.
const TOLD: &str = "link cut count records";

/// The fields of packets.
const PACKETS: [(&str, Form); 9] = [
    ("packets", Form::Packets),
    ("places", Form::Places),
    ("datagrams", Form::Datagrams),
    ("pings", Form::Pings),
    ("too_long", Form::TooLong),
    ("unreachable", Form::Unreachable),
    ("replies", Form::Replies),
    ("texts", Form::Texts),
    ("refused", Form::Refused),
];

/// The fields of a row of what is read.
const FIELDS: [&str; 18] = [
    "packets",
    "places",
    "datagrams",
    "pings",
    "too_long",
    "unreachable",
    "replies",
    "texts",
    "refused",
    "numbers",
    "file",
    "plan",
    "verify",
    "streams",
    "fronts",
    "sources",
    "tell",
    "out",
];

/// The fields of a row of TCP.
const TCP_FIELDS: [&str; 5] = ["port", "given", "queue", "calls", "out"];

/// The capture that bytes are.
fn capture_of(alloc: Global, bytes: Vec<u8>) -> Result<Capture, RowFault> {
    match parse_capture(alloc, Octets::wrap(bytes)) {
        Ok(capture) => Ok(capture),
        Err(fault) => Err(RowFault::Told(format!(in alloc; "no capture: {fault:?}")?)),
    }
}

/// Tells a capture's plan.
fn planned(
    rt: &(impl Threads + Sync),
    alloc: Global,
    row: &Row<'_>,
    bytes: Vec<u8>,
    out: &mut String,
) -> Result<(), RowFault> {
    let capture = capture_of(alloc, bytes)?;
    tell_plans(
        rt,
        alloc,
        &capture,
        row.has("verify"),
        row.lines("plan"),
        out,
    )
}

/// Tells a capture's streams.
fn streamed(
    alloc: Global,
    row: &Row<'_>,
    bytes: Vec<u8>,
    out: &mut String,
) -> Result<(), RowFault> {
    let most = row.number(alloc, "streams", 0)?;
    let capture = capture_of(alloc, bytes)?;
    Ok(tell_streams(alloc, &capture, most.min(100) as u32, out)?)
}

/// Tells a file.
fn told_file(
    rt: &(impl Threads + Sync),
    alloc: Global,
    row: &Row<'_>,
    out: &mut String,
) -> Result<(), RowFault> {
    let bytes = bytes_of(alloc, row.lines("file"))?;
    if row.has("plan") {
        planned(rt, alloc, row, bytes, out)
    } else if row.has("streams") {
        streamed(alloc, row, bytes, out)
    } else if row.has("fronts") {
        tell_each_front(alloc, bytes.as_slice(), row.text(alloc, "fronts", "")?, out)
    } else if row.has("sources") {
        tell_sources(alloc, bytes.as_slice(), row.lines("sources"), out)
    } else {
        tell_parsed(alloc, bytes.as_slice(), row.text(alloc, "tell", TOLD)?, out)
    }
}

/// Tells what a row gives.
fn told(
    rt: &(impl Threads + Sync),
    alloc: Global,
    row: &Row<'_>,
    out: &mut String,
) -> Result<(), RowFault> {
    for (field, form) in &PACKETS {
        if row.has(field) {
            return tell_packets(*form, alloc, row.lines(field), out);
        }
    }
    if row.has("numbers") {
        return tell_numbers(alloc, row.lines("numbers"), out);
    }
    told_file(rt, alloc, row, out)
}

/// Tells what a connection sends, or a queue answers.
fn told_tcp(alloc: Global, row: &Row<'_>, out: &mut String) -> Result<(), RowFault> {
    if row.has("port") {
        return tell_exchange(alloc, row.text(alloc, "port", "")?, row.lines("given"), out);
    }
    let capacity = row.number(alloc, "queue", 0)?;
    tell_queue(alloc, capacity.min(65_535) as u32, row.lines("calls"), out)
}

/// Does what a row says, and compares.
fn judge(rt: &(impl Threads + Sync), alloc: Global, row: &Row<'_>) -> Result<(), RowFault> {
    let mut out = String::new(alloc);
    if row.has("port") || row.has("queue") {
        row.expect_fields(alloc, &TCP_FIELDS)?;
        told_tcp(alloc, row, &mut out)?;
    } else {
        row.expect_fields(alloc, &FIELDS)?;
        told(rt, alloc, row, &mut out)?;
    }
    expect_lines(alloc, "out", row.lines("out"), out.as_bytes())
}

fn main(rt: HostRuntime) -> io::Result<ExitCode> {
    run_cases(
        &rt,
        &|alloc: Global, _: &str, row: &Row<'_>| judge(&rt, alloc, row),
    )
}
