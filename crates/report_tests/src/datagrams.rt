//! Two rings that a hook holds inside two squeues at once, and one whole run. All other whole runs are rows of `cases_programs`.

use capture_reader::{Capture, parse_capture};
use datagram_services::{Setup, more_run, serve_more};
use perimeter_core::Hook;
use sq_base::{MemSink, MemSource, Octets, Status};
use squeue_enter::Mode;
use std::alloc::{AllocError, Global};
use std::process::Abort;
use std::sync::Wait;
use std::sync::atomic::{AtomicBool, Ordering};
use std::test::Fail;
use std::thread::{Threads, yield_now};
use stream_plan::more_plan;

/// The header of a capture file: little-endian, microseconds, raw IP.
const HEADER: [u8; 24] = [
    0xd4, 0xc3, 0xb2, 0xa1, 2, 0, 4, 0, 0, 0, 0, 0, 0, 0, 0, 0, 0, 0, 0, 0, 101, 0, 0, 0,
];

/// What comes from 10.0.0.1 to 10.0.0.2 at time 0, a datagram with the text "hi" from each of these ports to echo.
const TWO: [u16; 2] = [5000, 5001];

/// One more record.
fn add(bytes: &mut Vec<u8>, from: u16) -> Result<(), AllocError> {
    bytes.extend_from_slice(&[0, 0, 0, 0, 0, 0, 0, 0, 30, 0, 0, 0, 30, 0, 0, 0])?;
    bytes.extend_from_slice(&[0x45, 0, 0, 30, 0, 0, 0x40, 0, 0x40, 17, 0, 0])?;
    bytes.extend_from_slice(&[10, 0, 0, 1, 10, 0, 0, 2])?;
    bytes.extend_from_slice(&from.to_be_bytes())?;
    bytes.extend_from_slice(&[0, 7, 0, 10, 0, 0, 0x68, 0x69])
}

fn file(alloc: Global, ports: &[u16]) -> Result<Vec<u8>, AllocError> {
    let mut bytes = Vec::from_slice(alloc, &HEADER)?;
    for from in ports {
        add(&mut bytes, *from)?;
    }
    Ok(bytes)
}

fn captured(alloc: Global, ports: &[u16]) -> Result<Capture, Fail> {
    let bytes = file(alloc, ports)?;
    Ok(parse_capture(alloc, Octets::wrap(bytes))?)
}

/// Two squeues and two rings.
const PAIR: Setup = Setup {
    squeues: 2,
    rings: 2,
    mode: Mode::Process,
    budget: 64,
    spread: 0,
    trace: false,
};

/// How often one looks for the other before it gives up.
const TURNS: u32 = 1 << 22;

/// Holds the feed of each of the two streams until that of the other has come, too.
#[derive(Drop)]
struct Meeting {
    first: AtomicBool,
    second: AtomicBool,
    in_vain: AtomicBool,
}

impl Hook for Meeting {
    fn before(&self, _squeue: u32, c: u32, _n: u32) {
        let (own, other) = if c == 0 {
            (&self.first, &self.second)
        } else {
            (&self.second, &self.first)
        };
        own.store(true, Ordering::SeqCst);
        for _ in 0..TURNS {
            if other.load(Ordering::SeqCst) {
                return;
            }
            yield_now();
        }
        self.in_vain.store(true, Ordering::SeqCst);
    }
}

/// Serves the plan of `TWO` with a hook: each of its streams has one answer.
fn serve_two<W: Threads + Wait + Sync + Abort>(
    rt: &W,
    alloc: Global,
    hook: &Meeting,
) -> Result<(), Fail> {
    let capture = captured(alloc, &TWO)?;
    let plan = more_plan(alloc, &capture)?;
    let served = serve_more(rt, alloc, &plan, &PAIR, hook)?;
    assert!(rt; plan.streams() == 2);
    assert!(rt; served.answers(0).len() == 1 && served.answers(1).len() == 1);
    Ok(())
}

/// Both came, and neither waited in vain.
fn expect_met(rt: &impl Abort, meeting: &Meeting) {
    assert!(rt; meeting.first.load(Ordering::SeqCst));
    assert!(rt; meeting.second.load(Ordering::SeqCst));
    assert!(rt;
        !meeting.in_vain.load(Ordering::SeqCst),
        "nobody waits in vain"
    );
}

/// Two rings are inside two squeues at once.
#[test]
fn rings_beside_each_other(rt: HostRuntime) -> Result<(), Fail> {
    let meeting = Meeting {
        first: AtomicBool::new(false),
        second: AtomicBool::new(false),
        in_vain: AtomicBool::new(false),
    };
    serve_two(&rt, rt.alloc(), &meeting)?;
    expect_met(&rt, &meeting);
    Ok(())
}

/// The report of a capture without records.
const NOTHING: &[u8] = b"more 1\nrecords 0 tail 0 served 0 nofit 0 other 0 streams 0\ndone\n";

/// How a run over a capture without records ended, and what it wrote.
#[derive(Drop)]
struct Ended {
    status: Status,
    out: MemSink,
    err: MemSink,
}

fn ran(
    rt: &(impl Threads + Wait + Sync),
    alloc: Global,
    words: &Vec<String>,
) -> Result<Ended, AllocError> {
    let mut src = MemSource::make(alloc, &HEADER, 65_536, &[])?;
    let mut out = MemSink::make(alloc, 1000, 1000, &[])?;
    let mut err = MemSink::make(alloc, 1000, 1000, &[])?;
    let status = more_run(rt, alloc, words.as_slice(), &mut src, &mut out, &mut err);
    Ok(Ended { status, out, err })
}

#[test]
fn nothing_to_serve(rt: HostRuntime) -> Result<(), Fail> {
    let words = Vec::new(rt.alloc());
    let ended = ran(&rt, rt.alloc(), &words)?;
    assert_eq!(rt; ended.status, Status::Ok);
    assert_eq!(rt; ended.out.bytes(), NOTHING);
    assert!(rt; ended.err.bytes().is_empty());
    Ok(())
}
