ghost use Rattle.std.specs.Prelude.{◌≡◌, ◌<◌, length, All, IfOk};
ghost use Rattle.conn_blocks.specs.Allowed.{all_calls};

use capture_reader::{Capture, parse_capture};
use conn_blocks::Calls;
use conn_classifier::{Plan, plan};
use perimeter_core::NoHook;
use report_lines::state_name;
use ring_quotas::Setup;
use ring_threads::{Served, serve};
use sq_base::Octets;
use squeue_enter::Mode;
use squeue_report::{report, report2, summary};
use std::alloc::{AllocError, Global};
use std::process::Abort;
use std::sync::Wait;
use std::test::Fail;
use std::thread::Threads;
use tcb_machine::{Call, State};

/// A capture of one echo connection in five segments: the header, and the records.
const FIVE: [&str; 6] = [
    "d4c3b2a10200040000000000000000000000040065000000",
    "000000000000000028000000280000004500002800004000400600000a0000010a0000020fa0000700000064000000005002100000000000",
    "00000000e803000028000000280000004500002800004000400600000a0000010a0000020fa0000700000065000001f55010100000000000",
    "00000000d00700002d0000002d0000004500002d00004000400600000a0000010a0000020fa0000700000065000001f5501810000000000068656c6c6f",
    "00000000b80b000028000000280000004500002800004000400600000a0000010a0000020fa000070000006a000001fa5011100000000000",
    "00000000a00f000028000000280000004500002800004000400600000a0000010a0000020fa000070000006b000001fb5010100000000000",
];

/// Its report.
const FIVE_REPORT: &str = concat!(
    "report 1\n",
    "records 5 tail 0 served 5 nofit 0 server 0 other 0 fragment 0 cut 0 malformed 0 badsum 0 connections 1\n",
    "conn 0 10.0.0.1:4000 10.0.0.2:7 echo\n",
    "order f0-5\n",
    "reply 0 4500002c00004000400626ca0a0000020a00000100070fa0000001f4000000656012ffff72140000020405b4\n",
    "reply 2000 4500002d00004000400626c90a0000020a00000100070fa0000001f50000006a5018ffff45ed000068656c6c6f\n",
    "reply 3000 4500002800004000400626ce0a0000020a00000100070fa0000001fa0000006b5011ffff89c50000\n",
    "end LISTEN\n",
    "done\n",
);

/// The line that sums it up, for the number 7.
const FIVE_SUMMARY: &str =
    "generated 7 bytes 309 records 5 connections 1 replies 3 octets 5 check b5fcd616e44526af\n";

/// Its first two segments with a close: what stands before the order's line.
const BEFORE_CLOSES: &str = concat!(
    "report 1\n",
    "records 2 tail 0 served 2 nofit 0 server 0 other 0 fragment 0 cut 0 malformed 0 badsum 0 connections 1\n",
    "conn 0 10.0.0.1:4000 10.0.0.2:7 echo\n",
);

/// The orders in which the close may come, and what follows the order's line.
const CLOSES: [(&str, &str); 4] = [
    ("order c0.0 f0-2\n", NOT_OPEN),
    ("order f0 c0.0 f1-2\n", NOT_OPEN),
    ("order f0-1 c0.0 f2\n", CLOSED),
    ("order f0-2 c0.0\n", CLOSED),
];

const NOT_OPEN: &str = concat!(
    "reply 0 4500002c00004000400626ca0a0000020a00000100070fa0000001f4000000656012ffff72140000020405b4\n",
    "answer 0 0 notopen\n",
    "end ESTABLISHED\n",
    "done\n",
);

const CLOSED: &str = concat!(
    "reply 0 4500002c00004000400626ca0a0000020a00000100070fa0000001f4000000656012ffff72140000020405b4\n",
    "reply 1000 4500002800004000400626ce0a0000020a00000100070fa0000001f5000000655011ffff89d00000\n",
    "answer 0 0 ok\n",
    "end FIN-WAIT-1\n",
    "done\n",
);

/// One squeue and one ring.
const ONE: Setup = Setup {
    squeues: 1,
    rings: 1,
    mode: Mode::Process,
    budget: 1,
    spread: 0,
    trace: false,
};

fn read(alloc: Global, lines: &[&str]) -> Result<Capture, Fail> {
    let mut bytes = Vec::new(alloc);
    for line in lines {
        bytes.extend_from_slice(hex::decode(alloc, *line)?.as_slice())?;
    }
    Ok(parse_capture(alloc, Octets::wrap(bytes))?)
}

/// The plan of a capture, which has one connection.
fn one_planned<'c, W: Threads + Sync + Abort>(
    rt: &W,
    alloc: Global,
    capture: &'c Capture,
) -> Result<Plan<'c>, AllocError>
    ensures { IfOk result (λ p. length p.tuples ≡ 1) }
{
    let plan = plan(rt, alloc, capture, false)?;
    assert!(rt; plan.conns() == 1);
    Ok(plan)
}

/// The report of what was served, and the line that sums it up.
fn written(
    alloc: Global,
    bytes: &[u8],
    plan: &Plan,
    served: &Served,
) -> Result<(Octets, Octets), AllocError>
    requires { length served.now.blocks ≡ length plan.now.tuples }
{
    let text = report(alloc, plan, served)?;
    let line = summary(alloc, 7, bytes, plan, served)?;
    Ok((text, line))
}

/// What is written of a plan that is served with no calls.
fn echoed<W: Threads + Wait + Sync>(
    rt: &W,
    alloc: Global,
    bytes: &[u8],
    plan: &Plan,
) -> Result<(Octets, Octets), AllocError> {
    let calls = Calls::make(alloc);
    let served = serve(rt, alloc, plan, &calls, &ONE, &NoHook)?;
    written(alloc, bytes, plan, &served)
}

/// What is written of a capture that is served with no calls.
fn echo_written<W: Threads + Wait + Sync + Abort>(
    rt: &W,
    alloc: Global,
    capture: &Capture,
) -> Result<(Octets, Octets), AllocError> {
    let plan = one_planned(rt, alloc, capture)?;
    echoed(rt, alloc, capture.bytes(), &plan)
}

#[test]
fn five_segment_echo(rt: HostRuntime) -> Result<(), Fail> {
    let capture = read(rt.alloc(), &FIVE)?;
    let (text, line) = echo_written(&rt, rt.alloc(), &capture)?;
    assert_eq!(rt; text.as_slice(), FIVE_REPORT.as_bytes());
    assert_eq!(rt; line.as_slice(), FIVE_SUMMARY.as_bytes());
    Ok(())
}

/// The report of a plan that is served with these calls.
fn reported<W: Threads + Wait + Sync>(
    rt: &W,
    alloc: Global,
    plan: &Plan,
    calls: &Calls,
) -> Result<Octets, AllocError>
    requires { All (λ call. call.0 < length plan.now.tuples) (all_calls calls.now) }
{
    let served = serve(rt, alloc, plan, calls, &ONE, &NoHook)?;
    report(alloc, plan, &served)
}

/// A close of the connection.
fn one_close(alloc: Global) -> Result<Calls, AllocError>
    ensures { IfOk result (λ calls. All (λ call. call.0 < 1) (all_calls calls)) }
{
    let mut calls = Calls::make(alloc);
    calls.push(0, 0, Call::Close)?;
    Ok(calls)
}

/// The report of a capture that is served with a close.
fn close_reported<W: Threads + Wait + Sync + Abort>(
    rt: &W,
    alloc: Global,
    capture: &Capture,
) -> Result<Octets, AllocError> {
    let calls = one_close(alloc)?;
    let plan = one_planned(rt, alloc, capture)?;
    reported(rt, alloc, &plan, &calls)
}

/// Whether the report has the close at one of the places in `CLOSES`.
fn is_known(text: &[u8]) -> bool {
    let Some(rest) = text.strip_prefix(BEFORE_CLOSES.as_bytes()) else {
        return false;
    };
    for (order, more) in CLOSES {
        if rest.strip_prefix(order.as_bytes()) == Some(more.as_bytes()) {
            return true;
        }
    }
    false
}

#[test]
fn a_close_among_the_feeds(rt: HostRuntime) -> Result<(), Fail> {
    let capture = read(rt.alloc(), &FIVE[..3])?;
    let text = close_reported(&rt, rt.alloc(), &capture)?;
    assert!(rt; is_known(text.as_slice()));
    Ok(())
}

/// How many lines of the text end so.
fn ending(text: &str, end: &str) -> usize {
    text.lines().filter(|line| line.ends_with(end)).count()
}

/// The feeds of a connection that moves after each of them, by squeue.
const FILLS: [&str; 6] = [
    "fill 0 0.0",
    "fill 0 0.2",
    "fill 0 0.4",
    "fill 0 0.1",
    "fill 0 0.3",
    "fill 0 0.5",
];

/// Acts, each with how many marks report it.
const ACTS: [(&str, usize); 6] = [
    (" out 0", 5),
    (" in 0", 5),
    (" call 0 0 0", 1),
    (" call 0 0 1", 1),
    (" call 0 1 0", 1),
    (" call 0 3 0", 1),
];

/// Calls of three threads on connection 0.
fn four_calls(alloc: Global) -> Result<Calls, AllocError>
    ensures { IfOk result (λ calls. All (λ call. call.0 < 1) (all_calls calls)) }
{
    let mut calls = Calls::make(alloc);
    calls.push(0, 0, Call::Status)?;
    calls.push(0, 0, Call::Close)?;
    calls.push(1, 0, Call::Status)?;
    calls.push(3, 0, Call::Buffer(512))?;
    Ok(calls)
}

/// What stands before the marks of the first squeue.
const BEFORE_MARKS: &str = concat!(
    "\nsetup squeues 2 rings 2 mode fill budget 1 spread 1 verify 0\n",
    "call 0:0:status\ncall 0:0:close\ncall 1:0:status\ncall 3:0:buffer=512\n",
    "squeue 0 marks ",
);

/// Two squeues and two rings, with moves and marks.
const TRACED: Setup = Setup {
    squeues: 2,
    rings: 2,
    mode: Mode::Fill,
    budget: 1,
    spread: 1,
    trace: true,
};

/// The traced report of a plan that is served with these calls.
fn traced<W: Threads + Wait + Sync>(
    rt: &W,
    alloc: Global,
    plan: &Plan,
    calls: &Calls,
) -> Result<Octets, AllocError>
    requires { All (λ call. call.0 < length plan.now.tuples) (all_calls calls.now) }
{
    let served = serve(rt, alloc, plan, calls, &TRACED, &NoHook)?;
    report2(alloc, plan, calls, &TRACED, false, &served)
}

/// The traced report of a capture that is served with the four calls.
fn traced_report<W: Threads + Wait + Sync + Abort>(
    rt: &W,
    alloc: Global,
    capture: &Capture,
) -> Result<Octets, AllocError> {
    let calls = four_calls(alloc)?;
    let plan = one_planned(rt, alloc, capture)?;
    traced(rt, alloc, &plan, &calls)
}

/// Whether the marks enter the feeds as `FILLS` has them.
fn enters_the_feeds(text: &str) -> bool {
    text.lines()
        .filter(|line| line.starts_with("fill "))
        .eq(FILLS.iter().copied())
}

/// Whether the marks report the acts as often as `ACTS` has them.
fn reports_the_acts(text: &str) -> bool {
    for (act, times) in ACTS {
        if ending(text, act) != times {
            return false;
        }
    }
    true
}

#[test]
fn traced_calls_and_moves(rt: HostRuntime) -> Result<(), Fail> {
    let capture = read(rt.alloc(), &FIVE)?;
    let text = traced_report(&rt, rt.alloc(), &capture)?;
    let text = str::from_utf8(text.as_slice())?;
    assert!(rt; text.contains(BEFORE_MARKS));
    assert!(rt; enters_the_feeds(text));
    assert!(rt; reports_the_acts(text));
    Ok(())
}

const STATES: [(State, &str); 9] = [
    (State::Listen, "LISTEN"),
    (State::SynReceived, "SYN-RECEIVED"),
    (State::Established, "ESTABLISHED"),
    (State::FinWait1, "FIN-WAIT-1"),
    (State::FinWait2, "FIN-WAIT-2"),
    (State::CloseWait, "CLOSE-WAIT"),
    (State::Closing, "CLOSING"),
    (State::LastAck, "LAST-ACK"),
    (State::TimeWait, "TIME-WAIT"),
];

#[test]
fn names(rt: HostRuntime) {
    for (state, name) in STATES {
        assert_eq!(rt; state_name(state), name);
    }
}
