//! From the bytes of a capture to what is sent: a datagram to echo, a connection to the generator, and a datagram to discard.

ghost use Rattle.std.specs.Prelude.{◌<◌, length};

use capture_reader::{Capture, parse_capture};
use datagram_services::{MorePlan, MoreServed, Setup, StreamBlocks, more_plan, serve_more};
use perimeter_core::{NoHook, Resident};
use sq_base::Octets;
use squeue_enter::Mode;
use std::alloc::{AllocError, Global};
use std::process::Abort;
use std::sync::Wait;
use std::test::Fail;
use std::thread::Threads;
use tcb_machine::State;

/// The header of a capture file: little-endian, microseconds, raw IP.
const HEADER: [u8; 24] = [
    0xd4, 0xc3, 0xb2, 0xa1, 2, 0, 4, 0, 0, 0, 0, 0, 0, 0, 0, 0, 0, 0, 0, 0, 101, 0, 0, 0,
];

const UDP: u8 = 17;

const TCP: u8 = 6;

/// What comes from 10.0.0.1, port 5000, to 10.0.0.2: time in microseconds, protocol, port, and for TCP the flags, sequence number
/// and acknowledgement number, with a window of 10. A datagram has the text "hi".
type Row = (u32, u8, u16, u8, u32, u32);

const ROWS: [Row; 6] = [
    (0, UDP, 7, 0, 0, 0),
    (0, TCP, 19, 2, 100, 0),
    (0, UDP, 9, 0, 0, 0),
    (1000, TCP, 19, 16, 101, 501),
    (2000, TCP, 19, 16, 101, 511),
    (3000, TCP, 19, 17, 101, 521),
];

/// The answer to the datagram to echo.
const ECHOED: [u8; 30] = [
    0x45, 0, 0, 0x1e, 0, 0, 0x40, 0, 0x40, 0x11, 0x26, 0xcd, 10, 0, 0, 2, 10, 0, 0, 1, 0, 7, 0x13,
    0x88, 0, 10, 0x6f, 0xdf, 0x68, 0x69,
];

/// One more record.
fn add(bytes: &mut Vec<u8>, row: &Row) -> Result<(), Fail> {
    let &(at, protocol, to, flags, seq, ack) = row;
    let len = if protocol == UDP { 30u8 } else { 40 };
    bytes.extend_from_slice(&0u32.to_le_bytes())?;
    bytes.extend_from_slice(&at.to_le_bytes())?;
    bytes.extend_from_slice(&[len, 0, 0, 0, len, 0, 0, 0])?;
    bytes.extend_from_slice(&[0x45, 0, 0, len, 0, 0, 0x40, 0, 0x40, protocol, 0, 0])?;
    bytes.extend_from_slice(&[10, 0, 0, 1, 10, 0, 0, 2, 0x13, 0x88])?;
    bytes.extend_from_slice(&to.to_be_bytes())?;
    if protocol == UDP {
        bytes.extend_from_slice(&[0, 10, 0, 0, 0x68, 0x69])?;
    } else {
        bytes.extend_from_slice(&seq.to_be_bytes())?;
        bytes.extend_from_slice(&ack.to_be_bytes())?;
        bytes.extend_from_slice(&[0x50, flags, 0, 10, 0, 0, 0, 0])?;
    }
    Ok(())
}

fn captured(rt: &HostRuntime) -> Result<Capture, Fail> {
    let mut bytes = Vec::from_slice(rt.alloc(), &HEADER)?;
    for row in &ROWS {
        add(&mut bytes, row)?;
    }
    Ok(parse_capture(rt.alloc(), Octets::of(rt.alloc(), &bytes)?)?)
}

/// One squeue and one ring.
const ALONE: Setup = Setup {
    squeues: 1,
    rings: 1,
    mode: Mode::Process,
    budget: 64,
    spread: 0,
    trace: false,
};

/// Echo sent one answer.
fn expect_echoed(rt: &impl Abort, served: &MoreServed)
    requires { 0 < length served.now.streams }
{
    let answers = served.answers(0);
    assert!(rt; answers.len() == 1);
    assert_eq!(rt; answers[0].at, 0);
    assert_eq!(rt; answers[0].datagram.as_slice(), ECHOED.as_slice());
}

/// The generator sent four segments, and waits for the acknowledgement of its FIN.
fn expect_generated(rt: &impl Abort, served: &MoreServed)
    requires { 1 < length served.now.streams }
{
    let tcb = served.generator(1).tcb();
    assert_eq!(rt; tcb.state(), State::LastAck);
    assert!(rt; tcb.replies() == 4);
    let last = tcb.reply(3);
    assert_eq!(rt;
        (last.at, last.flags, last.seq, last.ack),
        (3000, 24, 521, 102)
    );
    assert_eq!(rt; last.text.as_slice(), b"456789:;<=".as_slice());
}

/// What is sent to each stream of the capture.
fn expect_sent<W: Threads + Wait + Sync + Abort>(
    rt: &W,
    alloc: Global,
    capture: &Capture,
) -> Result<(), AllocError> {
    let plan = more_plan(alloc, capture)?;
    let served = serve_more(rt, alloc, &plan, &ALONE, &NoHook)?;
    assert!(rt; plan.streams() == 3);
    expect_echoed(rt, &served);
    expect_generated(rt, &served);
    assert!(rt; served.answers(2).is_empty());
    Ok(())
}

#[test]
fn one_datagram_and_the_generator(rt: HostRuntime) -> Result<(), Fail> {
    let capture = captured(&rt)?;
    expect_sent(&rt, rt.alloc(), &capture)?;
    Ok(())
}

/// Of two squeues the second has every other stream, which is called there, leaves and comes again.
fn expect_second<W: Abort>(rt: &W, alloc: Global, plan: &MorePlan<'_>) -> Result<(), AllocError> {
    assert!(rt; plan.streams() == 3);
    let calls = vec![in alloc; (1, 0, 0)]?;
    let mut blocks = StreamBlocks::make(alloc, plan, calls, 1, 2)?;
    assert_eq!(rt; blocks.conns(), 3);
    assert_eq!(rt;
        (blocks.is_here(0), blocks.is_here(1), blocks.is_here(2)),
        (false, true, false)
    );
    blocks.call(alloc, 1, 0, 0);
    let block = blocks.take_out(1);
    assert!(rt; !block.short() && block.answers().is_empty());
    assert!(rt; !blocks.is_here(1));
    blocks.put_in(1, block);
    assert!(rt; blocks.is_here(1) && !blocks.is_here(2));
    Ok(())
}

#[test]
fn streams_of_the_second_squeue(rt: HostRuntime) -> Result<(), Fail> {
    let capture = captured(&rt)?;
    let plan = more_plan(rt.alloc(), &capture)?;
    expect_second(&rt, rt.alloc(), &plan)?;
    Ok(())
}
