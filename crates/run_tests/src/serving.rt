ghost use Rattle.std.specs.Prelude.{◌≡◌, []};
ghost use Rattle.conn_blocks.specs.Allowed.{all_calls};

use crate::blocks::served as served_alone;
use capture_reader::{Capture, parse_capture};
use conn_blocks::{Act, Block, Calls};
use conn_classifier::plan;
use perimeter_core::NoHook;
use ring_threads::{Served, Setup, serve};
use sq_base::Octets;
use squeue_enter::Mode;
use squeue_state::{Trace, TraceMark};
use std::alloc::Global;
use std::sync::Wait;
use std::test::Fail;
use std::thread::Threads;
use tcb_machine::State;

/// A capture of an echo connection, opened, with "hello" sent and closed, and of a discard connection with "x" sent: the
/// header, and the records.
const TWO: &str = concat!(
    "d4c3b2a10200040000000000000000000000040065000000",
    "000000000000000028000000280000004500002800004000400600000a0000010a0000020fa0000700000064000000005002100000000000",
    "00000000f401000028000000280000004500002800004000400600000a0000010a0000020fa1000900000384000000005002100000000000",
    "00000000e803000028000000280000004500002800004000400600000a0000010a0000020fa0000700000065000001f55010100000000000",
    "00000000d00700002d0000002d0000004500002d00004000400600000a0000010a0000020fa0000700000065000001f5501810000000000068656c6c6f",
    "00000000c409000029000000290000004500002900004000400600000a0000010a0000020fa1000900000385000002bd501810000000000078",
    "00000000b80b000028000000280000004500002800004000400600000a0000010a0000020fa000070000006a000001fa5011100000000000",
    "00000000a00f000028000000280000004500002800004000400600000a0000010a0000020fa000070000006b000001fb5010100000000000",
);

const SYN_ACK: u8 = 18;

const PSH_ACK: u8 = 24;

const FIN_ACK: u8 = 17;

const ACK: u8 = 16;

fn two(rt: &HostRuntime) -> Result<Capture, Fail> {
    let bytes = hex::decode(rt.alloc(), TWO)?;
    Ok(parse_capture(rt.alloc(), Octets::wrap(bytes))?)
}

/// A reply without its text: time, flags, sequence number, acknowledgement number, window.
type Sent = (u64, u8, u32, u32, u16);

fn replies(rt: &HostRuntime, block: &Block) -> Result<Vec<Sent>, Fail> {
    let mut replies = Vec::new(rt.alloc());
    for i in 0..block.tcb().replies() {
        let reply = block.tcb().reply(i);
        replies.push((reply.at, reply.flags, reply.seq, reply.ack, reply.wnd))?;
    }
    Ok(replies)
}

/// Whether a block is what serving the echo connection without calls gives.
fn is_echo(rt: &HostRuntime, block: &Block) -> Result<bool, Fail> {
    let wanted = [
        (0, SYN_ACK, 500, 101, 65535),
        (2000, PSH_ACK, 501, 106, 65535),
        (3000, FIN_ACK, 506, 107, 65535),
    ];
    let as_wanted = replies(rt, block)?.as_slice() == wanted.as_slice();
    Ok(as_wanted && block.answers() == 0 && block.tcb().state() == State::Listen)
}

/// Whether a block is what serving the discard connection gives.
fn is_discard(rt: &HostRuntime, block: &Block) -> Result<bool, Fail> {
    let wanted = [
        (500, SYN_ACK, 700, 901, 65535),
        (2500, ACK, 701, 902, 65535),
    ];
    let order = [Act::Feed { n: 0 }, Act::Feed { n: 1 }, Act::Feed { n: 2 }];
    let as_wanted = replies(rt, block)?.as_slice() == wanted.as_slice();
    let in_order = block.order() == order.as_slice();
    let ended = block.tcb().state() == State::Established;
    Ok(in_order && as_wanted && block.answers() == 0 && ended)
}

/// Whether the last mark of a trace closes a pass, or is the worker's, which leaves nothing queued.
fn is_over(trace: &Trace) -> bool {
    if trace.len() == 0 {
        return false;
    }
    match trace.mark(trace.len() - 1) {
        TraceMark::Close { p: _ } => true,
        TraceMark::Leave { p, rest, act: _ } => p == 7 && rest == 0,
        _ => false,
    }
}

/// How the tests are set up: two squeues, and a move before each feed but the first.
const MOVING: Setup = Setup {
    squeues: 2,
    rings: 3,
    mode: Mode::Fill,
    budget: 1,
    spread: 1,
    trace: true,
};

#[test]
fn feeds_that_move(rt: HostRuntime) -> Result<(), Fail> {
    let capture = two(&rt)?;
    let plan = plan(&rt, rt.alloc(), &capture, false)?;
    let calls = Calls::make(rt.alloc());
    let served = serve(&rt, rt.alloc(), &plan, &calls, &MOVING, &NoHook)?;
    assert_eq!(rt; plan.conns(), 2);
    assert!(rt; is_echo(&rt, served.block(0))?);
    assert!(rt; is_discard(&rt, served.block(1))?);
    assert!(rt; is_over(served.trace(0)) && is_over(served.trace(1)));
    Ok(())
}

/// The order of the first connection, as squeues served it.
fn order_of<W: Threads + Wait + Sync>(
    rt: &W,
    alloc: Global,
    capture: &Capture,
    calls: &Calls,
) -> Result<Vec<Act>, Fail>
    requires { all_calls calls.now ≡ [] }
{
    let plan = plan(rt, alloc, capture, false)?;
    if plan.conns() == 0 {
        return Ok(Vec::new(alloc));
    }
    let served = serve(rt, alloc, &plan, calls, &MOVING, &NoHook)?;
    Ok(Vec::from_slice(alloc, served.block(0).order())?)
}

/// One thread serves the order of a run, and its block, of which no squeue tells, is the run's.
#[test]
fn a_block_of_one_thread(rt: HostRuntime) -> Result<(), Fail> {
    let alloc = rt.alloc();
    let capture = two(&rt)?;
    let calls = Calls::make(alloc);
    let order = order_of(&rt, alloc, &capture, &calls)?;
    let mut blocks = Vec::new(alloc);
    if let Some(block) = served_alone(&rt, alloc, &capture, &calls, &order)? {
        blocks.push(block)?;
    }
    assert!(rt; blocks.len() == 1);
    let served = Served::of(alloc, blocks)?;
    assert_eq!(rt; served.block(0).order(), order.as_slice());
    assert!(rt; is_echo(&rt, served.block(0))?);
    Ok(())
}
