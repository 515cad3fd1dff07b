//! The blocks of connections: a connection served in an order, acts that come to a block early and again, and a block that moves.

ghost use Rattle.std.specs.Prelude.{◌≡◌, ◌+◌, ◌*◌, ◌<◌, ◌≤◌, true, All, Contains, length, slice_index, IfOk};
ghost use Rattle.std.specs.List.{AllByRecursion};
ghost use Rattle.perimeter_core.specs.declared.entries.Act.TheVariants as Act;
ghost use Rattle.perimeter_core.specs.Residing.{HadFeeds, NotHere};
ghost use Rattle.conn_classifier.specs.Plan.{items_in};
ghost use Rattle.conn_blocks.specs.Allowed.{all_calls};
ghost use Rattle.conn_blocks.specs.Limits.{most_calls};
ghost use Rattle.conn_blocks.specs.ServeOrder.{IsActOf, IsCallOn, FeedsRise};

use capture_reader::{Capture, parse_capture};
use conn_blocks::{Act, Block, Blocks, Calls, serve_one};
use conn_classifier::{Plan, plan};
use perimeter_core::Resident;
use sq_base::Octets;
use std::alloc::{AllocError, Global};
use std::process::Abort;
use std::test::Fail;
use std::thread::Threads;
use tcb_machine::{Answer, Call, State, Tcb};

/// The header of a capture file: little-endian, microseconds, raw IP.
const HEADER: [u8; 24] = [
    0xd4, 0xc3, 0xb2, 0xa1, 2, 0, 4, 0, 0, 0, 0, 0, 0, 0, 0, 0, 0, 0, 0, 0, 101, 0, 0, 0,
];

const SYN: u8 = 2;

const ACK: u8 = 16;

const SYN_ACK: u8 = 18;

const PSH_ACK: u8 = 24;

const FIN_ACK: u8 = 17;

/// What stands in a datagram between its length and the sequence number, with no sum: from 10.0.0.1:4000 to 10.0.0.2:7.
const BEFORE_SEQ: [u8; 20] = [
    0, 0, 0x40, 0, 0x40, 6, 0, 0, 10, 0, 0, 1, 10, 0, 0, 2, 15, 160, 0, 7,
];

/// A segment from 10.0.0.1:4000 to 10.0.0.2:7 with window 4096: time in microseconds, flags, sequence number, acknowledgement
/// number, text.
type Row<'t> = (u32, u8, u32, u32, &'t [u8]);

/// Pieces, one behind another.
fn add_all(bytes: &mut Vec<u8>, pieces: &[&[u8]]) -> Result<(), AllocError> {
    for piece in pieces {
        bytes.extend_from_slice(piece)?;
    }
    Ok(())
}

/// One more record: a datagram without sums.
fn add(bytes: &mut Vec<u8>, row: &Row<'_>) -> Result<(), AllocError> {
    let &(at, flags, seq, ack, text) = row;
    let total = 40 + text.len().min(200) as u8;
    add_all(
        bytes,
        &[
            &[0; 4],
            &at.to_le_bytes(),
            &[total, 0, 0, 0, total, 0, 0, 0],
            &[0x45, 0, 0, total],
            &BEFORE_SEQ,
            &seq.to_be_bytes(),
            &ack.to_be_bytes(),
            &[0x50, flags, 16, 0, 0, 0, 0, 0],
            text,
        ],
    )
}

/// A file of these records.
fn file(alloc: Global, rows: &[Row<'_>]) -> Result<Vec<u8>, AllocError> {
    let mut bytes = Vec::from_slice(alloc, &HEADER)?;
    for row in rows {
        add(&mut bytes, row)?;
    }
    Ok(bytes)
}

fn captured(alloc: Global, rows: &[Row<'_>]) -> Result<Capture, Fail> {
    let bytes = file(alloc, rows)?;
    Ok(parse_capture(alloc, Octets::wrap(bytes))?)
}

/// A connection that is opened, sends "hello" and closes: feeds 0 to 4, and the last time item.
const FIVE_SEGMENTS: &[Row] = &[
    (0, SYN, 100, 0, b""),
    (1000, ACK, 101, 501, b""),
    (2000, PSH_ACK, 101, 501, b"hello"),
    (3000, FIN_ACK, 106, 506, b""),
    (4000, ACK, 107, 507, b""),
];

/// Thread 0 asks for the status and closes, thread 1 asks for the status.
fn two_threads(alloc: Global) -> Result<Calls, AllocError>
    ensures below { IfOk result (λ calls. All (λ call. call.0 < 1) (all_calls calls)) }
    ensures status { IfOk result (λ calls. Contains (all_calls calls) (0, 0, 0)) }
    ensures close { IfOk result (λ calls. Contains (all_calls calls) (0, 0, 1)) }
    ensures other { IfOk result (λ calls. Contains (all_calls calls) (0, 1, 0)) }
{
    let mut calls = Calls::make(alloc);
    calls.push(0, 0, Call::Status)?;
    calls.push(0, 0, Call::Close)?;
    calls.push(1, 0, Call::Status)?;
    Ok(calls)
}

/// Whether this is a call on connection 0.
fn is_call(calls: &Calls, j: u32, k: u32) -> bool
    ensures { result ≡ true → IsCallOn calls.now 0 (Act.Call j k) }
{
    j < 4 && k < calls.len(j) && calls.get(j, k).0 == 0
}

/// Whether connection 0 can be served in this order.
fn can_serve(plan: &Plan, calls: &Calls, order: &[Act]) -> bool
    requires { 0 < length plan.now.tuples }
    ensures acts { result ≡ true → AllByRecursion (IsActOf plan.now calls.now 0) order.now }
    ensures rising { result ≡ true → FeedsRise 0 order.now }
    ensures few { result ≡ true → length order.now ≤ length (items_in plan.now 0) + 4 * most_calls }
{
    if order.len() > 4096 {
        return false;
    }
    let mut least = 0;
    for act in order {
        match *act {
            Act::Feed { n } => {
                if n < least || n >= plan.items(0) {
                    return false;
                }
                least = n + 1;
            }
            Act::Call { j, k } => {
                if !is_call(calls, j, k) {
                    return false;
                }
            }
        }
    }
    true
}

/// A reply: time, flags, sequence number, acknowledgement number, window, text.
type Sent = (u64, u8, u32, u32, u16, &'static [u8]);

/// A block: its order, the state of its connection, its replies and its answers (thread, number, answer).
#[derive(Clone, Copy, Drop)]
struct Wanted {
    order: &'static [Act],
    state: State,
    replies: &'static [Sent],
    answers: &'static [(u32, u32, Answer)],
}

/// Whether these are all replies of a connection.
fn has_sent(tcb: &Tcb, replies: &[Sent]) -> bool {
    if tcb.replies() as usize != replies.len() {
        return false;
    }
    for i in 0..tcb.replies() {
        let reply = tcb.reply(i);
        let (at, flags, seq, ack, wnd, text) = replies[i as usize];
        if reply.at != at || reply.flags != flags || reply.seq != seq {
            return false;
        }
        if reply.ack != ack || reply.wnd != wnd || reply.text.as_slice() != text {
            return false;
        }
    }
    true
}

/// Whether these are all answers of a block.
fn has_answered(block: &Block, answers: &[(u32, u32, Answer)]) -> bool {
    if block.answers() as usize != answers.len() {
        return false;
    }
    for i in 0..block.answers() {
        if block.answer(i) != answers[i as usize] {
            return false;
        }
    }
    true
}

/// What of a block isn't as it is wanted, or nothing.
fn difference(block: &Block, wanted: &Wanted) -> &'static str {
    if block.short() {
        return "memory";
    }
    if block.order() != wanted.order {
        return "order";
    }
    if block.tcb().state() != wanted.state {
        return "state";
    }
    if !has_sent(block.tcb(), wanted.replies) {
        return "replies";
    }
    if !has_answered(block, wanted.answers) {
        return "answers";
    }
    ""
}

/// There is a block, and it is as it is wanted.
fn expect(rt: &impl Abort, name: &str, block: &Option<Box<Block>>, wanted: &Wanted) {
    let differs = match block {
        None => "no block",
        Some(block) => difference(block, wanted),
    };
    assert!(rt; differs.is_empty(), "{name}: {differs}");
}

/// Connection 0 of a capture served in this order, where it can be.
pub fn served(
    rt: &(impl Threads + Sync),
    alloc: Global,
    capture: &Capture,
    calls: &Calls,
    order: &[Act],
) -> Result<Option<Box<Block>>, AllocError> {
    let plan = plan(rt, alloc, capture, false)?;
    if plan.conns() == 0 || !can_serve(&plan, calls, order) {
        return Ok(None);
    }
    Ok(Some(serve_one(alloc, &plan, calls, 0, order)?))
}

/// Connection 0 of a capture is served in the order that is wanted, and the block is as it is wanted.
fn expect_served(
    rt: &(impl Threads + Sync + Abort),
    alloc: Global,
    capture: &Capture,
    calls: &Calls,
    wanted: &Wanted,
) -> Result<(), AllocError> {
    let block = served(rt, alloc, capture, calls, wanted.order)?;
    expect(rt, "served in an order", &block, wanted);
    Ok(())
}

/// A connection that is opened and sends "abcdef".
const SIX_BYTES: &[Row] = &[
    (0, SYN, 100, 0, b""),
    (1000, ACK, 101, 501, b""),
    (2000, PSH_ACK, 101, 501, b"abcdef"),
];

/// Thread 0 makes the buffer 4 bytes large.
fn buffer_of_four(alloc: Global) -> Result<Calls, AllocError> {
    let mut calls = Calls::make(alloc);
    calls.push(0, 0, Call::Buffer(4))?;
    Ok(calls)
}

/// The order c0.0 f0 f1 f2.
const BUFFER_FIRST: [Act; 4] = [
    Act::Call { j: 0, k: 0 },
    Act::Feed { n: 0 },
    Act::Feed { n: 1 },
    Act::Feed { n: 2 },
];

const FOUR_BYTES: Wanted = Wanted {
    order: &BUFFER_FIRST,
    state: State::Established,
    replies: &[
        (0, SYN_ACK, 500, 101, 4, b""),
        (2000, PSH_ACK, 501, 105, 4, b"abcd"),
    ],
    answers: &[(0, 0, Answer::Done)],
};

/// The buffer is made small, and then the segments come.
fn serve_with_a_small_buffer(
    rt: &(impl Threads + Sync + Abort),
    alloc: Global,
    capture: &Capture,
) -> Result<(), AllocError> {
    let calls = buffer_of_four(alloc)?;
    expect_served(rt, alloc, capture, &calls, &FOUR_BYTES)
}

#[test]
fn small_buffer(rt: HostRuntime) -> Result<(), Fail> {
    let capture = captured(rt.alloc(), SIX_BYTES)?;
    serve_with_a_small_buffer(&rt, rt.alloc(), &capture)?;
    Ok(())
}

/// The order f0 f1 f2 c0.0 c0.1 c1.0 f3 f4 f5.
const TWO_THREADS: [Act; 9] = [
    Act::Feed { n: 0 },
    Act::Feed { n: 1 },
    Act::Feed { n: 2 },
    Act::Call { j: 0, k: 0 },
    Act::Call { j: 0, k: 1 },
    Act::Call { j: 1, k: 0 },
    Act::Feed { n: 3 },
    Act::Feed { n: 4 },
    Act::Feed { n: 5 },
];

const HELLO_AND_CLOSE: Wanted = Wanted {
    order: &TWO_THREADS,
    state: State::TimeWait,
    replies: &[
        (0, SYN_ACK, 500, 101, 65535, b""),
        (2000, PSH_ACK, 501, 106, 65535, b"hello"),
        (2000, FIN_ACK, 506, 106, 65535, b""),
        (3000, ACK, 507, 107, 65535, b""),
    ],
    answers: &[
        (
            0,
            0,
            Answer::Status {
                state: State::Established,
                received: 5,
                offered: 5,
                unacked: 5,
            },
        ),
        (0, 1, Answer::Done),
        (
            1,
            0,
            Answer::Status {
                state: State::FinWait1,
                received: 5,
                offered: 5,
                unacked: 5,
            },
        ),
    ],
};

/// Feed `n` of connection 0 comes to a resident, which is the next one.
fn feed_next<R: Resident>(resident: &mut R, alloc: Global, n: u32)
    requires range { 0 < R.size resident.old }
    requires next { HadFeeds (R.stands resident.old) 0 n }
    requires limit { n < slice_index (R.limits resident.old).feeds 0 }
    ensures next { HadFeeds (R.stands resident.new) 0 (n + 1) }
    ensures size { R.size resident.new ≡ R.size resident.old }
    ensures limits { R.limits resident.new ≡ R.limits resident.old }
    ensures origin { R.origin resident.new ≡ R.origin resident.old }
{
    resident.feed(alloc, 0, n);
}

/// Call `k` of thread `j` comes to a resident, on connection 0, which has had `_n` feeds.
fn call_now<R: Resident>(resident: &mut R, alloc: Global, _n: u32, j: u32, k: u32)
    requires range { 0 < R.size resident.old }
    requires here { HadFeeds (R.stands resident.old) 0 _n }
    requires exists { Contains (R.limits resident.old).calls (0, j, k) }
    ensures here { HadFeeds (R.stands resident.new) 0 _n }
    ensures size { R.size resident.new ≡ R.size resident.old }
    ensures limits { R.limits resident.new ≡ R.limits resident.old }
    ensures origin { R.origin resident.new ≡ R.origin resident.old }
{
    resident.call(alloc, 0, j, k);
}

/// Of the acts with calls that come early and again those before feed 2.
fn first_acts<R: Resident>(resident: &mut R, alloc: Global)
    requires range { 0 < R.size resident.old }
    requires fresh { HadFeeds (R.stands resident.old) 0 0 }
    requires limit { slice_index (R.limits resident.old).feeds 0 ≡ 6 }
    requires close { Contains (R.limits resident.old).calls (0, 0, 1) }
    ensures here { HadFeeds (R.stands resident.new) 0 2 }
    ensures size { R.size resident.new ≡ R.size resident.old }
    ensures limits { R.limits resident.new ≡ R.limits resident.old }
    ensures origin { R.origin resident.new ≡ R.origin resident.old }
{
    feed_next(resident, alloc, 0);
    feed_next(resident, alloc, 1);
    call_now(resident, alloc, 2, 0, 1);
    call_now(resident, alloc, 2, 0, 1);
}

/// The others of these acts, up to the last feeds.
fn middle_acts<R: Resident>(resident: &mut R, alloc: Global)
    requires range { 0 < R.size resident.old }
    requires here { HadFeeds (R.stands resident.old) 0 2 }
    requires limit { slice_index (R.limits resident.old).feeds 0 ≡ 6 }
    requires status { Contains (R.limits resident.old).calls (0, 0, 0) }
    requires close { Contains (R.limits resident.old).calls (0, 0, 1) }
    requires other { Contains (R.limits resident.old).calls (0, 1, 0) }
    ensures here { HadFeeds (R.stands resident.new) 0 3 }
    ensures size { R.size resident.new ≡ R.size resident.old }
    ensures limits { R.limits resident.new ≡ R.limits resident.old }
{
    feed_next(resident, alloc, 2);
    call_now(resident, alloc, 3, 0, 0);
    call_now(resident, alloc, 3, 0, 0);
    call_now(resident, alloc, 3, 1, 0);
    call_now(resident, alloc, 3, 0, 1);
}

/// The last feeds, and a call once more.
fn last_acts<R: Resident>(resident: &mut R, alloc: Global)
    requires range { 0 < R.size resident.old }
    requires here { HadFeeds (R.stands resident.old) 0 3 }
    requires limit { slice_index (R.limits resident.old).feeds 0 ≡ 6 }
    requires other { Contains (R.limits resident.old).calls (0, 1, 0) }
{
    feed_next(resident, alloc, 3);
    feed_next(resident, alloc, 4);
    feed_next(resident, alloc, 5);
    call_now(resident, alloc, 6, 1, 0);
}

/// Call 1 of thread 0, which waits for its call 0, a feed, and the call of thread 1.
fn held_acts<R: Resident>(resident: &mut R, alloc: Global)
    requires range { 0 < R.size resident.old }
    requires fresh { HadFeeds (R.stands resident.old) 0 0 }
    requires limit { slice_index (R.limits resident.old).feeds 0 ≡ 6 }
    requires close { Contains (R.limits resident.old).calls (0, 0, 1) }
    requires other { Contains (R.limits resident.old).calls (0, 1, 0) }
{
    call_now(resident, alloc, 0, 0, 1);
    feed_next(resident, alloc, 0);
    call_now(resident, alloc, 1, 1, 0);
}

/// The block of connection 0, after two feeds, goes from one resident to another.
fn move_over<R: Resident>(from: &mut R, to: &mut R)
    requires from { 0 < R.size from.old }
    requires to { 0 < R.size to.old }
    requires here { HadFeeds (R.stands from.old) 0 2 }
    requires away { NotHere (R.stands to.old) 0 }
    requires origin { R.origin from.old ≡ R.origin to.old }
    ensures here { HadFeeds (R.stands to.new) 0 2 }
    ensures from { R.size from.new ≡ R.size from.old }
    ensures to { R.size to.new ≡ R.size to.old }
    ensures limits { R.limits to.new ≡ R.limits to.old }
{
    let part = from.take_out(0);
    to.put_in(0, part);
}

/// The places of the only squeue, to which all of these acts came.
fn unmoved(
    rt: &impl Abort,
    alloc: Global,
    plan: &Plan,
    calls: &Calls,
) -> Result<Vec<Option<Box<Block>>>, AllocError>
    requires below { All (λ call. call.0 < 1) (all_calls calls.now) }
    requires status { Contains (all_calls calls.now) (0, 0, 0) }
    requires close { Contains (all_calls calls.now) (0, 0, 1) }
    requires other { Contains (all_calls calls.now) (0, 1, 0) }
{
    assert!(rt; plan.conns() == 1 && plan.items(0) == 6);
    let mut blocks = Blocks::make(alloc, plan, calls, 0, 1, 0)?;
    first_acts(&mut blocks, alloc);
    middle_acts(&mut blocks, alloc);
    last_acts(&mut blocks, alloc);
    Ok(blocks.into_places())
}

/// The places of the only squeue, to which call 1 of thread 0 came, and call 0 never did.
fn never_let_go(
    rt: &impl Abort,
    alloc: Global,
    plan: &Plan,
    calls: &Calls,
) -> Result<Vec<Option<Box<Block>>>, AllocError>
    requires below { All (λ call. call.0 < 1) (all_calls calls.now) }
    requires close { Contains (all_calls calls.now) (0, 0, 1) }
    requires other { Contains (all_calls calls.now) (0, 1, 0) }
{
    assert!(rt; plan.conns() == 1 && plan.items(0) == 6);
    let mut blocks = Blocks::make(alloc, plan, calls, 0, 1, 0)?;
    held_acts(&mut blocks, alloc);
    Ok(blocks.into_places())
}

/// The places of squeue 1 of two, to which connection 0 came before feed 2.
fn moved(
    rt: &impl Abort,
    alloc: Global,
    plan: &Plan,
    calls: &Calls,
) -> Result<Vec<Option<Box<Block>>>, AllocError>
    requires below { All (λ call. call.0 < 1) (all_calls calls.now) }
    requires status { Contains (all_calls calls.now) (0, 0, 0) }
    requires close { Contains (all_calls calls.now) (0, 0, 1) }
    requires other { Contains (all_calls calls.now) (0, 1, 0) }
{
    assert!(rt; plan.conns() == 1 && plan.items(0) == 6);
    let mut first = Blocks::make(alloc, plan, calls, 0, 2, 2)?;
    let mut second = Blocks::make(alloc, plan, calls, 1, 2, 2)?;
    assert!(rt; first.conns() == 1);
    assert!(rt; first.is_here(0) && !second.is_here(0));
    first_acts(&mut first, alloc);
    move_over(&mut first, &mut second);
    assert!(rt; second.conns() == 1);
    assert!(rt; !first.is_here(0) && second.is_here(0));
    middle_acts(&mut second, alloc);
    last_acts(&mut second, alloc);
    Ok(second.into_places())
}

/// All acts come to one squeue: the block is as in the order without those that come early, repeated and late.
fn expect_unmoved(
    rt: &impl Abort,
    alloc: Global,
    plan: &Plan,
    calls: &Calls,
) -> Result<(), AllocError>
    requires below { All (λ call. call.0 < 1) (all_calls calls.now) }
    requires status { Contains (all_calls calls.now) (0, 0, 0) }
    requires close { Contains (all_calls calls.now) (0, 0, 1) }
    requires other { Contains (all_calls calls.now) (0, 1, 0) }
{
    let places = unmoved(rt, alloc, plan, calls)?;
    assert!(rt; places.len() == 1);
    expect(
        rt,
        "early, repeated and late calls",
        &places[0],
        &HELLO_AND_CLOSE,
    );
    Ok(())
}

/// Whether call 1 of thread 0 is still held, and the others were done.
fn is_held(block: &Option<Box<Block>>) -> bool {
    let order = [Act::Feed { n: 0 }, Act::Call { j: 1, k: 0 }];
    match block {
        None => false,
        Some(block) => block.order() == order.as_slice() && block.answers() == 1,
    }
}

/// A call comes whose thread's call before it never does: the block holds it to the end.
fn expect_held(rt: &impl Abort, alloc: Global, plan: &Plan, calls: &Calls) -> Result<(), AllocError>
    requires below { All (λ call. call.0 < 1) (all_calls calls.now) }
    requires close { Contains (all_calls calls.now) (0, 0, 1) }
    requires other { Contains (all_calls calls.now) (0, 1, 0) }
{
    let places = never_let_go(rt, alloc, plan, calls)?;
    assert!(rt; places.len() == 1);
    assert!(rt; is_held(&places[0]), "a call that is held to the end");
    Ok(())
}

/// The block moves between these acts, and is as that of the acts without a move.
fn expect_moved(
    rt: &impl Abort,
    alloc: Global,
    plan: &Plan,
    calls: &Calls,
) -> Result<(), AllocError>
    requires below { All (λ call. call.0 < 1) (all_calls calls.now) }
    requires status { Contains (all_calls calls.now) (0, 0, 0) }
    requires close { Contains (all_calls calls.now) (0, 0, 1) }
    requires other { Contains (all_calls calls.now) (0, 1, 0) }
{
    let places = moved(rt, alloc, plan, calls)?;
    assert!(rt; places.len() == 1);
    expect(rt, "at two squeues", &places[0], &HELLO_AND_CLOSE);
    Ok(())
}

/// The acts come, one after another, to the block of a capture's plan, at one squeue and at two.
fn expect_acts(
    rt: &(impl Threads + Sync + Abort),
    alloc: Global,
    capture: &Capture,
    calls: &Calls,
) -> Result<(), AllocError>
    requires below { All (λ call. call.0 < 1) (all_calls calls.now) }
    requires status { Contains (all_calls calls.now) (0, 0, 0) }
    requires close { Contains (all_calls calls.now) (0, 0, 1) }
    requires other { Contains (all_calls calls.now) (0, 1, 0) }
{
    let plan = plan(rt, alloc, capture, false)?;
    expect_unmoved(rt, alloc, &plan, calls)?;
    expect_held(rt, alloc, &plan, calls)?;
    expect_moved(rt, alloc, &plan, calls)
}

/// Two threads call: the connection is served in an order, and acts come to it.
fn expect_two_threads(
    rt: &(impl Threads + Sync + Abort),
    alloc: Global,
    capture: &Capture,
) -> Result<(), AllocError> {
    let calls = two_threads(alloc)?;
    assert!(rt; calls.len(0) == 2 && calls.len(1) == 1 && calls.len(2) == 0);
    expect_served(rt, alloc, capture, &calls, &HELLO_AND_CLOSE)?;
    expect_acts(rt, alloc, capture, &calls)
}

#[test]
fn calls_of_two_threads(rt: HostRuntime) -> Result<(), Fail> {
    let capture = captured(rt.alloc(), FIVE_SEGMENTS)?;
    expect_two_threads(&rt, rt.alloc(), &capture)?;
    Ok(())
}
