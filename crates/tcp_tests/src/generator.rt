//! One connection, and the pattern. Further connections stand as rows of `cases_library`.

ghost use Rattle.std.specs.Prelude.{◌^◌, ◌<◌, length};

use chargen_service::{GenBlock, pattern};
use segment_codec::Seg;
use sq_base::{Addr, Tuple};
use std::alloc::Global;
use std::process::Abort;
use std::test::Fail;
use tcb_machine::State;

const SYN: u8 = 2;

const ACK: u8 = 16;

const PSH_ACK: u8 = 24;

const ENDS: Tuple = Tuple {
    client: Addr(0x0a00_0001),
    client_port: 5000,
    server: Addr(0x0a00_0002),
    server_port: 19,
};

fn segment_of(flags: u8, seq: u32, ack: u32, wnd: u16, text: &[u8]) -> Seg
    requires { length text.now < 2 ^ 32 }
{
    Seg::plain(&ENDS, flags, seq, ack, wnd, 40, text.len() as u32)
}

/// A segment, at a time that the block takes.
fn arrive(
    rt: &impl Abort,
    block: &mut GenBlock,
    alloc: Global,
    at: u64,
    iss: u32,
    seg: &Seg,
    text: &[u8],
) -> Result<(), Fail> {
    assert!(rt; block.tcb().clock() <= at && at < 1_000_000_000_000);
    assert!(rt; block.tcb().has_room());
    block.segment(alloc, at, iss, seg, text)?;
    Ok(())
}

/// A connection with a window of 10 is opened.
fn open(rt: &impl Abort, block: &mut GenBlock, alloc: Global) -> Result<(), Fail> {
    let syn = segment_of(SYN, 100, 0, 10, b"");
    arrive(rt, block, alloc, 0, 500, &syn, b"")?;
    let ack = segment_of(ACK, 101, 501, 10, b"");
    arrive(rt, block, alloc, 1000, 0, &ack, b"")
}

/// What the window holds is sent.
fn check(rt: &impl Abort, block: &GenBlock) {
    let tcb = block.tcb();
    assert_eq!(rt; (tcb.replies(), tcb.state()), (2, State::Established));
    let reply = tcb.reply(1);
    assert_eq!(rt;
        (reply.at, reply.flags, reply.seq, reply.ack),
        (1000, PSH_ACK, 501, 101)
    );
    assert!(rt; reply.text.as_slice() == b" !\"#$%&'()".as_slice());
}

#[test]
fn one_connection(rt: HostRuntime) -> Result<(), Fail> {
    let mut block = GenBlock::make(rt.alloc());
    open(&rt, &mut block, rt.alloc())?;
    check(&rt, &block);
    Ok(())
}

/// The pattern's ends.
const PATTERN: [(u64, u8); 7] = [
    (0, b' '),
    (1, b'!'),
    (94, b'~'),
    (95, b' '),
    (189, b'~'),
    (190, b' '),
    (u64::MAX, b'C'),
];

#[test]
fn the_pattern(rt: HostRuntime) {
    for (i, byte) in &PATTERN {
        assert_eq!(rt; pattern(*i), *byte);
    }
}
