//! What a congestion window beside a block reads and asks.

use echo_services::{Service, serve, tick};
use segment_codec::{ACK, PSH, SYN, Seg};
use sq_base::{Addr, Tuple};
use std::alloc::Global;
use std::process::Abort;
use std::test::Fail;
use tcb_machine::{State, Tcb};

const ENDS: Tuple = Tuple {
    client: Addr(0x0a00_0001),
    client_port: 4000,
    server: Addr(0x0a00_0002),
    server_port: 7,
};

/// A segment comes, and our initial sequence number is 500.
fn receive(
    rt: &impl Abort,
    tcb: &mut Tcb,
    alloc: Global,
    now: u64,
    seg: &Seg,
    text: &[u8],
) -> Result<(), Fail> {
    assert!(rt; tcb.has_room() && tcb.clock() <= now && now < 1_000_000);
    serve(&mut Service::Echo, tcb, alloc, now, 500, seg, text)?;
    Ok(())
}

/// The segment that was sent as number `i` is the whole echo.
fn check_echo(rt: &impl Abort, tcb: &Tcb, i: usize) {
    assert!(rt; i < tcb.replies());
    let reply = tcb.reply(i);
    assert_eq!(rt; reply.flags, PSH | ACK);
    assert_eq!(rt; reply.seq, 501);
    assert!(rt; reply.text.as_slice() == b"hello".as_slice());
}

/// An echo that isn't acknowledged is sent again: at once where it is asked for, which isn't counted, and by the deadline, which is.
#[test]
fn an_echo_comes_again(rt: HostRuntime) -> Result<(), Fail> {
    let alloc = rt.alloc();
    let mut tcb = Tcb::make(alloc);
    tcb.reserve_replies(4)?;
    let mut syn = Seg::plain(&ENDS, SYN, 100, 0, 4096, 40, 0);
    syn.options.mss = Some(1000);
    syn.options.scale = Some(3);
    receive(&rt, &mut tcb, alloc, 0, &syn, b"")?;
    let text = Seg::plain(&ENDS, PSH | ACK, 101, 501, 512, 40, 5);
    receive(&rt, &mut tcb, alloc, 2000, &text, b"hello")?;
    assert_eq!(rt; (tcb.snd_una(), tcb.snd_nxt()), (501, 506));
    assert_eq!(rt; (tcb.snd_shift(), tcb.mss()), (3, 1000));
    assert!(rt; !matches!(tcb.state(), State::Listen));
    tcb.resend(alloc)?;
    assert_eq!(rt; tcb.retransmissions(), 0);
    assert!(rt; tcb.clock() <= 1_002_000);
    tick(&mut tcb, alloc, 1_002_000)?;
    assert_eq!(rt; tcb.retransmissions(), 1);
    assert_eq!(rt; tcb.replies(), 4);
    for i in 1..4 {
        check_echo(&rt, &tcb, i);
    }
    tcb.forget_retransmissions();
    assert_eq!(rt; tcb.retransmissions(), 0);
    Ok(())
}
