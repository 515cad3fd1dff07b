//! The three crates as a library: one connection, served as its datagrams come. docs/TCP_LIBRARY.md tells it.

ghost use Rattle.std.specs.Prelude.{◌^◌, ◌<◌, ◌≤◌, All, length};
ghost use Rattle.tcb_machine.specs.BlockState.{IsOurs};

use echo_services::{Service, serve, tick};
use segment_codec::{Packet, Reply, Seg, decode, encode};
use sq_base::{Addr, Link, Octets, Tuple};
use std::alloc::{AllocError, Global};
use std::process::Abort;
use std::test::Fail;
use tcb_machine::{Ending, LAST_TIME, State, Tcb};

/// A datagram of the connection comes at a time, in microseconds. The answer are the datagrams that are sent.
fn receive(
    tcb: &mut Tcb,
    alloc: Global,
    now: u64,
    iss: u32,
    datagram: &[u8],
) -> Result<Vec<Octets>, AllocError>
    requires { length datagram.now < 2 ^ 32 }
{
    match decode(Link::RawIp, datagram, true) {
        Packet::Segment(seg) if seg.dst_port == 7 || seg.dst_port == 9 => {
            let text = text_of(&seg, datagram);
            if tcb.has_room() && tcb.clock() <= now && now <= LAST_TIME {
                tick(tcb, alloc, now)?;
                serve(
                    &mut Service::of(seg.dst_port),
                    tcb,
                    alloc,
                    now,
                    iss,
                    &seg,
                    text,
                )?;
            }
            datagrams(alloc, &tuple_of(&seg), &tcb.take_replies(alloc))
        }
        _ => Ok(Vec::new(alloc)),
    }
}

/// The ends of a segment that comes: its sender is the client.
fn tuple_of(seg: &Seg) -> Tuple {
    Tuple {
        client: seg.src,
        client_port: seg.src_port,
        server: seg.dst,
        server_port: seg.dst_port,
    }
}

/// The segment's text in its datagram.
fn text_of<'a>(seg: &Seg, datagram: &'a [u8]) -> &'a [u8] {
    let (_, rest) = datagram.split_at((seg.text_from as usize).min(datagram.len()));
    let (text, _) = rest.split_at((seg.text_len as usize).min(rest.len()));
    text
}

/// The datagrams of segments that are sent.
fn datagrams(alloc: Global, tuple: &Tuple, replies: &[Reply]) -> Result<Vec<Octets>, AllocError>
    requires { All IsOurs replies.now }
{
    let mut sent = Vec::new(alloc);
    for reply in replies {
        sent.push(encode(alloc, tuple, reply)?)?;
    }
    Ok(sent)
}

/// A datagram of the client: what a server with the ends turned would send.
fn of_client(alloc: Global, flags: u8, seq: u32, ack: u32, text: &[u8]) -> Result<Octets, Fail>
    requires { length text.now ≤ 1460 }
{
    let turned = Tuple {
        client: Addr(0x0a00_0002),
        client_port: 7,
        server: Addr(0x0a00_0001),
        server_port: 4000,
    };
    let reply = Reply::plain(0, flags, seq, ack, 4096, Octets::of(alloc, text)?);
    Ok(encode(alloc, &turned, &reply)?)
}

/// A segment of the client: flags, sequence number, acknowledgement number, text, and how many datagrams answer it.
#[derive(Clone, Copy, Drop)]
struct Given<'a>(u8, u32, u32, &'a str, usize);

const GIVEN: [Given; 4] = [
    Given(2, 100, 0, "", 1),
    Given(16, 101, 501, "", 0),
    Given(24, 101, 501, "hello", 1),
    Given(17, 106, 506, "", 1),
];

/// A datagram that is sent has this text, and goes to the client.
fn check_answer(rt: &impl Abort, datagram: &[u8], text: &[u8]) {
    assert!(rt; datagram.len() < 65_536);
    match decode(Link::RawIp, datagram, true) {
        Packet::Segment(back) => {
            assert!(rt; text_of(&back, datagram) == text);
            assert_eq!(rt; back.dst_port, 4000);
        }
        _ => assert!(rt; false),
    }
}

/// Each datagram that is sent has this text, and goes to the client.
fn check_answers(rt: &impl Abort, sent: &[Octets], text: &[u8]) {
    for octets in sent {
        check_answer(rt, octets.as_slice(), text);
    }
}

/// The datagram of a segment of the client.
fn given_datagram(rt: &impl Abort, alloc: Global, given: &Given) -> Result<Octets, Fail> {
    let Given(flags, seq, ack, text, _) = *given;
    assert!(rt; text.len() <= 1460);
    of_client(alloc, flags, seq, ack, text.as_bytes())
}

/// The last segment of the connection ends it, and is not answered.
fn check_last(
    rt: &impl Abort,
    tcb: &mut Tcb,
    alloc: Global,
    before: State,
    datagram: &[u8],
) -> Result<(), Fail> {
    assert!(rt; datagram.len() < 65_536);
    assert_eq!(rt; receive(tcb, alloc, 4000, 500, datagram)?.len(), 0);
    match decode(Link::RawIp, datagram, true) {
        Packet::Segment(seg) => {
            assert_eq!(rt;
                Ending::by_segment(before, &seg, tcb.state()),
                Some(Ending::LastAck)
            );
        }
        _ => assert!(rt; false),
    }
    Ok(())
}

/// The last datagram of the client comes.
fn end(rt: &impl Abort, tcb: &mut Tcb, alloc: Global, before: State) -> Result<(), Fail> {
    let last = of_client(alloc, 16, 107, 507, b"")?;
    check_last(rt, tcb, alloc, before, last.as_slice())
}

/// Handshake, an echo and a close: each datagram's answer is read again.
#[test]
fn one_connection(rt: HostRuntime) -> Result<(), Fail> {
    let alloc = rt.alloc();
    let mut tcb = Tcb::make(alloc);
    let mut now = 0u64;
    for given in &GIVEN {
        let Given(_, _, _, text, answers) = *given;
        let datagram = given_datagram(&rt, alloc, given)?;
        assert!(rt; datagram.as_slice().len() < 65_536);
        let sent = receive(&mut tcb, alloc, now, 500, datagram.as_slice())?;
        assert_eq!(rt; sent.len(), answers);
        check_answers(&rt, &sent, text.as_bytes());
        now = now.saturating_add(1000);
    }
    let before = tcb.state();
    assert_eq!(rt; before, State::LastAck);
    assert_eq!(rt; tcb.next_deadline(), Some(1_003_000));
    end(&rt, &mut tcb, alloc, before)
}
