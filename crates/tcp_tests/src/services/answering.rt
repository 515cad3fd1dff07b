//! Services that answer requests: whole connections, as their segments come.

ghost use Rattle.std.specs.Prelude.{◌^◌, ◌<◌, length};

use echo_services::serve;
use http_pages::{Answer, Pages};
use page_service::{Answerer, Behind, Phase};
use segment_codec::Seg;
use sq_base::{Addr, Tuple};
use std::alloc::{AllocError, Global};
use std::process::Abort;
use std::test::Fail;
use tcb_machine::{State, Tcb};

/// Each byte is a request, its answer is a line of 64 of it, and a z is the last.
struct Letters;

impl Answerer for Letters {
    ghost use Rattle.std.specs.Prelude.{[], ◌∷◌};
    ghost use Rattle.tcp_tests.specs.Letters.{letters, letters-sound};

    type Answer = u8;

    ghost protocol = { λ _. letters };

    ghost behind_head = { λ _ _. 10 ∷ [] };

    fn answer(&self, _at: u64, bytes: &[u8]) -> Option<(u8, usize)> {
        match bytes {
            [letter, ..] => Some((*letter, 1)),
            [] => None,
        }
    }

    fn keeps(&self, answer: u8) -> bool {
        answer != b'z'
    }

    fn head(&self, alloc: Global, answer: u8) -> Result<Vec<u8>, AllocError> {
        vec![in alloc; answer; 64]
    }

    fn body(&self, _answer: u8) -> &[u8] {
        b"\n"
    }

    ghost sound = { λ _. letters-sound };
}

const ENDS: Tuple = Tuple {
    client: Addr(0x0a00_0001),
    client_port: 5000,
    server: Addr(0x0a00_0002),
    server_port: 80,
};

const SYN: u8 = 2;

const ACK: u8 = 16;

const FIN_ACK: u8 = 17;

/// A connection, and how far its service has come.
#[derive(Drop)]
struct Connection<A: Copy> {
    tcb: Tcb,
    phase: Phase<A>,
}

/// A segment of the client comes.
fn arrive<R: Answerer>(
    rt: &impl Abort,
    letters: &R,
    connection: &mut Connection<R::Answer>,
    alloc: Global,
    numbers: (u8, u32, u32),
    wnd: u16,
    text: &[u8],
) -> Result<(), Fail>
    requires { length text.now < 2 ^ 32 }
{
    let (flags, seq, ack) = numbers;
    let seg = Seg::plain(&ENDS, flags, seq, ack, wnd, 40, text.len() as u32);
    let (now, iss) = (1000, 500);
    assert!(rt; connection.tcb.clock() <= now && connection.tcb.has_room());
    let mut behind = Behind {
        phase: connection.phase,
        answerer: letters,
    };
    serve(
        &mut behind,
        &mut connection.tcb,
        alloc,
        now,
        iss,
        &seg,
        text,
    )?;
    connection.phase = behind.phase;
    Ok(())
}

/// A connection whose client announces a window.
fn open<R: Answerer>(
    rt: &impl Abort,
    letters: &R,
    alloc: Global,
    wnd: u16,
) -> Result<Connection<R::Answer>, Fail> {
    let mut connection = Connection {
        tcb: Tcb::make(alloc),
        phase: Phase::Reads,
    };
    arrive(rt, letters, &mut connection, alloc, (SYN, 100, 0), wnd, b"")?;
    arrive(
        rt,
        letters,
        &mut connection,
        alloc,
        (ACK, 101, 501),
        wnd,
        b"",
    )?;
    Ok(connection)
}

/// Two requests in one segment have their answers in order; the peer's FIN is followed by ours.
#[test]
fn two_answers(rt: HostRuntime) -> Result<(), Fail> {
    let mut connection = open(&rt, &Letters, rt.alloc(), 1000)?;
    arrive(
        &rt,
        &Letters,
        &mut connection,
        rt.alloc(),
        (ACK, 101, 501),
        1000,
        b"ab",
    )?;
    let sent = connection.tcb.take_replies(rt.alloc());
    assert_eq!(rt; sent.len(), 2);
    let text = sent[1].text.as_slice();
    assert!(rt; text.len() == 130 && text[0] == b'a' && text[64] == b'\n' && text[65] == b'b');
    assert_eq!(rt; connection.phase, Phase::Reads);
    arrive(
        &rt,
        &Letters,
        &mut connection,
        rt.alloc(),
        (FIN_ACK, 103, 631),
        1000,
        b"",
    )?;
    assert_eq!(rt;
        (connection.phase, connection.tcb.state()),
        (Phase::Ends, State::LastAck)
    );
    Ok(())
}

/// An answer after which none may follow: our FIN comes behind it, and what else came is thrown away.
#[test]
fn last_answer(rt: HostRuntime) -> Result<(), Fail> {
    let mut connection = open(&rt, &Letters, rt.alloc(), 1000)?;
    arrive(
        &rt,
        &Letters,
        &mut connection,
        rt.alloc(),
        (ACK, 101, 501),
        1000,
        b"azb",
    )?;
    assert_eq!(rt;
        (connection.phase, connection.tcb.state()),
        (Phase::Ends, State::FinWait1)
    );
    assert_eq!(rt; connection.tcb.ready(), 0);
    Ok(())
}

/// More requests than there is room for the answers: the rest waits until the peer has acknowledged some.
#[test]
fn more_than_fits(rt: HostRuntime) -> Result<(), Fail> {
    let mut connection = open(&rt, &Letters, rt.alloc(), 0)?;
    let many = [b'a'; 1200];
    arrive(
        &rt,
        &Letters,
        &mut connection,
        rt.alloc(),
        (ACK, 101, 501),
        0,
        &many,
    )?;
    // 1,008 whole answers of 65 bytes, and 15 bytes of another one
    assert_eq!(rt;
        connection.phase,
        Phase::Answers {
            answer: b'a',
            given: 15
        }
    );
    assert_eq!(rt; (connection.tcb.room(), connection.tcb.ready()), (0, 191));
    Ok(())
}

/// A part of a pack, behind its length in four bytes.
fn put(pack: &mut Vec<u8>, part: &[u8]) -> Result<(), AllocError>
    requires { length part.now < 2 ^ 8 }
{
    for byte in [0, 0, 0, part.len() as u8] {
        pack.push(byte)?;
    }
    for byte in part {
        pack.push(*byte)?;
    }
    Ok(())
}

/// A site of one page.
fn site(rt: &impl Abort, alloc: Global) -> Result<Pages, Fail> {
    let mut pack = Vec::new(alloc);
    put(&mut pack, b"/a")?;
    put(&mut pack, b"text/plain")?;
    put(&mut pack, b"\"t\"")?;
    put(&mut pack, b"hello")?;
    let Ok(pages) = Pages::of(alloc, pack) else {
        panic!(rt; "the pack has a page");
    };
    Ok(pages)
}

/// The text of the last segment that was sent.
fn is_last(tcb: &mut Tcb, alloc: Global, text: &[u8]) -> bool {
    let sent = tcb.take_replies(alloc);
    match sent.last() {
        Some(reply) => reply.text.as_slice() == text,
        None => false,
    }
}

/// A request cut in two (RFC 9112, 2.1 and 3) waits in the receive queue.
fn half(
    rt: &impl Abort,
    site: &Pages,
    connection: &mut Connection<Answer>,
    alloc: Global,
) -> Result<(), Fail> {
    arrive(
        rt,
        site,
        connection,
        alloc,
        (ACK, 101, 501),
        1000,
        b"GET /a HT",
    )?;
    assert_eq!(rt;
        (connection.phase, connection.tcb.ready()),
        (Phase::Reads, 9)
    );
    Ok(())
}

/// It has its answer once it is whole.
fn whole(
    rt: &impl Abort,
    site: &Pages,
    connection: &mut Connection<Answer>,
    alloc: Global,
) -> Result<(), Fail> {
    arrive(
        rt,
        site,
        connection,
        alloc,
        (ACK, 110, 501),
        1000,
        b"TP/1.1\r\nHost: x\r\n\r\n",
    )?;
    assert_eq!(rt;
        (connection.phase, connection.tcb.ready()),
        (Phase::Reads, 0)
    );
    assert!(rt;
        is_last(
            &mut connection.tcb,
            alloc,
            b"HTTP/1.1 200 OK\r\nDate: Thu, 01 Jan 1970 00:00:00 GMT\r\nETag: \"t\"\r\nContent-Type: text/plain\r\nContent-Length: 5\r\n\r\nhello"
        )
    );
    Ok(())
}

/// Behind the answer to an HTTP/1.0 request (RFC 9112, 9.3) comes our FIN.
fn last(
    rt: &impl Abort,
    site: &Pages,
    connection: &mut Connection<Answer>,
    alloc: Global,
) -> Result<(), Fail> {
    arrive(
        rt,
        site,
        connection,
        alloc,
        (ACK, 129, 618),
        1000,
        b"GET /b HTTP/1.0\r\n\r\n",
    )?;
    assert_eq!(rt;
        (connection.phase, connection.tcb.state()),
        (Phase::Ends, State::FinWait1)
    );
    Ok(())
}

/// A request that comes in two segments, and one that is the last of its connection.
#[test]
fn pages(rt: HostRuntime) -> Result<(), Fail> {
    let site = site(&rt, rt.alloc())?;
    let mut connection = open(&rt, &site, rt.alloc(), 1000)?;
    half(&rt, &site, &mut connection, rt.alloc())?;
    whole(&rt, &site, &mut connection, rt.alloc())?;
    last(&rt, &site, &mut connection, rt.alloc())
}
