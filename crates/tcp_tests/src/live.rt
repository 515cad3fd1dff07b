//! Two clients at a server with one place. The initial sequence numbers are those of an implementation of SHA-256 elsewhere.

use live_server::{Datagram, NO_PORTS, PLAIN_PORTS, Ports, Secret, Server, Setting, USUAL_MARKING};
use segment_codec::{Packet, Seg, decode};
use sq_base::{Addr, Link};
use std::alloc::{AllocError, Global};
use std::process::Abort;
use std::test::Fail;

const SECRET: Secret = Secret([0, 1, 2, 3, 4, 5, 6, 7, 8, 9, 10, 11, 12, 13, 14, 15]);

/// One place at 10.9.0.2.
const SETTING: Setting = Setting {
    address: Addr(0x0a09_0002),
    broadcast: Addr(0x0a09_00ff),
    places: 1,
    idle: 7_200_000_000,
    bytes: 1 << 28,
    segment: 1460,
    marking: USUAL_MARKING,
    pings: 1000,
    ports: PLAIN_PORTS,
    site: None,
    host: None,
};

/// SYNs of 10.9.0.1, ports 40000 and 40001, to 10.9.0.2, port 7, with both sums.
const SYNS: [[u8; 40]; 2] = [
    [
        0x45, 0, 0, 0x28, 0, 0, 0x40, 0, 0x40, 6, 0x26, 0xbc, 10, 9, 0, 1, 10, 9, 0, 2, 0x9c, 0x40,
        0, 7, 0, 0, 0, 100, 0, 0, 0, 0, 0x50, 2, 0x10, 0, 0xef, 0x22, 0, 0,
    ],
    [
        0x45, 0, 0, 0x28, 0, 0, 0x40, 0, 0x40, 6, 0x26, 0xbc, 10, 9, 0, 1, 10, 9, 0, 2, 0x9c, 0x41,
        0, 7, 0, 0, 0, 100, 0, 0, 0, 0, 0x50, 2, 0x10, 0, 0xef, 0x21, 0, 0,
    ],
];

/// A reset of what the first of them opened.
const RESET: [u8; 40] = [
    0x45, 0, 0, 0x28, 0, 0, 0x40, 0, 0x40, 6, 0x26, 0xbc, 10, 9, 0, 1, 10, 9, 0, 2, 0x9c, 0x40, 0,
    7, 0, 0, 0, 0x65, 0, 0, 0, 0, 0x50, 4, 0x10, 0, 0xef, 0x1f, 0, 0,
];

/// 29 November 2026, 13:07:42, and some microseconds.
const BEGUN: u64 = 1_795_957_662_123_456;

/// The acknowledgement of what a SYN of 10.9.0.1, port 40000, is answered by then.
const ACKNOWLEDGED: [u8; 40] = [
    0x45, 0, 0, 0x28, 0, 0, 0x40, 0, 0x40, 6, 0x26, 0xbc, 10, 9, 0, 1, 10, 9, 0, 2, 0x9c, 0x40, 0,
    7, 0, 0, 0, 0x65, 0x86, 0xb3, 0xeb, 0x0b, 0x50, 0x10, 0x10, 0, 0x7d, 0x54, 0, 0,
];

/// What is sent where the services have these ports, and a connection to port 7 is opened.
fn opened(alloc: Global, ports: Ports) -> Result<Vec<Datagram>, AllocError> {
    let mut server = Server::new(alloc, Setting { ports, ..SETTING }, SECRET);
    let mut sent = Vec::new(alloc);
    server.datagram(alloc, BEGUN, &SYNS[0], &mut sent)?;
    server.datagram(alloc, BEGUN, &ACKNOWLEDGED, &mut sent)?;
    Ok(sent)
}

/// The segment of the last datagram.
fn last_of(rt: &impl Abort, sent: &[Datagram]) -> Option<Seg> {
    let last = sent.last()?.bytes.as_slice();
    assert!(rt; last.len() < 65_536);
    match decode(Link::RawIp, last, true) {
        Packet::Segment(seg) => Some(seg),
        _ => None,
    }
}

#[test]
fn one_place(rt: HostRuntime) -> Result<(), Fail> {
    let mut server = Server::new(rt.alloc(), SETTING, SECRET);
    let mut sent = Vec::new(rt.alloc());
    server.datagram(rt.alloc(), 1_000_000, &SYNS[0], &mut sent)?;
    let answer = last_of(&rt, &sent).ok_or("no answer")?;
    assert_eq!(rt;
        (answer.flags, answer.seq, answer.ack),
        (18, 135_846_442, 101)
    );
    server.tick(rt.alloc(), 1_999_999, &mut sent)?;
    assert_eq!(rt; sent.len(), 1);
    server.tick(rt.alloc(), 2_000_000, &mut sent)?;
    assert_eq!(rt; sent.len(), 2);
    // The half-open one gives way to the next, and that one's retransmissions alone go on.
    server.datagram(rt.alloc(), 2_000_001, &SYNS[1], &mut sent)?;
    let answer = last_of(&rt, &sent).ok_or("no answer")?;
    assert_eq!(rt;
        (answer.dst_port, answer.flags, answer.ack),
        (40001, 18, 101)
    );
    server.tick(rt.alloc(), 3_000_001, &mut sent)?;
    assert_eq!(rt; (sent.len(), server.counts().gave_way), (4, 1));
    Ok(())
}

#[test]
fn own_age(rt: HostRuntime) -> Result<(), Fail> {
    let setting = Setting {
        places: 2,
        ..SETTING
    };
    let mut server = Server::new(rt.alloc(), setting, SECRET);
    let mut sent = Vec::new(rt.alloc());
    server.datagram(rt.alloc(), 1_000_000, &SYNS[0], &mut sent)?;
    server.datagram(rt.alloc(), 1_000_001, &RESET, &mut sent)?;
    assert_eq!(rt; server.connections(), 0);
    // It comes again. The next one finds two entries of its ends, and the first of them is not its own.
    server.datagram(rt.alloc(), 1_000_002, &SYNS[0], &mut sent)?;
    server.datagram(rt.alloc(), 1_000_003, &SYNS[1], &mut sent)?;
    assert_eq!(rt; (server.connections(), server.counts().gave_way), (2, 0));
    Ok(())
}

#[test]
fn half_open_for_three_minutes(rt: HostRuntime) -> Result<(), Fail> {
    let mut server = Server::new(rt.alloc(), SETTING, SECRET);
    let mut sent = Vec::new(rt.alloc());
    server.datagram(rt.alloc(), 1_000_000, &SYNS[0], &mut sent)?;
    server.tick(rt.alloc(), 180_999_999, &mut sent)?;
    assert_eq!(rt; (server.connections(), server.counts().left), (1, 0));
    server.tick(rt.alloc(), 181_000_000, &mut sent)?;
    assert_eq!(rt; (server.connections(), server.counts().left), (0, 1));
    Ok(())
}

#[test]
fn daytime_at_port_seven(rt: HostRuntime) -> Result<(), Fail> {
    let sent = opened(
        rt.alloc(),
        Ports {
            daytime: 7,
            ..NO_PORTS
        },
    )?;
    let last = last_of(&rt, &sent).ok_or("no answer")?;
    assert_eq!(rt; (sent.len(), last.flags & 1, last.text_len), (3, 1, 0));
    let line = sent.get(1).ok_or("no line")?;
    assert!(rt;
        line.bytes
            .as_slice()
            .ends_with(b"2026-11-29 13:07:42 UTC\r\n")
    );
    Ok(())
}

#[test]
fn chargen_at_port_seven(rt: HostRuntime) -> Result<(), Fail> {
    let sent = opened(
        rt.alloc(),
        Ports {
            discard: 9,
            chargen: 7,
            ..NO_PORTS
        },
    )?;
    let last = last_of(&rt, &sent).ok_or("no answer")?;
    assert!(rt; sent.len() > 1 && last.text_len > 0 && last.flags & 1 == 0);
    let pattern = sent.get(1).ok_or("no pattern")?;
    assert!(rt; pattern.bytes.as_slice().ends_with(b"MNOPQRSTUVWXYZ[\\"));
    Ok(())
}

#[test]
fn nobody_at_port_seven(rt: HostRuntime) -> Result<(), Fail> {
    let mut server = Server::new(
        rt.alloc(),
        Setting {
            ports: NO_PORTS,
            ..SETTING
        },
        SECRET,
    );
    let mut sent = Vec::new(rt.alloc());
    server.datagram(rt.alloc(), BEGUN, &SYNS[0], &mut sent)?;
    let answer = last_of(&rt, &sent).ok_or("no answer")?;
    assert_eq!(rt; (answer.flags & 4, server.counts().refused), (4, 1));
    Ok(())
}
