//! As many connections as may be, and ports that a caller gives. What captures are planned as stands as rows of `cases_library`.

use capture_reader::{Capture, parse_capture};
use conn_classifier::{Ports, Rules, plan, plan_with};
use sq_base::{Addr, Octets, Tuple};
use std::alloc::{AllocError, AllocGlobal, Global};
use std::process::Abort;
use std::test::Fail;
use std::thread::Threads;

/// The header of a capture file: little-endian, microseconds, raw IP.
const HEADER: [u8; 24] = [
    0xd4, 0xc3, 0xb2, 0xa1, 2, 0, 4, 0, 0, 0, 0, 0, 0, 0, 0, 0, 0, 0, 0, 0, 101, 0, 0, 0,
];

/// What stands in a record between its time and the ports: the two lengths, and 20 bytes of an IP header without a sum.
const BEFORE_PORTS: [u8; 28] = [
    41, 0, 0, 0, 41, 0, 0, 0, 0x45, 0, 0, 41, 0, 0, 0x40, 0, 0x40, 6, 0, 0, 10, 0, 0, 1, 10, 0, 0,
    2,
];

const SYN: u8 = 2;

const ACK: u8 = 16;

/// A segment from 10.0.0.1 to 10.0.0.2: time in microseconds, the ports, flags, sequence number, acknowledgement number, and
/// the one byte of its text.
type Row = (u32, u16, u16, u8, u32, u32, u8);

/// Pieces, one behind another.
fn add_all(bytes: &mut Vec<u8>, pieces: &[&[u8]]) -> Result<(), AllocError> {
    for piece in pieces {
        bytes.extend_from_slice(piece)?;
    }
    Ok(())
}

/// One more record: a datagram of 41 bytes without sums.
fn add(bytes: &mut Vec<u8>, row: &Row) -> Result<(), AllocError> {
    let &(at, from, to, flags, seq, ack, text) = row;
    add_all(
        bytes,
        &[
            &[0; 4],
            &at.to_le_bytes(),
            &BEFORE_PORTS,
            &from.to_be_bytes(),
            &to.to_be_bytes(),
            &seq.to_be_bytes(),
            &ack.to_be_bytes(),
            &[0x50, flags, 16, 0, 0, 0, 0, 0, text],
        ],
    )
}

fn read(alloc: Global, bytes: Vec<u8>) -> Result<Capture, Fail> {
    Ok(parse_capture(alloc, Octets::wrap(bytes))?)
}

/// 4,099 records: of 4,097 connections, the first and the last with two segments each.
fn add_one_too_many(bytes: &mut Vec<u8>) -> Result<(), AllocError> {
    for i in 0..4097u16 {
        add(bytes, &(0, 1000 + i, 7, SYN, 100, 0, b'a'))?;
    }
    add(bytes, &(0, 1000, 7, ACK, 101, 501, b'a'))?;
    add(bytes, &(0, 5096, 7, ACK, 101, 501, b'a'))
}

/// A capture of these records.
fn one_too_many(alloc: Global) -> Result<Capture, Fail> {
    let mut bytes = Vec::from_slice(alloc, &HEADER)?;
    add_one_too_many(&mut bytes)?;
    read(alloc, bytes)
}

/// The ends of the last connection that fits.
const LAST: Tuple = Tuple {
    client: Addr(0x0a00_0001),
    client_port: 5095,
    server: Addr(0x0a00_0002),
    server_port: 7,
};

/// So many connections fit, and two of the records have no place.
fn expect_full(
    rt: &(impl Threads + Sync + Abort + AllocGlobal),
    capture: &Capture,
) -> Result<(), AllocError> {
    let last = LAST;
    let plan = plan(&rt, rt.alloc(), &capture, false)?;
    assert_eq!(rt; plan.conns(), 4096);
    let counts = plan.counts();
    assert_eq!(rt;
        (counts.records, counts.served, counts.nofit),
        (4099, 4097, 2)
    );
    assert_eq!(rt; plan.tuple(4095), last);
    assert_eq!(rt; plan.items(0), 3);
    Ok(())
}

#[test]
fn connection_limit(rt: HostRuntime) -> Result<(), Fail> {
    let capture = one_too_many(rt.alloc())?;
    expect_full(&rt, &capture)?;
    Ok(())
}

/// To and from ports that no well-known service has, and to one that has.
fn to_other_ports(alloc: Global) -> Result<Capture, Fail> {
    let mut bytes = Vec::from_slice(alloc, &HEADER)?;
    add(&mut bytes, &(0, 1000, 7000, SYN, 100, 0, b'a'))?;
    add(&mut bytes, &(0, 1001, 9000, SYN, 100, 0, b'a'))?;
    add(&mut bytes, &(0, 9000, 1001, ACK, 100, 101, b'a'))?;
    add(&mut bytes, &(0, 1002, 7, SYN, 100, 0, b'a'))?;
    read(alloc, bytes)
}

/// The ports of the rules are served, and no others.
fn expect_ports(
    rt: &(impl Threads + Sync + Abort + AllocGlobal),
    capture: &Capture,
) -> Result<(), AllocError> {
    let ports = Ports {
        echo: 7000,
        discard: 9000,
    };
    let rules = Rules {
        verify: false,
        ports,
    };
    let plan = plan_with(&rt, rt.alloc(), capture, rules)?;
    assert_eq!(rt; plan.ports(), ports);
    assert_eq!(rt; plan.conns(), 2);
    let counts = plan.counts();
    assert_eq!(rt; (counts.served, counts.server, counts.other), (2, 1, 1));
    assert!(rt; ports.is_served(plan.tuple(1).server_port));
    Ok(())
}

#[test]
fn ports_of_the_rules(rt: HostRuntime) -> Result<(), Fail> {
    let capture = to_other_ports(rt.alloc())?;
    expect_ports(&rt, &capture)?;
    Ok(())
}
