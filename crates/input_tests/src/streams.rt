//! One stream of each service. What else captures are planned as stands as rows of `cases_library`.

use capture_reader::{Capture, parse_capture};
use sq_base::{Addr, Octets, Tuple};
use std::test::Fail;
use stream_plan::{Counts, more_plan};

/// The header of a capture file: little-endian, microseconds, raw IP.
const HEADER: [u8; 24] = [
    0xd4, 0xc3, 0xb2, 0xa1, 2, 0, 4, 0, 0, 0, 0, 0, 0, 0, 0, 0, 0, 0, 0, 0, 101, 0, 0, 0,
];

const UDP: u8 = 17;

const TCP: u8 = 6;

/// A datagram from 10.0.0.1 to 10.0.0.2, without sums: time in microseconds, protocol, ports, and for TCP the flags, sequence
/// number and acknowledgement number.
type Row = (u32, u8, u16, u16, u8, u32, u32);

/// One more record.
fn add(bytes: &mut Vec<u8>, row: &Row) -> Result<(), Fail> {
    let &(at, protocol, from, to, flags, seq, ack) = row;
    let len = if protocol == UDP { 28u8 } else { 40 };
    bytes.extend_from_slice(&0u32.to_le_bytes())?;
    bytes.extend_from_slice(&at.to_le_bytes())?;
    bytes.extend_from_slice(&[len, 0, 0, 0, len, 0, 0, 0])?;
    bytes.extend_from_slice(&[0x45, 0, 0, len, 0, 0, 0x40, 0, 0x40, protocol, 0, 0])?;
    bytes.extend_from_slice(&[10, 0, 0, 1, 10, 0, 0, 2])?;
    bytes.extend_from_slice(&from.to_be_bytes())?;
    bytes.extend_from_slice(&to.to_be_bytes())?;
    if protocol == UDP {
        bytes.extend_from_slice(&[0, 8, 0, 0])?;
    } else {
        bytes.extend_from_slice(&seq.to_be_bytes())?;
        bytes.extend_from_slice(&ack.to_be_bytes())?;
        bytes.extend_from_slice(&[0x50, flags, 16, 0, 0, 0, 0, 0])?;
    }
    Ok(())
}

fn captured(rt: &HostRuntime, rows: &[Row]) -> Result<Capture, Fail> {
    let mut bytes = Vec::from_slice(rt.alloc(), &HEADER)?;
    for row in rows {
        add(&mut bytes, row)?;
    }
    Ok(parse_capture(rt.alloc(), Octets::of(rt.alloc(), &bytes)?)?)
}

fn stream_to(server_port: u16) -> Tuple {
    Tuple {
        client: Addr(0x0a00_0001),
        client_port: 5000,
        server: Addr(0x0a00_0002),
        server_port,
    }
}

/// One stream of each service, and records that aren't served.
#[test]
fn streams_and_items(rt: HostRuntime) -> Result<(), Fail> {
    let rows = [
        (50, UDP, 5000, 7, 0, 0, 0),
        (40, UDP, 5000, 9, 0, 0, 0),
        (60, TCP, 5000, 19, 2, 100, 0),
        (30, UDP, 5000, 7, 0, 0, 0),
        (70, TCP, 5000, 19, 16, 101, 501),
        (80, UDP, 5000, 19, 0, 0, 0),
        (90, TCP, 5000, 7, 2, 100, 0),
    ];
    let capture = captured(&rt, &rows)?;
    let plan = more_plan(rt.alloc(), &capture)?;
    let counts = Counts {
        served: 5,
        nofit: 0,
        other: 2,
    };
    assert_eq!(rt; plan.counts(), counts);
    assert!(rt; plan.streams() == 3);
    assert_eq!(rt; plan.stream(0).tuple(), stream_to(7));
    assert_eq!(rt; plan.stream(1).tuple(), stream_to(9));
    assert_eq!(rt; plan.stream(2).tuple(), stream_to(19));
    Ok(())
}
