//! One datagram. What bytes are read as and written stands as rows of `cases_library`.

use sq_base::{Addr, Link};
use std::alloc::Global;
use std::process::Abort;
use std::test::Fail;
use udp_codec::{Udp, decode_udp};

/// An empty datagram of 10.0.0.1:5000 to 10.0.0.2:7 as it may be captured, without sums.
const EMPTY: [u8; 28] = [
    0x45, 0, 0, 28, 0, 0, 0x40, 0, 0x40, 17, 0, 0, 10, 0, 0, 1, 10, 0, 0, 2, // IPv4
    0x13, 0x88, 0, 7, 0, 8, 0, 0, // UDP
];

/// Some bytes, then the empty datagram with changes at places of its own, then so many zero bytes.
fn captured(
    alloc: Global,
    before: &[u8],
    changes: &[(usize, u8)],
    behind: usize,
) -> Result<Vec<u8>, Fail> {
    let mut empty = EMPTY;
    for &(at, byte) in changes {
        if let Some(place) = empty.get_mut(at) {
            *place = byte;
        }
    }
    let mut bytes = Vec::from_slice(alloc, before)?;
    bytes.extend_from_slice(&empty)?;
    for _ in 0..behind {
        bytes.push(0)?;
    }
    Ok(bytes)
}

fn udp_at(text_from: u32, text_len: u32) -> Udp {
    Udp {
        src: Addr(0x0a00_0001),
        src_port: 5000,
        dst: Addr(0x0a00_0002),
        dst_port: 7,
        text_from,
        text_len,
    }
}

fn decoded(
    rt: &impl Abort,
    alloc: Global,
    link: Link,
    before: &[u8],
    changes: &[(usize, u8)],
    behind: usize,
) -> Result<Option<Udp>, Fail> {
    let body = captured(alloc, before, changes, behind)?;
    assert!(rt; body.len() < 100_000);
    Ok(decode_udp(link, body.as_slice()))
}

/// A datagram of one byte, and the same with the length of none of the UDP header's.
#[test]
fn one_byte(rt: HostRuntime) -> Result<(), Fail> {
    let whole = decoded(&rt, rt.alloc(), Link::RawIp, &[], &[(3, 29), (25, 9)], 1)?;
    assert_eq!(rt; whole, Some(udp_at(28, 1)));
    let short = decoded(&rt, rt.alloc(), Link::RawIp, &[], &[(3, 29), (25, 7)], 1)?;
    assert_eq!(rt; short, None);
    Ok(())
}
