//! A capture that is put together, and sources. What files are read as stands as rows of `cases_library`.

use capture_reader::{Capture, CaptureFault, Record, parse_capture, read_capture};
use sq_base::{Failed, Link, MemSource, Octets, Source};
use std::alloc::Global;
use std::test::Fail;

/// A file without packets: little-endian, microseconds, raw IP.
const EMPTY: [u8; 24] = [
    0xd4, 0xc3, 0xb2, 0xa1, 2, 0, 4, 0, 0, 0, 0, 0, 0, 0, 0, 0, 0, 0, 0, 0, 101, 0, 0, 0,
];

#[test]
fn a_capture_of_records_in_other_places(rt: HostRuntime) -> Result<(), Fail> {
    let bytes = Octets::of(rt.alloc(), b"0123456789")?;
    let (early, late) = (
        Record {
            at: 7,
            from: 8,
            len: 2,
        },
        Record {
            at: 5,
            from: 10,
            len: 0,
        },
    );
    let capture = Capture::make(rt.alloc(), Link::Cooked, bytes, &[early, late], true)?;
    assert_eq!(rt; (capture.len(), capture.last_time()), (2, 7));
    assert_eq!(rt; (capture.rec(0), capture.rec(1)), (early, late));
    assert_eq!(rt; capture.body(0), b"89".as_slice());
    assert_eq!(rt; capture.link(), Link::Cooked);
    assert!(rt; capture.cut_tail());
    Ok(())
}

/// Zero bytes without an end.
#[derive(Drop)]
struct Zeros;

impl Source for Zeros {
    ghost read_faults = { λ _. 0 };

    fn read(&mut self, buf: &mut [u8]) -> Result<usize, Failed> {
        Ok(buf.len())
    }
}

/// How many packets a source of the bytes gives, with these reads failing.
fn read_packets(
    alloc: Global,
    bytes: &[u8],
    failing: &[u64],
) -> Result<Result<u32, CaptureFault>, Fail> {
    let mut source = MemSource::make(alloc, bytes, 100, failing)?;
    Ok(read_capture(alloc, &mut source).map(|it| it.len()))
}

/// The second call finds the end, and there is no further one.
#[test]
fn sources_that_fail(rt: HostRuntime) -> Result<(), Fail> {
    for k in 0..2 {
        let read = read_packets(rt.alloc(), &EMPTY, &[k])?;
        assert_eq!(rt; read, Err(CaptureFault::Read), "read {k}");
    }
    assert_eq!(rt; read_packets(rt.alloc(), &EMPTY, &[2])?, Ok(0));
    Ok(())
}

#[test]
fn sources_that_are_too_large(rt: HostRuntime) -> Result<(), Fail> {
    let endless = read_capture(rt.alloc(), &mut Zeros);
    assert_eq!(rt; endless.err(), Some(CaptureFault::TooLarge(67_108_865)));
    let zeros = vec![in rt.alloc(); 0u8; 67_108_866]?;
    let large = parse_capture(rt.alloc(), Octets::wrap(zeros));
    assert_eq!(rt; large.err(), Some(CaptureFault::TooLarge(67_108_866)));
    Ok(())
}
