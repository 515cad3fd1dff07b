//! One file. What else files are read as stands as rows of `cases_library`.

use capture_reader::{Capture, Record};
use pcapng_reader::{PcapngFault, parse_pcapng};
use sq_base::{Link, Octets};
use std::alloc::Global;
use std::process::Abort;
use std::test::Fail;

/// A section in low order, an interface of raw IP whose times are seconds, and an empty packet at 7 s.
const SECONDS: [u8; 92] = [
    0x0a, 0x0d, 0x0d, 0x0a, 28, 0, 0, 0, 0x4d, 0x3c, 0x2b, 0x1a, 1, 0, 0, 0, 0xff, 0xff, 0xff,
    0xff, 0xff, 0xff, 0xff, 0xff, 28, 0, 0, 0, // section
    1, 0, 0, 0, 32, 0, 0, 0, 101, 0, 0, 0, 0, 0, 4, 0, 9, 0, 1, 0, 0, 0, 0, 0, 0, 0, 0, 0, 32, 0,
    0, 0, // interface
    6, 0, 0, 0, 32, 0, 0, 0, 0, 0, 0, 0, 0, 0, 0, 0, 7, 0, 0, 0, 0, 0, 0, 0, 0, 0, 0, 0, 32, 0, 0,
    0,
];

/// What a file of at least four bytes is.
fn parsed(rt: &impl Abort, alloc: Global, bytes: Vec<u8>) -> Result<Capture, PcapngFault> {
    assert!(rt; bytes.len() <= 67_108_864);
    assert!(rt; bytes.as_slice().starts_with(&[0x0a, 0x0d, 0x0d, 0x0a]));
    parse_pcapng(alloc, Octets::wrap(bytes))
}

#[test]
fn seconds(rt: HostRuntime) -> Result<(), Fail> {
    let capture = parsed(&rt, rt.alloc(), Vec::from_slice(rt.alloc(), &SECONDS)?)?;
    assert_eq!(rt; (capture.link(), capture.cut_tail()), (Link::RawIp, false));
    assert!(rt; capture.len() == 1);
    let packet = Record {
        at: 7_000_000,
        from: 88,
        len: 0,
    };
    assert_eq!(rt; capture.rec(0), packet);
    Ok(())
}
