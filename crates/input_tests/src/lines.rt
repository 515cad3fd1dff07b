//! A capture in lines, and lines that mean nothing.

use case_rows::{RowFault, bytes_of, spelled};

/// A capture in lines: a segment with options, one with text, a datagram, and one that is cut.
const LINES: [&str; 7] = [
    "pcap",
    "0 S 100 0 4096 options 03030700",
    "2000 PA 101 501 4096 \"hello\"",
    "from 10.0.0.1:5000",
    "130000000 udp hex 6869",
    "zeros 3",
    "front 191",
];

/// Its bytes.
const BYTES: &str = concat!(
    "d4c3b2a10200040000000000000000000000040065000000",
    "00000000000000002c0000002c0000004500002c00004000400600000a0000010a0000020fa000070000006400000000600210000000000003030700",
    "00000000d00700002d0000002d0000004500002d00004000400600000a0000010a0000020fa0000700000065000001f5501810000000000068656c6c6f",
    "82000000000000001e0000001e0000004500001e00004000401100000a0000010a00000213880007000a00006869",
);

#[test]
fn a_capture_in_lines(rt: HostRuntime) {
    let (Ok(wanted), Ok(bytes)) = (spelled(rt.alloc(), BYTES), bytes_of(rt.alloc(), &LINES)) else {
        panic!(rt; "the lines aren't read")
    };
    assert_eq!(rt; bytes.as_slice(), wanted.as_slice());
}

/// Lines that aren't read.
const UNREAD: [&str; 9] = [
    "",
    "pcap x",
    "hex 0",
    "0 S 100 0",
    "0 S 100 0 65536",
    "0 X 100 0 4096",
    "0 S 100 0 4096 hello",
    "from 10.0.0:1",
    "repeat 2 repeat 2 zeros 1",
];

#[test]
fn lines_that_are_not_read(rt: HostRuntime) {
    for line in UNREAD {
        let bytes = bytes_of(rt.alloc(), &[line]);
        assert!(rt; matches!(bytes, Err(RowFault::Told(_))), "{line}");
    }
}
