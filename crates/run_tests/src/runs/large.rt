//! Runs at the limits, over inputs that are too large for rows: each is built in memory.

use crate::runs::{Ended, HEADER, S, Sent, ends_over, push, run};
use sq_base::{MemSink, Status};
use std::alloc::{AllocError, Global};
use std::process::Abort;
use std::sync::Wait;
use std::test::Fail;
use std::thread::Threads;

/// What a run over a large input ends with, what it writes, and what it tells.
type Wanted = (Status, &'static str, &'static str);

fn expect(rt: &impl Abort, words: &str, ended: &Ended, wanted: &Wanted) {
    let &(status, out, told) = wanted;
    assert_eq!(rt; ended.ran, (status, status == Status::Ok), "{words}");
    assert_eq!(rt; ended.ends.out.bytes(), out.as_bytes(), "{words}");
    assert_eq!(rt; ended.ends.err.bytes(), told.as_bytes(), "{words}");
}

fn expect_run(
    rt: &(impl Abort + Threads + Wait + Sync),
    alloc: Global,
    words: &str,
    input: &[u8],
    wanted: &Wanted,
) -> Result<(), AllocError> {
    let ended = run(rt, alloc, words, ends_over(alloc, input)?)?;
    expect(rt, words, &ended, wanted);
    Ok(())
}

/// What an input begins with, and how long it is with the zeros behind that; and what a run over it gives.
type Zeros = (&'static [u8], usize, Wanted);

const MOST: &str = concat!(
    "report 1\n",
    "records 1048576 tail 0 served 0 nofit 0 server 0 other 0 fragment 0 cut 1048576 malformed 0 badsum 0 connections 0\n",
    "done\n",
);

/// 1,048,576 records without a body, and a byte more.
const RECORDS: [Zeros; 2] = [
    (&HEADER, 16_777_240, (Status::Ok, MOST, "")),
    (
        &HEADER,
        16_777_241,
        (
            Status::TooLarge,
            "",
            "sqrun: too large: more than 1048576 records\n",
        ),
    ),
];

/// As many bytes as may be, and one more.
const SIZES: [Zeros; 2] = [
    (
        &[],
        67_108_864,
        (
            Status::BadCapture,
            "",
            "sqrun: bad capture: magic 00000000\n",
        ),
    ),
    (
        &[],
        67_108_865,
        (
            Status::TooLarge,
            "",
            "sqrun: too large: more than 67108864 bytes\n",
        ),
    ),
];

fn expect_zeros(
    rt: &(impl Abort + Threads + Wait + Sync),
    alloc: Global,
    zeros: &Zeros,
) -> Result<(), AllocError> {
    let &(header, len, wanted) = zeros;
    let mut file = Vec::from_slice(alloc, header)?;
    file.resize(len, 0)?;
    expect_run(rt, alloc, "", file.as_slice(), &wanted)
}

#[test]
fn record_limits(rt: HostRuntime) -> Result<(), Fail> {
    for zeros in &RECORDS {
        expect_zeros(&rt, rt.alloc(), zeros)?;
    }
    Ok(())
}

/// Where what is wrong can't be told, the status is the same.
#[test]
fn record_limit_untold(rt: HostRuntime) -> Result<(), Fail> {
    let mut file = Vec::from_slice(rt.alloc(), &HEADER)?;
    file.resize(16_777_241, 0)?;
    let mut ends = ends_over(rt.alloc(), file.as_slice())?;
    ends.err = MemSink::make(rt.alloc(), 1000, 1000, &[0])?;
    let ended = run(&rt, rt.alloc(), "", ends)?;
    expect(&rt, "untold", &ended, &(Status::TooLarge, "", ""));
    Ok(())
}

#[test]
fn size_limit(rt: HostRuntime) -> Result<(), Fail> {
    for zeros in &SIZES {
        expect_zeros(&rt, rt.alloc(), zeros)?;
    }
    Ok(())
}

const SYN: Sent<'static> = (0, S, 100, 0, 4096, b"");

/// As many SYNs of one connection as there may be records.
fn most_syns(alloc: Global) -> Result<Vec<u8>, AllocError> {
    let mut file = Vec::from_slice(alloc, &HEADER)?;
    for _ in 0..1_048_576u32 {
        push(&mut file, 4000, &SYN)?;
    }
    Ok(file)
}

/// A ring brings 1,048,577 feeds and moves after each but the last.
const LONG_TRACE: Wanted = (
    Status::TooLarge,
    "",
    "sqrun: too large: trace of 67109000 marks\n",
);

#[test]
fn trace_too_large(rt: HostRuntime) -> Result<(), Fail> {
    let file = most_syns(rt.alloc())?;
    let words =
        "--trace|--squeues|2|--spread|1|0:0:status|0:0:status|0:0:status|0:0:status|0:0:status";
    expect_run(&rt, rt.alloc(), words, file.as_slice(), &LONG_TRACE)?;
    Ok(())
}

const GENERATED: Wanted = (
    Status::Ok,
    "generated 7 bytes 10256024 records 100000 connections 1000 replies 98000 octets 2328000 check f9dc5c54f3714d26\n",
    "",
);

/// Words that make no difference to the generated capture.
const SETUPS: [&str; 2] = [
    "--gen=7|--squeues=16|--rings=8|--mode=nodrain|--budget=3|--spread=5",
    "--gen=7|--verify",
];

#[test]
fn generated_capture_alone(rt: HostRuntime) -> Result<(), Fail> {
    expect_run(&rt, rt.alloc(), "--gen|7", &[], &GENERATED)?;
    Ok(())
}

#[test]
fn generated_capture(rt: HostRuntime) -> Result<(), Fail> {
    for words in SETUPS {
        expect_run(&rt, rt.alloc(), words, &[], &GENERATED)?;
    }
    Ok(())
}
