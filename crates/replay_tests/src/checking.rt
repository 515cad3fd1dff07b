//! Two replays over memory at a limit of the input's size that is set lower (`replay_within`), and one as it is called. All other
//! whole replays are rows of `cases_programs`. What is expected comes from an independent model.

use sq_base::{MemSink, MemSource};
use std::alloc::{AllocError, Global};
use std::process::Abort;
use std::test::Fail;
use std::thread::Threads;
use trace_replay::{Replayed, replay_run, replay_within};

/// A capture of one short echo session, five segments.
const CAPTURE: [u8; 309] = [
    0xd4, 0xc3, 0xb2, 0xa1, 0x02, 0x00, 0x04, 0x00, 0x00, 0x00, 0x00, 0x00, 0x00, 0x00, 0x00, 0x00,
    0x00, 0x00, 0x04, 0x00, 0x65, 0x00, 0x00, 0x00, 0x00, 0x00, 0x00, 0x00, 0x00, 0x00, 0x00, 0x00,
    0x28, 0x00, 0x00, 0x00, 0x28, 0x00, 0x00, 0x00, 0x45, 0x00, 0x00, 0x28, 0x00, 0x00, 0x40, 0x00,
    0x40, 0x06, 0x00, 0x00, 0x0a, 0x00, 0x00, 0x01, 0x0a, 0x00, 0x00, 0x02, 0x0f, 0xa0, 0x00, 0x07,
    0x00, 0x00, 0x00, 0x64, 0x00, 0x00, 0x00, 0x00, 0x50, 0x02, 0x10, 0x00, 0x00, 0x00, 0x00, 0x00,
    0x00, 0x00, 0x00, 0x00, 0xe8, 0x03, 0x00, 0x00, 0x28, 0x00, 0x00, 0x00, 0x28, 0x00, 0x00, 0x00,
    0x45, 0x00, 0x00, 0x28, 0x00, 0x00, 0x40, 0x00, 0x40, 0x06, 0x00, 0x00, 0x0a, 0x00, 0x00, 0x01,
    0x0a, 0x00, 0x00, 0x02, 0x0f, 0xa0, 0x00, 0x07, 0x00, 0x00, 0x00, 0x65, 0x00, 0x00, 0x01, 0xf5,
    0x50, 0x10, 0x10, 0x00, 0x00, 0x00, 0x00, 0x00, 0x00, 0x00, 0x00, 0x00, 0xd0, 0x07, 0x00, 0x00,
    0x2d, 0x00, 0x00, 0x00, 0x2d, 0x00, 0x00, 0x00, 0x45, 0x00, 0x00, 0x2d, 0x00, 0x00, 0x40, 0x00,
    0x40, 0x06, 0x00, 0x00, 0x0a, 0x00, 0x00, 0x01, 0x0a, 0x00, 0x00, 0x02, 0x0f, 0xa0, 0x00, 0x07,
    0x00, 0x00, 0x00, 0x65, 0x00, 0x00, 0x01, 0xf5, 0x50, 0x18, 0x10, 0x00, 0x00, 0x00, 0x00, 0x00,
    0x68, 0x65, 0x6c, 0x6c, 0x6f, 0x00, 0x00, 0x00, 0x00, 0xb8, 0x0b, 0x00, 0x00, 0x28, 0x00, 0x00,
    0x00, 0x28, 0x00, 0x00, 0x00, 0x45, 0x00, 0x00, 0x28, 0x00, 0x00, 0x40, 0x00, 0x40, 0x06, 0x00,
    0x00, 0x0a, 0x00, 0x00, 0x01, 0x0a, 0x00, 0x00, 0x02, 0x0f, 0xa0, 0x00, 0x07, 0x00, 0x00, 0x00,
    0x6a, 0x00, 0x00, 0x01, 0xfa, 0x50, 0x11, 0x10, 0x00, 0x00, 0x00, 0x00, 0x00, 0x00, 0x00, 0x00,
    0x00, 0xa0, 0x0f, 0x00, 0x00, 0x28, 0x00, 0x00, 0x00, 0x28, 0x00, 0x00, 0x00, 0x45, 0x00, 0x00,
    0x28, 0x00, 0x00, 0x40, 0x00, 0x40, 0x06, 0x00, 0x00, 0x0a, 0x00, 0x00, 0x01, 0x0a, 0x00, 0x00,
    0x02, 0x0f, 0xa0, 0x00, 0x07, 0x00, 0x00, 0x00, 0x6b, 0x00, 0x00, 0x01, 0xfb, 0x50, 0x10, 0x10,
    0x00, 0x00, 0x00, 0x00, 0x00,
];

/// A right report of it with its marks, line by line.
const LINES: &[&str] = &[
    "report 2",
    "records 5 tail 0 served 5 nofit 0 server 0 other 0 fragment 0 cut 0 malformed 0 badsum 0 connections 1",
    "conn 0 10.0.0.1:4000 10.0.0.2:7 echo",
    "order f0-5",
    "reply 0 4500002c00004000400626ca0a0000020a00000100070fa0000001f4000000656012ffff72140000020405b4",
    "reply 2000 4500002d00004000400626c90a0000020a00000100070fa0000001f50000006a5018ffff45ed000068656c6c6f",
    "reply 3000 4500002800004000400626ce0a0000020a00000100070fa0000001fa0000006b5011ffff89c50000",
    "end LISTEN",
    "setup squeues 1 rings 1 mode process budget 6 spread 0 verify 0",
    "squeue 0 marks 7",
    "close 1",
    "close 2",
    "close 3",
    "close 4",
    "claim 0 0.0 0.1 0.2 0.3 0.4 0.5",
    "leave 0 0 none",
    "close 0",
    "done",
];

fn capture() -> &'static [u8] {
    &CAPTURE
}

/// A replay of these bytes; the reads, writes and writes to the error line of these numbers fail.
#[derive(Clone, Copy, Drop)]
struct Given<'a> {
    input: &'a [u8],
    reads: &'a [u64],
    writes: &'a [u64],
    tellings: &'a [u64],
}

/// A replay of these bytes, of which nothing fails.
fn plainly(input: &[u8]) -> Given<'_> {
    Given {
        input,
        reads: &[],
        writes: &[],
        tellings: &[],
    }
}

/// How it ended, and what was written.
#[derive(Drop)]
struct Ended {
    replayed: Replayed,
    out: MemSink,
    err: MemSink,
}

fn replayed(
    rt: &(impl Threads + Sync),
    alloc: Global,
    words: &Vec<String>,
    given: &Given<'_>,
) -> Result<Ended, AllocError> {
    let mut src = MemSource::make(alloc, given.input, 100, given.reads)?;
    let mut out = MemSink::make(alloc, 1000, 4, given.writes)?;
    let mut err = MemSink::make(alloc, 1000, 1000, given.tellings)?;
    let replayed = replay_run(rt, alloc, words.as_slice(), &mut src, &mut out, &mut err);
    Ok(Ended { replayed, out, err })
}

/// How a replay is to end, what is to be written, and what told.
type Wanted<'a> = (Replayed, &'a str, &'a str);

/// What of it isn't as it is wanted, or nothing.
fn difference(ended: &Ended, &(replayed, out, err): &Wanted<'_>) -> &'static str {
    if ended.replayed != replayed {
        return "how it ended";
    }
    if ended.out.bytes() != out.as_bytes() {
        return "what was written";
    }
    if ended.err.bytes() != err.as_bytes() {
        return "what was told";
    }
    ""
}

/// The report, and the capture behind it.
fn whole_input(alloc: Global) -> Result<Vec<u8>, AllocError> {
    let mut input = Vec::new(alloc);
    for line in LINES {
        input.extend_from_slice(line.as_bytes())?;
        input.push(b'\n')?;
    }
    input.extend_from_slice(capture())?;
    Ok(input)
}

#[test]
fn kept_run_replays(rt: HostRuntime) -> Result<(), Fail> {
    let input = whole_input(rt.alloc())?;
    let words = Vec::new(rt.alloc());
    let ended = replayed(&rt, rt.alloc(), &words, &plainly(input.as_slice()))?;
    assert_eq!(rt; difference(&ended, &(Replayed::Yes, "yes\n", "")), "");
    Ok(())
}

/// Replays an input of which at most so many bytes may be there.
fn replayed_within(
    rt: &(impl Threads + Sync + Abort),
    alloc: Global,
    input: &[u8],
    most: usize,
) -> Result<Ended, AllocError> {
    assert!(rt; most <= 1_000_000);
    let mut src = MemSource::make(alloc, input, 100, &[])?;
    let mut out = MemSink::make(alloc, 1000, 4, &[])?;
    let mut err = MemSink::make(alloc, 1000, 1000, &[])?;
    let replayed = replay_within(rt, alloc, &[], &mut src, &mut out, &mut err, most);
    Ok(Ended { replayed, out, err })
}

/// Replays an input of which at most so many bytes may be there, and looks at the answer and at what is told.
fn expect_within(
    rt: &(impl Threads + Sync + Abort),
    alloc: Global,
    input: &[u8],
    most: usize,
    wanted: &Wanted<'_>,
) -> Result<(), AllocError> {
    let ended = replayed_within(rt, alloc, input, most)?;
    let differs = difference(&ended, wanted);
    assert!(rt; differs.is_empty(), "{most} bytes: {differs}");
    Ok(())
}

/// The input is as large as it may be, or one byte larger.
fn expect_sizes(
    rt: &(impl Threads + Sync + Abort),
    alloc: Global,
    input: &[u8],
) -> Result<(), AllocError> {
    let whole = (Replayed::Yes, "yes\n", "");
    expect_within(rt, alloc, input, input.len(), &whole)?;
    let large = (Replayed::TooLarge, "", "sqreplay: too large\n");
    expect_within(rt, alloc, input, input.len().saturating_sub(1), &large)
}

#[test]
fn size_limit(rt: HostRuntime) -> Result<(), Fail> {
    let input = whole_input(rt.alloc())?;
    expect_sizes(&rt, rt.alloc(), input.as_slice())?;
    Ok(())
}

/// What a replay ends with, as a process.
const CODES: &[(Replayed, u8)] = &[
    (Replayed::Yes, 0),
    (Replayed::No, 1),
    (Replayed::Usage, 2),
    (Replayed::NoMemory, 3),
    (Replayed::ReadFault, 4),
    (Replayed::WriteFault, 5),
    (Replayed::TooLarge, 7),
];

#[test]
fn codes(rt: HostRuntime) {
    for &(replayed, code) in CODES {
        assert_eq!(rt; replayed.code(), code);
    }
}
