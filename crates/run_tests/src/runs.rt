//! One whole run over memory, runs over inputs too large for rows, and runs whose threads are held by hooks. All other whole runs are rows
//! of `cases_programs`. What is expected comes from an independent model.

use sq_base::{MemSink, MemSource, Status};
use squeue_run::squeue_run;
use std::alloc::{AllocError, Global};
use std::sync::Wait;
use std::test::Fail;
use std::thread::Threads;

mod large;
mod meeting;

const F: u8 = 1;

const S: u8 = 2;

const P: u8 = 8;

const A: u8 = 16;

/// A segment that the client 10.0.0.1 sends to 10.0.0.2:7: time in microseconds, flags, sequence number, acknowledgement number, window, text.
type Sent<'a> = (u32, u8, u32, u32, u16, &'a [u8]);

/// One short echo session.
const FIVE: [Sent<'static>; 5] = [
    (0, S, 100, 0, 4096, b""),
    (1000, A, 101, 501, 4096, b""),
    (2000, P | A, 101, 501, 4096, b"hello"),
    (3000, F | A, 106, 506, 4096, b""),
    (4000, A, 107, 507, 4096, b""),
];

/// Its report.
const FIVE_REPORT: &str = concat!(
    "report 1\n",
    "records 5 tail 0 served 5 nofit 0 server 0 other 0 fragment 0 cut 0 malformed 0 badsum 0 connections 1\n",
    "conn 0 10.0.0.1:4000 10.0.0.2:7 echo\n",
    "order f0-5\n",
    "reply 0 4500002c00004000400626ca0a0000020a00000100070fa0000001f4000000656012ffff72140000020405b4\n",
    "reply 2000 4500002d00004000400626c90a0000020a00000100070fa0000001f50000006a5018ffff45ed000068656c6c6f\n",
    "reply 3000 4500002800004000400626ce0a0000020a00000100070fa0000001fa0000006b5011ffff89c50000\n",
    "end LISTEN\n",
    "done\n",
);

/// A little-endian file of raw IP packets, in microseconds.
const HEADER: [u8; 24] = [
    0xd4, 0xc3, 0xb2, 0xa1, 2, 0, 4, 0, 0, 0, 0, 0, 0, 0, 0, 0, 0, 0, 4, 0, 101, 0, 0, 0,
];

/// A record's header, and the start of its datagram up to the ports: of `len` bytes.
fn head(at: u32, len: u16) -> [u8; 36] {
    let [s0, s1, s2, s3] = (at / 1_000_000).to_le_bytes();
    let [m0, m1, m2, m3] = (at % 1_000_000).to_le_bytes();
    let [high, low] = len.to_be_bytes();
    [
        s0, s1, s2, s3, m0, m1, m2, m3, low, high, 0, 0, low, high, 0, 0, 0x45, 0, high, low, 0, 0,
        0x40, 0, 64, 6, 0, 0, 10, 0, 0, 1, 10, 0, 0, 2,
    ]
}

/// The TCP part up to the text, from this port; checksum and urgent pointer are 0.
fn tcp(port: u16, numbers: (u32, u32), flags: u8, wnd: u16) -> [u8; 20] {
    let [port_high, port_low] = port.to_be_bytes();
    let [s0, s1, s2, s3] = numbers.0.to_be_bytes();
    let [a0, a1, a2, a3] = numbers.1.to_be_bytes();
    let [wnd_high, wnd_low] = wnd.to_be_bytes();
    [
        port_high, port_low, 0, 7, s0, s1, s2, s3, a0, a1, a2, a3, 0x50, flags, wnd_high, wnd_low,
        0, 0, 0, 0,
    ]
}

/// A segment as a record, from this port.
fn push(file: &mut Vec<u8>, port: u16, sent: &Sent) -> Result<(), AllocError> {
    let &(at, flags, seq, ack, wnd, text) = sent;
    let len = 40u16.saturating_add(u16::try_from(text.len()).unwrap_or(u16::MAX));
    file.extend_from_slice(&head(at, len))?;
    file.extend_from_slice(&tcp(port, (seq, ack), flags, wnd))?;
    file.extend_from_slice(text)
}

/// What was sent, segment by segment, each from so many ports in turn, of which this is the first.
fn in_turn(alloc: Global, sent: &[Sent], port: u16, count: u16) -> Result<Vec<u8>, AllocError> {
    let mut file = Vec::from_slice(alloc, &HEADER)?;
    for one in sent {
        push_each(&mut file, port, count, one)?;
    }
    Ok(file)
}

/// What was sent, from each of these ports.
fn push_each(file: &mut Vec<u8>, port: u16, count: u16, sent: &Sent) -> Result<(), AllocError> {
    for more in 0..count {
        push(file, port.saturating_add(more), sent)?;
    }
    Ok(())
}

/// The words that stand between bars; an empty text is no word.
fn words_of(alloc: Global, line: &str) -> Result<Vec<String>, AllocError> {
    let mut words = Vec::new(alloc);
    if !line.is_empty() {
        for word in line.split('|') {
            push_word(alloc, &mut words, word)?;
        }
    }
    Ok(words)
}

/// One word more.
fn push_word(alloc: Global, words: &mut Vec<String>, word: &str) -> Result<(), AllocError> {
    words.push(String::from_str(alloc, word)?)?;
    Ok(())
}

/// What a run reads from and writes to.
#[derive(Drop)]
struct Ends {
    src: MemSource,
    out: MemSink,
    err: MemSink,
}

/// Room for what runs write.
const ROOM: usize = 1_000_000;

/// Ends that don't fail.
fn ends_over(alloc: Global, input: &[u8]) -> Result<Ends, AllocError> {
    Ok(Ends {
        src: MemSource::make(alloc, input, 65_536, &[])?,
        out: MemSink::make(alloc, ROOM, 65_536, &[])?,
        err: MemSink::make(alloc, 1000, 1000, &[])?,
    })
}

/// A run over these ends: its status, and whether it handed back what was served.
fn outcome(
    rt: &(impl Threads + Wait + Sync),
    alloc: Global,
    words: &[String],
    src: &mut MemSource,
    out: &mut MemSink,
    err: &mut MemSink,
) -> (Status, bool) {
    let ran = squeue_run(rt, alloc, words, src, out, err);
    (ran.status, ran.served.is_some())
}

/// What a run gave, and whether it handed back what was served.
#[derive(Drop)]
struct Ended {
    ran: (Status, bool),
    ends: Ends,
}

/// A run over these ends, with the words of a line.
fn run(
    rt: &(impl Threads + Wait + Sync),
    alloc: Global,
    line: &str,
    mut ends: Ends,
) -> Result<Ended, AllocError> {
    let words = words_of(alloc, line)?;
    let Ends { src, out, err } = &mut ends;
    let ran = outcome(rt, alloc, words.as_slice(), src, out, err);
    Ok(Ended { ran, ends })
}

#[test]
fn five_segment_echo(rt: HostRuntime) -> Result<(), Fail> {
    let input = in_turn(rt.alloc(), &FIVE, 4000, 1)?;
    let ends = ends_over(rt.alloc(), input.as_slice())?;
    let ended = run(&rt, rt.alloc(), "--rings|2", ends)?;
    assert_eq!(rt; ended.ran, (Status::Ok, true));
    assert_eq!(rt; ended.ends.out.bytes(), FIVE_REPORT.as_bytes());
    assert!(rt; ended.ends.err.bytes().is_empty());
    Ok(())
}

/// What stands in the text behind these parts, where it begins with them, one after another.
fn after<'a>(text: &'a [u8], parts: &[&str]) -> Option<&'a [u8]> {
    let mut rest = text;
    for part in parts {
        rest = rest.strip_prefix(part.as_bytes())?;
    }
    Some(rest)
}

/// Whether the text is these parts, one after another.
fn is_made_of(text: &[u8], parts: &[&str]) -> bool {
    matches!(after(text, parts), Some([]))
}
