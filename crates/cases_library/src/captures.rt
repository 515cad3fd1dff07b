//! Files, as captures or refused.

use capture_reader::{Capture, CaptureFault, read_bytes, read_capture};
use case_rows::{RowFault, RowWords, Wrong, add_text, told_at};
use pcapng_reader::{InputFault, parse_input};
use sq_base::{MemSource, Octets};
use std::alloc::{AllocError, Global};
use std::fmt::Write;

/// How many bytes a read gives at most.
const PIECE: usize = 100;

/// The largest file.
const MOST: usize = 67_108_864;

/// Tells the packets: time, place in the file, length.
fn tell_records(out: &mut String, capture: &Capture) -> Result<(), AllocError> {
    for i in 0..capture.len() {
        let record = capture.rec(i);
        writeln!(out, "record {} {} {}", record.at, record.from, record.len)?;
    }
    Ok(())
}

/// Tells the packets' bytes.
fn tell_bodies(out: &mut String, capture: &Capture) -> Result<(), AllocError> {
    for i in 0..capture.len() {
        out.push_str("body ")?;
        add_text(out, capture.body(i))?;
        out.push_str("\n")?;
    }
    Ok(())
}

/// Tells what a word names.
fn tell_one(out: &mut String, capture: &Capture, word: &str) -> Result<(), Wrong> {
    match word {
        "link" => writeln!(out, "link {:?}", capture.link())?,
        "cut" => writeln!(out, "cut {}", capture.cut_tail())?,
        "count" => writeln!(out, "count {}", capture.len())?,
        "last" => writeln!(out, "last {}", capture.last_time())?,
        "records" => tell_records(out, capture)?,
        "bodies" => tell_bodies(out, capture)?,
        _ => return Err(Wrong::Word),
    }
    Ok(())
}

/// Tells what the words name.
fn tell_capture(out: &mut String, capture: &Capture, words: &str) -> Result<(), Wrong> {
    for word in words.split(' ') {
        tell_one(out, capture, word)?;
    }
    Ok(())
}

/// Tells why a file is refused.
fn tell_refusal(out: &mut String, fault: InputFault) -> Result<(), AllocError> {
    match fault {
        InputFault::Capture(fault) => writeln!(out, "refused {fault:?}"),
        InputFault::Pcapng(fault) => writeln!(out, "refused {fault:?}"),
    }
}

/// Tells of a file what the words name, or why it is refused.
fn tell_file(out: &mut String, alloc: Global, bytes: &[u8], words: &str) -> Result<(), Wrong> {
    if bytes.len() > MOST {
        return Err(Wrong::Call);
    }
    match parse_input(alloc, Octets::of(alloc, bytes)?) {
        Ok(capture) => tell_capture(out, &capture, words),
        Err(fault) => Ok(tell_refusal(out, fault)?),
    }
}

/// Tells a file.
pub fn tell_parsed(
    alloc: Global,
    bytes: &[u8],
    words: &str,
    out: &mut String,
) -> Result<(), RowFault> {
    let told = tell_file(out, alloc, bytes, words);
    told_at(alloc, words, told)
}

/// What is told of a file that has so many bytes.
fn front(alloc: Global, bytes: &[u8], n: usize) -> Result<String, Wrong> {
    let mut told = String::new(alloc);
    tell_file(
        &mut told,
        alloc,
        bytes.get(..n).unwrap_or(bytes),
        "count cut",
    )?;
    Ok(told)
}

/// Tells each front of a file from so many bytes on, with its length; no front is told whose packets and tail are those of the front before.
fn tell_fronts(out: &mut String, alloc: Global, bytes: &[u8], least: usize) -> Result<(), Wrong> {
    let mut last = String::new(alloc);
    for n in least..bytes.len().saturating_add(1) {
        let told = front(alloc, bytes, n)?;
        if told.as_str() != last.as_str() {
            write!(out, "bytes {n}\n{told}")?;
        }
        last = told;
    }
    Ok(())
}

/// Tells the fronts of a file.
pub fn tell_each_front(
    alloc: Global,
    bytes: &[u8],
    least: &str,
    out: &mut String,
) -> Result<(), RowFault> {
    let told = match least.parse::<usize>() {
        Ok(least) => tell_fronts(out, alloc, bytes, least),
        Err(_) => Err(Wrong::Word),
    };
    told_at(alloc, least, told)
}

/// Tells how many packets there are, or why there is no capture.
fn tell_count(out: &mut String, read: Result<Capture, CaptureFault>) -> Result<(), AllocError> {
    match read {
        Ok(capture) => writeln!(out, "count {}", capture.len()),
        Err(fault) => writeln!(out, "refused {fault:?}"),
    }
}

/// Tells whether these bytes were read, or why they weren't.
fn tell_bytes(
    out: &mut String,
    read: Result<Octets, CaptureFault>,
    bytes: &[u8],
) -> Result<(), AllocError> {
    match read {
        Ok(octets) if octets.as_slice() == bytes => out.push_str("all bytes\n"),
        Ok(_) => out.push_str("other bytes\n"),
        Err(fault) => writeln!(out, "refused {fault:?}"),
    }
}

/// Tells what a source of the bytes gives: a capture or bytes, where no read fails, or that with this number.
fn tell_source(out: &mut String, alloc: Global, bytes: &[u8], line: &str) -> Result<(), Wrong> {
    let mut words = RowWords::of(line);
    let what = words.word();
    let failing = if words.is_done() {
        u64::MAX
    } else {
        words.long()?
    };
    let mut source = MemSource::make(alloc, bytes, PIECE, &[failing])?;
    match what {
        "capture" => tell_count(out, read_capture(alloc, &mut source))?,
        "bytes" => tell_bytes(out, read_bytes(alloc, &mut source), bytes)?,
        _ => return Err(Wrong::Word),
    }
    Ok(())
}

/// Tells what sources of the bytes give, one line after another.
pub fn tell_sources(
    alloc: Global,
    bytes: &[u8],
    lines: &[&str],
    out: &mut String,
) -> Result<(), RowFault> {
    for line in lines {
        let told = tell_source(out, alloc, bytes, line);
        told_at(alloc, line, told)?;
    }
    Ok(())
}
