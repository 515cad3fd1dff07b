//! Requests as rows: each is answered by what stands in `stdout`, and its connection ends or stays.
//!
//! `data/pack` has the pages. A line of `data/rows` is a row, its name and what comes, or begins with `#` and is a comment. What comes is
//! written with `\r`, `\n`, `\\`, `\xHH` for the byte of two hexadecimal digits, and `\*NNNNB` for the byte B so many times, in four digits.
//!
//! Of an answer its status is told, some of its fields, and behind 200 and 206 its content, or how long that is. What is wanted follows from
//! RFC 9110 and RFC 9112: `tools/tests/test_live.py` compares it with a model of them.
#![tactic(auto)]

ghost use Rattle.std.specs.Prelude.{◌≤◌};

use http_pages::{Answer, Pages, Status, answer_to, body_of, head_of};
use std::alloc::{AllocError, Global};
use std::fs::File;
use std::io;
use std::io::Read;

/// Sun, 06 Nov 1994 08:49:37 GMT, in microseconds.
const TIME: u64 = 784_111_777_000_000;

/// The fields that are told.
const TOLD: [&str; 4] = ["Allow", "Location", "Content-Range", "Connection"];

fn number(digits: &[u8], radix: u32) -> Option<usize>
    requires { (2 ≤ radix) × (radix ≤ 36) }
{
    usize::from_str_radix(str::from_utf8(digits).ok()?, radix).ok()
}

/// The byte at the front of a row's text, how many times it stands there, and the rest.
fn next_byte(text: &[u8]) -> Option<(u8, usize, &[u8])> {
    match text {
        [b'\\', b'r', rest @ ..] => Some((b'\r', 1, rest)),
        [b'\\', b'n', rest @ ..] => Some((b'\n', 1, rest)),
        [b'\\', b'\\', rest @ ..] => Some((b'\\', 1, rest)),
        [b'\\', b'x', a, b, rest @ ..] => {
            let byte = u8::try_from(number(&[*a, *b], 16)?).ok()?;
            Some((byte, 1, rest))
        }
        [b'\\', b'*', a, b, c, d, byte, rest @ ..] => {
            Some((*byte, number(&[*a, *b, *c, *d], 10)?, rest))
        }
        [b'\\', ..] | [] => None,
        [byte, rest @ ..] => Some((*byte, 1, rest)),
    }
}

/// What a row's text stands for, up to what stands for nothing.
fn spelled(alloc: Global, text: &[u8]) -> Result<Vec<u8>, AllocError> {
    let mut bytes = Vec::new(alloc);
    let mut rest = text;
    for _ in 0..text.len() {
        let Some((byte, count, behind)) = next_byte(rest) else {
            return Ok(bytes);
        };
        bytes.resize(bytes.len().saturating_add(count), byte)?;
        rest = behind;
    }
    Ok(bytes)
}

/// Prints a field of an answer's head, if it is told.
fn print_field(rt: &HostRuntime, line: &str) -> io::Result<()> {
    match line.split_once(": ") {
        Some((name, value)) if TOLD.contains(&name) => print!(rt; " {name}={value}"),
        _ => Ok(()),
    }
}

/// Prints a short text, or how long another one is.
fn print_content(rt: &HostRuntime, content: &[u8]) -> io::Result<()> {
    match str::from_utf8(content) {
        Ok(text) if text.len() <= 16 => print!(rt; " {text:?}"),
        _ => print!(rt; " +{}", content.len()),
    }
}

/// Prints an answer.
fn print_answer(rt: &HostRuntime, pages: &Pages, answer: Answer) -> io::Result<()> {
    let Ok(head) = head_of(rt.alloc(), pages, answer) else {
        return print!(rt; " no memory");
    };
    let Ok(text) = str::from_utf8(head.as_slice()) else {
        return print!(rt; " no text");
    };
    match text.split_once("HTTP/1.1 ") {
        Some((_, behind)) => print!(rt; " {}", behind.split(' ').next().unwrap_or(""))?,
        None => print!(rt; " no status")?,
    }
    for line in text.lines() {
        print_field(rt, line)?;
    }
    if matches!(answer.status, Status::Ok | Status::PartialContent) {
        print_content(rt, body_of(pages, answer))?;
    }
    Ok(())
}

/// Prints what is answered to what came on one connection.
fn answer_all(rt: &HostRuntime, pages: &Pages, came: &[u8]) -> io::Result<()> {
    let mut rest = came;
    for _ in 0..came.len() {
        let Some((answer, taken)) = answer_to(pages, TIME, rest) else {
            return println!(rt; " stays");
        };
        print_answer(rt, pages, answer)?;
        if !answer.keeps {
            return println!(rt; " ends");
        }
        rest = rest.split_at(taken.min(rest.len())).1;
    }
    println!(rt; " stays")
}

fn main(rt: HostRuntime) -> io::Result<()> {
    let mut pack = Vec::new(rt.alloc());
    File::open(&rt, "pack")?.read_to_end(&mut pack)?;
    let mut rows = Vec::new(rt.alloc());
    File::open(&rt, "rows")?.read_to_end(&mut rows)?;
    let Ok(pages) = Pages::of(rt.alloc(), pack) else {
        return println!(rt; "no pages");
    };
    let Ok(text) = str::from_utf8(rows.as_slice()) else {
        return println!(rt; "no text");
    };
    for line in text.lines() {
        if !line.starts_with('#')
            && let Some((name, came)) = line.split_once(": ")
        {
            print!(rt; "{name}:")?;
            let came = spelled(rt.alloc(), came.as_bytes())?;
            answer_all(&rt, &pages, came.as_slice())?;
        }
    }
    Ok(())
}
