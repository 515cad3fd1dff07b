//! Rows of the live servers: frames in, and what is sent to them.
//!
//! The first word is `sqlive`, the others are its words. In place of the files IN and OUT of a ring stand which frames of the input it
//! reads, `FIRST-END` or `FIRST-`, counted from 0, and how many bytes a read gives and a write takes at most. What is sent is a line for each
//! frame, AT and the datagram, ring by ring. What is told to the error line isn't tried here.

ghost use Rattle.std.specs.Prelude.{◌≤◌, IfOk, length};
ghost use Rattle.live_rings.specs.Making.{IsInRange};
ghost use Rattle.live_rings.specs.Words.{AreFew};

use case_rows::{Row, RowFault, add_text, judge_run};
use live_rings::{Ends, Layout, RingWords, rings_asked, serve_rings, setup_by};
use live_run::{Fault, Medium, asked_in, serve_frames_of};
use live_server::Server;
use sq_base::{MemSink, MemSource, Source, put};
use std::alloc::Global;
use std::sync::Wait;
use std::thread::Threads;

/// Room for what a server sends in a row, and the most bytes of a row's input.
const ROOM: usize = 1 << 20;

/// No server takes more rings.
const MOST_RINGS: usize = 63;

/// Runs the live server that the row's words name.
pub fn judge_live(
    rt: &(impl Threads + Wait + Sync),
    alloc: Global,
    row: &Row<'_>,
) -> Result<(), RowFault> {
    let program = |alloc: Global, words: &[String], src: &mut MemSource, out: &mut MemSink, _err: &mut MemSink| {
        status_of(run_server(rt, alloc, words, src, out))
    };
    judge_run(&program, alloc, row)
}

/// The status of a process that ends so.
fn status_of(ran: Result<(), Fault>) -> u8 {
    match ran {
        Ok(()) => 0,
        Err(fault) => fault.code(),
    }
}

/// Runs the server that the first word names.
fn run_server(
    rt: &(impl Threads + Wait + Sync),
    alloc: Global,
    words: &[String],
    src: &mut MemSource,
    out: &mut MemSink,
) -> Result<(), Fault> {
    let [name, words @ ..] = words else {
        return Err(Fault::Words);
    };
    match name.as_str() {
        "sqlive" if are_for_rings(words) => by_rings(rt, alloc, words, src, out),
        "sqlive" => by_one_thread(alloc, words, src, out),
        _ => Err(Fault::Words),
    }
}

/// Whether `sqlive` is asked to serve by several rings.
fn are_for_rings(words: &[String]) -> bool {
    match words {
        [first, ..] => first.as_str() == "--rings",
        [] => false,
    }
}

/// Serves by `sqlive`, by several rings.
fn by_rings(
    rt: &(impl Threads + Wait + Sync),
    alloc: Global,
    words: &[String],
    src: &mut MemSource,
    out: &mut MemSink,
) -> Result<(), Fault> {
    let (setup, ends) = laid_out(alloc, words, src)?;
    let Ok(ended) = serve_rings(rt, alloc, &setup, ends) else {
        return Err(Fault::NoMemory);
    };
    let mut ran = Ok(());
    for stream in &ended.streams {
        write_lines(alloc, stream.sink.bytes(), out)?;
        ran = first_fault(ran, stream.fault);
    }
    ran
}

/// Serves by `sqlive`, by one thread.
fn by_one_thread(
    alloc: Global,
    words: &[String],
    src: &mut MemSource,
    out: &mut MemSink,
) -> Result<(), Fault> {
    let Some(asked) = asked_in(words) else {
        return Err(Fault::Words);
    };
    let Medium::Frames(secret) = asked.mode else {
        return Err(Fault::Words);
    };
    let Ok(mut sink) = MemSink::make(alloc, ROOM, ROOM, &[]) else {
        return Err(Fault::NoMemory);
    };
    let server = Server::new(alloc, asked.setting, secret);
    let served = serve_frames_of(alloc, server, src, &mut sink);
    write_lines(alloc, sink.bytes(), out)?;
    served
}

/// What a run ends with: the fault of the first ring, by number, that has one.
fn first_fault(ran: Result<(), Fault>, fault: Option<Fault>) -> Result<(), Fault> {
    match (ran, fault) {
        (Ok(()), Some(fault)) => Err(fault),
        _ => ran,
    }
}

/// How a run by several rings is set up, and what each ring reads from and writes to.
fn laid_out(
    alloc: Global,
    words: &[String],
    src: &mut MemSource,
) -> Result<(Layout, Vec<Ends<MemSource, MemSink>>), Fault>
    ensures range { IfOk result (λ r. IsInRange r.0) }
    ensures few { IfOk result (λ r. length r.1.items ≤ 63) }
{
    let Some((asked, front)) = rings_asked(words) else {
        return Err(Fault::Words);
    };
    let setup = setup_of(asked)?;
    let input = input_of(alloc, src)?;
    let ends = ends_of(alloc, &words[front..], &input)?;
    Ok((setup, ends))
}

/// How a run over frames is set up.
fn setup_of(asked: RingWords) -> Result<Layout, Fault>
    requires { AreFew asked }
    ensures { IfOk result (λ s. IsInRange s) }
{
    match asked.secret {
        Some(secret) => Ok(setup_by(asked, secret)),
        None => Err(Fault::Words),
    }
}

/// All that a source gives, up to the room for it.
fn input_of(alloc: Global, src: &mut MemSource) -> Result<Vec<u8>, Fault> {
    let mut input = Vec::new(alloc);
    let Ok(mut piece) = vec![in alloc; 0u8; ROOM] else {
        return Err(Fault::NoMemory);
    };
    for _ in 0..ROOM {
        let Ok(read) = src.read(&mut piece[..]) else {
            return Err(Fault::Reading);
        };
        if read == 0 {
            break;
        }
        if input.extend_from_slice(&piece[..read]).is_err() {
            return Err(Fault::NoMemory);
        }
    }
    Ok(input)
}

/// The ends of each ring, as its two words say.
fn ends_of(
    alloc: Global,
    words: &[String],
    input: &[u8],
) -> Result<Vec<Ends<MemSource, MemSink>>, Fault>
    ensures { IfOk result (λ v. length v.items ≤ 63) }
{
    let mut all = Vec::new(alloc);
    for pair in words.chunks(2) {
        let [frames, most] = pair else {
            return Err(Fault::Words);
        };
        let ends = ring_ends(alloc, input, frames.as_str(), most.as_str())?;
        if all.push(ends).is_err() {
            return Err(Fault::NoMemory);
        }
    }
    if all.len() > MOST_RINGS {
        return Err(Fault::Words);
    }
    Ok(all)
}

/// The ends of a ring that reads these frames of the input, so many bytes at once.
fn ring_ends(
    alloc: Global,
    input: &[u8],
    frames: &str,
    most: &str,
) -> Result<Ends<MemSource, MemSink>, Fault> {
    let (Some(frames), Ok(most)) = (frames_of(input, frames), most.parse::<usize>()) else {
        return Err(Fault::Words);
    };
    let most = most.max(1);
    match (
        MemSource::make(alloc, frames, most, &[]),
        MemSink::make(alloc, ROOM, most, &[]),
    ) {
        (Ok(reader), Ok(sink)) => Ok(Ends { reader, sink }),
        _ => Err(Fault::NoMemory),
    }
}

/// The frames of the input from the first of two numbers on, and up to the other one where it is given.
fn frames_of<'a>(input: &'a [u8], word: &str) -> Option<&'a [u8]> {
    let (first, end) = word.split_once('-')?;
    let first = first.parse::<u32>().ok()?;
    let rest = behind_frames(input, first);
    if end.is_empty() {
        return Some(rest);
    }
    let end = end.parse::<u32>().ok()?;
    let behind = behind_frames(rest, end.saturating_sub(first));
    Some(rest.split_at(rest.len().saturating_sub(behind.len())).0)
}

/// What stands behind so many frames.
fn behind_frames(bytes: &[u8], count: u32) -> &[u8] {
    let mut rest = bytes;
    for _ in 0..count {
        match split_frame(rest) {
            Some((_, _, behind)) => rest = behind,
            None => return &[],
        }
    }
    rest
}

/// The time of the frame that begins here, its datagram, and what stands behind it.
fn split_frame(bytes: &[u8]) -> Option<(u64, &[u8], &[u8])> {
    let [
        _,
        _,
        _,
        _,
        _,
        _,
        high,
        low,
        t0,
        t1,
        t2,
        t3,
        t4,
        t5,
        t6,
        t7,
        rest @ ..,
    ] = bytes
    else {
        return None;
    };
    let len = usize::from(u16::from_be_bytes([*high, *low]));
    let (body, behind) = rest.split_at(len.min(rest.len()));
    let at = u64::from_be_bytes([*t0, *t1, *t2, *t3, *t4, *t5, *t6, *t7]);
    Some((at, body, behind))
}

/// Writes a line for each frame.
fn write_lines(alloc: Global, frames: &[u8], out: &mut MemSink) -> Result<(), Fault> {
    let mut rest = frames;
    for _ in 0..frames.len() {
        let Some((at, datagram, behind)) = split_frame(rest) else {
            break;
        };
        write_line(alloc, at, datagram, out)?;
        rest = behind;
    }
    Ok(())
}

fn write_line(alloc: Global, at: u64, datagram: &[u8], out: &mut MemSink) -> Result<(), Fault> {
    let Ok(mut line) = format!(in alloc; "{at} ") else {
        return Err(Fault::NoMemory);
    };
    if add_text(&mut line, datagram).is_err() || line.push('\n').is_err() {
        return Err(Fault::NoMemory);
    }
    match put(out, line.as_bytes()) {
        Ok(()) => Ok(()),
        Err(_) => Err(Fault::Writing),
    }
}
