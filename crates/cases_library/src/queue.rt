//! A receive queue or a send queue, call by call.
//!
//! | Line | What it calls, and what is told |
//! |---|---|
//! | `place AT TEXT` | a text stands at a position: whether it is held |
//! | `take N` | N bytes are taken and told |
//! | `tell runs`, `tell run I`, `tell room`, `tell held` | how many runs are held, one of them, the room to send, what is held |
//! | `offer TEXT`, `acked N`, `slice FROM N` | a text is offered, bytes are acknowledged, held bytes are told |

use byte_queues::{RecvQueue, SendQueue};
use case_rows::{RowFault, RowWords, Wrong, told_at};
use std::alloc::{AllocError, Global};
use std::fmt::Write;

/// The two queues of a connection.
#[derive(Drop)]
struct Queues {
    received: RecvQueue,
    sent: SendQueue,
}

/// Tells a text on a line, behind a word.
fn tell_line(out: &mut String, word: &str, text: &[u8]) -> Result<(), AllocError> {
    match str::from_utf8(text) {
        Ok(text) => writeln!(out, "{word} {text}"),
        Err(_) => writeln!(out, "{word} {text:?}"),
    }
}

/// A text stands at a position.
fn place(queue: &mut RecvQueue, at: u64, text: &str, out: &mut String) -> Result<(), Wrong> {
    if at < queue.next() || at >= 1_000_000 {
        return Err(Wrong::Call);
    }
    let placed = queue.place(at, text.as_bytes())?;
    writeln!(out, "{placed:?}")?;
    Ok(())
}

/// Bytes are taken.
fn take(queue: &mut RecvQueue, alloc: Global, n: u32, out: &mut String) -> Result<(), Wrong> {
    if n > queue.ready() {
        return Err(Wrong::Call);
    }
    let text = queue.take(alloc, n)?;
    Ok(tell_line(out, "took", text.as_slice())?)
}

/// A run is told.
fn run(queue: &RecvQueue, i: u32, out: &mut String) -> Result<(), Wrong> {
    if i >= queue.runs() {
        return Err(Wrong::Call);
    }
    let (start, bytes) = queue.run(i);
    write!(out, "run {start}")?;
    Ok(tell_line(out, "", bytes)?)
}

/// What a queue says is told.
fn tell(queues: &Queues, line: &str, out: &mut String) -> Result<(), Wrong> {
    let mut words = RowWords::of(line);
    match words.word() {
        "runs" => writeln!(out, "runs {}", queues.received.runs())?,
        "run" => return run(&queues.received, words.number()?, out),
        "room" => writeln!(out, "room {}", queues.sent.room())?,
        "held" => writeln!(out, "held {}", queues.sent.held())?,
        _ => return Err(Wrong::Word),
    }
    Ok(())
}

/// A text is offered.
fn offer(queue: &mut SendQueue, text: &str) -> Result<(), Wrong> {
    if text.len() > queue.room() as usize {
        return Err(Wrong::Call);
    }
    queue.offer(text.as_bytes())?;
    Ok(())
}

/// Bytes are acknowledged.
fn acked(queue: &mut SendQueue, n: u32) -> Result<(), Wrong> {
    if n > queue.held() {
        return Err(Wrong::Call);
    }
    queue.acked(n);
    Ok(())
}

/// Held bytes are told.
fn slice(
    queue: &SendQueue,
    alloc: Global,
    from: u32,
    n: u32,
    out: &mut String,
) -> Result<(), Wrong> {
    if from > queue.held() || n > queue.held() - from {
        return Err(Wrong::Call);
    }
    let text = queue.slice(alloc, from, n)?;
    Ok(tell_line(out, "slice", text.as_slice())?)
}

/// What a line says.
fn give(queues: &mut Queues, alloc: Global, line: &str, out: &mut String) -> Result<(), Wrong> {
    let mut words = RowWords::of(line);
    match words.word() {
        "place" => {
            let at = words.long()?;
            place(&mut queues.received, at, words.rest(), out)
        }
        "take" => take(&mut queues.received, alloc, words.number()?, out),
        "tell" => tell(queues, words.rest(), out),
        "offer" => offer(&mut queues.sent, words.rest()),
        "acked" => acked(&mut queues.sent, words.number()?),
        "slice" => slice(&queues.sent, alloc, words.number()?, words.number()?, out),
        _ => Err(Wrong::Word),
    }
}

/// What is told of queues that lines call; the receive queue has this capacity.
pub fn tell_queue(
    alloc: Global,
    capacity: u32,
    lines: &[&str],
    out: &mut String,
) -> Result<(), RowFault> {
    let mut queues = Queues {
        received: RecvQueue::make(alloc, capacity),
        sent: SendQueue::make(alloc),
    };
    for line in lines {
        let given = give(&mut queues, alloc, line, out);
        told_at(alloc, line, given)?;
    }
    Ok(())
}
