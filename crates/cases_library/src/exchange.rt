//! One connection: what is given to it, line by line, and what it sends.
//!
//! | Line | What it gives |
//! |---|---|
//! | `AT FLAGS SEQ ACK WINDOW [TEXT]` | a segment |
//! | `syn AT ISS SEQ [wnd=N] [mss=N] [scale=N]` | a SYN, and the initial sequence number that the connection is to take |
//! | `time AT` | the time |
//! | `close`, `buffer N` | a call of a program |
//! | `ask CALL` | the same, and its answer is told |
//! | `why LINE` | one of the first three, and why the connection is over is told |
//! | `tell NAME` | nothing; what the block says of NAME is told |
//! | `take`, `reset` | what was sent leaves the block, and how much is told; all but its clock leaves it |
//! | `only LINE`, `read N`, `offer TEXT`, `skip N`, `fin`, `output` | a call that a service makes |

use crate::calls::service_call;
use crate::items::{Arrives, call_of, segment_of, syn_of};
use crate::served::ServedRow;
use crate::telling::tell_block;
use case_rows::{Row, RowFault, RowWords, Wrong, told_at};
use std::alloc::Global;
use std::fmt::Write;
use tcb_machine::Ending;

/// A segment comes.
fn arrive(served: &mut ServedRow, alloc: Global, arrives: &Arrives) -> Result<(), Wrong> {
    let Arrives { at, iss, seg, text } = arrives;
    served.segment(alloc, *at, *iss, seg, text.as_slice())
}

/// A segment comes that a line writes.
fn segment(served: &mut ServedRow, alloc: Global, line: &str) -> Result<(), Wrong> {
    let arrives = segment_of(alloc, line)?;
    arrive(served, alloc, &arrives)
}

/// A SYN comes that a line writes.
fn syn(served: &mut ServedRow, alloc: Global, line: &str) -> Result<(), Wrong> {
    let arrives = syn_of(alloc, line)?;
    arrive(served, alloc, &arrives)
}

/// The time comes that a line writes.
fn time(served: &mut ServedRow, alloc: Global, line: &str) -> Result<(), Wrong> {
    let at = RowWords::of(line).long()?;
    served.time(alloc, at)
}

/// A call whose answer is told.
fn ask(served: &mut ServedRow, alloc: Global, line: &str, out: &mut String) -> Result<(), Wrong> {
    let answer = served.ask(alloc, call_of(line)?)?;
    writeln!(out, "answer {answer:?}")?;
    Ok(())
}

/// A time or a segment comes, and why the connection is over is told.
fn why(served: &mut ServedRow, alloc: Global, line: &str, out: &mut String) -> Result<(), Wrong> {
    let before = served.tcb().state();
    let ending = match line.strip_prefix("time ") {
        Some(at) => {
            time(served, alloc, at)?;
            Ending::by_time(before, served.tcb().state())
        }
        None => {
            let arrives = segment_of(alloc, line)?;
            arrive(served, alloc, &arrives)?;
            Ending::by_segment(before, &arrives.seg, served.tcb().state())
        }
    };
    writeln!(out, "ending {ending:?}")?;
    Ok(())
}

/// What the block says is told.
fn tell(served: &ServedRow, name: &str, out: &mut String) -> Result<(), Wrong> {
    let tcb = served.tcb();
    match name {
        "state" => writeln!(out, "state {:?}", tcb.state())?,
        "clock" => writeln!(out, "clock {}", tcb.clock())?,
        "deadline" => writeln!(out, "deadline {:?}", tcb.next_deadline())?,
        "replies" => writeln!(out, "replies {}", tcb.replies())?,
        "ready" => writeln!(out, "ready {}", tcb.ready())?,
        "room" => writeln!(out, "room {}", tcb.room())?,
        "fin" => writeln!(out, "fin {}", tcb.fin_wanted())?,
        "room for a reply" => writeln!(out, "room for a reply {}", tcb.has_room())?,
        "service" => writeln!(out, "service {}", served.name())?,
        _ => return Err(Wrong::Word),
    }
    Ok(())
}

/// What a line says.
fn give(served: &mut ServedRow, alloc: Global, line: &str, out: &mut String) -> Result<(), Wrong> {
    let mut words = RowWords::of(line);
    match words.word() {
        "syn" => syn(served, alloc, words.rest()),
        "time" => time(served, alloc, words.rest()),
        "close" | "buffer" => {
            served.ask(alloc, call_of(line)?)?;
            Ok(())
        }
        "ask" => ask(served, alloc, words.rest(), out),
        "why" => why(served, alloc, words.rest(), out),
        "tell" => tell(served, words.rest(), out),
        "take" | "reset" | "only" | "read" | "offer" | "skip" | "fin" | "output" => {
            service_call(served.plain()?, alloc, line, out)
        }
        _ => segment(served, alloc, line),
    }
}

/// What all lines say, and what was sent then.
fn give_all(
    served: &mut ServedRow,
    alloc: Global,
    lines: &[&str],
    out: &mut String,
) -> Result<(), RowFault> {
    for line in lines {
        let given = give(served, alloc, line, out);
        told_at(alloc, line, given)?;
    }
    Ok(tell_block(out, served.tcb())?)
}

/// What is told of a connection to the row's port that is given its lines.
pub fn tell_exchange(
    alloc: Global,
    port: &str,
    lines: &[&str],
    out: &mut String,
) -> Result<(), RowFault> {
    let made = port
        .parse::<u16>()
        .map_err(|_| Wrong::Word)
        .and_then(|port| ServedRow::at(alloc, port));
    let mut served = told_at(alloc, port, made)?;
    give_all(&mut served, alloc, lines, out)
}
