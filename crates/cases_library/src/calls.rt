//! The calls that a service makes on a block, one by one.

use crate::items::segment_of;
use crate::telling::tell_text;
use case_rows::{RowWords, Wrong};
use std::alloc::Global;
use std::fmt::Write;
use tcb_machine::{LAST_TIME, State, Tcb};

/// A segment comes, and nothing follows it. What is to follow is told.
fn only(tcb: &mut Tcb, alloc: Global, line: &str, out: &mut String) -> Result<(), Wrong> {
    let arrives = segment_of(alloc, line)?;
    if tcb.clock() > arrives.at || arrives.at > LAST_TIME || !tcb.has_room() {
        return Err(Wrong::Call);
    }
    let next = tcb.segment(alloc, arrives.at, 0, &arrives.seg, arrives.text.as_slice())?;
    writeln!(out, "next {next:?}")?;
    Ok(())
}

/// So many bytes are taken and told.
fn read(tcb: &mut Tcb, alloc: Global, n: u32, out: &mut String) -> Result<(), Wrong> {
    if n > tcb.ready() {
        return Err(Wrong::Call);
    }
    let text = tcb.take(alloc, n)?;
    out.push_str("read ")?;
    tell_text(out, text.as_slice())?;
    out.push_str("\n")?;
    Ok(())
}

/// A text is offered.
fn offer(tcb: &mut Tcb, text: &str) -> Result<(), Wrong> {
    if text.len() > tcb.room() as usize {
        return Err(Wrong::Call);
    }
    tcb.offer(text.as_bytes())?;
    Ok(())
}

/// So many bytes are thrown away.
fn skip(tcb: &mut Tcb, n: u32) -> Result<(), Wrong> {
    if n > tcb.ready() {
        return Err(Wrong::Call);
    }
    tcb.skip(n);
    Ok(())
}

/// Our FIN is wanted.
fn fin(tcb: &mut Tcb) -> Result<(), Wrong> {
    if tcb.fin_wanted() || tcb.state() != State::CloseWait {
        return Err(Wrong::Call);
    }
    tcb.want_fin();
    Ok(())
}

/// A call that a line names, and what comes of it is told.
pub fn service_call(
    tcb: &mut Tcb,
    alloc: Global,
    line: &str,
    out: &mut String,
) -> Result<(), Wrong> {
    let mut words = RowWords::of(line);
    match words.word() {
        "take" => writeln!(out, "took {}", tcb.take_replies(alloc).len())?,
        "reset" => tcb.reset(alloc),
        "only" => return only(tcb, alloc, words.rest(), out),
        "read" => return read(tcb, alloc, words.number()?, out),
        "offer" => return offer(tcb, words.rest()),
        "skip" => return skip(tcb, words.number()?),
        "fin" => return fin(tcb),
        "output" => tcb.output(alloc)?,
        _ => return Err(Wrong::Word),
    }
    Ok(())
}
