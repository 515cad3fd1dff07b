//! What is told of a connection, as lines.

use case_rows::add_flags;
use segment_codec::{Options, Reply};
use std::alloc::AllocError;
use std::fmt::Write;
use tcb_machine::Tcb;

/// How long a text is at least that is told by its first byte and its length.
const LONG: usize = 32;

/// The byte behind another one in the generator's pattern.
fn behind(byte: u8) -> u8 {
    if byte < 126 { byte + 1 } else { 32 }
}

/// Whether all bytes are the same one.
fn is_even(text: &[u8]) -> bool {
    text.windows(2).all(|pair| match pair {
        [one, next] => one == next,
        _ => false,
    })
}

/// Whether each byte is the one behind the byte before in the generator's pattern.
fn is_pattern(text: &[u8]) -> bool {
    text.windows(2).all(|pair| match pair {
        [one, next] => behind(*one) == *next,
        _ => false,
    })
}

/// Tells a text; a long one of equal bytes as `LENGTH*BYTE`, and a long part of the generator's pattern as `LENGTH from BYTE`.
pub fn tell_text(out: &mut String, text: &[u8]) -> Result<(), AllocError> {
    let first = char::from(text.first().copied().unwrap_or(b' '));
    let length = text.len();
    if length >= LONG && is_even(text) {
        return write!(out, "{length}*{first}");
    }
    if length >= LONG && is_pattern(text) {
        return write!(out, "{length} from {first}");
    }
    match str::from_utf8(text) {
        Ok(text) => out.push_str(text),
        Err(_) => write!(out, "{text:?}"),
    }
}

/// Tells the options of a reply.
fn tell_options(out: &mut String, options: &Options) -> Result<(), AllocError> {
    if let Some(mss) = options.mss {
        write!(out, " mss={mss}")?;
    }
    if let Some(scale) = options.scale {
        write!(out, " scale={scale}")?;
    }
    Ok(())
}

/// Tells a reply: time, control bits, sequence number, acknowledgement number, window, options, text.
fn tell_reply(out: &mut String, reply: &Reply) -> Result<(), AllocError> {
    let Reply {
        at,
        seq,
        ack,
        wnd,
        ..
    } = reply;
    write!(out, "{at} ")?;
    add_flags(out, reply.flags)?;
    write!(out, " {seq} {ack} {wnd}")?;
    tell_options(out, &reply.options)?;
    if !reply.text.as_slice().is_empty() {
        out.push_str(" ")?;
        tell_text(out, reply.text.as_slice())?;
    }
    out.push_str("\n")
}

/// Tells all replies that a block has, and its state.
pub fn tell_block(out: &mut String, tcb: &Tcb) -> Result<(), AllocError> {
    for i in 0..tcb.replies() {
        tell_reply(out, tcb.reply(i))?;
    }
    let state = tcb.state();
    writeln!(out, "end {state:?}")
}
