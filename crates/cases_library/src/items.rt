//! What a line gives to a connection.

use case_rows::{RowWords, Wrong};
use segment_codec::Seg;
use sq_base::{Addr, Tuple};
use std::alloc::Global;
use tcb_machine::Call;

/// The ends of each connection.
const ENDS: Tuple = Tuple {
    client: Addr(0x0a00_0001),
    client_port: 4000,
    server: Addr(0x0a00_0002),
    server_port: 7,
};

/// A segment at a time, with its text and the initial sequence number that a new connection takes.
#[derive(Drop)]
pub struct Arrives {
    pub at: u64,
    pub iss: u32,
    pub seg: Seg,
    pub text: Vec<u8>,
}

/// A text: characters, or behind a number and a `*` so many of them.
pub fn text_of(alloc: Global, words: &str) -> Result<Vec<u8>, Wrong> {
    let mut text = Vec::new(alloc);
    match words.split_once('*') {
        None => text.extend_from_slice(words.as_bytes())?,
        Some((often, words)) => {
            for _ in 0..often.parse::<u32>().map_err(|_| Wrong::Word)? {
                text.extend_from_slice(words.as_bytes())?;
            }
        }
    }
    Ok(text)
}

/// A segment: time, control bits, sequence number, acknowledgement number, window, text.
pub fn segment_of(alloc: Global, line: &str) -> Result<Arrives, Wrong> {
    let mut words = RowWords::of(line);
    let at = words.long()?;
    let flags = words.flags()?;
    let seq = words.number()?;
    let ack = words.number()?;
    let wnd = words.short()?;
    let text = text_of(alloc, words.rest())?;
    let length = u32::try_from(text.len()).map_err(|_| Wrong::Word)?;
    Ok(Arrives {
        at,
        iss: 0,
        seg: Seg::plain(&ENDS, flags, seq, ack, wnd, 40, length),
        text,
    })
}

/// What stands behind a name and `=`.
fn value_of<'a>(word: &'a str) -> (&'a str, &'a str) {
    word.split_once('=').unwrap_or((word, ""))
}

/// A word of a SYN sets a part of it: `wnd=`, `mss=` or `scale=`.
fn set(seg: &mut Seg, word: &str) -> Result<(), Wrong> {
    let (name, value) = value_of(word);
    match name {
        "wnd" => seg.wnd = value.parse::<u16>().map_err(|_| Wrong::Word)?,
        "mss" => seg.options.mss = Some(value.parse::<u16>().map_err(|_| Wrong::Word)?),
        "scale" => seg.options.scale = Some(value.parse::<u8>().map_err(|_| Wrong::Word)?),
        _ => return Err(Wrong::Word),
    }
    Ok(())
}

/// A SYN: time, hint for our initial sequence number, sequence number, and what differs from a window of 4,096 without options.
pub fn syn_of(alloc: Global, line: &str) -> Result<Arrives, Wrong> {
    let mut words = RowWords::of(line);
    let at = words.long()?;
    let iss = words.number()?;
    let seq = words.number()?;
    let mut seg = Seg::plain(&ENDS, 2, seq, 0, 4096, 40, 0);
    for word in words.rest().split_ascii_whitespace() {
        set(&mut seg, word)?;
    }
    Ok(Arrives {
        at,
        iss,
        seg,
        text: Vec::new(alloc),
    })
}

/// What a program asks: `status`, `close`, or `buffer` and a number.
pub fn call_of(line: &str) -> Result<Call, Wrong> {
    let mut words = RowWords::of(line);
    match words.word() {
        "status" => Ok(Call::Status),
        "close" => Ok(Call::Close),
        "buffer" => Ok(Call::Buffer(words.short()?)),
        _ => Err(Wrong::Word),
    }
}
