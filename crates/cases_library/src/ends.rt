//! Addresses and ports, as text.

use sq_base::{Addr, Tuple};
use std::alloc::AllocError;
use std::fmt::Write;

/// Tells an address, behind a blank.
pub fn tell_address(out: &mut String, address: Addr) -> Result<(), AllocError> {
    let [a, b, c, d] = address.0.to_be_bytes();
    write!(out, " {a}.{b}.{c}.{d}")
}

/// Tells an address and a port, behind a blank.
pub fn tell_end(out: &mut String, address: Addr, port: u16) -> Result<(), AllocError> {
    tell_address(out, address)?;
    write!(out, ":{port}")
}

/// Tells the two ends of a connection or a stream on a line, behind a word.
pub fn tell_ends(out: &mut String, word: &str, tuple: &Tuple) -> Result<(), AllocError> {
    out.push_str(word)?;
    tell_end(out, tuple.client, tuple.client_port)?;
    tell_end(out, tuple.server, tuple.server_port)?;
    out.push_str("\n")
}
