//! Sequence numbers, checksums and link types, each line as a call: `add A N`, `distance A B`, `before A B`, `most A B`, `sum START [HEX]`, `link N`.

use case_rows::{RowFault, RowWords, Wrong, spelled, told_at};
use sq_base::{Link, inet_sum, seq_add, seq_dist, seq_le, seq_lt};
use std::alloc::Global;
use std::fmt::Write;

/// Tells the sum of bytes.
fn sum(out: &mut String, alloc: Global, start: u16, digits: &str) -> Result<(), Wrong> {
    let bytes = if digits.is_empty() {
        Vec::new(alloc)
    } else {
        spelled(alloc, digits)?
    };
    writeln!(out, "{:04x}", inet_sum(start, bytes.as_slice()))?;
    Ok(())
}

/// Tells what a call answers.
fn tell(out: &mut String, alloc: Global, line: &str) -> Result<(), Wrong> {
    let mut words = RowWords::of(line);
    match words.word() {
        "add" => writeln!(out, "{}", seq_add(words.number()?, words.number()?))?,
        "distance" => writeln!(out, "{}", seq_dist(words.number()?, words.number()?))?,
        "before" => writeln!(out, "{}", seq_lt(words.number()?, words.number()?))?,
        "most" => writeln!(out, "{}", seq_le(words.number()?, words.number()?))?,
        "sum" => return sum(out, alloc, words.short()?, words.rest()),
        "link" => writeln!(out, "{:?}", Link::of(words.number()?))?,
        _ => return Err(Wrong::Word),
    }
    Ok(())
}

/// Tells what calls answer, one line after another.
pub fn tell_numbers(alloc: Global, lines: &[&str], out: &mut String) -> Result<(), RowFault> {
    for line in lines {
        let told = tell(out, alloc, line);
        told_at(alloc, line, told)?;
    }
    Ok(())
}
