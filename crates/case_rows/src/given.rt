//! What a row gives to a program.

ghost use Rattle.std.specs.Prelude.{IfOk};
ghost use Rattle.case_rows.specs.Givens.{Gives, LetsFail};
ghost use Rattle.case_rows.specs.Rows.{lines_named, IsNumber};

use crate::captures::bytes_of;
use crate::fault::RowFault;
use crate::rows::{Row, words_of};
use std::alloc::Global;

/// The words, the input, and which reads and writes fail.
#[derive(Drop)]
pub struct Given {
    pub words: Vec<String>,
    pub input: Vec<u8>,
    /// How many bytes a read gives and a write takes at most.
    pub reads: usize,
    pub writes: usize,
    pub failing: Failing,
}

/// Which reads, writes and writes to the error line fail, counted from 0.
#[derive(Drop)]
pub struct Failing {
    pub reads: Vec<u64>,
    pub writes: Vec<u64>,
    pub tellings: Vec<u64>,
}

/// What a row gives.
pub fn given_of(alloc: Global, row: &Row<'_>) -> Result<Given, RowFault>
    ensures { IfOk result (λ g. Gives row.now.fields.items g) }
{
    Ok(Given {
        words: words_of(alloc, row.text(alloc, "words", "none")?)?,
        input: input_of(alloc, row)?,
        reads: piece(alloc, row, "reads")?,
        writes: piece(alloc, row, "writes")?,
        failing: failing_of(alloc, row)?,
    })
}

/// Which calls a row lets fail.
fn failing_of(alloc: Global, row: &Row<'_>) -> Result<Failing, RowFault>
    ensures { IfOk result (λ f. LetsFail row.now.fields.items f) }
{
    Ok(Failing {
        reads: row.numbers(alloc, "failing_reads")?,
        writes: row.numbers(alloc, "failing_writes")?,
        tellings: row.numbers(alloc, "failing_tellings")?,
    })
}

/// How many bytes a call moves at most.
fn piece(alloc: Global, row: &Row<'_>, name: &str) -> Result<usize, RowFault>
    ensures { IfOk result (λ n. IsNumber (lines_named row.now.fields.items name.now) 65536 n) }
{
    Ok(row.number(alloc, name, 65_536)? as usize)
}

/// The row's text, and behind it the bytes of its input.
fn input_of(alloc: Global, row: &Row<'_>) -> Result<Vec<u8>, RowFault> {
    let bytes = bytes_of(alloc, row.lines("input"))?;
    if !row.has("text") {
        return Ok(bytes);
    }
    let mut input = text_of(alloc, row)?;
    input.extend_from_slice(&bytes)?;
    Ok(input)
}

/// The row's text with its changes.
fn text_of(alloc: Global, row: &Row<'_>) -> Result<Vec<u8>, RowFault> {
    let changes = row.lines("change");
    let mut text = Vec::new(alloc);
    let mut found = 0usize;
    for (number, line) in row.lines("text").iter().enumerate() {
        if add_line(&mut text, line, changed(changes, number))? {
            found = found.saturating_add(1);
        }
    }
    if found == changes.len() {
        return Ok(text);
    }
    Err(RowFault::told(alloc, &["a change isn't of a line of the text"]))
}

/// Adds a line, or what stands in its place. Answers whether something does.
fn add_line(text: &mut Vec<u8>, line: &str, change: Option<&str>) -> Result<bool, RowFault> {
    if let Some(change) = change {
        add_changed(text, change)?;
        return Ok(true);
    }
    text.extend_from_slice(line.as_bytes())?;
    text.push(b'\n')?;
    Ok(false)
}

/// What stands in the place of a line, where it is changed.
fn changed<'a>(changes: &[&'a str], number: usize) -> Option<&'a str> {
    for change in changes {
        let (at, line) = change.split_once(' ').unwrap_or((change, ""));
        if at.parse::<usize>() == Ok(number) {
            return Some(line);
        }
    }
    None
}

/// A line that was changed: nothing, or lines between `\n`.
fn add_changed(text: &mut Vec<u8>, line: &str) -> Result<(), RowFault> {
    if line.is_empty() {
        return Ok(());
    }
    for piece in line.split("\\n") {
        text.extend_from_slice(piece.as_bytes())?;
        text.push(b'\n')?;
    }
    Ok(())
}
