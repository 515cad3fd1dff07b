//! Rows of words alone: what they ask for, in lines.

use case_rows::{Row, RowFault, expect_lines, expect_number, words_of};
use squeue_run::{CallWord, WordFault, Words, read_words};
use std::alloc::{AllocError, Global};

/// The fields of a row of words: `asks` has what they ask for, or `refused`. In place of it `calls` says how many calls they name. With `times N` they
/// come N times.
const FIELDS: [&str; 4] = ["words", "times", "asks", "calls"];

/// Reads the words of a row, and compares what they ask for.
pub fn judge_words(alloc: Global, row: &Row<'_>) -> Result<(), RowFault> {
    row.expect_fields(alloc, &FIELDS)?;
    let words = repeated(alloc, row)?;
    match read_words(alloc, &words) {
        Ok(words) => judge_asked(alloc, row, &words),
        Err(WordFault::Usage) => expect_lines(alloc, "asks", row.lines("asks"), b"refused\n"),
        Err(WordFault::NoMemory) => Err(RowFault::NoMemory),
    }
}

/// The words of a row, so many times as it says.
fn repeated(alloc: Global, row: &Row<'_>) -> Result<Vec<String>, RowFault> {
    let line = row.text(alloc, "words", "none")?;
    let mut words = Vec::new(alloc);
    for _ in 0..row.number(alloc, "times", 1)? {
        for word in words_of(alloc, line)? {
            words.push(word)?;
        }
    }
    Ok(words)
}

/// What accepted words ask for is what the row has.
fn judge_asked(alloc: Global, row: &Row<'_>, words: &Words) -> Result<(), RowFault> {
    if row.has("calls") {
        let calls = row.number(alloc, "calls", 0)?;
        return expect_number(alloc, "calls", calls, words.named.len() as u64);
    }
    let asked = asked_by(alloc, words)?;
    expect_lines(alloc, "asks", row.lines("asks"), asked.as_bytes())
}

/// What words ask for: the setup, and what else was said.
fn asked_by(alloc: Global, words: &Words) -> Result<String, AllocError> {
    let setup = words.setup;
    let (squeues, rings, mode) = (setup.squeues, setup.rings, setup.mode);
    let (budget, spread, traced) = (setup.budget, setup.spread, setup.trace);
    let (verify, trace) = (words.verify, words.trace);
    let mut lines = format!(in alloc;
        "squeues {squeues} rings {rings} mode {mode:?} budget {budget} spread {spread}\nverify {verify} trace {trace} {traced}\n"
    )?;
    if let Some(number) = words.number {
        writeln!(lines, "gen {number}")?;
    }
    for word in &words.named {
        push_call(&mut lines, word)?;
    }
    Ok(lines)
}

fn push_call(lines: &mut String, word: &CallWord) -> Result<(), AllocError> {
    let (thread, connection, call) = (word.thread, word.connection, word.call);
    writeln!(lines, "call {thread} {connection} {call:?}")
}
