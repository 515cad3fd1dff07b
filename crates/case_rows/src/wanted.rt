//! What a row wants of what came.

ghost use Rattle.std.specs.Prelude.{◌≡◌, ℕ, ◌-◌, ◌<◌, ◌≤◌, ◌||◌, ◌∷◌, [], not, codes, unwrap_or, slice_index_or, drop, length, map, take, IfOk, IfSome, OnOk};
ghost use Rattle.std.specs.List.{AllByRecursion, count_by, position_or_len, sum_by};
ghost use Rattle.std.specs.Str.{bytes_eq};
ghost use Rattle.case_rows.specs.Runs.{Wants};
ghost use Rattle.case_rows.specs.Wanted.{check_of, marks_in, marks_told, says_of_lines, says_of_numbers, spelled, tells_marks, told_in, HasMarks, HasSum, IsOneOf, Lines, SaysNoMore, SaysOfLines, SaysOfNumbers, StandsAmong, StandsAsOften, WantsOut};

use crate::comparing::{expect_lines, expect_number};
use crate::fault::RowFault;
use crate::program::Came;
use crate::rows::Row;
use crate::words::{halves, number_of};
use std::alloc::{AllocError, Global};

/// What came is what the row wants; of its `out` so many bytes.
pub fn expect(alloc: Global, row: &Row<'_>, came: &Came, len: usize) -> Result<(), RowFault>
    ensures { OnOk result (Wants row.now.fields.items came.now len) }
{
    expect_lines(alloc, "err", row.lines("err"), came.err.bytes())?;
    let status = row.number(alloc, "status", 0)?;
    expect_number(alloc, "status", status, u64::from(came.status))?;
    expect_out(alloc, row, came.out.bytes(), len)
}

/// What was written is what the row wants: what it says in place of `out`, or `out`.
fn expect_out(alloc: Global, row: &Row<'_>, out: &[u8], len: usize) -> Result<(), RowFault>
    ensures { OnOk result (WantsOut row.now.fields.items out.now len) }
{
    let lines = expect_parts(alloc, row, out)?;
    let numbers = expect_numbers(alloc, row, out)?;
    if lines || numbers {
        return expect_no_out(alloc, row);
    }
    if len == usize::MAX {
        expect_one_of(alloc, row.lines("out"), out)
    } else {
        expect_front(alloc, row.lines("out"), out, len)
    }
}

/// What the row says of some lines of the output. Answers whether it does.
fn expect_parts(alloc: Global, row: &Row<'_>, out: &[u8]) -> Result<bool, RowFault>
    ensures says { OnOk result (SaysOfLines row.now.fields.items out.now) }
    ensures does { IfOk result (λ b. b ≡ says_of_lines row.now.fields.items) }
{
    if row.has("begins") {
        expect_begins(alloc, row.lines("begins"), out)?;
    }
    if row.has("ends") {
        expect_ends(alloc, row.lines("ends"), out)?;
    }
    if row.has("among") {
        expect_among(alloc, row.lines("among"), out)?;
    }
    Ok(row.has("begins") || row.has("ends") || row.has("among"))
}

/// What the row says of the output in numbers. Answers whether it does.
fn expect_numbers(alloc: Global, row: &Row<'_>, out: &[u8]) -> Result<bool, RowFault>
    ensures says { OnOk result (SaysOfNumbers row.now.fields.items out.now) }
    ensures does { IfOk result (λ b. b ≡ says_of_numbers row.now.fields.items) }
{
    if row.has("marks") {
        let (least, most) = row.pair(alloc, "marks")?;
        expect_marks(alloc, least, most, out)?;
    }
    if row.has("sum") {
        expect_sum(alloc, row.text(alloc, "sum", "")?, out)?;
    }
    Ok(row.has("marks") || row.has("sum"))
}

/// A row whose output is said otherwise has no `out`, and none of the forms that take a part of it: they would say nothing.
fn expect_no_out(alloc: Global, row: &Row<'_>) -> Result<(), RowFault>
    ensures { OnOk result (SaysNoMore row.now.fields.items) }
{
    if row.has("out") || row.has("out_bytes") || row.has("each_write") {
        return Err(RowFault::told(alloc, &["out isn't looked at in this row"]));
    }
    Ok(())
}

/// Lines, each with a newline.
fn joined(alloc: Global, lines: &[&str]) -> Result<Vec<u8>, AllocError>
    ensures { IfOk result (λ v. v.items ≡ spelled lines.now) }
{
    let mut bytes = Vec::new(alloc);
    for line in lines {
        bytes.extend_from_slice(line.as_bytes())?;
        bytes.push(b'\n')?;
    }
    Ok(bytes)
}

/// The first so many bytes, or all.
pub fn front(bytes: &[u8], len: usize) -> &[u8]
    ensures { result.now ≡ take len bytes.now }
{
    bytes.split_at(len.min(bytes.len())).0
}

fn expect_begins(alloc: Global, lines: &[&str], out: &[u8]) -> Result<(), RowFault>
    ensures { OnOk result (take (length (spelled lines.now)) out.now ≡ spelled lines.now) }
{
    let wanted = joined(alloc, lines)?;
    expect_lines(alloc, "out", lines, front(out, wanted.len()))
}

fn expect_ends(alloc: Global, lines: &[&str], out: &[u8]) -> Result<(), RowFault>
    ensures { OnOk result (drop (length out.now - length (spelled lines.now)) out.now ≡ spelled lines.now) }
{
    let wanted = joined(alloc, lines)?;
    let from = out.len().saturating_sub(wanted.len());
    expect_lines(alloc, "out's end", lines, out.split_at(from).1)
}

/// The output is one of those that an `or` parts.
fn expect_one_of(alloc: Global, lines: &[&str], out: &[u8]) -> Result<(), RowFault>
    ensures { OnOk result (IsOneOf lines.now out.now) }
{
    let wanted: Vec<&[&str]> = lines.split(|line| *line == "or").collect(alloc)?;
    expect_any(alloc, &wanted, out)
}

/// The output is one of these. A fault is that of the first of them.
fn expect_any(alloc: Global, wanted: &[&[&str]], out: &[u8]) -> Result<(), RowFault>
    ensures { OnOk result ((k : ℕ) × (k < length wanted.now) × ((d : Lines) → out.now ≡ spelled (slice_index_or wanted.now k d).now)) }
{
    let mut told = None;
    for lines in wanted {
        match expect_lines(alloc, "out", lines, out) {
            Ok(()) => return Ok(()),
            Err(fault) => told = Some(told.unwrap_or(fault)),
        }
    }
    Err(told.unwrap_or(RowFault::NoMemory))
}

/// The output is the first so many bytes of the lines, which have as many.
fn expect_front(alloc: Global, lines: &[&str], out: &[u8], len: usize) -> Result<(), RowFault>
    ensures { OnOk result (out.now ≡ take len (spelled lines.now)) }
{
    let wanted = joined(alloc, lines)?;
    expect_number(
        alloc,
        "out's length",
        len.min(wanted.len()) as u64,
        out.len() as u64,
    )?;
    if wanted.starts_with(out) {
        return Ok(());
    }
    Err(RowFault::told(alloc, &["out isn't a front of what is wanted"]))
}

/// Each line stands as often in the output as is said before it.
fn expect_among(alloc: Global, lines: &[&str], out: &[u8]) -> Result<(), RowFault>
    ensures { OnOk result ((1 ≤ length lines.now) × AllByRecursion (λ l. StandsAsOften l.now out.now) lines.now) }
{
    let Ok(text) = str::from_utf8(out) else {
        return Err(RowFault::told(alloc, &["out isn't text"]));
    };
    if lines.is_empty() {
        return Err(RowFault::told(alloc, &["among has no lines"]));
    }
    let all: Vec<&str> = text.lines().collect(alloc)?;
    expect_all_times(alloc, lines, &all)
}

/// Each line stands as often among these as is said before it.
fn expect_all_times(alloc: Global, lines: &[&str], all: &[&str]) -> Result<(), RowFault>
    ensures { OnOk result (AllByRecursion (λ l. StandsAmong l.now (map (λ line. line.now) all.now)) lines.now) }
{
    for line in lines {
        expect_times(alloc, line, all)?;
    }
    Ok(())
}

/// A line stands as often among these as is said before it.
fn expect_times(alloc: Global, line: &str, all: &[&str]) -> Result<(), RowFault>
    ensures { OnOk result (StandsAmong line.now (map (λ line. line.now) all.now)) }
{
    let (times, wanted) = halves(line);
    let Ok(times) = times.parse::<u64>() else {
        return Err(RowFault::told(alloc, &["this isn't read: ", line]));
    };
    expect_number(alloc, wanted, times, times_among(wanted, all) as u64)
}

/// How often a line stands among these.
fn times_among(wanted: &str, all: &[&str]) -> usize
    ensures { result ≡ count_by (λ l. bytes_eq l.now wanted.now) all.now }
{
    let mut times = 0;
    for line in all {
        if *line == wanted {
            times += 1;
        }
    }
    times
}

/// So many lines are marks, as many as is told of. They are at least the first number, and at most the second.
fn expect_marks(alloc: Global, least: u64, most: u64, out: &[u8]) -> Result<(), RowFault>
    ensures { OnOk result (HasMarks least most out.now) }
{
    let Ok(text) = str::from_utf8(out) else {
        return Err(RowFault::told(alloc, &["out isn't text"]));
    };
    let all: Vec<&str> = text.lines().collect(alloc)?;
    expect_marks_among(alloc, least, most, &all)
}

/// So many of these lines are marks.
fn expect_marks_among(alloc: Global, least: u64, most: u64, all: &[&str]) -> Result<(), RowFault>
    ensures told { OnOk result (told_in (map (λ line. line.now) all.now) ≡ marks_in (map (λ line. line.now) all.now)) }
    ensures limits { OnOk result ((least ≤ marks_in (map (λ line. line.now) all.now)) × (marks_in (map (λ line. line.now) all.now) ≤ most)) }
{
    let Some(told) = told_in(all) else {
        return Err(RowFault::told(alloc, &["more marks are told than a number says"]));
    };
    let found = marks_in(all.split_at(first_told(all)).1);
    expect_number(alloc, "how many marks are told", found, told)?;
    if found < least || found > most {
        return Err(RowFault::Told(format!(in alloc;
            "marks: wanted {least} to {most}, got {found}"
        )?));
    }
    Ok(())
}

/// How many marks these lines tell of, if that is a number.
fn told_in(all: &[&str]) -> Option<u64>
    ensures { IfSome result (λ told. told ≡ sum_by (λ line. unwrap_or (marks_told line.now) 0) all.now) }
{
    let mut told = 0u64;
    for line in all {
        told = told.checked_add(marks_of(line).unwrap_or(0))?;
    }
    Some(told)
}

/// How many lines stand before the first that tells of marks.
fn first_told(all: &[&str]) -> usize
    ensures value { result ≡ position_or_len (λ line. tells_marks line.now) all.now }
    ensures bound { result ≤ length all.now }
{
    let mut passed = 0;
    for line in all {
        if marks_of(line).is_some() {
            return passed;
        }
        passed += 1;
    }
    passed
}

/// How many of these lines are marks: those that tell of none, but for `done`.
fn marks_in(lines: &[&str]) -> u64
    ensures { result ≡ count_by (λ line. not (tells_marks line.now || bytes_eq line.now (codes "done"))) lines.now }
{
    let mut found = 0;
    for line in lines {
        if marks_of(line).is_none() && *line != "done" {
            found += 1;
        }
    }
    found
}

/// How many marks a line tells of.
fn marks_of(line: &str) -> Option<u64>
    ensures { result ≡ marks_told line.now }
{
    let (squeue, rest) = halves(line);
    let (marks, count) = halves(halves(rest).1);
    if squeue == "squeue" && marks == "marks" {
        number_of(count)
    } else {
        None
    }
}

/// The output's length and check value are these.
fn expect_sum(alloc: Global, text: &str, out: &[u8]) -> Result<(), RowFault>
    ensures { OnOk result (HasSum text.now out.now) }
{
    let (len, check) = halves(text);
    let (Ok(len), Ok(check)) = (len.parse::<u64>(), u64::from_str_radix(check, 16)) else {
        return Err(RowFault::told(alloc, &["this isn't read: sum ", text]));
    };
    expect_number(alloc, "out's length", len, out.len() as u64)?;
    expect_number(alloc, "out's check value", check, check_of(out))
}

/// Each byte in turn, at the multiplier of the 64-bit FNV hash, from 0.
fn check_of(bytes: &[u8]) -> u64
    ensures { result ≡ check_of bytes.now }
{
    let mut check = 0u64;
    for byte in bytes {
        check = check
            .wrapping_mul(1_099_511_628_211)
            .wrapping_add(u64::from(*byte));
    }
    check
}
