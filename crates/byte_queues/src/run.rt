//! A run of neighbouring positions that are held, and how a text joins runs.

ghost use Rattle.std.specs.Prelude.{◌≡◌, ◌+◌, ◌-◌, ◌^◌, ◌<◌, ◌≤◌, length, drop, min, All, IfOk, OnOk, OnErr, vec_len, slice_set, slice_range};
ghost use Rattle.byte_queues.specs.Runs.{held_of, end_of, count_before, count_up_to, part, fill, front_of, dropped, joined, joined_run, IsSpaced};

use crate::buffer::Buffer;
use std::alloc::{AllocError, Global};
use std::mem;

/// How many bytes of room a spare store may have. One segment's text fits.
const MOST_SPARE: usize = 2048;

/// Bytes at neighbouring positions from `start` on. A queue keeps no run without bytes.
#[derive(Drop)]
pub struct Run {
    pub start: u64,
    pub bytes: Buffer,
}

impl Run {
    /// The position behind the last byte.
    pub fn end(&self) -> u64
        requires { self.now.start + length self.now.bytes < 2 ^ 64 }
        ensures { result ≡ self.now.start + length self.now.bytes }
    {
        self.start + self.bytes.len() as u64
    }
}

/// How many runs in front end before a position, with a gap.
pub fn runs_before(runs: &[Run], at: u64) -> usize
    requires { All (λ r. end_of r < 2 ^ 64) runs.now }
    ensures { result ≡ count_before at runs.now }
{
    let mut n = 0;
    while n < runs.len() && runs[n].end() < at {
        n += 1;
    }
    n
}

/// How many runs from place `first` on begin at or before a position.
pub fn runs_touched(runs: &[Run], first: usize, stop: u64) -> usize
    requires { first ≤ length runs.now }
    ensures { result ≡ count_up_to stop (drop first runs.now) }
{
    let (_, runs) = runs.split_at(first);
    let mut n = 0;
    while n < runs.len() && runs[n].start <= stop {
        n += 1;
    }
    n
}

/// How many bytes runs have.
pub fn held_in(runs: &[Run]) -> u64
    requires { held_of runs.now < 2 ^ 64 }
    ensures { result ≡ held_of runs.now }
{
    let mut sum = 0;
    let mut rest = runs;
    while let [run, others @ ..] = rest {
        sum += run.bytes.len() as u64;
        rest = others;
    }
    sum
}

/// What a text at `at` has from one position up to another.
#[tactic(auto, using(crate::proofs::ListLemmas::part_clamped))]
fn between(at: u64, text: &[u8], from: u64, to: u64) -> &[u8]
    ensures { result.now ≡ part at text.now from to }
{
    let (before, _) = text.split_at(clamped(to.saturating_sub(at), text.len()));
    let (_, part) = before.split_at(clamped(from.saturating_sub(at), before.len()));
    part
}

/// The bytes from `start` on: the runs', and those of a text at `at` between and behind them.
pub fn filled(
    alloc: Global,
    start: u64,
    at: u64,
    text: &[u8],
    runs: &[Run],
) -> Result<Vec<u8>, AllocError>
    requires { All (λ r. end_of r < 2 ^ 64) runs.now }
    ensures { IfOk result (λ v. v.items ≡ fill start at text.now runs.now) }
{
    let mut bytes = Vec::new(alloc);
    let mut next = start;
    for run in runs {
        bytes.extend_from_slice(between(at, text, next, run.start))?;
        bytes.extend_from_slice(run.bytes.as_slice())?;
        next = run.end();
    }
    bytes.extend_from_slice(behind(at, text, next))?;
    Ok(bytes)
}

/// What a text at `at` has from a position on.
#[tactic(auto, using(crate::proofs::ListLemmas::drop_clamped))]
fn behind(at: u64, text: &[u8], from: u64) -> &[u8]
    ensures { result.now ≡ drop (from - at) text.now }
{
    let (_, rest) = text.split_at(clamped(from.saturating_sub(at), text.len()));
    rest
}

/// A count that is at most a length.
fn clamped(n: u64, length: usize) -> usize
    ensures { result ≡ min n length }
{
    n.min(length as u64) as usize
}

/// The bytes of the run that begins at a position, where the first one does.
pub fn front(runs: &[Run], at: u64) -> &[u8]
    ensures { result.now ≡ front_of at runs.now }
{
    match runs.split_first() {
        Some((run, _)) if run.start == at => run.bytes.as_slice(),
        _ => &[],
    }
}

/// The run that begins at a position, the first one, loses its first `n` bytes, and goes where none is left. Where it is the only one,
/// its store is the spare one from then on.
pub fn drop_front(runs: &mut Vec<Run>, spare: &mut Vec<u8>, at: u64, n: u32)
    requires within { n ≤ length (front_of at runs.old.items) }
    requires small { at + n < 2 ^ 64 }
    ensures { runs.new.items ≡ dropped n runs.old.items }
{
    if n == 0 {
        return;
    }
    let run = &mut runs[0];
    if run.bytes.len() == n as usize {
        // Mostly it is the only one, and none has to move up.
        if runs.len() == 1 {
            if let Some(run) = runs.pop() {
                keep_spare(spare, run.bytes.into_store());
            }
        } else {
            runs.remove(0);
        }
    } else {
        run.bytes.drop_front(n as usize);
        run.start += u64::from(n);
    }
}

/// A store becomes the spare one, unless it is a large one.
fn keep_spare(spare: &mut Vec<u8>, store: Vec<u8>) {
    if store.capacity() <= MOST_SPARE {
        *spare = store;
    }
}

/// A text at `at` becomes one run with the `count` runs from place `first` on, which it touches; a run of its own takes the spare store.
/// Unchanged after an error.
pub fn join(
    runs: &mut Vec<Run>,
    spare: &mut Vec<u8>,
    first: usize,
    count: usize,
    at: u64,
    text: &[u8],
) -> Result<(), AllocError>
    requires within { first + count ≤ vec_len runs.old }
    requires small { All (λ r. end_of r < 2 ^ 64) runs.old.items }
    requires spaced { IsSpaced 0 (2 ^ 64) runs.old.items }
    ensures ok { OnOk result (runs.new.items ≡ joined first count at text.now runs.old.items) }
    ensures unchanged { OnErr result (runs.new.items ≡ runs.old.items) }
{
    let alloc = *runs.allocator();
    if count == 0 {
        let bytes = Buffer::of(mem::replace(spare, Vec::new(alloc)), text)?;
        let run = Run { start: at, bytes };
        // Mostly it is the last one, and none has to make room.
        if first == runs.len() {
            runs.push(run)?;
        } else {
            runs.insert(first, run)?;
        }
        return Ok(());
    }
    let last = first + count;
    let kept = longer(runs, first, last - 1);
    surround(runs, alloc, first, kept, last, at, text)?;
    runs.drain(kept + 1..last);
    runs.drain(first..kept);
    Ok(())
}

/// The place of the longer of two runs. Those between them are no longer than the text that joins them.
fn longer(runs: &Vec<Run>, a: usize, b: usize) -> usize
    requires order { a ≤ b }
    requires within { b < vec_len runs.now }
    ensures least { a ≤ result }
    ensures most { result ≤ b }
{
    if runs[a].bytes.len() < runs[b].bytes.len() {
        b
    } else {
        a
    }
}

/// The run at place `kept` takes the bytes of a text and of the runs round it, from `first` up to `last`. Unchanged after an error.
fn surround(
    runs: &mut Vec<Run>,
    alloc: Global,
    first: usize,
    kept: usize,
    last: usize,
    at: u64,
    text: &[u8],
) -> Result<(), AllocError>
    requires first { first ≤ kept }
    requires last { kept < last }
    requires within { last ≤ vec_len runs.old }
    requires small { All (λ r. end_of r < 2 ^ 64) runs.old.items }
    requires spaced { IsSpaced 0 (2 ^ 64) runs.old.items }
    ensures ok { OnOk result (runs.new.items ≡ slice_set runs.old.items kept (joined_run at text.now (slice_range runs.old.items first last))) }
    ensures unchanged { OnErr result (runs.new.items ≡ runs.old.items) }
{
    let start = at.min(runs[first].start);
    let here = runs[kept].start;
    let next = runs[kept].end();
    let (ahead, _) = text.split_at(clamped(here.saturating_sub(at), text.len()));
    let head = filled(alloc, start, at, ahead, &runs[first..kept])?;
    let tail = filled(alloc, next, at, text, &runs[kept + 1..last])?;
    let run = &mut runs[kept];
    run.bytes.surround(alloc, &head, &tail)?;
    run.start = start;
    Ok(())
}
