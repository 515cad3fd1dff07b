//! The top call: from the bytes of a report and its capture to the answer.

ghost use Rattle.std.specs.Prelude.{◌≡◌, ℕ, ◌≤◌, ◌⊎◌, List, [], ◌++◌, Err, IfOk, OnOk, Some, codes, length, map, nat_lt};
ghost use Rattle.std.specs.String.{string_bytes};
ghost use Rattle.std.specs.Io.KnownBytes.{Appends};
ghost use Rattle.std.specs.List.{flat_map};
ghost use Rattle.sq_base.specs.Ends.{AppendsProperly, IsUntouched, Rose, end_of};
ghost use Rattle.shell.specs.Telling.{TellsLine};
ghost use Rattle.perimeter_core.specs.declared.marks.Mark.{Mark};
ghost use Rattle.report_lines.specs.TraceText.{mark_line};
ghost use Rattle.trace_lines.specs.Printed.{ArePrintedMarks};
ghost use Rattle.trace_replay.specs.Answers.{HasReplayed, code_of};
ghost use Rattle.trace_replay.specs.Judged.{FailsFor, IsHead};
ghost use Rattle.trace_replay.specs.Reasons.{Holds, IsCut};
ghost use Rattle.trace_replay.specs.Replays.{Replays, most_input};
ghost use Rattle.trace_replay.specs.Texts.{line, no_line};
ghost use Rattle.pcapng_reader.specs.Input.{IsInput};

use crate::comparing::first_wrong;
use crate::input::{captured, cut, line_at};
use crate::orders::serve_orders;
use crate::reason::{Reason, Refusal};
use crate::replaying::replay_all;
use capture_reader::{Capture, CaptureFault, read_within};
use conn_classifier::plan_with;
use report_lines::report_of;
use shell::{NO_MEMORY, READ_FAULT, TOO_LARGE, Table, WRITE_FAULT, tell, tell_usage};
use sq_base::{Sink, Source, put};
use squeue_replay::RunSetup;
use std::alloc::{AllocError, Global};
use std::thread::Threads;
use trace_lines::{calls, histories, setup_line};

const YES: &[u8] = b"yes\n";

/// The name that the program calls itself by.
const SQREPLAY: &str = "sqreplay";

/// It takes no words.
pub const TABLE: Table = Table {
    program: SQREPLAY,
    options: &[],
    most_calls: 0,
};

/// The most bytes of an input.
const MOST_BYTES: usize = 1_073_741_824;

/// How a replay ended.
#[derive(Clone, Copy, Debug, PartialEq, Eq)]
pub enum Replayed {
    Yes,
    No,
    Usage,
    NoMemory,
    ReadFault,
    WriteFault,
    TooLarge,
}

impl Replayed {
    /// What the program ends with.
    pub fn code(self) -> u8
        ensures { result ≡ code_of self }
    {
        match self {
            Replayed::Yes => 0,
            Replayed::No => 1,
            Replayed::Usage => 2,
            Replayed::NoMemory => 3,
            Replayed::ReadFault => 4,
            Replayed::WriteFault => 5,
            Replayed::TooLarge => 7,
        }
    }
}

/// Reads a report with marks and the capture behind it, and writes to `out` whether it replays; or writes why
/// not as one line to `err`. It waits for nobody.
///
/// # Example
///
/// ```
/// let mut src = MemSource::make(alloc, given.input, 100, given.reads)?;
/// let mut out = MemSink::make(alloc, 1000, 4, given.writes)?;
/// let mut err = MemSink::make(alloc, 1000, 1000, given.tellings)?;
/// let replayed = replay_run(rt, alloc, words.as_slice(), &mut src, &mut out, &mut err);
/// ```
pub fn replay_run<S: Source, K: Sink, E: Sink>(
    rt: &(impl Threads + Sync),
    alloc: Global,
    words: &[String],
    src: &mut S,
    out: &mut K,
    err: &mut E,
) -> Replayed
    ensures replayed { HasReplayed most_input (nat_lt 0 (length words.now))
        (end_of S.rest S.read_faults src.old src.new)
        (end_of K.contents K.write_faults out.old out.new)
        (end_of E.contents E.write_faults err.old err.new)
        result }
    ensures complete { (input : List ℕ) → words.now ≡ [] → S.rest src.old ≡ Some input → length input ≤ most_input → Replays input
        → (Rose (S.read_faults src.old) (S.read_faults src.new) → ⊥) → (Rose (K.write_faults out.old) (K.write_faults out.new) → ⊥)
        → (result ≡ Replayed.Yes) ⊎ (result ≡ Replayed.NoMemory) }
{
    replay_within(rt, alloc, words, src, out, err, MOST_BYTES)
}

/// The same of an input of at most so many bytes.
pub fn replay_within<S: Source, K: Sink, E: Sink>(
    rt: &(impl Threads + Sync),
    alloc: Global,
    words: &[String],
    src: &mut S,
    out: &mut K,
    err: &mut E,
    most: usize,
) -> Replayed
    requires { most ≤ most_input }
    ensures replayed { HasReplayed most (nat_lt 0 (length words.now))
        (end_of S.rest S.read_faults src.old src.new)
        (end_of K.contents K.write_faults out.old out.new)
        (end_of E.contents E.write_faults err.old err.new)
        result }
    ensures complete { (input : List ℕ) → words.now ≡ [] → S.rest src.old ≡ Some input → length input ≤ most → Replays input
        → (Rose (S.read_faults src.old) (S.read_faults src.new) → ⊥) → (Rose (K.write_faults out.old) (K.write_faults out.new) → ⊥)
        → (result ≡ Replayed.Yes) ⊎ (result ≡ Replayed.NoMemory) }
{
    if !words.is_empty() {
        return told_usage(err);
    }
    let bytes = match read_within(alloc, src, most) {
        Ok(bytes) => bytes,
        Err(CaptureFault::Read) => return told(err, READ_FAULT, Replayed::ReadFault),
        Err(CaptureFault::TooLarge(_)) => return told(err, TOO_LARGE, Replayed::TooLarge),
        Err(_) => return told(err, NO_MEMORY, Replayed::NoMemory),
    };
    match judge(rt, alloc, bytes) {
        Ok(()) => answer(out, err, YES, Replayed::Yes),
        Err(Refusal::NoMemory) => told(err, NO_MEMORY, Replayed::NoMemory),
        Err(Refusal::No(reason)) => match line_of(alloc, reason) {
            Ok(line) => answer(out, err, line.as_bytes(), Replayed::No),
            Err(_) => told(err, NO_MEMORY, Replayed::NoMemory),
        },
    }
}

/// Writes the answer to `out`.
fn answer<K: Sink, E: Sink>(out: &mut K, err: &mut E, text: &[u8], replayed: Replayed) -> Replayed
    ensures { ((result ≡ replayed) × Appends (K.contents out.old) (K.contents out.new) text.now × (K.write_faults out.new ≡ K.write_faults out.old)
        × IsUntouched (end_of E.contents E.write_faults err.old err.new))
        ⊎ ((result ≡ Replayed.WriteFault) × AppendsProperly (K.contents out.old) (K.contents out.new) text.now
        × Rose (K.write_faults out.old) (K.write_faults out.new)
        × TellsLine (end_of E.contents E.write_faults err.old err.new) (line (codes "sqreplay: write fault"))) }
{
    match put(out, text) {
        Ok(()) => replayed,
        Err(_) => told(err, WRITE_FAULT, Replayed::WriteFault),
    }
}

/// Tells this under the program's name, where that works.
pub fn told<E: Sink>(err: &mut E, what: &str, replayed: Replayed) -> Replayed
    ensures same { result ≡ replayed }
    ensures told { TellsLine (end_of E.contents E.write_faults err.old err.new) (codes "sqreplay" ++ what.now) }
{
    tell(err, SQREPLAY, what);
    replayed
}

/// Writes the usage line, where that works.
pub fn told_usage<E: Sink>(err: &mut E) -> Replayed
    ensures same { result ≡ Replayed.Usage }
    ensures told { TellsLine (end_of E.contents E.write_faults err.old err.new) (line (codes "usage: sqreplay")) }
{
    tell_usage(err, &TABLE);
    Replayed::Usage
}

fn line_of(alloc: Global, reason: Reason) -> Result<String, AllocError>
    ensures { IfOk result (λ text. string_bytes text ≡ no_line reason) }
{
    format!(in alloc; "no: {reason}\n")
}

/// Whether the bytes are a report of a right run, with its capture behind it.
fn judge(rt: &(impl Threads + Sync), alloc: Global, bytes: Vec<u8>) -> Result<(), Refusal>
    requires { length bytes.items ≤ most_input }
    ensures yes { OnOk result (Replays bytes.items) }
    ensures no { (r : Reason) → result ≡ Err (Refusal.No r) → Holds r bytes.items × (Replays bytes.items → ⊥) }
{
    let mut bytes = bytes;
    let capture = captured(alloc, cut(&mut bytes)?)?;
    judge_report(rt, alloc, bytes.as_slice(), &capture)
}

/// Whether a report, up to its last line, is one of a right run over the capture.
fn judge_report(
    rt: &(impl Threads + Sync),
    alloc: Global,
    text: &[u8],
    capture: &Capture,
) -> Result<(), Refusal>
    requires capture { IsInput capture.now }
    requires report { IsCut (text.now ++ capture.now.bytes) text.now capture.now.bytes }
    ensures yes { OnOk result (Replays (text.now ++ capture.now.bytes)) }
    ensures no { (r : Reason) → result ≡ Err (Refusal.No r) → Holds r (text.now ++ capture.now.bytes) }
{
    let Some(from) = line_at(text, b"setup ") else {
        return Err(Refusal::No(Reason::Form));
    };
    let (head, lines) = text.split_at(from);
    let Some((setup, rules, behind_setup)) = setup_line(lines) else {
        return Err(Refusal::No(Reason::Form));
    };
    let plan = plan_with(rt, alloc, capture, rules)?;
    let Some((calls, behind_calls)) = calls(alloc, behind_setup, plan.conns())? else {
        return Err(Refusal::No(Reason::Form));
    };
    let Some(histories) = histories(alloc, behind_calls, setup.squeues)? else {
        return Err(Refusal::No(Reason::Form));
    };
    let run = RunSetup {
        plan: &plan,
        calls: &calls,
        setup,
    };
    judge_run(alloc, run, histories.as_slice(), head)
}

/// Whether the marks are those of a right run, and the lines before the setup those of its report.
fn judge_run(
    alloc: Global,
    run: RunSetup<'_, '_>,
    histories: &[&[u8]],
    head: &[u8],
) -> Result<(), Refusal>
    requires { (marks : List (List Mark)) × ArePrintedMarks run.setup.squeues marks × (map (λ l. l.now) histories.now ≡ map (flat_map mark_line) marks) }
    ensures yes { OnOk result ((marks : List (List Mark)) → ArePrintedMarks run.entry.setup.squeues marks
        → map (λ l. l.now) histories.now ≡ map (flat_map mark_line) marks
        → IsHead run.entry.plan.now run.entry.calls.now run.entry.setup marks head.now) }
    ensures no { (r : Reason) → result ≡ Err (Refusal.No r) → (marks : List (List Mark)) → ArePrintedMarks run.entry.setup.squeues marks
        → map (λ l. l.now) histories.now ≡ map (flat_map mark_line) marks
        → FailsFor run.entry.plan.now run.entry.calls.now run.entry.setup marks head.now r }
{
    let guests = replay_all(alloc, run, histories)?;
    let served = serve_orders(alloc, run, guests.as_slice())?;
    let right = report_of(alloc, run.plan, served.as_slice())?;
    match first_wrong(head, right.as_slice()) {
        Some(line) => Err(Refusal::No(Reason::Text(line))),
        None => Ok(()),
    }
}
