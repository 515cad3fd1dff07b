//! Does what a row says: one run, or several that differ in their words, in how much of the input there is, or in what fails.

ghost use Rattle.std.specs.Prelude.{◌≡◌, ◌∷◌, [], codes, false, is_ok, take, true, unwrap_or, IfOk, OnOk};
ghost use Rattle.case_rows.specs.Givens.{Gives};
ghost use Rattle.case_rows.specs.Rows.{lines_named, AreNumbers};
ghost use Rattle.case_rows.specs.Runs.{all, Passes, PassesAll, PassesEach, PassesFronts, PassesOnce, PassesRead, PassesReads, PassesWords};
ghost use Rattle.case_rows.specs.Runs.{PassesWrite, PassesWrites};

use crate::fault::RowFault;
use crate::given::{Given, given_of};
use crate::program::came_of;
use crate::rows::{Row, words_of};
use crate::wanted::{expect, front};
use sq_base::{MemSink, MemSource};
use std::alloc::Global;

/// The fields of a row.
const FIELDS: [&str; 22] = [
    "words",
    "input",
    "text",
    "change",
    "reads",
    "writes",
    "failing_reads",
    "failing_writes",
    "failing_tellings",
    "status",
    "out",
    "err",
    "out_bytes",
    "begins",
    "ends",
    "among",
    "marks",
    "sum",
    "each",
    "fronts",
    "each_read",
    "each_write",
];

/// Of these a row has one at most.
const FORMS: [&str; 5] = ["each", "fronts", "each_read", "each_write", "out_bytes"];

/// Runs what a row says, and compares. A fault says what differs, or that the row says two things at once.
pub fn judge_run<P: Fn(Global, &[String], &mut MemSource, &mut MemSink, &mut MemSink) -> u8>(
    program: &P,
    alloc: Global,
    row: &Row<'_>,
) -> Result<(), RowFault>
    requires { P.IsAlwaysCallable program.now }
    ensures { OnOk result (PassesAll P.Fn program.now row.now.fields.items) }
{
    row.expect_fields(alloc, &FIELDS)?;
    expect_one_form(alloc, row)?;
    let mut given = given_of(alloc, row)?;
    if row.has("each") {
        each_words(program, alloc, row, &mut given)
    } else if row.has("fronts") {
        each_front(program, alloc, row, &given)
    } else if row.has("each_read") {
        each_read(program, alloc, row, &mut given)
    } else if row.has("each_write") {
        each_write(program, alloc, row, &mut given)
    } else {
        judge_once(program, alloc, row, &given)
    }
}

/// The one run of a row, which gives this.
fn judge_once<P: Fn(Global, &[String], &mut MemSource, &mut MemSink, &mut MemSink) -> u8>(
    program: &P,
    alloc: Global,
    row: &Row<'_>,
    given: &Given,
) -> Result<(), RowFault>
    requires callable { P.IsAlwaysCallable program.now }
    requires gives { Gives row.now.fields.items given.now }
    ensures { OnOk result (PassesOnce P.Fn program.now row.now.fields.items) }
{
    let len = row.number(alloc, "out_bytes", u64::MAX)?;
    judge_one(program, alloc, row, given, &given.input, len as usize)
}

/// One run over this input: what came is what the row wants; of its `out` so many bytes.
fn judge_one<P: Fn(Global, &[String], &mut MemSource, &mut MemSink, &mut MemSink) -> u8>(
    program: &P,
    alloc: Global,
    row: &Row<'_>,
    given: &Given,
    input: &[u8],
    len: usize,
) -> Result<(), RowFault>
    requires { P.IsAlwaysCallable program.now }
    ensures { OnOk result (Passes P.Fn program.now row.now.fields.items given.now input.now len) }
{
    let came = came_of(program, alloc, given, input)?;
    expect(alloc, row, &came, len)
}

/// A row has one of the forms at most.
fn expect_one_form(alloc: Global, row: &Row<'_>) -> Result<(), RowFault> {
    let mut found = "";
    for form in FORMS {
        if row.has(form) {
            if !found.is_empty() {
                return Err(RowFault::told(alloc, &["both ", found, " and ", form]));
            }
            found = form;
        }
    }
    Ok(())
}

/// A row of several runs has one at least.
fn expect_some(alloc: Global, none: bool) -> Result<(), RowFault>
    ensures { OnOk result (none ≡ false) }
{
    if none {
        return Err(RowFault::told(alloc, &["the row runs nothing"]));
    }
    Ok(())
}

/// The same fault with its run named.
fn in_run(alloc: Global, run: &str, judged: Result<(), RowFault>) -> Result<(), RowFault>
    ensures { is_ok result ≡ true → is_ok judged ≡ true }
{
    match judged {
        Err(RowFault::Told(line)) => Err(RowFault::told(alloc, &[run, ": ", line.as_str()])),
        other => other,
    }
}

/// The same with a number in the run's name.
fn in_numbered(
    alloc: Global,
    before: &str,
    number: u64,
    behind: &str,
    judged: Result<(), RowFault>,
) -> Result<(), RowFault>
    ensures { is_ok result ≡ true → is_ok judged ≡ true }
{
    match judged {
        Err(RowFault::Told(line)) => {
            Err(RowFault::Told(format!(in alloc; "{before}{number}{behind}: {line}")?))
        }
        other => other,
    }
}

/// Makes this the only call that fails.
fn let_fail(calls: &mut Vec<u64>, call: u64) -> Result<(), RowFault>
    ensures { OnOk result (calls.new.items ≡ call ∷ []) }
{
    calls.clear();
    calls.push(call)?;
    Ok(())
}

/// A run with each line of words.
fn each_words<P: Fn(Global, &[String], &mut MemSource, &mut MemSink, &mut MemSink) -> u8>(
    program: &P,
    alloc: Global,
    row: &Row<'_>,
    given: &mut Given,
) -> Result<(), RowFault>
    requires callable { P.IsAlwaysCallable program.now }
    requires gives { Gives row.now.fields.items given.old }
    ensures { OnOk result (PassesEach P.Fn program.now row.now.fields.items (unwrap_or (lines_named row.now.fields.items (codes "each")) [])) }
{
    let lines = row.lines("each");
    expect_some(alloc, lines.is_empty())?;
    for line in lines {
        run_words(program, alloc, row, given, line)?;
    }
    Ok(())
}

/// A run with a line of words.
fn run_words<P: Fn(Global, &[String], &mut MemSource, &mut MemSink, &mut MemSink) -> u8>(
    program: &P,
    alloc: Global,
    row: &Row<'_>,
    given: &mut Given,
    line: &str,
) -> Result<(), RowFault>
    requires callable { P.IsAlwaysCallable program.now }
    ensures passes { OnOk result (PassesWords P.Fn program.now row.now.fields.items given.old line.now) }
    ensures same { OnOk result (given.new ≡ record given.old { words = given.new.words }) }
{
    given.words = words_of(alloc, line)?;
    let judged = judge_one(program, alloc, row, given, &given.input, usize::MAX);
    in_run(alloc, line, judged)
}

/// A run over each front.
fn each_front<P: Fn(Global, &[String], &mut MemSource, &mut MemSink, &mut MemSink) -> u8>(
    program: &P,
    alloc: Global,
    row: &Row<'_>,
    given: &Given,
) -> Result<(), RowFault>
    requires callable { P.IsAlwaysCallable program.now }
    requires gives { Gives row.now.fields.items given.now }
    ensures { OnOk result (PassesFronts P.Fn program.now row.now.fields.items) }
{
    let (first, end) = row.pair(alloc, "fronts")?;
    expect_some(alloc, first >= end)?;
    for len in first..end {
        run_front(program, alloc, row, given, len)?;
    }
    Ok(())
}

/// A run over a front.
fn run_front<P: Fn(Global, &[String], &mut MemSource, &mut MemSink, &mut MemSink) -> u8>(
    program: &P,
    alloc: Global,
    row: &Row<'_>,
    given: &Given,
    len: u64,
) -> Result<(), RowFault>
    requires callable { P.IsAlwaysCallable program.now }
    ensures passes { OnOk result (Passes P.Fn program.now row.now.fields.items given.now (take len given.now.input.items) all) }
{
    let input = front(&given.input, len as usize);
    let judged = judge_one(program, alloc, row, given, input, usize::MAX);
    in_numbered(alloc, "", len, " bytes", judged)
}

/// A run with each read failing.
fn each_read<P: Fn(Global, &[String], &mut MemSource, &mut MemSink, &mut MemSink) -> u8>(
    program: &P,
    alloc: Global,
    row: &Row<'_>,
    given: &mut Given,
) -> Result<(), RowFault>
    requires callable { P.IsAlwaysCallable program.now }
    requires gives { Gives row.now.fields.items given.old }
    ensures { OnOk result (PassesReads P.Fn program.now row.now.fields.items) }
{
    let runs = row.number(alloc, "each_read", 0)?;
    expect_some(alloc, runs == 0)?;
    for call in 0..runs {
        run_read(program, alloc, row, given, call)?;
    }
    Ok(())
}

/// A run with a read failing.
fn run_read<P: Fn(Global, &[String], &mut MemSource, &mut MemSink, &mut MemSink) -> u8>(
    program: &P,
    alloc: Global,
    row: &Row<'_>,
    given: &mut Given,
    call: u64,
) -> Result<(), RowFault>
    requires callable { P.IsAlwaysCallable program.now }
    ensures passes { OnOk result (PassesRead P.Fn program.now row.now.fields.items given.old call) }
    ensures same { OnOk result (given.new ≡ record given.old { failing = record given.old.failing { reads = given.new.failing.reads } }) }
{
    let_fail(&mut given.failing.reads, call)?;
    let judged = judge_one(program, alloc, row, given, &given.input, usize::MAX);
    in_numbered(alloc, "read ", call, "", judged)
}

/// A run with each write failing: what the writes before took was written.
fn each_write<P: Fn(Global, &[String], &mut MemSource, &mut MemSink, &mut MemSink) -> u8>(
    program: &P,
    alloc: Global,
    row: &Row<'_>,
    given: &mut Given,
) -> Result<(), RowFault>
    requires callable { P.IsAlwaysCallable program.now }
    requires gives { Gives row.now.fields.items given.old }
    ensures { OnOk result (PassesWrites P.Fn program.now row.now.fields.items) }
{
    let runs = row.number(alloc, "each_write", 0)?;
    expect_some(alloc, runs == 0)?;
    for call in 0..runs {
        run_write(program, alloc, row, given, call)?;
    }
    Ok(())
}

/// A run with a write failing.
fn run_write<P: Fn(Global, &[String], &mut MemSource, &mut MemSink, &mut MemSink) -> u8>(
    program: &P,
    alloc: Global,
    row: &Row<'_>,
    given: &mut Given,
    call: u64,
) -> Result<(), RowFault>
    requires callable { P.IsAlwaysCallable program.now }
    ensures passes { OnOk result (PassesWrite P.Fn program.now row.now.fields.items given.old call) }
    ensures same { OnOk result (given.new ≡ record given.old { failing = record given.old.failing { writes = given.new.failing.writes } }) }
{
    let_fail(&mut given.failing.writes, call)?;
    let len = (call as usize).saturating_mul(given.writes);
    let judged = judge_one(program, alloc, row, given, &given.input, len);
    in_numbered(alloc, "write ", call, "", judged)
}
