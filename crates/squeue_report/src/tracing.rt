//! The report of a run that kept its marks.

ghost use Rattle.std.specs.Prelude.{[], ◌≡◌, ◌+◌, ◌<◌, ◌≤◌, ◌∷◌, ◌++◌, ◌^◌, true, codes, decimal, if◌then◌else◌, length};
ghost use Rattle.std.specs.Prelude.{vec_capacity, drop, map, take, IfOk, OnOk};
ghost use Rattle.std.specs.List.{flat_map};
ghost use Rattle.perimeter_core.specs.declared.marks.Mark.TheVariants as On;
ghost use Rattle.squeue_state.specs.Told.{Within, mark_of, marks_of};
ghost use Rattle.histories.specs.ModeWords.{mode_word};
ghost use Rattle.conn_blocks.specs.CallLists.{calls_of};
ghost use Rattle.conn_classifier.specs.Rules.{usual};
ghost use Rattle.conn_blocks.specs.Limits.{callers};
ghost use Rattle.conn_blocks.specs.ServedBlocks.{AreServed};
ghost use Rattle.text_digits.specs.Told.{more};
ghost use Rattle.segment_codec.specs.Datagrams.{most_datagram};
ghost use Rattle.report_lines.specs.ReportText.{line_end};
ghost use Rattle.squeue_report.specs.Countable.{AreCountable, HasEnd, IsCountable};
ghost use Rattle.squeue_report.specs.Written.{HasTold};
ghost use Rattle.report_lines.specs.TraceText.{setup_line, call_line, thread_text, calls_text};
ghost use Rattle.report_lines.specs.TraceText.{act_fields, entered_field, mark_line, squeue_line, squeue_text, trace_text};

use crate::reporting::push_body;
use conn_blocks::{CALLERS, Calls};
use conn_classifier::{Plan, Rules};
use histories::Mode;
use perimeter_core::{Entry, SynchAct};
use report_lines::push_pair;
use ring_quotas::Setup;
use ring_threads::Served;
use segment_codec::MOST_DATAGRAM;
use sq_base::Octets;
use squeue_state::{Trace, TraceMark};
use std::alloc::{AllocError, Global};
use tcb_machine::Call;
use text_digits::{TextEnd, push_field};

/// The report of what was served by the well-known ports, with the setup, the calls, and the marks of each squeue. There is a block for each connection of
/// the plan, and a trace for each squeue of the setup. Fails only for want of memory.
pub fn report2(
    alloc: Global,
    plan: &Plan,
    calls: &Calls,
    setup: &Setup,
    verify: bool,
    served: &Served,
) -> Result<Octets, AllocError>
    requires blocks { length served.now.blocks ≡ length plan.now.tuples }
    requires traces { length served.now.traces ≡ setup.now.squeues }
    ensures { IfOk result (λ text. AreServed plan.now calls.now served.now.blocks
        → text ≡ trace_text plan.now calls.now setup.now (usual verify) (map (λ b. b.order) served.now.blocks) (map marks_of served.now.traces)) }
{
    countable(setup, served)?;
    let mut text = Vec::new(alloc);
    let mut datagram = Vec::with_capacity(alloc, MOST_DATAGRAM)?;
    push_report2(
        &mut text,
        &mut datagram,
        plan,
        calls,
        setup,
        Rules::usual(verify),
        served,
    )?;
    Ok(Octets::wrap(text))
}

/// Appends that report of a plan by these rules. Each datagram is made in `datagram`, whose bytes are lost.
pub fn push_report2<T: TextEnd>(
    text: &mut T,
    datagram: &mut Vec<u8>,
    plan: &Plan,
    calls: &Calls,
    setup: &Setup,
    rules: Rules,
    served: &Served,
) -> Result<(), T::Fault>
    requires blocks { length served.now.blocks ≡ length plan.now.tuples }
    requires traces { length served.now.traces ≡ setup.now.squeues }
    requires countable { AreCountable served.now.traces }
    requires room { most_datagram ≤ vec_capacity datagram.old }
    ensures { OnOk result (HasTold (λ told. AreServed plan.now calls.now served.now.blocks
        → told ≡ trace_text plan.now calls.now setup.now rules (map (λ b. b.order) served.now.blocks) (map marks_of served.now.traces))
        (T.told text.old) (T.told text.new)) }
{
    text.put(b"report 2\n")?;
    push_body(text, datagram, plan, served)?;
    push_setup(text, setup, rules)?;
    push_calls(text, calls)?;
    for q in 0..setup.squeues {
        push_squeue(text, q, served.trace(q))?;
    }
    text.put(b"done\n")?;
    Ok(())
}

/// That the places in all traces can be counted; an error else, since no trace in memory is as long as that.
pub fn countable(setup: &Setup, served: &Served) -> Result<(), AllocError>
    requires { length served.now.traces ≡ setup.now.squeues }
    ensures { OnOk result (AreCountable served.now.traces) }
{
    for q in 0..setup.squeues {
        if !is_countable(served.trace(q)) {
            return Err(AllocError);
        }
    }
    Ok(())
}

/// Whether the places in a trace can be counted.
pub fn is_countable(trace: &Trace) -> bool
    ensures { result ≡ true → IsCountable trace.now }
{
    for i in 0..trace.len() {
        if !has_end(trace.mark(i)) {
            return false;
        }
    }
    true
}

fn has_end(mark: TraceMark) -> bool
    ensures { result ≡ true → HasEnd mark }
{
    match mark {
        TraceMark::Fill { first, len, .. } => first.checked_add(len).is_some(),
        TraceMark::Claim { first, len, .. } => first.checked_add(len).is_some(),
        _ => true,
    }
}

fn push_setup<T: TextEnd>(text: &mut T, setup: &Setup, rules: Rules) -> Result<(), T::Fault>
    ensures { OnOk result (T.told text.new ≡ more (T.told text.old) (setup_line setup.now rules)) }
{
    push_sizes(text, setup)?;
    push_mode(text, setup.mode)?;
    push_pace(text, setup, rules)?;
    Ok(())
}

/// How many squeues and rings there are.
#[tactic(auto, using(report_lines::proofs::Joins::joins))]
fn push_sizes<T: TextEnd>(text: &mut T, setup: &Setup) -> Result<(), T::Fault>
    ensures { OnOk result (T.told text.new ≡ more (T.told text.old)
        (codes "setup squeues " ++ (decimal setup.now.squeues ++ (codes " rings " ++ decimal setup.now.rings)))) }
{
    push_field(text, b"setup squeues ", setup.squeues)?;
    push_field(text, b" rings ", setup.rings)
}

#[tactic(auto, using(report_lines::proofs::Joins::joins))]
fn push_mode<T: TextEnd>(text: &mut T, mode: Mode) -> Result<(), T::Fault>
    ensures { OnOk result (T.told text.new ≡ more (T.told text.old) (codes " mode " ++ mode_word mode)) }
{
    text.put(b" mode ")?;
    text.put(mode.word().as_bytes())
}

/// The rest of the setup's line.
#[tactic(auto, using(report_lines::proofs::Joins::joins))]
fn push_pace<T: TextEnd>(text: &mut T, setup: &Setup, rules: Rules) -> Result<(), T::Fault>
    ensures { OnOk result (T.told text.new ≡ more (T.told text.old) (codes " budget " ++ (decimal setup.now.budget
        ++ (codes " spread " ++ (decimal setup.now.spread ++ (codes " verify " ++ (decimal (if rules.verify then 1 else 0) ++ 10 ∷ []))))))) }
{
    push_field(text, b" budget ", setup.budget)?;
    push_field(text, b" spread ", setup.spread)?;
    push_number(text, b" verify ", u64::from(rules.verify))
}

/// The calls of all application threads.
fn push_calls<T: TextEnd>(text: &mut T, calls: &Calls) -> Result<(), T::Fault>
    ensures { OnOk result (T.told text.new ≡ more (T.told text.old) (calls_text calls.now)) }
{
    for j in 0..CALLERS {
        push_thread(text, calls, j)?;
    }
    Ok(())
}

/// The calls of thread `j`.
fn push_thread<T: TextEnd>(text: &mut T, calls: &Calls, j: u32) -> Result<(), T::Fault>
    requires { j < callers }
    ensures text { OnOk result (T.told text.new ≡ more (T.told text.old) (thread_text (j, calls_of calls.now j))) }
    ensures threads { length calls.now ≡ callers }
{
    for k in 0..calls.len(j) {
        let (c, call) = calls.get(j, k);
        push_call(text, j, c, call)?;
    }
    Ok(())
}

#[tactic(auto, using(report_lines::proofs::Joins::joins), unfolding(report_lines::specs::TraceText::call_line))]
fn push_call<T: TextEnd>(text: &mut T, j: u32, c: u32, call: Call) -> Result<(), T::Fault>
    ensures { OnOk result (T.told text.new ≡ more (T.told text.old) (call_line j (c, call))) }
{
    push_field(text, b"call ", j)?;
    push_field(text, b":", c)?;
    match call {
        Call::Status => text.put(b":status\n"),
        Call::Buffer(size) => push_number(text, b":buffer=", u64::from(size)),
        Call::Close => text.put(b":close\n"),
    }
}

/// What squeue `q` has in the report.
pub fn push_squeue<T: TextEnd>(text: &mut T, q: u32, trace: &Trace) -> Result<(), T::Fault>
    requires { IsCountable trace.now }
    ensures { OnOk result (T.told text.new ≡ more (T.told text.old) (squeue_text (q, marks_of trace.now))) }
{
    push_heading(text, q, trace.len())?;
    push_marks(text, trace)?;
    Ok(())
}

#[tactic(auto, using(report_lines::proofs::Joins::joins), unfolding(report_lines::specs::TraceText::squeue_line))]
fn push_heading<T: TextEnd>(text: &mut T, q: u32, count: u64) -> Result<(), T::Fault>
    ensures { OnOk result (T.told text.new ≡ more (T.told text.old) (squeue_line q count)) }
{
    push_field(text, b"squeue ", q)?;
    push_number(text, b" marks ", count)
}

/// A word and a number that end a line.
#[tactic(auto, using(report_lines::proofs::Joins::joins))]
fn push_number<T: TextEnd>(text: &mut T, word: &[u8], n: u64) -> Result<(), T::Fault>
    ensures { OnOk result (T.told text.new ≡ more (T.told text.old) (word.now ++ (decimal n ++ 10 ∷ []))) }
{
    push_field(text, word, n)?;
    text.put(b"\n")
}

fn push_marks<T: TextEnd>(text: &mut T, trace: &Trace) -> Result<(), T::Fault>
    requires { IsCountable trace.now }
    ensures { OnOk result (T.told text.new ≡ more (T.told text.old) (flat_map mark_line (marks_of trace.now))) }
{
    for i in 0..trace.len() {
        push_mark(text, trace, trace.mark(i))?;
    }
    Ok(())
}

#[tactic(auto, using(report_lines::proofs::Joins::joins), unfolding(report_lines::specs::TraceText::mark_line))]
fn push_mark<T: TextEnd>(text: &mut T, trace: &Trace, mark: TraceMark) -> Result<(), T::Fault>
    requires places { Within (length trace.now.entries) mark }
    requires countable { HasEnd mark }
    ensures { OnOk result (T.told text.new ≡ more (T.told text.old) (mark_line (mark_of trace.now.entries mark))) }
{
    match mark {
        TraceMark::Fill { p, first, len } => {
            push_field(text, b"fill ", p)?;
            push_entries(text, trace, first, len)
        }
        TraceMark::Fast { p, first } => {
            push_field(text, b"fast ", p)?;
            push_entry(text, trace.entry(first))?;
            text.put(b"\n")
        }
        TraceMark::Claim { p, first, len } => {
            push_field(text, b"claim ", p)?;
            push_entries(text, trace, first, len)
        }
        TraceMark::Take { p } => push_number(text, b"take ", u64::from(p)),
        TraceMark::Leave { p, rest, act } => push_leave(text, p, rest, act),
        TraceMark::Ask { p } => push_number(text, b"ask ", u64::from(p)),
        TraceMark::Grant { p, j, rest } => {
            push_field(text, b"grant ", p)?;
            push_field(text, b" ", j)?;
            push_number(text, b" ", rest)
        }
        TraceMark::Accept { j } => push_number(text, b"accept ", u64::from(j)),
        TraceMark::Work { p } => push_number(text, b"work ", u64::from(p)),
        TraceMark::Close { p } => push_number(text, b"close ", u64::from(p)),
    }
}

/// The rest of the line of a mark that names these entries.
fn push_entries<T: TextEnd>(
    text: &mut T,
    trace: &Trace,
    first: u64,
    len: u64,
) -> Result<(), T::Fault>
    requires places { first + len ≤ length trace.now.entries }
    requires countable { first + len < 2 ^ 64 }
    ensures { OnOk result (T.told text.new ≡ more (T.told text.old) (line_end (map entered_field (take len (drop first trace.now.entries))))) }
{
    for i in first..first + len {
        push_entry(text, trace.entry(i))?;
    }
    text.put(b"\n")?;
    Ok(())
}

#[tactic(auto, using(report_lines::proofs::Joins::joins))]
fn push_entry<T: TextEnd>(text: &mut T, entry: Entry) -> Result<(), T::Fault>
    ensures { OnOk result (T.told text.new ≡ more (T.told text.old) (32 ∷ entered_field entry)) }
{
    match entry {
        Entry::Feed { c, n } => push_pair(text, b" ", c, n),
        Entry::Ask { .. } => text.put(b" ask"),
    }
}

/// The line of an owner that leaves, with what it did.
#[tactic(auto, using(report_lines::proofs::Joins::joins), unfolding(report_lines::specs::TraceText::mark_line))]
fn push_leave<T: TextEnd>(text: &mut T, p: u32, rest: u64, act: SynchAct) -> Result<(), T::Fault>
    ensures { OnOk result (T.told text.new ≡ more (T.told text.old) (mark_line (On.Leave p rest act))) }
{
    push_field(text, b"leave ", p)?;
    push_field(text, b" ", rest)?;
    push_act(text, act)
}

/// The rest of such a line: what the owner did.
#[tactic(auto, using(report_lines::proofs::Joins::joins))]
fn push_act<T: TextEnd>(text: &mut T, act: SynchAct) -> Result<(), T::Fault>
    ensures { OnOk result (T.told text.new ≡ more (T.told text.old) (line_end (act_fields act))) }
{
    match act {
        SynchAct::None => text.put(b" none\n"),
        SynchAct::Call { c, j, k } => {
            push_field(text, b" call ", c)?;
            push_field(text, b" ", j)?;
            push_number(text, b" ", u64::from(k))
        }
        SynchAct::Away => text.put(b" away\n"),
        SynchAct::Out { c } => push_number(text, b" out ", u64::from(c)),
        SynchAct::In { c } => push_number(text, b" in ", u64::from(c)),
    }
}
