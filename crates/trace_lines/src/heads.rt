//! The lines before the marks: the setup, and the calls of the application threads.

ghost use Rattle.std.specs.Prelude.{◌≡◌, ℕ, ◌^◌, ◌<◌, ◌≤◌, ◌↔◌, Bool, true, List, ◌++◌, IfOk, IsTrue, MatchOption};
ghost use Rattle.conn_blocks.specs.CallLists.{CallLists};
ghost use Rattle.conn_classifier.specs.Rules.{usual};
ghost use Rattle.report_lines.specs.TraceText.{call_line, calls_text, setup_line};
ghost use Rattle.tcb_machine.specs.declared.kinds.Call.{Call as CallOf};
ghost use Rattle.ring_quotas.specs.Limits.{most_budget, most_rings, most_spread, most_squeues};
ghost use Rattle.ring_quotas.specs.declared.setup.Setup.{Setup as SetupOf};
ghost use Rattle.trace_lines.specs.Forms.{filled, is_form, blank_count};
ghost use Rattle.trace_lines.specs.Printed.{ArePrintedCalls, ArePrintedRules, BeginsWithCall, IsPrintedCall, IsPrintedSetup, setup_numbers};

use crate::forms::by_form;
use conn_blocks::{CALLERS, Calls, MOST_CALLS};
use conn_classifier::Rules;
use ring_quotas::{MOST_BUDGET, MOST_RINGS, MOST_SPREAD, MOST_SQUEUES, Mode, Setup};
use std::alloc::{AllocError, Global};
use tcb_machine::{Call, PLAIN_SPACE};

/// The setup, each number in its range, the rules that the plan was made by, and the text behind the line. `None` where
/// the text begins with no such line.
///
/// # Example
///
/// ```
/// let text = b"setup squeues 2 rings 3 mode nodrain budget 64 spread 5 verify 1\ncall";
/// let Some((setup, rules, rest)) = setup_line(text) else {
///     panic!(rt; "the setup isn't read")
/// };
/// assert_eq!(rt; (setup.squeues, setup.rings), (2, 3));
/// ```
pub fn setup_line(text: &[u8]) -> Option<(Setup, Rules, &[u8])>
    ensures { MatchOption result
        ((s : SetupOf) (verify : Bool) (rest : List ℕ) → IsPrintedSetup s → text.now ≡ setup_line s (usual verify) ++ rest → ⊥)
        (λ r. IsPrintedSetup r.0 × (text.now ≡ setup_line r.0 (usual r.1.verify) ++ r.2.now) × ArePrintedRules r.1) }
{
    let process = b"setup squeues # rings # mode process budget # spread # verify #\n";
    if let Some((setup, verify, rest)) = setup_by(text, Mode::Process, process) {
        return Some((setup, Rules::usual(verify), rest));
    }
    let no_drain = b"setup squeues # rings # mode nodrain budget # spread # verify #\n";
    if let Some((setup, verify, rest)) = setup_by(text, Mode::NoDrain, no_drain) {
        return Some((setup, Rules::usual(verify), rest));
    }
    let fill = b"setup squeues # rings # mode fill budget # spread # verify #\n";
    if let Some((setup, verify, rest)) = setup_by(text, Mode::Fill, fill) {
        return Some((setup, Rules::usual(verify), rest));
    }
    None
}

/// A setup with this mode, whose line has this form.
fn setup_by<'a>(text: &'a [u8], mode: Mode, form: &[u8]) -> Option<(Setup, bool, &'a [u8])>
    requires form { is_form form.now ≡ true }
    requires blanks { blank_count form.now ≡ 5 }
    ensures { MatchOption result
        ((s : SetupOf) (verify : Bool) (rest : List ℕ) → IsPrintedSetup s → text.entry.now ≡ filled form.now (setup_numbers s verify) ++ rest → ⊥)
        (λ r. IsPrintedSetup r.0 × (r.0.mode ≡ mode) × (text.entry.now ≡ filled form.now (setup_numbers r.0 r.1) ++ r.2.now)) }
{
    let Some(found) = by_form::<5>(text, form) else {
        return None;
    };
    let numbers = found.0;
    if !is_in_range(numbers[0], numbers[1], numbers[2], numbers[3]) {
        return None;
    }
    if numbers[4] > 1 {
        return None;
    }
    let setup = Setup {
        squeues: numbers[0],
        rings: numbers[1],
        mode,
        budget: numbers[2],
        spread: numbers[3],
        trace: true,
    };
    Some((setup, numbers[4] == 1, found.1))
}

/// Whether a setup may have these numbers, and its budget fits its field.
fn is_in_range(squeues: u32, rings: u32, budget: u32, spread: u32) -> bool
    ensures { IsTrue result ↔ (((1 ≤ squeues) × (squeues ≤ most_squeues)) × ((1 ≤ rings) × (rings ≤ most_rings))
        × ((1 ≤ budget) × (budget ≤ most_budget)) × (spread ≤ most_spread)) }
{
    1 <= squeues
        && squeues <= MOST_SQUEUES
        && 1 <= rings
        && rings <= MOST_RINGS
        && 1 <= budget
        && budget <= MOST_BUDGET
        && spread <= MOST_SPREAD
}

/// One call: its thread, its connection, and what is asked.
fn call_line(text: &[u8]) -> Option<(u32, u32, Call, &[u8])>
    ensures { MatchOption result
        ((j c : ℕ) (call : CallOf) (rest : List ℕ) → j < 2 ^ 32 → IsPrintedCall (2 ^ 32) (c, call) → text.now ≡ call_line j (c, call) ++ rest → ⊥)
        (λ r. (r.0 < 2 ^ 32) × IsPrintedCall (2 ^ 32) (r.1, r.2) × (text.now ≡ call_line r.0 (r.1, r.2) ++ r.3.now)) }
{
    if let Some(found) = by_form::<2>(text, b"call #:#:status\n") {
        let numbers = found.0;
        return Some((numbers[0], numbers[1], Call::Status, found.1));
    }
    if let Some(found) = by_form::<2>(text, b"call #:#:close\n") {
        let numbers = found.0;
        return Some((numbers[0], numbers[1], Call::Close, found.1));
    }
    let Some(found) = by_form::<3>(text, b"call #:#:buffer=#\n") else {
        return None;
    };
    let numbers = found.0;
    if numbers[2] > PLAIN_SPACE {
        return None;
    }
    Some((
        numbers[0],
        numbers[1],
        Call::Buffer(numbers[2] as u16),
        found.1,
    ))
}

fn begins_with_call(text: &[u8]) -> bool
    ensures { IsTrue result ↔ BeginsWithCall text.now }
{
    text.starts_with(b"call ")
}

/// The calls whose lines the text begins with, at most 1,024 on connections below `conns`, and in order of their threads. Fails
/// only for want of memory.
pub fn calls(alloc: Global, text: &[u8], conns: u32) -> Result<Option<(Calls, &[u8])>, AllocError>
    ensures { IfOk result (λ o. MatchOption o
        ((calls : CallLists) (rest : List ℕ) → ArePrintedCalls conns calls → (BeginsWithCall rest → ⊥) → text.now ≡ calls_text calls ++ rest → ⊥)
        (λ r. ArePrintedCalls conns r.0 × (BeginsWithCall r.1.now → ⊥) × (text.now ≡ calls_text r.0 ++ r.1.now))) }
{
    let mut calls = Calls::make(alloc);
    let mut rest = text;
    let mut last = 0;
    for _ in 0..MOST_CALLS {
        if !begins_with_call(rest) {
            return Ok(Some((calls, rest)));
        }
        let Some((j, c, call, others)) = call_line(rest) else {
            return Ok(None);
        };
        if j < last || j >= CALLERS || c >= conns {
            return Ok(None);
        }
        calls.push(j, c, call)?;
        last = j;
        rest = others;
    }
    if begins_with_call(rest) {
        return Ok(None);
    }
    Ok(Some((calls, rest)))
}
