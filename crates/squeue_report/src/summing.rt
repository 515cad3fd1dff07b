//! The line that sums up a generated run.

ghost use Rattle.std.specs.Prelude.{◌≡◌, ◌≤◌, ◌^◌, ◌*◌, ◌++◌, length, map, IfOk, OnOk, sum_by, string_bytes, vec_capacity};
ghost use Rattle.tcb_machine.specs.Limits.{most_mss};
ghost use Rattle.conn_blocks.specs.CallLists.{CallLists};
ghost use Rattle.conn_blocks.specs.ServedBlocks.{AreServed};
ghost use Rattle.segment_codec.specs.Datagrams.{most_datagram};
ghost use Rattle.report_lines.specs.ReportText.{report_text};
ghost use Rattle.squeue_report.specs.SummaryText.{check_of, text_size, digits_of, summary_line, summary_text};

use crate::checking::Checked;
use crate::reporting::push_report;
use conn_classifier::Plan;
use ring_threads::Served;
use segment_codec::MOST_DATAGRAM;
use sq_base::Octets;
use std::alloc::{AllocError, Global};
use tcb_machine::Tcb;

/// The number of replies, and the bytes of text in them.
fn totals(plan: &Plan, served: &Served) -> (u128, u128)
    requires { length served.now.blocks ≡ length plan.now.tuples }
    ensures replies { result.0 ≡ sum_by (λ b. length b.tcb.replies) served.now.blocks }
    ensures octets { result.1 ≡ sum_by (λ b. text_size b.tcb.replies) served.now.blocks }
{
    let mut replies = 0u128;
    let mut octets = 0u128;
    for c in 0..plan.conns() {
        let tcb = served.block(c).tcb();
        replies += tcb.replies() as u128;
        octets += octets_of(tcb);
    }
    (replies, octets)
}

/// The bytes of text in a connection's replies.
fn octets_of(tcb: &Tcb) -> u128
    ensures value { result ≡ text_size tcb.now.replies }
    ensures most { result ≤ most_mss * 2 ^ 64 }
{
    let mut octets = 0u128;
    for i in 0..tcb.replies() {
        octets += tcb.reply(i).text.as_slice().len() as u128;
    }
    octets
}

/// What a summary counts.
#[derive(Clone, Copy, Debug)]
struct Sums {
    bytes: usize,
    records: u32,
    conns: u32,
    replies: u128,
    octets: u128,
}

/// The check value's sixteen digits.
fn digits_of(alloc: Global, check: u64) -> Result<String, AllocError>
    ensures { IfOk result (λ text. string_bytes text ≡ digits_of check) }
{
    hex::encode(alloc, check.to_be_bytes().as_slice())
}

/// The summary's line.
fn push_line(text: &mut String, number: u32, sums: &Sums, check: &str) -> Result<(), AllocError>
    ensures { OnOk result (string_bytes text.new ≡ string_bytes text.old
        ++ summary_line number sums.now.bytes sums.now.records sums.now.conns sums.now.replies sums.now.octets check.now) }
{
    write!(
        text,
        "generated {number} bytes {} records {}",
        sums.bytes, sums.records
    )?;
    write!(
        text,
        " connections {} replies {} octets {}",
        sums.conns, sums.replies, sums.octets
    )?;
    writeln!(text, " check {check}")?;
    Ok(())
}

/// The summary of the run over the input generated for `number`. Fails only for want of memory.
#[tactic(auto, using(crate::proofs::Sums::replies_are, crate::proofs::Sums::octets_are), unfolding(crate::specs::SummaryText::summary_text))]
pub fn summary(
    alloc: Global,
    number: u32,
    input: &[u8],
    plan: &Plan,
    served: &Served,
) -> Result<Octets, AllocError>
    requires { length served.now.blocks ≡ length plan.now.tuples }
    ensures { IfOk result (λ text. (calls : CallLists) → AreServed plan.now calls served.now.blocks
        → text ≡ summary_text number input.now plan.now calls (map (λ b. b.order) served.now.blocks)) }
{
    let mut datagram = Vec::with_capacity(alloc, MOST_DATAGRAM)?;
    let check = checked(&mut datagram, plan, served);
    let (replies, octets) = totals(plan, served);
    let sums = Sums {
        bytes: input.len(),
        records: plan.counts().records,
        conns: plan.conns(),
        replies,
        octets,
    };
    let digits = digits_of(alloc, check)?;
    let mut text = String::new(alloc);
    push_line(&mut text, number, &sums, digits.as_str())?;
    Ok(Octets::wrap(text.into_bytes()))
}

/// The check value of the report, of which no piece is kept. Each datagram is made in `datagram`.
fn checked(datagram: &mut Vec<u8>, plan: &Plan, served: &Served) -> u64
    requires blocks { length served.now.blocks ≡ length plan.now.tuples }
    requires room { most_datagram ≤ vec_capacity datagram.old }
    ensures { (calls : CallLists) → AreServed plan.now calls served.now.blocks
        → result ≡ check_of (report_text plan.now calls (map (λ b. b.order) served.now.blocks)) }
{
    let mut end = Checked::new();
    match push_report(&mut end, datagram, plan, served) {
        Ok(()) => end.value(),
        Err(never) => match never {},
    }
}
