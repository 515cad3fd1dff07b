//! The report, line by line.

ghost use Rattle.std.specs.Prelude.{[], ◌≡◌, ◌<◌, ◌≤◌, ◌∷◌, ◌++◌, codes, decimal, IfOk, IfSome, OnOk, if◌then◌else◌, length, slice_get, vec_capacity};
ghost use Rattle.std.specs.List.{flat_map};
ghost use Rattle.segment_codec.specs.Datagrams.{most_datagram};
ghost use Rattle.text_digits.specs.Told.{more};
ghost use Rattle.report_lines.specs.ReportText.{end_line, reply_line};
ghost use Rattle.datagram_services.specs.Items.{all_served};
ghost use Rattle.datagram_services.specs.MoreText.{answer_line, counts_line, is_generator, items_line, plan_text};
ghost use Rattle.datagram_services.specs.MoreText.{protocol_word, service_word, stream_line, stream_text};
ghost use Rattle.datagram_services.specs.Served.{IsMoreServed};

use crate::answer::SentDatagram;
use crate::served::MoreServed;
use chargen_service::GenBlock;
use report_lines::{push_datagram, push_last, push_next_end, push_replies};
use segment_codec::MOST_DATAGRAM;
use sq_base::{CHARGEN_PORT, ECHO_PORT, Octets, Tuple};
use std::alloc::{AllocError, Global};
use stream_plan::MorePlan;
use text_digits::{TextEnd, push_field};

/// The report of what was served of the plan: the counts, and for each stream its ends and service, its items, what was sent, and the
/// generator's last state. Fails only for want of memory.
pub fn more_report(
    alloc: Global,
    plan: &MorePlan<'_>,
    served: &MoreServed,
) -> Result<Octets, AllocError>
    requires { IsMoreServed plan.now served.now.streams }
    ensures { IfOk result (λ text. text ≡ plan_text plan.now) }
{
    let mut text = Vec::new(alloc);
    let mut datagram = Vec::with_capacity(alloc, MOST_DATAGRAM)?;
    push_report(&mut text, &mut datagram, plan, served)?;
    Ok(Octets::wrap(text))
}

/// Appends that report. Each datagram is made in `datagram`, whose bytes are lost.
pub fn push_report<T: TextEnd>(
    text: &mut T,
    datagram: &mut Vec<u8>,
    plan: &MorePlan<'_>,
    served: &MoreServed,
) -> Result<(), T::Fault>
    requires served { IsMoreServed plan.now served.now.streams }
    requires room { most_datagram ≤ vec_capacity datagram.old }
    ensures { OnOk result (T.told text.new ≡ more (T.told text.old) (plan_text plan.now)) }
{
    text.put(b"more 1\n")?;
    push_counts(text, plan)?;
    for c in 0..plan.streams() {
        push_stream(text, datagram, plan, served, c)?;
    }
    text.put(b"done\n")?;
    Ok(())
}

fn push_counts<T: TextEnd>(text: &mut T, plan: &MorePlan<'_>) -> Result<(), T::Fault>
    ensures { OnOk result (T.told text.new ≡ more (T.told text.old)
        (counts_line (length plan.now.file.packets) plan.now.file.cut plan.now.counts (length plan.now.streams))) }
{
    push_records(text, plan)?;
    push_kinds(text, plan)?;
    push_streams(text, plan)?;
    Ok(())
}

/// How many records there are, and whether the last one is cut.
#[tactic(auto, using(crate::proofs::Joins::joins))]
fn push_records<T: TextEnd>(text: &mut T, plan: &MorePlan<'_>) -> Result<(), T::Fault>
    ensures { OnOk result (T.told text.new ≡ more (T.told text.old) (codes "records " ++ (decimal (length plan.now.file.packets)
        ++ (codes " tail " ++ decimal (if plan.now.file.cut then 1 else 0))))) }
{
    let capture = plan.capture();
    push_field(text, b"records ", capture.len())?;
    push_field(text, b" tail ", u32::from(capture.cut_tail()))
}

/// How many of them are served, and how many aren't.
#[tactic(auto, using(crate::proofs::Joins::joins))]
fn push_kinds<T: TextEnd>(text: &mut T, plan: &MorePlan<'_>) -> Result<(), T::Fault>
    ensures { OnOk result (T.told text.new ≡ more (T.told text.old) (codes " served " ++ (decimal plan.now.counts.served
        ++ (codes " nofit " ++ (decimal plan.now.counts.nofit ++ (codes " other " ++ decimal plan.now.counts.other)))))) }
{
    let counts = plan.counts();
    push_field(text, b" served ", counts.served)?;
    push_field(text, b" nofit ", counts.nofit)?;
    push_field(text, b" other ", counts.other)
}

/// How many streams there are, at the line's end.
#[tactic(auto, using(crate::proofs::Joins::joins))]
fn push_streams<T: TextEnd>(text: &mut T, plan: &MorePlan<'_>) -> Result<(), T::Fault>
    ensures { OnOk result (T.told text.new ≡ more (T.told text.old) (codes " streams " ++ (decimal (length plan.now.streams) ++ 10 ∷ []))) }
{
    push_field(text, b" streams ", plan.streams())?;
    text.put(b"\n")
}

/// What stream `c` has in the report.
fn push_stream<T: TextEnd>(
    text: &mut T,
    datagram: &mut Vec<u8>,
    plan: &MorePlan<'_>,
    served: &MoreServed,
    c: u32,
) -> Result<(), T::Fault>
    requires place { c < length plan.now.streams }
    requires served { IsMoreServed plan.now served.now.streams }
    requires room { most_datagram ≤ vec_capacity datagram.old }
    ensures room { most_datagram ≤ vec_capacity datagram.new }
    ensures text { OnOk result (IfSome (slice_get plan.now.streams c) (λ s. T.told text.new ≡ more (T.told text.old)
        (stream_text c s (all_served plan.now.file s)))) }
{
    let tuple = plan.stream(c).tuple();
    push_head(text, c, &tuple)?;
    push_items(text, plan.items(c))?;
    push_answers(text, served.answers(c))?;
    push_generated(text, datagram, &tuple, served.generator(c))
}

fn push_head<T: TextEnd>(text: &mut T, c: u32, tuple: &Tuple) -> Result<(), T::Fault>
    ensures { OnOk result (T.told text.new ≡ more (T.told text.old) (stream_line c tuple.now)) }
{
    push_field(text, b"stream ", c)?;
    push_protocol(text, tuple.server_port)?;
    push_next_end(text, tuple.client, tuple.client_port)?;
    push_next_end(text, tuple.server, tuple.server_port)?;
    push_service(text, tuple.server_port)?;
    Ok(())
}

fn push_protocol<T: TextEnd>(text: &mut T, port: u16) -> Result<(), T::Fault>
    ensures { OnOk result (T.told text.new ≡ more (T.told text.old) (32 ∷ protocol_word port)) }
{
    push_word(text, protocol_name(port))
}

/// The name of the service at this port, which ends a line.
#[tactic(auto, using(crate::proofs::Joins::joins))]
fn push_service<T: TextEnd>(text: &mut T, port: u16) -> Result<(), T::Fault>
    ensures { OnOk result (T.told text.new ≡ more (T.told text.old) (32 ∷ (service_word port ++ 10 ∷ []))) }
{
    push_word(text, service_name(port))?;
    text.put(b"\n")
}

/// Appends a space and a word.
#[tactic(auto, using(crate::proofs::Joins::joins))]
fn push_word<T: TextEnd>(text: &mut T, word: &str) -> Result<(), T::Fault>
    ensures { OnOk result (T.told text.new ≡ more (T.told text.old) (32 ∷ word.now)) }
{
    text.put(b" ")?;
    text.put(word.as_bytes())
}

fn protocol_name(port: u16) -> &'static str
    ensures { result.now ≡ protocol_word port }
{
    if port == CHARGEN_PORT { "tcp" } else { "udp" }
}

fn service_name(port: u16) -> &'static str
    ensures { result.now ≡ service_word port }
{
    match port {
        CHARGEN_PORT => "chargen",
        ECHO_PORT => "echo",
        _ => "discard",
    }
}

/// The line of so many items, of which there is at least one.
#[tactic(auto, using(crate::proofs::Joins::joins), unfolding(crate::specs::MoreText::items_line))]
fn push_items<T: TextEnd>(text: &mut T, count: u32) -> Result<(), T::Fault>
    ensures { OnOk result (T.told text.new ≡ more (T.told text.old) (items_line count)) }
{
    if count == 1 {
        return text.put(b"order f0\n");
    }
    push_field(text, b"order f0-", count.saturating_sub(1))?;
    text.put(b"\n")
}

fn push_answers<T: TextEnd>(text: &mut T, answers: &[SentDatagram]) -> Result<(), T::Fault>
    ensures { OnOk result (T.told text.new ≡ more (T.told text.old) (flat_map answer_line answers.now)) }
{
    for answer in answers {
        push_answer(text, answer)?;
    }
    Ok(())
}

#[tactic(auto, using(crate::proofs::Joins::joins), unfolding(crate::specs::MoreText::answer_line))]
fn push_answer<T: TextEnd>(text: &mut T, answer: &SentDatagram) -> Result<(), T::Fault>
    ensures { OnOk result (T.told text.new ≡ more (T.told text.old) (answer_line answer.now)) }
{
    push_datagram(text, answer.at, answer.datagram.as_slice())
}

/// What the generator sent, and its last state where the stream is its own.
#[tactic(auto, using(crate::proofs::Joins::joins))]
fn push_generated<T: TextEnd>(
    text: &mut T,
    datagram: &mut Vec<u8>,
    tuple: &Tuple,
    generator: &GenBlock,
) -> Result<(), T::Fault>
    requires { most_datagram ≤ vec_capacity datagram.old }
    ensures room { most_datagram ≤ vec_capacity datagram.new }
    ensures text { OnOk result (T.told text.new ≡ more (T.told text.old) (flat_map (reply_line tuple.now) generator.now.block.replies
        ++ (if is_generator tuple.now.server_port then end_line generator.now.block.state else []))) }
{
    push_replies(text, datagram, tuple, generator.tcb())?;
    if tuple.server_port != CHARGEN_PORT {
        return Ok(());
    }
    push_last(text, generator.tcb().state())
}
