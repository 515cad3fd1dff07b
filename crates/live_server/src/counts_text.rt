//! The text that tells a server's counts.

ghost use Rattle.std.specs.Prelude.{◌≡◌, ◌++◌, ◌≤◌, length, IfOk, OnOk};
ghost use Rattle.std.specs.String.{string_bytes};
ghost use Rattle.udp_codec.specs.Limits.{most_text};
ghost use Rattle.live_server.specs.CountsText.{count_line, counts_text, datagram_counts, header_counts, limit_counts, named_counts, place_counts};
ghost use Rattle.live_server.specs.CountsText.{reach_counts, segment_counts, state_counts};

use crate::counts::Counts;
use std::alloc::{AllocError, Global};
use std::fmt::Write;

/// The text that tells how many connections a server has, how many of them may be half open, how many bytes all hold, whether it drains, and
/// what it met.
pub(crate) fn counts_text(
    alloc: Global,
    connections: usize,
    waiting: usize,
    held: u64,
    draining: bool,
    counts: &Counts,
) -> Result<String, AllocError>
    ensures is { IfOk result (λ text. string_bytes text ≡ counts_text (state_counts connections waiting held draining ++ named_counts counts.now)) }
    ensures short { IfOk result (λ text. length (string_bytes text) ≤ most_text) }
{
    let mut text = String::new(alloc);
    push_state(&mut text, connections, waiting, held, draining)?;
    push_datagrams(&mut text, counts)?;
    push_places(&mut text, counts)?;
    push_segments(&mut text, counts)?;
    push_limits(&mut text, counts)?;
    push_reach(&mut text, counts)?;
    push_headers(&mut text, counts)?;
    Ok(text)
}

/// Appends what a server tells of itself.
fn push_state(
    text: &mut String,
    connections: usize,
    waiting: usize,
    held: u64,
    draining: bool,
) -> Result<(), AllocError>
    ensures { OnOk result (string_bytes text.new ≡ string_bytes text.old ++ counts_text (state_counts connections waiting held draining)) }
{
    push_line(text, "connections", connections as u64)?;
    push_line(text, "waiting", waiting as u64)?;
    push_line(text, "held", held)?;
    push_line(text, "draining", u64::from(draining))
}

/// Appends the counts of datagrams.
fn push_datagrams(text: &mut String, counts: &Counts) -> Result<(), AllocError>
    ensures { OnOk result (string_bytes text.new ≡ string_bytes text.old ++ counts_text (datagram_counts counts.now)) }
{
    push_line(text, "passed_over", counts.passed_over)?;
    push_line(text, "pinged", counts.pinged)?;
    push_line(text, "astray", counts.astray)?;
    push_line(text, "refused", counts.refused)
}

/// Appends the counts of who took a place, and who lost it.
fn push_places(text: &mut String, counts: &Counts) -> Result<(), AllocError>
    ensures { OnOk result (string_bytes text.new ≡ string_bytes text.old ++ counts_text (place_counts counts.now)) }
{
    push_line(text, "opened", counts.opened)?;
    push_line(text, "turned_away", counts.turned_away)?;
    push_line(text, "gave_way", counts.gave_way)?;
    push_line(text, "left", counts.left)
}

/// Appends the counts of what became of segments.
fn push_segments(text: &mut String, counts: &Counts) -> Result<(), AllocError>
    ensures { OnOk result (string_bytes text.new ≡ string_bytes text.old ++ counts_text (segment_counts counts.now)) }
{
    push_line(text, "challenges", counts.challenges)?;
    push_line(text, "unanswered", counts.unanswered)?;
    push_line(text, "late", counts.late)?;
    push_line(text, "urgent", counts.urgent)
}

/// Appends the counts of what memory and a path let pass.
fn push_limits(text: &mut String, counts: &Counts) -> Result<(), AllocError>
    ensures { OnOk result (string_bytes text.new ≡ string_bytes text.old ++ counts_text (limit_counts counts.now)) }
{
    push_line(text, "over_full", counts.over_full)?;
    push_line(text, "shortened", counts.shortened)
}

/// Appends the counts of what routers say of segments, and of who left at that.
fn push_reach(text: &mut String, counts: &Counts) -> Result<(), AllocError>
    ensures { OnOk result (string_bytes text.new ≡ string_bytes text.old ++ counts_text (reach_counts counts.now)) }
{
    push_line(text, "unreachable", counts.unreachable)?;
    push_line(text, "port_unreachable", counts.port_unreachable)?;
    push_line(text, "prohibited", counts.prohibited)?;
    push_line(text, "unreached", counts.unreached)
}

/// Appends the counts of segments whose headers somebody refused.
fn push_headers(text: &mut String, counts: &Counts) -> Result<(), AllocError>
    ensures { OnOk result (string_bytes text.new ≡ string_bytes text.old ++ counts_text (header_counts counts.now)) }
{
    push_line(text, "time_exceeded", counts.time_exceeded)?;
    push_line(text, "parameter_problem", counts.parameter_problem)
}

/// Appends a line.
#[tactic(auto, unfolding(crate::specs::CountsText::count_line))]
fn push_line(text: &mut String, name: &str, number: u64) -> Result<(), AllocError>
    ensures { OnOk result (string_bytes text.new ≡ string_bytes text.old ++ count_line (name.now, number)) }
{
    write!(text, "{name} {number}\n")
}
