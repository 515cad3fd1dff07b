//! The lines of the marks of all squeues.

ghost use Rattle.std.specs.Prelude.{◌≡◌, ℕ, ◌^◌, ◌<◌, All, List, ◌++◌, IfOk, MatchOption, length, map};
ghost use Rattle.std.specs.List.{enumerate_from, flat_map};
ghost use Rattle.perimeter_core.specs.declared.marks.Mark.{Mark};
ghost use Rattle.report_lines.specs.ReportText.{done_line};
ghost use Rattle.report_lines.specs.TraceText.{mark_line, squeue_line, squeue_text};
ghost use Rattle.trace_lines.specs.Printed.{ArePrintedMarks};
ghost use Rattle.squeue_replay.specs.Marks.{IsPrinted};

use crate::fields::number_to;
use crate::forms::lone_number;
use crate::marks::read_mark;
use squeue_replay::ReadMark;
use std::alloc::{AllocError, Global};

/// The mark lines of each squeue, by number, where the text is their headings with so many marks each, and then the last line.
/// `None` where it is anything else. Fails only for want of memory.
///
/// # Example
///
/// ```
/// let text = b"squeue 0 marks 1\nclose 0\nsqueue 1 marks 0\ndone\n";
/// let Some(found) = histories(rt.alloc(), text, 2)? else {
///     panic!(rt; "the marks aren't read")
/// };
/// let [first, second] = found.as_slice() else {
///     panic!(rt; "these aren't two squeues")
/// };
/// assert!(rt; *first == b"close 0\n".as_slice());
/// ```
pub fn histories(alloc: Global, text: &[u8], squeues: u32) -> Result<Option<Vec<&[u8]>>, AllocError>
    ensures { IfOk result (λ o. MatchOption o
        ((marks : List (List Mark)) → ArePrintedMarks squeues marks → text.now ≡ flat_map squeue_text (enumerate_from 0 marks) ++ done_line → ⊥)
        (λ v. (marks : List (List Mark)) × ArePrintedMarks squeues marks × (text.now ≡ flat_map squeue_text (enumerate_from 0 marks) ++ done_line)
        × (map (λ l. l.now) v.items ≡ map (flat_map mark_line) marks))) }
{
    let mut mark = ReadMark::make(alloc);
    let mut found = Vec::with_capacity(alloc, squeues as usize)?;
    let mut rest = text;
    for q in 0..squeues {
        let Some((count, marks)) = heading(rest, q) else {
            return Ok(None);
        };
        let Some(others) = behind_marks(&mut mark, marks, count)? else {
            return Ok(None);
        };
        let (lines, _) = marks.split_at(marks.len() - others.len());
        found.push(lines)?;
        rest = others;
    }
    if rest == b"done\n".as_slice() {
        Ok(Some(found))
    } else {
        Ok(None)
    }
}

/// How many marks squeue `q` has.
fn heading(text: &[u8], q: u32) -> Option<(u64, &[u8])>
    ensures { MatchOption result
        ((n : ℕ) (rest : List ℕ) → n < 2 ^ 64 → text.now ≡ squeue_line q n ++ rest → ⊥)
        (λ r. (r.0 < 2 ^ 64) × (text.now ≡ squeue_line q r.0 ++ r.1.now)) }
{
    let Some((number, rest)) = lone_number(text, b"squeue # marks ") else {
        return None;
    };
    if number != q {
        return None;
    }
    let Some((count, marks)) = number_to(rest, b'\n') else {
        return None;
    };
    Some((count, marks))
}

/// What stands behind the lines of so many marks.
fn behind_marks<'a>(
    mark: &mut ReadMark,
    text: &'a [u8],
    count: u64,
) -> Result<Option<&'a [u8]>, AllocError>
    ensures { IfOk result (λ o. MatchOption o
        ((ms : List Mark) (rest : List ℕ) → All IsPrinted ms → length ms ≡ count → text.entry.now ≡ flat_map mark_line ms ++ rest → ⊥)
        (λ rest. (ms : List Mark) × All IsPrinted ms × (length ms ≡ count) × (text.entry.now ≡ flat_map mark_line ms ++ rest.now))) }
{
    let mut rest = text;
    let mut left = count;
    while left > 0 {
        let Some(others) = read_mark(mark, rest)? else {
            return Ok(None);
        };
        rest = others;
        left -= 1;
    }
    Ok(Some(rest))
}
