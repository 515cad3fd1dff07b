//! The marks of all squeues, one by one.

ghost use Rattle.std.specs.Prelude.{◌≡◌, ◌<◌, ◌≤◌, ℕ, All, Err, IfOk, MatchOption, List, [], ◌∷◌, ◌++◌, map, option_map};
ghost use Rattle.std.specs.List.{flat_map};
ghost use Rattle.perimeter_core.specs.declared.marks.Mark.{Mark};
ghost use Rattle.perimeter_core.specs.Legal.{Legal};
ghost use Rattle.report_lines.specs.TraceText.{mark_line};
ghost use Rattle.squeue_replay.specs.Histories.{ending_of, endings_of};
ghost use Rattle.perimeter_core.specs.Kinds.{mark_by};
ghost use Rattle.squeue_replay.specs.Marks.{HasItsFeeds, IsPrinted};
ghost use Rattle.squeue_replay.specs.Pacing.{PaceStands};
ghost use Rattle.squeue_replay.specs.Replaying.{history_of, setting_of, squeue_of};
ghost use Rattle.squeue_replay.specs.Standing.{GuestsStand, Stands, guest_of};
ghost use Rattle.trace_lines.specs.Printed.{ArePrintedMarks};
ghost use Rattle.trace_replay.specs.Going.{HasAdded, HasGone};
ghost use Rattle.trace_replay.specs.Reasons.{AreRight, IsIllegalAt, MarksFail};

use crate::reason::{Reason, Refusal};
use squeue_replay::{Guest, Met, PaceCheck, ReadMark, ReplayedSqueue, RunSetup};
use std::alloc::{AllocError, Global};
use trace_lines::read_mark;

/// What one squeue had of each connection, after marks that are legal, and what was found beside.
#[derive(Drop)]
struct Replay {
    guests: Vec<Guest>,
    ended: bool,
    /// The first mark that breaks the homes, the mode or the budget.
    unfit: Option<u64>,
}

/// What each squeue had of each connection, by number, where all their marks are legal and fit, and each squeue has ended.
pub fn replay_all(
    alloc: Global,
    run: RunSetup<'_, '_>,
    histories: &[&[u8]],
) -> Result<Vec<Vec<Guest>>, Refusal>
    requires { (marks : List (List Mark)) × ArePrintedMarks run.setup.squeues marks × (map (λ l. l.now) histories.now ≡ map (flat_map mark_line) marks) }
    ensures right { IfOk result (λ v. (marks : List (List Mark)) → ArePrintedMarks run.entry.setup.squeues marks
        → map (λ l. l.now) histories.now ≡ map (flat_map mark_line) marks
        → AreRight run.entry.setup (endings_of run.entry.plan.now run.entry.calls.now run.entry.setup marks)
        × GuestsStand (endings_of run.entry.plan.now run.entry.calls.now run.entry.setup marks) (map (λ gs. map guest_of gs.items) v.items)) }
    ensures no { (r : Reason) → result ≡ Err (Refusal.No r) → (marks : List (List Mark)) → ArePrintedMarks run.entry.setup.squeues marks
        → map (λ l. l.now) histories.now ≡ map (flat_map mark_line) marks
        → MarksFail run.entry.setup (endings_of run.entry.plan.now run.entry.calls.now run.entry.setup marks) r }
{
    let mut mark = ReadMark::make(alloc);
    let mut all = Vec::with_capacity(alloc, histories.len())?;
    let mut open = None;
    let mut unfit = None;
    let mut squeue = 0;
    for lines in histories {
        let replay = replay_one(alloc, run, squeue, &mut mark, lines)?;
        open = open.or((!replay.ended).then_some(Reason::Open { squeue }));
        unfit = unfit.or(unfit_at(squeue, replay.unfit));
        all.push_reserved(replay.guests);
        squeue += 1;
    }
    match open.or(unfit) {
        Some(reason) => Err(Refusal::No(reason)),
        None => Ok(all),
    }
}

/// The reason where the squeue has such a mark.
fn unfit_at(squeue: u32, unfit: Option<u64>) -> Option<Reason>
    ensures { result ≡ option_map (λ n. Reason.Unfit squeue n) unfit }
{
    unfit.map(|mark| Reason::Unfit { squeue, mark })
}

/// The marks of one squeue.
fn replay_one(
    alloc: Global,
    run: RunSetup<'_, '_>,
    number: u32,
    mark: &mut ReadMark,
    lines: &[u8],
) -> Result<Replay, Refusal>
    requires { number < run.setup.squeues }
    ensures gone { IfOk result (λ r. (ms : List Mark) → All IsPrinted ms → lines.now ≡ flat_map mark_line ms
        → HasGone run.entry.setup number (ending_of run.entry.plan.now run.entry.calls.now run.entry.setup (number, ms))
        (map guest_of r.guests.items) r.ended r.unfit) }
    ensures no { (r : Reason) → result ≡ Err (Refusal.No r) → (ms : List Mark) → All IsPrinted ms → lines.now ≡ flat_map mark_line ms
        → (n : ℕ) × (r ≡ Reason.Illegal number n) × IsIllegalAt (ending_of run.entry.plan.now run.entry.calls.now run.entry.setup (number, ms)) n }
{
    let mut squeue = ReplayedSqueue::make(alloc, run, number)?;
    let mut pace = PaceCheck::make(run.setup, number);
    let mut unfit = None;
    let mut count = 0;
    let mut rest = lines;
    while !rest.is_empty() {
        let Some(others) = read_mark(mark, rest)? else {
            return Err(Refusal::No(Reason::Form));
        };
        rest = others;
        let Some(keeps) = add(&mut squeue, &mut pace, mark)? else {
            return Err(Refusal::No(Reason::Illegal {
                squeue: number,
                mark: count,
            }));
        };
        unfit = unfit.or((!keeps).then_some(count));
        count += 1;
    }
    Ok(Replay {
        ended: squeue.has_ended(),
        guests: squeue.into_guests(),
        unfit,
    })
}

/// One more mark: whether it fits, or `None` where it isn't legal.
fn add(
    squeue: &mut ReplayedSqueue<'_, '_>,
    pace: &mut PaceCheck,
    mark: &ReadMark,
) -> Result<Option<bool>, AllocError>
    requires { 1 ≤ pace.old.setup.squeues }
    ensures same { (squeue.new.run ≡ squeue.old.run) × (squeue.new.number ≡ squeue.old.number)
        × (pace.new.setup ≡ pace.old.setup) × (pace.new.squeue ≡ pace.old.squeue) }
    ensures added { IfOk result (λ o. (past : List Mark) → Stands (setting_of squeue.old) (history_of squeue.old past) (squeue_of squeue.old)
        → PaceStands (setting_of squeue.old) (history_of squeue.old past) pace.old
        → IsPrinted (mark_by mark.now.p mark.now.kind mark.now.feeds.items) → HasItsFeeds mark.now.kind mark.now.feeds.items
        → MatchOption o
        (Legal (setting_of squeue.old) (history_of squeue.old (past ++ mark_by mark.now.p mark.now.kind mark.now.feeds.items ∷ [])) → ⊥)
        (λ keeps. HasAdded squeue.old pace.old past (mark_by mark.now.p mark.now.kind mark.now.feeds.items) squeue.new pace.new keeps)) }
{
    let taken = squeue.is_taken();
    let queued = squeue.has_queued();
    let Some(processed) = squeue.add(mark)? else {
        return Ok(None);
    };
    let left = squeue.has_queued();
    Ok(Some(pace.keeps(
        mark,
        Met {
            taken,
            queued,
            processed,
            left,
        },
    )))
}
