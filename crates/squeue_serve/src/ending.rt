//! The end of squeues.
ghost use Rattle.std.specs.Prelude.{◌≡◌, ◌≢◌, ◌⊎◌, ℕ, ◌+◌, ◌<◌, ◌≤◌, ◌∷◌, [], ◌++◌, All, IfNone, IfSome, Some, length};
ghost use Rattle.turn_gate.specs.History.{Each};
ghost use Rattle.turn_gate.specs.declared.pass.Pass.{Pass};
ghost use Rattle.perimeter_core.specs.History.{Element};
ghost use Rattle.squeue_state.specs.Naming.{Named};
ghost use Rattle.squeue_serve.specs.Places.{AtEach, AtEachTwo, Became, Holds, HasClosed, HasWorked, IsNew, MayClose, MayEnd, MayWork};
ghost use Rattle.squeue_serve.specs.Lending.{AreHanded, AreLent, HasCome, HaveLast, IsRoomFor, WorkersHold, holder, lent_to, tasks_in};

use crate::jobs::{Job, Squeues, holder, take_from};
use crate::places::{close_all, work};
use perimeter_core::{Hook, Resident};
use squeue_state::{Ended, Pass, Squeue, Trace};
use std::alloc::Global;
use std::sync::Wait;

/// Does on this thread what every job does at its end, where none has begun: the passes of all squeues are closed, and each
/// squeue is worked to its end.
pub fn run_unused<R: Resident, T, H: Hook, W: Wait>(
    rt: &W,
    alloc: Global,
    hook: &H,
    squeues: &[Squeue<R>],
    jobs: &mut Vec<Job<T>>,
    front: usize,
    count: usize,
)
    requires { (front + count + length squeues.now ≤ length jobs.old.items) × AreLent IsNew front count squeues.now (lent_to jobs.old.items) }
    ensures lent { AreLent (MayEnd R.limits) front count squeues.now (lent_to jobs.new.items) }
    ensures tasks { tasks_in jobs.new.items ≡ tasks_in jobs.old.items }
{
    close_unused(rt, squeues, jobs, front, count);
    work_unused(rt, alloc, hook, squeues, jobs, front, count);
}

// Closes the passes that are lent by number.
fn close_unused<R: Resident, T, W: Wait>(
    rt: &W,
    squeues: &[Squeue<R>],
    jobs: &mut Vec<Job<T>>,
    front: usize,
    count: usize,
)
    requires { (front + count + length squeues.now ≤ length jobs.old.items) × AreLent IsNew front count squeues.now (lent_to jobs.old.items) }
    ensures closed { (p : ℕ) → p < count → AtEach (λ s o. Holds (MayEnd R.limits p s) o) squeues.now (lent_to jobs.new.items (front + p)) }
    ensures others { (i : ℕ) → (i < front) ⊎ (front + count ≤ i) → lent_to jobs.new.items i ≡ lent_to jobs.old.items i }
    ensures tasks { tasks_in jobs.new.items ≡ tasks_in jobs.old.items }
{
    for p in 0..count {
        close_at(rt, squeues, jobs, front + p);
    }
}

// Closes the passes of the job at `i`.
fn close_at<R: Resident, T, W: Wait>(
    rt: &W,
    squeues: &[Squeue<R>],
    jobs: &mut Vec<Job<T>>,
    i: usize,
)
    requires job { i < length jobs.old.items }
    requires may { AtEach (λ s o. Holds (MayClose R.limits s) o) squeues.now (lent_to jobs.old.items i) }
    ensures closed { AtEachTwo (λ s o n. Became (HasClosed R.limits s) o n) squeues.now (lent_to jobs.old.items i) (lent_to jobs.new.items i) }
    ensures others { (k : ℕ) → k ≢ i → lent_to jobs.new.items k ≡ lent_to jobs.old.items k }
    ensures tasks { tasks_in jobs.new.items ≡ tasks_in jobs.old.items }
{
    close_all(rt, squeues, &mut jobs[i].places);
}

// Works each squeue to its end.
fn work_unused<R: Resident, T, H: Hook, W: Wait>(
    rt: &W,
    alloc: Global,
    hook: &H,
    squeues: &[Squeue<R>],
    jobs: &mut Vec<Job<T>>,
    front: usize,
    count: usize,
)
    requires jobs { front + count + length squeues.now ≤ length jobs.old.items }
    requires counts { Each (λ (s : Named R). length s.given.quotas ≡ count) squeues.now }
    requires workers { WorkersHold IsNew front count squeues.now (lent_to jobs.old.items) }
    ensures workers { WorkersHold (MayEnd R.limits) front count squeues.now (lent_to jobs.new.items) }
    ensures others { (i : ℕ) → (i < front + count) ⊎ (front + count + length squeues.now ≤ i) → lent_to jobs.new.items i ≡ lent_to jobs.old.items i }
    ensures tasks { tasks_in jobs.new.items ≡ tasks_in jobs.old.items }
{
    for q in 0..squeues.len() {
        work_at(rt, alloc, hook, &squeues[q], jobs, front + count + q);
    }
}

// Works a squeue to its end by the one pass of the job at `i`.
fn work_at<R: Resident, T, H: Hook, W: Wait>(
    rt: &W,
    alloc: Global,
    hook: &H,
    squeue: &Squeue<R>,
    jobs: &mut Vec<Job<T>>,
    i: usize,
)
    requires job { i < length jobs.old.items }
    requires may { (x : Pass Element) × (lent_to jobs.old.items i ≡ Some x ∷ []) × MayWork R.limits squeue.now x }
    ensures worked { (x : Pass Element) × (y : Pass Element) × (lent_to jobs.old.items i ≡ Some x ∷ []) × (lent_to jobs.new.items i ≡ Some y ∷ [])
        × HasWorked R.limits squeue.now x y }
    ensures others { (k : ℕ) → k ≢ i → lent_to jobs.new.items k ≡ lent_to jobs.old.items k }
    ensures tasks { tasks_in jobs.new.items ≡ tasks_in jobs.old.items }
{
    work(rt, alloc, hook, squeue, &mut jobs[i].places[0]);
}

/// Ends the last squeue, all of whose jobs are done: what is left is its resident, its end, and its trace.
/// `None` where no squeue is left.
pub fn end_last<R: Resident, T>(
    squeues: &mut Squeues<R>,
    jobs: &mut Vec<Job<T>>,
    front: usize,
    count: usize,
) -> Option<(R, Ended, Trace)>
    requires jobs { front + count + length squeues.old.all.items ≤ length jobs.old.items }
    requires lent { AreLent (MayEnd R.limits) front count squeues.old.all.items (lent_to jobs.old.items) }
    requires rooms { (length squeues.old.rooms.items ≡ length squeues.old.all.items) × All (IsRoomFor (count + 1)) squeues.old.rooms.items }
    ensures none { IfNone result (squeues.new.all.items ≡ []) }
    ensures same { IfNone result ((squeues.old.all.items ≡ []) × (jobs.new.items ≡ jobs.old.items)) }
    ensures some { IfSome result (λ r. (s : Named R) × (squeues.old.all.items ≡ squeues.new.all.items ++ s ∷ [])
        × HasCome R.Resident front count (length squeues.new.all.items) s (lent_to jobs.old.items) (lent_to jobs.new.items) r.0 r.1 r.2) }
    ensures rooms { (length squeues.new.rooms.items ≡ length squeues.new.all.items) × All (IsRoomFor (count + 1)) squeues.new.rooms.items }
    ensures tasks { tasks_in jobs.new.items ≡ tasks_in jobs.old.items }
{
    let squeue = squeues.all.pop()?;
    let Some(room) = squeues.rooms.pop() else {
        unreachable!()
    };
    let passes = take_back(jobs, front, count, squeues.all.len(), room);
    Some(squeue.finish(passes))
}

// Takes the passes of squeue number `q`, the last that is lent, back from the jobs.
fn take_back<T>(
    jobs: &mut Vec<Job<T>>,
    front: usize,
    count: usize,
    q: usize,
    room: Vec<Pass>,
) -> Vec<Pass>
    requires jobs { front + count + q < length jobs.old.items }
    requires last { HaveLast front count q (lent_to jobs.old.items) }
    requires room { IsRoomFor (count + 1) room }
    ensures handed { AreHanded front count q result.items (lent_to jobs.new.items) (lent_to jobs.old.items) }
    ensures tasks { tasks_in jobs.new.items ≡ tasks_in jobs.old.items }
{
    let mut passes = room;
    for p in 0..count + 1 {
        passes.push_reserved(take_from(jobs, holder(front, count, q, p)));
    }
    passes
}
