//! Jobs, and how passes are lent to them.
ghost use Rattle.std.specs.Prelude.{◌≡◌, ◌≢◌, ℕ, ◌+◌, ◌<◌, ◌≤◌, ◌^◌, ◌∷◌, [], ◌++◌, All, IfOk, List, Option, Some, length, vec_capacity};
ghost use Rattle.turn_gate.specs.declared.pass.Pass.{Pass};
ghost use Rattle.perimeter_core.specs.History.{Element};
ghost use Rattle.squeue_serve.specs.Lending.{AreHanded, HaveRoom, IsRoomFor, holder, lent_to, tasks_in};

use perimeter_core::Resident;
use squeue_state::{Pass, Squeue};
use std::alloc::{AllocError, Global};

/// What a thread has to do, and the places of the passes that it is lent for it.
pub struct Job<T> {
    pub task: T,
    pub places: Vec<Option<Pass>>,
}

/// Squeues by number, each with the room in which its passes come back.
pub struct Squeues<R: Resident> {
    pub all: Vec<Squeue<R>>,
    pub rooms: Vec<Vec<Pass>>,
}

impl<R: Resident> Squeues<R> {
    /// No squeues, and room for so many. Fails only for want of memory.
    pub fn with_room(alloc: Global, squeues: usize) -> Result<Squeues<R>, AllocError>
        ensures all { IfOk result (λ s. (s.all.items ≡ []) × (squeues ≤ vec_capacity s.all)) }
        ensures rooms { IfOk result (λ s. (s.rooms.items ≡ []) × (squeues ≤ vec_capacity s.rooms)) }
    {
        let all = Vec::with_capacity(alloc, squeues)?;
        match Vec::with_capacity(alloc, squeues) {
            Ok(rooms) => Ok(Squeues { all, rooms }),
            Err(error) => {
                all.destroy_empty();
                Err(error)
            }
        }
    }

    /// Frees the room, where no squeue is left.
    pub fn destroy_empty(self)
        requires all { self.all.items ≡ [] }
        requires rooms { self.rooms.items ≡ [] }
    {
        let Squeues { all, rooms } = self;
        all.destroy_empty();
        rooms.destroy_empty();
    }
}

/// A job for each task, in order, with room for a pass of each of so many squeues. Fails only for want of memory; then the
/// tasks are dropped.
pub fn jobs_of<T: Drop>(
    alloc: Global,
    tasks: Vec<T>,
    squeues: usize,
) -> Result<Vec<Job<T>>, AllocError>
    ensures tasks { IfOk result (λ v. tasks_in v.items ≡ tasks.items) }
    ensures room { IfOk result (λ v. HaveRoom squeues v.items) }
    ensures empty { IfOk result (λ v. All (λ j. j.places.items ≡ []) v.items) }
{
    let mut tasks = tasks;
    let mut jobs = Vec::with_capacity(alloc, tasks.len())?;
    tasks.reverse();
    while let Some(task) = tasks.pop() {
        match Vec::with_capacity(alloc, squeues) {
            Ok(places) => jobs.push_reserved(Job { task, places }),
            Err(error) => {
                discard(jobs);
                return Err(error);
            }
        }
    }
    Ok(jobs)
}

/// Frees jobs that hold no pass.
pub fn discard<T: Drop>(jobs: Vec<Job<T>>)
    requires { All (λ j. j.places.items ≡ []) jobs.items }
{
    let mut jobs = jobs;
    while let Some(job) = jobs.pop() {
        let Job { task: _, places } = job;
        places.destroy_empty();
    }
    jobs.destroy_empty();
}

/// Adds a squeue behind the others, and lends its passes, which are `count + 1`.
///
/// The first `front` jobs are lent nothing. Of each squeue, pass `p` below `count` goes to job `front + p`. The last pass, the
/// worker's, goes to a job of its squeue alone: `front + count + q`, where `q` is the number of squeues before this one.
///
/// # Example
///
/// ```
/// lend(&mut squeues, &mut jobs, 0, count, squeue, passes);
/// run_rings(rt, &squeues.all[0], alloc, pool, watcher, &mut jobs);
/// let Some((_parts, end, _trace)) = end_last(&mut squeues, &mut jobs, 0, count) else {
///     unreachable!()
/// };
/// squeues.destroy_empty();
/// ```
pub fn lend<R: Resident, T>(
    squeues: &mut Squeues<R>,
    jobs: &mut Vec<Job<T>>,
    front: usize,
    count: usize,
    squeue: Squeue<R>,
    passes: Vec<Pass>,
)
    requires squeues { (length squeues.old.all.items < vec_capacity squeues.old.all) × (length squeues.old.rooms.items < vec_capacity squeues.old.rooms) }
    requires jobs { front + count + length squeues.old.all.items < length jobs.old.items }
    requires places { HaveRoom (length squeues.old.all.items + 1) jobs.old.items }
    requires fit { (p : ℕ) → p ≤ count → length (lent_to jobs.old.items (holder front count (length squeues.old.all.items) p)) ≤ length squeues.old.all.items }
    requires passes { length passes.items ≡ count + 1 }
    requires room { All (IsRoomFor (count + 1)) squeues.old.rooms.items }
    ensures squeues { squeues.new.all.items ≡ squeues.old.all.items ++ squeue ∷ [] }
    ensures handed { AreHanded front count (length squeues.old.all.items) passes.items (lent_to jobs.old.items) (lent_to jobs.new.items) }
    ensures tasks { tasks_in jobs.new.items ≡ tasks_in jobs.old.items }
    ensures places { (n : ℕ) → HaveRoom n jobs.old.items → HaveRoom n jobs.new.items }
    ensures rooms { (length squeues.new.rooms.items ≡ length squeues.old.rooms.items + 1) × All (IsRoomFor (count + 1)) squeues.new.rooms.items }
    ensures capacity { (vec_capacity squeues.new.all ≡ vec_capacity squeues.old.all) × (vec_capacity squeues.new.rooms ≡ vec_capacity squeues.old.rooms) }
{
    let q = squeues.all.len();
    let room = lend_all(jobs, front, count, q, passes);
    squeues.all.push_reserved(squeue);
    squeues.rooms.push_reserved(room);
}

// Lends the passes, and gives back their room.
fn lend_all<T>(
    jobs: &mut Vec<Job<T>>,
    front: usize,
    count: usize,
    q: usize,
    passes: Vec<Pass>,
) -> Vec<Pass>
    requires jobs { front + count + q < length jobs.old.items }
    requires places { HaveRoom (q + 1) jobs.old.items }
    requires fit { (p : ℕ) → p ≤ count → length (lent_to jobs.old.items (holder front count q p)) ≤ q }
    requires passes { length passes.items ≡ count + 1 }
    ensures handed { AreHanded front count q passes.items (lent_to jobs.old.items) (lent_to jobs.new.items) }
    ensures tasks { tasks_in jobs.new.items ≡ tasks_in jobs.old.items }
    ensures places { (n : ℕ) → HaveRoom n jobs.old.items → HaveRoom n jobs.new.items }
    ensures room { IsRoomFor (count + 1) result }
{
    let mut passes = passes;
    while let Some(pass) = passes.pop() {
        lend_to(jobs, holder(front, count, q, passes.len()), pass);
    }
    passes
}

// The number of the job that is lent the pass of number `p` of squeue `q`.
pub(crate) fn holder(front: usize, count: usize, q: usize, p: usize) -> usize
    requires { (front + count + q < 2 ^ 64) × (p ≤ count) }
    ensures { result ≡ holder front count q p }
{
    if p == count {
        front + count + q
    } else {
        front + p
    }
}

// Lends one pass to the job at `i`.
fn lend_to<T>(jobs: &mut Vec<Job<T>>, i: usize, pass: Pass)
    requires job { i < length jobs.old.items }
    requires room { (n : ℕ) × HaveRoom n jobs.old.items × (length (lent_to jobs.old.items i) < n) }
    ensures lent { lent_to jobs.new.items i ≡ lent_to jobs.old.items i ++ Some pass ∷ [] }
    ensures others { (k : ℕ) → k ≢ i → lent_to jobs.new.items k ≡ lent_to jobs.old.items k }
    ensures tasks { tasks_in jobs.new.items ≡ tasks_in jobs.old.items }
    ensures places { (n : ℕ) → HaveRoom n jobs.old.items → HaveRoom n jobs.new.items }
{
    jobs[i].places.push_reserved(Some(pass));
}

// Takes the last pass back from the job at `i`.
pub(crate) fn take_from<T>(jobs: &mut Vec<Job<T>>, i: usize) -> Pass
    requires job { i < length jobs.old.items }
    requires last { (before : List (Option (Pass Element))) × (x : Pass Element) × (lent_to jobs.old.items i ≡ before ++ Some x ∷ []) }
    ensures lent { lent_to jobs.old.items i ≡ lent_to jobs.new.items i ++ Some result ∷ [] }
    ensures others { (k : ℕ) → k ≢ i → lent_to jobs.new.items k ≡ lent_to jobs.old.items k }
    ensures tasks { tasks_in jobs.new.items ≡ tasks_in jobs.old.items }
{
    take_last(&mut jobs[i].places)
}

// Takes the last pass.
fn take_last(places: &mut Vec<Option<Pass>>) -> Pass
    requires { (before : List (Option (Pass Element))) × (x : Pass Element) × (places.old.items ≡ before ++ Some x ∷ []) }
    ensures { places.old.items ≡ places.new.items ++ Some result ∷ [] }
{
    let Some(place) = places.pop() else {
        unreachable!()
    };
    let Some(pass) = place else { unreachable!() };
    pass
}
