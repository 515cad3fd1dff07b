//! A whole run.
ghost use Rattle.std.specs.Prelude.{◌≡◌, ◌*◌, ◌<◌, ◌≤◌, ◌^◌, [], ℕ, All, IfOk, List, length, vec_capacity};
ghost use Rattle.histories.specs.Limits.{most_feeds, most_quotas};
ghost use Rattle.squeue_serve.specs.Lending.{AreLent, HaveRoom, lent_to, tasks_in};
ghost use Rattle.squeue_serve.specs.Places.{IsNew, MayEnd};
ghost use Rattle.shards.specs.Sharing.{limits_for};
ghost use Rattle.shard_rings.specs.Columns.{rings_in};
ghost use Rattle.shard_rings.specs.Jobs.{AllServe, HasBroughtOf, HaveDone, MayDo, MayEnter};
ghost use Rattle.shard_rings.specs.Making.{AreTasks, HasBegun, IsNewRing};
ghost use Rattle.shard_rings.specs.Rooms.{HasRoom};
ghost use Rattle.shard_rings.specs.Runs.{HasRun};

use crate::bringing::Brings;
use crate::cell::Cell;
use crate::doing::run_job;
use crate::ending::{finish_all, gather, take_apart};
use crate::making::{make_all, residents_of, tasks_of};
use crate::pool::ShardPool;
use perimeter_core::NoHook;
use shards::{Shard, Shared};
use squeue_pool::Left;
use squeue_serve::{Job, Squeues, discard, jobs_of, run_each, run_unused};
use squeue_state::{Ended, Squeue};
use std::alloc::{AllocError, Global};
use std::sync::Wait;
use std::thread::Threads;

/// What is left of a squeue: what its rings shared, and its end.
#[derive(Drop)]
pub struct ServedShard<X> {
    pub shared: X,
    pub end: Ended,
}

/// What a ring has: its number, what it does with its lanes, and its cells, by squeue.
#[derive(Drop)]
pub(crate) struct RingTask<B: Drop, P: Drop> {
    pub(crate) number: u32,
    pub(crate) bringer: B,
    pub(crate) cells: Vec<Cell<P>>,
}

/// What a job does: a ring brings, or the squeue of this number is worked.
#[derive(Drop)]
pub(crate) enum Task<B: Drop, P: Drop> {
    Ring(RingTask<B, P>),
    Work(u32),
}

/// What rings have when they have brought: what brought, and the cells, by ring.
#[derive(Drop)]
pub(crate) struct Brought<B: Drop, P: Drop> {
    pub(crate) rings: Vec<B>,
    pub(crate) rows: Vec<Vec<Cell<P>>>,
}

/// Runs these rings over a squeue for each of these: what is left of the rings, and of the squeues, by number. There are 1 to 63 rings, and
/// of all parcels of the rings at most 2^30 are on their way to one squeue or back. It fails only for want of memory before a ring begins.
pub fn run_shards<
    X: Shared + Drop + Send,
    B: Brings<Parcel = X::Parcel> + Drop + Send,
    W: Threads + Wait + Sync,
>(
    rt: &W,
    alloc: Global,
    pool: &ShardPool,
    shared: Vec<X>,
    rings: Vec<B>,
) -> Result<(Vec<B>, Vec<ServedShard<X>>), AllocError>
where
    X::Parcel: Send,
    requires pool { MayEnter pool.now }
    requires rings { (1 ≤ length rings.items) × (length rings.items ≤ most_quotas) }
    requires parcels { (1 ≤ pool.now.parcels) × (length rings.items * pool.now.parcels ≤ most_feeds) }
    requires squeues { length shared.items < 2 ^ 32 }
    requires made { All (X.is_made []) shared.items }
    ensures { IfOk result (λ r. HasRun X.Shared B.did shared.items rings.items r.0.items r.1.items) }
{
    let count = rings.len() as u32;
    let many = shared.len() as u32;
    let room = room_for(alloc, count, many)?;
    let (tasks, ends) = tasks_of(alloc, pool.parcels, many, rings)?;
    let residents = residents_of(rt, alloc, shared, ends)?;
    let jobs = jobs_of(alloc, tasks, many as usize)?;
    match Squeues::with_room(alloc, many as usize) {
        Ok(squeues) => {
            let means = Means {
                jobs,
                squeues,
                room,
            };
            run_made(rt, alloc, pool, count, residents, means)
        }
        Err(error) => {
            discard(jobs);
            Err(error)
        }
    }
}

// Room for what is left of a run, and for the cells of one squeue.
#[derive(Drop)]
struct Room<X, R, B: Drop, P: Drop> {
    left: Vec<Left<R>>,
    brought: Brought<B, P>,
    column: Vec<Cell<P>>,
    served: Vec<ServedShard<X>>,
}

// Room for what is left of so many rings and squeues.
fn room_for<X: Drop, R: Drop, B: Drop, P: Drop>(
    alloc: Global,
    rings: u32,
    squeues: u32,
) -> Result<Room<X, R, B, P>, AllocError>
    ensures { IfOk result (λ r. HasRoom rings squeues r) }
{
    let left = Vec::with_capacity(alloc, squeues as usize)?;
    let served = Vec::with_capacity(alloc, squeues as usize)?;
    let column = Vec::with_capacity(alloc, rings as usize)?;
    let bringers = Vec::with_capacity(alloc, rings as usize)?;
    let rows = Vec::with_capacity(alloc, rings as usize)?;
    Ok(Room {
        left,
        brought: Brought {
            rings: bringers,
            rows,
        },
        column,
        served,
    })
}

// What a run has beside what lives in its squeues, made before them: the jobs, to which no pass is lent; and room for the squeues, and for
// what is left.
struct Means<'a, X: Shared + Drop, B: Drop, W: Wait> {
    jobs: Vec<Job<Task<B, X::Parcel>>>,
    squeues: Squeues<Shard<X, &'a W>>,
    room: Room<X, Shard<X, &'a W>, B, X::Parcel>,
}

// What each job is done by: the runtime, the allocator, and how rings enter.
#[derive(Drop)]
struct Access<'a, W: Wait> {
    rt: &'a W,
    alloc: Global,
    pool: &'a ShardPool,
}

// Makes the squeues, runs the jobs, and ends what was made.
fn run_made<
    'a,
    X: Shared + Drop + Send,
    B: Brings<Parcel = X::Parcel> + Drop + Send,
    W: Threads + Wait + Sync,
>(
    rt: &'a W,
    alloc: Global,
    pool: &'a ShardPool,
    count: u32,
    residents: Vec<Shard<X, &'a W>>,
    means: Means<'a, X, B, W>,
) -> Result<(Vec<B>, Vec<ServedShard<X>>), AllocError>
where
    X::Parcel: Send,
    requires pool { MayEnter pool.now }
    requires rings { (1 ≤ count) × (count ≤ most_quotas) }
    requires parcels { (1 ≤ pool.now.parcels) × (count * pool.now.parcels ≤ most_feeds) }
    requires few { length residents.items < 2 ^ 32 }
    requires begun { (shared : List X) × (before : List B)
        × HasBegun count shared before residents.items (tasks_in means.jobs.items) }
    requires jobs { All (λ j. j.places.items ≡ []) means.jobs.items
        × HaveRoom (length residents.items) means.jobs.items }
    requires squeues { (means.squeues.all.items ≡ []) × (means.squeues.rooms.items ≡ []) }
    requires capacity { (length residents.items ≤ vec_capacity means.squeues.all)
        × (length residents.items ≤ vec_capacity means.squeues.rooms) }
    requires room { HasRoom count (length residents.items) means.room }
    ensures { (shared : List X) (before : List B)
        → HasBegun count shared before residents.entry.items (tasks_in means.entry.jobs.items)
        → IfOk result (λ r. HasRun X.Shared B.did shared before r.0.items r.1.items) }
{
    let Means {
        jobs,
        squeues,
        room,
    } = means;
    let Room {
        left,
        brought,
        column,
        served,
    } = room;
    let mut jobs = jobs;
    let mut squeues = squeues;
    let mut left = left;
    let made = make_all(
        alloc,
        count * pool.parcels,
        count,
        residents,
        &mut jobs,
        &mut squeues,
    );
    let access = Access { rt, alloc, pool };
    run_or_end(&access, &made, squeues.all.as_slice(), count, &mut jobs);
    gather(&mut squeues, &mut jobs, count as usize, &mut left);
    squeues.destroy_empty();
    let Brought { rings, rows } = take_apart(jobs, brought);
    made?;
    left.reverse();
    let served = finish_all(alloc, left, rows, column, served);
    Ok((rings, served))
}

// Runs the jobs. Where not all squeues could be made, it ends what was made.
fn run_or_end<
    'a,
    X: Shared + Drop + Send,
    B: Brings<Parcel = X::Parcel> + Drop + Send,
    W: Threads + Wait + Sync,
>(
    access: &Access<'a, W>,
    made: &Result<(), AllocError>,
    squeues: &[Squeue<Shard<X, &'a W>>],
    count: u32,
    jobs: &mut Vec<Job<Task<B, X::Parcel>>>,
)
where
    X::Parcel: Send,
    requires pool { MayEnter access.now.pool.now }
    requires many { (many : ℕ) × (length squeues.now ≤ many)
        × AreTasks count many (IsNewRing many) (tasks_in jobs.old.items) }
    requires serve { IfOk made.now (λ _. AllServe limits_for squeues.now count
        × AreTasks count (length squeues.now) (IsNewRing (length squeues.now)) (tasks_in jobs.old.items)) }
    requires lent { AreLent IsNew 0 count squeues.now (lent_to jobs.old.items) }
    ensures done { IfOk made.now (λ _. AreTasks count (length squeues.now)
        (HasBroughtOf limits_for squeues.now B.did (tasks_in jobs.old.items) (lent_to jobs.new.items)) (tasks_in jobs.new.items)) }
    ensures lent { AreLent (MayEnd limits_for) 0 count squeues.now (lent_to jobs.new.items) }
    ensures rings { length (rings_in (tasks_in jobs.new.items)) ≡ count }
    ensures count { length jobs.new.items ≡ length jobs.old.items }
{
    match made {
        Ok(()) => run_all(access, squeues, jobs),
        Err(_) => run_unused(
            access.rt,
            access.alloc,
            &NoHook,
            squeues,
            jobs,
            0,
            count as usize,
        ),
    }
}

// Does all jobs beside each other. The workers stand last, so that no job waits for one behind it.
fn run_all<
    'a,
    X: Shared + Drop + Send,
    B: Brings<Parcel = X::Parcel> + Drop + Send,
    W: Threads + Wait + Sync,
>(access: &Access<'a, W>, squeues: &[Squeue<Shard<X, &'a W>>], jobs: &mut [Job<Task<B, X::Parcel>>])
where
    X::Parcel: Send,
    requires pool { MayEnter access.now.pool.now }
    requires may { All (λ j. MayDo limits_for squeues.now j.task j.places.items) jobs.old }
    ensures { HaveDone limits_for squeues.now B.did jobs.old jobs.new }
{
    run_each(
        access.rt,
        jobs,
        &|_, job: &mut Job<Task<B, X::Parcel>>| {
            run_job(access.rt, access.alloc, access.pool, squeues, job)
        },
    );
}
