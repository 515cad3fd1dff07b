//! The sources of one squeue, from its making to its end.

ghost use Rattle.std.specs.Prelude.{◌≡◌, ◌<◌, ◌≤◌, ◌+◌, ◌*◌, ◌^◌, ◌++◌, ◌∷◌, ℕ, List, [], All, IfOk, IfSome, Some, length, slice_get, vec_capacity};
ghost use Rattle.turn_gate.specs.History.{Begins, only};
ghost use Rattle.turn_gate.specs.Passes.{AreFresh, number, seen};
ghost use Rattle.placed_parts.specs.Placing.{limits_of, origin_of};
ghost use Rattle.histories.specs.Elements.{number_of};
ghost use Rattle.histories.specs.Endings.{HasEnded};
ghost use Rattle.ring_groups.specs.Groups.{AllBecameFrom};
ghost use Rattle.squeue_state.specs.Naming.{setting_of};
ghost use Rattle.squeue_serve.specs.Lending.{HaveRoom, tasks_in};
ghost use Rattle.squeue_streams.specs.declared.streams.Stream.{Stream};
ghost use Rattle.squeue_arrivals.specs.Arriving.{IsServedAt, IsServedIn};
ghost use Rattle.squeue_arrivals.specs.Keyed.{AreBegun, first_of, work_of};
ghost use Rattle.squeue_arrivals.specs.Pooling.{IsInRange};
ghost use Rattle.squeue_arrivals.specs.Seating.{AreNewPlaces, ServesPlaces, lookers_of, room_of};
ghost use Rattle.squeue_arrivals.specs.Tasks.{AreDone, AreNewRings, AreNewTasks, ended_of, tasks_for, watched_in, watched_of};
ghost use Rattle.squeue_arrivals.specs.Watching.{HasWatched, SawLast, WasWatched};
ghost use Rattle.squeue_arrivals.specs.declared.ring.RingTask.{RingTask};
ghost use Rattle.squeue_arrivals.specs.declared.ring.RingTask.TheVariants.{Served, Watched as Watched'};
ghost use Rattle.squeue_arrivals.specs.declared.served.ServedSource.{ServedSource};
ghost use Rattle.squeue_arrivals.specs.declared.watching.Watched.{Watched};

use crate::pool::ArrivalPool;
use crate::ring::{Ring, RingTask, run_rings};
use crate::ring_keys::RingKeys;
use crate::seating::{KeyParts, new_pairs, new_places, new_squeue, no_parts, own_stays};
use crate::served::ServedSource;
use crate::source::Arrivals;
use crate::steps::{KeySteps, Keyed};
use crate::watching::{Watched, WatchedEnd, Watches};
use squeue_serve::{Job, Squeues, discard, end_last, jobs_of, lend};
use squeue_state::{Ended, Pass, Squeue};
use std::alloc::{AllocError, Global};
use std::sync::Wait;
use std::thread::Threads;
use stream_stays::Place;

/// Serves these sources by one squeue of this number, with a ring for each, until all are served. Where it is watched, the watcher looks at it.
/// It fails only for want of memory before it begins.
pub(crate) fn serve_squeue<
    X: KeySteps + Copy + Send + Sync,
    A: Arrivals<Item = X::Item> + Drop + Send,
    V: Watches<X::Item, X::State> + Sync,
    W: Threads + Wait + Sync,
>(
    rt: &W,
    alloc: Global,
    pool: &ArrivalPool,
    number: u32,
    steps: X,
    watcher: &V,
    watched: bool,
    sources: Vec<A>,
) -> Result<(Vec<ServedSource<A, X::Item, X::State>>, WatchedEnd<V::Seen>), AllocError>
where
    X::Item: Send,
    X::State: Send,
    V::Seen: Send,
    requires pool { IsInRange pool.now }
    requires sources { (1 ≤ length sources.items) × (length sources.items + lookers_of watched ≤ 63) }
    ensures served { IfOk result (λ r. AllBecameFrom (IsServedIn X.begins X.step A.origin A.given A.is_over steps pool.now.places r.1.end) 0 sources.items r.0.items) }
    ensures watched { IfOk result (λ r. WasWatched X.begins X.step steps (V.says watcher.now) (V.many watcher.now) watched r.1) }
{
    let count = sources.len() as u32;
    let all = places_of(pool, count)?;
    let room = Vec::with_capacity(alloc, sources.len() + 2)?;
    let (keyed, rings) = new_rings(alloc, pool, steps, sources)?;
    let parts = no_parts(alloc, rt, all, keyed)?;
    let tasks = tasks_of(alloc, rings, watched)?;
    let jobs = jobs_of(alloc, tasks, 1)?;
    let Ok(squeues) = Squeues::with_room(alloc, 1) else {
        discard(jobs);
        return Err(AllocError);
    };
    match new_squeue(alloc, number, count, watched, pool.room, parts) {
        Ok((squeue, passes)) => {
            let (jobs, end) = run_to_end(rt, alloc, pool, watcher, squeue, passes, jobs, squeues);
            let (served, watched) = gather(jobs, room);
            Ok((served, watched_end(end, watched)))
        }
        Err(error) => {
            discard(jobs);
            squeues.destroy_empty();
            Err(error)
        }
    }
}

// What is left of a squeue, and of who looked at it, where somebody did.
fn watched_end<Z: Drop>(end: Ended, watched: Option<Watched<Z>>) -> WatchedEnd<Z>
    ensures end { result.end ≡ end }
    ensures last { IfSome watched (λ w. result.last ≡ w.last) }
{
    match watched {
        Some(Watched { last, told, .. }) => WatchedEnd { end, last, told },
        None => WatchedEnd {
            end,
            last: None,
            told: true,
        },
    }
}

// How many places so many rings have together. So many that they have no numbers are no memory's.
fn places_of(pool: &ArrivalPool, rings: u32) -> Result<u32, AllocError>
    ensures { IfOk result (λ n. (n ≡ rings * pool.now.places) × (n < 2 ^ 32)) }
{
    match rings.checked_mul(pool.places) {
        Some(all) => Ok(all),
        None => Err(AllocError),
    }
}

// The rings of these sources, by number, and what all parts have in common.
fn new_rings<X: KeySteps + Drop, A: Drop>(
    alloc: Global,
    pool: &ArrivalPool,
    steps: X,
    sources: Vec<A>,
) -> Result<(Keyed<X>, Vec<Ring<X::Item, X::State, A>>), AllocError>
    requires { (1 ≤ length sources.items) × (length sources.items ≤ 63) × (length sources.items * pool.now.places < 2 ^ 32) × (1 ≤ pool.now.room) }
    ensures steps { IfOk result (λ r. work_of r.0 ≡ steps) }
    ensures begun { IfOk result (λ r. AreBegun X.begins r.0) }
    ensures many { IfOk result (λ r. length (first_of r.0) ≡ length sources.items * pool.now.places) }
    ensures rings { IfOk result (λ r. AreNewRings pool.now.places pool.now.room (first_of r.0) sources.items r.1.items) }
{
    let count = sources.len() as u32;
    let (producers, parts) = new_pairs(alloc, &steps, count * pool.places)?;
    let keyed = Keyed::of(steps, &parts);
    let places = new_places(alloc, count * pool.places, producers, parts)?;
    let rings = deal_places(alloc, pool, count, sources, places)?;
    Ok((keyed, rings))
}

// Deals places to the rings of these sources.
fn deal_places<T: Drop, S: Drop, A: Drop>(
    alloc: Global,
    pool: &ArrivalPool,
    count: u32,
    sources: Vec<A>,
    places: Vec<Place<T, S>>,
) -> Result<Vec<Ring<T, S, A>>, AllocError>
    requires { (1 ≤ count) × (length sources.items ≡ count) × (count * pool.now.places < 2 ^ 32) × (length places.items ≡ count * pool.now.places) × (1 ≤ pool.now.room) }
    ensures { IfOk result (λ v. (parts : List (Stream T S)) → AreNewPlaces parts places.items → AreNewRings pool.now.places pool.now.room parts sources.items v.items) }
{
    let mut sources = sources;
    let mut places = places;
    let mut rings = Vec::with_capacity(alloc, sources.len())?;
    sources.reverse();
    for ring in 0..count {
        let Some(source) = sources.pop() else {
            unreachable!()
        };
        let stays = own_stays(alloc, count, ring, pool.room, &mut places)?;
        let keys = RingKeys::none(alloc, count, ring, pool.places)?;
        let room = Vec::with_capacity(alloc, pool.places as usize)?;
        rings.push_reserved(Ring {
            source,
            stays,
            keys,
            room,
        });
    }
    Ok(rings)
}

// The tasks of the passes: each ring serves its source, the next pass looks, where it is watched, and the last one works.
fn tasks_of<T: Drop, S: Drop, A: Drop, Z: Drop>(
    alloc: Global,
    rings: Vec<Ring<T, S, A>>,
    watched: bool,
) -> Result<Vec<RingTask<T, S, A, Z>>, AllocError>
    ensures { IfOk result (λ v. v.items ≡ tasks_for (lookers_of watched) rings.items) }
{
    let mut rings = rings;
    let mut tasks = Vec::with_capacity(alloc, rings.len() + 2)?;
    rings.reverse();
    'rings: while let Some(ring) = rings.pop() {
        tasks.push_reserved(RingTask::Serve(ring));
    }
    if watched {
        tasks.push_reserved(RingTask::Watch);
    }
    tasks.push_reserved(RingTask::Work);
    Ok(tasks)
}

// Lends a new squeue to the jobs, has them done, and ends it: the jobs, which hold no pass any more, and the squeue's end. Each ring's pass has
// seen a beginning of its history, with all of its own, and so has that of who looked.
fn run_to_end<
    X: KeySteps + Drop + Send + Sync,
    A: Arrivals<Item = X::Item> + Drop + Send,
    V: Watches<X::Item, X::State> + Sync,
    H: Wait + Drop + Sync + Send,
    W: Threads + Wait + Sync,
>(
    rt: &W,
    alloc: Global,
    pool: &ArrivalPool,
    watcher: &V,
    squeue: Squeue<KeyParts<X, H>>,
    passes: Vec<Pass>,
    jobs: Vec<Job<RingTask<X::Item, X::State, A, V::Seen>>>,
    squeues: Squeues<KeyParts<X, H>>,
) -> (Vec<Job<RingTask<X::Item, X::State, A, V::Seen>>>, Ended)
where
    X::Item: Send,
    X::State: Send,
    V::Seen: Send,
    requires pool { IsInRange pool.now }
    requires squeue { ServesPlaces limits_of squeue.given squeue.given.rings (length (first_of (origin_of squeue.given.first))) }
    requires begun { AreBegun X.begins (origin_of squeue.given.first) }
    requires passes { (length passes.items ≡ length squeue.given.quotas + 1) × AreFresh number_of squeue.gate 0 passes.items }
    requires tasks { AreNewTasks squeue.given.rings (length squeue.given.quotas) pool.now.places (room_of squeue.given) (first_of (origin_of squeue.given.first)) (tasks_in jobs.items) }
    requires jobs { All (λ j. j.places.items ≡ []) jobs.items × HaveRoom 1 jobs.items }
    requires squeues { (squeues.all.items ≡ []) × (squeues.rooms.items ≡ []) × (1 ≤ vec_capacity squeues.all) × (1 ≤ vec_capacity squeues.rooms) }
    ensures empty { All (λ j. j.places.items ≡ []) result.0.items }
    ensures setting { result.1.setting ≡ setting_of limits_of squeue.given }
    ensures ended { HasEnded result.1 }
    ensures seen { (k : ℕ) (d : ServedSource A X.Item X.State) → slice_get (tasks_in result.0.items) k ≡ Some (Served d)
        → (number d.pass.value ≡ k) × Begins (seen d.pass.value) result.1.history × (only number_of k result.1.history ≡ only number_of k (seen d.pass.value)) }
    ensures watched { (k : ℕ) (w : Watched V.Seen) → slice_get (tasks_in result.0.items) k ≡ Some (Watched' w)
        → SawLast X.begins X.step (work_of (origin_of squeue.given.first)) (V.says watcher.now) result.1.setting k (V.many watcher.now) result.1.history w.last }
    ensures done { AreDone (IsServedAt X.begins X.step A.origin A.given A.is_over (work_of (origin_of squeue.given.first)) pool.now.places
        (setting_of limits_of squeue.given)) (HasWatched X.begins X.step (work_of (origin_of squeue.given.first)) (V.says watcher.now) (setting_of limits_of squeue.given)
        (V.many watcher.now)) (tasks_in jobs.items) (tasks_in result.0.items) }
{
    let mut jobs = jobs;
    let mut squeues = squeues;
    let count = jobs.len() - 1;
    lend(&mut squeues, &mut jobs, 0, count, squeue, passes);
    run_rings(rt, &squeues.all[0], alloc, pool, watcher, &mut jobs);
    let Some((_parts, end, _trace)) = end_last(&mut squeues, &mut jobs, 0, count) else {
        unreachable!()
    };
    squeues.destroy_empty();
    (jobs, end)
}

// Takes apart jobs that hold no pass: what is left of each source, by number, and of who looked.
fn gather<T: Drop, S: Drop, A: Drop, Z: Drop>(
    jobs: Vec<Job<RingTask<T, S, A, Z>>>,
    room: Vec<ServedSource<A, T, S>>,
) -> (Vec<ServedSource<A, T, S>>, Option<Watched<Z>>)
    requires empty { All (λ j. j.places.items ≡ []) jobs.items }
    requires room { (room.items ≡ []) × (length jobs.items ≤ vec_capacity room) }
    ensures served { result.0.items ≡ ended_of (tasks_in jobs.items) }
    ensures watched { result.1 ≡ watched_in (tasks_in jobs.items) }
{
    let mut jobs = jobs;
    let mut left = room;
    let mut watched = None;
    'jobs: while let Some(job) = jobs.pop() {
        let Job { task, places } = job;
        places.destroy_empty();
        watched = add_ended(&mut left, watched, task);
    }
    jobs.destroy_empty();
    left.reverse();
    (left, watched)
}

// Puts what is left of the source of a task, where it is one's, behind the others. Answers what is left of who looked: what the task has, or
// what was there before.
fn add_ended<T: Drop, S: Drop, A: Drop, Z: Drop>(
    left: &mut Vec<ServedSource<A, T, S>>,
    watched: Option<Watched<Z>>,
    task: RingTask<T, S, A, Z>,
) -> Option<Watched<Z>>
    requires { length left.old.items < vec_capacity left.old }
    ensures left { left.new.items ≡ left.old.items ++ ended_of (task ∷ []) }
    ensures room { vec_capacity left.new ≡ vec_capacity left.old }
    ensures watched { result ≡ watched_of task watched }
{
    match task {
        RingTask::Served(ended) => {
            left.push_reserved(ended);
            watched
        }
        RingTask::Watched(now) => Some(now),
        RingTask::Serve(_) => watched,
        RingTask::Watch => watched,
        RingTask::Work => watched,
    }
}
