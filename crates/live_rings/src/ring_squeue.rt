//! The streams of one squeue, from their making to their end.

ghost use Rattle.std.specs.Prelude.{◌≡◌, ◌<◌, ◌≤◌, ◌+◌, ◌*◌, ◌^◌, ◌++◌, ◌∷◌, ℕ, List, [], All, IfOk, Some, length, slice_get, vec_capacity};
ghost use Rattle.turn_gate.specs.History.{Begins};
ghost use Rattle.turn_gate.specs.Passes.{AreFresh, number, seen};
ghost use Rattle.placed_parts.specs.Placing.{limits_of, origin_of};
ghost use Rattle.histories.specs.Elements.{number_of};
ghost use Rattle.squeue_state.specs.Naming.{setting_of};
ghost use Rattle.squeue_serve.specs.Lending.{HaveRoom, tasks_in};
ghost use Rattle.squeue_streams.specs.declared.streams.Stream.{Stream};
ghost use Rattle.live_chats.specs.declared.item.ChatItem.{ChatItem};
ghost use Rattle.live_chats.specs.Hearing.{ChatOf};
ghost use Rattle.live_chats.specs.Telling.{first_of};
ghost use Rattle.live_rings.specs.declared.ring.ServerTask.{ServerTask};
ghost use Rattle.live_rings.specs.declared.ring.ServerTask.TheVariants.{Served};
ghost use Rattle.live_rings.specs.Making.{IsInRange};
ghost use Rattle.live_rings.specs.Seating.{AreNewPlaces, ServesPlaces};
ghost use Rattle.ring_groups.specs.Groups.{AllBecameFrom};
ghost use Rattle.live_rings.specs.Served.{EndedAt, EndedIn};
ghost use Rattle.live_rings.specs.declared.ending.EndedRing.{EndedRing};
ghost use Rattle.live_rings.specs.Tasks.{AreDone, AreNewRings, AreNewTasks, ended_of, tasks_for};

use crate::ending::{EndedRing, Ends};
use crate::ring::{RingThread, ServerTask, run_rings};
use crate::seating::{Parts, new_pairs, new_places, new_squeue, no_parts, own_numbers, own_stays};
use crate::words::Layout;
use live_chats::{Chat, ChatItem, Chats};
use sq_base::{Sink, Source};
use squeue_serve::{Job, Squeues, discard, end_last, jobs_of, lend};
use squeue_state::{Ended, Pass, Squeue};
use std::alloc::{AllocError, Global};
use std::sync::Wait;
use std::thread::Threads;
use stream_stays::Place;

/// Serves these streams by one squeue, with a ring for each, until all have ended. It fails only for want of memory before it begins.
pub(crate) fn serve_squeue<
    S: Source + Drop + Send,
    K: Sink + Drop + Send,
    W: Threads + Wait + Sync,
>(
    rt: &W,
    alloc: Global,
    setup: &Layout,
    ends: Vec<Ends<S, K>>,
) -> Result<(Vec<EndedRing<S, K>>, Ended), AllocError>
    requires setup { IsInRange setup.now }
    requires ends { (1 ≤ length ends.items) × (length ends.items ≤ 63) }
    ensures { IfOk result (λ r. AllBecameFrom (EndedIn S.rest S.read_faults K.contents K.write_faults setup.now r.1) 0 ends.items r.0.items) }
{
    let count = ends.len() as u32;
    let own = places_of(setup, count)?;
    let room = Vec::with_capacity(alloc, ends.len() + 1)?;
    let (chats, rings) = new_rings(alloc, own, ends)?;
    let parts = no_parts(alloc, rt, count * own, chats)?;
    let tasks = tasks_of(alloc, rings)?;
    let jobs = jobs_of(alloc, tasks, 1)?;
    let Ok(squeues) = Squeues::with_room(alloc, 1) else {
        discard(jobs);
        return Err(AllocError);
    };
    match new_squeue(alloc, count, parts) {
        Ok((squeue, passes)) => {
            let (jobs, end) = run_to_end(rt, alloc, setup, squeue, passes, jobs, squeues);
            Ok((gather(jobs, room), end))
        }
        Err(error) => {
            discard(jobs);
            squeues.destroy_empty();
            Err(error)
        }
    }
}

// How many places each of so many rings of a squeue has: as many as a server is set to. So many that they have no numbers are no memory's.
fn places_of(setup: &Layout, rings: u32) -> Result<u32, AllocError>
    ensures set { IfOk result (λ n. n ≡ setup.now.setting.places) }
    ensures range { IfOk result (λ n. rings * n < 2 ^ 32) }
{
    let Ok(places) = u32::try_from(setup.setting.places) else {
        return Err(AllocError);
    };
    match rings.checked_mul(places) {
        Some(_) => Ok(places),
        None => Err(AllocError),
    }
}

// The rings of streams with these ends, by number, each of which has so many places, and what all chats have in common.
fn new_rings<S: Drop, K: Drop>(
    alloc: Global,
    own: u32,
    ends: Vec<Ends<S, K>>,
) -> Result<(Chats, Vec<RingThread<S, K>>), AllocError>
    requires { (1 ≤ length ends.items) × (length ends.items ≤ 63) × (length ends.items * own < 2 ^ 32) }
    ensures many { IfOk result (λ r. length (first_of r.0) ≡ length ends.items * own) }
    ensures rings { IfOk result (λ r. AreNewRings own (first_of r.0) ends.items r.1.items) }
{
    let count = ends.len() as u32;
    let (producers, parts) = new_pairs(alloc, count * own)?;
    let chats = Chats::of(&parts);
    let places = new_places(alloc, count * own, producers, parts)?;
    let rings = deal_places(alloc, count, own, ends, places)?;
    Ok((chats, rings))
}

// Deals places to the rings of these ends.
fn deal_places<S: Drop, K: Drop>(
    alloc: Global,
    count: u32,
    own: u32,
    ends: Vec<Ends<S, K>>,
    places: Vec<Place<ChatItem, Chat>>,
) -> Result<Vec<RingThread<S, K>>, AllocError>
    requires { (1 ≤ count) × (length ends.items ≡ count) × (count * own < 2 ^ 32) × (length places.items ≡ count * own) }
    ensures { IfOk result (λ v. (parts : List (Stream ChatItem ChatOf)) → AreNewPlaces parts places.items → AreNewRings own parts ends.items v.items) }
{
    let mut ends = ends;
    let mut places = places;
    let mut rings = Vec::with_capacity(alloc, ends.len())?;
    ends.reverse();
    for ring in 0..count {
        let Some(ends) = ends.pop() else {
            unreachable!()
        };
        let stays = own_stays(alloc, count, ring, &mut places)?;
        let free = own_numbers(alloc, count, ring, own)?;
        rings.push_reserved(RingThread { ends, stays, free });
    }
    Ok(rings)
}

// The tasks of the passes: each ring serves its stream, and the last pass works.
fn tasks_of<S: Drop, K: Drop>(
    alloc: Global,
    rings: Vec<RingThread<S, K>>,
) -> Result<Vec<ServerTask<S, K>>, AllocError>
    ensures { IfOk result (λ v. v.items ≡ tasks_for rings.items) }
{
    let mut rings = rings;
    let mut tasks = Vec::with_capacity(alloc, rings.len() + 1)?;
    rings.reverse();
    'rings: while let Some(ring) = rings.pop() {
        tasks.push_reserved(ServerTask::Serve(ring));
    }
    tasks.push_reserved(ServerTask::Work);
    Ok(tasks)
}

// Lends a new squeue to the jobs, has them done, and ends it: the jobs, which hold no pass any more, and the squeue's end. Each ring's pass has
// seen a beginning of its history.
fn run_to_end<
    H: Wait + Drop + Sync + Send,
    S: Source + Drop + Send,
    K: Sink + Drop + Send,
    W: Threads + Wait + Sync,
>(
    rt: &W,
    alloc: Global,
    setup: &Layout,
    squeue: Squeue<Parts<H>>,
    passes: Vec<Pass>,
    jobs: Vec<Job<ServerTask<S, K>>>,
    squeues: Squeues<Parts<H>>,
) -> (Vec<Job<ServerTask<S, K>>>, Ended)
    requires setup { IsInRange setup.now }
    requires squeue { ServesPlaces limits_of squeue.given (length squeue.given.quotas) (length (first_of (origin_of squeue.given.first))) }
    requires passes { (length passes.items ≡ length squeue.given.quotas + 1) × AreFresh number_of squeue.gate 0 passes.items }
    requires tasks { AreNewTasks (length squeue.given.quotas) setup.now.setting.places (first_of (origin_of squeue.given.first)) (tasks_in jobs.items) }
    requires jobs { All (λ j. j.places.items ≡ []) jobs.items × HaveRoom 1 jobs.items }
    requires squeues { (squeues.all.items ≡ []) × (squeues.rooms.items ≡ []) × (1 ≤ vec_capacity squeues.all) × (1 ≤ vec_capacity squeues.rooms) }
    ensures empty { All (λ j. j.places.items ≡ []) result.0.items }
    ensures setting { result.1.setting ≡ setting_of limits_of squeue.given }
    ensures seen { (k : ℕ) (d : EndedRing S K) → slice_get (tasks_in result.0.items) k ≡ Some (Served d)
        → (number d.pass.value ≡ k) × Begins (seen d.pass.value) result.1.history }
    ensures done { AreDone (EndedAt S.rest S.read_faults K.contents K.write_faults (setting_of limits_of squeue.given) setup.now)
        (tasks_in jobs.items) (tasks_in result.0.items) }
{
    let mut jobs = jobs;
    let mut squeues = squeues;
    let count = jobs.len() - 1;
    lend(&mut squeues, &mut jobs, 0, count, squeue, passes);
    run_rings(rt, &squeues.all[0], alloc, setup, &mut jobs);
    let Some((_parts, end, _trace)) = end_last(&mut squeues, &mut jobs, 0, count) else {
        unreachable!()
    };
    squeues.destroy_empty();
    (jobs, end)
}

// Takes apart jobs that hold no pass: what is left of each stream, by number.
fn gather<S: Drop, K: Drop>(
    jobs: Vec<Job<ServerTask<S, K>>>,
    room: Vec<EndedRing<S, K>>,
) -> Vec<EndedRing<S, K>>
    requires empty { All (λ j. j.places.items ≡ []) jobs.items }
    requires room { (room.items ≡ []) × (length jobs.items ≤ vec_capacity room) }
    ensures { result.items ≡ ended_of (tasks_in jobs.items) }
{
    let mut jobs = jobs;
    let mut left = room;
    'jobs: while let Some(job) = jobs.pop() {
        let Job { task, places } = job;
        places.destroy_empty();
        push_ended(&mut left, task);
    }
    jobs.destroy_empty();
    left.reverse();
    left
}

// Puts what is left of the stream of a task, where it is one's, behind the others.
fn push_ended<S: Drop, K: Drop>(left: &mut Vec<EndedRing<S, K>>, task: ServerTask<S, K>)
    requires { length left.old.items < vec_capacity left.old }
    ensures left { left.new.items ≡ left.old.items ++ ended_of (task ∷ []) }
    ensures room { vec_capacity left.new ≡ vec_capacity left.old }
{
    match task {
        ServerTask::Served(ended) => left.push_reserved(ended),
        ServerTask::Serve(_) => {}
        ServerTask::Work => {}
    }
}
