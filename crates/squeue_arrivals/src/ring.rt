//! A ring: what it has before it serves its source, and what is left of it; and what the threads of one squeue do.

ghost use Rattle.std.specs.Prelude.{◌≡◌, ◌≢◌, ℕ, ◌^◌, ◌<◌, ◌≤◌, [], All, List, Some, length, slice_get, slice_index_or, vec_capacity};
ghost use Rattle.turn_gate.specs.Passes.{IsPassOf, number};
ghost use Rattle.perimeter_core.specs.History.{worker as worker_of};
ghost use Rattle.placed_parts.specs.Placing.{limits_of, origin_of};
ghost use Rattle.squeue_state.specs.Naming.{setting_of};
ghost use Rattle.histories.specs.Elements.{number_of};
ghost use Rattle.squeue_serve.specs.declared.jobs.Job.{Job};
ghost use Rattle.squeue_serve.specs.Places.{MayEnd};
ghost use Rattle.squeue_streams.specs.Taking.{state_of};
ghost use Rattle.stream_stays.specs.Places.{life_of};
ghost use Rattle.stream_stays.specs.declared.place.Place.TheVariants.{Vacant as Vacant'};
ghost use Rattle.stream_stays.specs.declared.stay.Vacant.{Vacant};
ghost use Rattle.squeue_arrivals.specs.declared.served.KeyPart.{KeyPart};
ghost use Rattle.squeue_arrivals.specs.Arriving.{HasGiven, IsServedAt, keys_of};
ghost use Rattle.squeue_arrivals.specs.Keyed.{AreBegun, Tells, work_of};
ghost use Rattle.squeue_arrivals.specs.Keeping.{AreClosed, HasAll, HasKeys};
ghost use Rattle.squeue_arrivals.specs.Pooling.{IsInRange};
ghost use Rattle.squeue_arrivals.specs.Placed.{SameRing, keys_in, most_in, place_of};
ghost use Rattle.squeue_arrivals.specs.Tasks.{HasDone, IsReady, KnowsPass, MayRun, MayServe, Ran};
ghost use Rattle.squeue_arrivals.specs.Watching.{HasWatched};
ghost use Rattle.squeue_arrivals.specs.declared.ring.RingTask.{RingTask};

use crate::keys::arrive;
use crate::line::Line;
use crate::pool::{ArrivalPool, pace_of};
use crate::ring_keys::RingKeys;
use crate::seating::KeyParts;
use crate::served::{Cause, KeyPart, Refused, ServedSource};
use crate::source::{Arrival, Arrivals};
use crate::steps::KeySteps;
use crate::watching::{Watched, Watches, watch};
use perimeter_core::{Known, NoHook, Resident};
use squeue_drain::worker;
use squeue_serve::{Job, put_pass, run_each, take_pass};
use squeue_state::{Pass, Squeue};
use std::alloc::Global;
use std::mem::replace;
use std::sync::Wait;
use std::thread;
use std::thread::Threads;
use stream_stays::{Place, Stays, Vacant, close_at};

// So many items a ring serves.
const LIFE: u64 = 1 << 49;

/// What a ring has before it serves: its source, the places of its pass, which keys are at them, and room for what is handed back.
#[derive(Drop)]
pub(crate) struct Ring<T: Drop, S: Drop, A: Drop> {
    pub(crate) source: A,
    pub(crate) stays: Stays<T, S>,
    pub(crate) keys: RingKeys,
    pub(crate) room: Vec<KeyPart<S>>,
}

/// What a pass is used for: to serve a source, to look, or to work the squeue to its end. `Served` is what is left of a source, and `Watched`
/// of who looked.
#[derive(Drop)]
pub(crate) enum RingTask<T: Drop, S: Drop, A: Drop, Z: Drop> {
    Serve(Ring<T, S, A>),
    Served(ServedSource<A, T, S>),
    Watch,
    Watched(Watched<Z>),
    Work,
}

/// Does the jobs beside each other, until all are done. The worker's waits for the others, so it stands last.
pub(crate) fn run_rings<
    X: KeySteps + Drop + Send + Sync,
    A: Arrivals<Item = X::Item> + Drop + Send,
    V: Watches<X::Item, X::State> + Sync,
    H: Wait + Drop + Sync + Send,
    W: Threads + Wait + Sync,
>(
    rt: &W,
    sq: &Squeue<KeyParts<X, H>>,
    alloc: Global,
    pool: &ArrivalPool,
    watcher: &V,
    jobs: &mut [Job<RingTask<X::Item, X::State, A, V::Seen>>],
)
where
    X::Item: Send,
    X::State: Send,
    V::Seen: Send,
    requires pool { IsInRange pool.now }
    requires jobs { All (IsReady (Tells X.step) sq.now pool.now.places) jobs.old }
    requires begun { AreBegun X.begins (origin_of sq.now.given.first) }
    ensures { (k : ℕ) (d : Job (RingTask X.Item X.State A V.Seen)) → k < length jobs.old
        → Ran limits_of sq.now (IsServedAt X.begins X.step A.origin A.given A.is_over (work_of (origin_of sq.now.given.first)) pool.now.places
        (setting_of limits_of sq.now.given))
        (HasWatched X.begins X.step (work_of (origin_of sq.now.given.first)) (V.says watcher.now) (setting_of limits_of sq.now.given) (V.many watcher.now))
        (slice_index_or jobs.old k d) (slice_index_or jobs.new k d) }
{
    run_each(
        rt,
        jobs,
        &|_, job: &mut Job<RingTask<X::Item, X::State, A, V::Seen>>|
            requires pool { IsInRange pool.now }
            requires job { IsReady (Tells X.step) sq.now pool.now.places job.now }
            requires begun { AreBegun X.begins (origin_of sq.now.given.first) }
            ensures { Ran limits_of sq.entry.now (IsServedAt X.begins X.step A.origin A.given A.is_over (work_of (origin_of sq.entry.now.given.first))
                pool.entry.now.places (setting_of limits_of sq.entry.now.given))
                (HasWatched X.begins X.step (work_of (origin_of sq.entry.now.given.first)) (V.says watcher.entry.now) (setting_of limits_of sq.entry.now.given) (V.many watcher.entry.now))
                job.entry.now job.exit.now }
        { run_job(rt, sq, alloc, pool, watcher, job) },
    );
}

fn run_job<
    X: KeySteps + Drop,
    A: Arrivals<Item = X::Item> + Drop,
    V: Watches<X::Item, X::State>,
    H: Wait + Drop,
    W: Wait,
>(
    rt: &W,
    sq: &Squeue<KeyParts<X, H>>,
    alloc: Global,
    pool: &ArrivalPool,
    watcher: &V,
    job: &mut Job<RingTask<X::Item, X::State, A, V::Seen>>,
)
    requires pool { IsInRange pool.now }
    requires job { IsReady (Tells X.step) sq.now pool.now.places job.old }
    requires begun { AreBegun X.begins (origin_of sq.now.given.first) }
    ensures { Ran limits_of sq.now (IsServedAt X.begins X.step A.origin A.given A.is_over (work_of (origin_of sq.now.given.first)) pool.now.places (setting_of limits_of sq.now.given))
        (HasWatched X.begins X.step (work_of (origin_of sq.now.given.first)) (V.says watcher.now) (setting_of limits_of sq.now.given) (V.many watcher.now)) job.old job.new }
{
    let pass = take_pass(&mut job.places[0]);
    let pass = run_pass(rt, sq, alloc, pool, watcher, pass, &mut job.task);
    put_pass(&mut job.places[0], pass);
}

fn run_pass<
    X: KeySteps + Drop,
    A: Arrivals<Item = X::Item> + Drop,
    V: Watches<X::Item, X::State>,
    H: Wait + Drop,
    W: Wait,
>(
    rt: &W,
    sq: &Squeue<KeyParts<X, H>>,
    alloc: Global,
    pool: &ArrivalPool,
    watcher: &V,
    pass: Pass,
    task: &mut RingTask<X::Item, X::State, A, V::Seen>,
) -> Pass
    requires pool { IsInRange pool.now }
    requires may { MayRun (Tells X.step) sq.now pool.now.places task.old pass }
    requires begun { AreBegun X.begins (origin_of sq.now.given.first) }
    ensures ended { MayEnd limits_of (number pass) sq.now result }
    ensures done { HasDone (IsServedAt X.begins X.step A.origin A.given A.is_over (work_of (origin_of sq.now.given.first)) pool.now.places (setting_of limits_of sq.now.given))
        (HasWatched X.begins X.step (work_of (origin_of sq.now.given.first)) (V.says watcher.now) (setting_of limits_of sq.now.given) (V.many watcher.now)) task.old task.new }
    ensures knows { KnowsPass task.new (Some result) }
{
    match replace(task, RingTask::Work) {
        RingTask::Serve(ring) => {
            let (pass, served) = serve_ring(rt, sq, alloc, pool, pass, ring);
            *task = RingTask::Served(served);
            pass
        }
        RingTask::Watch => {
            let (pass, watched) = watch(rt, sq, alloc, pass, watcher);
            *task = RingTask::Watched(watched);
            pass
        }
        _ => work(rt, sq, alloc, pass),
    }
}

// Works until all is over.
fn work<R: Resident, W: Wait>(rt: &W, sq: &Squeue<R>, alloc: Global, pass: Pass) -> Pass
    requires pass { IsPassOf number_of sq.now.gate pass }
    requires worker { number pass ≡ worker_of (setting_of R.limits sq.now.given) }
    ensures { MayEnd R.limits (number pass) sq.now result }
{
    worker(sq, rt, alloc, &NoHook, pass)
}

// Serves the ring's source to its end, or to the first item that is refused, and closes the pass.
fn serve_ring<X: KeySteps + Drop, A: Arrivals<Item = X::Item> + Drop, H: Wait + Drop, W: Wait>(
    rt: &W,
    sq: &Squeue<KeyParts<X, H>>,
    alloc: Global,
    pool: &ArrivalPool,
    pass: Pass,
    ring: Ring<X::Item, X::State, A>,
) -> (Pass, ServedSource<A, X::Item, X::State>)
    requires pool { IsInRange pool.now }
    requires may { MayServe (Tells X.step) sq.now pool.now.places pass ring }
    requires begun { AreBegun X.begins (origin_of sq.now.given.first) }
    ensures ended { MayEnd limits_of (number pass) sq.now result.0 }
    ensures served { IsServedAt X.begins X.step A.origin A.given A.is_over (work_of (origin_of sq.now.given.first)) pool.now.places (setting_of limits_of sq.now.given) ring.source result.1 }
    ensures knows { result.1.pass.value ≡ result.0 }
{
    let Ring {
        mut source,
        mut stays,
        mut keys,
        room,
    } = ring;
    let line = Line {
        rt,
        squeue: sq,
        pace: pace_of(pool),
        span: pool.span,
    };
    let (pass, refused) = serve_all(&line, alloc, pass, &mut source, &mut stays, &mut keys);
    let pass = close_keys(&line, alloc, pass, &mut stays, &keys);
    let parts = take_parts(stays.into_places(), &keys, room);
    let pass = sq.close_pass(rt, pass);
    let last = Known::of(&pass);
    (
        pass,
        ServedSource {
            source,
            parts,
            refused,
            pass: last,
        },
    )
}

// Brings the items of a source to their keys, until the source is over or an item is refused, which is answered.
fn serve_all<X: KeySteps + Drop, A: Arrivals<Item = X::Item>, H: Wait + Drop, W: Wait>(
    line: &Line<'_, KeyParts<X, H>, W>,
    alloc: Global,
    pass: Pass,
    source: &mut A,
    stays: &mut Stays<X::Item, X::State>,
    keys: &mut RingKeys,
) -> (Pass, Option<Refused<X::Item>>)
    requires keys { HasKeys (Tells X.step) limits_of line.now.squeue.now (origin_of line.now.squeue.now.given.first) [] pass stays.old keys.old }
    requires none { keys_in keys.old ≡ [] }
    requires asks { 2 ^ 52 ≤ (life_of stays.old).asks }
    ensures number { number result.0 ≡ number pass }
    ensures ring { SameRing keys.old keys.new }
    ensures asks { 2 ^ 50 ≤ (life_of stays.new).asks }
    ensures given { (all : List (ℕ × X.Item)) × HasAll (Tells X.step) limits_of line.now.squeue.now (origin_of line.now.squeue.now.given.first) all result.0 stays.new keys.new
        × HasGiven A.origin A.given A.is_over (most_in keys.new) (length (keys_in keys.new)) all source.old source.new result.1 }
{
    let mut pass = pass;
    let mut left = LIFE;
    'items: for _ in line.rt.forever() {
        let arrival = source.next();
        match arrival {
            Arrival::Item(key, item) => {
                if left == 0 {
                    source.stop();
                    let cause = Cause::LifeIsOver;
                    return (pass, Some(Refused { key, item, cause }));
                }
                left -= 1;
                let (next, refused) = arrive(line, alloc, pass, stays, keys, key, item);
                if refused.is_some() {
                    source.stop();
                    return (next, refused);
                }
                pass = next;
            }
            Arrival::NoneYet => {
                pass = line.enter_some(alloc, pass, stays);
                thread::yield_now();
            }
            Arrival::End => return (pass, None),
        }
    }
    unreachable!()
}

// Has the places of all keys take what was sent, and closes them.
fn close_keys<X: KeySteps + Drop, H: Wait + Drop, W: Wait>(
    line: &Line<'_, KeyParts<X, H>, W>,
    alloc: Global,
    pass: Pass,
    stays: &mut Stays<X::Item, X::State>,
    keys: &RingKeys,
) -> Pass
    requires keys { (all : List (ℕ × X.Item)) × HasKeys (Tells X.step) limits_of line.now.squeue.now (origin_of line.now.squeue.now.given.first) all pass stays.old keys.now }
    requires asks { 2 ^ 50 ≤ (life_of stays.old).asks }
    ensures number { number result ≡ number pass }
    ensures closed { (all : List (ℕ × X.Item)) → HasKeys (Tells X.step) limits_of line.now.squeue.now (origin_of line.now.squeue.now.given.first) all pass stays.old keys.now
        → AreClosed (Tells X.step) limits_of line.now.squeue.now (origin_of line.now.squeue.now.given.first) all result stays.new keys.now }
{
    let mut pass = line.settle(alloc, pass, stays);
    for i in 0..keys.len() {
        pass = close_at(line.squeue, line.rt, alloc, pass, stays, keys.place(i));
    }
    pass
}

// What was made of the items of each key, of all these places.
fn take_parts<T: Drop, S: Drop>(
    places: Vec<Place<T, S>>,
    keys: &RingKeys,
    room: Vec<KeyPart<S>>,
) -> Vec<KeyPart<S>>
    requires vacant { (i : ℕ) → i < length (keys_in keys.now) → (v : Vacant T S) × (slice_get places.items (place_of keys.now i) ≡ Some (Vacant' v)) }
    requires few { length (keys_in keys.now) ≤ most_in keys.now }
    requires room { (room.items ≡ []) × (length (keys_in keys.now) ≤ vec_capacity room) }
    ensures keys { keys_of result.items ≡ keys_in keys.now }
    ensures states { (i : ℕ) (part : KeyPart S) → slice_get result.items i ≡ Some part
        → (v : Vacant T S) × (slice_get places.items (place_of keys.now i) ≡ Some (Vacant' v)) × (part.state ≡ state_of v.part) }
{
    let mut places = places;
    let mut parts = room;
    for i in 0..keys.len() {
        let key = keys.key(i);
        let vacant = take_at(&mut places, keys.place(i) as usize);
        let state = vacant.part.into_state();
        parts.push_reserved(KeyPart { key, state });
    }
    parts
}

// What is at a place at which no part is out.
fn take_at<T: Drop, S: Drop>(places: &mut Vec<Place<T, S>>, c: usize) -> Vacant<T, S>
    requires { (v : Vacant T S) × (slice_get places.old.items c ≡ Some (Vacant' v)) }
    ensures was { slice_get places.old.items c ≡ Some (Vacant' result) }
    ensures others { (d : ℕ) → d ≢ c → slice_get places.new.items d ≡ slice_get places.old.items d }
{
    match replace(&mut places[c], Place::Out) {
        Place::Vacant(vacant) => vacant,
        _ => unreachable!(),
    }
}
