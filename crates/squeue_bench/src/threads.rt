//! What the threads of a run do.
//!
//! A ring has a pass at each squeue and goes round the squeues chain by chain, with the same feeds for each. A worker has
//! the last pass of one squeue. Threads are lent their passes, which go out of their places for a call and back afterwards.

ghost use Rattle.std.specs.Prelude.{◌≡◌, ◌<◌, ◌≤◌, [], length, drop, slice_index_or};
ghost use Rattle.key_counters.specs.AsResident.{Counters, limits_of};
ghost use Rattle.turn_gate.specs.Passes.{number};
ghost use Rattle.squeue_state.specs.AllRoom.{HasAllRoom};
ghost use Rattle.squeue_state.specs.Naming.{Named};
ghost use Rattle.squeue_enter.specs.Entering.{MayEnter, MayGoOn};
ghost use Rattle.squeue_bench.specs.Places.{AtEach, HasPass, HasSeenOver, HasWorked, HaveClosed, IsWorker, MayBring, MayRun};

use key_counters::Counters;
use perimeter_core::{Feed, NoHook, Resident};
use squeue_drain::worker;
use squeue_enter::{Entered, Mode, enter, enter_or_full};
use squeue_serve::run_each;
use squeue_state::{Pass, Squeue};
use std::alloc::Global;
use std::sync::Wait;
use std::thread::{Threads, join_mut};
use std::{cmp, thread};

/// How many feeds an owner processes at most before it leaves the rest to the worker.
const BUDGET: u32 = 64;

/// How the rings enter: in which mode, with chains of how many feeds, and how many entries are queued at most at once. With a bound
/// of 0 there is room for all.
#[derive(Clone, Copy)]
pub struct Way {
    pub mode: Mode,
    pub chain: usize,
    pub bound: u32,
}

/// What a ring brings to each squeue, and its pass at each.
pub struct Bringer {
    pub feeds: Vec<Feed>,
    pub passes: Vec<Option<Pass>>,
}

/// The worker's pass of a squeue, and the room in which the squeue's passes come together in the end.
pub struct Worker {
    pub pass: Option<Pass>,
    pub room: Vec<Pass>,
}

/// Every ring brings what it has to each squeue and closes its passes, while the workers work to the end. The workers wait for the
/// rings, so the rings run on this thread, and the workers after them where no thread can be made.
pub fn run_all<W: Threads + Wait + Sync>(
    rt: &W,
    alloc: Global,
    squeues: &[Squeue<Counters<'_>>],
    rings: &mut [Bringer],
    workers: &mut [Worker],
    way: Way,
)
    requires chain { 1 ≤ way.chain }
    requires rings { MayRun limits_of way.bound squeues.now rings.old }
    requires workers { AtEach IsWorker squeues.now workers.old }
    ensures rings { (length rings.new ≡ length rings.old) × HaveClosed squeues.now rings.new }
    ensures workers { AtEach (HasWorked limits_of) squeues.now workers.new }
{
    join_mut(
        rt,
        &mut ||
            requires { AtEach IsWorker squeues.now workers.now }
            ensures { AtEach (HasWorked limits_of) squeues.entry.now workers.exit.now }
        { run_workers(rt, alloc, squeues, workers) },
        &mut ||
            requires { (1 ≤ way.chain) × MayRun limits_of way.bound squeues.now rings.now }
            ensures { (length rings.exit.now ≡ length rings.entry.now) × HaveClosed squeues.entry.now rings.exit.now }
        { run_rings(rt, alloc, squeues, way, rings) },
    );
}

fn run_rings<W: Threads + Wait + Sync>(
    rt: &W,
    alloc: Global,
    squeues: &[Squeue<Counters<'_>>],
    way: Way,
    rings: &mut [Bringer],
)
    requires chain { 1 ≤ way.chain }
    requires rings { MayRun limits_of way.bound squeues.now rings.old }
    ensures as_many { length rings.new ≡ length rings.old }
    ensures rings { HaveClosed squeues.now rings.new }
{
    run_each(
        rt,
        rings,
        &|k, ring: &mut Bringer|
            requires { (1 ≤ way.chain) × AtEach (MayBring limits_of way.bound k ring.now.feeds.items) squeues.now ring.now.passes.items }
            ensures { AtEach (HasPass k) squeues.entry.now ring.exit.now.passes.items }
        { run_ring(rt, alloc, squeues, k, ring, way) },
    );
}

fn run_workers<W: Threads + Wait + Sync>(
    rt: &W,
    alloc: Global,
    squeues: &[Squeue<Counters<'_>>],
    workers: &mut [Worker],
)
    requires { AtEach IsWorker squeues.now workers.old }
    ensures { AtEach (HasWorked limits_of) squeues.now workers.new }
{
    run_each(
        rt,
        workers,
        &|q, job: &mut Worker|
            requires { (q < length squeues.now) × ((s : Named Counters) → IsWorker (slice_index_or squeues.now q s) job.now) }
            ensures { (s : Named Counters) → HasWorked limits_of (slice_index_or squeues.entry.now q s) job.exit.now }
        { run_worker(rt, alloc, squeues, q, job) },
    );
}

// Brings the ring's feeds, and closes its passes.
fn run_ring<R: Resident, W: Wait>(
    rt: &W,
    alloc: Global,
    squeues: &[Squeue<R>],
    k: usize,
    ring: &mut Bringer,
    way: Way,
)
    requires chain { 1 ≤ way.chain }
    requires passes { AtEach (MayBring R.limits way.bound k ring.old.feeds.items) squeues.now ring.old.passes.items }
    ensures { AtEach (HasPass k) squeues.now ring.new.passes.items }
{
    let Bringer { feeds, passes } = ring;
    let mut rest = feeds.as_slice();
    'chains: while !rest.is_empty() {
        let chain = cmp::min(way.chain, rest.len());
        bring_to_each(rt, alloc, squeues, k, passes, rest, chain, way);
        (_, rest) = rest.split_at(chain);
    }
    close_each(rt, squeues, k, passes, way);
}

// Closes the ring's passes.
fn close_each<R: Resident, W: Wait>(
    rt: &W,
    squeues: &[Squeue<R>],
    k: usize,
    passes: &mut [Option<Pass>],
    way: Way,
)
    requires { AtEach (MayBring R.limits way.bound k []) squeues.now passes.old }
    ensures { AtEach (HasPass k) squeues.now passes.new }
{
    for q in 0..squeues.len() {
        close(rt, &squeues[q], k, &mut passes[q], way);
    }
}

// Brings one chain, so many feeds of the rest, to each squeue.
fn bring_to_each<R: Resident, W: Wait>(
    rt: &W,
    alloc: Global,
    squeues: &[Squeue<R>],
    k: usize,
    passes: &mut [Option<Pass>],
    rest: &[Feed],
    chain: usize,
    way: Way,
)
    requires chain { (1 ≤ chain) × (chain ≤ length rest.now) }
    requires passes { AtEach (MayBring R.limits way.bound k rest.now) squeues.now passes.old }
    ensures { AtEach (MayBring R.limits way.bound k (drop chain rest.now)) squeues.now passes.new }
{
    for q in 0..squeues.len() {
        bring(rt, alloc, &squeues[q], k, &mut passes[q], rest, chain, way);
    }
}

// Brings one chain to one squeue.
fn bring<R: Resident, W: Wait>(
    rt: &W,
    alloc: Global,
    squeue: &Squeue<R>,
    k: usize,
    place: &mut Option<Pass>,
    rest: &[Feed],
    chain: usize,
    way: Way,
)
    requires chain { (1 ≤ chain) × (chain ≤ length rest.now) }
    requires pass { MayBring R.limits way.bound k rest.now squeue.now place.old }
    ensures { MayBring R.limits way.bound k (drop chain rest.now) squeue.now place.new }
{
    let taken = place.take();
    let Some(pass) = taken else { unreachable!() };
    let chain = &rest[..chain];
    let pass = enter_by(squeue, rt, alloc, pass, chain, way);
    let old = place.replace(pass);
    let None = old else { unreachable!() };
}

// Enters a chain, and waits for room where it isn't sure.
fn enter_by<R: Resident, W: Wait>(
    squeue: &Squeue<R>,
    rt: &W,
    alloc: Global,
    pass: Pass,
    chain: &[Feed],
    way: Way,
) -> Pass
    requires some { 1 ≤ length chain.now }
    requires may { MayEnter R.limits squeue.now pass chain.now }
    requires room { way.bound ≡ 0 → HasAllRoom squeue.now.given }
    ensures number { number result ≡ number pass }
    ensures more { MayGoOn R.limits squeue.now chain.now pass result }
{
    match way.bound {
        0 => enter_at_once(squeue, rt, alloc, pass, chain, way.mode),
        _ => enter_waiting(squeue, rt, alloc, pass, chain, way.mode),
    }
}

// Enters a chain for which there is room.
fn enter_at_once<R: Resident, W: Wait>(
    squeue: &Squeue<R>,
    rt: &W,
    alloc: Global,
    pass: Pass,
    chain: &[Feed],
    mode: Mode,
) -> Pass
    requires some { 1 ≤ length chain.now }
    requires may { MayEnter R.limits squeue.now pass chain.now }
    requires room { HasAllRoom squeue.now.given }
    ensures number { number result ≡ number pass }
    ensures more { MayGoOn R.limits squeue.now chain.now pass result }
{
    let Entered {
        pass,
        how: _,
        polling: _,
    } = enter(squeue, rt, alloc, &NoHook, pass, chain, mode, BUDGET);
    pass
}

// Enters a chain as soon as there is room.
fn enter_waiting<R: Resident, W: Wait>(
    squeue: &Squeue<R>,
    rt: &W,
    alloc: Global,
    pass: Pass,
    chain: &[Feed],
    mode: Mode,
) -> Pass
    requires some { 1 ≤ length chain.now }
    requires may { MayEnter R.limits squeue.now pass chain.now }
    ensures number { number result ≡ number pass }
    ensures more { MayGoOn R.limits squeue.now chain.now pass result }
{
    let mut pass = pass;
    for _ in rt.forever() {
        match enter_or_full(squeue, rt, alloc, &NoHook, pass, chain, mode, BUDGET) {
            Ok(
                Entered {
                    pass,
                    how: _,
                    polling: _,
                },
            ) => return pass,
            Err(back) => pass = back,
        }
        thread::yield_now();
    }
    unreachable!()
}

// Closes the ring's pass at one squeue.
fn close<R: Resident, W: Wait>(
    rt: &W,
    squeue: &Squeue<R>,
    k: usize,
    place: &mut Option<Pass>,
    way: Way,
)
    requires { MayBring R.limits way.bound k [] squeue.now place.old }
    ensures { HasPass k squeue.now place.new }
{
    let taken = place.take();
    let Some(pass) = taken else { unreachable!() };
    let old = place.replace(squeue.close_pass(rt, pass));
    let None = old else { unreachable!() };
}

// Works at squeue `q` to its end.
fn run_worker<R: Resident, W: Wait>(
    rt: &W,
    alloc: Global,
    squeues: &[Squeue<R>],
    q: usize,
    job: &mut Worker,
)
    requires place { q < length squeues.now }
    requires worker { (s : Named R) → IsWorker (slice_index_or squeues.now q s) job.old }
    ensures { (s : Named R) → HasWorked R.limits (slice_index_or squeues.now q s) job.new }
{
    work(rt, alloc, &squeues[q], &mut job.pass);
}

fn work<R: Resident, W: Wait>(rt: &W, alloc: Global, squeue: &Squeue<R>, place: &mut Option<Pass>)
    requires { HasPass (length squeue.now.given.quotas) squeue.now place.old }
    ensures pass { HasPass (length squeue.now.given.quotas) squeue.now place.new }
    ensures over { HasSeenOver R.limits squeue.now place.new }
{
    let taken = place.take();
    let Some(pass) = taken else { unreachable!() };
    let old = place.replace(worker(squeue, rt, alloc, &NoHook, pass));
    let None = old else { unreachable!() };
}
