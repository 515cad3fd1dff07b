//! A ring: what it has before it serves its stream, and what is left of it; and what the threads of one squeue do.

ghost use Rattle.std.specs.Prelude.{◌≡◌, ℕ, ◌<◌, [], All, false, length, slice_index_or, Some, IfSome, OnOk};
ghost use Rattle.live_server.specs.Frames.{frames_in};
ghost use Rattle.live_server.specs.Told.{told_frames};
ghost use Rattle.turn_gate.specs.Passes.{IsPassOf, number};
ghost use Rattle.turn_gate.specs.declared.pass.Pass.{Pass};
ghost use Rattle.perimeter_core.specs.History.{Element, worker as worker_of};
ghost use Rattle.placed_parts.specs.Placing.{limits_of, origin_of};
ghost use Rattle.squeue_state.specs.Naming.{setting_of};
ghost use Rattle.histories.specs.Elements.{number_of};
ghost use Rattle.squeue_serve.specs.declared.jobs.Job.{Job};
ghost use Rattle.squeue_serve.specs.Places.{MayClose, MayEnd};
ghost use Rattle.stream_stays.specs.Places.{Knows, chain_of, touched_of};
ghost use Rattle.live_chats.specs.Telling.{IsFirst, Tells};
ghost use Rattle.live_rings.specs.declared.ring.ServerTask.{ServerTask};
ghost use Rattle.live_rings.specs.Making.{IsInRange, server_of};
ghost use Rattle.live_rings.specs.Served.{EndedAt, HasServed, LivedBy, fault_of};
ghost use Rattle.live_rings.specs.Tasks.{HasDone, IsReady, KnowsPass, MayRun, MayServe, Ran};

use crate::ending::{EndedRing, Ends};
use crate::seating::Parts;
use crate::words::Layout;
use live_chats::{Chat, ChatItem, Closes, Seats};
use live_run::{Fault, serve_stream};
use live_server::{ConnTable, Rules};
use perimeter_core::{Known, NoHook, Resident};
use sq_base::{Sink, Source};
use squeue_drain::worker;
use squeue_serve::{Job, put_pass, run_each, take_pass};
use squeue_state::{Pass, Squeue};
use std::alloc::Global;
use std::collections::VecDeque;
use std::marker::Brand;
use std::mem::replace;
use std::sync::Wait;
use std::thread::Threads;
use stream_stays::Stays;

/// What a ring has before it serves: where it reads and writes, the places of its pass, and the numbers of those that are free.
#[derive(Drop)]
pub struct RingThread<S: Drop, K: Drop> {
    pub ends: Ends<S, K>,
    pub stays: Stays<ChatItem, Chat>,
    pub free: VecDeque<u32>,
}

/// What a pass is used for: to serve a stream, or to work the squeue to its end. `Served` is what is left of a stream.
#[derive(Drop)]
pub enum ServerTask<S: Drop, K: Drop> {
    Serve(RingThread<S, K>),
    Served(EndedRing<S, K>),
    Work,
}

/// Does the jobs beside each other, until all are done. The worker's waits for the others, so it stands last.
pub(crate) fn run_rings<
    H: Wait + Drop + Sync + Send,
    S: Source + Drop + Send,
    K: Sink + Drop + Send,
    W: Threads + Wait + Sync,
>(rt: &W, sq: &Squeue<Parts<H>>, alloc: Global, setup: &Layout, jobs: &mut [Job<ServerTask<S, K>>])
    requires setup { IsInRange setup.now }
    requires jobs { All (IsReady sq.now) jobs.old }
    ensures { (k : ℕ) (d : Job (ServerTask S K)) → k < length jobs.old
        → Ran limits_of sq.now (EndedAt S.rest S.read_faults K.contents K.write_faults (setting_of limits_of sq.now.given) setup.now)
        (slice_index_or jobs.old k d) (slice_index_or jobs.new k d) }
{
    run_each(
        rt,
        jobs,
        &|_, job: &mut Job<ServerTask<S, K>>|
            requires setup { IsInRange setup.now }
            requires job { IsReady sq.now job.now }
            ensures { Ran limits_of sq.entry.now
                (EndedAt S.rest S.read_faults K.contents K.write_faults (setting_of limits_of sq.entry.now.given) setup.entry.now) job.entry.now job.exit.now }
        { run_job(rt, sq, alloc, setup, job) },
    );
}

fn run_job<H: Wait + Drop, S: Source + Drop, K: Sink + Drop, W: Wait>(
    rt: &W,
    sq: &Squeue<Parts<H>>,
    alloc: Global,
    setup: &Layout,
    job: &mut Job<ServerTask<S, K>>,
)
    requires setup { IsInRange setup.now }
    requires job { IsReady sq.now job.old }
    ensures { Ran limits_of sq.now (EndedAt S.rest S.read_faults K.contents K.write_faults (setting_of limits_of sq.now.given) setup.now) job.old job.new }
{
    let pass = take_pass(&mut job.places[0]);
    let pass = run_pass(rt, sq, alloc, setup, pass, &mut job.task);
    put_pass(&mut job.places[0], pass);
}

fn run_pass<H: Wait + Drop, S: Source + Drop, K: Sink + Drop, W: Wait>(
    rt: &W,
    sq: &Squeue<Parts<H>>,
    alloc: Global,
    setup: &Layout,
    pass: Pass,
    task: &mut ServerTask<S, K>,
) -> Pass
    requires setup { IsInRange setup.now }
    requires may { MayRun sq.now task.old pass }
    ensures ended { MayEnd limits_of (number pass) sq.now result }
    ensures done { HasDone (EndedAt S.rest S.read_faults K.contents K.write_faults (setting_of limits_of sq.now.given) setup.now) task.old task.new }
    ensures knows { KnowsPass task.new (Some result) }
{
    let ServerTask::Serve(ring) = replace(task, ServerTask::Work) else {
        return work(rt, sq, alloc, pass);
    };
    let (pass, ended) = serve_ring(rt, sq, alloc, setup, pass, ring);
    *task = ServerTask::Served(ended);
    pass
}

// Serves the ring's stream to its end, and closes the pass.
fn serve_ring<H: Wait + Drop, S: Source + Drop, K: Sink + Drop, W: Wait>(
    rt: &W,
    sq: &Squeue<Parts<H>>,
    alloc: Global,
    setup: &Layout,
    pass: Pass,
    ring: RingThread<S, K>,
) -> (Pass, EndedRing<S, K>)
    requires setup { IsInRange setup.now }
    requires may { MayServe sq.now pass ring }
    ensures ended { MayEnd limits_of (number pass) sq.now result.0 }
    ensures served { EndedAt S.rest S.read_faults K.contents K.write_faults (setting_of limits_of sq.now.given) setup.now ring.ends result.1 }
    ensures knows { result.1.pass.value ≡ result.0 }
{
    let RingThread { ends, stays, free } = ring;
    let Ends {
        mut reader,
        mut sink,
    } = ends;
    let (pass, served, lost) = serve_seated::<Brand, H, S, K, W>(
        rt,
        sq,
        alloc,
        setup,
        pass,
        stays,
        free,
        &mut reader,
        &mut sink,
    );
    let pass = sq.close_pass(rt, pass);
    let fault = fault_of(served);
    let last = Known::of(&pass);
    (
        pass,
        EndedRing {
            reader,
            sink,
            fault,
            lost,
            pass: last,
        },
    )
}

// Serves a stream by the rules of one server, whose connections are the seats of this pass. `N` says which passes may be closed.
fn serve_seated<N: Closes, H: Wait + Drop, S: Source, K: Sink, W: Wait>(
    rt: &W,
    sq: &Squeue<Parts<H>>,
    alloc: Global,
    setup: &Layout,
    pass: Pass,
    stays: Stays<ChatItem, Chat>,
    free: VecDeque<u32>,
    reader: &mut S,
    sink: &mut K,
) -> (Pass, Result<(), Fault>, bool)
    requires setup { IsInRange setup.now }
    requires closes { (q : Pass Element) → MayClose limits_of sq.now q → number q ≡ number pass → N.closes q }
    requires knows { Knows IsFirst Tells limits_of sq.now (origin_of sq.now.given.first) pass stays }
    requires none { (chain_of stays ≡ []) × (touched_of stays ≡ []) }
    ensures closes { N.closes result.0 }
    ensures served { HasServed S.rest S.read_faults K.contents K.write_faults setup.now reader.old sink.old reader.new sink.new result.2 result.1 }
    ensures lived { OnOk result.1 (result.2 ≡ false → IfSome (S.rest reader.old) (λ input.
        LivedBy (setting_of limits_of sq.now.given) result.0 (told_frames (frames_in input) (server_of setup.now)))) }
{
    let seats = Seats::<Parts<H>, W, N>::begin(rt, sq, alloc, pass, stays, free, setup.pace());
    let (seats, served, lost) = serve_by(alloc, setup, seats, reader, sink);
    (seats.end(alloc), served, lost)
}

// Serves a stream by the rules of one server over a table in which nobody is. It answers whether something was lost for want of memory.
fn serve_by<T: ConnTable, S: Source, K: Sink>(
    alloc: Global,
    setup: &Layout,
    table: T,
    reader: &mut S,
    sink: &mut K,
) -> (T, Result<(), Fault>, bool)
    requires good { T.good table }
    requires none { T.conns table ≡ [] }
    ensures good { T.good result.0 }
    ensures served { HasServed S.rest S.read_faults K.contents K.write_faults setup.now reader.old sink.old reader.new sink.new result.2 result.1 }
    ensures told { OnOk result.1 (result.2 ≡ false → IfSome (S.rest reader.old) (λ input.
        T.tells table (told_frames (frames_in input) (server_of setup.now)) result.0)) }
{
    let Ok(setting) = setup.setting.share() else {
        return (table, Err(Fault::NoMemory), false);
    };
    let mut rules = Rules::over(alloc, table, setting, setup.secret);
    let mut lost = false;
    let served = serve_stream(alloc, &mut rules, reader, sink, setup.goes_on, &mut lost);
    (rules.into_table(), served, lost)
}

// What went wrong, where something did.
fn fault_of(served: Result<(), Fault>) -> Option<Fault>
    ensures { result ≡ fault_of served }
{
    match served {
        Ok(()) => None,
        Err(fault) => Some(fault),
    }
}

// Works until all is over.
fn work<R: Resident, W: Wait>(rt: &W, sq: &Squeue<R>, alloc: Global, pass: Pass) -> Pass
    requires pass { IsPassOf number_of sq.now.gate pass }
    requires worker { number pass ≡ worker_of (setting_of R.limits sq.now.given) }
    ensures { MayEnd R.limits (number pass) sq.now result }
{
    worker(sq, rt, alloc, &NoHook, pass)
}
