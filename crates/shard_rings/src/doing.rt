//! What a job does.
ghost use Rattle.std.specs.Prelude.{◌≡◌, map};
ghost use Rattle.shards.specs.Sharing.{limits_for};
ghost use Rattle.shard_rings.specs.Jobs.{HasDone, MayDo, MayEnter};
ghost use Rattle.shard_rings.specs.Knowing.{came_of, sent_of};
ghost use Rattle.shard_rings.specs.Rows.{AreKnown, SameEnds};
ghost use Rattle.shard_rings.specs.Tasks.{HasBrought, HasWorkedAt, IsReady, MayWorkAt};

use crate::bringing::Brings;
use crate::pool::ShardPool;
use crate::ring::RingLanes;
use crate::run::{RingTask, Task};
use perimeter_core::{Known, NoHook, Resident};
use shards::{Shard, Shared};
use squeue_serve::{Job, close_all, work};
use squeue_state::{Pass, Squeue};
use std::alloc::Global;
use std::mem::replace;
use std::sync::Wait;

/// Does one job: a ring brings and closes its passes, or a squeue is worked to its end.
pub(crate) fn run_job<'a, X: Shared + Drop, B: Brings<Parcel = X::Parcel> + Drop, W: Wait>(
    rt: &'a W,
    alloc: Global,
    pool: &ShardPool,
    squeues: &[Squeue<Shard<X, &'a W>>],
    job: &mut Job<Task<B, X::Parcel>>,
)
    requires pool { MayEnter pool.now }
    requires may { MayDo limits_for squeues.now job.old.task job.old.places.items }
    ensures { HasDone limits_for squeues.now B.did job.old.task job.old.places.items job.new.task job.new.places.items }
{
    match replace(&mut job.task, Task::Work(0)) {
        Task::Ring(ring) => {
            job.task = Task::Ring(bring(&rt, alloc, pool, squeues, &mut job.places, ring));
        }
        Task::Work(q) => {
            work_at(rt, alloc, squeues, q, &mut job.places);
            job.task = Task::Work(q);
        }
    }
}

// Works squeue number `q` to its end by the one pass.
fn work_at<R: Resident, W: Wait>(
    rt: &W,
    alloc: Global,
    squeues: &[Squeue<R>],
    q: u32,
    places: &mut Vec<Option<Pass>>,
)
    requires { MayWorkAt R.limits squeues.now q places.old.items }
    ensures { HasWorkedAt R.limits squeues.now q places.old.items places.new.items }
{
    work(rt, alloc, &NoHook, &squeues[q as usize], &mut places[0]);
}

// Has a ring bring, and closes its passes.
fn bring<X: Shared + Drop, B: Brings<Parcel = X::Parcel> + Drop, H: Wait + Drop>(
    rt: &H,
    alloc: Global,
    pool: &ShardPool,
    squeues: &[Squeue<Shard<X, H>>],
    places: &mut Vec<Option<Pass>>,
    ring: RingTask<B, X::Parcel>,
) -> RingTask<B, X::Parcel>
    requires pool { MayEnter pool.now }
    requires ready { IsReady limits_for squeues.now places.old.items ring }
    ensures { HasBrought limits_for squeues.now B.did places.new.items ring result }
{
    let lent = replace(places, Vec::new(alloc));
    let (done, lent) = run_by(rt, alloc, pool, squeues, lent, ring);
    let empty = replace(places, lent);
    empty.destroy_empty();
    close_all(rt, squeues, places);
    done
}

// Has a ring bring by these passes, which it may close then.
fn run_by<X: Shared + Drop, B: Brings<Parcel = X::Parcel> + Drop, H: Wait + Drop>(
    rt: &H,
    alloc: Global,
    pool: &ShardPool,
    squeues: &[Squeue<Shard<X, H>>],
    places: Vec<Option<Pass>>,
    ring: RingTask<B, X::Parcel>,
) -> (RingTask<B, X::Parcel>, Vec<Option<Pass>>)
    requires pool { MayEnter pool.now }
    requires ready { IsReady limits_for squeues.now places.items ring }
    ensures number { result.0.number ≡ ring.number }
    ensures did { B.did ring.bringer (map sent_of result.0.cells.items)
        (map came_of result.0.cells.items) result.0.bringer }
    ensures ends { SameEnds ring.cells.items result.0.cells.items }
    ensures known { AreKnown limits_for ring.number squeues.now result.1.items result.0.cells.items }
{
    let RingTask {
        number,
        mut bringer,
        cells,
    } = ring;
    let first = Known::of(&cells);
    let mut lanes = RingLanes {
        rt,
        squeues,
        pool: *pool,
        ring: number,
        cells,
        first,
        places,
    };
    bringer.bring(alloc, &mut lanes);
    let RingLanes {
        rt: _,
        squeues: _,
        pool: _,
        ring: _,
        cells,
        first: _,
        places,
    } = lanes;
    let done = RingTask {
        number,
        bringer,
        cells,
    };
    (done, places)
}
