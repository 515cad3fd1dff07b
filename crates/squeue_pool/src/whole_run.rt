//! The one call that runs threads over squeues.
ghost use Rattle.std.specs.Prelude.{◌≡◌, ◌+◌, ◌≤◌, [], All, IfOk, length, map, vec_capacity};
ghost use Rattle.synch_enter.specs.Hinting.{conns_of, squeues_of};
ghost use Rattle.squeue_serve.specs.Places.{IsNew, MayEnd};
ghost use Rattle.squeue_serve.specs.Lending.{AreLent, HaveRoom, lent_to, tasks_in};
ghost use Rattle.squeue_rings.specs.Tasks.{AreTasks};
ghost use Rattle.squeue_pool.specs.AllJobs.{AllDone, MayRun};
ghost use Rattle.squeue_pool.specs.Runs.{HasRun};
ghost use Rattle.squeue_pool.specs.Works.{IsInRange, Suits, work_by, work_of};

use crate::all_jobs::run_new;
use crate::intakes::intakes_of;
use crate::leftovers::gather;
use crate::pool::Pool;
use crate::squeues::make_all;
use crate::work::{Left, Work};
use perimeter_core::{Hook, Resident};
use squeue_rings::{Access, FRONT, Intake, Task, tasks_of};
use squeue_serve::{Job, Squeues, discard, jobs_of, run_unused};
use squeue_state::Quota;
use std::alloc::{AllocError, Global};
use std::sync::Wait;
use std::thread::Threads;
use synch_enter::Hints;

/// Does the work by threads over squeues: a feeder, the rings, the application threads, and a worker for each squeue. What is left
/// of each squeue comes back by its number. Fails only for want of memory.
pub fn run<R: Resident + Send + Drop, H: Hook + Sync, W: Threads + Wait + Sync>(
    rt: &W,
    alloc: Global,
    hook: &H,
    pool: &Pool,
    work: Work<R>,
) -> Result<Vec<Left<R>>, AllocError>
    requires pool { IsInRange pool.now (length work.calls.items) }
    requires work { Suits R.Resident pool.now (work_of work) }
    ensures { IfOk result (λ v. HasRun R.Resident pool.now (work_of work) v.items) }
{
    let Work {
        conns,
        residents,
        quotas,
        lists,
        calls,
    } = work;
    let hints = Hints::make(alloc, conns, pool.squeues())?;
    let rings = intakes_of(alloc, lists)?;
    let (intakes, tasks) = tasks_of(alloc, rings, calls.len() as u32, pool.squeues())?;
    let left = Vec::with_capacity(alloc, pool.squeues() as usize)?;
    let jobs = jobs_of(alloc, tasks, pool.squeues() as usize)?;
    match Squeues::with_room(alloc, pool.squeues() as usize) {
        Ok(squeues) => {
            let means = Means {
                hints,
                calls,
                intakes,
                jobs,
                squeues,
                left,
            };
            run_by(rt, alloc, hook, pool, residents, &quotas, means)
        }
        Err(error) => {
            discard(jobs);
            Err(error)
        }
    }
}

// What a run has beside its squeues, made before them: the hints where blocks are, the connection of each call by thread, what comes in
// by each ring, the jobs, no pass lent, and room for the squeues and for what is left of them.
struct Means<R: Resident> {
    hints: Hints,
    calls: Vec<Vec<u32>>,
    intakes: Vec<Intake>,
    jobs: Vec<Job<Task>>,
    squeues: Squeues<R>,
    left: Vec<Left<R>>,
}

// Makes the squeues, runs the jobs, and ends what was made.
fn run_by<R: Resident + Send + Drop, H: Hook + Sync, W: Threads + Wait + Sync>(
    rt: &W,
    alloc: Global,
    hook: &H,
    pool: &Pool,
    residents: Vec<R>,
    quotas: &[Vec<Quota>],
    means: Means<R>,
) -> Result<Vec<Left<R>>, AllocError>
    requires pool { IsInRange pool.now (length means.calls.items) }
    requires work { Suits R.Resident pool.now (work_by (conns_of means.hints) residents.items quotas.now means.intakes.items means.calls.items) }
    requires hints { squeues_of means.hints ≡ pool.now.pace.homes.squeues }
    requires tasks { AreTasks pool.now.rings (length means.calls.items) pool.now.pace.homes.squeues means.intakes.items (tasks_in means.jobs.items) }
    requires jobs { All (λ j. j.places.items ≡ []) means.jobs.items × HaveRoom pool.now.pace.homes.squeues means.jobs.items }
    requires squeues { (means.squeues.all.items ≡ []) × (means.squeues.rooms.items ≡ []) }
    requires room { (pool.now.pace.homes.squeues ≤ vec_capacity means.squeues.all) × (pool.now.pace.homes.squeues ≤ vec_capacity means.squeues.rooms) }
    requires left { (means.left.items ≡ []) × (pool.now.pace.homes.squeues ≤ vec_capacity means.left) }
    ensures { IfOk result (λ v. HasRun R.Resident pool.now
        (work_by (conns_of means.hints) residents.items quotas.now means.intakes.items means.calls.items) v.items) }
{
    let Means {
        hints,
        calls,
        intakes,
        jobs,
        squeues,
        left,
    } = means;
    let mut jobs = jobs;
    let mut squeues = squeues;
    let mut left = left;
    let count = pool.rings as usize + calls.len();
    let made = make_all(
        alloc,
        pool,
        residents,
        quotas,
        count,
        &mut jobs,
        &mut squeues,
    );
    let access = Access {
        rt,
        alloc,
        hook,
        squeues: squeues.all.as_slice(),
        hints: &hints,
    };
    run_or_end(&access, pool, &made, &calls, &intakes, count, &mut jobs);
    gather(&mut squeues, &mut jobs, FRONT, count, &mut left);
    discard(jobs);
    squeues.destroy_empty();
    made?;
    left.reverse();
    Ok(left)
}

// Runs the jobs. Where not all squeues could be made, it ends what was made.
fn run_or_end<R: Resident + Send, H: Hook + Sync, W: Threads + Wait + Sync>(
    access: &Access<'_, R, H, W>,
    pool: &Pool,
    made: &Result<(), AllocError>,
    calls: &Vec<Vec<u32>>,
    intakes: &Vec<Intake>,
    count: usize,
    jobs: &mut Vec<Job<Task>>,
)
    requires count { count ≡ pool.now.rings + length calls.now.items }
    requires may { IfOk made.now (λ _. MayRun R.Resident pool.now intakes.now.items (map (λ v. v.items) calls.now.items) access.now.squeues.now
        (conns_of access.now.hints.now)) }
    requires hints { squeues_of access.now.hints.now ≡ pool.now.pace.homes.squeues }
    requires few { length access.now.squeues.now ≤ pool.now.pace.homes.squeues }
    requires tasks { AreTasks pool.now.rings (length calls.now.items) pool.now.pace.homes.squeues intakes.now.items (tasks_in jobs.old.items) }
    requires lent { AreLent IsNew 1 count access.now.squeues.now (lent_to jobs.old.items) }
    ensures done { IfOk made.now (λ _. AllDone R.Resident pool.now intakes.now.items (map (λ v. v.items) calls.now.items) access.now.squeues.now
        (lent_to jobs.new.items)) }
    ensures lent { AreLent (MayEnd R.limits) 1 count access.now.squeues.now (lent_to jobs.new.items) }
    ensures count { length jobs.new.items ≡ length jobs.old.items }
{
    match made {
        Ok(()) => run_new(access, pool, calls, intakes, jobs),
        Err(_) => run_unused(
            access.rt,
            access.alloc,
            access.hook,
            access.squeues,
            jobs,
            FRONT,
            count,
        ),
    }
}
