//! How the threads of a run are set to work.
ghost use Rattle.std.specs.Prelude.{◌≡◌, ◌+◌, length, map};
ghost use Rattle.synch_enter.specs.Hinting.{conns_of, squeues_of};
ghost use Rattle.squeue_serve.specs.Lending.{AreLent, lent_to, tasks_in};
ghost use Rattle.squeue_serve.specs.Places.{IsNew, MayEnd};
ghost use Rattle.squeue_rings.specs.Bringing.{AllBelow, AreOneRun};
ghost use Rattle.squeue_rings.specs.Tasks.{AreTasks, HaveRings};
ghost use Rattle.squeue_rings.specs.Doing.{HasDone, HaveDone, MayDo, MayDoAll};
ghost use Rattle.squeue_pool.specs.AllJobs.{AllDone, MayRun};

use crate::pool::Pool;
use perimeter_core::{Hook, Resident};
use squeue_rings::{Access, Intake, Pace, Task, run_job};
use squeue_serve::{Job, run_each};
use std::sync::Wait;
use std::thread::Threads;

/// Runs the jobs of new squeues beside each other, until all are done.
pub fn run_new<R: Resident + Send, H: Hook + Sync, W: Threads + Wait + Sync>(
    access: &Access<'_, R, H, W>,
    pool: &Pool,
    calls: &Vec<Vec<u32>>,
    intakes: &Vec<Intake>,
    jobs: &mut [Job<Task>],
)
    requires may { MayRun R.Resident pool.now intakes.now.items (map (λ v. v.items) calls.now.items) access.now.squeues.now (conns_of access.now.hints.now) }
    requires hints { squeues_of access.now.hints.now ≡ pool.now.pace.homes.squeues }
    requires tasks { AreTasks pool.now.rings (length calls.now.items) pool.now.pace.homes.squeues intakes.now.items (tasks_in jobs.old) }
    requires lent { AreLent IsNew 1 (pool.now.rings + length calls.now.items) access.now.squeues.now (lent_to jobs.old) }
    ensures done { AllDone R.Resident pool.now intakes.now.items (map (λ v. v.items) calls.now.items) access.now.squeues.now (lent_to jobs.new) }
    ensures lent { AreLent (MayEnd R.limits) 1 (pool.now.rings + length calls.now.items) access.now.squeues.now (lent_to jobs.new) }
    ensures count { length jobs.new ≡ length jobs.old }
{
    run_all(access, pool.pace, calls, intakes, jobs);
}

// Does all jobs beside each other. The workers stand last, so that no job waits for one behind it.
fn run_all<R: Resident + Send, H: Hook + Sync, W: Threads + Wait + Sync>(
    access: &Access<'_, R, H, W>,
    pace: Pace,
    calls: &Vec<Vec<u32>>,
    intakes: &Vec<Intake>,
    jobs: &mut [Job<Task>],
)
    requires run { AreOneRun R.origin pace.homes.squeues access.now.squeues.now }
    requires hints { AllBelow (conns_of access.now.hints.now) access.now.squeues.now × (squeues_of access.now.hints.now ≡ pace.homes.squeues) }
    requires intakes { HaveRings intakes.now.items }
    requires ready { MayDoAll R.limits pace.homes.squeues pace.homes.spread (map (λ v. v.items) calls.now.items) intakes.now.items access.now.squeues.now
        jobs.old }
    ensures { HaveDone R.limits pace.homes.squeues pace.homes.spread pace.mode pace.budget (map (λ v. v.items) calls.now.items) intakes.now.items
        access.now.squeues.now jobs.old jobs.new }
{
    run_each(
        access.rt,
        jobs,
        &|_, job: &mut Job<Task>| run_one(access, pace, calls, intakes, job),
    );
}

// Does one job.
fn run_one<R: Resident, H: Hook, W: Wait>(
    access: &Access<'_, R, H, W>,
    pace: Pace,
    calls: &Vec<Vec<u32>>,
    intakes: &Vec<Intake>,
    job: &mut Job<Task>,
)
    requires run { AreOneRun R.origin pace.homes.squeues access.now.squeues.now }
    requires hints { AllBelow (conns_of access.now.hints.now) access.now.squeues.now × (squeues_of access.now.hints.now ≡ pace.homes.squeues) }
    requires intakes { HaveRings intakes.now.items }
    requires ready { MayDo R.limits pace.homes.squeues pace.homes.spread (map (λ v. v.items) calls.now.items) intakes.now.items access.now.squeues.now
        job.old.task job.old.places.items }
    ensures { HasDone R.limits pace.homes.squeues pace.homes.spread pace.mode pace.budget (map (λ v. v.items) calls.now.items) intakes.now.items
        access.now.squeues.now job.old.task job.old.places.items job.new.places.items }
{
    run_job(access, pace, calls.as_slice(), intakes.as_slice(), job);
}
