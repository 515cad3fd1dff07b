//! What the threads of a run do, each its job.
ghost use Rattle.std.specs.Prelude.{◌≡◌, ◌<◌, length, map};
ghost use Rattle.synch_enter.specs.Hinting.{conns_of, squeues_of};
ghost use Rattle.squeue_rings.specs.Bringing.{AllBelow, AreAt, AreOneRun};
ghost use Rattle.squeue_rings.specs.Calling.{CallersAt};
ghost use Rattle.squeue_rings.specs.Paced.{ArePaced};
ghost use Rattle.squeue_rings.specs.Tasks.{HaveRings, lists_of};
ghost use Rattle.squeue_rings.specs.Doing.{HasBroughtIntake, HasDone, MayBringIntake, MayCallAll, MayDo, ThenClosed, called_by};

use crate::access::Access;
use crate::bringing::bring_all;
use crate::calling::make_calls;
use crate::feeding::feed_all;
use crate::intake::Intake;
use crate::task::{RingTask, Task};
use histories::Pace;
use perimeter_core::{Hook, Resident};
use squeue_serve::{Job, close_all, work};
use squeue_state::Pass;
use std::sync::Wait;

/// Does one job of those of new squeues. A worker waits for the others, so the workers stand last. `calls` has the connection of each
/// call, by thread.
pub fn run_job<R: Resident, H: Hook, W: Wait>(
    access: &Access<'_, R, H, W>,
    pace: Pace,
    calls: &[Vec<u32>],
    intakes: &[Intake],
    job: &mut Job<Task>,
)
    requires run { AreOneRun R.origin pace.homes.squeues access.now.squeues.now }
    requires hints { AllBelow (conns_of access.now.hints.now) access.now.squeues.now × (squeues_of access.now.hints.now ≡ pace.homes.squeues) }
    requires intakes { HaveRings intakes.now }
    requires ready { MayDo R.limits pace.homes.squeues pace.homes.spread (map (λ v. v.items) calls.now) intakes.now access.now.squeues.now
        job.old.task job.old.places.items }
    ensures { HasDone R.limits pace.homes.squeues pace.homes.spread pace.mode pace.budget (map (λ v. v.items) calls.now) intakes.now access.now.squeues.now
        job.old.task job.old.places.items job.new.places.items }
{
    let squeues = access.squeues;
    let places = &mut job.places;
    match &mut job.task {
        Task::Feed(ends) => feed_all(access.rt, intakes, ends),
        Task::Bring(task) => bring(access, pace, intakes, task, places),
        Task::Call(thread) => call(access, calls, *thread, places),
        Task::Drain(q) => work(
            access.rt,
            access.alloc,
            access.hook,
            &squeues[*q as usize],
            &mut places[0],
        ),
    }
}

// Brings the feeds of a ring's intake, and closes its passes.
fn bring<R: Resident, H: Hook, W: Wait>(
    access: &Access<'_, R, H, W>,
    pace: Pace,
    intakes: &[Intake],
    task: &mut RingTask,
    places: &mut Vec<Option<Pass>>,
)
    requires run { AreOneRun R.origin pace.homes.squeues access.now.squeues.now }
    requires hints { AllBelow (conns_of access.now.hints.now) access.now.squeues.now × (squeues_of access.now.hints.now ≡ pace.homes.squeues) }
    requires ready { MayBringIntake R.limits pace.homes.squeues pace.homes.spread intakes.now access.now.squeues.now task.old places.old.items }
    ensures { ThenClosed R.limits access.now.squeues.now
        (HasBroughtIntake R.limits pace.homes.squeues pace.homes.spread pace.mode pace.budget intakes.now access.now.squeues.now task.old.number)
        places.new.items }
{
    bring_intake(access, pace, intakes, task, places);
    close_all(access.rt, access.squeues, places);
}

// Brings the feeds of a ring's intake, if there are any.
fn bring_intake<R: Resident, H: Hook, W: Wait>(
    access: &Access<'_, R, H, W>,
    pace: Pace,
    intakes: &[Intake],
    task: &mut RingTask,
    places: &mut Vec<Option<Pass>>,
)
    requires run { AreOneRun R.origin pace.homes.squeues access.now.squeues.now }
    requires hints { AllBelow (conns_of access.now.hints.now) access.now.squeues.now × (squeues_of access.now.hints.now ≡ pace.homes.squeues) }
    requires ready { MayBringIntake R.limits pace.homes.squeues pace.homes.spread intakes.now access.now.squeues.now task.old places.old.items }
    ensures at { AreAt R.limits pace.homes.squeues pace.homes.spread task.old.number access.now.squeues.now
        (lists_of intakes.now task.old.number) (lists_of intakes.now task.old.number) places.new.items }
    ensures paced { ArePaced R.limits pace.homes.squeues pace.homes.spread pace.mode pace.budget task.old.number access.now.squeues.now places.new.items }
{
    let intake = &intakes[task.number];
    let Some(ring) = &intake.ring else {
        return;
    };
    let Some(end) = &mut task.end else {
        unreachable!()
    };
    bring_all(
        access,
        pace,
        &intake.list,
        ring,
        end,
        &mut task.polling,
        places,
    );
}

// Makes the calls of an application thread, and closes its passes.
fn call<R: Resident, H: Hook, W: Wait>(
    access: &Access<'_, R, H, W>,
    calls: &[Vec<u32>],
    thread: u32,
    places: &mut Vec<Option<Pass>>,
)
    requires some { 0 < length access.now.squeues.now }
    requires hints { AllBelow (conns_of access.now.hints.now) access.now.squeues.now × (squeues_of access.now.hints.now ≡ length access.now.squeues.now) }
    requires ready { MayCallAll R.limits (map (λ v. v.items) calls.now) access.now.squeues.now thread places.old.items }
    ensures { ThenClosed R.limits access.now.squeues.now
        (CallersAt R.limits thread (called_by (map (λ v. v.items) calls.now) thread) access.now.squeues.now) places.new.items }
{
    make_calls(access, &calls[thread as usize], thread, places);
    close_all(access.rt, access.squeues, places);
}
