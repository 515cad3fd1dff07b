//! What the threads of a run have to do.
ghost use Rattle.std.specs.Prelude.{◌≡◌, IfOk, length, map};
ghost use Rattle.squeue_rings.specs.Tasks.{AreEnds, AreRingTasks, AreTasks, AreUnused, HaveRings};

use crate::intake::{Intake, IntakeEnds};
use poll_ring::{FeedEnd, PollEnd};
use std::alloc::{AllocError, Global};

/// How many jobs stand before those that are lent passes by number: the feeder's.
pub const FRONT: usize = 1;

/// The feeder puts the numbers of all intakes; a ring brings the feeds of its intake; a caller makes the calls of its application
/// thread; a worker works its squeue to its end.
#[derive(Drop)]
pub enum Task {
    Feed(Vec<Option<FeedEnd>>),
    Bring(RingTask),
    Call(u32),
    Drain(u32),
}

/// A ring: its number, its end of the receive ring, and for each squeue whether chains are to be brought there.
#[derive(Drop)]
pub struct RingTask {
    pub number: usize,
    pub end: Option<PollEnd>,
    pub polling: Vec<bool>,
}

// What comes in by the rings: their intakes, the feeder's ends, and the rings' tasks.
#[derive(Drop)]
struct Rings {
    intakes: Vec<Intake>,
    ends: Vec<Option<FeedEnd>>,
    tasks: Vec<Task>,
}

/// The intakes of the rings, and the tasks of a run with so many callers and squeues: the feeder's, the rings', the callers', the
/// workers'. Fails only for want of memory.
pub fn tasks_of(
    alloc: Global,
    rings: Vec<IntakeEnds>,
    callers: u32,
    squeues: u32,
) -> Result<(Vec<Intake>, Vec<Task>), AllocError>
    requires { AreUnused rings.items }
    ensures intakes { IfOk result (λ r. r.0.items ≡ map (λ e. e.intake) rings.items) }
    ensures tasks { IfOk result (λ r. AreTasks (length rings.items) callers squeues r.0.items r.1.items) }
{
    let Rings {
        intakes,
        ends,
        tasks: bringing,
    } = take_apart(alloc, rings, squeues)?;
    let mut bringing = bringing;
    let mut tasks = Vec::new(alloc);
    tasks.push(Task::Feed(ends))?;
    tasks.append(&mut bringing)?;
    for thread in 0..callers {
        tasks.push(Task::Call(thread))?;
    }
    for q in 0..squeues {
        tasks.push(Task::Drain(q))?;
    }
    Ok((intakes, tasks))
}

// The intakes, the feeder's ends, and a task for each ring.
fn take_apart(alloc: Global, rings: Vec<IntakeEnds>, squeues: u32) -> Result<Rings, AllocError>
    requires { AreUnused rings.items }
    ensures intakes { IfOk result (λ r. r.intakes.items ≡ map (λ e. e.intake) rings.items) }
    ensures have { IfOk result (λ r. HaveRings r.intakes.items) }
    ensures ends { IfOk result (λ r. AreEnds r.intakes.items r.ends.items) }
    ensures tasks { IfOk result (λ r. AreRingTasks squeues r.intakes.items r.tasks.items) }
{
    let mut rings = rings;
    let mut intakes = Vec::new(alloc);
    let mut ends = Vec::new(alloc);
    let mut tasks = Vec::new(alloc);
    rings.reverse();
    while let Some(ring) = rings.pop() {
        let IntakeEnds { intake, feed, poll } = ring;
        let number = intakes.len();
        let polling = vec![in alloc; false; squeues as usize]?;
        intakes.push(intake)?;
        ends.push(feed)?;
        tasks.push(Task::Bring(RingTask {
            number,
            end: poll,
            polling,
        }))?;
    }
    Ok(Rings {
        intakes,
        ends,
        tasks,
    })
}
