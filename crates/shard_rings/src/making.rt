//! What a run begins with: the lanes between its rings and squeues, and its squeues.
ghost use Rattle.std.specs.Prelude.{◌≡◌, ◌+◌, ◌<◌, ◌≤◌, ◌^◌, [], ℕ, All, IfOk, length, replicate, vec_capacity};
ghost use Rattle.histories.specs.Limits.{most_feeds, most_quotas};
ghost use Rattle.placed_parts.specs.Standing.{all_new};
ghost use Rattle.squeue_state.specs.Behind.{ever};
ghost use Rattle.squeue_serve.specs.Lending.{AreLent, HaveRoom, IsRoomFor, lent_to, tasks_in};
ghost use Rattle.squeue_serve.specs.Places.{IsNew};
ghost use Rattle.shards.specs.Numbering.{ring_limits};
ghost use Rattle.shards.specs.Sharing.{StandsFor, limits_for, rings_of};
ghost use Rattle.shard_rings.specs.Making.{AreEnds, AreGrown, AreMadeOf, AreShards, AreTasks, IsLaid, life};

use crate::cell::Cell;
use crate::ring::LIFE;
use crate::run::{RingTask, Task};
use shards::{Shard, Shared, SqueueEnd, lane};
use squeue_serve::{Job, Squeues, lend};
use squeue_state::{Life, Squeue};
use std::alloc::{AllocError, Global};
use std::sync::Wait;

// The asks of a pass: two for each parcel.
const ASKS: u64 = 1 << 52;

/// The tasks of these rings, by number, and of so many squeues' workers; and for each squeue its ends of all lanes, by ring.
pub(crate) fn tasks_of<B: Drop, P: Drop>(
    alloc: Global,
    parcels: u32,
    squeues: u32,
    rings: Vec<B>,
) -> Result<(Vec<Task<B, P>>, Vec<Vec<SqueueEnd<P>>>), AllocError>
    requires few { length rings.items < 2 ^ 32 }
    ensures tasks { IfOk result (λ r. AreTasks (length rings.items) squeues (IsLaid rings.items r.1.items) r.0.items) }
    ensures ends { IfOk result (λ r. AreEnds (length rings.items) squeues r.1.items) }
{
    let (ends, bringing) = lay(alloc, parcels, squeues, rings)?;
    let mut tasks = bringing;
    for q in 0..squeues {
        tasks.push(Task::Work(q))?;
    }
    Ok((tasks, ends))
}

// For each squeue its ends of all lanes, by ring, and the tasks of these rings, by number.
fn lay<B: Drop, P: Drop>(
    alloc: Global,
    parcels: u32,
    squeues: u32,
    rings: Vec<B>,
) -> Result<(Vec<Vec<SqueueEnd<P>>>, Vec<Task<B, P>>), AllocError>
    requires few { length rings.items < 2 ^ 32 }
    ensures tasks { IfOk result (λ r. AreTasks (length rings.items) 0 (IsLaid rings.items r.0.items) r.1.items) }
    ensures ends { IfOk result (λ r. AreEnds (length rings.items) squeues r.0.items) }
{
    let mut rings = rings;
    let mut ends = no_ends(alloc, squeues)?;
    let mut tasks = Vec::new(alloc);
    rings.reverse();
    'rings: while let Some(bringer) = rings.pop() {
        let number = tasks.len() as u32;
        let cells = cells_of(alloc, parcels, &mut ends)?;
        tasks.push(Task::Ring(RingTask {
            number,
            bringer,
            cells,
        }))?;
    }
    Ok((ends, tasks))
}

// For each squeue a list of no ends.
fn no_ends<P: Drop>(alloc: Global, squeues: u32) -> Result<Vec<Vec<SqueueEnd<P>>>, AllocError>
    ensures { IfOk result (λ r. AreEnds 0 squeues r.items) }
{
    let mut ends = Vec::new(alloc);
    for _q in 0..squeues {
        ends.push(Vec::new(alloc))?;
    }
    Ok(ends)
}

// What a ring has of each squeue, by new lanes, whose other ends are put behind those of the rings before.
fn cells_of<P: Drop>(
    alloc: Global,
    parcels: u32,
    ends: &mut Vec<Vec<SqueueEnd<P>>>,
) -> Result<Vec<Cell<P>>, AllocError>
    ensures grown { IfOk result (λ r. AreGrown r.items ends.old.items ends.new.items) }
    ensures count { IfOk result (λ r. length r.items ≡ length ends.old.items) }
{
    let mut cells = Vec::new(alloc);
    for q in 0..ends.len() {
        let (end, other) = lane(alloc, parcels as usize)?;
        ends[q].push(other)?;
        cells.push(Cell {
            end,
            entered: 0,
            pushed: 0,
            popped: 0,
        })?;
    }
    Ok(cells)
}

/// The residents of the squeues that share these, by number.
pub(crate) fn residents_of<'a, X: Shared + Drop, W: Wait>(
    rt: &'a W,
    alloc: Global,
    shared: Vec<X>,
    ends: Vec<Vec<SqueueEnd<X::Parcel>>>,
) -> Result<Vec<Shard<X, &'a W>>, AllocError>
    requires ends { (rings : ℕ) × (rings < 2 ^ 32) × AreEnds rings (length shared.items) ends.items }
    requires made { All (X.is_made []) shared.items }
    ensures { IfOk result (λ r. AreShards shared.items ends.items r.items) }
{
    let mut shared = shared;
    let mut ends = ends;
    let mut residents = Vec::new(alloc);
    'squeues: while let Some(last) = shared.pop() {
        let Some(its) = ends.pop() else {
            unreachable!()
        };
        residents.push(Shard::of(alloc, rt, last, its)?)?;
    }
    residents.reverse();
    Ok(residents)
}

/// Makes the squeues of these residents, and lends their passes to the jobs. An error leaves those that were made.
pub(crate) fn make_all<X: Shared + Drop, H: Wait + Drop, B: Drop>(
    alloc: Global,
    room: u32,
    rings: u32,
    residents: Vec<Shard<X, H>>,
    jobs: &mut Vec<Job<Task<B, X::Parcel>>>,
    squeues: &mut Squeues<Shard<X, H>>,
) -> Result<(), AllocError>
    requires rings { (1 ≤ rings) × (rings ≤ most_quotas) }
    requires room { (1 ≤ room) × (room ≤ most_feeds) }
    requires few { length residents.items < 2 ^ 32 }
    requires residents { All (λ r. StandsFor r (all_new rings) × (rings_of r ≡ rings)
        × (limits_for r ≡ ring_limits rings)) residents.items }
    requires jobs { rings + length residents.items ≤ length jobs.old.items }
    requires places { All (λ j. j.places.items ≡ []) jobs.old.items × HaveRoom (length residents.items) jobs.old.items }
    requires empty { (squeues.old.all.items ≡ []) × (squeues.old.rooms.items ≡ []) }
    requires capacity { (length residents.items ≤ vec_capacity squeues.old.all)
        × (length residents.items ≤ vec_capacity squeues.old.rooms) }
    ensures made { IfOk result (λ _. AreMadeOf limits_for rings residents.items squeues.new.all.items) }
    ensures few { length squeues.new.all.items ≤ length residents.items }
    ensures lent { AreLent IsNew 0 rings squeues.new.all.items (lent_to jobs.new.items) }
    ensures rooms { (length squeues.new.rooms.items ≡ length squeues.new.all.items)
        × All (IsRoomFor (rings + 1)) squeues.new.rooms.items }
    ensures tasks { tasks_in jobs.new.items ≡ tasks_in jobs.old.items }
{
    let mut residents = residents;
    let lives = lives_of(alloc, rings)?;
    residents.reverse();
    'residents: while let Some(resident) = residents.pop() {
        let number = squeues.all.len() as u32;
        let (squeue, passes) = Squeue::make_bounded(alloc, number, resident, rings, &lives, room)?;
        lend(squeues, jobs, 0, rings as usize, squeue, passes);
    }
    Ok(())
}

// The lives of the rings' passes.
fn lives_of(alloc: Global, rings: u32) -> Result<Vec<Life>, AllocError>
    ensures { IfOk result (λ r. ever r.items ≡ replicate rings life) }
{
    let mut lives = Vec::new(alloc);
    for _p in 0..rings {
        lives.push(Life {
            feeds: LIFE,
            asks: ASKS,
        })?;
    }
    Ok(lives)
}
