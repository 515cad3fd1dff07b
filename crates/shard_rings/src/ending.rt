//! The end of a run: the squeues end, the last one first; and squeue by squeue what its rings shared takes what is left in its lanes.
ghost use Rattle.std.specs.Prelude.{◌≡◌, ◌+◌, ◌<◌, ◌≤◌, ◌∷◌, ◌++◌, [], All, length, map, reverse, vec_capacity};
ghost use Rattle.squeue_serve.specs.Lending.{AreLent, IsRoomFor, lent_to, tasks_in};
ghost use Rattle.squeue_serve.specs.Places.{MayEnd};
ghost use Rattle.squeue_pool.specs.Leftovers.{HaveLeft};
ghost use Rattle.shards.specs.Merging.{IsMerged};
ghost use Rattle.shards.specs.Sharing.{ends_of, origin_of, rings_of, shared_of};
ghost use Rattle.shard_rings.specs.Columns.{AreEnded, AreLanes, AreTaken, IsFinished, MayFinishAll, rings_in};

use crate::cell::Cell;
use crate::run::{Brought, RingTask, ServedShard, Task};
use perimeter_core::Resident;
use shards::{Shard, Shared};
use squeue_pool::Left;
use squeue_serve::{Job, Squeues, end_last};
use std::alloc::Global;
use std::sync::Wait;

/// Ends all squeues, and keeps what is left of each, the last one first.
pub(crate) fn gather<R: Resident, T>(
    squeues: &mut Squeues<R>,
    jobs: &mut Vec<Job<T>>,
    count: usize,
    left: &mut Vec<Left<R>>,
)
    requires jobs { count + length squeues.old.all.items ≤ length jobs.old.items }
    requires lent { AreLent (MayEnd R.limits) 0 count squeues.old.all.items (lent_to jobs.old.items) }
    requires rooms { (length squeues.old.rooms.items ≡ length squeues.old.all.items)
        × All (IsRoomFor (count + 1)) squeues.old.rooms.items }
    requires empty { left.old.items ≡ [] }
    requires room { length squeues.old.all.items ≤ vec_capacity left.old }
    ensures none { (squeues.new.all.items ≡ []) × (squeues.new.rooms.items ≡ []) }
    ensures back { All (λ j. j.places.items ≡ []) jobs.new.items }
    ensures tasks { tasks_in jobs.new.items ≡ tasks_in jobs.old.items }
    ensures left { HaveLeft R.Resident 0 count (lent_to jobs.old.items) squeues.old.all.items (reverse left.new.items) }
{
    'squeues: while let Some((resident, end, trace)) = end_last(squeues, jobs, 0, count) {
        left.push_reserved(Left {
            resident,
            end,
            trace,
        });
    }
}

/// What the rings have, of jobs that hold no pass: what brought, and their cells, by number.
pub(crate) fn take_apart<B: Drop, P: Drop>(
    jobs: Vec<Job<Task<B, P>>>,
    room: Brought<B, P>,
) -> Brought<B, P>
    requires places { All (λ j. j.places.items ≡ []) jobs.items }
    requires empty { (room.rings.items ≡ []) × (room.rows.items ≡ []) }
    requires room { (length (rings_in (tasks_in jobs.items)) ≤ vec_capacity room.rings)
        × (length (rings_in (tasks_in jobs.items)) ≤ vec_capacity room.rows) }
    ensures rings { result.rings.items ≡ map (λ t. t.bringer) (rings_in (tasks_in jobs.items)) }
    ensures rows { result.rows.items ≡ map (λ t. t.cells) (rings_in (tasks_in jobs.items)) }
{
    let mut jobs = jobs;
    let mut brought = room;
    'jobs: while let Some(job) = jobs.pop() {
        let Job { task, places } = job;
        places.destroy_empty();
        keep(&mut brought, task);
    }
    jobs.destroy_empty();
    brought.rings.reverse();
    brought.rows.reverse();
    brought
}

// Keeps what a ring has.
fn keep<B: Drop, P: Drop>(brought: &mut Brought<B, P>, task: Task<B, P>)
    requires room { (length brought.old.rings.items + length (rings_in (task ∷ [])) ≤ vec_capacity brought.old.rings)
        × (length brought.old.rows.items + length (rings_in (task ∷ [])) ≤ vec_capacity brought.old.rows) }
    ensures rings { brought.new.rings.items ≡ brought.old.rings.items ++ map (λ t. t.bringer) (rings_in (task ∷ [])) }
    ensures rows { brought.new.rows.items ≡ brought.old.rows.items ++ map (λ t. t.cells) (rings_in (task ∷ [])) }
    ensures capacity { (vec_capacity brought.new.rings ≡ vec_capacity brought.old.rings)
        × (vec_capacity brought.new.rows ≡ vec_capacity brought.old.rows) }
{
    if let Task::Ring(ring) = task {
        let RingTask {
            number: _,
            bringer,
            cells,
        } = ring;
        brought.rings.push_reserved(bringer);
        brought.rows.push_reserved(cells);
    }
}

/// What the rings shared at each squeue, by number, when it has taken all parcels that were sent there. The rows have each ring's cells.
pub(crate) fn finish_all<X: Shared + Drop, H: Wait + Drop>(
    alloc: Global,
    left: Vec<Left<Shard<X, H>>>,
    rows: Vec<Vec<Cell<X::Parcel>>>,
    column: Vec<Cell<X::Parcel>>,
    room: Vec<ServedShard<X>>,
) -> Vec<ServedShard<X>>
    requires rows { All (λ row. length row.items ≡ length left.items) rows.items }
    requires may { MayFinishAll rows.items left.items }
    requires column { (column.items ≡ []) × (length rows.items ≤ vec_capacity column) }
    requires room { (room.items ≡ []) × (length left.items ≤ vec_capacity room) }
    ensures { AreEnded rows.items left.items result.items }
{
    let mut left = left;
    let mut rows = rows;
    let mut column = column;
    let mut served = room;
    'squeues: while let Some(last) = left.pop() {
        let Left {
            resident,
            end,
            trace: _,
        } = last;
        take_column(&mut rows, &mut column);
        let shared = finish(alloc, resident, &mut column);
        served.push_reserved(ServedShard { shared, end });
    }
    served.reverse();
    served
}

// Takes the last cell of each row.
fn take_column<P: Drop>(rows: &mut Vec<Vec<Cell<P>>>, column: &mut Vec<Cell<P>>)
    requires some { All (λ row. 0 < length row.items) rows.old.items }
    requires room { (column.old.items ≡ []) × (length rows.old.items ≤ vec_capacity column.old) }
    ensures taken { AreTaken (length rows.old.items) rows.old.items rows.new.items column.new.items }
    ensures capacity { vec_capacity column.new ≡ vec_capacity column.old }
{
    for p in 0..rows.len() {
        let cell = take_cell(&mut rows[p]);
        column.push_reserved(cell);
    }
}

// Takes the last cell.
fn take_cell<P: Drop>(row: &mut Vec<Cell<P>>) -> Cell<P>
    requires { 0 < length row.old.items }
    ensures { row.old.items ≡ row.new.items ++ result ∷ [] }
{
    let Some(cell) = row.pop() else {
        unreachable!()
    };
    cell
}

// What the rings shared, when it has taken all that they sent by these cells, the last ring's first. No cell is left.
fn finish<X: Shared + Drop, H: Wait + Drop>(
    alloc: Global,
    shard: Shard<X, H>,
    column: &mut Vec<Cell<X::Parcel>>,
) -> X
    requires lanes { AreLanes column.old.items (ends_of shard) }
    requires rings { rings_of shard ≡ length column.old.items }
    requires merged { IsMerged X.is_made (ends_of shard) (shared_of shard) }
    ensures none { column.new.items ≡ [] }
    ensures kept { vec_capacity column.new ≡ vec_capacity column.old }
    ensures finished { IsFinished X.is_made column.old.items result }
    ensures origin { X.origin result ≡ (origin_of shard).0 }
{
    let mut shard = shard;
    'cells: while let Some(cell) = column.pop() {
        let Cell {
            mut end,
            entered: _,
            pushed: _,
            popped: _,
        } = cell;
        shard.take_rest(alloc, column.len() as u32, &mut end);
    }
    let (shared, _ends) = shard.into_parts();
    shared
}
