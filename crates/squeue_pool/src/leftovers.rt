//! What comes back when all jobs are done.
ghost use Rattle.std.specs.Prelude.{◌≡◌, ◌+◌, ◌≤◌, ℕ, [], All, length, reverse, vec_capacity};
ghost use Rattle.squeue_serve.specs.Places.{MayEnd};
ghost use Rattle.squeue_serve.specs.Lending.{AreLent, IsRoomFor, lent_to, tasks_in};
ghost use Rattle.squeue_pool.specs.Leftovers.{HaveLeft};

use crate::work::Left;
use perimeter_core::Resident;
use squeue_serve::{Job, Squeues, end_last};

/// Ends all squeues, and keeps what is left of each, the last one first.
pub fn gather<R: Resident, T>(
    squeues: &mut Squeues<R>,
    jobs: &mut Vec<Job<T>>,
    front: usize,
    count: usize,
    left: &mut Vec<Left<R>>,
)
    requires jobs { front + count + length squeues.old.all.items ≤ length jobs.old.items }
    requires lent { AreLent (MayEnd R.limits) front count squeues.old.all.items (lent_to jobs.old.items) }
    requires rooms { (length squeues.old.rooms.items ≡ length squeues.old.all.items) × All (IsRoomFor (count + 1)) squeues.old.rooms.items }
    requires empty { left.old.items ≡ [] }
    requires room { length squeues.old.all.items ≤ vec_capacity left.old }
    ensures none { (squeues.new.all.items ≡ []) × (squeues.new.rooms.items ≡ []) }
    ensures back { (i : ℕ) → lent_to jobs.new.items i ≡ [] }
    ensures tasks { tasks_in jobs.new.items ≡ tasks_in jobs.old.items }
    ensures left { HaveLeft R.Resident front count (lent_to jobs.old.items) squeues.old.all.items (reverse left.new.items) }
{
    while let Some((resident, end, trace)) = end_last(squeues, jobs, front, count) {
        left.push_reserved(Left {
            resident,
            end,
            trace,
        });
    }
}
