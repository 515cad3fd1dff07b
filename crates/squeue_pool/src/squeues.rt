//! How the squeues of a run are made.
ghost use Rattle.std.specs.Prelude.{◌≡◌, ◌+◌, ◌<◌, ◌≤◌, ℕ, [], All, IfOk, length, map, vec_capacity};
ghost use Rattle.squeue_serve.specs.Places.{IsNew};
ghost use Rattle.squeue_serve.specs.Lending.{AreLent, HaveRoom, IsRoomFor, lent_to, tasks_in};
ghost use Rattle.histories.specs.Quotas.{pairs};
ghost use Rattle.squeue_pool.specs.Works.{AreFor, IsInRange, SuitSqueues};

use crate::pool::Pool;
use perimeter_core::Resident;
use squeue_rings::FRONT;
use squeue_serve::{Job, Squeues, lend};
use squeue_state::{Quota, Squeue};
use std::alloc::{AllocError, Global};

/// Makes a squeue for each resident, by number, and lends their passes. Where memory is missing some of them may have been made.
pub fn make_all<R: Resident + Drop, T>(
    alloc: Global,
    pool: &Pool,
    residents: Vec<R>,
    quotas: &[Vec<Quota>],
    count: usize,
    jobs: &mut Vec<Job<T>>,
    squeues: &mut Squeues<R>,
) -> Result<(), AllocError>
    requires pool { (callers : ℕ) × IsInRange pool.now callers × (count ≡ pool.now.rings + callers)
        × SuitSqueues R.Resident pool.now residents.items (map (λ v. pairs v.items) quotas.now) callers }
    requires jobs { 1 + count + pool.now.pace.homes.squeues ≤ length jobs.old.items }
    requires places { All (λ j. j.places.items ≡ []) jobs.old.items × HaveRoom pool.now.pace.homes.squeues jobs.old.items }
    requires empty { (squeues.old.all.items ≡ []) × (squeues.old.rooms.items ≡ []) }
    requires room { (pool.now.pace.homes.squeues ≤ vec_capacity squeues.old.all) × (pool.now.pace.homes.squeues ≤ vec_capacity squeues.old.rooms) }
    ensures made { IfOk result (λ _. AreFor R.Resident pool.now residents.items (map (λ v. pairs v.items) quotas.now) squeues.new.all.items) }
    ensures few { length squeues.new.all.items ≤ pool.now.pace.homes.squeues }
    ensures lent { AreLent IsNew 1 count squeues.new.all.items (lent_to jobs.new.items) }
    ensures rooms { (length squeues.new.rooms.items ≡ length squeues.new.all.items) × All (IsRoomFor (count + 1)) squeues.new.rooms.items }
    ensures tasks { tasks_in jobs.new.items ≡ tasks_in jobs.old.items }
{
    // (so that the number of squeues is known to be one of 32 bits)
    let _most = pool.squeues();
    let mut residents = residents;
    residents.reverse();
    while let Some(resident) = residents.pop() {
        let q = squeues.all.len();
        let (squeue, passes) = Squeue::make(
            alloc, q as u32, resident, pool.rings, &quotas[q], pool.trace,
        )?;
        lend(squeues, jobs, FRONT, count, squeue, passes);
    }
    Ok(())
}
