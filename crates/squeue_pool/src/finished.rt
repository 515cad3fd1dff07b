//! What is left of squeues that have ended: the parts that lay in their residents, and their ends and traces.
ghost use Rattle.std.specs.Prelude.{◌≡◌, ℕ, ◌<◌, ◌≤◌, ◌≢◌, [], Option, Some, IfOk, length, map, option_map, reverse, slice_get, vec_capacity};
ghost use Rattle.perimeter_core.specs.Blocks.{Blocks};
ghost use Rattle.squeue_pool.specs.Works.{IsInRange, Suits, work_of};
ghost use Rattle.squeue_pool.specs.Finishing.{AreEmpty, AreTaken, HasFinished, HaveStood, LiesSo, PartTaken, taken};

use crate::pool::Pool;
use crate::whole_run::run;
use crate::work::{Left, Work};
use perimeter_core::{Hook, Resident};
use squeue_state::{Ended, Trace};
use std::alloc::{AllocError, Global};
use std::marker::Model;
use std::sync::Wait;
use std::thread::Threads;

/// What is left of squeues that have ended: at the place of each connection its part, which lay in the resident of one of them, and
/// by number the end and the trace of each squeue. `run_for_parts` alone makes one, out of what `run` leaves. So a part that lies here
/// lay in the resident of a squeue whose end stands beside it.
#[derive(Drop)]
pub struct Finished<P> {
    parts: Vec<Option<P>>,
    /// The last squeue's first.
    ends: Vec<(Ended, Trace)>,
}

impl<P> Model for Finished<P> {
    ghost use Rattle.std.specs.Prelude.{map, reverse};
    ghost use Rattle.squeue_pool.specs.Finishing.{FinishedOf};

    ghost Value = { FinishedOf P };

    ghost view = { λ f. record {
      parts = f.parts.items;
      ended = map (λ e. e.0) (reverse f.ends.items);
      traces = map (λ e. e.1) (reverse f.ends.items);
    } };
}

impl<P> Finished<P> {
    /// The part of connection `c`, where it lies here.
    pub fn part(&self, c: u32) -> Option<&P>
        requires { c < length self.now.parts }
        ensures { slice_get self.now.parts c ≡ Some (option_map (λ part. part.now) result) }
    {
        self.parts[c as usize].as_ref()
    }

    /// The part of connection `c`, which lies here.
    pub fn part_there(&self, c: u32) -> &P
        requires { (part : P) × (slice_get self.now.parts c ≡ Some (Some part)) }
        ensures { slice_get self.now.parts c ≡ Some (Some result.now) }
    {
        match self.part(c) {
            Some(part) => part,
            None => unreachable!(),
        }
    }

    /// The trace of squeue `q`: the marks of its history where they were kept, else nothing.
    pub fn trace(&self, q: u32) -> &Trace
        requires { q < length self.now.traces }
        ensures { slice_get self.now.traces q ≡ Some result.now }
    {
        let last = self.ends.len() - 1;
        &self.ends[last - q as usize].1
    }
}

/// Does the work by threads over squeues, as `run` does, and takes the part of each connection out of what is left.
/// Fails only for want of memory.
pub fn run_for_parts<R: Resident + Send + Drop, H: Hook + Sync, W: Threads + Wait + Sync>(
    rt: &W,
    alloc: Global,
    hook: &H,
    pool: &Pool,
    work: Work<R>,
) -> Result<Finished<R::Part>, AllocError>
where
    R::Part: Drop,
    requires pool { IsInRange pool.now (length work.calls.items) }
    requires work { Suits R.Resident pool.now (work_of work) }
    ensures { IfOk result (λ f. HasFinished R.Resident pool.now (work_of work) f) }
{
    let mut parts = empty_places(alloc, work.conns)?;
    let mut ends = Vec::with_capacity(alloc, pool.squeues() as usize)?;
    let left = run(rt, alloc, hook, pool, work)?;
    take_left(left, &mut parts, &mut ends);
    Ok(Finished { parts, ends })
}

// So many places, at which nothing lies.
fn empty_places<P: Drop>(alloc: Global, conns: u32) -> Result<Vec<Option<P>>, AllocError>
    ensures count { IfOk result (λ v. length v.items ≡ conns) }
    ensures empty { IfOk result (λ v. AreEmpty v.items) }
{
    let mut places = Vec::with_capacity(alloc, conns as usize)?;
    for _ in 0..conns {
        places.push_reserved(None);
    }
    Ok(places)
}

// Takes apart what squeues left, the last one first: each part goes to the place of its connection.
fn take_left<R: Resident>(
    left: Vec<Left<R>>,
    places: &mut Vec<Option<R::Part>>,
    ends: &mut Vec<(Ended, Trace)>,
)
where
    R: Drop,
    R::Part: Drop,
    requires stood { HaveStood R.Resident (length places.old.items) left.items }
    requires empty { AreEmpty places.old.items × (ends.old.items ≡ []) }
    requires room { length left.items ≤ vec_capacity ends.old }
    ensures count { length places.new.items ≡ length places.old.items }
    ensures placed { (c : ℕ) → c < length places.old.items → LiesSo R.Resident left.items c (slice_get places.new.items c) }
    ensures ends { reverse ends.new.items ≡ map (λ v. (v.end, v.trace)) left.items }
{
    let mut left = left;
    while let Some(last) = left.pop() {
        let Left {
            resident,
            end,
            trace,
        } = last;
        take_all(places, resident);
        ends.push_reserved((end, trace));
    }
}

// Takes all parts that are here out of a resident, each to the place of its connection.
fn take_all<R: Resident>(places: &mut Vec<Option<R::Part>>, resident: R)
where
    R: Drop,
    R::Part: Drop,
    requires size { R.size resident ≡ length places.old.items }
    requires stands { (blocks : Blocks) × R.stands resident blocks }
    ensures { AreTaken R.Resident resident places.old.items places.new.items }
{
    let mut resident = resident;
    for c in 0..resident.conns() {
        take_one(places, &mut resident, c);
    }
}

// Takes the part of one connection out, if it is here.
fn take_one<R: Resident>(places: &mut Vec<Option<R::Part>>, resident: &mut R, c: u32)
where
    R::Part: Drop,
    requires range { c < length places.old.items }
    requires size { R.size resident.old ≡ length places.old.items }
    requires stands { (blocks : Blocks) × R.stands resident.old blocks }
    ensures part { (blocks : Blocks) → R.stands resident.old blocks
        → PartTaken R.Resident (R.origin resident.old) c (blocks c) (slice_get places.old.items c) (slice_get places.new.items c) }
    ensures others { (k : ℕ) → k ≢ c → slice_get places.new.items k ≡ slice_get places.old.items k }
    ensures count { length places.new.items ≡ length places.old.items }
    ensures stands { (blocks : Blocks) → R.stands resident.old blocks → R.stands resident.new (taken c blocks) }
    ensures size { R.size resident.new ≡ R.size resident.old }
    ensures origin { R.origin resident.new ≡ R.origin resident.old }
{
    if !resident.is_here(c) {
        return;
    }
    places[c as usize] = Some(resident.take_out(c));
}
