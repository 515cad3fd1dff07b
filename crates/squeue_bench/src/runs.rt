//! A run from its making to its end: its squeues, and the passes that its threads are lent.
ghost use Rattle.std.specs.Prelude.{◌≡◌, ◌*◌, ◌+◌, ◌<◌, ◌≤◌, ◌^◌, ℕ, All, [], ◌∷◌, ◌++◌, IfOk, length, slice_index_or, vec_capacity, vec_len};
ghost use Rattle.gate_trial.specs.Counted.{AreFrom};
ghost use Rattle.key_counters.specs.AsResident.{limits_of};
ghost use Rattle.histories.specs.Elements.{number_of};
ghost use Rattle.turn_gate.specs.Passes.{AreFresh, IsPassOf, number};
ghost use Rattle.squeue_bench.specs.Places.{AtEach, HasPass, HasWorked, HaveClosed, IsWorker, MayRun};
ghost use Rattle.squeue_bench.specs.Runs.{AreReady, HavePasses, IsNewPass, IsReady, Suits};

use crate::items::{feeds_of, lives_of, quotas_of};
use crate::threads::{Bringer, Worker};
use key_counters::{Counters, new_counters};
use perimeter_core::Resident;
use squeue_state::{Pass, Squeue};
use std::alloc::{AllocError, Global};

/// Rings with what they bring, and with room for their passes at so many squeues.
pub fn make_rings(
    alloc: Global,
    rings: u32,
    bound: u32,
    items: u32,
    squeues: usize,
) -> Result<Vec<Bringer>, AllocError>
    ensures as_many { IfOk result (λ v. length v.items ≡ rings) }
    ensures ready { IfOk result (λ v. AreReady limits_of bound items squeues [] v.items) }
{
    let mut all = Vec::with_capacity(alloc, rings as usize)?;
    for k in 0..rings {
        match make_ring(alloc, k, bound, items, squeues) {
            Ok(ring) => all.push_reserved(ring),
            Err(error) => {
                spend(all);
                return Err(error);
            }
        }
    }
    Ok(all)
}

fn make_ring(
    alloc: Global,
    key: u32,
    bound: u32,
    items: u32,
    squeues: usize,
) -> Result<Bringer, AllocError>
    ensures { IfOk result (λ r. IsReady limits_of bound items squeues [] key r) }
{
    let _bound = bound;
    let feeds = feeds_of(alloc, key, items)?;
    let passes = Vec::with_capacity(alloc, squeues)?;
    Ok(Bringer { feeds, passes })
}

/// Spends rings that have no pass.
pub fn spend(rings: Vec<Bringer>)
    requires { (k : ℕ) (d : Bringer) → k < length rings.items → vec_len (slice_index_or rings.items k d).passes ≡ 0 }
{
    let mut rings = rings;
    while let Some(ring) = rings.pop() {
        let Bringer { feeds: _, passes } = ring;
        passes.destroy_empty();
    }
    rings.destroy_empty();
}

/// Makes so many squeues, or fewer where memory runs out, and deals their passes to the rings and to new workers.
pub fn make_squeues<'a>(
    alloc: Global,
    amounts: &'a [Vec<u32>],
    items: u32,
    bound: u32,
    wanted: u32,
    squeues: &mut Vec<Squeue<Counters<'a>>>,
    rings: &mut [Bringer],
    workers: &mut Vec<Worker>,
)
    requires few { (1 ≤ length rings.old) × (length rings.old ≤ 63) × (length rings.old * items ≤ 2 ^ 30) }
    requires amounts { (length amounts.now ≡ length rings.old) × All (λ row. length row.items ≡ items) amounts.now }
    requires bound { bound ≤ 2 ^ 30 }
    requires none { (squeues.old.items ≡ []) × (workers.old.items ≡ []) }
    requires room { (wanted ≤ vec_capacity squeues.old) × (wanted ≤ vec_capacity workers.old) }
    requires rings { AreReady limits_of bound items wanted [] rings.old }
    ensures squeues { HavePasses (length rings.old) squeues.new.items × (length squeues.new.items ≤ wanted) }
    ensures rings { (length rings.new ≡ length rings.old) × MayRun limits_of bound squeues.new.items rings.new }
    ensures workers { AtEach IsWorker squeues.new.items workers.new.items }
{
    for q in 0..wanted {
        let Ok((squeue, passes)) = make_squeue(alloc, amounts, items, bound, q) else {
            return;
        };
        let mut room = passes;
        let Some(last) = room.pop() else {
            unreachable!()
        };
        deal(squeues, &squeue, bound, items, wanted, rings, &mut room);
        let pass = Some(last);
        workers.push_reserved(Worker { pass, room });
        squeues.push_reserved(squeue);
    }
}

// A squeue of new counters, with room for so many entries; with a bound of 0, for all.
fn make_squeue<'a>(
    alloc: Global,
    amounts: &'a [Vec<u32>],
    items: u32,
    bound: u32,
    number: u32,
) -> Result<(Squeue<Counters<'a>>, Vec<Pass>), AllocError>
    requires few { (1 ≤ length amounts.now) × (length amounts.now ≤ 63) × (length amounts.now * items ≤ 2 ^ 30) }
    requires bound { bound ≤ 2 ^ 30 }
    requires amounts { All (λ row. length row.items ≡ items) amounts.now }
    ensures squeue { IfOk result (λ r. Suits limits_of bound items r.0 × (length r.0.given.quotas ≡ length amounts.now)) }
    ensures passes { IfOk result (λ r. (length r.1.items ≡ length amounts.now + 1) × AreFresh number_of r.0.gate 0 r.1.items) }
{
    match bound {
        0 => make_whole(alloc, amounts, items, number),
        _ => make_bounded(alloc, amounts, items, bound, number),
    }
}

fn make_whole<'a>(
    alloc: Global,
    amounts: &'a [Vec<u32>],
    items: u32,
    number: u32,
) -> Result<(Squeue<Counters<'a>>, Vec<Pass>), AllocError>
    requires few { (1 ≤ length amounts.now) × (length amounts.now ≤ 63) × (length amounts.now * items ≤ 2 ^ 30) }
    requires amounts { All (λ row. length row.items ≡ items) amounts.now }
    ensures squeue { IfOk result (λ r. Suits limits_of 0 items r.0 × (length r.0.given.quotas ≡ length amounts.now)) }
    ensures passes { IfOk result (λ r. (length r.1.items ≡ length amounts.now + 1) × AreFresh number_of r.0.gate 0 r.1.items) }
{
    let counters = new_counters(alloc, amounts, &[])?;
    let rings = amounts.len() as u32;
    let quotas = quotas_of(alloc, rings, items)?;
    Squeue::make(alloc, number, counters, rings, &quotas, false)
}

fn make_bounded<'a>(
    alloc: Global,
    amounts: &'a [Vec<u32>],
    items: u32,
    bound: u32,
    number: u32,
) -> Result<(Squeue<Counters<'a>>, Vec<Pass>), AllocError>
    requires few { (1 ≤ length amounts.now) × (length amounts.now ≤ 63) × (length amounts.now * items ≤ 2 ^ 30) }
    requires bound { (1 ≤ bound) × (bound ≤ 2 ^ 30) }
    requires amounts { All (λ row. length row.items ≡ items) amounts.now }
    ensures squeue { IfOk result (λ r. Suits limits_of bound items r.0 × (length r.0.given.quotas ≡ length amounts.now)) }
    ensures passes { IfOk result (λ r. (length r.1.items ≡ length amounts.now + 1) × AreFresh number_of r.0.gate 0 r.1.items) }
{
    let counters = new_counters(alloc, amounts, &[])?;
    let rings = amounts.len() as u32;
    let lives = lives_of(alloc, rings, items)?;
    Squeue::make_bounded(alloc, number, counters, rings, &lives, bound)
}

// Deals each ring its pass of one more squeue.
fn deal<R: Resident>(
    squeues: &[Squeue<R>],
    squeue: &Squeue<R>,
    bound: u32,
    items: u32,
    wanted: u32,
    rings: &mut [Bringer],
    passes: &mut Vec<Pass>,
)
    requires squeue { Suits R.limits bound items squeue.now × (length squeue.now.given.quotas ≡ length rings.old) }
    requires room { length squeues.now < wanted }
    requires rings { AreReady R.limits bound items wanted squeues.now rings.old }
    requires passes { (length passes.old.items ≡ length rings.old) × AreFresh number_of squeue.now.gate 0 passes.old.items }
    ensures rings { (length rings.new ≡ length rings.old) × AreReady R.limits bound items wanted (squeues.now ++ squeue.now ∷ []) rings.new }
    ensures passes { (passes.new.items ≡ []) × (vec_capacity passes.new ≡ vec_capacity passes.old) }
{
    while let Some(pass) = passes.pop() {
        let k = passes.len();
        give(
            squeues,
            squeue,
            k,
            bound,
            items,
            wanted,
            &mut rings[k],
            pass,
        );
    }
}

fn give<R: Resident>(
    squeues: &[Squeue<R>],
    squeue: &Squeue<R>,
    k: usize,
    bound: u32,
    items: u32,
    wanted: u32,
    ring: &mut Bringer,
    pass: Pass,
)
    requires squeue { Suits R.limits bound items squeue.now }
    requires pass { IsNewPass k squeue.now pass × (k < length squeue.now.given.quotas) }
    requires room { length squeues.now < wanted }
    requires ring { IsReady R.limits bound items wanted squeues.now k ring.old }
    ensures { IsReady R.limits bound items wanted (squeues.now ++ squeue.now ∷ []) k ring.new }
{
    ring.passes.push_reserved(Some(pass));
}

/// Ends the squeues, the last one first, and gives what they served.
pub fn finish_all<R: Resident>(
    squeues: Vec<Squeue<R>>,
    rings: &mut [Bringer],
    workers: Vec<Worker>,
    ends: &mut Vec<R>,
)
    requires room { length squeues.items + vec_len ends.old ≤ vec_capacity ends.old }
    requires squeues { HavePasses (length rings.old) squeues.items }
    requires rings { HaveClosed squeues.items rings.old }
    requires workers { AtEach (HasWorked R.limits) squeues.items workers.items }
    ensures ends { vec_len ends.new ≡ vec_len ends.old + length squeues.items }
    ensures rings { (k : ℕ) (d : Bringer) → k < length rings.new → vec_len (slice_index_or rings.new k d).passes ≡ 0 }
{
    let mut squeues = squeues;
    let mut workers = workers;
    while let Some(squeue) = squeues.pop() {
        let Some(Worker { pass, mut room }) = workers.pop() else {
            unreachable!()
        };
        gather(&squeues, &squeue, rings, &mut room);
        let Some(pass) = pass else { unreachable!() };
        room.push_reserved(pass);
        let (resident, _ended, _trace) = squeue.finish(room);
        ends.push_reserved(resident);
    }
    squeues.destroy_empty();
    workers.destroy_empty();
}

// Takes each ring's pass of the last squeue back, in order of their numbers.
fn gather<R: Resident>(
    squeues: &[Squeue<R>],
    squeue: &Squeue<R>,
    rings: &mut [Bringer],
    room: &mut Vec<Pass>,
)
    requires rings { HaveClosed (squeues.now ++ squeue.now ∷ []) rings.old }
    requires room { (room.old.items ≡ []) × (length rings.old ≤ vec_capacity room.old) }
    ensures rings { (length rings.new ≡ length rings.old) × HaveClosed squeues.now rings.new }
    ensures passes { (length room.new.items ≡ length rings.old) × AreFrom number_of squeue.now.gate 0 room.new.items }
    ensures room { vec_capacity room.new ≡ vec_capacity room.old }
{
    for k in 0..rings.len() {
        let pass = take_back(squeues, squeue, k, &mut rings[k]);
        room.push_reserved(pass);
    }
}

fn take_back<R: Resident>(
    squeues: &[Squeue<R>],
    squeue: &Squeue<R>,
    k: usize,
    ring: &mut Bringer,
) -> Pass
    requires { AtEach (HasPass k) (squeues.now ++ squeue.now ∷ []) ring.old.passes.items }
    ensures ring { AtEach (HasPass k) squeues.now ring.new.passes.items }
    ensures pass { IsPassOf number_of squeue.now.gate result × (number result ≡ k) }
{
    let last = ring.passes.pop();
    let Some(Some(pass)) = last else {
        unreachable!()
    };
    pass
}
