//! How a ring reaches one squeue: it sends a parcel there, and takes one that is back.
ghost use Rattle.std.specs.Prelude.{◌≡◌, ◌+◌, ◌<◌, ◌≤◌, ◌^◌, ◌++◌, ◌∷◌, [], ℕ, IfSome, IfNone, false, true, length};
ghost use Rattle.rtrb.specs.Ring.{SameConsumer, SameProducer, received, sent};
ghost use Rattle.turn_gate.specs.Passes.{seen};
ghost use Rattle.perimeter_core.specs.declared.marks.SynchAct.TheVariants as Done;
ghost use Rattle.perimeter_core.specs.Deeds.{due};
ghost use Rattle.conn_migrate.specs.Moving.{MayCome, MayLeave, Moved, RingLearns};
ghost use Rattle.shards.specs.Sharing.{limits_for};
ghost use Rattle.shard_rings.specs.Knowing.{IsAt, IsBeside, SameEnd, Serves, came_of, sent_of};

use crate::cell::Cell;
use perimeter_core::{Feed, NoHook, Resident};
use rtrb::{Producer, PushError};
use shards::{Counted, Shard, Shared};
use squeue_enter::{Entered, Mode, enter_or_full};
use squeue_state::{Pass, Squeue};
use std::alloc::Global;
use std::marker::Brand;
use std::sync::Wait;
use std::thread;
use synch_enter::{put_block, synch_enter, synch_exit, take_block};

/// How a ring reaches one squeue: its number, the squeue, in which mode and with which budget it enters, and after how many feeds its
/// numbers begin anew.
#[derive(Drop)]
pub(crate) struct Way<'q, R: Resident, W: Wait> {
    pub(crate) rt: &'q W,
    pub(crate) squeue: &'q Squeue<R>,
    pub(crate) ring: u32,
    pub(crate) mode: Mode,
    pub(crate) budget: u32,
    pub(crate) span: u32,
    ghost spends: { 1 ≤ budget },
    ghost spans: { (1 ≤ span) × (span ≤ 2 ^ 31) },
}

/// Sends a parcel: it is pushed, and a feed for it entered.
pub(crate) fn send<X: Shared + Drop, H: Wait + Drop, W: Wait>(
    way: &Way<'_, Shard<X, H>, W>,
    alloc: Global,
    pass: Pass,
    cell: &mut Cell<X::Parcel>,
    parcel: X::Parcel,
) -> Pass
    requires serves { Serves limits_for way.now.squeue.now way.now.ring }
    requires at { IsAt limits_for way.now.squeue.now way.now.ring cell.old.entered (length (sent_of cell.old)) pass }
    requires life { length (sent_of cell.old) < 2 ^ 50 }
    ensures at { IsAt limits_for way.now.squeue.now way.now.ring cell.new.entered (length (sent_of cell.new)) result }
    ensures sent { sent_of cell.new ≡ sent_of cell.old ++ parcel ∷ [] }
    ensures back { came_of cell.new ≡ came_of cell.old }
    ensures end { SameEnd cell.old cell.new }
{
    let pass = begin_anew(way, alloc, pass, cell);
    push(way.rt, &mut cell.end.output, parcel);
    cell.pushed += 1;
    let n = cell.entered;
    cell.entered += 1;
    enter(way, alloc, pass, n)
}

// Begins the numbers of the ring's feeds anew, where as many were entered as its span has.
fn begin_anew<X: Shared + Drop, H: Wait + Drop, W: Wait>(
    way: &Way<'_, Shard<X, H>, W>,
    alloc: Global,
    pass: Pass,
    cell: &mut Cell<X::Parcel>,
) -> Pass
    requires serves { Serves limits_for way.now.squeue.now way.now.ring }
    requires at { IsAt limits_for way.now.squeue.now way.now.ring cell.old.entered (length (sent_of cell.old)) pass }
    ensures at { IsAt limits_for way.now.squeue.now way.now.ring cell.new.entered (length (sent_of cell.new)) result }
    ensures below { cell.new.entered < 2 ^ 31 }
    ensures end { cell.new.end ≡ cell.old.end }
{
    if cell.entered < way.span {
        return pass;
    }
    cell.entered = 0;
    renew(way, alloc, pass)
}

// Pushes a parcel. It waits for room.
fn push<T: Drop, W: Wait>(rt: &W, output: &mut Producer<T>, parcel: T)
    ensures pushed { sent output.new ≡ sent output.old ++ parcel ∷ [] }
    ensures lane { SameProducer output.old output.new }
{
    let mut parcel = parcel;
    'tries: for _ in rt.forever() {
        match output.push(parcel) {
            Ok(()) => return,
            Err(PushError::Full(left)) => parcel = left,
        }
        thread::yield_now();
    }
    unreachable!()
}

// Enters feed `n` of the ring, which is the next one. It waits while the squeue is full.
fn enter<R: Resident, W: Wait>(way: &Way<'_, R, W>, alloc: Global, pass: Pass, n: u32) -> Pass
    requires serves { Serves R.limits way.now.squeue.now way.now.ring }
    requires at { (fed : ℕ) × (fed < 2 ^ 50) × IsAt R.limits way.now.squeue.now way.now.ring n fed pass }
    requires number { n < 2 ^ 31 }
    ensures { (fed : ℕ) → IsAt R.limits way.now.squeue.now way.now.ring n fed pass
        → IsAt R.limits way.now.squeue.now way.now.ring (n + 1) (fed + 1) result }
{
    let feed = Feed { c: way.ring, n };
    let mut pass = pass;
    'tries: for _ in way.rt.forever() {
        match enter_or_full(
            way.squeue,
            way.rt,
            alloc,
            &NoHook,
            pass,
            &[feed],
            way.mode,
            way.budget,
        ) {
            Ok(
                Entered {
                    pass: next,
                    how: _,
                    polling: _,
                },
            ) => return next,
            Err(back) => pass = back,
        }
        thread::yield_now();
    }
    unreachable!()
}

// The ring's feeds are numbered from 0 on again: its part is taken out, behind all its feeds, and a new one put in.
fn renew<X: Shared + Drop, H: Wait + Drop, W: Wait>(
    way: &Way<'_, Shard<X, H>, W>,
    alloc: Global,
    pass: Pass,
) -> Pass
    requires serves { Serves limits_for way.now.squeue.now way.now.ring }
    requires at { (n fed : ℕ) × (1 ≤ n) × (fed ≤ 2 ^ 50) × IsAt limits_for way.now.squeue.now way.now.ring n fed pass }
    ensures { (n fed : ℕ) → 1 ≤ n → IsAt limits_for way.now.squeue.now way.now.ring n fed pass
        → IsAt limits_for way.now.squeue.now way.now.ring 0 fed result }
{
    let pass = take_out(way, alloc, pass);
    put_in(way, alloc, pass, Counted::none())
}

// Takes the ring's part out, behind all its feeds, and leaves.
fn take_out<R: Resident, W: Wait>(way: &Way<'_, R, W>, alloc: Global, pass: Pass) -> Pass
where
    R::Part: Drop,
    requires may { MayLeave R.limits way.now.squeue.now way.now.ring pass }
    ensures moved { Moved R.limits way.now.squeue.now (Done.Out way.now.ring) [] pass result }
    ensures learns { RingLearns R.limits way.now.squeue.now way.now.ring false 1 pass result }
{
    let mut owner = synch_enter(way.squeue, way.rt, alloc, &NoHook, pass);
    let _part = take_block(&mut owner, way.ring);
    synch_exit::<R, Brand, W>(way.squeue, way.rt, owner)
}

// Puts a part in to which nothing was done, and leaves: the ring's feeds are numbered from 0 on.
fn put_in<R: Resident, W: Wait>(
    way: &Way<'_, R, W>,
    alloc: Global,
    pass: Pass,
    part: R::Part,
) -> Pass
    requires may { MayCome R.limits way.now.squeue.now way.now.ring pass }
    requires new { R.part_stands part [] }
    requires part { R.is_part_of (R.origin way.now.squeue.now.given.first) way.now.ring part }
    ensures moved { Moved R.limits way.now.squeue.now (Done.In way.now.ring) [] pass result }
    ensures learns { RingLearns R.limits way.now.squeue.now way.now.ring true 0 pass result }
    ensures next { due (seen result) way.now.ring ≡ 0 }
{
    let mut owner = synch_enter(way.squeue, way.rt, alloc, &NoHook, pass);
    put_block(&mut owner, way.ring, part);
    synch_exit::<R, Brand, W>(way.squeue, way.rt, owner)
}

/// The next parcel that is back, if there is one.
pub(crate) fn pop_back<P: Drop>(cell: &mut Cell<P>) -> Option<P>
    ensures none { IfNone result (came_of cell.new ≡ came_of cell.old) }
    ensures some { IfSome result (λ x. came_of cell.new ≡ came_of cell.old ++ x ∷ []) }
    ensures same { IsBeside cell.old cell.new }
{
    if cell.popped == cell.pushed {
        return None;
    }
    let parcel = cell.end.back.pop().ok()?;
    cell.popped += 1;
    Some(parcel)
}

/// The next parcel that is back. It waits for it: the ring renews its part, which comes behind all its feeds.
pub(crate) fn wait_back<X: Shared + Drop, H: Wait + Drop, W: Wait>(
    way: &Way<'_, Shard<X, H>, W>,
    alloc: Global,
    pass: Pass,
    cell: &mut Cell<X::Parcel>,
) -> (Pass, X::Parcel)
    requires serves { Serves limits_for way.now.squeue.now way.now.ring }
    requires at { IsAt limits_for way.now.squeue.now way.now.ring cell.old.entered (length (sent_of cell.old)) pass }
    requires out { length (came_of cell.old) < length (sent_of cell.old) }
    ensures at { IsAt limits_for way.now.squeue.now way.now.ring cell.new.entered (length (sent_of cell.new)) result.0 }
    ensures sent { sent_of cell.new ≡ sent_of cell.old }
    ensures back { came_of cell.new ≡ came_of cell.old ++ result.1 ∷ [] }
    ensures end { SameEnd cell.old cell.new }
{
    let mut pass = pass;
    'waits: for _ in way.rt.forever() {
        if let Some(parcel) = pop_back(cell) {
            return (pass, parcel);
        }
        pass = see_to(way, alloc, pass, cell);
    }
    unreachable!()
}

// Has the squeue do all feeds of the ring. Where it has none since its part was put in, all are done.
fn see_to<X: Shared + Drop, H: Wait + Drop, W: Wait>(
    way: &Way<'_, Shard<X, H>, W>,
    alloc: Global,
    pass: Pass,
    cell: &mut Cell<X::Parcel>,
) -> Pass
    requires serves { Serves limits_for way.now.squeue.now way.now.ring }
    requires at { IsAt limits_for way.now.squeue.now way.now.ring cell.old.entered (length (sent_of cell.old)) pass }
    ensures at { IsAt limits_for way.now.squeue.now way.now.ring cell.new.entered (length (sent_of cell.new)) result }
    ensures end { cell.new.end ≡ cell.old.end }
{
    if cell.entered == 0 {
        thread::yield_now();
        return pass;
    }
    cell.entered = 0;
    renew(way, alloc, pass)
}
