//! What was done to each connection in all its stays, joined and served on one thread.

ghost use Rattle.std.specs.Prelude.{◌≡◌, ℕ, ◌+◌, ◌^◌, ◌<◌, ◌≤◌, true, false, All, Err};
ghost use Rattle.std.specs.Prelude.{IfOk, IfSome, List, MatchOption, None, Some, [], length, map, option_map};
ghost use Rattle.std.specs.List.{AllByRecursion};
ghost use Rattle.perimeter_core.specs.declared.entries.Act.{Act};
ghost use Rattle.perimeter_core.specs.declared.marks.Mark.{Mark};
ghost use Rattle.perimeter_core.specs.Blocks.{Blocks as Had};
ghost use Rattle.perimeter_core.specs.Deeds.{fed as fed_in};
ghost use Rattle.perimeter_core.specs.Residing.{HadFeeds};
ghost use Rattle.conn_classifier.specs.Plan.{items_in};
ghost use Rattle.conn_blocks.specs.Allowed.{all_calls};
ghost use Rattle.conn_blocks.specs.Places.{Stands, origin_of};
ghost use Rattle.ring_quotas.specs.Limits.{most_squeues};
ghost use Rattle.ring_quotas.specs.Quotas.{IsInRange};
ghost use Rattle.conn_blocks.specs.ServedBlocks.{AreServed, blocks_in};
ghost use Rattle.squeue_replay.specs.Histories.{endings_of};
ghost use Rattle.squeue_replay.specs.Standing.{GuestsStand, guest_of};
ghost use Rattle.trace_replay.specs.Joining.{FeedsFollow, HasNoOrder, HasOrder, HasStays};
ghost use Rattle.trace_replay.specs.Joining.{IsNamed, LacksAStay, did_before, did_in, kept_of, left_in, with_acts, without};
ghost use Rattle.trace_replay.specs.Reasons.{AreOrdered, AreRight, IsUnordered};

use crate::reason::{Reason, Refusal};
use conn_blocks::{Block, Blocks};
use perimeter_core::{Act, Resident};
use squeue_replay::{Guest, RunSetup};
use std::alloc::{AllocError, Global};

/// More stays than memory has room for.
const MOST_STAYS: usize = 1 << 60;

/// The blocks of all connections, each served in the order that settles of all that was done to it. Fails at the first connection
/// that came to a squeue without having left the one before, or whose order isn't whole.
pub fn serve_orders(
    alloc: Global,
    run: RunSetup<'_, '_>,
    guests: &[Vec<Guest>],
) -> Result<Vec<Box<Block>>, Refusal>
    requires range { IsInRange run.setup }
    requires calls { All (λ call. call.0 < length run.plan.now.tuples) (all_calls run.calls.now) }
    requires squeues { length guests.now ≡ run.setup.squeues }
    requires marks { (marks : List (List Mark)) × AreRight run.setup (endings_of run.plan.now run.calls.now run.setup marks)
        × GuestsStand (endings_of run.plan.now run.calls.now run.setup marks) (map (λ gs. map guest_of gs.items) guests.now) }
    ensures served { IfOk result (λ v. AreServed run.entry.plan.now run.entry.calls.now (blocks_in v.items)) }
    ensures ordered { IfOk result (λ v. (marks : List (List Mark))
        → AreRight run.entry.setup (endings_of run.entry.plan.now run.entry.calls.now run.entry.setup marks)
        → GuestsStand (endings_of run.entry.plan.now run.entry.calls.now run.entry.setup marks) (map (λ gs. map guest_of gs.items) guests.now)
        → AreOrdered run.entry.plan.now run.entry.calls.now (endings_of run.entry.plan.now run.entry.calls.now run.entry.setup marks)
        (map (λ b. b.order) (blocks_in v.items))) }
    ensures no { (r : Reason) → result ≡ Err (Refusal.No r) → (c : ℕ) × (r ≡ Reason.Order c)
        × ((marks : List (List Mark))
        → AreRight run.entry.setup (endings_of run.entry.plan.now run.entry.calls.now run.entry.setup marks)
        → GuestsStand (endings_of run.entry.plan.now run.entry.calls.now run.entry.setup marks) (map (λ gs. map guest_of gs.items) guests.now)
        → IsUnordered run.entry.plan.now run.entry.calls.now (endings_of run.entry.plan.now run.entry.calls.now run.entry.setup marks) c) }
{
    let mut blocks = Blocks::make(alloc, run.plan, run.calls, 0, 1, 0)?;
    let mut served = Vec::with_capacity(alloc, run.plan.conns() as usize)?;
    for c in 0..run.plan.conns() {
        match serve_order(alloc, run, guests, c, &mut blocks)? {
            Some(block) => served.push_reserved(block),
            None => return Err(Refusal::No(Reason::Order(c))),
        }
    }
    Ok(served)
}

/// The block of connection `c`, taken out after it was served in the order that settles of all that was done to it. Nothing where
/// there is no whole order.
fn serve_order(
    alloc: Global,
    run: RunSetup<'_, '_>,
    guests: &[Vec<Guest>],
    c: u32,
    blocks: &mut Blocks<'_>,
) -> Result<Option<Box<Block>>, AllocError>
    requires conn { c < length run.plan.now.tuples }
    requires range { (0 < run.setup.squeues) × (run.setup.squeues ≤ most_squeues) }
    requires squeues { length guests.now ≡ run.setup.squeues }
    requires conns { All (λ gs. length gs.items ≡ length run.plan.now.tuples) guests.now }
    requires origin { origin_of blocks.old ≡ record { plan = run.plan.now; calls = run.calls.now } }
    requires fresh { (had : Had) × Stands blocks.old had × (had c ≡ Some []) }
    requires named { (s : ℕ) (acts : List Act) → did_in run.setup.squeues (kept_of guests.now) c s ≡ Some acts
        → AllByRecursion (IsNamed (all_calls run.calls.now) c) acts }
    ensures order { IfOk result (λ o. MatchOption o
        (HasNoOrder run.entry.setup.squeues (kept_of guests.now) c run.entry.plan.now run.entry.calls.now)
        (λ b. HasOrder run.entry.setup.squeues (kept_of guests.now) c run.entry.plan.now run.entry.calls.now b.value)) }
    ensures others { IfOk result (λ o. IfSome o (λ b. (had : Had) → Stands blocks.old had → had c ≡ Some [] → Stands blocks.new (without c had))) }
    ensures origin { origin_of blocks.new ≡ origin_of blocks.old }
{
    let Some(stays) = count_stays(run, guests, c)? else {
        return Ok(None);
    };
    if !give_all(alloc, run, guests, c, stays, blocks) {
        return Ok(None);
    }
    let block = blocks.take_out(c);
    if block.short() {
        return Err(AllocError);
    }
    let whole = run.plan.items(c) as usize + run.calls.count_on(c);
    Ok((block.order().len() == whole).then_some(block))
}

/// How many stays the connection had at all squeues, where each but the first began after the one before had ended. Nothing where
/// one didn't.
fn count_stays(
    run: RunSetup<'_, '_>,
    guests: &[Vec<Guest>],
    c: u32,
) -> Result<Option<usize>, AllocError>
    requires conn { c < length run.plan.now.tuples }
    requires range { (0 < run.setup.squeues) × (run.setup.squeues ≤ most_squeues) }
    requires squeues { length guests.now ≡ run.setup.squeues }
    requires conns { All (λ gs. length gs.items ≡ length run.plan.now.tuples) guests.now }
    ensures few { IfOk result (λ o. IfSome o (λ n. n < 2 ^ 60)) }
    ensures stays { IfOk result (λ o. MatchOption o (LacksAStay run.entry.setup.squeues (kept_of guests.now) c)
        (λ n. HasStays run.entry.setup.squeues (kept_of guests.now) c n)) }
{
    for stay in 0..MOST_STAYS {
        if stay_at(run, guests, c, stay).is_none() {
            return Ok(is_last(run, guests, c, stay).then_some(stay));
        }
        if stay > 0 && !has_left(run, guests, c, stay - 1) {
            return Ok(None);
        }
    }
    Err(AllocError)
}

/// Whether no stay follows behind the number of one that isn't there. Each squeue is looked at once, since its stays have no gaps.
fn is_last(run: RunSetup<'_, '_>, guests: &[Vec<Guest>], c: u32, stay: usize) -> bool
    requires conn { c < length run.plan.now.tuples }
    requires range { (0 < run.setup.squeues) × (run.setup.squeues ≤ most_squeues) }
    requires squeues { length guests.now ≡ run.setup.squeues }
    requires conns { All (λ gs. length gs.items ≡ length run.plan.now.tuples) guests.now }
    requires few { stay < 2 ^ 60 }
    ensures yes { result ≡ true → (s : ℕ) → stay < s → s < stay + run.entry.setup.squeues → did_in run.entry.setup.squeues (kept_of guests.now) c s ≡ None }
    ensures no { result ≡ false → (s : ℕ) × (acts : List Act) × (stay < s) × (did_in run.entry.setup.squeues (kept_of guests.now) c s ≡ Some acts) }
{
    for ahead in 1..run.setup.squeues {
        if stay_at(run, guests, c, stay + ahead as usize).is_some() {
            return false;
        }
    }
    true
}

/// Whether the connection was taken out in its stay of this number.
fn has_left(run: RunSetup<'_, '_>, guests: &[Vec<Guest>], c: u32, stay: usize) -> bool
    requires conn { c < length run.plan.now.tuples }
    requires range { 0 < run.setup.squeues }
    requires squeues { length guests.now ≡ run.setup.squeues }
    requires conns { All (λ gs. length gs.items ≡ length run.plan.now.tuples) guests.now }
    requires few { stay < 2 ^ 62 }
    ensures { result ≡ left_in run.entry.setup.squeues (kept_of guests.now) c stay }
{
    let squeues = run.setup.squeues as usize;
    guests[(c as usize + stay) % squeues][c as usize].left > (stay / squeues) as u64
}

/// What was done to the connection in its stay of this number, of all its stays.
fn stay_at<'g>(
    run: RunSetup<'_, '_>,
    guests: &'g [Vec<Guest>],
    c: u32,
    stay: usize,
) -> Option<&'g [Act]>
    requires conn { c < length run.plan.now.tuples }
    requires range { 0 < run.setup.squeues }
    requires squeues { length guests.now ≡ run.setup.squeues }
    requires conns { All (λ gs. length gs.items ≡ length run.plan.now.tuples) guests.now }
    requires few { stay < 2 ^ 62 }
    ensures { option_map (λ acts. acts.now) result ≡ did_in run.entry.setup.squeues (kept_of guests.now) c stay }
{
    let squeues = run.setup.squeues as usize;
    guests[(c as usize + stay) % squeues][c as usize].stay(stay / squeues)
}

/// Gives the block all that was done to the connection in its first stays. Whether its feeds came in order, none that there isn't.
fn give_all(
    alloc: Global,
    run: RunSetup<'_, '_>,
    guests: &[Vec<Guest>],
    c: u32,
    stays: usize,
    blocks: &mut Blocks<'_>,
) -> bool
    requires conn { c < length run.plan.now.tuples }
    requires range { 0 < run.setup.squeues }
    requires squeues { length guests.now ≡ run.setup.squeues }
    requires conns { All (λ gs. length gs.items ≡ length run.plan.now.tuples) guests.now }
    requires origin { origin_of blocks.old ≡ record { plan = run.plan.now; calls = run.calls.now } }
    requires fresh { HadFeeds (Stands blocks.old) c 0 }
    requires few { stays < 2 ^ 60 }
    requires each { (s : ℕ) → s < stays → (acts : List Act) × (did_in run.setup.squeues (kept_of guests.now) c s ≡ Some acts) }
    requires named { (s : ℕ) (acts : List Act) → did_in run.setup.squeues (kept_of guests.now) c s ≡ Some acts
        → AllByRecursion (IsNamed (all_calls run.calls.now) c) acts }
    ensures stands { result ≡ true → (had : Had) → Stands blocks.old had
        → Stands blocks.new (with_acts c (did_before run.entry.setup.squeues (kept_of guests.now) c stays) had) }
    ensures no { result ≡ false
        → FeedsFollow (length (items_in run.entry.plan.now c)) 0 (did_before run.entry.setup.squeues (kept_of guests.now) c stays) → ⊥ }
    ensures origin { origin_of blocks.new ≡ origin_of blocks.old }
{
    let mut fed = 0;
    for stay in 0..stays {
        let Some(acts) = stay_at(run, guests, c, stay) else {
            unreachable!()
        };
        if !give(alloc, run, c, acts, &mut fed, blocks) {
            return false;
        }
    }
    true
}

/// Gives the block these acts, up to a feed that isn't the next one, or that there isn't. Whether it has had all of them.
fn give(
    alloc: Global,
    run: RunSetup<'_, '_>,
    c: u32,
    acts: &[Act],
    fed: &mut u32,
    blocks: &mut Blocks<'_>,
) -> bool
    requires conn { c < length run.plan.now.tuples }
    requires origin { origin_of blocks.old ≡ record { plan = run.plan.now; calls = run.calls.now } }
    requires here { HadFeeds (Stands blocks.old) c fed.old }
    requires named { AllByRecursion (IsNamed (all_calls run.calls.now) c) acts.now }
    ensures stands { result ≡ true → (had : Had) → Stands blocks.old had → Stands blocks.new (with_acts c acts.now had) }
    ensures yes { result ≡ true → fed.new ≡ fed.old + fed_in acts.now }
    ensures no { result ≡ false → FeedsFollow (length (items_in run.entry.plan.now c)) fed.old acts.now → ⊥ }
    ensures origin { origin_of blocks.new ≡ origin_of blocks.old }
{
    for act in acts {
        match *act {
            Act::Feed { n } => {
                if n != *fed || n >= run.plan.items(c) {
                    return false;
                }
                blocks.feed(alloc, c, n);
                *fed += 1;
            }
            Act::Call { j, k } => blocks.call(alloc, c, j, k),
        }
    }
    true
}
