//! Which key is at which place of a ring, and how items come to their keys.

ghost use Rattle.std.specs.Prelude.{◌≡◌, ◌+◌, ◌<◌, ◌≤◌, ℕ, Some, IfSome, Contains, length, slice_get};
ghost use Rattle.std.proofs.Common.{List};
ghost use Rattle.turn_gate.specs.Passes.{number};
ghost use Rattle.placed_parts.specs.Placing.{limits_of, origin_of};
ghost use Rattle.squeue_arrivals.specs.Arriving.{most_of_ring};
ghost use Rattle.squeue_arrivals.specs.Keyed.{Tells};
ghost use Rattle.squeue_arrivals.specs.Keeping.{HasAll, HasArrived, HasSeated};
ghost use Rattle.squeue_arrivals.specs.Placed.{SameRing, keys_in, place_of};
ghost use Rattle.stream_stays.specs.Places.{life_of};

use crate::line::Line;
use crate::ring_keys::RingKeys;
use crate::seating::KeyParts;
use crate::served::{Cause, Refused};
use crate::steps::KeySteps;
use squeue_state::Pass;
use std::alloc::Global;
use std::sync::Wait;
use stream_stays::Stays;

/// Brings the next item to its key's place, which is opened where it is the key's first. Answers the item where it is refused.
pub(crate) fn arrive<X: KeySteps + Drop, H: Wait + Drop, W: Wait>(
    line: &Line<'_, KeyParts<X, H>, W>,
    alloc: Global,
    pass: Pass,
    stays: &mut Stays<X::Item, X::State>,
    keys: &mut RingKeys,
    key: u64,
    item: X::Item,
) -> (Pass, Option<Refused<X::Item>>)
    requires keys { (all : List (ℕ × X.Item)) × HasAll (Tells X.step) limits_of line.now.squeue.now (origin_of line.now.squeue.now.given.first) all pass stays.old keys.old
        × (length all < most_of_ring) }
    requires asks { 6 ≤ (life_of stays.old).asks }
    ensures number { number result.0 ≡ number pass }
    ensures asks { (life_of stays.old).asks ≤ (life_of stays.new).asks + 6 }
    ensures ring { SameRing keys.old keys.new }
    ensures arrived { (all : List (ℕ × X.Item)) → HasAll (Tells X.step) limits_of line.now.squeue.now (origin_of line.now.squeue.now.given.first) all pass stays.old keys.old
        → HasArrived (Tells X.step) limits_of line.now.squeue.now (origin_of line.now.squeue.now.given.first) all key item result.0 stays.new keys.new result.1 }
{
    let (pass, at) = seat(line, alloc, pass, stays, keys, key);
    let Some(c) = at else {
        let cause = Cause::NoPlace;
        return (pass, Some(Refused { key, item, cause }));
    };
    let pass = line.bring(alloc, pass, stays, c, item);
    (pass, None)
}

// The place of a key, which takes one where it has none. Answers `None` where there is none for it.
fn seat<X: KeySteps + Drop, H: Wait + Drop, W: Wait>(
    line: &Line<'_, KeyParts<X, H>, W>,
    alloc: Global,
    pass: Pass,
    stays: &mut Stays<X::Item, X::State>,
    keys: &mut RingKeys,
    key: u64,
) -> (Pass, Option<u32>)
    requires keys { (all : List (ℕ × X.Item)) × HasAll (Tells X.step) limits_of line.now.squeue.now (origin_of line.now.squeue.now.given.first) all pass stays.old keys.old }
    requires asks { 2 ≤ (life_of stays.old).asks }
    ensures number { number result.0 ≡ number pass }
    ensures asks { (life_of stays.old).asks ≤ (life_of stays.new).asks + 2 }
    ensures seated { (all : List (ℕ × X.Item)) → HasAll (Tells X.step) limits_of line.now.squeue.now (origin_of line.now.squeue.now.given.first) all pass stays.old keys.old
        → HasSeated (Tells X.step) limits_of line.now.squeue.now (origin_of line.now.squeue.now.given.first) all key result.0 stays.new keys.new result.1 }
    ensures ring { SameRing keys.old keys.new }
    ensures place { IfSome result.1 (λ c. (i : ℕ) × (slice_get (keys_in keys.new) i ≡ Some key) × (c ≡ place_of keys.new i)) }
{
    match keys.index_of(key) {
        Some(i) => (pass, Some(keys.place(i))),
        None => seat_new(line, alloc, pass, stays, keys, key),
    }
}

// The same of a key that has no place.
fn seat_new<X: KeySteps + Drop, H: Wait + Drop, W: Wait>(
    line: &Line<'_, KeyParts<X, H>, W>,
    alloc: Global,
    pass: Pass,
    stays: &mut Stays<X::Item, X::State>,
    keys: &mut RingKeys,
    key: u64,
) -> (Pass, Option<u32>)
    requires new { Contains (keys_in keys.old) key → ⊥ }
    requires keys { (all : List (ℕ × X.Item)) × HasAll (Tells X.step) limits_of line.now.squeue.now (origin_of line.now.squeue.now.given.first) all pass stays.old keys.old }
    requires asks { 2 ≤ (life_of stays.old).asks }
    ensures number { number result.0 ≡ number pass }
    ensures asks { (life_of stays.old).asks ≤ (life_of stays.new).asks + 2 }
    ensures seated { (all : List (ℕ × X.Item)) → HasAll (Tells X.step) limits_of line.now.squeue.now (origin_of line.now.squeue.now.given.first) all pass stays.old keys.old
        → HasSeated (Tells X.step) limits_of line.now.squeue.now (origin_of line.now.squeue.now.given.first) all key result.0 stays.new keys.new result.1 }
    ensures ring { SameRing keys.old keys.new }
    ensures place { IfSome result.1 (λ c. (i : ℕ) × (slice_get (keys_in keys.new) i ≡ Some key) × (c ≡ place_of keys.new i)) }
{
    let i = keys.len();
    if i == keys.most as usize {
        return (pass, None);
    }
    let c = keys.place(i);
    let pass = line.open(alloc, pass, stays, c);
    keys.add(key);
    (pass, Some(c))
}
