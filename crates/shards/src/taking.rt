//! How a parcel is taken, and goes back.
ghost use Rattle.std.specs.Prelude.{◌≡◌, ◌+◌, ◌<◌, ◌∷◌, ◌++◌, [], length};
ghost use mathlib.Core.List.{IsPrefix};
ghost use Rattle.rtrb.specs.Ring.{ConsumerLooked, ProducerLooked, SameConsumer, SameProducer, known_items, received, sent};
ghost use Rattle.shards.specs.Lanes.{IsLane};
ghost use Rattle.shards.specs.Merging.{Merges, SameLane, TookOne};

use crate::lanes::{RingEnd, SqueueEnd};
use crate::shared::Shared;
use rtrb::{Consumer, Producer, PushError};
use std::alloc::Global;
use std::sync::Wait;
use std::thread;

/// Has what is shared take the next parcel of a ring, and gives it back. It waits for the parcel, and for room.
pub(crate) fn take_next<X: Shared, W: Wait>(
    rt: &W,
    alloc: Global,
    shared: &mut X,
    end: &mut SqueueEnd<X::Parcel>,
    ring: u32,
)
    ensures took { TookOne X.is_made ring end.old end.new shared.old shared.new }
    ensures same { SameLane end.old end.new }
    ensures origin { X.origin shared.new ≡ X.origin shared.old }
{
    let mut parcel = next(rt, &mut end.input);
    shared.take(alloc, ring, &mut parcel);
    give_back(rt, &mut end.back, parcel);
}

/// Has what is shared take all parcels that a ring pushed and that were not popped yet, and gives them back. It waits for room.
pub(crate) fn take_all<X: Shared, W: Wait>(
    rt: &W,
    alloc: Global,
    shared: &mut X,
    end: &mut SqueueEnd<X::Parcel>,
    ring: &mut RingEnd<X::Parcel>,
    p: u32,
)
    requires { IsLane ring.old end.old }
    ensures all { received end.new.input ≡ sent ring.old.output }
    ensures front { IsPrefix (received ring.old.back) (sent end.new.back) }
    ensures same { SameLane end.old end.new }
    ensures merges { Merges X.is_made p end.old end.new shared.old shared.new }
    ensures origin { X.origin shared.new ≡ X.origin shared.old }
    ensures output { ProducerLooked ring.old.output ring.new.output }
    ensures back { ConsumerLooked ring.old.back ring.new.back }
{
    let _back = ring.back.slots_beside(&mut end.back);
    let many = end.input.slots_beside(&mut ring.output);
    for _k in 0..many {
        take_known(rt, alloc, shared, end, p);
    }
}

// Has what is shared take the next parcel of a ring, which its end of the lane has seen, and gives it back. It waits for room.
fn take_known<X: Shared, W: Wait>(
    rt: &W,
    alloc: Global,
    shared: &mut X,
    end: &mut SqueueEnd<X::Parcel>,
    ring: u32,
)
    requires { 0 < length (known_items end.old.input) }
    ensures took { TookOne X.is_made ring end.old end.new shared.old shared.new }
    ensures same { SameLane end.old end.new }
    ensures origin { X.origin shared.new ≡ X.origin shared.old }
    ensures left { length (known_items end.old.input) ≡ length (known_items end.new.input) + 1 }
    ensures all { received end.new.input ++ known_items end.new.input ≡ received end.old.input ++ known_items end.old.input }
{
    let mut parcel = end.input.pop_known();
    shared.take(alloc, ring, &mut parcel);
    give_back(rt, &mut end.back, parcel);
}

// The next parcel of a lane. It waits for it.
fn next<T: Drop, W: Wait>(rt: &W, input: &mut Consumer<T>) -> T
    ensures popped { received input.new ≡ received input.old ++ result ∷ [] }
    ensures lane { SameConsumer input.old input.new }
{
    for _ in rt.forever() {
        if let Ok(item) = input.pop() {
            return item;
        }
        thread::yield_now();
    }
    unreachable!()
}

// Gives a parcel back. It waits for room.
fn give_back<T: Drop, W: Wait>(rt: &W, back: &mut Producer<T>, parcel: T)
    ensures pushed { sent back.new ≡ sent back.old ++ parcel ∷ [] }
    ensures lane { SameProducer back.old back.new }
{
    let mut parcel = parcel;
    'tries: for _ in rt.forever() {
        match back.push(parcel) {
            Ok(()) => return,
            Err(PushError::Full(left)) => parcel = left,
        }
        thread::yield_now();
    }
    unreachable!()
}
