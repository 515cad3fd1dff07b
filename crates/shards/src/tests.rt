//! Parcels of two rings, taken on one thread.
ghost use Rattle.std.specs.Prelude.{◌≡◌};
ghost use Rattle.placed_parts.specs.Standing.{all_new};
ghost use Rattle.shards.specs.Merging.{IsUnused};
ghost use Rattle.shards.specs.Sharing.{StandsFor, rings_of};

use crate::{Counted, RingEnd, Shard, SqueueEnd, Written, lane};
use perimeter_core::Resident;
use std::alloc::Global;
use std::process::Abort;
use std::sync::Wait;
use std::test::*;

// Two rings with these ends share what is written.
fn shard_of<W: Wait + Abort>(
    rt: &W,
    alloc: Global,
    one: SqueueEnd<Vec<u8>>,
    two: SqueueEnd<Vec<u8>>,
) -> Shard<Written, &W>
    requires new { IsUnused one × IsUnused two }
    ensures stands { StandsFor result (all_new 2) }
    ensures rings { rings_of result ≡ 2 }
{
    let ends = Vec::from_array(alloc, [one, two]).expect(rt, "two ends");
    Shard::of(alloc, rt, Written::nothing(alloc), ends).expect(rt, "a shard")
}

// Pushes a parcel with these bytes.
fn push<W: Abort>(rt: &W, alloc: Global, ring: &mut RingEnd<Vec<u8>>, bytes: &[u8]) {
    let parcel = bytes.to_vec(alloc).expect(rt, "a parcel");
    assert!(rt; ring.output.push(parcel).is_ok());
}

// How many bytes the next parcel has that is back.
fn back(ring: &mut RingEnd<Vec<u8>>) -> Option<usize> {
    let parcel = ring.back.pop().ok()?;
    Some(parcel.len())
}

#[test]
fn parcels_are_written_in_the_order_of_feeds(rt: HostRuntime) {
    let alloc = rt.alloc();
    let (mut first, one) = lane(alloc, 2).expect(&rt, "a lane");
    let (mut second, two) = lane(alloc, 1).expect(&rt, "a lane");
    let mut shard = shard_of(&rt, alloc, one, two);
    push(&rt, alloc, &mut first, b"ab");
    push(&rt, alloc, &mut first, b"c");
    push(&rt, alloc, &mut second, b"XY");
    shard.feed(alloc, 0, 0);
    shard.feed(alloc, 1, 0);
    assert_eq!(rt; shard.shared().bytes(), b"abXY".as_slice());
    assert_eq!(rt; (back(&mut first), back(&mut first)), (Some(0), None));
    let _number = shard.take_out(0);
    assert_eq!(rt;
        (shard.is_here(0), shard.is_here(1), shard.conns()),
        (false, true, 2)
    );
    shard.put_in(0, Counted::none());
    shard.feed(alloc, 0, 0);
    let (written, ends) = shard.into_parts();
    assert_eq!(rt; (written.bytes(), ends.len()), (b"abXYc".as_slice(), 2));
    assert_eq!(rt; (back(&mut first), back(&mut second)), (Some(0), Some(0)));
}
