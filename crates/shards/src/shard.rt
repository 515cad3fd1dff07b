//! The resident of a squeue: what its rings share.
ghost use Rattle.std.specs.Prelude.{◌≡◌, ◌≢◌, ◌<◌, ◌^◌, ◌∷◌, [], ℕ, IfOk, length, slice_get, slice_index};
ghost use Rattle.placed_parts.specs.Placing.{size_of};
ghost use Rattle.shards.specs.Merging.{AreUnused, SameLanes};

use crate::counting::{Counted, Counting};
use crate::lanes::{RingEnd, SqueueEnd};
use crate::shared::Shared;
use crate::taking::{take_all, take_next};
use perimeter_core::{Known, Resident};
use placed_parts::Places;
use std::alloc::{AllocError, Global};
use std::sync::Wait;

/// What the rings of a squeue share, and of each ring its lane's ends at this squeue. Connection p is ring p: a feed of it takes the
/// next parcel of its lane. A ring has at most 2^32 - 1 feeds between two renewals of its part.
///
/// # Example
///
/// ```
/// shard.feed(alloc, 0, 0);
/// shard.feed(alloc, 1, 0);
/// assert_eq!(rt; shard.shared().bytes(), b"abXY".as_slice());
/// ...
/// let _number = shard.take_out(0);
/// ...
/// shard.put_in(0, Counted::none());
/// shard.feed(alloc, 0, 0);
/// ```
#[derive(Drop)]
pub struct Shard<X: Shared + Drop, H: Wait + Drop> {
    numbers: Places<Counting>,
    rt: H,
    ends: Vec<SqueueEnd<X::Parcel>>,
    shared: X,
    first: Known<Vec<SqueueEnd<X::Parcel>>>,
    ghost many: { length ends.items ≡ size_of numbers },
    ghost same: { SameLanes first.value.items ends.items },
}

impl<X: Shared + Drop, H: Wait + Drop> Shard<X, H> {
    ghost use Rattle.placed_parts.specs.Standing.{all_new};
    ghost use Rattle.rtrb.specs.Ring.{ConsumerLooked, ProducerLooked, received, sent};
    ghost use Rattle.shards.specs.Merging.{GaveBack, HasAll, IsLaneAt, IsMerged};
    ghost use Rattle.shards.specs.Numbering.{ring_limits};
    ghost use Rattle.shards.specs.Sharing.{StandsFor, ends_of, first_ends, limits_for, origin_of, rings_of, shared_of};

    /// All rings are here, one for each lane, and nothing came by any. After an error all is dropped.
    pub fn of(
        alloc: Global,
        rt: H,
        shared: X,
        ends: Vec<SqueueEnd<X::Parcel>>,
    ) -> Result<Shard<X, H>, AllocError>
        requires few { length ends.items < 2 ^ 32 }
        requires new { AreUnused ends.items }
        requires made { X.is_made [] shared }
        ensures stands { IfOk result (λ r. StandsFor r (all_new (length ends.items))) }
        ensures rings { IfOk result (λ r. rings_of r ≡ length ends.items) }
        ensures limits { IfOk result (λ r. limits_for r ≡ ring_limits (length ends.items)) }
        ensures shared { IfOk result (λ r. shared_of r ≡ shared) }
        ensures ends { IfOk result (λ r. ends_of r ≡ ends.items) }
        ensures first { IfOk result (λ r. first_ends r ≡ ends) }
    {
        let count = ends.len() as u32;
        let numbers = Places::make(
            alloc,
            Counting {
                count,
                calls: Vec::new(alloc),
            },
            count,
        )?;
        let first = Known::of(&ends);
        Ok(Shard {
            numbers,
            rt,
            ends,
            shared,
            first,
        })
    }

    /// What the rings share.
    pub fn shared(&self) -> &X
        ensures { result.now ≡ shared_of self.now }
    {
        &self.shared
    }

    /// Takes all parcels of ring `p` that were pushed and not popped yet, and gives them back, where the ring's ends of the lane are at hand. It
    /// isn't for a ring with feeds on their way, which would wait for parcels that are taken.
    pub fn take_rest(&mut self, alloc: Global, p: u32, ring: &mut RingEnd<X::Parcel>)
        requires range { p < rings_of self.old }
        requires lane { IsLaneAt (ends_of self.old) p ring.old }
        ensures all { HasAll (ends_of self.new) p (sent ring.old.output) }
        ensures others { (q : ℕ) → q ≢ p → slice_get (ends_of self.new) q ≡ slice_get (ends_of self.old) q }
        ensures rings { rings_of self.new ≡ rings_of self.old }
        ensures origin { origin_of self.new ≡ origin_of self.old }
        ensures merged { IsMerged X.is_made (ends_of self.old) (shared_of self.old) → IsMerged X.is_made (ends_of self.new) (shared_of self.new) }
        ensures output { ProducerLooked ring.old.output ring.new.output }
        ensures back { ConsumerLooked ring.old.back ring.new.back }
        ensures front { GaveBack (ends_of self.new) p (received ring.old.back) }
    {
        take_all(
            &self.rt,
            alloc,
            &mut self.shared,
            &mut self.ends[p as usize],
            ring,
            p,
        );
    }

    /// What the rings shared, and the lanes' ends, where the resident is no more.
    pub fn into_parts(self) -> (X, Vec<SqueueEnd<X::Parcel>>)
        ensures shared { result.0 ≡ shared_of self }
        ensures ends { result.1.items ≡ ends_of self }
    {
        (self.shared, self.ends)
    }
}

impl<X: Shared + Drop, H: Wait + Drop> Resident for Shard<X, H> {
    ghost use Rattle.perimeter_core.specs.declared.entries.Entry.TheVariants as Entry';
    ghost use Rattle.perimeter_core.specs.Blocks.{Blocks, with_feeds};
    ghost use Rattle.perimeter_core.specs.Deeds.{fed};
    ghost use Rattle.perimeter_core.specs.Residing.{HadFeeds};
    ghost use Rattle.std.proofs.Common.{sym, ◌∙◌};
    ghost use Rattle.placed_parts.specs.Standing.{InOrder};
    ghost use Rattle.placed_parts.specs.PlaceLaws.{part_same, places_in_range, places_within, places_same_feeds};
    ghost use Rattle.shards.specs.Numbering.{had_of};
    ghost use Rattle.shards.specs.Merging.{TakesOne};
    ghost use Rattle.shards.specs.Sharing.{StandsFor, ends_of, limits_for, origin_of, rings_of, shared_of};

    type Part = Counted;

    type Origin = (X::Origin, Vec<SqueueEnd<X::Parcel>>);

    ghost stands = { StandsFor };

    ghost part_stands = { InOrder (λ p acts. fed acts ≡ had_of p) };

    ghost limits = { limits_for };

    ghost size = { rings_of };

    ghost origin = { origin_of };

    ghost is_part_of = { λ _ _ _. Unit {0} };

    fn conns(&self) -> u32 {
        self.numbers.conns()
    }

    fn is_here(&self, c: u32) -> bool {
        self.numbers.is_here(c)
    }

    /// Has what is shared take the next parcel of ring `c`, and gives it back. It waits for it.
    fn feed(&mut self, alloc: Global, c: u32, n: u32)
        requires range { c < rings_of self.old }
        requires next { HadFeeds (StandsFor self.old) c n }
        requires limit { n < slice_index (limits_for self.old).feeds c }
        ensures stands { (blocks : Blocks) → StandsFor self.old blocks → StandsFor self.new (with_feeds (Entry'.Feed c n ∷ []) blocks) }
        ensures limits { limits_for self.new ≡ limits_for self.old }
        ensures size { rings_of self.new ≡ rings_of self.old }
        ensures origin { origin_of self.new ≡ origin_of self.old }
        ensures one { TakesOne X.is_made c (ends_of self.old) (ends_of self.new) (shared_of self.old) (shared_of self.new) }
    {
        self.numbers.feed(alloc, c, n);
        take_next(
            &self.rt,
            alloc,
            &mut self.shared,
            &mut self.ends[c as usize],
            c,
        );
    }

    fn call(&mut self, alloc: Global, c: u32, j: u32, k: u32) {
        self.numbers.call(alloc, c, j, k);
    }

    fn take_out(&mut self, c: u32) -> Counted {
        self.numbers.take_out(c)
    }

    fn put_in(&mut self, c: u32, part: Counted) {
        self.numbers.put_in(c, part);
    }

    ghost in_range = { λ r blocks c had h e. places_in_range r.numbers blocks c had h.0 e };

    ghost limits_in_range = { λ r. places_within r.numbers };

    ghost same_part_feeds = { part_same (λ p acts. fed acts ≡ had_of p) (λ k a b x y. x ∙ sym y) };

    ghost same_feeds = { λ r a b c h j. places_same_feeds (λ k a b x y. x ∙ sym y) r.numbers a b c h.0 j.0 };
}
