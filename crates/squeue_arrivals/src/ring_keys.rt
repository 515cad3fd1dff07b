//! The keys of a ring, by number: which of its places each has.
ghost use Rattle.std.specs.Prelude.{◌≡◌, ◌*◌, ◌^◌, ◌<◌, length};
ghost use Rattle.std.specs.HashSet.{IsUnique};

use indexmap::IndexSet;
use std::alloc::{AllocError, Global};

/// The keys that came to a ring, in the order in which they came first, each of which has the place of its number. The ring is `number` of
/// `rings`, and has `most` places.
#[derive(Drop)]
pub(crate) struct RingKeys {
    pub(crate) set: IndexSet<u64>,
    pub(crate) rings: u32,
    pub(crate) number: u32,
    pub(crate) most: u32,
    ghost fits: { (number < rings) × (rings * most < 2 ^ 32) },
}

impl RingKeys {
    ghost use Rattle.std.specs.Prelude.{nat_eq, ◌++◌, ◌∷◌, ◌+◌, ◌≤◌, [], Some, IfNone, IfOk, IfSome, Contains, slice_get};
    ghost use Rattle.std.specs.HashSet.{spare};
    ghost use Rattle.squeue_arrivals.specs.Placed.{IsWithoutKeys, SameRing, keys_in, most_in, place_of};

    /// No keys, and room for as many as the ring has places. Fails only for want of memory.
    pub(crate) fn none(
        alloc: Global,
        rings: u32,
        number: u32,
        most: u32,
    ) -> Result<RingKeys, AllocError>
        requires { (number < rings) × (rings * most < 2 ^ 32) }
        ensures { IfOk result (IsWithoutKeys rings number most) }
    {
        let set = IndexSet::with_capacity(alloc, most as usize)?;
        Ok(RingKeys {
            set,
            rings,
            number,
            most,
        })
    }

    /// The number of a key, where it came before.
    pub(crate) fn index_of(&self, key: u64) -> Option<usize>
        ensures found { IfSome result (λ i. (i < length (keys_in self.now)) × (slice_get (keys_in self.now) i ≡ Some key)) }
        ensures new { IfNone result (Contains (keys_in self.now) key → ⊥) }
    {
        self.set.get_index_of(&key)
    }

    /// How many keys came.
    pub(crate) fn len(&self) -> usize
        ensures { result ≡ length (keys_in self.now) }
    {
        self.set.len()
    }

    /// The key of a number.
    pub(crate) fn key(&self, i: usize) -> u64
        requires { i < length (keys_in self.now) }
        ensures { slice_get (keys_in self.now) i ≡ Some result }
    {
        let Some(key) = self.set.get_index(i) else {
            unreachable!()
        };
        *key
    }

    /// The place of a number.
    pub(crate) fn place(&self, i: usize) -> u32
        requires { i < most_in self.now }
        ensures { result ≡ place_of self.now i }
    {
        self.number + i as u32 * self.rings
    }

    /// A key that didn't come before gets the next number.
    pub(crate) fn add(&mut self, key: u64)
        requires new { Contains (keys_in self.old) key → ⊥ }
        requires room { 0 < spare self.old.set }
        requires unique { IsUnique nat_eq self.old.set }
        ensures keys { keys_in self.new ≡ keys_in self.old ++ key ∷ [] }
        ensures ring { SameRing self.old self.new }
        ensures room { spare self.old.set ≤ spare self.new.set + 1 }
        ensures unique { IsUnique nat_eq self.new.set }
    {
        let Ok(_) = self.set.insert(key) else {
            unreachable!()
        };
    }
}
