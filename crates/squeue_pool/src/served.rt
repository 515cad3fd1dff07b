//! Parts that were served by key.
ghost use Rattle.std.specs.Prelude.{◌≡◌, ◌<◌, ◌≤◌, ◌^◌, length};

use crate::work::Left;
use placed_parts::{Parts, Places};

/// The part of each connection, after all its feeds.
#[derive(Drop)]
pub struct ServedParts<S: Parts> {
    pub(crate) shared: S,
    pub(crate) counts: Vec<u32>,
    pub(crate) left: Vec<Left<Places<S>>>,
    ghost few: { length counts.items < 2 ^ 32 },
    ghost some: { 1 ≤ length left.items },
}

impl<S: Parts> ServedParts<S> {
    ghost use Rattle.std.specs.Prelude.{slice_index};
    ghost use Rattle.placed_parts.specs.Standing.{HasFed};
    ghost use Rattle.squeue_pool.specs.ServedParts.{IsServed, counts_of, shared_of};

    /// How many connections there are.
    pub fn count(&self) -> u32
        ensures { result ≡ length (counts_of self.now) }
    {
        self.counts.len() as u32
    }

    /// The part of connection `c`: it is its own, and has had all its feeds.
    pub fn part(&self, c: u32) -> &S::Part
        requires served { IsServed self.now }
        requires range { c < length (counts_of self.now) }
        ensures own { S.is_part_of (S.origin (shared_of self.now)) c result.now }
        ensures fed { HasFed (S.part_stands result.now) (slice_index (counts_of self.now) c) }
    {
        let q = c as usize % self.left.len();
        match self.left[q].resident.part(c) {
            Some(part) => part,
            None => unreachable!(),
        }
    }
}
