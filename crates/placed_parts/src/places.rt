//! A place for the part of each connection.
ghost use Rattle.std.specs.Prelude.{◌≡◌, ◌<◌, ◌^◌, IfOk, IfSome, IsSome, Some, List, length, option_map};
ghost use Rattle.perimeter_core.specs.Residing.{IsWithin};

use crate::parts::Parts;
use perimeter_core::Resident;
use std::alloc::{AllocError, Global};

/// A place for the part of each connection, empty where the connection isn't here, and what all parts share.
///
/// # Example
///
/// ```
/// let mut counters = new_counters(alloc, &rows, readings)?;
/// assert_eq!(rt; counters.conns(), 2);
/// counters.feed(alloc, 0, 0);
/// ...
/// let part = counters.take_out(0);
/// assert_eq!(rt; (counters.is_here(0), counters.is_here(1)), (false, true));
/// ...
/// counters.put_in(0, part);
/// ```
#[derive(Drop)]
pub struct Places<S: Parts> {
    shared: S,
    places: Vec<Option<S::Part>>,
    ghost few: { length places.items < 2 ^ 32 },
    ghost rows: { length (S.limits shared).feeds ≡ length places.items },
    ghost within: { IsWithin (length places.items) (S.limits shared) },
}

impl<S: Parts> Places<S> {
    ghost use Rattle.perimeter_core.specs.declared.entries.Act.{Act};
    ghost use Rattle.perimeter_core.specs.Blocks.{Blocks, fresh, none_done};
    ghost use Rattle.placed_parts.specs.Standing.{InOrder, OwnPart, PlaceAt, all_new};
    ghost use Rattle.placed_parts.specs.Placing.{Stands, IsItsPart, shared_of, size_of, parts_of, part_at};

    /// All connections, so many, are here, and nothing was done to them. The limits of what is shared have a number of feeds for
    /// each connection. After an error all is dropped.
    pub fn make(alloc: Global, shared: S, count: u32) -> Result<Places<S>, AllocError>
    where
        S: Drop,
        requires rows { length (S.limits shared).feeds ≡ count }
        requires within { IsWithin count (S.limits shared) }
        ensures stands { IfOk result (λ r. Stands r (all_new count)) }
        ensures count { IfOk result (λ r. size_of r ≡ count) }
        ensures shared { IfOk result (λ r. shared_of r ≡ shared) }
    {
        let mut starts = Vec::with_capacity(alloc, count as usize)?;
        for _c in 0..count {
            starts.push_reserved(true);
        }
        Places::make_where(alloc, shared, &starts)
    }

    /// The connections that the flags name are here, and nothing was done to them. Else it is as `make`.
    pub fn make_where(alloc: Global, shared: S, starts: &[bool]) -> Result<Places<S>, AllocError>
    where
        S: Drop,
        requires few { length starts.now < 2 ^ 32 }
        requires rows { length (S.limits shared).feeds ≡ length starts.now }
        requires within { IsWithin (length starts.now) (S.limits shared) }
        ensures stands { IfOk result (λ r. Stands r (none_done starts.now)) }
        ensures count { IfOk result (λ r. size_of r ≡ length starts.now) }
        ensures shared { IfOk result (λ r. shared_of r ≡ shared) }
    {
        let mut places = Vec::with_capacity(alloc, starts.len())?;
        for (c, here) in starts.iter().enumerate() {
            let place = Self::first(alloc, &shared, c as u32, *here)?;
            places.push_reserved(place);
        }
        Ok(Places { shared, places })
    }

    // What is at the connection's place, if it is here, with nothing done to it.
    fn first(alloc: Global, shared: &S, c: u32, here: bool) -> Result<Option<S::Part>, AllocError>
        requires { c < length (S.limits shared.now).feeds }
        ensures { IfOk result (λ place. PlaceAt (OwnPart (S.is_part_of (S.origin shared.now)) (InOrder S.part_stands)) c (Some place) (fresh here)) }
    {
        if here {
            Ok(Some(shared.fresh(alloc, c)?))
        } else {
            Ok(None)
        }
    }

    /// What all parts share.
    pub fn shared(&self) -> &S
        ensures { result.now ≡ shared_of self.now }
    {
        &self.shared
    }

    /// The part of the connection, if it is here.
    pub fn part(&self, c: u32) -> Option<&S::Part>
        requires { c < size_of self.now }
        ensures place { option_map (λ part. part.now) result ≡ part_at self.now c }
        ensures here { (blocks : Blocks) (had : List Act) → Stands self.now blocks → blocks c ≡ Some had → IsSome result }
        ensures stands { IfSome result (λ part. IsItsPart self.now c part.now) }
    {
        self.places[c as usize].as_ref()
    }

    /// The place of each connection, by its number.
    pub fn parts(&self) -> &[Option<S::Part>]
        ensures { result.now ≡ parts_of self.now }
    {
        self.places.as_slice()
    }
}

impl<S: Parts> Resident for Places<S> {
    ghost use Rattle.placed_parts.specs.Standing.{InOrder};
    ghost use Rattle.placed_parts.specs.Placing.{Stands, limits_of, size_of, origin_of};
    ghost use Rattle.placed_parts.specs.PlaceLaws.{part_same, places_in_range, places_within, places_same_feeds};

    type Part = S::Part;

    type Origin = S::Origin;

    ghost stands = { Stands };

    ghost part_stands = { InOrder S.part_stands };

    ghost limits = { limits_of };

    ghost size = { size_of };

    ghost origin = { origin_of };

    ghost is_part_of = { S.is_part_of };

    fn conns(&self) -> u32 {
        self.places.len() as u32
    }

    fn is_here(&self, c: u32) -> bool {
        self.places[c as usize].is_some()
    }

    fn feed(&mut self, alloc: Global, c: u32, n: u32) {
        if let Some(part) = &mut self.places[c as usize] {
            self.shared.feed(alloc, part, c, n);
        }
    }

    fn call(&mut self, alloc: Global, c: u32, j: u32, k: u32) {
        if let Some(part) = &mut self.places[c as usize] {
            self.shared.call(alloc, part, c, j, k);
        }
    }

    fn take_out(&mut self, c: u32) -> S::Part {
        match self.places[c as usize].take() {
            Some(part) => part,
            None => unreachable!(),
        }
    }

    fn put_in(&mut self, c: u32, part: S::Part) {
        self.places[c as usize] = Some(part);
    }

    ghost in_range = { places_in_range };

    ghost limits_in_range = { places_within };

    ghost same_part_feeds = { part_same S.part_stands S.same_count };

    ghost same_feeds = { places_same_feeds S.same_count };
}
