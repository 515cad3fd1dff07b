//! How the places of a squeue are made, dealt to its rings, and given to the squeue.
//!
//! A squeue has so many places for each of its rings, and place c is that of ring c modulo rings. A place is made with a one-producer ring,
//! both ends of which lie at it as long as its part is at no squeue. Each ring gets all places of the squeue, by number, of which those of
//! other rings are out; and its pass has a life that no run uses up.

ghost use Rattle.std.specs.Prelude.{◌≡◌, ◌≢◌, ◌+◌, ◌%◌, ◌<◌, ◌≤◌, ◌^◌, ℕ, Some, All, IfOk, length, replicate, slice_get};
ghost use Rattle.turn_gate.specs.Passes.{AreFresh};
ghost use Rattle.histories.specs.Elements.{number_of};
ghost use Rattle.placed_parts.specs.Placing.{Stands, limits_of, origin_of, size_of};
ghost use Rattle.placed_parts.specs.Standing.{all_new};
ghost use Rattle.squeue_state.specs.Behind.{ever};
ghost use Rattle.squeue_streams.specs.Taking.{most_feeds, most_leaves, state_of};
ghost use Rattle.squeue_arrivals.specs.Seating.{AreNewPairs, AreNewPlaces, AreOwnStays, ServesPlaces, lives_of, lookers_of, room_of};

use crate::steps::{KeySteps, Keyed};
use perimeter_core::Resident;
use placed_parts::Places;
use rtrb::{Producer, RingBuffer};
use squeue_state::{Life, Pass, Squeue};
use squeue_streams::{Stream, Streams};
use std::alloc::{AllocError, Global};
use std::mem::replace;
use std::sync::Wait;
use stream_stays::{Place, Stays, Vacant};

/// The parts of a squeue's rings, each at its place.
pub(crate) type KeyParts<X, H> = Places<Streams<Keyed<X>, H>>;

// How many items a place's ring has room for, and how many feeds a ring enters at once, where the squeue has room
// for them.
const CAPACITY: usize = 64;

const AT_ONCE: usize = 256;

// After how many items a ring settles its places at the latest.
const UNSETTLED: usize = 4_096;

// How often a place may be left.
const LEAVES: u64 = 1 << 52;

// What is left of a ring's pass at first: so many feeds it may enter, and so often it may ask.
const LIFE: Life = Life {
    feeds: 1 << 52,
    asks: 1 << 52,
};

// The same of the pass of who looks.
const LOOKS: Life = Life {
    feeds: 0,
    asks: 1 << 32,
};

/// The two ends of so many places' rings: those that push, and the parts, by number, in which no key was yet. Fails only for want of
/// memory.
pub(crate) fn new_pairs<X: KeySteps>(
    alloc: Global,
    steps: &X,
    count: u32,
) -> Result<(Vec<Producer<X::Item>>, Vec<Stream<X::Item, X::State>>), AllocError>
    ensures pairs { IfOk result (λ r. AreNewPairs count r.0.items r.1.items) }
    ensures begun { IfOk result (λ r. All (λ s. X.begins steps.now (state_of s)) r.1.items) }
{
    let mut producers = Vec::with_capacity(alloc, count as usize)?;
    let mut parts = Vec::with_capacity(alloc, count as usize)?;
    for _c in 0..count {
        let (producer, input) = RingBuffer::new(alloc, CAPACITY)?;
        let state = steps.begin(alloc)?;
        producers.push_reserved(producer);
        parts.push_reserved(Stream::of(input, state));
    }
    Ok((producers, parts))
}

/// The places with these rings, by number, none of whose parts was ever at a squeue. Fails only for want of memory.
pub(crate) fn new_places<T: Drop, S: Drop>(
    alloc: Global,
    count: u32,
    producers: Vec<Producer<T>>,
    parts: Vec<Stream<T, S>>,
) -> Result<Vec<Place<T, S>>, AllocError>
    requires { AreNewPairs count producers.items parts.items }
    ensures { IfOk result (λ v. AreNewPlaces parts.items v.items) }
{
    let mut producers = producers;
    let mut parts = parts;
    let mut places = Vec::with_capacity(alloc, count as usize)?;
    producers.reverse();
    parts.reverse();
    for stream in 0..count {
        let Some(producer) = producers.pop() else {
            unreachable!()
        };
        let Some(part) = parts.pop() else {
            unreachable!()
        };
        places.push_reserved(Place::Vacant(Vacant {
            producer,
            part,
            stream,
            leaves: LEAVES,
        }));
    }
    Ok(places)
}

/// What a ring's pass begins with at a squeue that has room for so many feeds: of these places those that are the ring's, each at its number, and a whole
/// life. What is taken is left out. Fails only for want of memory.
pub(crate) fn own_stays<T: Drop, S: Drop>(
    alloc: Global,
    rings: u32,
    ring: u32,
    room: u32,
    places: &mut Vec<Place<T, S>>,
) -> Result<Stays<T, S>, AllocError>
    requires { (1 ≤ rings) × (1 ≤ room) }
    ensures own { IfOk result (λ r. AreOwnStays rings ring room places.old.items r) }
    ensures others { (c : ℕ) → c % rings ≢ ring → slice_get places.new.items c ≡ slice_get places.old.items c }
    ensures count { length places.new.items ≡ length places.old.items }
{
    let count = places.len();
    let chain = Vec::with_capacity(alloc, AT_ONCE.min(room as usize))?;
    let touched = Vec::with_capacity(alloc, UNSETTLED)?;
    let mut own = Vec::with_capacity(alloc, count)?;
    for c in 0..count {
        own.push_reserved(take_for(rings, ring, places, c));
    }
    Ok(Stays::of(own, LIFE, chain, touched))
}

// What is at a place for this ring. It is out there then, where it is this ring's.
fn take_for<T: Drop, S: Drop>(
    rings: u32,
    ring: u32,
    places: &mut Vec<Place<T, S>>,
    c: usize,
) -> Place<T, S>
    requires rings { 1 ≤ rings }
    requires range { c < length places.old.items }
    ensures own { c % rings ≡ ring → slice_get places.old.items c ≡ Some result }
    ensures out { c % rings ≢ ring → (result ≡ Place.Out) × (places.new.items ≡ places.old.items) }
    ensures others { (d : ℕ) → d ≢ c → slice_get places.new.items d ≡ slice_get places.old.items d }
    ensures count { length places.new.items ≡ length places.old.items }
{
    if c % rings as usize == ring as usize {
        replace(&mut places[c], Place::Out)
    } else {
        Place::Out
    }
}

/// A resident with so many places, none of whose parts is here. Fails only for want of memory.
pub(crate) fn no_parts<'a, X: KeySteps + Drop, W: Wait>(
    alloc: Global,
    rt: &'a W,
    count: u32,
    keyed: Keyed<X>,
) -> Result<KeyParts<X, &'a W>, AllocError>
    ensures stands { IfOk result (λ r. Stands r (all_new 0)) }
    ensures count { IfOk result (λ r. size_of r ≡ count) }
    ensures feeds { IfOk result (λ r. (limits_of r).feeds ≡ replicate count most_feeds) }
    ensures leaves { IfOk result (λ r. (limits_of r).leaves ≡ replicate count most_leaves) }
    ensures origin { IfOk result (λ r. origin_of r ≡ keyed) }
{
    let mut none = Vec::with_capacity(alloc, count as usize)?;
    for _c in 0..count {
        none.push_reserved(false);
    }
    let shared = Streams::of(keyed, rt, count, Vec::new(alloc));
    Places::make_where(alloc, shared, &none)
}

// The lives of the passes: those of the rings, and where it is watched that of who looks.
fn lives(alloc: Global, rings: u32, watched: bool) -> Result<Vec<Life>, AllocError>
    ensures { IfOk result (λ v. ever v.items ≡ lives_of rings (lookers_of watched)) }
{
    let mut lives = Vec::with_capacity(alloc, rings as usize + 1)?;
    for _k in 0..rings {
        lives.push_reserved(LIFE);
    }
    if watched {
        lives.push_reserved(LOOKS);
    }
    Ok(lives)
}

/// A squeue of this number, of these places, with so many rings, and its passes: those of the rings, by number, that of who looks, where it is
/// watched, and the worker's. Fails only for want of memory.
pub(crate) fn new_squeue<R: Resident + Drop>(
    alloc: Global,
    number: u32,
    rings: u32,
    watched: bool,
    room: u32,
    parts: R,
) -> Result<(Squeue<R>, Vec<Pass>), AllocError>
    requires rings { (1 ≤ rings) × (rings + lookers_of watched ≤ 63) }
    requires room { (1 ≤ room) × (room ≤ 2 ^ 30) }
    requires new { R.stands parts (all_new 0) }
    requires feeds { (R.limits parts).feeds ≡ replicate (R.size parts) most_feeds }
    requires leaves { (R.limits parts).leaves ≡ replicate (R.size parts) most_leaves }
    ensures serves { IfOk result (λ r. ServesPlaces R.limits r.0.given rings (R.size parts)) }
    ensures lives { IfOk result (λ r. r.0.given.quotas ≡ lives_of rings (lookers_of watched)) }
    ensures room { IfOk result (λ r. room_of r.0.given ≡ room) }
    ensures first { IfOk result (λ r. r.0.given.first ≡ parts) }
    ensures passes { IfOk result (λ r. (length r.1.items ≡ length r.0.given.quotas + 1) × AreFresh number_of r.0.gate 0 r.1.items) }
{
    let all = lives(alloc, rings, watched)?;
    Squeue::make_bounded(alloc, number, parts, rings, &all, room)
}
