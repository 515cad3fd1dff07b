//! How the places of a squeue are made, dealt to its rings, and given to the squeue.
//!
//! A squeue has so many places for each of its rings, and place c is that of ring c modulo rings. A place is made with a one-producer ring,
//! both ends of which lie at it as long as its part is at no squeue. Each ring gets all places of the squeue, by number, of which those of
//! other rings are out; and its pass has a life that no run uses up.

ghost use Rattle.std.specs.Prelude.{◌≡◌, ◌≢◌, ◌+◌, ◌*◌, ◌%◌, ◌<◌, ◌≤◌, ◌^◌, ℕ, Some, IfOk, length, replicate, slice_get};
ghost use Rattle.turn_gate.specs.Passes.{AreFresh};
ghost use Rattle.histories.specs.Elements.{number_of};
ghost use Rattle.placed_parts.specs.Placing.{Stands, limits_of, origin_of, size_of};
ghost use Rattle.placed_parts.specs.Standing.{all_new};
ghost use Rattle.squeue_state.specs.Behind.{ever};
ghost use Rattle.squeue_streams.specs.Taking.{most_feeds, most_leaves};
ghost use Rattle.live_rings.specs.Seating.{AreNewPairs, AreNewPlaces, AreOwnStays, ServesPlaces, lives_of, numbers_of};

use live_chats::{Chat, ChatItem, Chats};
use perimeter_core::Resident;
use placed_parts::Places;
use rtrb::{Producer, RingBuffer};
use squeue_state::{Life, Pass, Squeue};
use squeue_streams::{Stream, Streams};
use std::alloc::{AllocError, Global};
use std::collections::VecDeque;
use std::mem::replace;
use std::sync::Wait;
use stream_stays::{Place, Stays, Vacant};

/// The chats of a squeue's rings, each at its place.
pub type Parts<H> = Places<Streams<Chats, H>>;

// How many items a place's ring has room for, and how many feeds a ring enters at once.
const CAPACITY: usize = 4;

const AT_ONCE: usize = 1_024;

// How many entries of each ring a squeue has room for.
const ROOM: u32 = 16_384;

// How often a place may be left.
const LEAVES: u64 = 1 << 52;

// What is left of a ring's pass at first: so many feeds it may enter, and so often it may ask.
const LIFE: Life = Life {
    feeds: 1 << 52,
    asks: 1 << 52,
};

/// The two ends of so many places' rings: those that push, and the parts, by number, in which nobody was yet. Fails only for want of
/// memory.
pub(crate) fn new_pairs(
    alloc: Global,
    count: u32,
) -> Result<(Vec<Producer<ChatItem>>, Vec<Stream<ChatItem, Chat>>), AllocError>
    ensures { IfOk result (λ r. AreNewPairs count r.0.items r.1.items) }
{
    let mut producers = Vec::with_capacity(alloc, count as usize)?;
    let mut parts = Vec::with_capacity(alloc, count as usize)?;
    for _c in 0..count {
        let (producer, input) = RingBuffer::new(alloc, CAPACITY)?;
        producers.push_reserved(producer);
        parts.push_reserved(Stream::of(input, Chat::new(alloc)));
    }
    Ok((producers, parts))
}

/// The places with these rings, by number, none of whose parts was ever at a squeue. Fails only for want of memory.
pub(crate) fn new_places(
    alloc: Global,
    count: u32,
    producers: Vec<Producer<ChatItem>>,
    parts: Vec<Stream<ChatItem, Chat>>,
) -> Result<Vec<Place<ChatItem, Chat>>, AllocError>
    requires { AreNewPairs count producers.items parts.items }
    ensures { IfOk result (λ v. AreNewPlaces parts.items v.items) }
{
    let mut producers = producers;
    let mut parts = parts;
    let mut places = Vec::with_capacity(alloc, count as usize)?;
    producers.reverse();
    parts.reverse();
    for stream in 0..count {
        let Some(producer) = producers.pop() else {
            unreachable!()
        };
        let Some(part) = parts.pop() else {
            unreachable!()
        };
        places.push_reserved(Place::Vacant(Vacant {
            producer,
            part,
            stream,
            leaves: LEAVES,
        }));
    }
    Ok(places)
}

/// What a ring's pass begins with: of these places those that are the ring's, each at its number, and a whole life. What is taken is
/// left out. Fails only for want of memory.
pub(crate) fn own_stays(
    alloc: Global,
    rings: u32,
    ring: u32,
    places: &mut Vec<Place<ChatItem, Chat>>,
) -> Result<Stays<ChatItem, Chat>, AllocError>
    requires { 1 ≤ rings }
    ensures own { IfOk result (λ r. AreOwnStays rings ring places.old.items r) }
    ensures others { (c : ℕ) → c % rings ≢ ring → slice_get places.new.items c ≡ slice_get places.old.items c }
    ensures count { length places.new.items ≡ length places.old.items }
{
    let count = places.len();
    let chain = Vec::with_capacity(alloc, AT_ONCE)?;
    let touched = Vec::with_capacity(alloc, count / rings as usize + 1)?;
    let mut own = Vec::with_capacity(alloc, count)?;
    for c in 0..count {
        own.push_reserved(take_for(rings, ring, places, c));
    }
    Ok(Stays::of(own, LIFE, chain, touched))
}

// What is at a place for this ring. It is out there then, where it is this ring's.
fn take_for(
    rings: u32,
    ring: u32,
    places: &mut Vec<Place<ChatItem, Chat>>,
    c: usize,
) -> Place<ChatItem, Chat>
    requires rings { 1 ≤ rings }
    requires range { c < length places.old.items }
    ensures own { c % rings ≡ ring → slice_get places.old.items c ≡ Some result }
    ensures out { c % rings ≢ ring → (result ≡ Place.Out) × (places.new.items ≡ places.old.items) }
    ensures others { (d : ℕ) → d ≢ c → slice_get places.new.items d ≡ slice_get places.old.items d }
    ensures count { length places.new.items ≡ length places.old.items }
{
    if c % rings as usize == ring as usize {
        replace(&mut places[c], Place::Out)
    } else {
        Place::Out
    }
}

/// The numbers of the places of a ring, which has so many. Fails only for want of memory.
pub(crate) fn own_numbers(
    alloc: Global,
    rings: u32,
    ring: u32,
    places: u32,
) -> Result<VecDeque<u32>, AllocError>
    requires { (ring < rings) × (rings * places < 2 ^ 32) }
    ensures { IfOk result (λ q. q.items ≡ numbers_of rings ring places) }
{
    let mut numbers = VecDeque::with_capacity(alloc, places as usize)?;
    for n in 0..places {
        numbers.push_back_reserved(ring + n * rings);
    }
    Ok(numbers)
}

/// A resident with so many places, none of whose parts is here. Fails only for want of memory.
pub(crate) fn no_parts<'a, W: Wait>(
    alloc: Global,
    rt: &'a W,
    count: u32,
    chats: Chats,
) -> Result<Parts<&'a W>, AllocError>
    ensures stands { IfOk result (λ r. Stands r (all_new 0)) }
    ensures count { IfOk result (λ r. size_of r ≡ count) }
    ensures feeds { IfOk result (λ r. (limits_of r).feeds ≡ replicate count most_feeds) }
    ensures leaves { IfOk result (λ r. (limits_of r).leaves ≡ replicate count most_leaves) }
    ensures origin { IfOk result (λ r. origin_of r ≡ chats) }
{
    let mut none = Vec::with_capacity(alloc, count as usize)?;
    for _c in 0..count {
        none.push_reserved(false);
    }
    let shared = Streams::of(chats, rt, count, Vec::new(alloc));
    Places::make_where(alloc, shared, &none)
}

// The lives of the rings' passes.
fn lives(alloc: Global, rings: u32) -> Result<Vec<Life>, AllocError>
    ensures { IfOk result (λ v. ever v.items ≡ lives_of rings) }
{
    let mut lives = Vec::with_capacity(alloc, rings as usize)?;
    for _k in 0..rings {
        lives.push_reserved(LIFE);
    }
    Ok(lives)
}

/// A squeue of these places with so many rings, and its passes: those of the rings, by number, and the worker's. Fails only for want of
/// memory.
pub(crate) fn new_squeue<R: Resident + Drop>(
    alloc: Global,
    rings: u32,
    parts: R,
) -> Result<(Squeue<R>, Vec<Pass>), AllocError>
    requires rings { (1 ≤ rings) × (rings ≤ 63) }
    requires new { R.stands parts (all_new 0) }
    requires feeds { (R.limits parts).feeds ≡ replicate (R.size parts) most_feeds }
    requires leaves { (R.limits parts).leaves ≡ replicate (R.size parts) most_leaves }
    ensures serves { IfOk result (λ r. ServesPlaces R.limits r.0.given rings (R.size parts)) }
    ensures first { IfOk result (λ r. r.0.given.first ≡ parts) }
    ensures passes { IfOk result (λ r. (length r.1.items ≡ length r.0.given.quotas + 1) × AreFresh number_of r.0.gate 0 r.1.items) }
{
    let all = lives(alloc, rings)?;
    Squeue::make_bounded(alloc, 0, parts, rings, &all, rings * ROOM)
}
