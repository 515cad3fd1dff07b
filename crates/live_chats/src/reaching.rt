//! How the time comes to all connections of a table at once: it is pushed at the places of all seats, in their order, entered as one chain
//! for as many feeds as are entered at once, and settled once. Between two calls of a table nothing is pushed, so each place has room.

ghost use Rattle.std.specs.Prelude.{◌≡◌, ◌≢◌, ℕ, ◌+◌, ◌++◌, ◌∷◌, ◌<◌, ◌≤◌, [], true, false, length, map, take, slice_get, vec_capacity};
ghost use Rattle.std.specs.Prelude.{None, Some, IfNone, IfSome};
ghost use Rattle.std.specs.List.{flat_map};
ghost use Rattle.std.specs.Map.{keys_of};
ghost use Rattle.turn_gate.specs.History.{Begins as Grows};
ghost use Rattle.turn_gate.specs.Passes.{number, seen};
ghost use Rattle.placed_parts.specs.Placing.{limits_of, origin_of};
ghost use Rattle.sq_base.specs.declared.kinds.Tuple.{Tuple};
ghost use Rattle.tcb_machine.specs.Limits.{last_time};
ghost use Rattle.indexmap.specs.IndexMap.{set_value_at};
ghost use Rattle.stream_stays.specs.Places.{IsOpen, Knows, life_of, touched_of};
ghost use Rattle.live_server.specs.Acts.{sent_by, ticked};
ghost use Rattle.live_server.specs.Table.{all_reached};
ghost use Rattle.live_server.specs.Told.Told.{hears};
ghost use Rattle.live_server.specs.Written.{HasSent};
ghost use Rattle.live_chats.specs.Accounts.{SeatsWereTold};
ghost use Rattle.live_chats.specs.Seating.{AreTold, HasHeardSeats, HasSeats, IsSettled, KeptBut, Spoils, all_learnt, conn_of_seat};
ghost use Rattle.live_chats.specs.Seating.{conns_of, left_at, places_in};
ghost use Rattle.live_chats.specs.Telling.{IsFirst, Tells};
ghost use Rattle.live_chats.specs.declared.seat.Seat.{Seat};

use crate::chat::Chat;
use crate::chats::Chats;
use crate::ear::Heard;
use crate::item::ChatItem;
use crate::line::Line;
use crate::renewing::renew_all;
use crate::seats::{Table, close_seat, learn, seat_at};
use live_server::{Datagram, Measures};
use placed_parts::Places;
use squeue_state::Pass;
use squeue_streams::Streams;
use std::alloc::Global;
use std::collections::VecDeque;
use std::sync::Wait;
use stream_stays::Stays;

/// The time comes to each connection, which does what is asked of all, and what they send goes out in the order of
/// their seats. It answers whether it came to all. Else memory was missing: the connections of which nothing was heard leave.
pub(crate) fn reach_each<H: Wait + Drop, W: Wait>(
    line: &Line<'_, Places<Streams<Chats, H>>, W>,
    alloc: Global,
    pass: Pass,
    stays: &mut Stays<ChatItem, Chat>,
    seats: &mut Table,
    free: &mut VecDeque<u32>,
    measures: Measures,
    now: u64,
    out: &mut Vec<Datagram>,
) -> (Pass, bool)
    requires seats { HasSeats limits_of line.now.squeue.now (origin_of line.now.squeue.now.given.first) pass stays.old seats.old.entries }
    requires time { now ≤ last_time }
    ensures seats { HasSeats limits_of line.now.squeue.now (origin_of line.now.squeue.now.given.first) result.0 stays.new seats.new.entries }
    ensures number { number result.0 ≡ number pass }
    ensures table { result.1 ≡ true → conns_of stays.new seats.new.entries ≡ all_reached measures now (conns_of stays.old seats.old.entries) }
    ensures sent { result.1 ≡ true → out.new.items ≡ out.old.items ++ flat_map (λ c. sent_by c.0 (ticked measures now c.1)) (conns_of stays.old seats.old.entries) }
    ensures told { result.1 ≡ true
        → SeatsWereTold limits_of line.now.squeue.now pass result.0 stays.old stays.new seats.old.entries
        seats.new.entries (map hears (keys_of seats.old.entries)) }
    ensures lost { result.1 ≡ false → Spoils measures now (conns_of stays.old seats.old.entries) (conns_of stays.new seats.new.entries) }
    ensures wrote { result.1 ≡ false
        → HasSent out.old.items out.new.items (flat_map (λ c. sent_by c.0 (ticked measures now c.1)) (conns_of stays.old seats.old.entries)) }
{
    let pass = renew_all(line, alloc, pass, stays, seats);
    reach_now(line, alloc, pass, stays, seats, free, measures, now, out)
}

/// The same in the stays that they have.
fn reach_now<H: Wait + Drop, W: Wait>(
    line: &Line<'_, Places<Streams<Chats, H>>, W>,
    alloc: Global,
    pass: Pass,
    stays: &mut Stays<ChatItem, Chat>,
    seats: &mut Table,
    free: &mut VecDeque<u32>,
    measures: Measures,
    now: u64,
    out: &mut Vec<Datagram>,
) -> (Pass, bool)
    requires seats { HasSeats limits_of line.now.squeue.now (origin_of line.now.squeue.now.given.first) pass stays.old seats.old.entries }
    requires time { now ≤ last_time }
    ensures seats { HasSeats limits_of line.now.squeue.now (origin_of line.now.squeue.now.given.first) result.0 stays.new seats.new.entries }
    ensures number { number result.0 ≡ number pass }
    ensures table { result.1 ≡ true → conns_of stays.new seats.new.entries ≡ all_reached measures now (conns_of stays.old seats.old.entries) }
    ensures sent { result.1 ≡ true → out.new.items ≡ out.old.items ++ flat_map (λ c. sent_by c.0 (ticked measures now c.1)) (conns_of stays.old seats.old.entries) }
    ensures told { result.1 ≡ true
        → SeatsWereTold limits_of line.now.squeue.now pass result.0 stays.old stays.new seats.old.entries
        seats.new.entries (map hears (keys_of seats.old.entries)) }
    ensures lost { result.1 ≡ false → Spoils measures now (conns_of stays.old seats.old.entries) (conns_of stays.new seats.new.entries) }
    ensures wrote { result.1 ≡ false
        → HasSent out.old.items out.new.items (flat_map (λ c. sent_by c.0 (ticked measures now c.1)) (conns_of stays.old seats.old.entries)) }
{
    if seats.is_empty() {
        return (pass, true);
    }
    if stays.life().asks <= seats.len() as u64 {
        return (pass, false);
    }
    let Ok(room) = Vec::with_capacity(alloc, seats.len()) else {
        return (pass, false);
    };
    let (pass, _told) = tell_all(line, alloc, pass, stays, seats, measures, now);
    let (pass, mut heard) = line.listen(alloc, pass, stays, room, out);
    mark_next(&mut heard, seats.len());
    learn_all(seats, heard.as_slice());
    let all = all_heard(heard.as_slice());
    if all {
        return (pass, true);
    }
    let pass = drop_unheard(line, alloc, pass, stays, seats, free, heard.as_slice());
    (pass, false)
}

/// The time is told at each seat in turn, up to one whose place takes nothing. It answers at how many it was told.
fn tell_all<H: Wait + Drop, W: Wait>(
    line: &Line<'_, Places<Streams<Chats, H>>, W>,
    alloc: Global,
    pass: Pass,
    stays: &mut Stays<ChatItem, Chat>,
    seats: &Table,
    measures: Measures,
    now: u64,
) -> (Pass, usize)
    requires { HasSeats limits_of line.now.squeue.now (origin_of line.now.squeue.now.given.first) pass stays.old seats.now.entries }
    ensures knows { Knows IsFirst Tells limits_of line.now.squeue.now (origin_of line.now.squeue.now.given.first) result.0 stays.new }
    ensures number { number result.0 ≡ number pass }
    ensures count { result.1 ≤ length seats.now.entries }
    ensures grows { Grows (seen pass) (seen result.0) }
    ensures told { AreTold measures now result.1 stays.old stays.new seats.now.entries }
    ensures touched { touched_of stays.new ≡ places_in (take result.1 seats.now.entries) }
    ensures asks { (life_of stays.new).asks ≡ (life_of stays.old).asks }
{
    let mut pass = pass;
    for i in 0..seats.len() {
        let seat = seat_at(seats, i);
        let item = ChatItem::Time { measures, now };
        let (next, taken) = line.push(alloc, pass, stays, seat.place, item);
        pass = next;
        if !taken {
            return (pass, i);
        }
    }
    (pass, seats.len())
}

/// Where fewer were told than there are seats, nothing is heard of the next one, which took nothing.
fn mark_next(heard: &mut Vec<Option<Heard>>, seats: usize)
    requires { seats ≤ vec_capacity heard.old }
    ensures next { length heard.old.items < seats → heard.new.items ≡ heard.old.items ++ None ∷ [] }
    ensures all { seats ≤ length heard.old.items → heard.new.items ≡ heard.old.items }
{
    if heard.len() < seats {
        heard.push_reserved(None);
    }
}

/// Whether something was heard of each.
fn all_heard(heard: &[Option<Heard>]) -> bool
    ensures { result ≡ true → (k : ℕ) → slice_get heard.now k ≢ Some None }
{
    for one in heard {
        if one.is_none() {
            return false;
        }
    }
    true
}

/// Each of the first seats learns what was heard of its connection.
fn learn_all(seats: &mut Table, heard: &[Option<Heard>])
    requires { length heard.now ≤ length seats.old.entries }
    ensures { seats.new.entries ≡ all_learnt heard.now seats.old.entries }
{
    for i in 0..heard.len() {
        let one = heard_at(heard, i);
        learn_one(seats, i, one);
    }
}

fn heard_at(heard: &[Option<Heard>], i: usize) -> Option<Heard>
    requires { i < length heard.now }
    ensures { slice_get heard.now i ≡ Some result }
{
    heard[i]
}

fn learn_one(seats: &mut Table, i: usize, heard: Option<Heard>)
    requires { i < length seats.old.entries }
    ensures some { IfSome heard (λ h. (t : Tuple) (seat : Seat) → slice_get seats.old.entries i ≡ Some (t, seat)
        → seats.new.entries ≡ set_value_at seats.old.entries i (record seat { facts = h.facts })) }
    ensures none { IfNone heard (seats.new.entries ≡ seats.old.entries) }
{
    if let Some(heard) = heard {
        learn(seats, i, heard.facts);
    }
}

/// The connections of the first seats leave of which nothing was heard, the last one first.
fn drop_unheard<H: Wait + Drop, W: Wait>(
    line: &Line<'_, Places<Streams<Chats, H>>, W>,
    alloc: Global,
    pass: Pass,
    stays: &mut Stays<ChatItem, Chat>,
    seats: &mut Table,
    free: &mut VecDeque<u32>,
    heard: &[Option<Heard>],
) -> Pass
    requires seats { HasHeardSeats limits_of line.now.squeue.now (origin_of line.now.squeue.now.given.first) heard.now (length heard.now)
        pass stays.old seats.old.entries }
    requires count { length heard.now ≤ length seats.old.entries }
    ensures seats { HasSeats limits_of line.now.squeue.now (origin_of line.now.squeue.now.given.first) result stays.new seats.new.entries }
    ensures number { number result ≡ number pass }
    ensures were { (k : ℕ) (e : Tuple × Seat) → slice_get seats.new.entries k ≡ Some e
        → (j : ℕ) × (f : Tuple × Seat) × (slice_get seats.old.entries j ≡ Some f) × (conn_of_seat stays.new e ≡ conn_of_seat stays.old f) }
{
    let mut pass = pass;
    for n in 0..heard.len() {
        let i = heard.len() - 1 - n;
        let one = heard_at(heard, i);
        pass = drop_one(line, alloc, pass, stays, seats, free, i, one);
    }
    pass
}

/// The connection of a seat leaves, where nothing was heard of it.
fn drop_one<H: Wait + Drop, W: Wait>(
    line: &Line<'_, Places<Streams<Chats, H>>, W>,
    alloc: Global,
    pass: Pass,
    stays: &mut Stays<ChatItem, Chat>,
    seats: &mut Table,
    free: &mut VecDeque<u32>,
    i: usize,
    heard: Option<Heard>,
) -> Pass
    requires settled { IsSettled limits_of line.now.squeue.now (origin_of line.now.squeue.now.given.first) pass stays.old }
    requires range { i < length seats.old.entries }
    requires place { (e : Tuple × Seat) → slice_get seats.old.entries i ≡ Some e → IsOpen stays.old e.1.place }
    requires asks { 1 ≤ (life_of stays.old).asks }
    ensures settled { IsSettled limits_of line.now.squeue.now (origin_of line.now.squeue.now.given.first) result stays.new }
    ensures number { number result ≡ number pass }
    ensures stays { IfSome heard (λ _. (stays.new ≡ stays.old) × (seats.new.entries ≡ seats.old.entries)) }
    ensures leaves { IfNone heard (((e : Tuple × Seat) → slice_get seats.old.entries i ≡ Some e → KeptBut e.1.place stays.old stays.new)
        × (seats.new.entries ≡ left_at i seats.old.entries) × ((life_of stays.old).asks ≤ (life_of stays.new).asks + 1)) }
{
    match heard {
        Some(_) => pass,
        None => close_seat(line, alloc, pass, stays, seats, free, i),
    }
}
