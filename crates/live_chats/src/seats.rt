//! A table of connections, each of which is a chat at a place of one pass.

ghost use Rattle.std.specs.Prelude.{◌≡◌, ◌++◌, ◌∷◌, [], ◌<◌, ◌≤◌, length, slice_get, Some, IfSome, IfNone, OnErr, OnOk, ◌+◌};
ghost use Rattle.turn_gate.specs.Passes.{number, seen};
ghost use Rattle.placed_parts.specs.Placing.{limits_of, origin_of};
ghost use Rattle.squeue_state.specs.Naming.{setting_of};
ghost use Rattle.sq_base.specs.declared.kinds.Tuple.{Tuple};
ghost use Rattle.indexmap.specs.IndexMap.{set_value_at};
ghost use Rattle.live_server.specs.Table.{without, IsNew};
ghost use Rattle.live_server.specs.Told.Told.{begins, hears};
ghost use Rattle.live_server.specs.Written.{HasSent};
ghost use Rattle.live_server.specs.declared.conn.Conn.{Conn};
ghost use Rattle.live_chats.specs.Accounts.{HasEndedStay, SeatsWereTold, pushed_at};
ghost use Rattle.live_chats.specs.Hearing.{hearing};
ghost use Rattle.live_chats.specs.Seating.{HasSeats, HasSeatsBut, HeardAt, Judges, KeepsEnds, MetAt, chat_of, conns_of, left_at, IsSettled, KeptBut};
ghost use Rattle.stream_stays.specs.Places.{IsOpen, life_of};
ghost use Rattle.live_chats.specs.declared.seat.Seat.{Seat};

use crate::chat::Chat;
use crate::chats::Chats;
use crate::ear::Heard;
use crate::item::ChatItem;
use crate::line::Line;
use crate::renewing::renew_at;
use crate::seat::Seat;
use indexmap::IndexMap;
use live_server::{Conn, Datagram, Facts, Met};
use placed_parts::Places;
use sq_base::Tuple;
use squeue_state::Pass;
use squeue_streams::Streams;
use std::alloc::{AllocError, Global};
use std::collections::VecDeque;
use std::sync::Wait;
use stream_stays::Stays;

/// Seats by the two ends of their connections, in order.
pub(crate) type Table = IndexMap<Tuple, Seat>;

/// The seat at a place of the table.
pub(crate) fn seat_at(seats: &Table, i: usize) -> Seat
    requires { i < length seats.now.entries }
    ensures { (t : Tuple) × (slice_get seats.now.entries i ≡ Some (t, result)) }
{
    let Some((_, seat)) = seats.get_index(i) else {
        unreachable!()
    };
    *seat
}

/// What a seat knows of its connection is learnt anew.
pub(crate) fn learn(seats: &mut Table, i: usize, facts: Facts)
    requires { i < length seats.old.entries }
    ensures { (t : Tuple) (seat : Seat) → slice_get seats.old.entries i ≡ Some (t, seat)
        → seats.new.entries ≡ set_value_at seats.old.entries i (record seat { facts = facts }) }
{
    let (_, seat) = seats.pair_mut(i);
    seat.facts = facts;
}

/// The seat at a place of the table goes; the last one takes its place there.
fn unseat(seats: &mut Table, i: usize)
    ensures { seats.new.entries ≡ left_at i seats.old.entries }
{
    seats.swap_remove_index(i);
}

/// The place of a seat is closed, and the seat goes; the last one takes its place in the table.
pub(crate) fn close_seat<H: Wait + Drop, W: Wait>(
    line: &Line<'_, Places<Streams<Chats, H>>, W>,
    alloc: Global,
    pass: Pass,
    stays: &mut Stays<ChatItem, Chat>,
    seats: &mut Table,
    free: &mut VecDeque<u32>,
    i: usize,
) -> Pass
    requires settled { IsSettled limits_of line.now.squeue.now (origin_of line.now.squeue.now.given.first) pass stays.old }
    requires range { i < length seats.old.entries }
    requires place { (e : Tuple × Seat) → slice_get seats.old.entries i ≡ Some e → IsOpen stays.old e.1.place }
    requires asks { 1 ≤ (life_of stays.old).asks }
    ensures settled { IsSettled limits_of line.now.squeue.now (origin_of line.now.squeue.now.given.first) result stays.new }
    ensures number { number result ≡ number pass }
    ensures seats { seats.new.entries ≡ left_at i seats.old.entries }
    ensures ended { (e : Tuple × Seat) → slice_get seats.old.entries i ≡ Some e
        → HasEndedStay (setting_of limits_of line.now.squeue.now.given) (number pass) (seen pass) (seen result) (pushed_at stays.old e.1.place) }
    ensures others { (e : Tuple × Seat) → slice_get seats.old.entries i ≡ Some e → KeptBut e.1.place stays.old stays.new }
    ensures asks { (life_of stays.old).asks ≤ (life_of stays.new).asks + 1 }
{
    let seat = seat_at(seats, i);
    unseat(seats, i);
    line.close(alloc, pass, stays, free, seat.place)
}

/// The connection at a place of the table leaves; the last one takes its place there.
pub(crate) fn vacate<H: Wait + Drop, W: Wait>(
    line: &Line<'_, Places<Streams<Chats, H>>, W>,
    alloc: Global,
    pass: Pass,
    stays: &mut Stays<ChatItem, Chat>,
    seats: &mut Table,
    free: &mut VecDeque<u32>,
    i: usize,
) -> Pass
    requires { HasSeatsBut limits_of line.now.squeue.now (origin_of line.now.squeue.now.given.first) i pass stays.old seats.old.entries }
    ensures seats { HasSeats limits_of line.now.squeue.now (origin_of line.now.squeue.now.given.first) result stays.new seats.new.entries }
    ensures number { number result ≡ number pass }
    ensures table { conns_of stays.new seats.new.entries ≡ without i (conns_of stays.old seats.old.entries) }
    ensures told { SeatsWereTold limits_of line.now.squeue.now pass result stays.old stays.new seats.old.entries seats.new.entries [] }
{
    close_seat(line, alloc, pass, stays, seats, free, i)
}

/// The connection at a place of the table hears an item. Where nothing is heard of it, it leaves.
fn hear_at<H: Wait + Drop, W: Wait>(
    line: &Line<'_, Places<Streams<Chats, H>>, W>,
    alloc: Global,
    pass: Pass,
    stays: &mut Stays<ChatItem, Chat>,
    seats: &mut Table,
    free: &mut VecDeque<u32>,
    i: usize,
    item: ChatItem,
    out: &mut Vec<Datagram>,
) -> (Pass, Option<Heard>)
    requires seats { HasSeats limits_of line.now.squeue.now (origin_of line.now.squeue.now.given.first) pass stays.old seats.old.entries }
    requires place { i < length seats.old.entries }
    requires ends { KeepsEnds item }
    ensures seats { HasSeats limits_of line.now.squeue.now (origin_of line.now.squeue.now.given.first) result.0 stays.new seats.new.entries }
    ensures number { number result.0 ≡ number pass }
    ensures heard { IfSome result.1 (λ h. (t : Tuple) (d : Conn) → slice_get (conns_of stays.old seats.old.entries) i ≡ Some (t, d)
        → HeardAt item t d i h (conns_of stays.old seats.old.entries) (conns_of stays.new seats.new.entries) out.old.items out.new.items) }
    ensures lost { IfNone result.1 (conns_of stays.new seats.new.entries ≡ without i (conns_of stays.old seats.old.entries)) }
    ensures wrote { IfNone result.1 ((t : Tuple) (d : Conn) → slice_get (conns_of stays.old seats.old.entries) i ≡ Some (t, d)
        → HasSent out.old.items out.new.items (hearing item (chat_of t d)).sent) }
    ensures told { IfSome result.1 (λ _. (t : Tuple) (seat : Seat) → slice_get seats.old.entries i ≡ Some (t, seat)
        → SeatsWereTold limits_of line.now.squeue.now pass result.0 stays.old stays.new seats.old.entries seats.new.entries (hears t ∷ [])) }
{
    let pass = renew_at(line, alloc, pass, stays, seats, i);
    hear_now(line, alloc, pass, stays, seats, free, i, item, out)
}

/// The same in the stay that it has.
fn hear_now<H: Wait + Drop, W: Wait>(
    line: &Line<'_, Places<Streams<Chats, H>>, W>,
    alloc: Global,
    pass: Pass,
    stays: &mut Stays<ChatItem, Chat>,
    seats: &mut Table,
    free: &mut VecDeque<u32>,
    i: usize,
    item: ChatItem,
    out: &mut Vec<Datagram>,
) -> (Pass, Option<Heard>)
    requires seats { HasSeats limits_of line.now.squeue.now (origin_of line.now.squeue.now.given.first) pass stays.old seats.old.entries }
    requires place { i < length seats.old.entries }
    requires ends { KeepsEnds item }
    ensures seats { HasSeats limits_of line.now.squeue.now (origin_of line.now.squeue.now.given.first) result.0 stays.new seats.new.entries }
    ensures number { number result.0 ≡ number pass }
    ensures heard { IfSome result.1 (λ h. (t : Tuple) (d : Conn) → slice_get (conns_of stays.old seats.old.entries) i ≡ Some (t, d)
        → HeardAt item t d i h (conns_of stays.old seats.old.entries) (conns_of stays.new seats.new.entries) out.old.items out.new.items) }
    ensures lost { IfNone result.1 (conns_of stays.new seats.new.entries ≡ without i (conns_of stays.old seats.old.entries)) }
    ensures wrote { IfNone result.1 ((t : Tuple) (d : Conn) → slice_get (conns_of stays.old seats.old.entries) i ≡ Some (t, d)
        → HasSent out.old.items out.new.items (hearing item (chat_of t d)).sent) }
    ensures told { IfSome result.1 (λ _. (t : Tuple) (seat : Seat) → slice_get seats.old.entries i ≡ Some (t, seat)
        → SeatsWereTold limits_of line.now.squeue.now pass result.0 stays.old stays.new seats.old.entries seats.new.entries (hears t ∷ [])) }
{
    if stays.life().asks <= seats.len() as u64 {
        let pass = vacate(line, alloc, pass, stays, seats, free, i);
        return (pass, None);
    }
    let seat = seat_at(seats, i);
    let (pass, heard) = line.hear(alloc, pass, stays, seat.place, item, out);
    match heard {
        Some(heard) => {
            learn(seats, i, heard.facts);
            (pass, Some(heard))
        }
        None => {
            let pass = vacate(line, alloc, pass, stays, seats, free, i);
            (pass, None)
        }
    }
}

/// The connection at a place of the table hears a segment, and leaves where it is over then, or where nothing is heard of it. The answer says
/// what became of the segment.
pub(crate) fn meet_at<H: Wait + Drop, W: Wait>(
    line: &Line<'_, Places<Streams<Chats, H>>, W>,
    alloc: Global,
    pass: Pass,
    stays: &mut Stays<ChatItem, Chat>,
    seats: &mut Table,
    free: &mut VecDeque<u32>,
    i: usize,
    item: ChatItem,
    out: &mut Vec<Datagram>,
) -> (Pass, Option<Met>)
    requires seats { HasSeats limits_of line.now.squeue.now (origin_of line.now.squeue.now.given.first) pass stays.old seats.old.entries }
    requires place { i < length seats.old.entries }
    requires ends { KeepsEnds item }
    requires judges { Judges item }
    ensures seats { HasSeats limits_of line.now.squeue.now (origin_of line.now.squeue.now.given.first) result.0 stays.new seats.new.entries }
    ensures number { number result.0 ≡ number pass }
    ensures met { IfSome result.1 (λ m. (t : Tuple) (d : Conn) → slice_get (conns_of stays.old seats.old.entries) i ≡ Some (t, d)
        → MetAt item t d i m (conns_of stays.old seats.old.entries) (conns_of stays.new seats.new.entries) out.old.items out.new.items) }
    ensures lost { IfNone result.1 (conns_of stays.new seats.new.entries ≡ without i (conns_of stays.old seats.old.entries)) }
    ensures wrote { IfNone result.1 ((t : Tuple) (d : Conn) → slice_get (conns_of stays.old seats.old.entries) i ≡ Some (t, d)
        → HasSent out.old.items out.new.items (hearing item (chat_of t d)).sent) }
    ensures told { IfSome result.1 (λ _. (t : Tuple) (seat : Seat) → slice_get seats.old.entries i ≡ Some (t, seat)
        → SeatsWereTold limits_of line.now.squeue.now pass result.0 stays.old stays.new seats.old.entries seats.new.entries (hears t ∷ [])) }
{
    let (pass, heard) = hear_at(line, alloc, pass, stays, seats, free, i, item, out);
    let Some(heard) = heard else {
        return (pass, None);
    };
    if heard.facts.is_over() {
        let pass = vacate(line, alloc, pass, stays, seats, free, i);
        return (pass, heard.met);
    }
    (pass, heard.met)
}

/// A connection of new ends takes a seat behind the others, where a place is free for it.
pub(crate) fn seat_new<H: Wait + Drop, W: Wait>(
    line: &Line<'_, Places<Streams<Chats, H>>, W>,
    alloc: Global,
    pass: Pass,
    stays: &mut Stays<ChatItem, Chat>,
    seats: &mut Table,
    free: &mut VecDeque<u32>,
    ends: Tuple,
    conn: Conn,
) -> (Pass, Result<(), AllocError>)
    requires seats { HasSeats limits_of line.now.squeue.now (origin_of line.now.squeue.now.given.first) pass stays.old seats.old.entries }
    requires new { IsNew ends (conns_of stays.old seats.old.entries) }
    ensures seats { HasSeats limits_of line.now.squeue.now (origin_of line.now.squeue.now.given.first) result.0 stays.new seats.new.entries }
    ensures number { number result.0 ≡ number pass }
    ensures put { OnOk result.1 (conns_of stays.new seats.new.entries ≡ conns_of stays.old seats.old.entries ++ (ends, conn) ∷ []) }
    ensures told { OnOk result.1 (SeatsWereTold limits_of line.now.squeue.now pass result.0 stays.old stays.new seats.old.entries
        seats.new.entries (begins ends ∷ [])) }
    ensures kept { OnErr result.1 (conns_of stays.new seats.new.entries ≡ conns_of stays.old seats.old.entries) }
{
    if stays.life().asks <= seats.len() as u64 + 3 {
        return (pass, Err(AllocError));
    }
    let facts = conn.facts();
    let Ok(conn) = Box::new(alloc, conn) else {
        return (pass, Err(AllocError));
    };
    let (pass, place) = line.begin(alloc, pass, stays, free, ends, conn);
    let Some(place) = place else {
        return (pass, Err(AllocError));
    };
    match seats.insert(ends, Seat { place, facts }) {
        Ok(_) => (pass, Ok(())),
        Err(_) => {
            let pass = line.close(alloc, pass, stays, free, place);
            (pass, Err(AllocError))
        }
    }
}

/// All connections leave, the last one first.
pub(crate) fn leave_all<H: Wait + Drop, W: Wait>(
    line: &Line<'_, Places<Streams<Chats, H>>, W>,
    alloc: Global,
    pass: Pass,
    stays: &mut Stays<ChatItem, Chat>,
    seats: &mut Table,
    free: &mut VecDeque<u32>,
) -> Pass
    requires { HasSeats limits_of line.now.squeue.now (origin_of line.now.squeue.now.given.first) pass stays.old seats.old.entries }
    ensures seats { HasSeats limits_of line.now.squeue.now (origin_of line.now.squeue.now.given.first) result stays.new seats.new.entries }
    ensures number { number result ≡ number pass }
    ensures none { seats.new.entries ≡ [] }
    ensures told { SeatsWereTold limits_of line.now.squeue.now pass result stays.old stays.new seats.old.entries seats.new.entries [] }
{
    let mut pass = pass;
    'leaving: while let Some(i) = seats.len().checked_sub(1) {
        pass = vacate(line, alloc, pass, stays, seats, free, i);
    }
    pass
}
