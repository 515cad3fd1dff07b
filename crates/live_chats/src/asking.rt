//! What a table is asked of its connections, and tells by their seats.

ghost use Rattle.std.specs.Prelude.{◌≡◌, ◌<◌, Some, length, option_map, slice_get};
ghost use Rattle.stream_stays.specs.declared.place.Stays.{Stays};
ghost use Rattle.live_server.specs.Leaving.{peer_of};
ghost use Rattle.live_server.specs.Serving.{is_waiting};
ghost use Rattle.live_server.specs.Table.{conn_at, held_by, place_of};
ghost use Rattle.live_server.specs.Unreached.{reported};
ghost use Rattle.live_chats.specs.Hearing.{ChatOf};
ghost use Rattle.live_chats.specs.Seating.{AllSeated, conns_of};
ghost use Rattle.live_chats.specs.declared.item.ChatItem.{ChatItem};

use crate::seats::{Table, seat_at};
use live_server::{Peer, Reported};
use sq_base::Tuple;

/// How many connections there are.
pub(crate) fn len(seats: &Table) -> usize
    ensures { (st : Stays ChatItem ChatOf) → result ≡ length (conns_of st seats.now.entries) }
{
    seats.len()
}

/// The place of the connection of two ends.
pub(crate) fn find(seats: &Table, ends: &Tuple) -> Option<usize>
    ensures { (st : Stays ChatItem ChatOf) → result ≡ place_of ends.now (conns_of st seats.now.entries) }
{
    seats.get_index_of(ends)
}

/// Whether the connection at a place is half open, and the one that was opened with a number.
pub(crate) fn is_waiting_at(seats: &Table, place: usize, number: u64) -> bool
    ensures { (st : Stays ChatItem ChatOf) → AllSeated st seats.now.entries → result ≡ is_waiting number (conn_at place (conns_of st seats.now.entries)) }
{
    match seats.get_index(place) {
        Some((_, seat)) => seat.facts.is_waiting(number),
        None => false,
    }
}

/// What a message is to the connection at a place that the segment with a number didn't arrive.
pub(crate) fn reported_at(seats: &Table, place: usize, seq: u32) -> Reported
    requires { place < length seats.now.entries }
    ensures { (st : Stays ChatItem ChatOf) → AllSeated st seats.now.entries → result ≡ reported seq (conn_at place (conns_of st seats.now.entries)) }
{
    let Some((_, seat)) = seats.get_index(place) else {
        unreachable!()
    };
    seat.facts.reported(seq)
}

/// Whose the connection at a place is, and when something came from it last.
pub(crate) fn peer_at(seats: &Table, place: usize) -> Peer
    requires { place < length seats.now.entries }
    ensures { (st : Stays ChatItem ChatOf) → AllSeated st seats.now.entries → Some result ≡ option_map peer_of (slice_get (conns_of st seats.now.entries) place) }
{
    let Some((tuple, seat)) = seats.get_index(place) else {
        unreachable!()
    };
    Peer {
        address: tuple.client,
        heard: seat.facts.heard,
    }
}

/// How many bytes all hold.
pub(crate) fn held(seats: &Table) -> u64
    ensures { (st : Stays ChatItem ChatOf) → AllSeated st seats.now.entries → result ≡ held_by (conns_of st seats.now.entries) }
{
    let mut total = 0u64;
    for i in 0..seats.len() {
        total = total.saturating_add(seat_at(seats, i).facts.held);
    }
    total
}
