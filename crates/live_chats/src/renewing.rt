//! How a connection outlives a stay at its place. While a place is open it numbers its feeds, by 32 bits. So where half of the numbers are
//! spent, the place is closed and opened again between two items: the chat stays as it is, and the next feed is the first one of a new stay.

ghost use Rattle.std.specs.Prelude.{◌≡◌, ◌+◌, ◌<◌, ◌≤◌, ◌⊎◌, [], true, false, length, slice_get, Some};
ghost use Rattle.turn_gate.specs.Passes.{number};
ghost use Rattle.placed_parts.specs.Placing.{limits_of, origin_of};
ghost use Rattle.sq_base.specs.declared.kinds.Tuple.{Tuple};
ghost use Rattle.stream_stays.specs.Places.{IsOpen, life_of};
ghost use Rattle.live_chats.specs.Accounts.{SeatsWereTold, leaves_at, many_feeds, pushed_at};
ghost use Rattle.live_chats.specs.Seating.{HasSeats, conns_of};
ghost use Rattle.live_chats.specs.declared.seat.Seat.{Seat};

use crate::chat::Chat;
use crate::chats::Chats;
use crate::item::ChatItem;
use crate::line::Line;
use crate::seats::{Table, seat_at};
use placed_parts::Places;
use squeue_state::Pass;
use squeue_streams::Streams;
use std::alloc::Global;
use std::sync::Wait;
use stream_stays::Stays;

// From how many feeds on.
const MANY_FEEDS: u32 = 1 << 31;

/// The place of a seat is closed and opened again where it has had many feeds, if that may be done once more. Nobody hears anything.
pub(crate) fn renew_at<H: Wait + Drop, W: Wait>(
    line: &Line<'_, Places<Streams<Chats, H>>, W>,
    alloc: Global,
    pass: Pass,
    stays: &mut Stays<ChatItem, Chat>,
    seats: &Table,
    i: usize,
) -> Pass
    requires seats { HasSeats limits_of line.now.squeue.now (origin_of line.now.squeue.now.given.first) pass stays.old seats.now.entries }
    requires place { i < length seats.now.entries }
    ensures seats { HasSeats limits_of line.now.squeue.now (origin_of line.now.squeue.now.given.first) result stays.new seats.now.entries }
    ensures number { number result ≡ number pass }
    ensures table { conns_of stays.new seats.now.entries ≡ conns_of stays.old seats.now.entries }
    ensures told { SeatsWereTold limits_of line.now.squeue.now pass result stays.old stays.new seats.now.entries seats.now.entries [] }
    ensures few { (e : Tuple × Seat) → slice_get seats.now.entries i ≡ Some e → (pushed_at stays.new e.1.place < many_feeds)
        ⊎ (leaves_at stays.old e.1.place < 2) ⊎ ((life_of stays.old).asks ≤ length seats.now.entries + 2) }
{
    let seat = seat_at(seats, i);
    let due = is_due(stays, seats, seat.place);
    if !due {
        return pass;
    }
    line.renew(alloc, pass, stays, seat.place)
}

/// Whether a place has had many feeds, and may be closed and opened again: its part may leave twice, once for that and once for good, and
/// the pass has two asks beside those that it keeps for its seats.
fn is_due(stays: &Stays<ChatItem, Chat>, seats: &Table, c: u32) -> bool
    requires { IsOpen stays.now c }
    ensures yes { result ≡ true → (2 ≤ leaves_at stays.now c) × (length seats.now.entries + 3 ≤ (life_of stays.now).asks) }
    ensures no { result ≡ false → (pushed_at stays.now c < many_feeds) ⊎ (leaves_at stays.now c < 2)
        ⊎ ((life_of stays.now).asks ≤ length seats.now.entries + 2) }
{
    if stays.pushed(c) < MANY_FEEDS {
        return false;
    }
    if stays.leaves(c) < 2 {
        return false;
    }
    stays.life().asks > seats.len() as u64 + 2
}

/// Does so at each seat.
pub(crate) fn renew_all<H: Wait + Drop, W: Wait>(
    line: &Line<'_, Places<Streams<Chats, H>>, W>,
    alloc: Global,
    pass: Pass,
    stays: &mut Stays<ChatItem, Chat>,
    seats: &Table,
) -> Pass
    requires { HasSeats limits_of line.now.squeue.now (origin_of line.now.squeue.now.given.first) pass stays.old seats.now.entries }
    ensures seats { HasSeats limits_of line.now.squeue.now (origin_of line.now.squeue.now.given.first) result stays.new seats.now.entries }
    ensures number { number result ≡ number pass }
    ensures table { conns_of stays.new seats.now.entries ≡ conns_of stays.old seats.now.entries }
    ensures told { SeatsWereTold limits_of line.now.squeue.now pass result stays.old stays.new seats.now.entries seats.now.entries [] }
{
    let mut pass = pass;
    for i in 0..seats.len() {
        pass = renew_at(line, alloc, pass, stays, seats, i);
    }
    pass
}
