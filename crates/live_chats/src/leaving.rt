//! How all leave a table who are over, or who are to leave at a tick.

ghost use Rattle.std.specs.Prelude.{◌≡◌, ◌+◌, ◌≤◌, [], not, true, false, filter};
ghost use Rattle.turn_gate.specs.Passes.{number, seen};
ghost use Rattle.placed_parts.specs.Placing.{limits_of, origin_of};
ghost use Rattle.squeue_state.specs.Naming.{setting_of};
ghost use Rattle.stream_stays.specs.Places.{IsOpen, life_of};
ghost use Rattle.live_server.specs.Facts.{facts_of};
ghost use Rattle.live_server.specs.Leaving.{without_leaving};
ghost use Rattle.live_server.specs.Table.{without_over};
ghost use Rattle.live_chats.specs.Accounts.{HasEndedStay, SeatsWereTold, pushed_at};
ghost use Rattle.live_chats.specs.Seating.{HasSeats, IsSettled, KeptBut, conns_of, goes};

use crate::chat::Chat;
use crate::chats::Chats;
use crate::item::ChatItem;
use crate::line::Line;
use crate::seat::{Seat, Who};
use crate::seats::{Table, seat_at};
use live_server::Setting;
use placed_parts::Places;
use squeue_state::Pass;
use squeue_streams::Streams;
use std::alloc::Global;
use std::collections::VecDeque;
use std::sync::Wait;
use stream_stays::Stays;

/// All leave that are over.
pub(crate) fn drop_over<H: Wait + Drop, W: Wait>(
    line: &Line<'_, Places<Streams<Chats, H>>, W>,
    alloc: Global,
    pass: Pass,
    stays: &mut Stays<ChatItem, Chat>,
    seats: &mut Table,
    free: &mut VecDeque<u32>,
) -> Pass
    requires { HasSeats limits_of line.now.squeue.now (origin_of line.now.squeue.now.given.first) pass stays.old seats.old.entries }
    ensures seats { HasSeats limits_of line.now.squeue.now (origin_of line.now.squeue.now.given.first) result stays.new seats.new.entries }
    ensures number { number result ≡ number pass }
    ensures table { conns_of stays.new seats.new.entries ≡ without_over (conns_of stays.old seats.old.entries) }
    ensures told { SeatsWereTold limits_of line.now.squeue.now pass result stays.old stays.new seats.old.entries seats.new.entries [] }
{
    drop_who(line, alloc, pass, stays, seats, free, &Who::Over)
}

/// All leave that are to leave at a tick.
pub(crate) fn drop_leaving<H: Wait + Drop, W: Wait>(
    line: &Line<'_, Places<Streams<Chats, H>>, W>,
    alloc: Global,
    pass: Pass,
    stays: &mut Stays<ChatItem, Chat>,
    seats: &mut Table,
    free: &mut VecDeque<u32>,
    setting: &Setting,
    now: u64,
) -> Pass
    requires { HasSeats limits_of line.now.squeue.now (origin_of line.now.squeue.now.given.first) pass stays.old seats.old.entries }
    ensures seats { HasSeats limits_of line.now.squeue.now (origin_of line.now.squeue.now.given.first) result stays.new seats.new.entries }
    ensures number { number result ≡ number pass }
    ensures table { conns_of stays.new seats.new.entries ≡ without_leaving setting.now now (conns_of stays.old seats.old.entries) }
    ensures told { SeatsWereTold limits_of line.now.squeue.now pass result stays.old stays.new seats.old.entries seats.new.entries [] }
{
    let taken = seats.len();
    let who = Who::Due {
        setting,
        now,
        taken,
    };
    drop_who(line, alloc, pass, stays, seats, free, &who)
}

/// All leave of whom that is so. The others keep their order.
fn drop_who<H: Wait + Drop, W: Wait>(
    line: &Line<'_, Places<Streams<Chats, H>>, W>,
    alloc: Global,
    pass: Pass,
    stays: &mut Stays<ChatItem, Chat>,
    seats: &mut Table,
    free: &mut VecDeque<u32>,
    who: &Who<'_>,
) -> Pass
    requires { HasSeats limits_of line.now.squeue.now (origin_of line.now.squeue.now.given.first) pass stays.old seats.old.entries }
    ensures seats { HasSeats limits_of line.now.squeue.now (origin_of line.now.squeue.now.given.first) result stays.new seats.new.entries }
    ensures number { number result ≡ number pass }
    ensures table { conns_of stays.new seats.new.entries ≡ filter (λ c. not (goes who.now (facts_of c.1))) (conns_of stays.old seats.old.entries) }
    ensures told { SeatsWereTold limits_of line.now.squeue.now pass result stays.old stays.new seats.old.entries seats.new.entries [] }
{
    let pass = close_all(line, alloc, pass, stays, seats, free, who);
    seats.retain(|_, seat| !who.goes(&seat.facts));
    pass
}

/// The places of all of whom that is so are closed, while their seats are still there.
fn close_all<H: Wait + Drop, W: Wait>(
    line: &Line<'_, Places<Streams<Chats, H>>, W>,
    alloc: Global,
    pass: Pass,
    stays: &mut Stays<ChatItem, Chat>,
    seats: &Table,
    free: &mut VecDeque<u32>,
    who: &Who<'_>,
) -> Pass
    requires { HasSeats limits_of line.now.squeue.now (origin_of line.now.squeue.now.given.first) pass stays.old seats.now.entries }
    ensures seats { HasSeats limits_of line.now.squeue.now (origin_of line.now.squeue.now.given.first) result stays.new
        (filter (λ e. not (goes who.now e.1.facts)) seats.now.entries) }
    ensures number { number result ≡ number pass }
    ensures table { conns_of stays.new (filter (λ e. not (goes who.now e.1.facts)) seats.now.entries)
        ≡ filter (λ c. not (goes who.now (facts_of c.1))) (conns_of stays.old seats.now.entries) }
    ensures told { SeatsWereTold limits_of line.now.squeue.now pass result stays.old stays.new seats.now.entries
        (filter (λ e. not (goes who.now e.1.facts)) seats.now.entries) [] }
{
    let mut pass = pass;
    for i in 0..seats.len() {
        let seat = seat_at(seats, i);
        pass = close_one(line, alloc, pass, stays, free, who, seat);
    }
    pass
}

/// The place of a seat is closed, where its connection is to leave.
fn close_one<H: Wait + Drop, W: Wait>(
    line: &Line<'_, Places<Streams<Chats, H>>, W>,
    alloc: Global,
    pass: Pass,
    stays: &mut Stays<ChatItem, Chat>,
    free: &mut VecDeque<u32>,
    who: &Who<'_>,
    seat: Seat,
) -> Pass
    requires settled { IsSettled limits_of line.now.squeue.now (origin_of line.now.squeue.now.given.first) pass stays.old }
    requires place { goes who.now seat.facts ≡ true → IsOpen stays.old seat.place }
    requires asks { goes who.now seat.facts ≡ true → 1 ≤ (life_of stays.old).asks }
    ensures settled { IsSettled limits_of line.now.squeue.now (origin_of line.now.squeue.now.given.first) result stays.new }
    ensures number { number result ≡ number pass }
    ensures same { goes who.now seat.facts ≡ false → stays.new ≡ stays.old }
    ensures passed { goes who.now seat.facts ≡ false → result ≡ pass }
    ensures ended { goes who.now seat.facts ≡ true
        → HasEndedStay (setting_of limits_of line.now.squeue.now.given) (number pass) (seen pass) (seen result) (pushed_at stays.old seat.place) }
    ensures others { goes who.now seat.facts ≡ true → KeptBut seat.place stays.old stays.new }
    ensures spent { goes who.now seat.facts ≡ true → (life_of stays.old).asks ≤ (life_of stays.new).asks + 1 }
{
    let leaves = who.goes(&seat.facts);
    if !leaves {
        return pass;
    }
    line.close(alloc, pass, stays, free, seat.place)
}
