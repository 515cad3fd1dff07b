//! How a thread tells chats at the places of its pass, and opens and closes places.

ghost use Rattle.std.specs.Prelude.{◌≡◌, ◌+◌, ◌≤◌, ◌⊎◌, [], true, false, IfSome, IfNone, ◌++◌, ◌∷◌, length, map, vec_capacity};
ghost use Rattle.turn_gate.specs.History.{Begins as Grows};
ghost use Rattle.turn_gate.specs.Passes.{number, seen};
ghost use Rattle.placed_parts.specs.Placing.{limits_of, origin_of};
ghost use Rattle.squeue_state.specs.Naming.{setting_of};
ghost use Rattle.stream_stays.specs.Places.{IsOpen, Knows, chain_of, life_of, places_of, touched_of};
ghost use Rattle.live_chats.specs.Accounts.{HasEndedStay, HasRenewedStay, leaves_at, pushed_at};
ghost use Rattle.live_chats.specs.Hearing.{hearing};
ghost use Rattle.live_server.specs.Written.{HasSent};
ghost use Rattle.live_chats.specs.Listening.{AreAnswers, IsAnswer, Listens};
ghost use Rattle.live_chats.specs.Seating.{Begins, IsSettled, KeptBut, KeptOpen, chat_at};
ghost use Rattle.live_chats.specs.Telling.{IsFirst, Tells};
ghost use Rattle.live_chats.specs.declared.ear.Heard.{Heard};

use crate::chat::Chat;
use crate::chats::Chats;
use crate::ear::{Ear, Ears, Heard};
use crate::item::ChatItem;
use live_server::{Conn, Datagram};
use perimeter_core::Resident;
use placed_parts::Places;
use sq_base::Tuple;
use squeue_state::{Pass, Squeue};
use squeue_streams::{SourcePace, Streams};
use std::alloc::Global;
use std::collections::VecDeque;
use std::mem::replace;
use std::sync::Wait;
use std::thread;
use stream_stays::{Stays, close_at, enter_all, open_at, push_at, settle};

/// How a thread reaches the chats of its squeue: how it waits, the squeue, and in which mode and with which budget it enters.
pub struct Line<'q, R: Resident, W: Wait> {
    pub rt: &'q W,
    pub squeue: &'q Squeue<R>,
    pub pace: SourcePace,
}

impl<H: Wait + Drop, W: Wait> Line<'_, Places<Streams<Chats, H>>, W> {
    /// Enters the feeds of all that was pushed. It waits while the squeue is full.
    fn enter(&self, alloc: Global, pass: Pass, stays: &mut Stays<ChatItem, Chat>) -> Pass
        requires { Knows IsFirst Tells limits_of self.now.squeue.now (origin_of self.now.squeue.now.given.first) pass stays.old }
        ensures knows { Knows IsFirst Tells limits_of self.now.squeue.now (origin_of self.now.squeue.now.given.first) result stays.new }
        ensures number { number result ≡ number pass }
        ensures grows { Grows (seen pass) (seen result) }
        ensures places { places_of stays.new ≡ places_of stays.old }
        ensures touched { touched_of stays.new ≡ touched_of stays.old }
        ensures life { life_of stays.new ≡ life_of stays.old }
        ensures entered { chain_of stays.new ≡ [] }
    {
        let mut pass = pass;
        'turns: for _ in self.rt.forever() {
            let (next, entered) = enter_all(self.squeue, self.rt, alloc, pass, stays, self.pace);
            if entered {
                return next;
            }
            pass = next;
            thread::yield_now();
        }
        unreachable!()
    }

    /// Tells the chat at a place an item, and listens to it at an Ask of the pass. It answers whether the item was taken; else nothing
    /// changed.
    fn tell(
        &self,
        alloc: Global,
        pass: Pass,
        stays: &mut Stays<ChatItem, Chat>,
        c: u32,
        item: ChatItem,
        ear: &mut Ear,
    ) -> (Pass, bool)
        requires settled { IsSettled limits_of self.now.squeue.now (origin_of self.now.squeue.now.given.first) pass stays.old }
        requires place { IsOpen stays.old c }
        requires asks { 1 ≤ (life_of stays.old).asks }
        ensures settled { IsSettled limits_of self.now.squeue.now (origin_of self.now.squeue.now.given.first) result.0 stays.new }
        ensures number { number result.0 ≡ number pass }
        ensures place { IsOpen stays.new c }
        ensures others { KeptBut c stays.old stays.new }
        ensures asks { (life_of stays.old).asks ≤ (life_of stays.new).asks + 1 }
        ensures grows { Grows (seen pass) (seen result.0) }
        ensures pushed { result.1 ≡ true → pushed_at stays.new c ≡ pushed_at stays.old c + 1 }
        ensures told { result.1 ≡ true → (chat_at stays.new c ≡ hearing item (chat_at stays.old c)) × Listens ear.old ear.new c (chat_at stays.new c) }
        ensures refused { result.1 ≡ false → chat_at stays.new c ≡ chat_at stays.old c }
        ensures silent { result.1 ≡ false → ear.new.out.items ≡ ear.old.out.items }
    {
        match push_at(self.squeue, &pass, stays, c, item) {
            Err(_) => return (pass, false),
            Ok(()) => {}
        }
        let pass = self.enter(alloc, pass, stays);
        let pass = settle(self.squeue, self.rt, alloc, pass, stays, ear);
        (pass, true)
    }

    /// Tells the chat at a place an item. It answers what was heard, and what was sent goes behind the datagrams that are there. Nothing
    /// is heard where the item wasn't taken, or where memory is missing.
    pub fn hear(
        &self,
        alloc: Global,
        pass: Pass,
        stays: &mut Stays<ChatItem, Chat>,
        c: u32,
        item: ChatItem,
        out: &mut Vec<Datagram>,
    ) -> (Pass, Option<Heard>)
        requires settled { IsSettled limits_of self.now.squeue.now (origin_of self.now.squeue.now.given.first) pass stays.old }
        requires place { IsOpen stays.old c }
        requires asks { 1 ≤ (life_of stays.old).asks }
        ensures settled { IsSettled limits_of self.now.squeue.now (origin_of self.now.squeue.now.given.first) result.0 stays.new }
        ensures number { number result.0 ≡ number pass }
        ensures place { IsOpen stays.new c }
        ensures others { KeptBut c stays.old stays.new }
        ensures asks { (life_of stays.old).asks ≤ (life_of stays.new).asks + 1 }
        ensures grows { Grows (seen pass) (seen result.0) }
        ensures pushed { IfSome result.1 (λ _. pushed_at stays.new c ≡ pushed_at stays.old c + 1) }
        ensures chat { (chat_at stays.new c ≡ hearing item (chat_at stays.old c)) ⊎ (chat_at stays.new c ≡ chat_at stays.old c) }
        ensures heard { IfSome result.1 (λ h. (chat_at stays.new c ≡ hearing item (chat_at stays.old c))
            × IsAnswer (chat_at stays.new c) h out.old.items out.new.items) }
        ensures wrote { HasSent out.old.items out.new.items (hearing item (chat_at stays.old c)).sent }
    {
        let mut ear = Ear {
            alloc,
            out: replace(out, Vec::new(alloc)),
            heard: None,
        };
        let (pass, taken) = self.tell(alloc, pass, stays, c, item, &mut ear);
        let heard = ear.heard;
        *out = ear.out;
        if !taken {
            return (pass, None);
        }
        (pass, heard)
    }

    /// Pushes an item at a place, whose feed waits. Where there is no room for it, what was pushed is entered first. It answers whether the
    /// item was taken; else nothing changed.
    pub fn push(
        &self,
        alloc: Global,
        pass: Pass,
        stays: &mut Stays<ChatItem, Chat>,
        c: u32,
        item: ChatItem,
    ) -> (Pass, bool)
        requires knows { Knows IsFirst Tells limits_of self.now.squeue.now (origin_of self.now.squeue.now.given.first) pass stays.old }
        requires place { IsOpen stays.old c }
        ensures knows { Knows IsFirst Tells limits_of self.now.squeue.now (origin_of self.now.squeue.now.given.first) result.0 stays.new }
        ensures number { number result.0 ≡ number pass }
        ensures place { IsOpen stays.new c }
        ensures others { KeptBut c stays.old stays.new }
        ensures asks { (life_of stays.new).asks ≡ (life_of stays.old).asks }
        ensures grows { Grows (seen pass) (seen result.0) }
        ensures pushed { result.1 ≡ true → pushed_at stays.new c ≡ pushed_at stays.old c + 1 }
        ensures unpushed { result.1 ≡ false → pushed_at stays.new c ≡ pushed_at stays.old c }
        ensures taken { result.1 ≡ true → (chat_at stays.new c ≡ hearing item (chat_at stays.old c))
            × (touched_of stays.new ≡ touched_of stays.old ++ c ∷ []) }
        ensures refused { result.1 ≡ false → (chat_at stays.new c ≡ chat_at stays.old c) × (touched_of stays.new ≡ touched_of stays.old) }
    {
        match push_at(self.squeue, &pass, stays, c, item) {
            Ok(()) => (pass, true),
            Err(item) => {
                let pass = self.enter(alloc, pass, stays);
                let pushed = push_at(self.squeue, &pass, stays, c, item);
                (pass, pushed.is_ok())
            }
        }
    }

    /// Enters all that was pushed, settles it at an Ask of the pass, and listens to the chat of each item that was pushed, in order. It
    /// answers what was heard of each, for which there is room, and what was sent goes behind the datagrams that are there.
    pub fn listen(
        &self,
        alloc: Global,
        pass: Pass,
        stays: &mut Stays<ChatItem, Chat>,
        room: Vec<Option<Heard>>,
        out: &mut Vec<Datagram>,
    ) -> (Pass, Vec<Option<Heard>>)
        requires knows { Knows IsFirst Tells limits_of self.now.squeue.now (origin_of self.now.squeue.now.given.first) pass stays.old }
        requires asks { 1 ≤ (life_of stays.old).asks }
        requires room { (room.items ≡ []) × (length (touched_of stays.old) ≤ vec_capacity room) }
        ensures settled { IsSettled limits_of self.now.squeue.now (origin_of self.now.squeue.now.given.first) result.0 stays.new }
        ensures number { number result.0 ≡ number pass }
        ensures grows { Grows (seen pass) (seen result.0) }
        ensures kept { KeptOpen stays.old stays.new }
        ensures asks { (life_of stays.old).asks ≤ (life_of stays.new).asks + 1 }
        ensures room { vec_capacity result.1 ≡ vec_capacity room }
        ensures answers { AreAnswers (map (chat_at stays.new) (touched_of stays.old)) result.1.items out.old.items out.new.items }
    {
        let mut ears = Ears {
            alloc,
            out: replace(out, Vec::new(alloc)),
            heard: room,
        };
        let pass = self.enter(alloc, pass, stays);
        let pass = settle(self.squeue, self.rt, alloc, pass, stays, &mut ears);
        let Ears {
            alloc: _,
            out: sent,
            heard,
        } = ears;
        *out = sent;
        (pass, heard)
    }

    /// Closes a place, which may be opened again behind all others. In the squeue's history its stay has ended, with a feed for each item
    /// that was pushed since it was opened.
    pub fn close(
        &self,
        alloc: Global,
        pass: Pass,
        stays: &mut Stays<ChatItem, Chat>,
        free: &mut VecDeque<u32>,
        c: u32,
    ) -> Pass
        requires settled { IsSettled limits_of self.now.squeue.now (origin_of self.now.squeue.now.given.first) pass stays.old }
        requires place { IsOpen stays.old c }
        requires asks { 1 ≤ (life_of stays.old).asks }
        ensures settled { IsSettled limits_of self.now.squeue.now (origin_of self.now.squeue.now.given.first) result stays.new }
        ensures number { number result ≡ number pass }
        ensures ended { HasEndedStay (setting_of limits_of self.now.squeue.now.given) (number pass) (seen pass) (seen result) (pushed_at stays.old c) }
        ensures others { KeptBut c stays.old stays.new }
        ensures asks { (life_of stays.old).asks ≤ (life_of stays.new).asks + 1 }
    {
        let pass = close_at(self.squeue, self.rt, alloc, pass, stays, c);
        let _ = free.push_back(c);
        pass
    }

    /// Closes a place and opens it again, which numbers its feeds anew. The chat there stays as it is, and in the squeue's history its stay
    /// has ended as where a place is closed.
    pub fn renew(
        &self,
        alloc: Global,
        pass: Pass,
        stays: &mut Stays<ChatItem, Chat>,
        c: u32,
    ) -> Pass
        requires settled { IsSettled limits_of self.now.squeue.now (origin_of self.now.squeue.now.given.first) pass stays.old }
        requires place { IsOpen stays.old c }
        requires leaves { 2 ≤ leaves_at stays.old c }
        requires asks { 2 ≤ (life_of stays.old).asks }
        ensures settled { IsSettled limits_of self.now.squeue.now (origin_of self.now.squeue.now.given.first) result stays.new }
        ensures number { number result ≡ number pass }
        ensures renewed { HasRenewedStay (setting_of limits_of self.now.squeue.now.given) (number pass) (seen pass) (seen result) (pushed_at stays.old c) }
        ensures place { IsOpen stays.new c }
        ensures chat { chat_at stays.new c ≡ chat_at stays.old c }
        ensures none { pushed_at stays.new c ≡ 0 }
        ensures others { KeptBut c stays.old stays.new }
        ensures asks { (life_of stays.old).asks ≡ (life_of stays.new).asks + 2 }
    {
        let pass = close_at(self.squeue, self.rt, alloc, pass, stays, c);
        open_at(self.squeue, self.rt, alloc, pass, stays, c)
    }

    /// Opens the place that has been free for longest.
    pub fn open(
        &self,
        alloc: Global,
        pass: Pass,
        stays: &mut Stays<ChatItem, Chat>,
        free: &mut VecDeque<u32>,
    ) -> (Pass, Option<u32>)
        requires settled { IsSettled limits_of self.now.squeue.now (origin_of self.now.squeue.now.given.first) pass stays.old }
        requires asks { 1 ≤ (life_of stays.old).asks }
        ensures settled { IsSettled limits_of self.now.squeue.now (origin_of self.now.squeue.now.given.first) result.0 stays.new }
        ensures number { number result.0 ≡ number pass }
        ensures asks { (life_of stays.old).asks ≤ (life_of stays.new).asks + 1 }
        ensures place { IfSome result.1 (λ c. IsOpen stays.new c × (IsOpen stays.old c → ⊥) × KeptBut c stays.old stays.new) }
        ensures new { IfSome result.1 (λ c. pushed_at stays.new c ≡ 0) }
        ensures grows { Grows (seen pass) (seen result.0) }
        ensures none { IfNone result.1 (stays.new ≡ stays.old) }
    {
        let Some(c) = free.pop_front() else {
            return (pass, None);
        };
        let opens = stays.can_open(c);
        if !opens {
            return (pass, None);
        }
        let pass = open_at(self.squeue, self.rt, alloc, pass, stays, c);
        (pass, Some(c))
    }

    /// Begins a connection at the place that has been free for longest. It answers the place, or `None` where none is free, or where memory is
    /// missing.
    pub fn begin(
        &self,
        alloc: Global,
        pass: Pass,
        stays: &mut Stays<ChatItem, Chat>,
        free: &mut VecDeque<u32>,
        ends: Tuple,
        conn: Box<Conn>,
    ) -> (Pass, Option<u32>)
        requires settled { IsSettled limits_of self.now.squeue.now (origin_of self.now.squeue.now.given.first) pass stays.old }
        requires asks { 3 ≤ (life_of stays.old).asks }
        ensures settled { IsSettled limits_of self.now.squeue.now (origin_of self.now.squeue.now.given.first) result.0 stays.new }
        ensures number { number result.0 ≡ number pass }
        ensures asks { (life_of stays.old).asks ≤ (life_of stays.new).asks + 3 }
        ensures grows { Grows (seen pass) (seen result.0) }
        ensures kept { KeptOpen stays.old stays.new }
        ensures begun { IfSome result.1 (λ c. Begins c ends conn.value stays.old stays.new) }
    {
        let (pass, place) = self.open(alloc, pass, stays, free);
        let Some(c) = place else {
            return (pass, None);
        };
        let mut none = Vec::new(alloc);
        let item = ChatItem::Opens { ends, conn };
        let (pass, heard) = self.hear(alloc, pass, stays, c, item, &mut none);
        match heard {
            Some(_) => (pass, Some(c)),
            None => {
                let pass = self.close(alloc, pass, stays, free, c);
                (pass, None)
            }
        }
    }
}
