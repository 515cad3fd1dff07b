//! How a thread uses the places of its pass: it opens them, brings items to them, opens them anew, and settles them.
//!
//! While a place is open it numbers its feeds, by 32 bits. So where it has had as many items as the span it is closed and opened again
//! between two items: what was made there stays as it is, and the next feed is the first one of a new stay.

ghost use Rattle.std.specs.Prelude.{◌≡◌, ◌+◌, ◌<◌, ◌≤◌, ◌++◌, ◌∷◌, [], List, Some, ℕ, length};
ghost use Rattle.turn_gate.specs.History.{Begins};
ghost use Rattle.turn_gate.specs.Passes.{number, seen};
ghost use Rattle.placed_parts.specs.Placing.{limits_of, origin_of};
ghost use Rattle.squeue_state.specs.Naming.{setting_of};
ghost use Rattle.squeue_streams.specs.Taking.{most_feeds, most_leaves};
ghost use Rattle.stream_stays.specs.Places.{Knows, chain_of, life_of, place_at, places_of, touched_of};
ghost use Rattle.stream_stays.specs.Staying.{pushed_of};
ghost use Rattle.stream_stays.specs.declared.place.Place.TheVariants.{Open};
ghost use Rattle.stream_stays.specs.declared.stay.Stay.{Stay};
ghost use Rattle.squeue_arrivals.specs.Keyed.{IsFirst, Tells};
ghost use Rattle.squeue_arrivals.specs.Keeping.{IsSettled, IsUnused, Keeps, KeepsBut, Serves};

use crate::seating::KeyParts;
use crate::steps::{KeySteps, Keyed};
use perimeter_core::Resident;
use squeue_state::{Pass, Squeue};
use squeue_streams::SourcePace;
use std::alloc::Global;
use std::sync::Wait;
use std::thread;
use stream_stays::{Collects, Stays, close_at, enter_all, open_at, push_at, settle};

/// How a thread reaches the parts of its squeue: how it waits, the squeue, in which mode and with which budget it enters, and after how
/// many items it opens a place anew.
#[derive(Drop)]
pub(crate) struct Line<'q, R: Resident, W: Wait> {
    pub(crate) rt: &'q W,
    pub(crate) squeue: &'q Squeue<R>,
    pub(crate) pace: SourcePace,
    pub(crate) span: u32,
}

// Who is shown states, and learns nothing.
#[derive(Drop)]
struct Nobody;

impl<X: KeySteps + Drop> Collects<Keyed<X>> for Nobody {
    ghost takes = { λ _ _ _ _. Unit {0} };

    fn collect(&mut self, _c: u32, _state: &X::State) {}
}

impl<X: KeySteps + Drop, H: Wait + Drop, W: Wait> Line<'_, KeyParts<X, H>, W> {
    // Enters the feeds of all that was pushed. It waits while the squeue is full.
    fn enter(&self, alloc: Global, pass: Pass, stays: &mut Stays<X::Item, X::State>) -> Pass
        requires { Knows IsFirst (Tells X.step) limits_of self.now.squeue.now (origin_of self.now.squeue.now.given.first) pass stays.old }
        ensures knows { Knows IsFirst (Tells X.step) limits_of self.now.squeue.now (origin_of self.now.squeue.now.given.first) result stays.new }
        ensures number { number result ≡ number pass }
        ensures grows { Begins (seen pass) (seen result) }
        ensures places { places_of stays.new ≡ places_of stays.old }
        ensures touched { touched_of stays.new ≡ touched_of stays.old }
        ensures life { life_of stays.new ≡ life_of stays.old }
        ensures entered { chain_of stays.new ≡ [] }
    {
        let mut pass = pass;
        'turns: for _ in self.rt.forever() {
            let (next, entered) = enter_all(self.squeue, self.rt, alloc, pass, stays, self.pace);
            if entered {
                return next;
            }
            pass = next;
            thread::yield_now();
        }
        unreachable!()
    }

    /// Enters the feeds of what was pushed, as far as they fit.
    pub(crate) fn enter_some(
        &self,
        alloc: Global,
        pass: Pass,
        stays: &mut Stays<X::Item, X::State>,
    ) -> Pass
        requires { Knows IsFirst (Tells X.step) limits_of self.now.squeue.now (origin_of self.now.squeue.now.given.first) pass stays.old }
        ensures knows { Knows IsFirst (Tells X.step) limits_of self.now.squeue.now (origin_of self.now.squeue.now.given.first) result stays.new }
        ensures number { number result ≡ number pass }
        ensures grows { Begins (seen pass) (seen result) }
        ensures keeps { Keeps stays.old stays.new }
        ensures life { life_of stays.new ≡ life_of stays.old }
    {
        let (pass, _entered) = enter_all(self.squeue, self.rt, alloc, pass, stays, self.pace);
        pass
    }

    /// Has each place take all that was pushed there. It takes one ask.
    pub(crate) fn settle(
        &self,
        alloc: Global,
        pass: Pass,
        stays: &mut Stays<X::Item, X::State>,
    ) -> Pass
        requires knows { Knows IsFirst (Tells X.step) limits_of self.now.squeue.now (origin_of self.now.squeue.now.given.first) pass stays.old }
        requires asks { 1 ≤ (life_of stays.old).asks }
        ensures settled { IsSettled (Tells X.step) limits_of self.now.squeue.now (origin_of self.now.squeue.now.given.first) result stays.new }
        ensures number { number result ≡ number pass }
        ensures grows { Begins (seen pass) (seen result) }
        ensures keeps { Keeps stays.old stays.new }
        ensures asks { (life_of stays.old).asks ≤ (life_of stays.new).asks + 1 }
    {
        let pass = self.enter(alloc, pass, stays);
        let mut nobody = Nobody;
        settle(self.squeue, self.rt, alloc, pass, stays, &mut nobody)
    }

    /// Opens a place that is unused. It takes two asks.
    pub(crate) fn open(
        &self,
        alloc: Global,
        pass: Pass,
        stays: &mut Stays<X::Item, X::State>,
        c: u32,
    ) -> Pass
        requires knows { Knows IsFirst (Tells X.step) limits_of self.now.squeue.now (origin_of self.now.squeue.now.given.first) pass stays.old }
        requires unused { IsUnused (setting_of limits_of self.now.squeue.now.given) stays.old c }
        requires asks { 2 ≤ (life_of stays.old).asks }
        ensures knows { Knows IsFirst (Tells X.step) limits_of self.now.squeue.now (origin_of self.now.squeue.now.given.first) result stays.new }
        ensures number { number result ≡ number pass }
        ensures grows { Begins (seen pass) (seen result) }
        ensures open { Serves (setting_of limits_of self.now.squeue.now.given) result stays.new c [] 0 }
        ensures others { KeepsBut c stays.old stays.new }
        ensures asks { (life_of stays.old).asks ≤ (life_of stays.new).asks + 2 }
    {
        let pass = self.settle(alloc, pass, stays);
        open_at(self.squeue, self.rt, alloc, pass, stays, c)
    }

    /// Brings an item to a place, which is opened anew before where that is due. Where there is no room for the item the places are settled
    /// first. It takes four asks at most.
    pub(crate) fn bring(
        &self,
        alloc: Global,
        pass: Pass,
        stays: &mut Stays<X::Item, X::State>,
        c: u32,
        item: X::Item,
    ) -> Pass
        requires knows { Knows IsFirst (Tells X.step) limits_of self.now.squeue.now (origin_of self.now.squeue.now.given.first) pass stays.old }
        requires open { (items : List X.Item) × Serves (setting_of limits_of self.now.squeue.now.given) pass stays.old c items (length items) × (length items + 2 ≤ most_leaves) }
        requires asks { 4 ≤ (life_of stays.old).asks }
        ensures knows { Knows IsFirst (Tells X.step) limits_of self.now.squeue.now (origin_of self.now.squeue.now.given.first) result stays.new }
        ensures number { number result ≡ number pass }
        ensures grows { Begins (seen pass) (seen result) }
        ensures brought { (items : List X.Item) → Serves (setting_of limits_of self.now.squeue.now.given) pass stays.old c items (length items)
            → Serves (setting_of limits_of self.now.squeue.now.given) result stays.new c (items ++ item ∷ []) (length items + 1) }
        ensures others { KeepsBut c stays.old stays.new }
        ensures asks { (life_of stays.old).asks ≤ (life_of stays.new).asks + 4 }
    {
        let pass = self.renew(alloc, pass, stays, c);
        match push_at(self.squeue, &pass, stays, c, item) {
            Ok(()) => pass,
            Err(item) => {
                let pass = self.settle(alloc, pass, stays);
                self.push(&pass, stays, c, item);
                pass
            }
        }
    }

    // Closes a place that has had as many items as the span, behind all that was pushed there, and opens it again. It takes three asks.
    fn renew(&self, alloc: Global, pass: Pass, stays: &mut Stays<X::Item, X::State>, c: u32) -> Pass
        requires knows { Knows IsFirst (Tells X.step) limits_of self.now.squeue.now (origin_of self.now.squeue.now.given.first) pass stays.old }
        requires open { (items : List X.Item) × Serves (setting_of limits_of self.now.squeue.now.given) pass stays.old c items (length items) × (length items + 2 ≤ most_leaves) }
        requires asks { 3 ≤ (life_of stays.old).asks }
        ensures knows { Knows IsFirst (Tells X.step) limits_of self.now.squeue.now (origin_of self.now.squeue.now.given.first) result stays.new }
        ensures number { number result ≡ number pass }
        ensures grows { Begins (seen pass) (seen result) }
        ensures open { (items : List X.Item) → Serves (setting_of limits_of self.now.squeue.now.given) pass stays.old c items (length items)
            → Serves (setting_of limits_of self.now.squeue.now.given) result stays.new c items (length items + 1) }
        ensures few { (stay : Stay X.Item) → place_at stays.new c ≡ Some (Open stay) → pushed_of stay < most_feeds }
        ensures others { KeepsBut c stays.old stays.new }
        ensures asks { (life_of stays.old).asks ≤ (life_of stays.new).asks + 3 }
    {
        if stays.pushed(c) < self.span {
            return pass;
        }
        let settled = self.settle(alloc, pass, stays);
        let closed = close_at(self.squeue, self.rt, alloc, settled, stays, c);
        open_at(self.squeue, self.rt, alloc, closed, stays, c)
    }

    // Pushes an item at a place that has a number for its feed, once there is room for it.
    fn push(&self, pass: &Pass, stays: &mut Stays<X::Item, X::State>, c: u32, item: X::Item)
        requires knows { Knows IsFirst (Tells X.step) limits_of self.now.squeue.now (origin_of self.now.squeue.now.given.first) pass.now stays.old }
        requires open { (stay : Stay X.Item) × (place_at stays.old c ≡ Some (Open stay)) × (pushed_of stay < most_feeds) }
        ensures knows { Knows IsFirst (Tells X.step) limits_of self.now.squeue.now (origin_of self.now.squeue.now.given.first) pass.now stays.new }
        ensures pushed { (items : List X.Item) (times : ℕ) → Serves (setting_of limits_of self.now.squeue.now.given) pass.now stays.old c items times
            → Serves (setting_of limits_of self.now.squeue.now.given) pass.now stays.new c (items ++ item ∷ []) times }
        ensures others { KeepsBut c stays.old stays.new }
        ensures asks { (life_of stays.new).asks ≡ (life_of stays.old).asks }
    {
        let mut item = item;
        'tries: for _ in self.rt.forever() {
            match push_at(self.squeue, pass, stays, c, item) {
                Ok(()) => return,
                Err(back) => item = back,
            }
            thread::yield_now();
        }
        unreachable!()
    }
}
