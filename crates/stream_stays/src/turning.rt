//! How a place is opened and closed.

ghost use Rattle.std.specs.Prelude.{◌≡◌, ◌+◌, ◌≤◌, [], Some, false};
ghost use Rattle.turn_gate.specs.Passes.{number, seen};
ghost use Rattle.perimeter_core.specs.declared.marks.SynchAct.TheVariants as Done;
ghost use Rattle.perimeter_core.specs.Deeds.{acts, due, fed};
ghost use Rattle.placed_parts.specs.Placing.{limits_of, origin_of};
ghost use Rattle.squeue_state.specs.Naming.{setting_of};
ghost use Rattle.conn_migrate.specs.Moving.{MayLeave, Moved, RingLearns};
ghost use Rattle.rtrb.specs.Ring.{ProducerLooked, sent};
ghost use Rattle.squeue_streams.specs.Taking.{IsStreamOf, items_of};
ghost use Rattle.stream_stays.specs.declared.stay.Stay.{Stay};
ghost use Rattle.stream_stays.specs.declared.stay.Vacant.{Vacant};
ghost use Rattle.stream_stays.specs.declared.place.Place.TheVariants.{Open, Vacant as Vacant'};
ghost use Rattle.stream_stays.specs.Staying.{IsBegun, IsOfRing, leaves_of, pushed_of, sent_of};
ghost use Rattle.stream_stays.specs.Settling.{sent_in};
ghost use Rattle.stream_stays.specs.Places.{CanOpen, IsOpen, Knows, SameElsewhere, chain_of, life_of, place_at, touched_of};

use crate::passing::open;
use crate::place::{Place, Stays};
use crate::stay::{Stay, Vacant};
use perimeter_core::NoHook;
use placed_parts::Places;
use rtrb::Producer;
use squeue_state::{Pass, Squeue};
use squeue_streams::{Steps, Stream, Streams};
use std::alloc::Global;
use std::marker::Brand;
use std::sync::Wait;
use synch_enter::{synch_enter, synch_exit, take_block};

/// Opens a place: its part is put in, as one that has had no feeds. It takes one ask of the pass's life.
pub fn open_at<X: Steps + Drop, H: Wait + Drop, W: Wait>(
    sq: &Squeue<Places<Streams<X, H>>>,
    rt: &W,
    alloc: Global,
    pass: Pass,
    stays: &mut Stays<X::Item, X::State>,
    c: u32,
) -> Pass
    requires knows { Knows X.begins X.step limits_of sq.now (origin_of sq.now.given.first) pass stays.old }
    requires vacant { CanOpen stays.old c }
    requires asks { 1 ≤ (life_of stays.old).asks }
    requires entered { chain_of stays.old ≡ [] }
    ensures knows { Knows X.begins X.step limits_of sq.now (origin_of sq.now.given.first) result stays.new }
    ensures put { Moved limits_of sq.now (Done.In c) [] pass result }
    ensures number { number result ≡ number pass }
    ensures elsewhere { SameElsewhere c stays.old stays.new }
    ensures opened { (vacant : Vacant X.Item X.State) × (stay : Stay X.Item) × (place_at stays.old c ≡ Some (Vacant' vacant))
        × (place_at stays.new c ≡ Some (Open stay)) × IsBegun vacant stay }
    ensures sent { sent_in (place_at stays.new c) ≡ sent_in (place_at stays.old c) }
    ensures rest { (chain_of stays.new ≡ []) × (touched_of stays.new ≡ touched_of stays.old) }
    ensures spent { ((life_of stays.new).feeds ≡ (life_of stays.old).feeds) × ((life_of stays.old).asks ≡ (life_of stays.new).asks + 1) }
{
    let vacant = stays.take_vacant(c as usize);
    let (pass, stay) = open(sq, rt, alloc, pass, &mut stays.life, vacant);
    let _ = stays.put(c as usize, Place::Open(stay));
    pass
}

/// Closes a place that is entered and settled: its part is taken out. The history has a feed of it for each item that was pushed since it
/// was opened, its ring is empty, and its state is what the steps make of all items that were ever pushed, one after another, from one in
/// which its part may begin. It takes one ask of the pass's life.
pub fn close_at<X: Steps + Drop, H: Wait + Drop, W: Wait>(
    sq: &Squeue<Places<Streams<X, H>>>,
    rt: &W,
    alloc: Global,
    pass: Pass,
    stays: &mut Stays<X::Item, X::State>,
    c: u32,
) -> Pass
    requires knows { Knows X.begins X.step limits_of sq.now (origin_of sq.now.given.first) pass stays.old }
    requires open { IsOpen stays.old c }
    requires asks { 1 ≤ (life_of stays.old).asks }
    requires entered { chain_of stays.old ≡ [] }
    requires settled { touched_of stays.old ≡ [] }
    ensures knows { Knows X.begins X.step limits_of sq.now (origin_of sq.now.given.first) result stays.new }
    ensures out { Moved limits_of sq.now (Done.Out c) [] pass result }
    ensures number { number result ≡ number pass }
    ensures elsewhere { SameElsewhere c stays.old stays.new }
    ensures closed { (stay : Stay X.Item) × (vacant : Vacant X.Item X.State) × (place_at stays.old c ≡ Some (Open stay))
        × (place_at stays.new c ≡ Some (Vacant' vacant)) × (leaves_of stay ≡ vacant.leaves + 1)
        × (fed (acts (setting_of limits_of sq.now.given) (seen result) c) ≡ pushed_of stay) × (items_of vacant.part ≡ sent_of stay)
        × IsStreamOf X.begins X.step (origin_of sq.now.given.first) c vacant.part }
    ensures sent { sent_in (place_at stays.new c) ≡ sent_in (place_at stays.old c) }
    ensures rest { (chain_of stays.new ≡ []) × (touched_of stays.new ≡ []) }
    ensures spent { ((life_of stays.new).feeds ≡ (life_of stays.old).feeds) × ((life_of stays.old).asks ≡ (life_of stays.new).asks + 1) }
{
    let stay = stays.take_open(c as usize);
    let Stay {
        mut producer,
        first: _,
        stream: _,
        leaves,
        pushed: _,
        entered: _,
    } = stay;
    let (pass, part) = take_whole(sq, rt, alloc, pass, c, &mut producer);
    stays.life.asks -= 1;
    let vacant = Vacant {
        producer,
        part,
        stream: c,
        leaves: leaves - 1,
    };
    let _ = stays.put(c as usize, Place::Vacant(vacant));
    pass
}

// Takes a part out, behind all that was queued for it, which has taken all that was pushed.
fn take_whole<X: Steps + Drop, H: Wait + Drop, W: Wait>(
    sq: &Squeue<Places<Streams<X, H>>>,
    rt: &W,
    alloc: Global,
    pass: Pass,
    c: u32,
    producer: &mut Producer<X::Item>,
) -> (Pass, Stream<X::Item, X::State>)
    requires may { MayLeave limits_of sq.now c pass }
    requires ring { IsOfRing X.begins (origin_of sq.now.given.first) c producer.old }
    ensures moved { Moved limits_of sq.now (Done.Out c) [] pass result.0 }
    ensures learns { RingLearns limits_of sq.now c false 1 pass result.0 }
    ensures all { fed (acts (setting_of limits_of sq.now.given) (seen result.0) c) ≡ due (seen pass) c }
    ensures part { IsStreamOf X.begins X.step (origin_of sq.now.given.first) c result.1 }
    ensures producer { ProducerLooked producer.old producer.new }
    ensures items { items_of result.1 ≡ sent producer.old }
{
    let mut owner = synch_enter(sq, rt, alloc, &NoHook, pass);
    let mut part = take_block(&mut owner, c);
    owner
        .resident
        .shared()
        .take_rest(alloc, &mut part, producer);
    (
        synch_exit::<Places<Streams<X, H>>, Brand, W>(sq, rt, owner),
        part,
    )
}
