//! How a thread settles its places: at an Ask of its own, where both ends of each place's ring are in its hands.

ghost use Rattle.std.specs.Prelude.{◌≡◌, ◌+◌, ◌%◌, ◌≤◌, ℕ, [], Some, true, Contains};
ghost use Rattle.rtrb.specs.Ring.{ProducerLooked, sent};
ghost use Rattle.turn_gate.specs.History.{Begins};
ghost use Rattle.turn_gate.specs.Passes.{number, seen};
ghost use Rattle.turn_gate.specs.declared.pass.Pass.{Pass};
ghost use Rattle.perimeter_core.specs.declared.marks.SynchAct.TheVariants as Done;
ghost use Rattle.perimeter_core.specs.Perimeter.{is_here};
ghost use Rattle.perimeter_core.specs.History.{Element, run};
ghost use Rattle.perimeter_core.specs.Deeds.{acts, due, fed};
ghost use Rattle.perimeter_core.specs.Legal.{Legal};
ghost use Rattle.perimeter_core.specs.Residing.{Here};
ghost use Rattle.placed_parts.specs.Placing.{Stands, limits_of, origin_of};
ghost use Rattle.squeue_state.specs.Naming.{setting_of};
ghost use Rattle.synch_enter.specs.Synch.{Came, StandsAtItsAsk};
ghost use Rattle.conn_migrate.specs.Moving.{Moved};
ghost use Rattle.stream_stays.specs.declared.stay.Stay.{Stay};
ghost use Rattle.stream_stays.specs.declared.place.Place.TheVariants.{Open};
ghost use Rattle.stream_stays.specs.Staying.{IsOfRing, pushed_of};
ghost use Rattle.stream_stays.specs.Places.{Knows, chain_of, life_of, place_at, touched_of};
ghost use Rattle.stream_stays.specs.Settling.{Collected, KeepsParts, MaySettle, SamePlaces, WasCollected, sent_in};

use crate::place::{Place, Stays};
use perimeter_core::{NoHook, Resident};
use placed_parts::Places;
use rtrb::Producer;
use squeue_drain::Owner;
use squeue_state::{Pass, Squeue};
use squeue_streams::{Steps, Streams};
use std::alloc::Global;
use std::marker::Brand;
use std::sync::Wait;
use synch_enter::synch_enter;

/// What is shown the states of parts.
pub trait Collects<X: Steps> {
    /// What is learnt: the collector before and after, the place, and the state there.
    ghost takes: { Self → Self → ℕ → X.State → Type 0 };

    /// Looks at the state at place `c`.
    fn collect(&mut self, c: u32, state: &X::State)
        ensures takes { takes self.old self.new c state.now };
}

/// Settles the places at an Ask of the pass, behind all that was entered. The collector is shown the state at the place of each item
/// that was pushed since the last time, in that order. The state there is what the steps make of all items that were pushed, and the
/// history has a feed for each that was pushed since the place was opened. It takes one ask of the pass's life.
pub fn settle<X: Steps + Drop, H: Wait + Drop, V: Collects<X>, W: Wait>(
    sq: &Squeue<Places<Streams<X, H>>>,
    rt: &W,
    alloc: Global,
    pass: Pass,
    stays: &mut Stays<X::Item, X::State>,
    collector: &mut V,
) -> Pass
    requires knows { Knows X.begins X.step limits_of sq.now (origin_of sq.now.given.first) pass stays.old }
    requires asks { 1 ≤ (life_of stays.old).asks }
    requires entered { chain_of stays.old ≡ [] }
    ensures knows { Knows X.begins X.step limits_of sq.now (origin_of sq.now.given.first) result stays.new }
    ensures number { number result ≡ number pass }
    ensures same { SamePlaces stays.old stays.new }
    ensures sent { (c : ℕ) → sent_in (place_at stays.new c) ≡ sent_in (place_at stays.old c) }
    ensures touched { touched_of stays.new ≡ [] }
    ensures spent { ((life_of stays.new).feeds ≡ (life_of stays.old).feeds) × ((life_of stays.old).asks ≡ (life_of stays.new).asks + 1) }
    ensures legal { Legal (setting_of limits_of sq.now.given) (seen result) }
    ensures grows { Begins (seen pass) (seen result) }
    ensures fed { (c : ℕ) (stay : Stay X.Item) → place_at stays.old c ≡ Some (Open stay)
        → fed (acts (setting_of limits_of sq.now.given) (seen result) c) ≡ pushed_of stay }
    ensures settled { Collected X.begins X.step V.takes (origin_of sq.now.given.first) stays.old (touched_of stays.old) collector.old collector.new }
{
    let mut owner = synch_enter(sq, rt, alloc, &NoHook, pass);
    settle_touched(alloc, &mut owner.resident, stays, collector);
    stays.life.asks -= 1;
    stays.touched.clear();
    leave(sq, rt, owner)
}

// Leaves with nothing done. All feeds that were entered for a connection of the pass's ring before it came are done.
fn leave<R: Resident, W: Wait>(sq: &Squeue<R>, rt: &W, owner: Owner<R>) -> Pass
    requires stands { StandsAtItsAsk R.Resident sq.now [] owner }
    requires nothing { owner.act ≡ Done.None }
    ensures moved { (from : Pass Element) → Came R.limits sq.now from owner.pass → Moved R.limits sq.now Done.None [] from result }
    ensures fed { (from : Pass Element) (d : ℕ) → Came R.limits sq.now from owner.pass → number from ≡ d % sq.now.given.rings
        → is_here (run (setting_of R.limits sq.now.given) (seen result)) d ≡ true
        → fed (acts (setting_of R.limits sq.now.given) (seen result) d) ≡ due (seen result) d }
{
    let Owner {
        pass,
        resident,
        hand,
        act,
    } = owner;
    let turn = sq.turn(rt, pass);
    sq.leave::<Brand>(turn, resident, hand, act)
}

// Does so at each place that was touched, one after another.
fn settle_touched<X: Steps + Drop, H: Wait + Drop, V: Collects<X>>(
    alloc: Global,
    resident: &mut Places<Streams<X, H>>,
    stays: &mut Stays<X::Item, X::State>,
    collector: &mut V,
)
    requires may { (c : ℕ) → Contains (touched_of stays.old) c → MaySettle X.begins resident.old stays.old c }
    ensures keeps { KeepsParts resident.old resident.new }
    ensures same { SamePlaces stays.old stays.new }
    ensures rest { (life_of stays.new ≡ life_of stays.old) × (touched_of stays.new ≡ touched_of stays.old) }
    ensures collected { Collected X.begins X.step V.takes (origin_of resident.old) stays.old (touched_of stays.old) collector.old collector.new }
{
    let count = stays.touched.len();
    for k in 0..count {
        let c = stays.touched[k];
        settle_place(alloc, resident, stays, c, collector);
    }
}

// Does so at one place.
fn settle_place<X: Steps + Drop, H: Wait + Drop, V: Collects<X>>(
    alloc: Global,
    resident: &mut Places<Streams<X, H>>,
    stays: &mut Stays<X::Item, X::State>,
    c: u32,
    collector: &mut V,
)
    requires may { MaySettle X.begins resident.old stays.old c }
    ensures keeps { KeepsParts resident.old resident.new }
    ensures same { SamePlaces stays.old stays.new }
    ensures rest { (life_of stays.new ≡ life_of stays.old) × (stays.new.touched ≡ stays.old.touched) }
    ensures collected { WasCollected X.begins X.step V.takes (origin_of resident.old) collector.old collector.new c (sent_in (place_at stays.old c)) }
{
    let mut stay = stays.take_open(c as usize);
    settle_part(alloc, resident, &mut stay.producer, c, collector);
    let _ = stays.put(c as usize, Place::Open(stay));
}

// Shows the collector a part that has taken all that was pushed, and puts it in again.
fn settle_part<X: Steps + Drop, H: Wait + Drop, V: Collects<X>>(
    alloc: Global,
    resident: &mut Places<Streams<X, H>>,
    producer: &mut Producer<X::Item>,
    c: u32,
    collector: &mut V,
)
    requires here { Here (Stands resident.old) c }
    requires ring { IsOfRing X.begins (origin_of resident.old) c producer.old }
    ensures keeps { KeepsParts resident.old resident.new }
    ensures producer { ProducerLooked producer.old producer.new }
    ensures collected { WasCollected X.begins X.step V.takes (origin_of resident.old) collector.old collector.new c (sent producer.old) }
{
    let mut part = resident.take_out(c);
    resident.shared().take_rest(alloc, &mut part, producer);
    collector.collect(c, &part.state);
    resident.put_in(c, part);
}
