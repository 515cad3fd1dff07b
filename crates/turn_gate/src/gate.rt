//! The gate. Its lock word is 256 times the ticket that is served, plus the number of tickets that are out.
//!
//! `hold` draws the next ticket and waits until it is served; the seat that loads its own ticket takes the value out of
//! the slot. A release puts the value back, stores the length of the history where it adds an element, and serves the
//! next ticket. `try_hold` draws a ticket only where none is out. `hold_soon` tries that for a while, sleeps between, and
//! holds in the end.

ghost use Rattle.std.specs.Prelude.{◌≡◌, ◌≤◌};

use crate::held::Held;
use crate::kept::{Kept, Made};
use crate::pass::{Missed, Pass};
use crate::plays::{Add, Deal, Draw, Free, Glance, Try, Watch};
use crate::rule::GateRule;
use crate::storied::{Names, Storied, Tells};
use crate::views::View;
use atomic_table::{Seat, Table};
use std::alloc::{AllocError, Global};
use std::hint::spin_loop;
use std::marker::Brand;
use std::snapshot::Snapshot;
use std::sync::Wait;
use std::sync::atomic::AtomicU64;
use std::sync::atomic::Ordering::SeqCst;

/// How often `hold` looks at the lock word before it parks.
const LOOKS: u32 = 64;

/// How often `hold_soon` tries before it sleeps.
const TRIES: u32 = 16;

/// How often `hold_soon` sleeps before it draws a ticket.
const SLEEPS: u32 = 16;

/// A ticket lock round one value. Threads share it by reference, where the value may be sent between them.
///
/// # Example
///
/// ```
/// let (gate, mut passes) = Gate::make(rt.alloc(), diary, 2)?;
/// ...
/// let held = gate.hold(&rt, zero);
/// assert_eq!(rt; (held.count(), held.number()), (0, 0));
/// ...
/// let zero = gate.release_plain(held);
/// ...
/// let diary = gate.close(passes);
/// ```
pub struct Gate<T: Storied> {
    table: Table<Option<Kept<T>>, View<T::Element>, Made<T>, GateRule<T>, Global>,
    // How many threads sleep on the lock word, or are about to. It has no rule, and nothing is claimed of it.
    parked: AtomicU64,
    ghost sized: { (table.shared.table_id.words ≡ 2) × (table.shared.table_id.slots ≡ 1) × (1 ≤ table.shared.key.passes) },
}

impl<T: Storied> Gate<T> {
    ghost use Rattle.std.specs.Prelude.{◌+◌, ◌<◌, ◌/◌, ◌^◌, ◌++◌, ◌≢◌, [], ◌∷◌, ℕ, List, length, map, vec_capacity, Some, None, false, MatchResult, IfOk};
    ghost use Rattle.turn_gate.specs.Gates.{gate_id, passes_of, first_of};
    ghost use Rattle.turn_gate.specs.History.{Begins, Each, IsOneOf, only};
    ghost use Rattle.turn_gate.specs.Passes.{IsPassOf, AreFresh, AreAll, IsReturned, freed_once, hit, missed, waited, row_of, number, seen, mine, steps, own};
    ghost use Rattle.turn_gate.specs.Helds.{IsHeldOf, Takes, held_number, held_seen, held_mine, held_steps, held_value, held_row};
    ghost use Rattle.turn_gate.specs.Seats.{HasValue};
    ghost use Rattle.turn_gate.specs.Rule.{dealer, Took, Stays};
    ghost use Rattle.turn_gate.specs.declared.views.Row.{Row};

    /// A gate round the value, and its passes, numbered from 0, at most 64. After an error the value is dropped.
    pub fn make(
        alloc: Global,
        value: T,
        passes: u32,
    ) -> Result<(Gate<T>, Vec<Pass<T::Element>>), AllocError>
    where
        T: Drop,
        requires few { (1 ≤ passes) × (passes ≤ 64) }
        requires start { T.stands value value [] }
        ensures { IfOk result (λ g. (first_of g.0 ≡ value) × (passes_of g.0 ≡ passes) × (length g.1.items ≡ passes)
            × AreFresh T.number (gate_id g.0) 0 g.1.items) }
    {
        let made = Made {
            passes,
            first: Snapshot::of(&value),
        };
        let mut slots = Vec::with_capacity(alloc, 1)?;
        let boxed = Box::new(alloc, value)?;
        slots.push_reserved(Some(Kept {
            value: boxed,
            count: 0,
        }));
        let all = Vec::with_capacity(alloc, passes as usize)?;
        let Ok((table, seat)) = Table::new(alloc, &[0, 0], slots, &made) else {
            all.destroy_empty();
            return Err(AllocError);
        };
        let gate = Gate {
            table,
            parked: AtomicU64::new(0),
        };
        let all = gate.deal_all(seat, passes, all);
        Ok((gate, all))
    }

    /// Takes the gate in its turn, and waits for it: draws a ticket, looks at the lock word some times, and then parks on it.
    pub fn hold<R: Wait>(&self, rt: &R, pass: Pass<T::Element>) -> Held<T>
        requires { IsPassOf T.number (gate_id self.now) pass }
        ensures takes { Takes (T.stands (first_of self.now)) T.number (gate_id self.now) pass result }
        ensures steps { waited (steps pass) (held_steps result) }
    {
        self.hold_as::<R, Brand>(rt, pass)
    }

    /// Takes the gate, and waits for it. It tries for a while, each time where no ticket seems to be out, and pauses longer
    /// after each try; then it sleeps until a release, and tries again. Only after some sleeps it draws a ticket. So a
    /// thread that runs goes before one that doesn't.
    pub fn hold_soon<R: Wait>(&self, rt: &R, pass: Pass<T::Element>) -> Held<T>
        requires { IsPassOf T.number (gate_id self.now) pass }
        ensures takes { Takes (T.stands (first_of self.now)) T.number (gate_id self.now) pass result }
        ensures steps { waited (steps pass) (held_steps result) }
    {
        let mut pass = pass;
        for _ in 0..SLEEPS {
            match self.attempts(pass) {
                Ok(held) => return held,
                Err(back) => pass = back,
            }
            self.sleep_while_taken(rt);
        }
        self.hold(rt, pass)
    }

    // Sleeps until a release, where a ticket is out.
    fn sleep_while_taken<R: Wait>(&self, rt: &R) {
        let shown = self.table.shared.peek(0);
        if shown % 256 > 0 {
            self.sleep(rt, shown);
        }
    }

    // Tries to take the gate, but not for ever.
    fn attempts(&self, pass: Pass<T::Element>) -> Result<Held<T>, Pass<T::Element>>
        requires { IsPassOf T.number (gate_id self.now) pass }
        ensures { MatchResult result
            (λ h. Takes (T.stands (first_of self.now)) T.number (gate_id self.now) pass h × waited (steps pass) (held_steps h))
            (λ q. IsReturned T.number (gate_id self.now) pass q × waited (steps pass) (steps q)) }
    {
        let mut pass = pass;
        for k in 0..TRIES {
            match self.try_once(pass) {
                Ok(held) => return Ok(held),
                Err(back) => pass = back,
            }
            back_off(k);
        }
        Err(pass)
    }

    // Tries where no ticket seems to be out.
    fn try_once(&self, pass: Pass<T::Element>) -> Result<Held<T>, Pass<T::Element>>
        requires { IsPassOf T.number (gate_id self.now) pass }
        ensures { MatchResult result
            (λ h. Takes (T.stands (first_of self.now)) T.number (gate_id self.now) pass h × waited (steps pass) (held_steps h))
            (λ q. IsReturned T.number (gate_id self.now) pass q × waited (steps pass) (steps q)) }
    {
        if self.table.shared.peek(0) % 256 > 0 {
            return Err(pass);
        }
        match self.try_hold(pass) {
            Ok(held) => Ok(held),
            Err(
                Missed {
                    pass,
                    expected: _,
                    found: _,
                },
            ) => Err(pass),
        }
    }

    /// Takes the gate where it is free, and doesn't wait. It loads the lock word once and makes one exchange. `Missed` where
    /// that found a ticket out, or another turn had passed since the load.
    pub fn try_hold(&self, pass: Pass<T::Element>) -> Result<Held<T>, Missed<T::Element>>
        requires { IsPassOf T.number (gate_id self.now) pass }
        ensures { MatchResult result
            (λ h. Takes (T.stands (first_of self.now)) T.number (gate_id self.now) pass h × hit (steps pass) (held_steps h))
            (λ m. missed (steps pass) m × IsReturned T.number (gate_id self.now) pass m.pass) }
    {
        self.try_hold_as::<Brand>(pass)
    }

    /// Adds one element to the history, which `N` names, and frees the gate.
    pub fn release<N: Names<T::Element>>(&self, held: Held<T>, mark: T::Mark) -> Pass<T::Element>
        requires gate { IsHeldOf T.number (gate_id self.now) held }
        requires element { IsOneOf T.number (held_number held) N.elements }
        requires value { T.stands (first_of self.now) (held_value held) (held_seen held ++ N.elements) }
        requires count { length (held_seen held) < 2 ^ 63 }
        ensures gate { IsPassOf T.number (gate_id self.now) result × (number result ≡ held_number held) }
        ensures seen { seen result ≡ held_seen held ++ N.elements }
        ensures mine { mine result ≡ held_mine held ++ N.elements }
        ensures steps { freed_once (held_steps held) (steps result) }
    {
        let _ = mark;
        let number = held.number;
        let count = held.count + 1;
        let mut seat = self.put_back(held, count);
        self.table.shared.store::<Add<N>>(&mut seat, 1, count);
        self.serve_next(seat, number)
    }

    /// Frees the gate, and adds nothing to the history.
    pub fn release_plain(&self, held: Held<T>) -> Pass<T::Element>
        requires gate { IsHeldOf T.number (gate_id self.now) held }
        requires value { T.stands (first_of self.now) (held_value held) (held_seen held) }
        ensures gate { IsPassOf T.number (gate_id self.now) result × (number result ≡ held_number held) }
        ensures seen { seen result ≡ held_seen held }
        ensures mine { mine result ≡ held_mine held }
        ensures steps { freed_once (held_steps held) (steps result) }
    {
        let number = held.number;
        let count = held.count;
        let seat = self.put_back(held, count);
        self.serve_next(seat, number)
    }

    /// Ends the gate, and gives the value. It stands for a history of which each pass has seen a beginning, and whose
    /// elements of a pass's number are the pass's own.
    pub fn close(self, passes: Vec<Pass<T::Element>>) -> T
        requires { AreAll T.number (gate_id self) (passes_of self) passes.items }
        ensures { (story : List T.Element) × T.stands (first_of self) result story
            × Each (λ p. Begins (seen p) story × (only T.number (number p) story ≡ mine p)) passes.items
            × ((q : ℕ) → passes_of self ≤ q → only T.number q story ≡ []) }
    {
        let seat = self.gather(passes);
        let Gate { table, parked: _ } = self;
        let mut closed = table.close_with(seat);
        let slot = closed.take(0);
        closed.free();
        let Some(Kept { value, count: _ }) = slot else {
            unreachable!()
        };
        Box::into_inner(value)
    }

    // `hold`, where the seat learns what `G` says of a value that stands for a history.
    fn hold_as<R: Wait, G: Tells<T, T::Element>>(&self, rt: &R, pass: Pass<T::Element>) -> Held<T>
        requires pass { IsPassOf T.number (gate_id self.now) pass }
        requires told { (x : T) (h : List T.Element) → T.stands (first_of self.now) x h → G.tells x h }
        ensures takes { Takes G.tells T.number (gate_id self.now) pass result }
        ensures steps { waited (steps pass) (held_steps result) }
    {
        let Pass { badge, number } = pass;
        let mut seat = badge.into_seat();
        let drawn = self.table.shared.fetch_add::<Draw>(&mut seat, 0, 1);
        let ticket = (drawn / 256 + drawn % 256) % (1 << 56);
        for _ in rt.forever() {
            let shown = self.look::<G>(&mut seat, ticket);
            if shown / 256 == ticket {
                return self.taken::<G>(seat, number);
            }
            self.sleep(rt, shown);
        }
        unreachable!()
    }

    // Sleeps while the lock word is as shown, which has a ticket out. Who releases afterwards wakes, and who released
    // before has changed the word.
    fn sleep<R: Wait>(&self, rt: &R, shown: u64) {
        self.parked.fetch_add(1, SeqCst);
        self.table.shared.park(rt, 0, (shown % (1 << 32)) as u32);
        self.parked.fetch_sub(1, SeqCst);
    }

    // Wakes who sleeps, if anybody does. Where other tickets are out, the next one is somewhere among the sleepers, so all
    // are woken; else any one may try.
    fn wake(&self, others_out: bool) {
        if self.parked.load(SeqCst) == 0 {
            return;
        }
        if others_out {
            self.table.shared.wake_all(0);
        } else {
            self.table.shared.wake_one(0);
        }
    }

    // Looks at the lock word until it shows the ticket, but not for ever, and returns what it found last.
    fn look<G: Tells<T, T::Element>>(
        &self,
        seat: &mut Seat<Option<Kept<T>>, View<T::Element>>,
        ticket: u64,
    ) -> u64
        requires table { seat.old.table_id ≡ gate_id self.now }
        requires told { (x : T) (h : List T.Element) → T.stands (first_of self.now) x h → G.tells x h }
        requires waits { (r : Row T.Element) × (seat.old.me.0.rows ≡ r ∷ []) × (seat.old.me.0.ticket ≡ Some ticket) × (seat.old.me.0.has ≡ false) }
        ensures table { seat.new.table_id ≡ seat.old.table_id }
        ensures served { result / 256 ≡ ticket → Took G.tells T.number ticket seat.old.me seat.new.me }
        ensures waits { result / 256 ≢ ticket → Stays seat.old.me seat.new.me }
        ensures steps { waited seat.old.me.0.steps seat.new.me.0.steps }
    {
        for _ in 0..LOOKS {
            let found = self.table.shared.load::<Watch<T, G>>(seat, 0);
            if found / 256 == ticket {
                return found;
            }
            spin_loop();
        }
        self.table.shared.load::<Watch<T, G>>(seat, 0)
    }

    // `try_hold`, where the seat learns what `G` says of a value that stands for a history.
    fn try_hold_as<G: Tells<T, T::Element>>(
        &self,
        pass: Pass<T::Element>,
    ) -> Result<Held<T>, Missed<T::Element>>
        requires pass { IsPassOf T.number (gate_id self.now) pass }
        requires told { (x : T) (h : List T.Element) → T.stands (first_of self.now) x h → G.tells x h }
        ensures { MatchResult result
            (λ h. Takes G.tells T.number (gate_id self.now) pass h × hit (steps pass) (held_steps h))
            (λ m. missed (steps pass) m × IsReturned T.number (gate_id self.now) pass m.pass) }
    {
        let Pass { badge, number } = pass;
        let mut seat = badge.into_seat();
        let word = self.table.shared.load::<Glance>(&mut seat, 0);
        let expected = word / 256 * 256;
        let found = self
            .table
            .shared
            .compare_exchange::<Try<T, G>>(&mut seat, 0, expected, expected + 1);
        if found == expected {
            Ok(self.taken::<G>(seat, number))
        } else {
            let badge = seat.into_badge();
            Err(Missed {
                pass: Pass { badge, number },
                expected,
                found,
            })
        }
    }

    // The seat has the slot, so it takes the value out.
    fn taken<G: Tells<T, T::Element>>(
        &self,
        mut seat: Seat<Option<Kept<T>>, View<T::Element>>,
        holder: u32,
    ) -> Held<T>
        requires { HasValue G.tells T.number (gate_id self.now) holder seat }
        ensures held { IsHeldOf T.number (gate_id self.now) result × G.tells (held_value result) (held_seen result) }
        ensures same { (held_number result ≡ holder) × (held_row result ≡ own seat.me.0.rows) × (held_steps result ≡ seat.me.0.steps) }
    {
        let old = self.table.shared.exchange(&mut seat, 0, None);
        let Some(Kept { value, count }) = old else {
            unreachable!()
        };
        Held {
            seat,
            value,
            count,
            number: holder,
        }
    }

    // Puts the value into the slot, which the seat still has.
    fn put_back(&self, held: Held<T>, count: u64) -> Seat<Option<Kept<T>>, View<T::Element>>
        requires { IsHeldOf T.number (gate_id self.now) held }
        ensures table { result.table_id ≡ gate_id self.now }
        ensures me { result.me ≡ (held.seat.me.0, (0, Some (record { value = held.value; count = count })) ∷ []) }
    {
        let Held {
            mut seat,
            value,
            count: _,
            number: _,
        } = held;
        let old = self
            .table
            .shared
            .exchange(&mut seat, 0, Some(Kept { value, count }));
        let None = old else { unreachable!() };
        seat
    }

    // Gives the slot back and serves the next ticket.
    fn serve_next(
        &self,
        mut seat: Seat<Option<Kept<T>>, View<T::Element>>,
        holder: u32,
    ) -> Pass<T::Element>
        requires { HasValue (T.stands (first_of self.now)) T.number (gate_id self.now) holder seat }
        ensures gate { IsPassOf T.number (gate_id self.now) result × (number result ≡ holder) }
        ensures row { row_of result ≡ own seat.me.0.rows }
        ensures steps { freed_once seat.me.0.steps (steps result) }
    {
        let found = self.table.shared.fetch_add::<Free>(&mut seat, 0, 255);
        self.wake(found % 256 > 1);
        let badge = seat.into_badge();
        Pass {
            badge,
            number: holder,
        }
    }

    // Deals the seat's numbers into passes, for which `all` has the room.
    fn deal_all(
        &self,
        mut seat: Seat<Option<Kept<T>>, View<T::Element>>,
        passes: u32,
        mut all: Vec<Pass<T::Element>>,
    ) -> Vec<Pass<T::Element>>
        requires seat { (seat.table_id ≡ gate_id self.now) × (seat.me ≡ (dealer 0 passes, [])) }
        requires room { (all.items ≡ []) × (passes ≤ vec_capacity all) }
        ensures { (length result.items ≡ passes) × AreFresh T.number (gate_id self.now) 0 result.items }
    {
        for k in 0..passes {
            let one = self.table.shared.split_seat::<Deal>(&mut seat);
            let badge = one.into_badge();
            all.push_reserved(Pass { badge, number: k });
        }
        all
    }

    // Joins the passes into one seat, which then has the rows of all.
    fn gather(&self, mut passes: Vec<Pass<T::Element>>) -> Seat<Option<Kept<T>>, View<T::Element>>
        requires { AreAll T.number (gate_id self.now) (passes_of self.now) passes.items }
        ensures { (result.table_id ≡ gate_id self.now) × (result.me.1 ≡ []) × (result.me.0.ticket ≡ None) × (result.me.0.rows ≡ map row_of passes.items) }
    {
        let Some(Pass { badge, number: _ }) = passes.pop() else {
            unreachable!()
        };
        let mut seat = badge.into_seat();
        while let Some(pass) = passes.pop() {
            let Pass { badge, number: _ } = pass;
            self.table
                .shared
                .join_seat::<Deal>(&mut seat, badge.into_seat());
        }
        passes.destroy_empty();
        seat
    }
}

// Waits a little, and longer after more tries.
fn back_off(tries: u32) {
    for _ in 0..1u32 << tries.min(8) {
        spin_loop();
    }
}
