//! The squeue object: how it is made, its turns, and its end.
ghost use Rattle.std.specs.Prelude.{◌≡◌, ◌+◌, ◌*◌, ◌<◌, ◌≤◌, [], length, map, true, false, if◌then◌else◌, MatchResult, IfOk, IsSome, Some};
ghost use Rattle.perimeter_core.specs.Perimeter.{Idle};
ghost use Rattle.perimeter_core.specs.History.{run, all_quotas, feed_quotas};
ghost use Rattle.perimeter_core.specs.Blocks.{peri};
ghost use Rattle.squeue_state.specs.Told.{marks_of};
ghost use Rattle.histories.specs.Limits.{most_asks, most_ever, most_feeds, most_quotas, most_room};
ghost use Rattle.squeue_state.specs.Naming.{Chosen, setting_of};
ghost use Rattle.histories.specs.Endings.{Ending, HasEnded};
ghost use Rattle.squeue_state.specs.Endings.{ending_of, seen_by};
ghost use Rattle.squeue_state.specs.AllRoom.{HasAllRoom};
ghost use Rattle.squeue_state.specs.Behind.{IsPeri, ever, room_of};
ghost use Rattle.histories.specs.Quotas.{pairs, ask_quotas};
ghost use Rattle.histories.specs.Elements.{number_of, closed_by};
ghost use Rattle.squeue_state.specs.Clauses.{Found, Unmarked, Added, HasSeenEnd, Knows, IsMade, StandsEmpty};
ghost use Rattle.turn_gate.specs.Passes.{IsPassOf, IsReturned, AreAll, AreFresh, hit, missed, number, seen, steps};
ghost use Rattle.turn_gate.specs.History.{Each};

use crate::bell::Bells;
use crate::ended::Ended;
use crate::event::{End, Event, Facts};
use crate::guarded::{Guarded, Life};
use crate::inner::Inner;
use crate::room::{Room, flags, here_flags, lives_of, room_for};
use crate::trace::Trace;
use crate::turn::Turn;
use histories::Quota;
use perimeter_core::{Known, Own, Resident};
use std::alloc::{AllocError, Global};
use std::marker::Model;
use std::sync::Wait;
use turn_gate::Gate;

/// A pass of a squeue: the right to use it, under a number. Each call takes it by value and gives it back, so one thread at a
/// time has it. It must be spent, by `Squeue::finish`. Contracts see its number, the beginning of the history that it has
/// `seen`, its own elements in that, `mine`, and its `steps` on the lock word.
pub type Pass = turn_gate::Pass<Event>;

/// The gate of a squeue was held when `try_turn` or `try_fill` looked. It must be spent, for the pass is in it, as it was but
/// for the steps on the lock word.
pub type Missed = turn_gate::Missed<Event>;

/// A perimeter behind a gate. Threads share it by reference. Contracts see which gate it has, and what it was made with.
///
/// # Example
///
/// ```
/// let logs = Logs::make(alloc, &[true, false], 2, 1, Vec::new(alloc))?;
/// let quotas = [Quota { feeds: 2, asks: 1 }, Quota { feeds: 0, asks: 1 }];
/// Squeue::make(alloc, 7, logs, 1, &quotas, true)
/// ```
pub struct Squeue<R: Resident> {
    pub(crate) gate: Gate<Guarded<R>>,
    pub(crate) bells: Bells,
    number: u32,
}

impl<R: Resident> Model for Squeue<R> {
    ghost use Rattle.std.specs.Prelude.{◌≡◌, ◌+◌, length};
    ghost use Rattle.turn_gate.specs.Gates.{passes_of};
    ghost use Rattle.squeue_state.specs.Naming.{Named};
    ghost use Rattle.squeue_state.specs.Clauses.{named_of};

    ghost Value = { Named R };

    ghost view = { λ s. named_of s.gate };

    ghost invariant = { λ s. ((named_of s.gate).given.number ≡ s.number) × (passes_of s.gate ≡ length (named_of s.gate).given.quotas + 1) };
}

impl<R: Resident> Squeue<R> {
    /// Makes a squeue and its passes, one for each quota and the worker's last. It takes all memory that the squeue will
    /// ever need: two buffers for what may be queued, a flag for each connection and each pass, a bell for each pass, and with
    /// `trace` room for all marks that may come. The resident's blocks are as new. After an error the resident is dropped.
    ///
    /// `number` names the squeue to hooks, reports and hints. The first `rings` passes are rings, and pass `c mod rings` alone
    /// brings the feeds of connection `c`. The others are application threads'. `quotas` says how much each may ever enter.
    /// There are 1 to 63 quotas, so at most 64 passes. All quotas together have at most 2^30 feeds and 2^40 asks.
    /// The only error is want of memory.
    pub fn make(
        alloc: Global,
        number: u32,
        resident: R,
        rings: u32,
        quotas: &[Quota],
        trace: bool,
    ) -> Result<(Squeue<R>, Vec<Pass>), AllocError>
    where
        R: Drop,
        requires few { (1 ≤ length quotas.now) × (length quotas.now ≤ most_quotas) }
        requires rings { (1 ≤ rings) × (rings ≤ length quotas.now) }
        requires feeds { feed_quotas (pairs quotas.now) ≤ most_feeds }
        requires asks { ask_quotas (pairs quotas.now) ≤ most_asks }
        requires fresh { StandsEmpty (R.stands resident) }
        ensures given { IfOk result (λ r. IsMade R.stands R.size number rings (pairs quotas.now) trace (room_of (pairs quotas.now)) resident r.0.given) }
        ensures room { IfOk result (λ r. HasAllRoom r.0.given) }
        ensures passes { IfOk result (λ r. (length r.1.items ≡ length quotas.now + 1) × AreFresh number_of r.0.gate 0 r.1.items) }
    {
        let lives = lives_of(alloc, quotas)?;
        let room = room_for(quotas);
        Squeue::make_in(alloc, number, resident, rings, &lives, trace, room)
    }

    /// The same, but that room is apart from what may ever be entered: each pass has a life in place of a quota, and `room`
    /// is how many entries may be queued at once, those in an owner's hand among them. Behind them an Ask of each pass
    /// always fits. Memory is taken for the room alone, and no marks are kept.
    ///
    /// There are 1 to 63 lives, of at most 2^58 feeds and 2^58 asks together, and 1 to 2^30 places. The only error is want of
    /// memory.
    pub fn make_bounded(
        alloc: Global,
        number: u32,
        resident: R,
        rings: u32,
        lives: &[Life],
        room: u32,
    ) -> Result<(Squeue<R>, Vec<Pass>), AllocError>
    where
        R: Drop,
        requires few { (1 ≤ length lives.now) × (length lives.now ≤ most_quotas) }
        requires rings { (1 ≤ rings) × (rings ≤ length lives.now) }
        requires feeds { feed_quotas (ever lives.now) ≤ most_ever }
        requires asks { ask_quotas (ever lives.now) ≤ most_ever }
        requires room { (1 ≤ room) × (room ≤ most_feeds) }
        requires fresh { StandsEmpty (R.stands resident) }
        ensures given { IfOk result (λ r. IsMade R.stands R.size number rings (ever lives.now) false (room + length lives.now) resident r.0.given) }
        ensures passes { IfOk result (λ r. (length r.1.items ≡ length lives.now + 1) × AreFresh number_of r.0.gate 0 r.1.items) }
    {
        let room = Room {
            queue: room as usize + lives.len(),
            marks: 0,
            entries: 0,
        };
        Squeue::make_in(alloc, number, resident, rings, lives, false, room)
    }

    // A squeue with this room, which has all marks and their entries where the marks are kept.
    fn make_in(
        alloc: Global,
        number: u32,
        resident: R,
        rings: u32,
        lives: &[Life],
        trace: bool,
        room: Room,
    ) -> Result<(Squeue<R>, Vec<Pass>), AllocError>
    where
        R: Drop,
        requires few { (1 ≤ length lives.now) × (length lives.now ≤ most_quotas) }
        requires rings { (1 ≤ rings) × (rings ≤ length lives.now) }
        requires feeds { feed_quotas (ever lives.now) ≤ most_ever }
        requires asks { ask_quotas (ever lives.now) ≤ most_ever }
        requires queue { (length lives.now ≤ room.queue) × (room.queue ≤ most_room) }
        requires marks { trace ≡ true → room.marks ≡ 8 * all_quotas (ever lives.now) + 4 * (length lives.now + 1) }
        requires entries { trace ≡ true → room.entries ≡ all_quotas (ever lives.now) }
        requires fresh { StandsEmpty (R.stands resident) }
        ensures given { IfOk result (λ r. IsMade R.stands R.size number rings (ever lives.now) trace room.queue resident r.0.given) }
        ensures passes { IfOk result (λ r. (length r.1.items ≡ length lives.now + 1) × AreFresh number_of r.0.gate 0 r.1.items) }
    {
        let count = lives.len() + 1;
        let here = here_flags(alloc, &resident)?;
        let facts = chosen(number, rings, lives, &here, trace, room.queue);
        let first = Known::of(&resident);
        let inner = Inner {
            own: Own::Free,
            chain: Vec::with_capacity(alloc, room.queue)?,
            spare: Some(Vec::with_capacity(alloc, room.queue)?),
            wake: false,
            polling: false,
            here,
            closed: flags(alloc, count)?,
            resident: Some(resident),
            in_hand: 0,
        };
        let guarded = Guarded {
            inner,
            traced: trace,
            trace: new_trace(alloc, trace, room)?,
            facts,
            first,
        };
        let bells = Bells::for_passes(alloc, lives.len())?;
        let (gate, passes) = Gate::make(alloc, guarded, count as u32)?;
        Ok((
            Squeue {
                gate,
                bells,
                number,
            },
            passes,
        ))
    }

    /// The number that the squeue was made with.
    pub fn number(&self) -> u32
        ensures { result ≡ self.now.given.number }
    {
        self.number
    }

    /// Waits for the gate, and takes it. The turn has found a history that goes on from what the pass had seen with elements
    /// of others alone. No other thread gets the gate until the turn is spent.
    pub fn turn<W: Wait>(&self, rt: &W, pass: Pass) -> Turn<R>
        requires { IsPassOf number_of self.now.gate pass }
        ensures { Found R.limits self.now pass result }
    {
        Turn {
            held: self.gate.hold_soon(rt, pass),
            of: Known::of(self),
        }
    }

    /// Takes the gate where it is free, and doesn't wait. `Missed` says that it was held, and has the pass back.
    pub fn try_turn(&self, pass: Pass) -> Result<Turn<R>, Missed>
        requires { IsPassOf number_of self.now.gate pass }
        ensures { MatchResult result (λ t. Found R.limits self.now pass t × hit (steps pass) t.made) (λ m. missed (steps pass) m
            × IsReturned number_of self.now.gate pass m.pass) }
    {
        let held = self.gate.try_hold(pass)?;
        Ok(Turn {
            held,
            of: Known::of(self),
        })
    }

    /// Ends a turn without a mark: the squeue is as the turn found it, and the pass has seen what the turn found.
    pub fn plain(&self, turn: Turn<R>) -> Pass
        requires { turn.squeue ≡ self.now }
        ensures { Unmarked turn result }
    {
        let Turn { held, of: _ } = turn;
        self.gate.release_plain(held)
    }

    /// The pass is about to look, in a turn, for what it waits for: the worker's for entries that wait for it or a pass that
    /// is closed, another one for the perimeter to be granted to it. From now on a mark that brings this rings for it.
    pub fn listen(&self, pass: &Pass) {
        self.bells.of(pass.number()).listen();
    }

    /// Sleeps until it was rung for the pass since it began to listen, after it has looked for that for a short while. It may
    /// return without a ring, and no clause says when it does.
    pub fn sleep<W: Wait>(&self, rt: &W, pass: &Pass) {
        self.bells.of(pass.number()).sleep(rt);
    }

    /// Closes the pass, which then enters, asks and closes no more, in a turn of its own. The pass isn't the worker's, and is
    /// neither owner nor waiting.
    pub fn close_pass<W: Wait>(&self, rt: &W, pass: Pass) -> Pass
        requires pass { IsPassOf number_of self.now.gate pass }
        requires other { number pass < length self.now.given.quotas }
        requires idle { Idle (run (setting_of R.limits self.now.given) (seen pass)) (number pass) }
        ensures { Added R.limits self.now pass (closed_by (number pass)) result }
    {
        let turn = self.turn(rt, pass);
        self.close(turn)
    }

    /// Takes the squeue apart after its end, which the worker's pass has seen. What it gives is all by one history, of
    /// which every pass has seen a beginning.
    pub fn finish(self, passes: Vec<Pass>) -> (R, Ended, Trace)
        requires all { AreAll number_of self.gate (length self.given.quotas + 1) passes.items }
        requires over { Each (HasSeenEnd (setting_of R.limits self.given)) passes.items }
        ensures setting { (result.1.number ≡ self.given.number) × (result.1.setting ≡ setting_of R.limits self.given) }
        ensures ended { HasEnded result.1 }
        ensures passes { Each (Knows result.1.history) passes.items }
        ensures resident { IsPeri R.Resident self.given result.0 (peri (setting_of R.limits self.given) result.1.history) }
        ensures trace { marks_of result.2 ≡ (if self.given.traced then map (λ e. e.mark) result.1.history else []) }
    {
        let ending = ending(&self, &passes);
        let Squeue {
            gate,
            bells: _,
            number,
        } = self;
        let (resident, trace) = parts_of(gate.close(passes));
        (resident, Ended { number, ending }, trace)
    }
}

// An empty trace, which has room where marks are kept.
fn new_trace(alloc: Global, kept: bool, room: Room) -> Result<Trace, AllocError>
    ensures empty { IfOk result (λ t. (t.marks ≡ []) × (t.entries ≡ [])) }
    ensures room { IfOk result (λ t. (t.mark_room ≡ (if kept then room.marks else 0)) × (t.entry_room ≡ (if kept then room.entries else 0))) }
{
    if kept {
        Trace::with_room(alloc, room.marks, room.entries)
    } else {
        Trace::with_room(alloc, 0, 0)
    }
}

// What the squeue is made with, for contracts.
fn chosen(
    number: u32,
    rings: u32,
    lives: &[Life],
    here: &[bool],
    trace: bool,
    room: usize,
) -> Known<Facts>
    ensures { result.value ≡ record { number = number; rings = rings; quotas = ever lives.now; starts = here.now; traced = trace; room = room } }
{
    chosen_as(number, rings, lives, here, trace, room)
}

// What the facts are made of is passed beside them, since a pick sees the call's arguments alone.
fn chosen_as(
    _number: u32,
    _rings: u32,
    _lives: &[Life],
    _here: &[bool],
    _trace: bool,
    _room: usize,
) -> Known<Facts>
    ghost chosen: { Chosen }
    ensures { result.value ≡ chosen }
{
    Known::pick()
}

// How the squeue ends, where the worker's pass has seen its end.
fn ending<R: Resident>(squeue: &Squeue<R>, passes: &Vec<Pass>) -> Known<End>
    ensures { result.value ≡ ending_of R.limits squeue.now.given (seen_by (length squeue.now.given.quotas) passes.now.items) }
{
    picked(squeue, passes)
}

// What the ending is made of is passed beside it, since a pick sees the call's arguments alone.
fn picked<R: Resident>(_squeue: &Squeue<R>, _passes: &Vec<Pass>) -> Known<End>
    ghost ending: { Ending }
    ensures { result.value ≡ ending }
{
    Known::pick()
}

// The resident, where it lies in the gate, and the marks.
fn parts_of<R: Resident>(value: Guarded<R>) -> (R, Trace)
    requires { IsSome value.inner.resident }
    ensures { (value.inner.resident ≡ Some result.0) × (result.1 ≡ value.trace) }
{
    let Guarded {
        inner,
        traced: _,
        trace,
        facts: _,
        first: _,
    } = value;
    let Inner {
        own: _,
        chain: _,
        spare: _,
        wake: _,
        polling: _,
        here: _,
        closed: _,
        resident,
        in_hand: _,
    } = inner;
    match resident {
        Some(resident) => (resident, trace),
        None => unreachable!(),
    }
}
