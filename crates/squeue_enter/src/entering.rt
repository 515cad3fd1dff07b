//! Entering with a chain of feeds.
ghost use Rattle.std.specs.Prelude.{◌≡◌, ◌+◌, ◌≤◌, ◌<◌, ◌∷◌, [], length, IfOk, IfErr, MatchResult};
ghost use Rattle.turn_gate.specs.Passes.{IsReturned, missed, steps};
ghost use Rattle.turn_gate.specs.declared.pass.Pass.{Pass};
ghost use Rattle.perimeter_core.specs.History.{Element};
ghost use Rattle.squeue_state.specs.Naming.{setting_of};
ghost use Rattle.squeue_state.specs.Behind.{FeedsFit};
ghost use Rattle.histories.specs.Elements.{number_of};
ghost use Rattle.squeue_enter.specs.Ways.{way_of};
ghost use Rattle.squeue_state.specs.AllRoom.{HasAllRoom};
ghost use Rattle.squeue_enter.specs.Entering.{MayEnter, IsTurnFor, HasEntered, HasFilled, HasTurned, WasFull, Brought, MayGoOn};

use histories::Mode;
use perimeter_core::{Feed, Hook, Resident, is_polling};
use squeue_drain::{Owner, drain, is_free, serve_one};
use squeue_state::{Missed, Pass, Squeue, Turn};
use std::alloc::Global;
use std::sync::Wait;

/// What an entry did: it took the perimeter with its one feed; it took it with all that was queued; or it queued its chain,
/// and woke the worker where nobody had the perimeter. `rest` is the number of entries that are queued after it.
#[derive(Clone, Copy, Debug, PartialEq, Eq)]
pub enum How {
    /// The pass was owner with its one feed, which never was queued.
    Fast { rest: u32 },
    /// The pass was owner with all that was queued and its chain behind that.
    Drained { rest: u32 },
    /// The chain was queued. `woke` says that nobody had the perimeter, so that the worker is to run.
    Queued { woke: bool },
}

/// An entry's answer: the pass, what it did, and whether the ring is to bring chains from now on (a backlog of 16 entries was
/// reached, and isn't gone). It must be spent.
pub struct Entered {
    pub pass: Pass,
    pub how: How,
    pub polling: bool,
}

// The ways of an entry. `Alone` is `Fast` without a drain.
#[derive(Clone, Copy)]
pub(crate) enum Way {
    Fill,
    Fast,
    Alone,
    Claim,
}

/// Enters the feeds of the chain, which isn't empty (illumos' `squeue_enter`). The first turn decides by the mode.
///
/// `chain` has the next feeds of the ring's connections, in order; `pass` is the ring's. Where the pass is owner, it processes
/// at most `budget` feeds, the queue's among them, and leaves the others or grants. Each goes first to `hook`, and then to
/// the resident with `alloc`, outside of the gate. Only the resident may want memory, and there is no error.
///
/// # Example
///
/// ```
/// let chain = [Feed { c: 2, n: 0 }, Feed { c: 2, n: 1 }];
/// let Entered {
///     pass: ring_a,
///     how,
///     polling: _,
/// } = enter(&a, &rt, alloc, &NoHook, ring_a, &chain, Mode::Fill, 64);
/// assert_eq!(rt; how, How::Queued { woke: true });
/// ```
pub fn enter<R: Resident, H: Hook, W: Wait>(
    sq: &Squeue<R>,
    rt: &W,
    alloc: Global,
    hook: &H,
    pass: Pass,
    chain: &[Feed],
    mode: Mode,
    budget: u32,
) -> Entered
    requires some { 0 < length chain.now }
    requires may { MayEnter R.limits sq.now pass chain.now }
    requires budget { 1 ≤ budget }
    requires room { HasAllRoom sq.now.given }
    ensures entered { HasEntered R.limits sq.now mode budget chain.now pass result }
    ensures brought { Brought R.limits sq.now chain.now pass result.pass }
    ensures more { MayGoOn R.limits sq.now chain.now pass result.pass }
{
    let turn = sq.turn(rt, pass);
    enter_in(sq, rt, alloc, hook, turn, chain, mode, budget)
}

/// Enters the feeds of the chain, which isn't empty, where they fit behind what is queued. Else nothing is entered, the
/// pass comes back, and it may try again. The first turn decides both. The parameters are those of `enter`. `Err` comes only
/// where what is queued, what is in an owner's hand, the chain and an Ask of each pass are more than the room.
pub fn enter_or_full<R: Resident, H: Hook, W: Wait>(
    sq: &Squeue<R>,
    rt: &W,
    alloc: Global,
    hook: &H,
    pass: Pass,
    chain: &[Feed],
    mode: Mode,
    budget: u32,
) -> Result<Entered, Pass>
    requires some { 0 < length chain.now }
    requires may { MayEnter R.limits sq.now pass chain.now }
    requires budget { 1 ≤ budget }
    ensures entered { IfOk result (λ r. HasEntered R.limits sq.now mode budget chain.now pass r) }
    ensures full { IfErr result (λ q. WasFull R.limits sq.now (length chain.now) pass q) }
    ensures brought { MatchResult result (λ r. Brought R.limits sq.now chain.now pass r.pass) (λ q. Brought R.limits sq.now [] pass q) }
    ensures more { MatchResult result (λ r. MayGoOn R.limits sq.now chain.now pass r.pass) (λ q. MayGoOn R.limits sq.now [] pass q) }
{
    let turn = sq.turn(rt, pass);
    if turn.fits(chain.len()) {
        Ok(enter_in(sq, rt, alloc, hook, turn, chain, mode, budget))
    } else {
        Err(sq.plain(turn))
    }
}

// Enters the feeds in a turn that found room for them.
fn enter_in<R: Resident, H: Hook, W: Wait>(
    sq: &Squeue<R>,
    rt: &W,
    alloc: Global,
    hook: &H,
    turn: Turn<R>,
    chain: &[Feed],
    mode: Mode,
    budget: u32,
) -> Entered
    requires some { 0 < length chain.now }
    requires turn { (p : Pass Element) × IsTurnFor R.limits sq.now chain.now turn p }
    requires budget { 1 ≤ budget }
    requires room { FeedsFit (setting_of R.limits sq.now.given) sq.now.given.room turn.found (length chain.now) }
    ensures { (p : Pass Element) → IsTurnFor R.limits sq.now chain.now turn p → HasEntered R.limits sq.now mode budget chain.now p result }
{
    let woke = is_free(turn.own());
    match choose(mode, woke, turn.chain_len() == 0, chain.len() == 1) {
        Way::Fill => {
            let polling = is_polling(turn.chain_len() as usize + chain.len(), turn.polling());
            let pass = sq.fill(turn, chain);
            let how = How::Queued { woke };
            Entered { pass, how, polling }
        }
        Way::Fast => {
            let owner = Owner::of(sq.fast(turn, chain[0]));
            let (pass, rest, polling) = drain(sq, rt, alloc, hook, owner, budget);
            let how = How::Fast { rest };
            Entered { pass, how, polling }
        }
        Way::Alone => {
            let owner = Owner::of(sq.fast(turn, chain[0]));
            let (pass, rest, polling) = serve_one(sq, rt, alloc, hook, owner, chain[0]);
            let how = How::Fast { rest };
            Entered { pass, how, polling }
        }
        Way::Claim => {
            let owner = Owner::of(sq.claim(turn, chain));
            let (pass, rest, polling) = drain(sq, rt, alloc, hook, owner, budget);
            let how = How::Drained { rest };
            Entered { pass, how, polling }
        }
    }
}

/// Queues one feed where the gate is free, and doesn't wait. Where the gate is held nothing is entered, and `Missed`
/// has the pass back: nothing is queued, and the pass may try again.
pub fn try_fill<R: Resident>(sq: &Squeue<R>, pass: Pass, feed: Feed) -> Result<Pass, Missed>
    requires may { MayEnter R.limits sq.now pass (feed ∷ []) }
    requires room { HasAllRoom sq.now.given }
    ensures filled { MatchResult result (λ q. HasFilled R.limits sq.now pass (feed ∷ []) q × HasTurned (steps pass) (steps q)) (λ m. missed (steps pass) m
        × IsReturned number_of sq.now.gate pass m.pass) }
    ensures brought { IfOk result (λ q. Brought R.limits sq.now (feed ∷ []) pass q) }
    ensures more { IfOk result (λ q. MayGoOn R.limits sq.now (feed ∷ []) pass q) }
{
    match sq.try_turn(pass) {
        Ok(turn) => Ok(sq.fill(turn, &[feed])),
        Err(missed) => Err(missed),
    }
}

/// Queues the feeds of the chain, which isn't empty, where they fit behind what is queued. Else nothing is entered, the
/// pass comes back, and it may try again. It is `enter_or_full` by `Mode::Fill`, without a resident's feed.
pub fn fill_or_full<R: Resident, W: Wait>(
    sq: &Squeue<R>,
    rt: &W,
    pass: Pass,
    chain: &[Feed],
) -> Result<Pass, Pass>
    requires some { 0 < length chain.now }
    requires may { MayEnter R.limits sq.now pass chain.now }
    ensures filled { IfOk result (λ q. HasFilled R.limits sq.now pass chain.now q) }
    ensures full { IfErr result (λ q. WasFull R.limits sq.now (length chain.now) pass q) }
    ensures brought { MatchResult result (λ q. Brought R.limits sq.now chain.now pass q) (λ q. Brought R.limits sq.now [] pass q) }
    ensures more { MatchResult result (λ q. MayGoOn R.limits sq.now chain.now pass q) (λ q. MayGoOn R.limits sq.now [] pass q) }
{
    let turn = sq.turn(rt, pass);
    if turn.fits(chain.len()) {
        Ok(sq.fill(turn, chain))
    } else {
        Err(sq.plain(turn))
    }
}

// Which way the entry goes, by whether nobody has the perimeter, nothing is queued, and one feed is brought.
fn choose(mode: Mode, free: bool, empty: bool, one: bool) -> Way
    ensures { result ≡ way_of mode free empty one }
{
    match mode {
        Mode::Process if !free => Way::Fill,
        Mode::Process if empty && one => Way::Fast,
        Mode::Process => Way::Claim,
        Mode::NoDrain if free && empty && one => Way::Alone,
        Mode::NoDrain => Way::Fill,
        Mode::Fill => Way::Fill,
    }
}
