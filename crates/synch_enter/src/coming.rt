//! Coming to a perimeter as owner.
ghost use Rattle.std.specs.Prelude.{◌≡◌, ◌↔◌, ◌<◌, ◌∷◌, [], ◌++◌, Option, Some, true, false, length, IfOk, MatchResult};
ghost use Rattle.turn_gate.specs.History.{Begins};
ghost use Rattle.turn_gate.specs.Passes.{IsPassOf, number, seen, mine};
ghost use Rattle.perimeter_core.specs.declared.entries.Entry.{Entry};
ghost use Rattle.perimeter_core.specs.declared.entries.Entry.TheVariants as Entry';
ghost use Rattle.perimeter_core.specs.declared.marks.Own.TheVariants as Own';
ghost use Rattle.perimeter_core.specs.Perimeter.{is_closed};
ghost use Rattle.perimeter_core.specs.History.{run};
ghost use Rattle.histories.specs.Elements.{number_of, accepted_by};
ghost use Rattle.squeue_state.specs.Naming.{setting_of};
ghost use Rattle.perimeter_core.specs.declared.marks.SynchAct.TheVariants as Done;
ghost use Rattle.squeue_drain.specs.Owning.{Feeds};
ghost use Rattle.synch_enter.specs.Synch.{MayAsk, MayAskAt, StandsAtItsAsk, Came, CameFor, CameBehind, NotFound};
ghost use Rattle.synch_enter.specs.HandingOn.{AskIsNext, HandedOn};

use perimeter_core::{Entry, Hook, Own, Resident};
use squeue_drain::{Owner, is_free, process};
use squeue_state::{Pass, Squeue, Turn};
use std::alloc::Global;
use std::sync::Wait;

/// Waits to be owner, and returns at the pass's own Ask (illumos' `squeue_synch_enter`): all that was queued before the Ask is
/// processed, and nothing behind it. Where nobody has the perimeter the caller processes that itself, each feed first by
/// `hook` and then by the resident with `alloc`. The owner has done no act yet, and may do one. `pass` isn't the worker's, and
/// has an ask left.
///
/// # Example
///
/// ```
/// let owner = synch_enter(squeue, rt, alloc, &NoHook, pass);
/// let (pass, called) = calls(rt, alloc, squeue, owner, c, j, k);
/// ```
pub fn synch_enter<R: Resident, H: Hook, W: Wait>(
    sq: &Squeue<R>,
    rt: &W,
    alloc: Global,
    hook: &H,
    pass: Pass,
) -> Owner<R>
    requires { MayAsk R.limits sq.now pass }
    ensures owner { StandsAtItsAsk R.Resident sq.now [] result }
    ensures no_act { result.act ≡ Done.None }
    ensures came { Came R.limits sq.now pass result.pass }
{
    let turn = sq.turn(rt, pass);
    come(sq, rt, alloc, hook, turn)
}

/// The same, unless the first turn finds that the block of `c` isn't here. Then nothing is asked, and the pass
/// comes back. `Err` comes for no other cause.
pub fn synch_try<R: Resident, H: Hook, W: Wait>(
    sq: &Squeue<R>,
    rt: &W,
    alloc: Global,
    hook: &H,
    pass: Pass,
    c: u32,
) -> Result<Owner<R>, Pass>
    requires may { MayAsk R.limits sq.now pass }
    requires range { c < length sq.now.given.starts }
    ensures found { MatchResult result (λ o. StandsAtItsAsk R.Resident sq.now [] o × (o.act ≡ Done.None)) (λ q. NotFound R.limits sq.now c pass q) }
    ensures came { IfOk result (λ o. CameFor R.limits sq.now c pass o.pass) }
{
    let turn = sq.turn(rt, pass);
    if !turn.is_here(c) {
        return Err(sq.plain(turn));
    }
    Ok(come(sq, rt, alloc, hook, turn))
}

// The owner's way in, once the gate is held.
fn come<R: Resident, H: Hook, W: Wait>(
    sq: &Squeue<R>,
    rt: &W,
    alloc: Global,
    hook: &H,
    turn: Turn<R>,
) -> Owner<R>
    requires { MayAskAt R.limits sq.now turn }
    ensures owner { StandsAtItsAsk R.Resident sq.now [] result }
    ensures no_act { result.act ≡ Done.None }
    ensures number { number result.pass ≡ turn.number }
    ensures came { CameBehind (setting_of R.limits sq.now.given) turn.number turn.found turn.mine result.pass }
{
    if is_free(turn.own()) {
        claim(sq, rt, alloc, hook, turn)
    } else {
        wait_for_grant(sq, rt, sq.ask(turn))
    }
}

// The same, where nobody has the perimeter.
fn claim<R: Resident, H: Hook, W: Wait>(
    sq: &Squeue<R>,
    rt: &W,
    alloc: Global,
    hook: &H,
    turn: Turn<R>,
) -> Owner<R>
    requires may { MayAskAt R.limits sq.now turn }
    requires free { (run (setting_of R.limits sq.now.given) turn.found).own ≡ Own'.Free }
    ensures owner { StandsAtItsAsk R.Resident sq.now [] result }
    ensures no_act { result.act ≡ Done.None }
    ensures number { number result.pass ≡ turn.number }
    ensures came { CameBehind (setting_of R.limits sq.now.given) turn.number turn.found turn.mine result.pass }
{
    let me = turn.number();
    let mut owner = Owner::of(sq.claim_ask(turn));
    let all = owner.hand.len();
    process(sq, alloc, hook, &mut owner, all);
    if is_ask_of(owner.hand.first(), me) {
        owner.hand.pass_first();
        return owner;
    }
    wait_for_grant(sq, rt, hand_on(sq, rt, owner))
}

// Grants to the pass whose Ask is next.
fn hand_on<R: Resident, W: Wait>(sq: &Squeue<R>, rt: &W, owner: Owner<R>) -> Pass
    requires feeds { Feeds R.Resident sq.now owner }
    requires next { AskIsNext owner }
    ensures { HandedOn R.limits sq.now owner result }
{
    let Owner {
        pass,
        resident,
        hand,
        act: _,
    } = owner;
    let turn = sq.turn(rt, pass);
    sq.grant(turn, resident, hand)
}

// Waits until a turn finds the perimeter granted to the pass, and takes it. After each other turn it sleeps until the
// perimeter may have been granted to it.
fn wait_for_grant<R: Resident, W: Wait>(sq: &Squeue<R>, rt: &W, pass: Pass) -> Owner<R>
    requires pass { IsPassOf number_of sq.now.gate pass }
    requires no_worker { number pass < length sq.now.given.quotas }
    requires open_pass { is_closed (run (setting_of R.limits sq.now.given) (seen pass)) (number pass) ≡ false }
    ensures owner { StandsAtItsAsk R.Resident sq.now [] result }
    ensures no_act { result.act ≡ Done.None }
    ensures number { number result.pass ≡ number pass }
    ensures grows { Begins (seen pass) (seen result.pass) }
    ensures mine { mine result.pass ≡ mine pass ++ accepted_by (number pass) ∷ [] }
{
    let mut pass = pass;
    for _ in rt.forever() {
        sq.listen(&pass);
        let turn = sq.turn(rt, pass);
        if is_granted(turn.own(), turn.number()) {
            return Owner::of(sq.accept(turn));
        }
        pass = sq.plain(turn);
        sq.sleep(rt, &pass);
    }
    unreachable!()
}

// Whether the perimeter is granted to the pass of this number.
fn is_granted(own: Own, me: u32) -> bool
    ensures { (result ≡ true) ↔ (own ≡ Own'.Granted me) }
{
    match own {
        Own::Granted(p) => p == me,
        Own::Free => false,
        Own::Out(_) => false,
    }
}

// Whether the entry is the Ask of the pass of this number.
fn is_ask_of(entry: Option<Entry>, me: u32) -> bool
    ensures { (result ≡ true) ↔ (entry ≡ Some (Entry'.Ask me)) }
{
    match entry {
        Some(Entry::Ask { p }) => p == me,
        Some(Entry::Feed { c: _, n: _ }) => false,
        None => false,
    }
}
