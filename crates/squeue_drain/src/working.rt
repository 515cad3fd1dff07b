//! The worker: it comes where something is queued and nobody has the perimeter.
ghost use Rattle.std.specs.Prelude.{◌≡◌, ◌↔◌, true};
ghost use Rattle.turn_gate.specs.Passes.{IsPassOf, number, seen};
ghost use Rattle.perimeter_core.specs.Ending.{IsOver};
ghost use Rattle.perimeter_core.specs.History.{run, worker as worker_of};
ghost use Rattle.histories.specs.Elements.{number_of};
ghost use Rattle.squeue_state.specs.Naming.{setting_of};
ghost use Rattle.squeue_drain.specs.Owning.{Feeds, HasFeeds};
ghost use Rattle.squeue_drain.specs.Working.{SomethingWaits, Worked};

use crate::draining::{Round, decide};
use crate::owner::{Owner, process};
use perimeter_core::{Hook, Own, Resident, SynchAct};
use squeue_state::{Pass, Squeue, Turn};
use std::alloc::Global;
use std::sync::Wait;

/// Works until every other pass is closed, nothing is queued and nobody has the perimeter, as a turn of its own has found.
/// Where something waits for the worker it takes the queue, and drains without a budget until a turn finds nothing queued or
/// it grants. Else it releases the gate without a mark, and sleeps until there may be work. It is illumos' `squeue_worker`,
/// but for its end. `pass` is the squeue's last one, and comes back with the end seen, as `Squeue::finish` wants it.
///
/// # Example
///
/// ```
/// let last = worker(&squeue, &rt, alloc, &NoHook, last);
/// passes.push_reserved(ring);
/// passes.push_reserved(thread);
/// passes.push_reserved(last);
/// let (logs, ended, trace) = squeue.finish(passes);
/// ```
pub fn worker<R: Resident, H: Hook, W: Wait>(
    sq: &Squeue<R>,
    rt: &W,
    alloc: Global,
    hook: &H,
    pass: Pass,
) -> Pass
    requires pass { IsPassOf number_of sq.now.gate pass }
    requires worker { number pass ≡ worker_of (setting_of R.limits sq.now.given) }
    ensures worked { Worked R.limits sq.now pass result }
    ensures over { IsOver (setting_of R.limits sq.now.given) (run (setting_of R.limits sq.now.given) (seen result)) }
{
    let mut pass = pass;
    for _ in rt.forever() {
        let (next, over) = work_once(sq, rt, alloc, hook, pass);
        if over {
            return next;
        }
        pass = next;
    }
    unreachable!()
}

// One turn of the worker, and its work where there is some. It tells whether the turn has found the end.
fn work_once<R: Resident, H: Hook, W: Wait>(
    sq: &Squeue<R>,
    rt: &W,
    alloc: Global,
    hook: &H,
    pass: Pass,
) -> (Pass, bool)
    requires pass { IsPassOf number_of sq.now.gate pass }
    requires worker { number pass ≡ worker_of (setting_of R.limits sq.now.given) }
    ensures worked { Worked R.limits sq.now pass result.0 }
    ensures over { result.1 ≡ true → IsOver (setting_of R.limits sq.now.given) (run (setting_of R.limits sq.now.given) (seen result.0)) }
{
    sq.listen(&pass);
    let turn = sq.turn(rt, pass);
    if !waits_for_worker(&turn) {
        let over = is_over(&turn);
        let pass = sq.plain(turn);
        if !over {
            sq.sleep(rt, &pass);
        }
        return (pass, over);
    }
    let (pass, resident, hand) = sq.work(turn);
    let owner = Owner {
        pass,
        resident,
        hand,
        act: SynchAct::None,
    };
    (drain_all(sq, rt, alloc, hook, owner), false)
}

// Processes the hand and what is queued meanwhile, until a turn finds nothing queued, or the Ask of another pass is met.
fn drain_all<R: Resident, H: Hook, W: Wait>(
    sq: &Squeue<R>,
    rt: &W,
    alloc: Global,
    hook: &H,
    owner: Owner<R>,
) -> Pass
    requires feeds { Feeds R.Resident sq.now owner }
    requires has { HasFeeds R.limits sq.now owner }
    ensures { Worked R.limits sq.now owner.pass result }
{
    let mut owner = owner;
    for _ in rt.forever() {
        let all = owner.hand.len();
        process(sq, alloc, hook, &mut owner, all);
        match decide(sq, rt, owner, false) {
            Round::Goes(next) => owner = next,
            Round::Ended(pass, _, _) => return pass,
        }
    }
    unreachable!()
}

// Whether something is queued for the worker, and nobody has the perimeter.
fn waits_for_worker<R: Resident>(turn: &Turn<R>) -> bool
    ensures { (result ≡ true) ↔ SomethingWaits (run (setting_of R.limits turn.now.squeue.given) turn.now.found) }
{
    turn.own() == Own::Free && turn.wake()
}

// Whether the turn has found the end.
fn is_over<R: Resident>(turn: &Turn<R>) -> bool
    ensures { (result ≡ true) ↔ IsOver (setting_of R.limits turn.now.squeue.given) (run (setting_of R.limits turn.now.squeue.given) turn.now.found) }
{
    turn.own() == Own::Free && turn.chain_len() == 0 && turn.others_closed()
}
