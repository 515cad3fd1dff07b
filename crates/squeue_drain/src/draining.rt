//! An owner's turns, and the drain, which goes on until its budget is spent or nothing is left.
ghost use Rattle.std.specs.Prelude.{◌≡◌, ◌+◌, ◌-◌, ◌^◌, ◌<◌, ◌≤◌, true, false, List, [], ◌∷◌, length, Some};
ghost use Rattle.perimeter_core.specs.declared.entries.Entry.{Entry};
ghost use Rattle.perimeter_core.specs.declared.marks.SynchAct.TheVariants as Done;
ghost use Rattle.perimeter_core.specs.Perimeter.{polls};
ghost use Rattle.perimeter_core.specs.History.{run};
ghost use Rattle.perimeter_core.specs.Legal.{May};
ghost use Rattle.squeue_state.specs.Naming.{setting_of};
ghost use Rattle.histories.specs.Elements.{left_by_pass, granted_by};
ghost use Rattle.squeue_state.specs.Behind.{IsPeri};
ghost use Rattle.squeue_state.specs.Clauses.{IsLeft, Marked, peri_left, first_entry, asker};
ghost use Rattle.perimeter_core.specs.declared.entries.Entry.TheVariants as Entry';
ghost use Rattle.squeue_drain.specs.Owning.{Feeds, HasFeeds, NoFeedFirst, state_of};
ghost use Rattle.squeue_drain.specs.Draining.{Drained, ServedOne, Tells};
ghost use Rattle.squeue_drain.specs.Rounds.{Decided};

use crate::owner::{Owner, process, process_first};
use perimeter_core::{Feed, Hook, Resident, SynchAct, is_polling};
use squeue_state::{Hand, Pass, Squeue, Turn};
use std::alloc::Global;
use std::marker::Brand;
use std::sync::Wait;

/// What an owner did in its turn: it goes on with a new hand, or is owner no more. Then the number tells how many entries
/// are queued, and the flag whether the ring is to bring chains.
pub(crate) enum Round<R> {
    Goes(Owner<R>),
    Ended(Pass, u32, bool),
}

/// Processes the hand and what is queued meanwhile, in order, until `budget` feeds are processed, nothing is left, or the
/// Ask of another pass is met (illumos' `squeue_drain`, whose budget is a time). Asks count nothing. It returns the pass, how
/// many entries are queued after its last mark, and the polling flag then.
///
/// Each feed goes first to `hook`, and then to the resident with `alloc`, outside of the gate.
pub fn drain<R: Resident, H: Hook, W: Wait>(
    sq: &Squeue<R>,
    rt: &W,
    alloc: Global,
    hook: &H,
    owner: Owner<R>,
    budget: u32,
) -> (Pass, u32, bool)
    requires budget { 1 ≤ budget }
    requires feeds { Feeds R.Resident sq.now owner }
    requires has { HasFeeds R.limits sq.now owner }
    ensures drained { Drained R.limits sq.now budget owner result.0 }
    ensures tells { Tells R.limits sq.now result.0 result.1 result.2 }
{
    let mut owner = owner;
    let mut left = budget;
    for _ in rt.forever() {
        left = process(sq, alloc, hook, &mut owner, left);
        match decide(sq, rt, owner, left == 0) {
            Round::Goes(next) => owner = next,
            Round::Ended(pass, rest, polling) => return (pass, rest, polling),
        }
    }
    unreachable!()
}

/// Processes the one feed of the hand, which is `e`, and leaves what was queued meanwhile (illumos' `SQ_NODRAIN`). It returns
/// the same as `drain`.
pub fn serve_one<R: Resident, H: Hook, W: Wait>(
    sq: &Squeue<R>,
    rt: &W,
    alloc: Global,
    hook: &H,
    owner: Owner<R>,
    e: Feed,
) -> (Pass, u32, bool)
    requires feeds { Feeds R.Resident sq.now owner }
    requires has { HasFeeds R.limits sq.now owner }
    requires one { owner.hand.left ≡ Entry'.Feed e.c e.n ∷ [] }
    ensures served { ServedOne R.limits sq.now owner result.0 }
    ensures tells { Tells R.limits sq.now result.0 result.1 result.2 }
{
    let mut owner = owner;
    process_first(sq, alloc, hook, &mut owner, e.c, e.n);
    match decide(sq, rt, owner, true) {
        Round::Goes(_next) => unreachable!(),
        Round::Ended(pass, rest, polling) => (pass, rest, polling),
    }
}

// One turn of an owner that is done with the feeds at the front of its hand. Where its budget is spent it leaves, with what
// is left of the hand. Else it grants where an Ask is next, takes the queue, or leaves where nothing is queued.
pub(crate) fn decide<R: Resident, W: Wait>(
    sq: &Squeue<R>,
    rt: &W,
    owner: Owner<R>,
    spent: bool,
) -> Round<R>
    requires feeds { Feeds R.Resident sq.now owner }
    requires has { HasFeeds R.limits sq.now owner }
    requires some { spent ≡ true → length owner.hand.left < length (state_of R.limits sq.now owner).hand }
    requires front { spent ≡ false → NoFeedFirst owner.hand.left }
    ensures { Decided R.Resident sq.now spent owner result }
{
    let Owner {
        pass,
        resident,
        hand,
        act,
    } = owner;
    let turn = sq.turn(rt, pass);
    if spent {
        let (pass, rest, polling) = leave(sq, turn, resident, hand);
        return Round::Ended(pass, rest, polling);
    }
    if hand.len() > 0 {
        let (pass, rest, polling) = grant(sq, turn, resident, hand);
        return Round::Ended(pass, rest, polling);
    }
    if turn.chain_len() == 0 {
        let (pass, rest, polling) = leave(sq, turn, resident, hand);
        return Round::Ended(pass, rest, polling);
    }
    let (pass, hand) = sq.take(turn, hand);
    Round::Goes(Owner {
        pass,
        resident,
        hand,
        act,
    })
}

// Leaves with what is left of the hand.
fn leave<R: Resident>(sq: &Squeue<R>, turn: Turn<R>, resident: R, hand: Hand) -> (Pass, u32, bool)
    requires squeue { turn.squeue ≡ sq.now }
    requires hand { IsLeft R.limits sq.now.given turn.found hand }
    requires resident { IsPeri R.Resident sq.now.given resident (peri_left R.limits sq.now.given turn.found hand Done.None []) }
    requires may { May (setting_of R.limits sq.now.given) turn.found (left_by_pass turn.number (length hand.left) Done.None []) }
    requires room { length hand.left + length (run (setting_of R.limits sq.now.given) turn.found).chain < 2 ^ 31 }
    ensures marked { Marked turn (left_by_pass turn.number (length hand.left) Done.None []) result.0 }
    ensures rest { result.1 ≡ length hand.left + length (run (setting_of R.limits sq.now.given) turn.found).chain }
    ensures polling { (es : List Entry) → length es ≡ result.1 → result.2 ≡ polls es (run (setting_of R.limits sq.now.given) turn.found).polling }
{
    let rest = hand.len() + turn.chain_len();
    let polling = is_polling(rest as usize, turn.polling());
    (
        sq.leave::<Brand>(turn, resident, hand, SynchAct::None),
        rest,
        polling,
    )
}

// Hands the perimeter to the pass whose Ask is next.
fn grant<R: Resident>(sq: &Squeue<R>, turn: Turn<R>, resident: R, hand: Hand) -> (Pass, u32, bool)
    requires squeue { turn.squeue ≡ sq.now }
    requires hand { IsLeft R.limits sq.now.given turn.found hand }
    requires first { first_entry hand.left ≡ Some (Entry'.Ask (asker hand.left)) }
    requires resident { IsPeri R.Resident sq.now.given resident (peri_left R.limits sq.now.given turn.found hand Done.None []) }
    requires may { May (setting_of R.limits sq.now.given) turn.found (granted_by turn.number (asker hand.left) (length hand.left - 1)) }
    requires room { length hand.left + length (run (setting_of R.limits sq.now.given) turn.found).chain < 2 ^ 31 }
    ensures marked { Marked turn (granted_by turn.number (asker hand.left) (length hand.left - 1)) result.0 }
    ensures rest { result.1 + 1 ≡ length hand.left + length (run (setting_of R.limits sq.now.given) turn.found).chain }
    ensures polling { (es : List Entry) → length es ≡ result.1 → result.2 ≡ polls es (run (setting_of R.limits sq.now.given) turn.found).polling }
{
    let rest = hand.len() - 1 + turn.chain_len();
    let polling = is_polling(rest as usize, turn.polling());
    (sq.grant(turn, resident, hand), rest, polling)
}
