//! The calls that end a turn of who is, or becomes, owner, but for those that enter.
//!
//! Each adds exactly its mark, and has the mark's conditions on the history that the turn found. None takes memory. An
//! owner gives back what is left of its hand, and the resident with all else of the hand processed.
ghost use Rattle.std.specs.Prelude.{◌≡◌, ◌-◌, [], Some, length};
ghost use Rattle.perimeter_core.specs.declared.entries.Entry.TheVariants as Entry';
ghost use Rattle.perimeter_core.specs.declared.marks.SynchAct.TheVariants as Done;
ghost use Rattle.perimeter_core.specs.Legal.{May};
ghost use Rattle.perimeter_core.specs.Blocks.{peri};
ghost use Rattle.squeue_state.specs.Naming.{setting_of};
ghost use Rattle.squeue_state.specs.Behind.{IsPeri};
ghost use Rattle.histories.specs.Elements.{taken_by, left_by_pass, granted_by, accepted_by, worked_by};
ghost use Rattle.squeue_state.specs.Clauses.{Marked, IsLeft, IsWhole, peri_left, first_entry, asker};
ghost use Rattle.turn_gate.specs.Passes.{seen};

use crate::event::Notes;
use crate::hand::{Hand, Taken};
use crate::release::end_turn;
use crate::squeue::{Pass, Squeue};
use crate::turn::Turn;
use perimeter_core::{Entry, Kind, Resident, SynchAct};
use std::marker::Brand;

impl<R: Resident> Squeue<R> {
    /// Takes what is queued, when the hand is used up. At least one entry is queued. The new hand is all of it, in order.
    pub fn take(&self, turn: Turn<R>, hand: Hand) -> (Pass, Hand)
        requires squeue { turn.squeue ≡ self.now }
        requires hand { IsLeft R.limits self.now.given turn.found hand × (hand.left ≡ []) }
        requires may { May (setting_of R.limits self.now.given) turn.found (taken_by turn.number) }
        ensures pass { Marked turn (taken_by turn.number) result.0 }
        ensures hand { IsWhole R.limits self.now.given (seen result.0) result.1 }
    {
        let Turn { mut held, of: _ } = turn;
        let entries = held.value().inner.take(hand);
        let pass = end_turn::<R, Brand>(&self.gate, held, Kind::Take, &[]);
        let taken = Taken::Many(entries, 0);
        (pass, Hand { taken })
    }

    /// Gives the perimeter back, with what is left of the hand, and reports the act. `N` names the note of an `In`.
    ///
    /// What is left stands before what was queued meanwhile. Where anything is queued then, a wake is recorded, and the
    /// worker's bell rings. Of a hand that wasn't empty at least one entry is processed. Only an owner that accepted, or has
    /// come to its own Ask, does an act.
    pub fn leave<N: Notes>(&self, turn: Turn<R>, resident: R, hand: Hand, act: SynchAct) -> Pass
        requires squeue { turn.squeue ≡ self.now }
        requires hand { IsLeft R.limits self.now.given turn.found hand }
        requires resident { IsPeri R.Resident self.now.given resident (peri_left R.limits self.now.given turn.found hand act N.note) }
        requires may { May (setting_of R.limits self.now.given) turn.found (left_by_pass turn.number (length hand.left) act N.note) }
        ensures { Marked turn (left_by_pass turn.number (length hand.left) act N.note) result }
    {
        let Turn { mut held, of: _ } = turn;
        let rest = hand.len() as u64;
        held.value().inner.leave(resident, hand, act);
        let wakes = held.get().inner.wake;
        let pass = end_turn::<R, N>(&self.gate, held, Kind::Leave { rest, act }, &[]);
        if wakes {
            self.bells.ring_worker();
        }
        pass
    }

    /// Gives the perimeter to the pass whose Ask is the first entry of the hand, and the other entries back, before what was
    /// queued meanwhile. The resident lies in the gate for that pass alone, whose bell rings.
    pub fn grant(&self, turn: Turn<R>, resident: R, hand: Hand) -> Pass
        requires squeue { turn.squeue ≡ self.now }
        requires hand { IsLeft R.limits self.now.given turn.found hand }
        requires first { first_entry hand.left ≡ Some (Entry'.Ask (asker hand.left)) }
        requires resident { IsPeri R.Resident self.now.given resident (peri_left R.limits self.now.given turn.found hand Done.None []) }
        requires may { May (setting_of R.limits self.now.given) turn.found (granted_by turn.number (asker hand.left) (length hand.left - 1)) }
        ensures { Marked turn (granted_by turn.number (asker hand.left) (length hand.left - 1)) result }
    {
        let Turn { mut held, of: _ } = turn;
        let mut hand = hand;
        let Some(Entry::Ask { p: j }) = hand.first() else {
            unreachable!()
        };
        hand.pass_first();
        let rest = hand.len() as u64;
        held.value().inner.grant(resident, hand, j);
        let pass = end_turn::<R, Brand>(&self.gate, held, Kind::Grant { j, rest }, &[]);
        self.bells.of(j).ring();
        pass
    }

    /// Takes the perimeter that was granted to the pass. The hand is empty, since all before its Ask is processed. The pass
    /// may do one act, and its next mark is a Leave.
    pub fn accept(&self, turn: Turn<R>) -> (Pass, R, Hand)
        requires squeue { turn.squeue ≡ self.now }
        requires may { May (setting_of R.limits self.now.given) turn.found (accepted_by turn.number) }
        ensures pass { Marked turn (accepted_by turn.number) result.0 }
        ensures resident { IsPeri R.Resident self.now.given result.1 (peri (setting_of R.limits self.now.given) (seen result.0)) }
        ensures hand { IsWhole R.limits self.now.given (seen result.0) result.2 }
    {
        let Turn { mut held, of: _ } = turn;
        let p = held.number();
        let (resident, spare) = held.value().inner.accept(p);
        let Some(resident) = resident else {
            unreachable!()
        };
        let Some(entries) = spare else { unreachable!() };
        let pass = end_turn::<R, Brand>(&self.gate, held, Kind::Accept, &[]);
        let taken = Taken::Many(entries, 0);
        (pass, resident, Hand { taken })
    }

    /// Takes the perimeter and all that is queued, as the worker (illumos' `squeue_worker`). It is the last pass, a wake is
    /// recorded, and nobody has the perimeter.
    pub fn work(&self, turn: Turn<R>) -> (Pass, R, Hand)
        requires squeue { turn.squeue ≡ self.now }
        requires may { May (setting_of R.limits self.now.given) turn.found (worked_by turn.number) }
        ensures pass { Marked turn (worked_by turn.number) result.0 }
        ensures resident { IsPeri R.Resident self.now.given result.1 (peri (setting_of R.limits self.now.given) (seen result.0)) }
        ensures hand { IsWhole R.limits self.now.given (seen result.0) result.2 }
    {
        let Turn { mut held, of: _ } = turn;
        let p = held.number();
        let (resident, entries) = held.value().inner.work(p);
        let Some(resident) = resident else {
            unreachable!()
        };
        let pass = end_turn::<R, Brand>(&self.gate, held, Kind::Work, &[]);
        let taken = Taken::Many(entries, 0);
        (pass, resident, Hand { taken })
    }
}
