//! The calls that end a turn with what enters, asks or closes.
//!
//! Each adds exactly its mark, and has the mark's conditions on the history that the turn found. None takes memory.
ghost use Rattle.std.specs.Prelude.{◌≡◌, [], length};
ghost use Rattle.perimeter_core.specs.Legal.{May};
ghost use Rattle.perimeter_core.specs.Blocks.{peri};
ghost use Rattle.squeue_state.specs.Naming.{setting_of};
ghost use Rattle.squeue_state.specs.Behind.{FeedsFit, IsPeri};
ghost use Rattle.histories.specs.Elements.{filled_by, fast_by, claimed_by, ask_claimed_by, asked_by, closed_by};
ghost use Rattle.squeue_state.specs.Clauses.{Marked, IsWhole};
ghost use Rattle.turn_gate.specs.Passes.{seen};

use crate::hand::{Hand, Taken};
use crate::release::end_turn;
use crate::squeue::{Pass, Squeue};
use crate::turn::Turn;
use perimeter_core::{Feed, Kind, Resident};
use std::marker::Brand;

impl<R: Resident> Squeue<R> {
    /// Queues the feeds behind what is queued (illumos' `SQ_FILL`), for the owner or the worker. Where nobody has the perimeter
    /// a wake is recorded. Where one is recorded, the worker's bell rings after the turn.
    ///
    /// `es` isn't empty. Each feed is the next one of its connection, whose block is here, and the pass is that connection's
    /// ring.
    pub fn fill(&self, turn: Turn<R>, es: &[Feed]) -> Pass
        requires squeue { turn.squeue ≡ self.now }
        requires may { May (setting_of R.limits self.now.given) turn.found (filled_by turn.number es.now) }
        requires room { FeedsFit (setting_of R.limits self.now.given) self.now.given.room turn.found (length es.now) }
        ensures { Marked turn (filled_by turn.number es.now) result }
    {
        let Turn { mut held, of: _ } = turn;
        held.value().inner.fill(es);
        let wakes = held.get().inner.wake;
        let pass = end_turn::<R, Brand>(&self.gate, held, Kind::Fill, es);
        if wakes {
            self.bells.ring_worker();
        }
        pass
    }

    /// Takes the perimeter with one feed, where nobody has it and nothing is queued. The feed is never queued: it is the whole
    /// hand, which the caller processes outside of the gate. It gives the pass, the resident and the hand.
    pub fn fast(&self, turn: Turn<R>, e: Feed) -> (Pass, R, Hand)
        requires squeue { turn.squeue ≡ self.now }
        requires may { May (setting_of R.limits self.now.given) turn.found (fast_by turn.number e) }
        requires room { FeedsFit (setting_of R.limits self.now.given) self.now.given.room turn.found 1 }
        ensures pass { Marked turn (fast_by turn.number e) result.0 }
        ensures resident { IsPeri R.Resident self.now.given result.1 (peri (setting_of R.limits self.now.given) (seen result.0)) }
        ensures hand { IsWhole R.limits self.now.given (seen result.0) result.2 }
    {
        let Turn { mut held, of: _ } = turn;
        let p = held.number();
        let resident = held.value().inner.fast(p);
        let Some(resident) = resident else {
            unreachable!()
        };
        let pass = end_turn::<R, Brand>(&self.gate, held, Kind::Fast, &[e]);
        let taken = Taken::One(Some(e));
        (pass, resident, Hand { taken })
    }

    /// Queues the feeds, and takes the perimeter and all that is queued, where nobody has it. The hand is what was queued, and
    /// then the feeds. A wake that was recorded is over, since the caller comes in the worker's place.
    pub fn claim(&self, turn: Turn<R>, es: &[Feed]) -> (Pass, R, Hand)
        requires squeue { turn.squeue ≡ self.now }
        requires may { May (setting_of R.limits self.now.given) turn.found (claimed_by turn.number es.now) }
        requires room { FeedsFit (setting_of R.limits self.now.given) self.now.given.room turn.found (length es.now) }
        ensures pass { Marked turn (claimed_by turn.number es.now) result.0 }
        ensures resident { IsPeri R.Resident self.now.given result.1 (peri (setting_of R.limits self.now.given) (seen result.0)) }
        ensures hand { IsWhole R.limits self.now.given (seen result.0) result.2 }
    {
        let Turn { mut held, of: _ } = turn;
        let p = held.number();
        let (resident, entries) = held.value().inner.claim(p, es);
        let Some(resident) = resident else {
            unreachable!()
        };
        let pass = end_turn::<R, Brand>(&self.gate, held, Kind::Claim, es);
        let taken = Taken::Many(entries, 0);
        (pass, resident, Hand { taken })
    }

    /// Queues the pass's own Ask, and takes the perimeter and all that is queued, where nobody has it. The Ask is the last
    /// entry of the hand. An owner that has processed all before it may do one act as it leaves.
    pub fn claim_ask(&self, turn: Turn<R>) -> (Pass, R, Hand)
        requires squeue { turn.squeue ≡ self.now }
        requires may { May (setting_of R.limits self.now.given) turn.found (ask_claimed_by turn.number) }
        ensures pass { Marked turn (ask_claimed_by turn.number) result.0 }
        ensures resident { IsPeri R.Resident self.now.given result.1 (peri (setting_of R.limits self.now.given) (seen result.0)) }
        ensures hand { IsWhole R.limits self.now.given (seen result.0) result.2 }
    {
        let Turn { mut held, of: _ } = turn;
        let p = held.number();
        let (resident, entries) = held.value().inner.claim_ask(p);
        let Some(resident) = resident else {
            unreachable!()
        };
        let pass = end_turn::<R, Brand>(&self.gate, held, Kind::ClaimAsk, &[]);
        let taken = Taken::Many(entries, 0);
        (pass, resident, Hand { taken })
    }

    /// Queues the pass's wish to own the perimeter, where somebody has it. From then on the pass may only look: by `listen`, a
    /// turn and `sleep` it waits until a turn finds the perimeter granted to it, and then accepts.
    pub fn ask(&self, turn: Turn<R>) -> Pass
        requires squeue { turn.squeue ≡ self.now }
        requires may { May (setting_of R.limits self.now.given) turn.found (asked_by turn.number) }
        ensures { Marked turn (asked_by turn.number) result }
    {
        let Turn { mut held, of: _ } = turn;
        let p = held.number();
        held.value().inner.ask(p);
        end_turn::<R, Brand>(&self.gate, held, Kind::Ask, &[])
    }

    /// Closes the pass, which then enters, asks and closes no more. What it has entered stays queued. The worker's bell rings,
    /// since the worker ends when all other passes are closed.
    pub fn close(&self, turn: Turn<R>) -> Pass
        requires squeue { turn.squeue ≡ self.now }
        requires may { May (setting_of R.limits self.now.given) turn.found (closed_by turn.number) }
        ensures { Marked turn (closed_by turn.number) result }
    {
        let Turn { mut held, of: _ } = turn;
        let p = held.number();
        held.value().inner.close(p);
        let pass = end_turn::<R, Brand>(&self.gate, held, Kind::Close, &[]);
        self.bells.ring_worker();
        pass
    }
}
