//! How a thread visits a resident: it may change how the resident keeps what it stands for, and never what it stands for.
ghost use Rattle.std.specs.Prelude.{◌≡◌, ◌+◌};
ghost use Rattle.turn_gate.specs.Passes.{number, seen};
ghost use Rattle.perimeter_core.specs.Blocks.{Blocks};
ghost use Rattle.perimeter_core.specs.Perimeter.{Idle};
ghost use Rattle.perimeter_core.specs.History.{run};
ghost use Rattle.perimeter_core.specs.Legal.{asks_by};
ghost use Rattle.squeue_state.specs.Naming.{setting_of};
ghost use Rattle.squeue_drain.specs.Draining.{GoesOn};
ghost use Rattle.synch_enter.specs.Seeing.{HasVisited};
ghost use Rattle.synch_enter.specs.Synch.{MayAsk};

use crate::coming::synch_enter;
use perimeter_core::{NoHook, Resident};
use squeue_drain::Owner;
use squeue_state::{Pass, Squeue};
use std::alloc::Global;
use std::marker::Brand;
use std::sync::Wait;

/// What is done to a resident between two of its feeds.
pub trait Visits<R: Resident> {
    /// What a visit answers.
    type Seen;

    /// What is done: the visitor before and after, the resident before and after, and the answer.
    ghost does: { Self → Self → R → R → Self.Seen → Type 0 };

    /// Visits the resident, which nobody else has meanwhile. Afterwards it stands for all blocks for which it stood before: what a
    /// visit takes out it puts in again.
    fn visit(&mut self, resident: &mut R) -> Self::Seen
        requires some { (blocks : Blocks) × R.stands resident.old blocks }
        ensures does { does self.old self.new resident.old resident.new result }
        ensures stands { (blocks : Blocks) → R.stands resident.old blocks → R.stands resident.new blocks }
        ensures limits { R.limits resident.new ≡ R.limits resident.old }
        ensures size { R.size resident.new ≡ R.size resident.old }
        ensures origin { R.origin resident.new ≡ R.origin resident.old };
}

/// Visits the resident at the pass's own Ask, behind all that was queued before it, and leaves without an act. The history that
/// the pass has seen afterwards is legal, has what it saw before as a beginning, and is what the resident stands for, as the
/// visitor found it and as it left it. It takes one ask of the pass's life.
pub fn visit<R: Resident, V: Visits<R>, W: Wait>(
    sq: &Squeue<R>,
    rt: &W,
    alloc: Global,
    pass: Pass,
    visitor: &mut V,
) -> (Pass, V::Seen)
    requires may { MayAsk R.limits sq.now pass }
    ensures goes_on { GoesOn R.limits sq.now pass result.0 }
    ensures seen { HasVisited R.Resident sq.now (V.does visitor.old visitor.new) (seen result.0) result.1 }
    ensures idle { Idle (run (setting_of R.limits sq.now.given) (seen result.0)) (number pass) }
    ensures asks { asks_by (number pass) (seen result.0) ≡ asks_by (number pass) (seen pass) + 1 }
{
    let owner = synch_enter(sq, rt, alloc, &NoHook, pass);
    let Owner {
        pass,
        mut resident,
        hand,
        act,
    } = owner;
    let seen = visitor.visit(&mut resident);
    let turn = sq.turn(rt, pass);
    (sq.leave::<Brand>(turn, resident, hand, act), seen)
}
