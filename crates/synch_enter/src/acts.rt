//! The one act of a synchronous owner, and its leaving.
ghost use Rattle.std.specs.Prelude.{◌≡◌, ℕ, List, length};
ghost use Rattle.turn_gate.specs.Passes.{number, seen};
ghost use Rattle.perimeter_core.specs.declared.entries.Act.{Act};
ghost use Rattle.perimeter_core.specs.declared.marks.SynchAct.TheVariants as Done;
ghost use Rattle.perimeter_core.specs.Perimeter.{Idle};
ghost use Rattle.perimeter_core.specs.History.{run};
ghost use Rattle.perimeter_core.specs.Deeds.{acts};
ghost use Rattle.squeue_state.specs.Naming.{Named, setting_of};
ghost use Rattle.histories.specs.Elements.{left_by_pass};
ghost use Rattle.squeue_state.specs.Clauses.{Added};
ghost use Rattle.squeue_drain.specs.Draining.{GoesOn};
ghost use Rattle.synch_enter.specs.Synch.{StandsAtItsAsk, MayCall, MayTake, MayPut, HasCalled, HasTaken, HasPut, acts_at};

use perimeter_core::{Resident, SynchAct};
use squeue_drain::Owner;
use squeue_state::{Notes, Pass, Squeue};
use std::alloc::Global;
use std::sync::Wait;

/// Whether a call was made, or found its block elsewhere.
#[derive(Clone, Copy, Debug, PartialEq, Eq)]
pub enum Called {
    /// The block was here, and the resident has made the call.
    Done,
    /// The block wasn't here, and nothing was called.
    Elsewhere,
}

/// Makes call `k` of thread `j` on connection `c`, where its block is here. Pass `rings + j` is that thread's. It is the
/// owner's one act, by whichever answer. `alloc` goes to the resident.
///
/// # Example
///
/// ```
/// let mut owner = owner;
/// let called = call(&mut owner, alloc, c, j, k);
/// (synch_exit::<R, Brand, W>(squeue, rt, owner), called)
/// ```
pub fn call<R: Resident>(owner: &mut Owner<R>, alloc: Global, c: u32, j: u32, k: u32) -> Called
    requires { (s : Named R) × MayCall R.Resident s c j k owner.old }
    ensures pass { owner.new.pass ≡ owner.old.pass }
    ensures hand { owner.new.hand ≡ owner.old.hand }
    ensures called { (s : Named R) → MayCall R.Resident s c j k owner.old → HasCalled R.Resident s c j k owner.old owner.new result }
{
    if owner.resident.is_here(c) {
        owner.resident.call(alloc, c, j, k);
        owner.act = SynchAct::Call { c, j, k };
        Called::Done
    } else {
        owner.act = SynchAct::Away;
        Called::Elsewhere
    }
}

/// Takes the block of connection `c` out, which is here. The pass is the connection's ring, and no feed of the connection
/// is queued. It is the owner's one act.
pub fn take_block<R: Resident>(owner: &mut Owner<R>, c: u32) -> R::Part
    requires { (s : Named R) × MayTake R.Resident s c owner.old }
    ensures pass { owner.new.pass ≡ owner.old.pass }
    ensures hand { owner.new.hand ≡ owner.old.hand }
    ensures taken { (s : Named R) → MayTake R.Resident s c owner.old → HasTaken R.Resident s c owner.old owner.new result }
{
    owner.act = SynchAct::Out { c };
    owner.resident.take_out(c)
}

/// Puts the block of connection `c` in, which isn't here. The pass is the connection's ring. It is the owner's one act.
pub fn put_block<R: Resident>(owner: &mut Owner<R>, c: u32, part: R::Part)
    requires { (s : Named R) × MayPut R.Resident s c part owner.old }
    ensures pass { owner.new.pass ≡ owner.old.pass }
    ensures hand { owner.new.hand ≡ owner.old.hand }
    ensures put { (s : Named R) (note : List Act) → MayPut R.Resident s c part owner.old → R.part_stands part note → HasPut R.Resident s c note owner.new }
{
    owner.act = SynchAct::In { c };
    owner.resident.put_in(c, part);
}

/// Leaves with the act that was done, and with what is left of the hand (illumos' `squeue_synch_exit`). `N` names the note of
/// an `In`: what was done to the block before it came. Without one it is `Brand`.
pub fn synch_exit<R: Resident, N: Notes, W: Wait>(sq: &Squeue<R>, rt: &W, owner: Owner<R>) -> Pass
    requires { StandsAtItsAsk R.Resident sq.now N.note owner }
    ensures left { Added R.limits sq.now owner.pass (left_by_pass (number owner.pass) (length owner.hand.left) owner.act N.note) result }
    ensures goes_on { GoesOn R.limits sq.now owner.pass result }
    ensures idle { Idle (run (setting_of R.limits sq.now.given) (seen result)) (number owner.pass) }
    ensures taken { (c : ℕ) → owner.act ≡ Done.Out c → acts (setting_of R.limits sq.now.given) (seen result) c ≡ acts_at R.limits sq.now c owner }
{
    let Owner {
        pass,
        resident,
        hand,
        act,
    } = owner;
    let turn = sq.turn(rt, pass);
    sq.leave::<N>(turn, resident, hand, act)
}
