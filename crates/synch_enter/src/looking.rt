//! How a thread looks: a visit that changes nothing.
ghost use Rattle.std.specs.Prelude.{◌≡◌, ◌+◌};
ghost use Rattle.turn_gate.specs.Passes.{number, seen};
ghost use Rattle.perimeter_core.specs.Perimeter.{Idle};
ghost use Rattle.perimeter_core.specs.History.{run};
ghost use Rattle.perimeter_core.specs.Legal.{asks_by};
ghost use Rattle.squeue_state.specs.Naming.{setting_of};
ghost use Rattle.squeue_drain.specs.Draining.{GoesOn};
ghost use Rattle.synch_enter.specs.Seeing.{HasSeen};
ghost use Rattle.synch_enter.specs.Synch.{MayAsk};

use crate::visiting::{Visits, visit};
use perimeter_core::Resident;
use squeue_state::{Pass, Squeue};
use std::alloc::Global;
use std::sync::Wait;

/// What is read off a resident.
pub trait Reads<R> {
    /// What a reading answers.
    type Seen;

    /// What an answer says of the resident.
    ghost says: { Self → R → Self.Seen → Type 0 };

    /// Reads the resident, which nobody else has meanwhile.
    fn read(&self, resident: &R) -> Self::Seen
        ensures { says self.now resident.now result };
}

// A visitor that reads.
#[derive(Drop)]
struct Looks<'a, V> {
    reader: &'a V,
}

impl<'a, R: Resident, V: Reads<R>> Visits<R> for Looks<'a, V> {
    type Seen = V::Seen;

    ghost does = { λ self _ found _ seen. V.says self.reader.now found seen };

    fn visit(&mut self, resident: &mut R) -> V::Seen {
        self.reader.read(resident)
    }
}

/// Reads the resident at the pass's own Ask, behind all that was queued before it, and leaves with nothing done. The history
/// that the pass has seen afterwards is legal, has what it saw before as a beginning, and is what the resident that was read
/// stands for. It takes one ask of the pass's life.
///
/// A squeue that runs for ever has no end at which its theorem could be told. A look tells it in between, as often as it is
/// wanted: one look's history is a beginning of the next one's.
pub fn look<R: Resident, V: Reads<R>, W: Wait>(
    sq: &Squeue<R>,
    rt: &W,
    alloc: Global,
    pass: Pass,
    reader: &V,
) -> (Pass, V::Seen)
    requires may { MayAsk R.limits sq.now pass }
    ensures goes_on { GoesOn R.limits sq.now pass result.0 }
    ensures seen { HasSeen R.Resident sq.now (V.says reader.now) (seen result.0) result.1 }
    ensures idle { Idle (run (setting_of R.limits sq.now.given) (seen result.0)) (number pass) }
    ensures asks { asks_by (number pass) (seen result.0) ≡ asks_by (number pass) (seen pass) + 1 }
{
    visit(sq, rt, alloc, pass, &mut Looks { reader })
}
