//! The value behind the gate: what it keeps of the perimeter, and the marks so far where they are kept.
ghost use Rattle.std.specs.Prelude.{◌≡◌, ◌+◌, ◌<◌, ◌≤◌, List, [], ◌∷◌, ◌++◌, length, true};
ghost use Rattle.perimeter_core.specs.History.{Element};
ghost use Rattle.perimeter_core.specs.Deeds.{entries_of};
ghost use Rattle.perimeter_core.specs.Kinds.{mark_by};
ghost use Rattle.squeue_state.specs.Naming.{Given};
ghost use Rattle.squeue_state.specs.Behind.{Noted};

use crate::event::{Event, Facts};
use crate::inner::Inner;
use crate::trace::Trace;
use perimeter_core::{Feed, Kind, Known, Resident};
use turn_gate::Storied;

/// How many feeds and asks a pass may ever enter, of a squeue whose room is apart from them: numbers of contracts alone,
/// which take no memory.
#[derive(Clone, Copy)]
pub struct Life {
    pub feeds: u64,
    pub asks: u64,
}

/// What lies behind a gate. Of `facts` and `first` only those of the value that the gate was made with are ever read, and
/// by contracts alone.
#[derive(Drop)]
pub struct Guarded<R> {
    pub(crate) traced: bool,
    pub(crate) inner: Inner<R>,
    pub(crate) trace: Trace,
    pub(crate) facts: Known<Facts>,
    pub(crate) first: Known<R>,
}

impl<R: Resident> Storied for Guarded<R> {
    ghost use Rattle.histories.specs.Elements.{number_of};
    ghost use Rattle.squeue_state.specs.Behind.{StandsFor};

    type Mark = Kind;

    type Element = Event;

    ghost stands = { StandsFor R.Resident };

    ghost number = { number_of };
}

impl<R> Guarded<R> {
    /// Keeps the mark, where marks are kept.
    pub(crate) fn note(&mut self, p: u32, kind: Kind, es: &[Feed])
        requires { self.old.traced ≡ true → (length self.old.trace.marks < self.old.trace.mark_room)
            × (length self.old.trace.entries + length (entries_of (mark_by p kind es.now)) ≤ self.old.trace.entry_room) }
        ensures same { self.new ≡ record self.old { trace = self.new.trace } }
        ensures noted { (g : Given R) (H : List Element) (e : Element) → e.mark ≡ mark_by p kind es.now → Noted g self.old.traced self.old.trace H
            → Noted g self.new.traced self.new.trace (H ++ e ∷ []) }
    {
        if self.traced {
            self.trace.note(p, kind, es);
        }
    }
}
