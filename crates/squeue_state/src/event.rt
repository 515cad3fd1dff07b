//! Types for contracts alone. No program makes a value of them.
ghost use Rattle.std.specs.Prelude.{List, []};
ghost use Rattle.perimeter_core.specs.declared.entries.Act.{Act};

use std::convert::Infallible;
use std::marker::{Brand, Model};

/// An element of a history.
#[derive(Drop)]
pub struct Event {
    never: Infallible,
}

impl Model for Event {
    ghost use Rattle.perimeter_core.specs.History.{Element};

    ghost Value = { Element };

    ghost view = { λ e. elim e.never [ ] };
}

/// How a squeue ended.
#[derive(Drop)]
pub struct End {
    never: Infallible,
}

impl Model for End {
    ghost use Rattle.histories.specs.Endings.{Ending};

    ghost Value = { Ending };

    ghost view = { λ e. elim e.never [ ] };
}

/// What a squeue was made with, but for its resident.
#[derive(Drop)]
pub struct Facts {
    never: Infallible,
}

impl Model for Facts {
    ghost use Rattle.squeue_state.specs.Naming.{Chosen};

    ghost Value = { Chosen };

    ghost view = { λ f. elim f.never [ ] };
}

/// The note of a mark. A call at `Brand` picks it, and has none where it doesn't.
pub trait Notes {
    ghost note: { List Act };
}

impl Notes for Brand {
    ghost note = { [] };
}
