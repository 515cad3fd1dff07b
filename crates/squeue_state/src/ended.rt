//! What is left of a squeue at its end.

use crate::event::End;
use perimeter_core::Known;
use std::marker::Model;

/// A squeue that has ended. Only `Squeue::finish` makes one. Contracts see its number, its setting and its history, which
/// is legal and to which nothing may be added.
#[derive(Drop)]
pub struct Ended {
    pub(crate) number: u32,
    pub(crate) ending: Known<End>,
}

impl Model for Ended {
    ghost use Rattle.std.specs.Prelude.{◌≡◌};
    ghost use Rattle.histories.specs.Endings.{Ending, HasEnded};

    ghost Value = { Ending };

    ghost view = { λ e. e.ending.value };

    ghost invariant = { λ e. (e.ending.value.number ≡ e.number) × HasEnded e.ending.value };
}

impl Ended {
    ghost use Rattle.std.specs.Prelude.{◌≡◌};
    ghost use Rattle.histories.specs.Endings.{HasEnded};

    /// The squeue's number.
    pub fn number(&self) -> u32
        ensures number { result ≡ self.now.number }
        ensures ended { HasEnded self.now }
    {
        self.number
    }
}
